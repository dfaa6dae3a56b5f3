//! The walks of an image, and their lines.
ghost use Rattle.std.specs.Prelude.{◌≡◌, ◌==◌, ◌+◌, ◌*◌, ◌^◌, ◌%◌, ◌++◌, length, min};
ghost use Rattle.std.specs.List.{list_all};

use arrayvec::ArrayVec;
use faults::Fault;
use lines::Image;
use numbers::Header;
use one_function::Function;
use std::fmt;
use std::io::{self, Write};

/// The longest list that is lent for a result, and more numbers than the known functions may have.
const MOST: usize = 4096;

/// An address with its section's number before it; 0 is none.
#[derive(Clone, Copy, Debug, PartialEq, Eq)]
struct Key(u64);

impl fmt::Display for Key {
    fn fmt<W: fmt::Write>(&self, f: &mut fmt::Formatter<W>) -> fmt::Result {
        match self.0 {
            0 => f.write_str("-"),
            key => write!(f, "{key:09x}"),
        }
    }
}

fn joined(section: u32, address: u32) -> u64
    ensures { result ≡ section * 0x1_0000_0000 + address }
{
    u64::from(section) * 0x1_0000_0000 + u64::from(address)
}

/// A walk that is asked for.
#[derive(Clone, Copy, Debug)]
struct Asked {
    start: u64,
    end: u64,
}

// ---- the lent list

/// What the lent list holds before a walk at an index: no zero, and nothing twice.
fn filled(index: usize) -> u64
    ensures { result ≡ (index + 0x5A5A_0000_0000) % 2 ^ 64 }
{
    (index as u64).wrapping_add(0x5A5A_0000_0000)
}

/// The part of a list that is lent for a result, of the length that is asked for, or all of it.
fn lent(list: &mut [u64], room: u32) -> &mut [u64]
    ensures { length result.now ≡ min room (length list.old) }
{
    let room = (room as usize).min(list.len());
    &mut list[..room]
}

fn fill(list: &mut [u64]) {
    for (index, value) in list.iter_mut().enumerate() {
        *value = filled(index);
    }
}

/// What is said of a lent list past what was stored in it.
#[derive(Clone, Copy, Debug, PartialEq, Eq)]
enum Rest {
    Zero,
    Untouched,
    Changed,
}

impl fmt::Display for Rest {
    fn fmt<W: fmt::Write>(&self, f: &mut fmt::Formatter<W>) -> fmt::Result {
        f.write_str(match self {
            Rest::Zero => "zero",
            Rest::Untouched => "untouched",
            Rest::Changed => "changed",
        })
    }
}

fn are_zeros(list: &[u64]) -> bool
    ensures { result ≡ list_all (λ x. x == 0) list.now }
{
    list.iter().all(|value| *value == 0)
}

/// Zeros are to stand past what was stored.
fn rest_of(rest: &[u64]) -> Rest {
    if are_zeros(rest) {
        Rest::Zero
    } else {
        Rest::Changed
    }
}

/// A walk that was refused before it began is to leave the list as it was, one that met a fault zeros.
fn left_by(fault: Fault, list: &[u64]) -> Rest {
    match fault {
        Fault::Image | Fault::Outcome | Fault::List => {
            if list
                .iter()
                .enumerate()
                .all(|(index, value)| *value == filled(index))
            {
                Rest::Untouched
            } else {
                Rest::Changed
            }
        }
        _ => rest_of(list),
    }
}

// ---- lines

/// The next `count` elements of what is left of a list.
fn next_column<'a>(rest: &mut &'a [u64], count: usize) -> &'a [u64]
    ensures { rest.old.now ≡ result.now ++ rest.new.now }
{
    let (column, after) = rest.split_at(count.min(rest.len()));
    *rest = after;
    column
}

fn print_keys<W: Write>(out: &mut W, name: &str, keys: &[u64]) -> io::Result<()> {
    for key in keys {
        writeln!(out, "{name} {}", Key(*key))?;
    }
    Ok(())
}

fn print_pairs<W: Write>(out: &mut W, name: &str, froms: &[u64], tos: &[u64]) -> io::Result<()> {
    for (from, to) in froms.iter().zip(tos) {
        writeln!(out, "{name} {} {}", Key(*from), Key(*to))?;
    }
    Ok(())
}

/// All lists; what stands behind them.
fn print_lists<'a, W: Write>(
    out: &mut W,
    list: &'a [u64],
    header: &Header,
) -> io::Result<&'a [u64]> {
    let mut rest = list;
    let blocks = usize::from(header.blocks);
    let starts = next_column(&mut rest, blocks);
    let ends = next_column(&mut rest, blocks);
    print_pairs(out, "B", starts, ends)?;
    let branches = usize::from(header.branches);
    let froms = next_column(&mut rest, branches);
    let tos = next_column(&mut rest, branches);
    print_pairs(out, "C", froms, tos)?;
    let references = next_column(&mut rest, usize::from(header.function_references));
    print_keys(out, "X", references)?;
    let jump_tables = usize::from(header.jump_table_references);
    let tables = next_column(&mut rest, jump_tables);
    let sizes = next_column(&mut rest, jump_tables);
    for (table, size) in tables.iter().zip(sizes) {
        writeln!(out, "J {} {size:08x}", Key(*table))?;
    }
    let possible = next_column(&mut rest, usize::from(header.possible_blocks));
    print_keys(out, "P", possible)?;
    Ok(rest)
}

fn print_function<W: Write>(out: &mut W, function: &Function, list: &[u64]) -> io::Result<()> {
    let header = function.header;
    writeln!(
        out,
        "A {} {} {} {}{}{}",
        u8::from(function.found),
        Key(header.prologue.unwrap_or(0)),
        Key(header.epilogue.unwrap_or(0)),
        u8::from(header.has_conditional_blr),
        u8::from(header.has_rfi),
        u8::from(header.has_r1_load)
    )?;
    let rest = print_lists(out, list, &header)?;
    writeln!(out, "L {}", rest_of(rest))
}

fn print_walk<W: Write>(
    out: &mut W,
    answer: Result<Function, Fault>,
    list: &[u64],
) -> io::Result<()> {
    match answer {
        Ok(function) => {
            writeln!(out, "R 00")?;
            print_function(out, &function, list)
        }
        Err(fault) => {
            writeln!(out, "R {:02}", fault.number())?;
            writeln!(out, "L {}", left_by(fault, list))
        }
    }
}

// ---- walks

/// The answer to one walk, whose lists are put into the lent list.
fn walk(image: &Image, known: &[u64], asked: Asked, list: &mut [u64]) -> Result<Function, Fault> {
    fill(list);
    one_function::walk_function(
        image.sections,
        image.bytes,
        image.outcomes,
        image.functions,
        image.objects,
        image.skips,
        image.entry,
        known,
        asked.start,
        asked.end,
        list,
    )
}

/// The addresses that a list's halves make, as far as there is room: more than a walk takes.
fn known_of(halves: &[u32]) -> ArrayVec<u64, MOST> {
    let mut known = ArrayVec::new();
    for halves in halves.chunks_exact(2) {
        if let [section, address] = halves {
            let _ = known.try_push(joined(*section, *address));
        }
    }
    known
}

/// The answer of an image: its walks, in order.
pub fn answer<W: Write>(out: &mut W, image: &Image) -> io::Result<()> {
    let known = known_of(image.known);
    let mut list = [0; MOST];
    for row in image.walks.chunks_exact(5) {
        if let [start_section, start, end_section, end, room] = row {
            let asked = Asked {
                start: joined(*start_section, *start),
                end: joined(*end_section, *end),
            };
            let list = lent(&mut list, *room);
            let answer = walk(image, known.as_slice(), asked, list);
            print_walk(out, answer, list)?;
        }
    }
    Ok(())
}
