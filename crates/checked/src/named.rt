//! The jump tables of an image that passes the checks.
use faults::Fault;
use jump_tables::{JumpTable, uniq_jump_table_entries};
use obj_info::{Branch, ObjInfo, Outcome, To};
use std::io::{self, Write};

/// From where to where a table without a size may lead.
#[derive(Clone, Copy, Debug, PartialEq, Eq)]
struct Bounds {
    first: u64,
    past: u64,
}

/// What the walk hands to the reading of a table when it comes to a word straight from its function's start: the start of the last
/// function symbol at or below the word, else of the code section, and the end that the symbol knows, else the word's own.
fn bounds_at(obj: &ObjInfo, word: u32) -> Bounds {
    let mut start = obj.code().base;
    let mut known_size = None;
    for row in obj.functions() {
        let [symbol, size, is_known] = *row;
        if symbol <= word {
            start = symbol;
            known_size = if is_known == 1 {
                Some(u64::from(size))
            } else {
                None
            };
        }
    }
    // Addresses with their sections are far below 2^64, so nothing wraps; this sum asks no proof of it.
    let first = obj.locate(start).unwrap_or(0);
    let past = match known_size {
        Some(size) => first.wrapping_add(size),
        None => obj.locate(word).unwrap_or(0).wrapping_add(4),
    };
    Bounds { first, past }
}

fn print_entries<W: Write>(out: &mut W, table: Result<JumpTable, Fault>) -> io::Result<()> {
    match table {
        Ok(table) => {
            write!(out, "size {:08x}", table.size)?;
            for entry in table.entries.as_slice() {
                write!(out, " {entry:09x}")?;
            }
            Ok(())
        }
        Err(fault) => write!(out, "fault {}", fault.number()),
    }
}

/// The table at an address, named by a code word. One that lies in no section is passed over.
fn print_table<W: Write>(
    out: &mut W,
    obj: &ObjInfo,
    word: u32,
    address: u32,
    size: u32,
) -> io::Result<()> {
    let Some(target) = obj.locate(address) else {
        return Ok(());
    };
    let bounds = bounds_at(obj, word);
    let table = uniq_jump_table_entries(obj, target, size, bounds.first, Some(bounds.past));
    write!(out, "{address:08x} {size:08x} ")?;
    print_entries(out, table)?;
    writeln!(out, "")
}

/// A branch to a table, which gives no size.
fn print_branch<W: Write>(out: &mut W, obj: &ObjInfo, word: u32, branch: Branch) -> io::Result<()> {
    match branch.to {
        To::Table(address) => print_table(out, obj, word, address, 0),
        _ => Ok(()),
    }
}

/// The tables of all code words, in order: those of jump tables, and of lists' branches.
pub fn print_tables<W: Write>(out: &mut W, obj: &ObjInfo) -> io::Result<()> {
    let code = obj.code();
    for index in 0..code.size / 4 {
        let word = code.base + 4 * index;
        let key = code.number * 0x1_0000_0000 + u64::from(word);
        match obj.told_at(key).outcome {
            Outcome::JumpTable(address, size) => print_table(out, obj, word, address, size)?,
            Outcome::Branches(first, second) => {
                print_branch(out, obj, word, first)?;
                print_branch(out, obj, word, second)?;
            }
            _ => {}
        }
    }
    Ok(())
}
