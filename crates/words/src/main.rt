//! Reads instruction words in hexadecimal, a line each, and prints for each whether it is a branch, which registers it names, and
//! what the walk takes it for. A line that is no word prints '?'.
#![tactic(auto)]

ghost use Rattle.std.specs.Prelude.{◌≡◌, ◌<◌, ◌+◌, ◌∷◌, [], ◌++◌, cond, length, filter, codes, IfSome, OnOk};
ghost use Rattle.std.specs.Io.KnownBytes.{Appends};
ghost use Rattle.arrayvec.specs.ArrayVec.{array_vec_len};
ghost use Rattle.rules.specs.Registers.{registers_named};
ghost use Rattle.words.specs.Kinds.{is_kind};
ghost use Rattle.words.specs.declared.kind.TheConstants.{KINDS};

mod kind;

use arrayvec::ArrayVec;
use kind::{KINDS, Kind};
use ppc::fields::{field, field_ra, field_rb, field_rd};
use ppc::registers::{is_branch, register_fields};
use std::convert::AsStr;
use std::io::{self, Read, Write};
use streams::{FixedWriter, Input, Output};

/// Room for what is read of the input at a time.
type Space = [u8; 4096];

/// Nothing says that the input ends; a million reads are four gigabytes.
const MOST_READS: usize = 1000000;

/// What is kept of a line: a ninth byte says that it is no word, and further ones nothing more.
type Line = ArrayVec<u8, 9>;

/// The word of a line of eight hexadecimal digits.
fn word_of(line: &[u8]) -> Option<u32>
    ensures long { IfSome result (λ _. length line.now ≡ 8) }
{
    if line.len() != 8 || !line.iter().all(|b| b.is_ascii_hexdigit()) {
        return None;
    }
    u32::from_str_radix(str::from_utf8(line).ok()?, 16).ok()
}

/// One more register, if a word names it.
fn push_named(named: &mut ArrayVec<u32, 4>, is_named: bool, register: u32)
    requires { array_vec_len named.old < 4 }
    ensures items { named.new.items ≡ named.old.items ++ cond is_named (register ∷ []) [] }
    ensures len { array_vec_len named.new ≡ array_vec_len named.old + cond is_named 1 0 }
{
    if is_named {
        named.push(register);
    }
}

/// The registers that a word names, in the order of its fields.
fn registers(word: u32) -> ArrayVec<u32, 4>
    ensures { result.items ≡ registers_named word }
{
    let code = register_fields(word);
    let a = field_ra(word);
    let mut named = ArrayVec::new();
    push_named(&mut named, field(code, 0, 1) == 1, field_rd(word));
    push_named(&mut named, field(code, 1, 1) == 1, a);
    // here the number 0 stands for no register
    push_named(&mut named, (field(code, 2, 1) == 1) & (a != 0), a);
    push_named(&mut named, field(code, 3, 1) == 1, field_rb(word));
    named
}

/// What the walk takes a word for.
fn kinds(word: u32) -> ArrayVec<Kind, 12>
    ensures { result.items ≡ filter (λ k. is_kind k word) KINDS }
{
    let mut kinds = ArrayVec::from(KINDS);
    kinds.retain(|kind| kind.fits(word));
    kinds
}

/// Registers with commas between them; '-' for none.
fn print_registers<W: Write>(out: &mut W, registers: &[u32]) -> io::Result<()>
    ensures { registers.now ≡ [] → OnOk result (Appends (W.contents out.old) (W.contents out.new) (codes "-")) }
{
    if registers.is_empty() {
        return out.write_all(b"-");
    }
    for (index, register) in registers.iter().enumerate() {
        let before = if index == 0 { "r" } else { ",r" };
        write!(out, "{before}{register}")?;
    }
    Ok(())
}

/// Kinds with commas between them; '-' for none.
fn print_kinds<W: Write>(out: &mut W, kinds: &[Kind]) -> io::Result<()>
    ensures { kinds.now ≡ [] → OnOk result (Appends (W.contents out.old) (W.contents out.new) (codes "-")) }
{
    if kinds.is_empty() {
        return out.write_all(b"-");
    }
    for (index, kind) in kinds.iter().enumerate() {
        if index > 0 {
            out.write_all(b",")?;
        }
        write!(out, "{kind}")?;
    }
    Ok(())
}

fn print_word<W: Write>(out: &mut W, word: u32) -> io::Result<()> {
    let branch = if is_branch(word) { "branch" } else { "-" };
    write!(out, "{word:08X} {branch} ")?;
    print_registers(out, &registers(word))?;
    out.write_all(b" ")?;
    print_kinds(out, &kinds(word))?;
    out.write_all(b"\n")
}

fn print_line<W: Write>(out: &mut W, line: &[u8]) -> io::Result<()> {
    match word_of(line) {
        Some(word) => print_word(out, word),
        None => out.write_all(b"?\n"),
    }
}

/// Bytes of the input: each goes on with the line, or ends it.
fn take<W: Write>(out: &mut W, line: &mut Line, bytes: &[u8]) -> io::Result<()> {
    for byte in bytes {
        if *byte == b'\n' {
            print_line(out, line.as_slice())?;
            line.clear();
        } else {
            let _ = line.try_push(*byte);
        }
    }
    Ok(())
}

/// What is read at a time is answered before more is read.
fn answer_all<R: Read, W: Write>(from: &mut R, out: &mut W) -> io::Result<()> {
    let mut line = ArrayVec::new();
    let mut space: Space = [0; 4096];
    for _ in 0..MOST_READS {
        let count = from.read(&mut space)?;
        if count == 0 {
            break;
        }
        take(out, &mut line, &space[..count])?;
        out.flush()?;
    }
    if !line.is_empty() {
        print_line(out, line.as_slice())?;
    }
    out.flush()
}

// What can be read is answered, and what can be written of the answers is written: nothing else is said of what fails.
fn main() {
    let _ = answer_all(&mut Input, &mut FixedWriter::new(Output));
}
