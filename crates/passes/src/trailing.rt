// Passes up to the function's end, if that is known ("Visit trailing blocks").
ghost use Rattle.std.specs.Prelude.{◌≡◌, ◌<◌, List, true};
ghost use Rattle.rules.specs.Address.{address_of};
ghost use Rattle.rules.specs.Known.{Entry};
ghost use Rattle.rules.specs.Analyze as rules;
ghost use Rattle.faults.specs.Outcome.{outcome};
ghost use Rattle.walks.specs.Around.{Knows, around_of};
ghost use Rattle.walks.specs.State.{walk_of};
ghost use Rattle.passes.specs.Left.{left_out};

use crate::pass::{is_nowhere, run_pass};
use faults::Fault;
use obj_info::address_of;
use walks::{Around, Walk};

const NOP: u32 = 0x6000_0000;

// Whether a `nop` lies at an address before the function's end. It lies in code, so that four more does not overflow.
fn at_nop(around: &Around, addr: u64) -> bool
    ensures is { (es : List Entry) → result ≡ rules.at_nop (around_of around.now es) addr }
    ensures low { result ≡ true → address_of addr < 0xF000_0000 }
{
    if addr >= around.end.unwrap_or(0) {
        return false;
    }
    match around.obj.word(address_of(addr)) {
        Some(word) => word == NOP,
        None => false,
    }
}

// Behind the words `nop` from an address, as far as the function's end.
fn skip_nops(around: &Around, addr: u64) -> u64
    ensures { (es : List Entry) → result ≡ rules.skip_nops (around_of around.now es) addr }
{
    let mut at = addr;
    while at_nop(around, at) {
        at += 4;
    }
    at
}

// Where words are left before the function's end, if the walk met a function and its last block is closed.
fn left_out(walk: &Walk, around: &Around) -> Option<u64>
    ensures { (es : List Entry) → result ≡ left_out (around_of around.now es) (walk_of walk.now) }
{
    if is_nowhere(walk.place) {
        return None;
    }
    let from = skip_nops(around, walk.slices.last_end()?);
    if from < around.end.unwrap_or(0) {
        return Some(from);
    }
    None
}

/// Passes until the known end is reached.
pub fn reach_end(walk: &mut Walk, around: &Around) -> Result<(), Fault>
    ensures { (es : List Entry) →
        Knows around.now.known.now es →
        outcome (walk_of walk.new) result ≡ rules.reach_end (around_of around.now es) (walk_of walk.old) }
{
    while let Some(from) = left_out(walk, around) {
        run_pass(walk, around, from)?;
    }
    Ok(())
}
