// FunctionSlices::check_tail_call: whether a possible block is one of the function's or a function of its own.
#![tactic(auto)]

mod before;
mod judged;

ghost use Rattle.std.specs.Prelude.{◌≡◌, List};
ghost use Rattle.rules.specs.Known.{Entry};
ghost use Rattle.rules.specs.TailCall as rules;
ghost use Rattle.slices.specs.View.{slices_of};
ghost use Rattle.walks.specs.Around.{Knows, around_of};
ghost use Rattle.tail_calls.specs.Verdict.{verdict};

use crate::before::check_before;
use crate::judged::judge;
use faults::Fault;
use passes::analyze;
use slices::FunctionSlices;
use walks::{Around, Walk};

/// Whether a jump to a possible block is a tail call.
#[derive(Clone, Copy, Debug, PartialEq, Eq)]
pub enum TailCall {
    Not,
    Is,
    Possible,
}

// The trial walks from `addr` with lists of its own, in which only the references stand.
fn trial(slices: &mut FunctionSlices, around: &Around, addr: u64) -> Result<TailCall, Fault>
    ensures { (es : List Entry) →
        Knows around.now.known.now es →
        verdict (slices_of slices.new) result ≡ rules.trial (around_of around.now es) addr (slices_of slices.old) }
{
    let mut walk = Walk::new();
    walk.slices.copy_function_references(slices);
    let found = analyze(&mut walk, around, addr);
    judge(slices, &walk.slices, found, addr)
}

/// FunctionSlices::check_tail_call. Other possible blocks may go.
pub fn check_tail_call(
    slices: &mut FunctionSlices,
    around: &Around,
    addr: u64,
) -> Result<TailCall, Fault>
    ensures { (es : List Entry) →
        Knows around.now.known.now es →
        verdict (slices_of slices.new) result ≡ rules.check_tail_call (around_of around.now es) addr (slices_of slices.old) }
{
    match check_before(slices, around, addr) {
        Some(answer) => Ok(answer),
        None => trial(slices, around, addr),
    }
}
