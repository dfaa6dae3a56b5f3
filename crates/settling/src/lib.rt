// Possible blocks settled, the lowest first: each is walked as the function's, becomes a reference, or stays possible.
#![tactic(auto)]

#[cfg(test)]
mod tests;

ghost use Rattle.std.specs.Prelude.{◌≡◌, ◌≤◌, ℕ, Bool, List, length};
ghost use Rattle.rules.specs.Known.{Entry};
ghost use Rattle.rules.specs.Slices as lists;
ghost use Rattle.rules.specs.Settle as rules;
ghost use Rattle.settling.specs.Settled.{settled, address_from, settling_from, settled_block};
ghost use Rattle.faults.specs.Outcome.{outcome};
ghost use Rattle.obj_info.specs.Info.{some_nonzero};
ghost use Rattle.slices.specs.View.{slices_of};
ghost use Rattle.tail_calls.specs.Verdict.{tail_call_of};
ghost use Rattle.walks.specs.Around.{Knows, around_of};

use faults::Fault;
use passes::analyze;
use slices::FunctionSlices;
use tail_calls::{TailCall, check_tail_call};
use walks::{Around, Walk};

/// From where possible blocks are looked at: from an address on, or behind the word at one, where four more may overflow.
#[derive(Clone, Copy, Debug, PartialEq, Eq)]
pub enum Current {
    At(u64),
    Behind(u64),
}

// The next possible block.
fn next_possible_block(slices: &FunctionSlices, current: Current) -> Option<u64>
    ensures value { result ≡ some_nonzero (rules.next_possible_block (rules.settling (slices_of slices.now)
        (address_from current))) }
    ensures few { length (slices_of slices.now).possible_blocks ≤ 128 }
{
    match current {
        Current::At(addr) => slices.next_possible_block(addr),
        Current::Behind(block) => slices.next_possible_block_behind(block),
    }
}

// The block is walked as one of the function's.
fn include(walk: &mut Walk, around: &Around, block: u64) -> Result<(), Fault>
    ensures { (es : List Entry) (low : ℕ) (last : Bool) →
        Knows around.now.known.now es →
        outcome (slices_of walk.new.slices) result ≡ rules.include (around_of around.now es) low last block
        (slices_of walk.old.slices) }
{
    walk.slices.discard_possible_block(block);
    analyze(walk, around, block)?;
    Ok(())
}

// The block is a function of its own, which is referred to.
fn refer(slices: &mut FunctionSlices, block: u64) -> Result<(), Fault>
    ensures { outcome (slices_of slices.new) result ≡ lists.add_function_reference block
        (lists.discard_possible_block block (slices_of slices.old)) }
{
    slices.discard_possible_block(block);
    slices.add_function_reference(block)
}

// By the answer of its tail-call test; from where possible blocks are looked at then.
fn settle(
    walk: &mut Walk,
    around: &Around,
    block: u64,
    answer: TailCall,
    low: u64,
    last: bool,
) -> Result<Current, Fault>
    ensures { (es : List Entry) →
        Knows around.now.known.now es →
        settling_from (slices_of walk.new.slices) result ≡ rules.settle (around_of around.now es) low last block
        (tail_call_of answer) (slices_of walk.old.slices) }
{
    match answer {
        TailCall::Not => {
            include(walk, around, block)?;
            Ok(Current::At(low))
        }
        TailCall::Is => {
            refer(&mut walk.slices, block)?;
            Ok(Current::At(low))
        }
        TailCall::Possible if last => {
            include(walk, around, block)?;
            Ok(Current::Behind(block))
        }
        TailCall::Possible => Ok(Current::Behind(block)),
    }
}

// The block is tested and settled.
fn settle_block(
    walk: &mut Walk,
    around: &Around,
    block: u64,
    low: u64,
    last: bool,
) -> Result<Current, Fault>
    ensures { (es : List Entry) →
        Knows around.now.known.now es →
        settling_from (slices_of walk.new.slices) result ≡ settled_block (around_of around.now es) low last block
        (slices_of walk.old.slices) }
{
    let answer = check_tail_call(&mut walk.slices, around, block)?;
    settle(walk, around, block, answer, low, last)
}

/// All possible blocks from the address `low` on that can be settled, of the lists of a walk; from where a further one would be looked at
/// then. In the last pass those of which nothing is known are the function's.
pub fn settle_all(walk: &mut Walk, around: &Around, low: u64, last: bool) -> Result<Current, Fault>
    ensures whole { (es : List Entry) →
        Knows around.now.known.now es →
        settling_from (slices_of walk.new.slices) result ≡ rules.settle_all (around_of around.now es) low last
        (rules.settling (slices_of walk.old.slices) low) }
    ensures lists { (es : List Entry) →
        Knows around.now.known.now es →
        outcome (slices_of walk.new.slices) result ≡ settled (around_of around.now es) low last (slices_of walk.old.slices) }
{
    let mut current = Current::At(low);
    while let Some(block) = next_possible_block(&walk.slices, current) {
        current = settle_block(walk, around, block, low, last)?;
    }
    Ok(current)
}
