// The analysis of one function (FunctionSlices::analyze): its walk from a start, and passes until no basic block stands apart and no word
// is left out.
#![tactic(auto)]

mod apart;
mod pass;
mod trailing;

ghost use Rattle.std.specs.Prelude.{◌≡◌, List};
ghost use Rattle.rules.specs.Known.{Entry};
ghost use Rattle.rules.specs.Step as steps;
ghost use Rattle.rules.specs.Analyze as rules;
ghost use Rattle.slices.specs.View.{slices_of};
ghost use Rattle.walks.specs.Around.{Knows, around_of};
ghost use Rattle.walks.specs.State.{walk_of};
ghost use Rattle.passes.specs.Analyzed.{analyzed};

use crate::apart::connect;
use crate::pass::{is_nowhere, walk_from};
use crate::trailing::reach_end;
use faults::Fault;
use walks::{Around, Place, Walk};

// A walk that has not begun, over the same lists.
fn new_walk(walk: &mut Walk)
    ensures { walk_of walk.new ≡ rules.new_walk (slices_of walk.old.slices) }
{
    walk.visited.clear();
    walk.pending.clear();
    walk.fresh = false;
    walk.place = Place::Idle;
}

// Whether there is a function, at the end of its passes. No block may be open then.
fn analyze_ends(walk: &Walk) -> Result<bool, Fault>
    ensures { (e : steps.Around) →
        analyzed (slices_of walk.now.slices) result ≡ rules.analyze_ends e (walk_of walk.now) }
{
    if is_nowhere(walk.place) {
        return Ok(false);
    }
    if walk.slices.any_open() {
        return Err(Fault::OpenBlock);
    }
    Ok(true)
}

// The walk from a start with no word visited, and the passes after it.
fn analyze_walk(walk: &mut Walk, around: &Around, start: u64) -> Result<bool, Fault>
    ensures { (es : List Entry) →
        Knows around.now.known.now es →
        analyzed (slices_of walk.new.slices) result ≡ rules.analyze_walk (around_of around.now es) start (slices_of walk.old.slices) }
{
    new_walk(walk);
    walk_from(walk, around, start)?;
    connect(walk, around)?;
    reach_end(walk, around)?;
    analyze_ends(walk)
}

/// FunctionSlices::analyze, of the lists of a walk, from a start: the walk begins anew, unless the start is no new block. Whether there
/// is a function.
pub fn analyze(walk: &mut Walk, around: &Around, start: u64) -> Result<bool, Fault>
    ensures { (es : List Entry) →
        Knows around.now.known.now es →
        analyzed (slices_of walk.new.slices) result ≡ rules.analyze (around_of around.now es) start (slices_of walk.old.slices) }
{
    if walk.slices.add_block_start(start)? {
        return analyze_walk(walk, around, start);
    }
    Ok(true)
}
