// Passes from blocks that stand apart from the next ("Visit unreachable blocks").
ghost use Rattle.std.specs.Prelude.{◌≡◌, List, option_map};
ghost use Rattle.rules.specs.Known.{Entry};
ghost use Rattle.rules.specs.Analyze as rules;
ghost use Rattle.faults.specs.Outcome.{outcome};
ghost use Rattle.slices.specs.Blocks.{block_of};
ghost use Rattle.walks.specs.Around.{Knows, around_of};
ghost use Rattle.walks.specs.State.{walk_of};
ghost use Rattle.passes.specs.Left.{block_apart};

use crate::pass::{is_nowhere, run_pass};
use faults::Fault;
use tables::Row;
use walks::{Around, Walk};

// The first block that stands apart from the next, if the walk met a function.
fn block_apart(walk: &Walk) -> Option<Row>
    ensures { option_map block_of result ≡ block_apart (walk_of walk.now) }
{
    if is_nowhere(walk.place) {
        return None;
    }
    walk.slices.first_disconnected_block()
}

// One pass from behind such a block, which is no longer a possible one.
fn pass_behind(walk: &mut Walk, around: &Around, block: Row) -> Result<(), Fault>
    ensures { (es : List Entry) →
        Knows around.now.known.now es →
        outcome (walk_of walk.new) result ≡ rules.pass_behind (around_of around.now es) (block_of block) (walk_of walk.old) }
{
    walk.slices.discard_possible_block(block.key);
    run_pass(walk, around, block.value)
}

/// Passes until no block stands apart from the next.
pub fn connect(walk: &mut Walk, around: &Around) -> Result<(), Fault>
    ensures { (es : List Entry) →
        Knows around.now.known.now es →
        outcome (walk_of walk.new) result ≡ rules.connect (around_of around.now es) (walk_of walk.old) }
{
    while let Some(block) = block_apart(walk) {
        pass_behind(walk, around, block)?;
    }
    Ok(())
}
