// One pass: a walk from an address.
ghost use Rattle.std.specs.Prelude.{◌≡◌, List};
ghost use Rattle.rules.specs.Known.{Entry};
ghost use Rattle.rules.specs.Step as steps;
ghost use Rattle.rules.specs.Analyze as rules;
ghost use Rattle.faults.specs.Outcome.{outcome};
ghost use Rattle.walks.specs.Around.{Knows, around_of};
ghost use Rattle.walks.specs.State.{place_of, walk_of};

use execution::run_walk;
use faults::Fault;
use walks::{Around, Place, Walk};

/// Whether the walk met no function.
pub fn is_nowhere(place: Place) -> bool
    ensures { result ≡ rules.is_nowhere (place_of place) }
{
    matches!(place, Place::Nowhere)
}

// A pass begins: nothing is fresh.
fn start_pass(walk: &mut Walk)
    ensures { walk_of walk.new ≡ rules.start_pass (walk_of walk.old) }
{
    walk.fresh = false;
    walk.place = Place::Idle;
}

/// The walk from an address.
pub fn walk_from(walk: &mut Walk, around: &Around, addr: u64) -> Result<(), Fault>
    ensures { (es : List Entry) →
        Knows around.now.known.now es →
        outcome (walk_of walk.new) result ≡ rules.walk_from (around_of around.now es) addr (walk_of walk.old) }
{
    start_pass(walk);
    walk.push(addr)?;
    run_walk(walk, around)
}

// A pass that visited no new word would be run again without end, unless it met no function.
fn checked_pass(walk: &Walk) -> Result<(), Fault>
    ensures { (e : steps.Around) →
        outcome (walk_of walk.now) result ≡ rules.checked_pass e (walk_of walk.now) }
{
    if is_nowhere(walk.place) || walk.fresh {
        return Ok(());
    }
    Err(Fault::Stuck)
}

/// A walk from an address, after the first: it must visit a new word.
pub fn run_pass(walk: &mut Walk, around: &Around, addr: u64) -> Result<(), Fault>
    ensures { (es : List Entry) →
        Knows around.now.known.now es →
        outcome (walk_of walk.new) result ≡ rules.run_pass (around_of around.now es) addr (walk_of walk.old) }
{
    walk_from(walk, around, addr)?;
    checked_pass(walk)
}
