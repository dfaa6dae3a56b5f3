// Executor::run (executor.rs): pending addresses, the highest first, each walked word by word to the end of its block.
#![tactic(auto)]

ghost use Rattle.std.specs.Prelude.{◌≡◌, List};
ghost use Rattle.rules.specs.Known.{Entry};
ghost use Rattle.rules.specs.Step.{Around as Surroundings};
ghost use Rattle.rules.specs.Walk as rules;
ghost use Rattle.faults.specs.Outcome.{outcome};
ghost use Rattle.obj_info.specs.Info.{image_of};
ghost use Rattle.walks.specs.Around.{Knows, around_of};
ghost use Rattle.walks.specs.State.{walk_of};

mod plain;

use crate::plain::skip;
use faults::Fault;
use obj_info::{ObjInfo, section_of};
use walks::{Around, Place, Walk};

// A pending address is walked from, unless it lies outside code or was visited.
fn take_pending(walk: &mut Walk, obj: &ObjInfo, addr: u64) -> Result<(), Fault>
    ensures { (e : Surroundings) →
        e.image ≡ image_of obj.now →
        outcome (walk_of walk.new) result ≡ rules.take_pending e addr (walk_of walk.old) }
{
    if !obj.is_in_section(addr) {
        return Err(Fault::PendingOutside);
    }
    if section_of(addr) == obj.code().number && !walk.is_seen(obj, addr) {
        walk.place = Place::At {
            word: addr,
            block: addr,
        };
    }
    Ok(())
}

// The highest pending address is taken.
fn pop(walk: &mut Walk, obj: &ObjInfo) -> Result<(), Fault>
    ensures { (e : Surroundings) →
        e.image ≡ image_of obj.now →
        outcome (walk_of walk.new) result ≡ rules.pop e (walk_of walk.old).pending (walk_of walk.old) }
{
    match walk.pending.pop() {
        Some(addr) => take_pending(walk, obj, addr),
        None => Ok(()),
    }
}

// The word that the walk is before: it is visited, and does what it does.
fn enter(walk: &mut Walk, around: &Around, addr: u64, block: u64) -> Result<(), Fault>
    ensures { (es : List Entry) →
        Knows around.now.known.now es →
        outcome (walk_of walk.new) result ≡ rules.enter (around_of around.now es) addr block (walk_of walk.old) }
{
    match around.obj.word_index(addr) {
        Some(word) => {
            walk.fresh |= walk.visited.insert(word);
            walk.instruction_callback(around, addr, block)
        }
        None => Err(Fault::Stuck),
    }
}

// Whether the walk goes on.
fn is_live(walk: &Walk) -> bool
    ensures { result ≡ rules.live (walk_of walk.now) }
{
    match walk.place {
        Place::Idle => !walk.pending.is_empty(),
        Place::At { .. } => true,
        Place::Nowhere => false,
    }
}

// One step of it.
fn step(walk: &mut Walk, around: &Around) -> Result<(), Fault>
    ensures { (es : List Entry) →
        Knows around.now.known.now es →
        outcome (walk_of walk.new) result ≡ rules.step (around_of around.now es) (walk_of walk.old) }
{
    match walk.place {
        Place::Idle => pop(walk, &around.obj),
        Place::At { word, block } => enter(walk, around, word, block),
        Place::Nowhere => Ok(()),
    }
}

/// Executor::run.
pub fn run_walk(walk: &mut Walk, around: &Around) -> Result<(), Fault>
    ensures { (es : List Entry) →
        Knows around.now.known.now es →
        outcome (walk_of walk.new) result ≡ rules.run_walk (around_of around.now es) (walk_of walk.old) }
{
    while is_live(walk) {
        skip(walk, around);
        step(walk, around)?;
    }
    Ok(())
}
