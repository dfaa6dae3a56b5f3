// FunctionSlices::finalize: a function's lists are whole, and its last word is added.
#![tactic(auto)]

mod branch_pairs;
mod last_words;

ghost use Rattle.std.specs.Prelude.{◌≡◌, ◌&&◌, ◌==◌, List, not};
ghost use Rattle.rules.specs.Blocks.{last_end};
ghost use Rattle.rules.specs.Known.{Entry};
ghost use Rattle.rules.specs.Finalize as rules;
ghost use Rattle.faults.specs.Outcome.{outcome};
ghost use Rattle.obj_info.specs.Info.{image_of};
ghost use Rattle.slices.specs.View.{slices_of};
ghost use Rattle.walks.specs.Around.{Knows};

use faults::Fault;
use obj_info::ObjInfo;
use slices::FunctionSlices;
use walks::{KnownFunctions, is_recorded};

// The word behind the end becomes a block, unless a known function begins there. It is a code word, so four more fits.
fn add_last(
    slices: &mut FunctionSlices,
    obj: &ObjInfo,
    known: &KnownFunctions,
    end: u64,
) -> Result<(), Fault>
    requires { end ≡ last_end (slices_of slices.old).blocks }
    ensures { (es : List Entry) →
        Knows known.now es →
        outcome (slices_of slices.new) result ≡ rules.add_last (image_of obj.now) es (slices_of slices.old) }
{
    if last_words::has_last(slices, obj, end) && !known.contains_key(end) {
        return slices.set_block(end, end + 4);
    }
    Ok(())
}

// The last word is added, and the function is finalized.
fn finalize_end(
    slices: &mut FunctionSlices,
    obj: &ObjInfo,
    known: &KnownFunctions,
    end: u64,
) -> Result<(), Fault>
    requires { end ≡ last_end (slices_of slices.old).blocks }
    ensures { (es : List Entry) →
        Knows known.now es →
        outcome (slices_of slices.new) result ≡ rules.finalize_end (image_of obj.now) es (slices_of slices.old) }
{
    add_last(slices, obj, known, end)?;
    slices.finalized = true;
    Ok(())
}

// Not where the last block is open.
fn finalize_closed(
    slices: &mut FunctionSlices,
    obj: &ObjInfo,
    known: &KnownFunctions,
) -> Result<(), Fault>
    ensures { (es : List Entry) →
        Knows known.now es →
        outcome (slices_of slices.new) result ≡ rules.finalize_closed (image_of obj.now) es (slices_of slices.old) }
{
    match slices.last_end() {
        Some(end) => {
            slices.has_conditional_blr = last_words::is_conditional(slices, obj, end);
            finalize_end(slices, obj, known, end)
        }
        None => Err(Fault::OpenEnd),
    }
}

// An epilogue without a prologue, and no load of r1.
fn lacks_prologue(slices: &FunctionSlices) -> bool
    ensures { result ≡ ((slices_of slices.now).prologue == 0
        && not ((slices_of slices.now).epilogue == 0)
        && not (slices_of slices.now).r1_load) }
{
    !is_recorded(slices.prologue) & is_recorded(slices.epilogue) & !slices.has_r1_load
}

/// FunctionSlices::finalize. Not of a function that is finalized already.
pub fn finalize(
    slices: &mut FunctionSlices,
    obj: &ObjInfo,
    known: &KnownFunctions,
) -> Result<(), Fault>
    ensures { (es : List Entry) →
        Knows known.now es →
        outcome (slices_of slices.new) result ≡ rules.finalize (image_of obj.now) es (slices_of slices.old) }
{
    if slices.finalized {
        return Err(Fault::NotFinalized);
    }
    if lacks_prologue(slices) {
        return Err(Fault::EpilogueAlone);
    }
    finalize_closed(slices, obj, known)
}
