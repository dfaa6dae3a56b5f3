// The last word of a function, and the one behind it.

ghost use Rattle.std.specs.Prelude.{◌≡◌, ◌-◌, IfNone};
ghost use Rattle.rules.specs.Address.{address_of as low_part};
ghost use Rattle.rules.specs.Blocks.{last_end};
ghost use Rattle.rules.specs.Image as images;
ghost use Rattle.rules.specs.Finalize as rules;
ghost use Rattle.obj_info.specs.Info.{image_of, some_word};
ghost use Rattle.slices.specs.View.{slices_of};

use crate::branch_pairs::branches_to;
use obj_info::{ObjInfo, address_of};
use ppc::branches::branch_dest;
use ppc::fields::opcode;
use slices::FunctionSlices;

/// The primary opcode of a direct branch.
const BRANCH: u32 = 18;

const BLR: u32 = 0x4E80_0020;

const NOP: u32 = 0x6000_0000;

// The 32-bit address of the word before an end; 0 where there is none.
fn before_end(end: u64) -> u32
    ensures { result ≡ low_part end - 4 }
{
    address_of(end).saturating_sub(4)
}

// The last word, if it lies in code.
fn last_word(obj: &ObjInfo, end: u64) -> Option<u32>
    ensures value { result ≡ some_word (images.word (image_of obj.now) (low_part end - 4)) }
    ensures none { IfNone result (images.word (image_of obj.now) (low_part end - 4) ≡ images.no_word) }
{
    obj.word(before_end(end))
}

// Whether the last word is a branch to a function that is referred to.
fn ends_in_call(slices: &FunctionSlices, obj: &ObjInfo, end: u64) -> bool
    requires { end ≡ last_end (slices_of slices.now).blocks }
    ensures { result ≡ rules.ends_in_call (image_of obj.now) (slices_of slices.now) }
{
    match last_word(obj, end) {
        Some(word) if opcode(word) == BRANCH => {
            let target = obj.locate(branch_dest(word, before_end(end)));
            slices.is_function_reference(target.unwrap_or(0))
        }
        _ => false,
    }
}

/// Whether a conditional `blr` was met, or the last word calls and its block is one of two ways on from a word.
pub fn is_conditional(slices: &FunctionSlices, obj: &ObjInfo, end: u64) -> bool
    requires { end ≡ last_end (slices_of slices.now).blocks }
    ensures { result ≡ rules.is_conditional (image_of obj.now) (slices_of slices.now) }
{
    if slices.has_conditional_blr {
        return true;
    }
    if ends_in_call(slices, obj, end) {
        return branches_to(slices.branches.as_slice(), slices.last_start().unwrap_or(0));
    }
    false
}

/// Whether a `blr` stands behind a conditional end, or a `nop` behind an `rfi`.
pub fn has_last(slices: &FunctionSlices, obj: &ObjInfo, end: u64) -> bool
    requires { end ≡ last_end (slices_of slices.now).blocks }
    ensures { result ≡ rules.has_last (image_of obj.now) (slices_of slices.now) }
{
    let last = before_end(end);
    let after = address_of(end);
    (slices.has_conditional_blr & !obj.is_word(last, BLR) & obj.is_word(after, BLR))
        | (slices.has_rfi & obj.is_word(after, NOP))
}
