// A function's prologue and epilogue, as the walk meets them (FunctionSlices::check_prologue, check_epilogue).
ghost use Rattle.std.specs.Prelude.{◌≡◌, ◌<◌, ◌+◌, ◌||◌, ltb, true};
ghost use Rattle.rules.specs.Choice.{any};
ghost use Rattle.rules.specs.Words.{is_function_terminator};
ghost use Rattle.rules.specs.Address.{address_of};
ghost use Rattle.rules.specs.Image as images;
ghost use Rattle.rules.specs.Slices.{Slices};
ghost use Rattle.rules.specs.Step as rules;
ghost use Rattle.faults.specs.Outcome.{outcome};
ghost use Rattle.obj_info.specs.Info.{image_of};
ghost use Rattle.slices.specs.View.{slices_of};
ghost use Rattle.walks.specs.Noted.{plain, noted};

use crate::code::{any_terminator, begins_epilogue, begins_prologue};
use crate::functions::recorded;
use faults::Fault;
use obj_info::ObjInfo;
use ppc::fields::opcode;
use ppc::words::{is_conditional_blr, is_lwz, is_rfi};
use slices::FunctionSlices;

// Whether a prologue lies below the recorded one, or behind a terminator.
fn is_misplaced(obj: &ObjInfo, prologue: u64, addr: u64) -> bool
    requires { address_of addr < 0xF000_0000 }
    ensures { result ≡ (ltb addr prologue || any is_function_terminator (images.words_between (image_of obj.now) (prologue + 4) addr)) }
{
    addr < prologue || any_terminator(obj, prologue + 4, addr)
}

// A second prologue must not lie below the recorded one, nor a terminator between.
fn second_prologue(obj: &ObjInfo, prologue: u64, addr: u64) -> Result<(), Fault>
    requires { address_of addr < 0xF000_0000 }
    ensures { (s : Slices) → s.prologue ≡ prologue → outcome s result ≡ rules.second_prologue (image_of obj.now) addr s }
{
    if is_misplaced(obj, prologue, addr) {
        return Err(Fault::SecondPrologue);
    }
    Ok(())
}

// The first prologue is recorded.
fn meet_prologue(slices: &mut FunctionSlices, obj: &ObjInfo, addr: u64) -> Result<(), Fault>
    requires { address_of addr < 0xF000_0000 }
    ensures { outcome (slices_of slices.new) result ≡ rules.meet_prologue (image_of obj.now) addr (slices_of slices.old) }
{
    match recorded(slices.prologue) {
        Some(prologue) => second_prologue(obj, prologue, addr),
        None => {
            slices.prologue = Some(addr);
            Ok(())
        }
    }
}

// A load of r1 sets its flag; else a prologue is looked for.
fn check_prologue(
    slices: &mut FunctionSlices,
    obj: &ObjInfo,
    addr: u64,
    word: u32,
) -> Result<(), Fault>
    requires { images.contains (images.code_section (image_of obj.now)) (address_of addr) ≡ true }
    ensures { word ≡ images.word (image_of obj.now) (address_of addr) →
        outcome (slices_of slices.new) result ≡ rules.check_prologue (image_of obj.now) addr (slices_of slices.old) }
{
    if is_lwz(word) {
        slices.has_r1_load = true;
        return Ok(());
    }
    if begins_prologue(obj, addr) {
        return meet_prologue(slices, obj, addr);
    }
    Ok(())
}

// The first epilogue is recorded; there must be no other.
fn meet_epilogue(slices: &mut FunctionSlices, addr: u64) -> Result<(), Fault>
    ensures { outcome (slices_of slices.new) result ≡ rules.meet_epilogue addr (slices_of slices.old) }
{
    match recorded(slices.epilogue) {
        Some(epilogue) => {
            if epilogue == addr {
                Ok(())
            } else {
                Err(Fault::SecondEpilogue)
            }
        }
        None => {
            slices.epilogue = Some(addr);
            Ok(())
        }
    }
}

fn check_epilogue(slices: &mut FunctionSlices, obj: &ObjInfo, addr: u64) -> Result<(), Fault>
    requires { images.contains (images.code_section (image_of obj.now)) (address_of addr) ≡ true }
    ensures { outcome (slices_of slices.new) result ≡ rules.check_epilogue (image_of obj.now) addr (slices_of slices.old) }
{
    if begins_epilogue(obj, addr) {
        return meet_epilogue(slices, addr);
    }
    Ok(())
}

// Both, but no prologue where the link register holds 0x43300000.
fn check_sequences(
    slices: &mut FunctionSlices,
    obj: &ObjInfo,
    addr: u64,
    word: u32,
    mark: bool,
) -> Result<(), Fault>
    requires { images.contains (images.code_section (image_of obj.now)) (address_of addr) ≡ true }
    ensures { word ≡ images.word (image_of obj.now) (address_of addr) →
        mark ≡ (images.told_at (image_of obj.now) addr).mark →
        outcome (slices_of slices.new) result ≡ rules.check_sequences (image_of obj.now) addr (slices_of slices.old) }
{
    if mark {
        return check_epilogue(slices, obj, addr);
    }
    check_prologue(slices, obj, addr, word)?;
    check_epilogue(slices, obj, addr)
}

// Returns are noted, and the word is no longer a possible block.
fn note_word(slices: &mut FunctionSlices, addr: u64, word: u32)
    ensures { (im : images.Image) →
        word ≡ images.word im (address_of addr) →
        slices_of slices.new ≡ rules.note_word im addr (slices_of slices.old) }
{
    slices.has_conditional_blr |= is_conditional_blr(word);
    slices.has_rfi |= is_rfi(word);
    slices.discard_possible_block(addr);
}

// A word by whose primary opcode it begins no sequence, loads no r1 and is no return: most words are such.
fn is_plain(word: u32) -> bool
    ensures { result ≡ plain word }
{
    let op = opcode(word);
    (op != 19) & (op != 31) & (op != 32) & (op != 37)
}

/// Notes prologue, epilogue and returns at a word, which is no longer a possible block. At a plain word nothing is looked for.
pub fn note(
    slices: &mut FunctionSlices,
    obj: &ObjInfo,
    addr: u64,
    word: u32,
    mark: bool,
) -> Result<(), Fault>
    requires { images.contains (images.code_section (image_of obj.now)) (address_of addr) ≡ true }
    ensures { word ≡ images.word (image_of obj.now) (address_of addr) →
        mark ≡ (images.told_at (image_of obj.now) addr).mark →
        outcome (slices_of slices.new) result ≡ noted (image_of obj.now) addr (slices_of slices.old) }
{
    if is_plain(word) && slices.possible_blocks.is_empty() {
        return Ok(());
    }
    check_sequences(slices, obj, addr, word, mark)?;
    note_word(slices, addr, word);
    Ok(())
}
