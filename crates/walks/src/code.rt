// The words of the code section, and what begins there.
ghost use Rattle.std.specs.Prelude.{◌≡◌, ◌<◌, get_or, map, true};
ghost use Rattle.rules.specs.Address.{address_of};
ghost use Rattle.rules.specs.Choice.{any};
ghost use Rattle.rules.specs.Image as images;
ghost use Rattle.rules.specs.Sequences as rules;
ghost use Rattle.rules.specs.Words.{is_function_terminator};
ghost use Rattle.obj_info.specs.Info.{image_of};
ghost use Rattle.jump_tables.specs.Readings.{number_in};
ghost use Rattle.walks.specs.Code.{IsWordStart};

use obj_info::ObjInfo;
use ppc::sequences::{check_epilogue_sequence, check_prologue_sequence};
use ppc::words::{is_function_terminator, word_at};

// The code words, four bytes each.
fn words<'a>(obj: &ObjInfo<'a>) -> &'a [[u8; 4]]
    ensures { map number_in result.now ≡ (images.code_section (image_of obj.now)).words }
{
    obj.code_bytes().as_chunks::<4>().0
}

/// The code word with a number, counted from 0.
pub fn nth_word(obj: &ObjInfo, word: usize) -> u32
    requires { word < images.code_words (image_of obj.now) }
    ensures { result ≡ get_or (images.code_section (image_of obj.now)).words word images.no_word }
{
    word_at(obj.code_bytes(), word * 4)
}

/// The word at an address.
pub fn word_in(obj: &ObjInfo, addr: u64) -> u32
    requires { images.contains (images.code_section (image_of obj.now)) (address_of addr) ≡ true }
    ensures { result ≡ images.word (image_of obj.now) (address_of addr) }
{
    let word = ((addr % 0x1_0000_0000) as u32 - obj.code().base) as usize / 4;
    nth_word(obj, word)
}

// Where the word at an address begins.
fn word_start(obj: &ObjInfo, addr: u64) -> u32
    requires { images.contains (images.code_section (image_of obj.now)) (address_of addr) ≡ true }
    ensures { IsWordStart (image_of obj.now) addr result }
{
    let a = (addr % 0x1_0000_0000) as u32;
    a - (a - obj.code().base) % 4
}

/// Whether a prologue begins at an address.
pub fn begins_prologue(obj: &ObjInfo, addr: u64) -> bool
    requires { images.contains (images.code_section (image_of obj.now)) (address_of addr) ≡ true }
    ensures { result ≡ rules.check_prologue_sequence (images.words_from (image_of obj.now) addr) }
{
    check_prologue_sequence(obj.code_bytes(), obj.code().base, word_start(obj, addr))
}

/// Whether an epilogue begins at an address.
pub fn begins_epilogue(obj: &ObjInfo, addr: u64) -> bool
    requires { images.contains (images.code_section (image_of obj.now)) (address_of addr) ≡ true }
    ensures { result ≡ rules.check_epilogue_sequence (images.words_from (image_of obj.now) addr) }
{
    check_epilogue_sequence(obj.code_bytes(), obj.code().base, word_start(obj, addr))
}

/// Whether one of the words from one address up to another is a terminator.
pub fn any_terminator(obj: &ObjInfo, from: u64, to: u64) -> bool
    ensures { result ≡ any is_function_terminator (images.words_between (image_of obj.now) from to) }
{
    let words = words(obj);
    let first = ((from % 0x1_0000_0000) as u32).saturating_sub(obj.code().base) as usize / 4;
    let count = to.saturating_sub(from) as usize / 4;
    let start = first.min(words.len());
    let end = (first + count).min(words.len());
    words[start..end]
        .iter()
        .any(|word| is_function_terminator(u32::from_be_bytes(*word)))
}
