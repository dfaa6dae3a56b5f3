// The tests of a possible block before the trial walk.

ghost use Rattle.std.specs.Prelude.{◌≡◌, ◌≤◌, List, length};
ghost use Rattle.rules.specs.Bytes.{words_in, words_at};
ghost use Rattle.rules.specs.Known.{Entry};
ghost use Rattle.rules.specs.Sequences as sequences;
ghost use Rattle.rules.specs.TailCall as rules;
ghost use Rattle.slices.specs.View.{slices_of};
ghost use Rattle.walks.specs.Around.{Knows, around_of};
ghost use Rattle.tail_calls.specs.Verdict.{tested};

use crate::TailCall;
use obj_info::{address_of, section_of};
use ppc::sequences::check_prologue_sequence;
use ppc::words::{is_mflr, is_stwu, word_at};
use slices::FunctionSlices;
use walks::{Around, is_recorded};

// Whether a block starts at `addr`, it lies inside the function, or a prologue is recorded.
fn is_own(slices: &FunctionSlices, around: &Around, addr: u64) -> bool
    ensures { (es : List Entry) → result ≡ rules.is_own (around_of around.now es) addr (slices_of slices.now) }
{
    let inside = (around.start <= addr) & (addr < around.end.unwrap_or(0));
    slices.has_start(addr) | inside | is_recorded(slices.prologue)
}

// Whether `addr` lies below the start or in another section, or the word before it is zero.
fn is_separate(around: &Around, addr: u64) -> bool
    ensures { (es : List Entry) → result ≡ rules.is_separate (around_of around.now es) addr }
{
    let elsewhere = section_of(addr) != section_of(around.start);
    let before = address_of(addr).saturating_sub(4);
    (addr < around.start) | elsewhere | around.obj.is_word(before, 0)
}

// Whether a function behind the start and up to `addr` is referred to or known.
fn is_referred(slices: &FunctionSlices, around: &Around, addr: u64) -> bool
    ensures { (es : List Entry) →
        Knows around.now.known.now es →
        result ≡ rules.is_referred (around_of around.now es) addr (slices_of slices.now) }
{
    let Some(low) = around.start.checked_add(4) else {
        return false;
    };
    slices.any_function_reference(low, addr) | around.any_between(low, addr)
}

// Whether the first of the words begins a prologue. Most words can be told not to by themselves.
fn begins_prologue(words: &[u8]) -> bool
    requires { 4 ≤ length words.now }
    ensures { result ≡ sequences.check_prologue_sequence (words_at 0 words.now 0) }
{
    let word = word_at(words, 0);
    if is_stwu(word) | is_mflr(word) {
        return check_prologue_sequence(words, 0, 0);
    }
    false
}

// Whether one of the first `count` words begins a prologue.
fn prologue_among(bytes: &[u8], count: u64) -> bool
    ensures { result ≡ sequences.prologue_among count (words_in bytes.now) }
{
    let mut rest = bytes;
    let mut left = count;
    while left > 0 && rest.len() >= 4 {
        if begins_prologue(rest) {
            return true;
        }
        rest = &rest[4..];
        left -= 1;
    }
    false
}

// Whether a prologue begins from the start up to `addr`.
fn prologue_before(around: &Around, addr: u64) -> bool
    ensures { (es : List Entry) → result ≡ rules.prologue_before (around_of around.now es) addr }
{
    let bytes = around.obj.code_bytes();
    let from = address_of(around.start).saturating_sub(around.obj.code().base) as usize / 4 * 4;
    let count = addr.saturating_sub(around.start) / 4;
    prologue_among(&bytes[from.min(bytes.len())..], count)
}

/// FunctionSlices::check_tail_call as far as it needs no trial walk, the tests in its order: none where the trial decides.
pub fn check_before(slices: &FunctionSlices, around: &Around, addr: u64) -> Option<TailCall>
    ensures { (es : List Entry) →
        Knows around.now.known.now es →
        rules.check_tail_call (around_of around.now es) addr (slices_of slices.now) ≡ tested (around_of around.now es) addr
        (slices_of slices.now) result }
{
    if is_own(slices, around, addr) {
        return Some(TailCall::Not);
    }
    if is_separate(around, addr) {
        return Some(TailCall::Is);
    }
    if around.end.is_none() {
        return Some(TailCall::Possible);
    }
    if is_referred(slices, around, addr) {
        return Some(TailCall::Is);
    }
    if prologue_before(around, addr) {
        return Some(TailCall::Is);
    }
    None
}
