// Prologue and epilogue sequences in the bytes of a section.
ghost use Rattle.std.specs.Prelude.{◌≡◌, ℕ, Bool, ◌∷◌, [], IfSome, IfNone};
ghost use Rattle.rules.specs.Bytes.{words_in, words_at};
ghost use Rattle.rules.specs.Sequences as rules;
ghost use Rattle.ppc.specs.Tests.{Computes};

use crate::fields::bit;
use crate::registers::{code, names_low};
use crate::words::{is_addi, is_mflr, is_mtlr, is_or, is_stw, is_stwu};

// A scan stops at a branch and at a word that names r0 or r1: both are read from the word's code.
pub fn is_end_of_seq(w: u32) -> bool
    ensures { result ≡ rules.is_end_of_seq w }
{
    let c = code(w);
    bit(c, 4) | names_low(c, w)
}

// Whether a partner, of which `second` holds, comes before the scan stops. The partner is tested first: a word that names r0 or r1 may
// be one.
fn scan<F: Fn(u32) -> bool>(bytes: &[u8], second: F) -> bool
    requires { F.IsAlwaysCallable second }
    ensures { (t : ℕ → Bool) → Computes (F.post second) t → result ≡ rules.scan t (words_in bytes.now) }
{
    let (words, _) = bytes.as_chunks::<4>();
    for word in words {
        let w = u32::from_be_bytes(*word);
        if second(w) {
            return true;
        }
        if is_end_of_seq(w) {
            return false;
        }
    }
    false
}

// The word at an address of a section that starts at base, and the bytes after it; none outside the section.
fn first_word(bytes: &[u8], base: u32, addr: u32) -> Option<(u32, &[u8])>
    ensures some { IfSome result (λ p. words_at base bytes.now addr ≡ p.0 ∷ words_in p.1.now) }
    ensures none { IfNone result (words_at base bytes.now addr ≡ []) }
{
    let at = addr.checked_sub(base)?;
    let (word, rest) = bytes.get(at as usize..)?.split_first_chunk::<4>()?;
    Some((u32::from_be_bytes(*word), rest))
}

// Whether `first` holds of a word, and a partner, of which `second` holds, comes in the bytes after it.
fn is_pair<F: Fn(u32) -> bool, G: Fn(u32) -> bool>(
    word: u32,
    rest: &[u8],
    first: F,
    second: G,
) -> bool
    requires first { F.IsAlwaysCallable first }
    requires second { G.IsAlwaysCallable second }
    ensures { (s t : ℕ → Bool) → Computes (F.post first) s → Computes (G.post second) t
        → result ≡ rules.is_pair s t (word ∷ words_in rest.now) }
{
    first(word) && scan(rest, second)
}

// Whether a prologue begins at an address.
pub fn check_prologue_sequence(bytes: &[u8], base: u32, addr: u32) -> bool
    ensures { result ≡ rules.check_prologue_sequence (words_at base bytes.now addr) }
{
    match first_word(bytes, base, addr) {
        Some((word, rest)) => {
            is_pair(word, rest, is_stwu, is_mflr)
                || is_pair(word, rest, is_mflr, is_stw)
                || is_pair(word, rest, is_mflr, is_stwu)
        }
        None => false,
    }
}

// Whether an epilogue begins at an address.
pub fn check_epilogue_sequence(bytes: &[u8], base: u32, addr: u32) -> bool
    ensures { result ≡ rules.check_epilogue_sequence (words_at base bytes.now addr) }
{
    match first_word(bytes, base, addr) {
        Some((word, rest)) => {
            is_pair(word, rest, is_mtlr, is_addi)
                || is_pair(word, rest, is_mtlr, is_or)
                || is_pair(word, rest, is_or, is_mtlr)
        }
        None => false,
    }
}
