// Instruction words: reading one, and tests of one.
ghost use Rattle.std.specs.Prelude.{◌≡◌, ◌∷◌, ◌+◌, ◌≤◌, ◌==◌, ◌&&◌, length, drop};
ghost use Rattle.rules.specs.Bytes.{words_in};
ghost use Rattle.rules.specs.Words as rules;

use crate::fields::{bit, extended, field_bo, field_ra, field_rd, field_spr, opcode};

// The word whose first byte is at an offset: the next one of the words from there.
pub fn word_at(bytes: &[u8], at: usize) -> u32
    requires { at + 4 ≤ length bytes.now }
    ensures { words_in (drop at bytes.now) ≡ result ∷ words_in (drop (at + 4) bytes.now) }
{
    u32::from_be_bytes([bytes[at], bytes[at + 1], bytes[at + 2], bytes[at + 3]])
}

#[tactic(auto, unfolding(rules::specs::Words::is_blr))]
pub fn is_blr(w: u32) -> bool
    ensures { result ≡ rules.is_blr w }
{
    w == 0x4E80_0020
}

// ori r0, r0, 0
#[tactic(auto, unfolding(rules::specs::Words::is_nop))]
pub fn is_nop(w: u32) -> bool
    ensures { result ≡ rules.is_nop w }
{
    w == 0x6000_0000
}

// A word with the primary opcode p and the extended opcode x.
pub fn is_ext(w: u32, p: u32, x: u32) -> bool
    ensures { result ≡ rules.is_ext p x w }
{
    (opcode(w) == p) & (extended(w) == x)
}

#[tactic(auto, unfolding(rules::specs::Words::is_rfi))]
pub fn is_rfi(w: u32) -> bool
    ensures { result ≡ rules.is_rfi w }
{
    is_ext(w, 19, 50)
}

// bclr, unless BO says that it always branches.
#[tactic(auto, unfolding(rules::specs::Words::is_conditional_blr))]
pub fn is_conditional_blr(w: u32) -> bool
    ensures { result ≡ rules.is_conditional_blr w }
{
    let bo = field_bo(w);
    is_ext(w, 19, 16) & !(bit(bo, 2) & bit(bo, 4))
}

// A word with the primary opcode 31 and the extended opcode x that moves between r0 and LR.
fn is_lr_move(w: u32, x: u32) -> bool
    ensures { result ≡ (rules.is_ext 31 x w && (rules.field_d w == 0) && (rules.field_spr w == 8)) }
{
    is_ext(w, 31, x) & (field_rd(w) == 0) & (field_spr(w) == 8)
}

// mfspr r0, LR
#[tactic(auto, unfolding(rules::specs::Words::is_mflr))]
pub fn is_mflr(w: u32) -> bool
    ensures { result ≡ rules.is_mflr w }
{
    is_lr_move(w, 339)
}

// mtspr LR, r0
#[tactic(auto, unfolding(rules::specs::Words::is_mtlr))]
pub fn is_mtlr(w: u32) -> bool
    ensures { result ≡ rules.is_mtlr w }
{
    is_lr_move(w, 467)
}

// stwu or stwux of r1 on r1
#[tactic(auto, unfolding(rules::specs::Words::is_stwu))]
pub fn is_stwu(w: u32) -> bool
    ensures { result ≡ rules.is_stwu w }
{
    ((opcode(w) == 37) | is_ext(w, 31, 183)) & (field_rd(w) == 1) & (field_ra(w) == 1)
}

// stw of r0 on r1
#[tactic(auto, unfolding(rules::specs::Words::is_stw))]
pub fn is_stw(w: u32) -> bool
    ensures { result ≡ rules.is_stw w }
{
    (opcode(w) == 36) & (field_rd(w) == 0) & (field_ra(w) == 1)
}

// addi r1, r1, SIMM
#[tactic(auto, unfolding(rules::specs::Words::is_addi))]
pub fn is_addi(w: u32) -> bool
    ensures { result ≡ rules.is_addi w }
{
    (opcode(w) == 14) & (field_rd(w) == 1) & (field_ra(w) == 1)
}

// or of r1 into any register: bits 6 to 10 are the source.
#[tactic(auto, unfolding(rules::specs::Words::is_or))]
pub fn is_or(w: u32) -> bool
    ensures { result ≡ rules.is_or w }
{
    is_ext(w, 31, 444) & (field_rd(w) == 1)
}

// lwz of r1
#[tactic(auto, unfolding(rules::specs::Words::is_lwz))]
pub fn is_lwz(w: u32) -> bool
    ensures { result ≡ rules.is_lwz w }
{
    (opcode(w) == 32) & (field_rd(w) == 1)
}

// blr, b without link, rfi, addi r1, r1, or lwz r1 with a base other than r1.
#[tactic(auto, unfolding(rules::specs::Words::is_function_terminator))]
pub fn is_function_terminator(w: u32) -> bool
    ensures { result ≡ rules.is_function_terminator w }
{
    is_blr(w)
        | ((opcode(w) == 18) & !bit(w, 0))
        | is_rfi(w)
        | is_addi(w)
        | (is_lwz(w) & (field_ra(w) != 1))
}
