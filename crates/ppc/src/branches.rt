// The target of a direct branch.
ghost use Rattle.std.specs.Prelude.{◌≡◌};
ghost use Rattle.rules.specs.Choice.{if};
ghost use Rattle.rules.specs.Branches as rules;

use crate::fields::{bit, field};

// Bits 6 to 29, a signed count of words.
pub fn branch_words(w: u32) -> i32
    ensures { result ≡ rules.branch_words w }
{
    let x = field(w, 2, 24);
    if x < 0x80_0000 {
        x as i32
    } else {
        x as i32 - 0x100_0000
    }
}

// The same in bytes.
pub fn branch_distance(w: u32) -> i32
    ensures { result ≡ rules.branch_distance w }
{
    4 * branch_words(w)
}

// Bit 30: the count is from 0.
#[tactic(auto, unfolding(rules::specs::Branches::is_absolute))]
pub fn is_absolute(w: u32) -> bool
    ensures { result ≡ rules.is_absolute w }
{
    bit(w, 1)
}

// Where the distance counts from.
fn origin(w: u32, addr: u32) -> u32
    ensures { result ≡ if (rules.is_absolute w) 0 addr }
{
    if is_absolute(w) { 0 } else { addr }
}

// The target of the branch w at the address addr: the distance, which may be negative, added to the address that it counts from, in
// 32 bits.
pub fn branch_dest(w: u32, addr: u32) -> u32
    ensures { result ≡ rules.branch_dest w addr }
{
    origin(w, addr).wrapping_add_signed(branch_distance(w))
}
