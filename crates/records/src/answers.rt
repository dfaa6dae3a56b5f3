//! What is printed of an operation.
ghost use Rattle.std.specs.Prelude.{◌≡◌, true};
ghost use Rattle.records.specs.Sums.{mix, sum_of};

use std::fmt;

/// What one form says of an operation: a number or an address, yes or no, how many there are then, and a sum over all of them.
#[derive(Clone, Copy, Debug, PartialEq, Eq)]
pub struct Told {
    pub first: u64,
    pub yes: bool,
    pub count: usize,
    pub sum: u64,
}

impl fmt::Display for Told {
    fn fmt<W: fmt::Write>(&self, f: &mut fmt::Formatter<W>) -> fmt::Result {
        let yes = u8::from(self.yes);
        write!(f, "{} {} {} {:08x}", self.first, yes, self.count, self.sum)
    }
}

/// What both forms say of an operation.
#[derive(Clone, Copy, Debug, PartialEq, Eq)]
pub struct Both {
    pub letter: char,
    pub records: Told,
    pub core: Told,
    /// Whether every row or address is the same in both.
    pub same: bool,
}

impl Both {
    pub fn agree(&self) -> bool
        ensures { result ≡ true → (self.now.records ≡ self.now.core) × (self.now.same ≡ true) }
    {
        self.records == self.core && self.same
    }
}

impl fmt::Display for Both {
    fn fmt<W: fmt::Write>(&self, f: &mut fmt::Formatter<W>) -> fmt::Result {
        write!(f, "{} {} | {}", self.letter, self.records, self.core)
    }
}

/// How many sums there are.
const SUMS: u64 = 0x1_0000_0000;

/// A sum with one more number, which takes the order into account.
#[tactic(auto, unfolding(crate::specs::Sums::mix))]
pub fn mix(sum: u64, value: u64) -> u64
    ensures { result ≡ mix sum value }
{
    let high = (sum % SUMS) * 31 + value / SUMS;
    ((high % SUMS) * 31 + value % SUMS) % SUMS
}

/// The sum over some numbers.
pub fn sum(numbers: &[u64]) -> u64
    ensures { result ≡ sum_of numbers.now }
{
    numbers.iter().fold(0, |sum, &value| mix(sum, value))
}
