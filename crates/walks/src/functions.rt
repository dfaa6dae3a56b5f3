// The known functions.
ghost use Rattle.std.specs.Prelude.{◌≡◌, List};
ghost use Rattle.rules.specs.Known.{Entry, entry_of, covering, any_between};
ghost use Rattle.rules.specs.Ordered.{has};
ghost use Rattle.obj_info.specs.Info.{some_nonzero};
ghost use Rattle.slices.specs.Some.{or_zero};
ghost use Rattle.walks.specs.Around.{Knows};

use crate::around::Around;

/// 0 is no address.
pub fn nonzero(address: u64) -> Option<u64>
    ensures { result ≡ some_nonzero address }
{
    if address == 0 { None } else { Some(address) }
}

/// An address that was recorded; 0 is none.
pub fn recorded(at: Option<u64>) -> Option<u64>
    ensures { result ≡ some_nonzero (or_zero at) }
{
    match at {
        Some(at) => nonzero(at),
        None => None,
    }
}

impl<'a> Around<'a> {
    /// The known function that begins at an address, or reaches over it.
    pub fn covering(&self, addr: u64) -> Option<u64>
        ensures { (es : List Entry) → Knows self.now.known.now es → result ≡ some_nonzero (covering addr es) }
    {
        if self.known.contains_key(addr) {
            return nonzero(addr);
        }
        match self.known.lower(addr) {
            Some(function) if addr < function.value => nonzero(function.key),
            _ => None,
        }
    }

    /// Whether a known function begins at an address.
    pub fn has_entry(&self, addr: u64) -> bool
        ensures { (es : List Entry) → Knows self.now.known.now es → result ≡ has entry_of addr es }
    {
        self.known.contains_key(addr)
    }

    /// Whether one begins from `low` to `high`.
    pub fn any_between(&self, low: u64, high: u64) -> bool
        ensures { (es : List Entry) → Knows self.now.known.now es → result ≡ any_between low high es }
    {
        self.known
            .as_slice()
            .iter()
            .any(|function| low <= function.key && function.key <= high)
    }
}
