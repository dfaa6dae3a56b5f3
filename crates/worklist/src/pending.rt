// The pending addresses, of which the highest is taken first.
ghost use Rattle.std.specs.Prelude.{◌≡◌, ◌≤◌, [], OnErr, length, reverse};
ghost use Rattle.std.specs.List.Sorted.{IsNonDecreasing};
ghost use Rattle.rules.specs.Choice.{limited};
ghost use Rattle.rules.specs.Ordered.{empty};
ghost use Rattle.rules.specs.Step.{insert};
ghost use Rattle.faults.specs.Outcome.{outcome};
ghost use Rattle.worklist.specs.Pending.{first, rest, IsPlace};

use arrayvec::ArrayVec;
use faults::Fault;
use std::marker::Model;

/// How many addresses may be pending.
pub const MOST: usize = 256;

/// At most 256 addresses. Clauses see them with the highest first.
#[derive(Debug, Drop)]
pub struct Pending {
    // in ascending order, so that the highest is taken off the end
    addresses: ArrayVec<u64, MOST>,
}

impl Model for Pending {
    ghost use Rattle.std.specs.Prelude.{List, ℕ, reverse};
    ghost use Rattle.std.specs.List.Sorted.{IsNonDecreasing};

    ghost Value = { List ℕ };

    ghost view = { λ p. reverse p.addresses.items };

    ghost invariant = { λ p. IsNonDecreasing p.addresses.items };
}

impl Pending {
    pub fn new() -> Self
        ensures { result ≡ [] }
    {
        Pending {
            addresses: ArrayVec::new(),
        }
    }

    pub fn clear(&mut self)
        ensures { self.new ≡ [] }
    {
        self.addresses.clear();
    }

    pub fn is_empty(&self) -> bool
        ensures { result ≡ empty self.now }
    {
        self.addresses.is_empty()
    }

    /// The addresses, ascending.
    pub fn as_slice(&self) -> &[u64]
        ensures addresses { reverse result.now ≡ self.now }
        ensures fits { length result.now ≤ MOST }
    {
        self.addresses.as_slice()
    }

    /// Puts an address among them, before those that are no higher.
    pub fn push(&mut self, address: u64) -> Result<(), Fault>
        ensures outcome { outcome self.new result ≡ limited MOST (insert address self.old) }
        ensures full { OnErr result (self.new ≡ self.old) }
    {
        if self.addresses.is_full() {
            return Err(Fault::Limit);
        }
        let at = place(&self.addresses, address);
        runs::insert(&mut self.addresses, at, address);
        Ok(())
    }

    /// Takes the highest.
    pub fn pop(&mut self) -> Option<u64>
        ensures highest { result ≡ first self.old }
        ensures left { self.new ≡ rest self.old }
    {
        self.addresses.pop()
    }
}

// Behind the addresses that are no higher.
fn place(addresses: &[u64], address: u64) -> usize
    requires { IsNonDecreasing addresses.now }
    ensures { IsPlace addresses.now address result }
{
    addresses.partition_point(|&pending| pending <= address)
}
