// Addresses.

ghost use Rattle.std.specs.Prelude.{◌≡◌, ◌≤◌, ◌&&◌, not, leb, ltb, [], length, true, Err};
ghost use Rattle.rules.specs.Choice.{any, filter, limited};
ghost use Rattle.rules.specs.Ordered.{self as own, rank, has, put, without, empty, Rising};
ghost use Rattle.faults.specs.Outcome.{outcome};
ghost use Rattle.tables.specs.Places.{IsPlace, first_from};

use arrayvec::ArrayVec;
use faults::Fault;
use std::marker::Model;

/// At most `N` addresses, each above the one before.
#[derive(Drop)]
pub struct Set<const N: usize> {
    items: ArrayVec<u64, N>,
}

impl<const N: usize> Model for Set<N> {
    ghost use Rattle.std.specs.Prelude.{List, ℕ};
    ghost use Rattle.rules.specs.Ordered.{self as own, Rising};

    ghost Value = { List ℕ };

    ghost view = { λ t. t.items.items };

    ghost invariant = { λ t. Rising own t.items.items };
}

impl<const N: usize> Set<N> {
    /// No address.
    pub fn new() -> Self
        ensures { result ≡ [] }
    {
        Set {
            items: ArrayVec::new(),
        }
    }

    /// The addresses, ascending.
    pub fn as_slice(&self) -> &[u64]
        ensures items { result.now ≡ self.now }
        ensures fits { length result.now ≤ N }
        ensures rising { Rising own result.now }
    {
        self.items.as_slice()
    }

    /// How many there are.
    pub fn len(&self) -> usize
        ensures value { result ≡ length self.now }
        ensures fits { result ≤ N }
    {
        self.items.len()
    }

    /// Whether there is none.
    pub fn is_empty(&self) -> bool
        ensures { result ≡ empty self.now }
    {
        self.items.is_empty()
    }

    // Where an address is, or where it would go.
    fn search(&self, key: u64) -> Result<usize, usize>
        ensures place { IsPlace own key self.now result }
        ensures fits { length self.now ≤ N }
    {
        self.items.binary_search(&key)
    }

    // How many are below `key`.
    fn rank(&self, key: u64) -> usize
        ensures value { result ≡ rank own key self.now }
        ensures fits { length self.now ≤ N }
    {
        self.search(key).unwrap_or_else(|at| at)
    }

    /// Whether an address is there.
    pub fn contains(&self, key: u64) -> bool
        ensures { result ≡ has own key self.now }
    {
        self.search(key).is_ok()
    }

    // Whether an address is above all that are there.
    fn is_behind(&self, key: u64) -> bool
        ensures { result ≡ true → IsPlace own key self.now (Err (length self.now)) }
    {
        match self.items.last() {
            Some(&last) => last < key,
            None => true,
        }
    }

    // Where an address is, or where it would go. Addresses are often put in in their order, so behind the last one is asked first.
    fn place(&self, key: u64) -> Result<usize, usize>
        ensures place { IsPlace own key self.now result }
        ensures fits { length self.now ≤ N }
    {
        if self.is_behind(key) {
            return Err(self.items.len());
        }
        self.search(key)
    }

    /// Puts an address in its place, if it is not there.
    pub fn insert(&mut self, key: u64) -> Result<(), Fault>
        ensures { outcome self.new result ≡ limited N (put own key self.old) }
    {
        match self.place(key) {
            Ok(_) => Ok(()),
            Err(at) => {
                if self.items.is_full() {
                    return Err(Fault::Limit);
                }
                runs::insert(&mut self.items, at, key);
                Ok(())
            }
        }
    }

    /// Takes an address out, if it is there.
    pub fn remove(&mut self, key: u64)
        ensures { self.new ≡ without own key self.old }
    {
        if let Ok(at) = self.search(key) {
            runs::remove(&mut self.items, at);
        }
    }

    /// Takes out the addresses from `low` to just below `past`. Whether there was one.
    pub fn remove_within(&mut self, low: u64, past: u64) -> bool
        ensures rest { self.new ≡ filter (λ x. not (leb low x && ltb x past)) self.old }
        ensures some { result ≡ any (λ x. leb low x && ltb x past) self.old }
    {
        let before = self.items.len();
        self.items.retain(|item| !(low <= *item && *item < past));
        self.items.len() < before
    }

    /// The first that is `key` or more.
    pub fn first_from(&self, key: u64) -> Option<u64>
        ensures value { result ≡ first_from own key self.now }
        ensures fits { length self.now ≤ N }
    {
        self.items.get(self.rank(key)).copied()
    }

    /// Whether one is from `low` to `high`.
    pub fn any_within(&self, low: u64, high: u64) -> bool
        ensures { result ≡ any (λ x. leb low x && leb x high) self.now }
    {
        self.items.iter().any(|&x| low <= x && x <= high)
    }

    /// Takes all of them out.
    pub fn clear(&mut self)
        ensures { self.new ≡ [] }
    {
        self.items.clear();
    }

    /// The addresses of a list instead of those that are there, as far as they fit.
    pub fn assign(&mut self, items: &[u64])
        ensures { Rising own items.now → length items.now ≤ N → self.new ≡ items.now }
    {
        self.clear();
        for &item in items {
            let _fits = self.insert(item);
        }
    }

    /// The addresses of another set instead of those that are there.
    pub fn copy_from(&mut self, other: &Set<N>)
        ensures { self.new ≡ other.now }
    {
        self.items.clear();
        let _fits = self.items.try_extend_from_slice(other.items.as_slice());
    }
}
