// Which code words were visited, a bit each.
ghost use Rattle.std.specs.Prelude.{◌≡◌, ◌<◌, Bool, false, not};
ghost use Rattle.rules.specs.Walk.{with_one};
ghost use Rattle.worklist.specs.Bits.{bit};

use std::marker::Model;

/// How many code words there may be.
pub const WORDS: usize = 65536;

const BITS: usize = 32;

/// A set of code words, by their numbers.
#[derive(Drop)]
pub struct Visited {
    bits: [u32; 2048],
}

impl Model for Visited {
    ghost use Rattle.std.specs.Prelude.{List, ℕ};

    ghost Value = { List ℕ };

    ghost view = { λ v. v.bits };
}

impl Visited {
    /// No word was visited.
    pub fn new() -> Self
        ensures { bit result ≡ λ i. false }
    {
        Visited { bits: [0; 2048] }
    }

    /// No word was visited any more.
    pub fn clear(&mut self)
        ensures { bit self.new ≡ λ i. false }
    {
        self.bits = [0; 2048];
    }

    /// Whether a word was visited.
    pub fn contains(&self, word: usize) -> bool
        requires { word < WORDS }
        ensures { result ≡ bit self.now word }
    {
        self.bits[word / BITS] >> (word % BITS) as u32 & 1 == 1
    }

    /// Visits a word; whether it was not visited before.
    pub fn insert(&mut self, word: usize) -> bool
        requires { word < WORDS }
        ensures set { bit self.new ≡ with_one (bit self.old) word }
        ensures fresh { result ≡ not (bit self.old word) }
    {
        let fresh = !self.contains(word);
        self.bits[word / BITS] |= 1 << (word % BITS) as u32;
        fresh
    }
}
