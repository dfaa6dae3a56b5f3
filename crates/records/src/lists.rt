//! The pending addresses, in a record and in the core's list.
use crate::answers::{Both, Told, sum};
use records_pending::{MOST, Pending};

#[derive(Drop)]
pub struct Lists {
    record: Pending,
    core: worklist::Pending,
    // how many addresses the core is said to have
    count: usize,
    // what a record holds whose addresses are the core's: past them it is as it was
    held: [u64; MOST],
}

impl Lists {
    /// None is pending.
    pub fn new() -> Lists {
        Lists {
            record: Pending {
                addresses: [0; MOST],
                count: 0,
            },
            core: worklist::Pending::new(),
            count: 0,
            held: [0; MOST],
        }
    }

    // What the core has is held.
    fn hold(&mut self) {
        let addresses = self.core.as_slice();
        for (place, &address) in self.held.iter_mut().zip(addresses) {
            *place = address;
        }
        self.count = addresses.len();
    }

    // Those that are held, of the count.
    fn given(&self) -> &[u64] {
        &self.held[..self.count.min(MOST)]
    }

    // The core is given what is held. Where that does not ascend it has no such list, and is not asked.
    fn give(&mut self) {
        self.core.clear();
        for &address in self.held.iter().take(self.count) {
            let _ = self.core.push(address);
        }
    }

    /// So many addresses are pending, whatever they are: the core is given those that are held.
    pub fn set_count(&mut self, count: usize) {
        self.record.count = count;
        self.count = count;
        self.give();
    }

    // What both forms say of an operation.
    fn told(&self, letter: char, done: Option<u64>, core: Option<u64>) -> Both {
        Both {
            letter,
            records: Told {
                first: done.unwrap_or(0),
                yes: done.is_some(),
                count: self.record.count,
                sum: sum(&self.record.addresses),
            },
            core: Told {
                first: core.unwrap_or(0),
                yes: core.is_some(),
                count: self.count,
                sum: sum(&self.held),
            },
            same: self.record.addresses.as_slice() == self.held.as_slice(),
        }
    }

    // A push where what is held does not ascend: behind the last that is no higher.
    fn bare_push(&mut self, addr: u64) -> Option<u64> {
        if MOST <= self.count {
            return None;
        }
        let held = &self.held[..self.count];
        let lower = held.iter().rposition(|&held| held <= addr);
        let at = lower.map_or(0, |last| last + 1);
        self.held.copy_within(at..self.count, at + 1);
        self.held[at] = addr;
        self.count += 1;
        self.give();
        Some(0)
    }

    // The core's push, where its count allows one.
    fn core_push(&mut self, addr: u64) -> Option<u64> {
        if MOST < self.count {
            return None;
        }
        if !self.given().is_sorted() {
            return self.bare_push(addr);
        }
        self.core.push(addr).ok()?;
        self.hold();
        Some(0)
    }

    /// Pushes an address on both.
    pub fn push(&mut self, addr: u64) -> Both {
        let done = records_pending::push(&mut self.record, addr)
            .ok()
            .map(|_| 0);
        let core = self.core_push(addr);
        self.told('p', done, core)
    }

    // A pop where what is held does not ascend: the last.
    fn bare_pop(&mut self) -> Option<u64> {
        let last = self.given().last().copied();
        self.count = self.count.saturating_sub(1);
        self.give();
        last
    }

    // The core's pop, where its count allows one.
    fn core_pop(&mut self) -> Option<u64> {
        if MOST < self.count {
            return None;
        }
        if !self.given().is_sorted() {
            return self.bare_pop();
        }
        let highest = self.core.pop()?;
        self.hold();
        Some(highest)
    }

    /// Pops the highest of both.
    pub fn pop(&mut self) -> Both {
        let done = records_pending::pop(&mut self.record);
        let core = self.core_pop();
        self.told('o', done, core)
    }
}
