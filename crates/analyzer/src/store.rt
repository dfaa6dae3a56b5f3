// The lists of the entries: stored as numbers, and loaded.

ghost use Rattle.std.specs.Prelude.{◌≡◌, ◌+◌, ◌<◌, ◌≤◌, ℕ, List, length};
ghost use Rattle.std.proofs.Math.Option.{some};
ghost use Rattle.rules.specs.Known as rules;
ghost use Rattle.rules.specs.Known.{Entry};
ghost use Rattle.rules.specs.Map as maps;
ghost use Rattle.rules.specs.OneFunction.{numbers as numbers_of};
ghost use Rattle.rules.specs.Slices.{Slices};
ghost use Rattle.slices.specs.Some.{or_zero};
ghost use Rattle.slices.specs.View.{slices_of};
ghost use Rattle.analyzer.specs.Table.{Holds, flat, slices_at};
ghost use Rattle.analyzer.specs.Told.{Told};
ghost use Rattle.analyzer.specs.Placed.{info_long, infos_long, Lent, Replaced};

use crate::{AnalyzerState, FunctionInfo};
use faults::Fault;
use numbers::{Header, put_numbers, take_numbers};
use slices::FunctionSlices;

// How many numbers the lists of an entry take.
fn len(info: &FunctionInfo) -> usize
    ensures value { result ≡ info_long info.now }
    ensures small { result < 0x80000 }
{
    match info.slices {
        Some(header) => header.len(),
        None => 0,
    }
}

// How many those of some entries take.
fn total_len(infos: &[FunctionInfo]) -> usize
    requires { length infos.now ≤ 1024 }
    ensures value { result ≡ infos_long infos.now }
    ensures small { result < 0x20000001 }
{
    let mut total = 0;
    for info in infos {
        total += len(info);
    }
    total
}

// Puts a function's numbers, `count` of them, in the place of those from `from` up to `until`; those behind, up to `total`, are moved, if
// they come to lie elsewhere. Where there is no room nothing is changed.
fn replace(
    lists: &mut [u64],
    from: usize,
    until: usize,
    total: usize,
    slices: &FunctionSlices,
    count: usize,
) -> Result<(), Fault>
    requires order { from ≤ until × until ≤ total }
    requires small { total + count < 0x80000000 }
    requires count { count ≡ length (numbers_of (slices_of slices.now)) }
    ensures { Replaced lists.old lists.new from until total (numbers_of (slices_of slices.now)) result }
{
    let behind = from + count;
    if lists.len() < total || lists.len() < behind + (total - until) {
        return Err(Fault::Limit);
    }
    runs::shift(lists, until, behind, total - until);
    put_numbers(slices, &mut lists[from..behind]);
    Ok(())
}

impl AnalyzerState {
    // What is told of the lists of the first entry at `key` or above, and their numbers, if it has some.
    fn numbers_of<'a>(&self, lists: &'a [u64], key: u64) -> Option<(Header, &'a [u64])>
        ensures { (cap : maps.Capacity) (es : List Entry) →
            Holds cap self.now lists.now es →
            Lent (slices_at key es) result }
    {
        let at = self.known.rank(key);
        let header = self.infos.get(at)?.slices?;
        let start = total_len(&self.infos[..at]);
        let numbers = lists.get(start..start + header.len())?;
        Some((header, numbers))
    }

    /// How many numbers the lists of all entries have.
    pub fn numbers_len(&self) -> usize
        ensures { (cap : maps.Capacity) (lists : List ℕ) (es : List Entry) →
            Holds cap self.now lists es →
            result ≡ length (flat es) }
    {
        total_len(&self.infos)
    }

    /// The lists of the entry at `key`, or else of the first above, if it has some; whether it has.
    pub fn load(&self, lists: &[u64], key: u64, slices: &mut FunctionSlices) -> bool
        ensures has { (cap : maps.Capacity) (es : List Entry) →
            Holds cap self.now lists.now es →
            result ≡ rules.is_some (slices_at key es) }
        ensures lists { (cap : maps.Capacity) (es : List Entry) (s : Slices) →
            Holds cap self.now lists.now es →
            slices_at key es ≡ some s →
            slices_of slices.new ≡ s }
    {
        match self.numbers_of(lists, key) {
            Some((header, numbers)) => {
                take_numbers(slices, header, numbers);
                true
            }
            None => false,
        }
    }

    /// A function's lists and its end, as those of the entry at `key`, which is added if there is none.
    pub fn store(
        &mut self,
        lists: &mut [u64],
        key: u64,
        slices: &FunctionSlices,
        end: Option<u64>,
    ) -> Result<(), Fault>
        ensures { (cap : maps.Capacity) (es : List Entry) →
            Holds cap self.old lists.old es →
            Told cap (maps.store cap key (slices_of slices.now) (or_zero end) es) self.new lists.new result }
    {
        let at = self.place_of(key)?;
        let header = Header::of(slices);
        let from = total_len(&self.infos[..at]);
        let until = from + len(&self.infos[at]);
        let total = until + total_len(&self.infos[at + 1..]);
        replace(lists, from, until, total, slices, header.len())?;
        self.infos[at] = FunctionInfo {
            slices: Some(header),
            analyzed: true,
            fill_1: 0,
            fill_2: 0,
            fill_4: 0,
        };
        self.known.insert(key, end.unwrap_or(0))
    }
}
