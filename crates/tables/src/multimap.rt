// The ways on from words: some addresses for each word.

ghost use Rattle.std.specs.Prelude.{◌≡◌, ◌+◌, ◌-◌, ◌<◌, ◌≤◌, List, [], ◌∷◌, ◌++◌, suc, length, map, take, drop};
ghost use Rattle.std.specs.List.{replace_range};
ghost use Rattle.rules.specs.Ordered.{rank, put, Rising};
ghost use Rattle.rules.specs.Slices.{from_of, count_branches};
ghost use Rattle.faults.specs.Outcome.{outcome};
ghost use Rattle.tables.specs.declared.multimap.Way.{Way as Pair};
ghost use Rattle.tables.specs.Groups.{way, leaves, goes_to, last_up_to, branches_of, grouped, limited_ways};

use arrayvec::ArrayVec;
use faults::Fault;
use std::marker::Model;

/// One way on, from a word to an address.
#[derive(Clone, Copy, Debug, Default, PartialEq, Eq)]
pub struct Way {
    pub from: u64,
    pub to: u64,
}

/// At most `N` ways on, by the words that they are from, ascending. Those of a word keep their order.
#[derive(Drop)]
pub struct Ways<const N: usize> {
    ways: ArrayVec<Way, N>,
}

impl<const N: usize> Model for Ways<N> {
    ghost use Rattle.std.specs.Prelude.{List};
    ghost use Rattle.rules.specs.Ordered.{Rising};
    ghost use Rattle.rules.specs.Slices.{Branches, from_of};
    ghost use Rattle.tables.specs.Groups.{grouped};

    ghost Value = { List Branches };

    ghost view = { λ t. grouped t.ways.items };

    ghost invariant = { λ t. Rising from_of (grouped t.ways.items) };
}

impl<const N: usize> Ways<N> {
    /// No way on.
    pub fn new() -> Self
        ensures { result ≡ [] }
    {
        Ways {
            ways: ArrayVec::new(),
        }
    }

    /// Each way on, in order.
    pub fn as_slice(&self) -> &[Way]
        ensures ways { grouped result.now ≡ self.now }
        ensures fits { length result.now ≤ N }
        ensures rising { Rising from_of (grouped result.now) }
    {
        self.ways.as_slice()
    }

    /// How many there are.
    pub fn len(&self) -> usize
        ensures value { result ≡ count_branches self.now }
        ensures fits { result ≤ N }
    {
        self.ways.len()
    }

    /// Ways on by a column of the words that they are from and one of where they go, instead of those that are there, as far as they fit.
    pub fn assign(&mut self, froms: &[u64], tos: &[u64])
        ensures { (ways : List Pair) →
            Rising from_of (grouped ways) →
            length ways ≤ N →
            froms.now ≡ map leaves ways →
            tos.now ≡ map goes_to ways →
            self.new ≡ grouped ways }
    {
        fill(&mut self.ways, froms, tos);
    }

    /// Takes all of them out.
    pub fn clear(&mut self)
        ensures { self.new ≡ [] }
    {
        self.ways.clear();
    }

    /// Sets the targets of a word, instead of those that it had.
    pub fn set(&mut self, from: u64, targets: &[u64]) -> Result<(), Fault>
        requires { 0 < length targets.now }
        ensures { outcome self.new result ≡ limited_ways N (put from_of (branches_of from targets.now) self.old) }
    {
        let at = count_below(&self.ways, from);
        let until = count_up_to(&self.ways, from);
        let kept = self.ways.len() - (until - at);
        if N - kept < targets.len() {
            return Err(Fault::Limit);
        }
        replace(&mut self.ways, at, until, from, targets);
        Ok(())
    }
}

// Whether a way on may stand behind others: none of theirs is from a word above its own.
fn may_follow(ways: &[Way], way: Way) -> bool
    ensures { result ≡ last_up_to way.from ways.now }
{
    match ways.last() {
        Some(last) => last.from <= way.from,
        None => true,
    }
}

// Puts a way on behind the others, if it may stand there and there is room.
fn push<const N: usize>(ways: &mut ArrayVec<Way, N>, way: Way)
    requires { Rising from_of (grouped ways.old.items) }
    ensures rising { Rising from_of (grouped ways.new.items) }
    ensures pushed { Rising from_of (grouped (ways.old.items ++ way ∷ [])) →
        length ways.old.items < N →
        ways.new.items ≡ ways.old.items ++ way ∷ [] }
{
    if may_follow(ways, way) && !ways.is_full() {
        ways.push(way);
    }
}

// Ways on by two columns instead of those that are there, as far as they may stand behind one another and fit.
fn fill<const N: usize>(ways: &mut ArrayVec<Way, N>, froms: &[u64], tos: &[u64])
    ensures rising { Rising from_of (grouped ways.new.items) }
    ensures filled { (rows : List Pair) →
        Rising from_of (grouped rows) →
        length rows ≤ N →
        froms.now ≡ map leaves rows →
        tos.now ≡ map goes_to rows →
        ways.new.items ≡ rows }
{
    ways.clear();
    for (&from, &to) in froms.iter().zip(tos) {
        push(ways, Way { from, to });
    }
}

// How many ways on are from words below `from`.
fn count_below(ways: &[Way], from: u64) -> usize
    requires { Rising from_of (grouped ways.now) }
    ensures { result ≡ rank leaves from ways.now }
{
    ways.partition_point(|way| way.from < from)
}

// How many are from there or below.
fn count_up_to(ways: &[Way], from: u64) -> usize
    requires { Rising from_of (grouped ways.now) }
    ensures { result ≡ rank leaves (suc from) ways.now }
{
    ways.partition_point(|way| way.from <= from)
}

// Puts the ways from a word to its targets in the place of those from `at` up to `until`.
fn replace<const N: usize>(
    ways: &mut ArrayVec<Way, N>,
    at: usize,
    until: usize,
    from: u64,
    targets: &[u64],
)
    requires place { (at ≤ until) × (until ≤ length ways.old.items) }
    requires room { length ways.old.items + length targets.now ≤ N + (until - at) }
    ensures { ways.new.items ≡ replace_range ways.old.items at until (map (way from) targets.now) }
{
    runs::remove_range(ways, at, until);
    for &to in targets {
        ways.push(Way { from, to });
    }
    bring_forward(&mut ways[at..], from, targets);
}

// Brings the last ways on, which go from a word to its targets, before the others.
fn bring_forward(ways: &mut [Way], from: u64, targets: &[u64])
    requires few { length targets.now ≤ length ways.old }
    requires last { drop (length ways.old - length targets.now) ways.old ≡ map (way from) targets.now }
    ensures { ways.new ≡ drop (length ways.old - length targets.now) ways.old ++
        take (length ways.old - length targets.now) ways.old }
{
    let count = targets.len();
    let others = ways.len() - count;
    runs::move_within(ways, 0, others, count);
    for (at, &to) in targets.iter().enumerate() {
        ways[at] = Way { from, to };
    }
}
