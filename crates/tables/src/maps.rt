// Values by address.

ghost use Rattle.std.specs.Prelude.{◌≡◌, ◌≤◌, ◌-◌, List, [], length, map, option_map, slice_get, true, Err};
ghost use Rattle.rules.specs.Choice.{limited};
ghost use Rattle.rules.specs.Ordered.{rank, has, put, Rising};
ghost use Rattle.faults.specs.Outcome.{outcome};
ghost use Rattle.tables.specs.declared.maps.Row.{Row as Rows};
ghost use Rattle.tables.specs.Places.{IsPlace, row_of, first_from, last_below};
ghost use Rattle.tables.specs.Rows.{row, key_of, value_of};

use arrayvec::ArrayVec;
use faults::Fault;
use std::marker::Model;

/// A value, and the address that it belongs to.
#[derive(Clone, Copy, Debug, Default, PartialEq, Eq)]
pub struct Row {
    pub key: u64,
    pub value: u64,
}

/// At most `N` rows, each key above the one before.
#[derive(Drop)]
pub struct Map<const N: usize> {
    rows: ArrayVec<Row, N>,
}

impl<const N: usize> Model for Map<N> {
    ghost use Rattle.std.specs.Prelude.{List};
    ghost use Rattle.rules.specs.Ordered.{Rising};
    ghost use Rattle.tables.specs.declared.maps.Row.{Row};
    ghost use Rattle.tables.specs.Rows.{key_of};

    ghost Value = { List Row };

    ghost view = { λ t. t.rows.items };

    ghost invariant = { λ t. Rising key_of t.rows.items };
}

impl<const N: usize> Map<N> {
    /// No row.
    pub fn new() -> Self
        ensures { result ≡ [] }
    {
        Map {
            rows: ArrayVec::new(),
        }
    }

    /// The rows, ascending.
    pub fn as_slice(&self) -> &[Row]
        ensures rows { result.now ≡ self.now }
        ensures fits { length result.now ≤ N }
        ensures rising { Rising key_of result.now }
    {
        self.rows.as_slice()
    }

    /// How many there are.
    pub fn len(&self) -> usize
        ensures value { result ≡ length self.now }
        ensures fits { result ≤ N }
    {
        self.rows.len()
    }

    /// Where the row with a key is, or where it would go.
    pub fn position(&self, key: u64) -> Result<usize, usize>
        ensures place { IsPlace key_of key self.now result }
        ensures fits { length self.now ≤ N }
        ensures rising { Rising key_of self.now }
    {
        self.rows.binary_search_by_key(&key, |row| row.key)
    }

    /// How many keys are below `key`.
    pub fn rank(&self, key: u64) -> usize
        ensures value { result ≡ rank key_of key self.now }
        ensures fits { result ≤ length self.now }
    {
        self.position(key).unwrap_or_else(|at| at)
    }

    /// Whether there is a row with a key.
    pub fn contains_key(&self, key: u64) -> bool
        ensures value { result ≡ has key_of key self.now }
        ensures fits { length self.now ≤ N }
        ensures rising { Rising key_of self.now }
    {
        self.position(key).is_ok()
    }

    /// The value of a key.
    pub fn get(&self, key: u64) -> Option<u64>
        ensures { result ≡ option_map value_of (row_of key_of key self.now) }
    {
        match self.position(key) {
            Ok(at) => Some(self.rows[at].value),
            Err(_) => None,
        }
    }

    // Whether a key is above all that are there.
    fn is_behind(&self, key: u64) -> bool
        ensures { result ≡ true → IsPlace key_of key self.now (Err (length self.now)) }
    {
        match self.rows.last() {
            Some(last) => last.key < key,
            None => true,
        }
    }

    // Where the row with a key is, or where it would go. Rows are often put in in their order, so behind the last one is asked first.
    fn place(&self, key: u64) -> Result<usize, usize>
        ensures place { IsPlace key_of key self.now result }
        ensures fits { length self.now ≤ N }
    {
        if self.is_behind(key) {
            return Err(self.rows.len());
        }
        self.position(key)
    }

    /// Puts a row in its place, instead of the row with its key if there is one.
    pub fn insert(&mut self, key: u64, value: u64) -> Result<(), Fault>
        ensures { outcome self.new result ≡ limited N (put key_of (row key value) self.old) }
    {
        match self.place(key) {
            Ok(at) => {
                self.rows[at] = Row { key, value };
                Ok(())
            }
            Err(at) => {
                if self.rows.is_full() {
                    return Err(Fault::Limit);
                }
                runs::insert(&mut self.rows, at, Row { key, value });
                Ok(())
            }
        }
    }

    /// The last row whose key is below `key`.
    pub fn lower(&self, key: u64) -> Option<Row>
        ensures { result ≡ last_below key_of key self.now }
    {
        self.rows[..self.rank(key)].last().copied()
    }

    /// The first row whose key is `key` or more.
    pub fn first_from(&self, key: u64) -> Option<Row>
        ensures { result ≡ first_from key_of key self.now }
    {
        self.rows.get(self.rank(key)).copied()
    }

    /// The first row.
    pub fn first(&self) -> Option<Row>
        ensures { result ≡ slice_get self.now 0 }
    {
        self.rows.first().copied()
    }

    /// The last row.
    pub fn last(&self) -> Option<Row>
        ensures { result ≡ slice_get self.now (length self.now - 1) }
    {
        self.rows.last().copied()
    }

    /// Rows by a column of their keys and one of their values, instead of those that are there, as far as they fit.
    pub fn assign(&mut self, keys: &[u64], values: &[u64])
        ensures { (rows : List Rows) →
            Rising key_of rows →
            length rows ≤ N →
            keys.now ≡ map key_of rows →
            values.now ≡ map value_of rows →
            self.new ≡ rows }
    {
        self.clear();
        for (&key, &value) in keys.iter().zip(values) {
            let _fits = self.insert(key, value);
        }
    }

    /// Takes all of them out.
    pub fn clear(&mut self)
        ensures { self.new ≡ [] }
    {
        self.rows.clear();
    }
}
