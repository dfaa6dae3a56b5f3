// The map put into the lent result lists: a row of ten numbers for each entry, the numbers of the functions' lists, and zeros.
#![tactic(auto)]

ghost use Rattle.std.specs.Prelude.{◌≡◌, ◌≤◌, ◌*◌, ℕ, List, length, true, false};
ghost use Rattle.rules.specs.Known.{Entry};
ghost use Rattle.rules.specs.Map.{Capacity};
ghost use Rattle.tables.specs.Rows as tables;
ghost use Rattle.analyzer.specs.Table.{Holds, info_of};
ghost use Rattle.result_lists.specs.Rows.{ROW, flags, result_row, rows_of, padded, Results};

use analyzer::{AnalyzerState, FunctionInfo};
use tables::Row;

/// How many numbers a row has.
pub const ROW: usize = 10;

// What is told of an entry by bits: 1 analyzed, 2 has lists, 4 conditional `blr`, 8 `rfi`, 16 load of r1, 32 finalized.
fn flags(info: &FunctionInfo) -> u64
    ensures { (x : Entry) → info.now ≡ info_of x → result ≡ flags x.analyzed x.slices }
{
    let analyzed = u64::from(info.analyzed);
    match info.slices {
        Some(header) => {
            analyzed
                + 2
                + 4 * u64::from(header.has_conditional_blr)
                + 8 * u64::from(header.has_rfi)
                + 16 * u64::from(header.has_r1_load)
                + 32 * u64::from(header.finalized)
        }
        None => analyzed,
    }
}

// An entry's ten numbers.
fn row(entry: Row, info: &FunctionInfo) -> [u64; ROW]
    ensures { (x : Entry) →
        entry ≡ tables.row x.entry x.end →
        info.now ≡ info_of x →
        result ≡ result_row x }
{
    let flags = flags(info);
    match info.slices {
        Some(header) => [
            entry.key,
            entry.value,
            flags,
            header.prologue.unwrap_or(0),
            header.epilogue.unwrap_or(0),
            u64::from(header.blocks),
            u64::from(header.branches),
            u64::from(header.function_references),
            u64::from(header.jump_table_references),
            u64::from(header.possible_blocks),
        ],
        None => [entry.key, entry.value, flags, 0, 0, 0, 0, 0, 0, 0],
    }
}

// The rows of all entries, and zeros past them.
fn put_rows(state: &AnalyzerState, rows: &mut [u64])
    requires { length state.now.infos.items * ROW ≤ length rows.old }
    ensures { (cap : Capacity) (lists : List ℕ) (es : List Entry) →
        Holds cap state.now lists es →
        rows.new ≡ padded (rows_of es) (length rows.old) }
{
    let entries = state.known.as_slice();
    for (at, info) in state.infos.as_slice().iter().enumerate() {
        if let Some(entry) = entries.get(at) {
            rows[at * ROW..at * ROW + ROW].copy_from_slice(&row(*entry, info));
        }
    }
    let past = state.infos.len() * ROW;
    let rest = rows.len() - past;
    runs::fill(rows, past, 0, rest);
}

/// The entries put into the result lists, of which `lists` holds the numbers already; how many numbers there are.
pub fn put_results(state: &AnalyzerState, rows: &mut [u64], lists: &mut [u64]) -> usize
    requires { length state.now.infos.items * ROW ≤ length rows.old }
    ensures { (cap : Capacity) (es : List Entry) →
        Holds cap state.now lists.old es →
        Results es rows.old lists.old rows.new lists.new result }
{
    put_rows(state, rows);
    let total = state.numbers_len().min(lists.len());
    let rest = lists.len() - total;
    runs::fill(lists, total, 0, rest);
    total
}
