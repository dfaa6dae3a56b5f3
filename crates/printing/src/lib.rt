// A map in the lent result lists, printed as its lines; a refusal's line.
#![tactic(auto)]

mod line;
mod row;

ghost use Rattle.std.specs.Prelude.{◌≡◌, List, ◌+◌, ◌*◌, ◌<◌, ◌≤◌, length};
ghost use Rattle.rules.specs.Choice.{ok, fault};
ghost use Rattle.rules.specs.Known.{Entry};
ghost use Rattle.rules.specs.Lines as rules;
ghost use Rattle.printing.specs.Printed.{Room, Printed};
ghost use Rattle.printing.specs.Rows.{entries_in, There, Tells, Telling};
ghost use Rattle.printing.specs.Told.{Begun, listed, printed_entry};

use crate::line::{Kind, Text};
use crate::row::{EntryRow, Lists};
use result_lists::ROW;

// The lines of a function's lists.
fn put_lists(text: &mut Text, lists: &Lists)
    requires { Room (listed lists.now) text.old }
    ensures { Printed (listed lists.now) text.old text.new }
{
    let references = lists.function_references;
    text.put_lines(Kind::Block, lists.block_starts, lists.block_ends);
    text.put_lines(Kind::Way, lists.froms, lists.tos);
    text.put_lines(Kind::Reference, references, references);
    text.put_lines(Kind::Table, lists.table_addresses, lists.table_sizes);
}

// The lines of an entry.
fn put_entry(text: &mut Text, entry: &EntryRow, lists: &Lists)
    requires { Room (printed_entry entry.now lists.now) text.old }
    ensures { Printed (printed_entry entry.now lists.now) text.old text.new }
{
    if entry.is_function() {
        text.put_function_line(entry);
        put_lists(text, lists);
    } else {
        text.put_line(Kind::SetAside, entry.entry, 0);
    }
}

// The lines of the entries that rows and numbers tell.
fn put_entries(text: &mut Text, rows: &[[u64; ROW]], numbers: &[u64])
    requires there { There rows.now numbers.now }
    requires room { Room (rules.text (rules.lines_map (entries_in rows.now numbers.now))) text.old }
    ensures { Printed (rules.text (rules.lines_map (entries_in rows.now numbers.now)))
        text.old text.new }
{
    let mut numbers = numbers;
    for row in rows {
        let entry = EntryRow::from(row);
        let lists = entry.lists(numbers);
        put_entry(text, &entry, &lists);
        numbers = lists.behind;
    }
}

// The text of a map of `count` entries, and how long it is.
pub fn put_map(rows: &[u64], lists: &[u64], count: usize, out: &mut [u8]) -> usize
    requires map { Telling count rows.now lists.now }
    requires room { 6 + 46 * count + 11 * length lists.now ≤ length out.old }
    ensures { (es : List Entry) →
        Tells count rows.now lists.now es →
        Begun (rules.text (rules.lines (ok es))) out.old out.new result }
{
    let (rows, _) = rows.as_chunks::<ROW>();
    let mut text = Text::new(out);
    text.put_answer(0);
    put_entries(&mut text, &rows[..count], lists);
    text.len()
}

// The text of a refusal, the number alone, and how long it is.
pub fn put_refusal(number: u32, out: &mut [u8]) -> usize
    requires { (number < 100) × (5 ≤ length out.old) }
    ensures { Begun (rules.text (rules.lines (fault number))) out.old out.new result }
{
    let mut text = Text::new(out);
    text.put_answer(number);
    text.len()
}
