//! Marks, cuts, pushes and pops through lent records and through the core, and prints the answers of both.
//!
//! The input has an operation on each line: a letter, and numbers in hexadecimal.
//!
//!   m ADDR        the address is marked
//!   c ADDR        the block that reaches over the address is cut. The core has no cut of its own: it marks where one was made
//!   r START END   a row is put behind the last, whatever it holds
//!   n COUNT       there are so many blocks, whatever the rows hold
//!   z             an empty table
//!   p ADDR        the address is pushed
//!   o             the highest address is popped
//!   q COUNT       so many addresses are pending, whatever they are
//!
//! Printed are after m and c, for the records and then for the core: the number, 1 for yes or 0, the count, and a sum over all rows;
//! after p and o: the address that was popped or 0, 1 for yes or 0, the count, and a sum over all addresses. The last line has how many
//! operations the two disagreed about.
#![tactic(auto)]

mod answers;
mod lists;
mod operations;
mod table;

use answers::Both;
use arrayvec::ArrayString;
use lists::Lists;
use operations::{Line, Operation};
use std::fmt::{Display, Write as _};
use std::io::{self, Read, Write};
use streams::{Input, Output};
use table::Table;

/// Room for what is read of the input at a time.
type Space = [u8; 4096];

/// Room for the longest line that is printed.
type Text = ArrayString<128>;

/// Writes a line at once.
fn print_line<W: Write, D: Display + Drop>(to: &mut W, line: D) -> io::Result<()> {
    let mut text = Text::new();
    writeln!(text, "{line}")?;
    to.write_all(text.as_bytes())
}

/// What an operation came to, if that is printed.
fn perform(table: &mut Table, lists: &mut Lists, operation: Operation) -> Option<Both> {
    match operation {
        Operation::Mark(addr) => Some(table.mark(addr)),
        Operation::Cut(addr) => Some(table.cut(addr)),
        Operation::Row(start, end) => {
            table.put_row(start, end);
            None
        }
        Operation::Blocks(count) => {
            table.set_count(count);
            None
        }
        Operation::Empty => {
            *table = Table::new();
            None
        }
        Operation::Push(addr) => Some(lists.push(addr)),
        Operation::Pop => Some(lists.pop()),
        Operation::Pending(count) => {
            lists.set_count(count);
            None
        }
    }
}

/// Performs the operations of the input, as soon as they are read. A line is one where its newline comes.
fn perform_all<R: Read, W: Write>(from: &mut R, to: &mut W) -> io::Result<()> {
    let mut table = Table::new();
    let mut lists = Lists::new();
    let mut line = Line::new();
    let mut apart: u64 = 0;
    let mut space: Space = [0; 4096];
    // Nothing says that the input ends.
    for _ in 0..u64::MAX {
        let count = from.read(&mut space)?;
        if count == 0 {
            break;
        }
        for &byte in &space[..count] {
            if byte != b'\n' {
                line.read(byte);
                continue;
            }
            if let Some(operation) = line.operation() {
                if let Some(both) = perform(&mut table, &mut lists, operation) {
                    print_line(to, both)?;
                    apart = apart.saturating_add(u64::from(!both.agree()));
                }
            }
            line = Line::new();
        }
    }
    print_line(to, format_args!("disagreements {apart}"))
}

fn main() {
    let _ = perform_all(&mut Input, &mut Output);
}
