//! Makes the walks that are asked of each image of its input, by `one_function::walk_function`, and prints what comes of them.
//!
//! The crate `lines` has the form in which an image is read. A walk is five numbers of the list `w`: its start, its end, each with the
//! section before the address, and the length of the list that is lent for its result, up to 4,096. A known function is four numbers of
//! the list `n`: its entry and its end in the same way. Sections are counted from 1 here; 0 0 is no end.
//!
//! Printed are for each walk `R` and its number and, where that is 0:
//!
//!   A  1 if there is a function, else 0; prologue; epilogue; digits for a conditional `blr`, `rfi`, a load of r1
//!   B  start and end of a block
//!   C  a way on: from, to
//!   X  a reference
//!   J  address and size of a jump table
//!   P  a possible block
//!
//! An address has nine digits, its section's before the others; `-` is none. Last comes `L`: `zero` where the lent list is zero past what
//! was stored or, after 1 to 3, `untouched` where it is as it was before; else `changed`. `=` ends an image's walks.
#![tactic(auto)]

mod answer;

use lines::{Bytes, Numbers};
use streams::{FixedReader, FixedWriter, Input, Output};

// What can be read is answered, and what can be written of the answers is written: nothing else is said of what fails.
fn main() {
    let mut numbers: Numbers = [0; 400000];
    let mut bytes: Bytes = [0; 300000];
    let _ = lines::answer_all(
        &mut FixedReader::new(Input),
        &mut numbers,
        &mut bytes,
        &mut FixedWriter::new(Output),
        |out, image| answer::answer(out, image),
    );
}
