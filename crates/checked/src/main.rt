//! Prints for each image of its input the number of the check that it fails, 0 for none, and, where that is 0, what the reading of each
//! jump table in it comes to.
//!
//! The crate `lines` has the form in which an image is read.
//!
//! Printed are a line with the check's number, then a line for each table that an outcome names, as a jump table or in a list of
//! branches, in the order of the code words, and then `=`. A table's line has its address and the size given with it, and then
//! `size`, its size as read, and its entries, each with its section's number, counted from 1, before eight digits of address; or
//! `fault` and 9, 10 or 4. A branch gives no size, so there it is 0. A table without a size may lead to where a walk straight from its
//! function's start would let it: from the last function symbol at or below the word that names it, or else from code's first word, up
//! to the end that the symbol knows, or else up to that word's own end.
#![tactic(auto)]

mod answer;
mod named;

use lines::{Bytes, Numbers};
use streams::{FixedReader, FixedWriter, Input, Output};

// What can be read is answered, and what can be written of the answers is written: nothing else is said of what fails.
fn main() {
    let mut numbers: Numbers = [0; 400000];
    let mut bytes: Bytes = [0; 300000];
    let _ = lines::answer_all(
        &mut FixedReader::new(Input),
        &mut numbers,
        &mut bytes,
        &mut FixedWriter::new(Output),
        |out, image| answer::answer(out, image),
    );
}
