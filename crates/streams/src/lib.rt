//! The streams of the programs, which take no heap. Standard input and output never fail: a read that fails is the input's end, and what
//! cannot be written is passed over. A reader and a writer with room of a fixed size lie before any others.
#![tactic(auto)]

mod fixed_reader;
mod fixed_writer;
mod standard;

pub use fixed_reader::FixedReader;
pub use fixed_writer::FixedWriter;
pub use standard::{Input, Output, WholeInput};
