// A walk over a function's words (slices.rs): its state, and what one word does to it.
#![tactic(auto)]

mod around;
mod branches;
mod callback;
mod code;
mod functions;
mod jump_table;
mod jumps;
mod sequences;
mod walk;

pub use around::{Around, FUNCTIONS, KnownFunctions};
pub use code::nth_word;
pub use jumps::is_recorded;
pub use walk::{Place, Walk};
