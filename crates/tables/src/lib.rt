// Tables of a fixed capacity whose rows rise by a key: addresses, values by address, and the ways on from words.
#![tactic(auto)]

mod maps;
mod multimap;
mod sets;

pub use maps::{Map, Row};
pub use multimap::{Way, Ways};
pub use sets::Set;
