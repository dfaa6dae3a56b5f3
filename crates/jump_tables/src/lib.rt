// The entries of jump tables (analysis/mod.rs).
#![tactic(auto)]

mod entries;
mod reading;
mod words;

pub use entries::{
    JumpTable, uniq_jump_table_entries, uniq_jump_table_entries_in, uniq_jump_table_entries_of,
};
