// Entries that a run adds (cfa.rs): function symbols and the code section's first word, what a function refers to, what is found behind the
// ends of others.
#![tactic(auto)]

mod code;
mod gaps;
mod new_functions;
mod references;
mod symbols;

pub use new_functions::detect_new_functions;
pub use references::try_add_functions;
pub use symbols::first_entries;
