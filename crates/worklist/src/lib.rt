// What a walk has done and is still to do (executor.rs): which code words were visited, and the addresses that are pending.
#![tactic(auto)]

pub mod pending;
pub mod visited;

pub use pending::Pending;
pub use visited::Visited;
