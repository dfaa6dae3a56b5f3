// The sections of an image in lent lists: check 1, and where an address lies.
#![tactic(auto)]

pub mod sections;
