// PowerPC instruction words, as the Rust crate ppc750cl reads them, and the tests of a word that slices.rs makes.
#![tactic(auto)]

pub mod branches;
pub mod fields;
pub mod registers;
pub mod sequences;
pub mod words;
