// A text of frames, one to a line, read into the lent lists that stand for an image: its lines (`line`), what each puts into the lists
// (`put`), and the text cut into lines (`texts`).
#![tactic(auto)]

pub mod image;
pub mod line;
pub mod outcomes;
pub mod put;
pub mod rows;
pub mod state;
pub mod texts;
pub mod words;
