// An image that was checked, and what is known of it by address (obj/mod.rs).
#![tactic(auto)]

mod checks;
mod code;
mod info;
mod keys;
mod known;
mod sections;

pub use info::{ObjInfo, TableInfo};
pub use keys::{address_of, section_of};
pub use obj::outcomes::{Branch, Outcome, To, Told};
pub use obj::sections::Code;
pub use sections::{Section, SectionKind};
