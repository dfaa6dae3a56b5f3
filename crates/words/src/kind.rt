//! What the walk takes a word for.
use ppc::words::{
    is_addi, is_blr, is_conditional_blr, is_function_terminator, is_lwz, is_mflr, is_mtlr, is_nop,
    is_or, is_rfi, is_stw, is_stwu,
};
use std::fmt;

#[derive(Clone, Copy, Debug, Default, PartialEq, Eq)]
pub enum Kind {
    // the default fills a list's room
    #[default]
    Blr,
    Nop,
    Rfi,
    ConditionalBlr,
    Mflr,
    Mtlr,
    Stwu,
    Stw,
    Addi,
    Or,
    Lwz,
    Terminator,
}

/// All kinds, in the order in which they are told.
pub const KINDS: [Kind; 12] = [
    Kind::Blr,
    Kind::Nop,
    Kind::Rfi,
    Kind::ConditionalBlr,
    Kind::Mflr,
    Kind::Mtlr,
    Kind::Stwu,
    Kind::Stw,
    Kind::Addi,
    Kind::Or,
    Kind::Lwz,
    Kind::Terminator,
];

impl Kind {
    ghost use Rattle.std.specs.Prelude.{◌≡◌};
    ghost use Rattle.words.specs.Kinds.{is_kind};

    /// Whether a word is of this kind.
    pub fn fits(self, word: u32) -> bool
        ensures { result ≡ is_kind self word }
    {
        match self {
            Kind::Blr => is_blr(word),
            Kind::Nop => is_nop(word),
            Kind::Rfi => is_rfi(word),
            Kind::ConditionalBlr => is_conditional_blr(word),
            Kind::Mflr => is_mflr(word),
            Kind::Mtlr => is_mtlr(word),
            Kind::Stwu => is_stwu(word),
            Kind::Stw => is_stw(word),
            Kind::Addi => is_addi(word),
            Kind::Or => is_or(word),
            Kind::Lwz => is_lwz(word),
            Kind::Terminator => is_function_terminator(word),
        }
    }
}

impl fmt::Display for Kind {
    fn fmt<W: fmt::Write>(&self, f: &mut fmt::Formatter<W>) -> fmt::Result {
        f.write_str(match self {
            Kind::Blr => "blr",
            Kind::Nop => "nop",
            Kind::Rfi => "rfi",
            Kind::ConditionalBlr => "conditional",
            Kind::Mflr => "mflr",
            Kind::Mtlr => "mtlr",
            Kind::Stwu => "stwu",
            Kind::Stw => "stw",
            Kind::Addi => "addi",
            Kind::Or => "or",
            Kind::Lwz => "lwz",
            Kind::Terminator => "terminator",
        })
    }
}
