// What ends a run before its map: a rule that what was handed in breaks, or a fault that the walk met (docs/RULES.md).
#![tactic(auto)]

ghost use Rattle.std.specs.Prelude.{◌≡◌};
ghost use Rattle.faults.specs.Number.{number_of};

use std::error::Error;
use std::fmt;

/// Why there is no map, in the order of the numbers 1 to 17.
#[derive(Clone, Copy, Debug, PartialEq, Eq)]
pub enum Fault {
    /// The image breaks a rule.
    Image,
    /// An outcome breaks a rule.
    Outcome,
    /// A symbol, skip range, entry or lent list breaks a rule.
    List,
    /// A list of the walk would pass its limit.
    Limit,
    /// A second prologue lies below the recorded one, or a terminator stands between.
    SecondPrologue,
    /// An epilogue lies at another address than the recorded one.
    SecondEpilogue,
    /// A branch list names a jump table.
    TableInBranches,
    /// A jump's target is taken for a known function that is the walked one.
    JumpToItself,
    /// An entry of a sized jump table lies in no section.
    EntryOutside,
    /// A sized table's clamped length is no multiple of 4, or an entry taken is none.
    Misaligned,
    /// A walk ends with an open block.
    OpenBlock,
    /// At finalizing: epilogue, no prologue, no load of r1.
    EpilogueAlone,
    /// At finalizing: the last block is open.
    OpenEnd,
    /// An end lies above the next entry.
    EndPastEntry,
    /// An address taken from the pending list lies outside its section.
    PendingOutside,
    /// A walk steps past the code section's last word, or a pass marks no new word.
    Stuck,
    /// Functions remain that cannot be finalized, or a finalized one comes to be finalized again.
    NotFinalized,
}

impl Fault {
    /// The fault's number, 1 to 17.
    pub fn number(self) -> u32
        ensures { result ≡ number_of self }
    {
        match self {
            Fault::Image => 1,
            Fault::Outcome => 2,
            Fault::List => 3,
            Fault::Limit => 4,
            Fault::SecondPrologue => 5,
            Fault::SecondEpilogue => 6,
            Fault::TableInBranches => 7,
            Fault::JumpToItself => 8,
            Fault::EntryOutside => 9,
            Fault::Misaligned => 10,
            Fault::OpenBlock => 11,
            Fault::EpilogueAlone => 12,
            Fault::OpenEnd => 13,
            Fault::EndPastEntry => 14,
            Fault::PendingOutside => 15,
            Fault::Stuck => 16,
            Fault::NotFinalized => 17,
        }
    }
}

impl fmt::Display for Fault {
    fn fmt<W: fmt::Write>(&self, f: &mut fmt::Formatter<W>) -> fmt::Result {
        f.write_str(match self {
            Fault::Image => "the image breaks a rule",
            Fault::Outcome => "an outcome breaks a rule",
            Fault::List => "a symbol, skip range, entry or lent list breaks a rule",
            Fault::Limit => "a list of the walk would pass its limit",
            Fault::SecondPrologue =>
                "a second prologue lies below the recorded one, or a terminator stands between",
            Fault::SecondEpilogue => "an epilogue lies at another address than the recorded one",
            Fault::TableInBranches => "a branch list names a jump table",
            Fault::JumpToItself =>
                "a jump's target is taken for a known function that is the walked one",
            Fault::EntryOutside => "an entry of a sized jump table lies in no section",
            Fault::Misaligned =>
                "a jump table's length or an entry taken from it is no multiple of 4",
            Fault::OpenBlock => "a walk ends with an open block",
            Fault::EpilogueAlone => "a function has an epilogue, but no prologue and no load of r1",
            Fault::OpenEnd => "a function's last block is open",
            Fault::EndPastEntry => "a function's end lies above the next entry",
            Fault::PendingOutside => "a pending address lies outside its section",
            Fault::Stuck =>
                "a walk steps past the code section's last word, or a pass marks no new word",
            Fault::NotFinalized => "functions remain that cannot be finalized",
        })
    }
}

impl Error for Fault {}
