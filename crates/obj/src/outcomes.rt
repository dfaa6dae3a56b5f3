// What each code word does: what check 2 asks of it, and the outcome at an address.
ghost use Rattle.std.specs.Prelude.{◌≡◌, ◌≤◌, ◌+◌, ◌*◌, ◌/◌, [], eqb, length, map};
ghost use Rattle.rules.specs.Check as rules;
ghost use Rattle.rules.specs.Image as images;
ghost use Rattle.obj_image.specs.Lent.{Lent, lent, branch_row, given, image, seen};
ghost use Rattle.obj.specs.Sections.{Few, IsCode};
ghost use Rattle.rules.specs.Given.{branch_of, outcome_of};
ghost use Rattle.obj.specs.Outcomes.{row_of, branch_list, to_list, outcome_for, told_for, goes_on as goes, InCode};

use crate::sections::{Code, code_section};
pub use obj_rows::outcomes::Row;
use obj_rows::outcomes::{Kind, are_outcomes};

// Where a branch goes. One that goes nowhere is none.
#[derive(Clone, Copy)]
pub enum To {
    Nowhere,
    Address(u32),
    Table(u32),
    Elsewhere,
}

#[derive(Clone, Copy)]
pub struct Branch {
    pub link: bool,
    pub to: To,
}

// What a code word does. A list has up to two branches: those that go somewhere, in order.
#[derive(Clone, Copy)]
pub enum Outcome {
    GoOn,
    Illegal,
    Unknown,
    Return,
    Jump(u32),
    JumpTable(u32, u32),
    Branches(Branch, Branch),
}

// An outcome, and whether the link register holds 0x43300000.
#[derive(Clone, Copy)]
pub struct Told {
    pub outcome: Outcome,
    pub mark: bool,
}

// Number 2: whether each code word has one outcome.
pub fn check_outcomes(sections: &[u32], outcomes: &[u32]) -> bool
    requires { Few sections.now }
    ensures { result ≡ rules.check_outcomes (seen sections.now)
        (given (lent sections.now [] outcomes.now [] [] [] [])) }
{
    let (outcomes, []) = outcomes.as_chunks::<6>() else {
        return false;
    };
    let words = code_section(sections).size / 4;
    outcomes.len() == words as usize && are_outcomes(sections, outcomes)
}

// Where the branch of two numbers of a row goes.
fn to_of(way: u32, a: u32) -> To
    ensures { to_list (eqb (way / 4) 1) result ≡ map branch_of (branch_row way a) }
{
    match way % 4 {
        1 => To::Address(a),
        2 => To::Table(a),
        _ => {
            if way == 0 && a == 0 {
                To::Nowhere
            } else {
                To::Elsewhere
            }
        },
    }
}

// The branch of two numbers of a row.
fn branch_of(way: u32, a: u32) -> Branch
    ensures { branch_list result ≡ map branch_of (branch_row way a) }
{
    Branch {
        link: way / 4 == 1,
        to: to_of(way, a),
    }
}

// The list of a row of kind 6 or more.
fn branches_of(r: Row) -> Outcome
    requires { 6 ≤ r.kind }
    ensures { outcome_for result ≡ outcome_of (row_of r) }
{
    Outcome::Branches(branch_of(r.first, r.second), branch_of(r.third, r.fourth))
}

// The outcome of a row, by its kind.
fn outcome_of(r: Row) -> Outcome
    ensures { outcome_for result ≡ outcome_of (row_of r) }
{
    match Kind::try_from(r.kind) {
        Ok(Kind::GoOn) => Outcome::GoOn,
        Ok(Kind::Illegal) => Outcome::Illegal,
        Ok(Kind::Unknown) => Outcome::Unknown,
        Ok(Kind::Return) => Outcome::Return,
        Ok(Kind::Jump) => Outcome::Jump(r.first),
        Ok(Kind::JumpTable) => Outcome::JumpTable(r.first, r.second),
        Ok(Kind::Branches) => branches_of(r),
        // of a row that check 2 refuses
        Err(_) => branches_of(r),
    }
}

// What the code word at an address does.
pub fn told_at(outcomes: &[u32], code: Code, key: u64) -> Told
    requires { InCode outcomes.now code key }
    ensures { (l : Lent) →
        l.outcomes ≡ outcomes.now →
        IsCode l code →
        told_for result ≡ images.told_at (image l) key }
{
    let a = (key % 0x1_0000_0000) as u32;
    let (outcomes, _) = outcomes.as_chunks::<6>();
    let r = Row::from(&outcomes[(a - code.base) as usize / 4]);
    Told {
        outcome: outcome_of(r),
        mark: r.mark == 1,
    }
}

// Whether the code word with a number goes on.
pub fn goes_on(outcomes: &[u32], word: usize) -> bool
    requires { word * 6 + 6 ≤ length outcomes.now }
    ensures { (l : Lent) → l.outcomes ≡ outcomes.now → result ≡ goes (image l) word }
{
    let (outcomes, _) = outcomes.as_chunks::<6>();
    outcomes[word][0] == Kind::GoOn as u32
}
