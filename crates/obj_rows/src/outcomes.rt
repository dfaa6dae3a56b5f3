// What each code word does, as rows: what check 2 asks of one.
ghost use Rattle.std.specs.Prelude.{◌≡◌, map};
ghost use Rattle.rules.specs.Check as rules;
ghost use Rattle.obj_image.specs.Lent.{branch_row, seen};
ghost use Rattle.obj_image.specs.Sections.{Few};
ghost use Rattle.obj_rows.specs.Outcomes.{row_by, row_of, read_outcome, Decodes, number_of};

use obj_image::sections::locate;

// What a code word does, as a row has it.
#[derive(Clone, Copy)]
pub struct Row {
    pub kind: u32,
    pub mark: u32,
    pub first: u32,
    pub second: u32,
    pub third: u32,
    pub fourth: u32,
}

impl From<&[u32; 6]> for Row {
    ghost from_gives = { λ numbers row. row ≡ row_by numbers.now };

    fn from(numbers: &[u32; 6]) -> Row {
        Row {
            kind: numbers[0],
            mark: numbers[1],
            first: numbers[2],
            second: numbers[3],
            third: numbers[4],
            fourth: numbers[5],
        }
    }
}

// The kinds of outcome.
#[derive(Clone, Copy, Debug, PartialEq, Eq)]
pub enum Kind {
    GoOn,
    Illegal,
    Unknown,
    Return,
    Jump,
    JumpTable,
    Branches,
}

// A number that is no kind of outcome.
#[derive(Clone, Copy, Debug, PartialEq, Eq)]
pub struct UnknownKind(pub u32);

impl TryFrom<u32> for Kind {
    type Error = UnknownKind;

    ghost try_from_gives = { Decodes };

    fn try_from(number: u32) -> Result<Kind, UnknownKind> {
        match number {
            0 => Ok(Kind::GoOn),
            1 => Ok(Kind::Illegal),
            2 => Ok(Kind::Unknown),
            3 => Ok(Kind::Return),
            4 => Ok(Kind::Jump),
            5 => Ok(Kind::JumpTable),
            6 => Ok(Kind::Branches),
            _ => Err(UnknownKind(number)),
        }
    }
}

// Given addresses are multiples of 4 inside a section.
pub fn is_inside(sections: &[u32], a: u32) -> bool
    requires { Few sections.now }
    ensures { result ≡ rules.is_inside (seen sections.now) a }
{
    (a % 4 == 0) & (locate(sections, a) != 0)
}

// A branch, if there is one, goes to an address, a table or elsewhere, with link or not; elsewhere is no address.
fn is_branch_row(sections: &[u32], way: u32, a: u32) -> bool
    requires { Few sections.now }
    ensures { result ≡ rules.all (rules.is_branch_row (seen sections.now)) (branch_row way a) }
{
    match way % 4 {
        0 => way == 0 && a == 0,
        3 => (way / 4 <= 1) & (a == 0),
        _ => (way / 4 <= 1) & is_inside(sections, a),
    }
}

// What a row has beside its kind and mark: a target, a table with a size of at most 65,536, a list of 0 to 2 branches, or nothing.
fn fits_kind(sections: &[u32], kind: Kind, r: Row) -> bool
    requires few { Few sections.now }
    requires kind { number_of kind ≡ r.kind }
    ensures { result ≡ rules.fits_kind (seen sections.now) (row_of r) }
{
    let none = (r.third == 0) & (r.fourth == 0);
    // the kinds that most words have, by a comparison: a jump by the kind takes longer
    if r.kind <= 3 {
        return (r.first == 0) & (r.second == 0) & none;
    }
    match kind {
        Kind::GoOn | Kind::Illegal | Kind::Unknown | Kind::Return => false,
        Kind::Jump => is_inside(sections, r.first) & (r.second == 0) & none,
        Kind::JumpTable => is_inside(sections, r.first) & (r.second <= 65536) & none,
        Kind::Branches => {
            is_branch_row(sections, r.first, r.second) & is_branch_row(sections, r.third, r.fourth)
        },
    }
}

fn is_outcome(sections: &[u32], r: Row) -> bool
    requires { Few sections.now }
    ensures { result ≡ rules.is_outcome (seen sections.now) (row_of r) }
{
    match Kind::try_from(r.kind) {
        Ok(kind) => (r.mark <= 1) & fits_kind(sections, kind, r),
        Err(_) => false,
    }
}

// (Not inlined: among all that the other checks hold, a row's numbers would have no registers.)
#[inline(never)]
pub fn are_outcomes(sections: &[u32], outcomes: &[[u32; 6]]) -> bool
    requires { Few sections.now }
    ensures { result ≡ rules.all (rules.is_outcome (seen sections.now))
        (map read_outcome outcomes.now) }
{
    outcomes
        .iter()
        .map(Row::from)
        .all(|r| is_outcome(sections, r))
}
