// Checks 1 to 3 of all that is handed in.
ghost use Rattle.std.specs.Prelude.{◌≡◌, []};
ghost use Rattle.rules.specs.Check as rules;
ghost use Rattle.obj_image.specs.Lent.{lent, given, seen};
ghost use Rattle.obj.specs.Sections.{Few};

use crate::outcomes::check_outcomes;
use crate::sections::check_image;
use crate::skips::are_skips;
use crate::symbols::{are_functions, are_objects, is_code_address};

// The entry point, if given, is an aligned code address.
fn are_entries(sections: &[u32], entry: &[u32]) -> bool
    requires { Few sections.now }
    ensures { result ≡ rules.are_entries (seen sections.now) entry.now }
{
    match entry {
        [] => true,
        [a] => (*a % 4 == 0) & is_code_address(sections, *a),
        _ => false,
    }
}

// Number 3: whether no symbol, skip range or entry breaks a rule.
fn check_rest(
    sections: &[u32],
    functions: &[u32],
    objects: &[u32],
    skips: &[u32],
    entry: &[u32],
) -> bool
    requires { Few sections.now }
    ensures { result ≡ rules.check_rest (seen sections.now)
        (given
        (lent [] [] [] functions.now objects.now skips.now entry.now)) }
{
    are_functions(sections, functions)
        & are_objects(sections, objects)
        & are_skips(sections, skips)
        & are_entries(sections, entry)
}

// 1, 2 or 3 by the first check that fails; 0 where none does.
pub fn check(
    sections: &[u32],
    bytes: &[u8],
    outcomes: &[u32],
    functions: &[u32],
    objects: &[u32],
    skips: &[u32],
    entry: &[u32],
) -> u32
    ensures { result ≡ rules.check
        (given
        (lent sections.now bytes.now outcomes.now functions.now
        objects.now skips.now entry.now)) }
{
    if !check_image(sections, bytes) {
        1
    } else if !check_outcomes(sections, outcomes) {
        2
    } else if !check_rest(sections, functions, objects, skips, entry) {
        3
    } else {
        0
    }
}
