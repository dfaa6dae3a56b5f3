// The skip ranges: what check 3 asks of them, and the range that holds an address.
ghost use Rattle.std.specs.Prelude.{◌≡◌, map};
ghost use Rattle.rules.specs.Check as rules;
ghost use Rattle.obj_image.specs.Lent.{rows, skip_row, seen};
ghost use Rattle.obj.specs.Sections.{Few};
ghost use Rattle.obj_rows.specs.Skips.{range_of, read_range};

use crate::sections::{code_section, wide};
use obj_rows::skips::skips_ascend;
pub use obj_rows::skips::{Range, in_skipped_range, skip_range};

// Skip ranges are nonempty, aligned, inside code.
fn is_skip(sections: &[u32], r: Range) -> bool
    requires { Few sections.now }
    ensures { result ≡ rules.is_skip (seen sections.now) (range_of r) }
{
    let code = code_section(sections);
    (r.first % 4 == 0)
        & (r.past % 4 == 0)
        & (r.first < r.past)
        & (code.base <= r.first)
        & (wide(r.past) <= wide(code.base) + wide(code.size))
}

fn all_skips(sections: &[u32], skips: &[[u32; 2]]) -> bool
    requires { Few sections.now }
    ensures { result ≡ rules.all (rules.is_skip (seen sections.now)) (map read_range skips.now) }
{
    skips.iter().map(Range::from).all(|r| is_skip(sections, r))
}

// At most 64.
pub fn are_skips(sections: &[u32], skips: &[u32]) -> bool
    requires { Few sections.now }
    ensures { result ≡ rules.are_skips (seen sections.now) (rows 2 skip_row skips.now) }
{
    let (skips, []) = skips.as_chunks::<2>() else {
        return false;
    };
    (skips.len() <= 64) & all_skips(sections, skips) & skips_ascend(skips)
}
