// The skip ranges as rows: their order, and the range that holds an address.
ghost use Rattle.std.specs.Prelude.{◌≡◌, [], ◌+◌, ◌≤◌, length, map};
ghost use Rattle.rules.specs.Ordered.{self as own, rank, Rising};
ghost use Rattle.rules.specs.Check as rules;
ghost use Rattle.rules.specs.Image as images;
ghost use Rattle.obj_image.specs.Lent.{Lent, image, seen};
ghost use Rattle.obj_rows.specs.Skips.{range_by, range_of, read_range, first_of, Ascending, IsSkipped};

// A range of addresses, from its first to just below the second.
#[derive(Clone, Copy)]
pub struct Range {
    pub first: u32,
    pub past: u32,
}

impl From<&[u32; 2]> for Range {
    ghost from_gives = { λ row range. range ≡ range_by row.now };

    fn from(row: &[u32; 2]) -> Range {
        let [first, past] = *row;
        Range { first, past }
    }
}

fn comes_before(r: Range, range: Range) -> bool
    ensures { result ≡ rules.comes_before (seen []) (range_of r) (range_of range) }
{
    r.past <= range.first
}

// Ascending; they may touch but not overlap.
pub fn skips_ascend(skips: &[[u32; 2]]) -> bool
    ensures { result ≡ rules.chained (rules.comes_before (seen [])) (map read_range skips.now) }
{
    skips.is_sorted_by(|r, range| comes_before(Range::from(r), Range::from(range)))
}

fn in_range(a: u32, r: Range) -> bool
    ensures { result ≡ images.in_range a (range_of r) }
{
    (r.first <= a) & (a < r.past)
}

// How many skip ranges begin at an address or below it.
fn starts_by(skips: &[[u32; 2]], a: u32) -> usize
    requires { Rising own (map first_of skips.now) }
    ensures rank { result ≡ rank own (a + 1) (map first_of skips.now) }
    ensures bound { result ≤ length skips.now }
{
    skips.partition_point(|row| Range::from(row).first <= a)
}

// Over one skip range: where the one that holds a ends; a where none does. Ranges ascend, so that only the last that begins at a or
// below it can hold a.
pub fn skip_range(skips: &[u32], a: u32) -> u32
    requires { Ascending skips.now }
    ensures { IsSkipped skips.now a result }
{
    let (skips, _) = skips.as_chunks::<2>();
    let Some(last) = starts_by(skips, a).checked_sub(1) else {
        return a;
    };
    let r = Range::from(&skips[last]);
    if in_range(a, r) { r.past } else { a }
}

// Whether an address lies in a skip range: one that does is not where its range ends.
pub fn in_skipped_range(skips: &[u32], a: u32) -> bool
    requires { Ascending skips.now }
    ensures { (l : Lent) → l.skips ≡ skips.now → result ≡ images.in_skipped_range (image l) a }
{
    skip_range(skips, a) != a
}
