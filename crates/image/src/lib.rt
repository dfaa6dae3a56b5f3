// An image as one lent list of numbers, which begins with a header, and its bytes: the lists that lie in it, and checks 1 to 3.
#![tactic(auto)]

ghost use Rattle.std.specs.Prelude.{◌≡◌, ◌+◌, ◌≤◌, ◌<◌};
ghost use Rattle.rules.specs.Check as rules;
ghost use Rattle.obj.specs.Lent.{given};
ghost use Rattle.image.specs.Lists.{HEADER, head, part, lent_of};
ghost use Rattle.image.specs.Lists.{sections_of, outcomes_of, functions_of, objects_of, skips_of, entry_of};

// Where the header has its numbers: of a list the place, and behind it how many rows there are.
pub const KIND: usize = 0;

pub const READING: usize = 1;

pub const SECTIONS: usize = 2;

pub const OUTCOMES: usize = 4;

pub const FUNCTIONS: usize = 6;

pub const OBJECTS: usize = 8;

pub const SKIPS: usize = 10;

pub const ENTRY: usize = 12;

pub const RELOCATIONS: usize = 14;

pub const HEADER: usize = 16;

// How many numbers a row has.
pub const SECTION: usize = 4;

pub const OUTCOME: usize = 6;

pub const SYMBOL: usize = 3;

pub const SKIP: usize = 2;

fn wide(x: u32) -> usize
    ensures { (result ≡ x) × (result < 0x1_0000_0000) }
{
    x as usize
}

// A number of the header; 0 where the header is not whole.
fn head(image: &[u32], h: usize) -> usize
    requires { h < HEADER }
    ensures { (result ≡ head image.now h) × (result < 0x1_0000_0000) }
{
    if image.len() < HEADER {
        return 0;
    }
    wide(image[h])
}

// The list of rows of w numbers whose place and count stand at h. One that does not lie inside is five numbers, which break every list's
// rule: so a list is always there to be lent, and its own check refuses it.
fn part(image: &[u32], h: usize, w: usize) -> &[u32]
    requires { (h + 1 < HEADER) × (w ≤ 6) }
    ensures { result.now ≡ part image.now h w }
{
    let a = head(image, h);
    let b = a + head(image, h + 1) * w;
    if b <= image.len() {
        return &image[a..b];
    }
    &image[0..5]
}

// The sections; none of a kind of image that there is not, and none where there are relocations.
pub fn sections(image: &[u32]) -> &[u32]
    ensures { result.now ≡ sections_of image.now }
{
    if (head(image, KIND) == 0) & (head(image, RELOCATIONS + 1) == 0) {
        return part(image, SECTIONS, SECTION);
    }
    &image[0..0]
}

pub fn outcomes(image: &[u32]) -> &[u32]
    ensures { result.now ≡ outcomes_of image.now }
{
    part(image, OUTCOMES, OUTCOME)
}

pub fn functions(image: &[u32]) -> &[u32]
    ensures { result.now ≡ functions_of image.now }
{
    part(image, FUNCTIONS, SYMBOL)
}

pub fn objects(image: &[u32]) -> &[u32]
    ensures { result.now ≡ objects_of image.now }
{
    part(image, OBJECTS, SYMBOL)
}

pub fn skips(image: &[u32]) -> &[u32]
    ensures { result.now ≡ skips_of image.now }
{
    part(image, SKIPS, SKIP)
}

// The entry point; five numbers for a reading that there is not.
pub fn entry(image: &[u32]) -> &[u32]
    ensures { result.now ≡ entry_of image.now }
{
    if head(image, READING) == 0 {
        return part(image, ENTRY, 1);
    }
    &image[0..5]
}

// 1, 2 or 3 by the first check that fails; 0 where none does.
pub fn check(image: &[u32], bytes: &[u8]) -> u32
    ensures { result ≡ rules.check (given (lent_of image.now bytes.now)) }
{
    obj::checks::check(
        sections(image),
        bytes,
        outcomes(image),
        functions(image),
        objects(image),
        skips(image),
        entry(image),
    )
}
