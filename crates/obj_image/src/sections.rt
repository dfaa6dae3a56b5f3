// The sections: what check 1 asks of them, and where an address lies.
ghost use Rattle.std.specs.Prelude.{◌≡◌, ◌+◌, ◌<◌, ◌≤◌, length, map};
ghost use Rattle.rules.specs.Check as rules;
ghost use Rattle.rules.specs.Image as images;
ghost use Rattle.obj_image.specs.Lent.{Lent, given, image};
ghost use Rattle.obj_image.specs.Sections.{section_by, row_of, read_row, part_of, section_holds, image_holds, Few};

// A section by value.
#[derive(Clone, Copy)]
pub struct Section {
    pub kind: u32,
    pub base: u32,
    pub size: u32,
    pub given: u32,
}

impl From<&[u32; 4]> for Section {
    ghost from_gives = { λ row section. section ≡ section_by row.now };

    fn from(row: &[u32; 4]) -> Section {
        Section {
            kind: row[0],
            base: row[1],
            size: row[2],
            given: row[3],
        }
    }
}

pub fn wide(x: u32) -> u64
    ensures { (result ≡ x) × (result < 0x1_0000_0000) }
{
    u64::from(x)
}

// The first address past a section.
fn past(section: Section) -> u64
    ensures { result ≡ section.base + section.size }
{
    wide(section.base) + wide(section.size)
}

pub fn contains(section: Section, a: u32) -> bool
    ensures { result ≡ images.contains (part_of section) a }
{
    (section.base <= a) & (wide(a) < past(section))
}

// 1 to 8 sections.
fn few_sections(sections: &[[u32; 4]]) -> bool
    ensures { result ≡ rules.few_sections (map read_row sections.now) }
{
    (1..=8).contains(&sections.len())
}

fn is_kind(section: Section) -> bool
    ensures { result ≡ rules.is_kind (row_of section) }
{
    (1..=4).contains(&section.kind)
}

// Base and size are multiples of 4, base at least 256, size at least 4, base + size at most 0xF0000000.
fn is_placed(section: Section) -> bool
    ensures { result ≡ rules.is_placed (row_of section) }
{
    section.base % 4 == 0
        && section.size % 4 == 0
        && 256 <= section.base
        && 4 <= section.size
        && past(section) <= 0xF000_0000
}

// Code is at most 262,144 bytes.
fn code_fits(section: Section) -> bool
    ensures { result ≡ rules.code_fits (row_of section) }
{
    section.kind != 1 || section.size <= 262144
}

// Bss has no bytes; every other section has all of its bytes.
fn has_bytes(section: Section) -> bool
    ensures { result ≡ rules.has_bytes (row_of section) }
{
    section.given == if section.kind == 4 { 0 } else { section.size }
}

// What is asked of each section alone.
fn is_section(section: Section) -> bool
    ensures { result ≡ section_holds (row_of section) }
{
    is_kind(section) && is_placed(section) && code_fits(section) && has_bytes(section)
}

fn are_sections(sections: &[[u32; 4]]) -> bool
    ensures { result ≡ rules.all section_holds (map read_row sections.now) }
{
    sections.iter().map(Section::from).all(is_section)
}

// Exactly one of code.
fn one_code(sections: &[[u32; 4]]) -> bool
    ensures { result ≡ rules.one_code (map read_row sections.now) }
{
    sections
        .iter()
        .map(Section::from)
        .filter(|section| section.kind == 1)
        .count()
        == 1
}

fn are_apart(section: Section, other: Section) -> bool
    ensures { result ≡ rules.are_apart (row_of section) (row_of other) }
{
    past(section) <= wide(other.base) || past(other) <= wide(section.base)
}

// Whether a section overlaps none of some others.
fn is_apart(section: Section, others: &[[u32; 4]]) -> bool
    ensures { result ≡ rules.all (rules.are_apart (row_of section)) (map read_row others.now) }
{
    others
        .iter()
        .map(Section::from)
        .all(|other| are_apart(section, other))
}

// No two overlapping: none overlaps a later one.
fn none_overlap(sections: &[[u32; 4]]) -> bool
    ensures { result ≡ rules.none_overlap (map read_row sections.now) }
{
    match sections {
        [] => true,
        [row, later @ ..] => is_apart(Section::from(row), later) && none_overlap(later),
    }
}

// How many bytes of all sections are lent.
pub fn count_bytes(sections: &[[u32; 4]]) -> u64
    requires { length sections.now ≤ 8 }
    ensures { result ≡ rules.count_bytes (map read_row sections.now) }
{
    let mut count: u64 = 0;
    for row in sections {
        count += wide(Section::from(row).given);
    }
    count
}

// Whether 1 to 8 sections break no rule.
fn is_image(sections: &[[u32; 4]], bytes: &[u8]) -> bool
    requires { length sections.now ≤ 8 }
    ensures { result ≡ image_holds (map read_row sections.now) bytes.now }
{
    one_code(sections)
        && are_sections(sections)
        && none_overlap(sections)
        && bytes.len() == count_bytes(sections) as usize
}

// Number 1: whether the image breaks no rule.
pub fn check_image(sections: &[u32], bytes: &[u8]) -> bool
    ensures { (l : Lent) →
        l.sections ≡ sections.now →
        l.bytes ≡ bytes.now →
        result ≡ rules.check_image (given l) }
{
    let (sections, []) = sections.as_chunks::<4>() else {
        return false;
    };
    few_sections(sections) && is_image(sections, bytes)
}

// The key of an address: its section's number, counted from 1, before it; 0 where it lies in none. (By `position` the check of an image
// takes a third more instructions for a word with two branches: the place and the key are both kept in registers, where here one is.)
pub fn locate(sections: &[u32], a: u32) -> u64
    requires { Few sections.now }
    ensures { (l : Lent) → l.sections ≡ sections.now → result ≡ images.locate (image l) a }
{
    let (rows, _) = sections.as_chunks::<4>();
    let mut number = 1;
    for row in rows {
        if contains(Section::from(row), a) {
            return number * 0x1_0000_0000 + wide(a);
        }
        number += 1;
    }
    0
}
