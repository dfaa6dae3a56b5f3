// The sections: where an address lies. What check 1 asks of them is in obj_image.
ghost use Rattle.std.specs.Prelude.{◌≡◌, true, ◌-◌, ◌≤◌, length, map};
ghost use Rattle.rules.specs.Check as rules;
ghost use Rattle.rules.specs.Image as images;
ghost use Rattle.rules.specs.Address.{address_of, section_of};
ghost use Rattle.obj_image.specs.Lent.{Lent, given, image};
ghost use Rattle.obj.specs.Sections.{read_row, part_in, Few, IsCode, IsPart, InBytes};

use obj_image::sections::count_bytes;
pub use obj_image::sections::{Section, check_image, contains, locate, wide};

// The code section: its number, counted from 1, and where its bytes begin.
#[derive(Clone, Copy)]
pub struct Code {
    pub number: u64,
    pub base: u32,
    pub size: u32,
    pub offset: usize,
}

// A section, and where its bytes begin.
#[derive(Clone, Copy)]
pub struct Part {
    pub kind: u32,
    pub base: u32,
    pub size: u32,
    pub offset: usize,
}

// The section at an index; an empty one of bss past the last.
fn part_at(sections: &[[u32; 4]], i: usize) -> Part
    requires { length sections.now ≤ 8 }
    ensures { result ≡ part_in i 0 (map read_row sections.now) }
{
    let Some(row) = sections.get(i) else {
        return Part {
            kind: 4,
            base: 0,
            size: 0,
            offset: count_bytes(sections) as usize,
        };
    };
    let section = Section::from(row);
    Part {
        kind: section.kind,
        base: section.base,
        size: section.size,
        offset: count_bytes(&sections[..i]) as usize,
    }
}

// The first section of code, of which a checked image has one.
pub fn code_section(sections: &[u32]) -> Code
    requires { Few sections.now }
    ensures { (l : Lent) → l.sections ≡ sections.now → IsCode l result }
{
    let (rows, _) = sections.as_chunks::<4>();
    let i = rows
        .iter()
        .map(Section::from)
        .position(|section| section.kind == 1)
        .unwrap_or(rows.len());
    let part = part_at(rows, i);
    Code {
        number: i as u64 + 1,
        base: part.base,
        size: part.size,
        offset: part.offset,
    }
}

// The index of the section that an address is of.
fn index_of(key: u64) -> usize
    ensures { result ≡ section_of key - 1 }
{
    (key / 0x1_0000_0000).saturating_sub(1) as usize
}

// Whether an address lies inside its own section.
pub fn is_in_section(sections: &[u32], key: u64) -> bool
    requires { Few sections.now }
    ensures { (l : Lent) →
        l.sections ≡ sections.now →
        result ≡ images.contains (images.section_at (image l) key) (address_of key) }
{
    let (rows, _) = sections.as_chunks::<4>();
    let Some(row) = rows.get(index_of(key)) else {
        return false;
    };
    contains(Section::from(row), (key % 0x1_0000_0000) as u32)
}

// The code word at an address; 2^32, which is no word, outside code.
pub fn word(bytes: &[u8], code: Code, a: u32) -> u64
    requires { InBytes bytes.now code }
    ensures { (l : Lent) →
        l.bytes ≡ bytes.now →
        IsCode l code →
        rules.check_image (given l) ≡ true →
        result ≡ images.word (image l) a }
{
    match a.checked_sub(code.base) {
        Some(from) if from < code.size => {
            let at = code.offset + from as usize / 4 * 4;
            wide(ppc::words::word_at(bytes, at))
        },
        _ => 0x1_0000_0000,
    }
}

// The section that an address is of; an empty one of bss where there is none.
pub fn section_of(sections: &[u32], key: u64) -> Part
    requires { Few sections.now }
    ensures { (l : Lent) → l.sections ≡ sections.now → IsPart l key result }
{
    let (rows, _) = sections.as_chunks::<4>();
    part_at(rows, index_of(key))
}
