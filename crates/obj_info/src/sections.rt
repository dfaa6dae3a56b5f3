// The sections: where an address lies, and what lies there.
ghost use Rattle.std.specs.Prelude.{◌≡◌, ◌≢◌, ◌<◌, ◌≤◌, ◌+◌, IfSome, [], eqb, length, take, drop};
ghost use Rattle.rules.specs.Choice.{if};
ghost use Rattle.rules.specs.Image as images;
ghost use Rattle.rules.specs.Address.{address_of};
ghost use Rattle.rules.specs.Given.{kind_of};
ghost use Rattle.obj_info.specs.Info.{image_of, table_image, some_nonzero};
ghost use Rattle.obj_info.specs.Sections.{kind_for, section_for};

use crate::info::{ObjInfo, TableInfo};
use obj::sections::{Part, is_in_section, locate, section_of};

/// What a section is of.
#[derive(Clone, Copy, Debug, PartialEq, Eq)]
pub enum SectionKind {
    Code,
    Data,
    ReadOnlyData,
    Bss,
}

impl SectionKind {
    /// By its number.
    fn of(kind: u32) -> Self
        ensures { kind_for result ≡ kind_of kind }
    {
        match kind {
            1 => SectionKind::Code,
            2 => SectionKind::Data,
            3 => SectionKind::ReadOnlyData,
            _ => SectionKind::Bss,
        }
    }

    /// Jump tables in code or bss have no entries.
    pub fn holds_tables(self) -> bool
        ensures { result ≡ images.holds_tables (kind_for self) }
    {
        matches!(self, SectionKind::Data | SectionKind::ReadOnlyData)
    }
}

/// A section with its bytes, of which bss has none.
#[derive(Clone, Copy)]
pub struct Section<'a> {
    pub kind: SectionKind,
    pub base: u32,
    pub size: u32,
    pub bytes: &'a [u8],
}

// Bss has none.
fn bytes_of(bytes: &[u8], part: Part) -> &[u8]
    requires { part.kind ≢ 4 → part.offset + part.size ≤ length bytes.now }
    ensures { result.now ≡ if (eqb part.kind 4) [] (take part.size (drop part.offset bytes.now)) }
{
    if part.kind == 4 {
        return &[];
    }
    let from = part.offset;
    &bytes[from..from + part.size as usize]
}

impl<'a> TableInfo<'a> {
    /// A 32-bit address with the section that it lies in: the section's number, counted from 1, before it.
    pub fn locate(&self, a: u32) -> Option<u64>
        ensures value { result ≡ some_nonzero (images.locate (table_image self.now) a) }
        ensures low { IfSome result (λ key. key < 0x10_0000_0000) }
    {
        match locate(self.sections, a) {
            0 => None,
            key => Some(key),
        }
    }

    /// The section that an address is of; an empty one of bss where there is none.
    pub fn section_at(&self, key: u64) -> Section<'a>
        ensures { section_for result ≡ images.section_at (table_image self.now) key }
    {
        let part = section_of(self.sections, key);
        Section {
            kind: SectionKind::of(part.kind),
            base: part.base,
            size: part.size,
            bytes: bytes_of(self.bytes, part),
        }
    }
}

impl<'a> ObjInfo<'a> {
    /// A 32-bit address with the section that it lies in: the section's number, counted from 1, before it.
    pub fn locate(&self, a: u32) -> Option<u64>
        ensures value { result ≡ some_nonzero (images.locate (image_of self.now) a) }
        ensures low { IfSome result (λ key. key < 0x10_0000_0000) }
    {
        self.tables().locate(a)
    }

    /// Whether an address lies inside its own section.
    pub fn is_in_section(&self, key: u64) -> bool
        ensures { result ≡ images.contains (images.section_at (image_of self.now) key) (address_of key) }
    {
        is_in_section(self.sections, key)
    }

    /// The section that an address is of; an empty one of bss where there is none.
    pub fn section_at(&self, key: u64) -> Section<'a>
        ensures { section_for result ≡ images.section_at (image_of self.now) key }
    {
        self.tables().section_at(key)
    }
}
