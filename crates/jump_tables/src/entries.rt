// The entries of a table.
ghost use Rattle.std.specs.Prelude.{◌≡◌, ℕ, ◌≤◌, ◌-◌, ◌*◌, ◌/◌, [], drop, take, true};
ghost use Rattle.rules.specs.Bytes.{words_in};
ghost use Rattle.rules.specs.Check.{check_image};
ghost use Rattle.rules.specs.JumpTable as rules;
ghost use Rattle.obj_image.specs.Lent.{Lent, lent, given, image};
ghost use Rattle.obj_rows.specs.Symbols.{KeysAscend};
ghost use Rattle.obj_info.specs.Info.{image_of, table_image, some_nonzero};
ghost use Rattle.obj_info.specs.Sections.{section_for};
ghost use Rattle.jump_tables.specs.Entries.{entries_of, table_of, sized_reading, unsized_reading};

use crate::reading::Reading;
use crate::words::{sized_word, target_inside, words_of};
use faults::Fault;
use obj_info::{ObjInfo, Section, TableInfo, address_of};
use tables::Set;

/// Entries, ascending without repeats, and the table's size.
#[derive(Drop)]
pub struct JumpTable {
    pub entries: Set<256>,
    pub size: u32,
}

// The entries of a table of a size, which is looked at last.
fn sized_entries(obj: &TableInfo, bytes: &[u8], size: u32) -> Result<JumpTable, Fault>
    ensures { table_of result ≡ sized_reading (table_image obj.now) size (words_in bytes.now) }
{
    let mut reading = Reading::new();
    for word in words_of(bytes) {
        sized_word(obj, &mut reading, u32::from_be_bytes(*word))?;
    }
    if size % 4 != 0 {
        return Err(Fault::Misaligned);
    }
    Ok(JumpTable {
        entries: reading.entries,
        size,
    })
}

// A table whose size is what was read.
fn read_so_far(reading: Reading) -> JumpTable
    requires { reading.room ≤ 256 }
    ensures { entries_of result ≡ record { taken = reading.entries; size = 4 * (256 - reading.room) } }
{
    let size = (256 - reading.room) * 4;
    JumpTable {
        entries: reading.entries,
        size,
    }
}

// The entries of a table that ends at the first word that is no address inside the function, or with these bytes.
fn unsized_entries(
    obj: &TableInfo,
    bytes: &[u8],
    first: u64,
    past: Option<u64>,
) -> Result<JumpTable, Fault>
    ensures { table_of result ≡ unsized_reading (table_image obj.now) first past (words_in bytes.now) }
{
    let mut reading = Reading::new();
    for word in words_of(bytes) {
        let value = u32::from_be_bytes(*word);
        match target_inside(obj, first, past, value) {
            Some(target) => reading.take(value, target)?,
            None => return Ok(read_so_far(reading)),
        }
    }
    Ok(read_so_far(reading))
}

// A table's bytes, to its section's end.
fn table_bytes(section: Section, a: u32) -> &[u8]
    ensures { words_in result.now ≡ rules.table_words (section_for section.entry) a }
{
    let from = a.saturating_sub(section.base) as usize / 4 * 4;
    &section.bytes[from.min(section.bytes.len())..]
}

// A table's size, clamped to its section.
fn clamped(section: Section, a: u32, size: u32) -> u32
    ensures { result ≡ rules.clamped (section_for section.entry) a size }
{
    let past = u64::from(section.base) + u64::from(section.size);
    let rest = past.saturating_sub(u64::from(a));
    u64::from(size).min(rest) as u32
}

/// The entries of the jump table at an address: of the object symbol's known size there, else of this one, or, where that is 0, as far as
/// its words are addresses inside the function.
pub fn uniq_jump_table_entries_of(
    obj: &TableInfo,
    target: u64,
    size: u32,
    first: u64,
    past: Option<u64>,
) -> Result<JumpTable, Fault>
    ensures { (end : ℕ) →
        past ≡ some_nonzero end →
        table_of result ≡ rules.jump_table_entries (table_image obj.now) target size first end }
{
    let section = obj.section_at(target);
    if !section.kind.holds_tables() {
        return Ok(JumpTable {
            entries: Set::new(),
            size: 0,
        });
    }
    let a = address_of(target);
    let bytes = table_bytes(section, a);
    let size = obj.known_size(a).unwrap_or(size);
    if size == 0 {
        return unsized_entries(obj, bytes, first, past);
    }
    let size = clamped(section, a, size);
    sized_entries(obj, &bytes[..(size as usize).min(bytes.len())], size)
}

/// The same by an image. (The walk calls the one above, since the answer of a function that is handed on is copied.)
pub fn uniq_jump_table_entries(
    obj: &ObjInfo,
    target: u64,
    size: u32,
    first: u64,
    past: Option<u64>,
) -> Result<JumpTable, Fault>
    ensures { (end : ℕ) →
        past ≡ some_nonzero end →
        table_of result ≡ rules.jump_table_entries (image_of obj.now) target size first end }
{
    uniq_jump_table_entries_of(&obj.tables(), target, size, first, past)
}

/// The same by the lists that a table is read by, where no more is known than that the sections and their bytes pass check 1, and that
/// the object symbols ascend.
pub fn uniq_jump_table_entries_in(
    sections: &[u32],
    bytes: &[u8],
    objects: &[u32],
    target: u64,
    size: u32,
    first: u64,
    past: Option<u64>,
) -> Result<JumpTable, Fault>
    requires passed { check_image (given (lent sections.now bytes.now [] [] [] [] [])) ≡ true }
    requires objects { KeysAscend sections.now objects.now }
    ensures { (l : Lent) (end : ℕ) →
        l.sections ≡ sections.now →
        l.bytes ≡ bytes.now →
        l.objects ≡ objects.now →
        past ≡ some_nonzero end →
        table_of result ≡ rules.jump_table_entries (image l) target size first end }
{
    let tables = TableInfo::new(sections, bytes, objects);
    uniq_jump_table_entries_of(&tables, target, size, first, past)
}
