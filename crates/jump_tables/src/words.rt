// One word of a table.
ghost use Rattle.std.specs.Prelude.{◌≡◌, map};
ghost use Rattle.rules.specs.Bytes.{words_in};
ghost use Rattle.faults.specs.Outcome.{outcome};
ghost use Rattle.obj_info.specs.Info.{table_image};
ghost use Rattle.jump_tables.specs.Readings.{number_in, sized_word, is_inside, target_inside};

use crate::reading::Reading;
use faults::Fault;
use obj_info::TableInfo;

// The words of these bytes; fewer than four at the end are none.
pub fn words_of(bytes: &[u8]) -> &[[u8; 4]]
    ensures { map number_in result.now ≡ words_in bytes.now }
{
    bytes.as_chunks::<4>().0
}

// A word of a table with a size: zero words are passed over.
pub fn sized_word(obj: &TableInfo, reading: &mut Reading, value: u32) -> Result<(), Fault>
    ensures { outcome reading.new result ≡ sized_word (table_image obj.now) value reading.old }
{
    if value == 0 {
        return Ok(());
    }
    match obj.locate(value) {
        Some(target) => reading.take(value, target),
        None => Err(Fault::EntryOutside),
    }
}

// Whether an address is inside the function, as far as its end is known.
fn is_inside(first: u64, past: Option<u64>, target: u64) -> bool
    ensures { result ≡ is_inside first past target }
{
    (first <= target) & past.is_none_or(|past| target < past)
}

// The address that a word is, if that is inside the function.
pub fn target_inside(obj: &TableInfo, first: u64, past: Option<u64>, value: u32) -> Option<u64>
    ensures { result ≡ target_inside (table_image obj.now) first past value }
{
    let target = obj.locate(value)?;
    is_inside(first, past, target).then_some(target)
}
