// What lies behind a function's end: words that are skipped or zero, and then perhaps a function that none knew.
ghost use Rattle.std.specs.Prelude.{◌≡◌, ◌+◌, ◌≤◌, ◌&&◌, leb, eqb, Bool, option_to_list};
ghost use Rattle.rules.specs.Address.{address_of};
ghost use Rattle.rules.specs.Image as images;
ghost use Rattle.rules.specs.Known.{Entry};
ghost use Rattle.rules.specs.Map as rules;
ghost use Rattle.obj_info.specs.Info.{image_of};
ghost use Rattle.additions.specs.Found.{some_below, found_of};

use crate::code::{code_key, section_end};
use faults::Fault;
use obj_info::{ObjInfo, address_of};
use tables::Row;

// Whether a word at `a` ends by `end`.
fn ends_by(a: u32, end: u32) -> bool
    ensures { result ≡ leb (a + 4) end }
{
    u64::from(a) + 4 <= u64::from(end)
}

// Whether that word is zero.
fn is_zero(obj: &ObjInfo, a: u32, end: u32) -> bool
    ensures { result ≡ leb (a + 4) end && eqb (images.word (image_of obj.now) a) 0 }
{
    ends_by(a, end) && obj.word(a) == Some(0)
}

// The first word from `a`, over skip ranges and zero words, that ends by `end`.
fn skip_alignment(obj: &ObjInfo, a: u32, end: u32) -> Option<u32>
    ensures { (cap : rules.Capacity) → result ≡ some_below end (rules.skip_alignment (image_of obj.now) cap a end) }
{
    let mut at = obj.skip_range(a);
    while is_zero(obj, at, end) {
        at = obj.skip_range(at + 4);
    }
    ends_by(at, end).then_some(at)
}

// The new entry between an end and the next entry.
fn new_between(obj: &ObjInfo, end: u64, after: u64) -> Option<u64>
    ensures { (cap : rules.Capacity) → option_to_list result ≡ rules.new_between (image_of obj.now) cap end after }
{
    let a = skip_alignment(obj, address_of(end), address_of(after))?;
    Some(code_key(obj, a))
}

// Behind an entry's end, up to the next entry, or to the section's end; a fault where the end lies above the next entry.
pub fn found_behind(obj: &ObjInfo, function: Row, after: u64) -> Result<Option<u64>, Fault>
    ensures { (cap : rules.Capacity) (x : Entry) →
        x.end ≡ function.value →
        found_of result ≡ rules.found_behind (image_of obj.now) cap x after }
{
    let end = function.value;
    if end == 0 {
        return Ok(None);
    }
    if after != section_end(obj) && after < end {
        return Err(Fault::EndPastEntry);
    }
    Ok(new_between(obj, end, after))
}
