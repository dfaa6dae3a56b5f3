// A stretch of plain words that go on, walked over at once: one lookup for the whole of it in each list that could end it.
ghost use Rattle.std.specs.Prelude.{◌≡◌, ◌<◌, ◌≤◌, ◌+◌, ◌*◌, ℕ, List, map};
ghost use Rattle.rules.specs.Address.{address_of};
ghost use Rattle.rules.specs.Image as images;
ghost use Rattle.rules.specs.Known.{Entry};
ghost use Rattle.rules.specs.Ordered.{self as own, upper};
ghost use Rattle.rules.specs.Plain.{plain, with_run};
ghost use Rattle.obj_info.specs.Info.{image_of, some_nonzero};
ghost use Rattle.slices.specs.View.{slices_of};
ghost use Rattle.tables.specs.Rows.{key_of};
ghost use Rattle.walks.specs.Around.{Knows, around_of};
ghost use Rattle.walks.specs.State.{walk_of};
ghost use Rattle.worklist.specs.Bits.{bit};
ghost use Rattle.execution.specs.Stretch.{quick, goes_over, both_go_on, begins, stretch, other, clear_until, how_many};
ghost use Rattle.execution.specs.Spot.{is_looked_at, spot_in};
ghost use Rattle.execution.specs.Skip.{skipped};

use obj_info::ObjInfo;
use ppc::words::{is_conditional_blr, is_lwz, is_mflr, is_mtlr, is_or, is_rfi, is_stwu};
use slices::FunctionSlices;
use tables::{Map, Set};
use walks::{Around, Place, Walk, nth_word};
use worklist::Visited;

// A word that begins no sequence, loads no r1 and is no return that sets a flag.
fn is_plain(word: u32) -> bool
    ensures { result ≡ plain word }
{
    !(is_stwu(word)
        | is_mflr(word)
        | is_mtlr(word)
        | is_or(word)
        | is_lwz(word)
        | is_conditional_blr(word)
        | is_rfi(word))
}

// Whether a code word goes on, and is plain.
fn is_quick(obj: &ObjInfo, word: usize) -> bool
    requires { word < images.code_words (image_of obj.now) }
    ensures { result ≡ quick (image_of obj.now) word }
{
    obj.goes_on(word) && is_plain(nth_word(obj, word))
}

// Whether the walk goes over a code word.
fn goes_over(visited: &Visited, obj: &ObjInfo, word: usize) -> bool
    requires { word + 1 < images.code_words (image_of obj.now) }
    ensures { result ≡ goes_over (image_of obj.now) (bit visited.now) word }
{
    !visited.contains(word + 1) && is_quick(obj, word)
}

// Whether a code word goes on, and the next one, too.
fn both_go_on(obj: &ObjInfo, word: usize) -> bool
    requires { word + 1 < images.code_words (image_of obj.now) }
    ensures { result ≡ both_go_on (image_of obj.now) word }
{
    obj.goes_on(word) && obj.goes_on(word + 1)
}

// Whether the walk goes over a code word, which was not visited, and the next word goes on, too: over one word alone a step takes less than
// the lookups. Most words at which no stretch begins do not go on, so that is asked first.
fn begins(visited: &Visited, obj: &ObjInfo, word: usize) -> bool
    requires { word + 1 < images.code_words (image_of obj.now) }
    ensures { result ≡ begins (image_of obj.now) (bit visited.now) word }
{
    if !both_go_on(obj, word) {
        return false;
    }
    !visited.contains(word) && goes_over(visited, obj, word)
}

// Goes over the code words from one on, at most so many, and says over how many.
fn scan(visited: &mut Visited, obj: &ObjInfo, first: usize, most: usize) -> usize
    requires { first + most < images.code_words (image_of obj.now) }
    ensures count { result ≡ stretch (image_of obj.now) (bit visited.old) first most }
    ensures marked { bit visited.new ≡ with_run (bit visited.old) first result }
{
    for word in first..first + most {
        if !goes_over(visited, obj, word) {
            return word - first;
        }
        visited.insert(word);
    }
    most
}

// The first key that is `from` or more; `none` where there is none.
fn next_key<const N: usize>(rows: &Map<N>, from: u64, none: u64) -> u64
    ensures { result ≡ upper own from none (map key_of rows.now) }
{
    match rows.first_from(from) {
        Some(row) => row.key,
        None => none,
    }
}

// The first address that is `from` or more; `none` where there is none.
fn next_address<const N: usize>(addresses: &Set<N>, from: u64, none: u64) -> u64
    ensures { result ≡ upper own from none addresses.now }
{
    addresses.first_from(from).unwrap_or(none)
}

// Up to where, from `addr` on, no word is another known function's or a possible block, and no block starts behind one.
fn clear_until(around: &Around, slices: &FunctionSlices, addr: u64, end: u64) -> u64
    requires { (addr ≤ end) × (address_of end < 0xF000_0000) }
    ensures { (es : List Entry) →
        Knows around.now.known.now es →
        result ≡ clear_until (around_of around.now es) (slices_of slices.now) addr end }
{
    let start = next_key(&slices.blocks, addr + 4, end + 4) - 4;
    let function = next_key(around.known, addr + 1, end);
    let reference = next_address(&slices.function_references, addr, end);
    let possible = next_address(&slices.possible_blocks, addr, end);
    start.min(function).min(reference.min(possible))
}

// Whether a function that covers a word is another one than the walked.
fn is_other(function: Option<u64>, start: u64) -> bool
    ensures { (f : ℕ) → function ≡ some_nonzero f → result ≡ other f start }
{
    match function {
        Some(function) => function != start,
        None => false,
    }
}

// How many words from `addr` on, at most so many, are of no other known function and no possible block, with no block start behind one.
fn how_many(around: &Around, slices: &FunctionSlices, addr: u64, most: usize) -> usize
    requires { address_of addr + 4 * most < 0xF000_0000 }
    ensures most { result ≤ most }
    ensures value { (es : List Entry) →
        Knows around.now.known.now es →
        result ≡ how_many (around_of around.now es) (slices_of slices.now) addr most }
{
    if is_other(around.covering(addr), around.start) {
        return 0;
    }
    let past = clear_until(around, slices, addr, addr + 4 * most as u64);
    ((past - addr) / 4).min(most as u64) as usize
}

// A code word, by its number, and how many are behind it.
#[derive(Clone, Copy)]
struct Spot {
    index: usize,
    behind: usize,
}

const EIGHT_WORDS: u64 = 32;

// A stretch is looked for at a block's first word and at each eighth word, so words at which none begins cost little.
fn is_looked_at(addr: u64, block: u64) -> bool
    ensures { result ≡ is_looked_at addr block }
{
    (addr == block) | (addr % EIGHT_WORDS == 0)
}

// The word at an address, if a stretch is looked for there.
fn spot_of(obj: &ObjInfo, addr: u64, block: u64) -> Option<Spot>
    ensures { result ≡ spot_in (image_of obj.now) addr block }
{
    if !is_looked_at(addr, block) {
        return None;
    }
    let index = obj.word_index(addr)?;
    let behind = obj.code().size as usize / 4 - 1 - index;
    if behind < 2 {
        return None;
    }
    Some(Spot { index, behind })
}

/// Over plain words that go on, as far as nothing is met.
pub fn skip(walk: &mut Walk, around: &Around)
    ensures { (es : List Entry) →
        Knows around.now.known.now es →
        walk_of walk.new ≡ skipped (around_of around.now es) (walk_of walk.old) }
{
    let Place::At { word, block } = walk.place else {
        return;
    };
    let Some(spot) = spot_of(&around.obj, word, block) else {
        return;
    };
    if !begins(&walk.visited, &around.obj, spot.index) {
        return;
    }
    let most = how_many(around, &walk.slices, word, spot.behind);
    let count = scan(&mut walk.visited, &around.obj, spot.index, most);
    walk.fresh |= 0 < count;
    walk.place = Place::At {
        word: word + 4 * count as u64,
        block,
    };
}
