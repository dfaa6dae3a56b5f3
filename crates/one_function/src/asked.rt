// What is asked beside the image: the known functions, the start and the end.
ghost use Rattle.std.specs.Prelude.{◌≡◌, ◌&&◌, IfOk, IfErr, map, true, false};
ghost use Rattle.rules.specs.OneFunction as rules;
ghost use Rattle.faults.specs.Number.{number_of};
ghost use Rattle.obj_info.specs.Info.{image_of, some_nonzero};
ghost use Rattle.walks.specs.Around.{Knows};
ghost use Rattle.one_function.specs.Rows.{block_in, row_in, are_known_list, known_blocks};

use faults::Fault;
use obj_info::ObjInfo;
use walks::{FUNCTIONS, KnownFunctions};

// How many bytes may lie between start and end: as many as a symbol's size may have.
const MOST: u64 = 0x4_0000;

// Whether rows of an entry and its end are known functions: not too many, and their entries ascend strictly.
fn are_known(rows: &[[u64; 2]]) -> bool
    ensures { result ≡ rules.are_known (map block_in rows.now) }
{
    rows.len() <= FUNCTIONS && rows.is_sorted_by(|row, next| row[0] < next[0])
}

// Such rows as the functions that a walk asks.
fn collect(rows: &[[u64; 2]]) -> KnownFunctions
    requires { rules.are_known (map block_in rows.now) ≡ true }
    ensures { result ≡ map row_in rows.now }
{
    let mut known = KnownFunctions::new();
    for row in rows {
        let _fits = known.insert(row[0], row[1]);
    }
    known
}

/// The known functions of a lent list, whose rows must be whole.
pub fn known_functions(rows: &[u64]) -> Result<KnownFunctions, Fault>
    ensures ok { IfOk result (λ known. Knows known (map rules.known_entry (known_blocks rows.now))) }
    ensures told { IfOk result (λ _. are_known_list rows.now ≡ true) }
    ensures err { IfErr result (λ e. (are_known_list rows.now ≡ false) × (number_of e ≡ 3)) }
{
    let (rows, []) = rows.as_chunks::<2>() else {
        return Err(Fault::List);
    };
    if !are_known(rows) {
        return Err(Fault::List);
    }
    Ok(collect(rows))
}

// Whether a walk may start at an address: it is an aligned one of code.
fn is_start(obj: &ObjInfo, start: u64) -> bool
    ensures { result ≡ rules.is_start (image_of obj.now) start }
{
    obj.is_code_address(start) && start % 4 == 0
}

// Whether a walk from a start may have this end: one that is given is not below the start, nor too far from it.
fn is_end(start: u64, end: u64) -> bool
    ensures { result ≡ rules.is_end start end }
{
    if end == 0 {
        return true;
    }
    start <= end && end - start <= MOST && end % 4 == 0
}

/// Whether a walk may go from a start up to an end.
pub fn are_bounds(obj: &ObjInfo, start: u64, end: u64) -> bool
    ensures { result ≡ (rules.is_start (image_of obj.now) start && rules.is_end start end) }
{
    is_start(obj, start) && is_end(start, end)
}

/// 0 is no address.
pub fn nonzero(address: u64) -> Option<u64>
    ensures { result ≡ some_nonzero address }
{
    if address == 0 { None } else { Some(address) }
}
