// A function's basic blocks: rows from a start up to an end, which is 0 while the block is open.

ghost use Rattle.std.specs.Prelude.{◌≡◌, ◌==◌, IfOk, option_map};
ghost use Rattle.rules.specs.Choice.{any, limited};
ghost use Rattle.rules.specs.Blocks.{mark, is_new, apart, is_open, first_disconnected_block as first_apart_of};
ghost use Rattle.faults.specs.Outcome.{outcome};
ghost use Rattle.slices.specs.Blocks.{block_of, blocks_of, some_closed, IsReaching};

use faults::Fault;
use tables::{Map, Row};

/// Marks `addr` as the start of a block: cuts the block that reaches over it, or opens one there. Whether that opened one.
pub fn add_block_start<const N: usize>(blocks: &mut Map<N>, addr: u64) -> Result<bool, Fault>
    ensures marked { outcome (blocks_of blocks.new) result ≡ limited N (mark addr (blocks_of blocks.old)) }
    ensures new { IfOk result (λ new. new ≡ is_new addr (blocks_of blocks.old)) }
{
    match reaching(blocks, addr) {
        Some(block) => {
            blocks.insert(block.key, addr)?;
            blocks.insert(addr, block.value)?;
            Ok(false)
        }
        None => {
            if blocks.contains_key(addr) {
                return Ok(false);
            }
            blocks.insert(addr, 0)?;
            Ok(true)
        }
    }
}

// The block that reaches over `addr`.
fn reaching<const N: usize>(blocks: &Map<N>, addr: u64) -> Option<Row>
    ensures { IsReaching addr (blocks_of blocks.now) result }
{
    let below = blocks.lower(addr)?;
    if addr < below.value {
        return Some(below);
    }
    None
}

// Whether both blocks are closed, and words lie between.
fn is_apart(block: Row, next: Row) -> bool
    ensures { result ≡ apart (block_of block) (block_of next) }
{
    block.value != 0 && next.value != 0 && block.value < next.key
}

/// The first block that stands apart from the next.
pub fn first_disconnected_block(blocks: &[Row]) -> Option<Row>
    ensures { option_map block_of result ≡ some_closed (first_apart_of (blocks_of blocks.now)) }
{
    let mut previous: Option<Row> = None;
    for &next in blocks {
        if let Some(block) = previous {
            if is_apart(block, next) {
                return Some(block);
            }
        }
        previous = Some(next);
    }
    None
}

/// Whether a block is open.
pub fn any_open(blocks: &[Row]) -> bool
    ensures { result ≡ any is_open (blocks_of blocks.now) }
{
    blocks.iter().any(|block| block.value == 0)
}
