//! Writes the body that an operation on two bodies gives, slice by slice.
//! FORMAT.md, "Chunks".

ghost use Rattle.std.specs.Prelude.{◌≡◌, ◌*◌, ◌%◌, ◌<◌, ◌≤◌, IfSome, false, length, map, take, true};
ghost use Rattle.bitpack_slices.specs.Body.{body};
ghost use Rattle.bitpack_slices.specs.Lists.{IsBody, body_lows, listed_ids};
ghost use Rattle.bitpack_slices.specs.Operations.{apply, combined};
ghost use Rattle.bitpack_slices.specs.Slices.{IsBlocks, block_numbers};

use crate::bitmap::writing::LONGEST_BLOCKS;
use crate::blocks::writing::write_combined;
use crate::body::Body;
use crate::combined::{retains_left, retains_right};
use crate::listed::Listed;
use crate::operation::Operation;

/// Writes the body of the low 16 bits of the ids that an operation on two bodies of one key gives, if it is blocks, and can be written slice by
/// slice. Returns how many ids these are, and how many bytes the body has. If there is no id, it has no byte.
#[inline(always)]
pub fn write_slices(
    operation: Operation,
    a: Body,
    b: Body,
    out: &mut [u8; LONGEST_BLOCKS],
) -> Option<(usize, usize)>
    requires a { IsBody a }
    requires b { IsBody b }
    ensures count { IfSome result (λ written. written.0 ≡ length (combined 65536 operation (body_lows a.entry) (body_lows b.entry))) }
    ensures small { IfSome result (λ written. written.1 ≤ 2 * written.0) }
    ensures most { IfSome result (λ written. written.1 ≤ 8449) }
    ensures written { IfSome result (λ written. 0 < written.0 → take written.1 out.new ≡ body (combined 65536 operation (body_lows a.entry) (body_lows b.entry))) }
{
    match (a, b) {
        (Body::Blocks(x), Body::Blocks(y)) if retains_left(operation) => {
            write_combined(operation, x, y, out)
        }
        (Body::Blocks(x), Body::Ids(list)) if retains_left(operation) => {
            write_listed(operation, x, &list, out)
        }
        (Body::Ids(list), Body::Blocks(y)) if retains_right(operation) => {
            write_listed(operation, y, &list, out)
        }
        _ => None,
    }
}

/// Writes what `write_slices` writes of a body of blocks and a list. In OR and XOR it is what it writes of the list and the body too.
#[inline(never)]
fn write_listed(
    operation: Operation,
    blocks: &[u8],
    list: &Listed,
    out: &mut [u8; LONGEST_BLOCKS],
) -> Option<(usize, usize)>
    requires blocks { IsBlocks (length (block_numbers blocks.now)) blocks.now }
    requires left { apply operation true false ≡ true }
    ensures count { IfSome result (λ written. written.0 ≡ length (combined 65536 operation (block_numbers blocks.now) (map (λ id. id % 65536) (listed_ids list.now)))) }
    ensures small { IfSome result (λ written. written.1 ≤ 2 * written.0) }
    ensures most { IfSome result (λ written. written.1 ≤ 8449) }
    ensures written { IfSome result (λ written. 0 < written.0
        → take written.1 out.new ≡ body (combined 65536 operation (block_numbers blocks.now) (map (λ id. id % 65536) (listed_ids list.now)))) }
{
    if list.len() == 0 {
        return None;
    }
    let mut room = [0; LONGEST_BLOCKS];
    let size = list.write_blocks(&mut room);
    write_combined(operation, blocks, &room[..size], out)
}
