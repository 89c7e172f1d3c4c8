//! Looks ids of a list up in blocks.

ghost use Rattle.std.specs.Prelude.{◌≡◌, ◌^◌, ◌<◌, ◌≤◌};
ghost use Rattle.std.specs.List.{filter};
ghost use Rattle.bitpack_slices.specs.Follows.{Follow};
ghost use Rattle.bitpack_slices.specs.Lists.{listed_ids, retains};
ghost use Rattle.bitpack_slices.specs.Reads.{has};
ghost use Rattle.bitpack_slices.specs.Selections.{parts_numbers};

use crate::blocks::Blocks;
use crate::listed::{Listed, put};

/// Writes the ids whose low 16 bits blocks have, or lack, if there is room for all. Returns the index after the last, also if there is no room.
pub(crate) fn filter(
    list: &Listed,
    blocks: &Blocks,
    there: bool,
    out: &mut [u32],
    at: usize,
) -> usize
    requires { at ≤ 2 ^ 32 }
    ensures { Follow (filter (retains there (parts_numbers blocks.now)) (listed_ids list.now)) out.old out.new at result }
{
    let mut next = at;
    for position in 0..list.len() {
        let id = list.at(position);
        let found = is_member(blocks, (id % 65536) as usize);
        next = put(id, found == there, out, next);
    }
    next
}

/// Whether blocks have a number.
#[inline(always)]
pub fn is_member(blocks: &Blocks, number: usize) -> bool
    requires { number < 65536 }
    ensures { result ≡ has number (parts_numbers blocks.now) }
{
    blocks.slice(number / 256).contains((number % 256) as u8)
}
