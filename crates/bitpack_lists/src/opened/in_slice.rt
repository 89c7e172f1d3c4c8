//! The first value of a slice in order that is at least a target.

ghost use Rattle.std.specs.Prelude.{◌≤◌, length};
ghost use Rattle.bitpack_lists.specs.LowerBounds.{InOrder, IsSoughtFrom};

use bitpacking::MAX_BLOCK_LEN;

/// How many values of a block are below the target: the first index whose value is not, as the values are in order. No branch depends on
/// a value, so that the compiler compares several at once.
#[inline(always)]
pub(crate) fn count_below(values: &[u32], target: u32) -> usize
    requires { (length values.now ≤ MAX_BLOCK_LEN) × InOrder values.now }
    ensures { IsSoughtFrom values.now target 0 result }
{
    let mut below = 0u32;
    for index in 0..values.len() {
        let value = values[index];
        below += if value < target { 1 } else { 0 };
    }
    below as usize
}
