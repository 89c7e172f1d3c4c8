//! The marks and the widths of blocks before they are written. The widths of the first blocks are cached from here to the writing.
//! FORMAT.md, "Columns" and "Width".

ghost use Rattle.std.specs.Prelude.{◌≡◌, true, ℕ, List, ◌^◌, ◌<◌, ◌≤◌, length, slice_index, None};
ghost use Rattle.bitpacking.specs.Codes.{AreWords};
ghost use Rattle.bitpacking.specs.Width.{Fits};
ghost use Rattle.bitpack_columns.specs.declared.column_kind.ColumnKind.TheVariants.{Sorted};
ghost use Rattle.bitpack_columns.specs.Columns.{codes, least, mark_of};
ghost use Rattle.bitpack_columns.specs.Faults.{first_below};
ghost use Rattle.bitpack_columns.specs.Measured.{AreWidths, IsMeasured, Rises, base_after, width_after};
ghost use Rattle.bitpack_columns.specs.Numbers.{greatest};
ghost use Rattle.bitpack_groups.specs.Packed.{least_width};

use crate::column::BLOCK_LEN;
use crate::column_kind::ColumnKind;
use bitpack_groups::most_significant_bit;
use bitpacking::{BitPacker, BitPacker4x};

/// What is known of the blocks of some values before they are written: the sum of their widths, their greatest mark, the value before what
/// follows them, and whether their widths show that the values of a sorted column are in order.
#[derive(Clone, Copy)]
pub(crate) struct Measured {
    pub(crate) total: usize,
    pub(crate) greatest: u32,
    pub(crate) last: u32,
    pub(crate) rises: bool,
}

/// Measures the whole blocks of values, and caches the widths of the first ones. In a sorted column `before` is the value before them.
pub(crate) fn measure_blocks(
    kind: ColumnKind,
    before: u32,
    values: &[u32],
    widths: &mut [u8],
) -> Measured
    requires { length values.now ≤ 2 ^ 28 }
    ensures measured { IsMeasured kind before values.now result.total result.greatest result.last }
    ensures widths { AreWidths kind before values.now widths.new }
    ensures rises { result.rises ≡ true → Rises kind before values.now }
{
    let mut total = 0;
    let mut greatest: u32 = 0;
    let mut last = before;
    let mut rises = true;
    for index in 0..values.len() / BLOCK_LEN {
        let block = &values[BLOCK_LEN * index..BLOCK_LEN * index + BLOCK_LEN];
        let (mark, width) = measure_block(kind, last, block);
        if index < widths.len() {
            widths[index] = width;
        }
        total += width as usize;
        greatest = greatest.max(mark);
        rises &= ends_in_order(width, last, mark);
        last = mark;
    }
    Measured {
        total,
        greatest,
        last,
        rises,
    }
}

/// The mark of a block and the least width of its codes, which is cached, or else measured again.
#[inline(always)]
pub(crate) fn measure_again(
    kind: ColumnKind,
    before: u32,
    block: &[u32],
    widths: &[u8],
    index: usize,
) -> (u32, u8)
    requires block { length block.now ≡ BLOCK_LEN }
    requires widths { index < length widths.now
        → slice_index widths.now index ≡ least_width (codes kind (base_after kind before
        (mark_of kind block.now)) block.now) }
    ensures mark { result.0 ≡ mark_of kind block.now }
    ensures width { result.1 ≡ least_width (codes kind (base_after kind before (mark_of kind block.now)) block.now) }
{
    if index < widths.len() {
        return (mark_of_block(kind, block), widths[index]);
    }
    measure_block(kind, before, block)
}

/// The mark of a block, and the least width of its codes.
#[inline(always)]
fn measure_block(kind: ColumnKind, before: u32, block: &[u32]) -> (u32, u8)
    requires { length block.now ≡ BLOCK_LEN }
    ensures mark { result.0 ≡ mark_of kind block.now }
    ensures width { result.1 ≡ least_width (codes kind (base_after kind before (mark_of kind block.now)) block.now) }
    ensures narrow { result.1 ≤ 32 }
{
    match kind {
        ColumnKind::Plain => {
            let (least, greatest) = bounds(block);
            (least, most_significant_bit(greatest - least))
        }
        ColumnKind::Sorted => {
            let width = BitPacker4x::new().num_bits_sorted(before, block);
            (block[BLOCK_LEN - 1], width)
        }
    }
}

/// The mark of a block.
#[inline(always)]
fn mark_of_block(kind: ColumnKind, block: &[u32]) -> u32
    requires { length block.now ≡ BLOCK_LEN }
    ensures { result ≡ mark_of kind block.now }
{
    match kind {
        ColumnKind::Plain => bounds(block).0,
        ColumnKind::Sorted => block[BLOCK_LEN - 1],
    }
}

/// The least and the greatest of some values, the greatest word and 0 if there is none. No branch depends on a value.
#[inline(always)]
pub(crate) fn bounds(values: &[u32]) -> (u32, u32)
    ensures least { result.0 ≡ least values.now }
    ensures greatest { result.1 ≡ greatest (slice_index values.now) (length values.now) }
{
    let mut least = u32::MAX;
    let mut greatest: u32 = 0;
    for index in 0..values.len() {
        least = least.min(values[index]);
        greatest = greatest.max(values[index]);
    }
    (least, greatest)
}

/// Whether the width of a block of differences and its last value show that its values are in order after the one before them. They are if
/// the differences are at most 2 ^ 32 together, so that they wrap at most once, and the last value is not below the one before the block.
#[inline(always)]
fn ends_in_order(width: u8, before: u32, last: u32) -> bool
    ensures { result ≡ true → (block : List ℕ) → length block ≡ BLOCK_LEN → AreWords block
        → slice_index block 127 ≡ last
        → Fits (codes Sorted before block) width → first_below 0 before block ≡ None }
{
    width <= 25 && before <= last
}
