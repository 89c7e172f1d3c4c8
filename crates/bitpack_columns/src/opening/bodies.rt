//! Tests of the bodies of blocks, and of the order of their values.
//! FORMAT.md, "Faults of a column".

ghost use Rattle.std.specs.Prelude.{◌≡◌, ◌+◌, ◌*◌, ◌^◌, ◌<◌, ◌≤◌, Decides, IfOk, length, slice_index};
ghost use Rattle.bitpacking.specs.Layout.{codes_of};
ghost use Rattle.bitpack_columns.specs.declared.column_kind.ColumnKind.TheVariants.{Plain, Sorted};
ghost use Rattle.bitpack_columns.specs.Columns;
ghost use Rattle.bitpack_columns.specs.Errors.{Finds};
ghost use Rattle.bitpack_columns.specs.Faults;
ghost use Rattle.bitpack_columns.specs.Faults.{body_fault, first_of};
ghost use Rattle.bitpack_columns.specs.Numbers;
ghost use Rattle.bitpack_columns.specs.Opening.{HasBodies, base_in, codes_fault, front_values, out_from};
ghost use Rattle.bitpack_columns.specs.Reads.{values_of};

use super::order::{add_codes, first_out};
use crate::column::BLOCK_LEN;
use crate::column_error::ColumnError;
use crate::column_kind::ColumnKind;
use crate::entries::bodies_start;
use bitpack_groups::{fits_less, read_integer};
use bitpacking::{BitPacker, BitPacker4x};

/// Where a block is, its width, the value before it if the column is sorted, and its mark.
#[derive(Clone, Copy)]
struct Block {
    index: usize,
    width: u8,
    before: u32,
    mark: u32,
}

/// Tests the bodies of the blocks, whose entries were tested. Returns the first position out of order in the blocks.
#[inline(always)]
pub(super) fn test_bodies(
    kind: ColumnKind,
    first: u32,
    blocks: usize,
    rest: &[u8],
) -> Result<Option<usize>, ColumnError>
    requires few { 128 * blocks ≤ 2 ^ 28 }
    requires bodies { HasBodies blocks rest.now }
    ensures fault { Finds result (first_of (body_fault kind first blocks rest.now) blocks) }
    ensures out { IfOk result (λ out. out
        ≡ Faults.first_out kind first (front_values kind first blocks rest.now blocks)) }
{
    let end_size = (rest[0] % 16) as usize;
    let mark_size = (rest[0] / 16) as usize;
    let marks = 1 + end_size * blocks;
    let mut at = bodies_start(blocks, rest);
    let mut codes = [0; BLOCK_LEN];
    let mut out = None;
    let mut begin = 0;
    let mut before = first;
    for index in 0..blocks {
        let end = read_integer(end_size, rest, 1, index);
        let mark = read_integer(mark_size, rest, marks, index);
        let width = (end - begin) as u8;
        let body = &rest[at..at + 16 * width as usize];
        unpack_codes(width, body, &mut codes);
        let block = Block {
            index,
            width,
            before,
            mark,
        };
        let found = test_codes(kind, block, &mut codes)?;
        out = out.or(found);
        begin = end;
        before = mark;
        at += 16 * width as usize;
    }
    Ok(out)
}

/// Unpacks the codes of a block.
#[inline(always)]
fn unpack_codes(width: u8, body: &[u8], codes: &mut [u32])
    requires width { width ≤ 32 }
    requires body { length body.now ≡ 16 * width }
    requires len { length codes.old ≡ 128 }
    ensures { codes.new ≡ codes_of 4 width body.now }
{
    BitPacker4x::new().decompress(body, codes, width);
}

/// Tests a block by its codes. Returns the first position out of order in it. Afterwards the codes may be any.
#[inline(always)]
fn test_codes(
    kind: ColumnKind,
    block: Block,
    codes: &mut [u32],
) -> Result<Option<usize>, ColumnError>
    requires few { 128 * block.index ≤ 2 ^ 28 }
    requires width { block.width ≤ 32 }
    requires len { length codes.old ≡ 128 }
    ensures fault { Finds result
        (codes_fault kind block.index block.width block.mark (base_in kind block.before block.mark) codes.old) }
    ensures out { IfOk result (λ out. out
        ≡ out_from kind (128 * block.index) block.before
        (values_of kind (base_in kind block.before block.mark) codes.old)) }
{
    match kind {
        ColumnKind::Plain => {
            test_plain(block, codes)?;
            Ok(None)
        }
        ColumnKind::Sorted => test_sorted(block, codes),
    }
}

/// Tests a block of a plain column by its codes.
#[tactic(auto, unfolding(crate::specs::Opening::codes_fault))]
#[inline(always)]
fn test_plain(block: Block, codes: &[u32]) -> Result<(), ColumnError>
    requires width { block.width ≤ 32 }
    requires len { length codes.now ≡ 128 }
    ensures { Finds result (codes_fault Plain block.index block.width block.mark block.mark codes.now) }
{
    let (least, greatest) = bounds(codes);
    if fits_less(block.width, greatest) {
        return Err(ColumnError::LooseWidth(block.index, block.width));
    }
    if !is_least(block.mark, least, greatest) {
        return Err(ColumnError::BadLast(block.index));
    }
    Ok(())
}

/// Whether the base is the least value, if the codes have these bounds: one of them is 0, and no value is above `u32::MAX`.
#[inline(always)]
pub(super) fn is_least(base: u32, least: u32, greatest: u32) -> bool
    ensures { Decides result ((least ≡ 0) × (base + greatest < 2 ^ 32)) }
{
    least == 0 && greatest <= u32::MAX - base
}

/// The least and the greatest code. No branch depends on a code.
#[inline(always)]
pub(super) fn bounds(codes: &[u32]) -> (u32, u32)
    ensures least { result.0 ≡ Columns.least codes.now }
    ensures greatest { result.1 ≡ Numbers.greatest (slice_index codes.now) (length codes.now) }
{
    let mut least = u32::MAX;
    let mut greatest = 0;
    for index in 0..codes.len() {
        least = least.min(codes[index]);
        greatest = greatest.max(codes[index]);
    }
    (least, greatest)
}

/// Tests a block of a sorted column by its codes. Returns the first position out of order in it. Afterwards the codes may be any.
#[tactic(auto, unfolding(crate::specs::Opening::codes_fault))]
#[inline(always)]
fn test_sorted(block: Block, codes: &mut [u32]) -> Result<Option<usize>, ColumnError>
    requires few { 128 * block.index ≤ 2 ^ 28 }
    requires width { block.width ≤ 32 }
    requires len { length codes.old ≡ 128 }
    ensures fault { Finds result (codes_fault Sorted block.index block.width block.mark block.before codes.old) }
    ensures out { IfOk result (λ out. out
        ≡ out_from Sorted (128 * block.index) block.before (values_of Sorted block.before codes.old)) }
{
    let totals = add_codes(codes);
    if fits_less(block.width, totals.bits) {
        return Err(ColumnError::LooseWidth(block.index, block.width));
    }
    if block.before.wrapping_add(totals.sum) != block.mark {
        return Err(ColumnError::BadLast(block.index));
    }
    Ok(first_out(BLOCK_LEN * block.index, block.before, totals, codes))
}
