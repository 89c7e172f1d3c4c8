//! Writes the blocks of a column.
//! FORMAT.md, "Columns".

ghost use Rattle.std.specs.Prelude.{◌≡◌, ℕ, ◌+◌, ◌*◌, ◌/◌, ◌^◌, ◌<◌, ◌≤◌, length, slice_index};
ghost use Rattle.bitpack_columns.specs.declared.column_kind.ColumnKind.TheVariants.{Plain};
ghost use Rattle.bitpack_columns.specs.Columns.{blocks_encoding, codes, mark_of, packed_block, sum_to};
ghost use Rattle.bitpack_columns.specs.Measured.{AreWidths, IsMeasured, base_after, bodies_encoding, ends_encoding, marks_encoding, width_after};
ghost use Rattle.bitpack_groups.specs.Packed.{least_width};

use crate::column::BLOCK_LEN;
use crate::column_kind::ColumnKind;
use crate::encoding::measuring::{Measured, measure_again};
use bitpack_groups::{byte_count, write_at};
use bitpacking::{BitPacker, BitPacker4x, Kind};

/// Writes the byte of the sizes, the ends, the marks and the bodies of the blocks of a column, which were measured.
pub(crate) fn write_blocks(
    kind: ColumnKind,
    values: &[u32],
    measured: Measured,
    widths: &[u8],
    out: &mut [u8],
)
    requires some { BLOCK_LEN ≤ length values.now }
    requires few { length values.now ≤ 2 ^ 28 }
    requires measured { IsMeasured kind (slice_index values.now 0) values.now
        measured.total measured.greatest measured.last }
    requires widths { AreWidths kind (slice_index values.now 0) values.now widths.now }
    requires size { length out.old ≡ length (blocks_encoding kind values.now) }
    ensures { out.new ≡ blocks_encoding kind values.now }
{
    let blocks = values.len() / BLOCK_LEN;
    let end_size = byte_count(measured.total as u32);
    let mark_size = byte_count(measured.greatest);
    let (sizes, rest) = out.split_at_mut(1);
    let (ends, others) = rest.split_at_mut(end_size * blocks);
    let (marks, bodies) = others.split_at_mut(mark_size * blocks);
    sizes[0] = (end_size + 16 * mark_size) as u8;
    write_entries(
        kind, values[0], 0, end_size, mark_size, values, widths, ends, marks, bodies,
    );
}

/// Writes the end, the mark and the body of each whole block of values. In a sorted column `before` is the value before them. The first
/// block begins at `start` among the ends.
pub(crate) fn write_entries(
    kind: ColumnKind,
    before: u32,
    start: u32,
    end_size: usize,
    mark_size: usize,
    values: &[u32],
    widths: &[u8],
    ends: &mut [u8],
    marks: &mut [u8],
    bodies: &mut [u8],
)
    requires few { length values.now ≤ 2 ^ 28 }
    requires start { start ≤ 2 ^ 27 }
    requires sizes { (end_size ≤ 4) × (mark_size ≤ 4) }
    requires widths { AreWidths kind before values.now widths.now }
    requires ends { length ends.old ≡ end_size * (length values.now / 128) }
    requires marks { length marks.old ≡ mark_size * (length values.now / 128) }
    requires bodies { length bodies.old ≡ 16 * sum_to (width_after kind before values.now) (length values.now / 128) }
    ensures ends { ends.new ≡ ends_encoding kind before values.now end_size start }
    ensures marks { marks.new ≡ marks_encoding kind before values.now mark_size }
    ensures bodies { bodies.new ≡ bodies_encoding kind before values.now }
{
    let mut room = [0; BLOCK_LEN];
    let mut last = before;
    let mut end = start;
    let mut at = 0;
    for index in 0..values.len() / BLOCK_LEN {
        let block = &values[BLOCK_LEN * index..BLOCK_LEN * index + BLOCK_LEN];
        let (mark, width) = measure_again(kind, last, block, widths, index);
        let size = 16 * width as usize;
        let body = &mut bodies[at..at + size];
        write_body(kind, last, mark, width, block, &mut room, body);
        at += size;
        end += width as u32;
        write_at(index, end_size, end, ends);
        write_at(index, mark_size, mark, marks);
        last = mark;
    }
}

/// Writes the body of a block. A plain one is packed less its mark, from `room`, which may be any before.
#[inline(always)]
fn write_body(
    kind: ColumnKind,
    before: u32,
    mark: u32,
    width: u8,
    block: &[u32],
    room: &mut [u32],
    body: &mut [u8],
)
    requires block { length block.now ≡ BLOCK_LEN }
    requires room { length room.old ≡ BLOCK_LEN }
    requires mark { mark ≡ mark_of kind block.now }
    requires width { width ≡ least_width (codes kind (base_after kind before mark) block.now) }
    requires size { length body.old ≡ 16 * width }
    ensures { body.new ≡ packed_block width (codes kind (base_after kind before mark) block.now) }
{
    match kind {
        ColumnKind::Plain => {
            take_off(mark, block, room);
            BitPacker4x::new().compress_kind(Kind::Plain, room, body, width);
        }
        ColumnKind::Sorted => {
            BitPacker4x::new().compress_kind(Kind::Sorted(before), block, body, width);
        }
    }
}

/// Writes each value less a number that none is below.
#[inline(always)]
pub(crate) fn take_off(base: u32, values: &[u32], out: &mut [u32])
    requires above { (k : ℕ) → k < length values.now → base ≤ slice_index values.now k }
    requires size { length out.old ≡ length values.now }
    ensures { out.new ≡ codes Plain base values.now }
{
    for index in 0..out.len() {
        out[index] = values[index] - base;
    }
}
