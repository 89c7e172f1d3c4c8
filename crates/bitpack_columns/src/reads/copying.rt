//! The whole blocks of a column, copied to another one that begins with them. To copy their bodies counts as to unpack them.
//!
//! FORMAT.md, "Columns".

ghost use Rattle.std.specs.Prelude.{◌≡◌, ◌+◌, ◌*◌, ◌/◌, ◌<◌, ◌≤◌, length, slice_index};
ghost use Rattle.bitpack_columns.specs.Columns.{mark_in, sum_to};
ghost use Rattle.bitpack_columns.specs.Counted.{ReadsMarks};
ghost use Rattle.bitpack_columns.specs.Measured.{bodies_encoding, ends_encoding, first_value, marks_encoding, width_after};
ghost use Rattle.bitpack_columns.specs.Numbers.{greatest};
ghost use Rattle.bitpack_columns.specs.Opened.{blocks_of, kind_of, values};

use crate::column::Column;
use crate::entries::{begin_at, bodies_start, end_at};
use crate::reads::Reads;
use bitpack_groups::write_at;

/// The sum of the widths of the blocks of a column.
pub(crate) fn front_total(column: &Column, reads: &mut Reads) -> u32
    requires { 0 < blocks_of column.now }
    ensures total { result ≡ sum_to (width_after (kind_of column.now) (first_value column.now) (values column.now))
        (blocks_of column.now) }
    ensures reads { ReadsMarks 1 reads.old reads.new }
{
    reads.record(1, 0);
    let blocks = column.blocks();
    begin_at(blocks, column.rest.bytes, blocks)
}

/// The greatest mark of a column, 0 if it has no block.
pub(crate) fn front_greatest(column: &Column, reads: &mut Reads) -> u32
    ensures mark { result ≡ greatest (mark_in (kind_of column.now) (values column.now)) (blocks_of column.now) }
    ensures marks { reads.new.marks ≡ reads.old.marks + blocks_of column.now }
    ensures blocks { reads.new.blocks ≡ reads.old.blocks }
{
    let blocks = column.blocks();
    reads.record(blocks as u32, 0);
    let mut greatest: u32 = 0;
    for block in 0..blocks {
        greatest = greatest.max(column.mark(block));
    }
    greatest
}

/// Copies the ends, the marks and the bodies of the blocks of a column.
pub(crate) fn copy_front(
    column: &Column,
    end_size: usize,
    mark_size: usize,
    ends: &mut [u8],
    marks: &mut [u8],
    bodies: &mut [u8],
    reads: &mut Reads,
)
    requires some { 0 < blocks_of column.now }
    requires sizes { (end_size ≤ 4) × (mark_size ≤ 4) }
    requires ends { length ends.old ≡ end_size * blocks_of column.now }
    requires marks { length marks.old ≡ mark_size * blocks_of column.now }
    requires bodies { length bodies.old ≡ 16 * sum_to (width_after (kind_of column.now) (first_value column.now)
        (values column.now)) (blocks_of column.now) }
    ensures ends { ends.new ≡ ends_encoding (kind_of column.now) (first_value column.now) (values column.now) end_size 0 }
    ensures marks { marks.new ≡ marks_encoding (kind_of column.now) (first_value column.now) (values column.now) mark_size }
    ensures bodies { bodies.new ≡ bodies_encoding (kind_of column.now) (first_value column.now) (values column.now) }
    ensures reads_marks { reads.new.marks ≡ reads.old.marks + blocks_of column.now }
    ensures reads_blocks { reads.new.blocks ≡ reads.old.blocks + blocks_of column.now }
{
    let blocks = column.blocks();
    reads.record(blocks as u32, blocks as u32);
    copy_ends(column, end_size, ends);
    copy_marks(column, mark_size, marks);
    let start = bodies_start(blocks, column.rest.bytes);
    bodies.copy_from_slice(&column.rest.bytes[start..start + bodies.len()]);
}

/// Writes the ends of the blocks of a column with `size` bytes each.
fn copy_ends(column: &Column, size: usize, out: &mut [u8])
    requires some { 0 < blocks_of column.now }
    requires size { size ≤ 4 }
    requires room { length out.old ≡ size * blocks_of column.now }
    ensures { out.new ≡ ends_encoding (kind_of column.now) (first_value column.now) (values column.now) size 0 }
{
    let blocks = column.blocks();
    for block in 0..blocks {
        write_at(block, size, end_at(blocks, column.rest.bytes, block), out);
    }
}

/// Writes the marks of the blocks of a column with `size` bytes each.
fn copy_marks(column: &Column, size: usize, out: &mut [u8])
    requires size { size ≤ 4 }
    requires room { length out.old ≡ size * blocks_of column.now }
    ensures { out.new ≡ marks_encoding (kind_of column.now) (first_value column.now) (values column.now) size }
{
    for block in 0..column.blocks() {
        write_at(block, size, column.mark(block), out);
    }
}
