//! Writes the whole blocks of a column, and packed values after them. They are a filled block or none, and later values.
//! FORMAT.md, "Columns".

ghost use Rattle.std.specs.Prelude.{◌≡◌, ◌⊎◌, ◌*◌, ◌/◌, ◌^◌, ◌<◌, ◌≤◌, ◌++◌, length, slice_index};
ghost use Rattle.bitpack_columns.specs.Columns.{IsColumn, blocks_encoding, encoding, sum_to};
ghost use Rattle.bitpack_columns.specs.Measured.{AreWidths, IsMeasured, IsPlanned, bodies_encoding, ends_encoding, extended, first_value, marks_encoding, packed_after, width_after};
ghost use Rattle.bitpack_columns.specs.Opened.{blocks_of, kind_of, values};
ghost use Rattle.bitpack_columns.specs.Written.{AppendsColumn, WritesColumn};

use crate::appending::planning::{copied_total, plan_after, value_after};
use crate::column::{BLOCK_LEN, Column};
use crate::column_error::ColumnError;
use crate::column_kind::ColumnKind;
use crate::encoding::bodies::write_entries;
use crate::encoding::measuring::Measured;
use crate::encoding::parts::{LONGEST_HEADER, LONGEST_TAIL};
use crate::encoding::{FEW_WIDTHS, MANY_WIDTHS, append_zeros};
use crate::reads::Reads;
use crate::reads::copying::copy_front;
use bitpack_groups::byte_count;

/// Writes the encoding of the values of the whole blocks of a column and of the packed ones after them at the start of the slice.
pub(crate) fn write_packed(
    column: &Column,
    filled: &[u32],
    later: &[u32],
    out: &mut [u8],
    reads: &mut Reads,
) -> Result<usize, ColumnError>
    requires whole { (length filled.now ≡ 0) ⊎ (length filled.now ≡ BLOCK_LEN) }
    requires column { IsColumn (kind_of column.now) (extended column.now (filled.now ++ later.now)) }
    ensures { WritesColumn (kind_of column.now) (extended column.now (filled.now ++ later.now)) result out.old out.new }
{
    if later.len() / BLOCK_LEN < FEW_WIDTHS {
        return write_planned(column, filled, later, &mut [0; FEW_WIDTHS], out, reads);
    }
    write_planned(column, filled, later, &mut [0; MANY_WIDTHS], out, reads)
}

/// Appends the encoding of the values of the whole blocks of a column and of the packed ones after them.
pub(crate) fn append_packed(
    column: &Column,
    filled: &[u32],
    later: &[u32],
    out: &mut Vec<u8>,
    reads: &mut Reads,
) -> Result<(), ColumnError>
    requires whole { (length filled.now ≡ 0) ⊎ (length filled.now ≡ BLOCK_LEN) }
    requires column { IsColumn (kind_of column.now) (extended column.now (filled.now ++ later.now)) }
    ensures { AppendsColumn (kind_of column.now) (extended column.now (filled.now ++ later.now)) result out.old out.new }
{
    if later.len() / BLOCK_LEN < FEW_WIDTHS {
        return append_planned(column, filled, later, &mut [0; FEW_WIDTHS], out, reads);
    }
    append_planned(column, filled, later, &mut [0; MANY_WIDTHS], out, reads)
}

/// Writes the encoding as [`write_packed`] does, with room for cached widths.
fn write_planned(
    column: &Column,
    filled: &[u32],
    later: &[u32],
    widths: &mut [u8],
    out: &mut [u8],
    reads: &mut Reads,
) -> Result<usize, ColumnError>
    requires whole { (length filled.now ≡ 0) ⊎ (length filled.now ≡ BLOCK_LEN) }
    requires column { IsColumn (kind_of column.now) (extended column.now (filled.now ++ later.now)) }
    requires widths { 0 < length widths.old }
    ensures { WritesColumn (kind_of column.now) (extended column.now (filled.now ++ later.now)) result out.old out.new }
{
    let mut header = [0; LONGEST_HEADER];
    let mut tail = [0; LONGEST_TAIL];
    let plan = plan_after(column, filled, later, widths, &mut header, &mut tail, reads);
    let len = plan.len;
    if out.len() < len {
        return Err(ColumnError::Short);
    }
    let bytes = &mut out[..len];
    write_after(
        column,
        filled,
        later,
        plan.measured,
        widths,
        &header[..plan.header],
        &tail[..plan.tail],
        bytes,
        reads,
    );
    Ok(len)
}

/// Appends the encoding as [`append_packed`] does, with room for cached widths.
fn append_planned(
    column: &Column,
    filled: &[u32],
    later: &[u32],
    widths: &mut [u8],
    out: &mut Vec<u8>,
    reads: &mut Reads,
) -> Result<(), ColumnError>
    requires whole { (length filled.now ≡ 0) ⊎ (length filled.now ≡ BLOCK_LEN) }
    requires column { IsColumn (kind_of column.now) (extended column.now (filled.now ++ later.now)) }
    requires widths { 0 < length widths.old }
    ensures { AppendsColumn (kind_of column.now) (extended column.now (filled.now ++ later.now)) result out.old out.new }
{
    let mut header = [0; LONGEST_HEADER];
    let mut tail = [0; LONGEST_TAIL];
    let plan = plan_after(column, filled, later, widths, &mut header, &mut tail, reads);
    let len = plan.len;
    if out.reserve(len).is_err() {
        return Err(ColumnError::Memory);
    }
    let start = out.len();
    append_zeros(out, len);
    let bytes = out.slice_mut(start..);
    write_after(
        column,
        filled,
        later,
        plan.measured,
        widths,
        &header[..plan.header],
        &tail[..plan.tail],
        bytes,
        reads,
    );
    Ok(())
}

/// Writes the encoding of the values of the whole blocks of a column and of the packed ones after them, which was measured. It has this header
/// and this tail.
fn write_after(
    column: &Column,
    filled: &[u32],
    later: &[u32],
    measured: Measured,
    widths: &[u8],
    header: &[u8],
    tail: &[u8],
    out: &mut [u8],
    reads: &mut Reads,
)
    requires whole { (length filled.now ≡ 0) ⊎ (length filled.now ≡ BLOCK_LEN) }
    requires column { IsColumn (kind_of column.now) (extended column.now (filled.now ++ later.now)) }
    requires some { 0 < length widths.now }
    requires planned { IsPlanned (kind_of column.now) (extended column.now (filled.now ++ later.now))
        (packed_after column.now (filled.now ++ later.now)) (filled.now ++ later.now)
        (length out.old) measured.total measured.greatest measured.last widths.now header.now tail.now }
    ensures { out.new ≡ encoding (kind_of column.now) (extended column.now (filled.now ++ later.now)) }
{
    let (front, rest) = out.split_at_mut(header.len());
    let (blocks, end) = rest.split_at_mut(rest.len() - tail.len());
    front.copy_from_slice(header);
    end.copy_from_slice(tail);
    if !blocks.is_empty() {
        write_blocks_after(column, filled, later, measured, widths, blocks, reads);
    }
}

/// Writes the byte of the sizes, the ends, the marks and the bodies of the whole blocks of a column and of the packed values after them. There
/// is a block.
fn write_blocks_after(
    column: &Column,
    filled: &[u32],
    later: &[u32],
    measured: Measured,
    widths: &[u8],
    out: &mut [u8],
    reads: &mut Reads,
)
    requires whole { (length filled.now ≡ 0) ⊎ (length filled.now ≡ BLOCK_LEN) }
    requires column { IsColumn (kind_of column.now) (extended column.now (filled.now ++ later.now)) }
    requires some { 0 < length widths.now }
    requires measured { IsMeasured (kind_of column.now)
        (slice_index (extended column.now (filled.now ++ later.now)) 0) (extended column.now (filled.now ++ later.now))
        measured.total measured.greatest measured.last }
    requires widths { AreWidths (kind_of column.now) (packed_after column.now (filled.now ++ later.now))
        (filled.now ++ later.now) widths.now }
    requires size { length out.old
        ≡ length (blocks_encoding (kind_of column.now) (extended column.now (filled.now ++ later.now))) }
    ensures { out.new ≡ blocks_encoding (kind_of column.now) (extended column.now (filled.now ++ later.now)) }
{
    let copied = column.blocks();
    let blocks = copied + (filled.len() + later.len()) / BLOCK_LEN;
    let start = copied_total(column, reads);
    let end_size = byte_count(measured.total as u32);
    let mark_size = byte_count(measured.greatest);
    let (sizes, rest) = out.split_at_mut(1);
    let (ends, others) = rest.split_at_mut(end_size * blocks);
    let (marks, bodies) = others.split_at_mut(mark_size * blocks);
    sizes[0] = (end_size + 16 * mark_size) as u8;
    let (old_ends, new_ends) = ends.split_at_mut(end_size * copied);
    let (old_marks, new_marks) = marks.split_at_mut(mark_size * copied);
    let (old_bodies, new_bodies) = bodies.split_at_mut(16 * start as usize);
    copy_old(
        column, end_size, mark_size, old_ends, old_marks, old_bodies, reads,
    );
    write_both(
        column.kind,
        value_after(column, filled, later, reads),
        start,
        end_size,
        mark_size,
        filled,
        later,
        widths,
        new_ends,
        new_marks,
        new_bodies,
    );
}

/// Copies the ends, the marks and the bodies of the blocks of a column, which may have none.
fn copy_old(
    column: &Column,
    end_size: usize,
    mark_size: usize,
    ends: &mut [u8],
    marks: &mut [u8],
    bodies: &mut [u8],
    reads: &mut Reads,
)
    requires sizes { (end_size ≤ 4) × (mark_size ≤ 4) }
    requires ends { length ends.old ≡ end_size * blocks_of column.now }
    requires marks { length marks.old ≡ mark_size * blocks_of column.now }
    requires bodies { length bodies.old ≡ 16 * sum_to (width_after (kind_of column.now) (first_value column.now)
        (values column.now)) (blocks_of column.now) }
    ensures ends { ends.new ≡ ends_encoding (kind_of column.now) (first_value column.now) (values column.now) end_size 0 }
    ensures marks { marks.new ≡ marks_encoding (kind_of column.now) (first_value column.now) (values column.now) mark_size }
    ensures bodies { bodies.new ≡ bodies_encoding (kind_of column.now) (first_value column.now) (values column.now) }
{
    if column.blocks() > 0 {
        copy_front(column, end_size, mark_size, ends, marks, bodies, reads);
    }
}

/// Writes the end, the mark and the body of each whole block of packed values, as [`write_entries`] does.
fn write_both(
    kind: ColumnKind,
    before: u32,
    start: u32,
    end_size: usize,
    mark_size: usize,
    filled: &[u32],
    later: &[u32],
    widths: &[u8],
    ends: &mut [u8],
    marks: &mut [u8],
    bodies: &mut [u8],
)
    requires whole { (length filled.now ≡ 0) ⊎ (length filled.now ≡ BLOCK_LEN) }
    requires few { length (filled.now ++ later.now) ≤ 2 ^ 28 }
    requires some { 0 < length widths.now }
    requires start { start ≤ 2 ^ 26 }
    requires sizes { (end_size ≤ 4) × (mark_size ≤ 4) }
    requires widths { AreWidths kind before (filled.now ++ later.now) widths.now }
    requires ends { length ends.old ≡ end_size * (length (filled.now ++ later.now) / 128) }
    requires marks { length marks.old ≡ mark_size * (length (filled.now ++ later.now) / 128) }
    requires bodies { length bodies.old ≡ 16 * sum_to (width_after kind before (filled.now ++ later.now))
        (length (filled.now ++ later.now) / 128) }
    ensures ends { ends.new ≡ ends_encoding kind before (filled.now ++ later.now) end_size start }
    ensures marks { marks.new ≡ marks_encoding kind before (filled.now ++ later.now) mark_size }
    ensures bodies { bodies.new ≡ bodies_encoding kind before (filled.now ++ later.now) }
{
    if filled.is_empty() {
        return write_entries(
            kind, before, start, end_size, mark_size, later, widths, ends, marks, bodies,
        );
    }
    let (first, others) = widths.split_at(1);
    let width = first[0];
    let (end, later_ends) = ends.split_at_mut(end_size);
    let (mark, later_marks) = marks.split_at_mut(mark_size);
    let (body, later_bodies) = bodies.split_at_mut(16 * width as usize);
    write_entries(
        kind, before, start, end_size, mark_size, filled, first, end, mark, body,
    );
    write_entries(
        kind,
        filled[BLOCK_LEN - 1],
        start + width as u32,
        end_size,
        mark_size,
        later,
        others,
        later_ends,
        later_marks,
        later_bodies,
    );
}
