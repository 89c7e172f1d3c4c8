//! What is written of packed values after the whole blocks of a column. They are a filled block or none, and later values.
//! FORMAT.md, "Columns".

ghost use Rattle.std.specs.Prelude.{◌≡◌, ◌⊎◌, ◌+◌, ◌^◌, ◌<◌, ◌≤◌, ◌++◌, length, slice_index, take};
ghost use Rattle.bitpack_columns.specs.declared.column_kind.ColumnKind.TheVariants.{Sorted};
ghost use Rattle.bitpack_columns.specs.Columns.{IsColumn, sum_to};
ghost use Rattle.bitpack_columns.specs.Measured.{AreWidths, IsMeasured, IsPlanned, extended, first_value, packed_after, width_after};
ghost use Rattle.bitpack_columns.specs.Opened.{blocks_of, kind_of, values};

use crate::column::{BLOCK_LEN, Column};
use crate::column_kind::ColumnKind;
use crate::encoding::measuring::{Measured, measure_blocks};
use crate::encoding::parts::{LONGEST_HEADER, LONGEST_TAIL, write_header, write_tail};
use crate::encoding::{Plan, blocks_len};
use crate::reads::Reads;
use crate::reads::copying::{front_greatest, front_total};

/// Measures the encoding of the values of the whole blocks of a column and of the packed ones after them. Writes the header and the tail here,
/// and caches the widths of the first blocks that are packed.
pub(crate) fn plan_after(
    column: &Column,
    filled: &[u32],
    later: &[u32],
    widths: &mut [u8],
    header: &mut [u8],
    tail: &mut [u8],
    reads: &mut Reads,
) -> Plan
    requires whole { (length filled.now ≡ 0) ⊎ (length filled.now ≡ BLOCK_LEN) }
    requires column { IsColumn (kind_of column.now) (extended column.now (filled.now ++ later.now)) }
    requires widths { 0 < length widths.old }
    requires header { length header.old ≡ LONGEST_HEADER }
    requires tail { length tail.old ≡ LONGEST_TAIL }
    ensures header { result.header ≤ LONGEST_HEADER }
    ensures tail { result.tail ≤ LONGEST_TAIL }
    ensures plan { IsPlanned (kind_of column.now) (extended column.now (filled.now ++ later.now))
        (packed_after column.now (filled.now ++ later.now)) (filled.now ++ later.now)
        result.len result.measured.total result.measured.greatest result.measured.last
        widths.new (take result.header header.new) (take result.tail tail.new) }
{
    let copied = column.blocks();
    let count = filled.len() + later.len();
    let blocks = copied + count / BLOCK_LEN;
    let before = value_after(column, filled, later, reads);
    let measured = measure_both(column.kind, before, filled, later, widths);
    let all = Measured {
        total: copied_total(column, reads) as usize + measured.total,
        greatest: front_greatest(column, reads).max(measured.greatest),
        last: measured.last,
        rises: measured.rises,
    };
    let left = &later[BLOCK_LEN * (later.len() / BLOCK_LEN)..];
    let first = first_of_all(column, filled, later);
    let header_len = write_header(column.kind, BLOCK_LEN * copied + count, first, header);
    let tail_len = write_tail(column.kind, blocks, all.last, left, tail);
    Plan {
        len: header_len + blocks_len(blocks, all) + tail_len,
        header: header_len,
        tail: tail_len,
        measured: all,
    }
}

/// Measures the blocks of packed values as [`measure_blocks`] does.
fn measure_both(
    kind: ColumnKind,
    before: u32,
    filled: &[u32],
    later: &[u32],
    widths: &mut [u8],
) -> Measured
    requires few { length (filled.now ++ later.now) ≤ 2 ^ 28 }
    requires whole { (length filled.now ≡ 0) ⊎ (length filled.now ≡ BLOCK_LEN) }
    requires widths { 0 < length widths.old }
    ensures measured { IsMeasured kind before (filled.now ++ later.now) result.total result.greatest result.last }
    ensures widths { AreWidths kind before (filled.now ++ later.now) widths.new }
{
    if filled.is_empty() {
        return measure_blocks(kind, before, later, widths);
    }
    let (first, others) = widths.split_at_mut(1);
    let one = measure_blocks(kind, before, filled, first);
    let more = measure_blocks(kind, filled[BLOCK_LEN - 1], later, others);
    Measured {
        total: one.total + more.total,
        greatest: one.greatest.max(more.greatest),
        last: more.last,
        rises: false,
    }
}

/// The sum of the widths of the blocks of a column.
pub(crate) fn copied_total(column: &Column, reads: &mut Reads) -> u32
    ensures { result ≡ sum_to (width_after (kind_of column.now) (first_value column.now) (values column.now))
        (blocks_of column.now) }
{
    if column.blocks() == 0 {
        return 0;
    }
    front_total(column, reads)
}

/// What the packed values of a sorted column follow.
pub(crate) fn value_after(column: &Column, filled: &[u32], later: &[u32], reads: &mut Reads) -> u32
    ensures { result ≡ packed_after column.now (filled.now ++ later.now) }
{
    if column.blocks() == 0 {
        return first_packed(filled, later);
    }
    reads.read_mark(column, column.blocks() - 1)
}

/// The first value of the whole blocks of a sorted column and of the packed ones after them, 0 if there is none.
fn first_of_all(column: &Column, filled: &[u32], later: &[u32]) -> u32
    ensures { kind_of column.now ≡ Sorted
        → result ≡ slice_index (extended column.now (filled.now ++ later.now)) 0 }
{
    if column.blocks() == 0 {
        return first_packed(filled, later);
    }
    column.first
}

/// The first of packed values, 0 if there is none.
fn first_packed(filled: &[u32], later: &[u32]) -> u32
    ensures { result ≡ slice_index (filled.now ++ later.now) 0 }
{
    if !filled.is_empty() {
        return filled[0];
    }
    if later.is_empty() {
        return 0;
    }
    later[0]
}
