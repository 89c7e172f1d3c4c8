//! Tests the chunks of a wide column, and whether its values are in order.
//! FORMAT.md, "Faults of a wide column".

ghost use Rattle.std.specs.Prelude.{◌≡◌, ◌+◌, ◌*◌, ◌^◌, ◌<◌, ◌≤◌, ◌-◌, ◌==◌, ◌&&◌, ◌||◌, nat_le, if◌then◌else◌, false, true, IfOk, IfSome, None, Some, length};
ghost use Rattle.std.specs.Option.{option_or};
ghost use Rattle.bitpack_groups.specs.Faults.{FindsFault};
ghost use Rattle.bitpack_sets.specs.Opened as sets;
ghost use Rattle.bitpack_columns.specs.Faults as column_faults;
ghost use Rattle.bitpack_columns.specs.Opened.{encoding_of, values};
ghost use Rattle.bitpack_columns.specs.declared.column.Column.{Column};
ghost use Rattle.bitpack_wide.specs.WideColumnFaults.{chunk_fault, each_below, first_of, high_fault, is_column, is_in_order, low_fault};
ghost use Rattle.bitpack_wide.specs.WideColumnReads as reads;
ghost use Rattle.bitpack_wide.specs.WideColumnSound.{HasLen, HasParts};
ghost use Rattle.bitpack_wide.specs.inner.WideColumnSteps.{IsChunk};
ghost use Rattle.bitpack_wide.specs.WideColumns as columns;

use super::chunk::Chunk;
use super::tables::{CHUNK_LEN, bound_at, chunks_of, part_at};
use super::testing::{Order, test_numbers};
use crate::wide_column_error::WideColumnError;
use bitpack_columns::Column;
use bitpack_sets::IdSet;

/// Tests each chunk. Returns whether the values are in order.
pub(super) fn test_chunks(
    count: usize,
    rest: &[u8],
    missing: IdSet,
) -> Result<bool, WideColumnError>
    requires few { count ≤ 2 ^ 28 }
    requires parts { HasParts (columns.chunks_of count) rest.now }
    requires missing { sets.encoding_of missing ≡ reads.part_at (columns.chunks_of count) rest.now 0 }
    ensures fault { FindsFault result (first_of (chunk_fault count rest.now) (columns.chunks_of count)) }
    ensures order { IfOk result (λ sorted. sorted ≡ each_below (is_in_order count rest.now) (columns.chunks_of count)) }
{
    let mut sorted = true;
    let mut last = 0;
    for index in 0..chunks_of(count) {
        let chunk = open_chunk(count, rest, index)?;
        let Some(order) = test_numbers(&chunk, CHUNK_LEN * index, &missing) else {
            return Err(WideColumnError::LooseBody(index));
        };
        sorted &= follows(last, &chunk, order);
        last = last_of(last, &chunk, order);
    }
    Ok(sorted)
}

/// Whether the values of a chunk are in order, and none is below one, the last value before them.
#[inline(always)]
fn follows(last: u64, chunk: &Chunk, order: Order) -> bool
    ensures { result ≡ (order.empty || (nat_le last chunk.now.least && order.rises)) }
{
    order.empty || last <= chunk.least && order.rises
}

/// The greatest value of a chunk, or if all are missing this one.
#[inline(always)]
fn last_of(last: u64, chunk: &Chunk, order: Order) -> u64
    ensures { result ≡ (if order.empty then last else chunk.now.greatest) }
{
    if order.empty { last } else { chunk.greatest }
}

/// Opens the parts of a chunk.
#[tactic(auto, unfolding(crate::specs::WideColumnFaults::low_fault, crate::specs::WideColumnFaults::high_fault))]
fn open_chunk<'a>(count: usize, rest: &'a [u8], index: usize) -> Result<Chunk<'a>, WideColumnError>
    requires few { count ≤ 2 ^ 28 }
    requires parts { HasParts (columns.chunks_of count) rest.now }
    requires within { index < columns.chunks_of count }
    ensures fault { FindsFault result (option_or (low_fault count rest.now index) (high_fault count rest.now index)) }
    ensures chunk { IfOk result (λ chunk. IsChunk count rest.now index chunk) }
{
    let chunks = chunks_of(count);
    let len = CHUNK_LEN.min(count - CHUNK_LEN * index);
    let least = bound_at(chunks, rest, 2 * index);
    let greatest = bound_at(chunks, rest, 2 * index + 1);
    let low = open_low(len, index, part_at(chunks, rest, 2 * index + 1))?;
    let part = part_at(chunks, rest, 2 * index + 2);
    let high = open_high(has_high(least, greatest), len, index, part)?;
    Ok(Chunk {
        least,
        greatest,
        len,
        low,
        high,
    })
}

/// The parts of a chunk that were tested.
pub(super) fn read_chunk<'a>(count: usize, rest: &'a [u8], index: usize) -> Chunk<'a>
    requires few { count ≤ 2 ^ 28 }
    requires parts { HasParts (columns.chunks_of count) rest.now }
    requires within { index < columns.chunks_of count }
    requires right { chunk_fault count rest.now index ≡ None }
    ensures { IsChunk count rest.now index result }
{
    let chunks = chunks_of(count);
    let len = CHUNK_LEN.min(count - CHUNK_LEN * index);
    let least = bound_at(chunks, rest, 2 * index);
    let greatest = bound_at(chunks, rest, 2 * index + 1);
    let low = Column::of_tested(part_at(chunks, rest, 2 * index + 1));
    let high = read_high(
        has_high(least, greatest),
        part_at(chunks, rest, 2 * index + 2),
    );
    Chunk {
        least,
        greatest,
        len,
        low,
        high,
    }
}

/// The high part of a chunk that was tested, if it needs one.
fn read_high<'a>(needed: bool, part: &'a [u8]) -> Option<Column<'a>>
    requires { needed ≡ true → column_faults.fault part.now ≡ None }
    ensures none { needed ≡ false → result ≡ None }
    ensures bytes { IfSome result (λ column. encoding_of column ≡ part.now) }
    ensures some { needed ≡ true → (column : Column) × (result ≡ Some column) × (encoding_of column ≡ part.now) }
{
    if needed {
        Some(Column::of_tested(part))
    } else {
        None
    }
}

/// Whether bounds are so far apart that the chunk has a high part.
#[inline(always)]
pub(crate) fn has_high(least: u64, greatest: u64) -> bool
    ensures { result ≡ columns.has_high (greatest - least) }
{
    greatest >= least && greatest - least >= 1 << 32
}

/// The low part of a chunk.
fn open_low<'a>(len: usize, index: usize, part: &'a [u8]) -> Result<Column<'a>, WideColumnError>
    requires { index ≤ 4096 }
    ensures fault { FindsFault result (if is_column len part.now then None else Some (WideColumnError.BadBody (2 * index + 1))) }
    ensures bytes { IfOk result (λ column. encoding_of column ≡ part.now) }
    ensures len { IfOk result (λ column. length (values column) ≡ len) }
{
    match open_column(len, part) {
        Some(column) => Ok(column),
        None => Err(WideColumnError::BadBody(2 * index + 1)),
    }
}

/// The high part of a chunk, if it needs one. It has no byte if it needs none.
fn open_high<'a>(
    needed: bool,
    len: usize,
    index: usize,
    part: &'a [u8],
) -> Result<Option<Column<'a>>, WideColumnError>
    requires { index ≤ 4096 }
    ensures fault { FindsFault result (if (if needed then is_column len part.now else length part.now == 0) then None else Some (WideColumnError.BadBody (2 * index + 2))) }
    ensures none { IfOk result (λ high. needed ≡ false → high ≡ None) }
    ensures len { IfOk result (λ high. HasLen len high) }
    ensures some { IfOk result (λ high. needed ≡ true → (column : Column) × (high ≡ Some column) × (encoding_of column ≡ part.now)) }
{
    if !needed {
        if part.is_empty() {
            return Ok(None);
        }
        return Err(WideColumnError::BadBody(2 * index + 2));
    }
    match open_column(len, part) {
        Some(column) => Ok(Some(column)),
        None => Err(WideColumnError::BadBody(2 * index + 2)),
    }
}

/// The column of `len` values with these bytes, if they are one.
fn open_column<'a>(len: usize, part: &'a [u8]) -> Option<Column<'a>>
    ensures some { IfSome result (λ column. (encoding_of column ≡ part.now) × (length (values column) ≡ len) × (is_column len part.now ≡ true)) }
    ensures none { result ≡ None → is_column len part.now ≡ false }
{
    match Column::open(part) {
        Ok(column) if column.len() == len => Some(column),
        _ => None,
    }
}
