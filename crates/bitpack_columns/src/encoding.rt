//! From values to bytes: the encoding of a column is planned, and then written.
//! FORMAT.md, "Columns".

ghost use Rattle.std.specs.Prelude.{◌≡◌, ◌+◌, ◌*◌, ◌^◌, ◌<◌, ◌≤◌, ◌++◌, ◌==◌, if◌then◌else◌, IfOk, OnOk, length, replicate, slice_index, take, vec_capacity, vec_len};
ghost use Rattle.bitpack_columns.specs.Columns.{IsColumn, encoding, header_encoding, tail_encoding};
ghost use Rattle.bitpack_columns.specs.Errors.{Finds};
ghost use Rattle.bitpack_columns.specs.Measured.{AreWidths, IsMeasured, IsPlanned};
ghost use Rattle.bitpack_columns.specs.Numbers;
ghost use Rattle.bitpack_columns.specs.Written.{AppendsColumn, MeasuresColumn, WritesColumn, refusal};

pub(crate) mod bodies;
pub(crate) mod measuring;
pub(crate) mod order;
pub(crate) mod parts;

use crate::column::BLOCK_LEN;
use crate::column_error::ColumnError;
use crate::column_kind::ColumnKind;
use crate::encoding::bodies::write_blocks;
use crate::encoding::measuring::{Measured, measure_blocks};
use crate::encoding::order::test_order;
use crate::encoding::parts::{LONGEST_HEADER, LONGEST_TAIL, write_header, write_tail};
use bitpack_groups::{LONGEST_LIST, byte_count};

/// How many widths are cached from the measuring of a column to its writing if it has few blocks. Little room takes less time to clear.
pub(crate) const FEW_WIDTHS: usize = 64;

/// How many are cached if it has more blocks. Those after them are measured twice.
pub(crate) const MANY_WIDTHS: usize = 8192;

/// What is known of a column before it is written: how many bytes it has, how many of these are its header and its tail, and the measures of
/// its blocks.
#[derive(Clone, Copy)]
pub(crate) struct Plan {
    pub(crate) len: usize,
    pub(crate) header: usize,
    pub(crate) tail: usize,
    pub(crate) measured: Measured,
}

/// Returns the length in bytes of the encoding of a column.
///
/// At most 268,435,456 values are a column; in a sorted one none is below the one before it.
pub fn encoded_len(kind: ColumnKind, values: &[u32]) -> Result<usize, ColumnError>
    ensures { MeasuresColumn kind values.now result }
{
    let mut header = [0; LONGEST_HEADER];
    let mut tail = [0; LONGEST_TAIL];
    let plan = plan_column(kind, values, &mut [0; 0], &mut header, &mut tail)?;
    Ok(plan.len)
}

/// Writes the encoding of a column at the start of the slice, and returns its length in bytes. Allocates nothing.
///
/// The values are a column as for [`encoded_len`], which returns how many bytes are needed. If the slice is too short, it fails with `Short`
/// and writes nothing. The bytes after the encoding are unchanged.
pub fn encode_to(kind: ColumnKind, values: &[u32], bytes: &mut [u8]) -> Result<usize, ColumnError>
    ensures { WritesColumn kind values.now result bytes.old bytes.new }
{
    if values.len() / BLOCK_LEN <= FEW_WIDTHS {
        return write_planned(kind, values, &mut [0; FEW_WIDTHS], bytes);
    }
    write_planned(kind, values, &mut [0; MANY_WIDTHS], bytes)
}

/// Appends the encoding of a column. The vector grows at most once.
///
/// The values are a column as for [`encoded_len`].
// claim: columns/13 as `sets/7-9`, of values, in order if sorted
pub fn encode(kind: ColumnKind, values: &[u32], out: &mut Vec<u8>) -> Result<(), ColumnError>
    ensures { AppendsColumn kind values.now result out.old out.new }
{
    if values.len() / BLOCK_LEN <= FEW_WIDTHS {
        return append_planned(kind, values, &mut [0; FEW_WIDTHS], out);
    }
    append_planned(kind, values, &mut [0; MANY_WIDTHS], out)
}

/// Writes the encoding of a column as [`encode_to`] does, with room for cached widths.
fn write_planned(
    kind: ColumnKind,
    values: &[u32],
    widths: &mut [u8],
    bytes: &mut [u8],
) -> Result<usize, ColumnError>
    ensures { WritesColumn kind values.now result bytes.old bytes.new }
{
    let mut header = [0; LONGEST_HEADER];
    let mut tail = [0; LONGEST_TAIL];
    let plan = plan_column(kind, values, widths, &mut header, &mut tail)?;
    let len = plan.len;
    if bytes.len() < len {
        return Err(ColumnError::Short);
    }
    let out = &mut bytes[..len];
    write_column(
        kind,
        values,
        plan.measured,
        widths,
        &header[..plan.header],
        &tail[..plan.tail],
        out,
    );
    Ok(len)
}

/// Appends the encoding of a column as [`encode`] does, with room for cached widths.
fn append_planned(
    kind: ColumnKind,
    values: &[u32],
    widths: &mut [u8],
    out: &mut Vec<u8>,
) -> Result<(), ColumnError>
    ensures { AppendsColumn kind values.now result out.old out.new }
{
    let mut header = [0; LONGEST_HEADER];
    let mut tail = [0; LONGEST_TAIL];
    let plan = plan_column(kind, values, widths, &mut header, &mut tail)?;
    let len = plan.len;
    if out.reserve(len).is_err() {
        return Err(ColumnError::Memory);
    }
    let start = out.len();
    append_zeros(out, len);
    let bytes = out.slice_mut(start..);
    write_column(
        kind,
        values,
        plan.measured,
        widths,
        &header[..plan.header],
        &tail[..plan.tail],
        bytes,
    );
    Ok(())
}

/// Appends `count` zeros to a vector that has the room.
pub(crate) fn append_zeros(out: &mut Vec<u8>, count: usize)
    requires room { vec_len out.old + count ≤ vec_capacity out.old }
    ensures items { out.new.items ≡ out.old.items ++ replicate count 0 }
    ensures len { vec_len out.new ≡ vec_len out.old + count }
{
    let len = out.len();
    out.resize(len + count, 0).unwrap();
}

/// Tests that values are a column, and measures its encoding. Writes the header and the tail here, and caches the widths of the first blocks.
fn plan_column(
    kind: ColumnKind,
    values: &[u32],
    widths: &mut [u8],
    header: &mut [u8],
    tail: &mut [u8],
) -> Result<Plan, ColumnError>
    requires header { length header.old ≡ LONGEST_HEADER }
    requires tail { length tail.old ≡ LONGEST_TAIL }
    ensures fault { Finds result (refusal kind values.now) }
    ensures column { OnOk result (IsColumn kind values.now) }
    ensures header { IfOk result (λ plan. plan.header ≤ LONGEST_HEADER) }
    ensures tail { IfOk result (λ plan. plan.tail ≤ LONGEST_TAIL) }
    ensures plan { IfOk result (λ plan. IsPlanned kind values.now
        (slice_index values.now 0) values.now plan.len plan.measured.total plan.measured.greatest plan.measured.last
        widths.new (take plan.header header.new) (take plan.tail tail.new)) }
{
    let count = values.len();
    if count > LONGEST_LIST {
        return Err(ColumnError::TooLong(count));
    }
    let first = first_of(values);
    let measured = measure_blocks(kind, first, values, widths);
    test_order(kind, 0, first, values, measured)?;
    let blocks = count / BLOCK_LEN;
    let left = &values[BLOCK_LEN * blocks..];
    let header_len = write_header(kind, count, first, header);
    let tail_len = write_tail(kind, blocks, measured.last, left, tail);
    Ok(Plan {
        len: header_len + blocks_len(blocks, measured) + tail_len,
        header: header_len,
        tail: tail_len,
        measured,
    })
}

/// The first of some values, 0 if there is none.
fn first_of(values: &[u32]) -> u32
    ensures { result ≡ slice_index values.now 0 }
{
    if values.is_empty() {
        return 0;
    }
    values[0]
}

/// How many bytes the sizes, the ends, the marks and the bodies of measured blocks have.
pub(crate) fn blocks_len(blocks: usize, measured: Measured) -> usize
    requires blocks { blocks ≤ 2 ^ 21 }
    requires total { measured.total ≤ 2 ^ 26 }
    ensures len { result ≡ (if blocks == 0 then 0
        else 1 + (Numbers.byte_count measured.total + Numbers.byte_count measured.greatest) * blocks
        + 16 * measured.total) }
    ensures few { result ≤ 2 ^ 31 }
{
    if blocks == 0 {
        return 0;
    }
    let entry = byte_count(measured.total as u32) + byte_count(measured.greatest);
    1 + entry * blocks + 16 * measured.total
}

/// Writes the encoding of a column that has this header and this tail, and whose blocks were measured.
fn write_column(
    kind: ColumnKind,
    values: &[u32],
    measured: Measured,
    widths: &[u8],
    header: &[u8],
    tail: &[u8],
    out: &mut [u8],
)
    requires few { length values.now ≤ 2 ^ 28 }
    requires planned { IsPlanned kind values.now (slice_index values.now 0) values.now
        (length out.old) measured.total measured.greatest measured.last widths.now header.now tail.now }
    ensures { out.new ≡ encoding kind values.now }
{
    let (front, rest) = out.split_at_mut(header.len());
    let (blocks, end) = rest.split_at_mut(rest.len() - tail.len());
    front.copy_from_slice(header);
    end.copy_from_slice(tail);
    if values.len() >= BLOCK_LEN {
        write_blocks(kind, values, measured, widths, blocks);
    }
}
