//! Writes what is before the blocks of a column, and its tail.
//! FORMAT.md, "Columns".

ghost use Rattle.std.specs.Prelude.{◌≡◌, ℕ, List, [], ◌∷◌, ◌+◌, ◌*◌, ◌^◌, ◌<◌, ◌≤◌, if◌then◌else◌, length, min, nat_lt, slice_index, take};
ghost use Rattle.bitpack_columns.specs.declared.column_kind.ColumnKind.TheVariants.{Sorted};
ghost use Rattle.bitpack_columns.specs.Columns.{codes, header_encoding, kind_bit};
ghost use Rattle.bitpack_columns.specs.Measured.{tail_after};
ghost use Rattle.bitpack_columns.specs.Numbers.{number};

use crate::column::BLOCK_LEN;
use crate::column_kind::ColumnKind;
use crate::encoding::bodies::take_off;
use crate::encoding::measuring::bounds;
use crate::tail::left_out;
use bitpack_groups::{write_groups, write_number};

/// The most bytes of a header: byte 0, the count and the first value.
pub(crate) const LONGEST_HEADER: usize = 11;

/// The most bytes of a tail: its least value, four groups, and four bytes for each value.
pub(crate) const LONGEST_TAIL: usize = 5 + 4 + 4 * 127;

/// The least count that is not in byte 0.
const MANY: usize = 31;

/// Writes the header of a column of `count` values at the start of the slice, and returns its length in bytes.
pub(crate) fn write_header(kind: ColumnKind, count: usize, first: u32, bytes: &mut [u8]) -> usize
    requires few { count ≤ 2 ^ 28 }
    requires room { length bytes.old ≡ LONGEST_HEADER }
    ensures header { (values : List ℕ) → length values ≡ count → (kind ≡ Sorted → slice_index values 0 ≡ first)
        → take result bytes.new ≡ header_encoding kind values }
    ensures within { result ≤ LONGEST_HEADER }
{
    let len = write_count(kind, count, bytes);
    match kind {
        ColumnKind::Plain => len,
        ColumnKind::Sorted if count == 0 => len,
        ColumnKind::Sorted => len + write_number(first, &mut bytes[len..]),
    }
}

/// Writes byte 0 of a column of `count` values, and after it the count if it is not in this byte. Returns how many bytes these are.
fn write_count(kind: ColumnKind, count: usize, bytes: &mut [u8]) -> usize
    requires few { count ≤ 2 ^ 28 }
    requires room { length bytes.old ≡ LONGEST_HEADER }
    ensures count { take result bytes.new
        ≡ (64 + 32 * kind_bit kind + min count 31) ∷ (if nat_lt count 31 then [] else number count) }
    ensures within { result ≤ 6 }
{
    bytes[0] = kind_byte(kind) + count.min(MANY) as u8;
    if count < MANY {
        return 1;
    }
    1 + write_number(count as u32, &mut bytes[1..])
}

/// Byte 0 of a column without values.
fn kind_byte(kind: ColumnKind) -> u8
    ensures { result ≡ 64 + 32 * kind_bit kind }
{
    match kind {
        ColumnKind::Plain => 64,
        ColumnKind::Sorted => 96,
    }
}

/// Writes the tail of a column after `blocks` blocks at the start of the slice, and returns its length in bytes. In a sorted column `before`
/// is the value before it.
pub(crate) fn write_tail(
    kind: ColumnKind,
    blocks: usize,
    before: u32,
    tail: &[u32],
    bytes: &mut [u8],
) -> usize
    requires few { length tail.now < BLOCK_LEN }
    requires room { length bytes.old ≡ LONGEST_TAIL }
    ensures tail { take result bytes.new ≡ tail_after kind blocks before tail.now }
    ensures within { result ≤ LONGEST_TAIL }
{
    if tail.is_empty() {
        return 0;
    }
    let mut room = [0; BLOCK_LEN];
    let codes = &mut room[..tail.len()];
    let zeros = left_out(kind, blocks, tail.len());
    match kind {
        ColumnKind::Plain => {
            let (least, _) = bounds(tail);
            take_off(least, tail, codes);
            let end = write_number(least, bytes);
            end + write_groups(&codes[zeros..], &mut bytes[end..])
        }
        ColumnKind::Sorted => {
            take_apart(before, tail, codes);
            write_groups(&codes[zeros..], bytes)
        }
    }
}

/// Writes each value less the one before it, modulo 2 to the power of 32.
fn take_apart(before: u32, values: &[u32], out: &mut [u32])
    requires { length out.old ≡ length values.now }
    ensures { out.new ≡ codes Sorted before values.now }
{
    let mut last = before;
    for index in 0..out.len() {
        let value = values[index];
        out[index] = value.wrapping_sub(last);
        last = value;
    }
}
