//! From lists to their bytes in version 2.

ghost use Rattle.std.specs.Prelude.{◌≡◌, ◌+◌, ◌*◌, ◌^◌, ◌<◌, ◌≤◌, ◌++◌, ℕ, List, length, sum, take, drop, OnOk, OnErr, IfErr, MatchOption, None, vec_len, vec_capacity};
ghost use Rattle.bitpacking.specs.Bits.{AreBytes};
ghost use Rattle.bitpacking.specs.Codes.{codes};
ghost use Rattle.bitpacking.specs.Layout.{Holds, size};
ghost use Rattle.bitpacking.specs.Width.{Fits};
ghost use Rattle.bitpack_lists.specs.Chains.{LeastWidths};
ghost use Rattle.bitpack_lists.specs.Parts.{first_kind, tail_values, whole_blocks};
ghost use Rattle.bitpack_lists.specs.Version2.{List2, first_out, tail_start};
ghost use Rattle.bitpack_lists.specs.inner.Opening.{HasBodies};

use crate::blocks::measuring::{CACHED_WIDTHS, blocks_len, width_of};
use crate::blocks::order;
use crate::blocks::reads::{ENTRY_LEN, Entry, Reads};
use crate::header::{HEADER_LEN, Header, LONGEST_LIST};
use crate::list_error::ListError;
use crate::list_kind::{ListKind, next_kind};
use crate::numbers::write_all;
use crate::reserved::append;
use bitpacking::{BitPacker, Kind, MAX_BLOCK_SIZE};

/// Appends the encoded list of the values, which have to be in the order of their kind: plain values may be in any order, sorted
/// ones do not decrease, and strictly sorted ones increase.
///
/// A list has at most 268,435,456 values. The vector grows at most once.
pub fn encode<P: BitPacker>(
    packer: &P,
    kind: ListKind,
    values: &[u32],
    out: &mut Vec<u8>,
) -> Result<(), ListError>
    // What is appended is the encoded list of the values.
    ensures ok { OnOk result ((encoding : List ℕ) × AreBytes encoding × List2 P.lanes kind values.now encoding
        × (out.new.items ≡ out.old.items ++ encoding)) }
    // Too many values are refused as such, values out of order at the first that is, and others only if memory runs out.
    ensures long { 2 ^ 28 < length values.now → result ≡ Err (ListError.TooLong (length values.now)) }
    // claim: lists2/1-2 version 2: appends the encoded list, or fails with `TooLong`, `NotSorted`, `Memory`; memory rule
    ensures order { length values.now ≤ 2 ^ 28
        → MatchOption (first_out kind values.now) (IfErr result (λ e. e ≡ ListError.Memory))
        (λ position. result ≡ Err (ListError.NotSorted position)) }
    // Memory runs out only if the vector has no room for the encoded list.
    ensures room { length values.now ≤ 2 ^ 28 → first_out kind values.now ≡ None
        → OnErr result ((encoding : List ℕ) → List2 P.lanes kind values.now encoding
        → vec_capacity out.old < vec_len out.old + length encoding) }
    ensures unchanged { OnErr result (out.new.items ≡ out.old.items) }
    ensures capacity { OnErr result (vec_capacity out.new ≡ vec_capacity out.old) }
{
    if values.len() > LONGEST_LIST {
        return Err(ListError::TooLong(values.len()));
    }
    if let Some(position) = order::first_out(kind, 0, 0, values) {
        return Err(ListError::NotSorted(position));
    }
    let mut widths = [0; CACHED_WIDTHS];
    if out
        .reserve(encoding_len(packer, kind, values, &mut widths))
        .is_err()
    {
        return Err(ListError::Memory);
    }
    let count = values.len();
    Header { kind, count }.write(2, P::BLOCK_LEN / 32, out);
    let start = out.len();
    write_entries(packer, kind, values, &widths, out);
    write_bodies(packer, kind, values, start, out, &mut Reads::new());
    write_all(&values[count - count % P::BLOCK_LEN..], out);
    Ok(())
}

/// The length in bytes of the encoded list of the values. Caches the least widths of the first blocks.
fn encoding_len<P: BitPacker>(
    packer: &P,
    kind: ListKind,
    values: &[u32],
    widths: &mut [u8],
) -> usize
    requires few { length values.now ≤ 2 ^ 28 }
    ensures room { HEADER_LEN + ENTRY_LEN * whole_blocks P.lanes (length values.now) ≤ result }
    ensures len { (all : List ℕ) → length all ≡ whole_blocks P.lanes (length values.now)
        → LeastWidths P.lanes (first_kind kind) values.now all
        → result ≡ HEADER_LEN + ENTRY_LEN * whole_blocks P.lanes (length values.now) + 4 * P.lanes * sum all
        + 4 * tail_values P.lanes (length values.now) }
    ensures widths { LeastWidths P.lanes (first_kind kind) values.now
        (take (whole_blocks P.lanes (length values.now)) widths.new) }
{
    let size = HEADER_LEN + blocks_len(packer, kind, values, ENTRY_LEN, widths);
    size + 4 * (values.len() % P::BLOCK_LEN)
}

/// Appends the skip entries of the whole blocks. There is room for them. The widths are the cached ones.
fn write_entries<P: BitPacker>(
    packer: &P,
    kind: ListKind,
    values: &[u32],
    widths: &[u8],
    out: &mut Vec<u8>,
)
    requires few { length values.now ≤ 2 ^ 28 }
    requires widths { LeastWidths P.lanes (first_kind kind) values.now
        (take (whole_blocks P.lanes (length values.now)) widths.now) }
    requires room { vec_len out.old + ENTRY_LEN * whole_blocks P.lanes (length values.now) ≤ vec_capacity out.old }
    ensures entries { HasBodies P.lanes (whole_blocks P.lanes (length values.now)) kind values.now
        (drop (vec_len out.old) out.new.items) 0 }
    ensures front { take (vec_len out.old) out.new.items ≡ out.old.items }
    ensures capacity { vec_capacity out.old ≤ vec_capacity out.new }
{
    let len = P::BLOCK_LEN;
    let mut block_kind = kind.first();
    let mut left = values;
    let mut offset = 0;
    for index in 0..values.len() / len {
        let (block, after) = left.split_at(len);
        let width = width_of(packer, block_kind, block, widths, index);
        let last = block[len - 1];
        Entry {
            width,
            offset,
            last,
        }
        .write(out);
        // At most 2 ^ 23 widths of at most 32: the sum fits its four bytes.
        offset += width as u32;
        block_kind = next_kind(block_kind, last);
        left = after;
    }
}

/// Appends the bodies of the whole blocks. There is room for them. Their skip entries are in the vector, from `start` on.
fn write_bodies<P: BitPacker>(
    packer: &P,
    kind: ListKind,
    values: &[u32],
    start: usize,
    out: &mut Vec<u8>,
    reads: &mut Reads,
)
    requires start { start ≤ vec_len out.old }
    requires entries { HasBodies P.lanes (whole_blocks P.lanes (length values.now)) kind values.now
        (drop start out.old.items) 0 }
    requires room { start + tail_start P.lanes (whole_blocks P.lanes (length values.now)) (drop start out.old.items)
        ≤ vec_capacity out.old }
    ensures bodies { HasBodies P.lanes (whole_blocks P.lanes (length values.now)) kind values.now
        (drop start out.new.items) (whole_blocks P.lanes (length values.now)) }
    ensures front { take start out.new.items ≡ take start out.old.items }
    ensures capacity { vec_capacity out.old ≤ vec_capacity out.new }
{
    let len = P::BLOCK_LEN;
    let mut block_kind = kind.first();
    let mut left = values;
    for index in 0..values.len() / len {
        let entry = reads.read_entry(&out[start..], index);
        let (block, after) = left.split_at(len);
        write_body(packer, block_kind, block, entry.width, out);
        block_kind = next_kind(block_kind, entry.last);
        left = after;
    }
}

/// Appends the bytes that hold a block. There is room for them.
fn write_body<P: BitPacker>(packer: &P, kind: Kind, block: &[u32], width: u8, out: &mut Vec<u8>)
    requires block { length block.now ≡ P.BLOCK_LEN }
    requires narrow { width ≤ 32 }
    requires fits { Fits (codes kind block.now) width }
    requires room { vec_len out.old + size P.lanes width ≤ vec_capacity out.old }
    ensures body { (body : List ℕ) × Holds P.lanes width kind block.now body × (out.new.items ≡ out.old.items ++ body) }
    ensures capacity { vec_capacity out.old ≤ vec_capacity out.new }
{
    let mut body = [0; MAX_BLOCK_SIZE];
    let size = packer.compress_kind(kind, block, &mut body, width);
    append(out, &body[..size]);
}
