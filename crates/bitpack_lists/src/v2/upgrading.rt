//! Converts version 1 lists to version 2. The bytes are untrusted.

ghost use Rattle.std.specs.Prelude.{◌≡◌, ◌+◌, ◌*◌, ◌≤◌, ◌<◌, ◌++◌, ⊤, ℕ, List, length, drop, OnOk, OnErr, IsOk, IfOk, IfErr, MatchOption, vec_len, vec_capacity};
ghost use Rattle.bitpacking.specs.Bits.{AreBytes};
ghost use Rattle.bitpacking.specs.Words.{bytes_of_words};
ghost use Rattle.bitpack_lists.specs.declared.list_kind.ListKind.{ListKind};
ghost use Rattle.bitpack_lists.specs.Parts.{tail_values, whole_blocks};
ghost use Rattle.bitpack_lists.specs.Version1.{IsSound1, List1, fault1};
ghost use Rattle.bitpack_lists.specs.Version2.{List2, first_out, kind_at};
ghost use Rattle.bitpack_lists.specs.inner.Appending.{HasAppended};
ghost use Rattle.bitpack_lists.specs.inner.Opening.{AreEntries, HasBodies};
ghost use Rattle.bitpack_lists.specs.inner.Upgrading.{IsRest1, IsTested1};

use crate::blocks::order::{first_out, first_out_of_words};
use crate::blocks::reads::{ENTRY_LEN, Entry};
use crate::header::{HEADER_LEN, Header};
use crate::list_error::ListError;
use crate::list_kind::ListKind;
use crate::reserved::append;
use crate::v1::reading::{test_version1, unpack_block};
use bitpacking::{BitPacker, Kind, MAX_BLOCK_LEN};

/// Converts a version 1 list to version 2 and appends the result.
///
/// Accepts any bytes, and tests all of them before it appends a byte. Values out of order are refused: the values of a sorted list
/// may not decrease, and the values of a strictly sorted one have to increase. The bodies of the blocks are copied, since they are
/// the same bytes in both versions. The vector grows at most once, by the length of the new list, which has eight bytes more than
/// the old one for each whole block.
pub fn upgrade<P: BitPacker>(packer: &P, bytes: &[u8], out: &mut Vec<u8>) -> Result<(), ListError>
    // The bytes encode some values, and what is appended is the version 2 list of the same.
    ensures ok { OnOk result ((kind : ListKind) × (values : List ℕ) × (encoding : List ℕ)
        × List1 P.lanes kind values bytes.now × AreBytes encoding × List2 P.lanes kind values encoding
        × (out.new.items ≡ out.old.items ++ encoding)) }
    // Bytes with a fault of version 1 are refused for the first, values out of order at the first that is, and others only if
    // memory runs out.
    ensures fault { MatchOption (fault1 P.lanes bytes.now) ⊤ (λ fault. result ≡ Err fault) }
    // claim: lists2/9-10 converts version 1, or fails with its first fault, `NotSorted`, `Memory`; memory rule
    ensures order { (kind : ListKind) (values : List ℕ) → List1 P.lanes kind values bytes.now
        → MatchOption (first_out kind values) (IfErr result (λ e. e ≡ ListError.Memory))
        (λ position. result ≡ Err (ListError.NotSorted position)) }
    // Memory runs out only if the vector has no room for the new list.
    ensures room { (kind : ListKind) (values encoding : List ℕ) → List1 P.lanes kind values bytes.now
        → List2 P.lanes kind values encoding → OnErr result (vec_capacity out.old < vec_len out.old + length encoding) }
    ensures unchanged { OnErr result (out.new.items ≡ out.old.items) }
    ensures capacity { OnErr result (vec_capacity out.new ≡ vec_capacity out.old) }
{
    let header = test_version1(packer, bytes)?;
    let rest = &bytes[HEADER_LEN..];
    if let Err(position) = test_order(packer, header, rest) {
        return Err(ListError::NotSorted(position));
    }
    let blocks = header.count / P::BLOCK_LEN;
    // A version 1 list has one byte instead of each skip entry.
    if out.reserve(bytes.len() + (ENTRY_LEN - 1) * blocks).is_err() {
        return Err(ListError::Memory);
    }
    header.write(2, P::BLOCK_LEN / 32, out);
    write_entries(packer, header, rest, out);
    let tail = copy_bodies::<P>(header, rest, out);
    append(out, tail);
    Ok(())
}

/// Tests the order of the values whose blocks and tail these bytes are. Returns the kind of what follows the blocks, or the first
/// position out of order.
pub(crate) fn test_order<P: BitPacker>(
    packer: &P,
    header: Header,
    bytes: &[u8],
) -> Result<Kind, usize>
    requires tested { IsTested1 P.lanes header.count bytes.now }
    ensures order { (values : List ℕ) → IsRest1 P.lanes header.kind header.count values bytes.now
        → MatchOption (Rattle.bitpack_lists.specs.Version2.first_out header.kind values) (IsOk result)
        (λ position. result ≡ Err position) }
    ensures kind { IfOk result (λ found. (values entries : List ℕ)
        → IsRest1 P.lanes header.kind header.count values bytes.now
        → AreEntries P.lanes (whole_blocks P.lanes header.count) header.kind values entries
        → found ≡ kind_at header.kind entries (whole_blocks P.lanes header.count)) }
{
    let len = P::BLOCK_LEN;
    let blocks = header.count / len;
    let mut kind = header.kind.first();
    let mut rest = bytes;
    let mut last = 0;
    let mut room = [0; MAX_BLOCK_LEN];
    for index in 0..blocks {
        let block = &mut room[..len];
        (kind, rest) = unpack_block(packer, kind, rest, block);
        if let Some(position) = first_out(header.kind, len * index, last, block) {
            return Err(position);
        }
        last = block[len - 1];
    }
    match first_out_of_words(header.kind, len * blocks, last, rest, header.count % len) {
        Some(position) => Err(position),
        None => Ok(kind),
    }
}

/// Appends a skip entry for each whole block. There is room for them.
pub(crate) fn write_entries<P: BitPacker>(
    packer: &P,
    header: Header,
    bytes: &[u8],
    out: &mut Vec<u8>,
)
    requires tested { IsTested1 P.lanes header.count bytes.now }
    requires room { vec_len out.old + ENTRY_LEN * whole_blocks P.lanes header.count ≤ vec_capacity out.old }
    ensures entries { (values : List ℕ) → IsRest1 P.lanes header.kind header.count values bytes.now
        → (entries : List ℕ) × HasBodies P.lanes (whole_blocks P.lanes header.count) header.kind values entries 0
        × (out.new.items ≡ out.old.items ++ entries) }
    ensures len { vec_len out.new ≡ vec_len out.old + ENTRY_LEN * whole_blocks P.lanes header.count }
    ensures capacity { vec_capacity out.old ≤ vec_capacity out.new }
{
    let len = P::BLOCK_LEN;
    let mut kind = header.kind.first();
    let mut rest = bytes;
    let mut offset = 0;
    let mut room = [0; MAX_BLOCK_LEN];
    for _ in 0..header.count / len {
        let width = rest[0];
        let block = &mut room[..len];
        (kind, rest) = unpack_block(packer, kind, rest, block);
        let last = block[len - 1];
        Entry {
            width,
            offset,
            last,
        }
        .write(out);
        // At most 2 ^ 23 widths of at most 32: the sum fits its four bytes.
        offset += width as u32;
    }
}

/// Appends the bodies of the whole blocks, if there is room for them, and returns the tail.
pub(crate) fn copy_bodies<'a, P: BitPacker>(
    header: Header,
    bytes: &'a [u8],
    out: &mut Vec<u8>,
) -> &'a [u8]
    requires sound { IsSound1 P.lanes header.count bytes.now }
    requires room { vec_len out.old + length bytes.now
        ≤ vec_capacity out.old + whole_blocks P.lanes header.count + 4 * tail_values P.lanes header.count }
    ensures bodies { (values entries : List ℕ) → IsRest1 P.lanes header.kind header.count values bytes.now
        → HasBodies P.lanes (whole_blocks P.lanes header.count) header.kind values entries 0
        → (later : List ℕ) × HasBodies P.lanes (whole_blocks P.lanes header.count) header.kind values (entries ++ later)
        (whole_blocks P.lanes header.count) × HasAppended out.old out.new later
        × (result.now ≡ bytes_of_words (drop (32 * P.lanes * whole_blocks P.lanes header.count) values)) }
    ensures len { vec_len out.new + length result.now + whole_blocks P.lanes header.count
        ≡ vec_len out.old + length bytes.now }
{
    let mut rest = bytes;
    for _ in 0..header.count / P::BLOCK_LEN {
        let end = 1 + P::compressed_block_size(rest[0]);
        append(out, &rest[1..end]);
        rest = &rest[end..];
    }
    rest
}
