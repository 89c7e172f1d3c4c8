//! From bytes to lists. The bytes are untrusted.

ghost use Rattle.std.specs.Prelude.{◌≡◌, ◌+◌, ◌-◌, ◌*◌, ◌<◌, ◌≤◌, ◌/◌, ◌%◌, ◌++◌, ℕ, List, length, slice_index, OnOk, OnErr, IfOk, IfErr, MatchOption, None, vec_len, vec_capacity};
ghost use Rattle.bitpacking.specs.Codes.{AreWords};
ghost use Rattle.bitpack_lists.specs.inner.Appending.{HasAppended};
ghost use Rattle.bitpack_lists.specs.Parts.{BeginsWithHeader, FindsFault, count_of, first_kind, whole_blocks};
ghost use Rattle.bitpack_lists.specs.Version1.{Blocks1, IsRead1, IsRight, IsSound1, List1, after_block1, block_fault1, blocks_fault1, fault1};

use crate::blocks::testing::fits_smaller;
use crate::header::{HEADER_LEN, Header};
use crate::list_error::ListError;
use crate::list_kind::{ListKind, next_kind};
use crate::numbers::read_all;
use crate::reserved::append_zeros;
use bitpacking::{BitPacker, Kind};

/// Appends the values of an encoded list and returns its kind.
///
/// Any bytes are accepted. All bytes are tested before a value is appended, and the vector grows at most once, by as many
/// values as the list has: at most 32 for each lane and byte.
pub fn decode<P: BitPacker>(
    packer: &P,
    bytes: &[u8],
    out: &mut Vec<u32>,
) -> Result<ListKind, ListError>
    // The bytes encode these values, which are appended to what the vector held.
    ensures ok { IfOk result (λ kind. (values : List ℕ) × List1 P.lanes kind values bytes.now
        × (out.new.items ≡ out.old.items ++ values)) }
    // Bytes with a fault are refused for the first, and bytes without one only if memory runs out.
    // claim: lists/3-7 version 1: appends the values of a list, or fails with the first fault, `Memory`; memory rule
    ensures err { MatchOption (fault1 P.lanes bytes.now)
        (IfErr result (λ e. e ≡ ListError.Memory)) (λ fault. result ≡ Err fault) }
    // Memory runs out only if the vector has no room for the values.
    ensures room { fault1 P.lanes bytes.now ≡ None
        → OnErr result (vec_capacity out.old < vec_len out.old + count_of bytes.now) }
    ensures unchanged { OnErr result (out.new.items ≡ out.old.items) }
    // A refusal allocates nothing either, whatever the header promises.
    ensures capacity { OnErr result (vec_capacity out.new ≡ vec_capacity out.old) }
{
    let header = test_version1(packer, bytes)?;
    if out.reserve(header.count).is_err() {
        return Err(ListError::Memory);
    }
    read_blocks(packer, header, &bytes[HEADER_LEN..], out);
    Ok(header.kind)
}

/// Tests all bytes.
pub(crate) fn test_version1<P: BitPacker>(packer: &P, bytes: &[u8]) -> Result<Header, ListError>
    ensures fault { FindsFault result (fault1 P.lanes bytes.now) }
    ensures header { IfOk result (λ header. BeginsWithHeader 1 P.lanes header.kind header.count bytes.now) }
    ensures long { OnOk result (HEADER_LEN ≤ length bytes.now) }
{
    let len = P::BLOCK_LEN;
    let header = Header::test(1, len / 32, bytes)?;
    let blocks = header.count / len;
    let tail = 4 * (header.count % len);
    let rest = &bytes[HEADER_LEN..];
    if rest.len() < blocks + tail {
        return Err(ListError::Short);
    }
    test_chain(packer, blocks, tail, rest)?;
    Ok(header)
}

/// Tests the blocks and how many bytes follow them.
fn test_chain<P: BitPacker>(
    packer: &P,
    blocks: usize,
    tail: usize,
    bytes: &[u8],
) -> Result<(), ListError>
    ensures { FindsFault result (blocks_fault1 P.lanes tail 0 blocks bytes.now) }
{
    let mut rest = bytes;
    for block in 0..blocks {
        rest = test_first_block(packer, block, rest)?;
    }
    if rest.len() < tail {
        return Err(ListError::Short);
    }
    if rest.len() > tail {
        return Err(ListError::Trailing);
    }
    Ok(())
}

/// Tests the block at the front of the bytes, and returns the bytes after it.
fn test_first_block<'a, P: BitPacker>(
    packer: &P,
    block: usize,
    bytes: &'a [u8],
) -> Result<&'a [u8], ListError>
    ensures fault { FindsFault result (block_fault1 P.lanes block bytes.now) }
    ensures rest { IfOk result (λ rest. rest.now ≡ after_block1 P.lanes bytes.now) }
{
    let [width, rest @ ..] = bytes else {
        return Err(ListError::Short);
    };
    let width = *width;
    if width > 32 {
        return Err(ListError::BadWidth(block, width));
    }
    let size = P::compressed_block_size(width);
    if rest.len() < size {
        return Err(ListError::Short);
    }
    let (body, rest) = rest.split_at(size);
    if fits_smaller(P::BLOCK_LEN / 32, width, body) {
        return Err(ListError::LooseWidth(block, width));
    }
    Ok(rest)
}

/// Appends the values of blocks and tail that were tested. There is room for them.
pub(crate) fn read_blocks<P: BitPacker>(
    packer: &P,
    header: Header,
    bytes: &[u8],
    out: &mut Vec<u32>,
)
    requires sound { IsSound1 P.lanes header.count bytes.now }
    requires room { vec_len out.old + header.count ≤ vec_capacity out.old }
    ensures { (values : List ℕ) → AreWords values
        → Blocks1 P.lanes (whole_blocks P.lanes header.count) (first_kind header.kind) values bytes.now
        → out.new.items ≡ out.old.items ++ values }
{
    let blocks = header.count / P::BLOCK_LEN;
    let mut kind = header.kind.first();
    let mut rest = bytes;
    for _ in 0..blocks {
        (kind, rest) = read_block(packer, kind, rest, out);
    }
    read_all(rest, out);
}

/// Appends the values of the block at the front of the bytes. Returns the kind of the block after it, and the bytes there.
#[inline(always)]
fn read_block<'a, P: BitPacker>(
    packer: &P,
    kind: Kind,
    bytes: &'a [u8],
    out: &mut Vec<u32>,
) -> (Kind, &'a [u8])
    requires right { IsRight P.lanes bytes.now }
    requires room { vec_len out.old + P.BLOCK_LEN ≤ vec_capacity out.old }
    ensures block { (block : List ℕ) × HasAppended out.old out.new block
        × IsRead1 P.lanes kind block bytes.now result.0 result.1.now }
{
    let from = out.len();
    append_zeros(out, 0, P::BLOCK_LEN);
    unpack_block(packer, kind, bytes, out.slice_mut(from..))
}

/// Unpacks the block at the front of the bytes. Returns the kind of the block after it, and the bytes there.
#[inline(always)]
pub(crate) fn unpack_block<'a, P: BitPacker>(
    packer: &P,
    kind: Kind,
    bytes: &'a [u8],
    block: &mut [u32],
) -> (Kind, &'a [u8])
    requires right { IsRight P.lanes bytes.now }
    requires whole { length block.old ≡ P.BLOCK_LEN }
    ensures block { IsRead1 P.lanes kind block.new bytes.now result.0 result.1.now }
{
    let size = packer.decompress_kind(kind, &bytes[1..], block, bytes[0]);
    (next_kind(kind, last_value(block)), &bytes[1 + size..])
}

/// The last value of a block. Values that are read are words.
#[inline(always)]
fn last_value(block: &[u32]) -> u32
    requires { 0 < length block.now }
    ensures last { result ≡ slice_index block.now (length block.now - 1) }
    ensures words { AreWords block.now }
{
    block[block.len() - 1]
}
