//! Testing the skip entries and the bodies of whole blocks.

ghost use Rattle.std.specs.Prelude.{◌≡◌, ◌+◌, ◌-◌, ◌*◌, ◌^◌, ◌<◌, ◌≤◌, ◌&&◌, ℕ, List, length, nat_lt, slice_index, sum, IfOk, None, ◌/◌, ◌%◌, Decides};
ghost use Rattle.bitpacking.specs.declared.kind.Kind.{Kind};
ghost use Rattle.bitpacking.specs.Codes.{values_of};
ghost use Rattle.bitpacking.specs.Layout.{codes_of};
ghost use Rattle.bitpacking.specs.Width.{Fits};
ghost use Rattle.bitpack_lists.specs.Parts.{FindsFault, IsBody, whole_blocks, is_loose};
ghost use Rattle.bitpack_lists.specs.Version2.{block_fault2, blocks_fault, body_fault2, entry_fault2, first_fault, is_out, least_below, short_of, tail_start, value_with, widths_before};
ghost use Rattle.bitpacking.specs.Bits.{bit_of};

use super::order::{ends_in_order, first_out};
use super::reads::{ENTRY_LEN, Entry, Reads};
use crate::header::Header;
use crate::list_error::ListError;
use crate::list_kind::next_kind;
use bitpacking::{BitPacker, Kind, MAX_BLOCK_LEN};

/// What the test of the blocks leaves: where their bodies end, the last value, and the first position out of order.
#[derive(Clone, Copy)]
pub(crate) struct TestedBlocks {
    pub(crate) end: usize,
    pub(crate) last: u32,
    pub(crate) out: Option<usize>,
}

/// Tests the blocks of a list, after which come this many bytes or more.
pub(crate) fn test_blocks<P: BitPacker>(
    packer: &P,
    header: Header,
    tail: usize,
    rest: &[u8],
    reads: &mut Reads,
) -> Result<TestedBlocks, ListError>
    requires count { header.count ≤ 2 ^ 28 }
    requires tail { tail ≤ 4 * header.count }
    ensures fault { FindsFault result
        (blocks_fault P.lanes (whole_blocks P.lanes header.count) tail header.kind rest.now) }
    ensures end { IfOk result (λ tested. tested.end
        ≡ tail_start P.lanes (whole_blocks P.lanes header.count) rest.now) }
    ensures room { IfOk result (λ tested. tested.end + tail ≤ length rest.now) }
    // Whatever values follow.
    ensures last { IfOk result (λ tested. (later : ℕ → ℕ) → 0 < whole_blocks P.lanes header.count
        → value_with P.lanes (whole_blocks P.lanes header.count) header.kind rest.now later
        (32 * P.lanes * whole_blocks P.lanes header.count - 1) ≡ tested.last) }
    ensures out { IfOk result (λ tested. (later : ℕ → ℕ) → tested.out ≡ least_below
        (is_out header.kind (value_with P.lanes (whole_blocks P.lanes header.count) header.kind rest.now later))
        (32 * P.lanes * whole_blocks P.lanes header.count)) }
{
    let len = P::BLOCK_LEN;
    let blocks = header.count / len;
    test_room(rest, ENTRY_LEN * blocks + tail)?;
    let widths = test_entries(rest, blocks, reads)?;
    let end = ENTRY_LEN * blocks + len / 8 * widths;
    test_room(rest, end + tail)?;
    let (last, out) = test_bodies(packer, header, rest, reads)?;
    Ok(TestedBlocks { end, last, out })
}

/// Tests that there are at least `end` bytes.
pub(crate) fn test_room(bytes: &[u8], end: usize) -> Result<(), ListError>
    ensures { FindsFault result (short_of end bytes.now) }
{
    if bytes.len() < end {
        return Err(ListError::Short);
    }
    Ok(())
}

/// Tests the skip entries of all blocks, and returns the sum of their widths.
fn test_entries(rest: &[u8], blocks: usize, reads: &mut Reads) -> Result<usize, ListError>
    requires few { blocks ≤ 2 ^ 28 }
    requires room { ENTRY_LEN * blocks ≤ length rest.now }
    ensures fault { FindsFault result (first_fault (entry_fault2 rest.now) blocks) }
    ensures widths { IfOk result (λ widths. widths ≡ widths_before rest.now blocks) }
    ensures few { IfOk result (λ widths. widths ≤ 32 * blocks) }
{
    let mut widths = 0;
    for block in 0..blocks {
        let entry = reads.read_entry(rest, block);
        if entry.width > 32 {
            return Err(ListError::BadWidth(block, entry.width));
        }
        if entry.offset as usize != widths {
            return Err(ListError::BadOffset(block));
        }
        widths += entry.width as usize;
    }
    Ok(widths)
}

/// Tests the bodies of the blocks, whose skip entries were tested. Returns the last value of the last block, and the first position out
/// of order in the blocks.
fn test_bodies<P: BitPacker>(
    packer: &P,
    header: Header,
    rest: &[u8],
    reads: &mut Reads,
) -> Result<(u32, Option<usize>), ListError>
    requires few { header.count ≤ 2 ^ 28 }
    requires entries { first_fault (entry_fault2 rest.now) (whole_blocks P.lanes header.count) ≡ None }
    requires room { tail_start P.lanes (whole_blocks P.lanes header.count) rest.now ≤ length rest.now }
    ensures fault { FindsFault result
        (first_fault (body_fault2 P.lanes (whole_blocks P.lanes header.count) header.kind rest.now)
        (whole_blocks P.lanes header.count)) }
    ensures last { IfOk result (λ found. (later : ℕ → ℕ) → 0 < whole_blocks P.lanes header.count
        → value_with P.lanes (whole_blocks P.lanes header.count) header.kind rest.now later
        (32 * P.lanes * whole_blocks P.lanes header.count - 1) ≡ found.0) }
    ensures out { IfOk result (λ found. (later : ℕ → ℕ) → found.1 ≡ least_below
        (is_out header.kind (value_with P.lanes (whole_blocks P.lanes header.count) header.kind rest.now later))
        (32 * P.lanes * whole_blocks P.lanes header.count)) }
{
    let len = P::BLOCK_LEN;
    let blocks = header.count / len;
    let mut kind = header.kind.first();
    if blocks == 0 {
        return Ok((0, None));
    }
    let mut last = 0;
    let mut out = None;
    let mut room = [0; MAX_BLOCK_LEN];
    for block in 0..blocks {
        let entry = reads.read_entry(rest, block);
        reads.unpack_body(packer, Kind::Plain, entry, blocks, rest, &mut room);
        test_block(block, entry, kind, &room[..len])?;
        if !ends_in_order(kind, entry.width, len, entry.last) {
            reads.unpack_body(packer, kind, entry, blocks, rest, &mut room);
            out = out.or(first_out(header.kind, block * len, last, &room[..len]));
        }
        last = entry.last;
        kind = next_kind(kind, last);
    }
    Ok((last, out))
}

/// Tests that the width of a block is the least of its codes, and that the block, of this kind, ends with the value of its skip
/// entry.
pub(crate) fn test_block(
    block: usize,
    entry: Entry,
    kind: Kind,
    codes: &[u32],
) -> Result<(), ListError>
    requires { (entry.width ≤ 32) × (1 ≤ length codes.now) × (length codes.now ≤ MAX_BLOCK_LEN) }
    ensures { (lanes : ℕ) (body : List ℕ) → length codes.now ≡ 32 * lanes
        → codes.now ≡ codes_of lanes entry.width body
        → FindsFault result (block_fault2 lanes kind block entry.width entry.last body) }
{
    let totals = add_codes(codes);
    if fits_less(entry.width, totals.bits) {
        return Err(ListError::LooseWidth(block, entry.width));
    }
    if last_value(kind, codes, totals.sum) != entry.last {
        return Err(ListError::BadLast(block));
    }
    Ok(())
}

/// The codes of a block together: their sum modulo 2 ^ 32, and each bit that one of them has.
#[derive(Clone, Copy)]
pub(crate) struct Totals {
    pub(crate) sum: u32,
    pub(crate) bits: u32,
}

/// The codes together. No branch depends on a code, so that the compiler adds several at once.
#[inline(always)]
pub(crate) fn add_codes(codes: &[u32]) -> Totals
    ensures sum { result.sum ≡ sum codes.now % 2 ^ 32 }
    ensures above { (width : ℕ) → result.bits < 2 ^ width → Fits codes.now width }
    ensures below { (width : ℕ) → Fits codes.now width → result.bits < 2 ^ width }
{
    let mut sum: u32 = 0;
    let mut bits = 0;
    for index in 0..codes.len() {
        sum = sum.wrapping_add(codes[index]);
        bits |= codes[index];
    }
    Totals { sum, bits }
}

/// Whether codes with these bits fit a smaller width.
pub(crate) fn fits_less(width: u8, bits: u32) -> bool
    requires { width ≤ 32 }
    ensures { result ≡ (nat_lt 0 width && nat_lt bits (2 ^ (width - 1))) }
{
    width > 0 && bits < 1 << (width - 1)
}

/// The last value of the block of this kind that has these codes, with this sum.
pub(crate) fn last_value(kind: Kind, codes: &[u32], total: u32) -> u32
    requires codes { (1 ≤ length codes.now) × (length codes.now ≤ MAX_BLOCK_LEN) }
    requires total { total ≡ sum codes.now % 2 ^ 32 }
    ensures { result ≡ slice_index (values_of kind codes.now) (length codes.now - 1) }
{
    match kind {
        Kind::Plain => codes[codes.len() - 1],
        Kind::Sorted(initial) => initial.wrapping_add(total),
        Kind::StrictlySorted(initial) => {
            let start = initial.unwrap_or(u32::MAX);
            start.wrapping_add(total).wrapping_add(codes.len() as u32)
        }
    }
}

/// Whether the codes of a body fit a smaller width: none of them has the highest bit of this one. In most bodies one of the first
/// codes has it.
#[inline(always)]
pub(crate) fn fits_smaller(lanes: usize, width: u8, body: &[u8]) -> bool
    requires { IsBody lanes width body.now }
    ensures { result ≡ is_loose lanes width body.now }
{
    if width == 0 {
        return false;
    }
    let width = width as usize;
    for row in 0..32 {
        if has_bit(lanes, row * width + (width - 1), body) {
            return false;
        }
    }
    true
}

/// Whether some lane has this bit.
#[inline(always)]
fn has_bit(lanes: usize, bit: usize, body: &[u8]) -> bool
    requires lanes { lanes ≤ 8 }
    requires bit { bit < 32 * 32 }
    requires room { 4 * (lanes * (bit / 32)) + 4 * lanes ≤ length body.now }
    ensures { Decides result ((lane : ℕ) × (lane < lanes)
        × (bit_of body.now (32 * (lanes * (bit / 32) + lane) + bit % 32) ≡ 1)) }
{
    let from = 4 * (lanes * (bit / 32)) + bit % 32 / 8;
    let mut bytes = 0;
    for lane in 0..lanes {
        bytes |= body[from + 4 * lane];
    }
    bytes >> (bit % 8) & 1 == 1
}
