//! Groups of 1 to 32 codes: a width, and the first bytes of a block of one lane that holds the codes and then zeros.
//!
//! FORMAT.md, "Groups":
//!
//! ```text
//! the least width b, a byte | (k * b + 7) / 8 bytes: k codes of b bits, end to end
//! ```

ghost use Rattle.std.specs.Prelude.{◌≡◌, true, ℕ, List, ◌+◌, ◌*◌, ◌/◌, ◌^◌, ◌<◌, ◌≤◌, ◌∷◌, IfOk, OnOk, drop, length, slice_index, take};
ghost use Rattle.bitpacking.specs.Bits.{AreBytes};
ghost use Rattle.bitpacking.specs.Layout.{codes_of};
ghost use Rattle.bitpacking.specs.Width.{Fits};
ghost use Rattle.bitpack_groups.specs.Groups.{IsGroup, all_codes, are_zeros, body_of, group_codes, group_end, group_fault};
ghost use Rattle.bitpack_groups.specs.Faults.{FindsFault};

use crate::group_error::GroupError;
use crate::widths::{fits_less, least_width};
use bitpacking::{BitPacker, BitPacker1x};

/// The most codes of a group.
pub const LONGEST_GROUP: usize = 32;

/// The most bytes of a body of one lane: 32 codes at 32 bits each.
const LONGEST_GROUP_BODY: usize = 128;

/// Tests the group of `count` codes at the front of the bytes, which is block number `block`, and returns how many bytes it has. Its codes are
/// the first of `codes`; after a refusal these may be any.
pub fn test_group(
    block: usize,
    count: usize,
    bytes: &[u8],
    codes: &mut [u32],
) -> Result<usize, GroupError>
    requires some { 1 ≤ count }
    requires count { count ≤ LONGEST_GROUP }
    requires room { length codes.old ≡ LONGEST_GROUP }
    ensures fault { FindsFault result (group_fault block count bytes.now) }
    ensures codes { OnOk result (take count codes.new ≡ group_codes count bytes.now) }
    ensures end { IfOk result (λ end. end ≡ group_end count bytes.now) }
    ensures within { IfOk result (λ end. end ≤ length bytes.now) }
    ensures narrow { OnOk result (slice_index bytes.now 0 ≤ 32) }
    ensures fits { OnOk result (Fits (group_codes count bytes.now) (slice_index bytes.now 0)) }
{
    let [width, rest @ ..] = bytes else {
        return Err(GroupError::Short);
    };
    let width = *width;
    if width > 32 {
        return Err(GroupError::BadWidth(block, width));
    }
    if rest.len() < group_size(count, width) {
        return Err(GroupError::Short);
    }
    let end = unpack_group(count, bytes, codes);
    let totals = add_group(count, codes);
    if fits_less(width, totals.bits) {
        return Err(GroupError::LooseWidth(block, width));
    }
    if totals.later > 0 {
        return Err(GroupError::Padding);
    }
    Ok(end)
}

/// The codes of a group together: each bit that one of them has, and each bit after them.
#[derive(Clone, Copy)]
struct GroupTotals {
    bits: u32,
    later: u32,
}

/// The first `count` codes together, and those after them. No branch depends on a code, and the loop always has 32 steps, so that the
/// compiler joins several at once.
#[inline(always)]
fn add_group(count: usize, codes: &[u32]) -> GroupTotals
    requires count { count ≤ LONGEST_GROUP }
    requires room { length codes.now ≡ LONGEST_GROUP }
    ensures above { (width : ℕ) → result.bits < 2 ^ width → Fits (take count codes.now) width }
    ensures below { (width : ℕ) → Fits (take count codes.now) width → result.bits < 2 ^ width }
    ensures zeros { result.later ≡ 0 → are_zeros (drop count codes.now) ≡ true }
    ensures later { are_zeros (drop count codes.now) ≡ true → result.later ≡ 0 }
{
    let mut bits = 0;
    let mut later = 0;
    for index in 0..LONGEST_GROUP {
        let code = codes[index];
        let own = if_below(index as u32, count as u32, code);
        bits |= own;
        later |= code - own;
    }
    GroupTotals { bits, later }
}

/// A code if its index is below a count, else 0. These have as many bits as the code, so that the compiler compares as many at once.
#[inline(always)]
fn if_below(index: u32, count: u32, code: u32) -> u32
    ensures below { index < count → result ≡ code }
    ensures above { count ≤ index → result ≡ 0 }
{
    if index < count { code } else { 0 }
}

/// Unpacks the group of `count` codes at the front of the bytes, and returns how many bytes it has. Its codes are the first of
/// `codes`.
pub fn unpack_group(count: usize, bytes: &[u8], codes: &mut [u32]) -> usize
    requires count { count ≤ LONGEST_GROUP }
    requires room { length codes.old ≡ LONGEST_GROUP }
    requires width { slice_index bytes.now 0 ≤ 32 }
    requires within { group_end count bytes.now ≤ length bytes.now }
    ensures codes { codes.new ≡ all_codes count (slice_index bytes.now 0) (drop 1 bytes.now) }
    ensures end { result ≡ group_end count bytes.now }
    ensures end_within { result ≤ length bytes.now }
{
    let width = bytes[0];
    let end = 1 + group_size(count, width);
    unpack_cut(width, &bytes[1..end], codes);
    end
}

/// Writes the group of the codes at the start of the slice, and returns its length.
pub fn write_group(codes: &[u32], bytes: &mut [u8]) -> usize
    requires some { 1 ≤ length codes.now }
    requires count { length codes.now ≤ LONGEST_GROUP }
    requires room { (part : List ℕ) → IsGroup codes.now part → length part ≤ length bytes.old }
    ensures within { result ≤ length bytes.new }
    ensures bytes { AreBytes (take result bytes.new) }
    // claim: groups/4-5 reads and writes groups; other bytes of the slice may change
    ensures group { IsGroup codes.now (take result bytes.new) }
{
    let width = least_width(codes);
    let mut block = [0; LONGEST_GROUP];
    block[..codes.len()].copy_from_slice(codes);
    let mut body = [0; LONGEST_GROUP_BODY];
    BitPacker1x::new().compress(&block, &mut body, width);
    write_cut(width, group_size(codes.len(), width), &body, bytes)
}

/// Writes the width and the first bytes of the body, up to `size`, at the start of the slice, and returns how many they are.
fn write_cut(width: u8, size: usize, body: &[u8], bytes: &mut [u8]) -> usize
    requires size { size ≤ length body.now }
    requires room { 1 + size ≤ length bytes.old }
    ensures len { result ≡ 1 + size }
    ensures bytes { AreBytes body.now }
    ensures cut { take result bytes.new ≡ width ∷ take size body.now }
{
    bytes[0] = width;
    bytes[1..1 + size].copy_from_slice(&body[..size]);
    1 + size
}

/// How many bytes hold `count` codes of a width.
pub fn group_size(count: usize, width: u8) -> usize
    requires count { count ≤ LONGEST_GROUP }
    requires width { width ≤ 32 }
    ensures size { result ≡ Rattle.bitpack_groups.specs.Groups.group_size count width }
    ensures few { result ≤ 4 * width }
{
    (count * width as usize + 7) / 8
}

/// Unpacks the body that begins with these bytes and goes on with zeros.
fn unpack_cut(width: u8, cut: &[u8], codes: &mut [u32])
    requires width { width ≤ 32 }
    requires cut { length cut.now ≤ 4 * width }
    requires room { length codes.old ≡ LONGEST_GROUP }
    ensures { codes.new ≡ codes_of 1 width (body_of width cut.now) }
{
    let mut body = [0; LONGEST_GROUP_BODY];
    body[..cut.len()].copy_from_slice(cut);
    BitPacker1x::new().decompress(&body, codes, width);
}
