//! Combines two slices.

ghost use Rattle.std.specs.Prelude.{◌≡◌, ℕ, None, ◌+◌, ◌^◌, ◌<◌, ◌≤◌, ◌&&◌, ◌==◌, ◌++◌, IfSome, false, true, length, map, nat_lt, slice_index, take};
ghost use Rattle.std.specs.Int.{bit_at};
ghost use Rattle.bitpack_slices.specs.Bitmaps.{has_bit};
ghost use Rattle.bitpack_slices.specs.Bodies.{slice};
ghost use Rattle.bitpack_slices.specs.Operations.{apply, combined, those};
ghost use Rattle.bitpack_slices.specs.Reads.{has};
ghost use Rattle.bitpack_slices.specs.Selections.{bytes_of, matched, numbers_at};
ghost use Rattle.bitpack_slices.specs.Slices.{slice_len};

use crate::bitmap::unpacking::{count_bits, unpack_bits_within};
use crate::bitmap::writing::put_slice_at;
use crate::combined::{combined_words, retains_left, retains_right};
use crate::operation::Operation;
use crate::slice::Slice;
use crate::slice::matches::{bytes_from, matches_in_bits, matches_of_bytes};
use crate::slice::positions::{put_chosen, unpack_chosen};

/// The slices in the order in which the bytes of the first are matched: AND can match the bytes of either.
#[inline(always)]
pub(crate) fn fewer_first<'a>(
    operation: Operation,
    a: Slice<'a>,
    b: Slice<'a>,
) -> (Slice<'a>, Slice<'a>)
    ensures numbers { combined 256 operation (numbers_at result.0) (numbers_at result.1)
        ≡ combined 256 operation (numbers_at a.entry) (numbers_at b.entry) }
{
    match operation {
        Operation::And if a.count >= 32 || b.count < 32 && a.count < b.count => (b, a),
        _ => (a, b),
    }
}

/// The matches of the bytes of a slice that another slice has.
#[inline(always)]
fn matches_of(a: Slice, b: Slice) -> u32
    requires { a.count < 32 }
    ensures { (i : ℕ) → i < 32 → (bit_at result i == 1) ≡ (nat_lt i a.entry.count && has (slice_index (bytes_of a.entry) i) (numbers_at b.entry)) }
{
    let others = b.bytes();
    if b.count < 32 {
        matches_of_bytes(bytes_from(a.slices, a.start), a.count, others)
    } else if b.count < 256 {
        matches_in_bits(bytes_from(a.slices, a.start), a.count, others)
    } else {
        (1 << a.count) - 1
    }
}

/// The matches of the bytes of a slice that an operation with another slice gives: those that it has, or lacks.
#[inline(always)]
fn combined_matches(operation: Operation, a: Slice, b: Slice) -> u32
    requires few { a.count < 32 }
    requires operation { apply operation false true ≡ false }
    ensures matches { result < 2 ^ length (bytes_of a.entry) }
    ensures numbers { matched result (bytes_of a.entry) ≡ combined 256 operation (numbers_at a.entry) (numbers_at b.entry) }
{
    let matches = matches_of(a, b);
    if retains_left(operation) {
        return ((1 << a.count) - 1) & !matches;
    }
    matches
}

/// The bits that an operation on two slices gives.
#[inline(always)]
pub(crate) fn combined_bits(operation: Operation, a: Slice, b: Slice) -> [u64; 4]
    ensures { those 256 (has_bit result) ≡ combined 256 operation (numbers_at a.entry) (numbers_at b.entry) }
{
    combined_words(operation, a.bits(), b.bits())
}

/// Writes the numbers that an operation gives, each with `base` added, if the first slice has all of them. Returns the index after the last.
#[inline(always)]
pub(crate) fn unpack_matches(
    operation: Operation,
    a: Slice,
    b: Slice,
    base: u32,
    out: &mut [u32],
    at: usize,
) -> usize
    requires few { a.count < 32 }
    requires operation { apply operation false true ≡ false }
    requires fits { base + 256 ≤ 2 ^ 32 }
    requires room { at + 32 ≤ length out.old }
    ensures end { result ≡ at + length (combined 256 operation (numbers_at a.entry) (numbers_at b.entry)) }
    ensures values { take result out.new ≡ take at out.old ++ map (λ i. base + i) (combined 256 operation (numbers_at a.entry) (numbers_at b.entry)) }
{
    let matches = combined_matches(operation, a, b);
    let bytes = bytes_from(a.slices, a.start).to_array();
    unpack_chosen(&bytes, matches, base, out, at)
}

/// Writes the numbers that an operation gives if there is room for them, also if there is none for 256. Returns the index after the last.
#[inline(never)]
pub(crate) fn unpack_last(
    operation: Operation,
    a: Slice,
    b: Slice,
    base: u32,
    out: &mut [u32],
    at: usize,
) -> Option<usize>
    requires fits { base + 256 ≤ 2 ^ 32 }
    requires start { at ≤ length out.old }
    ensures room { IfSome result (λ end. end ≤ length out.old) }
    ensures end { IfSome result (λ end. end ≡ at + length (combined 256 operation (numbers_at a.entry) (numbers_at b.entry))) }
    ensures values { IfSome result (λ end. take end out.new ≡ take at out.old ++ map (λ i. base + i) (combined 256 operation (numbers_at a.entry) (numbers_at b.entry))) }
    ensures none { result ≡ None → length out.old < at + length (combined 256 operation (numbers_at a.entry) (numbers_at b.entry)) }
{
    let bits = combined_bits(operation, a, b);
    if out.len() - at < count_bits(&bits) {
        return None;
    }
    Some(unpack_bits_within(&bits, base, out, at))
}

/// How many numbers an operation on two slices gives.
#[inline(always)]
pub(crate) fn count_both<const NUMBER: u8>(operation: Operation, a: Slice, b: Slice) -> usize
    ensures { result ≡ length (combined 256 operation (numbers_at a.entry) (numbers_at b.entry)) }
{
    if b.count == 0 && retains_left(operation) {
        return a.count;
    }
    if a.count == 0 && retains_right(operation) {
        return b.count;
    }
    let (few, other) = fewer_first(operation, a, b);
    if few.count < 32 && !retains_right(operation) {
        return combined_matches(operation, few, other).count_ones() as usize;
    }
    count_bits(&combined_bits(operation, a, b))
}

/// Writes the slice of the numbers that an operation on two slices gives. Returns how many these are, and the index after the last byte.
///
/// Up to 64 bytes after the end may change too.
#[inline(always)]
pub(crate) fn put_both(
    operation: Operation,
    a: Slice,
    b: Slice,
    out: &mut [u8],
    at: usize,
) -> (usize, usize)
    requires room { at + 96 ≤ length out.old }
    ensures count { result.0 ≡ length (combined 256 operation (numbers_at a.entry) (numbers_at b.entry)) }
    ensures end { result.1 ≡ at + slice_len result.0 }
    ensures written { take result.1 out.new ≡ take at out.old ++ slice (combined 256 operation (numbers_at a.entry) (numbers_at b.entry)) }
{
    if b.count == 0 && retains_left(operation) {
        return (a.count, a.copy_bytes(out, at));
    }
    if a.count == 0 && retains_right(operation) {
        return (b.count, b.copy_bytes(out, at));
    }
    if a.count < 32 && !retains_right(operation) {
        let end = put_matches(operation, a, b, out, at);
        return (end - at, end);
    }
    let bits = combined_bits(operation, a, b);
    let count = count_bits(&bits);
    (count, put_slice_at(&bits, count, out, at))
}

/// Writes the numbers that an operation gives as bytes, if the first slice has all of them. Returns the index after the last.
#[inline(always)]
fn put_matches(operation: Operation, a: Slice, b: Slice, out: &mut [u8], at: usize) -> usize
    requires few { a.count < 32 }
    requires operation { apply operation false true ≡ false }
    requires room { at + 32 ≤ length out.old }
    ensures few { result < at + 32 }
    ensures end { result ≡ at + length (combined 256 operation (numbers_at a.entry) (numbers_at b.entry)) }
    ensures values { take result out.new ≡ take at out.old ++ combined 256 operation (numbers_at a.entry) (numbers_at b.entry) }
{
    let matches = combined_matches(operation, a, b);
    let bytes = bytes_from(a.slices, a.start).to_array();
    put_chosen(&bytes, matches, out, at)
}
