//! Combines two bodies of blocks.

ghost use Rattle.std.specs.Prelude.{◌≡◌, ℕ, None, ◌+◌, ◌^◌, ◌<◌, ◌≤◌, ◌==◌, ◌++◌, IfSome, true, false, length, map, take};
ghost use Rattle.std.specs.Int.{bit_at};
ghost use Rattle.bitpack_slices.specs.Bitmaps.{has_bit};
ghost use Rattle.bitpack_slices.specs.Operations.{apply, combined};
ghost use Rattle.bitpack_slices.specs.Selections.{answer_with, parts_numbers, word_highs};

use crate::bitmap::unpacking::{count_bits, unpack_bits};
use crate::blocks::Blocks;
use crate::chunk::parts::Parts;
use crate::combined::{combined_words, possible_highs, retains_left, retains_right};
use crate::operation::Operation;
use crate::slice::reading::words_of;
use crate::slice::selecting::{
    combined_bits, count_both, fewer_first, unpack_last, unpack_matches,
};

/// Writes the numbers that an operation on two bodies gives, each with `base` added. Returns the index after the last, or `None` if there is no
/// room.
pub(crate) fn unpack_combined(
    operation: Operation,
    a: &Blocks,
    b: &Blocks,
    base: u32,
    out: &mut [u32],
    at: usize,
) -> Option<usize>
    requires fits { base + 65536 ≤ 2 ^ 32 }
    requires start { at ≤ length out.old }
    ensures end { IfSome result (λ end. end ≡ at + length (combined 65536 operation (parts_numbers a.now) (parts_numbers b.now))) }
    ensures values { IfSome result (λ end. take end out.new ≡ take at out.old ++ map (λ i. base + i) (combined 65536 operation (parts_numbers a.now) (parts_numbers b.now))) }
    ensures room { IfSome result (λ end. end ≤ length out.old) }
    ensures none { result ≡ None → length out.old < at + length (combined 65536 operation (parts_numbers a.now) (parts_numbers b.now)) }
{
    match operation {
        Operation::And => unpack_each::<0>(Operation::And, a, b, base, out, at),
        Operation::Or => unpack_each::<1>(Operation::Or, a, b, base, out, at),
        Operation::AndNot => unpack_each::<2>(Operation::AndNot, a, b, base, out, at),
        Operation::Xor => unpack_each::<3>(Operation::Xor, a, b, base, out, at),
    }
}

/// Writes the numbers that `unpack_combined` writes, for an operation that the caller names. Each operation has a number of its own, so that the
/// compiler makes code of its own for it.
/// `inline(always)` is not enough: the compiler drops it from a function as large as `unpack_word`.
#[inline(always)]
fn unpack_each<const NUMBER: u8>(
    operation: Operation,
    a: &Blocks,
    b: &Blocks,
    base: u32,
    out: &mut [u32],
    at: usize,
) -> Option<usize>
    requires fits { base + 65536 ≤ 2 ^ 32 }
    requires start { at ≤ length out.old }
    ensures end { IfSome result (λ end. end ≡ at + length (combined 65536 operation (parts_numbers a.now) (parts_numbers b.now))) }
    ensures values { IfSome result (λ end. take end out.new ≡ take at out.old ++ map (λ i. base + i) (combined 65536 operation (parts_numbers a.now) (parts_numbers b.now))) }
    ensures room { IfSome result (λ end. end ≤ length out.old) }
    ensures none { result ≡ None → length out.old < at + length (combined 65536 operation (parts_numbers a.now) (parts_numbers b.now)) }
{
    let occur = possible_highs(operation, &a.highs, &b.highs);
    let mut next = at;
    for word in 0..4 {
        next = unpack_word::<NUMBER>(operation, a, b, 64 * word, occur[word], base, out, next)?;
    }
    Some(next)
}

/// Writes the numbers whose high bytes are bits of a word. Its bit 0 is the high byte `first`. Returns the index after the last.
#[inline(always)]
fn unpack_word<const NUMBER: u8>(
    operation: Operation,
    a: &Blocks,
    b: &Blocks,
    first: usize,
    word: u64,
    base: u32,
    out: &mut [u32],
    at: usize,
) -> Option<usize>
    requires within { first + 64 ≤ 256 }
    requires in_left { apply operation false true ≡ false → (i : ℕ) → i < 64 → (bit_at word i == 1) ≡ true → has_bit a.now.highs (first + i) ≡ true }
    requires in_right { apply operation true false ≡ false → (i : ℕ) → i < 64 → (bit_at word i == 1) ≡ true → has_bit b.now.highs (first + i) ≡ true }
    requires fits { base + 65536 ≤ 2 ^ 32 }
    requires start { at ≤ length out.old }
    ensures end { IfSome result (λ end. end ≡ at + length (answer_with (word_highs first word) operation a.now b.now)) }
    ensures values { IfSome result (λ end. take end out.new ≡ take at out.old ++ map (λ i. base + i) (answer_with (word_highs first word) operation a.now b.now)) }
    ensures room { IfSome result (λ end. end ≤ length out.old) }
    ensures none { result ≡ None → length out.old < at + length (answer_with (word_highs first word) operation a.now b.now) }
{
    let mut next = at;
    let mut left = word;
    while left != 0 {
        let high = first + left.trailing_zeros() as usize;
        let x = a.slice_of(high, !retains_right(operation));
        let y = b.slice_of(high, !retains_left(operation));
        let start = base + 256 * high as u32;
        let (few, other) = fewer_first(operation, x, y);
        next = if out.len() - next < 256 {
            unpack_last(operation, x, y, start, out, next)?
        } else if y.count == 0 && retains_left(operation) {
            x.unpack(start, out, next)
        } else if x.count == 0 && retains_right(operation) {
            y.unpack(start, out, next)
        } else if few.count < 32 && !retains_right(operation) {
            unpack_matches(operation, few, other, start, out, next)
        } else {
            unpack_bits(&combined_bits(operation, x, y), start, out, next)
        };
        left &= left.wrapping_sub(1);
    }
    Some(next)
}

/// How many numbers an operation on two bodies gives.
pub(crate) fn count_combined(operation: Operation, a: &Blocks, b: &Blocks) -> usize
    ensures { result ≡ length (combined 65536 operation (parts_numbers a.now) (parts_numbers b.now)) }
{
    match operation {
        Operation::And => count_each::<0>(Operation::And, a, b),
        Operation::Or => count_each::<1>(Operation::Or, a, b),
        Operation::AndNot => count_each::<2>(Operation::AndNot, a, b),
        Operation::Xor => count_each::<3>(Operation::Xor, a, b),
    }
}

/// Counts the numbers that an operation on two bodies gives, for an operation that the caller names. It has a number of its own here too.
#[inline(always)]
fn count_each<const NUMBER: u8>(operation: Operation, a: &Blocks, b: &Blocks) -> usize
    ensures { result ≡ length (combined 65536 operation (parts_numbers a.now) (parts_numbers b.now)) }
{
    let occur = possible_highs(operation, &a.highs, &b.highs);
    let mut count = 0;
    for word in 0..4 {
        count += count_word::<NUMBER>(operation, a, b, 64 * word, occur[word]);
    }
    count
}

/// Counts the numbers whose high bytes are bits of a word. Its bit 0 is the high byte `first`.
#[inline(always)]
fn count_word<const NUMBER: u8>(
    operation: Operation,
    a: &Blocks,
    b: &Blocks,
    first: usize,
    word: u64,
) -> usize
    requires within { first + 64 ≤ 256 }
    requires in_left { apply operation false true ≡ false → (i : ℕ) → i < 64 → (bit_at word i == 1) ≡ true → has_bit a.now.highs (first + i) ≡ true }
    requires in_right { apply operation true false ≡ false → (i : ℕ) → i < 64 → (bit_at word i == 1) ≡ true → has_bit b.now.highs (first + i) ≡ true }
    ensures { result ≡ length (answer_with (word_highs first word) operation a.now b.now) }
{
    let mut count = 0;
    let mut left = word;
    while left != 0 {
        let high = first + left.trailing_zeros() as usize;
        let x = a.slice_of(high, !retains_right(operation));
        let y = b.slice_of(high, !retains_left(operation));
        count += count_both::<NUMBER>(operation, x, y);
        left &= left.wrapping_sub(1);
    }
    count
}

impl<'a> Parts<'a> {
    ghost use Rattle.bitpack_slices.specs.Parts.{numbers_in_parts};

    /// How many numbers an operation on two bodies gives, if each of the 256 slices of both is bits.
    pub(crate) fn count_as_bits(self, operation: Operation, other: Parts) -> usize
        requires bits { length self.slices.now ≡ 8192 }
        requires other_bits { length other.slices.now ≡ 8192 }
        ensures { result ≡ length (combined 65536 operation (numbers_in_parts self.entry) (numbers_in_parts other.entry)) }
    {
        match operation {
            Operation::And => self.count_as_bits_each(Operation::And, other),
            Operation::Or => self.count_as_bits_each(Operation::Or, other),
            Operation::AndNot => self.count_as_bits_each(Operation::AndNot, other),
            Operation::Xor => self.count_as_bits_each(Operation::Xor, other),
        }
    }

    /// Counts the numbers that `count_as_bits` counts, for an operation that the caller names, so that each operation has a loop of its own.
    #[inline(always)]
    fn count_as_bits_each(self, operation: Operation, other: Parts) -> usize
        requires bits { length self.slices.now ≡ 8192 }
        requires other_bits { length other.slices.now ≡ 8192 }
        ensures { result ≡ length (combined 65536 operation (numbers_in_parts self.entry) (numbers_in_parts other.entry)) }
    {
        let mut count = 0;
        for high in 0..256 {
            let a = words_of(&self.slices[32 * high..32 * high + 32]);
            let b = words_of(&other.slices[32 * high..32 * high + 32]);
            count += count_bits(&combined_words(operation, a, b));
        }
        count
    }
}
