//! Four or eight lanes: a vector of `std::simd`.
#![tactic(auto, using(crate::proofs::VectorLemmas::vector_steps))]

ghost use Rattle.std.proofs.Common.{lit≤};
ghost use Rattle.bitpacking_register.specs.Words.{first_words};
ghost use Rattle.bitpacking_register.specs.WordLaws.{length-first_words, first_words-lt};

use crate::Register;
use std::simd::prelude::*;

impl Register for u32x4 {
    const LANES: usize = 4;

    ghost LANES = { 4 };

    ghost words = { first_words 4 };

    #[inline(always)]
    fn splat(word: u32) -> u32x4 {
        u32x4::splat(word)
    }

    #[inline(always)]
    fn from_words(values: &[u32]) -> u32x4 {
        u32x4::from_slice(values)
    }

    #[inline(always)]
    fn to_words(self, values: &mut [u32]) {
        self.copy_to_slice(values);
    }

    #[inline(always)]
    fn from_bytes(bytes: &[u8]) -> u32x4 {
        u32x4::from_le_bytes(u8x16::from_slice(bytes))
    }

    #[inline(always)]
    fn to_bytes(self, bytes: &mut [u8]) {
        self.to_le_bytes().copy_to_slice(bytes);
    }

    #[inline(always)]
    fn shift_left(self, shift: u32) -> u32x4 {
        self << u32x4::splat(shift)
    }

    #[inline(always)]
    fn shift_right(self, shift: u32) -> u32x4 {
        self >> u32x4::splat(shift)
    }

    #[inline(always)]
    fn or(self, other: u32x4) -> u32x4 {
        self | other
    }

    #[inline(always)]
    fn and(self, other: u32x4) -> u32x4 {
        self & other
    }

    #[inline(always)]
    fn add(self, other: u32x4) -> u32x4 {
        self + other
    }

    #[inline(always)]
    fn sub(self, other: u32x4) -> u32x4 {
        self - other
    }

    #[inline(always)]
    fn or_lanes(self) -> u32 {
        self.reduce_or()
    }

    // `a b c d` less `z a b c`. `z` is the last lane before.
    #[inline(always)]
    fn delta(current: u32x4, previous: u32x4) -> u32x4 {
        current - previous.shuffle::<4>(current, [3, 4, 5, 6])
    }

    // Sums of two lanes, `a ab bc cd`, then of four, `a ab abc abcd`; then `z`, the last lane before, to all.
    #[inline(always)]
    fn integrate(previous: u32x4, delta: u32x4) -> u32x4 {
        let zero = u32x4::splat(0);
        let pairs = delta + zero.shuffle::<4>(delta, [0, 4, 5, 6]);
        let sums = pairs + zero.shuffle::<4>(pairs, [0, 1, 4, 5]);
        sums + previous.swizzle::<4>([3, 3, 3, 3])
    }

    ghost some_lanes = { lit≤ tt };

    ghost few_lanes = { lit≤ tt };

    ghost words_count = { length-first_words 4 };

    ghost words_fit = { first_words-lt 4 };
}

impl Register for u32x8 {
    const LANES: usize = 8;

    ghost LANES = { 8 };

    ghost words = { first_words 8 };

    #[inline(always)]
    fn splat(word: u32) -> u32x8 {
        u32x8::splat(word)
    }

    #[inline(always)]
    fn from_words(values: &[u32]) -> u32x8 {
        u32x8::from_slice(values)
    }

    #[inline(always)]
    fn to_words(self, values: &mut [u32]) {
        self.copy_to_slice(values);
    }

    #[inline(always)]
    fn from_bytes(bytes: &[u8]) -> u32x8 {
        u32x8::from_le_bytes(u8x32::from_slice(bytes))
    }

    #[inline(always)]
    fn to_bytes(self, bytes: &mut [u8]) {
        self.to_le_bytes().copy_to_slice(bytes);
    }

    #[inline(always)]
    fn shift_left(self, shift: u32) -> u32x8 {
        self << u32x8::splat(shift)
    }

    #[inline(always)]
    fn shift_right(self, shift: u32) -> u32x8 {
        self >> u32x8::splat(shift)
    }

    #[inline(always)]
    fn or(self, other: u32x8) -> u32x8 {
        self | other
    }

    #[inline(always)]
    fn and(self, other: u32x8) -> u32x8 {
        self & other
    }

    #[inline(always)]
    fn add(self, other: u32x8) -> u32x8 {
        self + other
    }

    #[inline(always)]
    fn sub(self, other: u32x8) -> u32x8 {
        self - other
    }

    #[inline(always)]
    fn or_lanes(self) -> u32 {
        self.reduce_or()
    }

    // `a b c d e f g h` less `z a b c d e f g`. `z` is the last lane before.
    #[inline(always)]
    fn delta(current: u32x8, previous: u32x8) -> u32x8 {
        current - previous.shuffle::<8>(current, [7, 8, 9, 10, 11, 12, 13, 14])
    }

    // First in each half, `a ab abc abcd e ef efg efgh`; then `abcd` to the high half, and `z` to all.
    #[inline(always)]
    fn integrate(previous: u32x8, delta: u32x8) -> u32x8 {
        let zero = u32x8::splat(0);
        let pairs = delta + zero.shuffle::<8>(delta, [0, 8, 9, 10, 4, 12, 13, 14]);
        let halves = pairs + zero.shuffle::<8>(pairs, [0, 1, 8, 9, 4, 5, 12, 13]);
        let sums = halves + zero.shuffle::<8>(halves, [0, 1, 2, 3, 11, 11, 11, 11]);
        sums + previous.swizzle::<8>([7, 7, 7, 7, 7, 7, 7, 7])
    }

    ghost some_lanes = { lit≤ tt };

    ghost few_lanes = { lit≤ tt };

    ghost words_count = { length-first_words 8 };

    ghost words_fit = { first_words-lt 8 };
}
