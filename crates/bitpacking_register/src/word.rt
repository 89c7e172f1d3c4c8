//! One lane: a `u32`.

ghost use Rattle.std.proofs.Common.{lit≤};
ghost use Rattle.bitpacking_register.specs.Words.{one_word};
ghost use Rattle.bitpacking_register.specs.WordLaws.{length-one_word, one_word-lt};

use crate::Register;
use std::simd::prelude::*;

impl Register for u32 {
    const LANES: usize = 1;

    ghost LANES = { 1 };

    ghost words = { one_word };

    #[inline(always)]
    fn splat(word: u32) -> u32 {
        word
    }

    #[inline(always)]
    fn from_words(values: &[u32]) -> u32 {
        values[0]
    }

    #[inline(always)]
    fn to_words(self, values: &mut [u32]) {
        values[0] = self;
    }

    // A vector of one lane, since loads and stores of single bytes are not joined inside a kernel.
    #[inline(always)]
    fn from_bytes(bytes: &[u8]) -> u32 {
        u32x1::from_le_bytes(u8x4::from_slice(bytes)).to_array()[0]
    }

    #[inline(always)]
    fn to_bytes(self, bytes: &mut [u8]) {
        u32x1::from_array([self]).to_le_bytes().copy_to_slice(bytes);
    }

    #[inline(always)]
    fn shift_left(self, shift: u32) -> u32 {
        self << shift
    }

    #[inline(always)]
    fn shift_right(self, shift: u32) -> u32 {
        self >> shift
    }

    #[inline(always)]
    fn or(self, other: u32) -> u32 {
        self | other
    }

    #[inline(always)]
    fn and(self, other: u32) -> u32 {
        self & other
    }

    #[inline(always)]
    fn add(self, other: u32) -> u32 {
        self.wrapping_add(other)
    }

    #[inline(always)]
    fn sub(self, other: u32) -> u32 {
        self.wrapping_sub(other)
    }

    #[inline(always)]
    fn or_lanes(self) -> u32 {
        self
    }

    #[inline(always)]
    fn delta(current: u32, previous: u32) -> u32 {
        current.wrapping_sub(previous)
    }

    #[inline(always)]
    fn integrate(previous: u32, delta: u32) -> u32 {
        previous.wrapping_add(delta)
    }

    ghost some_lanes = { lit≤ tt };

    ghost few_lanes = { lit≤ tt };

    ghost words_count = { length-one_word };

    ghost words_fit = { one_word-lt };
}
