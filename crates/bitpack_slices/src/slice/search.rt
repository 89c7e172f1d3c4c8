//! Looks numbers up in slices.
//! FORMAT.md, "Chunks".

ghost use Rattle.std.specs.Prelude.{◌≡◌, ◌+◌, ◌*◌, ◌/◌, ◌^◌, ◌<◌, ◌≤◌, ◌++◌, drop, length, map, slice_index, take};
ghost use Rattle.bitpack_slices.specs.Reads.{has, rank};
ghost use Rattle.bitpack_slices.specs.Slices.{IsSlice, number_of, ones_from, slice_len, slice_numbers};

use crate::bitmap::single_bits::{counts_before, first_bit, rank_of_bit};
use crate::slice::reading::{word_at, words_of};

/// Whether a slice of `count` numbers has this one.
#[inline(always)]
pub(crate) fn in_slice(count: usize, bytes: &[u8], number: u8) -> bool
    requires count { count ≤ 256 }
    requires size { length bytes.now ≡ slice_len count }
    ensures { result ≡ has number (slice_numbers count bytes.now) }
{
    if count < 32 {
        in_bytes(bytes, number)
    } else if count < 256 {
        in_bits(bytes, number)
    } else {
        true
    }
}

/// Whether a byte is among some.
fn in_bytes(bytes: &[u8], number: u8) -> bool
    ensures { result ≡ has number bytes.now }
{
    for byte in bytes {
        if *byte == number {
            return true;
        }
    }
    false
}

/// Whether the bit of a number is 1.
#[inline(always)]
pub(crate) fn in_bits(bytes: &[u8], number: u8) -> bool
    requires { length bytes.now ≡ 32 }
    ensures { result ≡ has number (ones_from (number_of bytes.now) 0 256) }
{
    bytes[(number / 8) as usize] >> (number % 8) & 1 == 1
}

/// How many numbers of a slice of `count` are below this one.
pub(crate) fn rank_in_slice(count: usize, bytes: &[u8], number: u8) -> usize
    requires count { count ≤ 256 }
    requires size { length bytes.now ≡ slice_len count }
    ensures { result ≡ rank number (slice_numbers count bytes.now) }
{
    if count < 32 {
        rank_in_bytes(bytes, number)
    } else if count < 256 {
        rank_in_bits(bytes, number)
    } else {
        number as usize
    }
}

/// How many bytes are below this one.
fn rank_in_bytes(bytes: &[u8], number: u8) -> usize
    ensures { result ≡ rank number bytes.now }
{
    let mut count = 0;
    for byte in bytes {
        count += (*byte < number) as usize;
    }
    count
}

/// How many bits before the bit of a number are 1.
#[inline(always)]
pub(crate) fn rank_in_bits(bytes: &[u8], number: u8) -> usize
    requires { length bytes.now ≡ 32 }
    ensures { result ≡ rank number (ones_from (number_of bytes.now) 0 256) }
{
    let words = words_of(bytes);
    rank_of_bit(&words, &counts_before(&words), number as usize)
}

/// The first number of a slice of `count` that is not below a number, if there is one. Its position is given.
#[inline(always)]
pub(crate) fn next_in_slice(count: usize, bytes: &[u8], position: usize, number: usize) -> u8
    requires count { count ≤ 256 }
    requires size { length bytes.now ≡ slice_len count }
    requires slice { IsSlice count bytes.now }
    requires position { position ≡ rank number (slice_numbers count bytes.now) }
    requires within { position < count }
    ensures { result ≡ slice_index (slice_numbers count bytes.now) position }
{
    if count < 32 {
        bytes[position]
    } else if count < 256 {
        first_bit(&words_of(bytes), number) as u8
    } else {
        position as u8
    }
}

/// The number at this position of a slice of `count`.
pub(crate) fn select_in_slice(count: usize, bytes: &[u8], position: usize) -> u8
    requires count { count ≤ 256 }
    requires size { length bytes.now ≡ slice_len count }
    requires slice { IsSlice count bytes.now }
    requires within { position < count }
    ensures { result ≡ slice_index (slice_numbers count bytes.now) position }
{
    if count < 32 {
        bytes[position]
    } else if count < 256 {
        select_in_bits(bytes, position)
    } else {
        position as u8
    }
}

/// The number of the bit that has this position among those that are 1.
fn select_in_bits(bytes: &[u8], position: usize) -> u8
    requires size { length bytes.now ≡ 32 }
    requires within { position < length (ones_from (number_of bytes.now) 0 256) }
    ensures { result ≡ slice_index (ones_from (number_of bytes.now) 0 256) position }
{
    let mut index = 0;
    let mut left = position;
    while left >= word_at(bytes, index).count_ones() as usize {
        left -= word_at(bytes, index).count_ones() as usize;
        index += 1;
    }
    64 * index as u8 + select_in_word(word_at(bytes, index), left)
}

/// The number of the bit of a word that has this position among those that are 1.
#[inline(always)]
fn select_in_word(word: u64, position: usize) -> u8
    requires { position < length (ones_from word 0 64) }
    ensures { result ≡ slice_index (ones_from word 0 64) position }
{
    let mut left = word;
    for _ in 0..position {
        left &= left.wrapping_sub(1);
    }
    left.trailing_zeros() as u8
}
