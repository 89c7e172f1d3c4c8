//! Tests and sets bits.
//! FORMAT.md, "Chunks": a slice of 32 bytes or fewer, as bits.

ghost use Rattle.std.specs.Prelude.{◌≡◌, ℕ, ◌*◌, ◌<◌, ◌≤◌, ◌||◌, ◌==◌, false, length, slice_index, true};
ghost use Rattle.bitpack_slices.specs.Bitmaps.{has_bit};
ghost use Rattle.bitpack_slices.specs.Operations.{those};
ghost use Rattle.bitpack_slices.specs.Reads.{has};
ghost use Rattle.bitpack_slices.specs.Slices.{slice_len, slice_numbers};

use crate::bitmap::ones::bit_of;
use crate::combined::combined_words;
use crate::operation::Operation;
use crate::slice::matches::four_of;
use crate::slice::reading::words_of;

/// Whether a bit is 1.
#[inline(always)]
pub fn test_bit(words: &[u64], i: usize) -> bool
    requires { i < 64 * length words.now }
    ensures { result ≡ has_bit words.now i }
{
    words[i / 64] >> (i % 64) & 1 == 1
}

/// Sets a bit.
#[inline(always)]
pub fn set_bit(words: &mut [u64], i: usize)
    requires within { i < 64 * length words.old }
    ensures { (k : ℕ) → has_bit words.new k ≡ (k == i || has_bit words.old k) }
{
    words[i / 64] |= 1 << (i % 64);
}

/// The first of 256 bits from one on that is 1, 256 if there is none.
pub fn first_bit(words: &[u64], from: usize) -> usize
    requires size { length words.now ≡ 4 }
    requires within { from < 256 }
    ensures later { from ≤ result }
    ensures within { result ≤ 256 }
    ensures none { (i : ℕ) → from ≤ i → i < result → has_bit words.now i ≡ false }
    ensures one { result < 256 → has_bit words.now result ≡ true }
{
    let mut at = from;
    while at < 256 {
        let word = words[at / 64];
        let left = word >> (at % 64);
        if left != 0 {
            return at + left.trailing_zeros() as usize;
        }
        at = at / 64 * 64 + 64;
    }
    256
}

/// How many of 256 bits before each word are 1.
#[inline(always)]
pub(crate) fn counts_before(words: &[u64]) -> [usize; 4]
    requires { length words.now ≡ 4 }
    ensures { (word : ℕ) → word < 4 → slice_index result word ≡ length (those (64 * word) (has_bit words.now)) }
{
    let one = words[0].count_ones() as usize;
    let two = one + words[1].count_ones() as usize;
    let three = two + words[2].count_ones() as usize;
    [0, one, two, three]
}

/// How many of 256 bits before this one are 1, by how many are before each word.
#[inline(always)]
pub(crate) fn rank_of_bit(words: &[u64], before: &[usize; 4], i: usize) -> usize
    requires size { length words.now ≡ 4 }
    requires within { i < 256 }
    requires before { (word : ℕ) → word < 4 → slice_index before.now word ≡ length (those (64 * word) (has_bit words.now)) }
    ensures { result ≡ length (those i (has_bit words.now)) }
{
    let below = words[i / 64] & ((1 << (i % 64)) - 1);
    before[i / 64] + below.count_ones() as usize
}

/// The numbers of a slice of `count`, as bits.
#[inline(always)]
pub(crate) fn slice_bits(count: usize, bytes: &[u8]) -> [u64; 4]
    requires count { count ≤ 256 }
    requires size { length bytes.now ≡ slice_len count }
    ensures { (i : ℕ) → i < 256 → has_bit result i ≡ has i (slice_numbers count bytes.now) }
{
    if count < 32 {
        byte_bits(bytes)
    } else if count < 256 {
        words_of(bytes)
    } else {
        [u64::MAX; 4]
    }
}

/// The values of bytes, as bits.
#[inline(always)]
fn byte_bits(bytes: &[u8]) -> [u64; 4]
    ensures { (i : ℕ) → i < 256 → has_bit result i ≡ has i bytes.now }
{
    if bytes.len() == 0 {
        return [0; 4];
    }
    let full = (bytes.len() - 1) / 4;
    let mut bits = [0; 4];
    set_four(&mut bits, &four_of(&bytes[4 * full..]));
    for step in 0..full {
        set_four(&mut bits, &bytes[4 * step..4 * step + 4]);
    }
    bits
}

/// Sets the bits of four bytes.
#[inline(always)]
fn set_four(bits: &mut [u64; 4], bytes: &[u8])
    requires { length bytes.now ≡ 4 }
    ensures { (i : ℕ) → i < 256 → has_bit bits.new i ≡ (has_bit bits.old i || has i bytes.now) }
{
    let first = combined_words(Operation::Or, bit_of(bytes[0]), bit_of(bytes[1]));
    let last = combined_words(Operation::Or, bit_of(bytes[2]), bit_of(bytes[3]));
    bits[0] |= first[0] | last[0];
    bits[1] |= first[1] | last[1];
    bits[2] |= first[2] | last[2];
    bits[3] |= first[3] | last[3];
}
