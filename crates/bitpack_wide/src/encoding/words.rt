//! The encoding of a set in words: an id set for each high word.
//! FORMAT.md, "Wide sets".

ghost use Rattle.std.specs.Prelude.{◌≡◌, ◌+◌, ◌*◌, ◌^◌, ◌≤◌, length};
ghost use Rattle.std.specs.List.{concat};
ghost use Rattle.bitpack_groups.specs.Numbers as numbers;
ghost use Rattle.bitpack_groups.specs.Numbers.{number};
ghost use Rattle.bitpack_wide.specs.Wide as wide;
ghost use Rattle.bitpack_wide.specs.Wide.{IsWide, bodies, in_words, words_of};
ghost use Rattle.bitpack_wide.specs.inner.Writing.{directory, ends_encoding, highs_encoding, sums_encoding};

use crate::encoding::order::word_len;
use crate::spread::WORD;
use bitpack_groups::{byte_count, write_at};
use bitpack_sets::encoding::chunks::{head_len, write_head};
use bitpack_sets::encoding::{measure, write_set};

/// How many bytes the id sets of the high words have.
pub(crate) fn measure_bodies(ids: &[u64], lows: &[u32]) -> usize
    requires set { IsWide ids.now }
    requires lows { lows.now ≡ wide.lows ids.now }
    ensures size { result ≡ length (concat (bodies (words_of ids.now))) }
    ensures small { result ≤ 15 * length ids.now }
{
    let mut left = ids;
    let mut low = lows;
    let mut bodies = 0;
    while !left.is_empty() {
        let run = word_len(left);
        bodies += measure(&low[..run]).len;
        left = &left[run..];
        low = &low[run..];
    }
    bodies
}

/// How many bytes the encoding of `count` ids with `words` high words has, if the id sets have `size` bytes.
pub(crate) fn words_len(count: usize, words: usize, size: usize) -> usize
    requires count { count ≤ 2 ^ 28 }
    requires words { words ≤ count }
    requires size { size ≤ 15 * count }
    ensures { result ≡ 2 + length (number count) + length (number words)
        + (4 + numbers.byte_count size + numbers.byte_count count) * words + size }
{
    let entry = 4 + byte_count(size as u32) + byte_count(count as u32);
    head_len(count, words) + entry * words + size
}

/// Writes the encoding of ids with `words` high words. Their id sets have `size` bytes.
pub(crate) fn write_words(ids: &[u64], lows: &[u32], words: usize, size: usize, out: &mut [u8])
    requires set { IsWide ids.now }
    requires lows { lows.now ≡ wide.lows ids.now }
    requires words { words ≡ length (words_of ids.now) }
    requires few { words ≤ length ids.now }
    requires size { size ≡ length (concat (bodies (words_of ids.now))) }
    requires small { size ≤ 15 * length ids.now }
    requires room { length out.old ≡ length (in_words ids.now) }
    ensures { out.new ≡ in_words ids.now }
{
    let end_size = byte_count(size as u32);
    let sum_size = byte_count(ids.len() as u32);
    let len = head_len(ids.len(), words);
    let (head, rest) = out.split_at_mut(len);
    write_head(ids.len(), words, end_size, sum_size, head);
    head[0] = 8;
    write_directory(ids, lows, words, end_size, sum_size, rest);
}

/// Writes the directory of a set, with ends and sums of these sizes, and its id sets.
fn write_directory(
    ids: &[u64],
    lows: &[u32],
    words: usize,
    end_size: usize,
    sum_size: usize,
    out: &mut [u8],
)
    requires set { IsWide ids.now }
    requires lows { lows.now ≡ wide.lows ids.now }
    requires words { words ≡ length (words_of ids.now) }
    requires few { words ≤ 2 ^ 28 }
    requires sizes { (end_size ≤ 4) × (sum_size ≤ 4) }
    requires size { length out.old ≡ length (directory end_size sum_size ids.now) }
    ensures { out.new ≡ directory end_size sum_size ids.now }
{
    let (highs, others) = out.split_at_mut(4 * words);
    let (ends, after) = others.split_at_mut(end_size * words);
    let (sums, last) = after.split_at_mut(sum_size * words);
    write_entries(ids, lows, end_size, sum_size, highs, ends, sums, last);
}

/// Writes each high word, the end and the sum of its id set, and this set.
fn write_entries(
    ids: &[u64],
    lows: &[u32],
    end_size: usize,
    sum_size: usize,
    highs: &mut [u8],
    ends: &mut [u8],
    sums: &mut [u8],
    out: &mut [u8],
)
    requires set { IsWide ids.now }
    requires lows { lows.now ≡ wide.lows ids.now }
    requires highs { length highs.old ≡ length (highs_encoding ids.now) }
    requires ends { length ends.old ≡ length (ends_encoding end_size ids.now) }
    requires sums { length sums.old ≡ length (sums_encoding sum_size ids.now) }
    requires bodies { length out.old ≡ length (concat (bodies (words_of ids.now))) }
    ensures highs { highs.new ≡ highs_encoding ids.now }
    ensures ends { ends.new ≡ ends_encoding end_size ids.now }
    ensures sums { sums.new ≡ sums_encoding sum_size ids.now }
    ensures bodies { out.new ≡ concat (bodies (words_of ids.now)) }
{
    let mut left = ids;
    let mut low = lows;
    let mut index = 0;
    let mut end = 0;
    let mut sum = 0;
    while !left.is_empty() {
        let run = word_len(left);
        let own = &low[..run];
        let measured = measure(own);
        let size = measured.len;
        write_set(own, measured, &mut out[end..end + size]);
        end += size;
        sum += run;
        write_at(index, 4, (left[0] / WORD) as u32, highs);
        write_at(index, end_size, end as u32, ends);
        write_at(index, sum_size, sum as u32, sums);
        index += 1;
        left = &left[run..];
        low = &low[run..];
    }
}
