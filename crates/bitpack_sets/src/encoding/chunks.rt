//! The encoding of a set of 128 ids or more: in chunks, or an array.
//! FORMAT.md, "Id sets" and "Chunks".

ghost use Rattle.std.specs.Prelude.{◌≡◌, ◌+◌, ◌*◌, ◌^◌, ◌≤◌, length};
ghost use Rattle.std.specs.List.{concat};
ghost use Rattle.bitpack_slices.specs.Bodies.{parts};
ghost use Rattle.bitpack_sets.specs.Sets.{IsSet, array, in_chunks};
ghost use Rattle.bitpack_sets.specs.Varints as varints;
ghost use Rattle.bitpack_sets.specs.Varints.{number};
ghost use Rattle.bitpack_sets.specs.Written.{bodies, directory, ends_encoding, head, keys_encoding, sums_encoding};

use crate::encoding::bodies::write_body;
use crate::encoding::measuring::measure_body;
use crate::encoding::runs::{CHUNK_BITS, run_len};
use bitpack_groups::{byte_count, number_len, write_at, write_number};
use bitpack_slices::integers::write_integers;

/// How many bytes the array of `count` ids has.
pub(crate) fn array_len(count: usize) -> usize
    requires { count ≤ 2 ^ 28 }
    ensures { result ≡ 1 + length (number count) + 4 * count }
{
    1 + number_len(count as u32) + 4 * count
}

/// How many bytes the encoding of `count` ids in chunks has, if the bodies have `size` bytes.
pub fn chunks_len(count: usize, chunks: usize, size: usize) -> usize
    requires count { count ≤ 2 ^ 28 }
    requires chunks { chunks ≤ count }
    requires size { size ≤ 2 * count }
    ensures { result ≡ 2 + length (number count) + length (number chunks)
        + (2 + varints.byte_count size + varints.byte_count count) * chunks + size }
{
    let entry = 2 + byte_count(size as u32) + byte_count(count as u32);
    head_len(count, chunks) + entry * chunks + size
}

/// Writes the array of ids.
pub(crate) fn write_array(ids: &[u32], out: &mut [u8])
    requires few { length ids.now ≤ 2 ^ 28 }
    requires size { length out.old ≡ length (array ids.now) }
    ensures { out.new ≡ array ids.now }
{
    let count = ids.len() as u32;
    let size = number_len(count);
    let (head, rest) = out.split_at_mut(1);
    let (first, integers) = rest.split_at_mut(size);
    head[0] = 6;
    write_number(count, first);
    write_integers(4, ids, integers);
}

/// Writes the encoding of ids in `chunks` chunks. Their bodies have `size` bytes.
pub(crate) fn write_chunks(ids: &[u32], chunks: usize, size: usize, out: &mut [u8])
    requires set { IsSet ids.now }
    requires chunks { chunks ≡ length (parts 65536 ids.now) }
    requires few { chunks ≤ length ids.now }
    requires size { size ≡ length (concat (bodies ids.now)) }
    requires room { length out.old ≡ length (in_chunks ids.now) }
    ensures { out.new ≡ in_chunks ids.now }
{
    let end_size = byte_count(size as u32);
    let sum_size = byte_count(ids.len() as u32);
    let len = head_len(ids.len(), chunks);
    let (head, rest) = out.split_at_mut(len);
    write_head(ids.len(), chunks, end_size, sum_size, head);
    write_directory(ids, chunks, end_size, sum_size, rest);
}

/// How many bytes are before the directory of a set of `count` ids in chunks.
pub fn head_len(count: usize, chunks: usize) -> usize
    requires few { (count ≤ 2 ^ 28) × (chunks ≤ 2 ^ 28) }
    ensures len { result ≡ 2 + length (number count) + length (number chunks) }
    ensures few { result ≤ 12 }
{
    2 + number_len(count as u32) + number_len(chunks as u32)
}

/// Writes what is before the directory of a set of `count` ids in chunks, with ends and sums of these sizes.
pub fn write_head(count: usize, chunks: usize, end_size: usize, sum_size: usize, out: &mut [u8])
    requires few { (count ≤ 2 ^ 28) × (chunks ≤ 2 ^ 28) }
    requires sizes { (end_size ≤ 4) × (sum_size ≤ 4) }
    requires size { length out.old ≡ 2 + length (number count) + length (number chunks) }
    ensures { out.new ≡ head count chunks end_size sum_size }
{
    let first_len = number_len(count as u32);
    let second_len = number_len(chunks as u32);
    let (form, others) = out.split_at_mut(1);
    let (first, after) = others.split_at_mut(first_len);
    let (second, sizes) = after.split_at_mut(second_len);
    form[0] = 5;
    write_number(count as u32, first);
    write_number(chunks as u32, second);
    sizes[0] = (end_size + 16 * sum_size) as u8;
}

/// Writes the directory of a set, with ends and sums of these sizes, and its bodies.
fn write_directory(ids: &[u32], chunks: usize, end_size: usize, sum_size: usize, out: &mut [u8])
    requires set { IsSet ids.now }
    requires chunks { chunks ≡ length (parts 65536 ids.now) }
    requires few { chunks ≤ 2 ^ 28 }
    requires sizes { (end_size ≤ 4) × (sum_size ≤ 4) }
    requires size { length out.old ≡ length (directory end_size sum_size ids.now) }
    ensures { out.new ≡ directory end_size sum_size ids.now }
{
    let (keys, others) = out.split_at_mut(2 * chunks);
    let (ends, after) = others.split_at_mut(end_size * chunks);
    let (sums, last) = after.split_at_mut(sum_size * chunks);
    write_entries(ids, 0, 0, end_size, sum_size, keys, ends, sums, last);
}

/// Writes the key, the end, the sum and the body of each chunk. The bodies begin at `start` among all, after chunks of `before` ids.
pub(crate) fn write_entries(
    ids: &[u32],
    start: usize,
    before: usize,
    end_size: usize,
    sum_size: usize,
    keys: &mut [u8],
    ends: &mut [u8],
    sums: &mut [u8],
    out: &mut [u8],
)
    requires set { IsSet ids.now }
    requires keys { length keys.old ≡ length (keys_encoding ids.now) }
    requires ends { length ends.old ≡ length (ends_encoding end_size start ids.now) }
    requires sums { length sums.old ≡ length (sums_encoding sum_size before ids.now) }
    requires bodies { length out.old ≡ length (concat (bodies ids.now)) }
    requires few { (start ≤ 2 ^ 29) × (before ≤ 2 ^ 28) }
    ensures keys { keys.new ≡ keys_encoding ids.now }
    ensures ends { ends.new ≡ ends_encoding end_size start ids.now }
    ensures sums { sums.new ≡ sums_encoding sum_size before ids.now }
    ensures bodies { out.new ≡ concat (bodies ids.now) }
{
    let mut left = ids;
    let mut index = 0;
    let mut end = 0;
    let mut sum = 0;
    while !left.is_empty() {
        let run = run_len(CHUNK_BITS, left);
        let chunk = &left[..run];
        let (slices, size) = measure_body(chunk);
        write_body(chunk, slices, &mut out[end..end + size]);
        end += size;
        sum += run;
        write_at(index, 2, left[0] >> CHUNK_BITS, keys);
        write_at(index, end_size, (start + end) as u32, ends);
        write_at(index, sum_size, (before + sum) as u32, sums);
        index += 1;
        left = &left[run..];
    }
}
