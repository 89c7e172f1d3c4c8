//! Writes a set in chunks whose bodies were written before their directory was known.
//! FORMAT.md, "Chunks".

ghost use Rattle.std.specs.Prelude.{◌≡◌, ◌+◌, ◌*◌, ◌^◌, ◌<◌, ◌≤◌, ◌++◌, length, take};
ghost use Rattle.std.specs.List.{flat_map, sum};
ghost use Rattle.bitpack_slices.specs.Bodies.{le_bytes};
ghost use Rattle.bitpack_sets.specs.Sets.{sums};
ghost use Rattle.bitpack_sets.specs.Varints as varints;
ghost use Rattle.bitpack_sets.specs.Varints.{number};
ghost use Rattle.bitpack_sets.specs.Written.{head};

use crate::encoding::chunks::{head_len, write_head};
use bitpack_groups::{byte_count, write_at};
use bitpack_slices::integers::write_integers;

/// Writes what is before the bodies of a set of `count` ids, and moves the bodies behind it. They are the first `size` bytes of `out`. Of each
/// chunk there is its key, how many ids it has, and how many bytes its body.
pub fn write_gathered(
    count: usize,
    size: usize,
    keys: &[u32],
    counts: &[u32],
    sizes: &[u32],
    out: &mut [u8],
)
    requires counts { (length counts.now ≡ length keys.now) × (sum counts.now ≤ 2 ^ 28) }
    requires sizes { (length sizes.now ≡ length keys.now) × (sum sizes.now ≤ 2 ^ 29) }
    requires count { count ≤ 2 ^ 28 }
    requires size { size ≤ 2 ^ 29 }
    requires chunks { length keys.now ≤ 2 ^ 28 }
    requires room { length out.old ≡ 2 + length (number count) + length (number (length keys.now))
        + (2 + varints.byte_count size + varints.byte_count count) * length keys.now + size }
    ensures { out.new ≡ head count (length keys.now) (varints.byte_count size) (varints.byte_count count)
        ++ (flat_map (le_bytes 2) keys.now
        ++ (flat_map (le_bytes (varints.byte_count size)) (sums 0 sizes.now)
        ++ (flat_map (le_bytes (varints.byte_count count)) (sums 0 counts.now) ++ take size out.old))) }
{
    let chunks = keys.len();
    let end_size = byte_count(size as u32);
    let sum_size = byte_count(count as u32);
    let len = head_len(count, chunks);
    let start = out.len() - size;
    out.copy_within(..size, start);
    let (head, rest) = out.split_at_mut(len);
    let (first, others) = rest.split_at_mut(2 * chunks);
    let (ends, after) = others.split_at_mut(end_size * chunks);
    let last = &mut after[..sum_size * chunks];
    write_head(count, chunks, end_size, sum_size, head);
    write_integers(2, keys, first);
    write_sums(end_size, sizes, ends);
    write_sums(sum_size, counts, last);
}

/// Writes the sums of the first value, of the first two and so on, `size` bytes for each.
fn write_sums(size: usize, values: &[u32], out: &mut [u8])
    requires few { sum values.now < 2 ^ 32 }
    requires size { length out.old ≡ size * length values.now }
    ensures { out.new ≡ flat_map (le_bytes size) (sums 0 values.now) }
{
    let mut sum = 0;
    for index in 0..values.len() {
        sum += values[index];
        write_at(index, size, sum, out);
    }
}
