//! Writes the head of a bitmap: its cookie and flags, and the key, the count and the offset of each container.
//! ROARING.md, "The head".

ghost use Rattle.std.specs.Prelude.{◌≡◌, ◌+◌, ◌-◌, ◌*◌, ◌/◌, ◌^◌, ◌<◌, ◌≤◌, ◌++◌, if◌then◌else◌, true, length, take};
ghost use Rattle.bitpack_slices.specs.Bitmaps.{has_bit};
ghost use Rattle.bitpack_slices.specs.Bodies.{bits, le_bytes};
ghost use Rattle.bitpack_slices.specs.Operations.{those};
ghost use Rattle.bitpack_roaring.specs.inner.Sizes.{cookie_of};

use crate::head::{WITH_RUNS, WITHOUT_RUNS};
use bitpack_groups::write_at;

/// Writes the cookie and the number of containers. With runs, writes the flags after them.
pub(crate) fn write_cookie(runs: bool, containers: usize, flags: &[u64; 1024], out: &mut [u8])
    requires few { containers ≤ 65536 }
    requires some { runs ≡ true → 1 ≤ containers }
    requires size { length out.old ≡ (if runs then 4 + (containers + 7) / 8 else 8) }
    ensures { out.new ≡ cookie_of runs containers flags.now }
{
    if runs {
        write_at(0, 2, WITH_RUNS, out);
        write_at(1, 2, (containers - 1) as u32, out);
        write_flags(flags, &mut out[4..]);
    } else {
        write_at(0, 4, WITHOUT_RUNS, out);
        write_at(1, 4, containers as u32, out);
    }
}

/// Writes the lowest bits of words, as many bytes as there is room for.
fn write_flags(flags: &[u64; 1024], out: &mut [u8])
    requires { length out.old ≤ 8192 }
    ensures { out.new ≡ le_bytes (length out.old) (bits (those (8 * length out.old) (has_bit flags.now))) }
{
    for index in 0..out.len() {
        out[index] = (flags[index / 8] >> (8 * (index % 8)) & 255) as u8;
    }
}

/// Writes the key and the count of the container with this index.
pub(crate) fn write_entry(container: usize, key: u32, count: usize, out: &mut [u8])
    requires some { 1 ≤ count }
    requires few { count ≤ 65536 }
    requires room { 4 * container + 4 ≤ length out.old }
    ensures len { length out.new ≡ length out.old }
    ensures bytes { take (4 * (container + 1)) out.new ≡ take (4 * container) out.old ++ (le_bytes 2 key ++ le_bytes 2 (count - 1)) }
{
    write_at(2 * container, 2, key, out);
    write_at(2 * container + 1, 2, (count - 1) as u32, out);
}

/// Writes the offset of the container with this index, if there are offsets.
#[inline(always)]
pub(crate) fn write_offset(offsets: bool, container: usize, start: usize, out: &mut [u8])
    requires few { start < 2 ^ 32 }
    requires room { offsets ≡ true → 4 * container + 4 ≤ length out.old }
    ensures len { length out.new ≡ length out.old }
    ensures bytes { offsets ≡ true → take (4 * (container + 1)) out.new ≡ take (4 * container) out.old ++ le_bytes 4 start }
{
    if offsets {
        write_at(container, 4, start as u32, out);
    }
}
