//! Integers of one to four bytes, one after the other.
//! FORMAT.md, "Chunks": keys, ends, sums, and numbers.

ghost use Rattle.std.specs.Prelude.{◌≡◌, ◌+◌, ◌*◌, ◌≤◌, length, slice_index};
ghost use Rattle.std.specs.List.{flat_map};
ghost use Rattle.bitpack_slices.specs.Bodies.{le_bytes};
ghost use Rattle.bitpack_slices.specs.Slices.{quads_of};

use bitpack_groups::write_integer;

/// The id at a position.
#[inline(always)]
pub fn id_at(rest: &[u8], position: usize) -> u32
    requires { 4 * position + 4 ≤ length rest.now }
    ensures { result ≡ slice_index (quads_of rest.now) position }
{
    let bytes = &rest[4 * position..4 * position + 4];
    u32::from_le_bytes([bytes[0], bytes[1], bytes[2], bytes[3]])
}

/// Writes the lowest bytes of numbers, `size` bytes for each.
#[inline(always)]
pub fn write_integers(size: usize, values: &[u32], out: &mut [u8])
    requires { length out.old ≡ size * length values.now }
    ensures { out.new ≡ flat_map (le_bytes size) values.now }
{
    for index in 0..values.len() {
        let at = size * index;
        write_integer(values[index], &mut out[at..at + size]);
    }
}
