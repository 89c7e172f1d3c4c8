//! Reads a container that was tested: its numbers, and their body in a set.
//! ROARING.md, "Containers".

ghost use Rattle.std.specs.Prelude.{◌≡◌, ℕ, ◌+◌, ◌*◌, ◌^◌, ◌<◌, ◌≤◌, ◌++◌, false, length, map, take};
ghost use Rattle.bitpack_slices.specs.Bitmaps.{has_bit};
ghost use Rattle.bitpack_slices.specs.Reads.{has};
ghost use Rattle.bitpack_sets.specs.Sets.{body};
ghost use Rattle.bitpack_roaring.specs.inner.Heads.{IsContainer};
ghost use Rattle.bitpack_roaring.specs.Roaring.{numbers_of};

use crate::bits::{load_bits, unpack_bits};
use crate::head::LONGEST_ARRAY;
use crate::runs::{load_runs, unpack_runs};
use bitpack_sets::encoding::combining::{MOST_LISTED, write_listed};
use bitpack_slices::bitmap::bodies::write_body;
use bitpack_slices::bitmap::writing::LONGEST_BLOCKS;
use bitpack_slices::chunk::reading::unpack_numbers;

/// Writes the numbers of a container, each with `base` added. Returns the index after the last.
#[tactic(auto, unfolding(crate::specs::Roaring::numbers_of))]
pub(crate) fn unpack_container(
    run: bool,
    count: usize,
    bytes: &[u8],
    base: u32,
    out: &mut [u32],
    at: usize,
) -> usize
    requires container { IsContainer run count bytes.now }
    requires fits { base + 65536 ≤ 2 ^ 32 }
    requires room { at + count ≤ length out.old }
    ensures end { result ≡ at + count }
    ensures values { take result out.new ≡ take at out.old ++ map (λ i. base + i) (numbers_of run count bytes.now) }
{
    if run {
        return unpack_runs(&bytes[2..], base, out, at);
    }
    if count <= LONGEST_ARRAY {
        return unpack_numbers(bytes, base, out, at);
    }
    unpack_bits(bytes, base, out, at)
}

/// Sets the bits of the numbers of a container, which are not listed.
#[tactic(auto, unfolding(crate::specs::Roaring::numbers_of))]
fn load_container(run: bool, count: usize, bytes: &[u8], words: &mut [u64; 1024])
    requires clear { (x : ℕ) → has_bit words.old x ≡ false }
    requires container { IsContainer run count bytes.now }
    requires many { 4096 < count }
    ensures { (x : ℕ) → x < 65536 → has_bit words.new x ≡ has x (numbers_of run count bytes.now) }
{
    if run {
        load_runs(&bytes[2..], words);
    } else {
        load_bits(bytes, words);
    }
}

/// Writes the body of the numbers of a container. Returns how many bytes it has. `ids` is work space.
pub(crate) fn write_container(
    run: bool,
    count: usize,
    bytes: &[u8],
    ids: &mut [u32; MOST_LISTED],
    out: &mut [u8; LONGEST_BLOCKS],
) -> usize
    requires container { IsContainer run count bytes.now }
    ensures few { result ≤ 2 * count }
    ensures within { result ≤ 8449 }
    ensures written { take result out.new ≡ body (numbers_of run count bytes.now) }
{
    if count <= MOST_LISTED {
        unpack_container(run, count, bytes, 0, ids, 0);
        return write_listed(&ids[..count], out);
    }
    write_bits(run, count, bytes, out)
}

/// Writes the body of the numbers of a container by their bits.
fn write_bits(run: bool, count: usize, bytes: &[u8], out: &mut [u8; LONGEST_BLOCKS]) -> usize
    requires container { IsContainer run count bytes.now }
    requires many { 4096 < count }
    ensures few { result ≤ 2 * count }
    ensures within { result ≤ 8449 }
    ensures written { take result out.new ≡ body (numbers_of run count bytes.now) }
{
    let mut words = [0; 1024];
    load_container(run, count, bytes, &mut words);
    write_body(&words, count, out)
}
