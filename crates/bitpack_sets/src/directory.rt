//! The directory of a set in chunks: keys, ends and sums.
//!
//! FORMAT.md, "Chunks", after n and C:
//!
//! ```text
//! e + 16 * z | C keys of two bytes | C ends of e bytes | C sums of z bytes | C bodies
//! ```

ghost use Rattle.std.specs.Prelude.{◌≡◌, ◌+◌, ◌*◌, ◌/◌, ◌%◌, ◌^◌, ◌<◌, ◌≤◌, ◌&&◌, ◌||◌, ◌==◌, not, nat_le, nat_lt, drop, length};
ghost use Rattle.std.proofs.Props.{props};
ghost use Rattle.bitpacking.specs.Bits.{AreBytes};
ghost use Rattle.bitpack_sets.specs.Directory.{before};
ghost use Rattle.bitpack_slices.specs.Errors.{Finds};
ghost use Rattle.bitpack_slices.specs.Props.{rising_prop};
ghost use Rattle.bitpack_sets.specs.Faults.{entry_fault, first_of, loose_sizes_fault, sizes_fault};
ghost use Rattle.bitpack_sets.specs.Sound.{HasDirectory, IsRest};
ghost use Rattle.bitpack_sets.specs.Varints as varints;

use bitpack_groups::{byte_count, read_integer};
use bitpack_slices::SetError;

/// The directory of a set in chunks, with the bodies after it. They were tested.
#[derive(Clone, Copy)]
pub struct Directory<'a> {
    // How many ids and how many chunks there are.
    pub(crate) count: usize,
    pub(crate) chunks: usize,
    // What is after these counts.
    pub(crate) rest: &'a [u8],
    ghost few: { chunks ≤ 65536 },
    ghost most: { count ≤ 2 ^ 28 },
    ghost are_bytes: { AreBytes rest.now },
    ghost sound: { IsRest count chunks rest.now } by { Prim.hlevel (props, rising_prop) },
}

/// The key of a chunk.
#[inline(always)]
pub(crate) fn key_at(chunks: usize, rest: &[u8], chunk: usize) -> u16
    requires directory { HasDirectory chunks rest.now }
    requires within { chunk < chunks }
    ensures { result ≡ Rattle.bitpack_sets.specs.Directory.key_at rest.now chunk }
{
    let bytes = &rest[1 + 2 * chunk..3 + 2 * chunk];
    u16::from_le_bytes([bytes[0], bytes[1]])
}

/// The end of the body of a chunk.
#[inline(always)]
pub(crate) fn end_at(chunks: usize, rest: &[u8], chunk: usize) -> u32
    requires directory { HasDirectory chunks rest.now }
    requires within { chunk < chunks }
    ensures { result ≡ Rattle.bitpack_sets.specs.Directory.end_at chunks rest.now chunk }
{
    read_integer((rest[0] % 16) as usize, rest, 1 + 2 * chunks, chunk)
}

/// How many ids a chunk and those before it have.
#[inline(always)]
pub(crate) fn sum_at(chunks: usize, rest: &[u8], chunk: usize) -> u32
    requires directory { HasDirectory chunks rest.now }
    requires within { chunk < chunks }
    ensures { result ≡ Rattle.bitpack_sets.specs.Directory.sum_at chunks rest.now chunk }
{
    let start = 1 + (2 + (rest[0] % 16) as usize) * chunks;
    read_integer((rest[0] / 16) as usize, rest, start, chunk)
}

/// Where the body of a chunk begins among the bodies.
#[inline(always)]
pub(crate) fn begin_at(chunks: usize, rest: &[u8], chunk: usize) -> u32
    requires directory { HasDirectory chunks rest.now }
    requires within { chunk ≤ chunks }
    ensures { result ≡ before (Rattle.bitpack_sets.specs.Directory.end_at chunks rest.now) chunk }
{
    if chunk == 0 {
        0
    } else {
        end_at(chunks, rest, chunk - 1)
    }
}

/// How many ids are before a chunk.
#[inline(always)]
pub(crate) fn count_before(chunks: usize, rest: &[u8], chunk: usize) -> u32
    requires directory { HasDirectory chunks rest.now }
    requires within { chunk ≤ chunks }
    ensures { result ≡ before (Rattle.bitpack_sets.specs.Directory.sum_at chunks rest.now) chunk }
{
    if chunk == 0 {
        0
    } else {
        sum_at(chunks, rest, chunk - 1)
    }
}

/// Where the bodies of `chunks` chunks begin.
#[inline(always)]
pub(crate) fn bodies_start(chunks: usize, rest: &[u8]) -> usize
    requires some { 1 ≤ length rest.now }
    requires few { chunks ≤ 65536 }
    ensures { result ≡ Rattle.bitpack_sets.specs.Directory.bodies_start chunks rest.now }
{
    1 + (2 + rest[0] % 16 + rest[0] / 16) as usize * chunks
}

/// Tests the byte of the sizes.
#[tactic(auto, unfolding(crate::specs::Faults::sizes_fault))]
pub(crate) fn test_sizes(rest: &[u8]) -> Result<(), SetError>
    ensures { Finds result (sizes_fault rest.now) }
{
    if rest.is_empty() {
        return Err(SetError::Short);
    }
    let sizes = rest[0];
    if are_sizes(sizes % 16, sizes / 16) {
        return Ok(());
    }
    Err(SetError::BadSizes(sizes))
}

/// Both sizes are from 1 to 4.
fn are_sizes(end_size: u8, sum_size: u8) -> bool
    ensures { result ≡ (nat_lt 0 end_size && nat_le end_size 4 && nat_lt 0 sum_size && nat_le sum_size 4) }
{
    if end_size == 0 {
        return false;
    }
    if end_size > 4 {
        return false;
    }
    if sum_size == 0 {
        return false;
    }
    sum_size <= 4
}

/// Tests whether the sizes are the least.
#[tactic(auto, unfolding(crate::specs::Faults::loose_sizes_fault))]
pub(crate) fn test_least(count: usize, chunks: usize, rest: &[u8]) -> Result<(), SetError>
    requires count { count ≤ 2 ^ 28 }
    requires directory { HasDirectory chunks rest.now }
    ensures { Finds result (loose_sizes_fault count chunks rest.now) }
{
    let sizes = rest[0];
    let end = begin_at(chunks, rest, chunks);
    if are_least(sizes, end, count as u32) {
        return Ok(());
    }
    Err(SetError::BadSizes(sizes))
}

/// The sizes are the least for the last end and the count.
fn are_least(sizes: u8, end: u32, count: u32) -> bool
    ensures { result ≡ ((sizes % 16 == varints.byte_count end) && (sizes / 16 == varints.byte_count count)) }
{
    if (sizes % 16) as usize != byte_count(end) {
        return false;
    }
    (sizes / 16) as usize == byte_count(count)
}

/// Tests the key, the sum and the end of each chunk.
pub(crate) fn test_entries(count: usize, chunks: usize, rest: &[u8]) -> Result<(), SetError>
    requires { HasDirectory chunks rest.now }
    ensures { Finds result (first_of (entry_fault count chunks rest.now) chunks) }
{
    for chunk in 0..chunks {
        test_entry(count, chunks, rest, chunk)?;
    }
    Ok(())
}

/// Tests the key, the sum and the end of a chunk.
#[tactic(auto, unfolding(crate::specs::Faults::entry_fault))]
#[inline(always)]
fn test_entry(count: usize, chunks: usize, rest: &[u8], chunk: usize) -> Result<(), SetError>
    requires directory { HasDirectory chunks rest.now }
    requires within { chunk < chunks }
    ensures { Finds result (entry_fault count chunks rest.now chunk) }
{
    if key_falls(chunks, rest, chunk) {
        return Err(SetError::BadKey(chunk));
    }
    let sum = sum_at(chunks, rest, chunk) as usize;
    let own = sum.saturating_sub(count_before(chunks, rest, chunk) as usize);
    if is_bad_count(own, chunk + 1 == chunks, sum == count) {
        return Err(SetError::BadSum(chunk));
    }
    let end = end_at(chunks, rest, chunk) as usize;
    let size = end.saturating_sub(begin_at(chunks, rest, chunk) as usize);
    if is_bad_size(size, own) {
        return Err(SetError::BadOffset(chunk));
    }
    Ok(())
}

/// The key of a chunk is not above the one before.
#[inline(always)]
fn key_falls(chunks: usize, rest: &[u8], chunk: usize) -> bool
    requires directory { HasDirectory chunks rest.now }
    requires within { chunk < chunks }
    ensures { result ≡ (nat_lt 0 chunk
        && nat_le (Rattle.bitpack_sets.specs.Directory.key_at rest.now chunk) (before (Rattle.bitpack_sets.specs.Directory.key_at rest.now) chunk)) }
{
    if chunk == 0 {
        return false;
    }
    key_at(chunks, rest, chunk) <= key_at(chunks, rest, chunk - 1)
}

/// A chunk has no id, or too many; or it is the last, and its sum is not the count of ids.
#[inline(always)]
fn is_bad_count(own: usize, is_last: bool, is_count: bool) -> bool
    ensures { result ≡ ((own == 0) || nat_lt 65536 own || (is_last && not is_count)) }
{
    if own == 0 {
        return true;
    }
    if own > 65536 {
        return true;
    }
    is_last & !is_count
}

/// A body has no byte, or more than two for each of its numbers.
#[inline(always)]
fn is_bad_size(size: usize, own: usize) -> bool
    requires { own ≤ 65536 }
    ensures { result ≡ ((size == 0) || nat_lt (2 * own) size) }
{
    if size == 0 {
        return true;
    }
    size > 2 * own
}
