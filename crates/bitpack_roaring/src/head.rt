//! The head of a bitmap: a cookie, the number of containers, the key and the count of each, and its offset.
//!
//! ROARING.md, "The head":
//!
//! ```text
//! no runs    3A30 0000 | C, four bytes | C keys and counts | C offsets
//! runs       3B30 | C - 1, two bytes | a bit for each container | C keys and counts | C offsets, if C is 4 or more
//! ```

ghost use Rattle.std.specs.Prelude.{◌≡◌, ◌+◌, ◌/◌, ◌^◌, ◌<◌, ◌≤◌, if◌then◌else◌, true, nat_le, IfOk, IfSome, IsNone, length};
ghost use Rattle.std.proofs.Props.{props};
ghost use Rattle.bitpacking.specs.Bits.{AreBytes};
ghost use Rattle.bitpack_slices.specs.Errors.{Finds};
ghost use Rattle.bitpack_roaring.specs.Faults.{cookie_fault, head_fault};
ghost use Rattle.bitpack_roaring.specs.inner.Heads.{IsHead};
ghost use Rattle.bitpack_roaring.specs.Roaring as roaring;

use bitpack_groups::read_integer;
use bitpack_slices::SetError;

/// The first two bytes, if some containers are runs.
pub(crate) const WITH_RUNS: u32 = 12347;

/// The first four bytes, if no container is runs.
pub(crate) const WITHOUT_RUNS: u32 = 12346;

/// The most containers.
const MOST_CONTAINERS: usize = 1 << 16;

/// With fewer containers than this, a bitmap with runs has no offsets.
const LEAST_OFFSETS: usize = 4;

/// The most numbers of an array.
pub(crate) const LONGEST_ARRAY: usize = 4096;

/// The bytes of bits.
pub(crate) const BITS_LEN: usize = 8192;

/// What the head of a bitmap says. It was tested.
#[derive(Clone, Copy)]
pub(crate) struct Head<'a> {
    // All bytes of the bitmap.
    pub(crate) bytes: &'a [u8],
    // Whether some containers are runs, and how many containers there are.
    pub(crate) runs: bool,
    pub(crate) containers: usize,
    // The start of the keys and counts, whether there are offsets, and the start of the first container.
    keys: usize,
    offsets: bool,
    pub(crate) start: usize,
    ghost are_bytes: { AreBytes bytes.now },
    ghost sound: { IsHead bytes.now runs containers keys offsets start } by { Prim.hlevel (props) },
}

/// Tests the head of a bitmap.
#[tactic(auto, unfolding(crate::specs::Faults::head_fault))]
pub(crate) fn test_head<'a>(bytes: &'a [u8]) -> Result<Head<'a>, SetError>
    ensures fault { Finds result (head_fault bytes.now) }
    ensures bytes { IfOk result (λ head. head.bytes.now ≡ bytes.now) }
{
    if bytes.len() < 4 {
        return Err(SetError::Short);
    }
    let runs = has_runs(bytes);
    let containers = test_cookie(runs, bytes)?;
    let keys = keys_start(runs, containers);
    let offsets = has_offsets(runs, containers);
    let start = keys + entry_len(offsets) * containers;
    if bytes.len() < start {
        return Err(SetError::Short);
    }
    Ok(Head {
        bytes,
        runs,
        containers,
        keys,
        offsets,
        start,
    })
}

/// Whether the first two bytes say that some containers are runs.
#[tactic(auto, unfolding(crate::specs::Roaring::has_runs))]
fn has_runs(bytes: &[u8]) -> bool
    requires { 4 ≤ length bytes.now }
    ensures { result ≡ roaring.has_runs bytes.now }
{
    read_integer(2, bytes, 0, 0) == WITH_RUNS
}

/// Tests the cookie, and returns the number of containers.
#[tactic(auto, unfolding(crate::specs::Faults::cookie_fault, crate::specs::Roaring::containers))]
fn test_cookie(runs: bool, bytes: &[u8]) -> Result<usize, SetError>
    requires four { 4 ≤ length bytes.now }
    requires runs { runs ≡ roaring.has_runs bytes.now }
    ensures fault { Finds result (cookie_fault bytes.now) }
    ensures containers { IfOk result (λ containers. containers ≡ roaring.containers bytes.now) }
    ensures few { IfOk result (λ containers. containers ≤ 65536) }
{
    if runs {
        return Ok(read_integer(2, bytes, 0, 1) as usize + 1);
    }
    if read_integer(4, bytes, 0, 0) != WITHOUT_RUNS {
        return Err(SetError::BadVersion(bytes[0]));
    }
    if bytes.len() < 8 {
        return Err(SetError::Short);
    }
    let containers = read_integer(4, bytes, 0, 1) as usize;
    if containers > MOST_CONTAINERS {
        return Err(SetError::BadNumber);
    }
    Ok(containers)
}

/// The start of the keys and counts.
pub(crate) fn keys_start(runs: bool, containers: usize) -> usize
    requires { containers ≤ 65536 }
    ensures { result ≡ (if runs then 4 + (containers + 7) / 8 else 8) }
{
    if runs { 4 + (containers + 7) / 8 } else { 8 }
}

/// Whether there are offsets.
pub(crate) fn has_offsets(runs: bool, containers: usize) -> bool
    ensures { result ≡ (if runs then nat_le 4 containers else true) }
{
    if runs {
        containers >= LEAST_OFFSETS
    } else {
        true
    }
}

/// How many bytes a key, a count and an offset have, if there are offsets.
pub(crate) fn entry_len(offsets: bool) -> usize
    ensures { result ≡ (if offsets then 8 else 4) }
{
    if offsets { 8 } else { 4 }
}

impl<'a> Head<'a> {
    ghost use Rattle.std.specs.Prelude.{◌≡◌, ◌+◌, ◌<◌, ◌≤◌, ◌&&◌, ◌==◌, not, IfSome, IsNone, length};
    ghost use Rattle.bitpack_roaring.specs.Roaring as roaring;

    /// The key of a container.
    #[inline(always)]
    #[tactic(auto, unfolding(crate::specs::Roaring::key_at))]
    pub(crate) fn key(self, container: usize) -> u32
        requires within { container < self.containers }
        ensures key { result ≡ roaring.key_at self.entry.bytes.now container }
        ensures small { result < 65536 }
    {
        read_integer(2, self.bytes, self.keys, 2 * container)
    }

    /// How many numbers a container has.
    #[inline(always)]
    #[tactic(auto, unfolding(crate::specs::Roaring::count_at))]
    pub(crate) fn count(self, container: usize) -> usize
        requires within { container < self.containers }
        ensures count { result ≡ roaring.count_at self.entry.bytes.now container }
        ensures some { 1 ≤ result }
        ensures few { result ≤ 65536 }
    {
        read_integer(2, self.bytes, self.keys, 2 * container + 1) as usize + 1
    }

    /// Whether the offset of a container is another than this.
    #[inline(always)]
    #[tactic(auto, unfolding(crate::specs::Roaring::offset_at))]
    pub(crate) fn has_other_offset(self, container: usize, start: usize) -> bool
        requires within { container < self.containers }
        ensures { result ≡ (roaring.has_offsets self.entry.bytes.now && not (roaring.offset_at self.entry.bytes.now container == start)) }
    {
        if !self.offsets {
            return false;
        }
        let first = self.keys + 4 * self.containers;
        read_integer(4, self.bytes, first, container) as usize != start
    }

    /// Whether a container is runs.
    #[inline(always)]
    #[tactic(auto, unfolding(crate::specs::Roaring::is_run))]
    pub(crate) fn is_run(self, container: usize) -> bool
        requires within { container < self.containers }
        ensures { result ≡ roaring.is_run self.entry.bytes.now container }
    {
        if !self.runs {
            return false;
        }
        self.bytes[4 + container / 8] >> (container % 8) & 1 == 1
    }

    /// The end of a container that begins at `start`. Requires that its bytes are there.
    #[inline(always)]
    pub(crate) fn end(self, container: usize, start: usize) -> usize
        requires within { container < self.containers }
        requires room { start + roaring.size_from self.bytes.now container start ≤ length self.bytes.now }
        ensures end { result ≡ start + roaring.size_from self.entry.bytes.now container start }
        ensures room { result ≤ length self.entry.bytes.now }
    {
        self.end_from(container, start).unwrap()
    }

    /// The end of a container that begins at `start`, if its bytes are there.
    #[tactic(auto, unfolding(crate::specs::Roaring::size_from))]
    pub(crate) fn end_from(self, container: usize, start: usize) -> Option<usize>
        requires within { container < self.containers }
        requires room { start ≤ length self.bytes.now }
        ensures end { IfSome result (λ end. end ≡ start + roaring.size_from self.entry.bytes.now container start) }
        ensures room { IfSome result (λ end. end ≤ length self.entry.bytes.now) }
        ensures short { IsNone result → length self.entry.bytes.now < start + roaring.size_from self.entry.bytes.now container start }
    {
        let left = self.bytes.len() - start;
        if self.is_run(container) {
            if left < 2 {
                return None;
            }
            let runs = read_integer(2, self.bytes, start, 0) as usize;
            return end_within(2 + 4 * runs, left, start);
        }
        let count = self.count(container);
        if count <= LONGEST_ARRAY {
            return end_within(2 * count, left, start);
        }
        end_within(BITS_LEN, left, start)
    }
}

/// The end of `size` bytes from `start` on, if there are as many.
#[inline(always)]
fn end_within(size: usize, left: usize, start: usize) -> Option<usize>
    requires { start + left < 2 ^ 63 }
    ensures end { IfSome result (λ end. (end ≡ start + size) × (size ≤ left)) }
    ensures short { IsNone result → left < size }
{
    if size <= left {
        Some(start + size)
    } else {
        None
    }
}
