//! The bounds, the ends and the parts of a wide column, by what is after its count of values.
//!
//! FORMAT.md, "Wide columns", after n:
//!
//! ```text
//! e + 16 * w | 2 * C bounds of w bytes | 2 * C + 1 ends of e bytes | 2 * C + 1 parts
//! ```

ghost use Rattle.std.specs.Prelude.{◌≡◌, ◌+◌, ◌*◌, ◌^◌, ◌<◌, ◌≤◌, drop, length};
ghost use Rattle.bitpack_groups.specs.Numbers.{short_at};
ghost use Rattle.bitpack_sets.specs.Directory.{before};
ghost use Rattle.bitpack_wide.specs.WideColumnReads as reads;
ghost use Rattle.bitpack_wide.specs.WideColumnSound.{HasParts, HasEntries};
ghost use Rattle.bitpack_wide.specs.WideColumns as columns;

use bitpack_groups::read_integer;

/// How many positions a chunk has.
pub(crate) const CHUNK_LEN: usize = 65536;

/// How many chunks hold this many values.
#[inline(always)]
pub(crate) fn chunks_of(count: usize) -> usize
    requires { count ≤ 2 ^ 28 }
    ensures chunks { result ≡ columns.chunks_of count }
    ensures few { result ≤ 4096 }
{
    (count + 65535) / CHUNK_LEN
}

/// Returns integer `index` of integers that have `size` bytes each and begin at `start`.
#[inline(always)]
pub(crate) fn read_wide(size: usize, bytes: &[u8], start: usize, index: usize) -> u64
    requires size { (1 ≤ size) × (size ≤ 8) }
    requires within { start + size * index + size ≤ length bytes.now }
    ensures { result ≡ short_at size (drop start bytes.now) index }
{
    if size <= 4 {
        return read_integer(size, bytes, start, index) as u64;
    }
    let from = start + size * index;
    let low = read_integer(4, bytes, from, 0) as u64;
    let high = read_integer(size - 4, bytes, from + 4, 0) as u64;
    low + (high << 32)
}

/// The least value of chunk m, at 2 * m, or the greatest, at 2 * m + 1.
#[inline(always)]
pub(crate) fn bound_at(chunks: usize, rest: &[u8], index: usize) -> u64
    requires tables { HasEntries chunks rest.now }
    requires within { index < 2 * chunks }
    ensures { result ≡ reads.bound_at rest.now index }
{
    read_wide((rest[0] / 16) as usize, rest, 1, index)
}

/// Where the ends begin.
#[inline(always)]
pub(crate) fn ends_start(chunks: usize, rest: &[u8]) -> usize
    requires some { 1 ≤ length rest.now }
    requires few { chunks ≤ 4096 }
    ensures start { result ≡ reads.ends_start chunks rest.now }
    ensures small { result ≤ 2 ^ 18 }
{
    1 + (rest[0] / 16) as usize * (2 * chunks)
}

/// Where the parts begin.
#[inline(always)]
pub(crate) fn parts_start(chunks: usize, rest: &[u8]) -> usize
    requires some { 1 ≤ length rest.now }
    requires few { chunks ≤ 4096 }
    ensures start { result ≡ reads.parts_start chunks rest.now }
    ensures small { result ≤ 2 ^ 19 }
{
    ends_start(chunks, rest) + (rest[0] % 16) as usize * (2 * chunks + 1)
}

/// Where a part ends, counted from the first part.
#[inline(always)]
pub(crate) fn end_at(chunks: usize, rest: &[u8], part: usize) -> u32
    requires tables { HasEntries chunks rest.now }
    requires few { chunks ≤ 4096 }
    requires within { part < 2 * chunks + 1 }
    ensures { result ≡ reads.end_at chunks rest.now part }
{
    read_integer(
        (rest[0] % 16) as usize,
        rest,
        ends_start(chunks, rest),
        part,
    )
}

/// Where a part begins, counted from the first part.
#[inline(always)]
pub(crate) fn begin_at(chunks: usize, rest: &[u8], part: usize) -> u32
    requires tables { HasEntries chunks rest.now }
    requires few { chunks ≤ 4096 }
    requires within { part < 2 * chunks + 1 }
    ensures { result ≡ before (reads.end_at chunks rest.now) part }
{
    if part == 0 {
        0
    } else {
        end_at(chunks, rest, part - 1)
    }
}

/// The bytes of a part.
#[inline(always)]
pub(crate) fn part_at<'a>(chunks: usize, rest: &'a [u8], part: usize) -> &'a [u8]
    requires parts { HasParts chunks rest.now }
    requires few { chunks ≤ 4096 }
    requires within { part < 2 * chunks + 1 }
    ensures { result.now ≡ reads.part_at chunks rest.now part }
{
    let start = parts_start(chunks, rest);
    let begin = begin_at(chunks, rest, part) as usize;
    let end = end_at(chunks, rest, part) as usize;
    &rest[start + begin..start + end]
}
