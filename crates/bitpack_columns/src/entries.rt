//! The ends, the marks and the bodies of the blocks of a column, by what is after its count and its first value.
//!
//! FORMAT.md, "Columns", after `first`:
//!
//! ```text
//! e + 16 * z | B ends of e bytes | B marks of z bytes | B bodies | least | groups
//! ```

ghost use Rattle.std.specs.Prelude.{◌≡◌, ◌+◌, ◌*◌, ◌^◌, ◌<◌, ◌≤◌, length};
ghost use Rattle.bitpack_columns.specs.Reads;
ghost use Rattle.bitpack_columns.specs.Sound.{HasEntries};

use bitpack_groups::read_integer;

/// Where a block ends among the bodies: the sum of the widths up to it.
#[inline(always)]
pub(crate) fn end_at(blocks: usize, rest: &[u8], block: usize) -> u32
    requires entries { HasEntries blocks rest.now }
    requires within { block < blocks }
    ensures { result ≡ Reads.end_at rest.now block }
{
    read_integer((rest[0] % 16) as usize, rest, 1, block)
}

/// Where a block begins among the bodies, or the tail after them.
#[inline(always)]
pub(crate) fn begin_at(blocks: usize, rest: &[u8], block: usize) -> u32
    requires entries { HasEntries blocks rest.now }
    requires within { block ≤ blocks }
    ensures { result ≡ Reads.begin_at rest.now block }
{
    if block == 0 {
        0
    } else {
        end_at(blocks, rest, block - 1)
    }
}

/// The mark of a block.
#[inline(always)]
pub(crate) fn mark_at(blocks: usize, rest: &[u8], block: usize) -> u32
    requires entries { HasEntries blocks rest.now }
    requires within { block < blocks }
    ensures { result ≡ Reads.mark_at blocks rest.now block }
{
    let marks = 1 + (rest[0] % 16) as usize * blocks;
    read_integer((rest[0] / 16) as usize, rest, marks, block)
}

/// Where the bodies of `blocks` blocks begin.
#[inline(always)]
pub(crate) fn bodies_start(blocks: usize, rest: &[u8]) -> usize
    requires some { 1 ≤ length rest.now }
    requires few { blocks ≤ 2 ^ 28 }
    ensures { result ≡ Reads.bodies_start blocks rest.now }
{
    1 + (rest[0] % 16 + rest[0] / 16) as usize * blocks
}

/// Where the tail after `blocks` blocks begins.
#[inline(always)]
pub(crate) fn tail_start(blocks: usize, rest: &[u8]) -> usize
    requires some { 0 < blocks → HasEntries blocks rest.now }
    requires few { blocks ≤ 2 ^ 28 }
    ensures { result ≡ Reads.tail_start blocks rest.now }
{
    if blocks == 0 {
        return 0;
    }
    bodies_start(blocks, rest) + 16 * begin_at(blocks, rest, blocks) as usize
}
