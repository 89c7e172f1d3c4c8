//! Tests of the ends and the marks of blocks, before their bodies.
//! FORMAT.md, "Faults of a column".

ghost use Rattle.std.specs.Prelude.{◌≡◌, ◌*◌, ◌^◌, ◌<◌, ◌≤◌, IfOk};
ghost use Rattle.bitpack_columns.specs.Errors.{Finds};
ghost use Rattle.bitpack_columns.specs.Faults;
ghost use Rattle.bitpack_columns.specs.Faults.{blocks_fault, end_fault, first_of, loose_sizes_fault, sizes_fault};
ghost use Rattle.bitpack_columns.specs.Numbers;
ghost use Rattle.bitpack_columns.specs.Opening.{HasBodies, front_values};
ghost use Rattle.bitpack_columns.specs.Reads.{end_size, mark_at, mark_size};
ghost use Rattle.bitpack_columns.specs.Sound.{HasEntries};

use super::bodies::test_bodies;
use crate::column_error::ColumnError;
use crate::column_kind::ColumnKind;
use crate::entries::{begin_at, bodies_start, tail_start};
use bitpack_groups::{byte_count, read_integer};

/// Tests the blocks of a column that has some. Returns the first position out of order in them.
#[tactic(auto, unfolding(crate::specs::Faults::blocks_fault))]
pub(super) fn test_blocks(
    kind: ColumnKind,
    first: u32,
    blocks: usize,
    rest: &[u8],
) -> Result<Option<usize>, ColumnError>
    requires some { 0 < blocks }
    requires few { 128 * blocks ≤ 2 ^ 28 }
    ensures fault { Finds result (blocks_fault kind first blocks rest.now) }
    ensures out { IfOk result (λ out. out
        ≡ Faults.first_out kind first (front_values kind first blocks rest.now blocks)) }
{
    test_sizes(rest)?;
    if rest.len() < bodies_start(blocks, rest) {
        return Err(ColumnError::Short);
    }
    test_ends(blocks, rest)?;
    test_least(blocks, rest)?;
    if rest.len() < tail_start(blocks, rest) {
        return Err(ColumnError::Short);
    }
    test_bodies_of(kind, first, blocks, rest)
}

/// Tests the bodies, by a loop for each kind.
fn test_bodies_of(
    kind: ColumnKind,
    first: u32,
    blocks: usize,
    rest: &[u8],
) -> Result<Option<usize>, ColumnError>
    requires few { 128 * blocks ≤ 2 ^ 28 }
    requires bodies { HasBodies blocks rest.now }
    ensures fault { Finds result (first_of (Faults.body_fault kind first blocks rest.now) blocks) }
    ensures out { IfOk result (λ out. out
        ≡ Faults.first_out kind first (front_values kind first blocks rest.now blocks)) }
{
    match kind {
        ColumnKind::Plain => test_bodies(ColumnKind::Plain, first, blocks, rest),
        ColumnKind::Sorted => test_bodies(ColumnKind::Sorted, first, blocks, rest),
    }
}

/// Tests the byte of the sizes.
#[tactic(auto, unfolding(crate::specs::Faults::sizes_fault))]
fn test_sizes(rest: &[u8]) -> Result<(), ColumnError>
    ensures { Finds result (sizes_fault rest.now) }
{
    if rest.len() < 1 {
        return Err(ColumnError::Short);
    }
    let sizes = rest[0];
    if 0 < sizes % 16 && sizes % 16 <= 4 && 0 < sizes / 16 && sizes / 16 <= 4 {
        return Ok(());
    }
    Err(ColumnError::BadSizes(sizes))
}

/// Tests the ends of all blocks, by a loop for each of their sizes.
fn test_ends(blocks: usize, rest: &[u8]) -> Result<(), ColumnError>
    requires { HasEntries blocks rest.now }
    ensures { Finds result (first_of (end_fault rest.now) blocks) }
{
    match rest[0] % 16 {
        1 => test_ends_of(1, blocks, rest),
        2 => test_ends_of(2, blocks, rest),
        3 => test_ends_of(3, blocks, rest),
        _ => test_ends_of(4, blocks, rest),
    }
}

/// Tests ends of `size` bytes.
#[inline(always)]
fn test_ends_of(size: usize, blocks: usize, rest: &[u8]) -> Result<(), ColumnError>
    requires entries { HasEntries blocks rest.now }
    requires size { size ≡ end_size rest.now }
    ensures { Finds result (first_of (end_fault rest.now) blocks) }
{
    let mut before = 0;
    for block in 0..blocks {
        let end = read_integer(size, rest, 1, block);
        if end < before || end - before > 32 {
            return Err(ColumnError::BadOffset(block));
        }
        before = end;
    }
    Ok(())
}

/// Tests that the ends and the marks have no more bytes than they need.
#[tactic(auto, unfolding(crate::specs::Faults::loose_sizes_fault))]
fn test_least(blocks: usize, rest: &[u8]) -> Result<(), ColumnError>
    requires { HasEntries blocks rest.now }
    ensures { Finds result (loose_sizes_fault blocks rest.now) }
{
    let sizes = rest[0];
    let end_size = byte_count(begin_at(blocks, rest, blocks));
    let mark_size = byte_count(greatest_mark(blocks, rest));
    if (sizes % 16) as usize == end_size && (sizes / 16) as usize == mark_size {
        return Ok(());
    }
    Err(ColumnError::BadSizes(sizes))
}

/// The greatest mark, by a loop for each of their sizes.
fn greatest_mark(blocks: usize, rest: &[u8]) -> u32
    requires { HasEntries blocks rest.now }
    ensures { result ≡ Numbers.greatest (mark_at blocks rest.now) blocks }
{
    match rest[0] / 16 {
        1 => greatest_mark_of(1, blocks, rest),
        2 => greatest_mark_of(2, blocks, rest),
        3 => greatest_mark_of(3, blocks, rest),
        _ => greatest_mark_of(4, blocks, rest),
    }
}

/// The greatest of marks of `size` bytes.
#[inline(always)]
fn greatest_mark_of(size: usize, blocks: usize, rest: &[u8]) -> u32
    requires entries { HasEntries blocks rest.now }
    requires size { size ≡ mark_size rest.now }
    ensures { result ≡ Numbers.greatest (mark_at blocks rest.now) blocks }
{
    let start = 1 + (rest[0] % 16) as usize * blocks;
    let mut most = 0;
    for block in 0..blocks {
        most = most.max(read_integer(size, rest, start, block));
    }
    most
}
