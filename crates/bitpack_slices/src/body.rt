//! The ids of a key in a set: a list of them, a body of blocks, or runs.
//! FORMAT.md, "Chunks".

pub mod bits;
pub(crate) mod mixing;
pub mod runs;
pub mod writing;

ghost use Rattle.std.specs.Prelude.{◌+◌, ◌*◌, ◌%◌, ◌^◌, ◌<◌, ◌≤◌, length, map};
ghost use Rattle.std.specs.List.{filter};
ghost use Rattle.bitpack_slices.specs.Follows.{Follow};
ghost use Rattle.bitpack_slices.specs.Lists.{OfKey, body_lows, listed_ids, retains};
ghost use Rattle.bitpack_slices.specs.Operations.{combined};
ghost use Rattle.bitpack_slices.specs.Runs.{runs_from};
ghost use Rattle.bitpack_slices.specs.Slices.{IsBlocks, block_numbers};

use crate::bitmap::writing::LONGEST_BLOCKS;
use crate::blocks::Blocks;
use crate::blocks::combining::{count_combined, unpack_combined};
use crate::blocks::loading::ALL_BITS;
use crate::body::mixing::mix;
use crate::body::runs::{MOST_BOTH, combine_both};
use crate::chunk::parts::Parts;
use crate::chunk::runs::Runs;
use crate::listed::Listed;
use crate::listed::filtering::filter;
use crate::listed::merging::merge;
use crate::operation::Operation;

/// The ids of a key.
#[derive(Clone, Copy)]
pub enum Body<'a> {
    /// The ids, as a list.
    Ids(Listed<'a>),
    /// The low 16 bits of the ids, as blocks.
    Blocks(&'a [u8]),
    /// The low 16 bits of the ids, as runs. They are made blocks before they are combined.
    Runs(Runs<'a>),
}

/// Writes the ids that an operation on two bodies gives, if there is room for all. Returns the index after the last, also if there is no room.
pub fn combine(
    operation: Operation,
    key: u32,
    a: Body,
    b: Body,
    out: &mut [u32],
    at: usize,
) -> usize
    requires key { key < 65536 }
    requires start { at ≤ 2 ^ 32 }
    requires a { OfKey key a }
    requires b { OfKey key b }
    ensures { Follow (map (λ low. key * 65536 + low) (combined 65536 operation (body_lows a.entry) (body_lows b.entry))) out.old out.new at result }
{
    match a {
        Body::Ids(list) => combine_list(operation, key, &list, b, out, at),
        Body::Blocks(body) => combine_blocks(operation, key, body, b, out, at),
        Body::Runs(runs) => combine_runs(operation, key, runs, b, out, at),
    }
}

/// Writes the ids that an operation on runs and a body gives, as `combine`.
#[inline(never)]
fn combine_runs(
    operation: Operation,
    key: u32,
    runs: Runs,
    b: Body,
    out: &mut [u32],
    at: usize,
) -> usize
    requires key { key < 65536 }
    requires start { at ≤ 2 ^ 32 }
    requires some { 0 < length (runs_from 0 runs.bounds.now) }
    requires b { OfKey key b }
    ensures { Follow (map (λ low. key * 65536 + low) (combined 65536 operation (runs_from 0 runs.entry.bounds.now) (body_lows b.entry))) out.old out.new at result }
{
    if let Body::Runs(others) = b
        && runs.bounds.len() / 2 + others.bounds.len() / 2 <= MOST_BOTH
    {
        return combine_both(operation, key, runs, others, out, at);
    }
    let mut room = [0; LONGEST_BLOCKS];
    let size = runs.write_blocks(&mut room);
    combine_blocks(operation, key, &room[..size], b, out, at)
}

/// Writes the ids that an operation on a list and a body gives, as `combine`.
fn combine_list(
    operation: Operation,
    key: u32,
    list: &Listed,
    b: Body,
    out: &mut [u32],
    at: usize,
) -> usize
    requires key { key < 65536 }
    requires start { at ≤ 2 ^ 32 }
    requires list { OfKey key (Body.Ids list.now) }
    requires b { OfKey key b }
    ensures { Follow (map (λ low. key * 65536 + low) (combined 65536 operation (body_lows (Body.Ids list.now)) (body_lows b.entry))) out.old out.new at result }
{
    match b {
        Body::Ids(other) => merge(operation, list, &other, out, at),
        Body::Blocks(body) => combine_with_blocks(operation, key, list, body, out, at),
        Body::Runs(runs) => {
            let mut room = [0; LONGEST_BLOCKS];
            let size = runs.write_blocks(&mut room);
            combine_with_blocks(operation, key, list, &room[..size], out, at)
        }
    }
}

/// Writes the ids that an operation on a list and blocks gives, as `combine`.
fn combine_with_blocks(
    operation: Operation,
    key: u32,
    list: &Listed,
    body: &[u8],
    out: &mut [u32],
    at: usize,
) -> usize
    requires key { key < 65536 }
    requires start { at ≤ 2 ^ 32 }
    requires list { OfKey key (Body.Ids list.now) }
    requires body { IsBlocks (length (block_numbers body.now)) body.now }
    ensures { Follow (map (λ low. key * 65536 + low) (combined 65536 operation (body_lows (Body.Ids list.now)) (block_numbers body.now))) out.old out.new at result }
{
    match operation {
        Operation::And => look_up(list, body, true, out, at),
        Operation::AndNot => look_up(list, body, false, out, at),
        Operation::Or => mix_list(Operation::Or, key, body, list, out, at),
        Operation::Xor => mix_list(Operation::Xor, key, body, list, out, at),
    }
}

/// Writes the ids that an operation on blocks and a body gives, as `combine`.
fn combine_blocks(
    operation: Operation,
    key: u32,
    body: &[u8],
    b: Body,
    out: &mut [u32],
    at: usize,
) -> usize
    requires key { key < 65536 }
    requires start { at ≤ 2 ^ 32 }
    requires body { IsBlocks (length (block_numbers body.now)) body.now }
    requires b { OfKey key b }
    ensures { Follow (map (λ low. key * 65536 + low) (combined 65536 operation (block_numbers body.now) (body_lows b.entry))) out.old out.new at result }
{
    match b {
        Body::Ids(list) => match operation {
            Operation::And => look_up(&list, body, true, out, at),
            _ => mix_list(operation, key, body, &list, out, at),
        },
        Body::Blocks(other) => combine_parts(operation, key, body, other, out, at),
        Body::Runs(runs) => {
            let mut room = [0; LONGEST_BLOCKS];
            let size = runs.write_blocks(&mut room);
            combine_slices(operation, key, body, &room[..size], out, at)
        }
    }
}

/// Writes the ids that an operation on two bodies of blocks gives, as `combine`.
fn combine_parts(
    operation: Operation,
    key: u32,
    body: &[u8],
    other: &[u8],
    out: &mut [u32],
    at: usize,
) -> usize
    requires key { key < 65536 }
    requires start { at ≤ 2 ^ 32 }
    requires body { IsBlocks (length (block_numbers body.now)) body.now }
    requires other { IsBlocks (length (block_numbers other.now)) other.now }
    ensures { Follow (map (λ low. key * 65536 + low) (combined 65536 operation (block_numbers body.now) (block_numbers other.now))) out.old out.new at result }
{
    let a = Parts::new(body);
    let b = Parts::new(other);
    if at >= out.len() && a.slices.len() == ALL_BITS && b.slices.len() == ALL_BITS {
        return at + a.count_as_bits(operation, b);
    }
    combine_slices(operation, key, body, other, out, at)
}

/// Writes the ids that an operation on two bodies of blocks gives, as `combine`.
// Not inlined: with this code in it, a caller takes longer to look up the ids of a list.
#[inline(never)]
fn combine_slices(
    operation: Operation,
    key: u32,
    body: &[u8],
    other: &[u8],
    out: &mut [u32],
    at: usize,
) -> usize
    requires key { key < 65536 }
    requires start { at ≤ 2 ^ 32 }
    requires body { IsBlocks (length (block_numbers body.now)) body.now }
    requires other { IsBlocks (length (block_numbers other.now)) other.now }
    ensures { Follow (map (λ low. key * 65536 + low) (combined 65536 operation (block_numbers body.now) (block_numbers other.now))) out.old out.new at result }
{
    let mut starts = ([0; 257], [0; 257]);
    let a = Blocks::new(body, &mut starts.0);
    let b = Blocks::new(other, &mut starts.1);
    if at < out.len() {
        if let Some(end) = unpack_combined(operation, &a, &b, key * 65536, out, at) {
            return end;
        }
    }
    at + count_combined(operation, &a, &b)
}

/// Writes the ids of a list whose low 16 bits a body of blocks has, or lacks, if there is room for all. Returns the index after the last, also if
/// there is no room.
fn look_up(list: &Listed, body: &[u8], there: bool, out: &mut [u32], at: usize) -> usize
    requires start { at ≤ 2 ^ 32 }
    requires body { IsBlocks (length (block_numbers body.now)) body.now }
    ensures { Follow (filter (retains there (block_numbers body.now)) (listed_ids list.now)) out.old out.new at result }
{
    let mut starts = [0; 257];
    filter(list, &Blocks::new(body, &mut starts), there, out, at)
}

/// Writes the ids that an operation on a body of blocks and a list gives, if there is room for all. Returns the index after the last, also if there
/// is no room.
#[inline(never)]
fn mix_list(
    operation: Operation,
    key: u32,
    body: &[u8],
    list: &Listed,
    out: &mut [u32],
    at: usize,
) -> usize
    requires key { key < 65536 }
    requires start { at ≤ 2 ^ 32 }
    requires body { IsBlocks (length (block_numbers body.now)) body.now }
    ensures { Follow (map (λ low. key * 65536 + low) (combined 65536 operation (block_numbers body.now) (map (λ id. id % 65536) (listed_ids list.now)))) out.old out.new at result }
{
    let mut starts = [0; 257];
    let blocks = Blocks::new(body, &mut starts);
    let mut words = [0; 1024];
    let highs = list.set_bits(&mut words);
    mix(operation, &blocks, &highs, &words, key * 65536, out, at)
}
