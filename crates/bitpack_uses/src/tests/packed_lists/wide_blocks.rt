//! Blocks at the greatest width whose codes are at most 2 ^ 32 together, and at the next one, with values that wrap once. Each code of
//! a block has all bits, so that its body is bytes of 255, and its values were worked by hand.

ghost use Rattle.std.specs.Prelude.{◌≤◌, ◌^◌};

use super::list2::opened;
use crate::tests::calls::encode2;
use crate::tests::checks::{nine, push, push_bytes, returns, unchanged_bytes};
use bitpack::{ListError, ListKind};
use bitpacking::{BitPacker, BitPacker1x, BitPacker4x, BitPacker8x};
use std::alloc::Global;
use std::process::Abort;

/// The version 2 list of blocks with these widths and last values.
fn ones(rt: &impl Abort, alloc: Global, start: [u8; 3], blocks: &[(u8, u32)]) -> Vec<u8> {
    let mut entries = Vec::new(alloc);
    let (mut count, mut offset): (u32, u32) = (0, 0);
    for (width, last) in blocks {
        push_bytes(rt, &mut entries, &[*width]);
        push_bytes(rt, &mut entries, &offset.to_le_bytes());
        push_bytes(rt, &mut entries, &last.to_le_bytes());
        offset = offset.wrapping_add(*width as u32);
        count = count.wrapping_add(32 * start[2] as u32);
    }
    let mut encoding = Vec::new(alloc);
    push_bytes(rt, &mut encoding, &start);
    push_bytes(rt, &mut encoding, &count.to_le_bytes());
    push_bytes(rt, &mut encoding, &entries);
    push_ones(rt, &mut encoding, start[2], offset);
    encoding
}

/// Appends bodies of `lanes` lanes with this sum of widths.
fn push_ones(rt: &impl Abort, encoding: &mut Vec<u8>, lanes: u8, widths: u32) {
    for _ in 0..lanes as u64 * widths as u64 {
        push_bytes(rt, encoding, &[255; 4]);
    }
}

/// Blocks of ones are opened, or out of order at a position.
fn opens<P: BitPacker>(
    rt: &impl Abort,
    alloc: Global,
    packer: &P,
    start: [u8; 3],
    blocks: &[(u8, u32)],
    out: Option<usize>,
) {
    let encoding = ones(rt, alloc, start, blocks);
    let expected = match out {
        Some(position) => Err(ListError::NotSorted(position)),
        None => Ok(()),
    };
    returns(rt, opened(packer, &encoding), expected, &encoding);
}

/// Sorted blocks; 2 ^ `width` is 2 ^ 32 over the values of a block.
fn sorted_blocks<P: BitPacker>(rt: &impl Abort, alloc: Global, packer: &P, lanes: u8, width: u8)
    requires { (lanes ≤ 8) × (width ≤ 27) }
{
    let n = 32 * lanes as u32;
    let (block, start) = (32 * lanes as usize, [2, 1, lanes]);
    let last = 0u32.wrapping_sub(n);
    opens(rt, alloc, packer, start, &[(width, last)], None);
    opens(rt, alloc, packer, start, &[(0, 0), (width, last)], None);
    // The last value is 0, and the value before the block 32 for each lane.
    let out = Some((2 * block).saturating_sub(1));
    opens(rt, alloc, packer, start, &[(1, n), (width, 0)], out);
    // The value in the middle wraps, and the last is as above.
    let out = Some(block / 2);
    opens(rt, alloc, packer, start, &[(width + 1, last)], out);
    let out = Some(block + block / 2);
    opens(rt, alloc, packer, start, &[(0, 0), (width + 1, last)], out);
}

/// Strictly sorted ones.
fn strict_blocks<P: BitPacker>(rt: &impl Abort, alloc: Global, packer: &P, lanes: u8, width: u8)
    requires { (lanes ≤ 8) × (1 ≤ width) × (width ≤ 27) }
{
    let (block, start) = (32 * lanes as usize, [2, 2, lanes]);
    let first = (32 * lanes as u32).wrapping_sub(1);
    let half = first.wrapping_add(1 << 31);
    opens(rt, alloc, packer, start, &[(width, u32::MAX)], None);
    let blocks = [(0, first), (width - 1, half)];
    opens(rt, alloc, packer, start, &blocks, None);
    // The steps are 2 ^ 32 together: the last value is the one before the block.
    let out = Some((2 * block).saturating_sub(1));
    opens(rt, alloc, packer, start, &[(0, first), (width, first)], out);
    // They are twice that.
    let out = Some(block / 2);
    opens(rt, alloc, packer, start, &[(width + 1, u32::MAX)], out);
    let out = Some((block + block / 2).saturating_sub(1));
    opens(
        rt,
        alloc,
        packer,
        start,
        &[(0, first), (width + 1, first)],
        out,
    );
}

#[test]
fn blocks_that_wrap_are_not_opened(rt: HostRuntime) {
    let alloc = rt.alloc();
    sorted_blocks(&rt, alloc, &BitPacker1x::new(), 1, 27);
    sorted_blocks(&rt, alloc, &BitPacker4x::new(), 4, 25);
    sorted_blocks(&rt, alloc, &BitPacker8x::new(), 8, 24);
    strict_blocks(&rt, alloc, &BitPacker1x::new(), 1, 27);
    strict_blocks(&rt, alloc, &BitPacker4x::new(), 4, 25);
    strict_blocks(&rt, alloc, &BitPacker8x::new(), 8, 24);
}

/// Appends values, each a step above the one before, modulo 2 ^ 32. Returns the last.
fn push_steps(rt: &impl Abort, values: &mut Vec<u32>, before: u32, step: u32, count: usize) -> u32 {
    let mut value = before;
    for _ in 0..count {
        value = value.wrapping_add(step);
        push(rt, values, value);
    }
    value
}

/// Two blocks with these steps, after a value, and one value more are out of order at a position.
fn is_out<P: BitPacker>(
    rt: &impl Abort,
    alloc: Global,
    packer: &P,
    kind: ListKind,
    (before, first, second): (u32, u32, u32),
    position: Option<usize>,
) {
    let mut values = Vec::new(alloc);
    let last = push_steps(rt, &mut values, before, first, P::BLOCK_LEN);
    let last = push_steps(rt, &mut values, last, second, P::BLOCK_LEN);
    push(rt, &mut values, last.wrapping_add(1));
    is_packed(rt, alloc, packer, (kind, &values), position);
}

/// The values are packed, or refused at a position.
fn is_packed<P: BitPacker>(
    rt: &impl Abort,
    alloc: Global,
    packer: &P,
    (kind, values): (ListKind, &[u32]),
    out: Option<usize>,
) {
    let mut encoding = nine(rt, alloc);
    let room = encoding.capacity();
    let outcome = encode2(packer, kind, values, &mut encoding);
    match out {
        Some(position) => {
            returns(rt, outcome, Err(ListError::NotSorted(position)), &[]);
            unchanged_bytes(rt, &encoding, room);
        }
        None => returns(rt, outcome, Ok(()), &[]),
    }
}

/// As above when they are opened; `step` is 2 ^ 32 over the values of a block.
fn blocks_out<P: BitPacker>(rt: &impl Abort, alloc: Global, packer: &P, step: u32)
    requires { (1 ≤ step) × (step ≤ 2 ^ 27) }
{
    let (sorted, strict) = (ListKind::Sorted, ListKind::StrictlySorted);
    let (block, twice) = (P::BLOCK_LEN, 2 * step - 1);
    let last = Some((2 * block).saturating_sub(1));
    let middle = Some(block + block / 2);
    is_out(rt, alloc, packer, sorted, (0, 0, step - 1), None);
    is_out(rt, alloc, packer, sorted, (0, 1, step - 1), last);
    is_out(rt, alloc, packer, sorted, (0, 0, twice), middle);
    let halved = step / 2;
    is_out(rt, alloc, packer, strict, (u32::MAX, 1, halved), None);
    is_out(rt, alloc, packer, strict, (u32::MAX, 1, step), last);
    let twice = (u32::MAX, 1, 2 * step);
    let middle = Some((block + block / 2).saturating_sub(1));
    is_out(rt, alloc, packer, strict, twice, middle);
}

#[test]
fn blocks_that_wrap_are_not_packed(rt: HostRuntime) {
    let alloc = rt.alloc();
    blocks_out(&rt, alloc, &BitPacker1x::new(), 1 << 27);
    blocks_out(&rt, alloc, &BitPacker4x::new(), 1 << 25);
    blocks_out(&rt, alloc, &BitPacker8x::new(), 1 << 24);
}

/// Three blocks and a tail of even numbers. The one at a position is as the one before it.
fn one_out<P: BitPacker>(rt: &impl Abort, alloc: Global, packer: &P, position: usize)
    requires { 1 ≤ position }
{
    let mut values = Vec::new(alloc);
    push_steps(rt, &mut values, 0, 2, 3 * P::BLOCK_LEN + 40);
    if position < values.len() {
        values[position] = values[position - 1];
    }
    let list = (ListKind::StrictlySorted, values.as_slice());
    is_packed(rt, alloc, packer, list, Some(position));
}

#[test]
fn each_value_out_of_order(rt: HostRuntime) {
    let alloc = rt.alloc();
    for position in 1..136 {
        one_out(&rt, alloc, &BitPacker1x::new(), position);
    }
    for position in [1, 127, 128, 129, 383, 384, 385, 423] {
        one_out(&rt, alloc, &BitPacker4x::new(), position);
    }
    for position in [1, 255, 256, 257, 767, 768, 769, 807] {
        one_out(&rt, alloc, &BitPacker8x::new(), position);
    }
}
