//! Combines a body of blocks with a bitmap.

ghost use Rattle.std.specs.Prelude.{◌≡◌, ◌+◌, ◌*◌, ◌^◌, ◌<◌, ◌≤◌, length, map};
ghost use Rattle.bitpack_slices.specs.Bitmaps.{has_bit};
ghost use Rattle.bitpack_slices.specs.Follows.{Follow};
ghost use Rattle.bitpack_slices.specs.Lists.{in_bitmap};
ghost use Rattle.bitpack_slices.specs.Operations.{apply, those};
ghost use Rattle.bitpack_slices.specs.Reads.{has};
ghost use Rattle.bitpack_slices.specs.Selections.{numbers_at, parts_numbers};

use crate::bitmap::single_bits::test_bit;
use crate::bitmap::unpacking::{count_bits, unpack_bits, unpack_bits_within};
use crate::blocks::Blocks;
use crate::combined::{combined_word, possible_highs, retains_left};
use crate::operation::Operation;
use crate::slice::Slice;

/// Writes the numbers that an operation on blocks and on a bitmap of these high bytes gives, each with `base` added, if there is room for all.
/// Returns the index after the last, also if there is no room.
pub(crate) fn mix(
    operation: Operation,
    blocks: &Blocks,
    others: &[u64; 4],
    words: &[u64; 1024],
    base: u32,
    out: &mut [u32],
    at: usize,
) -> usize
    requires fits { base + 65536 ≤ 2 ^ 32 }
    requires start { at ≤ 2 ^ 32 }
    ensures { Follow (map (λ i. base + i) (those 65536 (λ x. apply operation (has x (parts_numbers blocks.now)) (in_bitmap others.now words.now x)))) out.old out.new at result }
{
    match operation {
        Operation::And => mix_each(Operation::And, blocks, others, words, base, out, at),
        Operation::Or => mix_each(Operation::Or, blocks, others, words, base, out, at),
        Operation::AndNot => mix_each(Operation::AndNot, blocks, others, words, base, out, at),
        Operation::Xor => mix_each(Operation::Xor, blocks, others, words, base, out, at),
    }
}

/// Writes the numbers that `mix` writes, for an operation that the caller names, so that each operation has a loop of its own.
#[inline(always)]
fn mix_each(
    operation: Operation,
    blocks: &Blocks,
    others: &[u64; 4],
    words: &[u64; 1024],
    base: u32,
    out: &mut [u32],
    at: usize,
) -> usize
    requires fits { base + 65536 ≤ 2 ^ 32 }
    requires start { at ≤ 2 ^ 32 }
    ensures { Follow (map (λ i. base + i) (those 65536 (λ x. apply operation (has x (parts_numbers blocks.now)) (in_bitmap others.now words.now x)))) out.old out.new at result }
{
    let mut highs = [0; 256];
    let many = unpack_bits(
        &possible_highs(operation, &blocks.highs, others),
        0,
        &mut highs,
        0,
    );
    let mut next = at;
    for high in &highs[..many] {
        let slice = blocks.slice(*high as usize);
        let start = base + 256 * *high;
        next = put_mixed(
            operation,
            slice,
            others,
            words,
            *high as usize,
            start,
            out,
            next,
        );
    }
    next
}

/// Writes the numbers that an operation gives on a slice and on the bits of its high byte, each with `base` added, if there is room for all. Returns
/// the index after the last, also if there is no room.
#[inline(always)]
fn put_mixed(
    operation: Operation,
    slice: Slice,
    others: &[u64; 4],
    words: &[u64; 1024],
    high: usize,
    base: u32,
    out: &mut [u32],
    at: usize,
) -> usize
    requires high { high < 256 }
    requires fits { base + 256 ≤ 2 ^ 32 }
    requires start { at ≤ 2 ^ 33 }
    ensures { Follow (map (λ i. base + i) (those 256 (λ i. apply operation (has i (numbers_at slice.entry)) (in_bitmap others.now words.now (256 * high + i))))) out.old out.new at result }
{
    if test_bit(others, high) {
        let from = 4 * high;
        let bits = mix_bits(operation, slice.bits(), &words[from..from + 4]);
        return put_bits(&bits, base, out, at);
    }
    if !retains_left(operation) {
        return at;
    }
    put_alone(slice, base, out, at)
}

/// The bits that an operation on two sets of 256 gives.
#[inline(always)]
fn mix_bits(operation: Operation, x: [u64; 4], y: &[u64]) -> [u64; 4]
    requires { length y.now ≡ 4 }
    ensures { those 256 (has_bit result) ≡ those 256 (λ i. apply operation (has_bit x i) (has_bit y.now i)) }
{
    [
        combined_word(operation, x[0], y[0]),
        combined_word(operation, x[1], y[1]),
        combined_word(operation, x[2], y[2]),
        combined_word(operation, x[3], y[3]),
    ]
}

/// Writes the numbers of bits that are 1.
#[inline(always)]
fn put_bits(bits: &[u64; 4], base: u32, out: &mut [u32], at: usize) -> usize
    requires fits { base + 256 ≤ 2 ^ 32 }
    requires start { at ≤ 2 ^ 33 }
    ensures { Follow (map (λ i. base + i) (those 256 (has_bit bits.now))) out.old out.new at result }
{
    let end = at + count_bits(bits);
    if end <= out.len() {
        return unpack_bits_within(bits, base, out, at);
    }
    end
}

/// Writes the numbers of a slice.
#[inline(always)]
fn put_alone(slice: Slice, base: u32, out: &mut [u32], at: usize) -> usize
    requires fits { base + 256 ≤ 2 ^ 32 }
    requires start { at ≤ 2 ^ 33 }
    ensures { Follow (map (λ i. base + i) (numbers_at slice.entry)) out.old out.new at result }
{
    let end = at + slice.count;
    if end <= out.len() {
        return slice.unpack(base, out, at);
    }
    end
}
