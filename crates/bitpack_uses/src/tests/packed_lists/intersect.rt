//! Intersections of packed lists. The results for single lists were worked by hand; those for lists that are packed here are found by
//! a walk over the values, or by the rule that made the values.

use super::list2::thirty_three;
use super::seek::{COUNTED, SEVENS, TWO_STEPS, rising};
use crate::tests::calls::{encode2, intersect_encodings};
use crate::tests::checks::{
    Numbers, appended_values, one_value, push, push_steps, steps, succeeds,
};
use bitpack::{ListError, ListKind};
use bitpacking::{BitPacker, BitPacker1x, BitPacker4x, BitPacker8x};
use std::alloc::Global;
use std::process::Abort;

/// `intersect_encodings` returned this.
fn returned(
    rt: &impl Abort,
    found: Option<Result<(), ListError>>,
    expected: Option<Result<(), ListError>>,
    encoding: &[u8],
    other: &[u8],
) {
    assert_eq!(rt; found, expected, "{encoding:?} and {other:?}");
}

/// What two lists share is appended, and what was in the vector is unchanged.
fn encodings_share<P: BitPacker, Q: BitPacker>(
    rt: &impl Abort,
    alloc: Global,
    (packer, encoding): (&P, &[u8]),
    (other_packer, other_encoding): (&Q, &[u8]),
    shared: &[u32],
) {
    let mut out = one_value(rt, alloc, 9);
    let outcome = intersect_encodings((packer, encoding), (other_packer, other_encoding), &mut out);
    returned(rt, outcome, Some(Ok(())), encoding, other_encoding);
    appended_values(rt, &out, 9, shared);
}

/// The list is packed.
fn packed<P: BitPacker>(
    rt: &impl Abort,
    alloc: Global,
    packer: &P,
    kind: ListKind,
    values: &[u32],
) -> Vec<u8> {
    let mut encoding = Vec::new(alloc);
    succeeds(rt, encode2(packer, kind, values, &mut encoding), &[]);
    encoding
}

/// The lists are packed, and what they share is appended.
fn lists_share<P: BitPacker, Q: BitPacker>(
    rt: &impl Abort,
    alloc: Global,
    (packer, kind, values): (&P, ListKind, &[u32]),
    (other_packer, other_kind, others): (&Q, ListKind, &[u32]),
    shared: &[u32],
) {
    let encoding = packed(rt, alloc, packer, kind, values);
    let other_encoding = packed(rt, alloc, other_packer, other_kind, others);
    encodings_share(
        rt,
        alloc,
        (packer, &encoding),
        (other_packer, &other_encoding),
        shared,
    );
}

/// Pairs of lists of one lane share these values.
fn pairs_share(rt: &impl Abort, alloc: Global, cases: &[(&[u8], &[u8], &[u32])]) {
    let packer = BitPacker1x::new();
    for (encoding, other, shared) in cases {
        encodings_share(rt, alloc, (&packer, encoding), (&packer, other), shared);
    }
}

#[test]
fn worked_intersections(rt: HostRuntime) {
    let alloc = rt.alloc();
    let hundred: &[u8] = &[2, 2, 1, 1, 0, 0, 0, 100, 0, 0, 0];
    let none: &[u8] = &[2, 1, 1, 0, 0, 0, 0];
    let to_32: &[u8] = &thirty_three(0, 0, 31, 32);
    // 1 to 32.
    let from_1 = steps(&rt, alloc, 1, 1, 32);
    let cases: [(&[u8], &[u8], &[u32]); 8] = [
        (hundred, &COUNTED, &[100]),
        (&COUNTED, hundred, &[100]),
        (&COUNTED, none, &[]),
        (&SEVENS, to_32, &[7]),
        (to_32, &SEVENS, &[7]),
        (&TWO_STEPS, to_32, &from_1),
        (none, to_32, &[]),
        (none, none, &[]),
    ];
    pairs_share(&rt, alloc, &cases);
}

/// Two lists and what they share, packed by one packer and the other.
fn both_ways(
    rt: &impl Abort,
    alloc: Global,
    (kind, values): (ListKind, &[u32]),
    (other_kind, others): (ListKind, &[u32]),
    shared: &[u32],
) {
    let four = BitPacker4x::new();
    let eight = BitPacker8x::scalar();
    let (one, other) = ((&four, kind, values), (&eight, other_kind, others));
    lists_share(rt, alloc, one, other, shared);
    let (one, other) = ((&eight, kind, values), (&four, other_kind, others));
    lists_share(rt, alloc, one, other, shared);
}

#[test]
fn worked_intersections_of_two_packers(rt: HostRuntime) {
    let alloc = rt.alloc();
    // 0 to 159, 0 to 32, and 1 to 32.
    let counted = steps(&rt, alloc, 0, 1, 160);
    let to_32 = steps(&rt, alloc, 0, 1, 33);
    let from_1 = steps(&rt, alloc, 1, 1, 32);
    let mut two_steps = steps(&rt, alloc, 1, 1, 32);
    push_steps(&rt, &mut two_steps, 34, 2, 32);
    let (strict, sorted) = (ListKind::StrictlySorted, ListKind::Sorted);
    let (hundred, counted): (&[u32], &[u32]) = (&[100], &counted);
    both_ways(&rt, alloc, (strict, hundred), (strict, counted), &[100]);
    both_ways(&rt, alloc, (strict, counted), (strict, hundred), &[100]);
    both_ways(&rt, alloc, (strict, counted), (sorted, &[]), &[]);
    both_ways(&rt, alloc, (sorted, &[7; 64]), (strict, &to_32), &[7]);
    both_ways(&rt, alloc, (sorted, &two_steps), (strict, &to_32), &from_1);
    both_ways(&rt, alloc, (sorted, &[]), (strict, &to_32), &[]);
}

#[test]
fn the_greatest_value_ends_a_walk(rt: HostRuntime) {
    let packer = BitPacker1x::new();
    let ends: [u32; 66] = [u32::MAX; 66];
    let one = (&packer, ListKind::Sorted, ends.as_slice());
    let shared: &[u32] = &[u32::MAX];
    lists_share(&rt, rt.alloc(), one, one, shared);
    let two: &[u32] = &[0, u32::MAX];
    let other = (&packer, ListKind::StrictlySorted, two);
    lists_share(&rt, rt.alloc(), other, one, shared);
    lists_share(&rt, rt.alloc(), one, other, shared);
}

/// Up to `count` values in order: some of them repeat in a sorted list, and now and then there is a gap that is longer than a block.
fn random_values(
    rt: &impl Abort,
    alloc: Global,
    numbers: &mut Numbers,
    kind: ListKind,
    count: u32,
) -> Vec<u32> {
    let least = if kind == ListKind::Sorted { 0 } else { 1 };
    let mut values = Vec::new(alloc);
    let mut value = numbers.below(40);
    for _ in 0..numbers.below(count) {
        push(rt, &mut values, value);
        let gap = if numbers.below(50) == 0 { 300 } else { 0 };
        let step = numbers.below(4);
        value = value
            .wrapping_add(least)
            .wrapping_add(step)
            .wrapping_add(gap);
    }
    values
}

/// Whether a value is one of these.
fn has(values: &[u32], value: u32) -> bool {
    for other in values {
        if *other == value {
            return true;
        }
    }
    false
}

/// What two lists in order share: each value of the one that the other has, if it is not the one appended before.
fn merge(rt: &impl Abort, alloc: Global, values: &[u32], others: &[u32]) -> Vec<u32> {
    let mut shared: Vec<u32> = Vec::new(alloc);
    for value in values {
        if has(others, *value) && shared.last() != Some(value) {
            push(rt, &mut shared, *value);
        }
    }
    shared
}

/// A pair of lists with up to this number of values.
fn random_pair<P: BitPacker, Q: BitPacker>(
    rt: &impl Abort,
    alloc: Global,
    (packer, kind): (&P, ListKind),
    (other_packer, other_kind): (&Q, ListKind),
    numbers: &mut Numbers,
) {
    let values = random_values(rt, alloc, numbers, kind, 3 * P::BLOCK_LEN as u32);
    let others = random_values(rt, alloc, numbers, other_kind, 3 * Q::BLOCK_LEN as u32);
    let shared = merge(rt, alloc, &values, &others);
    let one = (packer, kind, values.as_slice());
    let other = (other_packer, other_kind, others.as_slice());
    lists_share(rt, alloc, one, other, &shared);
}

/// Pairs of lists from one seed.
fn random_pairs<P: BitPacker, Q: BitPacker>(
    rt: &impl Abort,
    alloc: Global,
    packer: &P,
    other_packer: &Q,
    seed: u32,
) {
    let mut numbers = Numbers::new(seed);
    let kinds = [ListKind::Sorted, ListKind::StrictlySorted];
    for pair in 0..200usize {
        let one = (packer, kinds[pair % 2]);
        let other = (other_packer, kinds[pair / 2 % 2]);
        random_pair(rt, alloc, one, other, &mut numbers);
    }
}

fn pairs_of_1x(rt: &impl Abort, alloc: Global) {
    let one = BitPacker1x::new();
    random_pairs(rt, alloc, &one, &one, 1);
    random_pairs(rt, alloc, &one, &BitPacker4x::new(), 2);
}

fn pairs_of_8x(rt: &impl Abort, alloc: Global) {
    let eight = BitPacker8x::new();
    random_pairs(rt, alloc, &BitPacker4x::new(), &eight, 3);
    random_pairs(rt, alloc, &eight, &BitPacker1x::new(), 4);
}

fn pairs_of_scalar_8x(rt: &impl Abort, alloc: Global) {
    let (eight, four) = (BitPacker8x::scalar(), BitPacker4x::new());
    random_pairs(rt, alloc, &eight, &four, 5);
}

#[test]
fn a_thousand_random_pairs(rt: HostRuntime) {
    pairs_of_1x(&rt, rt.alloc());
    pairs_of_8x(&rt, rt.alloc());
    pairs_of_scalar_8x(&rt, rt.alloc());
}

#[test]
fn a_million_values_and_a_hundred(rt: HostRuntime) {
    let alloc = rt.alloc();
    // 10 to 4,000,006 in steps of 4, and 10 to 4,059,109 in steps of 41,001. Each fourth of these is 10 and a multiple of 4, and the
    // first 25 of those are at most 4,000,006.
    let many = rising(&rt, alloc, 4, 1_000_000);
    let few = rising(&rt, alloc, 41_001, 100);
    let shared = rising(&rt, alloc, 164_004, 25);
    let strict = ListKind::StrictlySorted;
    let (four, eight) = (BitPacker4x::new(), BitPacker8x::new());
    let (many, few) = (
        (&four, strict, many.as_slice()),
        (&eight, strict, few.as_slice()),
    );
    lists_share(&rt, alloc, many, few, &shared);
    lists_share(&rt, alloc, few, many, &shared);
}
