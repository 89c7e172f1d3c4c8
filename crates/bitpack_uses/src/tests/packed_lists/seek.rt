//! Searches in packed lists of version 2. The results for single lists were worked by hand, as the lists were; those for lists that are
//! packed here are found by a walk over the values.

use super::list2::thirty_three;
use crate::tests::calls::{encode2, open, seek};
use crate::tests::checks::{push, returns, steps, succeeds};
use bitpack::ListKind;
use bitpack::list2::PackedList;
use bitpacking::{BitPacker, BitPacker1x, BitPacker4x, BitPacker8x};
use std::alloc::Global;
use std::process::Abort;

/// Sorted, one lane: 7 at each of 64 positions. Each code is 0 but the first, which is 7.
pub(super) const SEVENS: [u8; 37] = [
    2, 1, 1, 0x40, 0, 0, 0, 3, 0, 0, 0, 0, 7, 0, 0, 0, 0, 3, 0, 0, 0, 7, 0, 0, 0, 7, 0, 0, 0, 0, 0,
    0, 0, 0, 0, 0, 0,
];

/// Sorted, one lane: 1 to 32, and then 34 to 96 in steps of 2.
pub(super) const TWO_STEPS: [u8; 37] = [
    2, 1, 1, 0x40, 0, 0, 0, 1, 0, 0, 0, 0, 0x20, 0, 0, 0, 2, 1, 0, 0, 0, 0x60, 0, 0, 0, 0xff, 0xff,
    0xff, 0xff, 0xaa, 0xaa, 0xaa, 0xaa, 0xaa, 0xaa, 0xaa, 0xaa,
];

/// Strictly sorted, one lane: 0 to 159.
pub(super) const COUNTED: [u8; 52] = [
    2, 2, 1, 0xa0, 0, 0, 0, 0, 0, 0, 0, 0, 0x1f, 0, 0, 0, 0, 0, 0, 0, 0, 0x3f, 0, 0, 0, 0, 0, 0, 0,
    0, 0x5f, 0, 0, 0, 0, 0, 0, 0, 0, 0x7f, 0, 0, 0, 0, 0, 0, 0, 0, 0x9f, 0, 0, 0,
];

/// A search in the list, which is in order, finds this.
fn list_finds<P: BitPacker>(
    rt: &impl Abort,
    list: &PackedList<'_, P>,
    target: u32,
    found: Option<(usize, u32)>,
) {
    assert_eq!(rt; seek(rt, list, target), found, "{target}");
}

/// A search in the list, which is in order, finds this.
fn finds(rt: &impl Abort, encoding: &[u8], target: u32, found: Option<(usize, u32)>) {
    match open(&BitPacker1x::new(), encoding) {
        Ok(list) => list_finds(rt, &list, target, found),
        Err(error) => returns(rt, Err(error), Ok(()), encoding),
    }
}

/// Each search in the list, which is in order, finds what stands beside its target.
fn finds_each(rt: &impl Abort, encoding: &[u8], searches: &[(u32, Option<(usize, u32)>)]) {
    for (target, found) in searches {
        finds(rt, encoding, *target, *found);
    }
}

#[test]
fn worked_searches(rt: HostRuntime) {
    let sevens = [
        (0, Some((0, 7))),
        (7, Some((0, 7))),
        (8, None),
        (u32::MAX, None),
    ];
    finds_each(&rt, &SEVENS, &sevens);
    let five = [2, 1, 1, 1, 0, 0, 0, 5, 0, 0, 0];
    finds_each(&rt, &five, &[(5, Some((0, 5))), (6, None)]);
    finds(&rt, &COUNTED, 100, Some((100, 100)));
    finds_each(&rt, &TWO_STEPS, &[(33, Some((32, 34))), (97, None)]);
    let counted = [
        (0, Some((0, 0))),
        (31, Some((31, 31))),
        (32, Some((32, 32))),
        (33, None),
    ];
    finds_each(&rt, &thirty_three(0, 0, 31, 32), &counted);
    finds(&rt, &[2, 1, 1, 0, 0, 0, 0], 0, None);
}

/// The first of the values that is at least the target, by a walk.
fn walk(values: &[u32], target: u32) -> Option<(usize, u32)> {
    for position in 0..values.len() {
        if values[position] >= target {
            return Some((position, values[position]));
        }
    }
    None
}

/// The list finds this value, and the ones before and after it, at the positions that a walk over its values finds.
fn finds_near<P: BitPacker>(rt: &impl Abort, list: &PackedList<'_, P>, values: &[u32], value: u32) {
    for target in [value.saturating_sub(1), value, value.saturating_add(1)] {
        list_finds(rt, list, target, walk(values, target));
    }
}

/// Each of these values is sought in the list.
fn finds_all<P: BitPacker>(
    rt: &impl Abort,
    list: &PackedList<'_, P>,
    values: &[u32],
    sought: &[u32],
) {
    for value in sought {
        finds_near(rt, list, values, *value);
    }
}

/// The list is packed, and each of these values, and the ones before and after it, are sought in it.
fn is_searched<P: BitPacker>(
    rt: &impl Abort,
    alloc: Global,
    packer: &P,
    kind: ListKind,
    values: &[u32],
    sought: &[u32],
) {
    let mut encoding = Vec::new(alloc);
    succeeds(rt, encode2(packer, kind, values, &mut encoding), &[]);
    match open(packer, &encoding) {
        Ok(list) => finds_all(rt, &list, values, sought),
        Err(error) => returns(rt, Err(error), Ok(()), &encoding),
    }
}

/// So many values from 10 on, each a step more than the one before it.
pub(super) fn rising(rt: &impl Abort, alloc: Global, step: u32, count: usize) -> Vec<u32> {
    steps(rt, alloc, 10, step, count)
}

/// A list of this number of values, in both kinds.
fn small_list<P: BitPacker>(rt: &impl Abort, alloc: Global, packer: &P, count: usize) {
    let values = rising(rt, alloc, 3, count);
    for kind in [ListKind::Sorted, ListKind::StrictlySorted] {
        is_searched(rt, alloc, packer, kind, &values, &values);
        is_searched(rt, alloc, packer, kind, &values, &[0, u32::MAX]);
    }
}

/// A list in which a value is in many blocks, in the midst of two of them.
fn long_run<P: BitPacker>(rt: &impl Abort, alloc: Global, packer: &P) {
    let len = P::BLOCK_LEN;
    let mut values = Vec::new(alloc);
    for position in 0..6 * len + 7 {
        let value = if position < len + 3 {
            2
        } else if position < 5 * len + 1 {
            9
        } else {
            u32::MAX
        };
        push(rt, &mut values, value);
    }
    let sought = [0, 2, 9, u32::MAX];
    is_searched(rt, alloc, packer, ListKind::Sorted, &values, &sought);
}

/// Lists of no value, of one, of a block, and of more; and one in which a value is in many blocks.
fn small_lists<P: BitPacker>(rt: &impl Abort, alloc: Global, packer: &P) {
    let len = P::BLOCK_LEN;
    for count in [0, 1, len - 1, len, len + 1, 3 * len, 3 * len + 5] {
        small_list(rt, alloc, packer, count);
    }
    long_run(rt, alloc, packer);
}

#[test]
fn each_packer_searches(rt: HostRuntime) {
    small_lists(&rt, rt.alloc(), &BitPacker1x::new());
    small_lists(&rt, rt.alloc(), &BitPacker4x::new());
    small_lists(&rt, rt.alloc(), &BitPacker4x::scalar());
    small_lists(&rt, rt.alloc(), &BitPacker8x::new());
    small_lists(&rt, rt.alloc(), &BitPacker8x::scalar());
}

/// A million values. Some of them are sought.
fn a_million<P: BitPacker>(rt: &impl Abort, alloc: Global, packer: &P) {
    let values = rising(rt, alloc, 4, 1_000_000);
    let some = [0, 10, 14, 127 * 4 + 10, 1_999_998, 4_000_006, u32::MAX];
    is_searched(rt, alloc, packer, ListKind::StrictlySorted, &values, &some);
}

#[test]
fn a_million_values(rt: HostRuntime) {
    a_million(&rt, rt.alloc(), &BitPacker1x::new());
    a_million(&rt, rt.alloc(), &BitPacker4x::new());
    a_million(&rt, rt.alloc(), &BitPacker8x::new());
}
