//! What is found in packed lists by a search and by an intersection. The bytes and the results were worked by hand.

use super::calls::open;
use super::checks::{is_true, returns, same_values};
use crate::{reads, shared_values};
use bitpack::list2::{PackedList, Reads};
use bitpack::{ListError, ListKind};
use bitpacking::{BitPacker, BitPacker1x, BitPacker4x};
use std::alloc::Global;
use std::process::Abort;

/// Strictly sorted 1, 5 and 9, in one lane.
const ODD: [u8; 19] = [2, 2, 1, 3, 0, 0, 0, 1, 0, 0, 0, 5, 0, 0, 0, 9, 0, 0, 0];

/// Sorted 5, 5 and 8, in four lanes.
const MIXED: [u8; 19] = [2, 1, 4, 3, 0, 0, 0, 5, 0, 0, 0, 5, 0, 0, 0, 8, 0, 0, 0];

/// Whether the list ends below this target. A search for it counts in a `Reads` of its own.
fn ends(rt: &impl Abort, list: &PackedList<'_, BitPacker1x>, target: u32, expected: bool) {
    if list.kind() == ListKind::Plain {
        assert!(rt; false, "the list is in order");
        return;
    }
    reads::search(list, target);
    let found = reads::ends_below(list, target, &mut Reads::new());
    is_true(rt, found == expected, "the end");
}

/// What the two lists share.
fn shared(
    alloc: Global,
    a: &PackedList<'_, BitPacker1x>,
    b: &PackedList<'_, BitPacker4x>,
) -> Option<Result<Vec<u32>, ListError>> {
    if a.kind() == ListKind::Plain || b.kind() == ListKind::Plain {
        return None;
    }
    Some(shared_values::find(alloc, a, b))
}

/// Appends what the two lists share.
fn append(
    a: &PackedList<'_, BitPacker1x>,
    b: &PackedList<'_, BitPacker4x>,
    out: &mut Vec<u32>,
) -> Result<(), ListError> {
    if a.kind() == ListKind::Plain || b.kind() == ListKind::Plain {
        return Err(ListError::BadKind(0));
    }
    shared_values::append(a, b, out, &mut Reads::new(), &mut Reads::new())
}

#[test]
fn shared_values(rt: HostRuntime) {
    let a = open(&BitPacker1x::new(), &ODD).expect(&rt, "a list");
    let b = open(&BitPacker4x::new(), &MIXED).expect(&rt, "a list");
    ends(&rt, &a, 9, false);
    ends(&rt, &a, 10, true);
    let found = shared(rt.alloc(), &a, &b).expect(&rt, "lists in order");
    let mut out = found.expect(&rt, "memory");
    same_values(&rt, &out, &[5]);
    returns(&rt, append(&a, &b, &mut out), Ok(()), &ODD);
    same_values(&rt, &out, &[5, 5]);
}
