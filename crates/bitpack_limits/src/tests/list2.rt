//! Lists of version 2, read or refused.

use crate::tests::calls::{open, value_at};
use crate::tests::checks::{is_true, returns, same_number};
use bitpack::list2::PackedList;
use bitpack::{ListError, ListKind};
use bitpacking::BitPacker;
use std::process::Abort;

/// What opening the bytes returns, without the list.
pub(super) fn opened<P: BitPacker>(packer: &P, encoding: &[u8]) -> Result<(), ListError> {
    match open(packer, encoding) {
        Ok(_) => Ok(()),
        Err(error) => Err(error),
    }
}

/// The bytes are refused.
pub(super) fn is_refused<P: BitPacker>(
    rt: &impl Abort,
    packer: &P,
    encoding: &[u8],
    error: ListError,
) {
    returns(rt, opened(packer, encoding), Err(error), encoding);
}

/// All of these bytes are refused.
pub(super) fn are_refused<P: BitPacker>(rt: &impl Abort, packer: &P, cases: &[(&[u8], ListError)]) {
    for (encoding, error) in cases {
        is_refused(rt, packer, encoding, *error);
    }
}

/// The list has this value at this position, or none.
fn has_value<P: BitPacker>(
    rt: &impl Abort,
    list: &PackedList<'_, P>,
    position: usize,
    value: Option<u32>,
) {
    assert_eq!(rt; value_at(list, position), value, "at {position}");
}

/// The list has this kind and these values.
fn has_values<P: BitPacker>(
    rt: &impl Abort,
    list: &PackedList<'_, P>,
    kind: ListKind,
    values: &[u32],
) {
    is_true(rt, list.kind() == kind, "the kind");
    same_number(rt, list.len(), values.len(), "values");
    for position in 0..values.len() {
        has_value(rt, list, position, Some(values[position]));
    }
    has_value(rt, list, values.len(), None);
    has_value(rt, list, usize::MAX, None);
}

/// The bytes are opened, and have this kind and these values.
pub(super) fn is_list<P: BitPacker>(
    rt: &impl Abort,
    packer: &P,
    kind: ListKind,
    values: &[u32],
    encoding: &[u8],
) {
    match open(packer, encoding) {
        Ok(list) => has_values(rt, &list, kind, values),
        Err(error) => returns(rt, Err(error), Ok(()), encoding),
    }
}

/// Strictly sorted, 0 to 32, with other bytes at four offsets: the width, and the lowest bytes of the offset, the last value and the
/// tail. With 0, 0, 31 and 32 it is right.
pub(super) fn thirty_three(width: u8, offset: u8, last: u8, tail: u8) -> [u8; 20] {
    [
        2, 2, 1, 33, 0, 0, 0, width, offset, 0, 0, 0, last, 0, 0, 0, tail, 0, 0, 0,
    ]
}
