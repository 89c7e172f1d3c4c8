//! The calls on packed lists, each once and with no contract. The proof of a test does not read what a call promises, so it is short
//! if the test calls these.

use super::checks::is_true;
use bitpack::list2::{PackedList, Reads, intersect};
use bitpack::{ListError, ListKind, list, list2};
use bitpacking::BitPacker;
use std::process::Abort;

/// Encodes in version 1.
pub(super) fn encode1<P: BitPacker>(
    packer: &P,
    kind: ListKind,
    values: &[u32],
    out: &mut Vec<u8>,
) -> Result<(), ListError> {
    list::encode(packer, kind, values, out)
}

/// Decodes a version 1 list.
pub(super) fn decode1<P: BitPacker>(
    packer: &P,
    encoding: &[u8],
    out: &mut Vec<u32>,
) -> Result<ListKind, ListError> {
    list::decode(packer, encoding, out)
}

/// Encodes in version 2.
pub(super) fn encode2<P: BitPacker>(
    packer: &P,
    kind: ListKind,
    values: &[u32],
    out: &mut Vec<u8>,
) -> Result<(), ListError> {
    list2::encode(packer, kind, values, out)
}

/// Converts a version 1 list to version 2.
pub(super) fn upgrade<P: BitPacker>(
    packer: &P,
    encoding: &[u8],
    out: &mut Vec<u8>,
) -> Result<(), ListError> {
    list2::upgrade(packer, encoding, out)
}

/// Opens a version 2 list.
pub(super) fn open<'a, P: BitPacker>(
    packer: &P,
    encoding: &'a [u8],
) -> Result<PackedList<'a, P>, ListError> {
    PackedList::open(*packer, encoding)
}

/// The value at a position.
pub(super) fn value_at<P: BitPacker>(list: &PackedList<'_, P>, position: usize) -> Option<u32> {
    list.get(position)
}

/// Seeks in a list, which has to be in order.
pub(super) fn seek<P: BitPacker>(
    rt: &impl Abort,
    list: &PackedList<'_, P>,
    target: u32,
) -> Option<(usize, u32)> {
    if list.kind() == ListKind::Plain {
        assert!(rt; false, "a plain list is not searched");
        return None;
    }
    list.seek(target, &mut Reads::new())
}

/// What `intersect` returns for two lists, or `None` if the bytes of one of them are no list in order.
pub(super) fn intersect_encodings<P: BitPacker, Q: BitPacker>(
    (packer, encoding): (&P, &[u8]),
    (other_packer, other_encoding): (&Q, &[u8]),
    out: &mut Vec<u32>,
) -> Option<Result<(), ListError>> {
    let Ok(a) = open(packer, encoding) else {
        return None;
    };
    let Ok(b) = open(other_packer, other_encoding) else {
        return None;
    };
    if a.kind() == ListKind::Plain || b.kind() == ListKind::Plain {
        return None;
    }
    Some(intersect(&a, &b, out, &mut Reads::new(), &mut Reads::new()))
}

/// Appends all values.
pub(super) fn unpack<P: BitPacker>(rt: &impl Abort, list: &PackedList<'_, P>, out: &mut Vec<u32>) {
    is_true(rt, list.append_to(out).is_ok(), "memory");
}
