//! The replies to `enc`, `dec` and `seek`, by any packer.

ghost use Rattle.std.specs.Prelude.{◌≡◌, ◌==◌, IfOk, slice_index};
ghost use Rattle.bitpack.specs.Grammar.{Dec, Enc, Seek};
ghost use Rattle.bitpack.specs.Answers.{IsReply, printed, sought};
ghost use Rattle.bitpack_lists.specs.Opened.{kind_of, values};

use super::Answer;
use super::formatting::{format_bytes, format_found, refuse};
use crate::list::{decode, encode};
use crate::list2::{PackedList, Reads};
use crate::{ListError, ListKind};
use bitpacking::BitPacker;
use std::alloc::{AllocError, Global};

/// A list's fault is refused by its number and this.
pub(super) const LIST_REFUSALS: u8 = 20;

pub(crate) fn answer_enc<P: BitPacker>(
    alloc: Global,
    packer: &P,
    kind: ListKind,
    values: &[u32],
) -> Result<Answer, AllocError>
    ensures { IfOk result (λ answer. IsReply P.lanes (Enc kind values.now) (printed answer)) }
{
    let mut bytes = Vec::new(alloc);
    // A line has fewer values than a list may have, so the only error is memory.
    match encode(packer, kind, values, &mut bytes) {
        Ok(()) => format_bytes(alloc, bytes.as_slice()),
        Err(_) => Err(AllocError),
    }
}

/// Whether byte 0 names version 2. All other bytes are read as a version 1 list.
fn is_version_2(bytes: &[u8]) -> bool
    ensures { result ≡ (slice_index bytes.now 0 == 2) }
{
    !bytes.is_empty() && bytes[0] == 2
}

pub(crate) fn answer_dec<P: BitPacker>(
    alloc: Global,
    packer: &P,
    bytes: &[u8],
) -> Result<Answer, AllocError>
    ensures { IfOk result (λ answer. IsReply P.lanes (Dec bytes.now) (printed answer)) }
{
    if is_version_2(bytes) {
        return match PackedList::open(*packer, bytes) {
            Ok(list) => Ok(Answer::List(list.kind(), values_of(alloc, &list)?)),
            Err(fault) => refuse(alloc, LIST_REFUSALS + fault.number()),
        };
    }
    let mut values = Vec::new(alloc);
    match decode(packer, bytes, &mut values) {
        Ok(kind) => Ok(Answer::List(kind, values)),
        Err(ListError::Memory) => Err(AllocError),
        Err(fault) => refuse(alloc, LIST_REFUSALS + fault.number()),
    }
}

/// The values of an opened list.
fn values_of<P: BitPacker>(alloc: Global, list: &PackedList<'_, P>) -> Result<Vec<u32>, AllocError>
    ensures { IfOk result (λ all. all.items ≡ values list.now) }
{
    let mut all = Vec::new(alloc);
    if list.append_to(&mut all).is_err() {
        return Err(AllocError);
    }
    Ok(all)
}

pub(crate) fn answer_seek<P: BitPacker>(
    alloc: Global,
    packer: &P,
    target: u32,
    bytes: &[u8],
) -> Result<Answer, AllocError>
    ensures { IfOk result (λ answer. IsReply P.lanes (Seek target bytes.now) (printed answer)) }
{
    match PackedList::open(*packer, bytes) {
        Ok(list) => seek_in(alloc, &list, target),
        Err(fault) => refuse(alloc, LIST_REFUSALS + fault.number()),
    }
}

/// The answer of an opened list. A plain list cannot be searched, and is refused for its kind.
fn seek_in<P: BitPacker>(
    alloc: Global,
    list: &PackedList<'_, P>,
    target: u32,
) -> Result<Answer, AllocError>
    ensures { IfOk result (λ answer. printed answer ≡ sought (kind_of list.now) (values list.now) target) }
{
    if list.kind() == ListKind::Plain {
        return refuse(alloc, LIST_REFUSALS + ListError::BadKind(0).number());
    }
    format_found(alloc, list.seek(target, &mut Reads::new()))
}
