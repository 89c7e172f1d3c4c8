//! The reply to `upgrade`, by any packer.

ghost use Rattle.std.specs.Prelude.{IfOk};
ghost use Rattle.bitpack.specs.Grammar.{Upgrade};
ghost use Rattle.bitpack.specs.Answers.{IsReply, printed};

use super::Answer;
use super::formatting::{format_bytes, refuse};
use super::lists::LIST_REFUSALS;
use crate::ListError;
use crate::list2::upgrade;
use bitpacking::BitPacker;
use std::alloc::{AllocError, Global};

pub(crate) fn answer_upgrade<P: BitPacker>(
    alloc: Global,
    packer: &P,
    bytes: &[u8],
) -> Result<Answer, AllocError>
    ensures { IfOk result (λ answer. IsReply P.lanes (Upgrade bytes.now) (printed answer)) }
{
    let mut encoding = Vec::new(alloc);
    match upgrade(packer, bytes, &mut encoding) {
        Ok(()) => format_bytes(alloc, encoding.as_slice()),
        Err(ListError::Memory) => Err(AllocError),
        Err(fault) => refuse(alloc, LIST_REFUSALS + fault.number()),
    }
}
