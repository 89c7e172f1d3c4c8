//! The replies to `size`, `width`, `pack` and `unpack`, by any packer.

ghost use Rattle.std.specs.Prelude.{IfOk};
ghost use Rattle.bitpack.specs.Grammar.{Pack, Size, Unpack, Width};
ghost use Rattle.bitpack.specs.Answers.{IsReply, printed};

use super::formatting::{copy_values, format_bytes, format_number, refuse};
use super::{Answer, NOT_A_BLOCK, NOT_ITS_BYTES, TOO_GREAT, TOO_WIDE};
use bitpacking::{BitPacker, Counted, Kind, MAX_BLOCK_LEN, MAX_BLOCK_SIZE, MAX_WIDTH, Steps};
use std::alloc::{AllocError, Global};

pub(crate) fn answer_size<P: BitPacker>(alloc: Global, width: u8) -> Result<Answer, AllocError>
    ensures { IfOk result (λ answer. IsReply P.lanes (Size width) (printed answer)) }
{
    format_number(alloc, P::compressed_block_size(width))
}

pub(crate) fn answer_width<P: Counted>(
    alloc: Global,
    packer: &P,
    kind: Kind,
    values: &[u32],
) -> Result<Answer, AllocError>
    ensures { IfOk result (λ answer. IsReply P.lanes (Width kind values.now) (printed answer)) }
{
    if values.len() != P::BLOCK_LEN {
        return refuse(alloc, NOT_A_BLOCK);
    }
    format_number(
        alloc,
        packer.width_counted(kind, values, &mut Steps::new()) as usize,
    )
}

pub(crate) fn answer_pack<P: Counted>(
    alloc: Global,
    packer: &P,
    kind: Kind,
    width: u8,
    values: &[u32],
) -> Result<Answer, AllocError>
    ensures { IfOk result (λ answer. IsReply P.lanes (Pack kind width values.now) (printed answer)) }
{
    if values.len() != P::BLOCK_LEN {
        return refuse(alloc, NOT_A_BLOCK);
    }
    if width > MAX_WIDTH {
        return refuse(alloc, TOO_WIDE);
    }
    if width < packer.width_counted(kind, values, &mut Steps::new()) {
        return refuse(alloc, TOO_GREAT);
    }
    let mut bytes = [0; MAX_BLOCK_SIZE];
    let byte_len = packer.pack_counted(kind, values, &mut bytes, width, &mut Steps::new());
    format_bytes(alloc, &bytes[..byte_len])
}

pub(crate) fn answer_unpack<P: Counted>(
    alloc: Global,
    packer: &P,
    kind: Kind,
    width: u8,
    bytes: &[u8],
) -> Result<Answer, AllocError>
    ensures { IfOk result (λ answer. IsReply P.lanes (Unpack kind width bytes.now) (printed answer)) }
{
    if width > MAX_WIDTH {
        return refuse(alloc, TOO_WIDE);
    }
    if bytes.len() != P::compressed_block_size(width) {
        return refuse(alloc, NOT_ITS_BYTES);
    }
    let mut block = [0; MAX_BLOCK_LEN];
    packer.unpack_counted(kind, bytes, &mut block, width, &mut Steps::new());
    copy_values(alloc, &block[..P::BLOCK_LEN])
}
