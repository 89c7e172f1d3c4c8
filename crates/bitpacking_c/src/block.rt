//! The calls on one block, for any packer. They test their arguments, and so have no preconditions.

ghost use Rattle.std.specs.Prelude.{◌^◌, ◌<◌, IfOk};
ghost use Rattle.bitpacking_c.specs.Answers.{GivesWidth, Packs, PacksLeast, Unpacks};

use crate::CallError;
use bitpacking::laws::one_least_width;
use bitpacking::{Counted, Kind, MAX_WIDTH, Steps};

/// Packs a block at a width.
#[inline(always)]
pub(crate) fn compress<P: Counted>(
    packer: &P,
    kind: Kind,
    decompressed: &[u32],
    compressed: &mut [u8],
    num_bits: u8,
) -> Result<usize, CallError>
    ensures packs { Packs P.lanes num_bits kind decompressed.now compressed.old compressed.new result }
    ensures small { IfOk result (λ count. count < 2 ^ 63) }
{
    if num_bits > MAX_WIDTH {
        return Err(CallError::BadWidth);
    }
    if decompressed.len() != P::BLOCK_LEN {
        return Err(CallError::BadLength);
    }
    if compressed.len() < P::compressed_block_size(num_bits) {
        return Err(CallError::Short);
    }
    one_least_width();
    if packer.width_counted(kind, decompressed, &mut Steps::new()) > num_bits {
        return Err(CallError::Unfit);
    }
    Ok(packer.pack_counted(kind, decompressed, compressed, num_bits, &mut Steps::new()))
}

/// Unpacks a block.
#[inline(always)]
pub(crate) fn decompress<P: Counted>(
    packer: &P,
    kind: Kind,
    compressed: &[u8],
    decompressed: &mut [u32],
    num_bits: u8,
) -> Result<usize, CallError>
    ensures unpacks { Unpacks P.lanes num_bits kind compressed.now decompressed.old decompressed.new result }
    ensures small { IfOk result (λ count. count < 2 ^ 63) }
{
    if decompressed.len() < P::BLOCK_LEN {
        return Err(CallError::BadLength);
    }
    if num_bits > MAX_WIDTH {
        return Err(CallError::BadWidth);
    }
    if compressed.len() < P::compressed_block_size(num_bits) {
        return Err(CallError::Short);
    }
    Ok(packer.unpack_counted(kind, compressed, decompressed, num_bits, &mut Steps::new()))
}

/// The least width of a block.
#[inline(always)]
pub(crate) fn num_bits<P: Counted>(
    packer: &P,
    kind: Kind,
    decompressed: &[u32],
) -> Result<usize, CallError>
    ensures width { GivesWidth P.lanes kind decompressed.now result }
    ensures small { IfOk result (λ count. count < 2 ^ 63) }
{
    if decompressed.len() != P::BLOCK_LEN {
        return Err(CallError::BadLength);
    }
    Ok(packer.width_counted(kind, decompressed, &mut Steps::new()) as usize)
}

/// Packs a block at its least width, and returns the width.
#[inline(always)]
pub(crate) fn pack<P: Counted>(
    packer: &P,
    kind: Kind,
    decompressed: &[u32],
    compressed: &mut [u8],
    num_bits: &mut u8,
) -> Result<usize, CallError>
    ensures packs { PacksLeast P.lanes num_bits.old num_bits.new kind
        decompressed.now compressed.old compressed.new result }
    ensures small { IfOk result (λ count. count < 2 ^ 63) }
{
    if decompressed.len() != P::BLOCK_LEN {
        return Err(CallError::BadLength);
    }
    let least = packer.width_counted(kind, decompressed, &mut Steps::new());
    if compressed.len() < P::compressed_block_size(least) {
        return Err(CallError::Short);
    }
    *num_bits = least;
    Ok(packer.pack_counted(kind, decompressed, compressed, least, &mut Steps::new()))
}
