//! The calls on chains of blocks, for any packer. They test their arguments, and so have no preconditions.

ghost use Rattle.std.specs.Prelude.{◌*◌, ◌^◌, ◌<◌, ◌≤◌, sum, OnOk, IfOk, IfErr};
ghost use Rattle.bitpacking_c.specs.Answers.{AreNarrow, CannotRead, PacksAll, UnpacksAll};

use crate::CallError;
use bitpack_lists::chain;
use bitpacking::{BitPacker, Kind, MAX_WIDTH};

/// Packs blocks, each at its least width. If there is no room for any chain of these values, this one is measured first.
#[inline(always)]
pub(crate) fn pack_all<P: BitPacker>(
    packer: &P,
    kind: Kind,
    values: &[u32],
    widths: &mut [u8],
    out: &mut [u8],
) -> Result<usize, CallError>
    // claim: c/5-6 `pack_all`, whose room is the chain's length, and `unpack_all`: as `chains/1-3`
    ensures packs { PacksAll P.lanes kind values.now widths.old widths.new out.old out.new result }
    ensures small { IfOk result (λ count. count < 2 ^ 63) }
{
    let len = P::BLOCK_LEN;
    if values.len() % len != 0 {
        return Err(CallError::BadLength);
    }
    if values.len() / len != widths.len() {
        return Err(CallError::BadLength);
    }
    if values.len() <= out.len() / 4 {
        return Ok(chain::pack_all(packer, kind, values, widths, out));
    }
    if out.len() < chain::packed_len(packer, kind, values) {
        return Err(CallError::Short);
    }
    Ok(chain::pack_measured(packer, kind, values, widths, out))
}

/// Unpacks blocks that were packed as a chain.
#[inline(always)]
pub(crate) fn unpack_all<P: BitPacker>(
    packer: &P,
    kind: Kind,
    widths: &[u8],
    bytes: &[u8],
    values: &mut [u32],
) -> Result<usize, CallError>
    ensures unpacks { UnpacksAll P.lanes kind widths.now bytes.now values.old values.new result }
    ensures small { IfOk result (λ count. count < 2 ^ 63) }
{
    test_widths::<P>(widths, bytes.len())?;
    if widths.len() > values.len() / P::BLOCK_LEN {
        return Err(CallError::BadLength);
    }
    Ok(chain::unpack_all(packer, kind, widths, bytes, values))
}

/// Tests that `bytes` bytes hold blocks of these widths.
#[inline(always)]
fn test_widths<P: BitPacker>(widths: &[u8], bytes: usize) -> Result<(), CallError>
    ensures narrow { OnOk result (AreNarrow widths.now) }
    ensures bytes { OnOk result (4 * P.lanes * sum widths.now ≤ bytes) }
    ensures err { IfErr result (λ error. CannotRead P.lanes widths.now bytes error) }
{
    let mut left = bytes;
    for index in 0..widths.len() {
        let width = widths[index];
        if width > MAX_WIDTH {
            return Err(CallError::BadWidth);
        }
        let size = P::compressed_block_size(width);
        if left < size {
            return Err(CallError::Short);
        }
        left -= size;
    }
    Ok(())
}
