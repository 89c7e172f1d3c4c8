//! From slices and a width to loops: the loops for width 32, or the loops for fewer bits. At width 0 no register is loaded to pack.

ghost use Rattle.bitpacking.specs.Calls.{CanUnpack, MovesToPack};
ghost use Rattle.bitpacking.specs.inner.Kernels.{HasRoom, PackedCodes, UnpackedCodes};
ghost use Rattle.bitpacking.specs.Moves.{Moves};
ghost use Rattle.std.specs.Prelude.{◌+◌};

use crate::MAX_WIDTH;
use crate::dispatch::Dispatch;
use crate::kernel::full_width::{pack_32, unpack_32};
use crate::kernel::rolled::Rolled;
use crate::kernel::{Pack, Unpack};
use crate::kinds::sinks::Sink;
use crate::kinds::transformers::Transformer;
use crate::memory::{ByteSource, ByteTarget, Steps, ValueSource, ValueTarget};
use bitpacking_register::Register;

/// One loop for all widths.
impl Dispatch for Rolled {
    #[inline(always)]
    fn pack_codes<R: Register, T: Transformer<R>>(
        start: u32,
        decompressed: &[u32],
        compressed: &mut [u8],
        num_bits: u8,
        steps: &mut Steps,
    ) -> usize {
        pack_slices::<Rolled, R, T>(start, decompressed, compressed, num_bits, steps)
    }

    #[inline(always)]
    fn unpack_codes<R: Register, S: Sink<R>>(
        start: u32,
        compressed: &[u8],
        decompressed: &mut [u32],
        num_bits: u8,
        steps: &mut Steps,
    ) -> usize {
        unpack_slices::<Rolled, R, S>(start, compressed, decompressed, num_bits, steps)
    }
}

/// Wraps the slices in the source and target that loops take, and packs the codes of the values.
#[inline(always)]
pub(super) fn pack_slices<K: Pack, R: Register, T: Transformer<R>>(
    start: u32,
    values: &[u32],
    bytes: &mut [u8],
    width: u8,
    steps: &mut Steps,
) -> usize
    requires { HasRoom R.LANES width values.now bytes.old }
    ensures packed { PackedCodes R.LANES width (T.block_codes start values.now) bytes.old bytes.new result }
    ensures counts { MovesToPack steps.old steps.new width }
{
    let source = ValueSource::new(values, width as u32);
    let mut target = ByteTarget::new(bytes);
    match width {
        0 => 0,
        MAX_WIDTH => pack_32::<R, T>(&source, &mut target, start, steps),
        _ => K::pack::<R, T>(&source, &mut target, start, width as u32, steps),
    }
}

/// Wraps the slices in the source and target that loops take, and unpacks the values of the codes.
#[inline(always)]
pub(super) fn unpack_slices<K: Unpack, R: Register, S: Sink<R>>(
    start: u32,
    bytes: &[u8],
    values: &mut [u32],
    width: u8,
    steps: &mut Steps,
) -> usize
    requires { CanUnpack R.LANES width bytes.now values.old }
    ensures unpacked { UnpackedCodes R.LANES width (S.block_values start) bytes.now values.old values.new result }
    ensures counts { Moves steps.old steps.new width 32 (32 + width) }
{
    let source = ByteSource::new(bytes);
    let mut target = ValueTarget::new(values, width as u32);
    if width < MAX_WIDTH {
        K::unpack::<R, S>(&source, &mut target, start, width as u32, steps)
    } else {
        unpack_32::<R, S>(&source, &mut target, start, steps)
    }
}
