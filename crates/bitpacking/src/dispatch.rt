//! From slices and a width to a kernel: one loop that has the width as an argument, or code of its own for each width.

ghost use Rattle.std.specs.Prelude.{◌+◌};
ghost use Rattle.bitpacking.specs.Calls.{CanUnpack, MovesToPack};
ghost use Rattle.bitpacking.specs.inner.Kernels.{HasRoom, PackedCodes, UnpackedCodes};
ghost use Rattle.bitpacking.specs.Moves.{Moves};

mod by_width;
mod slices;

use crate::kinds::sinks::Sink;
use crate::kinds::transformers::Transformer;
use crate::memory::Steps;
use bitpacking_register::Register;
pub(crate) use by_width::ByWidth;

/// Packs and unpacks the codes of a block at any width. `ByWidth` calls types that are nested: each `AtWidths` hands a width that is
/// none of its four to the next. `Rolled` is the last of them.
///
/// The value before the block is passed, and not a transformer or a sink: those would be passed through memory.
pub(crate) trait Dispatch {
    /// Packs the codes of a block after the value `start`. At width 0 nothing is loaded.
    fn pack_codes<R: Register, T: Transformer<R>>(
        start: u32,
        decompressed: &[u32],
        compressed: &mut [u8],
        num_bits: u8,
        steps: &mut Steps,
    ) -> usize
        requires { HasRoom R.LANES num_bits decompressed.now compressed.old }
        ensures packed { PackedCodes R.LANES num_bits (T.block_codes start decompressed.now)
            compressed.old compressed.new result }
        ensures counts { MovesToPack steps.old steps.new num_bits };

    /// Unpacks the codes of a block after the value `start`.
    fn unpack_codes<R: Register, S: Sink<R>>(
        start: u32,
        compressed: &[u8],
        decompressed: &mut [u32],
        num_bits: u8,
        steps: &mut Steps,
    ) -> usize
        requires { CanUnpack R.LANES num_bits compressed.now decompressed.old }
        ensures unpacked { UnpackedCodes R.LANES num_bits (S.block_values start)
            compressed.now decompressed.old decompressed.new result }
        ensures counts { Moves steps.old steps.new num_bits 32 (32 + num_bits) };
}
