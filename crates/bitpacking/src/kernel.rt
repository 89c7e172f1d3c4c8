//! The kernels: loops over the 32 registers of a block, each proved once for every register and every kind.

ghost use Rattle.std.specs.Prelude.{◌+◌};
ghost use Rattle.bitpacking.specs.inner.Kernels.{KernelPacked, KernelUnpacked, NarrowCanPack, NarrowCanUnpack};
ghost use Rattle.bitpacking.specs.Moves.{Moves};

pub(crate) mod full_width;
pub(crate) mod least_width;
pub(crate) mod rolled;
pub(crate) mod unrolled;

use crate::kinds::sinks::Sink;
use crate::kinds::transformers::Transformer;
use crate::memory::{ByteSource, ByteTarget, Steps, ValueSource, ValueTarget};
use bitpacking_register::Register;

/// Loops that pack a block, with the width as a value.
pub(crate) trait Pack {
    /// Packs a block of codes of fewer than 32 bits, the first of them after the value `start`, and returns the number of bytes
    /// written.
    fn pack<R: Register, T: Transformer<R>>(
        source: &ValueSource<'_>,
        target: &mut ByteTarget<'_>,
        start: u32,
        width: u32,
        steps: &mut Steps,
    ) -> usize
        requires { NarrowCanPack R.LANES width source.now.bits source.now.words.now target.old.bytes.now }
        ensures packed { KernelPacked R.LANES width
            (T.block_codes start source.now.words.now) target.old target.new result }
        ensures counts { Moves steps.old steps.new 32 width (32 + width) };
}

/// Loops that unpack a block, with the width as a value.
pub(crate) trait Unpack {
    /// Unpacks a block of codes of fewer than 32 bits, the first of them after the value `start`, and returns the number of bytes
    /// read.
    fn unpack<R: Register, S: Sink<R>>(
        source: &ByteSource<'_>,
        target: &mut ValueTarget<'_>,
        start: u32,
        width: u32,
        steps: &mut Steps,
    ) -> usize
        requires { NarrowCanUnpack R.LANES width target.old.bits source.now.bytes.now target.old.words.now }
        ensures unpacked { KernelUnpacked R.LANES width (S.block_values start) source.now.bytes.now
            target.old target.new result }
        ensures counts { Moves steps.old steps.new width 32 (32 + width) };
}
