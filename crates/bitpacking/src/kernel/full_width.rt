//! Packing and unpacking at width 32, at which each code is a word.

ghost use Rattle.bitpacking.specs.inner.Kernels.{KernelCanPack, KernelCanUnpack, KernelPacked, KernelUnpacked};
ghost use Rattle.bitpacking.specs.Moves.{Moves};

use crate::LANE_LEN;
use crate::kinds::sinks::Sink;
use crate::kinds::transformers::Transformer;
use crate::memory::{ByteSource, ByteTarget, Steps, ValueSource, ValueTarget};
use bitpacking_register::Register;

/// Packs a block of codes of 32 bits, the first of them after the value `start`, and returns the number of bytes written.
#[inline(always)]
pub(crate) fn pack_32<R: Register, T: Transformer<R>>(
    source: &ValueSource<'_>,
    target: &mut ByteTarget<'_>,
    start: u32,
    steps: &mut Steps,
) -> usize
    requires can { KernelCanPack R.LANES 32 source.now.bits source.now.words.now target.old.bytes.now }
    ensures packed { KernelPacked R.LANES 32 (T.block_codes start source.now.words.now) target.old target.new result }
    ensures counts { Moves steps.old steps.new 32 32 64 }
{
    let mut transformer = T::after(start);
    'registers: for i in 0..LANE_LEN {
        let codes: R = transformer.transform(source.load(i, steps));
        target.store(i, codes, steps);
    }
    4 * R::LANES * 32
}

/// Unpacks a block of codes of 32 bits, the first of them after the value `start`, and returns the number of bytes read.
#[inline(always)]
pub(crate) fn unpack_32<R: Register, S: Sink<R>>(
    source: &ByteSource<'_>,
    target: &mut ValueTarget<'_>,
    start: u32,
    steps: &mut Steps,
) -> usize
    requires can { KernelCanUnpack R.LANES 32 target.old.bits source.now.bytes.now target.old.words.now }
    ensures unpacked { KernelUnpacked R.LANES 32
        (S.block_values start) source.now.bytes.now target.old target.new result }
    ensures counts { Moves steps.old steps.new 32 32 64 }
{
    let mut sink = S::after(start);
    for i in 0..LANE_LEN {
        let codes: R = source.load(i, steps);
        sink.put(codes, target, steps);
    }
    4 * R::LANES * 32
}
