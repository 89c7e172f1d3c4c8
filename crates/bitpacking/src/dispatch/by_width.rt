//! Code of its own for each width: shifts and indexes are constants there.

ghost use Rattle.bitpacking.specs.Calls.{CanUnpack, MovesToPack};
ghost use Rattle.bitpacking.specs.inner.Kernels.{HasRoom, PackedCodes, UnpackedCodes};
ghost use Rattle.bitpacking.specs.Moves.{Moves};
ghost use Rattle.std.specs.Prelude.{◌+◌};

use crate::dispatch::Dispatch;
use crate::dispatch::slices::{pack_slices, unpack_slices};
use crate::kernel::rolled::Rolled;
use crate::kernel::unrolled::Unrolled;
use crate::kinds::sinks::Sink;
use crate::kinds::transformers::Transformer;
use crate::memory::Steps;
use bitpacking_register::Register;
use std::marker::PhantomData;

/// The unrolled loops at four widths, each known to the compiler, and `Other` at any other width.
pub(crate) struct AtWidths<const A: u8, const B: u8, const C: u8, const D: u8, Other> {
    other: PhantomData<Other>,
}

type From0<Other> = AtWidths<0, 1, 2, 3, AtWidths<4, 5, 6, 7, Other>>;

type From8<Other> = AtWidths<8, 9, 10, 11, AtWidths<12, 13, 14, 15, Other>>;

type From16<Other> = AtWidths<16, 17, 18, 19, AtWidths<20, 21, 22, 23, Other>>;

type From24<Other> = AtWidths<24, 25, 26, 27, AtWidths<28, 29, 30, 31, Other>>;

// What is stated of a call doubles with each level of `AtWidths`: eight take no time to prove, sixteen a minute.
type Widths = From0<From8<From16<From24<Rolled>>>>;

/// The unrolled loops at each width from 0 to 31, each in code of its own. The compiler turns the tests of the width into one jump.
pub(crate) struct ByWidth;

// Not inlined: a caller with all this code saves registers before each call.
impl Dispatch for ByWidth {
    #[inline(never)]
    fn pack_codes<R: Register, T: Transformer<R>>(
        start: u32,
        decompressed: &[u32],
        compressed: &mut [u8],
        num_bits: u8,
        steps: &mut Steps,
    ) -> usize {
        Widths::pack_codes::<R, T>(start, decompressed, compressed, num_bits, steps)
    }

    #[inline(never)]
    fn unpack_codes<R: Register, S: Sink<R>>(
        start: u32,
        compressed: &[u8],
        decompressed: &mut [u32],
        num_bits: u8,
        steps: &mut Steps,
    ) -> usize {
        Widths::unpack_codes::<R, S>(start, compressed, decompressed, num_bits, steps)
    }
}

impl<const A: u8, const B: u8, const C: u8, const D: u8, Other: Dispatch> Dispatch
    for AtWidths<A, B, C, D, Other> {
    #[inline(always)]
    fn pack_codes<R: Register, T: Transformer<R>>(
        start: u32,
        decompressed: &[u32],
        compressed: &mut [u8],
        num_bits: u8,
        steps: &mut Steps,
    ) -> usize {
        if num_bits == A {
            pack_at::<R, T, A>(start, decompressed, compressed, steps)
        } else if num_bits == B {
            pack_at::<R, T, B>(start, decompressed, compressed, steps)
        } else if num_bits == C {
            pack_at::<R, T, C>(start, decompressed, compressed, steps)
        } else if num_bits == D {
            pack_at::<R, T, D>(start, decompressed, compressed, steps)
        } else {
            Other::pack_codes::<R, T>(start, decompressed, compressed, num_bits, steps)
        }
    }

    #[inline(always)]
    fn unpack_codes<R: Register, S: Sink<R>>(
        start: u32,
        compressed: &[u8],
        decompressed: &mut [u32],
        num_bits: u8,
        steps: &mut Steps,
    ) -> usize {
        if num_bits == A {
            unpack_at::<R, S, A>(start, compressed, decompressed, steps)
        } else if num_bits == B {
            unpack_at::<R, S, B>(start, compressed, decompressed, steps)
        } else if num_bits == C {
            unpack_at::<R, S, C>(start, compressed, decompressed, steps)
        } else if num_bits == D {
            unpack_at::<R, S, D>(start, compressed, decompressed, steps)
        } else {
            Other::unpack_codes::<R, S>(start, compressed, decompressed, num_bits, steps)
        }
    }
}

// Packs the codes of a block by the unrolled loops, at a width that the compiler knows. Without `inline(always)`: with it
// the calls above grow so large that the compiler ignores theirs, and chains of calls are left.
fn pack_at<R: Register, T: Transformer<R>, const WIDTH: u8>(
    start: u32,
    decompressed: &[u32],
    compressed: &mut [u8],
    steps: &mut Steps,
) -> usize
    requires { HasRoom R.LANES WIDTH decompressed.now compressed.old }
    ensures packed { PackedCodes R.LANES WIDTH (T.block_codes start decompressed.now)
        compressed.old compressed.new result }
    ensures counts { MovesToPack steps.old steps.new WIDTH }
{
    pack_slices::<Unrolled, R, T>(start, decompressed, compressed, WIDTH, steps)
}

// Unpacks the codes of a block by the unrolled loops, at a width that the compiler knows.
fn unpack_at<R: Register, S: Sink<R>, const WIDTH: u8>(
    start: u32,
    compressed: &[u8],
    decompressed: &mut [u32],
    steps: &mut Steps,
) -> usize
    requires { CanUnpack R.LANES WIDTH compressed.now decompressed.old }
    ensures unpacked { UnpackedCodes R.LANES WIDTH (S.block_values start)
        compressed.now decompressed.old decompressed.new result }
    ensures counts { Moves steps.old steps.new WIDTH 32 (32 + WIDTH) }
{
    unpack_slices::<Unrolled, R, S>(start, compressed, decompressed, WIDTH, steps)
}
