//! Blocks of 128 values in four lanes.

ghost use Rattle.std.proofs.Common.{lit≤, refl, rules};

use crate::by_kind::{pack_kind, unpack_kind, width_kind};
use crate::dispatch::ByWidth;
use crate::instruction_set::InstructionSet;
use crate::kernel::rolled::Rolled;
use crate::{BitPacker, Counted, Kind, Steps, Unmeasured};
use std::simd::prelude::*;

/// Packs blocks of 128 values. Value k is in lane k % 4; the codes of a lane follow each other in every fourth word.
#[derive(Clone, Copy)]
// claim: blocks/10-12 `new` needs vectors and runs on them, `scalar` on arrays; a clone is the same (`clone_same`); the compiler tests the
//   others
pub struct BitPacker4x(InstructionSet);

impl BitPacker4x {
    /// Returns the packer on arrays, a word at a time. It has the contracts of the one that `new` returns.
    pub fn scalar() -> Self {
        BitPacker4x(InstructionSet::Scalar)
    }
}

impl BitPacker for BitPacker4x {
    const BLOCK_LEN: usize = 128;

    ghost BLOCK_LEN = { 128 };

    ghost lanes = { 4 };

    #[inline]
    fn new() -> Self {
        BitPacker4x(InstructionSet::Lanes)
    }

    #[inline(always)]
    fn compress_kind(
        &self,
        kind: Kind,
        decompressed: &[u32],
        compressed: &mut [u8],
        num_bits: u8,
    ) -> usize {
        self.pack_counted(kind, decompressed, compressed, num_bits, &mut Steps::new())
    }

    #[inline(always)]
    fn decompress_kind(
        &self,
        kind: Kind,
        compressed: &[u8],
        decompressed: &mut [u32],
        num_bits: u8,
    ) -> usize {
        self.unpack_counted(kind, compressed, decompressed, num_bits, &mut Steps::new())
    }

    #[inline(always)]
    fn num_bits_kind(&self, kind: Kind, decompressed: &[u32]) -> u8 {
        self.width_counted(kind, decompressed, &mut Steps::new())
    }

    ghost block_len = { refl };

    ghost some_lanes = { lit≤ tt };

    ghost few_lanes = { lit≤ tt };

    ghost clone_same = { Prim.search rules };
}

impl Unmeasured for BitPacker4x {
    #[inline(always)]
    fn pack_unmeasured(
        &self,
        kind: Kind,
        decompressed: &[u32],
        compressed: &mut [u8],
        num_bits: u8,
        steps: &mut Steps,
    ) -> usize {
        match self.0 {
            InstructionSet::Lanes => {
                pack_kind::<ByWidth, u32x4>(kind, decompressed, compressed, num_bits, steps)
            }
            InstructionSet::Scalar => {
                pack_kind::<Rolled, [u32; 4]>(kind, decompressed, compressed, num_bits, steps)
            }
        }
    }
}

impl Counted for BitPacker4x {
    #[inline(always)]
    fn pack_counted(
        &self,
        kind: Kind,
        decompressed: &[u32],
        compressed: &mut [u8],
        num_bits: u8,
        steps: &mut Steps,
    ) -> usize {
        self.pack_unmeasured(kind, decompressed, compressed, num_bits, steps)
    }

    #[inline(always)]
    fn unpack_counted(
        &self,
        kind: Kind,
        compressed: &[u8],
        decompressed: &mut [u32],
        num_bits: u8,
        steps: &mut Steps,
    ) -> usize {
        match self.0 {
            InstructionSet::Lanes => {
                unpack_kind::<ByWidth, u32x4>(kind, compressed, decompressed, num_bits, steps)
            }
            InstructionSet::Scalar => {
                unpack_kind::<Rolled, [u32; 4]>(kind, compressed, decompressed, num_bits, steps)
            }
        }
    }

    #[inline(always)]
    fn width_counted(&self, kind: Kind, decompressed: &[u32], steps: &mut Steps) -> u8 {
        match self.0 {
            InstructionSet::Lanes => width_kind::<ByWidth, u32x4>(kind, decompressed, steps),
            InstructionSet::Scalar => width_kind::<Rolled, [u32; 4]>(kind, decompressed, steps),
        }
    }
}
