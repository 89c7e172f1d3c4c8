//! Blocks of 32 values in one lane.

ghost use Rattle.std.proofs.Common.{lit≤, refl, rules};

use crate::by_kind::{pack_kind, unpack_kind, width_kind};
use crate::dispatch::ByWidth;
use crate::{BitPacker, Counted, Kind, Steps, Unmeasured};

/// Packs blocks of 32 values: the codes follow each other without gaps, from the lowest bit on.
#[derive(Clone, Copy)]
pub struct BitPacker1x;

impl BitPacker for BitPacker1x {
    const BLOCK_LEN: usize = 32;

    ghost BLOCK_LEN = { 32 };

    ghost lanes = { 1 };

    #[inline]
    fn new() -> Self {
        BitPacker1x
    }

    #[inline(always)]
    fn compress_kind(
        &self,
        kind: Kind,
        decompressed: &[u32],
        compressed: &mut [u8],
        num_bits: u8,
    ) -> usize {
        self.pack_counted(kind, decompressed, compressed, num_bits, &mut Steps::new())
    }

    #[inline(always)]
    fn decompress_kind(
        &self,
        kind: Kind,
        compressed: &[u8],
        decompressed: &mut [u32],
        num_bits: u8,
    ) -> usize {
        self.unpack_counted(kind, compressed, decompressed, num_bits, &mut Steps::new())
    }

    #[inline(always)]
    fn num_bits_kind(&self, kind: Kind, decompressed: &[u32]) -> u8 {
        self.width_counted(kind, decompressed, &mut Steps::new())
    }

    ghost block_len = { refl };

    ghost some_lanes = { lit≤ tt };

    ghost few_lanes = { lit≤ tt };

    ghost clone_same = { Prim.search rules };
}

impl Unmeasured for BitPacker1x {
    #[inline(always)]
    fn pack_unmeasured(
        &self,
        kind: Kind,
        decompressed: &[u32],
        compressed: &mut [u8],
        num_bits: u8,
        steps: &mut Steps,
    ) -> usize {
        pack_kind::<ByWidth, u32>(kind, decompressed, compressed, num_bits, steps)
    }
}

impl Counted for BitPacker1x {
    #[inline(always)]
    fn pack_counted(
        &self,
        kind: Kind,
        decompressed: &[u32],
        compressed: &mut [u8],
        num_bits: u8,
        steps: &mut Steps,
    ) -> usize {
        self.pack_unmeasured(kind, decompressed, compressed, num_bits, steps)
    }

    #[inline(always)]
    fn unpack_counted(
        &self,
        kind: Kind,
        compressed: &[u8],
        decompressed: &mut [u32],
        num_bits: u8,
        steps: &mut Steps,
    ) -> usize {
        unpack_kind::<ByWidth, u32>(kind, compressed, decompressed, num_bits, steps)
    }

    #[inline(always)]
    fn width_counted(&self, kind: Kind, decompressed: &[u32], steps: &mut Steps) -> u8 {
        width_kind::<ByWidth, u32>(kind, decompressed, steps)
    }
}
