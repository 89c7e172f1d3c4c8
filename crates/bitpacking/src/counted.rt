//! The calls of a packer by kind, each with the registers that it moves.

ghost use Rattle.std.specs.Prelude.{◌≡◌, ◌+◌, ◌≤◌, length};
ghost use Rattle.bitpacking.specs.Width.{IsWidth};
ghost use Rattle.bitpacking.specs.Layout.{size};
ghost use Rattle.bitpacking.specs.Calls.{CanPack, CanUnpack, IsPacked, IsUnpacked, MovesToMeasure, MovesToPack};
ghost use Rattle.bitpacking.specs.Moves.{Moves};

use crate::{BitPacker, Kind, Steps};

/// The calls that compress, decompress or measure a width, for any kind, with their loads and stores counted.
///
/// A load or store of one register moves `BLOCK_LEN` / 32 values, or four times as many bytes. [`Steps`] has no size at
/// run time: only contracts see the counts.
// claim: lines/8 the proofs need clauses of lists and of counted calls
// claim: blocks/7-8 at width b packing loads 32 registers (none at 0) and stores b; unpacking loads b, stores 32; a width call loads 32; at
//   most 32 + b bits of a lane wait
pub trait Counted: BitPacker {
    /// Packs a block: 32 loads, and a store for each bit of the width. At width 0 nothing is loaded.
    fn pack_counted(
        &self,
        kind: Kind,
        decompressed: &[u32],
        compressed: &mut [u8],
        num_bits: u8,
        steps: &mut Steps,
    ) -> usize
        requires { CanPack Self.lanes num_bits kind decompressed.now compressed.old }
        ensures size { result ≡ size Self.lanes num_bits }
        ensures packed { IsPacked Self.lanes num_bits kind decompressed.now compressed.old compressed.new }
        ensures counts { MovesToPack steps.old steps.new num_bits };

    /// Unpacks a block: a load for each bit of the width, and 32 stores.
    fn unpack_counted(
        &self,
        kind: Kind,
        compressed: &[u8],
        decompressed: &mut [u32],
        num_bits: u8,
        steps: &mut Steps,
    ) -> usize
        requires { CanUnpack Self.lanes num_bits compressed.now decompressed.old }
        ensures size { result ≡ size Self.lanes num_bits }
        ensures unpacked { IsUnpacked Self.lanes num_bits kind compressed.now decompressed.old decompressed.new }
        ensures counts { Moves steps.old steps.new num_bits 32 (32 + num_bits) };

    /// Returns the least width of a block: 32 loads, and nothing is stored or held.
    fn width_counted(&self, kind: Kind, decompressed: &[u32], steps: &mut Steps) -> u8
        requires { length decompressed.now ≡ Self.BLOCK_LEN }
        ensures width { IsWidth kind decompressed.now result }
        ensures narrow { result ≤ 32 }
        ensures counts { MovesToMeasure steps.old steps.new };
}
