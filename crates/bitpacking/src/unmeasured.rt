//! The call that packs a block without a condition on its codes.

ghost use Rattle.std.specs.Prelude.{◌≡◌, ◌≤◌, length, drop};
ghost use Rattle.bitpacking.specs.Codes.{codes};
ghost use Rattle.bitpacking.specs.Width.{Fits};
ghost use Rattle.bitpacking.specs.Layout.{size};
ghost use Rattle.bitpacking.specs.Calls.{IsPacked, MovesToPack};

use crate::{BitPacker, Kind, Steps};

/// The call that packs a block whose width the caller does not measure. The counted call that packs is this one.
pub trait Unmeasured: BitPacker {
    /// Packs a block at any width up to 32, and returns the number of bytes written. Bytes after those are unchanged.
    ///
    /// If all codes fit the width, the bytes hold the block. If one does not, nothing is said of these bytes.
    fn pack_unmeasured(
        &self,
        kind: Kind,
        decompressed: &[u32],
        compressed: &mut [u8],
        num_bits: u8,
        steps: &mut Steps,
    ) -> usize
        requires block { length decompressed.now ≡ Self.BLOCK_LEN }
        requires narrow { num_bits ≤ 32 }
        requires room { size Self.lanes num_bits ≤ length compressed.old }
        ensures size { result ≡ size Self.lanes num_bits }
        // claim: blocks/14 without the condition that values fit: as many bytes, later ones unchanged; of values that fit, the block's
        ensures packed { Fits (codes kind decompressed.now) num_bits
            → IsPacked Self.lanes num_bits kind decompressed.now compressed.old compressed.new }
        ensures rest { drop (size Self.lanes num_bits) compressed.new ≡ drop (size Self.lanes num_bits) compressed.old }
        ensures counts { MovesToPack steps.old steps.new num_bits };
}
