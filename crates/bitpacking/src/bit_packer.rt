//! The trait of all packers, with the whole contract of their calls.

ghost use Rattle.std.specs.Prelude.{◌≡◌, ℕ, ◌*◌, ◌≤◌, length};
ghost use Rattle.bitpacking.specs.declared.kind.Kind.TheVariants.{Plain, Sorted, StrictlySorted};
ghost use Rattle.bitpacking.specs.Width.{IsWidth};
ghost use Rattle.bitpacking.specs.Layout.{size};
ghost use Rattle.bitpacking.specs.Calls.{CanPack, CanUnpack, IsPacked, IsUnpacked};

use crate::Kind;

/// Packs blocks of `BLOCK_LEN` values.
///
/// No call fails, allocates or panics: lengths and widths are conditions on the caller. Whether the codes of a block fit a
/// width is told by the width calls: they fit the least width and every greater one.
///
/// A packer implements `BLOCK_LEN`, `new` and the three calls by kind. The nine calls after them are the same calls, each for the kind in
/// its name.
///
/// # Example
///
/// A block is packed at its least width, and unpacked again:
///
/// <!-- crates/bitpack_uses/src/by_hand.rt -->
/// ```rust
/// use bitpacking::{BitPacker, BitPacker1x, Kind};
///
/// /// Packs a block at its least width, and unpacks it again.
/// pub fn block(values: &[u32; 32]) -> [u32; 32] {
///     let packer = BitPacker1x::new();
///     let width = packer.num_bits(values);
///     let mut bytes = [0; 128]; // 4 bytes a value are always enough
///     let size = packer.compress(values, &mut bytes, width);
///
///     let mut unpacked = [0; 32];
///     packer.decompress(&bytes[..size], &mut unpacked, width);
///     unpacked
/// }
/// ```
// claim: blocks/9 blocks/13 the three calls by kind, and the nine calls with a kind in their name, run the counted calls
pub trait BitPacker: Sized + Clone + Copy {
    /// How many values a block has: 32 for each lane of the packer.
    const BLOCK_LEN: usize;

    ghost BLOCK_LEN: { ℕ };

    ghost lanes: { ℕ };

    /// Returns the packer with the fastest kernel.
    fn new() -> Self;

    /// Packs a block of a kind, as the compress call of that kind does, and returns the number of bytes written.
    fn compress_kind(
        &self,
        kind: Kind,
        decompressed: &[u32],
        compressed: &mut [u8],
        num_bits: u8,
    ) -> usize
        requires { CanPack lanes num_bits kind decompressed.now compressed.old }
        ensures size { result ≡ size lanes num_bits }
        // claim: chains/5 the proofs need these clauses
        // claim: blocks/1-2 compressing writes the block's bytes
        ensures packed { IsPacked lanes num_bits kind decompressed.now compressed.old compressed.new };

    /// Unpacks a block of a kind, as the decompress call of that kind does, and returns the number of bytes read.
    fn decompress_kind(
        &self,
        kind: Kind,
        compressed: &[u8],
        decompressed: &mut [u32],
        num_bits: u8,
    ) -> usize
        requires { CanUnpack lanes num_bits compressed.now decompressed.old }
        ensures size { result ≡ size lanes num_bits }
        // claim: chains/5
        // claim: blocks/3-4 decompressing writes the block that any bytes hold
        ensures unpacked { IsUnpacked lanes num_bits kind compressed.now decompressed.old decompressed.new };

    /// Returns the least width of a block of a kind, from 0 to 32, as the width call of that kind finds it.
    fn num_bits_kind(&self, kind: Kind, decompressed: &[u32]) -> u8
        requires { length decompressed.now ≡ BLOCK_LEN }
        // claim: chains/5
        // claim: blocks/5 returns the least width, at most 32
        ensures width { IsWidth kind decompressed.now result }
        ensures narrow { result ≤ 32 };

    /// Packs a block at `num_bits` bits per value and returns the number of bytes written, 4 * lanes * `num_bits`.
    ///
    /// Any width from the block's least to 32 will do. Bytes after those written are unchanged.
    #[inline(always)]
    fn compress(&self, decompressed: &[u32], compressed: &mut [u8], num_bits: u8) -> usize
        requires { CanPack lanes num_bits Plain decompressed.now compressed.old }
        ensures size { result ≡ size lanes num_bits }
        ensures packed { IsPacked lanes num_bits Plain decompressed.now compressed.old compressed.new }
    {
        self.compress_kind(Kind::Plain, decompressed, compressed, num_bits)
    }

    /// Packs the differences of a block, the first of them from `initial`, which the caller stores.
    ///
    /// The block need not be in order: differences are taken modulo 2 ^ 32.
    #[inline(always)]
    fn compress_sorted(
        &self,
        initial: u32,
        decompressed: &[u32],
        compressed: &mut [u8],
        num_bits: u8,
    ) -> usize
        requires { CanPack lanes num_bits (Sorted initial) decompressed.now compressed.old }
        ensures size { result ≡ size lanes num_bits }
        ensures packed { IsPacked lanes num_bits (Sorted initial) decompressed.now compressed.old compressed.new }
    {
        self.compress_kind(Kind::Sorted(initial), decompressed, compressed, num_bits)
    }

    /// Packs one less than the differences of a block. `None` means `u32::MAX`, so that a block may begin with 0.
    #[inline(always)]
    fn compress_strictly_sorted(
        &self,
        initial: Option<u32>,
        decompressed: &[u32],
        compressed: &mut [u8],
        num_bits: u8,
    ) -> usize
        requires { CanPack lanes num_bits (StrictlySorted initial) decompressed.now compressed.old }
        ensures size { result ≡ size lanes num_bits }
        ensures packed { IsPacked lanes num_bits
            (StrictlySorted initial) decompressed.now compressed.old compressed.new }
    {
        self.compress_kind(
            Kind::StrictlySorted(initial),
            decompressed,
            compressed,
            num_bits,
        )
    }

    /// Unpacks a block of `num_bits` bits per value and returns the number of bytes read, 4 * lanes * `num_bits`.
    ///
    /// Any bytes are accepted. Later bytes are not read, and values after the block are unchanged.
    #[inline(always)]
    fn decompress(&self, compressed: &[u8], decompressed: &mut [u32], num_bits: u8) -> usize
        requires { CanUnpack lanes num_bits compressed.now decompressed.old }
        ensures size { result ≡ size lanes num_bits }
        ensures unpacked { IsUnpacked lanes num_bits Plain compressed.now decompressed.old decompressed.new }
    {
        self.decompress_kind(Kind::Plain, compressed, decompressed, num_bits)
    }

    /// Unpacks a block that was packed with the same `initial`.
    #[inline(always)]
    fn decompress_sorted(
        &self,
        initial: u32,
        compressed: &[u8],
        decompressed: &mut [u32],
        num_bits: u8,
    ) -> usize
        requires { CanUnpack lanes num_bits compressed.now decompressed.old }
        ensures size { result ≡ size lanes num_bits }
        ensures unpacked { IsUnpacked lanes num_bits (Sorted initial) compressed.now decompressed.old decompressed.new }
    {
        self.decompress_kind(Kind::Sorted(initial), compressed, decompressed, num_bits)
    }

    /// Unpacks a block that was packed strictly sorted with the same `initial`.
    #[inline(always)]
    fn decompress_strictly_sorted(
        &self,
        initial: Option<u32>,
        compressed: &[u8],
        decompressed: &mut [u32],
        num_bits: u8,
    ) -> usize
        requires { CanUnpack lanes num_bits compressed.now decompressed.old }
        ensures size { result ≡ size lanes num_bits }
        ensures unpacked { IsUnpacked lanes num_bits
            (StrictlySorted initial) compressed.now decompressed.old decompressed.new }
    {
        self.decompress_kind(
            Kind::StrictlySorted(initial),
            compressed,
            decompressed,
            num_bits,
        )
    }

    /// Returns the least width at which the block can be packed, from 0 to 32.
    #[inline(always)]
    fn num_bits(&self, decompressed: &[u32]) -> u8
        requires { length decompressed.now ≡ BLOCK_LEN }
        ensures width { IsWidth Plain decompressed.now result }
        ensures narrow { result ≤ 32 }
    {
        self.num_bits_kind(Kind::Plain, decompressed)
    }

    /// Returns the least width of the block's differences.
    #[inline(always)]
    fn num_bits_sorted(&self, initial: u32, decompressed: &[u32]) -> u8
        requires { length decompressed.now ≡ BLOCK_LEN }
        ensures width { IsWidth (Sorted initial) decompressed.now result }
        ensures narrow { result ≤ 32 }
    {
        self.num_bits_kind(Kind::Sorted(initial), decompressed)
    }

    /// Returns the least width of the block's differences, each one less.
    #[inline(always)]
    fn num_bits_strictly_sorted(&self, initial: Option<u32>, decompressed: &[u32]) -> u8
        requires { length decompressed.now ≡ BLOCK_LEN }
        ensures width { IsWidth (StrictlySorted initial) decompressed.now result }
        ensures narrow { result ≤ 32 }
    {
        self.num_bits_kind(Kind::StrictlySorted(initial), decompressed)
    }

    /// Returns how many bytes a block takes at `num_bits` bits per value. Accepts any width, also above 32.
    #[must_use]
    // claim: blocks/6 returns 4 * lanes * b for every `u8` b
    fn compressed_block_size(num_bits: u8) -> usize
        ensures { result ≡ size lanes num_bits }
    {
        Self::BLOCK_LEN * num_bits as usize / 8
    }

    ghost block_len: { BLOCK_LEN ≡ 32 * lanes };

    ghost some_lanes: { 1 ≤ lanes };

    ghost few_lanes: { lanes ≤ 8 };

    // A clone is its original.
    ghost clone_same: { (x y : Self) → Self.is_clone x y → y ≡ x };
}
