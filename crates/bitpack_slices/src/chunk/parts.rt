//! The parts of a body of blocks.
//!
//! FORMAT.md, "Chunks":
//!
//! ```text
//! r - 1 | slice of the r high bytes that occur | r counts, each less 1 | r slices of low bytes
//! ```

ghost use Rattle.std.specs.Prelude.{◌≡◌, ℕ, ◌-◌, ◌<◌, ◌≤◌, drop, length};
ghost use Rattle.std.proofs.Props.{props};
ghost use Rattle.bitpacking.specs.Bits.{AreBytes};
ghost use Rattle.bitpack_slices.specs.Bitmaps.{has_bit};
ghost use Rattle.bitpack_slices.specs.Props.{rising_prop, slices_prop};
ghost use Rattle.bitpack_slices.specs.Reads.{has};
ghost use Rattle.bitpack_slices.specs.Slices.{AreSlices, IsBlocks, IsSlice, block_numbers, counts_in, numbers_in, slice_len, slice_numbers};

use crate::bitmap::single_bits::slice_bits;
use crate::slice::byte_len;

/// The parts of a body of blocks, which were tested.
#[derive(Clone, Copy)]
pub struct Parts<'a> {
    // The slice of the high bytes, of each of these how many numbers have it, less 1, and their slices.
    pub(crate) highs: &'a [u8],
    pub(crate) counts: &'a [u8],
    pub(crate) slices: &'a [u8],
    ghost few: { length counts.now ≤ 256 },
    ghost are_bytes: { AreBytes counts.now },
    ghost size: { length highs.now ≡ slice_len (length counts.now) },
    ghost occur: { IsSlice (length counts.now) highs.now } by { Prim.hlevel (props, rising_prop) },
    ghost are: { AreSlices counts.now slices.now } by { Prim.hlevel (props, slices_prop) },
}

impl<'a> Parts<'a> {
    ghost use Rattle.bitpack_slices.specs.Parts.{numbers_in_parts};

    /// The parts of a body.
    #[inline(always)]
    pub(crate) fn new(body: &'a [u8]) -> Parts<'a>
        requires { IsBlocks (length (block_numbers body.now)) body.now }
        ensures counts { result.counts.now ≡ counts_in body.now }
        ensures numbers { numbers_in_parts result ≡ block_numbers body.now }
        ensures counted { numbers_in result.counts.now ≡ length (block_numbers body.now) }
        // The slices are the last bytes of the body.
        ensures within { length result.slices.now ≤ length body.now }
        ensures end { drop (length body.now - length result.slices.now) body.now ≡ result.slices.now }
    {
        let many = body[0] as usize + 1;
        let size = byte_len(many);
        Parts {
            highs: &body[1..1 + size],
            counts: &body[1 + size..1 + size + many],
            slices: &body[1 + size + many..],
        }
    }
    /// The high bytes that occur, as bits.
    #[inline(always)]
    pub(crate) fn high_bits(self) -> [u64; 4]
        ensures { (h : ℕ) → h < 256 → has_bit result h ≡ has h (slice_numbers (length self.entry.counts.now) self.entry.highs.now) }
    {
        slice_bits(self.counts.len(), self.highs)
    }
}
