//! Loads the numbers of a body of blocks into a bitmap.

ghost use Rattle.std.specs.Prelude.{◌≡◌, ℕ, ◌+◌, ◌*◌, ◌<◌, drop, false, length, take};
ghost use Rattle.bitpack_slices.specs.Bitmaps.{Represents, has_bit};
ghost use Rattle.bitpack_slices.specs.Bodies.{IsRising};
ghost use Rattle.bitpack_slices.specs.Reads.{has};
ghost use Rattle.bitpack_slices.specs.Slices.{IsBlocks, block_numbers, number_of, ones_from};

use crate::bitmap::single_bits::slice_bits;
use crate::blocks::Blocks;
use crate::chunk::parts::Parts;
use crate::slice::byte_len;
use crate::slice::reading::{unpack_slice, words_of};

/// Loads the slices of these high bytes from a body of blocks.
pub fn load_blocks(body: &[u8], highs: &[u32], words: &mut [u64; 1024])
    requires blocks { IsBlocks (length (block_numbers body.now)) body.now }
    requires highs { IsRising 0 256 highs.now }
    ensures { Represents highs.now words.new (block_numbers body.now) }
{
    let mut starts = [0; 257];
    let blocks = Blocks::new(body, &mut starts);
    for high in highs {
        let bits = blocks.slice(*high as usize).bits();
        let from = 4 * *high as usize;
        words[from..from + 4].copy_from_slice(&bits);
    }
}

/// The most bytes of the slices of a body, if each slice is bits.
pub(crate) const ALL_BITS: usize = 8192;

impl<'a> Parts<'a> {
    ghost use Rattle.bitpack_slices.specs.Parts.{numbers_in_parts};

    /// Sets the bit of each number. No bit is 1 before.
    pub(crate) fn set_bits(self, words: &mut [u64; 1024])
        requires { (x : ℕ) → has_bit words.old x ≡ false }
        ensures { (x : ℕ) → x < 65536 → has_bit words.new x ≡ has x (numbers_in_parts self.entry) }
    {
        if self.slices.len() == ALL_BITS {
            copy_words(self.slices, words);
            return;
        }
        let mut highs = [0; 256];
        unpack_slice(self.counts.len(), self.highs, 0, &mut highs, 0);
        let mut offset = 0;
        for i in 0..self.counts.len() {
            let count = self.counts[i] as usize + 1;
            let size = byte_len(count);
            let bits = slice_bits(count, &self.slices[offset..offset + size]);
            let from = 4 * highs[i] as usize;
            words[from..from + 4].copy_from_slice(&bits);
            offset += size;
        }
    }
}

/// Copies 256 slices of bits.
fn copy_words(bytes: &[u8], words: &mut [u64; 1024])
    requires { length bytes.now ≡ 8192 }
    ensures { (high i : ℕ) → high < 256 → i < 256
        → has_bit words.new (256 * high + i) ≡ has i (ones_from (number_of (take 32 (drop (32 * high) bytes.now))) 0 256) }
{
    for i in 0..256 {
        let bits = words_of(&bytes[32 * i..32 * i + 32]);
        words[4 * i..4 * i + 4].copy_from_slice(&bits);
    }
}
