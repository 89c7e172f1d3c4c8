//! Loads the numbers of a chunk into its bitmap.
//! FORMAT.md, "Chunks".

ghost use Rattle.std.specs.Prelude.{◌≡◌, ◌⊎◌, ℕ, ◌+◌, ◌*◌, ◌/◌, ◌<◌, ◌≤◌, true, false, length, slice_index};
ghost use Rattle.bitpack_slices.specs.Bitmaps.{Represents, has_bit, has_high};
ghost use Rattle.bitpack_slices.specs.Slices.{lows_of};
ghost use Rattle.bitpack_slices.specs.Reads.{has};
ghost use Rattle.bitpack_slices.specs.Bodies.{IsRising};

use crate::bitmap::single_bits::set_bit;

/// The low 16 bits of an integer of two or four bytes.
#[inline(always)]
fn low_at(size: usize, bytes: &[u8], i: usize) -> usize
    requires size { size ≡ 2 ⊎ size ≡ 4 }
    requires within { size * i + size ≤ length bytes.now }
    ensures small { result < 65536 }
    ensures low { result ≡ slice_index (lows_of size bytes.now) i }
{
    let bytes = &bytes[size * i..size * i + 2];
    u16::from_le_bytes([bytes[0], bytes[1]]) as usize
}

/// The high bytes of the low 16 bits of integers of two or four bytes, as bits.
pub fn integer_highs(size: usize, bytes: &[u8]) -> [u64; 4]
    requires { size ≡ 2 ⊎ size ≡ 4 }
    ensures { (h : ℕ) → h < 256 → has_bit result h ≡ has_high h (lows_of size bytes.now) }
{
    let mut highs = [0; 4];
    for i in 0..bytes.len() / size {
        set_bit(&mut highs, low_at(size, bytes, i) / 256);
    }
    highs
}

/// Loads the low 16 bits of integers of two or four bytes.
pub fn load_integers(size: usize, bytes: &[u8], highs: &[u32], words: &mut [u64; 1024])
    requires size { size ≡ 2 ⊎ size ≡ 4 }
    requires highs { IsRising 0 256 highs.now }
    ensures { Represents highs.now words.new (lows_of size bytes.now) }
{
    clear(highs, words);
    for i in 0..bytes.len() / size {
        set_bit(words, low_at(size, bytes, i));
    }
}

/// Clears the bits of these high bytes.
pub fn clear(highs: &[u32], words: &mut [u64; 1024])
    requires { IsRising 0 256 highs.now }
    ensures { (x : ℕ) → x < 65536 → has (x / 256) highs.now ≡ true → has_bit words.new x ≡ false }
{
    for high in highs {
        let from = 4 * *high as usize;
        words[from..from + 4].fill(0);
    }
}
