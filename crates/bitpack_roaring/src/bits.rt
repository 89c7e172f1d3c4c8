//! The bits of a container: 8,192 bytes, the lowest bit first.

ghost use Rattle.std.specs.Prelude.{◌≡◌, ◌+◌, ◌*◌, ◌^◌, ◌<◌, ◌≤◌, ◌++◌, ◌==◌, ℕ, length, map, take};
ghost use Rattle.std.specs.Int.{bit_at};
ghost use Rattle.bitpack_slices.specs.Bitmaps.{has_bit};
ghost use Rattle.bitpack_slices.specs.Operations.{those};
ghost use Rattle.bitpack_slices.specs.Slices.{number_of, ones_from};

use bitpack_slices::bitmap::unpacking::unpack_bitmap;
use bitpack_slices::chunk::runs::fill_range;
use bitpack_slices::slice::reading::word_at;

/// Loads the bits into a bitmap.
pub(crate) fn load_bits(body: &[u8], words: &mut [u64; 1024])
    requires { length body.now ≡ 8192 }
    ensures { (x : ℕ) → x < 65536 → has_bit words.new x ≡ (bit_at (number_of body.now) x == 1) }
{
    for index in 0..1024 {
        words[index] = word_at(body, index);
    }
}

/// Writes the numbers of the bits that are 1, each with `base` added. Returns the index after the last.
pub(crate) fn unpack_bits(body: &[u8], base: u32, out: &mut [u32], at: usize) -> usize
    requires size { length body.now ≡ 8192 }
    requires fits { base + 65536 ≤ 2 ^ 32 }
    requires room { at + length (ones_from (number_of body.now) 0 65536) ≤ length out.old }
    ensures end { result ≡ at + length (ones_from (number_of body.now) 0 65536) }
    ensures values { take result out.new ≡ take at out.old ++ map (λ i. base + i) (ones_from (number_of body.now) 0 65536) }
{
    let mut words = [0; 1024];
    load_bits(body, &mut words);
    unpack_words(&words, base, out, at)
}

/// Writes the numbers whose bits are 1 in a bitmap, each with `base` added. Returns the index after the last.
pub(crate) fn unpack_words(words: &[u64; 1024], base: u32, out: &mut [u32], at: usize) -> usize
    requires fits { base + 65536 ≤ 2 ^ 32 }
    requires room { at + length (those 65536 (has_bit words.now)) ≤ length out.old }
    ensures end { result ≡ at + length (those 65536 (has_bit words.now)) }
    ensures values { take result out.new ≡ take at out.old ++ map (λ i. base + i) (those 65536 (has_bit words.now)) }
{
    let mut highs = [0; 256];
    fill_range(0, &mut highs);
    unpack_bitmap(&highs, words, base, out, at)
}
