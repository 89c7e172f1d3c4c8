//! Combines bitmaps.

ghost use Rattle.std.specs.Prelude.{◌≡◌, ℕ, ◌/◌, ◌<◌, ◌≢◌, true, false};
ghost use Rattle.bitpack_slices.specs.Bitmaps.{has_bit};
ghost use Rattle.bitpack_slices.specs.Operations.{apply};
ghost use Rattle.bitpack_slices.specs.Reads.{has};
ghost use Rattle.bitpack_slices.specs.Bodies.{IsRising};

use crate::combined::combined_word;
use crate::operation::Operation;

/// Combines another bitmap into this one, in the bits of these high bytes.
pub fn combine(operation: Operation, highs: &[u32], words: &mut [u64; 1024], others: &[u64; 1024])
    requires { IsRising 0 256 highs.now }
    ensures own { (x : ℕ) → x < 65536 → has (x / 256) highs.now ≡ true
        → has_bit words.new x ≡ apply operation (has_bit words.old x) (has_bit others.now x) }
    ensures rest { (x : ℕ) → x < 65536 → has (x / 256) highs.now ≡ false → has_bit words.new x ≡ has_bit words.old x }
{
    for high in highs {
        combine_slice(operation, *high as usize, words, others);
    }
}

/// Combines the bits of one high byte.
#[inline(always)]
fn combine_slice(operation: Operation, high: usize, words: &mut [u64; 1024], others: &[u64; 1024])
    requires { high < 256 }
    ensures own { (x : ℕ) → x / 256 ≡ high → has_bit words.new x ≡ apply operation (has_bit words.old x) (has_bit others.now x) }
    ensures rest { (x : ℕ) → x / 256 ≢ high → has_bit words.new x ≡ has_bit words.old x }
{
    for i in 4 * high..4 * high + 4 {
        words[i] = combined_word(operation, words[i], others[i]);
    }
}
