//! Combines two bodies as bitmaps.
//! FORMAT.md, "Chunks".

ghost use Rattle.std.specs.Prelude.{◌≡◌, ℕ, ◌<◌, false};
ghost use Rattle.bitpack_slices.specs.Bitmaps.{has_bit};
ghost use Rattle.bitpack_slices.specs.Lists.{IsBody, body_lows};
ghost use Rattle.bitpack_slices.specs.Operations.{apply};
ghost use Rattle.bitpack_slices.specs.Reads.{has};

use crate::bitmap::writing::LONGEST_BLOCKS;
use crate::body::Body;
use crate::chunk::parts::Parts;
use crate::combined::combined_word;
use crate::operation::Operation;

/// Sets the bits of the low 16 bits of the ids that an operation on two bodies of one key gives.
pub fn combine_bits(operation: Operation, a: Body, b: Body, words: &mut [u64; 1024])
    requires clear { (x : ℕ) → has_bit words.old x ≡ false }
    requires a { IsBody a }
    requires b { IsBody b }
    ensures { (x : ℕ) → x < 65536 → has_bit words.new x ≡ apply operation (has x (body_lows a.entry)) (has x (body_lows b.entry)) }
{
    let mut others = [0; 1024];
    a.set_bits(words);
    b.set_bits(&mut others);
    match operation {
        Operation::And => combine_words(Operation::And, words, &others),
        Operation::Or => combine_words(Operation::Or, words, &others),
        Operation::AndNot => combine_words(Operation::AndNot, words, &others),
        Operation::Xor => combine_words(Operation::Xor, words, &others),
    }
}

/// Combines another bitmap into this one.
#[inline(always)]
fn combine_words(operation: Operation, words: &mut [u64; 1024], others: &[u64; 1024])
    ensures { (x : ℕ) → x < 65536 → has_bit words.new x ≡ apply operation (has_bit words.old x) (has_bit others.now x) }
{
    for index in 0..1024 {
        words[index] = combined_word(operation, words[index], others[index]);
    }
}

impl<'a> Body<'a> {
    /// Sets the bit of the low 16 bits of each id.
    fn set_bits(self, words: &mut [u64; 1024])
        requires clear { (x : ℕ) → has_bit words.old x ≡ false }
        requires body { IsBody self }
        ensures { (x : ℕ) → x < 65536 → has_bit words.new x ≡ has x (body_lows self.entry) }
    {
        match self {
            Body::Ids(list) => {
                list.set_bits(words);
            }
            Body::Blocks(body) => Parts::new(body).set_bits(words),
            Body::Runs(runs) => runs.set_bits(words),
        }
    }

    /// How many bytes it has, more than any other body if it is runs.
    #[inline(always)]
    pub fn size(self) -> usize {
        match self {
            Body::Ids(list) => list.bytes_len(),
            Body::Blocks(body) => body.len(),
            Body::Runs(_) => LONGEST_BLOCKS,
        }
    }
}
