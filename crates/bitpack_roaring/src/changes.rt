//! The boundaries of the numbers whose bits are 1: where runs begin, and the first number after each.

ghost use Rattle.std.specs.Prelude.{◌≡◌, ◌≤◌, length};
ghost use Rattle.bitpack_slices.specs.Bitmaps.{has_bit};
ghost use Rattle.bitpack_slices.specs.Operations.{those};
ghost use Rattle.bitpack_slices.specs.Runs.{boundaries};
ghost use Rattle.bitpack_roaring.specs.Written.{runs_of};

use bitpack_slices::bitmap::bodies::{count_words, highest_bit};

/// How many runs the numbers have whose bits are 1. `found` is work space.
pub(crate) fn count_runs(words: &[u64; 1024], found: &mut [u64; 1024]) -> usize
    ensures runs { result ≡ length (runs_of (those 65536 (has_bit words.now))) }
    ensures few { result ≤ 65536 }
{
    find_changes(words, found);
    (count_words(found) + 1) / 2
}

/// Leaves the bits of the boundaries: those that are not as the one before.
pub(crate) fn find_changes(words: &[u64; 1024], found: &mut [u64; 1024])
    ensures { those 65536 (has_bit found.new) ≡ boundaries (those 65536 (has_bit words.now)) }
{
    found[0] = words[0] ^ words[0] << 1;
    // No word waits for the one before, so that the compiler takes several at once.
    for index in 1..1024 {
        let word = words[index];
        found[index] = word ^ (word << 1 | highest_bit(words[index - 1]));
    }
}
