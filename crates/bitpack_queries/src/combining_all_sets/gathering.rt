//! Writes the bodies of the chunks that an operation on any number of sets gives, and remembers what their directory has.

ghost use Rattle.std.specs.Prelude.{◌≡◌, ◌<◌, ◌≤◌, length, map};
ghost use Rattle.bitpack_queries.specs.Gathered.{IsGathered, most_keys};
ghost use Rattle.bitpack_queries.specs.Operations.{answer_all};

use crate::combining_all::first_of;
use crate::folding::{HELD, KEYS, combine_keys};
use crate::gathered::{Gathered, put_key};
use bitpack_sets::AsSet;
use bitpack_sets::chunks::NO_KEY;
use bitpack_sets::encoding::combining::MOST_LISTED;
use bitpack_slices::Operation;
use bitpack_slices::bitmap::writing::LONGEST_BLOCKS;

/// Writes the bodies of the set that the first set gives, combined with each other set in turn, if there is room for all. Of each chunk it writes the
/// key, how many ids it has, and how many bytes its body.
#[inline(never)]
pub(crate) fn gather<S: AsSet>(
    operation: Operation,
    sets: &[S],
    keys: &mut [u32],
    counts: &mut [u32],
    sizes: &mut [u32],
    out: &mut [u8],
) -> Gathered
    requires some { 0 < length sets.now }
    requires keys { most_keys (map S.its_ids sets.now) ≤ length keys.old }
    requires counts { most_keys (map S.its_ids sets.now) ≤ length counts.old }
    requires sizes { most_keys (map S.its_ids sets.now) ≤ length sizes.old }
    ensures most { result.chunks ≤ most_keys (map S.its_ids sets.now) }
    ensures gathered { IsGathered (answer_all operation (map S.its_ids sets.now)) keys.new counts.new sizes.new out.new result.count result.chunks result.size }
{
    let first = first_of(operation, sets);
    let mut highs = [[0; 4]; KEYS];
    let mut words = [[0; 1024]; KEYS];
    let mut held = [0; HELD];
    let mut ids = [0; MOST_LISTED];
    let mut body = [0; LONGEST_BLOCKS];
    let mut gathered = Gathered::new();
    let mut key = 0;
    // The answer has no other ids of keys from `key` to this one than the bitmaps.
    let mut next = 0;
    while key < NO_KEY {
        if key == next {
            next = combine_keys(
                operation, sets, first, key, &mut held, &mut highs, &mut words,
            ) / 8
                * 8;
        }
        let k = (key % 8) as usize;
        let (own, len) = put_key(
            &highs[k],
            &mut words[k],
            &mut ids,
            &mut body,
            out,
            gathered.size,
        );
        gathered.add(key, own, len, keys, counts, sizes);
        key = if k == 7 { next } else { key + 1 };
    }
    gathered
}
