//! Runs the steps of a query: over keys, over the high bytes of a key, and over bitmaps of its ids.

ghost use Rattle.std.specs.Prelude.{◌≡◌, ℕ, ◌/◌, ◌%◌, ◌<◌, ◌≤◌, None, [], true, false, length, map, slice_index_or};
ghost use Rattle.bitpack_slices.specs.Bitmaps.{has_bit};
ghost use Rattle.bitpack_queries.specs.Queries.{can_find, fault_from, is_found};
ghost use Rattle.bitpack_slices.specs.Reads.{has};
ghost use Rattle.bitpack_slices.specs.Bodies.{IsRising};

use super::members::{highs_of, key_from, load_key};
use super::testing::MOST_WAITING;
use crate::as_step::AsStep;
use crate::step::Step;
use bitpack_sets::AsSet;
use bitpack_sets::chunks::NO_KEY;
use bitpack_slices::bitmap::combining::combine;
use bitpack_slices::combined::{lowest_key, possible_highs};

/// The lowest key from one on that the answer can have, `NO_KEY` if there is none.
pub(crate) fn next_key<S: AsSet, T: AsStep>(sets: &[S], steps: &[T], from: u32) -> u32
    requires sound { fault_from 64 (length sets.now) 0 0 (map T.its_step steps.now) ≡ None }
    requires from { from ≤ NO_KEY }
    ensures least { from ≤ result }
    ensures most { result ≤ NO_KEY }
    ensures none { (x : ℕ) → from ≤ x / 65536 → x / 65536 < result → is_found (map S.its_ids sets.now) (map T.its_step steps.now) x ≡ false }
    // The sets that have ids of keys from `from` to this one can give some. For an AND these are all sets.
    // claim: sets/27 a query goes from key to key, and at each key the sets that have ids there can give some: in an AND all have one. No
    //   public clause says so
    ensures some { result < NO_KEY → can_find (map S.its_ids sets.now) (map T.its_step steps.now) from result ≡ true }
{
    let mut keys = [0; MOST_WAITING];
    let mut depth = 0;
    for i in 0..steps.len() {
        match steps[i].as_step() {
            Step::Set(set) => {
                keys[depth] = key_from(&sets[set].as_set(), from);
                depth += 1;
            }
            Step::Combine(operation) => {
                depth -= 1;
                keys[depth - 1] = lowest_key(operation, keys[depth - 1], keys[depth]);
            }
        }
    }
    keys[0]
}

/// The high bytes that ids of the answer can have, if they have this key.
pub(crate) fn all_highs<S: AsSet, T: AsStep>(sets: &[S], steps: &[T], key: u32) -> [u64; 4]
    requires sound { fault_from 64 (length sets.now) 0 0 (map T.its_step steps.now) ≡ None }
    requires key { key < NO_KEY }
    ensures { (x : ℕ) → x / 65536 ≡ key → has_bit result (x % 65536 / 256) ≡ false → is_found (map S.its_ids sets.now) (map T.its_step steps.now) x ≡ false }
{
    let mut all = [[0; 4]; MOST_WAITING];
    let mut depth = 0;
    for i in 0..steps.len() {
        match steps[i].as_step() {
            Step::Set(set) => {
                all[depth] = highs_of(&sets[set].as_set(), key);
                depth += 1;
            }
            Step::Combine(operation) => {
                depth -= 1;
                all[depth - 1] = possible_highs(operation, &all[depth - 1], &all[depth]);
            }
        }
    }
    all[0]
}

/// Leaves the ids of the answer that have this key, and one of these high bytes, in the first bitmap. There is one for each operand that
/// waits.
pub(crate) fn load_answer<S: AsSet, T: AsStep>(
    sets: &[S],
    steps: &[T],
    key: u32,
    highs: &[u32],
    bitmaps: &mut [[u64; 1024]],
)
    requires sound { fault_from (length bitmaps.old) (length sets.now) 0 0 (map T.its_step steps.now) ≡ None }
    requires key { key < NO_KEY }
    requires highs { IsRising 0 256 highs.now }
    ensures { (x : ℕ) → x / 65536 ≡ key → has (x % 65536 / 256) highs.now ≡ true
        → has_bit (slice_index_or bitmaps.new 0 []) (x % 65536) ≡ is_found (map S.its_ids sets.now) (map T.its_step steps.now) x }
{
    let mut depth = 0;
    for i in 0..steps.len() {
        match steps[i].as_step() {
            Step::Set(set) => {
                load_key(&sets[set].as_set(), key, highs, &mut bitmaps[depth]);
                depth += 1;
            }
            Step::Combine(operation) => {
                depth -= 1;
                let (words, others) = bitmaps.split_at_mut(depth);
                combine(operation, highs, &mut words[depth - 1], &others[0]);
            }
        }
    }
}
