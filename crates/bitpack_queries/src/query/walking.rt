//! Walks over the ids of a query, key by key. The caller has the bitmaps.

ghost use Rattle.std.specs.Prelude.{◌≡◌, ℕ, [], ◌++◌, ◌/◌, ◌^◌, ◌<◌, ◌≤◌, Bool, None, false, length, map, max, min, take, true};
ghost use Rattle.bitpack_slices.specs.Operations.{those};
ghost use Rattle.bitpack_slices.specs.Reads.{ids_from};
ghost use Rattle.bitpack_queries.specs.Queries.{IsLoaded, answer_of, fault_from, is_found};

use super::running::{all_highs, load_answer, next_key};
use crate::as_step::AsStep;
use bitpack_sets::AsSet;
use bitpack_sets::chunks::NO_KEY;
use bitpack_slices::bitmap::single_bits::first_bit;
use bitpack_slices::bitmap::unpacking::{unpack_bits, unpack_bits_from};

/// How many ids there can be.
pub(crate) const END: u64 = 1 << 32;

/// Where a walk over the ids of a query is.
#[derive(Drop)]
pub(crate) struct Walk {
    /// The least id that can still come.
    pub(crate) next: u64,
    // The key and the high bytes whose ids the first bitmap has.
    key: u32,
    highs: [u64; 4],
    ghost within: { next ≤ 2 ^ 32 },
}

impl Walk {
    /// A walk that begins at an id. The bitmaps have no ids yet.
    pub(crate) fn new(next: u64) -> Walk
        requires within { next ≤ 2 ^ 32 }
        ensures next { result.next ≡ next }
        ensures key { result.key ≡ NO_KEY }
    {
        Walk {
            next,
            key: NO_KEY,
            highs: [0; 4],
        }
    }

    /// Passes over the ids below `target`.
    pub(crate) fn seek(&mut self, target: u32)
        ensures next { self.new.next ≡ max self.old.next target }
        ensures key { self.new.key ≡ self.old.key }
        ensures highs { self.new.highs ≡ self.old.highs }
    {
        self.next = self.next.max(target as u64);
    }

    /// Writes the next ids of the answer at the start of the slice, as many as there are and it has room for. Returns how many it wrote.
    pub(crate) fn next_ids<S: AsSet, T: AsStep>(
        &mut self,
        sets: &[S],
        steps: &[T],
        bitmaps: &mut [[u64; 1024]],
        out: &mut [u32],
    ) -> usize
        requires sound { fault_from 64 (length sets.now) 0 0 (map T.its_step steps.now) ≡ None }
        requires enough { fault_from (length bitmaps.old) (length sets.now) 0 0 (map T.its_step steps.now) ≡ None }
        requires loaded { IsLoaded (is_found (map S.its_ids sets.now) (map T.its_step steps.now)) self.old.key self.old.highs bitmaps.old }
        ensures loaded { IsLoaded (is_found (map S.its_ids sets.now) (map T.its_step steps.now)) self.new.key self.new.highs bitmaps.new }
        ensures len { result ≡ min (length out.old)
            (length (ids_from self.old.next (answer_of (map S.its_ids sets.now) (map T.its_step steps.now)))) }
        ensures ids { take result out.new ++ ids_from self.new.next (answer_of (map S.its_ids sets.now) (map T.its_step steps.now))
            ≡ ids_from self.old.next (answer_of (map S.its_ids sets.now) (map T.its_step steps.now)) }
    {
        let mut at = 0;
        while at < out.len() && self.find(sets, steps, bitmaps) {
            at = self.write(bitmaps, out, at);
        }
        at
    }

    // Whether ids are left, or may be. Loads the next that can come.
    fn find<S: AsSet, T: AsStep>(
        &mut self,
        sets: &[S],
        steps: &[T],
        bitmaps: &mut [[u64; 1024]],
    ) -> bool
        requires sound { fault_from 64 (length sets.now) 0 0 (map T.its_step steps.now) ≡ None }
        requires enough { fault_from (length bitmaps.old) (length sets.now) 0 0 (map T.its_step steps.now) ≡ None }
        requires loaded { IsLoaded (is_found (map S.its_ids sets.now) (map T.its_step steps.now)) self.old.key self.old.highs bitmaps.old }
        ensures loaded { IsLoaded (is_found (map S.its_ids sets.now) (map T.its_step steps.now)) self.new.key self.new.highs bitmaps.new }
        ensures left { ids_from self.new.next (answer_of (map S.its_ids sets.now) (map T.its_step steps.now))
            ≡ ids_from self.old.next (answer_of (map S.its_ids sets.now) (map T.its_step steps.now)) }
        ensures later { self.old.next ≤ self.new.next }
        ensures none { result ≡ false → ids_from self.new.next (answer_of (map S.its_ids sets.now) (map T.its_step steps.now)) ≡ [] }
        ensures key { result ≡ true → self.new.next / 65536 ≡ self.new.key }
        ensures more { result ≡ true → self.new.next < 2 ^ 32 }
    {
        let from = (self.next / 65536) as u32;
        if from != self.key {
            self.advance(sets, steps, bitmaps, from);
        }
        self.next < END
    }

    // Loads the ids of the next key that the answer can have.
    fn advance<S: AsSet, T: AsStep>(
        &mut self,
        sets: &[S],
        steps: &[T],
        bitmaps: &mut [[u64; 1024]],
        from: u32,
    )
        requires sound { fault_from 64 (length sets.now) 0 0 (map T.its_step steps.now) ≡ None }
        requires enough { fault_from (length bitmaps.old) (length sets.now) 0 0 (map T.its_step steps.now) ≡ None }
        requires loaded { IsLoaded (is_found (map S.its_ids sets.now) (map T.its_step steps.now)) self.old.key self.old.highs bitmaps.old }
        requires from { from ≡ self.old.next / 65536 }
        ensures loaded { IsLoaded (is_found (map S.its_ids sets.now) (map T.its_step steps.now)) self.new.key self.new.highs bitmaps.new }
        ensures left { ids_from self.new.next (answer_of (map S.its_ids sets.now) (map T.its_step steps.now))
            ≡ ids_from self.old.next (answer_of (map S.its_ids sets.now) (map T.its_step steps.now)) }
        ensures later { self.old.next ≤ self.new.next }
        ensures key { self.new.next < 2 ^ 32 → self.new.next / 65536 ≡ self.new.key }
    {
        let key = next_key(sets, steps, from);
        if key > from {
            self.next = key as u64 * 65536;
        }
        if key < NO_KEY {
            self.load(sets, steps, bitmaps, key);
        }
    }

    // Loads the ids of a key.
    fn load<S: AsSet, T: AsStep>(
        &mut self,
        sets: &[S],
        steps: &[T],
        bitmaps: &mut [[u64; 1024]],
        key: u32,
    )
        requires sound { fault_from 64 (length sets.now) 0 0 (map T.its_step steps.now) ≡ None }
        requires enough { fault_from (length bitmaps.old) (length sets.now) 0 0 (map T.its_step steps.now) ≡ None }
        requires key { key < NO_KEY }
        ensures loaded { IsLoaded (is_found (map S.its_ids sets.now) (map T.its_step steps.now)) self.new.key self.new.highs bitmaps.new }
        ensures next { self.new.next ≡ self.old.next }
        ensures key { self.new.key ≡ key }
    {
        let mut highs = [0; 256];
        self.key = key;
        self.highs = all_highs(sets, steps, key);
        let count = unpack_bits(&self.highs, 0, &mut highs, 0);
        load_answer(sets, steps, key, &highs[..count], bitmaps);
    }

    // Writes ids of the next high byte. Returns the index after the last.
    fn write(&mut self, bitmaps: &[[u64; 1024]], out: &mut [u32], at: usize) -> usize
        requires some { 0 < length bitmaps.now }
        requires key { self.old.next / 65536 ≡ self.old.key }
        requires more { self.old.next < 2 ^ 32 }
        requires room { at < length out.old }
        ensures key { self.new.key ≡ self.old.key }
        ensures highs { self.new.highs ≡ self.old.highs }
        ensures room { result ≤ length out.old }
        // The ids are in each answer that the first bitmap tells.
        ensures ids { (found : ℕ → Bool) → IsLoaded found self.old.key self.old.highs bitmaps.now
            → take result out.new ++ ids_from self.new.next (those (2 ^ 32) found) ≡ take at out.old ++ ids_from self.old.next (those (2 ^ 32) found) }
        ensures later { self.old.next < self.new.next }
    {
        let low = (self.next % 65536) as usize;
        let high = first_bit(&self.highs, low / 256);
        let base = self.next - low as u64 + 256 * high as u64;
        let next = self.next.max(base);
        if high == 256 {
            self.next = base;
            return at;
        }
        let bits = &bitmaps[0][4 * high..4 * high + 4];
        let (end, next) = unpack_bits_from(bits, base as u32, next as u32, out, at);
        self.next = next;
        end
    }
}
