//! Documents that can be among the best, of up to 128 at once.

ghost use Rattle.std.specs.Prelude.{◌≡◌, ℕ, ◌+◌, ◌^◌, ◌<◌, ◌≤◌, ◌||◌, ◌⊎◌, [], Bool, false, true, List, length, map, slice_index, take};
ghost use Rattle.std.specs.List.{count_by};
ghost use Rattle.bitpack_ranked.specs.Ranked.{AreBest, IsScored, has_word};
ghost use Rattle.bitpack_ranked.specs.Terms.{Word};
ghost use Rattle.bitpack_ranked.specs.inner.Candidates.{AreCandidates, AreLeft, AreMarked, IsBeaten, Rise};
ghost use Rattle.bitpack_ranked.specs.inner.Selecting.{IsFull, IsSelected};

use crate::adding::add_word;
use crate::as_term::AsTerm;
use crate::found::{Scored, is_full, select};
use crate::retaining::{mark_at_least, mark_best, retain};
use crate::words::{count_words, rest_of};

/// Documents that can be among the best, with what the words so far add to their scores.
#[derive(Drop)]
pub(crate) struct Candidates {
    pub(crate) ids: [u32; 128],
    pub(crate) scores: [u64; 128],
    pub(crate) len: usize,
}

impl Candidates {
    /// Retains the documents that can be among the best if the words that are left add at most `rest`.
    pub(crate) fn retain_best(&mut self, rest: u64, found: &[Scored], len: usize)
        requires short { self.old.len ≤ 128 }
        requires small { (k : ℕ) → k < self.old.len → slice_index self.old.scores k + rest < 2 ^ 64 }
        requires len { len ≤ length found.now }
        ensures room { length self.new.ids ≡ 128 }
        ensures few { self.new.len ≤ self.old.len }
        ensures retained { AreLeft (λ k. IsBeaten (length found.now) (take len found.now) (slice_index self.old.scores k + rest) (slice_index self.old.ids k))
            self.old self.new }
    {
        let mut marks = [0; 128];
        mark_best(
            &self.ids[..self.len],
            &self.scores,
            rest,
            found,
            len,
            &mut marks,
        );
        self.len = retain(&mut self.ids, &mut self.scores, self.len, &marks);
    }

    /// Retains the documents whose scores, by these bounds, can be among the best.
    pub(crate) fn retain_bounded(&mut self, bounds: &[u64], found: &[Scored], len: usize)
        requires short { self.old.len ≤ 128 }
        requires room { self.old.len ≤ length bounds.now }
        requires len { len ≤ length found.now }
        ensures few { self.new.len ≤ self.old.len }
        ensures retained { AreLeft (λ k. IsBeaten (length found.now) (take len found.now) (slice_index bounds.now k) (slice_index self.old.ids k)) self.old self.new }
    {
        let mut marks = [0; 128];
        mark_best(&self.ids[..self.len], bounds, 0, found, len, &mut marks);
        self.len = retain(&mut self.ids, &mut self.scores, self.len, &marks);
    }

    /// Retains the documents that have at least `at_least` words. `words` has the number of words of each.
    pub(crate) fn retain_with(&mut self, words: &[usize], at_least: usize)
        requires short { self.old.len ≤ 128 }
        requires room { self.old.len ≤ length words.now }
        ensures few { self.new.len ≤ self.old.len }
        ensures retained { AreLeft (λ k. slice_index words.now k < at_least) self.old self.new }
        ensures enough { AreMarked (λ k. at_least ≤ slice_index words.now k) self.old.ids self.old.len self.new.ids self.new.len }
    {
        let mut marks = [0; 128];
        mark_at_least(&words[..self.len], at_least, &mut marks);
        self.len = retain(&mut self.ids, &mut self.scores, self.len, &marks);
    }

    /// Adds up the scores of the documents, and puts the documents that have none of the words before among the best.
    pub(crate) fn rank<T: AsTerm>(
        &mut self,
        before: &[T],
        left: &[T],
        classes: &[u8],
        found: &mut [Scored],
        len: usize,
    ) -> usize
        requires few { (length before.now ≤ 2 ^ 31) × (length left.now ≤ 2 ^ 31) }
        requires short { self.old.len ≤ 128 }
        requires rise { Rise self.old.ids self.old.len }
        requires small { (k : ℕ) → k < self.old.len → slice_index self.old.scores k < 2 ^ 32 }
        requires len { len ≤ length found.old }
        ensures len { result ≤ length found.old }
        ensures best { (words : List Word) (test old : ℕ → Bool)
            → AreCandidates words (map T.its_word before.now) (map T.its_word left.now) classes.now test (length found.old) (take len found.old) self.old
            → ((id : ℕ) → test id ≡ true → old id ≡ false)
            → AreBest (IsScored old words classes.now) (length found.old) (take len found.old)
            → AreBest (IsScored (λ id. old id || test id) words classes.now) (length found.old) (take result found.new) }
    {
        self.add(left, classes, found, len);
        self.select(before, found, len)
    }

    /// Adds what words add to the scores of the documents. A document that cannot be among the best is left out.
    fn add<T: AsTerm>(&mut self, left: &[T], classes: &[u8], found: &[Scored], len: usize)
        requires few { length left.now ≤ 2 ^ 31 }
        requires short { self.old.len ≤ 128 }
        requires rise { Rise self.old.ids self.old.len }
        requires small { (k : ℕ) → k < self.old.len → slice_index self.old.scores k < 2 ^ 32 }
        requires len { len ≤ length found.now }
        ensures short { self.new.len ≤ 128 }
        ensures rise { Rise self.new.ids self.new.len }
        ensures candidates { (words before : List Word) (test : ℕ → Bool)
            → AreCandidates words before (map T.its_word left.now) classes.now test (length found.now) (take len found.now) self.old
            → AreCandidates words before [] classes.now test (length found.now) (take len found.now) self.new }
    {
        let mut rest = rest_of(left);
        for index in 0..left.len() {
            let term = &left[index];
            add_word(term, &self.ids[..self.len], classes, &mut self.scores);
            rest -= term.parts().greatest() as u64;
            self.retain_best(rest, found, len);
        }
    }

    /// Puts the documents that have none of the words before among the best.
    fn select<T: AsTerm>(&self, before: &[T], found: &mut [Scored], len: usize) -> usize
        requires few { length before.now ≤ 2 ^ 31 }
        requires short { self.now.len ≤ 128 }
        requires rise { Rise self.now.ids self.now.len }
        requires len { len ≤ length found.old }
        ensures len { result ≤ length found.old }
        ensures best { (words : List Word) (classes : List ℕ) (test old : ℕ → Bool)
            → AreCandidates words (map T.its_word before.now) [] classes test (length found.old) (take len found.old) self.now
            → ((id : ℕ) → test id ≡ true → old id ≡ false)
            → AreBest (IsScored old words classes) (length found.old) (take len found.old)
            → AreBest (IsScored (λ id. old id || test id) words classes) (length found.old) (take result found.new) }
    {
        let mut len = len;
        for index in 0..self.len {
            let score = self.scores[index];
            let id = self.ids[index];
            len = select_new(before, found, len, Scored { score, id });
        }
        len
    }
}

/// Puts a document among the best, if it is one of them and has none of the words before.
#[inline(always)]
fn select_new<T: AsTerm>(before: &[T], found: &mut [Scored], len: usize, document: Scored) -> usize
    requires few { length before.now ≤ 2 ^ 31 }
    requires len { len ≤ length found.old }
    ensures len { result ≤ length found.old }
    ensures selected { ((count_by (has_word document.id) (map T.its_word before.now) ≡ 0)
        × IsSelected (length found.old) document (take len found.old) (take result found.new))
        ⊎ ((take result found.new ≡ take len found.old)
        × ((0 < count_by (has_word document.id) (map T.its_word before.now)) ⊎ IsFull (length found.old) document (take len found.old))) }
{
    if is_full(found, len, document) {
        return len;
    }
    if count_words(before, document.id) > 0 {
        return len;
    }
    select(found, len, document)
}
