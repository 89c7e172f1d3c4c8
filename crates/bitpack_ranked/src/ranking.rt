//! The best documents of a query, block by block of each word. If none of a block can be one of them, its documents are not ranked.

ghost use Rattle.std.specs.Prelude.{◌≡◌, ℕ, ◌+◌, ◌-◌, ◌*◌, ◌^◌, ◌<◌, ◌≤◌, length, map, max, slice_index, take};
ghost use Rattle.std.specs.List.{count_by};
ghost use Rattle.bitpack_ranked.specs.Bounds.{AreBounds, HaveBounds};
ghost use Rattle.bitpack_ranked.specs.Ranked.{AreBest, IsHit, has_word};
ghost use Rattle.bitpack_ranked.specs.Scores.{part_at};
ghost use Rattle.bitpack_ranked.specs.inner.Candidates.{AreLeft};
ghost use Rattle.bitpack_ranked.specs.inner.Walks.{IsLow, IsPastIn, IsUnpacked, most_rest};

use crate::as_term::AsTerm;
use crate::block_bounds::BlockBounds;
use crate::bounding::{bound_of, bounds_at};
use crate::candidates::Candidates;
use crate::found::{Scored, is_full};
use crate::others::count_others;
use crate::walk::{BLOCK, Walk};
use crate::words::rest_of;

/// Writes the best of the documents that have at least `at_least` of the words, the best of them first, as many as there is room for. Returns
/// how many these are. A scan of all would find the same.
///
/// A document with a greater score comes first, and of two with the same score the one with the lower id. The score adds up the part of each
/// word that the document has. `classes` has the class of the length of each document by its id. A document after its end has class 0.
///
/// With `at_least` of 1 or 0 it is a query by OR, and with as many as there are words by AND. Each word needs one of `walks` as room, which may
/// hold anything before. Allocates nothing.
///
/// Words are ranked one after the other, and it is fastest if the rarest word comes first. If the bound of a block of 128 positions tells that
/// none of the best is there, its documents are not ranked.
pub fn best<T: AsTerm>(
    terms: &[T],
    classes: &[u8],
    at_least: usize,
    walks: &mut [Walk],
    found: &mut [Scored],
) -> usize
    requires few { length terms.now ≤ 2 ^ 31 }
    requires room { length terms.now ≤ length walks.old }
    ensures len { result ≤ length found.old }
    // claim: ranked/1 writes the best documents with enough words, as a scan does, ties by lower id; at most 2^31 words
    ensures best { AreBest (IsHit (map T.its_word terms.now) classes.now (max 1 at_least)) (length found.old) (take result found.new) }
{
    best_bounded(terms, &[], classes, at_least, walks, found)
}

/// As [`best`], with bounds that [`bound_blocks`](crate::bound_blocks) wrote for the same classes: the first are of the first word, and so on. A
/// word after the last bounds has none, as one with empty bounds.
///
/// They skip most blocks of a common word that is the only one.
pub fn best_bounded<T: AsTerm>(
    terms: &[T],
    bounds: &[BlockBounds],
    classes: &[u8],
    at_least: usize,
    walks: &mut [Walk],
    found: &mut [Scored],
) -> usize
    requires few { length terms.now ≤ 2 ^ 31 }
    requires room { length terms.now ≤ length walks.old }
    requires bounds { HaveBounds classes.now (map T.its_word terms.now) (map (λ its. its.parts.now) bounds.now) }
    ensures len { result ≤ length found.old }
    // claim: ranked/6 as `ranked/1`, with such bounds
    ensures best { AreBest (IsHit (map T.its_word terms.now) classes.now (max 1 at_least)) (length found.old) (take result found.new) }
{
    clear(walks);
    let at_least = at_least.max(1);
    let mut len = 0;
    // A document with enough of the words has one of these.
    for index in 0..(terms.len() + 1).saturating_sub(at_least) {
        let turn = Turn {
            before: &terms[..index],
            term: &terms[index],
            after: &terms[index + 1..],
            bounds: bounds_at(bounds, index),
            classes,
            at_least,
        };
        len = turn.pass(&mut walks[index], found, len);
    }
    len
}

/// No blocks were unpacked.
fn clear(walks: &mut [Walk]) {
    for index in 0..walks.len() {
        walks[index].clear();
    }
}

/// A word whose documents are ranked, the words before it, whose documents were, and those after it.
#[derive(Drop)]
struct Turn<'a, T: AsTerm> {
    before: &'a [T],
    term: &'a T,
    after: &'a [T],
    bounds: BlockBounds<'a>,
    classes: &'a [u8],
    at_least: usize,
    ghost few: { length after.now ≤ 2 ^ 31 },
    ghost few_before: { length before.now ≤ 2 ^ 31 },
    ghost some: { 1 ≤ at_least },
}

impl<'a, T: AsTerm> Turn<'a, T> {
    /// Puts the documents of the word among the best, block by block.
    fn pass(&self, walk: &mut Walk, found: &mut [Scored], len: usize) -> usize
        requires bounds { AreBounds self.now.classes.now (T.its_word self.now.term.now) self.now.bounds.parts.now }
        requires len { len ≤ length found.old }
        requires best { AreBest (IsPastIn (map T.its_word self.now.before.now) (T.its_word self.now.term.now) (map T.its_word self.now.after.now)
            self.now.classes.now self.now.at_least 0) (length found.old) (take len found.old) }
        ensures len { result ≤ length found.old }
        ensures best { AreBest (IsPastIn (map T.its_word self.now.before.now) (T.its_word self.now.term.now) (map T.its_word self.now.after.now)
            self.now.classes.now self.now.at_least (length (T.its_word self.now.term.now).ids)) (length found.old) (take result found.new) }
    {
        walk.start();
        let rest = rest_of(self.after);
        let mut len = len;
        for block in 0..self.term.ids().len().div_ceil(BLOCK) {
            len = self.pass_block(walk, block, rest, found, len);
        }
        len
    }

    /// Puts the documents of a block among the best. If none can be, no counts are unpacked.
    fn pass_block(
        &self,
        walk: &mut Walk,
        block: usize,
        rest: u64,
        found: &mut [Scored],
        len: usize,
    ) -> usize
        requires bounds { AreBounds self.now.classes.now (T.its_word self.now.term.now) self.now.bounds.parts.now }
        requires within { 128 * block < length (T.its_word self.now.term.now).ids }
        requires low { IsLow walk.old.low (T.its_word self.now.term.now) block }
        requires rest { rest ≡ most_rest (map T.its_word self.now.after.now) }
        requires small { rest ≤ (2 ^ 32 - 1) * 2 ^ 31 }
        requires len { len ≤ length found.old }
        requires best { AreBest (IsPastIn (map T.its_word self.now.before.now) (T.its_word self.now.term.now) (map T.its_word self.now.after.now)
            self.now.classes.now self.now.at_least (128 * block)) (length found.old) (take len found.old) }
        ensures low { IsLow walk.new.low (T.its_word self.now.term.now) (block + 1) }
        ensures len { result ≤ length found.old }
        ensures best { AreBest (IsPastIn (map T.its_word self.now.before.now) (T.its_word self.now.term.now) (map T.its_word self.now.after.now)
            self.now.classes.now self.now.at_least (128 * (block + 1))) (length found.old) (take result found.new) }
    {
        let id = walk.low();
        let score = bound_of(self.term, self.bounds, block) as u64 + rest;
        if is_full(found, len, Scored { score, id }) {
            return len;
        }
        let score = walk.unpack_counts(self.term, block) as u64 + rest;
        if is_full(found, len, Scored { score, id }) {
            return len;
        }
        walk.unpack_ids(self.term, block);
        self.pass_documents(walk, block, rest, found, len)
    }

    /// Puts the documents of an unpacked block among the best.
    fn pass_documents(
        &self,
        walk: &Walk,
        block: usize,
        rest: u64,
        found: &mut [Scored],
        len: usize,
    ) -> usize
        requires block { IsUnpacked (T.its_word self.now.term.now) block walk.now }
        requires rest { rest ≡ most_rest (map T.its_word self.now.after.now) }
        requires small { rest ≤ (2 ^ 32 - 1) * 2 ^ 31 }
        requires len { len ≤ length found.old }
        requires best { AreBest (IsPastIn (map T.its_word self.now.before.now) (T.its_word self.now.term.now) (map T.its_word self.now.after.now)
            self.now.classes.now self.now.at_least (128 * block)) (length found.old) (take len found.old) }
        ensures len { result ≤ length found.old }
        ensures best { AreBest (IsPastIn (map T.its_word self.now.before.now) (T.its_word self.now.term.now) (map T.its_word self.now.after.now)
            self.now.classes.now self.now.at_least (128 * (block + 1))) (length found.old) (take result found.new) }
    {
        let mut candidates = self.candidates(walk);
        candidates.retain_best(rest, found, len);
        self.retain_enough(&mut candidates);
        candidates.rank(self.before, self.after, self.classes, found, len)
    }

    /// All documents of an unpacked block, with what the word adds to their scores.
    fn candidates(&self, walk: &Walk) -> Candidates
        requires { walk.now.len ≤ 128 }
        ensures len { result.len ≡ walk.now.len }
        ensures ids { (k : ℕ) → k < walk.now.len → slice_index result.ids k ≡ slice_index walk.now.ids k }
        ensures scores { (k : ℕ) → k < walk.now.len → slice_index result.scores k
            ≡ part_at (T.its_word self.now.term.now).table (slice_index walk.now.counts k) (slice_index self.now.classes.now (slice_index walk.now.ids k)) }
        ensures small { (k : ℕ) → k < walk.now.len → slice_index result.scores k < 2 ^ 32 }
    {
        let mut ids = [0; 128];
        let mut scores = [0; 128];
        for index in 0..walk.len() {
            let (id, count) = walk.at(index);
            ids[index] = id;
            scores[index] = self.term.parts().part(count, class_of(self.classes, id)) as u64;
        }
        Candidates {
            ids,
            scores,
            len: walk.len(),
        }
    }

    /// Retains the candidates that have enough of the words after.
    fn retain_enough(&self, candidates: &mut Candidates)
        requires { candidates.old.len ≤ 128 }
        ensures few { candidates.new.len ≤ candidates.old.len }
        ensures retained { AreLeft (λ k. count_by (has_word (slice_index candidates.old.ids k)) (map T.its_word self.now.after.now) + 1 < self.now.at_least)
            candidates.old candidates.new }
        ensures enough { (j : ℕ) → j < candidates.new.len
            → self.now.at_least ≤ count_by (has_word (slice_index candidates.new.ids j)) (map T.its_word self.now.after.now) + 1 }
    {
        if self.at_least == 1 {
            return;
        }
        let mut words = [0; 128];
        count_others(self.after, &candidates.ids[..candidates.len], &mut words);
        candidates.retain_with(&words, self.at_least - 1);
    }
}

/// The class of the length of a document. Documents after the end of the list have the first class.
#[inline(always)]
pub(crate) fn class_of(classes: &[u8], id: u32) -> u32
    ensures { result ≡ slice_index classes.now id }
{
    let position = id as usize;
    if position < classes.len() {
        classes[position] as u32
    } else {
        0
    }
}
