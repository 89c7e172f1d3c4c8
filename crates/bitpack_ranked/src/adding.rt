//! Adds what a word is worth to the scores of up to 128 increasing documents.

ghost use Rattle.std.specs.Prelude.{◌≡◌, ◌≢◌, ℕ, ◌⊎◌, ◌+◌, ◌*◌, ◌/◌, ◌^◌, ◌<◌, ◌≤◌, List, if◌then◌else◌, length, slice_index};
ghost use Rattle.std.specs.List.{filter};
ghost use Rattle.std.specs.List.Sorted.{IsStrictlyIncreasing};
ghost use Rattle.bitpack_slices.specs.Reads.{has, rank};
ghost use Rattle.bitpack_ranked.specs.Ranked.{has_word, part_in};
ghost use Rattle.bitpack_ranked.specs.Scores.{part_at};
ghost use Rattle.bitpack_ranked.specs.inner.Walks.{Adds, IsAfter, IsUnpacked};

use crate::as_term::AsTerm;
use crate::others::{copy_common, is_next};
use crate::ranking::class_of;
use crate::walk::{BLOCK, Walk};

/// Adds the parts of a word: of each document on its own if they are far apart, and else block by block.
pub(crate) fn add_word<T: AsTerm>(term: &T, ids: &[u32], classes: &[u8], scores: &mut [u64])
    requires short { length ids.now ≤ 128 }
    requires increasing { IsStrictlyIncreasing ids.now }
    requires room { length ids.now ≤ length scores.old }
    requires small { (k : ℕ) → k < length ids.now → slice_index scores.old k < 2 ^ 63 }
    ensures { Adds (T.its_word term.now) classes.now ids.now scores.old scores.new }
{
    if ids.is_empty() {
        return;
    }
    let first = term.ids().rank(ids[0]) / BLOCK;
    let end = term.ids().rank(ids[ids.len() - 1]) / BLOCK + 1;
    if end.saturating_sub(first) > ids.len() / 2 + 1 {
        add_each(term, ids, classes, scores);
    } else {
        add_blocks(term, first, end, ids, classes, scores);
    }
}

/// Adds the part of each document that has the word.
fn add_each<T: AsTerm>(term: &T, ids: &[u32], classes: &[u8], scores: &mut [u64])
    requires short { length ids.now ≤ 128 }
    requires room { length ids.now ≤ length scores.old }
    requires small { (k : ℕ) → k < length ids.now → slice_index scores.old k < 2 ^ 63 }
    ensures { Adds (T.its_word term.now) classes.now ids.now scores.old scores.new }
{
    let mut room = [0; 128];
    let common = &mut room[..ids.len()];
    let count = copy_common(term, ids, common);
    add_common(term, &common[..count], ids, classes, scores);
}

/// Adds the part of each document that is among those with the word, which are in the same order.
fn add_common<T: AsTerm>(term: &T, common: &[u32], ids: &[u32], classes: &[u8], scores: &mut [u64])
    requires common { common.now ≡ filter (λ x. has x (T.its_word term.now).ids) ids.now }
    requires room { length ids.now ≤ length scores.old }
    requires small { (k : ℕ) → k < length ids.now → slice_index scores.old k < 2 ^ 63 }
    ensures { Adds (T.its_word term.now) classes.now ids.now scores.old scores.new }
{
    let mut next = 0;
    for index in 0..ids.len() {
        let id = ids[index];
        let more = is_next(common, next, id);
        scores[index] += part_if(term, more, id, class_of(classes, id)) as u64;
        next += more;
    }
}

/// The part of a document of a class if a number is 1, else 0.
#[inline(always)]
fn part_if<T: AsTerm>(term: &T, more: usize, id: u32, class: u32) -> u32
    ensures { (classes : List ℕ) → slice_index classes id ≡ class → more ≡ (if has_word id (T.its_word term.now) then 1 else 0)
        → result ≡ part_in classes id (T.its_word term.now) }
{
    if more == 0 {
        return 0;
    }
    let count = term.counts().get(term.ids().rank(id)).unwrap_or(0);
    term.parts().part(count, class)
}

/// Adds the parts of blocks, between which all documents are.
fn add_blocks<T: AsTerm>(
    term: &T,
    first: usize,
    end: usize,
    ids: &[u32],
    classes: &[u8],
    scores: &mut [u64],
)
    requires increasing { IsStrictlyIncreasing ids.now }
    requires room { length ids.now ≤ length scores.old }
    requires small { (k : ℕ) → k < length ids.now → slice_index scores.old k < 2 ^ 63 }
    requires from { (k : ℕ) → k < length ids.now → 128 * first ≤ rank (slice_index ids.now k) (T.its_word term.now).ids }
    requires upto { (k : ℕ) → k < length ids.now → rank (slice_index ids.now k) (T.its_word term.now).ids < 128 * end }
    ensures { Adds (T.its_word term.now) classes.now ids.now scores.old scores.new }
{
    let mut walk = Walk::new();
    let blocks = term.ids().len().div_ceil(BLOCK);
    let mut next = 0;
    for block in first..end.min(blocks) {
        walk.unpack_counts(term, block);
        walk.unpack_ids(term, block);
        next = add_block(term, &walk, block, ids, next, classes, scores);
    }
}

/// Adds the parts of an unpacked block, from an index on. Returns the index of the first document after the block.
fn add_block<T: AsTerm>(
    term: &T,
    walk: &Walk,
    block: usize,
    ids: &[u32],
    next: usize,
    classes: &[u8],
    scores: &mut [u64],
) -> usize
    requires block { IsUnpacked (T.its_word term.now) block walk.now }
    requires within { 128 * block < length (T.its_word term.now).ids }
    requires increasing { IsStrictlyIncreasing ids.now }
    requires next { next ≤ length ids.now }
    requires room { length ids.now ≤ length scores.old }
    requires small { (k : ℕ) → next ≤ k → k < length ids.now → slice_index scores.old k < 2 ^ 63 }
    requires from { (k : ℕ) → next ≤ k → k < length ids.now → IsAfter (T.its_word term.now) block (slice_index ids.now k) }
    ensures within { (next ≤ result) × (result ≤ length ids.now) }
    ensures added { (k : ℕ) → next ≤ k → k < result → (slice_index scores.new k ≡ slice_index scores.old k + part_in classes.now (slice_index ids.now k) (T.its_word term.now))
        × (slice_index scores.new k < slice_index scores.old k + 2 ^ 32) }
    ensures others { (k : ℕ) → (k < next) ⊎ (result ≤ k) → slice_index scores.new k ≡ slice_index scores.old k }
    ensures later { (k : ℕ) → result ≤ k → k < length ids.now → IsAfter (T.its_word term.now) (block + 1) (slice_index ids.now k) }
{
    let its = walk.ids();
    let last = its[its.len() - 1];
    let mut at = 0;
    for index in next..ids.len() {
        let id = ids[index];
        if id > last {
            return index;
        }
        at = first_from(its, at, id);
        scores[index] += part_of(term, walk, at, id, class_of(classes, id)) as u64;
    }
    ids.len()
}

/// The part of a document of a class if it is at an index of the block, else 0.
#[inline(always)]
fn part_of<T: AsTerm>(term: &T, walk: &Walk, at: usize, id: u32, class: u32) -> u32
    requires { at < 128 }
    ensures here { slice_index walk.now.ids at ≡ id → result ≡ part_at (T.its_word term.now).table (slice_index walk.now.counts at) class }
    ensures lacking { slice_index walk.now.ids at ≢ id → result ≡ 0 }
{
    let (other, count) = walk.at(at);
    if other == id {
        term.parts().part(count, class)
    } else {
        0
    }
}

/// The first index from one on whose id is not below another, or the length if there is none.
#[inline(always)]
fn first_from(ids: &[u32], at: usize, id: u32) -> usize
    requires { at ≤ length ids.now }
    ensures within { (at ≤ result) × (result ≤ length ids.now) }
    ensures below { (k : ℕ) → at ≤ k → k < result → slice_index ids.now k < id }
    ensures here { result < length ids.now → id ≤ slice_index ids.now result }
{
    for index in at..ids.len() {
        if ids[index] >= id {
            return index;
        }
    }
    ids.len()
}
