//! Bounds of the scores of up to 128 increasing documents, without reading what the words have of each.

ghost use Rattle.std.specs.Prelude.{◌≡◌, ℕ, IfSome, ◌+◌, ◌*◌, ◌/◌, ◌^◌, ◌<◌, ◌≤◌, length, map, slice_index};
ghost use Rattle.std.specs.List.{sum_by};
ghost use Rattle.std.specs.List.Sorted.{IsStrictlyIncreasing};
ghost use Rattle.bitpack_ranked.specs.Ranked.{part_in};
ghost use Rattle.bitpack_ranked.specs.Scores.{part_at};
ghost use Rattle.bitpack_ranked.specs.inner.Walks.{AddsMost, IsMostCount};

use crate::as_term::AsTerm;
use crate::ranking::class_of;
use crate::walk::{BLOCK, greatest};

/// With more blocks than this their greatest count is not looked for. On a Xeon of model 85, a call takes as long with 16, up to 1.3 times
/// as long with 4, up to 1.1 times with 256, and up to 1.4 times with 1,024.
const MANY: usize = 64;

/// Adds bounds of the parts of all words.
pub(crate) fn bound_all<T: AsTerm>(terms: &[T], ids: &[u32], classes: &[u8], bounds: &mut [u64])
    requires few { length terms.now ≤ 2 ^ 31 }
    requires increasing { IsStrictlyIncreasing ids.now }
    requires room { length ids.now ≤ length bounds.old }
    requires none { (k : ℕ) → k < length ids.now → slice_index bounds.old k ≡ 0 }
    ensures { (k : ℕ) → k < length ids.now → sum_by (part_in classes.now (slice_index ids.now k)) (map T.its_word terms.now) ≤ slice_index bounds.new k }
{
    for index in 0..terms.len() {
        bound_word(&terms[index], ids, classes, bounds);
    }
}

/// Adds bounds of the parts of a word, by its greatest count in the blocks between which all documents are.
fn bound_word<T: AsTerm>(term: &T, ids: &[u32], classes: &[u8], bounds: &mut [u64])
    requires increasing { IsStrictlyIncreasing ids.now }
    requires room { length ids.now ≤ length bounds.old }
    requires small { (k : ℕ) → k < length ids.now → slice_index bounds.old k < 2 ^ 63 }
    ensures { AddsMost (T.its_word term.now) classes.now ids.now bounds.old bounds.new }
{
    if ids.is_empty() {
        return;
    }
    let first = term.ids().rank(ids[0]) / BLOCK;
    let end = term.ids().rank(ids[ids.len() - 1]) / BLOCK + 1;
    let most = most_between(term, first, end);
    for index in 0..ids.len() {
        bounds[index] += most_part(term, most, class_of(classes, ids[index])) as u64;
    }
}

/// A bound of the parts of a class, of counts that are not above one if there is one.
#[inline(always)]
fn most_part<T: AsTerm>(term: &T, most: Option<u32>, class: u32) -> u32
    ensures { (count : ℕ) → IfSome most (λ most. count ≤ most) → part_at (T.its_word term.now).table count class ≤ result }
{
    match most {
        Some(count) => term.parts().part(count, class),
        None => term.parts().greatest(),
    }
}

/// What no count is above from a block on to another, or `None` if there are many blocks.
fn most_between<T: AsTerm>(term: &T, first: usize, end: usize) -> Option<u32>
    requires { 128 * end ≤ length (T.its_word term.now).ids + 128 }
    ensures { IfSome result (λ most. IsMostCount most (T.its_word term.now) first end) }
{
    if end.saturating_sub(first) > MANY {
        return None;
    }
    let mut most = 0;
    for block in first..end {
        most = most.max(most_count(term, block));
    }
    Some(most)
}

/// The greatest count of a block.
fn most_count<T: AsTerm>(term: &T, block: usize) -> u32
    requires { 128 * block ≤ length (T.its_word term.now).ids }
    ensures { IsMostCount result (T.its_word term.now) block (block + 1) }
{
    let counts = term.counts();
    if block < counts.blocks() {
        return counts.bounds(block).1;
    }
    let mut room = [0; 128];
    let len = counts.copy_range(BLOCK * block, &mut room);
    greatest(&room[..len])
}
