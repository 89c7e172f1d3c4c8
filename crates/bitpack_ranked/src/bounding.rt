//! Bounds of the blocks of a word, made once for many queries.

ghost use Rattle.std.specs.Prelude.{◌≡◌, ℕ, List, ◌<◌, ◌≤◌, length, map, slice_index, slice_index_or};
ghost use Rattle.bitpack_ranked.specs.Bounds.{AreBounds, HaveBounds, IsBound};
ghost use Rattle.bitpack_ranked.specs.Scores.{part_at};
ghost use Rattle.bitpack_ranked.specs.Terms.{Word};

use crate::as_term::AsTerm;
use crate::block_bounds::BlockBounds;
use crate::ranking::class_of;
use crate::walk::{BLOCK, Walk, most_of};

/// Writes the greatest part of each block of 128 positions of a word, from the first block on, for documents of these classes. After the last
/// block it writes 0.
///
/// It unpacks the whole word, so it is for words of many queries by [`best_bounded`](crate::best_bounded). Allocates nothing.
pub fn bound_blocks<T: AsTerm>(term: &T, classes: &[u8], bounds: &mut [u32])
    // claim: ranked/5 writes bounds of each block's parts
    ensures { AreBounds classes.now (T.its_word term.now) bounds.new }
{
    let mut walk = Walk::new();
    for block in 0..bounds.len() {
        bounds[block] = greatest_in(term, classes, block, &mut walk);
    }
}

/// The greatest part of a block, or 0 if the word has no such block.
fn greatest_in<T: AsTerm>(term: &T, classes: &[u8], block: usize, walk: &mut Walk) -> u32
    ensures { IsBound classes.now (T.its_word term.now) block result }
{
    if block >= term.ids().len().div_ceil(BLOCK) {
        return 0;
    }
    walk.unpack_counts(term, block);
    walk.unpack_ids(term, block);
    greatest_part(term, classes, walk)
}

/// The greatest part of an unpacked block.
fn greatest_part<T: AsTerm>(term: &T, classes: &[u8], walk: &Walk) -> u32
    requires { walk.now.len ≤ 128 }
    ensures { (k : ℕ) → k < walk.now.len
        → part_at (T.its_word term.now).table (slice_index walk.now.counts k) (slice_index classes.now (slice_index walk.now.ids k)) ≤ result }
{
    let mut most = 0;
    for index in 0..walk.len() {
        let (id, count) = walk.at(index);
        most = most.max(term.parts().part(count, class_of(classes, id)));
    }
    most
}

/// The bounds of the word at an index. A word that has none there has none.
pub(crate) fn bounds_at<'a>(bounds: &[BlockBounds<'a>], index: usize) -> BlockBounds<'a>
    ensures { (classes : List ℕ) (words : List Word) (word : Word) → HaveBounds classes words (map (λ its. its.parts.now) bounds.now)
        → index < length words → AreBounds classes (slice_index_or words index word) result.parts.now }
{
    if index < bounds.len() {
        bounds[index]
    } else {
        BlockBounds { parts: &[] }
    }
}

/// What no part of a block is above, before its counts are unpacked.
pub(crate) fn bound_of<T: AsTerm>(term: &T, bounds: BlockBounds, block: usize) -> u32
    ensures { (classes : List ℕ) → AreBounds classes (T.its_word term.now) bounds.entry.parts.now → IsBound classes (T.its_word term.now) block result }
{
    if block < bounds.parts.len() {
        bounds.parts[block]
    } else {
        most_of(term, block)
    }
}
