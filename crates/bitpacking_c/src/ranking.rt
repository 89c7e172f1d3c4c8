//! Ranked search over terms, with work space of the caller.

ghost use Rattle.std.specs.Prelude.{map};
ghost use Rattle.bitpack_ranked.specs.Bounds.{AreBounds, HaveBounds};
ghost use Rattle.bitpacking_c.specs.Ranking.{FindsBest, FindsBestAmong, StartsTerm, word_of, word_of_views};

use crate::column_view::ColumnView;
use crate::set_view::SetView;
use crate::term_view::TermView;
use bitpack_ranked::{BlockBounds, Parts, Scored, Walk, best_among, best_bounded, bound_blocks};
use bitpack_sets::AsSet;
use bitpack_sets::laws::one_encoding;

/// The most terms.
const MOST: usize = 0x1000_0000;

/// Starts a term of the ids of a word, as many counts, and a table of what they add to a score. Tests the table. Returns 0, or -1 for another
/// number of counts, or -12 for what is no table.
#[unsafe(no_mangle)]
pub extern "C" fn bitpacking_term_start<'a>(
    term: &mut TermView<'a>,
    set: &SetView<'a>,
    counts: &ColumnView<'a>,
    table: &'a [u32],
) -> isize
    // claim: c/40
    ensures { StartsTerm (word_of_views set.now counts.now table.now) term.old term.new result }
{
    if set.as_set().len() != counts.column().len() {
        return -1;
    }
    match Parts::new(table) {
        Some(_) => {}
        None => return -12,
    }
    one_encoding();
    *term = TermView {
        set: *set,
        counts: *counts,
        table,
    };
    0
}

/// Writes the best of the documents that have at least `at_least` of the words to the front of `found`, the best of them first, as many as there
/// are and fit. Returns how many these are, or -25 for more than 2^28 terms, or -3 for fewer walks than terms.
#[unsafe(no_mangle)]
pub extern "C" fn bitpacking_best(
    terms: &[TermView<'_>],
    classes: &[u8],
    at_least: usize,
    walks: &mut [Walk],
    found: &mut [Scored],
) -> isize
    // claim: c/40 `best`, `best_among`: as `ranked/1`, `ranked/4`, of terms that `term_start` tests as `ranked/2-3`; zeros are a word of no
    //   document; at most 2^28 terms
    ensures { FindsBest terms.now classes.now at_least (walks.old, walks.new) (found.old, found.new) result }
{
    rank(terms, &[], classes, at_least, walks, found)
}

/// Writes the greatest part of each block of 128 documents of a term, from the first on, and 0 after the last.
#[unsafe(no_mangle)]
pub extern "C" fn bitpacking_term_bound(term: &TermView<'_>, classes: &[u8], parts: &mut [u32])
    // claim: c/48 `term_bound`, `best_bounded`: as `ranked/5-6`, of such terms
    ensures { AreBounds classes.now (word_of term.now) parts.new }
{
    bound_blocks(term, classes, parts);
}

/// As `bitpacking_best`, with bounds that `bitpacking_term_bound` wrote for the same classes: the first are of the first term, and so on.
#[unsafe(no_mangle)]
pub extern "C" fn bitpacking_best_bounded(
    terms: &[TermView<'_>],
    bounds: &[BlockBounds<'_>],
    classes: &[u8],
    at_least: usize,
    walks: &mut [Walk],
    found: &mut [Scored],
) -> isize
    requires bounded { HaveBounds classes.now (map word_of terms.now) (map (λ its. its.parts.now) bounds.now) }
    // claim: c/48
    ensures { FindsBest terms.now classes.now at_least (walks.old, walks.new) (found.old, found.new) result }
{
    rank(terms, bounds, classes, at_least, walks, found)
}

/// Writes the best of the documents that have enough of the words, with the bounds of the first.
fn rank(
    terms: &[TermView<'_>],
    bounds: &[BlockBounds<'_>],
    classes: &[u8],
    at_least: usize,
    walks: &mut [Walk],
    found: &mut [Scored],
) -> isize
    requires bounded { HaveBounds classes.now (map word_of terms.now) (map (λ its. its.parts.now) bounds.now) }
    ensures { FindsBest terms.now classes.now at_least (walks.old, walks.new) (found.old, found.new) result }
{
    if terms.len() > MOST {
        return -25;
    }
    if walks.len() < terms.len() {
        return -3;
    }
    best_bounded(terms, bounds, classes, at_least, walks, found) as isize
}

/// Writes the best of increasing documents to the front of `found`, the best of them first, as many as there are and fit. Returns how many these
/// are, or -25 for more than 2^28 terms, or -30 for documents that do not increase.
#[unsafe(no_mangle)]
pub extern "C" fn bitpacking_best_among(
    documents: &[u32],
    terms: &[TermView<'_>],
    classes: &[u8],
    found: &mut [Scored],
) -> isize
    // claim: c/40
    ensures { FindsBestAmong documents.now terms.now classes.now (found.old, found.new) result }
{
    if terms.len() > MOST {
        return -25;
    }
    match best_among(documents, terms, classes, found) {
        Ok(count) => count as isize,
        Err(_) => -30,
    }
}
