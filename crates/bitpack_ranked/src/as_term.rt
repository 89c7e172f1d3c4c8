//! What is a word of a query, or has one.

ghost use Rattle.std.specs.Prelude.{◌≡◌};
ghost use Rattle.bitpack_columns.specs.Opened.{values};
ghost use Rattle.bitpack_sets.specs.Opened.{ids};
ghost use Rattle.bitpack_ranked.specs.Terms.{IsWord, Word};

use crate::parts::Parts;
use bitpack_columns::Column;
use bitpack_sets::IdSet;

/// A word of a query, or what has one: the set of its documents, how often each has it, and what this adds to scores.
pub trait AsTerm {
    // The documents of the word, its counts there, and its table.
    ghost its_word: { Self → Word };

    /// The set of the documents that have the word.
    fn ids(&self) -> IdSet<'_>
        ensures { ids result ≡ (its_word self.now).ids };

    /// How often each of them has it, in the order of the set.
    fn counts(&self) -> Column<'_>
        ensures { values result ≡ (its_word self.now).counts };

    /// What this adds to a score.
    fn parts(&self) -> Parts<'_>
        ensures { result.table.now ≡ (its_word self.now).table };

    // The ids are a set, with one count for each, and the parts are a table.
    ghost is_word: { (term : Self) → IsWord (its_word term) };
}
