//! A word of a query: where it is, how often, and what it adds to scores.

ghost use Rattle.std.specs.Prelude.{◌≡◌, length};
ghost use Rattle.bitpack_columns.specs.Opened.{values};
ghost use Rattle.bitpack_sets.specs.Opened.{ids};
ghost use Rattle.std.proofs.Props.{props};
ghost use Rattle.bitpack_slices.specs.Props.{rising_prop};
ghost use Rattle.bitpack_sets.specs.Sets.{IsSet};
ghost use Rattle.bitpack_ranked.specs.Terms.{IsWord, Word};

use crate::as_term::AsTerm;
use crate::parts::Parts;
use bitpack_columns::Column;
use bitpack_sets::IdSet;
use bitpack_sets::laws::one_encoding;

/// A set and a column are not of one word: there are more ids than counts, or fewer.
#[derive(Clone, Copy, PartialEq, Eq, Debug)]
pub struct TermError;

/// A word: the ids of its documents, how often each has it, and what this adds to a score.
#[derive(Clone, Copy)]
pub struct Term<'a> {
    set: IdSet<'a>,
    counts: Column<'a>,
    parts: Parts<'a>,
    ghost is_set: { IsSet (ids set) } by { Prim.hlevel (props, rising_prop) },
    ghost pairs: { length (values counts) ≡ length (ids set) },
}

impl<'a> Term<'a> {
    ghost use Rattle.std.specs.Prelude.{◌≢◌, IfErr, IfOk};

    /// A word of a set and a column, with as many ids as counts.
    pub fn new(set: IdSet<'a>, counts: Column<'a>, parts: Parts<'a>) -> Result<Term<'a>, TermError>
        // claim: ranked/2 a word of ids, as many counts, and a table
        ensures term { IfOk result (λ term.
            (term.set ≡ set.entry) × (term.counts ≡ counts.entry) × (term.parts ≡ parts.entry)) }
        ensures length { IfErr result (λ e. length (values counts.entry) ≢ length (ids set.entry)) }
    {
        if set.len() != counts.len() {
            return Err(TermError);
        }
        one_encoding();
        Ok(Term { set, counts, parts })
    }
}

impl<'a> AsTerm for Term<'a> {
    ghost its_word = { λ term. record { ids = ids term.set; counts = values term.counts; table = term.parts.table.now } };

    fn ids(&self) -> IdSet<'_> {
        self.set
    }

    fn counts(&self) -> Column<'_> {
        self.counts
    }

    fn parts(&self) -> Parts<'_> {
        self.parts
    }

    ghost is_word = { λ term. record { set = term.is_set; pairs = term.pairs; parts = term.parts.right } };
}
