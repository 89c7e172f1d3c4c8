//! Terms of a ranked query: views of a set and of a column of counts, and a table of scores, in the caller's memory.

ghost use Rattle.std.proofs.Props.{props};
ghost use Rattle.std.specs.Prelude.{◌≡◌, length, replicate};
ghost use Rattle.bitpack_columns.specs.Stated.{values_in};
ghost use Rattle.bitpack_ranked.specs.Scores.{IsTable};
ghost use Rattle.bitpack_slices.specs.Props.{rising_prop};
ghost use Rattle.bitpack_sets.specs.Reads.{ids_in};
ghost use Rattle.bitpack_sets.specs.Sets.{IsSet};
ghost use Rattle.bitpacking_c.specs.Terms.{table_or_zeros};

use crate::column_view::ColumnView;
use crate::set_view::SetView;
use bitpack_columns::Column;
use bitpack_ranked::{AsTerm, Parts};
use bitpack_sets::{AsSet, IdSet};

/// A word of a query. It borrows the bytes of its views, and its table, which do not change while it is used.
///
/// C has to set it before it is started: to the empty term of the header, or all of it to zero, which is a word of no document too.
#[repr(C)]
#[derive(Drop)]
pub struct TermView<'a> {
    pub(crate) set: SetView<'a>,
    pub(crate) counts: ColumnView<'a>,
    pub(crate) table: &'a [u32],
    ghost is_set: { IsSet (ids_in set.bytes.now) } by { Prim.hlevel (props, rising_prop) },
    ghost pairs: { length (values_in counts.bytes.now) ≡ length (ids_in set.bytes.now) },
    ghost right: { IsTable (table_or_zeros table.now) },
}

impl<'a> AsTerm for TermView<'a> {
    ghost its_word = { λ term. record {
      ids = ids_in term.set.bytes.now;
      counts = values_in term.counts.bytes.now;
      table = table_or_zeros term.table.now;
    } };

    #[inline(always)]
    fn ids(&self) -> IdSet<'_> {
        self.set.as_set()
    }

    #[inline(always)]
    fn counts(&self) -> Column<'_> {
        self.counts.column()
    }

    #[inline(always)]
    fn parts(&self) -> Parts<'_> {
        if self.table.len() == 0 {
            return no_parts();
        }
        Parts::of_tested(self.table)
    }

    ghost is_word = { λ term. record { set = term.is_set; pairs = term.pairs; parts = term.right } };
}

/// Parts of 0.
fn no_parts<'a>() -> Parts<'a>
    ensures { result.table.now ≡ replicate 256 0 }
{
    Parts::of_tested(&[0; 256])
}
