//! The forms of a wide set.
//!
//! FORMAT.md, "Wide sets":
//!
//! ```text
//! 8    in words      n | W | sizes | high words | ends | sums | id sets
//! 9    spread out    n | a sorted column of the high words | low words
//! ```

ghost use Rattle.std.specs.Prelude.{◌≡◌, ◌≢◌, slice_index};
ghost use Rattle.bitpack_wide.specs.Forms.{form_ids};
ghost use Rattle.bitpack_wide.specs.Opened.{encoding_of, ids};

use crate::directory::Directory;
use crate::spread::Spread;
use crate::wide_set::WideSet;
use bitpack_columns::Column;

/// What reads the ids of a wide set, by its form.
#[derive(Clone, Copy)]
pub(crate) enum Form<'a> {
    /// An id set for each high word.
    Words(Directory<'a>),
    /// A column of the high words, and the low words.
    Spread(Spread<'a>),
}

impl<'a> WideSet<'a> {
    ghost use Rattle.bitpack_wide.specs.declared.form.Form.TheVariants as form;
    ghost use Rattle.bitpack_wide.specs.declared.spread.Spread.{Spread as SpreadForm};

    /// The form of the set.
    #[inline(always)]
    pub(crate) fn form(&self) -> Form<'a>
        ensures ids { form_ids result ≡ ids self.now }
        ensures spread { (spread : SpreadForm) → result ≡ form.Spread spread → slice_index (encoding_of self.now) 0 ≢ 8 }
    {
        let (count, words, rest) = (self.count, self.words, self.rest);
        if self.bytes[0] == 8 {
            return Form::Words(Directory { count, words, rest });
        }
        let end = rest.len() - 4 * count;
        Form::Spread(Spread {
            column: Column::of_tested(&rest[..end]),
            lows: &rest[end..],
        })
    }
}
