//! The forms of a set.
//!
//! FORMAT.md, "Id sets":
//!
//! ```text
//! 128 + n    few       first | groups
//! 6          array     n | n ids of four bytes
//! 5          chunks    n | C | sizes | keys | ends | sums | bodies
//! ```

ghost use Rattle.bitpack_sets.specs.Forms.{IsForm};

use crate::directory::Directory;
use crate::few::Few;
use crate::id_set::IdSet;

/// What reads the ids of a set, by its form.
#[derive(Clone, Copy)]
pub enum Form<'a> {
    /// Fewer than 128 ids.
    Few(Few<'a>),
    /// The ids of an array, four bytes for each.
    Array(&'a [u8]),
    /// A set in chunks.
    Chunks(Directory<'a>),
}

impl<'a> IdSet<'a> {
    /// The form of the set.
    #[inline(always)]
    pub(crate) fn form(&self) -> Form<'a>
        ensures { IsForm self.now result }
    {
        let (count, chunks, rest) = (self.count, self.chunks, self.rest);
        match self.bytes[0] {
            5 => Form::Chunks(Directory {
                count,
                chunks,
                rest,
            }),
            6 => Form::Array(rest),
            _ => Form::Few(Few { count, bytes: rest }),
        }
    }
}
