//! What is a set, or has one.

ghost use Rattle.std.specs.Prelude.{◌≡◌, ℕ, List};
ghost use Rattle.bitpack_sets.specs.Opened.{ids};

use crate::id_set::IdSet;

/// A set, or what has one: what is combined with others.
pub trait AsSet {
    // The ids of the set.
    ghost its_ids: { Self → List ℕ };

    /// The set. Reads none of its bytes.
    fn as_set(&self) -> IdSet<'_>
        ensures { ids result ≡ its_ids self.now };
}

impl<'a> AsSet for IdSet<'a> {
    ghost its_ids = { ids };

    #[inline(always)]
    fn as_set(&self) -> IdSet<'_> {
        *self
    }
}
