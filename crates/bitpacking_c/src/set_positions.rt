//! Ids of a set by their positions.

ghost use Rattle.std.specs.Prelude.{◌≡◌};
ghost use Rattle.bitpack_slices.specs.Reads.{rank};
ghost use Rattle.bitpack_sets.specs.Reads.{ids_in};
ghost use Rattle.bitpacking_c.specs.Views.{UnpacksFrom};

use crate::set_view::SetView;
use bitpack_sets::AsSet;

/// How many ids are below the target.
#[unsafe(no_mangle)]
pub extern "C" fn bitpacking_set_rank(view: &SetView<'_>, target: u32) -> usize
    ensures { result ≡ rank target (ids_in view.now.bytes.now) }
{
    view.as_set().rank(target)
}

/// Writes the ids from a position on to the front of `ids`, as many as there are and as fit. Returns how many these are. The rest of `ids` is
/// unchanged.
#[unsafe(no_mangle)]
// claim: c/12
pub extern "C" fn bitpacking_set_slice(view: &SetView<'_>, from: usize, ids: &mut [u32]) -> isize
    ensures { UnpacksFrom from (ids_in view.now.bytes.now) ids.old ids.new result }
{
    view.as_set().copy_range(from, ids) as isize
}
