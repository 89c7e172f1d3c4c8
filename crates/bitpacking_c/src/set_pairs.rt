//! Two sets: the ids that one of them has, and whether one is within the other, or they share no id.

ghost use Rattle.std.specs.Prelude.{◌≡◌, [], IsTrue};
ghost use Rattle.bitpack_slices.specs.Operations.{answer};
ghost use Rattle.bitpack_sets.specs.Reads.{ids_in};
ghost use Rattle.bitpacking_c.specs.IdSets.{SaysWhether};
ghost use Rattle.bitpacking_c.specs.ManySets.{WritesIds};

use crate::set_view::SetView;
use bitpack_queries::{combine_to, is_disjoint, is_subset};
use bitpack_sets::AsSet;
use bitpack_slices::Operation;

/// Writes the ids that exactly one of two sets has to the front of `ids`, in increasing order, and returns their number. If there is no room
/// for them it returns -3.
#[unsafe(no_mangle)]
pub extern "C" fn bitpacking_set_symmetric_difference(
    first: &SetView<'_>,
    second: &SetView<'_>,
    ids: &mut [u32],
) -> isize
    ensures { WritesIds (answer Operation.Xor (ids_in first.now.bytes.now) (ids_in second.now.bytes.now))
        ids.old ids.new result }
{
    match combine_to(Operation::Xor, &first.as_set(), &second.as_set(), ids) {
        Ok(count) => count as isize,
        Err(_) => -3,
    }
}

/// Returns 1 if each id of the first set is in the second, and else 0.
#[unsafe(no_mangle)]
pub extern "C" fn bitpacking_set_is_subset(first: &SetView<'_>, second: &SetView<'_>) -> i32
    // claim: c/33 the ids that exactly one of two sets has; whether one is within the other, or they share none
    ensures { SaysWhether
        (answer Operation.AndNot (ids_in first.now.bytes.now) (ids_in second.now.bytes.now) ≡ []) result }
{
    number(is_subset(&first.as_set(), &second.as_set()))
}

/// Returns 1 if no id is in both sets, and else 0.
#[unsafe(no_mangle)]
pub extern "C" fn bitpacking_set_is_disjoint(first: &SetView<'_>, second: &SetView<'_>) -> i32
    ensures { SaysWhether
        (answer Operation.And (ids_in first.now.bytes.now) (ids_in second.now.bytes.now) ≡ []) result }
{
    number(is_disjoint(&first.as_set(), &second.as_set()))
}

/// The number for C of a yes or a no.
pub(crate) fn number(is: bool) -> i32
    ensures { SaysWhether (IsTrue is) result }
{
    if is { 1 } else { 0 }
}
