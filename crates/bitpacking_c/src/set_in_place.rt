//! An id set combined with the increasing ids of an array, in the array.

ghost use Rattle.std.specs.Prelude.{not};
ghost use Rattle.bitpack_queries.specs.Retained.{retains};
ghost use Rattle.bitpack_slices.specs.Reads.{has};
ghost use Rattle.bitpack_sets.specs.Reads.{ids_in};
ghost use Rattle.bitpacking_c.specs.SetArrays.{AddsIds, RetainsIds};

use crate::set_packing::answer;
use crate::set_view::SetView;
use bitpack_queries::{add_to, retain_if};
use bitpack_sets::{AsSet, first_unsorted};

/// Retains the ids of an array that the set has too: moves them to the front, in their order, and returns their number. If the array's ids do
/// not increase it returns -30 and writes nothing.
#[unsafe(no_mangle)]
pub extern "C" fn bitpacking_set_retain(view: &SetView<'_>, ids: &mut [u32]) -> isize
    ensures { RetainsIds (λ x. has x (ids_in view.now.bytes.now)) ids.old ids.new result }
{
    retain_ids(view, ids, true)
}

/// Retains the ids of an array that the set lacks: moves them to the front, in their order, and returns their number. If the array's ids do
/// not increase it returns -30 and writes nothing.
#[unsafe(no_mangle)]
pub extern "C" fn bitpacking_set_remove(view: &SetView<'_>, ids: &mut [u32]) -> isize
    ensures { RetainsIds (λ x. not (has x (ids_in view.now.bytes.now))) ids.old ids.new result }
{
    retain_ids(view, ids, false)
}

/// Retains the ids that the set has, or those that it lacks.
fn retain_ids(view: &SetView<'_>, ids: &mut [u32], there: bool) -> isize
    ensures { RetainsIds (retains there (ids_in view.now.bytes.now)) ids.old ids.new result }
{
    match first_unsorted(ids) {
        Some(_) => -30,
        None => retain_if(ids, &view.as_set(), there) as isize,
    }
}

/// Adds the ids of the set to the first `count` ids of an array, and returns how many these are together, each once and in increasing order. If
/// the array has no `count` ids it returns -3, if they do not increase -30, and if there is no room for all -3; then it writes nothing. The rest
/// of the array is unchanged.
#[unsafe(no_mangle)]
pub extern "C" fn bitpacking_set_add(view: &SetView<'_>, count: usize, ids: &mut [u32]) -> isize
    // claim: c/34-35 c/38 `set_retain`, `set_remove`, `set_add`, `set_append`: as `sets/18-19`, `sets/15`
    ensures { AddsIds (ids_in view.now.bytes.now) count ids.old ids.new result }
{
    if count > ids.len() {
        return -3;
    }
    let mut position = 0;
    answer(add_to(ids, count, &view.as_set()), &mut position)
}
