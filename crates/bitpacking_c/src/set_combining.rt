//! What id sets have in common, or together, or one without others: of any number of views, without memory of ours.

ghost use Rattle.bitpacking_c.specs.ManySets.{CombinesSets, CountsSets};

use super::set_view::SetView;
use bitpack_queries::{combine_all_count, combine_all_to};
use bitpack_slices::Operation;

/// Writes the ids that all sets have to the front of `ids`, in increasing order, and returns their number. If there is no room for them it
/// returns -3.
#[unsafe(no_mangle)]
pub extern "C" fn bitpacking_set_intersect(views: &[SetView<'_>], ids: &mut [u32]) -> isize
    ensures { CombinesSets Operation.And views.now ids.old ids.new result }
{
    combine(Operation::And, views, ids)
}

/// Writes the ids that any of the sets has to the front of `ids`, in increasing order, and returns their number. If there is no room for them
/// it returns -3.
#[unsafe(no_mangle)]
pub extern "C" fn bitpacking_set_unite(views: &[SetView<'_>], ids: &mut [u32]) -> isize
    // claim: c/15-16 writes, counts ids of all sets, of any, of the first alone
    ensures { CombinesSets Operation.Or views.now ids.old ids.new result }
{
    combine(Operation::Or, views, ids)
}

/// Writes the ids that the first set has and no other to the front of `ids`, in increasing order, and returns their number. If there is no room
/// for them it returns -3.
#[unsafe(no_mangle)]
pub extern "C" fn bitpacking_set_subtract(views: &[SetView<'_>], ids: &mut [u32]) -> isize
    ensures { CombinesSets Operation.AndNot views.now ids.old ids.new result }
{
    combine(Operation::AndNot, views, ids)
}

/// Returns how many ids all sets have.
#[unsafe(no_mangle)]
pub extern "C" fn bitpacking_set_count_common(views: &[SetView<'_>]) -> isize
    ensures { CountsSets Operation.And views.now result }
{
    count(Operation::And, views)
}

/// Returns how many ids any of the sets has.
#[unsafe(no_mangle)]
pub extern "C" fn bitpacking_set_count_any(views: &[SetView<'_>]) -> isize
    ensures { CountsSets Operation.Or views.now result }
{
    count(Operation::Or, views)
}

/// Writes the ids that an operation gives, and returns the number for C.
fn combine(operation: Operation, views: &[SetView<'_>], ids: &mut [u32]) -> isize
    ensures { CombinesSets operation views.now ids.old ids.new result }
{
    match combine_all_to(operation, views, ids) {
        Ok(count) => count as isize,
        Err(_) => -3,
    }
}

/// Counts the ids that an operation gives, and returns the number for C.
fn count(operation: Operation, views: &[SetView<'_>]) -> isize
    ensures { CountsSets operation views.now result }
{
    combine_all_count(operation, views) as isize
}
