//! Operations on sets, and queries, that give a set.

ghost use Rattle.std.specs.Prelude.{◌≡◌, ◌*◌, ◌/◌, ◌^◌, ◌<◌, IfOk, None, length, map};
ghost use Rattle.bitpack_queries.specs.Gathered.{PutsSet, most_keys};
ghost use Rattle.bitpack_queries.specs.Operations.{answer_all};
ghost use Rattle.bitpack_queries.specs.Queries.{answer_of, query_fault};
ghost use Rattle.bitpacking_c.specs.ManySets.{ids_of_views};
ghost use Rattle.bitpacking_c.specs.SetAlgebra.{CombinesSet, PacksQuery};
ghost use Rattle.bitpacking_c.specs.SetQueries.{step_of};

use crate::set_packing::answer;
use crate::set_query::{QueryStep, numbered, refuse};
use crate::set_view::SetView;
use bitpack_queries::{Step, combine_all_set_to, combine_room, query_set_to, test_query};
use bitpack_sets::laws::longest_encoding;
use bitpack_slices::{Operation, SetError};

/// Writes the set that the first view gives, combined with each other in turn, at the start of `bytes`, and returns its length. Bytes after the set
/// may change. `room` is work space: `bitpacking_set_combine_room` says for how many items.
///
/// If no operation has this number it returns -23 and writes nothing. If the work space is too short it returns -3, if the set would have more than
/// 268,435,456 ids -25, and if there is no room for the set -3. After these any byte may have changed.
#[unsafe(no_mangle)]
pub extern "C" fn bitpacking_set_combine(
    operation: u32,
    views: &[SetView<'_>],
    room: &mut [u32],
    bytes: &mut [u8],
) -> isize
    // claim: c/41-42 `set_combine`, with work space as `set_combine_room` says: as `sets/25`, with the operation as a number
    ensures { CombinesSet (step_of operation) (ids_of_views views.now) (length room.old) bytes.old bytes.new result }
{
    match numbered(operation) {
        Step::Combine(known) => {
            let mut position = 0;
            answer(combine(known, views, room, bytes), &mut position)
        }
        Step::Set(_) => -23,
    }
}

/// How many items of work space `bitpacking_set_combine` and `bitpacking_set_query_pack` need for these sets.
#[unsafe(no_mangle)]
// claim: c/42
pub extern "C" fn bitpacking_set_combine_room(views: &[SetView<'_>]) -> usize
    ensures { result ≡ 4 * most_keys (ids_of_views views.now) }
{
    combine_room(views)
}

/// Writes the set that an operation gives.
fn combine(
    operation: Operation,
    views: &[SetView<'_>],
    room: &mut [u32],
    bytes: &mut [u8],
) -> Result<usize, SetError>
    ensures puts { PutsSet (length room.old) (4 * most_keys (ids_of_views views.now)) (answer_all operation (ids_of_views views.now)) result bytes.old bytes.new }
    ensures small { IfOk result (λ size. size < 2 ^ 63) }
{
    longest_encoding();
    combine_all_set_to(operation, views, room, bytes)
}

/// Writes the set of the ids that the query has at the start of `bytes`, and returns its length. Bytes after the set may change. `room` is work space
/// as for `bitpacking_set_combine`, and so are the numbers that it returns. If the steps have a fault, or `space` has no 1024 numbers for each
/// operand that waits at once, it returns the number of this, writes where or how many to `position`, and nothing else.
#[unsafe(no_mangle)]
pub extern "C" fn bitpacking_set_query_pack(
    views: &[SetView<'_>],
    steps: &[QueryStep],
    space: &mut [u64],
    room: &mut [u32],
    bytes: &mut [u8],
    position: &mut usize,
) -> isize
    // claim: c/43 `set_query_pack`: as `sets/29`, with steps as numbers
    ensures { PacksQuery (ids_of_views views.now) (map (λ step. step_of step.number) steps.now) (length space.old / 1024) (length room.old)
        (position.old, position.new) bytes.old bytes.new result }
{
    if let Err(fault) = test_query(steps, views.len(), space.len() / 1024) {
        let (number, at) = refuse(fault);
        *position = at;
        return number;
    }
    let mut none = 0;
    answer(pack(views, steps, space, room, bytes), &mut none)
}

/// Writes the set of a query that has no fault.
fn pack(
    views: &[SetView<'_>],
    steps: &[QueryStep],
    space: &mut [u64],
    room: &mut [u32],
    bytes: &mut [u8],
) -> Result<usize, SetError>
    requires sound { query_fault (length space.old / 1024) (length views.now) (map (λ step. step_of step.number) steps.now) ≡ None }
    ensures puts { PutsSet (length room.old) (4 * most_keys (ids_of_views views.now))
        (answer_of (ids_of_views views.now) (map (λ step. step_of step.number) steps.now)) result bytes.old bytes.new }
    ensures small { IfOk result (λ size. size < 2 ^ 63) }
{
    longest_encoding();
    let (bitmaps, _) = space.as_chunks_mut::<1024>();
    query_set_to(views, steps, bitmaps, room, bytes).unwrap()
}
