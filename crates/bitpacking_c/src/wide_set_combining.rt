//! What two wide sets have in common, or together, or one without the other.

ghost use Rattle.std.specs.Prelude.{◌≡◌, ◌^◌, ◌<◌, ◌≤◌, [], IfOk, length};
ghost use Rattle.bitpack_wide.specs.Combined.{PutsWide};
ghost use Rattle.bitpack_wide.specs.Combined as combined;
ghost use Rattle.bitpack_wide.specs.Reads.{ids_in};
ghost use Rattle.bitpacking_c.specs.IdSets.{SaysWhether};
ghost use Rattle.bitpacking_c.specs.SetQueries.{step_of};
ghost use Rattle.bitpacking_c.specs.WideSets.{CombinesWide, CountsWide, ListsWide};

use crate::set_pairs::number;
use crate::set_query::numbered;
use crate::wide_set_packing::answer;
use crate::wide_set_view::WideSetView;
use bitpack_queries::Step;
use bitpack_slices::Operation;
use bitpack_wide::laws::longest_encoding;
use bitpack_wide::{WideError, combine_count, combine_set_to, combine_to, is_disjoint, is_subset};

/// Writes the ids that an operation on two wide sets gives to the front of `ids`, in increasing order, and returns their number. `space` is work
/// space for as many numbers as `ids` has room for.
///
/// If no operation has this number it returns -23 and writes nothing. If the work space is too short, or there is no room for the ids, it returns
/// -3.
#[unsafe(no_mangle)]
pub extern "C" fn bitpacking_wide_set_combine_ids(
    operation: u32,
    first: &WideSetView<'_>,
    second: &WideSetView<'_>,
    ids: &mut [u64],
    space: &mut [u32],
) -> isize
    // claim: c/56 `wide_set_combine_ids`, `wide_set_combine_count`: as `wide/11`, with the operation as a number
    ensures { ListsWide (step_of operation) (ids_in first.now.bytes.now) (ids_in second.now.bytes.now) (length space.old) ids.old ids.new result }
{
    let Step::Combine(known) = numbered(operation) else {
        return -23;
    };
    if space.len() < ids.len() {
        return -3;
    }
    match combine_to(known, &first.read(), &second.read(), space, ids) {
        Ok(count) => count as isize,
        Err(_) => -3,
    }
}

/// Returns how many ids an operation on two wide sets gives, or -23 if no operation has this number.
#[unsafe(no_mangle)]
pub extern "C" fn bitpacking_wide_set_combine_count(
    operation: u32,
    first: &WideSetView<'_>,
    second: &WideSetView<'_>,
) -> isize
    ensures { CountsWide (step_of operation) (ids_in first.now.bytes.now) (ids_in second.now.bytes.now) result }
{
    match numbered(operation) {
        Step::Combine(known) => combine_count(known, &first.read(), &second.read()) as isize,
        Step::Set(_) => -23,
    }
}

/// Writes the wide set that an operation on two wide sets gives at the start of `bytes`, and returns its length. The rest of `bytes` is unchanged.
/// `ids` is work space for the ids of the answer, and `space` for as many numbers.
///
/// If no operation has this number it returns -23, if the work space is too short -3, if the set would have more than 268,435,456 ids -25, and if
/// there is no room for the set -3. Then `bytes` are unchanged.
#[unsafe(no_mangle)]
pub extern "C" fn bitpacking_wide_set_combine(
    operation: u32,
    first: &WideSetView<'_>,
    second: &WideSetView<'_>,
    ids: &mut [u64],
    space: &mut [u32],
    bytes: &mut [u8],
) -> isize
    // claim: c/57 `wide_set_combine`: as `wide/13`, with the operation as a number
    ensures { CombinesWide (step_of operation) (ids_in first.now.bytes.now) (ids_in second.now.bytes.now) (length ids.old) (length space.old)
        bytes.old bytes.new result }
{
    let Step::Combine(known) = numbered(operation) else {
        return -23;
    };
    if space.len() < ids.len() {
        return -3;
    }
    let mut position = 0;
    answer(
        combine(known, first, second, ids, space, bytes),
        &mut position,
    )
}

/// Writes the wide set that an operation gives.
fn combine(
    operation: Operation,
    first: &WideSetView<'_>,
    second: &WideSetView<'_>,
    ids: &mut [u64],
    space: &mut [u32],
    bytes: &mut [u8],
) -> Result<usize, WideError>
    requires { length ids.old ≤ length space.old }
    ensures puts { PutsWide (length ids.old) (combined.answer operation (ids_in first.now.bytes.now) (ids_in second.now.bytes.now)) result bytes.old bytes.new }
    ensures small { IfOk result (λ size. size < 2 ^ 63) }
{
    longest_encoding();
    combine_set_to(operation, &first.read(), &second.read(), ids, space, bytes)
}

/// Returns 1 if each id of the first wide set is in the second, and else 0.
#[unsafe(no_mangle)]
pub extern "C" fn bitpacking_wide_set_is_subset(
    first: &WideSetView<'_>,
    second: &WideSetView<'_>,
) -> i32
    // claim: c/58 whether one wide set is within the other, or they share no id
    ensures { SaysWhether
        (combined.answer Operation.AndNot (ids_in first.now.bytes.now) (ids_in second.now.bytes.now) ≡ []) result }
{
    number(is_subset(&first.read(), &second.read()))
}

/// Returns 1 if no id is in both wide sets, and else 0.
#[unsafe(no_mangle)]
pub extern "C" fn bitpacking_wide_set_is_disjoint(
    first: &WideSetView<'_>,
    second: &WideSetView<'_>,
) -> i32
    ensures { SaysWhether
        (combined.answer Operation.And (ids_in first.now.bytes.now) (ids_in second.now.bytes.now) ≡ []) result }
{
    number(is_disjoint(&first.read(), &second.read()))
}
