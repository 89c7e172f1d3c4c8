//! Id sets with a number added to each id.

ghost use Rattle.std.specs.Prelude.{◌≡◌, ◌^◌, ◌<◌, IfOk, length};
ghost use Rattle.bitpack_queries.specs.Gathered.{PutsSet};
ghost use Rattle.bitpack_queries.specs.Shifts.{down_of, moved, room_for, up_of};
ghost use Rattle.bitpack_sets.specs.Reads.{ids_in};
ghost use Rattle.bitpacking_c.specs.IdSets.{NumbersSet};

use crate::set_packing::answer;
use crate::set_view::SetView;
use bitpack_queries::{shift_room, shift_to};
use bitpack_sets::AsSet;
use bitpack_sets::laws::longest_encoding;
use bitpack_slices::SetError;

/// Writes the set that has `by` added to each id at the start of `bytes`, without ids that leave the range from 0 to 4294967295, and returns its
/// length. Bytes after the set may change. `room` is work space: `bitpacking_set_shift_room` says for how many items.
///
/// If the work space is too short, or if there is no room for the set, it returns -3. After this any byte may have changed.
#[unsafe(no_mangle)]
pub extern "C" fn bitpacking_set_shift(
    view: &SetView<'_>,
    by: i64,
    room: &mut [u32],
    bytes: &mut [u8],
) -> isize
    // claim: c/52 `set_shift`, `set_shift_room`: as `sets/33`
    ensures { NumbersSet result (λ written. PutsSet (length room.old) (room_for (ids_in view.now.bytes.now))
        (moved (up_of by) (down_of by) (ids_in view.now.bytes.now)) written bytes.old bytes.new) }
{
    let mut position = 0;
    answer(shift(view, by, room, bytes), &mut position)
}

/// How many items of work space `bitpacking_set_shift` needs.
#[unsafe(no_mangle)]
// claim: c/52
pub extern "C" fn bitpacking_set_shift_room(view: &SetView<'_>) -> usize
    ensures { result ≡ room_for (ids_in view.now.bytes.now) }
{
    shift_room(&view.as_set())
}

/// Writes the set that is shifted.
fn shift(view: &SetView<'_>, by: i64, room: &mut [u32], bytes: &mut [u8]) -> Result<usize, SetError>
    ensures puts { PutsSet (length room.old) (room_for (ids_in view.now.bytes.now)) (moved (up_of by) (down_of by) (ids_in view.now.bytes.now)) result bytes.old bytes.new }
    ensures small { IfOk result (λ size. size < 2 ^ 63) }
{
    longest_encoding();
    shift_to(&view.as_set(), by, room, bytes)
}
