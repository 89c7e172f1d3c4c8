//! Bitmaps in Roaring's portable format, written as id sets, and id sets as bitmaps.

ghost use Rattle.std.specs.Prelude.{◌≡◌, ◌*◌, ◌^◌, ◌<◌, IfOk, MatchOption, Err, length};
ghost use Rattle.bitpack_queries.specs.Gathered.{PutsSet};
ghost use Rattle.bitpack_roaring.specs.Faults.{fault};
ghost use Rattle.bitpack_roaring.specs.Roaring.{containers, ids_of};
ghost use Rattle.bitpack_roaring.specs.Written.{WritesBitmap, roaring};
ghost use Rattle.bitpack_sets.specs.Reads.{ids_in};
ghost use Rattle.bitpacking_c.specs.SetRoaring.{NeedsRoom, ReadsBitmap};

use crate::set_packing::answer;
use crate::set_view::SetView;
use bitpack_roaring::{roaring_len, roaring_room, set_from_roaring, set_to_roaring, test_roaring};
use bitpack_sets::AsSet;
use bitpack_sets::laws::longest_encoding;
use bitpack_slices::SetError;

/// Writes the set of the ids of a bitmap in Roaring's portable format at the start of `bytes`, and returns its length. Bytes after the set may change.
/// `room` is work space: `bitpacking_set_from_roaring_room` says for how many items.
///
/// If the bitmap has a fault it returns the number of the first. If the work space is too short it returns -3, for more than 268,435,456 ids -25, and
/// if there is no room for the set -3. After these any byte may have changed.
#[unsafe(no_mangle)]
pub extern "C" fn bitpacking_set_from_roaring(
    roaring: &[u8],
    room: &mut [u32],
    bytes: &mut [u8],
) -> isize
    // claim: c/45 `set_from_roaring`, with work space as `set_from_roaring_room` says: as `roaring/2`; a fault has its number
    ensures { ReadsBitmap roaring.now (length room.old) bytes.old bytes.new result }
{
    let written = write(roaring, room, bytes);
    if let Err(SetError::Short) = written {
        // The bitmap may be short too: that is a fault, which has another number.
        if let Err(fault) = test_roaring(roaring) {
            return -20 - fault.number() as isize;
        }
    }
    let mut position = 0;
    answer(written, &mut position)
}

/// How many items of work space `bitpacking_set_from_roaring` needs. Tests the head of the bitmap alone: if it has a fault, 0 are enough.
#[unsafe(no_mangle)]
// claim: c/45
pub extern "C" fn bitpacking_set_from_roaring_room(roaring: &[u8]) -> usize
    ensures { NeedsRoom roaring.now result }
{
    match roaring_room(roaring) {
        Ok(room) => room,
        Err(_) => 0,
    }
}

/// Writes the ids of a set as a bitmap in Roaring's portable format at the start of `bytes`, and returns its length. If `bytes` is shorter, nothing
/// changes.
#[unsafe(no_mangle)]
pub extern "C" fn bitpacking_set_to_roaring(view: &SetView<'_>, bytes: &mut [u8]) -> usize
    // claim: c/47 `set_to_roaring`, `set_roaring_size`: as `roaring/3-4`
    ensures { WritesBitmap (ids_in view.now.bytes.now) result bytes.old bytes.new }
{
    set_to_roaring(&view.as_set(), bytes)
}

/// How many bytes `bitpacking_set_to_roaring` writes.
#[unsafe(no_mangle)]
// claim: c/47
pub extern "C" fn bitpacking_set_roaring_size(view: &SetView<'_>) -> usize
    ensures { result ≡ length (roaring (ids_in view.now.bytes.now)) }
{
    roaring_len(&view.as_set())
}

/// Writes the set of the ids of a bitmap.
fn write(roaring: &[u8], room: &mut [u32], bytes: &mut [u8]) -> Result<usize, SetError>
    ensures puts { MatchOption (fault roaring.now)
        (PutsSet (length room.old) (4 * containers roaring.now) (ids_of roaring.now) result bytes.old bytes.new)
        (λ fault. result ≡ Err fault) }
    ensures small { IfOk result (λ size. size < 2 ^ 63) }
{
    longest_encoding();
    set_from_roaring(roaring, room, bytes)
}
