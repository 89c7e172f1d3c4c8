//! The ids of a set and more ids after them, written as one set.

ghost use Rattle.std.specs.Prelude.{◌^◌, ◌<◌, ◌++◌, IfOk, length};
ghost use Rattle.bitpack_sets.specs.Opened.{ids};
ghost use Rattle.bitpack_sets.specs.Reads.{ids_in};
ghost use Rattle.bitpack_sets.specs.Written.{WritesWith, unpacked};
ghost use Rattle.bitpacking_c.specs.IdSets.{AnswersSet};

use crate::set_packing::answer;
use crate::set_view::SetView;
use bitpack_sets::laws::longest_encoding;
use bitpack_sets::{AsSet, IdSet, append_to};
use bitpack_slices::SetError;

/// Writes the set of the ids of a set and of more ids after them at the start of `bytes`, and returns its length. The rest of `bytes` is
/// unchanged. `room` is work space for ids. It has the errors of `bitpacking_set_pack`, and returns -3 also if the work space is too short.
#[unsafe(no_mangle)]
// claim: c/34
pub extern "C" fn bitpacking_set_append(
    view: &SetView<'_>,
    ids: &[u32],
    room: &mut [u32],
    bytes: &mut [u8],
    position: &mut usize,
) -> isize
    ensures { AnswersSet result position.old position.new (λ answer. WritesWith (length room.old)
        (unpacked (ids_in view.now.bytes.now) ids.now) (ids_in view.now.bytes.now ++ ids.now) answer bytes.old bytes.new) }
{
    answer(append(&view.as_set(), ids, room, bytes), position)
}

/// Writes a set and more ids after it.
fn append(
    set: &IdSet<'_>,
    more: &[u32],
    room: &mut [u32],
    bytes: &mut [u8],
) -> Result<usize, SetError>
    ensures writes { WritesWith (length room.old) (unpacked (ids set.now) more.now) (ids set.now ++ more.now) result bytes.old bytes.new }
    ensures small { IfOk result (λ size. size < 2 ^ 63) }
{
    longest_encoding();
    append_to(set, more, room, bytes)
}
