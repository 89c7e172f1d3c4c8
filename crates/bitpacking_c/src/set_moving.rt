//! The calls on cursors of sets.

ghost use Rattle.std.specs.Prelude.{◌≡◌, ◌+◌, ◌-◌, length, max, min};
ghost use Rattle.bitpack_sets.specs.Reads.{ids_in};
ghost use Rattle.bitpack_slices.specs.Reads.{rank};
ghost use Rattle.bitpacking_c.specs.SetCursors.{MovesTo, ids_of, position_of};
ghost use Rattle.bitpacking_c.specs.Views.{Gets, UnpacksFrom};

use crate::set_cursor::SetCursor;
use crate::set_view::{SetView, written};
use bitpack_sets::window::Window;

/// Starts a cursor at the first id of a set.
#[unsafe(no_mangle)]
pub extern "C" fn bitpacking_set_cursor_start<'a>(cursor: &mut SetCursor<'a>, set: &SetView<'a>)
    ensures set { ids_of cursor.new ≡ ids_in set.now.bytes.now }
    ensures position { position_of cursor.new ≡ 0 }
{
    *cursor = SetCursor {
        set: *set,
        window: Window::new(&set.read()),
    };
}

/// Writes the id at the cursor and returns 1. After the last id it returns 0 and writes nothing.
#[unsafe(no_mangle)]
pub extern "C" fn bitpacking_set_cursor_value(cursor: &SetCursor<'_>, id: &mut u32) -> i32
    ensures { Gets (ids_of cursor.now) (position_of cursor.now) id.old id.new result }
{
    written(cursor.window.value(), id)
}

/// How many ids are before the cursor.
#[unsafe(no_mangle)]
pub extern "C" fn bitpacking_set_cursor_position(cursor: &SetCursor<'_>) -> usize
    ensures { result ≡ position_of cursor.now }
{
    cursor.window.position()
}

/// Moves to the next id, writes it and returns 1. After the last id it returns 0 and writes nothing.
#[unsafe(no_mangle)]
pub extern "C" fn bitpacking_set_cursor_advance(cursor: &mut SetCursor<'_>, id: &mut u32) -> i32
    ensures { MovesTo (min (length (ids_of cursor.old)) (position_of cursor.old + 1)) cursor.old cursor.new (id.old, id.new) result }
{
    let set = cursor.set.read();
    written(cursor.window.advance(&set), id)
}

/// Moves to the first id from here on that is at least the target, writes it and returns 1. If there is none it moves after the last id, returns 0 and
/// writes nothing.
#[unsafe(no_mangle)]
pub extern "C" fn bitpacking_set_cursor_seek(
    cursor: &mut SetCursor<'_>,
    target: u32,
    id: &mut u32,
) -> i32
    // claim: c/46 cursors of a set: as `sets/3-4`, `sets/12`; zeros are one of the empty set
    ensures { MovesTo (max (position_of cursor.old) (rank target (ids_of cursor.old))) cursor.old cursor.new (id.old, id.new) result }
{
    let set = cursor.set.read();
    written(cursor.window.seek(&set, target), id)
}

/// Writes the ids from the cursor on to the front of `ids`, as many as there are and as fit, and moves after them. Returns how many these are. The rest
/// of `ids` is unchanged.
#[unsafe(no_mangle)]
pub extern "C" fn bitpacking_set_cursor_fill(cursor: &mut SetCursor<'_>, ids: &mut [u32]) -> isize
    ensures set { ids_of cursor.new ≡ ids_of cursor.old }
    ensures position { position_of cursor.new ≡ position_of cursor.old + min (length ids.old) (length (ids_of cursor.old) - position_of cursor.old) }
    ensures ids { UnpacksFrom (position_of cursor.old) (ids_of cursor.old) ids.old ids.new result }
{
    let set = cursor.set.read();
    cursor.window.fill(&set, ids) as isize
}
