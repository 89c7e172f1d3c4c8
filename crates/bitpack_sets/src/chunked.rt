//! The chunks of a set of any form.

ghost use Rattle.std.specs.Prelude.{◌≡◌};
ghost use Rattle.bitpack_sets.specs.Chunks.{ids_from, positions};
ghost use Rattle.bitpack_sets.specs.Opened.{ids};
ghost use Rattle.bitpack_sets.specs.Written.{places};

use crate::chunks::Chunks;
use crate::id_set::{IdSet, ROOM};

/// The chunks of a set. The room is for the ids of a set of few.
pub fn chunks_of<'b>(set: &'b IdSet, room: &'b mut [u8; ROOM]) -> Chunks<'b>
    ensures ids { ids_from result 0 ≡ ids set.now }
    ensures places { positions result ≡ places (ids set.now) }
{
    set.fill(room);
    set.filled_chunks(room)
}
