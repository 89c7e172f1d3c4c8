//! The calls on builders of sets.

ghost use Rattle.std.specs.Prelude.{◌≡◌, ◌∷◌, [], length};
ghost use Rattle.bitpack_sets.specs.Written.{WritesSet};
ghost use Rattle.bitpacking_c.specs.IdSets.{AnswersSet, NumbersSet};
ghost use Rattle.bitpacking_c.specs.SetBuilders.{PushesSet, StartsSet, pushed_to};

use crate::set_builder::SetBuilder;
use crate::set_packing::{answer, pack};

/// Starts a builder of a set. Pushed ids go into `ids`, which the builder borrows.
#[unsafe(no_mangle)]
pub extern "C" fn bitpacking_set_builder_start<'a>(builder: &mut SetBuilder<'a>, ids: &'a mut [u32])
    ensures started { StartsSet ids.old builder.new }
    ensures same_buffer { builder.new.ids.ghost_name ≡ ids.entry.ghost_name }
{
    *builder = SetBuilder { ids, count: 0 };
}

/// Pushes an id and returns how many ids there are then. If it is not above the last one it returns -30, if there are 268,435,456 ids -25, and
/// if the buffer is full -3; then nothing is written.
#[unsafe(no_mangle)]
pub extern "C" fn bitpacking_set_builder_push(builder: &mut SetBuilder<'_>, id: u32) -> isize
    // claim: c/26-27 c/36-37 builders in the caller's buffer: as `columns/14`, `sets/13-14`
    ensures answer { NumbersSet result (PushesSet builder.old builder.new (id ∷ [])) }
    ensures same_buffer { builder.new.ids.ghost_name ≡ builder.old.ids.ghost_name }
{
    let mut position = 0;
    answer(builder.extend(&[id]), &mut position)
}

/// Pushes all these ids, or none, and returns how many ids there are then. It has the faults of `bitpacking_set_builder_push`. The position in
/// the set of the first id that is not above the one before it is written.
#[unsafe(no_mangle)]
pub extern "C" fn bitpacking_set_builder_extend(
    builder: &mut SetBuilder<'_>,
    ids: &[u32],
    position: &mut usize,
) -> isize
    ensures answer { AnswersSet result position.old position.new (PushesSet builder.old builder.new ids.now) }
    ensures same_buffer { builder.new.ids.ghost_name ≡ builder.old.ids.ghost_name }
{
    answer(builder.extend(ids), position)
}

/// How many ids were pushed.
#[unsafe(no_mangle)]
pub extern "C" fn bitpacking_set_builder_len(builder: &SetBuilder<'_>) -> usize
    ensures { result ≡ length (pushed_to builder.now) }
{
    builder.count
}

/// Writes the set of the ids at the start of `bytes`, and returns its length. The rest of `bytes` is unchanged. If there is no room it returns
/// -3 and writes nothing.
#[unsafe(no_mangle)]
pub extern "C" fn bitpacking_set_builder_finish(builder: &SetBuilder<'_>, bytes: &mut [u8]) -> isize
    ensures { NumbersSet result (λ answer. WritesSet (pushed_to builder.now) answer bytes.old bytes.new) }
{
    let mut position = 0;
    answer(pack(&builder.ids[..builder.count], bytes), &mut position)
}
