//! Appending to vectors that have reserved room.

ghost use Rattle.std.specs.Prelude.{◌+◌, ◌≤◌, length, replicate, vec_len, vec_capacity};
ghost use Rattle.bitpack_lists.specs.inner.Appending.{HasAppended};

/// Appends to a vector that has the room.
pub(crate) fn append<T: Copy>(out: &mut Vec<T>, part: &[T])
    requires room { vec_len out.old + length part.now ≤ vec_capacity out.old }
    ensures { HasAppended out.old out.new part.now }
{
    out.extend_from_slice(part).unwrap();
}

/// Appends `count` zeros to a vector that has the room.
pub(crate) fn append_zeros<T: Copy>(out: &mut Vec<T>, zero: T, count: usize)
    requires room { vec_len out.old + count ≤ vec_capacity out.old }
    ensures { HasAppended out.old out.new (replicate count zero) }
{
    let len = out.len();
    out.resize(len + count, zero).unwrap();
}
