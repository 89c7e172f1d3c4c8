//! Appending to vectors that have room.

ghost use Rattle.std.specs.Prelude.{◌≡◌, ◌+◌, ◌≤◌, ◌++◌, replicate, vec_capacity, vec_len};

/// Appends zeros. There is room for them.
pub fn append_zeros(out: &mut Vec<u32>, count: usize)
    requires room { vec_len out.old + count ≤ vec_capacity out.old }
    ensures items { out.new.items ≡ out.old.items ++ replicate count 0 }
    ensures capacity { vec_capacity out.old ≤ vec_capacity out.new }
{
    let len = out.len();
    out.resize(len + count, 0).unwrap();
}
