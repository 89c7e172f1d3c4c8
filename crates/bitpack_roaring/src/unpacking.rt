//! Unpacks the ids of a bitmap that was tested.

ghost use Rattle.std.specs.Prelude.{◌≡◌, ◌≤◌, None, length, take};
ghost use Rattle.bitpack_roaring.specs.Faults.{fault};
ghost use Rattle.bitpack_roaring.specs.Roaring.{ids_of};

use crate::container::unpack_container;
use crate::head::Head;

/// Writes all ids.
pub(crate) fn unpack(head: Head, out: &mut [u32])
    requires sound { fault head.bytes.now ≡ None }
    requires room { length (ids_of head.bytes.now) ≤ length out.old }
    ensures { take (length (ids_of head.entry.bytes.now)) out.new ≡ ids_of head.entry.bytes.now }
{
    let mut start = head.start;
    let mut next = 0;
    for container in 0..head.containers {
        let end = head.end(container, start);
        let run = head.is_run(container);
        let count = head.count(container);
        let base = head.key(container) * 65536;
        next = unpack_container(run, count, &head.bytes[start..end], base, out, next);
        start = end;
    }
}
