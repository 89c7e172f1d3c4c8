//! The ids of a set above a base, as numbers of 64 bits.

ghost use Rattle.std.specs.Prelude.{◌≡◌, ◌≤◌, length};
ghost use Rattle.bitpack_sets.specs.Opened.{ids};
ghost use Rattle.bitpack_sets.specs.Reads.{ids_in};
ghost use Rattle.bitpacking_c.specs.Wide.{GetsSum, HasSums, UnchangedFrom, UnpacksSums, most_base};

use crate::bases::{MOST_BASE, add_base};
use crate::set_view::SetView;
use bitpack_sets::{AsSet, IdSet};

/// How many ids are unpacked before the base is added, in 4 KB.
const UNPACKED: usize = 1024;

/// Writes the sum of a base and the id at a position and returns 1. From the number of ids on it returns 0 and writes nothing. If the base is
/// above 2^64 - 2^32 it returns -7 and writes nothing.
#[unsafe(no_mangle)]
pub extern "C" fn bitpacking_set_get_wide(
    view: &SetView<'_>,
    base: u64,
    position: usize,
    id: &mut u64,
) -> i32
    ensures { GetsSum base (ids_in view.now.bytes.now) position id.old id.new result }
{
    if base > MOST_BASE {
        return -7;
    }
    match view.as_set().select(position) {
        Some(found) => {
            *id = base + found as u64;
            1
        }
        None => 0,
    }
}

/// Writes the sums of a base and all ids to the front of `ids`, and returns their number. The rest of `ids` is unchanged. It returns -7 if the
/// base is above 2^64 - 2^32, and -3 if there is no room for the sums; both write nothing.
#[unsafe(no_mangle)]
pub extern "C" fn bitpacking_set_unpack_wide(
    view: &SetView<'_>,
    base: u64,
    ids: &mut [u64],
) -> isize
    ensures { UnpacksSums base (ids_in view.now.bytes.now) ids.old ids.new result }
{
    if base > MOST_BASE {
        return -7;
    }
    let set = view.as_set();
    if ids.len() < set.len() {
        return -3;
    }
    copy_sums(&set, base, ids) as isize
}

/// Writes the sums of a base and all ids of a set to the front of a slice. Returns their number.
fn copy_sums(set: &IdSet<'_>, base: u64, out: &mut [u64]) -> usize
    requires base { base ≤ most_base }
    requires room { length (ids set.now) ≤ length out.old }
    ensures count { result ≡ length (ids set.now) }
    ensures sums { HasSums base (ids set.now) out.new }
    ensures rest { UnchangedFrom (length (ids set.now)) out.old out.new }
{
    let mut unpacked = [0; UNPACKED];
    let mut done = 0;
    while done < set.len() {
        let more = set.copy_range(done, &mut unpacked);
        add_base(base, &unpacked[..more], done, out);
        done += more;
    }
    done
}
