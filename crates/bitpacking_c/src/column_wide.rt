//! The values of a column above a base, as numbers of 64 bits.

ghost use Rattle.std.specs.Prelude.{◌≡◌, ◌≤◌, length};
ghost use Rattle.bitpack_columns.specs.Opened.{values};
ghost use Rattle.bitpack_columns.specs.Stated.{values_in};
ghost use Rattle.bitpacking_c.specs.Wide.{GetsSum, HasSums, UnchangedFrom, UnpacksSums, most_base};

use crate::bases::{MOST_BASE, add_base};
use crate::column_view::ColumnView;
use bitpack_columns::Column;

/// How many values are unpacked before the base is added: these are whole blocks, in 4 KB.
const UNPACKED: usize = 1024;

/// Writes the sum of a base and the value at a position and returns 1. From the length on it returns 0 and writes nothing. If the base is
/// above 2^64 - 2^32 it returns -7 and writes nothing.
#[unsafe(no_mangle)]
pub extern "C" fn bitpacking_column_get_wide(
    view: &ColumnView<'_>,
    base: u64,
    position: usize,
    item: &mut u64,
) -> i32
    ensures { GetsSum base (values_in view.now.bytes.now) position item.old item.new result }
{
    if base > MOST_BASE {
        return -7;
    }
    match view.column().get(position) {
        Some(found) => {
            *item = base + found as u64;
            1
        }
        None => 0,
    }
}

/// Writes the sums of a base and all values to the front of `values`, and returns their number. The rest of `values` is unchanged. It
/// returns -7 if the base is above 2^64 - 2^32, and -3 if there is no room for the sums; both write nothing.
#[unsafe(no_mangle)]
pub extern "C" fn bitpacking_column_unpack_wide(
    view: &ColumnView<'_>,
    base: u64,
    values: &mut [u64],
) -> isize
    // claim: c/25 c/32 sums of ids or values and a base, at most `most_base`
    ensures { UnpacksSums base (values_in view.now.bytes.now) values.old values.new result }
{
    if base > MOST_BASE {
        return -7;
    }
    let column = view.column();
    if values.len() < column.len() {
        return -3;
    }
    copy_sums(&column, base, values) as isize
}

/// Writes the sums of a base and all values of a column to the front of a slice. Returns their number.
fn copy_sums(column: &Column<'_>, base: u64, out: &mut [u64]) -> usize
    requires base { base ≤ most_base }
    requires room { length (values column.now) ≤ length out.old }
    ensures count { result ≡ length (values column.now) }
    ensures sums { HasSums base (values column.now) out.new }
    ensures rest { UnchangedFrom (length (values column.now)) out.old out.new }
{
    let mut unpacked = [0; UNPACKED];
    let mut done = 0;
    while done < column.len() {
        let more = column.copy_range(done, &mut unpacked);
        add_base(base, &unpacked[..more], done, out);
        done += more;
    }
    done
}
