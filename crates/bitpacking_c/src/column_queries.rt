//! Values of a column at many positions; the first that is at least another; those within a range; bounds of a block.

ghost use Rattle.std.specs.Prelude.{◌≡◌, length};
ghost use Rattle.bitpack_columns.specs.Ranges.{positions_between};
ghost use Rattle.bitpack_columns.specs.Searches.{FindsPositions};
ghost use Rattle.bitpack_columns.specs.Stated.{kind_in, values_in};
ghost use Rattle.bitpacking_c.specs.Columns.{BoundsColumn, SeeksColumn};
ghost use Rattle.bitpacking_c.specs.Positions.{Gathers};

use crate::column_view::ColumnView;

/// Writes the value at each position to the same index of `values`, and returns their number. The rest of `values` is unchanged. It
/// returns -3 if there is no room for them, and -5 if one of the positions is not in the column; then it writes nothing.
#[unsafe(no_mangle)]
pub extern "C" fn bitpacking_column_gather(
    view: &ColumnView<'_>,
    positions: &[usize],
    values: &mut [u32],
) -> isize
    // claim: c/21-24 `column_gather`, `column_seek`, `column_count_between`, `column_between`, `column_bounds`: what `columns/5-10` return
    ensures { Gathers (values_in view.now.bytes.now) positions.now values.old values.new result }
{
    if values.len() < positions.len() {
        return -3;
    }
    match view.column().gather(positions, values) {
        Ok(()) => positions.len() as isize,
        Err(_) => -5,
    }
}

/// Writes the position and the value of the first value that is at least the target, and returns 1. If every value is below it, it returns
/// 0, and for a plain column, which has no order, -23; both write nothing.
#[unsafe(no_mangle)]
pub extern "C" fn bitpacking_column_seek(
    view: &ColumnView<'_>,
    target: u32,
    position: &mut usize,
    item: &mut u32,
) -> i32
    ensures { SeeksColumn (kind_in view.now.bytes.now) (values_in view.now.bytes.now) target
        (position.old, item.old) (position.new, item.new) result }
{
    match view.column().seek(target) {
        Ok(Some((at, found))) => {
            *position = at;
            *item = found;
            1
        }
        Ok(None) => 0,
        Err(_) => -23,
    }
}

/// How many values are within a range, both ends included.
#[unsafe(no_mangle)]
pub extern "C" fn bitpacking_column_count_between(
    view: &ColumnView<'_>,
    low: u32,
    high: u32,
) -> usize
    ensures { result ≡ length (positions_between low high 0 (values_in view.now.bytes.now)) }
{
    view.column().count_between(low, high)
}

/// Writes the positions, from one on, of values that are within a range, both ends included, in increasing order and as many as fit. Returns
/// how many these are. The rest of `positions` is unchanged.
#[unsafe(no_mangle)]
pub extern "C" fn bitpacking_column_between(
    view: &ColumnView<'_>,
    low: u32,
    high: u32,
    from: usize,
    positions: &mut [usize],
) -> usize
    ensures { FindsPositions low high from (values_in view.now.bytes.now) result positions.old positions.new }
{
    view.column().positions_between(low, high, from, positions)
}

/// Writes bounds of the values of a whole block, and returns 0: no value of the block is below the first or above the second. If the column
/// has no such block, it returns -6 and writes nothing. Nothing is unpacked.
#[unsafe(no_mangle)]
pub extern "C" fn bitpacking_column_bounds(
    view: &ColumnView<'_>,
    block: usize,
    least: &mut u32,
    greatest: &mut u32,
) -> isize
    ensures { BoundsColumn (kind_in view.now.bytes.now) (values_in view.now.bytes.now) block
        (least.old, greatest.old) (least.new, greatest.new) result }
{
    let column = view.column();
    if block >= column.blocks() {
        return -6;
    }
    let (low, high) = column.bounds(block);
    *least = low;
    *greatest = high;
    0
}
