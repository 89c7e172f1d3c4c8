//! A column and more values after it, or the values of another column, written as one column.

ghost use Rattle.std.specs.Prelude.{◌^◌, ◌<◌, ◌≤◌, ◌++◌, IfOk, length};
ghost use Rattle.bitpack_columns.specs.Opened.{kind_of, values};
ghost use Rattle.bitpack_columns.specs.Stated.{kind_in, values_in};
ghost use Rattle.bitpack_columns.specs.Written.{WritesColumn, WritesUnless, joined_refusal, raised};
ghost use Rattle.bitpacking_c.specs.Columns.{AnswersColumn, JoinsColumn};

use crate::column_packing::answer;
use crate::column_view::ColumnView;
use bitpack_columns::laws::longest_encoding;
use bitpack_columns::{Column, ColumnError, append_to, join_to};

/// Writes the column of the values of a column and of more values after them at the start of `bytes`, and returns its length. The rest of
/// `bytes` is unchanged. The whole blocks of the column are copied. It has the errors of `bitpacking_column_pack`.
#[unsafe(no_mangle)]
pub extern "C" fn bitpacking_column_append(
    view: &ColumnView<'_>,
    values: &[u32],
    bytes: &mut [u8],
    position: &mut usize,
) -> isize
    ensures { AnswersColumn result position.old position.new (λ answer. WritesColumn (kind_in view.now.bytes.now)
        (values_in view.now.bytes.now ++ values.now) answer bytes.old bytes.new) }
{
    answer(append(&view.column(), values, bytes), position)
}

/// Writes the column of the values of a column and, after them, of the values of another with `base` added to each at the start of `bytes`, and
/// returns its length. The result has the kind of the first. `room` is work space for the values of the other column.
///
/// It has the errors of `bitpacking_column_append`. It also returns -3 if `room` is too short for the values of the other column, and -7 if a
/// value with the base passes 32 bits. Then the position of the first such value in the other column is written.
#[unsafe(no_mangle)]
pub extern "C" fn bitpacking_column_join(
    view: &ColumnView<'_>,
    base: u32,
    other: &ColumnView<'_>,
    room: &mut [u32],
    bytes: &mut [u8],
    position: &mut usize,
) -> isize
    // claim: c/28-29 `column_append`, `column_join`: as `columns/15`, `columns/19`
    ensures { JoinsColumn (kind_in view.now.bytes.now) (values_in view.now.bytes.now) base
        (values_in other.now.bytes.now) (length room.old) bytes.old bytes.new position.old position.new result }
{
    let others = other.column();
    if room.len() < others.len() {
        return -3;
    }
    answer(join(&view.column(), base, &others, room, bytes), position)
}

/// Writes a column and more values after it.
fn append(column: &Column<'_>, more: &[u32], bytes: &mut [u8]) -> Result<usize, ColumnError>
    ensures writes { WritesColumn (kind_of column.now) (values column.now ++ more.now) result bytes.old bytes.new }
    ensures small { IfOk result (λ size. size < 2 ^ 63) }
{
    longest_encoding();
    append_to(column, more, bytes)
}

/// Writes a column and another after it.
fn join(
    column: &Column<'_>,
    base: u32,
    other: &Column<'_>,
    room: &mut [u32],
    bytes: &mut [u8],
) -> Result<usize, ColumnError>
    requires room { length (values other.now) ≤ length room.old }
    ensures writes { WritesUnless (joined_refusal (kind_of column.now) (values column.now) base (values other.now))
        (kind_of column.now) (values column.now ++ raised base (values other.now)) result bytes.old bytes.new }
    ensures small { IfOk result (λ size. size < 2 ^ 63) }
{
    longest_encoding();
    join_to(column, base, other, room, bytes)
}
