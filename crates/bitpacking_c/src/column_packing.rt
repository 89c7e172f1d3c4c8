//! Columns, written into the caller's buffer.

ghost use Rattle.std.specs.Prelude.{◌≡◌, ◌^◌, ◌<◌, IfOk};
ghost use Rattle.bitpack_columns.specs.Written.{MeasuresColumn, WritesColumn};
ghost use Rattle.bitpacking_c.specs.Columns.{PacksColumn, SizesColumn, number_of_column, position_after_column};

use crate::column_view::kind_of_number;
use bitpack_columns::laws::longest_encoding;
use bitpack_columns::{ColumnError, ColumnKind, encode_to, encoded_len};

/// Writes the column of these values at the start of `bytes`, and returns its length. The rest of `bytes` is unchanged. `kind` is 0 for plain
/// and 1 for sorted; for another one it returns -23.
///
/// If there is no room it returns -3, and for a fault the number of the first. Then nothing is written but the position of a value out
/// of order.
#[unsafe(no_mangle)]
pub extern "C" fn bitpacking_column_pack(
    kind: u8,
    values: &[u32],
    bytes: &mut [u8],
    position: &mut usize,
) -> isize
    // claim: c/17 a column of values, its length: as `columns/13`; refuses unknown kinds
    ensures { PacksColumn kind values.now bytes.old bytes.new position.old position.new result }
{
    if kind > 1 {
        return -23;
    }
    answer(pack(kind_of_number(kind), values, bytes), position)
}

/// The number of bytes that `bitpacking_column_pack` writes for the values. It has the faults of that call.
#[unsafe(no_mangle)]
pub extern "C" fn bitpacking_column_size(kind: u8, values: &[u32], position: &mut usize) -> isize
    ensures { SizesColumn kind values.now position.old position.new result }
{
    if kind > 1 {
        return -23;
    }
    answer(size(kind_of_number(kind), values), position)
}

/// Writes the column of these values.
pub(crate) fn pack(kind: ColumnKind, values: &[u32], bytes: &mut [u8]) -> Result<usize, ColumnError>
    ensures writes { WritesColumn kind values.now result bytes.old bytes.new }
    ensures small { IfOk result (λ size. size < 2 ^ 63) }
{
    longest_encoding();
    encode_to(kind, values, bytes)
}

/// The length of the column of these values.
fn size(kind: ColumnKind, values: &[u32]) -> Result<usize, ColumnError>
    ensures size { MeasuresColumn kind values.now result }
    ensures small { IfOk result (λ size. size < 2 ^ 63) }
{
    longest_encoding();
    encoded_len(kind, values)
}

/// The number for C. The position of a value that is out of order or passes 32 bits is written.
pub(crate) fn answer(found: Result<usize, ColumnError>, position: &mut usize) -> isize
    requires { IfOk found (λ size. size < 2 ^ 63) }
    ensures number { result ≡ number_of_column found }
    ensures position { position.new ≡ position_after_column position.old found }
{
    match found {
        Ok(size) => size as isize,
        Err(ColumnError::Short) => -3,
        Err(ColumnError::NotSorted(at)) => {
            *position = at;
            -30
        }
        Err(ColumnError::Overflow(at)) => {
            *position = at;
            -7
        }
        Err(fault) => -20 - fault.number() as isize,
    }
}
