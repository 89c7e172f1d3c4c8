//! The values of a column and of another one after it, each of these with a base added, written as one column.
//! FORMAT.md, "Columns".

ghost use Rattle.std.specs.Prelude.{◌≡◌, ◌⊎◌, ◌+◌, ◌<◌, ◌≤◌, ◌++◌, Err, IfErr, MatchOption, None, OnErr, OnOk, length, vec_capacity, vec_len};
ghost use Rattle.bitpack_columns.specs.Columns.{IsColumn, encoding};
ghost use Rattle.bitpack_columns.specs.Errors.{Finds};
ghost use Rattle.bitpack_columns.specs.Opened.{kind_of, values};
ghost use Rattle.bitpack_columns.specs.Written.{WritesUnless, joined_refusal, overflow, raised};

use crate::appending::{append, append_to};
use crate::column::Column;
use crate::column_error::ColumnError;
use crate::column_kind::ColumnKind;
use crate::encoding::measuring::bounds;
use crate::tail::to_values;

/// Writes the encoding of the values of a column and, after them, of the values of another column with `base` added to each, at the start of
/// the slice, and returns its length in bytes. It has the kind of the first column. Allocates nothing.
///
/// Requires room for all values of the other column, and writes it over. Fails with `Overflow` and the position in the other column of the
/// first value that is above `u32::MAX` with the base added, and otherwise as [`append_to`] does for all values. The slice is unchanged then.
/// The bytes after the encoding are unchanged.
pub fn join_to(
    column: &Column,
    base: u32,
    other: &Column,
    room: &mut [u32],
    out: &mut [u8],
) -> Result<usize, ColumnError>
    requires room { length (values other.now) ≤ length room.old }
    ensures { WritesUnless (joined_refusal (kind_of column.now) (values column.now) base (values other.now))
        (kind_of column.now) (values column.now ++ raised base (values other.now)) result out.old out.new }
{
    let count = other.copy_to(room);
    let more = &mut room[..count];
    add_base(base, more)?;
    append_to(column, more, out)
}

/// Appends the encoding of the values of a column and, after them, of the values of another column with `base` added to each. It has the kind
/// of the first column.
///
/// The values of the other column are written to `room`, whose items are lost. Both vectors grow at most once. Fails as [`join_to`] does, with
/// `Memory` if one of them cannot grow: `room` by the values of the other column before a fault is looked for, `out` by the encoding.
pub fn join(
    column: &Column,
    base: u32,
    other: &Column,
    room: &mut Vec<u32>,
    out: &mut Vec<u8>,
) -> Result<(), ColumnError>
    ensures column { OnOk result (IsColumn (kind_of column.now) (values column.now ++ raised base (values other.now))) }
    ensures ok { OnOk result (out.new.items
        ≡ out.old.items ++ encoding (kind_of column.now) (values column.now ++ raised base (values other.now))) }
    // A fault is not found if there is no room for the values of the other column.
    // claim: columns/19 as `columns/15`, of another column's values plus a base; `Overflow` for the first above `u32::MAX`; `Memory` only
    //   if a vector lacks room
    ensures fault { MatchOption (joined_refusal (kind_of column.now) (values column.now) base (values other.now))
        (IfErr result (λ e. e ≡ ColumnError.Memory)) (λ fault. (result ≡ Err fault)
        ⊎ ((result ≡ Err ColumnError.Memory) × (vec_capacity room.old < length (values other.now)))) }
    ensures room { joined_refusal (kind_of column.now) (values column.now) base (values other.now) ≡ None
        → OnErr result ((vec_capacity room.old < length (values other.now)) ⊎ (vec_capacity out.old < vec_len out.old
        + length (encoding (kind_of column.now) (values column.now ++ raised base (values other.now))))) }
    ensures unchanged { OnErr result (out.new.items ≡ out.old.items) }
    ensures capacity { OnErr result (vec_capacity out.new ≡ vec_capacity out.old) }
{
    room.clear();
    other.append_to(room)?;
    add_base(base, room.slice_mut(..))?;
    append(column, room.as_slice(), out)
}

/// Adds a base to each value, if each is a word then.
fn add_base(base: u32, values: &mut [u32]) -> Result<(), ColumnError>
    ensures fault { Finds result (overflow base values.old) }
    ensures ok { OnOk result (values.new ≡ raised base values.old) }
{
    test_raised(base, values)?;
    to_values(ColumnKind::Plain, base, values);
    Ok(())
}

/// Tests that each value is a word with a base added. Most are, so that no position is looked for.
fn test_raised(base: u32, values: &[u32]) -> Result<(), ColumnError>
    ensures { Finds result (overflow base values.now) }
{
    let most = u32::MAX - base;
    let (_, greatest) = bounds(values);
    if greatest <= most {
        return Ok(());
    }
    for index in 0..values.len() {
        if values[index] > most {
            return Err(ColumnError::Overflow(index));
        }
    }
    Ok(())
}
