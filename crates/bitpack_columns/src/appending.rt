//! The values of a column and more values after them, written as one column.
//! FORMAT.md, "Columns".

ghost use Rattle.std.specs.Prelude.{◌≡◌, ◌⊎◌, ◌+◌, ◌-◌, ◌%◌, ◌<◌, ◌≤◌, ◌++◌, IfOk, OnOk, length, min, slice_index, take};
ghost use Rattle.bitpack_columns.specs.declared.column_kind.ColumnKind.TheVariants.{Sorted};
ghost use Rattle.bitpack_columns.specs.Columns.{IsColumn, tail_of};
ghost use Rattle.bitpack_columns.specs.Errors.{Finds};
ghost use Rattle.bitpack_columns.specs.Opened.{blocks_of, kind_of, values};
ghost use Rattle.bitpack_columns.specs.Written.{AppendsColumn, WritesColumn, refusal};

pub(crate) mod joining;
mod planning;
mod writing;

use crate::appending::writing::{append_packed, write_packed};
use crate::column::{BLOCK_LEN, Column};
use crate::column_error::ColumnError;
use crate::column_kind::ColumnKind;
use crate::encoding::order::test_more;
use crate::reads::Reads;

/// Writes the encoding of the values of a column and of more values after them at the start of the slice, and returns its length in bytes.
/// Allocates nothing.
///
/// Fails with `TooLong`, then if the column is sorted with `NotSorted` and the position among all values of the first that is below the one
/// before it, then with `Short` if the slice is too short. It writes nothing then. The bytes after the encoding are unchanged.
///
/// The bodies of the whole blocks are copied.
// claim: columns/15 encodes a column's values with more after them, as `columns/13`
pub fn append_to(column: &Column, more: &[u32], out: &mut [u8]) -> Result<usize, ColumnError>
    ensures { WritesColumn (kind_of column.now) (values column.now ++ more.now) result out.old out.new }
{
    let mut room = [0; BLOCK_LEN];
    let taken = fill(column, more, &mut room, &mut Reads::new())?;
    let (filled, later) = whole(&room[..column.count % BLOCK_LEN + taken], &more[taken..]);
    write_packed(column, filled, later, out, &mut Reads::new())
}

/// Appends the encoding of the values of a column and of more values after them. The vector grows at most once.
///
/// Fails as [`append_to`] does, with `Memory` if the vector cannot grow.
pub fn append(column: &Column, more: &[u32], out: &mut Vec<u8>) -> Result<(), ColumnError>
    ensures { AppendsColumn (kind_of column.now) (values column.now ++ more.now) result out.old out.new }
{
    let mut room = [0; BLOCK_LEN];
    let taken = fill(column, more, &mut room, &mut Reads::new())?;
    let (filled, later) = whole(&room[..column.count % BLOCK_LEN + taken], &more[taken..]);
    append_packed(column, filled, later, out, &mut Reads::new())
}

/// Tests that values can follow a column. Unpacks its tail to the room, and fills the block after it with the first of these values. Returns
/// how many these are.
fn fill(
    column: &Column,
    more: &[u32],
    room: &mut [u32],
    reads: &mut Reads,
) -> Result<usize, ColumnError>
    requires { length room.old ≡ BLOCK_LEN }
    ensures fault { Finds result (refusal (kind_of column.now) (values column.now ++ more.now)) }
    ensures column { OnOk result (IsColumn (kind_of column.now) (values column.now ++ more.now)) }
    ensures taken { IfOk result (λ taken. taken ≡ min (length more.now) (BLOCK_LEN - length (values column.now) % 128)) }
    ensures filled { IfOk result (λ taken. take (length (values column.now) % 128 + taken) room.new
        ≡ tail_of (blocks_of column.now) (values column.now) ++ take taken more.now) }
{
    let (tail, rest) = room.split_at_mut(column.count % BLOCK_LEN);
    reads.unpack_tail(column, tail);
    test_after(column, tail, more, reads)?;
    let taken = more.len().min(rest.len());
    rest[..taken].copy_from_slice(&more[..taken]);
    Ok(taken)
}

/// A filled block and later values; or no block and all values, if they fill none and there is no later one.
fn whole<'a>(filled: &'a [u32], later: &'a [u32]) -> (&'a [u32], &'a [u32])
    requires few { length filled.now ≤ BLOCK_LEN }
    requires all { length filled.now < BLOCK_LEN → length later.now ≡ 0 }
    ensures whole { (length result.0.now ≡ 0) ⊎ (length result.0.now ≡ BLOCK_LEN) }
    ensures all { result.0.now ++ result.1.now ≡ filled.now ++ later.now }
{
    if filled.len() < BLOCK_LEN {
        return (later, filled);
    }
    (filled, later)
}

/// Tests that values can follow a column, which has this tail.
fn test_after(
    column: &Column,
    tail: &[u32],
    more: &[u32],
    reads: &mut Reads,
) -> Result<(), ColumnError>
    requires { tail.now ≡ tail_of (blocks_of column.now) (values column.now) }
    ensures fault { Finds result (refusal (kind_of column.now) (values column.now ++ more.now)) }
    ensures column { OnOk result (IsColumn (kind_of column.now) (values column.now ++ more.now)) }
{
    let last = last_value(column, tail, reads);
    test_more(column.kind, column.count, last, more)
}

/// The last value of a sorted column, which has this tail, 0 if it has no value. Of a plain column it may be any number.
fn last_value(column: &Column, tail: &[u32], reads: &mut Reads) -> u32
    requires { tail.now ≡ tail_of (blocks_of column.now) (values column.now) }
    ensures none { kind_of column.now ≡ Sorted → length (values column.now) ≡ 0 → result ≡ 0 }
    ensures some { kind_of column.now ≡ Sorted → 0 < length (values column.now)
        → result ≡ slice_index (values column.now) (length (values column.now) - 1) }
{
    match column.kind {
        ColumnKind::Plain => 0,
        ColumnKind::Sorted if tail.is_empty() => reads.read_before(column, column.blocks()),
        ColumnKind::Sorted => tail[tail.len() - 1],
    }
}
