//! The order of the values of a sorted column.

ghost use Rattle.std.specs.Prelude.{◌≡◌, ℕ, List, true, false, ◌+◌, ◌-◌, ◌^◌, ◌<◌, ◌≤◌, ◌++◌, length, slice_index, None};
ghost use Rattle.std.specs.Option.{option_map};
ghost use Rattle.bitpack_columns.specs.declared.column_error.ColumnError.TheVariants.{NotSorted};
ghost use Rattle.bitpack_columns.specs.declared.column_kind.ColumnKind.TheVariants.{Sorted};
ghost use Rattle.bitpack_columns.specs.Errors.{Finds};
ghost use Rattle.bitpack_columns.specs.Faults.{first_below as first_below_of, first_out};
ghost use Rattle.bitpack_columns.specs.Measured.{Follows, IsMeasured, Rises, first_fall};
ghost use Rattle.bitpack_columns.specs.Written.{refusal};

use crate::column::BLOCK_LEN;
use crate::column_error::ColumnError;
use crate::column_kind::ColumnKind;
use crate::encoding::measuring::Measured;
use bitpack_groups::LONGEST_LIST;

/// Tests the order of values whose blocks were measured. The first has a position, and `before` is the value before it.
pub(crate) fn test_order(
    kind: ColumnKind,
    position: usize,
    before: u32,
    values: &[u32],
    measured: Measured,
) -> Result<(), ColumnError>
    requires few { position + length values.now < 2 ^ 64 }
    requires measured { IsMeasured kind before values.now measured.total measured.greatest measured.last }
    requires rises { measured.rises ≡ true → Rises kind before values.now }
    ensures { Finds result (option_map NotSorted (first_fall kind position before values.now)) }
{
    match kind {
        ColumnKind::Plain => Ok(()),
        ColumnKind::Sorted => test_sorted(position, before, values, measured),
    }
}

/// Tests the order of values of a sorted column, as [`test_order`] does. If the widths of the blocks show that these are in order, only the
/// values after them are compared.
fn test_sorted(
    position: usize,
    before: u32,
    values: &[u32],
    measured: Measured,
) -> Result<(), ColumnError>
    requires few { position + length values.now < 2 ^ 64 }
    requires measured { IsMeasured Sorted before values.now measured.total measured.greatest measured.last }
    requires rises { measured.rises ≡ true → Rises Sorted before values.now }
    ensures { Finds result (option_map NotSorted (first_below_of position before values.now)) }
{
    if measured.rises {
        let whole = BLOCK_LEN * (values.len() / BLOCK_LEN);
        return test_falls(position + whole, measured.last, &values[whole..]);
    }
    test_falls(position, before, values)
}

/// Tests that values can follow a column: all are not too many, and in a sorted column none is below the one before it.
pub fn test_pushed(kind: ColumnKind, so_far: &[u32], pushed: &[u32]) -> Result<(), ColumnError>
    requires few { length so_far.now ≤ 2 ^ 28 }
    requires ordered { first_out kind (slice_index so_far.now 0) so_far.now ≡ None }
    ensures { Finds result (refusal kind (so_far.now ++ pushed.now)) }
{
    test_more(kind, so_far.len(), last_of(so_far), pushed)
}

/// Tests that values can follow `count` values of a column, as [`test_pushed`] does. `last` is the last of these, 0 if there is none; in a
/// plain column it may be any.
pub(crate) fn test_more(
    kind: ColumnKind,
    count: usize,
    last: u32,
    more: &[u32],
) -> Result<(), ColumnError>
    requires few { count ≤ 2 ^ 28 }
    ensures { (so_far : List ℕ) → Follows kind so_far count last → Finds result (refusal kind (so_far ++ more.now)) }
{
    if more.len() > LONGEST_LIST - count {
        return Err(ColumnError::TooLong(count + more.len()));
    }
    match kind {
        ColumnKind::Plain => Ok(()),
        ColumnKind::Sorted => test_falls(count, last, more),
    }
}

/// The last of some values, 0 if there is none.
#[inline(always)]
fn last_of(values: &[u32]) -> u32
    ensures none { length values.now ≡ 0 → result ≡ 0 }
    ensures some { 0 < length values.now → result ≡ slice_index values.now (length values.now - 1) }
{
    if values.is_empty() {
        return 0;
    }
    values[values.len() - 1]
}

/// Tests that no value is below the one before it. The first has a position, and `before` is the value before it. Most values are in order,
/// so that no position is looked for.
#[inline(always)]
fn test_falls(position: usize, before: u32, values: &[u32]) -> Result<(), ColumnError>
    requires { position + length values.now < 2 ^ 64 }
    ensures { Finds result (option_map NotSorted (first_below_of position before values.now)) }
{
    if !falls(before, values) {
        return Ok(());
    }
    match first_below(position, before, values) {
        Some(position) => Err(ColumnError::NotSorted(position)),
        None => Ok(()),
    }
}

/// Whether a value is below the one before it. No branch depends on a value, so that the compiler compares several at once.
#[inline(always)]
fn falls(before: u32, values: &[u32]) -> bool
    ensures { result ≡ false → first_below_of 0 before values.now ≡ None }
{
    if values.is_empty() {
        return false;
    }
    let mut falls = values[0] < before;
    for index in 1..values.len() {
        falls |= values[index] < values[index - 1];
    }
    falls
}

/// The first position whose value is below the one before it. The first value has a position, and `before` is the value before it.
fn first_below(position: usize, before: u32, values: &[u32]) -> Option<usize>
    requires { position + length values.now < 2 ^ 64 }
    ensures { result ≡ first_below_of position before values.now }
{
    let mut last = before;
    for index in 0..values.len() {
        if values[index] < last {
            return Some(position + index);
        }
        last = values[index];
    }
    None
}
