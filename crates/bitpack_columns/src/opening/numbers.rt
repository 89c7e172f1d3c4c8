//! Numbers and groups of codes, whose faults are returned as faults of columns.
//! FORMAT.md, "Varints" and "Groups".

ghost use Rattle.std.specs.Prelude.{◌≡◌, ◌^◌, ◌≤◌, IfOk, OnOk, length};
ghost use Rattle.bitpack_columns.specs.Errors.{Finds};
ghost use Rattle.bitpack_columns.specs.Numbers.{after_groups, column_error, count_fault, groups_codes, groups_fault, groups_of, number_end, number_fault, number_value, of};

use crate::column_error::ColumnError;
use bitpack_groups::{GroupError, test_count, test_groups, test_number};

/// A fault of numbers and groups as one of columns.
fn as_column_error(error: GroupError) -> ColumnError
    ensures { result ≡ column_error error }
{
    match error {
        GroupError::Short => ColumnError::Short,
        GroupError::BadNumber => ColumnError::BadNumber,
        GroupError::TooLong(count) => ColumnError::TooLong(count),
        GroupError::BadWidth(group, width) => ColumnError::BadWidth(group, width),
        GroupError::LooseWidth(group, width) => ColumnError::LooseWidth(group, width),
        GroupError::Padding => ColumnError::Padding,
    }
}

/// Tests the number at the front of the bytes, and returns it and how many bytes it has.
#[inline(always)]
pub(super) fn open_number(bytes: &[u8]) -> Result<(u32, usize), ColumnError>
    ensures fault { Finds result (of (number_fault bytes.now)) }
    ensures value { IfOk result (λ found. found.0 ≡ number_value bytes.now) }
    ensures end { IfOk result (λ found. found.1 ≡ number_end bytes.now) }
    ensures within { IfOk result (λ found. found.1 ≤ length bytes.now) }
{
    match test_number(bytes) {
        Ok(found) => Ok(found),
        Err(error) => Err(as_column_error(error)),
    }
}

/// Tests the number at the front of the bytes as the count of a column of 31 values or more, and returns it and how many bytes it has.
pub(super) fn open_count(bytes: &[u8]) -> Result<(usize, usize), ColumnError>
    ensures fault { Finds result (of (count_fault 31 bytes.now)) }
    ensures value { IfOk result (λ found. found.0 ≡ number_value bytes.now) }
    ensures few { IfOk result (λ found. found.0 ≤ 2 ^ 28) }
    ensures end { IfOk result (λ found. found.1 ≡ number_end bytes.now) }
    ensures within { IfOk result (λ found. found.1 ≤ length bytes.now) }
{
    match test_count(31, bytes) {
        Ok(found) => Ok(found),
        Err(error) => Err(as_column_error(error)),
    }
}

/// Tests the groups of as many codes as the slice has, at the front of the bytes; the first has this number. Writes the codes, and returns the
/// bytes after the groups. After a refusal the codes may be any.
pub(super) fn open_groups<'a>(
    group: usize,
    bytes: &'a [u8],
    codes: &mut [u32],
) -> Result<&'a [u8], ColumnError>
    requires group { group ≤ 2 ^ 28 }
    requires few { length codes.old ≤ 2 ^ 28 }
    ensures fault { Finds result (of (groups_fault (groups_of (length codes.old)) group (length codes.old) bytes.now)) }
    ensures codes { OnOk result (codes.new ≡ groups_codes (groups_of (length codes.old)) (length codes.old) bytes.now) }
    ensures rest { IfOk result (λ rest. rest.now
        ≡ after_groups (groups_of (length codes.old)) (length codes.old) bytes.now) }
{
    match test_groups(group, bytes, codes) {
        Ok(rest) => Ok(rest),
        Err(error) => Err(as_column_error(error)),
    }
}
