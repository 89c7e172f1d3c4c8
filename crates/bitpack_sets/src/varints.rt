//! Numbers of seven bits a byte and groups of codes. Their faults are returned as faults of sets.
//! FORMAT.md, "Varints" and "Groups".

ghost use Rattle.std.specs.Prelude.{◌≡◌, ◌≤◌, IfOk, OnOk, length, slice_index, take};
ghost use Rattle.bitpack_groups.specs.Groups.{group_codes, group_end, group_fault};
ghost use Rattle.bitpack_slices.specs.Errors.{Finds};
ghost use Rattle.bitpack_sets.specs.Varints.{number_end, number_fault, number_value, of, set_error};

use bitpack_groups::{GroupError, test_group, test_number};
use bitpack_slices::SetError;

/// A fault of numbers and groups as one of sets.
fn as_set_error(error: GroupError) -> SetError
    ensures { result ≡ set_error error }
{
    match error {
        GroupError::Short => SetError::Short,
        GroupError::BadNumber => SetError::BadNumber,
        GroupError::TooLong(count) => SetError::TooLong(count),
        GroupError::BadWidth(group, width) => SetError::BadWidth(group, width),
        GroupError::LooseWidth(group, width) => SetError::LooseWidth(group, width),
        GroupError::Padding => SetError::Padding,
    }
}

/// Tests the number at the front of the bytes, and returns it and how many bytes it has.
#[inline(always)]
pub(crate) fn open_number(bytes: &[u8]) -> Result<(u32, usize), SetError>
    ensures fault { Finds result (of (number_fault bytes.now)) }
    ensures value { IfOk result (λ found. found.0 ≡ number_value bytes.now) }
    ensures end { IfOk result (λ found. found.1 ≡ number_end bytes.now) }
    ensures within { IfOk result (λ found. found.1 ≤ length bytes.now) }
{
    match test_number(bytes) {
        Ok(found) => Ok(found),
        Err(error) => Err(as_set_error(error)),
    }
}

/// Tests the group of `count` codes at the front of the bytes, the group with this number, and returns how many bytes it has. Its codes are
/// the first of `codes`.
pub(crate) fn open_group(
    group: usize,
    count: usize,
    bytes: &[u8],
    codes: &mut [u32],
) -> Result<usize, SetError>
    requires some { 1 ≤ count }
    requires count { count ≤ 32 }
    requires room { length codes.old ≡ 32 }
    ensures fault { Finds result (of (group_fault group count bytes.now)) }
    ensures codes { OnOk result (take count codes.new ≡ group_codes count bytes.now) }
    ensures end { IfOk result (λ end. end ≡ group_end count bytes.now) }
    ensures within { IfOk result (λ end. end ≤ length bytes.now) }
{
    match test_group(group, count, bytes, codes) {
        Ok(end) => Ok(end),
        Err(error) => Err(as_set_error(error)),
    }
}
