//! Codes in groups of 32, the last of 1 to 32.
//! FORMAT.md, "Groups".

ghost use Rattle.std.specs.Prelude.{◌≡◌, ◌+◌, ◌*◌, ◌^◌, ◌≤◌, ℕ, List, IfOk, OnOk, None, length, min, take};
ghost use Rattle.bitpack_groups.specs.Faults.{FindsFault};
ghost use Rattle.bitpack_groups.specs.Groups.{AreGroups, after_groups, groups_codes, groups_fault, groups_of};

use crate::group::{LONGEST_GROUP, group_size, test_group, unpack_group, write_group};
use crate::group_error::GroupError;
use crate::widths::least_width;

/// How many codes the next group has, if `left` codes are left.
pub fn next_len(left: usize) -> usize
    ensures { result ≡ min 32 left }
{
    if left < LONGEST_GROUP {
        left
    } else {
        LONGEST_GROUP
    }
}

/// Tests the groups of as many codes as the slice has, at the front of the bytes, the first is block number `block`. Returns the
/// bytes after them. After a refusal the codes may be any.
pub fn test_groups<'a>(
    block: usize,
    bytes: &'a [u8],
    codes: &mut [u32],
) -> Result<&'a [u8], GroupError>
    requires block { block ≤ 2 ^ 28 }
    requires few { length codes.old ≤ 2 ^ 28 }
    // claim: groups/3 groups/6 whether bytes begin with groups of codes, or their first fault; the length of the groups
    ensures fault { FindsFault result
        (groups_fault (groups_of (length codes.old)) block (length codes.old) bytes.now) }
    ensures codes { OnOk result (codes.new ≡ groups_codes (groups_of (length codes.old)) (length codes.old) bytes.now) }
    ensures rest { IfOk result (λ rest.
        rest.now ≡ after_groups (groups_of (length codes.old)) (length codes.old) bytes.now) }
{
    let mut rest = bytes;
    let mut group = [0; LONGEST_GROUP];
    for index in 0..(codes.len() + 31) / LONGEST_GROUP {
        let from = LONGEST_GROUP * index;
        let count = next_len(codes.len() - from);
        let end = test_group(block + index, count, rest, &mut group)?;
        codes[from..from + count].copy_from_slice(&group[..count]);
        rest = &rest[end..];
    }
    Ok(rest)
}

/// Unpacks the groups of as many codes as the slice has. They have no fault.
pub fn unpack_groups(bytes: &[u8], codes: &mut [u32])
    requires sound { (block : ℕ)
        × (groups_fault (groups_of (length codes.old)) block (length codes.old) bytes.now ≡ None) }
    ensures { codes.new ≡ groups_codes (groups_of (length codes.old)) (length codes.old) bytes.now }
{
    let mut rest = bytes;
    let mut group = [0; LONGEST_GROUP];
    for index in 0..(codes.len() + 31) / LONGEST_GROUP {
        let from = LONGEST_GROUP * index;
        let count = next_len(codes.len() - from);
        let end = unpack_group(count, rest, &mut group);
        codes[from..from + count].copy_from_slice(&group[..count]);
        rest = &rest[end..];
    }
}

/// Writes the codes in groups at the start of the slice, and returns the length of the groups in bytes.
pub fn write_groups(codes: &[u32], bytes: &mut [u8]) -> usize
    requires room { (groups : List ℕ) → AreGroups (groups_of (length codes.now)) codes.now groups
        → length groups ≤ length bytes.old }
    ensures run { AreGroups (groups_of (length codes.now)) codes.now (take result bytes.new) }
    ensures groups { (groups : List ℕ) → AreGroups (groups_of (length codes.now)) codes.now groups
        → take (length groups) bytes.new ≡ groups }
    ensures len { (groups : List ℕ) → AreGroups (groups_of (length codes.now)) codes.now groups
        → result ≡ length groups }
    ensures within { result ≤ length bytes.new }
{
    let mut end = 0;
    for index in 0..(codes.len() + 31) / LONGEST_GROUP {
        let from = LONGEST_GROUP * index;
        let count = next_len(codes.len() - from);
        end += write_group(&codes[from..from + count], &mut bytes[end..]);
    }
    end
}

/// How many bytes the groups of the codes have.
pub fn groups_len(codes: &[u32]) -> usize
    ensures len { (groups : List ℕ) → AreGroups (groups_of (length codes.now)) codes.now groups
        → result ≡ length groups }
    ensures few { result ≤ 4 * length codes.now + groups_of (length codes.now) }
{
    let mut len = 0;
    for index in 0..(codes.len() + 31) / LONGEST_GROUP {
        let from = LONGEST_GROUP * index;
        let count = next_len(codes.len() - from);
        let width = least_width(&codes[from..from + count]);
        len += 1 + group_size(count, width);
    }
    len
}
