//! Numbers of one to five bytes: seven bits a byte, the lowest first, with 128 added to every byte but the last.
//! FORMAT.md, "Varints".

ghost use Rattle.std.specs.Prelude.{◌≡◌, ◌^◌, ◌≤◌, ℕ, IfOk, None, length, take};
ghost use Rattle.bitpack_groups.specs.Faults.{FindsFault};
ghost use Rattle.bitpack_groups.specs.Numbers.{count_fault, number, number_end, number_fault, number_value};

use crate::group_error::GroupError;

/// The most bytes of a number.
pub const LONGEST_NUMBER: usize = 5;

/// The most values of a list, and of a set or a column.
pub const LONGEST_LIST: usize = 1 << 28;

/// Tests the number at the front of the bytes, and returns its value and how many bytes it has.
#[inline(always)]
pub fn test_number(bytes: &[u8]) -> Result<(u32, usize), GroupError>
    ensures fault { FindsFault result (number_fault bytes.now) }
    ensures value { IfOk result (λ found. found.0 ≡ number_value bytes.now) }
    ensures end { IfOk result (λ found. found.1 ≡ number_end bytes.now) }
    ensures within { IfOk result (λ found. found.1 ≤ length bytes.now) }
{
    let mut value: u64 = 0;
    for index in 0..LONGEST_NUMBER {
        if index == bytes.len() {
            return Err(GroupError::Short);
        }
        let byte = bytes[index];
        value += ((byte % 128) as u64) << (7 * index);
        if byte < 128 {
            if byte == 0 && index > 0 {
                return Err(GroupError::BadNumber);
            }
            if value > u32::MAX as u64 {
                return Err(GroupError::BadNumber);
            }
            return Ok((value as u32, index + 1));
        }
    }
    Err(GroupError::BadNumber)
}

/// Tests the number at the front of the bytes as a count that is at least `least`. Returns it, and how many bytes it has.
#[tactic(auto, unfolding(crate::specs::Numbers::count_fault))]
pub fn test_count(least: usize, bytes: &[u8]) -> Result<(usize, usize), GroupError>
    // claim: groups/1 whether bytes begin with a varint, a count of at most 268,435,456
    ensures fault { FindsFault result (count_fault least bytes.now) }
    ensures value { IfOk result (λ found. (found.0 ≡ number_value bytes.now) × (found.0 ≤ 2 ^ 28)) }
    ensures least { IfOk result (λ found. least ≤ found.0) }
    ensures end { IfOk result (λ found. found.1 ≡ number_end bytes.now) }
    ensures within { IfOk result (λ found. found.1 ≤ length bytes.now) }
{
    let (count, size) = test_number(bytes)?;
    let count = count as usize;
    if count < least {
        return Err(GroupError::BadNumber);
    }
    if count > LONGEST_LIST {
        return Err(GroupError::TooLong(count));
    }
    Ok((count, size))
}

/// The value of the number at the front of the bytes, which has no fault, and how many bytes it has.
#[inline(always)]
pub fn unpack_number(bytes: &[u8]) -> (u32, usize)
    requires sound { number_fault bytes.now ≡ None }
    ensures value { result.0 ≡ number_value bytes.now }
    ensures end { result.1 ≡ number_end bytes.now }
    ensures within { result.1 ≤ length bytes.now }
{
    let mut value = (bytes[0] % 128) as u64;
    let mut index = 0;
    while bytes[index] >= 128 {
        index += 1;
        value += ((bytes[index] % 128) as u64) << (7 * index);
    }
    (value as u32, index + 1)
}

/// Writes the bytes of the number at the start of the slice, and returns how many they are.
pub fn write_number(value: u32, bytes: &mut [u8]) -> usize
    requires room { length (number value) ≤ length bytes.old }
    ensures len { result ≡ length (number value) }
    // claim: groups/2 reads, writes, measures a varint
    ensures number { take result bytes.new ≡ number value }
{
    let mut left = value;
    let mut len = 0;
    while left >= 128 {
        bytes[len] = (left % 128) as u8 + 128;
        left /= 128;
        len += 1;
    }
    bytes[len] = left as u8;
    len + 1
}

/// How many bytes the number has.
pub fn number_len(value: u32) -> usize
    ensures len { result ≡ length (number value) }
    ensures few { result ≤ LONGEST_NUMBER }
{
    let mut left = value;
    let mut len = 1;
    while left >= 128 {
        left /= 128;
        len += 1;
    }
    len
}
