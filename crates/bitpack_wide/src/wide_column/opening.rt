//! Tests the bytes of a wide column. They are untrusted.
//!
//! FORMAT.md, "Wide columns" and "Faults of a wide column":
//!
//! ```text
//! 10 or 11 | n | sizes | bounds | ends | missing | low 0 | high 0 | low 1 | high 1 | ..
//! ```

ghost use Rattle.std.specs.Prelude.{◌≡◌, ◌+◌, ◌*◌, ◌^◌, ◌≤◌, IfOk, None, length};
ghost use Rattle.std.specs.Option.{option_map};
ghost use Rattle.bitpack_groups.specs.Faults.{FindsFault};
ghost use Rattle.bitpack_groups.specs.Numbers.{count_fault, number_end, number_value};
ghost use Rattle.bitpack_groups.specs.Numbers as numbers;
ghost use Rattle.bitpack_sets.specs.Opened.{encoding_of};
ghost use Rattle.bitpack_wide.specs.WideColumnFaults.{count_error, directory_fault, each_below, end_fault, fault, first_of, loose_sizes_fault, missing_fault, rest_fault, sizes_fault};
ghost use Rattle.bitpack_wide.specs.WideColumnReads as reads;
ghost use Rattle.bitpack_wide.specs.WideColumnSound.{HasParts, HasEntries, States};
ghost use Rattle.bitpack_wide.specs.WideColumns as columns;

use super::chunks::test_chunks;
use super::tables::{bound_at, chunks_of, end_at, part_at, parts_start};
use crate::wide_column_error::WideColumnError;
use bitpack_groups::{GroupError, byte_count, test_count, unpack_number};
use bitpack_sets::IdSet;

/// Tests all bytes. Returns the count of values, what is after it, and the set of the missing positions.
#[tactic(auto, unfolding(crate::specs::WideColumnFaults::fault))]
pub(super) fn test_wide_column<'a>(
    bytes: &'a [u8],
) -> Result<(usize, &'a [u8], IdSet<'a>), WideColumnError>
    ensures fault { FindsFault result (fault bytes.now) }
    ensures states { IfOk result (λ found. States bytes.now found.0 found.1.now) }
    ensures missing { IfOk result (λ found. encoding_of found.2 ≡ reads.part_at (columns.chunks_of found.0) found.1.now 0) }
{
    if bytes.is_empty() {
        return Err(WideColumnError::Short);
    }
    let form = bytes[0];
    if form != 10 && form != 11 {
        return Err(WideColumnError::BadVersion(form));
    }
    let later = &bytes[1..];
    let (count, end) = open_count(later)?;
    let rest = &later[end..];
    let missing = test_rest(form, count, rest)?;
    Ok((count, rest, missing))
}

/// Reads the count of values, what is after it, and the set of the missing positions, of bytes that were tested.
pub(super) fn read_wide_column<'a>(bytes: &'a [u8]) -> (usize, &'a [u8], IdSet<'a>)
    requires sound { fault bytes.now ≡ None }
    ensures states { States bytes.now result.0 result.1.now }
    ensures missing { encoding_of result.2 ≡ reads.part_at (columns.chunks_of result.0) result.1.now 0 }
{
    let later = &bytes[1..];
    let (count, end) = unpack_number(later);
    let count = count as usize;
    let rest = &later[end..];
    let missing = IdSet::of_tested(part_at(chunks_of(count), rest, 0));
    (count, rest, missing)
}

/// Tests the count of values. Returns it, and how many bytes it has.
fn open_count(bytes: &[u8]) -> Result<(usize, usize), WideColumnError>
    ensures fault { FindsFault result (option_map count_error (count_fault 0 bytes.now)) }
    ensures value { IfOk result (λ found. (found.0 ≡ number_value bytes.now) × (found.0 ≤ 2 ^ 28)) }
    ensures end { IfOk result (λ found. found.1 ≡ number_end bytes.now) }
    ensures within { IfOk result (λ found. found.1 ≤ length bytes.now) }
{
    match test_count(0, bytes) {
        Ok(found) => Ok(found),
        Err(GroupError::Short) => Err(WideColumnError::Short),
        Err(GroupError::TooLong(count)) => Err(WideColumnError::TooLong(count)),
        Err(_) => Err(WideColumnError::BadNumber),
    }
}

/// Tests what is after the count of values. Returns the set of the missing positions.
#[tactic(auto, unfolding(crate::specs::WideColumnFaults::rest_fault))]
fn test_rest<'a>(form: u8, count: usize, rest: &'a [u8]) -> Result<IdSet<'a>, WideColumnError>
    requires few { count ≤ 2 ^ 28 }
    requires form { (10 ≤ form) × (form ≤ 11) }
    ensures fault { FindsFault result (rest_fault count rest.now form) }
    ensures missing { IfOk result (λ set. encoding_of set ≡ reads.part_at (columns.chunks_of count) rest.now 0) }
{
    test_directory(chunks_of(count), rest)?;
    let missing = test_missing(count, rest)?;
    let sorted = test_chunks(count, rest, missing)?;
    if (form == 11) == sorted {
        return Ok(missing);
    }
    Err(WideColumnError::LooseForm)
}

/// Tests the sizes and the ends.
#[tactic(auto, unfolding(crate::specs::WideColumnFaults::directory_fault))]
fn test_directory(chunks: usize, rest: &[u8]) -> Result<(), WideColumnError>
    requires few { chunks ≤ 4096 }
    ensures { FindsFault result (directory_fault chunks rest.now) }
{
    test_sizes(rest)?;
    let start = parts_start(chunks, rest);
    if rest.len() < start {
        return Err(WideColumnError::Short);
    }
    test_ends(chunks, rest)?;
    test_least(chunks, rest)?;
    let end = start + end_at(chunks, rest, 2 * chunks) as usize;
    if rest.len() < end {
        return Err(WideColumnError::Short);
    }
    if rest.len() > end {
        return Err(WideColumnError::Trailing);
    }
    Ok(())
}

/// Tests the byte of the sizes.
#[tactic(auto, unfolding(crate::specs::WideColumnFaults::sizes_fault))]
fn test_sizes(rest: &[u8]) -> Result<(), WideColumnError>
    ensures { FindsFault result (sizes_fault rest.now) }
{
    if rest.len() < 1 {
        return Err(WideColumnError::Short);
    }
    let sizes = rest[0];
    if 0 < sizes % 16 && sizes % 16 <= 4 && 0 < sizes / 16 && sizes / 16 <= 8 {
        return Ok(());
    }
    Err(WideColumnError::BadSizes(sizes))
}

/// Tests that no end is below the one before it.
fn test_ends(chunks: usize, rest: &[u8]) -> Result<(), WideColumnError>
    requires tables { HasEntries chunks rest.now }
    requires few { chunks ≤ 4096 }
    ensures { FindsFault result (first_of (end_fault chunks rest.now) (2 * chunks + 1)) }
{
    let mut before = 0;
    for part in 0..2 * chunks + 1 {
        let end = end_at(chunks, rest, part);
        if end < before {
            return Err(WideColumnError::BadOffset(part));
        }
        before = end;
    }
    Ok(())
}

/// Tests that the ends and the bounds have no more bytes than they need.
#[tactic(auto, unfolding(crate::specs::WideColumnFaults::loose_sizes_fault))]
fn test_least(chunks: usize, rest: &[u8]) -> Result<(), WideColumnError>
    requires tables { HasEntries chunks rest.now }
    requires few { chunks ≤ 4096 }
    ensures { FindsFault result (loose_sizes_fault chunks rest.now) }
{
    let sizes = rest[0];
    let end_size = byte_count(end_at(chunks, rest, 2 * chunks));
    let bound_size = wide_byte_count(greatest_bound(chunks, rest));
    if (sizes % 16) as usize == end_size && (sizes / 16) as usize == bound_size {
        return Ok(());
    }
    Err(WideColumnError::BadSizes(sizes))
}

/// The greatest bound, 0 if there is none.
fn greatest_bound(chunks: usize, rest: &[u8]) -> u64
    requires tables { HasEntries chunks rest.now }
    requires few { chunks ≤ 4096 }
    ensures { result ≡ numbers.greatest (reads.bound_at rest.now) (2 * chunks) }
{
    let mut most = 0;
    for index in 0..2 * chunks {
        most = most.max(bound_at(chunks, rest, index));
    }
    most
}

/// The least count of bytes, from 1 to 8, that hold a number.
pub(crate) fn wide_byte_count(value: u64) -> usize
    ensures { result ≡ columns.wide_byte_count value }
{
    if value < 1 << 32 {
        byte_count(value as u32)
    } else {
        4 + byte_count((value >> 32) as u32)
    }
}

/// Tests the set of the missing positions.
#[tactic(auto, unfolding(crate::specs::WideColumnFaults::missing_fault))]
fn test_missing<'a>(count: usize, rest: &'a [u8]) -> Result<IdSet<'a>, WideColumnError>
    requires few { count ≤ 2 ^ 28 }
    requires parts { HasParts (columns.chunks_of count) rest.now }
    ensures fault { FindsFault result (missing_fault count rest.now) }
    ensures missing { IfOk result (λ set. encoding_of set ≡ reads.part_at (columns.chunks_of count) rest.now 0) }
{
    match IdSet::open(part_at(chunks_of(count), rest, 0)) {
        Ok(missing) if missing.rank(count as u32) == missing.len() => Ok(missing),
        _ => Err(WideColumnError::BadBody(0)),
    }
}
