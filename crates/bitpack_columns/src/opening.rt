//! Tests the encoding of a column. The bytes are untrusted.
//!
//! FORMAT.md, "Columns" and "Faults of a column":
//!
//! ```text
//! 64 + 32 * s + min(n, 31) | n | first | sizes | ends | marks | bodies | least | groups
//! ```

ghost use Rattle.std.specs.Prelude.{◌≡◌, true, false, ◌≤◌, ◌^◌, if◌then◌else◌, IfOk, None, drop, length, nat_lt};
ghost use Rattle.bitpack_columns.specs.declared.column_kind.ColumnKind.TheVariants.{Plain, Sorted};
ghost use Rattle.bitpack_columns.specs.Errors.{Finds};
ghost use Rattle.bitpack_columns.specs.Faults.{fault, header_fault, rest_fault};
ghost use Rattle.bitpack_columns.specs.Numbers.{count_fault, number_end, number_fault, number_value, of};
ghost use Rattle.bitpack_columns.specs.Sound.{States};
ghost use Rattle.bitpack_columns.specs.Stated.{after_count, count_in, first_in, has_first, is_few, kind_in, rest_in};

mod blocks;
mod bodies;
mod numbers;
mod order;
mod tail;

use crate::column::{BLOCK_LEN, Parts};
use crate::column_error::ColumnError;
use crate::column_kind::ColumnKind;
use crate::reads::ColumnBytes;
use bitpack_groups::unpack_number;
use blocks::test_blocks;
use numbers::{open_count, open_number};
use tail::test_tail;

/// Tests all bytes.
#[tactic(auto, unfolding(crate::specs::Faults::fault, crate::specs::Faults::header_fault))]
pub(crate) fn test_column<'a>(bytes: &'a [u8]) -> Result<Parts<'a>, ColumnError>
    ensures fault { Finds result (fault bytes.now) }
    ensures states { IfOk result (λ parts. States bytes.now parts.kind parts.count parts.first parts.rest.bytes.now) }
{
    if bytes.is_empty() {
        return Err(ColumnError::Short);
    }
    let byte = bytes[0];
    if byte < 64 || byte > 127 {
        return Err(ColumnError::BadVersion(byte));
    }
    let kind = kind_of(byte);
    let (count, later) = test_count(bytes)?;
    let (first, rest) = test_first(kind, count, later)?;
    test_rest(kind, first, count, rest)?;
    Ok(Parts {
        kind,
        count,
        first,
        rest: ColumnBytes::new(rest),
    })
}

/// The kind that byte 0 tells.
fn kind_of(byte: u8) -> ColumnKind
    ensures { result ≡ (if nat_lt byte 96 then Plain else Sorted) }
{
    if byte < 96 {
        ColumnKind::Plain
    } else {
        ColumnKind::Sorted
    }
}

/// Tests the count. Returns it, and the bytes after it.
fn test_count<'a>(bytes: &'a [u8]) -> Result<(usize, &'a [u8]), ColumnError>
    requires { 1 ≤ length bytes.now }
    ensures fault { Finds result (if is_few bytes.now then None else of (count_fault 31 (drop 1 bytes.now))) }
    ensures count { IfOk result (λ found. found.0 ≡ count_in bytes.now) }
    ensures few { IfOk result (λ found. found.0 ≤ 2 ^ 28) }
    ensures rest { IfOk result (λ found. found.1.now ≡ after_count bytes.now) }
{
    let few = (bytes[0] % 32) as usize;
    if few < 31 {
        return Ok((few, &bytes[1..]));
    }
    let (count, end) = open_count(&bytes[1..])?;
    Ok((count, &bytes[1 + end..]))
}

/// Tests the first value of a sorted column. Returns it, and the bytes after it. Other columns have none.
fn test_first<'a>(
    kind: ColumnKind,
    count: usize,
    bytes: &'a [u8],
) -> Result<(u32, &'a [u8]), ColumnError>
    ensures fault { Finds result (if has_first kind count then of (number_fault bytes.now) else None) }
    ensures first { IfOk result (λ found. found.0 ≡ (if has_first kind count then number_value bytes.now else 0)) }
    ensures rest { IfOk result (λ found. found.1.now
        ≡ (if has_first kind count then drop (number_end bytes.now) bytes.now else bytes.now)) }
{
    if !has_first_value(kind, count) {
        return Ok((0, bytes));
    }
    let (first, end) = open_number(bytes)?;
    Ok((first, &bytes[end..]))
}

/// Whether a column has its first value before its blocks.
fn has_first_value(kind: ColumnKind, count: usize) -> bool
    ensures { result ≡ has_first kind count }
{
    match kind {
        ColumnKind::Plain => false,
        ColumnKind::Sorted => 0 < count,
    }
}

/// Tests what is after the count and the first value.
#[tactic(auto, unfolding(crate::specs::Faults::rest_fault))]
fn test_rest(kind: ColumnKind, first: u32, count: usize, rest: &[u8]) -> Result<(), ColumnError>
    requires { count ≤ 2 ^ 28 }
    ensures { Finds result (rest_fault kind first count rest.now) }
{
    let blocks = count / BLOCK_LEN;
    if blocks == 0 {
        return test_tail(kind, first, count, rest, None);
    }
    let out = test_blocks(kind, first, blocks, rest)?;
    test_tail(kind, first, count, rest, out)
}

/// What the first bytes of a column without a fault state, and what is after them.
pub(crate) fn read_parts<'a>(bytes: &'a [u8]) -> Parts<'a>
    requires { fault bytes.now ≡ None }
    ensures { States bytes.now result.kind result.count result.first result.rest.bytes.now }
{
    let kind = kind_of(bytes[0]);
    let (count, later) = read_count(bytes);
    let (first, rest) = read_first(kind, count, later);
    Parts {
        kind,
        count,
        first,
        rest: ColumnBytes::new(rest),
    }
}

/// The count, and the bytes after it.
fn read_count<'a>(bytes: &'a [u8]) -> (usize, &'a [u8])
    requires some { 1 ≤ length bytes.now }
    requires sound { is_few bytes.now ≡ false → number_fault (drop 1 bytes.now) ≡ None }
    ensures count { result.0 ≡ count_in bytes.now }
    ensures rest { result.1.now ≡ after_count bytes.now }
{
    let few = (bytes[0] % 32) as usize;
    if few < 31 {
        return (few, &bytes[1..]);
    }
    let (count, end) = unpack_number(&bytes[1..]);
    (count as usize, &bytes[1 + end..])
}

/// The first value of a sorted column, and the bytes after it.
fn read_first<'a>(kind: ColumnKind, count: usize, bytes: &'a [u8]) -> (u32, &'a [u8])
    requires { has_first kind count ≡ true → number_fault bytes.now ≡ None }
    ensures first { result.0 ≡ (if has_first kind count then number_value bytes.now else 0) }
    ensures rest { result.1.now ≡ (if has_first kind count then drop (number_end bytes.now) bytes.now else bytes.now) }
{
    if !has_first_value(kind, count) {
        return (0, bytes);
    }
    let (first, end) = unpack_number(bytes);
    (first, &bytes[end..])
}
