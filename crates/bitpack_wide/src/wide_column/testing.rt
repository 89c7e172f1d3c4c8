//! Tests that a chunk has the only form of its values.
//! FORMAT.md, "Faults of a wide column", LooseBody.

ghost use Rattle.std.specs.Prelude.{◌≡◌, ℕ, ◌+◌, ◌-◌, ◌*◌, ◌^◌, ◌<◌, ◌≤◌, ◌&&◌, Bool, false, true, not, nat_lt, IfSome, None, length, slice_index};
ghost use Rattle.bitpack_slices.specs.Reads.{has, rank};
ghost use Rattle.bitpack_sets.specs.Opened.{ids};
ghost use Rattle.bitpack_columns.specs.Opened.{kind_of, values};
ghost use Rattle.bitpack_groups.specs.Numbers.{greatest};
ghost use Rattle.bitpack_wide.specs.WideColumnFaults.{each_below, has_bounds, is_filled, is_front, rise};
ghost use Rattle.bitpack_wide.specs.inner.WideColumnSteps.{Sees, column_has_kind, difference_of, is_right};

use super::chunk::Chunk;
use super::filling::test_filled;
use super::seeing::{falls, see_all};
use bitpack_columns::{Column, ColumnKind};
use bitpack_sets::IdSet;

/// What a chunk says of the order of values.
#[derive(Clone, Copy)]
pub(super) struct Order {
    /// All values are missing.
    pub(super) empty: bool,
    /// No value is below the one before it.
    pub(super) rises: bool,
}

/// Tests a chunk that begins at a position. Returns nothing if its values have other bounds or other parts.
pub(super) fn test_numbers(chunk: &Chunk, begin: usize, missing: &IdSet) -> Option<Order>
    requires { begin + chunk.now.len ≤ 2 ^ 28 }
    ensures some { IfSome result (λ order. is_right chunk.now (λ k. has (begin + k) (ids missing.now)) ≡ true) }
    ensures empty { IfSome result (λ order. order.empty ≡ is_front (λ k. has (begin + k) (ids missing.now)) chunk.now.len) }
    ensures rises { IfSome result (λ order. order.rises ≡ rise (difference_of chunk.now) chunk.now.len) }
    ensures none { result ≡ None → is_right chunk.now (λ k. has (begin + k) (ids missing.now)) ≡ false }
{
    if !has_kind(&chunk.low) || !high_has_kind(chunk) {
        return None;
    }
    let seen = see_all(chunk);
    let empty = test_filled(chunk, begin, missing)?;
    if !are_bounds(chunk, seen.zero, seen.most, empty) {
        return None;
    }
    Some(Order {
        empty,
        rises: seen.rises,
    })
}

/// Whether the bounds fit the differences that were seen.
fn are_bounds(chunk: &Chunk, zero: bool, most: u64, empty: bool) -> bool
    ensures { (missing : ℕ → Bool) (difference : ℕ → ℕ) → Sees difference chunk.now.len zero most → empty ≡ is_front missing chunk.now.len
        → result ≡ has_bounds chunk.now.least chunk.now.greatest missing difference chunk.now.len }
{
    if !zero || chunk.greatest < chunk.least || chunk.greatest - chunk.least != most {
        return false;
    }
    !empty || chunk.least == 0
}

/// Whether a column is sorted, or falls.
fn has_kind(column: &Column) -> bool
    ensures { result ≡ column_has_kind column.now }
{
    match column.kind() {
        ColumnKind::Sorted => true,
        ColumnKind::Plain => falls(column),
    }
}

/// Whether the high part of a chunk, if it has one, is sorted or falls.
fn high_has_kind(chunk: &Chunk) -> bool
    ensures { result ≡ Rattle.bitpack_wide.specs.inner.WideColumnSteps.high_has_kind chunk.now.high }
{
    match chunk.high {
        Some(column) => has_kind(&column),
        None => true,
    }
}
