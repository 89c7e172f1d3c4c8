//! Tests of the tail of a column, and of what is after it.
//! FORMAT.md, "Faults of a column".

ghost use Rattle.std.specs.Prelude.{◌≡◌, ◌+◌, ◌/◌, ◌%◌, ◌*◌, ◌^◌, ◌<◌, ◌≤◌, ◌++◌, ◌==◌, if◌then◌else◌, IfOk, None, OnOk, Some, length, replicate};
ghost use Rattle.bitpack_columns.specs.declared.column_kind.ColumnKind.TheVariants.{Plain, Sorted};
ghost use Rattle.bitpack_columns.specs.Columns;
ghost use Rattle.bitpack_columns.specs.Errors.{Finds};
ghost use Rattle.bitpack_columns.specs.Faults;
ghost use Rattle.bitpack_columns.specs.Faults.{tail_fault};
ghost use Rattle.bitpack_columns.specs.Numbers.{after_groups, groups_codes, groups_fault, groups_of, of};
ghost use Rattle.bitpack_columns.specs.Opening.{front_values, plain_tail_fault, sorted_tail_fault};
ghost use Rattle.bitpack_columns.specs.Reads;
ghost use Rattle.bitpack_columns.specs.Reads.{coded};
ghost use Rattle.bitpack_columns.specs.Sound.{AreBlocks, HasEntries};

use super::bodies::{bounds, is_least};
use super::numbers::{open_groups, open_number};
use super::order::{add_codes, first_out};
use crate::column::BLOCK_LEN;
use crate::column_error::ColumnError;
use crate::column_kind::ColumnKind;
use crate::entries::{mark_at, tail_start};
use crate::tail::left_out;

/// Tests the tail of a column of `count` values. `out` is the first position out of order in its blocks.
pub(super) fn test_tail(
    kind: ColumnKind,
    first: u32,
    count: usize,
    rest: &[u8],
    out: Option<usize>,
) -> Result<(), ColumnError>
    requires few { count ≤ 2 ^ 28 }
    requires blocks { 0 < count / 128 → AreBlocks kind first (count / 128) rest.now }
    requires out { out ≡ Faults.first_out kind first (front_values kind first (count / 128) rest.now (count / 128)) }
    ensures { Finds result (tail_fault kind first count rest.now) }
{
    let blocks = count / BLOCK_LEN;
    let start = tail_start(blocks, rest);
    let tail = &rest[start..];
    let mut room = [0; BLOCK_LEN];
    let codes = &mut room[..count % BLOCK_LEN];
    match kind {
        ColumnKind::Plain => test_plain_tail(blocks, tail, codes),
        ColumnKind::Sorted => {
            let before = value_before(first, blocks, rest);
            test_sorted_tail(blocks, before, tail, out, codes)
        }
    }
}

/// Tests the tail of a plain column after `blocks` blocks. The slice has room for its codes.
#[tactic(auto, unfolding(crate::specs::Opening::plain_tail_fault))]
fn test_plain_tail(blocks: usize, tail: &[u8], codes: &mut [u32]) -> Result<(), ColumnError>
    requires blocks { blocks ≤ 2 ^ 28 }
    requires few { length codes.old < 128 }
    ensures { Finds result (plain_tail_fault blocks (length codes.old) tail.now) }
{
    if codes.is_empty() {
        return test_end(tail);
    }
    let (base, end) = open_number(tail)?;
    let later = test_codes(ColumnKind::Plain, blocks, &tail[end..], codes)?;
    let (least, greatest) = bounds(codes);
    if !is_least(base, least, greatest) {
        return Err(ColumnError::BadLast(blocks));
    }
    test_end(later)
}

/// Tests the tail of a sorted column after `blocks` blocks and this value, and then the order of all values. The slice has room for the codes
/// of the tail.
#[tactic(auto, unfolding(crate::specs::Opening::sorted_tail_fault))]
fn test_sorted_tail(
    blocks: usize,
    before: u32,
    tail: &[u8],
    out: Option<usize>,
    codes: &mut [u32],
) -> Result<(), ColumnError>
    requires blocks { 128 * blocks ≤ 2 ^ 28 }
    requires few { length codes.old < 128 }
    ensures { Finds result (sorted_tail_fault blocks (length codes.old) before out tail.now) }
{
    let later = test_codes(ColumnKind::Sorted, blocks, tail, codes)?;
    let found = first_out(BLOCK_LEN * blocks, before, add_codes(codes), codes);
    if let Some(position) = out.or(found) {
        return Err(ColumnError::NotSorted(position));
    }
    test_end(later)
}

/// The value before the tail of a sorted column.
fn value_before(first: u32, blocks: usize, rest: &[u8]) -> u32
    requires { 0 < blocks → HasEntries blocks rest.now }
    ensures { result ≡ Columns.base_of Sorted first (Reads.mark_at blocks rest.now) blocks }
{
    if blocks == 0 {
        first
    } else {
        mark_at(blocks, rest, blocks - 1)
    }
}

/// Tests the groups of the codes of a tail after `blocks` blocks. Writes the codes, and returns the bytes after the groups.
#[inline(always)]
fn test_codes<'a>(
    kind: ColumnKind,
    blocks: usize,
    groups: &'a [u8],
    codes: &mut [u32],
) -> Result<&'a [u8], ColumnError>
    requires blocks { blocks ≤ 2 ^ 28 }
    requires few { length codes.old ≤ 128 }
    ensures fault { Finds result (of (groups_fault (groups_of (coded kind blocks (length codes.old))) blocks
        (coded kind blocks (length codes.old)) groups.now)) }
    ensures codes { OnOk result (codes.new ≡ replicate (Columns.left_out kind blocks (length codes.old)) 0
        ++ groups_codes (groups_of (coded kind blocks (length codes.old)))
        (coded kind blocks (length codes.old)) groups.now) }
    ensures rest { IfOk result (λ rest. rest.now
        ≡ after_groups (groups_of (coded kind blocks (length codes.old)))
        (coded kind blocks (length codes.old)) groups.now) }
{
    let zeros = left_out(kind, blocks, codes.len());
    codes[..zeros].fill(0);
    open_groups(blocks, groups, &mut codes[zeros..])
}

/// Tests that nothing is left.
fn test_end(later: &[u8]) -> Result<(), ColumnError>
    ensures { Finds result (if length later.now == 0 then None else Some ColumnError.Trailing) }
{
    if later.is_empty() {
        return Ok(());
    }
    Err(ColumnError::Trailing)
}
