//! The order of the values of a sorted column, by their codes.

ghost use Rattle.std.specs.Prelude.{◌≡◌, true, ℕ, List, ◌+◌, ◌^◌, ◌<◌, ◌≤◌, Decides, length, slice_index, sum};
ghost use Rattle.bitpack_columns.specs.declared.column_kind.ColumnKind.TheVariants.{Sorted};
ghost use Rattle.bitpack_columns.specs.Faults.{first_below};
ghost use Rattle.bitpack_columns.specs.Opening.{AreTotals, out_from};
ghost use Rattle.bitpack_columns.specs.Reads.{values_of};

use crate::column_kind::ColumnKind;
use crate::tail::to_values;

/// Some codes together: their sum modulo 2 to the power of 32, and each bit that one of them has.
#[derive(Clone, Copy)]
pub(super) struct Totals {
    pub(super) sum: u32,
    pub(super) bits: u32,
}

/// The codes together. No branch depends on a code, so that the compiler adds several at once.
#[inline(always)]
pub(super) fn add_codes(codes: &[u32]) -> Totals
    ensures { AreTotals codes.now result.sum result.bits }
{
    let mut sum: u32 = 0;
    let mut bits = 0;
    for index in 0..codes.len() {
        sum = sum.wrapping_add(codes[index]);
        bits |= codes[index];
    }
    Totals { sum, bits }
}

/// The first position out of order among the values that have these codes: those from a position on, after the value before them. Afterwards
/// the codes may be any.
#[inline(always)]
pub(super) fn first_out(
    position: usize,
    before: u32,
    totals: Totals,
    codes: &mut [u32],
) -> Option<usize>
    requires few { position ≤ 2 ^ 28 }
    requires len { length codes.old ≤ 128 }
    requires totals { AreTotals codes.old totals.sum totals.bits }
    ensures { result ≡ out_from Sorted position before (values_of Sorted before codes.old) }
{
    if starts_late(position, codes) {
        return Some(0);
    }
    if rises(before, totals) {
        return None;
    }
    first_fall(position, before, codes)
}

/// Whether the values are the first of a column, and the first of them is not the one that is stated.
#[inline(always)]
fn starts_late(position: usize, codes: &[u32]) -> bool
    ensures { Decides result ((position ≡ 0) × (0 < length codes.now) × (0 < slice_index codes.now 0)) }
{
    position == 0 && !codes.is_empty() && codes[0] > 0
}

/// Whether at most 128 codes with these totals are of values in order, since none of their sums is above `u32::MAX`.
#[inline(always)]
fn rises(before: u32, totals: Totals) -> bool
    ensures { result ≡ true → (codes : List ℕ) → length codes ≤ 128 → AreTotals codes totals.sum totals.bits
        → before + sum codes < 2 ^ 32 }
{
    totals.bits < 1 << 25 && totals.sum <= u32::MAX - before
}

/// The first position whose value is below the one before it. The codes become values.
#[inline(never)]
fn first_fall(position: usize, before: u32, codes: &mut [u32]) -> Option<usize>
    requires few { position ≤ 2 ^ 28 }
    requires len { length codes.old ≤ 128 }
    ensures { result ≡ first_below position before (values_of Sorted before codes.old) }
{
    to_values(ColumnKind::Sorted, before, codes);
    let mut last = before;
    for index in 0..codes.len() {
        let value = codes[index];
        if value < last {
            return Some(position + index);
        }
        last = value;
    }
    None
}
