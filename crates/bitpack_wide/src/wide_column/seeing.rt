//! What there is to see of the differences of a chunk: a 0, the greatest, and whether they rise.

ghost use Rattle.std.specs.Prelude.{◌≡◌, ℕ, ◌+◌, ◌-◌, ◌*◌, ◌^◌, ◌<◌, ◌≤◌, Bool, None, false, true, not, length, slice_index};
ghost use Rattle.bitpack_columns.specs.Opened.{kind_of, values};
ghost use Rattle.bitpack_columns.specs.declared.column_kind.ColumnKind.TheVariants.{Plain, Sorted};
ghost use Rattle.bitpack_wide.specs.WideColumnFaults.{rise};
ghost use Rattle.bitpack_wide.specs.inner.WideColumnSteps.{Sees, SeesRise, column_has_kind, difference_of, high_has_kind};
ghost use Rattle.bitpack_wide.specs.WideColumnSound.{IsPart};

use super::chunk::{Chunk, PART, read_differences};
use bitpack_columns::{Column, ColumnKind};

/// What was seen of differences.
#[derive(Clone, Copy)]
pub(super) struct Seen {
    /// Whether there is a 0.
    pub(super) zero: bool,
    /// The greatest.
    pub(super) most: u64,
    /// Whether they rise.
    pub(super) rises: bool,
    // The last one.
    last: u64,
}

/// Whether a value of a column is below the one before it.
pub(super) fn falls(column: &Column) -> bool
    ensures { result ≡ not (rise (slice_index (values column.now)) (length (values column.now))) }
{
    let mut part = [0; PART];
    let mut last = 0;
    let mut from = 0;
    while from < column.len() {
        let len = column.copy_range(from, &mut part);
        if falls_after(last, &part[..len]) {
            return true;
        }
        last = part[len - 1];
        from += len;
    }
    false
}

/// Whether a number is below the one before it, or the first below this one.
#[inline(always)]
fn falls_after(before: u32, part: &[u32]) -> bool
    requires some { 0 < length part.now }
    ensures { (number : ℕ → ℕ) (from : ℕ) → IsPart number from part.now → SeesRise number from true before → (from ≡ 0 → before ≡ 0)
        → result ≡ not (rise number (from + length part.now)) }
{
    let mut falls = part[0] < before;
    for index in 1..part.len() {
        falls |= part[index] < part[index - 1];
    }
    falls
}

/// What there is to see of a chunk whose columns have their kinds.
pub(super) fn see_all(chunk: &Chunk) -> Seen
    requires low { column_has_kind chunk.now.low ≡ true }
    ensures sees { Sees (difference_of chunk.now) chunk.now.len result.zero result.most }
    ensures rises { result.rises ≡ rise (difference_of chunk.now) chunk.now.len }
{
    match chunk.high {
        Some(_) => see_both(chunk),
        None => match chunk.low.kind() {
            ColumnKind::Sorted => see_sorted(chunk),
            ColumnKind::Plain => see_low(chunk),
        },
    }
}

/// Sees the ends of a chunk that is one sorted column.
fn see_sorted(chunk: &Chunk) -> Seen
    requires sorted { kind_of chunk.now.low ≡ Sorted }
    requires narrow { chunk.now.high ≡ None }
    ensures sees { Sees (difference_of chunk.now) chunk.now.len result.zero result.most }
    ensures rises { result.rises ≡ rise (difference_of chunk.now) chunk.now.len }
{
    let mut first = [0; 1];
    let mut last = [0; 1];
    read_differences(chunk, 0, &mut first);
    read_differences(chunk, chunk.len - 1, &mut last);
    Seen {
        zero: first[0] == 0,
        most: last[0],
        rises: true,
        last: last[0],
    }
}

/// Sees the differences of a chunk that is one plain column.
fn see_low(chunk: &Chunk) -> Seen
    requires plain { kind_of chunk.now.low ≡ Plain }
    requires falls { column_has_kind chunk.now.low ≡ true }
    requires narrow { chunk.now.high ≡ None }
    ensures sees { Sees (difference_of chunk.now) chunk.now.len result.zero result.most }
    ensures rises { result.rises ≡ rise (difference_of chunk.now) chunk.now.len }
{
    let mut part = [0; PART];
    let mut zero = false;
    let mut most = 0;
    let mut from = 0;
    while from < chunk.len {
        let len = chunk.low.copy_range(from, &mut part);
        (zero, most) = see_words(zero, most, &part[..len]);
        from += len;
    }
    Seen {
        zero,
        most: most as u64,
        rises: false,
        last: 0,
    }
}

/// Sees more numbers, after some with a 0 or without one, and with this greatest one.
#[inline(always)]
fn see_words(zero: bool, most: u32, part: &[u32]) -> (bool, u32)
    ensures { (number : ℕ → ℕ) (from : ℕ) → IsPart number from part.now → Sees number from zero most
        → Sees number (from + length part.now) result.0 result.1 }
{
    let mut found = zero;
    let mut greatest = most;
    for index in 0..part.len() {
        found |= part[index] == 0;
        greatest = greatest.max(part[index]);
    }
    (found, greatest)
}

/// Sees the differences of any chunk.
fn see_both(chunk: &Chunk) -> Seen
    ensures sees { Sees (difference_of chunk.now) chunk.now.len result.zero result.most }
    ensures rises { result.rises ≡ rise (difference_of chunk.now) chunk.now.len }
{
    let mut part = [0; PART];
    let mut seen = Seen {
        zero: false,
        most: 0,
        rises: true,
        last: 0,
    };
    let mut from = 0;
    while from < chunk.len {
        let len = PART.min(chunk.len - from);
        seen = see_next(chunk, from, seen, &mut part[..len]);
        from += len;
    }
    seen
}

/// Sees the differences from a position on, as many as `part` has room for.
#[inline(always)]
fn see_next(chunk: &Chunk, from: usize, seen: Seen, part: &mut [u64]) -> Seen
    requires within { from + length part.old ≤ chunk.now.len }
    requires few { length part.old ≤ 1024 }
    requires sees { Sees (difference_of chunk.now) from seen.zero seen.most }
    requires rises { SeesRise (difference_of chunk.now) from seen.rises seen.last }
    requires start { from ≡ 0 → seen.last ≡ 0 }
    ensures sees { Sees (difference_of chunk.now) (from + length part.old) result.zero result.most }
    ensures rises { SeesRise (difference_of chunk.now) (from + length part.old) result.rises result.last }
{
    read_differences(chunk, from, part);
    see_part(seen, part)
}

/// Sees more differences.
#[inline(always)]
fn see_part(seen: Seen, part: &[u64]) -> Seen
    ensures sees { (number : ℕ → ℕ) (from : ℕ) → IsPart number from part.now → Sees number from seen.zero seen.most
        → Sees number (from + length part.now) result.zero result.most }
    ensures rises { (number : ℕ → ℕ) (from : ℕ) → IsPart number from part.now → SeesRise number from seen.rises seen.last → (from ≡ 0 → seen.last ≡ 0)
        → SeesRise number (from + length part.now) result.rises result.last }
{
    let mut next = seen;
    for index in 0..part.len() {
        let difference = part[index];
        next.zero |= difference == 0;
        next.most = next.most.max(difference);
        next.rises &= next.last <= difference;
        next.last = difference;
    }
    next
}
