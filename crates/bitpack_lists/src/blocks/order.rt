//! The order of the values of a list, a part of them at a time.

ghost use Rattle.std.specs.Prelude.{◌≡◌, ◌+◌, ◌-◌, ◌*◌, ◌^◌, ◌<◌, ◌≤◌, ℕ, List, true, false, length, slice_index, IfSome, None};
ghost use Rattle.bitpacking.specs.Codes.{codes, start, values_of};
ghost use Rattle.bitpacking.specs.Width.{Fits};
ghost use Rattle.bitpacking.specs.Words.{word};
ghost use Rattle.bitpack_lists.specs.Version2.{is_out, least_below};
ghost use Rattle.bitpack_lists.specs.inner.Opening.{IsOrdered, IsRising, is_fall};

use crate::list_kind::ListKind;
use crate::numbers::read_one;
use bitpacking::{Kind, MAX_BLOCK_LEN};

/// Whether the value at a position is out of order after the one before it.
fn is_out(kind: ListKind, position: usize, before: u32, value: u32) -> bool
    ensures { (all : ℕ → ℕ) → (0 < position → all (position - 1) ≡ before) → all position ≡ value
        → result ≡ Rattle.bitpack_lists.specs.Version2.is_out kind all position }
{
    match kind {
        ListKind::Plain => false,
        ListKind::Sorted => position > 0 && value < before,
        ListKind::StrictlySorted => position > 0 && value <= before,
    }
}

/// The first position out of order among these values, which are those from a position on. The values before them are in order,
/// and `before` is the last.
pub(crate) fn first_out(
    kind: ListKind,
    position: usize,
    before: u32,
    values: &[u32],
) -> Option<usize>
    requires { position + length values.now < 2 ^ 64 }
    ensures { (all : ℕ → ℕ) → IsOrdered kind all position before
        → ((k : ℕ) → k < length values.now → all (position + k) ≡ slice_index values.now k)
        → result ≡ least_below (Rattle.bitpack_lists.specs.Version2.is_out kind all) (position + length values.now) }
{
    if are_ordered(kind, position, before, values) {
        return None;
    }
    let mut last = before;
    for index in 0..values.len() {
        let value = values[index];
        if is_out(kind, position + index, last, value) {
            return Some(position + index);
        }
        last = value;
    }
    None
}

/// Whether the values are in order after the one before them. Most lists are, so that no position is looked for.
#[inline(always)]
fn are_ordered(kind: ListKind, position: usize, before: u32, values: &[u32]) -> bool
    ensures { result ≡ true → (all : ℕ → ℕ) → IsOrdered kind all position before
        → ((k : ℕ) → k < length values.now → all (position + k) ≡ slice_index values.now k)
        → least_below (Rattle.bitpack_lists.specs.Version2.is_out kind all) (position + length values.now) ≡ None }
{
    if values.is_empty() {
        return true;
    }
    if is_out(kind, position, before, values[0]) {
        return false;
    }
    match kind {
        ListKind::Plain => true,
        ListKind::Sorted => !falls(false, values),
        ListKind::StrictlySorted => !falls(true, values),
    }
}

/// Whether a value is below the one before it, or, in a strict order, not above it. No branch depends on a value, so that the
/// compiler compares several at once.
#[inline(always)]
fn falls(strict: bool, values: &[u32]) -> bool
    ensures { result ≡ false → (k : ℕ) → k + 1 < length values.now
        → is_fall strict (slice_index values.now k) (slice_index values.now (k + 1)) ≡ false }
{
    let mut falls = false;
    for index in 1..values.len() {
        let (before, value) = (values[index - 1], values[index]);
        falls |= if strict {
            value <= before
        } else {
            value < before
        };
    }
    falls
}

/// Whether the last value of a block shows that all its values are in order, after the one before the block. They are if their steps
/// are at most 2 ^ 32 together, so that they wrap at most once, and the last value is above the one before the block (in a sorted list:
/// not below). `width` is the width of the codes, and `len` how many they are.
pub(crate) fn ends_in_order(kind: Kind, width: u8, len: usize, last: u32) -> bool
    requires { (width ≤ 32) × (1 ≤ len) × (len ≤ MAX_BLOCK_LEN) }
    ensures { result ≡ true → (codes : List ℕ) → length codes ≡ len → Fits codes width → start kind < 2 ^ 32
        → slice_index (values_of kind codes) (len - 1) ≡ last → IsRising kind (values_of kind codes) }
{
    match kind {
        Kind::Plain => true,
        Kind::Sorted(initial) => is_narrow(width, len) && initial <= last,
        Kind::StrictlySorted(initial) => is_narrow(width, len) && is_above(initial, last),
    }
}

/// Whether a value is above the one before its block, if there is one.
pub(crate) fn is_above(before: Option<u32>, last: u32) -> bool
    ensures { result ≡ true → IfSome before (λ before. before < last) }
{
    match before {
        None => true,
        Some(before) => before < last,
    }
}

/// Whether `len` numbers of this width are at most 2 ^ 32 together.
fn is_narrow(width: u8, len: usize) -> bool
    requires { (width ≤ 32) × (len ≤ MAX_BLOCK_LEN) }
    ensures { result ≡ true → len * 2 ^ width ≤ 2 ^ 32 }
{
    (len as u64) << width <= 1 << 32
}

/// As above, of `count` values in their bytes.
pub(crate) fn first_out_of_words(
    kind: ListKind,
    position: usize,
    before: u32,
    bytes: &[u8],
    count: usize,
) -> Option<usize>
    requires few { position + count < 2 ^ 64 }
    requires room { 4 * count ≤ length bytes.now }
    ensures { (all : ℕ → ℕ) → IsOrdered kind all position before
        → ((k : ℕ) → k < count → all (position + k) ≡ word bytes.now k)
        → result ≡ least_below (Rattle.bitpack_lists.specs.Version2.is_out kind all) (position + count) }
{
    let mut last = before;
    for index in 0..count {
        let value = read_one(bytes, 4 * index);
        if is_out(kind, position + index, last, value) {
            return Some(position + index);
        }
        last = value;
    }
    None
}
