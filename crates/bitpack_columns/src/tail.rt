//! The values that are left after the whole blocks.
//!
//! FORMAT.md, "Columns", after the bodies:
//!
//! ```text
//! least, a varint, if plain | groups of codes
//! ```

ghost use Rattle.std.specs.Prelude.{◌≡◌, ℕ, ◌+◌, ◌-◌, ◌*◌, ◌^◌, ◌<◌, ◌≤◌, ◌++◌, None, length, replicate, take};
ghost use Rattle.bitpack_columns.specs.Columns;
ghost use Rattle.bitpack_columns.specs.Gathering.{EndsGroup};
ghost use Rattle.bitpack_columns.specs.Numbers.{groups_codes, groups_fault, groups_of};
ghost use Rattle.bitpack_columns.specs.Reads.{coded, values_of};

use crate::column_kind::ColumnKind;
use bitpack_groups::{LONGEST_GROUP, unpack_groups};

/// How many codes of the tail are 0 and left out: in a plain column the code of a lone value, in a sorted one the code of the first.
pub(crate) fn left_out(kind: ColumnKind, blocks: usize, count: usize) -> usize
    ensures out { result ≡ Columns.left_out kind blocks count }
    ensures few { result ≤ count }
    ensures one { result ≤ 1 }
{
    match kind {
        ColumnKind::Plain => (count == 1) as usize,
        ColumnKind::Sorted if blocks == 0 => count.min(1),
        ColumnKind::Sorted => 0,
    }
}

/// Replaces codes by the values that they stand for.
#[inline(always)]
pub(crate) fn to_values(kind: ColumnKind, base: u32, codes: &mut [u32])
    ensures { codes.new ≡ values_of kind base codes.old }
{
    match kind {
        ColumnKind::Plain => add_to_all(base, codes),
        ColumnKind::Sorted => add_up(base, codes),
    }
}

/// Adds a number to each value, modulo 2 to the power of 32.
#[inline(always)]
fn add_to_all(base: u32, codes: &mut [u32])
    ensures { codes.new ≡ values_of ColumnKind.Plain base codes.old }
{
    for index in 0..codes.len() {
        codes[index] = base.wrapping_add(codes[index]);
    }
}

/// Replaces each code by the sum of the codes up to it and the base, modulo 2 to the power of 32.
#[inline(always)]
fn add_up(base: u32, codes: &mut [u32])
    ensures { codes.new ≡ values_of ColumnKind.Sorted base codes.old }
{
    let mut value = base;
    for index in 0..codes.len() {
        value = value.wrapping_add(codes[index]);
        codes[index] = value;
    }
}

/// Unpacks a tail after `blocks` blocks: as many values as the slice has, from groups that have no fault.
pub(crate) fn unpack_tail_values(
    kind: ColumnKind,
    blocks: usize,
    base: u32,
    groups: &[u8],
    out: &mut [u32],
)
    requires few { length out.old ≤ 2 ^ 28 }
    requires sound { (block : ℕ) × (groups_fault (groups_of (coded kind blocks (length out.old))) block
        (coded kind blocks (length out.old)) groups.now ≡ None) }
    ensures { out.new ≡ values_of kind base (replicate (Columns.left_out kind blocks (length out.old)) 0
        ++ groups_codes (groups_of (coded kind blocks (length out.old)))
        (coded kind blocks (length out.old)) groups.now) }
{
    unpack_after(kind, left_out(kind, blocks, out.len()), base, groups, out);
}

/// Unpacks the first values of a tail of `count` values after `blocks` blocks, as many as the slice has: up to the end of a group.
pub(crate) fn unpack_tail_front(
    kind: ColumnKind,
    blocks: usize,
    count: usize,
    base: u32,
    groups: &[u8],
    out: &mut [u32],
)
    requires few { count ≤ 2 ^ 28 }
    requires ends { EndsGroup (Columns.left_out kind blocks count) count (length out.old) }
    requires sound { (block : ℕ)
        × (groups_fault (groups_of (coded kind blocks count)) block (coded kind blocks count) groups.now ≡ None) }
    ensures { out.new ≡ take (length out.old) (values_of kind base (replicate (Columns.left_out kind blocks count) 0
        ++ groups_codes (groups_of (coded kind blocks count)) (coded kind blocks count) groups.now)) }
{
    unpack_after(kind, left_out(kind, blocks, count), base, groups, out);
}

// Unpacks values whose first codes are 0 and left out, and the others in groups.
fn unpack_after(kind: ColumnKind, zeros: usize, base: u32, groups: &[u8], out: &mut [u32])
    requires zeros { zeros ≤ length out.old }
    requires sound { (block : ℕ)
        × (groups_fault (groups_of (length out.old - zeros)) block (length out.old - zeros) groups.now ≡ None) }
    ensures { out.new ≡ values_of kind base (replicate zeros 0
        ++ groups_codes (groups_of (length out.old - zeros)) (length out.old - zeros) groups.now) }
{
    out[..zeros].fill(0);
    unpack_groups(groups, &mut out[zeros..]);
    to_values(kind, base, out);
}

/// How many values of a tail of `count` end with the group that has the value at an index. The first codes are left out.
pub(crate) fn end_of_group(zeros: usize, count: usize, index: usize) -> usize
    requires zeros { zeros ≤ 1 }
    requires index { index < count }
    requires few { count ≤ 2 ^ 28 }
    ensures within { index < result }
    ensures ends { EndsGroup zeros count result }
{
    count.min(zeros + (index + LONGEST_GROUP - zeros) / LONGEST_GROUP * LONGEST_GROUP)
}
