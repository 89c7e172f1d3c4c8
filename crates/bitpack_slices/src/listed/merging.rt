//! Merges two lists of ids.

ghost use Rattle.std.specs.Prelude.{◌≡◌, ◌^◌, ◌≤◌, [], drop, if◌then◌else◌};
ghost use Rattle.bitpack_slices.specs.Follows.{Follow};
ghost use Rattle.bitpack_slices.specs.Lists.{listed_ids};
ghost use Rattle.bitpack_slices.specs.Operations.{answer, apply};

use crate::combined::{retains_left, retains_right};
use crate::listed::{Listed, put};
use crate::operation::Operation;

/// Writes the ids that an operation on two lists gives, if there is room for all. Returns the index after the last, also if there is no room.
pub fn merge(operation: Operation, a: &Listed, b: &Listed, out: &mut [u32], at: usize) -> usize
    requires { at ≤ 2 ^ 32 }
    ensures { Follow (answer operation (listed_ids a.now) (listed_ids b.now)) out.old out.new at result }
{
    match operation {
        Operation::And => merge_each(Operation::And, a, b, out, at),
        Operation::Or => merge_each(Operation::Or, a, b, out, at),
        Operation::AndNot => merge_each(Operation::AndNot, a, b, out, at),
        Operation::Xor => merge_each(Operation::Xor, a, b, out, at),
    }
}

/// Writes the ids that `merge` writes, for an operation that the caller names, so that each operation has a loop of its own.
#[inline(always)]
fn merge_each(operation: Operation, a: &Listed, b: &Listed, out: &mut [u32], at: usize) -> usize
    requires { at ≤ 2 ^ 32 }
    ensures { Follow (answer operation (listed_ids a.now) (listed_ids b.now)) out.old out.new at result }
{
    let mut i = 0;
    let mut j = 0;
    let mut next = at;
    while i < a.len() && j < b.len() {
        let x = a.at(i);
        let y = b.at(j);
        let there = has(operation, x <= y, y <= x);
        next = put(x.min(y), there, out, next);
        i += (x <= y) as usize;
        j += (y <= x) as usize;
    }
    let end = copy_if(retains_left(operation), a, i, out, next);
    copy_if(retains_right(operation), b, j, out, end)
}

/// Whether the answer has an id, by whether each list has it.
#[inline(always)]
fn has(operation: Operation, in_a: bool, in_b: bool) -> bool
    ensures { result ≡ apply operation in_a in_b }
{
    match operation {
        Operation::And => in_a & in_b,
        Operation::Or => in_a | in_b,
        Operation::AndNot => in_a & !in_b,
        Operation::Xor => in_a ^ in_b,
    }
}

/// Writes the ids from a position on, if the answer has them.
#[inline(always)]
fn copy_if(there: bool, list: &Listed, from: usize, out: &mut [u32], at: usize) -> usize
    requires { at ≤ 2 ^ 34 }
    ensures { Follow (if there then drop from (listed_ids list.now) else []) out.old out.new at result }
{
    if !there {
        return at;
    }
    copy_from(list, from, out, at)
}

/// Writes the ids from a position on.
#[inline(always)]
fn copy_from(list: &Listed, from: usize, out: &mut [u32], at: usize) -> usize
    requires { at ≤ 2 ^ 34 }
    ensures { Follow (drop from (listed_ids list.now)) out.old out.new at result }
{
    let mut next = at;
    for position in from..list.len() {
        next = put(list.at(position), true, out, next);
    }
    next
}
