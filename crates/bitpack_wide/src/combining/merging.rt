//! Merges the ids of two wide sets, part by part.

ghost use Rattle.std.specs.Prelude.{◌≡◌, ℕ, ◌+◌, ◌^◌, ◌<◌, ◌≤◌, List, [], ◌∷◌, if◌then◌else◌, IfSome, drop, length, max, None, slice_index};
ghost use Rattle.bitpack_slices.specs.Follows.{Follow};
ghost use Rattle.bitpack_slices.specs.Operations.{apply};
ghost use Rattle.bitpack_slices.specs.Reads.{rank};
ghost use Rattle.bitpack_wide.specs.Combined.{answer};
ghost use Rattle.bitpack_wide.specs.inner.Merging.{Continues, IsFront};
ghost use Rattle.bitpack_wide.specs.Opened.{ids};

use crate::spread::PART;
use crate::wide_set::WideSet;
use bitpack_slices::Operation;
use bitpack_slices::combined::{retains_left, retains_right};

/// If one set has this many times the ids of the other, or more, few of the longer one are read at a time when ids that it has alone are
/// passed. Only the time depends on it.
const SPARSE: usize = 64;

/// How many ids are then read at a time.
const FEW: usize = 16;

/// Writes the ids that an operation on two sets gives, if there is room for all. Returns their number, or `None` soon after there are more than
/// `most`.
pub(crate) fn merge(
    operation: Operation,
    a: &WideSet,
    b: &WideSet,
    most: usize,
    out: &mut [u64],
) -> Option<usize>
    ensures few { IfSome result (λ count. count ≤ most) }
    ensures written { IfSome result (λ count. Follow (answer operation (ids a.now) (ids b.now)) out.old out.new 0 count) }
    ensures none { result ≡ None → most < length (answer operation (ids a.now) (ids b.now)) }
{
    let mut xs = [0; PART];
    let mut ys = [0; PART];
    let part = part_len(operation, a.len(), b.len());
    let mut i = 0;
    let mut j = 0;
    let mut at = 0;
    while i < a.len() && j < b.len() {
        let first = passed(!retains_left(operation), a, i, b, j);
        let second = passed(!retains_right(operation), b, j, a, i);
        let m = a.copy_range(first, &mut xs[..part]);
        let n = b.copy_range(second, &mut ys[..part]);
        let merged = merge_part(operation, &xs[..m], &ys[..n], out, at);
        i = first + merged.i;
        j = second + merged.j;
        at = merged.at;
        if at > most {
            return None;
        }
    }
    let end = copy_rest(retains_left(operation), a, i, out, at);
    let all = copy_rest(retains_right(operation), b, j, out, end);
    if all > most {
        return None;
    }
    Some(all)
}

/// How many ids are read at a time.
fn part_len(operation: Operation, a: usize, b: usize) -> usize
    ensures some { 0 < result }
    ensures few { result ≤ 1024 }
{
    let skips = match operation {
        Operation::And => a / SPARSE > b || b / SPARSE > a,
        Operation::AndNot => b / SPARSE > a,
        _ => false,
    };
    if skips { FEW } else { PART }
}

/// A position of a set, or a later one: if `skips`, ids that are below the one at a position of another set are passed.
fn passed(skips: bool, set: &WideSet, from: usize, other: &WideSet, position: usize) -> usize
    requires set { from ≤ length (ids set.now) }
    requires other { position < length (ids other.now) }
    ensures { result ≡ (if skips then max (rank (slice_index (ids other.now) position) (ids set.now)) from else from) }
{
    if !skips {
        return from;
    }
    match other.select(position) {
        Some(id) => set.rank(id).max(from),
        None => from,
    }
}

/// How many ids of two lists are merged, and the index after the last that is written.
#[derive(Clone, Copy)]
struct Merged {
    i: usize,
    j: usize,
    at: usize,
}

/// Writes the ids that an operation on two lists gives, up to the end of one of them. Each list may be the front of a longer one.
fn merge_part(operation: Operation, xs: &[u64], ys: &[u64], out: &mut [u64], at: usize) -> Merged
    requires few { length xs.now + length ys.now ≤ 2048 }
    requires start { at ≤ 2 ^ 62 }
    ensures i { result.i ≤ length xs.now }
    ensures j { result.j ≤ length ys.now }
    ensures later { at ≤ result.at }
    ensures few { result.at ≤ at + (result.i + result.j) }
    ensures goes_on { 0 < length xs.now → 0 < length ys.now → 0 < result.i + result.j }
    ensures merged { (all others : List ℕ) → IsFront xs.now all → IsFront ys.now others
        → Continues (answer operation all others) (answer operation (drop result.i all) (drop result.j others)) out.old out.new at result.at }
{
    match operation {
        Operation::And => merge_each(Operation::And, xs, ys, out, at),
        Operation::Or => merge_each(Operation::Or, xs, ys, out, at),
        Operation::AndNot => merge_each(Operation::AndNot, xs, ys, out, at),
        Operation::Xor => merge_each(Operation::Xor, xs, ys, out, at),
    }
}

/// Writes the ids that `merge_part` writes, for an operation that the caller names, so that each operation has a loop of its own.
#[inline(always)]
fn merge_each(operation: Operation, xs: &[u64], ys: &[u64], out: &mut [u64], at: usize) -> Merged
    requires few { length xs.now + length ys.now ≤ 2048 }
    requires start { at ≤ 2 ^ 62 }
    ensures i { result.i ≤ length xs.now }
    ensures j { result.j ≤ length ys.now }
    ensures later { at ≤ result.at }
    ensures few { result.at ≤ at + (result.i + result.j) }
    ensures goes_on { 0 < length xs.now → 0 < length ys.now → 0 < result.i + result.j }
    ensures merged { (all others : List ℕ) → IsFront xs.now all → IsFront ys.now others
        → Continues (answer operation all others) (answer operation (drop result.i all) (drop result.j others)) out.old out.new at result.at }
{
    let mut i = 0;
    let mut j = 0;
    let mut next = at;
    while i < xs.len() && j < ys.len() {
        let x = xs[i];
        let y = ys[j];
        next = put(x.min(y), has(operation, x <= y, y <= x), out, next);
        i += (x <= y) as usize;
        j += (y <= x) as usize;
    }
    Merged { i, j, at: next }
}

/// Whether the answer has an id, by whether each list has it.
#[inline(always)]
fn has(operation: Operation, in_a: bool, in_b: bool) -> bool
    ensures { result ≡ apply operation in_a in_b }
{
    match operation {
        Operation::And => in_a & in_b,
        Operation::Or => in_a | in_b,
        Operation::AndNot => in_a & !in_b,
        Operation::Xor => in_a ^ in_b,
    }
}

/// Writes an id if it is in the answer. Returns the index of the next one, also if there was no room.
///
/// No branch depends on the ids: it writes also an id that is not in the answer, and the next one over it.
#[inline(always)]
fn put(id: u64, there: bool, out: &mut [u64], at: usize) -> usize
    requires { at < 2 ^ 63 }
    ensures { Follow (if there then id ∷ [] else []) out.old out.new at result }
{
    if at < out.len() {
        out[at] = id;
    }
    at + there as usize
}

/// Writes the ids from a position on, if the answer has them and there is room for all. Returns the index after the last, also if there is no room.
fn copy_rest(there: bool, set: &WideSet, from: usize, out: &mut [u64], at: usize) -> usize
    requires from { from ≤ length (ids set.now) }
    requires start { at ≤ 2 ^ 62 }
    ensures follow { Follow (if there then drop from (ids set.now) else []) out.old out.new at result }
    ensures few { result + from ≤ at + length (ids set.now) }
{
    if !there {
        return at;
    }
    let end = at + (set.len() - from);
    if end <= out.len() {
        set.copy_range(from, &mut out[at..end]);
    }
    end
}
