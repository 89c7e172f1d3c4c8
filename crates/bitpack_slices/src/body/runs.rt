//! Combines two bodies of runs.

ghost use Rattle.std.specs.Prelude.{◌≡◌, ◌+◌, ◌*◌, ◌/◌, ◌^◌, ◌<◌, ◌≤◌, IfSome, length, map, slice_index_or, take};
ghost use Rattle.bitpack_slices.specs.Bodies.{IsRising};
ghost use Rattle.bitpack_slices.specs.Body.{body};
ghost use Rattle.bitpack_slices.specs.Follows.{Follow};
ghost use Rattle.bitpack_slices.specs.Operations.{combined};
ghost use Rattle.bitpack_slices.specs.Runs.{runs, runs_from};
ghost use Rattle.bitpack_slices.specs.Slices.{pairs_of};

use crate::bitmap::writing::LONGEST_BLOCKS;
use crate::chunk::bounds::most_bounds;
use crate::chunk::runs::Runs;
use crate::chunk::search::number_at;
use crate::operation::Operation;
use bitpack_groups::write_at;

/// The most boundaries of two bodies of runs together.
pub(crate) const MOST_BOTH: usize = 128;

/// Writes the ids that an operation on two bodies of runs gives, if there is room for all. Returns the index after the last, also if there is no
/// room.
pub(crate) fn combine_both(
    operation: Operation,
    key: u32,
    a: Runs,
    b: Runs,
    out: &mut [u32],
    at: usize,
) -> usize
    requires key { key < 65536 }
    requires start { at ≤ 2 ^ 32 }
    requires few { length a.bounds.now / 2 + length b.bounds.now / 2 ≤ 128 }
    ensures { Follow (map (λ low. key * 65536 + low) (combined 65536 operation (runs_from 0 a.entry.bounds.now) (runs_from 0 b.entry.bounds.now))) out.old out.new at result }
{
    let mut room = [0; 2 * MOST_BOTH];
    let count = merge_bounds(operation, a.bounds, b.bounds, &mut room);
    let both = Runs {
        bounds: &room[..2 * count],
    };
    let len = both.len();
    if len == 0 || at + len > out.len() {
        return at + len;
    }
    both.unpack_from(key * 65536, 0, &mut out[at..at + len]);
    at + len
}

/// Writes the body of the numbers that an operation on two bodies of runs gives, if it is runs too. Returns how many numbers it has, and how many
/// bytes, or `None` if it is no runs.
pub fn write_both(
    operation: Operation,
    a: Runs,
    b: Runs,
    out: &mut [u8; LONGEST_BLOCKS],
) -> Option<(usize, usize)>
    ensures count { IfSome result (λ written. written.0 ≡ length (combined 65536 operation (runs_from 0 a.entry.bounds.now) (runs_from 0 b.entry.bounds.now))) }
    ensures small { IfSome result (λ written. (written.1 ≤ 2 * written.0) × (written.1 ≤ 8449)) }
    ensures body { IfSome result (λ written. 0 < written.0 → take written.1 out.new
        ≡ body (combined 65536 operation (runs_from 0 a.entry.bounds.now) (runs_from 0 b.entry.bounds.now))) }
{
    if a.bounds.len() / 2 + b.bounds.len() / 2 > MOST_BOTH {
        return None;
    }
    let mut room = [0; 2 * MOST_BOTH];
    let bounds = merge_bounds(operation, a.bounds, b.bounds, &mut room);
    let both = Runs {
        bounds: &room[..2 * bounds],
    };
    let count = both.len();
    if count == 0 {
        return Some((0, 0));
    }
    if bounds > most_bounds(count) {
        return None;
    }
    put_runs(both.bounds, out);
    Some((count, 2 + 2 * bounds))
}

/// Writes the runs with these boundaries, two bytes each.
#[inline(always)]
fn put_runs(bounds: &[u8], out: &mut [u8; LONGEST_BLOCKS])
    requires few { length bounds.now ≤ 256 }
    requires pairs { length bounds.now ≡ 2 * length (pairs_of bounds.now) }
    ensures { take (2 + length bounds.now) out.new ≡ runs (pairs_of bounds.now) }
{
    out[0] = 1;
    out[1] = 255;
    out[2..2 + bounds.len()].copy_from_slice(bounds);
}

/// Writes the boundaries of what an operation on runs gives, two bytes each. Returns how many there are.
fn merge_bounds(operation: Operation, a: &[u8], b: &[u8], out: &mut [u8; 2 * MOST_BOTH]) -> usize
    requires a { IsRising 0 65536 (pairs_of a.now) }
    requires b { IsRising 0 65536 (pairs_of b.now) }
    requires few { length a.now / 2 + length b.now / 2 ≤ 128 }
    ensures few { result ≤ 128 }
    ensures rising { IsRising 0 65536 (pairs_of (take (2 * result) out.new)) }
    ensures numbers { runs_from 0 (take (2 * result) out.new) ≡ combined 65536 operation (runs_from 0 a.now) (runs_from 0 b.now) }
{
    let mut i = 0;
    let mut j = 0;
    let mut in_a = false;
    let mut in_b = false;
    let mut count = 0;
    while i < a.len() / 2 || j < b.len() / 2 {
        let x = bound_at(a, i);
        let y = bound_at(b, j);
        let next = x.min(y);
        let before = applied(operation, in_a, in_b);
        in_a = in_a != (x == next);
        in_b = in_b != (y == next);
        i += (x == next) as usize;
        j += (y == next) as usize;
        if applied(operation, in_a, in_b) != before {
            write_at(count, 2, next as u32, out);
            count += 1;
        }
    }
    count
}

/// A boundary, 65,536 past the last.
#[inline(always)]
fn bound_at(bounds: &[u8], index: usize) -> usize
    ensures { result ≡ slice_index_or (pairs_of bounds.now) index 65536 }
{
    if index < bounds.len() / 2 {
        number_at(bounds, index) as usize
    } else {
        65536
    }
}

/// Whether the answer has a number, by whether each of two chunks has it.
#[inline(always)]
fn applied(operation: Operation, a: bool, b: bool) -> bool
    ensures { result ≡ Rattle.bitpack_slices.specs.Operations.apply operation a b }
{
    match operation {
        Operation::And => a && b,
        Operation::Or => a || b,
        Operation::AndNot => a && !b,
        Operation::Xor => a != b,
    }
}
