//! Retains some of up to 128 documents, in their order.

ghost use Rattle.std.specs.Prelude.{◌≡◌, ℕ, ◌+◌, ◌^◌, ◌<◌, ◌≤◌, length, slice_index, take};
ghost use Rattle.bitpack_ranked.specs.inner.Candidates.{AreMarked, AreRetained, IsBeaten};

use crate::found::{Scored, is_full};

/// Writes 1 for each document that can be among the best, by a bound of its score without the rest, and else 0.
pub(crate) fn mark_best(
    ids: &[u32],
    bounds: &[u64],
    rest: u64,
    found: &[Scored],
    len: usize,
    marks: &mut [usize],
)
    requires room { (length ids.now ≤ length bounds.now) × (length ids.now ≤ length marks.old) }
    requires small { (k : ℕ) → k < length ids.now → slice_index bounds.now k + rest < 2 ^ 64 }
    requires len { len ≤ length found.now }
    ensures one { (k : ℕ) → k < length ids.now → slice_index marks.new k ≤ 1 }
    ensures none { (k : ℕ) → k < length ids.now → slice_index marks.new k ≡ 0
        → IsBeaten (length found.now) (take len found.now) (slice_index bounds.now k + rest) (slice_index ids.now k) }
{
    for index in 0..ids.len() {
        let score = bounds[index] + rest;
        let id = ids[index];
        marks[index] = !is_full(found, len, Scored { score, id }) as usize;
    }
}

/// Writes 1 for each number that is not below another, and else 0.
pub(crate) fn mark_at_least(numbers: &[usize], least: usize, marks: &mut [usize])
    requires room { length numbers.now ≤ length marks.old }
    ensures one { (k : ℕ) → k < length numbers.now → slice_index marks.new k ≤ 1 }
    ensures none { (k : ℕ) → k < length numbers.now → slice_index marks.new k ≡ 0 → slice_index numbers.now k < least }
    ensures all { (k : ℕ) → k < length numbers.now → slice_index marks.new k ≡ 1 → least ≤ slice_index numbers.now k }
{
    for index in 0..numbers.len() {
        marks[index] = (numbers[index] >= least) as usize;
    }
}

/// Retains the documents of the first `len` that have a mark of 1, with their scores. Returns how many these are.
pub(crate) fn retain(ids: &mut [u32], scores: &mut [u64], len: usize, marks: &[usize]) -> usize
    requires room { (len ≤ length ids.old) × (len ≤ length scores.old) × (len ≤ length marks.now) }
    requires one { (k : ℕ) → k < len → slice_index marks.now k ≤ 1 }
    ensures few { result ≤ len }
    ensures retained { AreRetained (λ k. slice_index marks.now k ≡ 0) ids.old scores.old len ids.new scores.new result }
    ensures marked { AreMarked (λ k. slice_index marks.now k ≡ 1) ids.old len ids.new result }
{
    let mut count = 0;
    for index in 0..len {
        ids[count] = ids[index];
        scores[count] = scores[index];
        count += marks[index];
    }
    count
}
