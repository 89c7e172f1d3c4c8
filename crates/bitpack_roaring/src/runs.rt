//! The runs of a container: the first number of each, and the number of the others, two bytes each.

ghost use Rattle.std.specs.Prelude.{◌≡◌, ◌+◌, ◌-◌, ◌*◌, ◌/◌, ◌^◌, ◌<◌, ◌≤◌, ◌++◌, ◌∷◌, ◌||◌, ℕ, drop, length, map, take};
ghost use Rattle.std.specs.List.{range_with_len};
ghost use Rattle.bitpack_slices.specs.Bitmaps.{has_bit};
ghost use Rattle.bitpack_slices.specs.Bodies.{IsRising};
ghost use Rattle.bitpack_slices.specs.Reads.{has};
ghost use Rattle.bitpack_slices.specs.Runs.{run_numbers};
ghost use Rattle.bitpack_slices.specs.Slices.{pairs_of};
ghost use Rattle.bitpack_roaring.specs.Roaring.{bounds_of};

use bitpack_slices::bitmap::ranges::set_range;
use bitpack_slices::chunk::runs::fill_range;
use bitpack_slices::chunk::search::number_at;

/// How many runs there are.
#[inline(always)]
pub(crate) fn count_runs(runs: &[u8]) -> usize
    ensures { result ≡ length runs.now / 4 }
{
    runs.len() / 4
}

/// The first number of a run, and the number after its last.
#[inline(always)]
pub(crate) fn run_at(runs: &[u8], index: usize) -> (usize, usize)
    requires { index < length runs.now / 4 }
    ensures some { result.0 < result.1 }
    ensures fits { result.1 ≤ 131072 }
    ensures bounds { bounds_of (drop (2 * index) (pairs_of runs.now)) ≡ result.0 ∷ result.1 ∷ bounds_of (drop (2 * (index + 1)) (pairs_of runs.now)) }
{
    let first = number_at(runs, 2 * index) as usize;
    let others = number_at(runs, 2 * index + 1) as usize;
    (first, first + others + 1)
}

/// Writes the numbers of runs, each with `base` added. Returns the index after the last.
pub(crate) fn unpack_runs(runs: &[u8], base: u32, out: &mut [u32], at: usize) -> usize
    requires apart { IsRising 0 65537 (bounds_of (pairs_of runs.now)) }
    requires fits { base + 65536 ≤ 2 ^ 32 }
    requires room { at + length (run_numbers (bounds_of (pairs_of runs.now))) ≤ length out.old }
    ensures end { result ≡ at + length (run_numbers (bounds_of (pairs_of runs.now))) }
    ensures values { take result out.new ≡ take at out.old ++ map (λ i. base + i) (run_numbers (bounds_of (pairs_of runs.now))) }
{
    let mut next = at;
    for index in 0..count_runs(runs) {
        let (first, end) = run_at(runs, index);
        next = put_run(base, first, end, out, next);
    }
    next
}

/// Writes the numbers of a run, each with `base` added. Returns the index after the last.
///
/// If there is room, it writes eight at once, so up to seven items after the end may change too.
#[inline(always)]
fn put_run(base: u32, first: usize, end: usize, out: &mut [u32], at: usize) -> usize
    requires some { first < end }
    requires within { end ≤ 65536 }
    requires fits { base + 65536 ≤ 2 ^ 32 }
    requires room { at + (end - first) ≤ length out.old }
    ensures end { result ≡ at + (end - first) }
    ensures values { take result out.new ≡ take at out.old ++ map (λ i. base + i) (range_with_len first (end - first)) }
{
    let size = end - first;
    if size <= 8 && out.len() - at >= 8 {
        put_eight(base + first as u32, &mut out[at..at + 8]);
        return at + size;
    }
    fill_range(base + first as u32, &mut out[at..at + size]);
    at + size
}

/// Writes eight numbers from one on, modulo 2^32.
#[inline(always)]
fn put_eight(first: u32, out: &mut [u32])
    requires { length out.old ≡ 8 }
    ensures { (n : ℕ) → n ≤ 8 → first + n ≤ 2 ^ 32 → take n out.new ≡ range_with_len first n }
{
    for i in 0..8 {
        out[i] = first.wrapping_add(i as u32);
    }
}

/// Sets the bits of the numbers of runs.
pub(crate) fn load_runs(runs: &[u8], words: &mut [u64; 1024])
    requires apart { IsRising 0 65537 (bounds_of (pairs_of runs.now)) }
    ensures { (x : ℕ) → has_bit words.new x ≡ (has x (run_numbers (bounds_of (pairs_of runs.now))) || has_bit words.old x) }
{
    for index in 0..count_runs(runs) {
        let (first, end) = run_at(runs, index);
        set_range(words, first, end);
    }
}
