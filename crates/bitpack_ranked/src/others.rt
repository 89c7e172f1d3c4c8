//! How many other words the documents of a block have.

ghost use Rattle.std.specs.Prelude.{◌≡◌, ◌≢◌, ◌+◌, ◌^◌, ◌<◌, ◌≤◌, ℕ, List, if◌then◌else◌, length, map, slice_index, take};
ghost use Rattle.std.specs.List.{count_by, filter};
ghost use Rattle.bitpack_slices.specs.Reads.{has};
ghost use Rattle.bitpack_ranked.specs.Ranked.{has_word};

use crate::as_term::AsTerm;
use bitpack_queries::retain_if;

/// Adds to the number of each id how many of the words it has.
pub(crate) fn count_others<T: AsTerm>(terms: &[T], ids: &[u32], counts: &mut [usize])
    requires few { length terms.now ≤ 2 ^ 31 }
    requires short { length ids.now ≤ 128 }
    requires room { length ids.now ≤ length counts.old }
    requires none { (k : ℕ) → k < length ids.now → slice_index counts.old k ≡ 0 }
    ensures { (k : ℕ) → k < length ids.now
        → slice_index counts.new k ≡ count_by (has_word (slice_index ids.now k)) (map T.its_word terms.now) }
{
    for index in 0..terms.len() {
        add_word(&terms[index], ids, counts);
    }
}

/// Adds one to the numbers of the ids that have the word.
fn add_word<T: AsTerm>(term: &T, ids: &[u32], counts: &mut [usize])
    requires short { length ids.now ≤ 128 }
    requires room { length ids.now ≤ length counts.old }
    requires small { (k : ℕ) → k < length ids.now → slice_index counts.old k < 2 ^ 32 }
    ensures { (k : ℕ) → k < length ids.now
        → slice_index counts.new k ≡ slice_index counts.old k + (if has_word (slice_index ids.now k) (T.its_word term.now) then 1 else 0) }
{
    let mut room = [0; 128];
    let common = &mut room[..ids.len()];
    let count = copy_common(term, ids, common);
    add_common(&common[..count], ids, counts);
}

/// Writes the ids that have the word. Returns how many these are.
pub(crate) fn copy_common<T: AsTerm>(term: &T, ids: &[u32], out: &mut [u32]) -> usize
    requires { length out.old ≡ length ids.now }
    ensures within { result ≤ length out.new }
    ensures ids { take result out.new ≡ filter (λ x. has x (T.its_word term.now).ids) ids.now }
{
    out.copy_from_slice(ids);
    retain_if(out, &term.ids(), true)
}

/// Adds one to the numbers of the ids that are among these, which are in the same order.
fn add_common(common: &[u32], ids: &[u32], counts: &mut [usize])
    requires room { length ids.now ≤ length counts.old }
    requires small { (k : ℕ) → k < length ids.now → slice_index counts.old k < 2 ^ 32 }
    ensures { (xs : List ℕ) (k : ℕ) → common.now ≡ filter (λ x. has x xs) ids.now → k < length ids.now
        → slice_index counts.new k ≡ slice_index counts.old k + (if has (slice_index ids.now k) xs then 1 else 0) }
{
    let mut next = 0;
    for index in 0..ids.len() {
        let more = is_next(common, next, ids[index]);
        counts[index] += more;
        next += more;
    }
}

/// 1 if the id is at an index, else 0.
#[inline(always)]
pub(crate) fn is_next(common: &[u32], next: usize, id: u32) -> usize
    ensures small { result ≤ 1 }
    ensures there { result ≡ 1 → (next < length common.now) × (slice_index common.now next ≡ id) }
    ensures lacking { result ≡ 0 → next < length common.now → slice_index common.now next ≢ id }
{
    if next < common.len() && common[next] == id {
        1
    } else {
        0
    }
}
