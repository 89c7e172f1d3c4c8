//! The best of given documents, of up to 128 at once.

ghost use Rattle.std.specs.Prelude.{◌≡◌, ℕ, Bool, false, ◌||◌, ◌^◌, ◌<◌, ◌≤◌, Err, IfOk, IsOk, MatchOption, OnErr, length, map, slice_index, take, true};
ghost use Rattle.std.specs.List.Sorted.{IsStrictlyIncreasing};
ghost use Rattle.bitpack_slices.specs.Reads.{has};
ghost use Rattle.bitpack_slices.specs.Slices.{first_fall};
ghost use Rattle.bitpack_ranked.specs.Ranked.{AreBest, IsAmong, IsScored};

use crate::as_term::AsTerm;
use crate::bounds::bound_all;
use crate::candidates::Candidates;
use crate::found::Scored;
use crate::walk::BLOCK;
use bitpack_sets::first_unsorted;

/// Writes the best of given documents, the best of them first, as many as there is room for. Returns how many these are. A scan of all would find
/// the same.
///
/// Scores, classes and the order are as in [`best`](crate::best). A document that has none of the words has score 0. The documents may be the
/// answer to any query. Allocates nothing.
///
/// Fails with the position of the first document that is not above the one before it. If it fails, nothing is written.
pub fn best_among<T: AsTerm>(
    documents: &[u32],
    terms: &[T],
    classes: &[u8],
    found: &mut [Scored],
) -> Result<usize, usize>
    requires few { length terms.now ≤ 2 ^ 31 }
    ensures fault { MatchOption (first_fall 0 documents.now) (IsOk result) (λ position. result ≡ Err position) }
    ensures len { IfOk result (λ len. len ≤ length found.old) }
    // claim: ranked/4 writes the best of given increasing documents, as a scan does; one with none of the words has score 0; refuses the
    //   first out of order
    ensures best { IfOk result (λ len. AreBest (IsAmong documents.now (map T.its_word terms.now) classes.now) (length found.old) (take len found.new)) }
    ensures unchanged { OnErr result (found.new ≡ found.old) }
{
    match first_unsorted(documents) {
        Some(position) => Err(position),
        None => Ok(pass_all(documents, terms, classes, found)),
    }
}

/// Puts increasing documents among the best.
fn pass_all<T: AsTerm>(
    documents: &[u32],
    terms: &[T],
    classes: &[u8],
    found: &mut [Scored],
) -> usize
    requires few { length terms.now ≤ 2 ^ 31 }
    requires rises { first_fall 0 documents.now ≡ None }
    ensures len { result ≤ length found.old }
    ensures best { AreBest (IsAmong documents.now (map T.its_word terms.now) classes.now) (length found.old) (take result found.new) }
{
    let mut len = 0;
    for block in 0..documents.len().div_ceil(BLOCK) {
        let from = BLOCK * block;
        let count = BLOCK.min(documents.len() - from);
        len = pass_some(&documents[from..from + count], terms, classes, found, len);
    }
    len
}

/// Puts up to 128 more documents among the best.
pub(crate) fn pass_some<T: AsTerm>(
    documents: &[u32],
    terms: &[T],
    classes: &[u8],
    found: &mut [Scored],
    len: usize,
) -> usize
    requires few { length terms.now ≤ 2 ^ 31 }
    requires short { length documents.now ≤ 128 }
    requires increasing { IsStrictlyIncreasing documents.now }
    requires len { len ≤ length found.old }
    ensures len { result ≤ length found.old }
    ensures best { (test : ℕ → Bool) → ((id : ℕ) → has id documents.now ≡ true → test id ≡ false)
        → AreBest (IsScored test (map T.its_word terms.now) classes.now) (length found.old) (take len found.old)
        → AreBest (IsScored (λ id. test id || has id documents.now) (map T.its_word terms.now) classes.now) (length found.old) (take result found.new) }
{
    let mut candidates = copy(documents);
    let mut bounds = [0; 128];
    bound_all(terms, documents, classes, &mut bounds);
    candidates.retain_bounded(&bounds, found, len);
    candidates.rank(&terms[..0], terms, classes, found, len)
}

/// Documents as candidates, of whose scores nothing is added up.
fn copy(documents: &[u32]) -> Candidates
    requires { length documents.now ≤ 128 }
    ensures len { result.len ≡ length documents.now }
    ensures ids { take result.len result.ids ≡ documents.now }
    ensures scores { (k : ℕ) → k < result.len → slice_index result.scores k ≡ 0 }
{
    let mut ids = [0; 128];
    ids[..documents.len()].copy_from_slice(documents);
    Candidates {
        ids,
        scores: [0; 128],
        len: documents.len(),
    }
}
