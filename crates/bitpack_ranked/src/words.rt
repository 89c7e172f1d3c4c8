//! How many words a document has, and what words add to a score at most.

ghost use Rattle.std.specs.Prelude.{◌≡◌, ◌+◌, ◌-◌, ◌*◌, ◌^◌, ◌≤◌, if◌then◌else◌, length, map};
ghost use Rattle.std.specs.List.{count_by};
ghost use Rattle.bitpack_ranked.specs.Ranked.{has_word};
ghost use Rattle.bitpack_ranked.specs.inner.Walks.{most_rest};

use crate::as_term::AsTerm;

/// A bound of what words add to the score of a document.
pub(crate) fn rest_of<T: AsTerm>(terms: &[T]) -> u64
    requires few { length terms.now ≤ 2 ^ 31 }
    ensures rest { result ≡ most_rest (map T.its_word terms.now) }
    ensures small { result ≤ (2 ^ 32 - 1) * length terms.now }
{
    let mut rest = 0;
    for index in 0..terms.len() {
        rest += terms[index].parts().greatest() as u64;
    }
    rest
}

/// How many of the words a document has.
pub(crate) fn count_words<T: AsTerm>(terms: &[T], id: u32) -> usize
    requires few { length terms.now ≤ 2 ^ 31 }
    ensures { result ≡ count_by (has_word id) (map T.its_word terms.now) }
{
    let mut words = 0;
    for index in 0..terms.len() {
        words += count_word(&terms[index], id);
    }
    words
}

/// 1 if a document has the word, else 0.
fn count_word<T: AsTerm>(term: &T, id: u32) -> usize
    ensures { result ≡ (if has_word id (T.its_word term.now) then 1 else 0) }
{
    if term.ids().contains(id) { 1 } else { 0 }
}
