//! Tests the directory and the id sets of a wide set in words.
//! FORMAT.md, "Faults of a wide set".

ghost use Rattle.std.specs.Prelude.{◌≡◌, ℕ, ◌≤◌, ◌<◌, ◌^◌, ◌*◌, ◌&&◌, ◌==◌, is_none, length};
ghost use Rattle.bitpack_groups.specs.Faults.{FindsFault};
ghost use Rattle.bitpack_sets.specs.Faults as set_faults;
ghost use Rattle.bitpack_sets.specs.Reads as set_reads;
ghost use Rattle.bitpack_wide.specs.Directory.{bodies_end};
ghost use Rattle.bitpack_wide.specs.Faults.{body_fault, first_of, words_fault};
ghost use Rattle.bitpack_wide.specs.Sound.{HasDirectory, IsEntry};

use crate::directory::{
    begin_at, bodies_start, count_before, end_at, sum_at, test_entries, test_least, test_sizes,
};
use crate::wide_error::WideError;
use bitpack_sets::IdSet;

/// Tests the directory and the id sets of a wide set of `count` ids with `words` high words.
#[tactic(auto, unfolding(crate::specs::Faults::words_fault))]
pub(crate) fn test_words(count: usize, words: usize, rest: &[u8]) -> Result<(), WideError>
    requires count { count ≤ 2 ^ 28 }
    requires some { 1 ≤ words }
    requires few { 8 * words ≤ count }
    ensures { FindsFault result (words_fault count words rest.now) }
{
    test_sizes(rest)?;
    let start = bodies_start(words, rest);
    if rest.len() < start {
        return Err(WideError::Short);
    }
    test_entries(count, words, rest)?;
    test_least(count, words, rest)?;
    let end = start + begin_at(words, rest, words) as usize;
    if rest.len() < end {
        return Err(WideError::Short);
    }
    test_bodies(count, words, rest)?;
    if rest.len() > end {
        return Err(WideError::Trailing);
    }
    Ok(())
}

/// Tests the id set of each high word.
fn test_bodies(count: usize, words: usize, rest: &[u8]) -> Result<(), WideError>
    requires few { words ≤ 2 ^ 28 }
    requires directory { HasDirectory words rest.now }
    requires entries { (m : ℕ) → m < words → IsEntry count words rest.now m }
    requires room { bodies_end words rest.now ≤ length rest.now }
    ensures { FindsFault result (first_of (body_fault words rest.now) words) }
{
    for word in 0..words {
        test_body(count, words, rest, word)?;
    }
    Ok(())
}

/// Tests the id set of a high word.
#[tactic(auto, unfolding(crate::specs::Faults::body_fault))]
fn test_body(count: usize, words: usize, rest: &[u8], word: usize) -> Result<(), WideError>
    requires few { words ≤ 2 ^ 28 }
    requires within { word < words }
    requires directory { HasDirectory words rest.now }
    requires entries { (m : ℕ) → m < words → IsEntry count words rest.now m }
    requires room { bodies_end words rest.now ≤ length rest.now }
    ensures { FindsFault result (body_fault words rest.now word) }
{
    let start = bodies_start(words, rest);
    let begin = begin_at(words, rest, word) as usize;
    let end = end_at(words, rest, word) as usize;
    let own = (sum_at(words, rest, word) - count_before(words, rest, word)) as usize;
    if is_set(own, &rest[start + begin..start + end]) {
        return Ok(());
    }
    Err(WideError::BadBody(word))
}

/// Whether the bytes are an id set of this many ids.
fn is_set(count: usize, bytes: &[u8]) -> bool
    ensures { result ≡ (is_none (set_faults.fault bytes.now) && (length (set_reads.ids_in bytes.now) == count)) }
{
    match IdSet::open(bytes) {
        Ok(set) => set.len() == count,
        Err(_) => false,
    }
}
