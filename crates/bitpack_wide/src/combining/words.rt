//! Combines two wide sets in words, high word by high word.
//! FORMAT.md, "Wide sets".

ghost use Rattle.std.specs.Prelude.{◌≡◌, ◌⊎◌, ◌+◌, ◌^◌, ◌<◌, ◌≤◌, [], if◌then◌else◌, IfSome, length, None};
ghost use Rattle.bitpack_slices.specs.Follows.{Follow};
ghost use Rattle.bitpack_slices.specs.Operations as operations;
ghost use Rattle.bitpack_wide.specs.Combined.{answer};
ghost use Rattle.bitpack_wide.specs.Directory as directory;
ghost use Rattle.bitpack_wide.specs.Forms.{directory_ids};
ghost use Rattle.bitpack_wide.specs.inner.Merging.{Continues, ids_of_word, left_of};

use crate::directory::{Directory, count_before, high_at, sum_at};
use crate::spread::WORD;
use crate::unpacking::widen;
use bitpack_queries::{combine_count, combine_to};
use bitpack_slices::Operation;
use bitpack_slices::combined::{retains_left, retains_right};

/// Writes the ids that an operation on two sets gives, if there is room for all. Returns their number, or `None` as soon as there are more than
/// `most`.
pub(crate) fn combine_words(
    operation: Operation,
    a: Directory,
    b: Directory,
    most: usize,
    space: &mut [u32],
    out: &mut [u64],
) -> Option<usize>
    requires { length out.old ≤ length space.old }
    ensures few { IfSome result (λ count. count ≤ most) }
    ensures written { IfSome result (λ count. Follow (answer operation (directory_ids a.entry) (directory_ids b.entry)) out.old out.new 0 count) }
    ensures none { result ≡ None → most < length (answer operation (directory_ids a.entry) (directory_ids b.entry)) }
{
    let mut i = 0;
    let mut j = 0;
    let mut at = 0;
    while i < a.words || j < b.words {
        let next = combine_next(operation, a, i, b, j, space, out, at);
        at = next.0;
        i = next.1;
        j = next.2;
        if at > most {
            return None;
        }
    }
    Some(at)
}

/// Writes the ids that an operation on two sets gives of their next high word, if there is room for all. Returns the index after the last, also if
/// there is no room, and the high words after it.
fn combine_next(
    operation: Operation,
    a: Directory,
    i: usize,
    b: Directory,
    j: usize,
    space: &mut [u32],
    out: &mut [u64],
    at: usize,
) -> (usize, usize, usize)
    requires some { (i < a.words) ⊎ (j < b.words) }
    requires first { i ≤ a.words }
    requires second { j ≤ b.words }
    requires space { length out.old ≤ length space.old }
    requires start { at ≤ 2 ^ 61 }
    ensures later { at ≤ result.0 }
    ensures few { result.0 ≤ at + 2 ^ 32 }
    ensures first { result.1 ≤ a.entry.words }
    ensures second { result.2 ≤ b.entry.words }
    ensures goes_on { i + j < result.1 + result.2 }
    ensures continues { Continues (answer operation (left_of a.entry i) (left_of b.entry j)) (answer operation (left_of a.entry result.1) (left_of b.entry result.2))
        out.old out.new at result.0 }
{
    let x = a.next_high(i);
    let y = b.next_high(j);
    if x == y {
        return (
            combine_word(operation, a, i, b, j, space, out, at),
            i + 1,
            j + 1,
        );
    }
    if x < y {
        return (copy_word(retains_left(operation), a, i, out, at), i + 1, j);
    }
    (copy_word(retains_right(operation), b, j, out, at), i, j + 1)
}

impl<'a> Directory<'a> {
    /// A high word, or 2 to the power of 32 after the last.
    #[inline(always)]
    fn next_high(self, word: usize) -> u64
        ensures within { word < self.entry.words → result ≡ directory.high_at self.entry.rest.now word }
        ensures end { self.entry.words ≤ word → result ≡ 2 ^ 32 }
        ensures few { result ≤ 2 ^ 32 }
    {
        if word < self.words {
            high_at(self.words, self.rest, word) as u64
        } else {
            WORD
        }
    }
}

/// Writes the ids of a high word, if the answer has them and there is room for all. Returns the index after the last, also if there is no room.
fn copy_word(there: bool, set: Directory, word: usize, out: &mut [u64], at: usize) -> usize
    requires word { word < set.words }
    requires start { at ≤ 2 ^ 62 }
    ensures { Follow (if there then ids_of_word (directory.word_at set.entry.words set.entry.rest.now word) else []) out.old out.new at result }
{
    if !there {
        return at;
    }
    let from = count_before(set.words, set.rest, word) as usize;
    let count = sum_at(set.words, set.rest, word) as usize - from;
    let end = at + count;
    if end <= out.len() {
        set.unpack_from(from, &mut out[at..end]);
    }
    end
}

/// Writes the ids that an operation on the sets of a high word gives, if there is room for all. Returns the index after the last, also if there is
/// no room.
fn combine_word(
    operation: Operation,
    a: Directory,
    i: usize,
    b: Directory,
    j: usize,
    space: &mut [u32],
    out: &mut [u64],
    at: usize,
) -> usize
    requires first { i < a.words }
    requires second { j < b.words }
    requires space { length out.old ≤ length space.old }
    requires start { at ≤ 2 ^ 62 }
    ensures { Follow (ids_of_word (
      directory.high_at a.entry.rest.now i,
      operations.answer operation
          (directory.word_at a.entry.words a.entry.rest.now i).1 (directory.word_at b.entry.words b.entry.rest.now j).1,
    )) out.old out.new at result }
{
    let x = a.set(i);
    let y = b.set(j);
    if at < out.len() {
        let room = out.len() - at;
        if let Ok(count) = combine_to(operation, &x, &y, &mut space[..room]) {
            let high = high_at(a.words, a.rest, i);
            widen(high, &space[..count], &mut out[at..at + count]);
            return at + count;
        }
    }
    at + combine_count(operation, &x, &y)
}
