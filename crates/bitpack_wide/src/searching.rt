//! Looks ids up in wide sets in words.
//! FORMAT.md, "Wide sets".

ghost use Rattle.std.specs.Prelude.{◌≡◌, ◌+◌, ◌*◌, ◌/◌, ◌%◌, ◌^◌, ◌<◌, ◌≤◌, IfSome, None, [], drop, length, slice_get, slice_index, take};
ghost use Rattle.bitpack_sets.specs.Opened as opened_sets;
ghost use Rattle.bitpack_sets.specs.Reads as set_reads;
ghost use Rattle.bitpack_slices.specs.Reads.{has, rank};
ghost use Rattle.bitpack_slices.specs.Slices.{quads_of};
ghost use Rattle.bitpack_wide.specs.Directory as directory;
ghost use Rattle.bitpack_wide.specs.Directory.{before, body_at, count_at};
ghost use Rattle.bitpack_wide.specs.Forms.{Seeks, directory_ids, placed};
ghost use Rattle.bitpack_wide.specs.Opened.{lows_of};

use crate::directory::{Directory, begin_at, bodies_start, count_before, end_at, high_at};
use crate::spread::{WORD, id_of};
use bitpack_sets::IdSet;
use bitpack_sets::array::rank_in_array;
use bitpack_slices::integers::id_at;

impl<'a> Directory<'a> {
    /// How many high words are below one, and whether the set has this one.
    #[inline(always)]
    pub(crate) fn find(self, high: u32) -> (usize, bool)
        ensures few { result.0 ≤ self.entry.words }
        ensures word { result.0 ≡ rank high (quads_of (take (4 * self.entry.words) (drop 1 self.entry.rest.now))) }
        ensures there { result.1 ≡ has high (quads_of (take (4 * self.entry.words) (drop 1 self.entry.rest.now))) }
    {
        let highs = &self.rest[1..1 + 4 * self.words];
        let word = rank_in_array(highs, high);
        if word >= self.words {
            return (word, false);
        }
        (word, id_at(highs, word) == high)
    }

    /// The id set of the low words of the ids with a high word, if there are any.
    #[inline(always)]
    pub(crate) fn part(self, high: u32) -> Option<IdSet<'a>>
        ensures ids { IfSome result (λ part. opened_sets.ids part ≡ lows_of high (directory_ids self.entry)) }
        ensures none { result ≡ None → lows_of high (directory_ids self.entry) ≡ [] }
    {
        let (word, there) = self.find(high);
        if !there {
            return None;
        }
        Some(self.set(word))
    }

    /// Whether the set has this id.
    #[inline(always)]
    pub(crate) fn contains(self, id: u64) -> bool
        ensures { result ≡ has id (directory_ids self.entry) }
    {
        let (word, there) = self.find((id / WORD) as u32);
        if !there {
            return false;
        }
        self.set(word).contains((id % WORD) as u32)
    }

    /// How many ids are below `id`.
    #[inline(always)]
    pub(crate) fn rank(self, id: u64) -> usize
        ensures { result ≡ rank id (directory_ids self.entry) }
    {
        let (word, there) = self.find((id / WORD) as u32);
        let before = count_before(self.words, self.rest, word) as usize;
        if !there {
            return before;
        }
        before + self.set(word).rank((id % WORD) as u32)
    }

    /// The first id that is at least `target`, with its position.
    #[inline(always)]
    pub(crate) fn seek(self, target: u64) -> Option<(usize, u64)>
        ensures { Seeks target (directory_ids self.entry) result }
    {
        let high = (target / WORD) as u32;
        let (word, there) = self.find(high);
        if !there {
            return self.first_at(word);
        }
        match self.set(word).seek((target % WORD) as u32) {
            Some((left, low)) => {
                let before = count_before(self.words, self.rest, word) as usize;
                Some((before + left, id_of(high, low)))
            }
            None => self.first_at(word + 1),
        }
    }

    /// The first id of a high word, with its position, if there is such a high word.
    fn first_at(self, word: usize) -> Option<(usize, u64)>
        requires within { word ≤ self.words }
        ensures { result ≡ placed (before (directory.sum_at self.entry.words self.entry.rest.now) word) (directory_ids self.entry) }
    {
        if word >= self.words {
            return None;
        }
        let position = count_before(self.words, self.rest, word) as usize;
        let low = self.set(word).select(0).unwrap();
        Some((position, id_of(high_at(self.words, self.rest, word), low)))
    }

    /// The id at a position.
    #[inline(always)]
    pub(crate) fn select(self, position: usize) -> Option<u64>
        ensures { result ≡ slice_get (directory_ids self.entry) position }
    {
        if position >= self.count {
            return None;
        }
        let word = self.word_of(position);
        let left = position - count_before(self.words, self.rest, word) as usize;
        let low = self.set(word).select(left).unwrap();
        Some(id_of(high_at(self.words, self.rest, word), low))
    }

    /// The high word of the id at a position, by halves.
    #[inline(always)]
    pub(crate) fn word_of(self, position: usize) -> usize
        requires within { position < self.count }
        ensures word { result < self.entry.words }
        ensures from { before (directory.sum_at self.entry.words self.entry.rest.now) result ≤ position }
        ensures below { position < directory.sum_at self.entry.words self.entry.rest.now result }
    {
        let mut word = 0;
        let mut left = self.words;
        while left > 1 {
            let half = left / 2;
            if count_before(self.words, self.rest, word + half) as usize <= position {
                word += half;
                left -= half;
            } else {
                left = half;
            }
        }
        word
    }

    /// The id set of the low words of a high word.
    #[inline(always)]
    pub(crate) fn set(self, word: usize) -> IdSet<'a>
        requires within { word < self.words }
        ensures ids { opened_sets.ids result ≡ set_reads.ids_in (body_at self.entry.words self.entry.rest.now word) }
        ensures count { length (opened_sets.ids result) ≡ count_at self.entry.words self.entry.rest.now word }
    {
        IdSet::of_tested(self.body(word))
    }

    /// Its bytes.
    #[inline(always)]
    fn body(self, word: usize) -> &'a [u8]
        requires within { word < self.words }
        ensures { result.now ≡ body_at self.entry.words self.entry.rest.now word }
    {
        let start = bodies_start(self.words, self.rest);
        let begin = begin_at(self.words, self.rest, word) as usize;
        let end = end_at(self.words, self.rest, word) as usize;
        &self.rest[start + begin..start + end]
    }
}
