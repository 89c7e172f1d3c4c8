//! A wide set, read without decoding all of it. It is zero-copy: it borrows its bytes.
//!
//! FORMAT.md, "Wide sets": byte 0 is 8 if the set is in words, and 9 if it is spread out.

ghost use Rattle.std.specs.Prelude.{◌≡◌};
ghost use Rattle.bitpacking.specs.Bits.{AreBytes};
ghost use Rattle.bitpack_wide.specs.Stated.{States};

use crate::form::Form;
use crate::opening::{Parts, read_parts, test_encoding};
use crate::wide_error::WideError;
use bitpack_sets::IdSet;

/// A set of ids of 64 bits. Its bytes were tested when it was opened: reading it tests nothing again and cannot fail.
#[derive(Clone, Copy)]
pub struct WideSet<'a> {
    pub(crate) bytes: &'a [u8],
    pub(crate) count: usize,
    pub(crate) words: usize,
    // What is after the counts.
    pub(crate) rest: &'a [u8],
    ghost are_bytes: { AreBytes bytes.now },
    ghost states: { States bytes.now count words rest.now },
}

impl<'a> WideSet<'a> {
    ghost use Rattle.std.specs.Prelude.{◌↔◌, ◌-◌, ◌<◌, ◌≤◌, ◌++◌, IsTrue, [], drop, length, min, take, IfOk, IfSome, None, slice_get, slice_index};
    ghost use Rattle.bitpack_groups.specs.Faults.{FindsFault};
    ghost use Rattle.bitpack_slices.specs.Reads.{has, rank};
    ghost use Rattle.bitpack_wide.specs.Faults.{fault};
    ghost use Rattle.bitpack_wide.specs.Forms.{Seeks};
    ghost use Rattle.bitpack_sets.specs.Opened as opened_sets;
    ghost use Rattle.bitpack_wide.specs.Opened.{encoding_of, ids, lows_of};
    ghost use Rattle.bitpack_wide.specs.Wide.{IsWide, encoding};

    /// Opens an encoded wide set. Tests all bytes, accepts any, and allocates nothing.
    pub fn open(bytes: &'a [u8]) -> Result<WideSet<'a>, WideError>
        // Bytes with a fault are refused for the first, and bytes without one are opened.
        // claim: wide/1 opens exactly a wide set's bytes, as that set; names others' first fault
        ensures fault { FindsFault result (fault bytes.now) }
        ensures bytes { IfOk result (λ set. encoding_of set ≡ bytes.now) }
        // The bytes are the encoding of these ids.
        ensures set { IfOk result (λ set. IsWide (ids set)) }
        ensures encoding { IfOk result (λ set. encoding (ids set) ≡ bytes.now) }
    {
        let parts = test_encoding(bytes)?;
        Ok(WideSet {
            bytes,
            count: parts.count,
            words: parts.words,
            rest: parts.rest,
        })
    }

    /// The set whose bytes were opened before: they are not tested again. It is for a caller who stores only the bytes of sets that were
    /// opened.
    pub fn of_tested(bytes: &'a [u8]) -> WideSet<'a>
        // claim: wide/2 as `sets/11`
        requires sound { fault bytes.now ≡ None }
        ensures bytes { encoding_of result ≡ bytes.now }
        ensures set { IsWide (ids result) }
        ensures encoding { encoding (ids result) ≡ bytes.now }
    {
        WideSet::from_parts(bytes, read_parts(bytes))
    }

    /// The set of these bytes, by the parts that [`parts`](WideSet::parts) returned of it. Reads none of the bytes.
    pub fn from_parts(bytes: &'a [u8], parts: Parts<'a>) -> WideSet<'a>
        requires { States bytes.now parts.count parts.words parts.rest.now }
        ensures bytes { encoding_of result ≡ bytes.now }
        ensures set { IsWide (ids result) }
        ensures encoding { encoding (ids result) ≡ bytes.now }
    {
        WideSet {
            bytes,
            count: parts.count,
            words: parts.words,
            rest: parts.rest,
        }
    }

    /// What opening this set found.
    pub fn parts(&self) -> Parts<'a>
        ensures states { States (encoding_of self.now) result.count result.words result.rest.now }
        ensures count { result.count ≡ length (ids self.now) }
    {
        Parts {
            count: self.count,
            words: self.words,
            rest: self.rest,
        }
    }

    /// The number of ids.
    pub fn len(&self) -> usize
        ensures { result ≡ length (ids self.now) }
    {
        self.count
    }

    /// Whether there is no id.
    pub fn is_empty(&self) -> bool
        ensures { IsTrue result ↔ (ids self.now ≡ []) }
    {
        self.count == 0
    }

    /// Whether the set has this id.
    pub fn contains(&self, id: u64) -> bool
        ensures { result ≡ has id (ids self.now) }
    {
        match self.form() {
            Form::Words(directory) => directory.contains(id),
            Form::Spread(spread) => spread.contains(id),
        }
    }

    /// How many ids are below `id`. If the set has `id`, this is its position.
    pub fn rank(&self, id: u64) -> usize
        ensures { result ≡ rank id (ids self.now) }
    {
        match self.form() {
            Form::Words(directory) => directory.rank(id),
            Form::Spread(spread) => spread.rank(id),
        }
    }

    /// The id at a position, counted from 0. It is `None` exactly if `position` is not below the number of ids.
    pub fn select(&self, position: usize) -> Option<u64>
        ensures { result ≡ slice_get (ids self.now) position }
    {
        match self.form() {
            Form::Words(directory) => directory.select(position),
            Form::Spread(spread) => spread.select(position),
        }
    }

    /// The first id that is at least `target`, with its position. It is `None` exactly if all ids are below `target`.
    pub fn seek(&self, target: u64) -> Option<(usize, u64)>
        // claim: wide/3 as `sets/2-3`
        ensures { Seeks target (ids self.now) result }
    {
        match self.form() {
            Form::Words(directory) => directory.seek(target),
            Form::Spread(spread) => spread.seek(target),
        }
    }

    /// The ids with a high word, as the id set of their low words. It is `None` if the set is spread out, or has no such id.
    pub fn part(&self, high: u32) -> Option<IdSet<'a>>
        // claim: wide/7 the ids with a high word as an id set, of sets in words
        ensures ids { IfSome result (λ part. opened_sets.ids part ≡ lows_of high (ids self.now)) }
        ensures none { result ≡ None → slice_index (encoding_of self.now) 0 ≡ 8 → lows_of high (ids self.now) ≡ [] }
    {
        match self.form() {
            Form::Words(directory) => directory.part(high),
            Form::Spread(_) => None,
        }
    }

    /// Writes all ids at the start of the slice, and returns their number. Allocates nothing.
    ///
    /// Requires room for all ids. The rest of the slice is unchanged.
    pub fn copy_to(&self, out: &mut [u64]) -> usize
        requires room { length (ids self.now) ≤ length out.old }
        ensures len { result ≡ length (ids self.now) }
        ensures ids { take result out.new ≡ ids self.now }
        ensures rest { drop result out.new ≡ drop result out.old }
    {
        self.copy_range(0, out)
    }

    /// Writes the ids from a position on at the start of the slice, as many as there are and it has room for, and returns how many it wrote.
    /// It writes none if the position is not below the number of ids.
    ///
    /// The rest of the slice is unchanged. Allocates nothing, and looks only into id sets and blocks that have such ids.
    pub fn copy_range(&self, from: usize, out: &mut [u64]) -> usize
        ensures len { result ≡ min (length out.old) (length (ids self.now) - from) }
        // claim: wide/4 writes all ids, or those from a position on
        ensures ids { take result out.new ≡ take result (drop from (ids self.now)) }
        ensures rest { drop result out.new ≡ drop result out.old }
    {
        if from >= self.count {
            return 0;
        }
        let count = out.len().min(self.count - from);
        self.form().unpack_from(from, &mut out[..count]);
        count
    }
}
