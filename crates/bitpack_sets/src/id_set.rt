//! An id set, read without decoding all of it. It is zero-copy: it borrows its bytes.
//!
//! FORMAT.md, "Id sets": byte 0 is 128 + n below 128 ids, 6 in an array, and 5 in chunks.

ghost use Rattle.std.specs.Prelude.{◌≡◌, ◌≤◌};
ghost use Rattle.bitpacking.specs.Bits.{AreBytes};
ghost use Rattle.bitpack_sets.specs.Stated.{States};

use crate::array::{in_array, rank_in_array, seek_in_array, unpack_array};
use crate::chunks::Chunks;
use crate::cursor::Cursor;
use crate::few::MOST_FEW;
use crate::form::Form;
use crate::ids::Ids;
use crate::opening::{Parts, read_parts, test_encoding};
use crate::reserved::append_zeros;
use bitpack_slices::SetError;
use bitpack_slices::integers::id_at;

/// The most bytes that the ids of a set of few take as an array.
pub const ROOM: usize = 4 * MOST_FEW;

/// A set of ids. Its bytes were tested when it was opened: reading it tests nothing again and cannot fail.
#[derive(Clone, Copy)]
pub struct IdSet<'a> {
    pub(crate) bytes: &'a [u8],
    pub(crate) count: usize,
    pub(crate) chunks: usize,
    // What is after the counts.
    pub(crate) rest: &'a [u8],
    ghost are_bytes: { AreBytes bytes.now },
    ghost states: { States bytes.now count chunks rest.now },
}

impl<'a> IdSet<'a> {
    ghost use Rattle.std.specs.Prelude.{◌↔◌, ◌^◌, ◌+◌, ◌<◌, ◌++◌, IsTrue, [], drop, length, take, vec_capacity, vec_len, IfErr, IfOk, None, OnErr, OnOk, ◌-◌, min, IfSome, IsNone, MatchOption, false, Some, slice_get, slice_index};
    ghost use Rattle.bitpack_sets.specs.Chunks.{ids_from, positions};
    ghost use Rattle.bitpack_slices.specs.Errors.{Finds};
    ghost use Rattle.bitpack_sets.specs.Faults.{fault};
    ghost use Rattle.bitpack_sets.specs.Opened.{encoding_of, ids};
    ghost use Rattle.bitpack_slices.specs.Reads.{has, rank};
    ghost use Rattle.bitpack_sets.specs.Rooms.{StoresFew};
    ghost use Rattle.bitpack_sets.specs.Sets.{IsSet, encoding};
    ghost use Rattle.bitpack_sets.specs.Written.{places};

    /// Opens an encoded set. Tests all bytes, accepts any, and allocates nothing.
    pub fn open(bytes: &'a [u8]) -> Result<IdSet<'a>, SetError>
        // Bytes with a fault are refused for the first, and bytes without one are opened.
        // claim: sets/1 opens exactly a set's bytes, as that set; names others' first fault
        ensures fault { Finds result (fault bytes.now) }
        ensures bytes { IfOk result (λ set. encoding_of set ≡ bytes.now) }
        // The bytes are the encoding of these ids.
        ensures set { IfOk result (λ set. IsSet (ids set)) }
        ensures encoding { IfOk result (λ set. encoding (ids set) ≡ bytes.now) }
    {
        let parts = test_encoding(bytes)?;
        Ok(IdSet {
            bytes,
            count: parts.count,
            chunks: parts.chunks,
            rest: parts.rest,
        })
    }

    /// The set whose bytes were opened before: they are not tested again. It is for a caller who stores only the bytes of sets that were
    /// opened.
    #[inline(always)]
    pub fn of_tested(bytes: &'a [u8]) -> IdSet<'a>
        // claim: sets/11 `of_tested` and `from_parts` open bytes that are required to be valid, without a test
        requires sound { fault bytes.now ≡ None }
        ensures bytes { encoding_of result ≡ bytes.now }
        ensures set { IsSet (ids result) }
        ensures encoding { encoding (ids result) ≡ bytes.now }
    {
        IdSet::from_parts(bytes, read_parts(bytes))
    }

    /// The set of these bytes, by the parts that [`parts`](IdSet::parts) returned of it. Reads none of the bytes.
    #[inline(always)]
    pub fn from_parts(bytes: &'a [u8], parts: Parts<'a>) -> IdSet<'a>
        requires { States bytes.now parts.count parts.chunks parts.rest.now }
        ensures bytes { encoding_of result ≡ bytes.now }
        ensures set { IsSet (ids result) }
        ensures encoding { encoding (ids result) ≡ bytes.now }
    {
        IdSet {
            bytes,
            count: parts.count,
            chunks: parts.chunks,
            rest: parts.rest,
        }
    }

    /// What opening this set found.
    pub fn parts(&self) -> Parts<'a>
        ensures states { States (encoding_of self.now) result.count result.chunks result.rest.now }
        ensures count { result.count ≡ length (ids self.now) }
    {
        Parts {
            count: self.count,
            chunks: self.chunks,
            rest: self.rest,
        }
    }

    /// The number of ids.
    pub fn len(&self) -> usize
        ensures { result ≡ length (ids self.now) }
    {
        self.count
    }

    /// How many chunks a set in chunks has, or how many ids another set.
    pub fn places(&self) -> usize
        ensures places { result ≡ places (ids self.now) }
        ensures few { result ≤ 2 ^ 28 }
    {
        match self.form() {
            Form::Chunks(directory) => directory.chunks,
            _ => self.count,
        }
    }

    /// Whether there is no id.
    pub fn is_empty(&self) -> bool
        ensures { IsTrue result ↔ (ids self.now ≡ []) }
    {
        self.count == 0
    }

    /// Whether the set has this id.
    pub fn contains(&self, id: u32) -> bool
        ensures { result ≡ has id (ids self.now) }
    {
        match self.form() {
            Form::Few(few) => few.contains(id),
            Form::Array(ids) => in_array(ids, id),
            Form::Chunks(directory) => directory.contains(id),
        }
    }

    /// How many ids are below `id`. If the set has `id`, this is its position.
    pub fn rank(&self, id: u32) -> usize
        ensures { result ≡ rank id (ids self.now) }
    {
        match self.form() {
            Form::Few(few) => few.rank(id),
            Form::Array(ids) => rank_in_array(ids, id),
            Form::Chunks(directory) => directory.rank(id),
        }
    }

    /// The id at a position, counted from 0. It is `None` exactly if `position` is not below the number of ids.
    pub fn select(&self, position: usize) -> Option<u32>
        ensures { result ≡ slice_get (ids self.now) position }
    {
        if position >= self.len() {
            return None;
        }
        Some(self.at(position))
    }

    /// The first id that is at least `target`, with its position. It is `None` exactly if all ids are below `target`.
    pub fn seek(&self, target: u32) -> Option<(usize, u32)>
        // claim: sets/2-3 `len`, `contains`, `rank` below an id, `select` by position, the first id from a number on
        ensures found { MatchOption result (rank target (ids self.now) ≡ length (ids self.now))
            (λ found. (found.0 ≡ rank target (ids self.now)) × (slice_get (ids self.now) found.0 ≡ Some found.1)) }
        ensures least { IfSome result (λ found. target ≤ found.1) }
    {
        let (position, id) = self.place_of(target);
        match id {
            Some(id) => Some((position, id)),
            None => None,
        }
    }

    /// How many ids are below `target`, and the first that is not, if there is one.
    pub(crate) fn place_of(&self, target: u32) -> (usize, Option<u32>)
        ensures rank { result.0 ≡ rank target (ids self.now) }
        ensures first { result.1 ≡ slice_get (ids self.now) result.0 }
    {
        match self.form() {
            Form::Few(few) => few.seek(target),
            Form::Array(ids) => seek_in_array(ids, target),
            Form::Chunks(directory) => directory.seek(target),
        }
    }

    /// An iterator over the ids, in increasing order.
    // claim: sets/12 an iterator returns each id once, in increasing order
    pub fn iter(&self) -> Ids<'a>
        // All ids are left.
        ensures { drop result.window.next (ids result.set) ≡ ids self.now }
    {
        Ids::new(*self)
    }

    /// A cursor at the first id.
    pub fn cursor(&self) -> Cursor<'a>
        ensures set { ids result.set ≡ ids self.now }
        ensures position { result.position ≡ 0 }
    {
        Cursor::new(*self)
    }

    /// The last id, or 0 if there is none.
    pub(crate) fn last(&self) -> u32
        ensures set { IsSet (ids self.now) }
        ensures last { 0 < length (ids self.now) → slice_index (ids self.now) (length (ids self.now) - 1) ≡ result }
    {
        if self.count == 0 {
            return 0;
        }
        self.at(self.count - 1)
    }

    fn at(&self, position: usize) -> u32
        requires { position < length (ids self.now) }
        ensures { result ≡ slice_index (ids self.now) position }
    {
        match self.form() {
            Form::Few(few) => few.select(position),
            Form::Array(ids) => id_at(ids, position),
            Form::Chunks(directory) => directory.select(position),
        }
    }

    /// Appends all ids.
    ///
    /// Fails only with `Memory`, if the vector cannot grow by the number of ids.
    pub fn append_to(&self, out: &mut Vec<u32>) -> Result<(), SetError>
        ensures ok { OnOk result (out.new.items ≡ out.old.items ++ ids self.now) }
        ensures memory { IfErr result (λ e. e ≡ SetError.Memory) }
        ensures room { OnErr result (vec_capacity out.old < vec_len out.old + length (ids self.now)) }
        ensures unchanged { OnErr result (out.new.items ≡ out.old.items) }
        ensures capacity { OnErr result (vec_capacity out.new ≡ vec_capacity out.old) }
    {
        let from = out.len();
        let count = self.len();
        if out.reserve(count).is_err() {
            return Err(SetError::Memory);
        }
        append_zeros(out, count);
        self.copy_to(out.slice_mut(from..));
        Ok(())
    }

    /// Writes all ids at the start of the slice, and returns their number. Allocates nothing.
    ///
    /// Requires room for all ids. The rest of the slice is unchanged.
    pub fn copy_to(&self, out: &mut [u32]) -> usize
        requires room { length (ids self.now) ≤ length out.old }
        ensures len { result ≡ length (ids self.now) }
        ensures ids { take result out.new ≡ ids self.now }
        ensures rest { drop result out.new ≡ drop result out.old }
    {
        let count = self.len();
        self.unpack(&mut out[..count]);
        count
    }

    /// Writes the ids of a set of few into its room. Other sets need none.
    pub(crate) fn fill(&self, room: &mut [u8; ROOM])
        ensures { StoresFew self.now room.new }
    {
        if let Form::Few(few) = self.form() {
            few.unpack_bytes(&mut room[..4 * few.count]);
        }
    }

    /// The chunks of the set. Its room was filled before.
    pub(crate) fn filled_chunks<'b>(&'b self, room: &'b [u8; ROOM]) -> Chunks<'b>
        requires { StoresFew self.now room.now }
        ensures ids { ids_from result 0 ≡ ids self.now }
        ensures places { positions result ≡ places (ids self.now) }
    {
        match self.form() {
            Form::Few(few) => Chunks::of_array(&room[..4 * few.count]),
            Form::Array(ids) => Chunks::of_array(ids),
            Form::Chunks(directory) => Chunks::new(directory),
        }
    }

    /// Writes the ids from a position on at the start of the slice, as many as there are and it has room for, and returns how many it wrote.
    /// It writes none if the position is not below the number of ids.
    ///
    /// The rest of the slice is unchanged. Allocates nothing, and looks only into bodies that have such ids.
    pub fn copy_range(&self, from: usize, out: &mut [u32]) -> usize
        ensures len { result ≡ min (length out.old) (length (ids self.now) - from) }
        // claim: sets/4 appends all ids (memory rule), or writes those from a position on
        ensures ids { take result out.new ≡ take result (drop from (ids self.now)) }
        ensures rest { drop result out.new ≡ drop result out.old }
    {
        if from >= self.len() {
            return 0;
        }
        let count = out.len().min(self.len() - from);
        self.unpack_from(from, &mut out[..count]);
        count
    }

    pub(crate) fn unpack_from(&self, from: usize, out: &mut [u32])
        requires begin { from < length (ids self.now) }
        requires within { from + length out.old ≤ length (ids self.now) }
        ensures { out.new ≡ take (length out.old) (drop from (ids self.now)) }
    {
        match self.form() {
            Form::Few(few) => few.unpack_from(from, out),
            Form::Array(ids) => unpack_array(&ids[4 * from..4 * (from + out.len())], out),
            Form::Chunks(directory) => directory.unpack_from(from, out),
        }
    }

    // Unpacks each body once.
    fn unpack(&self, out: &mut [u32])
        requires room { length out.old ≡ length (ids self.now) }
        ensures { out.new ≡ ids self.now }
    {
        match self.form() {
            Form::Few(few) => few.unpack(out),
            Form::Array(ids) => unpack_array(ids, out),
            Form::Chunks(directory) => directory.unpack(out),
        }
    }
}
