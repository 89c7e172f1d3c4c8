//! Sets of fewer than 128 ids: the first id as a number, and groups of the differences of the others.
//!
//! FORMAT.md, "Fewer than 128 ids":
//!
//! ```text
//! 128 + n | first, a varint | groups of n - 1 codes: an id less the one before it, less 1
//! ```

ghost use Rattle.std.specs.Prelude.{◌≡◌, ℕ, ◌+◌, ◌*◌, ◌^◌, ◌<◌, ◌≤◌, IfOk, OnOk, length, None, Option, drop, slice_get, slice_index, take};
ghost use Rattle.bitpack_slices.specs.Reads.{has, rank};
ghost use Rattle.bitpack_sets.specs.Reads.{few_ids};
ghost use Rattle.bitpack_slices.specs.Errors.{Finds};
ghost use Rattle.bitpack_sets.specs.Faults.{ids_from, short_fault, some_fault};
ghost use Rattle.bitpack_slices.specs.Slices.{quads_of};
ghost use Rattle.bitpack_sets.specs.Varints.{after_groups, groups_codes, groups_fault, groups_of, of};

use crate::varints::{open_group, open_number};
use bitpack_groups::{LONGEST_GROUP, next_len, unpack_groups, unpack_number};
use bitpack_slices::SetError;
use bitpack_slices::integers::write_integers;

/// The most ids of such a set.
pub const MOST_FEW: usize = 127;

/// Tests what is after byte 0 of the encoding of `count` ids.
pub(crate) fn test_few(count: usize, bytes: &[u8]) -> Result<(), SetError>
    requires few { count ≤ MOST_FEW }
    ensures { Finds result (short_fault count bytes.now) }
{
    if count == 0 {
        return test_end(bytes);
    }
    test_some(count - 1, bytes)
}

/// Tests what is after byte 0 of the encoding of one id and `more`.
#[tactic(auto, unfolding(crate::specs::Faults::some_fault))]
fn test_some(more: usize, bytes: &[u8]) -> Result<(), SetError>
    requires few { more < MOST_FEW }
    ensures { Finds result (some_fault more bytes.now) }
{
    let (first, end) = open_number(bytes)?;
    let mut codes = [0; MOST_FEW];
    let codes = &mut codes[..more];
    let rest = test_groups(&bytes[end..], codes)?;
    if let Some(position) = first_over(first, codes) {
        return Err(SetError::NotSorted(position));
    }
    test_end(rest)
}

/// The bytes after byte 0 of a set of fewer than 128 ids. They were tested.
#[derive(Clone, Copy)]
pub struct Few<'a> {
    pub(crate) count: usize,
    pub(crate) bytes: &'a [u8],
    ghost few: { count ≤ 127 },
    ghost sound: { short_fault count bytes.now ≡ None },
}

impl<'a> Few<'a> {
    ghost use Rattle.bitpack_sets.specs.Forms.{ids_of_few};

    /// Writes all ids.
    pub(crate) fn unpack(self, out: &mut [u32])
        requires room { length out.old ≡ self.count }
        ensures { out.new ≡ ids_of_few self.entry }
    {
        if out.is_empty() {
            return;
        }
        let mut codes = [0; MOST_FEW];
        unpack_some(self.bytes, &mut codes[..out.len() - 1], out);
    }

    /// Writes all ids, four bytes for each.
    pub(crate) fn unpack_bytes(self, out: &mut [u8])
        requires room { length out.old ≡ 4 * self.count }
        ensures { quads_of out.new ≡ ids_of_few self.entry }
    {
        let mut ids = [0; MOST_FEW];
        let ids = &mut ids[..self.count];
        self.unpack(ids);
        write_integers(4, ids, out);
    }

    /// Writes the ids from a position on, as many as there is room for.
    pub(crate) fn unpack_from(self, from: usize, out: &mut [u32])
        requires within { from + length out.old ≤ self.count }
        ensures { out.new ≡ take (length out.old) (drop from (ids_of_few self.entry)) }
    {
        if out.len() == self.count {
            self.unpack(out);
            return;
        }
        let mut ids = [0; MOST_FEW];
        let ids = &mut ids[..self.count];
        self.unpack(ids);
        out.copy_from_slice(&ids[from..from + out.len()]);
    }

    /// Whether the set has this id.
    pub(crate) fn contains(self, id: u32) -> bool
        ensures { result ≡ has id (ids_of_few self.entry) }
    {
        let mut ids = [0; MOST_FEW];
        let ids = &mut ids[..self.count];
        self.unpack(ids);
        is_member(ids, id)
    }

    /// How many ids are below `id`.
    pub(crate) fn rank(self, id: u32) -> usize
        ensures { result ≡ rank id (ids_of_few self.entry) }
    {
        let mut ids = [0; MOST_FEW];
        let ids = &mut ids[..self.count];
        self.unpack(ids);
        count_below(ids, id)
    }

    /// How many ids are below `target`, and the first that is not, if there is one.
    pub(crate) fn seek(self, target: u32) -> (usize, Option<u32>)
        ensures rank { result.0 ≡ rank target (ids_of_few self.entry) }
        ensures first { result.1 ≡ slice_get (ids_of_few self.entry) result.0 }
    {
        let mut ids = [0; MOST_FEW];
        let ids = &mut ids[..self.count];
        self.unpack(ids);
        let position = count_below(ids, target);
        if position < ids.len() {
            (position, Some(ids[position]))
        } else {
            (position, None)
        }
    }

    /// The id at a position.
    pub(crate) fn select(self, position: usize) -> u32
        requires within { position < self.count }
        ensures { result ≡ slice_index (ids_of_few self.entry) position }
    {
        let mut ids = [0; MOST_FEW];
        let ids = &mut ids[..self.count];
        self.unpack(ids);
        ids[position]
    }
}

/// Whether an id is among some.
fn is_member(ids: &[u32], id: u32) -> bool
    ensures { result ≡ has id ids.now }
{
    for other in ids {
        if *other == id {
            return true;
        }
    }
    false
}

/// How many ids are below `id`.
#[inline(always)]
pub(crate) fn count_below(ids: &[u32], id: u32) -> usize
    ensures { result ≡ rank id ids.now }
{
    let mut count = 0;
    for other in ids {
        count += (*other < id) as usize;
    }
    count
}

/// Writes the ids of such a set. The room for codes has one item less than there are ids.
fn unpack_some(bytes: &[u8], codes: &mut [u32], out: &mut [u32])
    requires room { length out.old ≡ length codes.old + 1 }
    requires sound { short_fault (length out.old) bytes.now ≡ None }
    ensures { out.new ≡ few_ids (length out.old) bytes.now }
{
    let (first, end) = unpack_number(bytes);
    unpack_groups(&bytes[end..], codes);
    add_up(first, codes, out);
}

/// Writes an id, and for each code the id that is this code and 1 above the one before.
fn add_up(first: u32, codes: &[u32], out: &mut [u32])
    requires room { length out.old ≡ length codes.now + 1 }
    requires small { Rattle.bitpack_sets.specs.Faults.first_over 0 (ids_from first codes.now) ≡ None }
    ensures { out.new ≡ ids_from first codes.now }
{
    let mut id = first;
    out[0] = id;
    for index in 0..codes.len() {
        id = id + codes[index] + 1;
        out[index + 1] = id;
    }
}

/// No byte is left.
fn test_end(rest: &[u8]) -> Result<(), SetError>
    ensures { Finds result (Rattle.bitpack_sets.specs.Faults.trailing_after 0 rest.now) }
{
    if rest.len() > 0 {
        return Err(SetError::Trailing);
    }
    Ok(())
}

/// Tests the groups of as many codes as the slice has, which are unpacked to it. Returns the bytes after them.
pub(crate) fn test_groups<'a>(bytes: &'a [u8], codes: &mut [u32]) -> Result<&'a [u8], SetError>
    requires few { length codes.old ≤ MOST_FEW }
    ensures fault { Finds result (of (groups_fault (groups_of (length codes.old)) 0 (length codes.old) bytes.now)) }
    ensures codes { OnOk result (codes.new ≡ groups_codes (groups_of (length codes.old)) (length codes.old) bytes.now) }
    ensures rest { IfOk result (λ rest. rest.now ≡ after_groups (groups_of (length codes.old)) (length codes.old) bytes.now) }
{
    let mut rest = bytes;
    let mut group = [0; LONGEST_GROUP];
    for index in 0..(codes.len() + 31) / LONGEST_GROUP {
        let from = LONGEST_GROUP * index;
        let count = next_len(codes.len() - from);
        let end = open_group(index, count, rest, &mut group)?;
        codes[from..from + count].copy_from_slice(&group[..count]);
        rest = &rest[end..];
    }
    Ok(rest)
}

/// The first position of an id above `u32::MAX`. Each id after the first is its code and 1 above the one before.
fn first_over(first: u32, codes: &[u32]) -> Option<usize>
    ensures { result ≡ Rattle.bitpack_sets.specs.Faults.first_over 0 (ids_from first codes.now) }
{
    let mut id = first as u64;
    for index in 0..codes.len() {
        id += codes[index] as u64 + 1;
        if id > u32::MAX as u64 {
            return Some(index + 1);
        }
    }
    None
}
