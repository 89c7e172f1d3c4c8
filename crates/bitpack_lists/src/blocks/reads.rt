//! What is read of a packed list: each skip entry, last value and block counts in `Reads`. The bytes of an opened list are private here: no
//! other file reads one of these from them, or unpacks a block.

ghost use Rattle.std.specs.Prelude.{◌≡◌, ◌+◌, ◌*◌, ◌^◌, ◌<◌, ◌≤◌, ◌∷◌, [], length, take, drop, vec_len, vec_capacity, ℕ};
ghost use Rattle.bitpacking.specs.Bits.{AreBytes};
ghost use Rattle.bitpacking.specs.Layout.{size, codes_of};
ghost use Rattle.bitpacking.specs.Words.{bytes_of_words};
ghost use Rattle.bitpack_lists.specs.inner.Appending.{HasAppended};
ghost use Rattle.std.specs.Borrow.{ftrue};
ghost use Rattle.bitpacking.specs.Codes.{values_of};
ghost use Rattle.bitpack_lists.specs.Encodings.{States};
ghost use Rattle.bitpack_lists.specs.Parts.{whole_blocks};
ghost use Rattle.bitpack_lists.specs.Version2.{tail_start};

use crate::header::{HEADER_LEN, Header};
use crate::list_kind::ListKind;
use crate::numbers::{read_one, read_words};
use crate::reserved::append;
use bitpacking::{BitPacker, Kind};
use std::marker::{Model, PhantomData};
use std::mem::size_of;

/// The bytes of a skip entry.
pub(crate) const ENTRY_LEN: usize = 9;

/// A skip entry: the width of its block, the sum of the widths before it, and its last value.
#[derive(Clone, Copy)]
pub(crate) struct Entry {
    pub(crate) width: u8,
    pub(crate) offset: u32,
    pub(crate) last: u32,
}

impl Entry {
    ghost use Rattle.bitpack_lists.specs.inner.CountedReads.{IsEntryOf};

    // The body of the block of this skip entry, in a list of `blocks` blocks. The bytes are the ones after a header.
    fn body(self, lanes: usize, blocks: usize, rest: &[u8]) -> &[u8]
        requires lanes { lanes ≤ 8 }
        requires body { ENTRY_LEN * blocks + 4 * lanes * self.offset + size lanes self.width ≤ length rest.now }
        ensures body { result.now
            ≡ take (size lanes self.width) (drop (ENTRY_LEN * blocks + 4 * lanes * self.offset) rest.now) }
        ensures len { length result.now ≡ size lanes self.width }
    {
        let start = ENTRY_LEN * blocks + 4 * lanes * self.offset as usize;
        &rest[start..start + 4 * lanes * self.width as usize]
    }

    // The skip entry of a block. The bytes are the ones after a header.
    fn read(rest: &[u8], block: usize) -> Entry
        requires { ENTRY_LEN * block + ENTRY_LEN ≤ length rest.now }
        ensures { IsEntryOf rest.now block result }
    {
        let index = ENTRY_LEN * block;
        Entry {
            width: rest[index],
            offset: read_one(rest, index + 1),
            last: read_one(rest, index + 5),
        }
    }

    /// The bytes of the skip entry.
    pub(crate) fn bytes(self) -> [u8; ENTRY_LEN]
        ensures { result ≡ self.width ∷ bytes_of_words (self.offset ∷ self.last ∷ []) }
    {
        let [a, b, c, d] = self.offset.to_le_bytes();
        let [e, f, g, h] = self.last.to_le_bytes();
        [self.width, a, b, c, d, e, f, g, h]
    }

    /// Appends the skip entry. There is room for it.
    pub(crate) fn write(self, out: &mut Vec<u8>)
        requires { vec_len out.old + ENTRY_LEN ≤ vec_capacity out.old }
        ensures { HasAppended out.old out.new (self.width ∷ bytes_of_words (self.offset ∷ self.last ∷ [])) }
    {
        append(out, &self.bytes());
    }
}

/// A packed list whose bytes were tested when it was opened, so that reading it tests nothing again and cannot fail.
#[derive(Drop)]
// claim: lists2/20 only the file of `Reads` has the bytes of an opened list; the compiler tests it
pub struct PackedList<'a, P: BitPacker> {
    packer: P,
    pub(crate) kind: ListKind,
    pub(crate) count: usize,
    bytes: &'a [u8],
    // What is after the header, and its end.
    rest: &'a [u8],
    tail: &'a [u8],
    // The bytes have no fault, and so encode a list, which is of this kind and has this count of values.
    pub ghost are_bytes: { AreBytes bytes.now },
    ghost few: { count ≤ 2 ^ 28 },
    ghost states: { States P.lanes bytes.now kind count rest.now },
    ghost tail_is: { tail.now ≡ drop (tail_start P.lanes (whole_blocks P.lanes count) rest.now) rest.now },
}

impl<'a, P: BitPacker> PackedList<'a, P> {
    ghost use Rattle.std.specs.Prelude.{None, slice_index};
    ghost use Rattle.bitpacking.specs.Codes.{start};
    ghost use Rattle.bitpack_lists.specs.Opened.{encoding};
    ghost use Rattle.bitpack_lists.specs.Parts.{BeginsWithHeader, tail_values};
    ghost use Rattle.bitpack_lists.specs.Version2.{fault2};
    ghost use Rattle.bitpack_lists.specs.inner.BlockCodes.{codes_of_list};
    ghost use Rattle.bitpack_lists.specs.inner.Searching.{blocks_of, skip_key_of_list, value_of};

    /// The list of version 2 whose bytes have this header.
    pub(crate) fn of_encoding(packer: P, header: Header, bytes: &'a [u8]) -> PackedList<'a, P>
        requires sound { fault2 P.lanes bytes.now ≡ None }
        requires begins { BeginsWithHeader 2 P.lanes header.kind header.count bytes.now }
        ensures { encoding result ≡ bytes.now }
    {
        let Header { kind, count } = header;
        let rest = &bytes[HEADER_LEN..];
        PackedList {
            packer,
            kind,
            count,
            bytes,
            rest,
            tail: &rest[rest.len() - 4 * (count % P::BLOCK_LEN)..],
        }
    }

    /// Reads the skip key of a block: its last value.
    pub(crate) fn skip_key(&self, block: usize, reads: &mut Reads) -> u32
        requires { block < blocks_of self.now }
        ensures skip_key { result ≡ skip_key_of_list self.now block }
        ensures entries { reads.new.entries ≡ reads.old.entries + 1 }
        ensures blocks { reads.new.blocks ≡ reads.old.blocks }
    {
        reads.record(1, 0);
        read_one(self.rest, ENTRY_LEN * block + 5)
    }

    /// Unpacks a block as one of a kind, which need not be its own.
    pub(crate) fn unpack_block_as(
        &self,
        block: usize,
        kind: Kind,
        values: &mut [u32],
        reads: &mut Reads,
    )
        requires can { (block < blocks_of self.now) × (start kind < 2 ^ 32) × (P.BLOCK_LEN ≤ length values.old) }
        ensures block { take P.BLOCK_LEN values.new ≡ values_of kind (codes_of_list self.now block) }
        ensures reads { (reads.new.entries ≡ reads.old.entries) × (reads.new.blocks ≡ reads.old.blocks + 1) }
    {
        let entry = Entry::read(self.rest, block);
        let blocks = self.count / P::BLOCK_LEN;
        reads.unpack_body(&self.packer, kind, entry, blocks, self.rest, values);
    }

    /// The value at a position of the tail.
    pub(crate) fn value_in_tail(&self, position: usize) -> u32
        requires tail { 32 * P.lanes * blocks_of self.now ≤ position }
        requires within { position < self.now.count }
        ensures { result ≡ value_of self.now position }
    {
        let index = position - P::BLOCK_LEN * (self.count / P::BLOCK_LEN);
        read_one(self.tail, 4 * index)
    }

    /// Reads the values of the tail, and returns how many these are.
    pub(crate) fn read_tail(&self, values: &mut [u32]) -> usize
        requires room { tail_values P.lanes self.now.count ≤ length values.old }
        ensures len { result ≡ tail_values P.lanes self.now.count }
        ensures values { (k : ℕ) → k < result
            → slice_index values.new k ≡ value_of self.now (32 * P.lanes * blocks_of self.now + k) }
    {
        let len = self.count % P::BLOCK_LEN;
        read_words(self.tail, &mut values[..len]);
        len
    }
}

/// How many skip entries were read, and how many blocks were unpacked. Values of the tail do not count.
///
/// A search reads only the last value of a skip entry, which counts as one entry. To unpack a block also reads its size, its offset and the
/// value before it: this counts as the block alone.
///
/// It has no size at run time, and no program can read it: the numbers are for contracts.
#[derive(Drop)]
pub struct Reads {
    marker: PhantomData<()>,
    pub ghost entries: { ℕ },
    pub ghost blocks: { ℕ },
}

const _: () = prove!(size_of::<Reads>() == 0);

impl Model for Reads {
    ghost also_owns = { λ _. ftrue };
}

impl Reads {
    ghost use Rattle.bitpack_lists.specs.inner.CountedReads.{CanUnpack, IsEntryOf, ReadsEntry, UnpacksBlock};

    /// No reads.
    pub fn new() -> Reads
        ensures entries { result.entries ≡ 0 }
        ensures blocks { result.blocks ≡ 0 }
    {
        Reads {
            marker: PhantomData,
        }
    }

    // Counts what the functions of this file read. No other function calls it.
    fn record(&mut self, entries: u32, blocks: u32)
        ensures entries { self.new.entries ≡ self.old.entries + entries }
        ensures blocks { self.new.blocks ≡ self.old.blocks + blocks }
    {}

    /// Reads the skip entry of a block. The bytes are those after a header.
    pub(crate) fn read_entry(&mut self, rest: &[u8], block: usize) -> Entry
        requires { ENTRY_LEN * block + ENTRY_LEN ≤ length rest.now }
        ensures entry { IsEntryOf rest.now block result }
        ensures reads { ReadsEntry self.old self.new }
    {
        self.record(1, 0);
        Entry::read(rest, block)
    }

    /// Unpacks the block of a skip entry, in a list of `blocks` blocks. The bytes are the ones after a header.
    pub(crate) fn unpack_body<P: BitPacker>(
        &mut self,
        packer: &P,
        kind: Kind,
        entry: Entry,
        blocks: usize,
        rest: &[u8],
        values: &mut [u32],
    )
        requires width { entry.width ≤ 32 }
        requires body { ENTRY_LEN * blocks + 4 * P.lanes * entry.offset + size P.lanes entry.width ≤ length rest.now }
        requires room { CanUnpack P.BLOCK_LEN kind values.old }
        ensures block { take P.BLOCK_LEN values.new
            ≡ values_of kind (codes_of P.lanes entry.width
            (take (size P.lanes entry.width) (drop (ENTRY_LEN * blocks + 4 * P.lanes * entry.offset) rest.now))) }
        ensures reads { UnpacksBlock self.old self.new }
    {
        self.record(0, 1);
        let body = entry.body(P::BLOCK_LEN / 32, blocks, rest);
        packer.decompress_kind(kind, body, values, entry.width);
    }
}
