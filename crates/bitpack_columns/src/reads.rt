//! What is read of an opened column: each mark, each width and each block that is unpacked counts in `Reads`. Its bytes are hidden from all
//! other files.
//!
//! FORMAT.md, "Columns".

ghost use Rattle.std.specs.Prelude.{◌≡◌, ℕ, ◌+◌, ◌-◌, ◌*◌, ◌/◌, ◌%◌, ◌^◌, ◌<◌, ◌≤◌, drop, length, min, slice_index, take};
ghost use Rattle.std.specs.Borrow.{ftrue};
ghost use Rattle.bitpack_columns.specs.declared.column_kind.ColumnKind.TheVariants.{Plain, Sorted};
ghost use Rattle.bitpack_columns.specs.Columns.{block_of, mark_of, tail_of, width_in};
ghost use Rattle.bitpack_columns.specs.Opened.{blocks_of, kind_of, values};
ghost use Rattle.bitpack_columns.specs.Reads.{codes_at};

mod blocks;
pub(crate) mod copying;

use crate::code::code_at;
use crate::column::{BLOCK_LEN, Column};
use bitpacking::{BitPacker, BitPacker4x, Kind};
use std::marker::{Model, PhantomData};
use std::mem::size_of;

/// Bytes of an opened column. Functions that count in [`Reads`] read them, and no others.
#[repr(C)]
#[derive(Clone, Copy)]
pub struct ColumnBytes<'a> {
    bytes: &'a [u8],
}

impl<'a> ColumnBytes<'a> {
    #[inline(always)]
    pub(crate) fn new(bytes: &'a [u8]) -> ColumnBytes<'a>
        ensures { result.bytes.now ≡ bytes.now }
    {
        ColumnBytes { bytes }
    }
}

/// How many marks were read, and how many blocks were unpacked. The tail counts as a block, and the width of a block as a mark.
///
/// To unpack a block also reads its ends and a mark: this counts as the block alone.
///
/// It has no size at run time, and no program can read it: the numbers are for contracts.
#[derive(Drop)]
pub(crate) struct Reads {
    marker: PhantomData<()>,
    pub ghost marks: { ℕ },
    pub ghost blocks: { ℕ },
}

const _: () = prove!(size_of::<Reads>() == 0);

impl Model for Reads {
    ghost also_owns = { λ _. ftrue };
}

impl Reads {
    ghost use Rattle.bitpack_columns.specs.Counted.{ReadsMarks, UnpacksBlock};

    /// No reads.
    #[inline(always)]
    pub(crate) fn new() -> Reads
        ensures marks { result.marks ≡ 0 }
        ensures blocks { result.blocks ≡ 0 }
    {
        Reads {
            marker: PhantomData,
        }
    }

    // Only functions of this file, which read a mark or unpack a block, call it.
    #[inline(always)]
    fn record(&mut self, marks: u32, blocks: u32)
        ensures marks { self.new.marks ≡ self.old.marks + marks }
        ensures blocks { self.new.blocks ≡ self.old.blocks + blocks }
    {}

    /// Reads the mark of a block.
    #[inline(always)]
    pub(crate) fn read_mark(&mut self, column: &Column, block: usize) -> u32
        requires { block < blocks_of column.now }
        ensures mark { result ≡ mark_of (kind_of column.now) (block_of block (values column.now)) }
        ensures reads { ReadsMarks 1 self.old self.new }
    {
        self.record(1, 0);
        column.mark(block)
    }

    /// Reads the width of a block. In a plain column its values are below its mark and 2 to the power of the width.
    #[inline(always)]
    pub(crate) fn read_width(&mut self, column: &Column, block: usize) -> u8
        requires { block < blocks_of column.now }
        ensures is { result ≡ width_in (kind_of column.now) (values column.now) block }
        ensures narrow { result ≤ 32 }
        ensures fits { kind_of column.now ≡ Plain → (k : ℕ) → k < 128
            → slice_index (values column.now) (128 * block + k)
            < mark_of Plain (block_of block (values column.now)) + 2 ^ result }
        ensures reads { ReadsMarks 1 self.old self.new }
    {
        self.record(1, 0);
        column.width(block)
    }

    /// Reads the value before a block of a sorted column, which is a mark. Before the first block it is the first value.
    #[inline(always)]
    pub(crate) fn read_before(&mut self, column: &Column, block: usize) -> u32
        requires block { block ≤ blocks_of column.now }
        requires sorted { kind_of column.now ≡ Sorted }
        ensures first { block ≡ 0 → result ≡ slice_index (values column.now) 0 }
        ensures later { 0 < block → result ≡ slice_index (values column.now) (128 * block - 1) }
        ensures reads { ReadsMarks 1 self.old self.new }
    {
        self.record(1, 0);
        column.value_before(block)
    }

    /// Unpacks a block at the start of a slice, or the tail if the block is the one after the last. Returns how many values these are.
    #[inline(always)]
    pub(crate) fn unpack_block(
        &mut self,
        column: &Column,
        block: usize,
        out: &mut [u32; 128],
    ) -> usize
        requires { block ≤ blocks_of column.now }
        ensures len { result ≡ min 128 (length (values column.now) - 128 * block) }
        ensures values { take result out.new ≡ block_of block (values column.now) }
        ensures reads { UnpacksBlock self.old self.new }
    {
        self.record(0, 1);
        column.read_block(block, out)
    }

    /// Unpacks blocks from one on, each straight to its position, as many as the slice has room for.
    pub(crate) fn unpack_blocks(&mut self, column: &Column, start: usize, out: &mut [u32])
        requires whole { length out.old % 128 ≡ 0 }
        requires within { 128 * start + length out.old ≤ length (values column.now) }
        ensures values { out.new ≡ take (length out.old) (drop (128 * start) (values column.now)) }
        ensures marks { self.new.marks ≡ self.old.marks }
        ensures blocks { self.new.blocks ≡ self.old.blocks + length out.old / 128 }
    {
        self.record(0, (out.len() / BLOCK_LEN) as u32);
        column.unpack_blocks(start, out);
    }

    /// Unpacks the tail.
    pub(crate) fn unpack_tail(&mut self, column: &Column, out: &mut [u32])
        requires { length out.old ≡ length (values column.now) % 128 }
        ensures values { out.new ≡ tail_of (blocks_of column.now) (values column.now) }
        ensures reads { UnpacksBlock self.old self.new }
    {
        self.record(0, 1);
        column.unpack_tail(out);
    }

    /// Unpacks the codes of a block.
    #[inline(always)]
    pub(crate) fn unpack_codes(&mut self, column: &Column, block: usize, codes: &mut [u32; 128])
        requires { block < blocks_of column.now }
        ensures codes { codes.new ≡ codes_at (blocks_of column.now) column.now.rest.bytes.now block }
        ensures reads { UnpacksBlock self.old self.new }
    {
        self.record(0, 1);
        let width = column.width(block);
        BitPacker4x::new().decompress_kind(Kind::Plain, column.body(block), codes, width);
    }

    /// The value at an index of a block of a plain column, by its bits and the mark.
    #[inline(always)]
    pub(crate) fn read_value(&mut self, column: &Column, block: usize, index: usize) -> u32
        requires block { block < blocks_of column.now }
        requires index { index < 128 }
        requires plain { kind_of column.now ≡ Plain }
        ensures value { result ≡ slice_index (block_of block (values column.now)) index }
        ensures reads { ReadsMarks 1 self.old self.new }
    {
        self.record(1, 0);
        let code = code_at(column.width(block), column.body(block), index);
        column.mark(block).wrapping_add(code)
    }

    /// The value at an index of the tail, whose groups are unpacked up to the value's.
    #[inline(always)]
    pub(crate) fn value_in_tail(&mut self, column: &Column, index: usize) -> u32
        requires { index < length (values column.now) % 128 }
        ensures value { result ≡ slice_index (tail_of (blocks_of column.now) (values column.now)) index }
        ensures reads { UnpacksBlock self.old self.new }
    {
        self.record(0, 1);
        column.value_in_tail(index)
    }
}
