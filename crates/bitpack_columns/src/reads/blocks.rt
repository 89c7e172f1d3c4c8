//! The blocks of a column and its tail. Functions of `reads` call these, and count what they read.
//!
//! FORMAT.md, "Columns".

ghost use Rattle.std.specs.Prelude.{◌≡◌, ℕ, ◌+◌, ◌-◌, ◌*◌, ◌%◌, ◌^◌, ◌<◌, ◌≤◌, drop, length, min, slice_index, take};
ghost use Rattle.bitpack_columns.specs.declared.column_kind.ColumnKind.TheVariants.{Plain, Sorted};
ghost use Rattle.bitpacking.specs.Layout.{codes_of};
ghost use Rattle.bitpack_columns.specs.Columns.{base_of, block_of, mark_of, tail_base, tail_of};
ghost use Rattle.bitpack_columns.specs.Numbers.{number_value};
ghost use Rattle.bitpack_columns.specs.Opened.{blocks_of, kind_of, values};
ghost use Rattle.bitpack_columns.specs.Reads;

use crate::column::{BLOCK_LEN, Column};
use crate::column_kind::ColumnKind;
use crate::entries::{begin_at, bodies_start, end_at, mark_at, tail_start};
use crate::tail::{end_of_group, left_out, to_values, unpack_tail_front, unpack_tail_values};
use bitpack_groups::unpack_number;
use bitpacking::{BitPacker, BitPacker4x, Kind};

impl<'a> Column<'a> {
    /// The mark of a block: its least value, or if the column is sorted its last one.
    #[inline(always)]
    pub(super) fn mark(&self, block: usize) -> u32
        requires { block < blocks_of self.now }
        ensures { result ≡ mark_of (kind_of self.now) (block_of block (values self.now)) }
    {
        mark_at(self.blocks(), self.rest.bytes, block)
    }

    /// The width of a block. In a plain column its values are below its mark and 2 to the power of the width.
    #[inline(always)]
    pub(super) fn width(&self, block: usize) -> u8
        requires { block < blocks_of self.now }
        ensures is { result ≡ Reads.width_at self.now.rest.bytes.now block }
        ensures narrow { result ≤ 32 }
        ensures fits { kind_of self.now ≡ Plain → (k : ℕ) → k < 128
            → slice_index (values self.now) (128 * block + k)
            < mark_of Plain (block_of block (values self.now)) + 2 ^ result }
    {
        let blocks = self.blocks();
        (end_at(blocks, self.rest.bytes, block) - begin_at(blocks, self.rest.bytes, block)) as u8
    }

    /// The body of a block.
    #[inline(always)]
    pub(super) fn body(&self, block: usize) -> &'a [u8]
        requires { block < blocks_of self.now }
        ensures { result.now ≡ Reads.body_at (blocks_of self.now) self.now.rest.bytes.now block }
    {
        let blocks = self.blocks();
        let from = bodies_start(blocks, self.rest.bytes)
            + 16 * begin_at(blocks, self.rest.bytes, block) as usize;
        &self.rest.bytes[from..from + 16 * self.width(block) as usize]
    }

    /// Unpacks a block.
    pub(super) fn unpack_block(&self, block: usize, out: &mut [u32])
        requires block { block < blocks_of self.now }
        requires room { length out.old ≡ 128 }
        ensures { out.new ≡ block_of block (values self.now) }
    {
        let base = self.base(block);
        unpack_body(self.kind, base, self.width(block), self.body(block), out);
    }

    // What the codes of a block count from.
    fn base(&self, block: usize) -> u32
        requires { block < blocks_of self.now }
        ensures { result ≡ base_of (kind_of self.now) self.now.first
            (Reads.mark_at (blocks_of self.now) self.now.rest.bytes.now) block }
    {
        match self.kind {
            ColumnKind::Plain => self.mark(block),
            ColumnKind::Sorted => self.value_before(block),
        }
    }

    /// The value before a block of a sorted column, or before its tail. Before the first block it is the first value.
    pub(super) fn value_before(&self, block: usize) -> u32
        requires block { block ≤ blocks_of self.now }
        requires sorted { kind_of self.now ≡ Sorted }
        ensures first { block ≡ 0 → result ≡ slice_index (values self.now) 0 }
        ensures later { 0 < block → result ≡ slice_index (values self.now) (128 * block - 1) }
    {
        if block == 0 {
            self.first
        } else {
            self.mark(block - 1)
        }
    }

    /// Unpacks blocks from one on, each straight to its position, as many as the slice has room for.
    pub(super) fn unpack_blocks(&self, start: usize, out: &mut [u32])
        requires whole { length out.old % 128 ≡ 0 }
        requires within { 128 * start + length out.old ≤ length (values self.now) }
        ensures { out.new ≡ take (length out.old) (drop (128 * start) (values self.now)) }
    {
        let count = out.len() / BLOCK_LEN;
        if count == 0 {
            return;
        }
        let blocks = self.blocks();
        let bodies = &self.rest.bytes[bodies_start(blocks, self.rest.bytes)..];
        let mut begin = begin_at(blocks, self.rest.bytes, start);
        let mut before = self.before(start);
        for index in 0..count {
            let end = end_at(blocks, self.rest.bytes, start + index);
            let mark = self.mark(start + index);
            let base = base_after(self.kind, before, mark);
            let part = &mut out[BLOCK_LEN * index..BLOCK_LEN * index + BLOCK_LEN];
            let body = &bodies[16 * begin as usize..16 * end as usize];
            unpack_body(self.kind, base, (end - begin) as u8, body, part);
            begin = end;
            before = mark;
        }
    }

    // The value before a block of a sorted column. It is 0 in a plain one, which does not need it.
    fn before(&self, block: usize) -> u32
        requires { block < blocks_of self.now }
        ensures { kind_of self.now ≡ Sorted
            → result ≡ base_of Sorted self.now.first (Reads.mark_at (blocks_of self.now) self.now.rest.bytes.now) block }
    {
        match self.kind {
            ColumnKind::Plain => 0,
            ColumnKind::Sorted => self.value_before(block),
        }
    }

    /// Unpacks the tail.
    pub(super) fn unpack_tail(&self, out: &mut [u32])
        requires { length out.old ≡ length (values self.now) % 128 }
        ensures { out.new ≡ tail_of (blocks_of self.now) (values self.now) }
    {
        if out.is_empty() {
            return;
        }
        let blocks = self.blocks();
        let tail = &self.rest.bytes[tail_start(blocks, self.rest.bytes)..];
        let (base, end) = self.tail_base(tail);
        unpack_tail_values(self.kind, blocks, base, &tail[end..], out);
    }

    /// What the codes of the tail count from, and where its groups begin.
    pub(super) fn tail_base(&self, tail: &[u8]) -> (u32, usize)
        requires some { 0 < length (values self.now) % 128 }
        requires tail { tail.now ≡ Reads.tail_at (blocks_of self.now) self.now.rest.bytes.now }
        ensures base { result.0 ≡ tail_base (kind_of self.now) self.now.first
            (Reads.mark_at (blocks_of self.now) self.now.rest.bytes.now) (blocks_of self.now) (number_value tail.now) }
        ensures end { result.1 ≡ Reads.least_size (kind_of self.now) (length (values self.now) % 128) tail.now }
        ensures within { result.1 ≤ length tail.now }
    {
        match self.kind {
            ColumnKind::Plain => unpack_number(tail),
            ColumnKind::Sorted => (self.value_before(self.blocks()), 0),
        }
    }

    /// The value at an index of the tail. Unpacks the groups up to the value's.
    pub(super) fn value_in_tail(&self, index: usize) -> u32
        requires { index < length (values self.now) % 128 }
        ensures { result ≡ slice_index (tail_of (blocks_of self.now) (values self.now)) index }
    {
        let blocks = self.blocks();
        let count = self.count % BLOCK_LEN;
        let tail = &self.rest.bytes[tail_start(blocks, self.rest.bytes)..];
        let (base, end) = self.tail_base(tail);
        let len = end_of_group(left_out(self.kind, blocks, count), count, index);
        let mut values = [0; BLOCK_LEN];
        unpack_tail_front(
            self.kind,
            blocks,
            count,
            base,
            &tail[end..],
            &mut values[..len],
        );
        values[index]
    }

    /// Unpacks a block at the start of a slice, or the tail if the block is the one after the last. Returns how many values these are.
    pub(super) fn read_block(&self, block: usize, out: &mut [u32; 128]) -> usize
        requires { block ≤ blocks_of self.now }
        ensures len { result ≡ min 128 (length (values self.now) - 128 * block) }
        ensures values { take result out.new ≡ block_of block (values self.now) }
    {
        if block < self.blocks() {
            self.unpack_block(block, out);
            return BLOCK_LEN;
        }
        let len = self.count % BLOCK_LEN;
        self.unpack_tail(&mut out[..len]);
        len
    }
}

/// Unpacks the body of a block, whose codes count from `base`.
#[inline(always)]
fn unpack_body(kind: ColumnKind, base: u32, width: u8, body: &[u8], out: &mut [u32])
    requires width { width ≤ 32 }
    requires body { length body.now ≡ 16 * width }
    requires room { length out.old ≡ 128 }
    ensures { out.new ≡ Reads.values_of kind base (codes_of 4 width body.now) }
{
    match kind {
        ColumnKind::Plain => {
            BitPacker4x::new().decompress_kind(Kind::Plain, body, out, width);
            to_values(kind, base, out);
        }
        ColumnKind::Sorted => {
            BitPacker4x::new().decompress_kind(Kind::Sorted(base), body, out, width);
        }
    }
}

/// What the codes of a block count from: in a sorted column the value before it, in a plain one its mark.
#[inline(always)]
fn base_after(kind: ColumnKind, before: u32, mark: u32) -> u32
    ensures plain { kind ≡ Plain → result ≡ mark }
    ensures sorted { kind ≡ Sorted → result ≡ before }
{
    match kind {
        ColumnKind::Plain => mark,
        ColumnKind::Sorted => before,
    }
}
