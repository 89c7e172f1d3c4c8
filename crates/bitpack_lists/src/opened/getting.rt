//! The value at a position of an opened list: the codes of its block are added up to it, and no other value is.

ghost use Rattle.std.specs.Prelude.{◌≡◌, ◌-◌, ◌<◌, ◌≤◌, length, slice_index};
ghost use Rattle.bitpacking.specs.Codes.{values_of};
ghost use Rattle.bitpack_lists.specs.inner.CodeSteps.{sums};

use super::search::SHORT_BLOCK_LEN;
use crate::blocks::reads::{PackedList, Reads};
use bitpacking::{BitPacker, Kind, MAX_BLOCK_LEN};

impl<'a, P: BitPacker> PackedList<'a, P> {
    ghost use Rattle.bitpack_lists.specs.inner.CountedReads.{ReadsValue};
    ghost use Rattle.bitpack_lists.specs.inner.Searching.{block_of_list, blocks_of};

    /// The value at an index of a whole block.
    pub(super) fn value_in_block(&self, number: usize, index: usize, reads: &mut Reads) -> u32
        requires block { number < blocks_of self.now }
        requires index { index < P.BLOCK_LEN }
        ensures value { result ≡ slice_index (block_of_list self.now number) index }
        // claim: lists2/18 reading a value at a position reads one entry, and unpacks one block
        ensures reads { ReadsValue reads.old reads.new }
    {
        if P::BLOCK_LEN <= SHORT_BLOCK_LEN {
            self.value_by_codes(number, index, &mut [0; SHORT_BLOCK_LEN], reads)
        } else {
            self.value_by_codes(number, index, &mut [0; MAX_BLOCK_LEN], reads)
        }
    }

    /// As `value_in_block`, with room for the codes of the block.
    fn value_by_codes(
        &self,
        number: usize,
        index: usize,
        room: &mut [u32],
        reads: &mut Reads,
    ) -> u32
        requires at { (number < blocks_of self.now) × (index < P.BLOCK_LEN) × (P.BLOCK_LEN ≤ length room.old) }
        ensures value { result ≡ slice_index (block_of_list self.now number) index }
        ensures reads { ReadsValue reads.old reads.new }
    {
        let kind = self.kind_of_block(number, reads);
        self.unpack_block_as(number, Kind::Plain, room, reads);
        value_of_codes(kind, &room[..P::BLOCK_LEN], index)
    }
}

/// The value at an index of a block that has these codes.
fn value_of_codes(kind: Kind, codes: &[u32], index: usize) -> u32
    requires { index < length codes.now }
    ensures { result ≡ slice_index (values_of kind codes.now) index }
{
    match kind {
        Kind::Plain => codes[index],
        Kind::Sorted(initial) => last_sum(initial, 0, &codes[..index + 1]),
        Kind::StrictlySorted(initial) => {
            last_sum(initial.unwrap_or(u32::MAX), 1, &codes[..index + 1])
        }
    }
}

/// Adds each code, and so much more, to the value before the first.
fn last_sum(before: u32, more: u32, codes: &[u32]) -> u32
    requires { 1 ≤ length codes.now }
    ensures { result ≡ slice_index (sums before more codes.now) (length codes.now - 1) }
{
    let mut value = before;
    for index in 0..codes.len() {
        value = value.wrapping_add(codes[index]).wrapping_add(more);
    }
    value
}
