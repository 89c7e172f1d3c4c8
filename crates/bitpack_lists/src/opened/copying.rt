//! All values of an opened list, in a vector.

ghost use Rattle.std.specs.Prelude.{◌≡◌, ◌+◌, ◌<◌, ◌++◌, length, OnOk, OnErr, IfErr, vec_len, vec_capacity};
ghost use Rattle.bitpack_lists.specs.declared.list_error.ListError.{ListError};
ghost use Rattle.bitpack_lists.specs.Opened.{values};
ghost use Rattle.bitpack_lists.specs.inner.Searching.{blocks_of};

use super::ListBlock;
use crate::blocks::reads::{PackedList, Reads};
use crate::list_error::ListError;
use crate::list_kind::next_kind;
use crate::reserved::append_zeros;
use bitpacking::BitPacker;

impl<'a, P: BitPacker> PackedList<'a, P> {
    /// Appends all values. Unpacks each block once.
    ///
    /// Fails only with `Memory`, if the vector cannot grow by the length of the list.
    // claim: lists2/16-17 appends all values; memory rule; reads B entries, unpacks B blocks
    pub fn append_to(&self, out: &mut Vec<u32>) -> Result<(), ListError>
        ensures ok { OnOk result (out.new.items ≡ out.old.items ++ values self.now) }
        ensures memory { IfErr result (λ e. e ≡ ListError.Memory) }
        ensures room { OnErr result (vec_capacity out.old < vec_len out.old + length (values self.now)) }
        ensures unchanged { OnErr result (out.new.items ≡ out.old.items) }
        ensures capacity { OnErr result (vec_capacity out.new ≡ vec_capacity out.old) }
    {
        if out.reserve(self.count).is_err() {
            return Err(ListError::Memory);
        }
        let from = out.len();
        append_zeros(out, 0, self.count);
        self.copy_values(out.slice_mut(from..), &mut Reads::new());
        Ok(())
    }

    // Unpacks each block once, straight to its position, and reads the tail.
    fn copy_values(&self, out: &mut [u32], reads: &mut Reads)
        requires room { length out.old ≡ self.now.count }
        ensures values { out.new ≡ values self.now }
        ensures entries { reads.new.entries ≡ reads.old.entries + blocks_of self.now }
        // claim: lists2/16
        ensures blocks { reads.new.blocks ≡ reads.old.blocks + blocks_of self.now }
    {
        let len = P::BLOCK_LEN;
        let first = self.kind.first();
        let mut kind = first;
        for number in 0..self.count / len {
            let block = ListBlock { number, kind };
            self.unpack_block(block, &mut out[number * len..number * len + len], reads);
            kind = next_kind(first, self.skip_key(number, reads));
        }
        let tail = self.count % len;
        self.read_tail(&mut out[self.count - tail..]);
    }
}
