//! A packed list of version 2, read without unpacking all of it. It is zero-copy: it borrows its bytes.

mod copying;
mod getting;
mod halving;
mod in_slice;
mod intersection;
mod reading;
mod search;

ghost use Rattle.std.specs.Prelude.{◌≡◌};

use crate::blocks::reads::{PackedList, Reads};
use crate::list_error::ListError;
use crate::list_kind::ListKind;
use crate::v2::opening::test_version2;
use bitpacking::{BitPacker, Kind, MAX_BLOCK_LEN};
pub use intersection::intersect;

/// A whole block of a list: which it is, and what is packed instead of its values.
#[derive(Clone, Copy)]
pub(crate) struct ListBlock {
    pub(crate) number: usize,
    pub(crate) kind: Kind,
}

/// The block of a list that was unpacked last. Before any is, it has a number that no list reaches.
#[derive(Drop)]
pub(crate) struct CachedBlock {
    pub(crate) number: usize,
    pub(crate) values: [u32; MAX_BLOCK_LEN],
}

impl<'a, P: BitPacker> PackedList<'a, P> {
    ghost use Rattle.std.specs.Prelude.{length, slice_get, IfOk, None};
    ghost use Rattle.bitpack_lists.specs.Opened.{encoding, kind_of, values};
    ghost use Rattle.bitpack_lists.specs.Parts.{FindsFault};
    ghost use Rattle.bitpack_lists.specs.Encodings.{EncodesNoOther};
    ghost use Rattle.bitpack_lists.specs.Version2.{List2, fault2};

    /// Opens an encoded list of version 2. Tests all bytes, accepts any, and allocates nothing.
    pub fn open(packer: P, bytes: &'a [u8]) -> Result<PackedList<'a, P>, ListError>
        // Bytes with a fault are refused for the first, and bytes without one are opened.
        ensures fault { FindsFault result (fault2 P.lanes bytes.now) }
        ensures bytes { IfOk result (λ list. encoding list ≡ bytes.now) }
        // The bytes encode the list of this kind and these values, and no other.
        ensures list { IfOk result (λ list. List2 P.lanes (kind_of list) (values list) bytes.now) }
        // claim: lists2/3 opens bytes as the only list that they encode, or names their first fault
        ensures only { IfOk result (λ list.
            EncodesNoOther P.lanes (kind_of list) (values list) bytes.now) }
    {
        let header = test_version2(&packer, bytes, &mut Reads::new())?;
        Ok(PackedList::of_encoding(packer, header, bytes))
    }

    /// How many values the list has.
    pub fn len(&self) -> usize
        ensures { result ≡ length (values self.now) }
    {
        self.count
    }

    /// The kind of the list.
    pub fn kind(&self) -> ListKind
        ensures { result ≡ kind_of self.now }
    {
        self.kind
    }

    /// The value at a position, or `None` from the length on. Unpacks at most one block.
    // claim: lists2/4 `len`, `kind`, the value at a position
    pub fn get(&self, position: usize) -> Option<u32>
        ensures { result ≡ slice_get (values self.now) position }
    {
        if position >= self.count {
            return None;
        }
        let len = P::BLOCK_LEN;
        if position / len < self.count / len {
            Some(self.value_in_block(position / len, position % len, &mut Reads::new()))
        } else {
            Some(self.value_in_tail(position))
        }
    }
}
