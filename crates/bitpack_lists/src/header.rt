//! The seven bytes before the blocks of a packed list of version 1 or 2: version, kind, lanes, and the count of values.

ghost use Rattle.std.specs.Prelude.{◌≡◌, ◌+◌, ◌^◌, ◌≤◌, ◌<◌, OnOk, IfOk, length, slice_index, vec_len, vec_capacity};
ghost use Rattle.bitpack_lists.specs.inner.Appending.{HasAppended};
ghost use Rattle.bitpack_lists.specs.Parts.{BeginsWithHeader, FindsFault, count_of, header, header_fault, kind_of_byte};

use crate::list_error::ListError;
use crate::list_kind::ListKind;
use crate::numbers::read_one;
use crate::reserved::append;

/// The bytes of a header.
pub(crate) const HEADER_LEN: usize = 7;

/// The most values of a list.
pub(crate) const LONGEST_LIST: usize = 1 << 28;

/// What a header says of its list.
#[derive(Clone, Copy)]
pub(crate) struct Header {
    pub(crate) kind: ListKind,
    pub(crate) count: usize,
}

impl Header {
    /// Tests the header of an encoded list of this version, for a packer of `lanes` lanes.
    #[tactic(auto, unfolding(crate::specs::Parts::header_fault))]
    pub(crate) fn test(version: u8, lanes: usize, bytes: &[u8]) -> Result<Header, ListError>
        ensures fault { FindsFault result (header_fault version lanes bytes.now) }
        ensures header { IfOk result (λ found. BeginsWithHeader version lanes found.kind found.count bytes.now) }
        ensures long { OnOk result (HEADER_LEN ≤ length bytes.now) }
    {
        if bytes.len() < HEADER_LEN {
            return Err(ListError::Short);
        }
        if bytes[0] != version {
            return Err(ListError::BadVersion(bytes[0]));
        }
        if bytes[1] > 2 {
            return Err(ListError::BadKind(bytes[1]));
        }
        if bytes[2] as usize != lanes {
            return Err(ListError::WrongLanes(bytes[2]));
        }
        let header = Header::of_bytes(bytes);
        if header.count > LONGEST_LIST {
            return Err(ListError::TooLong(header.count));
        }
        Ok(header)
    }

    /// The header that the bytes state. Tests nothing.
    pub(crate) fn of_bytes(bytes: &[u8]) -> Header
        requires long { HEADER_LEN ≤ length bytes.now }
        ensures kind { result.kind ≡ kind_of_byte (slice_index bytes.now 1) }
        ensures count { result.count ≡ count_of bytes.now }
    {
        Header {
            kind: ListKind::of_byte(bytes[1]),
            count: read_one(bytes, 3) as usize,
        }
    }

    /// The bytes of the header.
    #[tactic(auto, unfolding(crate::specs::Parts::header))]
    pub(crate) fn bytes(self, version: u8, lanes: usize) -> [u8; HEADER_LEN]
        requires lanes { lanes < 2 ^ 8 }
        requires count { self.count ≤ LONGEST_LIST }
        ensures { result ≡ header version self.kind lanes self.count }
    {
        let [a, b, c, d] = (self.count as u32).to_le_bytes();
        [version, self.kind.byte(), lanes as u8, a, b, c, d]
    }

    /// Appends the header.
    pub(crate) fn write(self, version: u8, lanes: usize, out: &mut Vec<u8>)
        requires lanes { lanes < 2 ^ 8 }
        requires count { self.count ≤ LONGEST_LIST }
        requires room { vec_len out.old + HEADER_LEN ≤ vec_capacity out.old }
        ensures { HasAppended out.old out.new (header version self.kind lanes self.count) }
    {
        append(out, &self.bytes(version, lanes));
    }
}
