//! Whether untrusted bytes are a packed list.

ghost use Rattle.std.specs.Prelude.{◌≡◌, ◌↔◌, IfOk, IsTrue, None};
ghost use Rattle.bitpack_lists.specs.Version1.{fault1};
ghost use Rattle.bitpack_lists.specs.Version2.{fault2};
ghost use Rattle.bitpack_uses.specs.Encodings.{IsEncoding, IsEncoding2};

use bitpack::laws::one_text;
use bitpack::list2::PackedList;
use bitpack::{ListError, list};
use bitpacking::BitPacker;
use std::alloc::{AllocError, Global};

/// Whether the bytes encode a list.
// claim: uses/8 uses/11 encoded lists are told from other bytes, uniquely
pub fn is_encoding<P: BitPacker>(
    alloc: Global,
    packer: &P,
    bytes: &[u8],
) -> Result<bool, AllocError>
    ensures { IfOk result (λ is_encoding. IsTrue is_encoding ↔ IsEncoding P.lanes bytes.now) }
{
    one_text();
    let mut values = Vec::new(alloc);
    match list::decode(packer, bytes, &mut values) {
        Ok(_) => Ok(true),
        Err(ListError::Memory) => Err(AllocError),
        Err(_) => Ok(false),
    }
}

/// Bytes without a fault encode a list.
pub fn no_fault_is_an_encoding<P: BitPacker>(bytes: &[u8])
    ensures { fault1 P.lanes bytes.now ≡ None → IsEncoding P.lanes bytes.now }
{
    one_text();
}

/// Bytes without a fault of version 2 encode a list of version 2.
pub fn no_fault_is_an_encoding2<P: BitPacker>(bytes: &[u8])
    ensures { fault2 P.lanes bytes.now ≡ None → IsEncoding2 P.lanes bytes.now }
{
    one_text();
}

/// Whether the bytes encode a list of version 2. Allocates nothing.
pub fn is_encoding2<P: BitPacker>(packer: &P, bytes: &[u8]) -> bool
    ensures { IsTrue result ↔ IsEncoding2 P.lanes bytes.now }
{
    one_text();
    PackedList::open(*packer, bytes).is_ok()
}
