//! A posting list as one encoded list.

use bitpack::{ListError, ListKind, list};
use bitpacking::{BitPacker, BitPacker4x};
use std::alloc::Global;

/// Packs increasing doc ids.
pub fn pack(alloc: Global, documents: &[u32]) -> Result<Vec<u8>, ListError> {
    let packer = BitPacker4x::new();
    let mut encoding = Vec::new(alloc);
    list::encode(&packer, ListKind::StrictlySorted, documents, &mut encoding)?;
    Ok(encoding)
}

/// Unpacks doc ids. The bytes may be untrusted.
pub fn unpack(alloc: Global, encoding: &[u8]) -> Result<Vec<u32>, ListError> {
    let packer = BitPacker4x::new();
    let mut documents = Vec::new(alloc);
    list::decode(&packer, encoding, &mut documents)?;
    Ok(documents)
}
