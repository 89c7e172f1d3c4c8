//! Blocks whose widths and lengths come from outside: each is tested before the call that requires it.

ghost use Rattle.std.specs.Prelude.{◌≡◌, ◌*◌, [], ◌∷◌, length, take, drop, sum, OnOk, OnErr, IfOk, IfErr};
ghost use Rattle.bitpacking.specs.Calls.{IsUnpacked};
ghost use Rattle.bitpacking.specs.Layout.{size};
ghost use Rattle.bitpack_lists.specs.Chains.{Loose};
ghost use Rattle.bitpack_uses.specs.Stored.{IsRefused};

use bitpack::chain::unpack_all;
use bitpacking::{BitPacker, Kind};
use std::error::Error;
use std::fmt;

/// Why stored blocks cannot be read.
#[derive(Clone, Copy, PartialEq, Eq, Debug)]
pub enum StoredError {
    /// This width is above 32.
    WideWidth(u8),
    /// The blocks have more bytes than there are.
    MissingBytes,
    /// The blocks have more values than there is room for.
    MissingRoom,
}

impl fmt::Display for StoredError {
    fn fmt<W: fmt::Write>(&self, f: &mut fmt::Formatter<W>) -> fmt::Result {
        match self {
            StoredError::WideWidth(width) => write!(f, "width {width} is above 32"),
            StoredError::MissingBytes => write!(f, "bytes are missing"),
            StoredError::MissingRoom => write!(f, "the values have no room"),
        }
    }
}

impl Error for StoredError {}

/// Reads a block and returns the number of bytes read.
pub fn read_block<P: BitPacker>(
    packer: &P,
    kind: Kind,
    width: u8,
    bytes: &[u8],
    values: &mut [u32],
) -> Result<usize, StoredError>
    ensures size { IfOk result (λ read. read ≡ size P.lanes width) }
    ensures ok { OnOk result (IsUnpacked P.lanes width kind bytes.now values.old values.new) }
    // claim: uses/2 stored blocks are read, or refused for what is wrong
    ensures err { IfErr result (IsRefused P.lanes (width ∷ []) bytes.now values.old) }
    ensures unchanged { OnErr result (values.new ≡ values.old) }
{
    if width > 32 {
        return Err(StoredError::WideWidth(width));
    }
    if bytes.len() < P::compressed_block_size(width) {
        return Err(StoredError::MissingBytes);
    }
    if values.len() < P::BLOCK_LEN {
        return Err(StoredError::MissingRoom);
    }
    Ok(packer.decompress_kind(kind, bytes, values, width))
}

/// Reads a chain of blocks and returns the number of bytes read.
#[tactic(auto, using(crate::proofs::Sizes::size_below, crate::proofs::Sizes::sizes_more, crate::proofs::Sizes::sizes_within, crate::proofs::Sizes::room_for))]
pub fn read_chain<P: BitPacker>(
    packer: &P,
    kind: Kind,
    widths: &[u8],
    bytes: &[u8],
    values: &mut [u32],
) -> Result<usize, StoredError>
    ensures size { IfOk result (λ read. read ≡ 4 * P.lanes * sum widths.now) }
    ensures ok { OnOk result (Loose P.lanes kind (take (P.BLOCK_LEN * length widths.now) values.new) widths.now
        (take (4 * P.lanes * sum widths.now) bytes.now)) }
    ensures rest { OnOk result (drop (P.BLOCK_LEN * length widths.now) values.new
        ≡ drop (P.BLOCK_LEN * length widths.now) values.old) }
    ensures err { IfErr result (IsRefused P.lanes widths.now bytes.now values.old) }
    ensures unchanged { OnErr result (values.new ≡ values.old) }
{
    let mut size = 0;
    for width in widths {
        if *width > 32 {
            return Err(StoredError::WideWidth(*width));
        }
        size += P::compressed_block_size(*width);
        if size > bytes.len() {
            return Err(StoredError::MissingBytes);
        }
    }
    if values.len() / P::BLOCK_LEN < widths.len() {
        return Err(StoredError::MissingRoom);
    }
    Ok(unpack_all(packer, kind, widths, bytes, values))
}
