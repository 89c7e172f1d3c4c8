//! From lists to their bytes.

ghost use Rattle.std.specs.Prelude.{◌≡◌, ◌+◌, ◌^◌, ◌<◌, ◌≤◌, ◌++◌, ℕ, List, length, take, OnOk, OnErr, IfErr, vec_len, vec_capacity};
ghost use Rattle.bitpacking.specs.Bits.{AreBytes};
ghost use Rattle.bitpacking.specs.Calls.{CanPack};
ghost use Rattle.bitpacking.specs.Width.{IsWidth};
ghost use Rattle.bitpack_lists.specs.inner.Appending.{HasAppended};
ghost use Rattle.bitpack_lists.specs.Chains.{LeastWidths};
ghost use Rattle.bitpack_lists.specs.Parts.{whole_blocks};
ghost use Rattle.bitpack_lists.specs.Version1.{Blocks1, IsPart1, List1};

use crate::blocks::measuring::{CACHED_WIDTHS, encoding_len, width_of};
use crate::header::{Header, LONGEST_LIST};
use crate::list_error::ListError;
use crate::list_kind::{ListKind, next_kind};
use crate::numbers::write_all;
use crate::reserved::append;
use bitpacking::{BitPacker, Kind, MAX_BLOCK_SIZE};

/// Appends the encoded list of the values. They may be in any order, whatever the kind.
///
/// A list has at most 268,435,456 values. The vector grows at most once.
pub fn encode<P: BitPacker>(
    packer: &P,
    kind: ListKind,
    values: &[u32],
    out: &mut Vec<u8>,
) -> Result<(), ListError>
    // What is appended is the encoded list of the values.
    // claim: lists/1-2 version 1: appends the encoded list, or fails with `TooLong`, `Memory`
    ensures ok { OnOk result ((encoding : List ℕ) × AreBytes encoding × List1 P.lanes kind values.now encoding
        × (out.new.items ≡ out.old.items ++ encoding)) }
    // Too many values are refused as such, and others only if memory runs out.
    ensures long { 2 ^ 28 < length values.now → result ≡ Err (ListError.TooLong (length values.now)) }
    ensures memory { length values.now ≤ 2 ^ 28 → IfErr result (λ e. e ≡ ListError.Memory) }
    // Memory runs out only if the vector has no room for the encoded list.
    ensures room { length values.now ≤ 2 ^ 28 → OnErr result ((encoding : List ℕ) → List1 P.lanes kind values.now encoding
        → vec_capacity out.old < vec_len out.old + length encoding) }
    ensures unchanged { OnErr result (out.new.items ≡ out.old.items) }
    ensures capacity { OnErr result (vec_capacity out.new ≡ vec_capacity out.old) }
{
    if values.len() > LONGEST_LIST {
        return Err(ListError::TooLong(values.len()));
    }
    let mut widths = [0; CACHED_WIDTHS];
    if out
        .reserve(encoding_len(packer, kind, values, &mut widths))
        .is_err()
    {
        return Err(ListError::Memory);
    }
    let count = values.len();
    Header { kind, count }.write(1, P::BLOCK_LEN / 32, out);
    write_blocks(packer, kind.first(), values, &widths, out);
    Ok(())
}

/// Appends the blocks and the tail of the values. There is room for them. The widths are the cached ones.
fn write_blocks<P: BitPacker>(
    packer: &P,
    kind: Kind,
    values: &[u32],
    widths: &[u8],
    out: &mut Vec<u8>,
)
    requires widths { LeastWidths P.lanes kind values.now
        (take (whole_blocks P.lanes (length values.now)) widths.now) }
    requires room { (encoding : List ℕ) → Blocks1 P.lanes (whole_blocks P.lanes (length values.now)) kind values.now encoding
        → vec_len out.old + length encoding ≤ vec_capacity out.old }
    ensures { (encoding : List ℕ) → AreBytes encoding
        → Blocks1 P.lanes (whole_blocks P.lanes (length values.now)) kind values.now encoding
        → out.new.items ≡ out.old.items ++ encoding }
{
    let len = P::BLOCK_LEN;
    let blocks = values.len() / len;
    let mut kind = kind;
    let mut rest = values;
    let mut body = [0; MAX_BLOCK_SIZE];
    for index in 0..blocks {
        let (block, after) = rest.split_at(len);
        let width = width_of(packer, kind, block, widths, index);
        write_block(packer, kind, block, width, &mut body, out);
        kind = next_kind(kind, block[len - 1]);
        rest = after;
    }
    write_all(rest, out);
}

/// Appends the width of a block, which is its least, and the bytes that hold it. There is room for them. They are packed
/// in `body`.
fn write_block<P: BitPacker>(
    packer: &P,
    kind: Kind,
    block: &[u32],
    width: u8,
    body: &mut [u8],
    out: &mut Vec<u8>,
)
    requires pack { CanPack P.lanes width kind block.now body.old }
    requires width { IsWidth kind block.now width }
    requires room { (part : List ℕ) → IsPart1 P.lanes kind block.now part
        → vec_len out.old + length part ≤ vec_capacity out.old }
    ensures part { (part : List ℕ) × AreBytes part × IsPart1 P.lanes kind block.now part
        × HasAppended out.old out.new part }
{
    let size = packer.compress_kind(kind, block, body, width);
    append(out, &[width]);
    append(out, &body[..size]);
}
