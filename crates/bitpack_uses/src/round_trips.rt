//! What was packed is read back, for every packer.

ghost use Rattle.std.specs.Prelude.{◌≡◌, ◌*◌, ◌^◌, ◌<◌, ◌≤◌, length, take, drop, slice_get, Err, IfErr, IfOk};
ghost use Rattle.bitpacking.specs.declared.kind.Kind.{Kind};
ghost use Rattle.bitpacking.specs.Calls.{IsPacked};
ghost use Rattle.bitpacking.specs.Width.{IsWidth};
ghost use Rattle.bitpack_lists.specs.Chains.{Chained};
ghost use Rattle.bitpack_lists.specs.declared.list_error.ListError.{ListError};
ghost use Rattle.bitpack_lists.specs.declared.list_kind.ListKind.{ListKind};
ghost use Rattle.bitpack_lists.specs.Search.{first_at_least};
ghost use Rattle.bitpack_uses.specs.Failures.{FailsWith, values_fault};

use bitpack::chain::{pack_all, unpack_all};
use bitpack::laws::{chains_read_back, one_text};
use bitpack::list2::{PackedList, Reads};
use bitpack::{ListError, ListKind, list, list2};
use bitpacking::laws::round_trips;
use bitpacking::{BitPacker, Kind};
use std::alloc::Global;

/// Packs a plain block into `bytes` and unpacks it into `unpacked`. Returns the width.
pub fn block<P: BitPacker>(packer: &P, values: &[u32], bytes: &mut [u8], unpacked: &mut [u32]) -> u8
    requires block { length values.now ≡ P.BLOCK_LEN }
    requires room { 4 * P.BLOCK_LEN ≤ length bytes.old }
    requires output { length unpacked.old ≡ P.BLOCK_LEN }
    ensures width { IsWidth Kind.Plain values.now result }
    ensures packed { IsPacked P.lanes result Kind.Plain values.now bytes.old bytes.new }
    ensures same { unpacked.new ≡ values.now }
{
    round_trips();
    let width = packer.num_bits(values);
    packer.compress(values, bytes, width);
    packer.decompress(bytes, unpacked, width);
    width
}

/// Packs blocks as a chain and unpacks them. Returns the number of bytes. Later bytes are unchanged.
pub fn chain<P: BitPacker>(
    packer: &P,
    kind: Kind,
    values: &[u32],
    widths: &mut [u8],
    bytes: &mut [u8],
    unpacked: &mut [u32],
) -> usize
    requires blocks { length values.now ≡ P.BLOCK_LEN * length widths.old }
    requires room { 4 * length values.now ≤ length bytes.old }
    requires output { length unpacked.old ≡ length values.now }
    ensures packed { Chained P.lanes kind values.now widths.new (take result bytes.new) }
    ensures rest { drop result bytes.new ≡ drop result bytes.old }
    // claim: uses/1 uses/13 blocks, chains and lists come back as packed
    ensures same { unpacked.new ≡ values.now }
{
    chains_read_back();
    let size = pack_all(packer, kind, values, widths, bytes);
    unpack_all(packer, kind, widths, &bytes[..size], unpacked);
    size
}

/// Packs a list as one list and unpacks it.
pub fn list<P: BitPacker>(
    alloc: Global,
    packer: &P,
    kind: ListKind,
    values: &[u32],
) -> Result<Vec<u32>, ListError>
    ensures same { IfOk result (λ unpacked. unpacked.items ≡ values.now) }
    // Too many values are refused as such, and others only if memory runs out.
    ensures long { 2 ^ 28 < length values.now → result ≡ Err (ListError.TooLong (length values.now)) }
    ensures memory { length values.now ≤ 2 ^ 28 → IfErr result (λ e. e ≡ ListError.Memory) }
{
    one_text();
    let mut encoding = Vec::new(alloc);
    list::encode(packer, kind, values, &mut encoding)?;
    let mut unpacked = Vec::new(alloc);
    list::decode(packer, &encoding, &mut unpacked)?;
    Ok(unpacked)
}

/// Packs values in order as one list and reads the value at a position from it.
pub fn value<P: BitPacker>(
    alloc: Global,
    packer: &P,
    kind: ListKind,
    values: &[u32],
    position: usize,
) -> Result<Option<u32>, ListError>
    ensures same { IfOk result (λ found. found ≡ slice_get values.now position) }
    ensures fault { FailsWith (values_fault kind values.now) result }
{
    let mut encoding = Vec::new(alloc);
    list2::encode(packer, kind, values, &mut encoding)?;
    let list = PackedList::open(*packer, &encoding)?;
    Ok(list.get(position))
}

/// Packs sorted values as one list and finds in it the first value that is at least a target.
pub fn search<P: BitPacker>(
    alloc: Global,
    packer: &P,
    values: &[u32],
    target: u32,
) -> Result<Option<(usize, u32)>, ListError>
    ensures first { IfOk result (λ found. found ≡ first_at_least values.now target) }
    ensures fault { FailsWith (values_fault ListKind.Sorted values.now) result }
{
    let mut encoding = Vec::new(alloc);
    list2::encode(packer, ListKind::Sorted, values, &mut encoding)?;
    let list = PackedList::open(*packer, &encoding)?;
    Ok(list.seek(target, &mut Reads::new()))
}
