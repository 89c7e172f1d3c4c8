//! Calls that just meet their preconditions. Each edit of this file breaks one of these and leaves the others.

ghost use Rattle.std.specs.Prelude.{◌≡◌, length, take};
ghost use Rattle.bitpacking.specs.declared.kind.Kind.TheVariants.{Plain};
ghost use Rattle.bitpacking.specs.Layout.{Holds};
ghost use Rattle.bitpacking.specs.Width.{Fits};

use bitpack::ListKind;
use bitpack::chain::{pack_all, unpack_all};
use bitpack::list2::{self, PackedList, Reads};
use bitpacking::{BitPacker, BitPacker1x, BitPacker4x, Kind, Steps, Unmeasured};

/// The width of a block of four lanes.
pub fn width() -> u8 {
    BitPacker4x::new().num_bits(&[5; 128])
}

/// Packs a block at width 0. No byte is written.
pub fn pack_at_0() -> usize {
    BitPacker1x::new().compress(&[0; 32], &mut [], 0)
}

/// Packs a block at width 1. Its greatest value is 1.
pub fn pack_at_1() -> usize {
    BitPacker1x::new().compress(&[1; 32], &mut [0; 4], 1)
}

/// Packs a block at the greatest width.
pub fn pack_at_32() -> usize {
    BitPacker1x::new().compress(&[u32::MAX; 32], &mut [0; 128], 32)
}

/// Packs values that need two bits at width 1, by the call that does not require that they fit.
pub fn pack_twos_at_1() -> usize {
    let mut steps = Steps::new();
    BitPacker1x::new().pack_unmeasured(Kind::Plain, &[2; 32], &mut [0; 4], 1, &mut steps)
}

/// Packs bits by that call. The bytes then hold them, since they fit width 1.
pub fn pack_bits(bits: &[u32], bytes: &mut [u8]) -> usize
    requires bits { length bits.now ≡ 32 }
    requires fits { Fits bits.now 1 }
    requires bytes { length bytes.old ≡ 4 }
    ensures { Holds 1 1 Plain bits.now (take 4 bytes.new) }
{
    BitPacker1x::new().pack_unmeasured(Kind::Plain, bits, bytes, 1, &mut Steps::new())
}

/// Unpacks a block of width 1.
// claim: uses/4 each precondition is needed
pub fn unpack() -> usize {
    BitPacker1x::new().decompress(&[0xff; 4], &mut [0; 32], 1)
}

/// Packs two blocks.
pub fn pack_chain() -> usize {
    let packer = BitPacker1x::new();
    pack_all(&packer, Kind::Plain, &[1; 64], &mut [0; 2], &mut [0; 256])
}

/// Unpacks two blocks of the widths 1 and 2.
pub fn unpack_chain() -> usize {
    let packer = BitPacker1x::new();
    unpack_all(&packer, Kind::Plain, &[1, 2], &[0xff; 12], &mut [0; 64])
}

/// Searches a list that is not plain. The bytes may be untrusted.
pub fn seek(encoding: &[u8], target: u32) -> Option<(usize, u32)> {
    let list = PackedList::open(BitPacker1x::new(), encoding).ok()?;
    if list.kind() == ListKind::Plain {
        return None;
    }
    list.seek(target, &mut Reads::new())
}

/// Appends what two lists share. Neither may be plain. The bytes may be untrusted.
pub fn intersect(first: &[u8], second: &[u8], out: &mut Vec<u32>) -> Option<()> {
    let a = PackedList::open(BitPacker1x::new(), first).ok()?;
    let b = PackedList::open(BitPacker1x::new(), second).ok()?;
    if a.kind() == ListKind::Plain {
        return None;
    }
    if b.kind() == ListKind::Plain {
        return None;
    }
    list2::intersect(&a, &b, out, &mut Reads::new(), &mut Reads::new()).ok()
}
