//! The calls on blocks of 128 values, and on chains of them: `BitPacker4x` for C.

ghost use Rattle.std.specs.Prelude.{Some};
ghost use Rattle.bitpacking.specs.declared.kind.Kind.TheVariants.{Plain, Sorted, StrictlySorted};
ghost use Rattle.bitpacking_c.specs.Answers.{Answers, GivesWidth, Packs, PacksAll, PacksLeast, Unpacks, UnpacksAll};

use crate::call_error::number;
use crate::{block, chain};
use bitpacking::{BitPacker, BitPacker4x, Kind};

/// Packs a block at its least width, which goes into `num_bits`. Returns the number of bytes.
#[unsafe(no_mangle)]
pub extern "C" fn bitpacking_4x_pack(
    decompressed: &[u32],
    compressed: &mut [u8],
    num_bits: &mut u8,
) -> isize
    // claim: c/1-4 `compress`, `pack`, `decompress`, `num_bits`: as `blocks/1-5`
    ensures { Answers result
        (PacksLeast 4 num_bits.old num_bits.new Plain decompressed.now compressed.old compressed.new) }
{
    number(block::pack(
        &BitPacker4x::new(),
        Kind::Plain,
        decompressed,
        compressed,
        num_bits,
    ))
}

/// Packs a block at a width. Returns the number of bytes.
#[unsafe(no_mangle)]
pub extern "C" fn bitpacking_4x_compress(
    decompressed: &[u32],
    compressed: &mut [u8],
    num_bits: u8,
) -> isize
    ensures { Answers result (Packs 4 num_bits Plain decompressed.now compressed.old compressed.new) }
{
    number(block::compress(
        &BitPacker4x::new(),
        Kind::Plain,
        decompressed,
        compressed,
        num_bits,
    ))
}

/// Unpacks a block. Returns the number of bytes read.
#[unsafe(no_mangle)]
pub extern "C" fn bitpacking_4x_decompress(
    compressed: &[u8],
    decompressed: &mut [u32],
    num_bits: u8,
) -> isize
    ensures { Answers result (Unpacks 4 num_bits Plain compressed.now decompressed.old decompressed.new) }
{
    number(block::decompress(
        &BitPacker4x::new(),
        Kind::Plain,
        compressed,
        decompressed,
        num_bits,
    ))
}

/// The least width of a block, from 0 to 32.
#[unsafe(no_mangle)]
pub extern "C" fn bitpacking_4x_num_bits(decompressed: &[u32]) -> isize
    ensures { Answers result (GivesWidth 4 Plain decompressed.now) }
{
    number(block::num_bits(&BitPacker4x::new(), Kind::Plain, decompressed))
}

/// Packs a chain of such blocks, each at its least width. Returns the number of bytes.
#[unsafe(no_mangle)]
pub extern "C" fn bitpacking_4x_pack_all(values: &[u32], widths: &mut [u8], out: &mut [u8]) -> isize
    ensures { Answers result (PacksAll 4 Plain values.now widths.old widths.new out.old out.new) }
{
    number(chain::pack_all(&BitPacker4x::new(), Kind::Plain, values, widths, out))
}

/// Unpacks a chain of such blocks. Returns the number of bytes read.
#[unsafe(no_mangle)]
pub extern "C" fn bitpacking_4x_unpack_all(widths: &[u8], bytes: &[u8], values: &mut [u32]) -> isize
    ensures { Answers result (UnpacksAll 4 Plain widths.now bytes.now values.old values.new) }
{
    number(chain::unpack_all(&BitPacker4x::new(), Kind::Plain, widths, bytes, values))
}

/// Packs the differences of a block, the first of them from `initial`, at its least width, which goes into `num_bits`.
/// Returns the number of bytes.
#[unsafe(no_mangle)]
pub extern "C" fn bitpacking_4x_pack_sorted(
    initial: u32,
    decompressed: &[u32],
    compressed: &mut [u8],
    num_bits: &mut u8,
) -> isize
    ensures { Answers result
        (PacksLeast 4 num_bits.old num_bits.new (Sorted initial) decompressed.now compressed.old compressed.new) }
{
    number(block::pack(
        &BitPacker4x::new(),
        Kind::Sorted(initial),
        decompressed,
        compressed,
        num_bits,
    ))
}

/// Packs the differences of a block, the first of them from `initial`, at a width. Returns the number of bytes.
#[unsafe(no_mangle)]
pub extern "C" fn bitpacking_4x_compress_sorted(
    initial: u32,
    decompressed: &[u32],
    compressed: &mut [u8],
    num_bits: u8,
) -> isize
    ensures { Answers result (Packs 4 num_bits (Sorted initial) decompressed.now compressed.old compressed.new) }
{
    number(block::compress(
        &BitPacker4x::new(),
        Kind::Sorted(initial),
        decompressed,
        compressed,
        num_bits,
    ))
}

/// Unpacks a block that was packed with the same `initial`. Returns the number of bytes read.
#[unsafe(no_mangle)]
pub extern "C" fn bitpacking_4x_decompress_sorted(
    initial: u32,
    compressed: &[u8],
    decompressed: &mut [u32],
    num_bits: u8,
) -> isize
    ensures { Answers result (Unpacks 4 num_bits (Sorted initial) compressed.now decompressed.old decompressed.new) }
{
    number(block::decompress(
        &BitPacker4x::new(),
        Kind::Sorted(initial),
        compressed,
        decompressed,
        num_bits,
    ))
}

/// The least width of the differences of a block.
#[unsafe(no_mangle)]
pub extern "C" fn bitpacking_4x_num_bits_sorted(initial: u32, decompressed: &[u32]) -> isize
    ensures { Answers result (GivesWidth 4 (Sorted initial) decompressed.now) }
{
    number(block::num_bits(&BitPacker4x::new(), Kind::Sorted(initial), decompressed))
}

/// Packs a chain of such blocks, each at its least width. Returns the number of bytes.
#[unsafe(no_mangle)]
pub extern "C" fn bitpacking_4x_pack_all_sorted(
    initial: u32,
    values: &[u32],
    widths: &mut [u8],
    out: &mut [u8],
) -> isize
    ensures { Answers result (PacksAll 4 (Sorted initial) values.now widths.old widths.new out.old out.new) }
{
    number(chain::pack_all(
        &BitPacker4x::new(),
        Kind::Sorted(initial),
        values,
        widths,
        out,
    ))
}

/// Unpacks a chain of such blocks. Returns the number of bytes read.
#[unsafe(no_mangle)]
pub extern "C" fn bitpacking_4x_unpack_all_sorted(
    initial: u32,
    widths: &[u8],
    bytes: &[u8],
    values: &mut [u32],
) -> isize
    ensures { Answers result (UnpacksAll 4 (Sorted initial) widths.now bytes.now values.old values.new) }
{
    number(chain::unpack_all(
        &BitPacker4x::new(),
        Kind::Sorted(initial),
        widths,
        bytes,
        values,
    ))
}

/// Packs one less than the differences of a block, the first of them from `initial`, at its least width, which goes into
/// `num_bits`. Returns the number of bytes.
#[unsafe(no_mangle)]
pub extern "C" fn bitpacking_4x_pack_strictly_sorted(
    initial: u32,
    decompressed: &[u32],
    compressed: &mut [u8],
    num_bits: &mut u8,
) -> isize
    ensures { Answers result (PacksLeast 4 num_bits.old num_bits.new
        (StrictlySorted (Some initial)) decompressed.now compressed.old compressed.new) }
{
    number(block::pack(
        &BitPacker4x::new(),
        Kind::StrictlySorted(Some(initial)),
        decompressed,
        compressed,
        num_bits,
    ))
}

/// Packs one less than the differences of a block, the first of them from `initial`, at a width. Returns the number of
/// bytes.
#[unsafe(no_mangle)]
pub extern "C" fn bitpacking_4x_compress_strictly_sorted(
    initial: u32,
    decompressed: &[u32],
    compressed: &mut [u8],
    num_bits: u8,
) -> isize
    ensures { Answers result
        (Packs 4 num_bits (StrictlySorted (Some initial)) decompressed.now compressed.old compressed.new) }
{
    number(block::compress(
        &BitPacker4x::new(),
        Kind::StrictlySorted(Some(initial)),
        decompressed,
        compressed,
        num_bits,
    ))
}

/// Unpacks a block that was packed with the same `initial`. Returns the number of bytes read.
#[unsafe(no_mangle)]
pub extern "C" fn bitpacking_4x_decompress_strictly_sorted(
    initial: u32,
    compressed: &[u8],
    decompressed: &mut [u32],
    num_bits: u8,
) -> isize
    ensures { Answers result
        (Unpacks 4 num_bits (StrictlySorted (Some initial)) compressed.now decompressed.old decompressed.new) }
{
    number(block::decompress(
        &BitPacker4x::new(),
        Kind::StrictlySorted(Some(initial)),
        compressed,
        decompressed,
        num_bits,
    ))
}

/// The least width of the differences of a block, each one less.
#[unsafe(no_mangle)]
pub extern "C" fn bitpacking_4x_num_bits_strictly_sorted(
    initial: u32,
    decompressed: &[u32],
) -> isize
    ensures { Answers result (GivesWidth 4 (StrictlySorted (Some initial)) decompressed.now) }
{
    number(block::num_bits(
        &BitPacker4x::new(),
        Kind::StrictlySorted(Some(initial)),
        decompressed,
    ))
}

/// Packs a chain of such blocks, each at its least width. Returns the number of bytes.
#[unsafe(no_mangle)]
pub extern "C" fn bitpacking_4x_pack_all_strictly_sorted(
    initial: u32,
    values: &[u32],
    widths: &mut [u8],
    out: &mut [u8],
) -> isize
    ensures { Answers result
        (PacksAll 4 (StrictlySorted (Some initial)) values.now widths.old widths.new out.old out.new) }
{
    number(chain::pack_all(
        &BitPacker4x::new(),
        Kind::StrictlySorted(Some(initial)),
        values,
        widths,
        out,
    ))
}

/// Unpacks a chain of such blocks. Returns the number of bytes read.
#[unsafe(no_mangle)]
pub extern "C" fn bitpacking_4x_unpack_all_strictly_sorted(
    initial: u32,
    widths: &[u8],
    bytes: &[u8],
    values: &mut [u32],
) -> isize
    ensures { Answers result (UnpacksAll 4 (StrictlySorted (Some initial)) widths.now bytes.now values.old values.new) }
{
    number(chain::unpack_all(
        &BitPacker4x::new(),
        Kind::StrictlySorted(Some(initial)),
        widths,
        bytes,
        values,
    ))
}
