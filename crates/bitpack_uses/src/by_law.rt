//! What the laws of blocks are good for. Each function calls one law, and its contract needs it.

ghost use Rattle.std.specs.Prelude.{◌≡◌, ◌≢◌, ◌+◌, Some, ◌*◌, ◌^◌, ◌<◌, ◌≤◌, ℕ, List, ◌∷◌, Decides, length, take};
ghost use Rattle.std.specs.List.Sorted.{IsNonDecreasing, IsStrictlyIncreasing};
ghost use Rattle.bitpacking.specs.declared.kind.Kind.{Kind};
ghost use Rattle.bitpacking.specs.Bits.{AreBytes};
ghost use Rattle.bitpacking.specs.Calls.{CanPack, CanUnpack, IsPacked, IsUnpacked};
ghost use Rattle.bitpacking.specs.Codes.{AreWords, codes};
ghost use Rattle.bitpacking.specs.Laws.{lane_bytes, lane_codes, plain_differences};
ghost use Rattle.bitpacking.specs.Layout.{Layout, codes_of, place, size};
ghost use Rattle.bitpacking.specs.Width.{Fits, IsWidth, Least};

use bitpacking::laws::{
    equal_calls_leave_equal_buffers, lanes_are_one_lane_layouts, none_is_the_last_number,
    one_block, one_layout, one_least_width, round_trips, sorted_codes_are_differences,
    strict_saves_at_most_a_bit,
};
use bitpacking::{BitPacker, Kind};

/// Packs two blocks at one width, the least that fits both, and returns it.
pub fn at_one_width<P: BitPacker>(
    packer: &P,
    first: &[u32],
    second: &[u32],
    bytes: &mut [u8],
    others: &mut [u8],
) -> u8
    requires first { length first.now ≡ P.BLOCK_LEN }
    requires second { length second.now ≡ P.BLOCK_LEN }
    requires bytes { 4 * P.BLOCK_LEN ≤ length bytes.old }
    requires others { 4 * P.BLOCK_LEN ≤ length others.old }
    ensures first { IsPacked P.lanes result Kind.Plain first.now bytes.old bytes.new }
    ensures second { IsPacked P.lanes result Kind.Plain second.now others.old others.new }
{
    one_least_width();
    let width = packer.num_bits(first).max(packer.num_bits(second));
    packer.compress(first, bytes, width);
    packer.compress(second, others, width);
    width
}

/// The strict width of the first block of a list.
pub fn first_width<P: BitPacker>(packer: &P, block: &[u32]) -> u8
    requires { length block.now ≡ P.BLOCK_LEN }
    ensures { IsWidth (Kind.StrictlySorted None) block.now result }
{
    none_is_the_last_number();
    packer.num_bits_strictly_sorted(Some(u32::MAX), block)
}

/// How many bits a value the strict kind saves.
pub fn saved_bits<P: BitPacker>(packer: &P, initial: u32, block: &[u32]) -> u8
    requires block { length block.now ≡ P.BLOCK_LEN }
    requires order { IsStrictlyIncreasing (initial ∷ block.now) }
    ensures saved { (sorted strict : ℕ) × IsWidth (Kind.Sorted initial) block.now sorted
        × IsWidth (Kind.StrictlySorted (Some initial)) block.now strict
        × (result + strict ≡ sorted) }
    ensures few { result ≤ 1 }
{
    strict_saves_at_most_a_bit();
    let sorted = packer.num_bits_sorted(initial, block);
    sorted - packer.num_bits_strictly_sorted(Some(initial), block)
}

/// The width of the differences of a block in order.
pub fn difference_width<P: BitPacker>(packer: &P, initial: u32, block: &[u32]) -> u8
    requires block { length block.now ≡ P.BLOCK_LEN }
    requires order { IsNonDecreasing (initial ∷ block.now) }
    ensures { Least (plain_differences initial block.now) result }
{
    sorted_codes_are_differences();
    packer.num_bits_sorted(initial, block)
}

/// Packs a block by two packers of one format, over equal bytes.
pub fn packed_by_two<P: BitPacker, Q: BitPacker>(
    packer: &P,
    other: &Q,
    block: &[u32],
    width: u8,
    bytes: &mut [u8],
    others: &mut [u8],
)
    requires format { Q.lanes ≡ P.lanes }
    requires pack { CanPack P.lanes width Kind.Plain block.now bytes.old }
    requires equal { others.old ≡ bytes.old }
    ensures packed { IsPacked P.lanes width Kind.Plain block.now bytes.old bytes.new }
    ensures same { others.new ≡ bytes.new }
{
    equal_calls_leave_equal_buffers();
    packer.compress(block, bytes, width);
    other.compress(block, others, width);
}

/// Unpacks bytes and packs the block again.
pub fn packed_again<P: BitPacker>(
    packer: &P,
    bytes: &[u8],
    width: u8,
    block: &mut [u32],
    again: &mut [u8],
)
    requires width { width ≤ 32 }
    requires bytes { length bytes.now ≡ size P.lanes width }
    requires block { length block.old ≡ P.BLOCK_LEN }
    requires again { length again.old ≡ size P.lanes width }
    ensures { again.new ≡ bytes.now }
{
    round_trips();
    packer.decompress(bytes, block, width);
    packer.compress(block, again, width);
}

/// Unpacks a plain block: it is the codes that the bytes hold.
pub fn codes_in<P: BitPacker>(packer: &P, bytes: &[u8], width: u8, block: &mut [u32])
    requires width { width ≤ 32 }
    requires bytes { length bytes.now ≡ size P.lanes width }
    requires block { length block.old ≡ P.BLOCK_LEN }
    ensures { block.new ≡ codes_of P.lanes width bytes.now }
{
    one_layout();
    packer.decompress(bytes, block, width);
}

/// Packs a plain block: its bytes are the only ones that hold it.
pub fn the_only_bytes<P: BitPacker>(packer: &P, block: &[u32], width: u8, bytes: &mut [u8])
    requires pack { CanPack P.lanes width Kind.Plain block.now bytes.old }
    ensures { (others : List ℕ) → AreBytes others → Layout P.lanes width block.now others
        → others ≡ take (size P.lanes width) bytes.new }
{
    one_layout();
    packer.compress(block, bytes, width);
}

/// Each of the 96 bits of a block of one lane at width 3 is a bit of one of its codes.
pub fn every_bit_is_used()
    ensures { (bit : ℕ) → bit < 96 → (code : ℕ) × (j : ℕ) × (code < 32) × (j < 3) × (place 1 3 code j ≡ bit) }
{
    one_layout();
}

/// No bit of such a block is a bit of two codes, or two bits of one.
pub fn no_bit_is_used_twice()
    ensures { (bit code other j k : ℕ) → bit < 96 → code < 32 → other < 32 → j < 3 → k < 3
        → place 1 3 code j ≡ bit → place 1 3 other k ≡ bit → (other ≡ code) × (k ≡ j) }
{
    one_layout();
}

/// Any 32 codes of 3 bits have bytes, and any 12 bytes have codes.
pub fn codes_and_bytes_are_free()
    ensures bytes { (codes : List ℕ) → length codes ≡ 32 → Fits codes 3
        → (bytes : List ℕ) × AreBytes bytes × Layout 1 3 codes bytes }
    ensures codes { (bytes : List ℕ) → length bytes ≡ 12 → (codes : List ℕ) × Layout 1 3 codes bytes }
{
    one_layout();
}

/// Packs two blocks at one width and compares their bytes: they differ exactly if the blocks do.
pub fn differ<P: BitPacker>(
    packer: &P,
    first: &[u32],
    second: &[u32],
    width: u8,
    bytes: &mut [u8],
    others: &mut [u8],
) -> bool
    requires first { CanPack P.lanes width Kind.Plain first.now bytes.old }
    requires second { CanPack P.lanes width Kind.Plain second.now others.old }
    ensures { Decides result (first.now ≢ second.now) }
{
    round_trips();
    let size = packer.compress(first, bytes, width);
    packer.compress(second, others, width);
    are_other_bytes(&bytes[..size], &others[..size])
}

/// Whether two lists of bytes differ.
fn are_other_bytes(bytes: &[u8], others: &[u8]) -> bool
    ensures other { Decides result (bytes.now ≢ others.now) }
    ensures bytes { AreBytes bytes.now }
    ensures others { AreBytes others.now }
{
    bytes != others
}

/// Unpacks bytes by two packers of one format, over equal values.
pub fn unpacked_by_two<P: BitPacker, Q: BitPacker>(
    packer: &P,
    other: &Q,
    bytes: &[u8],
    width: u8,
    values: &mut [u32],
    others: &mut [u32],
)
    requires format { Q.lanes ≡ P.lanes }
    requires unpack { CanUnpack P.lanes width bytes.now values.old }
    requires equal { others.old ≡ values.old }
    ensures unpacked { IsUnpacked P.lanes width Kind.Plain bytes.now values.old values.new }
    ensures same { others.new ≡ values.new }
{
    equal_calls_leave_equal_buffers();
    packer.decompress(bytes, values, width);
    other.decompress(bytes, others, width);
}

/// The width of a block by two packers of one format, which is the same.
pub fn width_by_two<P: BitPacker, Q: BitPacker>(packer: &P, other: &Q, block: &[u32]) -> (u8, u8)
    requires format { Q.lanes ≡ P.lanes }
    requires block { length block.now ≡ P.BLOCK_LEN }
    ensures width { IsWidth Kind.Plain block.now result.0 }
    ensures same { result.1 ≡ result.0 }
{
    one_least_width();
    (packer.num_bits(block), other.num_bits(block))
}

/// Any words are the differences of some block, which is of words too.
pub fn differences_are_free()
    ensures { (initial : ℕ) (words : List ℕ) → initial < 2 ^ 32 → AreWords words
        → (block : List ℕ) × AreWords block × (codes (Kind.Sorted initial) block ≡ words) }
{
    one_block();
}

/// Blocks of the same differences are equal.
pub fn differences_are_of_one_block()
    ensures { (initial : ℕ) (block other : List ℕ) → initial < 2 ^ 32 → AreWords block → AreWords other
        → AreWords (codes (Kind.Sorted initial) block)
        → codes (Kind.Sorted initial) other ≡ codes (Kind.Sorted initial) block → other ≡ block }
{
    one_block();
}

/// Codes have a least width.
pub fn a_least_width()
    ensures { (codes : List ℕ) → AreWords codes → (width : ℕ) × (width ≤ 32) × Least codes width }
{
    one_least_width();
}

/// Lane 2 of a block of four lanes is a block of one lane.
pub fn lane_2_of_4()
    ensures { (width : ℕ) (codes bytes : List ℕ) → Layout 4 width codes bytes
        → Layout 1 width (lane_codes 4 2 codes) (lane_bytes 4 2 width bytes) }
{
    lanes_are_one_lane_layouts();
}
