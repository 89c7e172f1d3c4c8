//! Ids that are listed in increasing order: integers of two or four bytes.
//! FORMAT.md, "Chunks" (numbers) and "Id sets" (an array).

pub mod filtering;
pub mod merging;

ghost use Rattle.std.specs.Prelude.{◌≡◌, ◌+◌, ◌^◌, ◌<◌, ◌≤◌, [], ◌∷◌, if◌then◌else◌, map};
ghost use Rattle.std.proofs.Props.{props};
ghost use Rattle.bitpack_slices.specs.Follows.{Follow};
ghost use Rattle.bitpack_slices.specs.Props.{rising_prop};
ghost use Rattle.bitpack_slices.specs.Bodies.{IsRising};
ghost use Rattle.bitpack_slices.specs.Slices.{integers_of, pairs_of, quads_of};

use crate::bitmap::single_bits::set_bit;
use crate::bitmap::writing::{LONGEST_BLOCKS, write_blocks};
use crate::chunk::search::number_at;
use crate::integers::id_at;

/// A list of ids.
#[derive(Clone, Copy)]
pub struct Listed<'a> {
    // Whether each has four bytes, and what is added to each.
    wide: bool,
    base: u32,
    bytes: &'a [u8],
    ghost rising: { IsRising 0 (2 ^ 32) (map (λ x. base + x) (integers_of wide bytes.now)) } by { Prim.hlevel (props, rising_prop) },
}

impl<'a> Listed<'a> {
    ghost use Rattle.std.specs.Prelude.{◌≡◌, ℕ, ◌+◌, ◌%◌, ◌/◌, ◌<◌, ◌≤◌, false, length, map, slice_index, take};
    ghost use Rattle.bitpack_slices.specs.Bitmaps.{has_bit};
    ghost use Rattle.bitpack_slices.specs.Lists.{listed_ids};
    ghost use Rattle.bitpack_slices.specs.Reads.{has};
    ghost use Rattle.bitpack_slices.specs.Slices.{IsBlocks, block_numbers};

    /// Ids of four bytes.
    pub fn ids(bytes: &'a [u8]) -> Listed<'a>
        requires { IsRising 0 (2 ^ 32) (quads_of bytes.now) }
        ensures { listed_ids result ≡ quads_of bytes.now }
    {
        Listed {
            wide: true,
            base: 0,
            bytes,
        }
    }

    /// Numbers of two bytes, each with `base` added.
    pub fn numbers(base: u32, bytes: &'a [u8]) -> Listed<'a>
        requires fits { base + 65536 ≤ 2 ^ 32 }
        requires rising { IsRising 0 65536 (pairs_of bytes.now) }
        ensures { listed_ids result ≡ map (λ x. base + x) (pairs_of bytes.now) }
    {
        Listed {
            wide: false,
            base,
            bytes,
        }
    }

    /// How many there are.
    #[inline(always)]
    pub(crate) fn len(&self) -> usize
        ensures { result ≡ length (listed_ids self.now) }
    {
        if self.wide {
            self.bytes.len() / 4
        } else {
            self.bytes.len() / 2
        }
    }

    /// How many bytes they have.
    #[inline(always)]
    pub(crate) fn bytes_len(&self) -> usize {
        self.bytes.len()
    }

    /// The id at a position.
    #[inline(always)]
    pub(crate) fn at(&self, position: usize) -> u32
        requires { position < length (listed_ids self.now) }
        ensures { result ≡ slice_index (listed_ids self.now) position }
    {
        if self.wide {
            self.base + id_at(self.bytes, position)
        } else {
            self.base + number_at(self.bytes, position) as u32
        }
    }

    /// Sets the bit of the low 16 bits of each id. Returns bits for their high bytes.
    pub(crate) fn set_bits(&self, words: &mut [u64; 1024]) -> [u64; 4]
        requires { (x : ℕ) → has_bit words.old x ≡ false }
        ensures bits { (x : ℕ) → has_bit words.new x ≡ has x (map (λ id. id % 65536) (listed_ids self.now)) }
        ensures highs { (x : ℕ) → has_bit result (x / 256) ≡ false → has x (map (λ id. id % 65536) (listed_ids self.now)) ≡ false }
    {
        let mut highs = [0; 4];
        for position in 0..self.len() {
            let low = (self.at(position) % 65536) as usize;
            set_bit(&mut highs, low / 256);
            set_bit(words, low);
        }
        highs
    }

    /// Writes the low 16 bits of the ids as blocks. Returns how many bytes it wrote.
    pub(crate) fn write_blocks(&self, out: &mut [u8; LONGEST_BLOCKS]) -> usize
        requires some { 0 < length (listed_ids self.now) }
        ensures few { result ≤ 8449 }
        ensures are { IsBlocks (length (block_numbers (take result out.new))) (take result out.new) }
        ensures numbers { (x : ℕ) → x < 65536 → has x (block_numbers (take result out.new)) ≡ has x (map (λ id. id % 65536) (listed_ids self.now)) }
    {
        let mut words = [0; 1024];
        self.set_bits(&mut words);
        write_blocks(&words, out)
    }
}

/// Writes an id if it is in the answer. Returns the index of the next one, also if there was no room.
///
/// No branch depends on the ids: it writes also an id that is not in the answer, and the next one over it.
#[inline(always)]
pub(crate) fn put(id: u32, there: bool, out: &mut [u32], at: usize) -> usize
    requires { at < 2 ^ 63 }
    ensures { Follow (if there then id ∷ [] else []) out.old out.new at result }
{
    if at < out.len() {
        out[at] = id;
    }
    at + there as usize
}
