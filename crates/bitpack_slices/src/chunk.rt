//! Bodies: the numbers of a chunk as numbers of two bytes, as blocks, or as runs.
//!
//! FORMAT.md, "Chunks":
//!
//! ```text
//! numbers    k integers of two bytes, increasing
//! blocks     r - 1 | slice of the r high bytes that occur | r counts, each less 1 | r slices of low bytes
//! runs       01 FF | t boundaries of two bytes, increasing
//! ```

pub mod bounds;
pub mod parts;
pub mod place;
pub mod reading;
pub mod runs;
pub mod search;
pub mod testing;
pub mod writing;

ghost use Rattle.std.specs.Prelude.{◌≡◌, ℕ, ◌+◌, ◌^◌, ◌<◌, ◌≤◌, drop, length, map, max, slice_get, slice_index, take};
ghost use Rattle.bitpack_slices.specs.Bitmaps.{Represents, has_bit, has_high};
ghost use Rattle.bitpack_slices.specs.Bodies.{IsRising};
ghost use Rattle.bitpack_slices.specs.Lows.{AreLows, lows};
ghost use Rattle.bitpack_slices.specs.Reads.{has, rank};

use crate::bitmap::loading::{integer_highs, load_integers};
use crate::blocks::loading::load_blocks;
use crate::chunk::parts::Parts;
use crate::chunk::place::Place;
use crate::chunk::reading::unpack_numbers_from;
use crate::chunk::runs::Runs;
use crate::chunk::search::{in_numbers, number_at, rank_in_numbers, seek_in_numbers};

/// The numbers of a chunk: the low 16 bits of its ids.
#[derive(Clone, Copy)]
pub enum Lows<'a> {
    /// Two bytes for each.
    Numbers(&'a [u8]),
    /// Blocks of them.
    Blocks(&'a [u8]),
    /// Where runs of them begin and end.
    Runs(Runs<'a>),
}

impl<'a> Lows<'a> {
    ghost use Rattle.bitpack_slices.specs.Places.{IsPlace, before_of, counts_of};

    /// Whether a number is among them.
    #[inline(always)]
    pub fn contains(self, number: u16) -> bool
        requires { AreLows self }
        ensures { result ≡ has number (lows self.entry) }
    {
        match self {
            Lows::Numbers(body) => in_numbers(body, number),
            Lows::Blocks(body) => Parts::new(body).contains(number),
            Lows::Runs(runs) => runs.contains(number),
        }
    }

    /// How many are below a number.
    #[inline(always)]
    pub fn rank(self, number: u16) -> usize
        requires { AreLows self }
        ensures { result ≡ rank number (lows self.entry) }
    {
        match self {
            Lows::Numbers(body) => rank_in_numbers(body, number),
            Lows::Blocks(body) => Parts::new(body).rank(number),
            Lows::Runs(runs) => runs.rank(number),
        }
    }

    /// How many are below a number, and the first that is not, if there is one.
    #[inline(always)]
    pub fn seek(self, number: u16) -> (usize, Option<u16>)
        requires { AreLows self }
        ensures rank { result.0 ≡ rank number (lows self.entry) }
        ensures first { result.1 ≡ slice_get (lows self.entry) result.0 }
    {
        match self {
            Lows::Numbers(body) => seek_in_numbers(body, number),
            Lows::Blocks(body) => Parts::new(body).seek(number),
            Lows::Runs(runs) => runs.seek(number),
        }
    }

    /// The number at a position.
    #[inline(always)]
    pub fn select(self, position: usize) -> u16
        requires are { AreLows self }
        requires within { position < length (lows self) }
        ensures { result ≡ slice_index (lows self.entry) position }
    {
        match self {
            Lows::Numbers(body) => number_at(body, position),
            Lows::Blocks(body) => Parts::new(body).select(position),
            Lows::Runs(runs) => runs.select(position),
        }
    }

    /// Their high bytes, as bits.
    #[inline(always)]
    pub fn highs(self) -> [u64; 4]
        requires { AreLows self }
        ensures { (h : ℕ) → h < 256 → has_bit result h ≡ has_high h (lows self.entry) }
    {
        match self {
            Lows::Numbers(body) => integer_highs(2, body),
            Lows::Blocks(body) => Parts::new(body).high_bits(),
            Lows::Runs(runs) => runs.high_bits(),
        }
    }

    /// Loads those that have these high bytes into a bitmap.
    #[inline(always)]
    pub fn load(self, highs: &[u32], words: &mut [u64; 1024])
        requires are { AreLows self }
        requires highs { IsRising 0 256 highs.now }
        ensures { Represents highs.now words.new (lows self.entry) }
    {
        match self {
            Lows::Numbers(body) => load_integers(2, body, highs, words),
            Lows::Blocks(body) => load_blocks(body, highs, words),
            Lows::Runs(runs) => runs.load(highs, words),
        }
    }

    /// Writes those from a position on, as many as there is room for, each with `base` added. It begins at a slice that is not after the position, and
    /// returns one that is not after the end.
    #[inline(always)]
    pub fn unpack_at(self, place: Place, base: u32, from: usize, out: &mut [u32]) -> Place
        requires are { AreLows self }
        requires place { IsPlace (counts_of self) place }
        requires after { before_of place ≤ from }
        requires fits { base + 65536 ≤ 2 ^ 32 }
        requires begin { from < length (lows self) }
        requires within { from + length out.old ≤ length (lows self) }
        ensures numbers { out.new ≡ map (λ i. base + i) (take (length out.old) (drop from (lows self.entry))) }
        ensures place { IsPlace (counts_of self.entry) result }
        ensures after { before_of result ≤ from + length out.old }
    {
        match self {
            Lows::Numbers(body) => {
                unpack_numbers_from(body, base, from, out);
                place
            }
            Lows::Blocks(body) => Parts::new(body).unpack_at(place, base, from, out),
            Lows::Runs(runs) => {
                runs.unpack_from(base, from, out);
                place
            }
        }
    }

    /// How many are below a number, or before a slice if these are more; and the number at this position, if there is one. Also returns a slice that is
    /// not after it.
    #[inline(always)]
    pub fn seek_at(self, place: Place, number: u16) -> (Place, usize, Option<u16>)
        requires are { AreLows self }
        requires place { IsPlace (counts_of self) place }
        ensures place { IsPlace (counts_of self.entry) result.0 }
        ensures after { before_of result.0 ≤ result.1 }
        ensures within { result.1 ≤ length (lows self.entry) }
        ensures rank { result.1 ≡ max (before_of place) (rank number (lows self.entry)) }
        ensures first { result.2 ≡ slice_get (lows self.entry) result.1 }
    {
        match self {
            Lows::Numbers(body) => {
                let (position, first) = seek_in_numbers(body, number);
                (place, position, first)
            }
            Lows::Blocks(body) => Parts::new(body).seek_at(place, number),
            Lows::Runs(runs) => {
                let (position, first) = runs.seek(number);
                (place, position, first)
            }
        }
    }
}
