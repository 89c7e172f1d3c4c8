//! The chunks of a set of any form: a chunk is the ids that share their high 16 bits, its key.
//! FORMAT.md, "Id sets" and "Chunks".

ghost use Rattle.std.specs.Prelude.{◌≡◌, ◌≢◌, ◌^◌, ◌≤◌};
ghost use Rattle.std.proofs.Props.{props};
ghost use Rattle.bitpacking.specs.Bits.{AreBytes};
ghost use Rattle.bitpack_slices.specs.Props.{rising_prop};
ghost use Rattle.bitpack_slices.specs.Bodies.{IsRising};
ghost use Rattle.bitpack_slices.specs.Slices.{quads_of};
ghost use Rattle.bitpack_sets.specs.Sound.{IsRest};

use crate::array::in_array;
use crate::directory::{Directory, key_at};
use bitpack_slices::bitmap::loading::{clear, integer_highs, load_integers};
use bitpack_slices::body::Body;
use bitpack_slices::chunk::Lows;
use bitpack_slices::integers::id_at;
use bitpack_slices::listed::Listed;

/// The key after all keys.
pub const NO_KEY: u32 = 65536;

/// The chunks of a set. A position is the index of a chunk, or the index of an id in an array.
#[derive(Clone, Copy)]
pub struct Chunks<'a> {
    // How many chunks a set in chunks has, 0 of an array.
    count: usize,
    // What is after the counts of a set in chunks, or the ids of an array.
    rest: &'a [u8],
    // How many ids a set in chunks has.
    ids: usize,
    ghost few: { count ≤ 65536 },
    ghost most: { ids ≤ 2 ^ 28 },
    ghost are_bytes: { AreBytes rest.now },
    ghost sound: { count ≢ 0 → IsRest ids count rest.now } by { Prim.hlevel (props, rising_prop) },
    ghost rising: { count ≡ 0 → IsRising 0 (2 ^ 32) (quads_of rest.now) } by { Prim.hlevel (props, rising_prop) },
}

impl<'a> Chunks<'a> {
    ghost use Rattle.std.specs.Prelude.{ℕ, ◌+◌, ◌*◌, ◌/◌, ◌%◌, ◌<◌, IfSome, false, length, slice_index};
    ghost use Rattle.bitpack_slices.specs.Bitmaps.{Represents, has_bit, has_high};
    ghost use Rattle.bitpack_sets.specs.Chunks.{AreBetween, first_key, ids_from, lows_between, positions};
    ghost use Rattle.bitpack_sets.specs.Directory.{body_at, body_numbers_of, count_at};
    ghost use Rattle.bitpack_sets.specs.Forms.{directory_ids};
    ghost use Rattle.bitpack_slices.specs.Lows.{AreLows, lows};
    ghost use Rattle.bitpack_slices.specs.Lists.{OfKey, body_lows, listed_ids};
    ghost use Rattle.bitpack_sets.specs.Pairs.{IsSpan};
    ghost use Rattle.bitpack_sets.specs.Sets.{body};
    ghost use Rattle.bitpack_slices.specs.Reads.{has};

    /// The chunks of a set in chunks.
    pub(crate) fn new(directory: Directory<'a>) -> Chunks<'a>
        ensures ids { ids_from result 0 ≡ directory_ids directory.entry }
        ensures places { positions result ≡ directory.entry.chunks }
    {
        Chunks {
            count: directory.chunks,
            rest: directory.rest,
            ids: directory.count,
        }
    }

    /// The chunks of ids of four bytes.
    pub(crate) fn of_array(rest: &'a [u8]) -> Chunks<'a>
        requires { IsRising 0 (2 ^ 32) (quads_of rest.now) }
        ensures ids { ids_from result 0 ≡ quads_of rest.now }
        ensures places { positions result ≡ length (quads_of rest.now) }
    {
        Chunks {
            count: 0,
            rest,
            ids: 0,
        }
    }

    /// The numbers of a chunk of a set in chunks.
    #[inline(always)]
    fn lows(&self, chunk: usize) -> Lows<'a>
        requires chunks { self.now.count ≢ 0 }
        requires within { chunk < self.now.count }
        ensures are { AreLows result }
        ensures lows { lows result ≡ body_numbers_of (count_at self.now.count self.now.rest.now chunk) (body_at self.now.count self.now.rest.now chunk) }
    {
        let directory = Directory {
            count: self.ids,
            chunks: self.count,
            rest: self.rest,
        };
        directory.lows(chunk)
    }

    /// The position after the last.
    #[inline(always)]
    pub fn len(&self) -> usize
        ensures { result ≡ positions self.now }
    {
        if self.count == 0 {
            self.rest.len() / 4
        } else {
            self.count
        }
    }

    /// The key of the first id from a position on, `NO_KEY` if there is none.
    #[inline(always)]
    pub fn key(&self, position: usize) -> u32
        ensures first { result ≡ first_key (ids_from self.now position) }
        ensures most { result ≤ NO_KEY }
        ensures none { (x : ℕ) → x / 65536 < result → has x (ids_from self.now position) ≡ false }
    {
        if position >= self.len() {
            NO_KEY
        } else if self.count == 0 {
            id_at(self.rest, position) >> 16
        } else {
            key_at(self.count, self.rest, position) as u32
        }
    }

    /// The first position from one on whose id has this key or a higher one, by halves.
    pub fn seek(&self, position: usize, key: u32) -> usize
        requires within { position ≤ positions self.now }
        requires key { key ≤ NO_KEY }
        ensures within { result ≤ positions self.now }
        ensures later { position ≤ result }
        ensures lower { (p : ℕ) → position ≤ p → p < result → first_key (ids_from self.now p) < key }
        ensures reached { key ≤ first_key (ids_from self.now result) }
        // It passes over only ids of lower keys.
        ensures ids { (x : ℕ) → key * 65536 ≤ x → has x (ids_from self.now position) ≡ has x (ids_from self.now result) }
    {
        let mut low = position;
        let mut left = self.len() - position;
        while left > 0 {
            let half = left / 2;
            if self.key(low + half) < key {
                low += half + 1;
                left -= half + 1;
            } else {
                left = half;
            }
        }
        low
    }

    /// The position after the ids of a key that begin at a position: this position, if its id has another key.
    pub fn end(&self, position: usize, key: u32) -> usize
        requires within { position ≤ positions self.now }
        requires key { key < NO_KEY }
        requires least { key ≤ first_key (ids_from self.now position) }
        ensures within { result ≤ positions self.now }
        ensures later { position ≤ result }
        ensures one { self.now.count ≢ 0 → result ≤ position + 1 }
        ensures passed { key < first_key (ids_from self.now result) }
        ensures none { (x : ℕ) → x / 65536 ≤ key → has x (ids_from self.now result) ≡ false }
        ensures shared { self.now.count ≡ 0 → (k : ℕ) → position ≤ k → k < result → slice_index (quads_of self.now.rest.now) k / 65536 ≡ key }
        ensures own { (x : ℕ) → x / 65536 ≡ key → has x (ids_from self.now position) ≡ has (x % 65536) (lows_between self.now position result) }
        ensures others { (x : ℕ) → key < x / 65536 → has x (ids_from self.now position) ≡ has x (ids_from self.now result) }
    {
        if self.key(position) != key {
            position
        } else if self.count == 0 {
            self.seek(position, key + 1)
        } else {
            position + 1
        }
    }

    /// Whether the set has an id, if the ids of its key are between two positions.
    pub(crate) fn has_between(&self, position: usize, end: usize, id: u32) -> bool
        requires { AreBetween self.now (id / 65536) position end }
        ensures { result ≡ has id (ids_from self.now 0) }
    {
        if position == end {
            return false;
        }
        if self.count == 0 {
            return in_array(&self.rest[4 * position..4 * end], id);
        }
        self.lows(position).contains((id % 65536) as u16)
    }

    /// The high bytes of the low 16 bits of the ids between two positions, which share a key.
    pub fn highs(&self, position: usize, end: usize) -> [u64; 4]
        requires within { (position ≤ end) × (end ≤ positions self.now) }
        requires one { self.now.count ≢ 0 → end ≤ position + 1 }
        ensures { (h : ℕ) → h < 256 → has_bit result h ≡ has_high h (lows_between self.now position end) }
    {
        if position == end {
            return [0; 4];
        }
        if self.count == 0 {
            return integer_highs(4, &self.rest[4 * position..4 * end]);
        }
        self.lows(position).highs()
    }

    /// Loads the low 16 bits of the ids between two positions, which share a key, if they have these high bytes.
    pub fn load(&self, position: usize, end: usize, highs: &[u32], words: &mut [u64; 1024])
        requires within { (position ≤ end) × (end ≤ positions self.now) }
        requires one { self.now.count ≢ 0 → end ≤ position + 1 }
        requires highs { IsRising 0 256 highs.now }
        ensures { Represents highs.now words.new (lows_between self.now position end) }
    {
        if position == end {
            clear(highs, words);
        } else if self.count == 0 {
            load_integers(4, &self.rest[4 * position..4 * end], highs, words);
        } else {
            self.lows(position).load(highs, words);
        }
    }

    /// The ids between two positions, which have this key.
    #[inline(always)]
    pub fn body(&self, key: u32, position: usize, end: usize) -> Body<'a>
        requires key { key < NO_KEY }
        requires span { IsSpan self.now key position end }
        ensures key { OfKey key result }
        ensures lows { body_lows result ≡ lows_between self.now position end }
    {
        if position == end {
            return Body::Ids(Listed::ids(&[]));
        }
        if self.count == 0 {
            return Body::Ids(Listed::ids(&self.rest[4 * position..4 * end]));
        }
        match self.lows(position) {
            Lows::Numbers(body) => Body::Ids(Listed::numbers(key * 65536, body)),
            Lows::Blocks(body) => Body::Blocks(body),
            Lows::Runs(runs) => Body::Runs(runs),
        }
    }

    /// How many ids are between two positions, which share a key.
    #[inline(always)]
    pub fn count(&self, position: usize, end: usize) -> usize
        requires later { position < end }
        requires within { end ≤ positions self.now }
        requires one { self.now.count ≢ 0 → end ≤ position + 1 }
        ensures { result ≡ length (lows_between self.now position end) }
    {
        match self.coded(position) {
            Some((count, _)) => count,
            None => end - position,
        }
    }

    /// How many ids a chunk has, and its body, if the set is in chunks.
    #[inline(always)]
    pub fn coded(&self, position: usize) -> Option<(usize, &'a [u8])>
        requires within { position < positions self.now }
        ensures chunks { IfSome result (λ _. self.now.count ≢ 0) }
        ensures none { result ≡ None → self.now.count ≡ 0 }
        ensures some { IfSome result (λ coded. 0 < coded.0) }
        ensures rising { IfSome result (λ _. IsRising 0 65536 (lows_between self.now position (position + 1))) }
        ensures small { IfSome result (λ coded. length coded.1.now ≤ 2 * coded.0) }
        ensures count { IfSome result (λ coded. coded.0 ≡ length (lows_between self.now position (position + 1))) }
        ensures body { IfSome result (λ coded. coded.1.now ≡ body (lows_between self.now position (position + 1))) }
    {
        if self.count == 0 {
            return None;
        }
        let directory = Directory {
            count: self.ids,
            chunks: self.count,
            rest: self.rest,
        };
        Some((directory.count_of(position), directory.body(position)))
    }

    /// All ids, if the set is not in chunks.
    pub fn listed(&self) -> Option<Listed<'a>>
        ensures { IfSome result (λ list. listed_ids list ≡ ids_from self.now 0) }
    {
        if self.count == 0 {
            Some(Listed::ids(self.rest))
        } else {
            None
        }
    }
}
