//! The ids of a set that share a key, their high 16 bits.

ghost use Rattle.std.specs.Prelude.{◌≡◌, ℕ, ◌/◌, ◌%◌, ◌<◌, ◌≤◌, true, false};
ghost use Rattle.bitpack_slices.specs.Bitmaps.{has_bit};
ghost use Rattle.bitpack_sets.specs.Opened.{ids};
ghost use Rattle.bitpack_queries.specs.Queries.{has_keys};
ghost use Rattle.bitpack_slices.specs.Reads.{has};
ghost use Rattle.bitpack_slices.specs.Bodies.{IsRising};

use bitpack_sets::IdSet;
use bitpack_sets::chunked::chunks_of;
use bitpack_sets::chunks::NO_KEY;
use bitpack_sets::id_set::ROOM;

/// The lowest key of ids from one on, `NO_KEY` if there is none.
pub(crate) fn key_from(set: &IdSet, from: u32) -> u32
    requires from { from ≤ NO_KEY }
    ensures least { from ≤ result }
    ensures most { result ≤ NO_KEY }
    ensures none { (x : ℕ) → from ≤ x / 65536 → x / 65536 < result → has x (ids set.now) ≡ false }
    ensures some { result < NO_KEY → has_keys result result (ids set.now) ≡ true }
{
    let mut room = [0; ROOM];
    let chunks = chunks_of(set, &mut room);
    chunks.key(chunks.seek(0, from))
}

/// The high bytes of ids that have this key.
pub(crate) fn highs_of(set: &IdSet, key: u32) -> [u64; 4]
    requires key { key < NO_KEY }
    ensures { (x : ℕ) → x / 65536 ≡ key → has_bit result (x % 65536 / 256) ≡ false → has x (ids set.now) ≡ false }
{
    let mut room = [0; ROOM];
    let chunks = chunks_of(set, &mut room);
    let position = chunks.seek(0, key);
    chunks.highs(position, chunks.end(position, key))
}

/// Loads the low 16 bits of ids that have this key, and one of these high bytes.
pub(crate) fn load_key(set: &IdSet, key: u32, highs: &[u32], words: &mut [u64; 1024])
    requires key { key < NO_KEY }
    requires highs { IsRising 0 256 highs.now }
    ensures { (x : ℕ) → x / 65536 ≡ key → has (x % 65536 / 256) highs.now ≡ true → has_bit words.new (x % 65536) ≡ has x (ids set.now) }
{
    let mut room = [0; ROOM];
    let chunks = chunks_of(set, &mut room);
    let position = chunks.seek(0, key);
    chunks.load(position, chunks.end(position, key), highs, words);
}
