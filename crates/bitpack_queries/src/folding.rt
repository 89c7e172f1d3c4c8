//! Combines sets from the first to the last, some keys at a time.

ghost use Rattle.std.specs.Prelude.{◌≡◌, ◌≢◌, ℕ, ◌+◌, ◌*◌, ◌/◌, ◌%◌, ◌<◌, ◌≤◌, ◌&&◌, ◌||◌, ◌==◌, false, true, length, map, slice_index_or};
ghost use Rattle.bitpack_slices.specs.Bitmaps.{has_bit};
ghost use Rattle.bitpack_sets.specs.Chunks.{lows_between, positions};
ghost use Rattle.bitpack_queries.specs.Folds.{AreHeld, found, has_number, high_of, joined, swapped};
ghost use Rattle.bitpack_sets.specs.Opened.{ids};
ghost use Rattle.bitpack_slices.specs.Operations.{apply};
ghost use Rattle.bitpack_queries.specs.Operations.{folded};
ghost use Rattle.bitpack_slices.specs.Reads.{has};
ghost use Rattle.bitpack_slices.specs.Bodies.{IsRising};

use bitpack_sets::chunked::chunks_of;
use bitpack_sets::chunks::{Chunks, NO_KEY};
use bitpack_sets::few::MOST_FEW;
use bitpack_sets::id_set::ROOM;
use bitpack_sets::{AsSet, IdSet};
use bitpack_slices::Operation;
use bitpack_slices::bitmap::combining::combine;
use bitpack_slices::bitmap::loading::clear;
use bitpack_slices::bitmap::single_bits::{set_bit, test_bit};
use bitpack_slices::bitmap::unpacking::unpack_bits;
use bitpack_slices::combined::{combined_words, lowest_key, retains_left, retains_right};

/// How many keys are combined at a time, from a multiple of it on. A call takes 1.0 to 1.8 times as many instructions with 4, and 0.6 to
/// 1.05 times with 16, which needs 64 KB more stack.
pub(crate) const KEYS: usize = 8;

/// How many sets have a next key held. Without, OR of 1,000 sets of 1,000 ids below 2 to the power of 32 takes 7 times as long.
pub(crate) const HELD: usize = 16384;

/// Leaves the ids of the answer that have one of the keys from `base` on: for each key high bytes, and a bit for each id that has one of
/// these. The first set and another are exchanged. Returns a later key, at most `NO_KEY`, below which the answer has no other id.
///
/// An eighth of the next key of a set is held, so that the set is not searched again before this key.
pub(crate) fn combine_keys<S: AsSet>(
    operation: Operation,
    sets: &[S],
    first: usize,
    base: u32,
    held: &mut [u16; HELD],
    highs: &mut [[u64; 4]; KEYS],
    words: &mut [[u64; 1024]; KEYS],
) -> u32
    requires first { first < length sets.now }
    requires base { base + 8 ≤ 65536 }
    requires held { AreHeld held.old base (swapped first (map S.its_ids sets.now)) }
    ensures later { base + 8 ≤ result }
    ensures most { result ≤ 65536 }
    ensures held { AreHeld held.new (base + 8) (swapped first (map S.its_ids sets.now)) }
    ensures own { (i : ℕ) → i < 524288 → found highs.new words.new i
        ≡ folded operation (map (has (base * 65536 + i)) (swapped first (map S.its_ids sets.now))) }
    ensures none { (x : ℕ) → base + 8 ≤ x / 65536 → x / 65536 < result
        → folded operation (map (has x) (swapped first (map S.its_ids sets.now))) ≡ false }
{
    let mut others = [0; 1024];
    let start = &sets[first].as_set();
    let mut next = add_chunks(operation, true, start, base, highs, words, &mut others);
    for i in 1..sets.len() {
        let known = held_key(held, i);
        let own = if stay(operation, base, known) {
            known
        } else {
            let index = if i == first { 0 } else { i };
            let set = &sets[index].as_set();
            let own = add(operation, set, base, highs, words, &mut others);
            hold(held, i, own);
            own
        };
        next = lowest_key(operation, next, own);
    }
    next
}

/// Whether the ids of the keys from `base` on stay when they are combined with a set that has none of these keys, but from `key` on.
#[inline(always)]
fn stay(operation: Operation, base: u32, key: u32) -> bool
    requires { base + 8 ≤ 65536 }
    ensures later { result ≡ true → base + 8 ≤ key }
    ensures left { result ≡ true → apply operation true false ≡ true }
{
    retains_left(operation) && base + 8 <= key
}

/// The key that is held of a set, or 0.
#[inline(always)]
fn held_key(held: &[u16; HELD], i: usize) -> u32
    ensures held { result ≤ 8 * slice_index_or held.now i 0 }
    ensures most { result ≤ 65536 }
{
    if i < HELD {
        (held[i] as u32 * 8).min(NO_KEY)
    } else {
        0
    }
}

/// Holds a key of a set, if there is room.
#[inline(always)]
fn hold(held: &mut [u16; HELD], i: usize, key: u32)
    requires { key ≤ 65536 }
    ensures own { 8 * slice_index_or held.new i 0 ≤ key }
    ensures others { (j : ℕ) → j ≢ i → slice_index_or held.new j 0 ≡ slice_index_or held.old j 0 }
{
    if i < HELD {
        held[i] = (key / 8) as u16;
    }
}

/// Combines the ids of a set that have one of the keys from `base` on. Returns the next key of the set.
fn add(
    operation: Operation,
    set: &IdSet,
    base: u32,
    highs: &mut [[u64; 4]; KEYS],
    words: &mut [[u64; 1024]; KEYS],
    others: &mut [u64; 1024],
) -> u32
    requires base { base + 8 ≤ 65536 }
    ensures later { base + 8 ≤ result }
    ensures most { result ≤ 65536 }
    ensures own { (i : ℕ) → i < 524288 → found highs.new words.new i ≡ apply operation (found highs.old words.old i) (has (base * 65536 + i) (ids set.now)) }
    ensures none { (x : ℕ) → base + 8 ≤ x / 65536 → x / 65536 < result → has x (ids set.now) ≡ false }
{
    match operation {
        Operation::Or if set.len() <= MOST_FEW => insert_few(set, base, highs, words, others),
        _ => add_chunks(operation, false, set, base, highs, words, others),
    }
}

/// Adds the ids of a set of few ids that have one of the keys from `base` on. Returns the next key of the set.
fn insert_few(
    set: &IdSet,
    base: u32,
    highs: &mut [[u64; 4]; KEYS],
    words: &mut [[u64; 1024]; KEYS],
    others: &mut [u64; 1024],
) -> u32
    requires few { length (ids set.now) ≤ 127 }
    requires base { base + 8 ≤ 65536 }
    ensures later { base + 8 ≤ result }
    ensures most { result ≤ 65536 }
    ensures own { (i : ℕ) → i < 524288 → found highs.new words.new i ≡ (found highs.old words.old i || has (base * 65536 + i) (ids set.now)) }
    ensures none { (x : ℕ) → base + 8 ≤ x / 65536 → x / 65536 < result → has x (ids set.now) ≡ false }
{
    let mut ids = [0; MOST_FEW];
    let count = set.copy_to(&mut ids);
    for i in 0..count {
        let id = ids[i];
        let key = id >> 16;
        if key >= base + 8 {
            return key;
        }
        if key >= base {
            let k = (key - base) as usize;
            insert(&mut highs[k], &mut words[k], (id % 65536) as usize, others);
        }
    }
    NO_KEY
}

/// Takes the ids of a set key by key, or combines them. Returns the next key of the set.
fn add_chunks(
    operation: Operation,
    takes: bool,
    set: &IdSet,
    base: u32,
    highs: &mut [[u64; 4]; KEYS],
    words: &mut [[u64; 1024]; KEYS],
    others: &mut [u64; 1024],
) -> u32
    requires base { base + 8 ≤ 65536 }
    ensures later { base + 8 ≤ result }
    ensures most { result ≤ 65536 }
    ensures own { (i : ℕ) → i < 524288 → found highs.new words.new i ≡ joined takes operation (found highs.old words.old i) (has (base * 65536 + i) (ids set.now)) }
    ensures none { (x : ℕ) → base + 8 ≤ x / 65536 → x / 65536 < result → has x (ids set.now) ≡ false }
{
    let mut room = [0; ROOM];
    let chunks = chunks_of(set, &mut room);
    let mut position = chunks.seek(0, base);
    for k in 0..KEYS {
        let end = chunks.end(position, base + k as u32);
        let (own_highs, own_words) = (&mut highs[k], &mut words[k]);
        if takes {
            take_chunk(&chunks, position, end, own_highs, own_words);
        } else {
            add_chunk(
                operation, &chunks, position, end, own_highs, own_words, others,
            );
        }
        position = end;
    }
    chunks.key(position)
}

/// Adds a number.
#[inline(always)]
fn insert(highs: &mut [u64; 4], words: &mut [u64; 1024], low: usize, others: &mut [u64; 1024])
    requires { low < 65536 }
    ensures { (x : ℕ) → x < 65536 → has_number highs.new words.new x ≡ (has_number highs.old words.old x || (x == low)) }
{
    if !test_bit(highs, low / 256) {
        clear_highs(&[(low / 256) as u32], words, others);
        set_bit(highs, low / 256);
    }
    set_bit(words, low);
}

/// Takes the ids of a set between two positions, which share a key.
fn take_chunk(
    set: &Chunks,
    position: usize,
    end: usize,
    highs: &mut [u64; 4],
    words: &mut [u64; 1024],
)
    requires within { (position ≤ end) × (end ≤ positions set.now) }
    requires one { set.now.count ≢ 0 → end ≤ position + 1 }
    ensures { (x : ℕ) → x < 65536 → has_number highs.new words.new x ≡ has x (lows_between set.now position end) }
{
    let mut own = [0; 256];
    *highs = set.highs(position, end);
    let count = unpack_bits(highs, 0, &mut own, 0);
    set.load(position, end, &own[..count], words);
}

/// Combines numbers with the ids of a set between two positions, which share a key.
fn add_chunk(
    operation: Operation,
    set: &Chunks,
    position: usize,
    end: usize,
    highs: &mut [u64; 4],
    words: &mut [u64; 1024],
    others: &mut [u64; 1024],
)
    requires within { (position ≤ end) × (end ≤ positions set.now) }
    requires one { set.now.count ≢ 0 → end ≤ position + 1 }
    ensures { (x : ℕ) → x < 65536 → has_number highs.new words.new x
        ≡ apply operation (has_number highs.old words.old x) (has x (lows_between set.now position end)) }
{
    if position == end && retains_left(operation) {
        return;
    }
    let own = set.highs(position, end);
    if retains_right(operation) {
        let mut fresh = [0; 256];
        let count = unpack_bits(
            &combined_words(Operation::AndNot, own, *highs),
            0,
            &mut fresh,
            0,
        );
        clear_highs(&fresh[..count], words, others);
        combine_words(operation, set, position, end, &own, words, others);
    } else {
        let shared = combined_words(Operation::And, *highs, own);
        combine_words(operation, set, position, end, &shared, words, others);
    }
    *highs = next_highs(operation, highs, &own);
}

/// Combines the bits of these high bytes with the ids of a set.
#[inline(always)]
fn combine_words(
    operation: Operation,
    set: &Chunks,
    position: usize,
    end: usize,
    own: &[u64; 4],
    words: &mut [u64; 1024],
    others: &mut [u64; 1024],
)
    requires within { (position ≤ end) × (end ≤ positions set.now) }
    requires one { set.now.count ≢ 0 → end ≤ position + 1 }
    ensures own { (x : ℕ) → x < 65536 → has_bit own.now (x / 256) ≡ true
        → has_bit words.new x ≡ apply operation (has_bit words.old x) (has x (lows_between set.now position end)) }
    ensures rest { (x : ℕ) → x < 65536 → has_bit own.now (x / 256) ≡ false → has_bit words.new x ≡ has_bit words.old x }
{
    let mut highs = [0; 256];
    let count = unpack_bits(own, 0, &mut highs, 0);
    if count == 0 {
        return;
    }
    let highs = &highs[..count];
    set.load(position, end, highs, others);
    combine(operation, highs, words, others);
}

/// Clears only the bits of these high bytes.
#[inline(always)]
pub(crate) fn clear_highs(highs: &[u32], words: &mut [u64; 1024], others: &mut [u64; 1024])
    requires { IsRising 0 256 highs.now }
    ensures own { (x : ℕ) → x < 65536 → has (x / 256) highs.now ≡ true → has_bit words.new x ≡ false }
    ensures rest { (x : ℕ) → x < 65536 → has (x / 256) highs.now ≡ false → has_bit words.new x ≡ has_bit words.old x }
{
    clear(highs, others);
    combine(Operation::And, highs, words, others);
}

/// The high bytes that the answer of two sets has.
#[inline(always)]
fn next_highs(operation: Operation, a: &[u64; 4], b: &[u64; 4]) -> [u64; 4]
    ensures { (h : ℕ) → h < 256 → has_bit result h ≡ high_of operation (has_bit a.now h) (has_bit b.now h) }
{
    match operation {
        Operation::And => combined_words(Operation::And, *a, *b),
        Operation::AndNot => *a,
        _ => combined_words(Operation::Or, *a, *b),
    }
}
