//! Ids of a vector or a slice that a set has or lacks, and the union of both, in place.

ghost use Rattle.std.specs.Prelude.{◌≡◌, ℕ, ◌+◌, ◌/◌, ◌^◌, ◌<◌, ◌≤◌, ◌≢◌, ◌||◌, ◌++◌, true, false, Err, None, IfErr, IfOk, IsOk, MatchOption, OnErr, OnOk, drop, length, not, slice_index, take, vec_capacity};
ghost use Rattle.std.specs.List.{filter};
ghost use Rattle.bitpack_sets.specs.Chunks.{Knows, ids_from};
ghost use Rattle.bitpack_queries.specs.Retained.{IsCounted, Moves, retains};
ghost use Rattle.bitpack_sets.specs.Opened.{ids};
ghost use Rattle.bitpack_slices.specs.Operations.{those};
ghost use Rattle.bitpack_slices.specs.Reads.{has};
ghost use Rattle.bitpack_slices.specs.Bodies.{IsRising};
ghost use Rattle.bitpack_slices.specs.Slices.{first_fall};

use bitpack_sets::chunked::chunks_of;
use bitpack_sets::chunks::Chunks;
use bitpack_sets::finding::{Own, load, many_from, span};
use bitpack_sets::id_set::ROOM;
use bitpack_sets::reserved::append_zeros;
use bitpack_sets::{IdSet, first_unsorted};
use bitpack_slices::SetError;
use bitpack_slices::blocks::Blocks;
use bitpack_slices::body::Body;

/// With more ids of a key than this, the slices of its body are found once for all of them. On a Xeon of model 85, a call takes 1.1 to 1.3
/// times as long with 0 for one id of a key, and 1.3 to 2.4 times with 3 for two or three.
const MANY: usize = 1;

/// With more ids of a key than this, its bitmap is loaded to look them up. On a Xeon of model 85, a call takes 0.7 to 1.9 times as long
/// with 255 for 384 ids of a key, and 1.1 to 2.0 times with 1,023 for 768.
const MOST: usize = 511;

/// With more ids of a key than this, its bitmap is loaded to count them. On a Xeon of model 85, a call takes 0.9 to 1.05 times as long with
/// 15 for 20 ids of a key, 1.04 to 1.5 times with 63 for 48, and 1.1 to 2.2 times with 127 for 96.
const SOME: usize = 31;

/// Retains the ids that a set has, in their order. They need not increase. Allocates nothing.
pub fn retain(values: &mut Vec<u32>, set: &IdSet)
    ensures { values.new.items ≡ filter (λ x. has x (ids set.now)) values.old.items }
{
    let retained = retain_if(values.slice_mut(..), set, true);
    values.truncate(retained);
}

/// Retains the ids that a set lacks, in their order. They need not increase. Allocates nothing.
pub fn remove(values: &mut Vec<u32>, set: &IdSet)
    ensures { values.new.items ≡ filter (λ x. not (has x (ids set.now))) values.old.items }
{
    let retained = retain_if(values.slice_mut(..), set, false);
    values.truncate(retained);
}

/// Adds the ids of a set to ids that increase, so that these are all ids of both, in increasing order and each once.
///
/// Fails with `NotSorted` for the first id that is not above the one before it, then with `Memory` only if the vector has no room for the
/// union and cannot grow. If it fails, the vector is unchanged.
pub fn add(values: &mut Vec<u32>, set: &IdSet) -> Result<(), SetError>
    // claim: sets/18-19 retains, removes, adds a set's ids in an array; refuses an array that is out of order or too short
    ensures fault { MatchOption (first_fall 0 values.old.items) (IfErr result (λ e. e ≡ SetError.Memory)) (λ position. result ≡ Err (SetError.NotSorted position)) }
    ensures ok { OnOk result (values.new.items ≡ those (2 ^ 32) (λ x. has x values.old.items || has x (ids set.now))) }
    ensures room { first_fall 0 values.old.items ≡ None → OnErr result (vec_capacity values.old < length (those (2 ^ 32) (λ x. has x values.old.items || has x (ids set.now)))) }
    ensures unchanged { OnErr result (values.new.items ≡ values.old.items) }
    ensures capacity { OnErr result (vec_capacity values.new ≡ vec_capacity values.old) }
{
    let more = count_more(values, set)?;
    let count = values.len();
    if values.reserve(more).is_err() {
        return Err(SetError::Memory);
    }
    append_zeros(values, more);
    unite_first(values.slice_mut(..), count, set);
    Ok(())
}

/// Adds the ids of a set to the first `count` ids, which increase, so that the first are all ids of both, in increasing order and each once.
/// Returns how many these are. Allocates nothing.
///
/// Fails with `NotSorted` for the first id that is not above the one before it, then with `Short` only if the slice has no room for the union.
/// If it fails, the slice is unchanged. Items after the union are unchanged.
pub fn add_to(values: &mut [u32], count: usize, set: &IdSet) -> Result<usize, SetError>
    requires within { count ≤ length values.old }
    ensures fault { MatchOption (first_fall 0 (take count values.old)) (IfErr result (λ e. e ≡ SetError.Short)) (λ position. result ≡ Err (SetError.NotSorted position)) }
    ensures few { IfOk result (λ len. len ≤ length values.new) }
    ensures len { IfOk result (λ len. len ≡ length (those (2 ^ 32) (λ x. has x (take count values.old) || has x (ids set.now)))) }
    ensures ok { IfOk result (λ len. take len values.new ≡ those (2 ^ 32) (λ x. has x (take count values.old) || has x (ids set.now))) }
    ensures rest { IfOk result (λ len. drop len values.new ≡ drop len values.old) }
    ensures room { first_fall 0 (take count values.old) ≡ None → OnErr result (length values.old < length (those (2 ^ 32) (λ x. has x (take count values.old) || has x (ids set.now)))) }
    ensures unchanged { OnErr result (values.new ≡ values.old) }
{
    let len = count + count_more(&values[..count], set)?;
    if len > values.len() {
        return Err(SetError::Short);
    }
    unite_first(&mut values[..len], count, set);
    Ok(len)
}

/// How many ids a set adds to ids that increase.
fn count_more(values: &[u32], set: &IdSet) -> Result<usize, SetError>
    ensures fault { MatchOption (first_fall 0 values.now) (IsOk result) (λ position. result ≡ Err (SetError.NotSorted position)) }
    ensures increasing { OnOk result (IsRising 0 (2 ^ 32) values.now) }
    ensures more { IfOk result (λ more. length values.now + more ≡ length (those (2 ^ 32) (λ x. has x values.now || has x (ids set.now)))) }
{
    match first_unsorted(values) {
        Some(position) => Err(SetError::NotSorted(position)),
        None => Ok(set.len() - count_shared(values, set)),
    }
}

/// How many ids a set has.
fn count_shared(values: &[u32], set: &IdSet) -> usize
    ensures { result ≡ length (filter (λ x. has x (ids set.now)) values.now) }
{
    let mut room = [0; ROOM];
    let chunks = chunks_of(set, &mut room);
    let mut count = 0;
    let mut index = 0;
    while index < values.len() {
        let next = if many_from(values, index, SOME) {
            count_many(values, index, count, &chunks)
        } else {
            count_few(values, index, count, &chunks)
        };
        count = next.0;
        index = next.1;
    }
    count
}

/// Counts ids that share the key of the one at an index, from it on, by the bitmap of the key. Returns how many these are with the count
/// before, and where the ids of the key end.
#[inline(never)]
fn count_many(values: &[u32], index: usize, count: usize, set: &Chunks) -> (usize, usize)
    requires within { index < length values.now }
    requires few { count ≤ index }
    ensures { IsCounted (ids_from set.now 0) values.now count index result.0 result.1 }
{
    let mut words = [0; 1024];
    let own = load(set, values[index] >> 16, &mut words);
    count_run(values, index, count, set, own)
}

/// Counts ids that share the key of the one at an index, as `count_many`, and looks each up in the body of the key.
fn count_few(values: &[u32], index: usize, count: usize, set: &Chunks) -> (usize, usize)
    requires within { index < length values.now }
    requires few { count ≤ index }
    ensures { IsCounted (ids_from set.now 0) values.now count index result.0 result.1 }
{
    let (position, end) = span(set, values[index] >> 16);
    count_run(values, index, count, set, Own::Between(position, end))
}

/// Counts ids that share the key of the one at an index, as `count_many`, when the set's ids of this key are found.
#[inline(always)]
fn count_run(values: &[u32], index: usize, count: usize, set: &Chunks, own: Own) -> (usize, usize)
    requires within { index < length values.now }
    requires few { count ≤ index }
    requires own { Knows set.now (slice_index values.now index / 65536) own }
    ensures { IsCounted (ids_from set.now 0) values.now count index result.0 result.1 }
{
    let key = values[index] >> 16;
    let mut count = count;
    for i in index..values.len() {
        if values[i] >> 16 != key {
            return (count, i);
        }
        count += own.has(set, values[i]) as usize;
    }
    (count, values.len())
}

/// Unites the first `count` ids with a set. There is room for exactly the union.
fn unite_first(values: &mut [u32], count: usize, set: &IdSet)
    requires increasing { IsRising 0 (2 ^ 32) (take count values.old) }
    requires room { length values.old ≡ length (those (2 ^ 32) (λ x. has x (take count values.old) || has x (ids set.now))) }
    requires within { count ≤ length values.old }
    ensures { values.new ≡ those (2 ^ 32) (λ x. has x (take count values.old) || has x (ids set.now)) }
{
    let start = values.len() - count;
    values.copy_within(0..count, start);
    unite(values, start, set);
}

/// Unites the ids from an index on with a set. The index is the number of ids of the set that are not among them.
fn unite(values: &mut [u32], start: usize, set: &IdSet)
    requires increasing { IsRising 0 (2 ^ 32) (drop start values.old) }
    requires room { length (ids set.now) ≡ start + length (filter (λ x. has x (ids set.now)) (drop start values.old)) }
    requires within { start ≤ length values.old }
    ensures { values.new ≡ those (2 ^ 32) (λ x. has x (drop start values.old) || has x (ids set.now)) }
{
    let mut written = 0;
    let mut from = start;
    let mut left = set.iter();
    while let Some(id) = left.next() {
        let moved = move_below(values, written, from, id);
        written += moved;
        from += moved;
        from += is_at(values, from, id) as usize;
        values[written] = id;
        written += 1;
    }
}

/// Moves the ids from an index on that are below another to the end of the ids written. Returns their number.
fn move_below(values: &mut [u32], written: usize, from: usize, id: u32) -> usize
    requires { (written ≤ from) × (from ≤ length values.old) }
    ensures within { from + result ≤ length values.new }
    ensures moved { take (written + result) values.new ≡ take written values.old ++ take result (drop from values.old) }
    ensures rest { drop (from + result) values.new ≡ drop (from + result) values.old }
    ensures below { (k : ℕ) → k < result → slice_index values.old (from + k) < id }
    ensures reached { from + result < length values.old → id ≤ slice_index values.old (from + result) }
{
    let mut moved = 0;
    while from + moved < values.len() && values[from + moved] < id {
        values[written + moved] = values[from + moved];
        moved += 1;
    }
    moved
}

/// Whether an id is at an index.
fn is_at(values: &[u32], index: usize, id: u32) -> bool
    ensures there { result ≡ true → (index < length values.now) × (slice_index values.now index ≡ id) }
    ensures lacking { result ≡ false → index < length values.now → slice_index values.now index ≢ id }
{
    index < values.len() && values[index] == id
}

/// Moves the ids that a set has, or those that it lacks, to the front, in their order. They need not increase. Returns how many these are.
/// Allocates nothing.
pub fn retain_if(values: &mut [u32], set: &IdSet, there: bool) -> usize
    ensures within { result ≤ length values.new }
    ensures retained { take result values.new ≡ filter (retains there (ids set.now)) values.old }
{
    let mut room = [0; ROOM];
    let chunks = chunks_of(set, &mut room);
    let mut retained = 0;
    let mut index = 0;
    while index < values.len() {
        let next = if many_from(values, index, MOST) {
            retain_many(values, index, retained, &chunks, there)
        } else {
            retain_few(values, index, retained, &chunks, there)
        };
        retained = next.0;
        index = next.1;
    }
    retained
}

/// Moves ids that share the key of the one at an index, from it on, by the bitmap of the key. Returns where the moved ones end, and where the
/// ids of the key end.
#[inline(never)]
fn retain_many(
    values: &mut [u32],
    index: usize,
    retained: usize,
    set: &Chunks,
    there: bool,
) -> (usize, usize)
    requires within { index < length values.old }
    requires behind { retained ≤ index }
    ensures { Moves there (ids_from set.now 0) values.old values.new retained index result.0 result.1 }
{
    let mut words = [0; 1024];
    let own = load(set, values[index] >> 16, &mut words);
    retain_run(values, index, retained, set, own, there)
}

/// Moves ids that share the key of the one at an index, as `retain_many`, and looks each up in the body of the key. If there are many ids, it
/// finds the slices of the body first.
fn retain_few(
    values: &mut [u32],
    index: usize,
    retained: usize,
    set: &Chunks,
    there: bool,
) -> (usize, usize)
    requires within { index < length values.old }
    requires behind { retained ≤ index }
    ensures { Moves there (ids_from set.now 0) values.old values.new retained index result.0 result.1 }
{
    let key = values[index] >> 16;
    let (position, end) = span(set, key);
    if many_from(values, index, MANY)
        && let Body::Blocks(body) = set.body(key, position, end)
    {
        let mut starts = [0; 257];
        let own = Own::Blocks(Blocks::new(body, &mut starts));
        return retain_run(values, index, retained, set, own, there);
    }
    retain_run(
        values,
        index,
        retained,
        set,
        Own::Between(position, end),
        there,
    )
}

/// Moves ids that share the key of the one at an index, as `retain_many`, when the set's ids of this key are found.
#[inline(always)]
fn retain_run(
    values: &mut [u32],
    index: usize,
    retained: usize,
    set: &Chunks,
    own: Own,
    there: bool,
) -> (usize, usize)
    requires within { index < length values.old }
    requires behind { retained ≤ index }
    requires own { Knows set.now (slice_index values.old index / 65536) own }
    ensures { Moves there (ids_from set.now 0) values.old values.new retained index result.0 result.1 }
{
    let key = values[index] >> 16;
    let mut retained = retained;
    for i in index..values.len() {
        let id = values[i];
        if id >> 16 != key {
            return (retained, i);
        }
        values[retained] = id;
        retained += (own.has(set, id) == there) as usize;
    }
    (retained, values.len())
}
