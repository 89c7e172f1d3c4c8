//! Writes the answer of a query as a set.
//! FORMAT.md, "Id sets".

ghost use Rattle.std.specs.Prelude.{◌≡◌, ℕ, ◌+◌, ◌*◌, ◌^◌, ◌<◌, ◌≤◌, None, IfOk, OnErr, [], length, map, slice_index_or};
ghost use Rattle.bitpack_queries.specs.Folds.{has_number};
ghost use Rattle.bitpack_queries.specs.Gathered.{Fills, IsGathered, PutsSet, most_keys};
ghost use Rattle.bitpack_queries.specs.Queries.{FindsFault, answer_of, fault_from, is_found, query_fault};

use super::running::{all_highs, load_answer, next_key};
use super::testing::test_query;
use super::walking::Walk;
use crate::as_step::AsStep;
use crate::combining_all_sets::{combine_room, keys_of};
use crate::combining_sets::FEW_ROOM;
use crate::gathered::{Gathered, put_key, write_ids};
use crate::query_error::QueryError;
use bitpack_sets::AsSet;
use bitpack_sets::chunks::NO_KEY;
use bitpack_sets::encoding::combining::MOST_LISTED;
use bitpack_sets::few::MOST_FEW;
use bitpack_slices::SetError;
use bitpack_slices::bitmap::unpacking::unpack_bits;
use bitpack_slices::bitmap::writing::LONGEST_BLOCKS;

/// Writes the encoding of the set of the ids that a query over sets has at the start of a slice, and returns its length in bytes. Allocates nothing.
///
/// The caller lends bitmaps, as for `query_to`, and work space: four items for each chunk of all sets, or for each id of a set that is not in
/// chunks, but at most 262,144. Both may hold anything before.
///
/// Fails with the first fault of the steps, or with `Short` if there are too few bitmaps, and writes nothing then. If the query has no fault, the
/// set can still fail: with `TooLong` if it has more than 268,435,456 ids, with `Short` if the slice is too short for the set, or the work space.
/// Bytes after the set may change, and any byte if the set fails.
pub fn query_set_to<S: AsSet, T: AsStep>(
    sets: &[S],
    steps: &[T],
    bitmaps: &mut [[u64; 1024]],
    room: &mut [u32],
    out: &mut [u8],
) -> Result<Result<usize, SetError>, QueryError>
    // claim: sets/29 `query_set_to` writes the encoding of the ids of a query; refuses what `query_to` refuses, and sets as `sets/25`
    ensures fault { FindsFault result (query_fault (length bitmaps.old) (length sets.now) (map T.its_step steps.now)) }
    ensures unchanged { OnErr result ((room.new ≡ room.old) × (out.new ≡ out.old) × (bitmaps.new ≡ bitmaps.old)) }
    ensures puts { IfOk result (λ written. PutsSet (length room.old) (4 * most_keys (map S.its_ids sets.now))
        (answer_of (map S.its_ids sets.now) (map T.its_step steps.now)) written out.old out.new) }
{
    let most = test_query(steps, sets.len(), bitmaps.len())?;
    if room.len() < combine_room(sets) {
        return Ok(Err(SetError::Short));
    }
    let written = write(sets, steps, &mut bitmaps[..most], room, out);
    match written {
        Ok(len) if len > out.len() => Ok(Err(SetError::Short)),
        _ => Ok(written),
    }
}

/// Writes the encoding of the set, if there is room for it. Returns its length in bytes, or `TooLong`.
fn write<S: AsSet, T: AsStep>(
    sets: &[S],
    steps: &[T],
    bitmaps: &mut [[u64; 1024]],
    room: &mut [u32],
    out: &mut [u8],
) -> Result<usize, SetError>
    requires sound { fault_from 64 (length sets.now) 0 0 (map T.its_step steps.now) ≡ None }
    requires enough { fault_from (length bitmaps.old) (length sets.now) 0 0 (map T.its_step steps.now) ≡ None }
    requires room { 4 * most_keys (map S.its_ids sets.now) ≤ length room.old }
    ensures { Fills (answer_of (map S.its_ids sets.now) (map T.its_step steps.now)) result out.old out.new }
{
    let most = keys_of(sets);
    let (keys, others) = room.split_at_mut(most);
    let (counts, sizes) = others.split_at_mut(most);
    let gathered = gather(sets, steps, bitmaps, keys, counts, sizes, out);
    if gathered.count <= MOST_FEW {
        let mut ids = [0; FEW_ROOM];
        return write_unpacked(sets, steps, bitmaps, &mut ids, out);
    }
    match gathered.write(keys, counts, sizes, out) {
        Some(written) => written,
        None => write_unpacked(sets, steps, bitmaps, room, out),
    }
}

/// Writes the encoding of the set after it unpacked its ids, as `write`. The work space has room for them.
fn write_unpacked<S: AsSet, T: AsStep>(
    sets: &[S],
    steps: &[T],
    bitmaps: &mut [[u64; 1024]],
    room: &mut [u32],
    out: &mut [u8],
) -> Result<usize, SetError>
    requires sound { fault_from 64 (length sets.now) 0 0 (map T.its_step steps.now) ≡ None }
    requires enough { fault_from (length bitmaps.old) (length sets.now) 0 0 (map T.its_step steps.now) ≡ None }
    requires room { length (answer_of (map S.its_ids sets.now) (map T.its_step steps.now)) ≤ length room.old }
    requires few { length (answer_of (map S.its_ids sets.now) (map T.its_step steps.now)) ≤ 2 ^ 28 }
    ensures { Fills (answer_of (map S.its_ids sets.now) (map T.its_step steps.now)) result out.old out.new }
{
    let count = Walk::new(0).next_ids(sets, steps, bitmaps, room);
    write_ids(&room[..count], out)
}

/// Writes the bodies of the set, if there is room for all. Of each chunk it writes the key, how many ids it has, and how many bytes its body.
#[inline(never)]
fn gather<S: AsSet, T: AsStep>(
    sets: &[S],
    steps: &[T],
    bitmaps: &mut [[u64; 1024]],
    keys: &mut [u32],
    counts: &mut [u32],
    sizes: &mut [u32],
    out: &mut [u8],
) -> Gathered
    requires sound { fault_from 64 (length sets.now) 0 0 (map T.its_step steps.now) ≡ None }
    requires enough { fault_from (length bitmaps.old) (length sets.now) 0 0 (map T.its_step steps.now) ≡ None }
    requires keys { most_keys (map S.its_ids sets.now) ≤ length keys.old }
    requires counts { most_keys (map S.its_ids sets.now) ≤ length counts.old }
    requires sizes { most_keys (map S.its_ids sets.now) ≤ length sizes.old }
    ensures most { result.chunks ≤ most_keys (map S.its_ids sets.now) }
    ensures gathered { IsGathered (answer_of (map S.its_ids sets.now) (map T.its_step steps.now)) keys.new counts.new sizes.new out.new
        result.count result.chunks result.size }
{
    let mut ids = [0; MOST_LISTED];
    let mut body = [0; LONGEST_BLOCKS];
    let mut gathered = Gathered::new();
    let mut key = next_key(sets, steps, 0);
    while key < NO_KEY {
        let highs = load(sets, steps, bitmaps, key);
        let (own, len) = put_key(
            &highs,
            &mut bitmaps[0],
            &mut ids,
            &mut body,
            out,
            gathered.size,
        );
        gathered.add(key, own, len, keys, counts, sizes);
        key = next_key(sets, steps, key + 1);
    }
    gathered
}

/// Leaves the ids of the answer that have this key in the first bitmap, and returns the high bytes that it tells.
fn load<S: AsSet, T: AsStep>(
    sets: &[S],
    steps: &[T],
    bitmaps: &mut [[u64; 1024]],
    key: u32,
) -> [u64; 4]
    requires sound { fault_from 64 (length sets.now) 0 0 (map T.its_step steps.now) ≡ None }
    requires enough { fault_from (length bitmaps.old) (length sets.now) 0 0 (map T.its_step steps.now) ≡ None }
    requires key { key < NO_KEY }
    ensures { (x : ℕ) → x < 65536 → has_number result (slice_index_or bitmaps.new 0 []) x
        ≡ is_found (map S.its_ids sets.now) (map T.its_step steps.now) (key * 65536 + x) }
{
    let mut list = [0; 256];
    let highs = all_highs(sets, steps, key);
    let count = unpack_bits(&highs, 0, &mut list, 0);
    load_answer(sets, steps, key, &list[..count], bitmaps);
    highs
}
