//! Combines any number of sets into one, from the first to the last.
//! FORMAT.md, "Id sets".

mod gathering;

ghost use Rattle.std.specs.Prelude.{◌≡◌, ◌+◌, ◌*◌, ◌^◌, ◌<◌, ◌≤◌, IfOk, IfSome, None, length, map, min, take};
ghost use Rattle.std.specs.List.{sum};
ghost use Rattle.bitpack_sets.specs.Written.{places};
ghost use Rattle.bitpack_queries.specs.Gathered.{Fills, PutsSet, most_keys};
ghost use Rattle.bitpack_queries.specs.Operations.{answer_all};

use crate::combining_all::{combine_all_to, intersect_to, shortest, subtract_to};
use crate::combining_all_sets::gathering::gather;
use crate::combining_sets::{FEW_ROOM, LISTED_ROOM, MOST_LISTED, room_len, write as write_two};
use crate::gathered::write_ids;
use bitpack_sets::AsSet;
use bitpack_sets::few::MOST_FEW;
use bitpack_slices::{Operation, SetError};

/// Writes the encoding of the set of the ids of the first set, combined with each other set in turn, at the start of the slice, and returns its
/// length in bytes. If there is no set, it has no id. Allocates nothing.
///
/// `room` is work space: four items for each chunk of all sets, or for each id of a set that is not in chunks, but at most 262,144. The answer has
/// at most 268,435,456 ids: with more it fails with `TooLong`. It fails with `Short` if the slice is too short for the set, or the work space. Bytes
/// after the set may change, and any byte if it fails.
pub fn combine_all_set_to<S: AsSet>(
    operation: Operation,
    sets: &[S],
    room: &mut [u32],
    out: &mut [u8],
) -> Result<usize, SetError>
    // claim: sets/25 writes the encoding of the ids of an operation on any number of sets; needs work space for their chunks; other bytes
    //   may change
    ensures { PutsSet (length room.old) (4 * most_keys (map S.its_ids sets.now)) (answer_all operation (map S.its_ids sets.now)) result out.old out.new }
{
    if room.len() < combine_room(sets) {
        return Err(SetError::Short);
    }
    let len = write(operation, sets, room, out)?;
    if len > out.len() {
        return Err(SetError::Short);
    }
    Ok(len)
}

/// How many items of work space sets need: four for each chunk, or for each id of a set that is not in chunks, but at most 262,144.
pub fn combine_room<S: AsSet>(sets: &[S]) -> usize
    ensures { result ≡ 4 * most_keys (map S.its_ids sets.now) }
{
    4 * keys_of(sets)
}

/// How many keys the ids of sets have at most.
pub(crate) fn keys_of<S: AsSet>(sets: &[S]) -> usize
    ensures { result ≡ most_keys (map S.its_ids sets.now) }
{
    let mut sum = 0;
    for i in 0..sets.len() {
        sum = (sum + sets[i].as_set().places()).min(65536);
    }
    sum
}

/// Writes the encoding of the set, if there is room for it. Returns its length in bytes, or `TooLong`.
fn write<S: AsSet>(
    operation: Operation,
    sets: &[S],
    room: &mut [u32],
    out: &mut [u8],
) -> Result<usize, SetError>
    requires room { 4 * most_keys (map S.its_ids sets.now) ≤ length room.old }
    ensures { Fills (answer_all operation (map S.its_ids sets.now)) result out.old out.new }
{
    if sets.is_empty() {
        return write_ids(&[], out);
    }
    if sets.len() == 2 {
        let (a, b) = (&sets[0].as_set(), &sets[1].as_set());
        if room_len(a, b) <= room.len() {
            return write_two(operation, a, b, room, out);
        }
    }
    match write_listed(operation, sets, out) {
        Some(written) => written,
        None => write_chunks(operation, sets, room, out),
    }
}

/// Writes the encoding of the set, as `write`, if it may have few ids and has at most 4,096. Writes nothing if not.
#[inline(never)]
fn write_listed<S: AsSet>(
    operation: Operation,
    sets: &[S],
    out: &mut [u8],
) -> Option<Result<usize, SetError>>
    requires some { 0 < length sets.now }
    ensures written { IfSome result (λ written. Fills (answer_all operation (map S.its_ids sets.now)) written out.old out.new) }
    ensures none { result ≡ None → out.new ≡ out.old }
{
    let mut ids = [0; LISTED_ROOM];
    match list(operation, sets, &mut ids) {
        Some(count) => Some(write_ids(&ids[..count], out)),
        None => None,
    }
}

/// Writes the ids of the answer, if they may be few and there is room for them. Returns their number.
fn list<S: AsSet>(operation: Operation, sets: &[S], out: &mut [u32]) -> Option<usize>
    requires some { 0 < length sets.now }
    ensures len { IfSome result (λ len. len ≡ length (answer_all operation (map S.its_ids sets.now))) }
    ensures ids { IfSome result (λ len. take len out.new ≡ answer_all operation (map S.its_ids sets.now)) }
{
    match operation {
        Operation::And => {
            let (a, b) = shortest(sets);
            intersect_to(sets, a, b, out)
        }
        Operation::AndNot if sets.len() > 1 => subtract_to(sets, out),
        _ if len_of(sets) <= MOST_LISTED => combine_all_to(operation, sets, out).ok(),
        _ => None,
    }
}

/// How many ids the sets have in all.
fn len_of<S: AsSet>(sets: &[S]) -> usize {
    let mut sum: usize = 0;
    for i in 0..sets.len() {
        sum = sum.saturating_add(sets[i].as_set().len());
    }
    sum
}

/// Writes the encoding of the set chunk by chunk, as `write`. If it is no set in chunks, its ids are unpacked.
fn write_chunks<S: AsSet>(
    operation: Operation,
    sets: &[S],
    room: &mut [u32],
    out: &mut [u8],
) -> Result<usize, SetError>
    requires some { 0 < length sets.now }
    requires room { 4 * most_keys (map S.its_ids sets.now) ≤ length room.old }
    ensures { Fills (answer_all operation (map S.its_ids sets.now)) result out.old out.new }
{
    let most = keys_of(sets);
    let (keys, others) = room.split_at_mut(most);
    let (counts, sizes) = others.split_at_mut(most);
    let gathered = gather(operation, sets, keys, counts, sizes, out);
    if gathered.count <= MOST_FEW {
        let mut ids = [0; FEW_ROOM];
        return write_unpacked(operation, sets, &mut ids, out);
    }
    match gathered.write(keys, counts, sizes, out) {
        Some(written) => written,
        None => write_unpacked(operation, sets, room, out),
    }
}

/// Writes the encoding of the set after it unpacked its ids, as `write`. The work space has room for them.
fn write_unpacked<S: AsSet>(
    operation: Operation,
    sets: &[S],
    room: &mut [u32],
    out: &mut [u8],
) -> Result<usize, SetError>
    requires room { length (answer_all operation (map S.its_ids sets.now)) ≤ length room.old }
    requires few { length (answer_all operation (map S.its_ids sets.now)) ≤ 2 ^ 28 }
    ensures { Fills (answer_all operation (map S.its_ids sets.now)) result out.old out.new }
{
    let count = combine_all_to(operation, sets, room).unwrap();
    write_ids(&room[..count], out)
}
