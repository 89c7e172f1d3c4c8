//! Combines two sets.

ghost use Rattle.std.specs.Prelude.{◌≡◌, ◌+◌, ◌*◌, ◌^◌, ◌<◌, ◌≤◌, ◌↔◌, [], None, IfErr, IfOk, IfSome, IsTrue, OnErr, length, map, take};
ghost use Rattle.bitpack_slices.specs.Follows.{Follow};
ghost use Rattle.bitpack_sets.specs.Opened.{ids};
ghost use Rattle.bitpack_slices.specs.Operations.{answer, those};
ghost use Rattle.bitpack_queries.specs.Pairs.{IsMeeting, left, meets};

use crate::pairing::{Meeting, Pair};
use bitpack_sets::IdSet;
use bitpack_sets::chunked::chunks_of;
use bitpack_sets::id_set::ROOM;
use bitpack_slices::body::combine as combine_bodies;
use bitpack_slices::listed::merging::merge;
use bitpack_slices::{Operation, SetError};

/// Writes the ids that an operation on two sets gives at the start of the slice, and returns their number. Allocates nothing.
///
/// Fails only with `Short`, if the slice has no room for them. Room for the ids of both sets is always enough. Items after the ids may change,
/// and any item if it fails.
pub fn combine_to(
    operation: Operation,
    a: &IdSet,
    b: &IdSet,
    out: &mut [u32],
) -> Result<usize, SetError>
    ensures len { IfOk result (λ len. len ≡ length (answer operation (ids a.now) (ids b.now))) }
    // claim: sets/16 writes, counts the ids of an operation on two sets; without room other items may change
    ensures ids { IfOk result (λ len. take len out.new ≡ answer operation (ids a.now) (ids b.now)) }
    ensures short { IfErr result (λ e. e ≡ SetError.Short) }
    ensures room { OnErr result (length out.old < length (answer operation (ids a.now) (ids b.now))) }
{
    let room = out.len();
    match list(operation, a, b, room, out) {
        Some(count) => Ok(count),
        None => Err(SetError::Short),
    }
}

/// How many ids an operation on two sets gives. Allocates nothing.
pub fn combine_count(operation: Operation, a: &IdSet, b: &IdSet) -> usize
    ensures { result ≡ length (answer operation (ids a.now) (ids b.now)) }
{
    // To count what both have is the fastest.
    let both = list(Operation::And, a, b, usize::MAX, &mut []).unwrap();
    match operation {
        Operation::And => both,
        Operation::Or => a.len() + b.len() - both,
        Operation::AndNot => a.len() - both,
        Operation::Xor => a.len() + b.len() - 2 * both,
    }
}

/// Whether no id is in both sets. Stops at the first chunk that has such an id, and allocates nothing.
pub fn is_disjoint(a: &IdSet, b: &IdSet) -> bool
    ensures { IsTrue result ↔ (answer Operation.And (ids a.now) (ids b.now) ≡ []) }
{
    gives_none(Operation::And, a, b)
}

/// Whether each id of the first set is in the second. Stops at the first chunk that has another id, and allocates nothing.
// claim: sets/17 whether sets share no id, or one has all of another
pub fn is_subset(a: &IdSet, b: &IdSet) -> bool
    ensures { IsTrue result ↔ (answer Operation.AndNot (ids a.now) (ids b.now) ≡ []) }
{
    gives_none(Operation::AndNot, a, b)
}

// Whether an operation on two sets gives no id.
fn gives_none(operation: Operation, a: &IdSet, b: &IdSet) -> bool
    ensures { IsTrue result ↔ (answer operation (ids a.now) (ids b.now) ≡ []) }
{
    list(operation, a, b, 0, &mut []).is_some()
}

/// Writes the ids that an operation on two sets gives, if there is room for all. Returns their number, or `None` if there are more than `most`.
pub(crate) fn list(
    operation: Operation,
    a: &IdSet,
    b: &IdSet,
    most: usize,
    out: &mut [u32],
) -> Option<usize>
    ensures few { IfSome result (λ count. count ≤ most) }
    ensures written { IfSome result (λ count. Follow (answer operation (ids a.now) (ids b.now)) out.old out.new 0 count) }
    ensures none { result ≡ None → most < length (answer operation (ids a.now) (ids b.now)) }
{
    let mut rooms = ([0; ROOM], [0; ROOM]);
    let x = chunks_of(a, &mut rooms.0);
    let y = chunks_of(b, &mut rooms.1);
    if let Some(list) = x.listed() {
        if let Some(other) = y.listed() {
            let count = merge(operation, &list, &other, out, 0);
            return if count <= most { Some(count) } else { None };
        }
    }
    write_chunks(Pair::new(operation, x, y), most, out)
}

/// Writes the ids that an operation on two sets gives, chunk by chunk, if there is room for all. Returns their number, or `None` as soon as there
/// are more than `most`.
fn write_chunks(mut pair: Pair, most: usize, out: &mut [u32]) -> Option<usize>
    ensures few { IfSome result (λ count. count ≤ most) }
    ensures written { IfSome result (λ count. Follow (those (2 ^ 32) (left pair.entry)) out.old out.new 0 count) }
    ensures none { result ≡ None → most < length (those (2 ^ 32) (left pair.entry)) }
{
    let mut at = 0;
    while let Some(meeting) = pair.next() {
        at = write_meeting(&pair, meeting, out, at);
        if at > most {
            return None;
        }
    }
    Some(at)
}

/// Writes the ids of a key that are in the answer, if there is room for all. Returns the index after the last, also if there is no room.
fn write_meeting(pair: &Pair, meeting: Meeting, out: &mut [u32], at: usize) -> usize
    requires meeting { IsMeeting pair.now meeting }
    requires start { at ≤ 2 ^ 32 }
    ensures { Follow (map (λ i. meeting.key * 65536 + i) (those 65536 (meets pair.now meeting))) out.old out.new at result }
{
    let a = pair.a.body(meeting.key, meeting.a.0, meeting.a.1);
    let b = pair.b.body(meeting.key, meeting.b.0, meeting.b.1);
    combine_bodies(pair.operation, meeting.key, a, b, out, at)
}
