//! Combines two sets into one.
//! FORMAT.md, "Id sets".

mod gathering;

ghost use Rattle.std.specs.Prelude.{◌≡◌, ℕ, ◌+◌, ◌*◌, ◌^◌, ◌≤◌, IsTrue, List, length};
ghost use Rattle.bitpack_slices.specs.Operations.{answer, apply};
ghost use Rattle.bitpack_slices.specs.Reads.{has};
ghost use Rattle.bitpack_sets.specs.Opened.{ids};
ghost use Rattle.bitpack_sets.specs.Sets.{IsSet};
ghost use Rattle.bitpack_queries.specs.Gathered.{Fills};
ghost use Rattle.bitpack_sets.specs.Written.{places};
ghost use Rattle.bitpack_queries.specs.Pairs.{left, positions_left};

use crate::combining::{combine_to, list};
use crate::combining_sets::gathering::gather;
use crate::gathered::write_ids;
use crate::pairing::Pair;
use bitpack_sets::IdSet;
use bitpack_sets::chunked::chunks_of;
use bitpack_sets::encoding::order::LONGEST_SET;
use bitpack_sets::few::MOST_FEW;
use bitpack_sets::id_set::ROOM;
use bitpack_slices::{Operation, SetError};

/// An answer of at most 256 ids, or at most 3,840, is unpacked and encoded.
const MOST_FEW_LISTED: usize = 256;

pub(crate) const MOST_LISTED: usize = 3840;

/// The room for these, and for 256 more: with less it takes longer to unpack.
pub(crate) const FEW_ROOM: usize = 512;

pub(crate) const LISTED_ROOM: usize = 4096;

/// If two sets of random ids have this product of ids a chunk, both have four ids of a chunk on average. On a Xeon of model 85, a call takes twice as
/// long with 0 for 65 ids a chunk.
const MOST_SPARSE: usize = 4 * 65536;

/// How much work space two sets need.
pub(crate) fn room_len(a: &IdSet, b: &IdSet) -> usize
    ensures { result ≡ 4 * (places (ids a.now) + places (ids b.now)) }
{
    4 * (a.places() + b.places())
}

/// Writes the encoding of the set that an operation on two sets gives, if there is room for it. Returns its length in bytes, or `TooLong`.
pub(crate) fn write(
    operation: Operation,
    a: &IdSet,
    b: &IdSet,
    room: &mut [u32],
    out: &mut [u8],
) -> Result<usize, SetError>
    requires room { 4 * (places (ids a.now) + places (ids b.now)) ≤ length room.old }
    ensures { Fills (answer operation (ids a.now) (ids b.now)) result out.old out.new }
{
    let most = most_ids(operation, a.len(), b.len());
    if most <= MOST_FEW_LISTED {
        let mut ids = [0; FEW_ROOM];
        return write_unpacked(operation, a, b, &mut ids, out);
    }
    if most <= MOST_LISTED {
        let mut ids = [0; LISTED_ROOM];
        return write_unpacked(operation, a, b, &mut ids, out);
    }
    // Two sets that are not in chunks need no more room than this.
    if most <= room.len().min(LONGEST_SET) {
        return write_unpacked(operation, a, b, room, out);
    }
    if is_sparse(operation, a, b) {
        let most = 4 * a.places().min(b.places());
        if let Some(count) = list(operation, a, b, most, room) {
            return write_ids(&room[..count], out);
        }
    }
    let mut rooms = ([0; ROOM], [0; ROOM]);
    let pair = Pair::new(
        operation,
        chunks_of(a, &mut rooms.0),
        chunks_of(b, &mut rooms.1),
    );
    write_pair(pair, operation, a, b, room, out)
}

/// How many ids the answer has at most.
fn most_ids(operation: Operation, a: usize, b: usize) -> usize
    requires few { (a ≤ 2 ^ 28) × (b ≤ 2 ^ 28) }
    ensures { (xs ys : List ℕ) → IsSet xs → IsSet ys → length xs ≡ a → length ys ≡ b → length (answer operation xs ys) ≤ result }
{
    match operation {
        Operation::And => a.min(b),
        Operation::AndNot => a,
        _ => a + b,
    }
}

/// Whether both sets would have fewer than four ids of a chunk, if these were random: no set in chunks, which is found faster as a list. Only the time
/// depends on it.
fn is_sparse(operation: Operation, a: &IdSet, b: &IdSet) -> bool
    ensures { IsTrue result → operation ≡ Operation.And }
{
    match operation {
        Operation::And => {
            let a_ids = a.len() / a.places().max(1);
            let b_ids = b.len() / b.places().max(1);
            a_ids * b_ids < MOST_SPARSE
        }
        _ => false,
    }
}

/// Writes the encoding of the set chunk by chunk, as `write`. If it is no set in chunks, its ids are unpacked.
fn write_pair(
    pair: Pair,
    operation: Operation,
    a: &IdSet,
    b: &IdSet,
    room: &mut [u32],
    out: &mut [u8],
) -> Result<usize, SetError>
    requires left { (x : ℕ) → left pair x ≡ apply operation (has x (ids a.now)) (has x (ids b.now)) }
    requires room { 4 * positions_left pair ≤ length room.old }
    ensures { Fills (answer operation (ids a.now) (ids b.now)) result out.old out.new }
{
    let places = pair.places();
    let (keys, others) = room.split_at_mut(places);
    let (counts, sizes) = others.split_at_mut(places);
    let gathered = gather(pair, keys, counts, sizes, out);
    if gathered.count <= MOST_FEW {
        let mut ids = [0; FEW_ROOM];
        return write_unpacked(operation, a, b, &mut ids, out);
    }
    match gathered.write(keys, counts, sizes, out) {
        Some(written) => written,
        None => write_unpacked(operation, a, b, room, out),
    }
}

/// Writes the encoding of the set after it unpacked its ids, as `write`. The work space has room for them.
fn write_unpacked(
    operation: Operation,
    a: &IdSet,
    b: &IdSet,
    room: &mut [u32],
    out: &mut [u8],
) -> Result<usize, SetError>
    requires room { length (answer operation (ids a.now) (ids b.now)) ≤ length room.old }
    requires few { length (answer operation (ids a.now) (ids b.now)) ≤ 2 ^ 28 }
    ensures { Fills (answer operation (ids a.now) (ids b.now)) result out.old out.new }
{
    let count = combine_to(operation, a, b, room).unwrap();
    write_ids(&room[..count], out)
}
