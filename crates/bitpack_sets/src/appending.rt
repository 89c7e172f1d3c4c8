//! The ids of a set and more ids after them, written as one set.
//! FORMAT.md, "Id sets".

ghost use Rattle.std.specs.Prelude.{◌≡◌, ◌+◌, ◌-◌, ◌*◌, ◌^◌, ◌≤◌, ◌<◌, ◌++◌, [], IfErr, IfOk, OnErr, OnOk, drop, length, take, vec_capacity, vec_len};
ghost use Rattle.std.specs.List.{concat};
ghost use Rattle.bitpack_slices.specs.Errors.{Finds};
ghost use Rattle.bitpack_sets.specs.Fronts.{IsFront, IsNext, front_ids};
ghost use Rattle.bitpack_sets.specs.Opened.{ids};
ghost use Rattle.bitpack_slices.specs.Bodies.{parts};
ghost use Rattle.bitpack_sets.specs.Sets.{IsSet, encoding, in_chunks};
ghost use Rattle.bitpack_sets.specs.Written.{Appends, AppendsWith, WritesBytes, WritesWith, bodies, refusal, unpacked};

use crate::encoding::chunks::chunks_len;
use crate::encoding::copying::Front;
use crate::encoding::order::test_more;
use crate::encoding::{append_set, append_zeros, encode_to};
use crate::id_set::IdSet;
use crate::reserved;
use bitpack_slices::SetError;

/// Appends the set of the ids of a set and of more ids after them. It unpacks ids into `room`, whose items are lost. If both sets are in chunks,
/// only the ids of the last chunk are unpacked, and the other bodies are copied.
///
/// All these ids have to increase, and are at most 268,435,456. Fails with `TooLong`, then with `NotSorted` and the position in the whole set
/// of the first id that is not above the one before it, or with `Memory` if a vector cannot grow. `out` grows at most once. `room` does not grow
/// if it has room for the ids that are unpacked and for `more`.
pub fn append(
    set: &IdSet,
    more: &[u32],
    room: &mut Vec<u32>,
    out: &mut Vec<u8>,
) -> Result<(), SetError>
    // claim: sets/15
    ensures { AppendsWith (vec_capacity room.old) (unpacked (ids set.now) more.now) (ids set.now ++ more.now) result out.old out.new }
{
    test_after(set, more)?;
    room.clear();
    match set.front() {
        Some(front) => append_after(&front, set, more, room, out),
        None => append_unpacked(set, more, room, out),
    }
}

/// Writes the set of the ids of a set and of more ids after them at the start of the slice, and returns its length in bytes. Allocates nothing:
/// it unpacks ids into `room`. If both sets are in chunks, only the ids of the last chunk are unpacked, and the other bodies are copied.
///
/// Fails as [`append`] does, with `Short` if there is no room for the bytes, or for the ids that are unpacked and `more`. Room for all ids is always
/// enough. If it fails, the slice is unchanged. The bytes after the set are unchanged.
pub fn append_to(
    set: &IdSet,
    more: &[u32],
    room: &mut [u32],
    out: &mut [u8],
) -> Result<usize, SetError>
    // claim: sets/15 encodes a set's ids with more after them, as `sets/7-9`; needs work space for these, and for the ids of the last
    //   chunk, or for all if not both sets are in chunks
    ensures { WritesWith (length room.old) (unpacked (ids set.now) more.now) (ids set.now ++ more.now) result out.old out.new }
{
    test_after(set, more)?;
    match set.front() {
        Some(front) => write_after(&front, set, more, room, out),
        None => write_unpacked(set, more, room, out),
    }
}

/// Tests that ids can follow the ids of a set.
fn test_after(set: &IdSet, more: &[u32]) -> Result<(), SetError>
    ensures fault { Finds result (refusal (ids set.now ++ more.now)) }
    ensures set { OnOk result (IsSet (ids set.now ++ more.now)) }
{
    test_more(set.len(), set.last(), more)
}

/// Appends the set of all ids. If it is in chunks, the bodies of the first ones are copied.
fn append_after(
    front: &Front,
    set: &IdSet,
    more: &[u32],
    room: &mut Vec<u32>,
    out: &mut Vec<u8>,
) -> Result<(), SetError>
    requires set { IsSet (ids set.now ++ more.now) }
    requires front { IsFront (front_ids front.now) (ids set.now) }
    requires room { room.old.items ≡ [] }
    ensures { AppendsWith (vec_capacity room.old) (unpacked (ids set.now) more.now) (ids set.now ++ more.now) result out.old out.new }
{
    unpack_with(set, front.len(), more, room)?;
    let (chunks, size) = front.measure(room.as_slice());
    if set.len() + more.len() < 4 * chunks {
        room.clear();
        return append_unpacked(set, more, room, out);
    }
    append_copied(front, room.as_slice(), chunks, size, out)
}

/// Appends the set of all ids, after it unpacked them.
fn append_unpacked(
    set: &IdSet,
    more: &[u32],
    room: &mut Vec<u32>,
    out: &mut Vec<u8>,
) -> Result<(), SetError>
    requires set { IsSet (ids set.now ++ more.now) }
    requires room { room.old.items ≡ [] }
    ensures { AppendsWith (vec_capacity room.old) (length (ids set.now ++ more.now)) (ids set.now ++ more.now) result out.old out.new }
{
    unpack_with(set, 0, more, room)?;
    append_set(room.as_slice(), out)
}

/// Appends the encoding of the ids of chunks, which are copied, and of ids after them.
fn append_copied(
    front: &Front,
    ids: &[u32],
    chunks: usize,
    size: usize,
    out: &mut Vec<u8>,
) -> Result<(), SetError>
    requires set { IsSet ids.now }
    requires next { IsNext (front_ids front.now) ids.now }
    requires most { length (front_ids front.now ++ ids.now) ≤ 2 ^ 28 }
    requires chunks { chunks ≡ length (parts 65536 (front_ids front.now ++ ids.now)) }
    requires few { chunks ≤ length (front_ids front.now ++ ids.now) }
    requires size { size ≡ length (concat (bodies (front_ids front.now ++ ids.now))) }
    requires small { size ≤ 2 * length (front_ids front.now ++ ids.now) }
    ensures { Appends (in_chunks (front_ids front.now ++ ids.now)) result out.old out.new }
{
    let len = chunks_len(front.len() + ids.len(), chunks, size);
    if out.reserve(len).is_err() {
        return Err(SetError::Memory);
    }
    let start = out.len();
    append_zeros(out, len);
    front.write(ids, chunks, size, out.slice_mut(start..));
    Ok(())
}

/// Appends the ids of a set from a position on, and more ids.
fn unpack_with(set: &IdSet, from: usize, more: &[u32], out: &mut Vec<u32>) -> Result<(), SetError>
    requires from { from ≤ length (ids set.now) }
    requires few { length (ids set.now) + length more.now ≤ 2 ^ 28 }
    ensures ok { OnOk result (out.new.items ≡ out.old.items ++ (drop from (ids set.now) ++ more.now)) }
    ensures memory { IfErr result (λ e. e ≡ SetError.Memory) }
    ensures room { OnErr result (vec_capacity out.old < vec_len out.old + (length (ids set.now) - from + length more.now)) }
    ensures grown { vec_capacity out.old ≤ vec_capacity out.new }
{
    let count = set.len() - from;
    if out.reserve(count + more.len()).is_err() {
        return Err(SetError::Memory);
    }
    append_range(set, from, count, out);
    match out.extend_from_slice(more) {
        Ok(()) => Ok(()),
        Err(_) => Err(SetError::Memory),
    }
}

/// Appends the `count` ids of a set from a position on to a vector that has the room.
fn append_range(set: &IdSet, from: usize, count: usize, out: &mut Vec<u32>)
    requires count { from + count ≡ length (ids set.now) }
    requires room { vec_len out.old + count ≤ vec_capacity out.old }
    ensures ids { out.new.items ≡ out.old.items ++ drop from (ids set.now) }
    ensures capacity { vec_capacity out.old ≤ vec_capacity out.new }
{
    let start = out.len();
    reserved::append_zeros(out, count);
    set.copy_range(from, out.slice_mut(start..));
}

/// Writes the set of all ids. If it is in chunks, the bodies of the first ones are copied.
fn write_after(
    front: &Front,
    set: &IdSet,
    more: &[u32],
    room: &mut [u32],
    out: &mut [u8],
) -> Result<usize, SetError>
    requires set { IsSet (ids set.now ++ more.now) }
    requires front { IsFront (front_ids front.now) (ids set.now) }
    ensures { WritesWith (length room.old) (unpacked (ids set.now) more.now) (ids set.now ++ more.now) result out.old out.new }
{
    let count = unpack_to(set, front.len(), more, room)?;
    let (chunks, size) = front.measure(&room[..count]);
    if set.len() + more.len() < 4 * chunks {
        return write_unpacked(set, more, room, out);
    }
    write_copied(front, &room[..count], chunks, size, out)
}

/// Writes the set of all ids, after it unpacked them.
fn write_unpacked(
    set: &IdSet,
    more: &[u32],
    room: &mut [u32],
    out: &mut [u8],
) -> Result<usize, SetError>
    requires set { IsSet (ids set.now ++ more.now) }
    ensures { WritesWith (length room.old) (length (ids set.now ++ more.now)) (ids set.now ++ more.now) result out.old out.new }
{
    let count = unpack_to(set, 0, more, room)?;
    encode_to(&room[..count], out)
}

/// Writes the encoding of the ids of chunks, which are copied, and of ids after them.
fn write_copied(
    front: &Front,
    ids: &[u32],
    chunks: usize,
    size: usize,
    out: &mut [u8],
) -> Result<usize, SetError>
    requires set { IsSet ids.now }
    requires next { IsNext (front_ids front.now) ids.now }
    requires most { length (front_ids front.now ++ ids.now) ≤ 2 ^ 28 }
    requires chunks { chunks ≡ length (parts 65536 (front_ids front.now ++ ids.now)) }
    requires few { chunks ≤ length (front_ids front.now ++ ids.now) }
    requires size { size ≡ length (concat (bodies (front_ids front.now ++ ids.now))) }
    requires small { size ≤ 2 * length (front_ids front.now ++ ids.now) }
    ensures { WritesBytes (in_chunks (front_ids front.now ++ ids.now)) result out.old out.new }
{
    let len = chunks_len(front.len() + ids.len(), chunks, size);
    if out.len() < len {
        return Err(SetError::Short);
    }
    front.write(ids, chunks, size, &mut out[..len]);
    Ok(len)
}

/// Writes the ids of a set from a position on, and more ids, at the start of the room. Returns how many these are.
fn unpack_to(set: &IdSet, from: usize, more: &[u32], room: &mut [u32]) -> Result<usize, SetError>
    requires from { from ≤ length (ids set.now) }
    requires few { length (ids set.now) + length more.now ≤ 2 ^ 28 }
    ensures within { IfOk result (λ count. count ≤ length room.new) }
    ensures ok { IfOk result (λ count. take count room.new ≡ drop from (ids set.now) ++ more.now) }
    ensures short { IfErr result (λ e. e ≡ SetError.Short) }
    ensures len { length room.new ≡ length room.old }
    ensures room { OnErr result (length room.old < length (ids set.now) - from + length more.now) }
{
    let count = set.len() - from;
    let end = count + more.len();
    if end > room.len() {
        return Err(SetError::Short);
    }
    set.copy_range(from, &mut room[..count]);
    room[count..end].copy_from_slice(more);
    Ok(end)
}
