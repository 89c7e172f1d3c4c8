//! Writes the set of the ids of a bitmap in Roaring's portable format.

ghost use Rattle.std.specs.Prelude.{◌≡◌, ◌+◌, ◌*◌, ◌^◌, ◌<◌, ◌≤◌, None, Some, IfErr, IfOk, MatchOption, Err, length};
ghost use Rattle.bitpack_slices.specs.declared.set_error.SetError.TheVariants.{Short};
ghost use Rattle.bitpack_queries.specs.Gathered.{Fills, IsGathered, PutsSet};
ghost use Rattle.bitpack_roaring.specs.Faults.{fault};
ghost use Rattle.bitpack_roaring.specs.Roaring.{containers, ids_of};

use crate::container::write_container;
use crate::head::{Head, test_head};
use crate::testing::test_bitmap;
use crate::unpacking::unpack;
use bitpack_queries::gathered::{Gathered, put_body, write_ids};
use bitpack_sets::encoding::combining::MOST_LISTED;
use bitpack_sets::encoding::order::LONGEST_SET;
use bitpack_sets::few::MOST_FEW;
use bitpack_slices::SetError;
use bitpack_slices::bitmap::writing::LONGEST_BLOCKS;

/// How many items of work space [`set_from_roaring`] needs: four for each container. It tests the head alone.
#[tactic(auto, unfolding(crate::specs::Faults::fault))]
pub fn roaring_room(bytes: &[u8]) -> Result<usize, SetError>
    ensures room { IfOk result (λ room. room ≡ 4 * containers bytes.now) }
    ensures fault { IfErr result (λ e. fault bytes.now ≡ Some e) }
{
    let head = test_head(bytes)?;
    Ok(4 * head.containers)
}

/// Writes the set of the ids of a bitmap at the start of the slice, and returns its length in bytes. Allocates nothing.
///
/// Bytes that are no bitmap in Roaring's portable format are refused for their first fault, and more than 268,435,456 ids with `TooLong`. `room` is
/// work space, as [`roaring_room`] says. If it is shorter, or the set does not fit the slice, the call fails with `Short`. Bytes after the set may
/// change, and any byte if the call fails.
// claim: roaring/2 writes the set of a bitmap's ids; names the first fault of other bytes; `TooLong`, `Short` if room lacks
pub fn set_from_roaring(bytes: &[u8], room: &mut [u32], out: &mut [u8]) -> Result<usize, SetError>
    ensures { MatchOption (fault bytes.now)
        (PutsSet (length room.old) (4 * containers bytes.now) (ids_of bytes.now) result out.old out.new)
        (λ fault. result ≡ Err fault) }
{
    let len = fill_from_roaring(bytes, room, out)?;
    if len > out.len() {
        return Err(SetError::Short);
    }
    Ok(len)
}

/// Writes the set of the ids of a bitmap if it fits the slice, and returns its length in bytes also if it does not. Else as [`set_from_roaring`].
pub fn fill_from_roaring(bytes: &[u8], room: &mut [u32], out: &mut [u8]) -> Result<usize, SetError>
    ensures written { fault bytes.now ≡ None → 4 * containers bytes.now ≤ length room.old → Fills (ids_of bytes.now) result out.old out.new }
    ensures short { fault bytes.now ≡ None → length room.old < 4 * containers bytes.now → result ≡ Err Short }
    ensures fault { MatchOption (fault bytes.now) (Unit {0}) (λ fault. result ≡ Err fault) }
{
    let (head, count) = test_bitmap(bytes)?;
    if room.len() < 4 * head.containers {
        return Err(SetError::Short);
    }
    write(head, count, room, out)
}

/// Writes the encoding of the set of `count` ids, if there is room for it. Returns its length in bytes, or `TooLong`.
fn write(head: Head, count: usize, room: &mut [u32], out: &mut [u8]) -> Result<usize, SetError>
    requires sound { fault head.bytes.now ≡ None }
    requires count { count ≡ length (ids_of head.bytes.now) }
    requires room { 4 * containers head.bytes.now ≤ length room.old }
    ensures { Fills (ids_of head.entry.bytes.now) result out.old out.new }
{
    if count > LONGEST_SET {
        return Err(SetError::TooLong(count));
    }
    if count <= MOST_FEW {
        let mut ids = [0; MOST_FEW];
        return write_unpacked(head, count, &mut ids, out);
    }
    if count < 4 * head.containers {
        return write_unpacked(head, count, room, out);
    }
    let (keys, others) = room.split_at_mut(head.containers);
    let (counts, sizes) = others.split_at_mut(head.containers);
    let gathered = gather(head, keys, counts, sizes, out);
    gathered.write(keys, counts, sizes, out).unwrap()
}

/// Writes the encoding of the set after it unpacked its ids, as `write`. The work space has room for them.
fn write_unpacked(
    head: Head,
    count: usize,
    room: &mut [u32],
    out: &mut [u8],
) -> Result<usize, SetError>
    requires sound { fault head.bytes.now ≡ None }
    requires count { count ≡ length (ids_of head.bytes.now) }
    requires few { count ≤ 2 ^ 28 }
    requires room { count ≤ length room.old }
    ensures { Fills (ids_of head.entry.bytes.now) result out.old out.new }
{
    unpack(head, room);
    write_ids(&room[..count], out)
}

/// Writes the bodies of the set, if there is room for all. Of each chunk it writes the key, how many ids it has, and how many bytes its body.
fn gather(
    head: Head,
    keys: &mut [u32],
    counts: &mut [u32],
    sizes: &mut [u32],
    out: &mut [u8],
) -> Gathered
    requires sound { fault head.bytes.now ≡ None }
    requires keys { containers head.bytes.now ≤ length keys.old }
    requires counts { containers head.bytes.now ≤ length counts.old }
    requires sizes { containers head.bytes.now ≤ length sizes.old }
    ensures { IsGathered (ids_of head.entry.bytes.now) keys.new counts.new sizes.new out.new result.count result.chunks result.size }
{
    let mut ids = [0; MOST_LISTED];
    let mut room = [0; LONGEST_BLOCKS];
    let mut gathered = Gathered::new();
    let mut start = head.start;
    for container in 0..head.containers {
        let end = head.end(container, start);
        let run = head.is_run(container);
        let count = head.count(container);
        let bytes = &head.bytes[start..end];
        let size = write_container(run, count, bytes, &mut ids, &mut room);
        put_body(&room[..size], out, gathered.size);
        gathered.add(head.key(container), count, size, keys, counts, sizes);
        start = end;
    }
    gathered
}
