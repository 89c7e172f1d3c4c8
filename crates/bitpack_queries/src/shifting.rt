//! Writes a set with a number added to each id.

mod gathering;

ghost use Rattle.std.specs.Prelude.{◌≡◌, ℤ, ℕ, ◌+◌, ◌-◌, ◌*◌, ◌^◌, ◌<◌, ◌≤◌, Some, Err, IfSome, length, map, min, slice_index};
ghost use Rattle.bitpack_slices.specs.declared.set_error.SetError.TheVariants.{Short};
ghost use Rattle.bitpack_slices.specs.Reads.{rank};
ghost use Rattle.bitpack_sets.specs.Opened.{ids};
ghost use Rattle.bitpack_queries.specs.Gathered.{Fills, PutsSet};
ghost use Rattle.bitpack_queries.specs.Shifts.{down_of, moved, room_for, up_of};

use crate::gathered::write_ids;
use crate::shifting::gathering::{gather, gather_whole};
use bitpack_sets::IdSet;
use bitpack_slices::SetError;

/// The number after the last that an id can be.
pub(crate) const END_OF_IDS: u64 = 1 << 32;

/// The most ids of a chunk, and the most chunks.
const MOST: usize = 65536;

/// What is added to each id, and what is then taken away.
#[derive(Clone, Copy)]
pub(crate) struct Shift {
    pub(crate) up: u64,
    pub(crate) down: u64,
    ghost up_fits: { up ≤ 2 ^ 63 },
    ghost down_fits: { down ≤ 2 ^ 63 },
}

impl Shift {
    /// A number that may be below 0.
    fn by(number: i64) -> Shift
        ensures up { result.up ≡ up_of number }
        ensures down { result.down ≡ down_of number }
    {
        let size = number.unsigned_abs();
        if number < 0 {
            Shift { up: 0, down: size }
        } else {
            Shift { up: size, down: 0 }
        }
    }

    /// The number that becomes this one, or 0 if none does.
    #[inline(always)]
    pub(crate) fn before(self, number: u64) -> u64
        requires small { number ≤ 2 ^ 32 }
        ensures { result ≡ number + self.down - self.up }
    {
        (number + self.down).saturating_sub(self.up)
    }

    /// What an id becomes, which is an id.
    #[inline(always)]
    pub(crate) fn after(self, id: u32) -> u32
        requires below { self.down ≤ id + self.up }
        requires above { id + self.up - self.down < 2 ^ 32 }
        ensures { result ≡ id + self.up - self.down }
    {
        (id as u64 + self.up - self.down) as u32
    }
}

/// How many items of work space [`shift_to`] needs: four for each id, for at most 65,536.
pub fn shift_room(set: &IdSet) -> usize
    ensures { result ≡ room_for (ids set.now) }
{
    4 * set.len().min(MOST)
}

/// Writes the set that has `by` added to each id at the start of the slice, and returns its length in bytes. An id that leaves the range from 0 to
/// 4294967295 is left out. Allocates nothing.
///
/// `room` is work space, as [`shift_room`] says. If it is shorter, or the set does not fit the slice, the call fails with `Short`. Bytes after the set
/// may change, and any byte if the call fails. If the low 16 bits of `by` are 0, the bodies of chunks are copied.
pub fn shift_to(set: &IdSet, by: i64, room: &mut [u32], out: &mut [u8]) -> Result<usize, SetError>
    // claim: sets/33 writes the set of ids with a number added; others leave
    ensures { PutsSet (length room.old) (room_for (ids set.now)) (moved (up_of by) (down_of by) (ids set.now)) result out.old out.new }
{
    let len = fill_shifted(set, by, room, out)?;
    if len > out.len() {
        return Err(SetError::Short);
    }
    Ok(len)
}

/// Writes the set as [`shift_to`] if it fits the slice, and returns its length in bytes also if it does not.
pub fn fill_shifted(
    set: &IdSet,
    by: i64,
    room: &mut [u32],
    out: &mut [u8],
) -> Result<usize, SetError>
    ensures written { room_for (ids set.now) ≤ length room.old → Fills (moved (up_of by) (down_of by) (ids set.now)) result out.old out.new }
    ensures short { length room.old < room_for (ids set.now) → result ≡ Err Short }
{
    if room.len() < shift_room(set) {
        return Err(SetError::Short);
    }
    write(set, Shift::by(by), room, out)
}

/// Writes the encoding of the set that is shifted, if there is room for it. Returns its length in bytes.
fn write(set: &IdSet, shift: Shift, room: &mut [u32], out: &mut [u8]) -> Result<usize, SetError>
    requires room { room_for (ids set.now) ≤ length room.old }
    ensures { Fills (moved shift.up shift.down (ids set.now)) result out.old out.new }
{
    if let Some(written) = write_whole(set, shift, room, out) {
        return written;
    }
    let from = rank_below(set, shift.before(0));
    let end = rank_below(set, shift.before(END_OF_IDS));
    let count = end.saturating_sub(from);
    if count <= room.len() {
        return write_unpacked(set, shift, from, &mut room[..count], out);
    }
    let (keys, others) = room.split_at_mut(MOST);
    let (counts, others) = others.split_at_mut(MOST);
    let (sizes, ids) = others.split_at_mut(MOST);
    let gathered = gather(set, shift, from, end, ids, keys, counts, sizes, out);
    gathered.write(keys, counts, sizes, out).unwrap()
}

/// Writes the encoding as `write`, if whole chunks move, and there are chunks before and after.
fn write_whole(
    set: &IdSet,
    shift: Shift,
    room: &mut [u32],
    out: &mut [u8],
) -> Option<Result<usize, SetError>>
    requires room { room_for (ids set.now) ≤ length room.old }
    ensures { IfSome result (λ written. Fills (moved shift.up shift.down (ids set.now)) written out.old out.new) }
{
    if shift.up % 65536 != 0 || shift.down % 65536 != 0 {
        return None;
    }
    let part = room.len() / 4;
    let (keys, others) = room.split_at_mut(part);
    let (counts, sizes) = others.split_at_mut(part);
    let gathered = gather_whole(set, shift, keys, counts, sizes, out)?;
    gathered.write(keys, counts, sizes, out)
}

/// Writes the encoding as `write` of the ids from a position on, which fill the work space.
fn write_unpacked(
    set: &IdSet,
    shift: Shift,
    from: usize,
    own: &mut [u32],
    out: &mut [u8],
) -> Result<usize, SetError>
    requires from { from ≡ rank (shift.down - shift.up) (ids set.now) }
    requires count { length own.old ≡ rank (2 ^ 32 + shift.down - shift.up) (ids set.now) - from }
    ensures { Fills (moved shift.up shift.down (ids set.now)) result out.old out.new }
{
    set.copy_range(from, own);
    shift_ids(shift, own);
    write_ids(own, out)
}

/// Shifts ids that stay ids.
pub(crate) fn shift_ids(shift: Shift, own: &mut [u32])
    requires below { (k : ℕ) → k < length own.old → shift.down ≤ slice_index own.old k + shift.up }
    requires above { (k : ℕ) → k < length own.old → slice_index own.old k + shift.up - shift.down < 2 ^ 32 }
    ensures { own.new ≡ map (λ id. id + shift.up - shift.down) own.old }
{
    for index in 0..own.len() {
        own[index] = shift.after(own[index]);
    }
}

/// How many ids are below a number, which may be above all.
pub(crate) fn rank_below(set: &IdSet, number: u64) -> usize
    ensures { result ≡ rank number (ids set.now) }
{
    if number < END_OF_IDS {
        set.rank(number as u32)
    } else {
        set.len()
    }
}
