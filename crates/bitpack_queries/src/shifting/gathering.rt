//! Writes the bodies of the chunks of a set that is shifted, and remembers what their directory has.

ghost use Rattle.std.specs.Prelude.{◌≡◌, ◌+◌, ◌-◌, ◌/◌, ◌%◌, ◌^◌, ◌<◌, ◌≤◌, IfSome, length, min};
ghost use Rattle.bitpack_slices.specs.Reads.{rank};
ghost use Rattle.bitpack_sets.specs.Opened.{ids};
ghost use Rattle.bitpack_queries.specs.Gathered.{IsGathered};
ghost use Rattle.bitpack_queries.specs.Shifts.{moved};

use crate::gathered::{Gathered, put_body};
use crate::shifting::{END_OF_IDS, Shift, rank_below, shift_ids};
use bitpack_sets::IdSet;
use bitpack_sets::chunked::chunks_of;
use bitpack_sets::chunks::NO_KEY;
use bitpack_sets::encoding::placed::put_chunk;
use bitpack_sets::id_set::ROOM;

/// Writes the bodies of the ids between two positions, if there is room for all. `own` is work space for the ids of a chunk.
pub(crate) fn gather(
    set: &IdSet,
    shift: Shift,
    from: usize,
    end: usize,
    own: &mut [u32],
    keys: &mut [u32],
    counts: &mut [u32],
    sizes: &mut [u32],
    out: &mut [u8],
) -> Gathered
    requires from { from ≡ rank (shift.down - shift.up) (ids set.now) }
    requires end { end ≡ rank (2 ^ 32 + shift.down - shift.up) (ids set.now) }
    requires own { 65536 ≤ length own.old }
    requires keys { 65536 ≤ length keys.old }
    requires counts { 65536 ≤ length counts.old }
    requires sizes { 65536 ≤ length sizes.old }
    ensures { IsGathered (moved shift.up shift.down (ids set.now)) keys.new counts.new sizes.new out.new result.count result.chunks result.size }
{
    let mut gathered = Gathered::new();
    let mut low = 0;
    let mut at = from;
    while at < end {
        let key = shift.after(set.select(at).unwrap()) / 65536;
        low = 65536 * (key as u64 + 1);
        let next = rank_below(set, shift.before(low));
        let part = &mut own[..next - at];
        set.copy_range(at, part);
        shift_ids(shift, part);
        let size = put_chunk(part, out, gathered.size);
        gathered.add(key, next - at, size, keys, counts, sizes);
        at = next;
    }
    gathered
}

/// Copies the bodies of a set in chunks, if there is room for all. The shift is by whole chunks. It is `None` if the set is not in chunks.
pub(crate) fn gather_whole(
    set: &IdSet,
    shift: Shift,
    keys: &mut [u32],
    counts: &mut [u32],
    sizes: &mut [u32],
    out: &mut [u8],
) -> Option<Gathered>
    requires whole { (shift.up % 65536 ≡ 0) × (shift.down % 65536 ≡ 0) }
    requires keys { min (length (ids set.now)) 65536 ≤ length keys.old }
    requires counts { min (length (ids set.now)) 65536 ≤ length counts.old }
    requires sizes { min (length (ids set.now)) 65536 ≤ length sizes.old }
    ensures { IfSome result (λ gathered. IsGathered (moved shift.up shift.down (ids set.now)) keys.new counts.new sizes.new out.new gathered.count gathered.chunks gathered.size) }
{
    let mut room = [0; ROOM];
    let chunks = chunks_of(set, &mut room);
    let limit = key_from(shift.before(END_OF_IDS));
    let mut gathered = Gathered::new();
    let mut position = chunks.seek(0, key_from(shift.before(0)));
    let mut key = chunks.key(position);
    while key < limit {
        let (count, body) = chunks.coded(position)?;
        let end = chunks.end(position, key);
        put_body(body, out, gathered.size);
        gathered.add(
            shift.after(65536 * key) / 65536,
            count,
            body.len(),
            keys,
            counts,
            sizes,
        );
        position = end;
        key = chunks.key(position);
    }
    Some(gathered)
}

/// The key of a number, or the one after all keys.
fn key_from(number: u64) -> u32
    ensures key { number < 2 ^ 32 → result ≡ number / 65536 }
    ensures most { 2 ^ 32 ≤ number → result ≡ 65536 }
    ensures within { result ≤ 65536 }
{
    if number < END_OF_IDS {
        (number / 65536) as u32
    } else {
        NO_KEY
    }
}
