//! Writes the bitmap of a set in Roaring's portable format.
//! ROARING.md, "The head".

ghost use Rattle.std.specs.Prelude.{◌≡◌, ℕ, ◌+◌, ◌*◌, ◌/◌, ◌^◌, ◌<◌, ◌≤◌, if◌then◌else◌, nat_le, true, length};
ghost use Rattle.std.specs.List.{concat};
ghost use Rattle.bitpack_sets.specs.Opened.{ids};
ghost use Rattle.bitpack_slices.specs.Bitmaps.{has_bit};
ghost use Rattle.bitpack_slices.specs.Bodies.{parts};
ghost use Rattle.bitpack_slices.specs.Reads.{has};
ghost use Rattle.bitpack_roaring.specs.Written.{WritesBitmap, flagged, roaring};
ghost use Rattle.bitpack_roaring.specs.inner.Sizes as Sizes;
ghost use Rattle.bitpack_roaring.specs.inner.Sizes.{has_run, lists, offsets_of};

use crate::bodies::write_part;
use crate::entries::{write_cookie, write_entry, write_offset};
use crate::head::{LONGEST_ARRAY, entry_len, has_offsets, keys_start};
use crate::measured::Measured;
use crate::measuring::measure;
use crate::parts::part_at;
use bitpack_sets::IdSet;
use bitpack_sets::chunked::chunks_of;
use bitpack_sets::id_set::ROOM;
use bitpack_slices::bitmap::single_bits::test_bit;

/// How many bytes the ids of a set have as a bitmap in Roaring's portable format, if CRoaring's `roaring_bitmap_run_optimize` chooses its containers.
/// Allocates nothing.
// claim: roaring/3 measures the bitmap of a set, with the containers that CRoaring chooses
pub fn roaring_len(set: &IdSet) -> usize
    ensures { result ≡ length (roaring (ids set.now)) }
{
    let mut flags = [0; 1024];
    let measured = measure(set, &mut flags);
    let entry = entry_len(has_offsets(measured.runs, measured.containers));
    keys_start(measured.runs, measured.containers) + entry * measured.containers + measured.size
}

/// Writes the ids of a set as a bitmap in Roaring's portable format at the start of the slice, with the bytes that CRoaring's
/// `roaring_bitmap_portable_serialize` writes after `roaring_bitmap_run_optimize`. Returns how many bytes the bitmap has, also if the slice is shorter:
/// then nothing changes. Allocates nothing.
// claim: roaring/4 writes this bitmap, or nothing to a shorter slice
pub fn set_to_roaring(set: &IdSet, out: &mut [u8]) -> usize
    ensures { WritesBitmap (ids set.now) result out.old out.new }
{
    let mut flags = [0; 1024];
    let measured = measure(set, &mut flags);
    let offsets = has_offsets(measured.runs, measured.containers);
    let keys = keys_start(measured.runs, measured.containers);
    let start = keys + entry_len(offsets) * measured.containers;
    let len = start + measured.size;
    if len <= out.len() {
        write_bitmap(set, measured, &flags, keys, start, offsets, &mut out[..len]);
    }
    len
}

/// Writes the bitmap of a set that was measured: its keys begin at `keys`, and its containers at `start`.
fn write_bitmap(
    set: &IdSet,
    measured: Measured,
    flags: &[u64; 1024],
    keys: usize,
    start: usize,
    offsets: bool,
    out: &mut [u8],
)
    requires containers { measured.containers ≡ length (parts 65536 (ids set.now)) }
    requires few { measured.containers ≤ 65536 }
    requires runs { measured.runs ≡ has_run (parts 65536 (ids set.now)) }
    requires size { measured.size ≡ length (concat (Sizes.bodies (parts 65536 (ids set.now)))) }
    requires small { measured.size ≤ 8192 * measured.containers }
    requires flags { (m : ℕ) → has_bit flags.now m ≡ has m (flagged 0 (lists (parts 65536 (ids set.now)))) }
    requires keys { keys ≡ (if measured.runs then 4 + (measured.containers + 7) / 8 else 8) }
    requires offsets { offsets ≡ (if measured.runs then nat_le 4 measured.containers else true) }
    requires start { start ≡ keys + (if offsets then 8 else 4) * measured.containers }
    requires room { length out.old ≡ start + measured.size }
    ensures { out.new ≡ roaring (ids set.now) }
{
    let (cookie, rest) = out.split_at_mut(keys);
    let (entries, others) = rest.split_at_mut(4 * measured.containers);
    let (starts, bodies) = others.split_at_mut(start - keys - 4 * measured.containers);
    write_cookie(measured.runs, measured.containers, flags, cookie);
    write_containers(set, start, offsets, flags, entries, starts, bodies);
}

/// Writes the key and the count of each container, its offset if there are offsets, and the containers. The first begins at `start`.
fn write_containers(
    set: &IdSet,
    start: usize,
    offsets: bool,
    flags: &[u64; 1024],
    entries: &mut [u8],
    starts: &mut [u8],
    bodies: &mut [u8],
)
    requires flags { (m : ℕ) → has_bit flags.now m ≡ has m (flagged 0 (lists (parts 65536 (ids set.now)))) }
    requires few { start + length bodies.old < 2 ^ 32 }
    requires entries { length entries.old ≡ 4 * length (parts 65536 (ids set.now)) }
    requires starts { length starts.old ≡ (if offsets then 4 else 0) * length (parts 65536 (ids set.now)) }
    requires bodies { length bodies.old ≡ length (concat (Sizes.bodies (parts 65536 (ids set.now)))) }
    ensures entries { entries.new ≡ Sizes.entries (parts 65536 (ids set.now)) }
    ensures starts { starts.new ≡ offsets_of offsets start (parts 65536 (ids set.now)) }
    ensures bodies { bodies.new ≡ concat (Sizes.bodies (parts 65536 (ids set.now))) }
{
    let mut room = [0; ROOM];
    let chunks = chunks_of(set, &mut room);
    let mut lists = ([0; LONGEST_ARRAY], [0; LONGEST_ARRAY]);
    let mut words = ([0; 1024], [0; 1024]);
    let mut container = 0;
    let mut at = 0;
    let mut position = 0;
    let mut from = 0;
    while position < chunks.len() {
        let part = part_at(&chunks, position, from);
        let run = test_bit(flags, container);
        write_entry(container, part.key, part.count, entries);
        write_offset(offsets, container, start + at, starts);
        at += write_part(
            set,
            &chunks,
            part,
            run,
            &mut lists.0,
            &mut lists.1,
            &mut words.0,
            &mut words.1,
            &mut bodies[at..],
        );
        container += 1;
        position = part.end;
        from += part.count;
    }
}
