//! Measures the bitmap of a set: which containers are runs, and how many bytes all have.
//! ROARING.md, "Containers".

ghost use Rattle.std.specs.Prelude.{◌≡◌, ◌≢◌, ℕ, ◌+◌, ◌*◌, ◌<◌, ◌≤◌, false, length};
ghost use Rattle.std.specs.List.{concat};
ghost use Rattle.bitpack_slices.specs.Bitmaps.{has_bit};
ghost use Rattle.bitpack_slices.specs.Bodies.{parts};
ghost use Rattle.bitpack_slices.specs.Reads.{has};
ghost use Rattle.bitpack_sets.specs.Chunks.{positions};
ghost use Rattle.bitpack_sets.specs.Opened.{ids};
ghost use Rattle.bitpack_roaring.specs.Written.{flagged, runs_of};
ghost use Rattle.bitpack_roaring.specs.inner.Sizes.{bodies, has_run, lists};
ghost use Rattle.bitpack_roaring.specs.inner.Walks.{IsPart, numbers_of_part};

use crate::bodies::copy_ids;
use crate::changes::count_runs;
use crate::head::LONGEST_ARRAY;
use crate::measured::Measured;
use crate::parts::{Part, part_at};
use bitpack_sets::IdSet;
use bitpack_sets::chunked::chunks_of;
use bitpack_sets::chunks::Chunks;
use bitpack_sets::id_set::ROOM;
use bitpack_slices::chunk::bounds::count_in_ids;
use bitpack_slices::chunk::runs::fill_range;

/// Measures the containers of a set. Sets the bits of those that are runs.
pub(crate) fn measure(set: &IdSet, flags: &mut [u64; 1024]) -> Measured
    requires clear { (m : ℕ) → has_bit flags.old m ≡ false }
    ensures containers { result.containers ≡ length (parts 65536 (ids set.now)) }
    ensures few { result.containers ≤ 65536 }
    ensures runs { result.runs ≡ has_run (parts 65536 (ids set.now)) }
    ensures size { result.size ≡ length (concat (bodies (parts 65536 (ids set.now)))) }
    ensures small { result.size ≤ 8192 * result.containers }
    ensures flags { (m : ℕ) → has_bit flags.new m ≡ has m (flagged 0 (lists (parts 65536 (ids set.now)))) }
{
    let mut room = [0; ROOM];
    let chunks = chunks_of(set, &mut room);
    let mut list = [0; LONGEST_ARRAY];
    let mut words = ([0; 1024], [0; 1024]);
    let mut measured = Measured::new();
    let mut position = 0;
    let mut from = 0;
    while position < chunks.len() {
        let part = part_at(&chunks, position, from);
        let runs = count_runs_in(set, &chunks, part, &mut list, &mut words.0, &mut words.1);
        measured.add(part.count, runs, flags);
        position = part.end;
        from += part.count;
    }
    measured
}

/// How many runs the numbers of a chunk have. The others are work space.
fn count_runs_in(
    set: &IdSet,
    chunks: &Chunks,
    part: Part,
    list: &mut [u32; LONGEST_ARRAY],
    words: &mut [u64; 1024],
    found: &mut [u64; 1024],
) -> usize
    requires part { IsPart (ids set.now) chunks.now part }
    ensures runs { result ≡ length (runs_of (numbers_of_part chunks.now part)) }
    ensures few { result ≤ 65536 }
{
    if part.count <= LONGEST_ARRAY {
        let own = &mut list[..part.count];
        copy_ids(set, part, own);
        return (count_in_ids(own) + 1) / 2;
    }
    load_numbers(chunks, part, words);
    count_runs(words, found)
}

/// Loads the numbers of a chunk into a bitmap.
pub(crate) fn load_numbers(chunks: &Chunks, part: Part, words: &mut [u64; 1024])
    requires within { (part.begin ≤ part.end) × (part.end ≤ positions chunks.now) }
    requires one { chunks.now.count ≢ 0 → part.end ≤ part.begin + 1 }
    ensures { (x : ℕ) → x < 65536 → has_bit words.new x ≡ has x (numbers_of_part chunks.now part) }
{
    let mut highs = [0; 256];
    fill_range(0, &mut highs);
    chunks.load(part.begin, part.end, &highs, words);
}
