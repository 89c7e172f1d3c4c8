//! Writes the container of a chunk of a set.
//! ROARING.md, "Containers".

ghost use Rattle.std.specs.Prelude.{◌≡◌, ◌+◌, ◌≤◌, drop, length, take, true};
ghost use Rattle.bitpack_sets.specs.Opened.{ids};
ghost use Rattle.bitpack_slices.specs.Runs.{boundaries};
ghost use Rattle.bitpack_roaring.specs.Written.{are_runs, container};
ghost use Rattle.bitpack_roaring.specs.inner.Walks.{IsPart, numbers_of_part};

use crate::bits::unpack_words;
use crate::bounds::write_runs;
use crate::changes::find_changes;
use crate::head::{BITS_LEN, LONGEST_ARRAY};
use crate::measuring::load_numbers;
use crate::parts::Part;
use bitpack_sets::IdSet;
use bitpack_sets::chunks::Chunks;
use bitpack_slices::bitmap::writing::write_words;
use bitpack_slices::chunk::bounds::count_in_ids;
use bitpack_slices::chunk::writing::fill_bounds;
use bitpack_slices::integers::write_integers;

/// Writes the container of a chunk at the start of `out`: runs, an array, or bits. Returns how many bytes it has. The lists and the words are work
/// space.
pub(crate) fn write_part(
    set: &IdSet,
    chunks: &Chunks,
    part: Part,
    run: bool,
    list: &mut [u32; LONGEST_ARRAY],
    bounds: &mut [u32; LONGEST_ARRAY],
    words: &mut [u64; 1024],
    found: &mut [u64; 1024],
    out: &mut [u8],
) -> usize
    requires part { IsPart (ids set.now) chunks.now part }
    requires run { run ≡ are_runs (numbers_of_part chunks.now part) }
    requires room { length (container (numbers_of_part chunks.now part)) ≤ length out.old }
    ensures end { result ≡ length (container (numbers_of_part chunks.now part)) }
    ensures written { take result out.new ≡ container (numbers_of_part chunks.now part) }
{
    if run {
        let count = list_bounds(set, chunks, part, list, bounds, words, found);
        return write_runs(&bounds[..count], out);
    }
    if part.count <= LONGEST_ARRAY {
        let own = &mut list[..part.count];
        copy_ids(set, part, own);
        write_integers(2, own, &mut out[..2 * part.count]);
        return 2 * part.count;
    }
    load_numbers(chunks, part, words);
    write_words(words, &mut out[..BITS_LEN]);
    BITS_LEN
}

/// Lists the boundaries of the numbers of a chunk that is runs. Returns how many there are. The others are work space.
fn list_bounds(
    set: &IdSet,
    chunks: &Chunks,
    part: Part,
    list: &mut [u32; LONGEST_ARRAY],
    bounds: &mut [u32; LONGEST_ARRAY],
    words: &mut [u64; 1024],
    found: &mut [u64; 1024],
) -> usize
    requires part { IsPart (ids set.now) chunks.now part }
    requires runs { are_runs (numbers_of_part chunks.now part) ≡ true }
    ensures few { result ≤ 4096 }
    ensures bounds { take result bounds.new ≡ boundaries (numbers_of_part chunks.now part) }
{
    if part.count <= LONGEST_ARRAY {
        let own = &mut list[..part.count];
        copy_ids(set, part, own);
        let count = count_in_ids(own);
        fill_bounds(own, &mut bounds[..count]);
        return count;
    }
    load_numbers(chunks, part, words);
    find_changes(words, found);
    unpack_words(found, 0, bounds, 0)
}

/// Copies the ids of a chunk.
pub(crate) fn copy_ids(set: &IdSet, part: Part, out: &mut [u32])
    requires within { part.from + part.count ≤ length (ids set.now) }
    requires size { length out.old ≡ part.count }
    ensures { out.new ≡ take part.count (drop part.from (ids set.now)) }
{
    set.copy_range(part.from, out);
}
