//! What a search, and an intersection of a long list and a short one, read, in numbers.

ghost use Rattle.std.specs.Prelude.{◌≡◌, ◌≢◌, ◌+◌, ◌≤◌, IsTrue, length};
ghost use Rattle.bitpack_lists.specs.declared.list_kind.ListKind.{ListKind};
ghost use Rattle.bitpack_lists.specs.Opened.{kind_of, values};

use bitpack::ListError;
use bitpack::list2::{PackedList, Reads, intersect};
use bitpacking::{BitPacker1x, BitPacker4x};

/// Searches a list of 131,072 values, of 4,096 blocks, and returns what was read.
// claim: uses/5-6 a search of 131,072 values reads 13 entries, 1 block; intersections are bounded
pub fn search(list: &PackedList<'_, BitPacker1x>, target: u32) -> Reads
    requires { kind_of list.now ≢ ListKind.Plain }
    ensures { length (values list.now) ≡ 131072 → (result.entries ≤ 13) × (result.blocks ≤ 1) }
{
    let mut reads = Reads::new();
    list.seek(target, &mut reads);
    reads
}

/// Whether each value of a list is below a target. If so, no block was unpacked.
pub fn ends_below(list: &PackedList<'_, BitPacker1x>, target: u32, reads: &mut Reads) -> bool
    requires { kind_of list.now ≢ ListKind.Plain }
    ensures { IsTrue result → reads.new.blocks ≡ reads.old.blocks }
{
    list.seek(target, reads).is_none()
}

/// Walks a list of 100 values, of 3 blocks, and searches them in one of 1,000,000, of 7,812 blocks.
pub fn short_first(
    short: &PackedList<'_, BitPacker1x>,
    long: &PackedList<'_, BitPacker4x>,
    out: &mut Vec<u32>,
    short_reads: &mut Reads,
    long_reads: &mut Reads,
) -> Result<(), ListError>
    requires short { kind_of short.now ≢ ListKind.Plain }
    requires long { kind_of long.now ≢ ListKind.Plain }
    ensures short { length (values short.now) ≡ 100 → length (values long.now) ≡ 1000000
        → (short_reads.new.entries ≤ short_reads.old.entries + 3)
        × (short_reads.new.blocks ≤ short_reads.old.blocks + 3) }
    ensures long { length (values short.now) ≡ 100 → length (values long.now) ≡ 1000000
        → (long_reads.new.entries ≤ long_reads.old.entries + 1300)
        × (long_reads.new.blocks ≤ long_reads.old.blocks + 100) }
{
    intersect(short, long, out, short_reads, long_reads)
}

/// The other way round: walks the long list, and searches in the short one.
pub fn long_first(
    short: &PackedList<'_, BitPacker1x>,
    long: &PackedList<'_, BitPacker4x>,
    out: &mut Vec<u32>,
    short_reads: &mut Reads,
    long_reads: &mut Reads,
) -> Result<(), ListError>
    requires short { kind_of short.now ≢ ListKind.Plain }
    requires long { kind_of long.now ≢ ListKind.Plain }
    ensures short { length (values short.now) ≡ 100 → length (values long.now) ≡ 1000000
        → (short_reads.new.entries ≤ short_reads.old.entries + 2000000)
        × (short_reads.new.blocks ≤ short_reads.old.blocks + 3) }
    ensures long { length (values short.now) ≡ 100 → length (values long.now) ≡ 1000000
        → (long_reads.new.entries ≤ long_reads.old.entries + 7812)
        × (long_reads.new.blocks ≤ long_reads.old.blocks + 201) }
{
    intersect(long, short, out, long_reads, short_reads)
}
