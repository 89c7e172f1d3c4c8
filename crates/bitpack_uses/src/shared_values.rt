//! What an intersection finds, and what is unchanged if it fails.

ghost use Rattle.std.specs.Prelude.{◌≡◌, ◌≢◌, ◌++◌, ℕ, Contains, IfErr, IfOk, List, OnErr, OnOk, vec_capacity};
ghost use Rattle.bitpack_lists.specs.declared.list_error.ListError.{ListError};
ghost use Rattle.bitpack_lists.specs.declared.list_kind.ListKind.{ListKind};
ghost use Rattle.bitpack_lists.specs.Intersections.{IsCommon};
ghost use Rattle.bitpack_lists.specs.Opened.{kind_of, values};

use bitpack::ListError;
use bitpack::list2::{PackedList, Reads, intersect};
use bitpacking::BitPacker;
use std::alloc::Global;

/// The values that two lists share: each value that both have is found, and no other.
pub fn find<P: BitPacker, Q: BitPacker>(
    alloc: Global,
    a: &PackedList<'_, P>,
    b: &PackedList<'_, Q>,
) -> Result<Vec<u32>, ListError>
    requires ordered_a { kind_of a.now ≢ ListKind.Plain }
    requires ordered_b { kind_of b.now ≢ ListKind.Plain }
    // claim: uses/7 exactly the shared values of two lists are found
    ensures found { IfOk result (λ shared. (value : ℕ) → Contains (values a.now) value → Contains (values b.now) value
        → Contains shared.items value) }
    ensures other { IfOk result (λ shared. (value : ℕ) → Contains shared.items value
        → Contains (values a.now) value × Contains (values b.now) value) }
    ensures memory { IfErr result (λ e. e ≡ ListError.Memory) }
{
    let mut shared = Vec::new(alloc);
    intersect(a, b, &mut shared, &mut Reads::new(), &mut Reads::new())?;
    Ok(shared)
}

/// Appends the values that two lists share. If memory runs out, the items of the vector are unchanged, and nothing was
/// read.
pub fn append<P: BitPacker, Q: BitPacker>(
    a: &PackedList<'_, P>,
    b: &PackedList<'_, Q>,
    out: &mut Vec<u32>,
    reads_a: &mut Reads,
    reads_b: &mut Reads,
) -> Result<(), ListError>
    requires ordered_a { kind_of a.now ≢ ListKind.Plain }
    requires ordered_b { kind_of b.now ≢ ListKind.Plain }
    ensures items { OnErr result (out.new.items ≡ out.old.items) }
    ensures reads { OnErr result ((reads_a.new ≡ reads_a.old) × (reads_b.new ≡ reads_b.old)) }
{
    intersect(a, b, out, reads_a, reads_b)
}

/// Appends the shared values without a count of reads. If memory runs out, the items and the room of the vector are unchanged.
// claim: lists2/19 `intersect` needs no reader of its counts
pub fn append_uncounted<P: BitPacker, Q: BitPacker>(
    a: &PackedList<'_, P>,
    b: &PackedList<'_, Q>,
    out: &mut Vec<u32>,
) -> Result<(), ListError>
    requires ordered_a { kind_of a.now ≢ ListKind.Plain }
    requires ordered_b { kind_of b.now ≢ ListKind.Plain }
    ensures shared { OnOk result ((shared : List ℕ) × IsCommon (values a.now) (values b.now) shared
        × (out.new.items ≡ out.old.items ++ shared)) }
    ensures items { OnErr result (out.new.items ≡ out.old.items) }
    ensures room { OnErr result (vec_capacity out.new ≡ vec_capacity out.old) }
{
    intersect(a, b, out, &mut Reads::new(), &mut Reads::new())
}
