//! The values that two packed lists share.

ghost use Rattle.std.specs.Prelude.{◌≡◌, ◌≢◌, ◌+◌, ◌<◌, ◌++◌, ℕ, min, List, length, OnOk, OnErr, IfErr, vec_len, vec_capacity, ◌*◌, ◌≤◌, IfSome};
ghost use Rattle.bitpack_lists.specs.declared.list_kind.ListKind.{ListKind};
ghost use Rattle.bitpack_lists.specs.Intersections.{IsCommon, ReadsSearched, ReadsWalked};
ghost use Rattle.bitpack_lists.specs.Opened.{kind_of, values};
ghost use Rattle.bitpack_lists.specs.declared.opened.intersection.Walk.{Walk};
ghost use Rattle.bitpack_lists.specs.Search.{HasGrown};
ghost use Rattle.bitpack_lists.specs.inner.Searching.{IsListBlock, UnpacksOne, blocks_of, skip_key_of_list};
ghost use Rattle.bitpack_lists.specs.inner.Walks.{Appends, AreNext, IsWalking, IsWalkingOver, IsWantedNext, Stage, Started, further, started_with};

use super::{CachedBlock, ListBlock};
use crate::blocks::reads::{PackedList, Reads};
use crate::list_error::ListError;
use crate::list_kind::next_kind;
use bitpacking::{BitPacker, MAX_BLOCK_LEN};

/// Appends the values that both lists have, in increasing order and each once. The lists may be of two packers.
///
/// Both lists have to be sorted or strictly sorted. The vector grows at most once, by as many values as the shorter list has. If
/// that allocation fails, nothing is read. The blocks of `a` are visited in order; a block whose last value is below the next value
/// sought is skipped. The values of `a` are searched in `b`, and the block of `b` that was unpacked last is cached.
///
/// Fails with `Memory` alone.
pub fn intersect<P: BitPacker, Q: BitPacker>(
    a: &PackedList<'_, P>,
    b: &PackedList<'_, Q>,
    out: &mut Vec<u32>,
    reads_a: &mut Reads,
    reads_b: &mut Reads,
) -> Result<(), ListError>
    requires ordered_a { kind_of a.now ≢ ListKind.Plain }
    requires ordered_b { kind_of b.now ≢ ListKind.Plain }
    // By the law there is one list of common values.
    // claim: lists2/11 appends the shared values of two ordered lists
    ensures ok { OnOk result ((shared : List ℕ) × IsCommon (values a.now) (values b.now) shared
        × (out.new.items ≡ out.old.items ++ shared)) }
    // claim: lists2/12-13 `intersect` reads B entries of `a`, unpacks min(B, 2n+1) blocks for n values of `b`; of `b` n·digits(B) and
    //   min(B, n)
    // claim: lists2/8
    ensures reads_a { ReadsWalked P.lanes (values a.now) (values b.now) reads_a.old reads_a.new }
    // claim: lists2/12
    ensures reads_b { ReadsSearched Q.lanes (values a.now) (values b.now) reads_b.old reads_b.new }
    // Memory runs out only if the vector has no room for as many values as the shorter list has.
    ensures memory { IfErr result (λ e. e ≡ ListError.Memory) }
    // claim: lists2/14 `intersect` fails only with `Memory`, if there is no room for the shorter list; it then changes and reads nothing
    ensures room { OnErr result
        (vec_capacity out.old < vec_len out.old + min (length (values a.now)) (length (values b.now))) }
    ensures unchanged { OnErr result (out.new.items ≡ out.old.items) }
    ensures capacity { OnErr result (vec_capacity out.new ≡ vec_capacity out.old) }
    // claim: lists2/14
    ensures unread { OnErr result ((reads_a.new ≡ reads_a.old) × (reads_b.new ≡ reads_b.old)) }
{
    if out.reserve(a.count.min(b.count)).is_err() {
        return Err(ListError::Memory);
    }
    walk_list(a, b, out, reads_a, reads_b);
    Ok(())
}

/// What is wanted of a list that has nothing more: above every value.
const NOTHING: u64 = 1 << 32;

/// What a walk wants next of the list that it searches, or `NOTHING` if that has nothing more; and the block of that list that was
/// unpacked last.
#[derive(Drop)]
pub(crate) struct Walk {
    pub(crate) want: u64,
    pub(crate) cached: CachedBlock,
}

/// Appends the values that both lists hold. There is room for as many as the shorter list has.
pub(crate) fn walk_list<P: BitPacker, Q: BitPacker>(
    one: &PackedList<'_, P>,
    other: &PackedList<'_, Q>,
    out: &mut Vec<u32>,
    reads: &mut Reads,
    other_reads: &mut Reads,
)
    requires ordered { one.now.kind ≢ ListKind.Plain }
    requires other_ordered { other.now.kind ≢ ListKind.Plain }
    requires room { vec_len out.old + min one.now.count other.now.count ≤ vec_capacity out.old }
    ensures walking { (walk : Walk) × IsWalkingOver one.now other.now
        (started_with out.old.items reads.old other_reads.old)
        one.now.count reads.new.blocks walk out.new other_reads.new }
    ensures entries { reads.new.entries ≤ reads.old.entries + blocks_of one.now }
    ensures blocks { reads.new.blocks ≤ reads.old.blocks + blocks_of one.now }
    ensures grown { HasGrown reads.old reads.new }
{
    let mut walk = Walk {
        want: 0,
        cached: CachedBlock::new(),
    };
    let first = one.kind.first();
    let mut kind = first;
    for number in 0..one.count / P::BLOCK_LEN {
        // Nothing of the other list is left, so no more skip keys are read.
        if walk.want > u32::MAX as u64 {
            return;
        }
        let last = one.skip_key(number, reads);
        let block = ListBlock { number, kind };
        walk_block(one, other, block, last, &mut walk, out, reads, other_reads);
        kind = next_kind(first, last);
    }
    walk_tail(one, other, &mut walk, out, other_reads);
}

/// Unpacks a block and visits its values, or skips it if its last value is below what is wanted.
fn walk_block<P: BitPacker, Q: BitPacker>(
    one: &PackedList<'_, P>,
    other: &PackedList<'_, Q>,
    block: ListBlock,
    last: u32,
    walk: &mut Walk,
    out: &mut Vec<u32>,
    reads: &mut Reads,
    other_reads: &mut Reads,
)
    requires block { IsListBlock one.now block }
    requires last { last ≡ skip_key_of_list one.now block.number }
    requires walking { (started : Started) × IsWalkingOver one.now other.now
        started (32 * P.lanes * block.number) reads.old.blocks walk.old out.old other_reads.old }
    ensures walking { (started : Started)
        → IsWalkingOver one.now other.now
        started (32 * P.lanes * block.number) reads.old.blocks walk.old out.old other_reads.old
        → IsWalkingOver one.now other.now
        started (32 * P.lanes * (block.number + 1)) reads.new.blocks walk.new out.new other_reads.new }
    ensures reads { UnpacksOne reads.old reads.new }
{
    if last as u64 >= walk.want {
        let mut values = [0; MAX_BLOCK_LEN];
        one.unpack_block(block, &mut values, reads);
        walk_values(&values[..P::BLOCK_LEN], other, walk, out, other_reads);
    }
}

/// Visits the values of the tail.
fn walk_tail<P: BitPacker, Q: BitPacker>(
    one: &PackedList<'_, P>,
    other: &PackedList<'_, Q>,
    walk: &mut Walk,
    out: &mut Vec<u32>,
    other_reads: &mut Reads,
)
    requires { (started : Started) × (blocks : ℕ) × IsWalkingOver one.now other.now
        started (32 * P.lanes * blocks_of one.now) blocks walk.old out.old other_reads.old }
    ensures walking { (started : Started) (blocks : ℕ)
        → IsWalkingOver one.now other.now
        started (32 * P.lanes * blocks_of one.now) blocks walk.old out.old other_reads.old
        → IsWalkingOver one.now other.now started one.now.count blocks walk.new out.new other_reads.new }
{
    let mut values = [0; MAX_BLOCK_LEN];
    let tail = one.read_tail(&mut values);
    walk_values(&values[..tail], other, walk, out, other_reads);
}

/// Visits values in order: searches each that is not below what is wanted, and appends it if it is found.
fn walk_values<Q: BitPacker>(
    values: &[u32],
    other: &PackedList<'_, Q>,
    walk: &mut Walk,
    out: &mut Vec<u32>,
    other_reads: &mut Reads,
)
    requires { (stage : Stage) × AreNext stage values.now
        × IsWalking other.now stage walk.old out.old other_reads.old }
    ensures walking { (stage : Stage) → AreNext stage values.now
        → IsWalking other.now stage walk.old out.old other_reads.old
        → IsWalking other.now (further stage (length values.now)) walk.new out.new other_reads.new }
{
    for index in 0..values.len() {
        let value = values[index];
        if value as u64 >= walk.want {
            let found = other.seek_cached(value, &mut walk.cached, other_reads);
            walk.want = wanted_next(value, found);
            append_found(value, found, out);
        }
    }
}

/// What is wanted once a value was searched.
fn wanted_next(value: u32, found: Option<(usize, u32)>) -> u64
    ensures { IsWantedNext value found result }
{
    match found {
        Some((_, found)) => {
            if found == value {
                value as u64 + 1
            } else {
                found as u64
            }
        }
        None => NOTHING,
    }
}

/// Appends a value that was found. There is room for it.
fn append_found(value: u32, found: Option<(usize, u32)>, out: &mut Vec<u32>)
    requires room { IfSome found (λ found. found.1 ≡ value → vec_len out.old < vec_capacity out.old) }
    ensures appends { Appends value found out.old.items out.new.items }
    ensures capacity { vec_capacity out.new ≡ vec_capacity out.old }
{
    if let Some((_, found)) = found {
        if found == value {
            out.push_reserved(value);
        }
    }
}
