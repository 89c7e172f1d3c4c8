//! Combines any number of sets, from the first to the last.

ghost use Rattle.std.specs.Prelude.{◌≡◌, ◌⊎◌, ◌+◌, ◌<◌, ◌≤◌, ◌++◌, IfErr, IfOk, IfSome, None, OnErr, length, map, take};
ghost use Rattle.bitpack_queries.specs.Folds.{found, ids_of_keys};
ghost use Rattle.bitpack_slices.specs.Operations.{those};
ghost use Rattle.bitpack_queries.specs.Operations.{answer_all};

use crate::combining::{combine_count, combine_to};
use crate::folding::{HELD, KEYS, combine_keys};
use crate::in_place::retain_if;
use bitpack_sets::chunks::NO_KEY;
use bitpack_sets::{AsSet, IdSet};
use bitpack_slices::bitmap::unpacking::{count_bitmap, unpack_bitmap, unpack_bits};
use bitpack_slices::combined::retains_right;
use bitpack_slices::{Operation, SetError};

/// The most ids that are written to be counted, so that the array takes 16 KB of stack. On a Xeon of model 85, a call takes 3 to 5 times as
/// long with 2,048 for 3,000 ids, and .2 to .3 times with 8,192 for 6,000.
const MOST_WRITTEN: usize = 4096;

/// With more ids of a key than this on average, other sets are subtracted from a set by bitmaps. On a Xeon of model 85, a call takes 1.4 to
/// 1.5 times as long with 1,024 for 1,500 ids of a key, and 0.9 to 1.05 times with 4,096 for 3,000.
const DENSE: usize = 2048;

/// Writes the ids of the first set, combined with each other set in turn, at the start of the slice, and returns their number. If
/// there is no set, it writes no id. Allocates nothing.
///
/// Fails only with `Short`, if the slice has no room for them. Items after the ids may change, and any item if it fails.
pub fn combine_all_to<S: AsSet>(
    operation: Operation,
    sets: &[S],
    out: &mut [u32],
) -> Result<usize, SetError>
    ensures len { IfOk result (λ len. len ≡ length (answer_all operation (map S.its_ids sets.now))) }
    ensures ids { IfOk result (λ len. take len out.new ≡ answer_all operation (map S.its_ids sets.now)) }
    ensures short { IfErr result (λ e. e ≡ SetError.Short) }
    // claim: sets/20-21 as `sets/16`, of any number of sets; fails only if there is no room
    ensures room { OnErr result (length out.old < length (answer_all operation (map S.its_ids sets.now))) }
{
    if sets.is_empty() {
        return Ok(0);
    }
    if sets.len() == 2 {
        return combine_to(operation, &sets[0].as_set(), &sets[1].as_set(), out);
    }
    match combine_ids(operation, sets, out) {
        Some(count) => Ok(count),
        None => fold_to(operation, sets, out),
    }
}

/// How many ids the first set gives, combined with each other set in turn: at most 2 to the power of 32. Allocates nothing.
pub fn combine_all_count<S: AsSet>(operation: Operation, sets: &[S]) -> u64
    ensures { result ≡ length (answer_all operation (map S.its_ids sets.now)) }
{
    if sets.is_empty() {
        return 0;
    }
    if sets.len() == 2 {
        return combine_count(operation, &sets[0].as_set(), &sets[1].as_set()) as u64;
    }
    if retains_right(operation) {
        return fold_count(operation, sets);
    }
    match count_ids(operation, sets) {
        Some(count) => count as u64,
        None => fold_count(operation, sets),
    }
}

/// Counts the ids of the answer as they are written, if there are few. Other calls don't need its stack.
#[inline(never)]
fn count_ids<S: AsSet>(operation: Operation, sets: &[S]) -> Option<usize>
    requires some { 0 < length sets.now }
    ensures { IfSome result (λ count. count ≡ length (answer_all operation (map S.its_ids sets.now))) }
{
    let mut ids = [0; MOST_WRITTEN];
    combine_ids(operation, sets, &mut ids)
}

/// Writes the ids of the answer, if ids of a first set are looked up in the others, and there is room for these. Returns their number.
fn combine_ids<S: AsSet>(operation: Operation, sets: &[S], out: &mut [u32]) -> Option<usize>
    requires some { 0 < length sets.now }
    ensures len { IfSome result (λ len. len ≡ length (answer_all operation (map S.its_ids sets.now))) }
    ensures ids { IfSome result (λ len. take len out.new ≡ answer_all operation (map S.its_ids sets.now)) }
{
    if sets.len() == 1 {
        return None;
    }
    match operation {
        Operation::And => {
            let (a, b) = shortest(sets);
            if sets[a].as_set().len() > out.len() {
                return None;
            }
            intersect_to(sets, a, b, out)
        }
        Operation::AndNot if is_sparse(&sets[0].as_set(), out.len()) => subtract_to(sets, out),
        _ => None,
    }
}

/// Whether there is room for the ids of a set, and they are looked up faster than bitmaps of their keys are combined. Only the time depends
/// on it.
fn is_sparse(set: &IdSet, room: usize) -> bool {
    let parts = set.parts();
    parts.count <= room && parts.count / DENSE <= parts.chunks
}

/// The indexes of the two shortest sets, or 0 twice if there is only one set.
pub(crate) fn shortest<S: AsSet>(sets: &[S]) -> (usize, usize)
    requires { 0 < length sets.now }
    ensures within { (result.0 < length sets.now) × (result.1 < length sets.now) }
{
    let mut found = (0, 0);
    let mut lens = (usize::MAX, usize::MAX);
    for i in 0..sets.len() {
        let len = sets[i].as_set().len();
        if len < lens.0 {
            found = (i, found.0);
            lens = (len, lens.0);
        } else if len < lens.1 {
            found.1 = i;
            lens.1 = len;
        }
    }
    found
}

/// Writes the ids that all sets have: those that two have, without those that another lacks. Returns `None` if there is no room for the first.
pub(crate) fn intersect_to<S: AsSet>(
    sets: &[S],
    a: usize,
    b: usize,
    out: &mut [u32],
) -> Option<usize>
    requires within { (a < length sets.now) × (b < length sets.now) }
    ensures len { IfSome result (λ len. len ≡ length (answer_all Operation.And (map S.its_ids sets.now))) }
    ensures ids { IfSome result (λ len. take len out.new ≡ answer_all Operation.And (map S.its_ids sets.now)) }
{
    let mut count = combine_to(Operation::And, &sets[a].as_set(), &sets[b].as_set(), out).ok()?;
    for i in 0..sets.len() {
        if i != a && i != b {
            count = retain_if(&mut out[..count], &sets[i].as_set(), true);
        }
    }
    Some(count)
}

/// Writes the ids that the first set has alone: those that the second lacks, without those that another has. Returns `None` if there
/// is no room for the first.
pub(crate) fn subtract_to<S: AsSet>(sets: &[S], out: &mut [u32]) -> Option<usize>
    requires some { 2 ≤ length sets.now }
    ensures len { IfSome result (λ len. len ≡ length (answer_all Operation.AndNot (map S.its_ids sets.now))) }
    ensures ids { IfSome result (λ len. take len out.new ≡ answer_all Operation.AndNot (map S.its_ids sets.now)) }
{
    let first = sets[0].as_set();
    let mut count = combine_to(Operation::AndNot, &first, &sets[1].as_set(), out).ok()?;
    for i in 2..sets.len() {
        count = retain_if(&mut out[..count], &sets[i].as_set(), false);
    }
    Some(count)
}

/// Which set is taken first: the shortest, if it may be.
pub(crate) fn first_of<S: AsSet>(operation: Operation, sets: &[S]) -> usize
    requires { 0 < length sets.now }
    ensures within { result < length sets.now }
    ensures may { (result ≡ 0) ⊎ (operation ≡ Operation.And) }
{
    match operation {
        Operation::And => shortest(sets).0,
        _ => 0,
    }
}

/// Writes the ids of the answer, some keys at a time. Two sets don't need its stack.
#[inline(never)]
fn fold_to<S: AsSet>(operation: Operation, sets: &[S], out: &mut [u32]) -> Result<usize, SetError>
    requires some { 0 < length sets.now }
    ensures len { IfOk result (λ len. len ≡ length (answer_all operation (map S.its_ids sets.now))) }
    ensures ids { IfOk result (λ len. take len out.new ≡ answer_all operation (map S.its_ids sets.now)) }
    ensures short { IfErr result (λ e. e ≡ SetError.Short) }
    ensures room { OnErr result (length out.old < length (answer_all operation (map S.its_ids sets.now))) }
{
    let first = first_of(operation, sets);
    let mut highs = [[0; 4]; KEYS];
    let mut words = [[0; 1024]; KEYS];
    let mut held = [0; HELD];
    let mut base = 0;
    let mut at = 0;
    while base < NO_KEY {
        let next = combine_keys(
            operation, sets, first, base, &mut held, &mut highs, &mut words,
        );
        let Some(end) = unpack_keys(&highs, &words, base, out, at) else {
            return Err(SetError::Short);
        };
        at = end;
        base = next / 8 * 8;
    }
    Ok(at)
}

/// Writes the ids of several keys from `base` on. Returns the index after the last, or `None` if there is no room for them.
fn unpack_keys(
    highs: &[[u64; 4]; KEYS],
    words: &[[u64; 1024]; KEYS],
    base: u32,
    out: &mut [u32],
    at: usize,
) -> Option<usize>
    requires base { base + 8 ≤ 65536 }
    requires start { at ≤ length out.old }
    ensures end { IfSome result (λ end. end ≡ at + length (those 524288 (found highs.now words.now))) }
    ensures within { IfSome result (λ end. end ≤ length out.new) }
    ensures values { IfSome result (λ end. take end out.new ≡ take at out.old ++ ids_of_keys highs.now words.now base) }
    ensures none { result ≡ None → length out.old < at + length (those 524288 (found highs.now words.now)) }
{
    let mut list = [0; 256];
    let mut at = at;
    for k in 0..KEYS {
        let count = unpack_bits(&highs[k], 0, &mut list, 0);
        let own = &list[..count];
        let left = out.len() - at;
        if left < 65536 && left < count_bitmap(own, &words[k]) {
            return None;
        }
        at = unpack_bitmap(own, &words[k], (base + k as u32) * 65536, out, at);
    }
    Some(at)
}

/// How many ids the answer has, some keys at a time.
#[inline(never)]
fn fold_count<S: AsSet>(operation: Operation, sets: &[S]) -> u64
    requires some { 0 < length sets.now }
    ensures { result ≡ length (answer_all operation (map S.its_ids sets.now)) }
{
    let first = first_of(operation, sets);
    let mut highs = [[0; 4]; KEYS];
    let mut words = [[0; 1024]; KEYS];
    let mut held = [0; HELD];
    let mut base = 0;
    let mut count = 0;
    while base < NO_KEY {
        let next = combine_keys(
            operation, sets, first, base, &mut held, &mut highs, &mut words,
        );
        count += count_keys(&highs, &words);
        base = next / 8 * 8;
    }
    count
}

/// How many ids several keys have.
fn count_keys(highs: &[[u64; 4]; KEYS], words: &[[u64; 1024]; KEYS]) -> u64
    ensures { result ≡ length (those 524288 (found highs.now words.now)) }
{
    let mut list = [0; 256];
    let mut count = 0;
    for k in 0..KEYS {
        let many = unpack_bits(&highs[k], 0, &mut list, 0);
        count += count_bitmap(&list[..many], &words[k]);
    }
    count as u64
}
