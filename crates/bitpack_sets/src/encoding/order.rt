//! Which ids a writer refuses.

ghost use Rattle.std.specs.Prelude.{◌≡◌, false, ℕ, ◌+◌, ◌-◌, ◌^◌, ◌<◌, ◌≤◌, ◌++◌, List, IfSome, OnOk, length, slice_index};
ghost use Rattle.bitpack_slices.specs.Errors.{Finds};
ghost use Rattle.bitpack_sets.specs.Sets.{IsSet};
ghost use Rattle.bitpack_slices.specs.Slices.{first_fall};
ghost use Rattle.bitpack_sets.specs.Written.{EndsWith, refusal};

use bitpack_slices::SetError;

/// The most ids of a set.
pub const LONGEST_SET: usize = 1 << 28;

/// Tests that ids are a set: not too many, and each above the one before it.
pub(crate) fn test_ids(ids: &[u32]) -> Result<(), SetError>
    ensures fault { Finds result (refusal ids.now) }
    ensures set { OnOk result (IsSet ids.now) }
{
    test_more(0, 0, ids)
}

/// Tests that ids can follow `count` ids of a set, whose last is `last` if there is one: they are not too many together, and each is above
/// the one before it.
pub(crate) fn test_more(count: usize, last: u32, more: &[u32]) -> Result<(), SetError>
    requires few { count ≤ 2 ^ 28 }
    ensures fault { (ids : List ℕ) → IsSet ids → EndsWith ids count last → Finds result (refusal (ids ++ more.now)) }
    ensures set { (ids : List ℕ) → IsSet ids → EndsWith ids count last → OnOk result (IsSet (ids ++ more.now)) }
{
    if more.len() > LONGEST_SET - count {
        return Err(SetError::TooLong(count + more.len()));
    }
    if more.is_empty() {
        return Ok(());
    }
    if count > 0 && more[0] <= last {
        return Err(SetError::NotSorted(count));
    }
    match first_unsorted(more) {
        Some(position) => Err(SetError::NotSorted(count + position)),
        None => Ok(()),
    }
}

/// Tests that ids can follow the ids of a set so far.
pub fn test_pushed(so_far: &[u32], pushed: &[u32]) -> Result<(), SetError>
    requires { IsSet so_far.now }
    ensures fault { Finds result (refusal (so_far.now ++ pushed.now)) }
    ensures set { OnOk result (IsSet (so_far.now ++ pushed.now)) }
{
    test_more(so_far.len(), last_of(so_far), pushed)
}

/// The last id, or 0 if there is none.
fn last_of(ids: &[u32]) -> u32
    ensures { 0 < length ids.now → slice_index ids.now (length ids.now - 1) ≡ result }
{
    if ids.is_empty() {
        return 0;
    }
    ids[ids.len() - 1]
}

/// The first position whose id is not above the one before it. Most ids increase, so that no position is looked for.
pub fn first_unsorted(ids: &[u32]) -> Option<usize>
    ensures found { result ≡ first_fall 0 ids.now }
    ensures within { IfSome result (λ position. position < length ids.now) }
{
    if !falls(ids) {
        return None;
    }
    for index in 1..ids.len() {
        if ids[index] <= ids[index - 1] {
            return Some(index);
        }
    }
    None
}

/// Whether an id is not above the one before it. No branch depends on an id, so that the compiler compares several at once.
#[inline(always)]
fn falls(ids: &[u32]) -> bool
    ensures { result ≡ false → (k : ℕ) → k + 1 < length ids.now → slice_index ids.now k < slice_index ids.now (k + 1) }
{
    let mut falls = false;
    for index in 1..ids.len() {
        falls |= ids[index] <= ids[index - 1];
    }
    falls
}
