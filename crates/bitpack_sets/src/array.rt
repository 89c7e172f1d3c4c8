//! Sets whose ids lie far apart: an array of four bytes for each.
//!
//! FORMAT.md, "Id sets":
//!
//! ```text
//! 6 | n, a varint | n ids of four bytes, increasing
//! ```

ghost use Rattle.std.specs.Prelude.{◌≡◌, ◌≢◌, ◌+◌, ◌*◌, ◌/◌, ◌^◌, ◌<◌, ◌≤◌, length, slice_get};
ghost use Rattle.bitpack_slices.specs.Errors.{Finds};
ghost use Rattle.bitpack_sets.specs.Faults.{ids_fault};
ghost use Rattle.bitpack_slices.specs.Reads.{has, rank};
ghost use Rattle.bitpack_slices.specs.Bodies.{IsRising, parts};
ghost use Rattle.bitpack_slices.specs.Slices.{quads_of};

use bitpack_slices::SetError;
use bitpack_slices::integers::id_at;

/// Writes all ids of an array.
pub(crate) fn unpack_array(rest: &[u8], out: &mut [u32])
    requires { length rest.now ≡ 4 * length out.old }
    ensures { out.new ≡ quads_of rest.now }
{
    for position in 0..out.len() {
        out[position] = id_at(rest, position);
    }
}

/// How many ids of an array are below `id`, by halves.
pub fn rank_in_array(rest: &[u8], id: u32) -> usize
    requires { IsRising 0 (2 ^ 32) (quads_of rest.now) }
    ensures { result ≡ rank id (quads_of rest.now) }
{
    let mut low = 0;
    let mut left = rest.len() / 4;
    while left > 0 {
        let half = left / 2;
        if id_at(rest, low + half) < id {
            low += half + 1;
            left -= half + 1;
        } else {
            left = half;
        }
    }
    low
}

/// How many ids of an array are below `target`, and the first that is not, if there is one.
pub(crate) fn seek_in_array(rest: &[u8], target: u32) -> (usize, Option<u32>)
    requires { IsRising 0 (2 ^ 32) (quads_of rest.now) }
    ensures rank { result.0 ≡ rank target (quads_of rest.now) }
    ensures first { result.1 ≡ slice_get (quads_of rest.now) result.0 }
{
    let position = rank_in_array(rest, target);
    if position < rest.len() / 4 {
        (position, Some(id_at(rest, position)))
    } else {
        (position, None)
    }
}

/// Whether an array has an id.
pub(crate) fn in_array(rest: &[u8], id: u32) -> bool
    requires { IsRising 0 (2 ^ 32) (quads_of rest.now) }
    ensures { result ≡ has id (quads_of rest.now) }
{
    let position = rank_in_array(rest, id);
    if position < rest.len() / 4 {
        id_at(rest, position) == id
    } else {
        false
    }
}

/// Tests what is after the count of an array of `count` ids.
#[tactic(auto, unfolding(crate::specs::Faults::ids_fault))]
pub(crate) fn test_array(count: usize, rest: &[u8]) -> Result<(), SetError>
    requires some { 1 ≤ count }
    requires few { count ≤ 2 ^ 28 }
    ensures { Finds result (ids_fault count rest.now) }
{
    if rest.len() < 4 * count {
        return Err(SetError::Short);
    }
    let ids = &rest[..4 * count];
    if let Some(position) = first_fall(ids) {
        return Err(SetError::NotSorted(position));
    }
    if count >= 4 * count_chunks(ids) {
        return Err(SetError::LooseForm);
    }
    if rest.len() > 4 * count {
        return Err(SetError::Trailing);
    }
    Ok(())
}

/// The first position whose id is not above the one before.
fn first_fall(ids: &[u8]) -> Option<usize>
    ensures { result ≡ Rattle.bitpack_slices.specs.Slices.first_fall 0 (quads_of ids.now) }
{
    for position in 1..ids.len() / 4 {
        if id_at(ids, position) <= id_at(ids, position - 1) {
            return Some(position);
        }
    }
    None
}

/// How many chunks ids have.
fn count_chunks(ids: &[u8]) -> usize
    requires { 4 ≤ length ids.now }
    ensures few { result ≤ length ids.now / 4 }
    ensures count { result ≡ length (parts (2 ^ 16) (quads_of ids.now)) }
{
    let mut chunks = 1;
    for position in 1..ids.len() / 4 {
        chunks += changes(id_at(ids, position) >> 16, id_at(ids, position - 1) >> 16);
    }
    chunks
}

/// 1 if a key differs from the one before, else 0.
#[inline(always)]
fn changes(key: u32, before: u32) -> usize
    ensures same { key ≡ before → result ≡ 0 }
    ensures other { key ≢ before → result ≡ 1 }
{
    (key != before) as usize
}
