//! How many bytes the set at the front of some bytes has.
//!
//! FORMAT.md, "Id sets":
//!
//! ```text
//! few         128 + n | first | groups
//! an array    6 | n | n ids of four bytes
//! chunks      5 | n | C | sizes | keys | ends | sums | bodies
//! ```

ghost use Rattle.std.specs.Prelude.{◌≡◌, ℕ, ◌+◌, ◌<◌, ◌≤◌, IfSome, None, Some, length, take};
ghost use Rattle.bitpack_sets.specs.Directory.{bodies_end};
ghost use Rattle.bitpack_sets.specs.Faults.{array_fault, fault, in_chunks_fault, short_fault, sizes_fault, some_fault};

use crate::directory::{begin_at, bodies_start, test_sizes};
use crate::few::{MOST_FEW, test_groups};
use crate::opening::{open_chunk_count, open_count};
use crate::varints::open_number;

/// How many bytes the set at the front of the bytes has. What is after it may be any bytes.
///
/// Reads byte 0, the counts, the sizes and the last end, or the groups of fewer than 128 ids. Returns `None` if these have a fault, or
/// if the bytes end before the set does. Tests no ids and no bodies: open the bytes of this length afterwards.
pub fn front_len(bytes: &[u8]) -> Option<usize>
    // claim: sets/31 measures the set at the front
    ensures front { (n : ℕ) → n ≤ length bytes.now → fault (take n bytes.now) ≡ None → result ≡ Some n }
    ensures some { IfSome result (λ n. 1 ≤ n) }
    ensures within { IfSome result (λ n. n ≤ length bytes.now) }
{
    let [form, later @ ..] = bytes else {
        return None;
    };
    match *form {
        5 => chunks_front(later),
        6 => array_front(later),
        128..=255 => few_front(*form as usize - 128, later),
        _ => None,
    }
}

/// How many bytes the set of `count` ids has whose byte 0 is before these bytes.
fn few_front(count: usize, bytes: &[u8]) -> Option<usize>
    requires few { count ≤ MOST_FEW }
    ensures front { (n : ℕ) → n ≤ length bytes.now → short_fault count (take n bytes.now) ≡ None → result ≡ Some (n + 1) }
    ensures some { IfSome result (λ n. 1 ≤ n) }
    ensures within { IfSome result (λ n. n ≤ length bytes.now + 1) }
{
    if count == 0 {
        return Some(1);
    }
    some_front(count - 1, bytes)
}

/// How many bytes the set of one id and `more` has whose byte 0 is before these bytes.
fn some_front(more: usize, bytes: &[u8]) -> Option<usize>
    requires few { more < MOST_FEW }
    ensures front { (n : ℕ) → n ≤ length bytes.now → some_fault more (take n bytes.now) ≡ None → result ≡ Some (n + 1) }
    ensures some { IfSome result (λ n. 1 ≤ n) }
    ensures within { IfSome result (λ n. n ≤ length bytes.now + 1) }
{
    let Ok((_, end)) = open_number(bytes) else {
        return None;
    };
    let mut codes = [0; MOST_FEW];
    let codes = &mut codes[..more];
    let Ok(rest) = test_groups(&bytes[end..], codes) else {
        return None;
    };
    Some(1 + bytes.len() - rest.len())
}

/// How many bytes the array has whose byte 0 is before these bytes.
fn array_front(bytes: &[u8]) -> Option<usize>
    ensures front { (n : ℕ) → n ≤ length bytes.now → array_fault (take n bytes.now) ≡ None → result ≡ Some (n + 1) }
    ensures some { IfSome result (λ n. 1 ≤ n) }
    ensures within { IfSome result (λ n. n ≤ length bytes.now + 1) }
{
    let Ok((count, end)) = open_count(bytes) else {
        return None;
    };
    let len = end + 4 * count;
    if bytes.len() < len {
        return None;
    }
    Some(len + 1)
}

/// How many bytes the set in chunks has whose byte 0 is before these bytes.
fn chunks_front(bytes: &[u8]) -> Option<usize>
    ensures front { (n : ℕ) → n ≤ length bytes.now → in_chunks_fault (take n bytes.now) ≡ None → result ≡ Some (n + 1) }
    ensures some { IfSome result (λ n. 1 ≤ n) }
    ensures within { IfSome result (λ n. n ≤ length bytes.now + 1) }
{
    let Ok((count, end)) = open_count(bytes) else {
        return None;
    };
    let later = &bytes[end..];
    let Ok((chunks, next)) = open_chunk_count(count, later) else {
        return None;
    };
    let Some(len) = directory_front(chunks, &later[next..]) else {
        return None;
    };
    Some(end + next + len + 1)
}

/// How many bytes the directory of `chunks` chunks and their bodies have.
fn directory_front(chunks: usize, rest: &[u8]) -> Option<usize>
    requires some { 1 ≤ chunks }
    requires few { chunks ≤ 65536 }
    ensures front { sizes_fault rest.now ≡ None → bodies_end chunks rest.now ≤ length rest.now → result ≡ Some (bodies_end chunks rest.now) }
    ensures within { IfSome result (λ n. n ≤ length rest.now) }
{
    let Ok(()) = test_sizes(rest) else {
        return None;
    };
    let start = bodies_start(chunks, rest);
    if rest.len() < start {
        return None;
    }
    let end = start + begin_at(chunks, rest, chunks) as usize;
    if rest.len() < end {
        return None;
    }
    Some(end)
}
