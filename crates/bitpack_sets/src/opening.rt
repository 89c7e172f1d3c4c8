//! Tests the encoding of a set.
//!
//! FORMAT.md, "Id sets" and "Faults of a set":
//!
//! ```text
//! few         128 + n | first | groups
//! an array    6 | n | n ids of four bytes
//! chunks      5 | n | C | sizes | keys | ends | sums | bodies
//! ```

ghost use Rattle.std.specs.Prelude.{◌≡◌, ℕ, ◌≤◌, ◌<◌, ◌^◌, ◌*◌, IfOk, None, drop, length};
ghost use Rattle.bitpack_sets.specs.Directory.{bodies_end};
ghost use Rattle.bitpack_slices.specs.Errors.{Finds};
ghost use Rattle.bitpack_sets.specs.Faults.{array_fault, body_fault_at, chunk_count_fault, chunks_fault, count_fault, fault, first_of, in_chunks_fault};
ghost use Rattle.bitpack_sets.specs.Sound.{HasDirectory, IsEntry};
ghost use Rattle.bitpack_sets.specs.Stated.{States};
ghost use Rattle.bitpack_sets.specs.Varints.{number_end, number_value};

use crate::array::test_array;
use crate::directory::{
    begin_at, bodies_start, count_before, end_at, sum_at, test_entries, test_least, test_sizes,
};
use crate::few::test_few;
use crate::varints::open_number;
use bitpack_groups::unpack_number;
use bitpack_slices::SetError;
use bitpack_slices::chunk::testing::test_body;

/// The most ids of a set.
const MOST_IDS: usize = 1 << 28;

/// The most chunks.
const MOST_CHUNKS: usize = 1 << 16;

/// What the first bytes of an encoding state, and what is after them.
///
/// A caller who stores it beside the bytes has the set again by [`IdSet::from_parts`](crate::IdSet::from_parts).
#[derive(Clone, Copy)]
pub struct Parts<'a> {
    /// How many ids there are.
    pub count: usize,
    /// How many chunks there are, of a set in chunks.
    pub chunks: usize,
    /// The bytes after the counts.
    pub rest: &'a [u8],
}

/// Tests all bytes.
#[tactic(auto, unfolding(crate::specs::Faults::fault))]
pub(crate) fn test_encoding<'a>(bytes: &'a [u8]) -> Result<Parts<'a>, SetError>
    ensures fault { Finds result (fault bytes.now) }
    ensures states { IfOk result (λ parts. States bytes.now parts.count parts.chunks parts.rest.now) }
{
    let [form, later @ ..] = bytes else {
        return Err(SetError::Short);
    };
    match *form {
        5 => test_in_chunks(later),
        6 => test_in_array(later),
        128..=255 => {
            let count = *form as usize - 128;
            test_few(count, later)?;
            Ok(Parts {
                count,
                chunks: 0,
                rest: later,
            })
        }
        other => Err(SetError::BadVersion(other)),
    }
}

/// What the first bytes of an encoding without a fault state, and what is after them.
#[inline(always)]
pub(crate) fn read_parts<'a>(bytes: &'a [u8]) -> Parts<'a>
    requires { fault bytes.now ≡ None }
    ensures { States bytes.now result.count result.chunks result.rest.now }
{
    let form = bytes[0];
    let later = &bytes[1..];
    if form >= 128 {
        return Parts {
            count: form as usize - 128,
            chunks: 0,
            rest: later,
        };
    }
    let (count, end) = unpack_number(later);
    let count = count as usize;
    let rest = &later[end..];
    if form == 6 {
        return Parts {
            count,
            chunks: 0,
            rest,
        };
    }
    let (chunks, end) = unpack_number(rest);
    Parts {
        count,
        chunks: chunks as usize,
        rest: &rest[end..],
    }
}

/// Tests the number at the front of the bytes as the count of ids of a set of 128 or more. Returns it, and how many bytes it has.
#[tactic(auto, unfolding(crate::specs::Faults::count_fault))]
pub(crate) fn open_count(bytes: &[u8]) -> Result<(usize, usize), SetError>
    ensures fault { Finds result (count_fault bytes.now) }
    ensures value { IfOk result (λ found. (found.0 ≡ number_value bytes.now) × (128 ≤ found.0) × (found.0 ≤ 2 ^ 28)) }
    ensures end { IfOk result (λ found. (found.1 ≡ number_end bytes.now) × (found.1 ≤ length bytes.now)) }
{
    let (count, end) = open_number(bytes)?;
    let count = count as usize;
    if count < 128 {
        return Err(SetError::BadNumber);
    }
    if count > MOST_IDS {
        return Err(SetError::TooLong(count));
    }
    Ok((count, end))
}

/// Tests the number at the front of the bytes as the count of chunks of `count` ids. Returns it, and how many bytes it has.
#[tactic(auto, unfolding(crate::specs::Faults::chunk_count_fault))]
pub(crate) fn open_chunk_count(count: usize, bytes: &[u8]) -> Result<(usize, usize), SetError>
    requires { count ≤ 2 ^ 28 }
    ensures fault { Finds result (chunk_count_fault count bytes.now) }
    ensures value { IfOk result (λ found. (found.0 ≡ number_value bytes.now) × (0 < found.0) × (4 * found.0 ≤ count) × (found.0 ≤ 65536)) }
    ensures end { IfOk result (λ found. (found.1 ≡ number_end bytes.now) × (found.1 ≤ length bytes.now)) }
{
    let (chunks, end) = open_number(bytes)?;
    let chunks = chunks as usize;
    if chunks == 0 || chunks > count / 4 || chunks > MOST_CHUNKS {
        return Err(SetError::BadNumber);
    }
    Ok((chunks, end))
}

/// Tests what is after byte 0 of an array.
#[tactic(auto, unfolding(crate::specs::Faults::array_fault))]
fn test_in_array<'a>(bytes: &'a [u8]) -> Result<Parts<'a>, SetError>
    ensures fault { Finds result (array_fault bytes.now) }
    ensures count { IfOk result (λ parts. parts.count ≡ number_value bytes.now) }
    ensures rest { IfOk result (λ parts. parts.rest.now ≡ drop (number_end bytes.now) bytes.now) }
{
    let (count, end) = open_count(bytes)?;
    let rest = &bytes[end..];
    test_array(count, rest)?;
    Ok(Parts {
        count,
        chunks: 0,
        rest,
    })
}

/// Tests what is after byte 0 of a set in chunks.
#[tactic(auto, unfolding(crate::specs::Faults::in_chunks_fault))]
fn test_in_chunks<'a>(bytes: &'a [u8]) -> Result<Parts<'a>, SetError>
    ensures fault { Finds result (in_chunks_fault bytes.now) }
    ensures count { IfOk result (λ parts. parts.count ≡ number_value bytes.now) }
    ensures chunks { IfOk result (λ parts. parts.chunks
        ≡ number_value (drop (number_end bytes.now) bytes.now)) }
    ensures rest { IfOk result (λ parts. parts.rest.now
        ≡ drop (number_end (drop (number_end bytes.now) bytes.now))
        (drop (number_end bytes.now) bytes.now)) }
{
    let (count, end) = open_count(bytes)?;
    let later = &bytes[end..];
    let (chunks, end) = open_chunk_count(count, later)?;
    let rest = &later[end..];
    test_chunks(count, chunks, rest)?;
    Ok(Parts {
        count,
        chunks,
        rest,
    })
}

/// Tests the directory and the bodies of a set of `count` ids in `chunks` chunks.
#[tactic(auto, unfolding(crate::specs::Faults::chunks_fault))]
fn test_chunks(count: usize, chunks: usize, rest: &[u8]) -> Result<(), SetError>
    requires count { count ≤ 2 ^ 28 }
    requires some { 1 ≤ chunks }
    requires few { chunks ≤ 65536 }
    ensures { Finds result (chunks_fault count chunks rest.now) }
{
    test_sizes(rest)?;
    let start = bodies_start(chunks, rest);
    if rest.len() < start {
        return Err(SetError::Short);
    }
    test_entries(count, chunks, rest)?;
    test_least(count, chunks, rest)?;
    let end = start + begin_at(chunks, rest, chunks) as usize;
    if rest.len() < end {
        return Err(SetError::Short);
    }
    test_bodies(count, chunks, rest)?;
    if rest.len() > end {
        return Err(SetError::Trailing);
    }
    Ok(())
}

/// Tests the body of each chunk.
pub(crate) fn test_bodies(count: usize, chunks: usize, rest: &[u8]) -> Result<(), SetError>
    requires few { chunks ≤ 65536 }
    requires directory { HasDirectory chunks rest.now }
    requires entries { (m : ℕ) → m < chunks → IsEntry count chunks rest.now m }
    requires room { bodies_end chunks rest.now ≤ length rest.now }
    ensures { Finds result (first_of (body_fault_at chunks rest.now) chunks) }
{
    let start = bodies_start(chunks, rest);
    for chunk in 0..chunks {
        let position = count_before(chunks, rest, chunk) as usize;
        let own = sum_at(chunks, rest, chunk) as usize - position;
        let begin = begin_at(chunks, rest, chunk) as usize;
        let end = end_at(chunks, rest, chunk) as usize;
        test_body(chunk, position, own, &rest[start + begin..start + end])?;
    }
    Ok(())
}
