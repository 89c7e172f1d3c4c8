//! Tests bodies.
//! FORMAT.md, "Chunks", and rule 12 of "Faults of a set".

ghost use Rattle.std.specs.Prelude.{◌≡◌, ◌≢◌, ◌+◌, ◌*◌, ◌/◌, ◌^◌, ◌<◌, ◌≤◌, ℕ, false, length, None};
ghost use Rattle.std.specs.Bool.{Decides};
ghost use Rattle.bitpack_slices.specs.Errors.{Finds};
ghost use Rattle.bitpack_slices.specs.Faults.{blocks_fault, body_fault, runs_fault};
ghost use Rattle.bitpack_slices.specs.Bodies.{blocks, parts};
ghost use Rattle.bitpack_slices.specs.Runs.{runs_from};
ghost use Rattle.bitpack_slices.specs.Slices.{IsBlocks, pairs_of};

use crate::chunk::bounds::{count_in_numbers, most_bounds};
use crate::chunk::parts::Parts;
use crate::chunk::runs::{Runs, begins_runs};
use crate::chunk::search::number_at;
use crate::set_error::SetError;
use crate::slice::byte_len;
use crate::slice::testing::{are_slices, count_numbers, is_slice};

/// Tests the body of a chunk of `count` numbers, after `position` others.
#[tactic(auto, unfolding(crate::specs::Faults::body_fault))]
pub fn test_body(chunk: usize, position: usize, count: usize, body: &[u8]) -> Result<(), SetError>
    requires some { 1 ≤ count }
    requires few { count ≤ 65536 }
    requires position { position ≤ 2 ^ 32 }
    ensures { Finds result (body_fault chunk position count body.now) }
{
    if body.len() != 2 * count {
        if begins_runs(body) {
            return test_runs(chunk, count, &body[2..]);
        }
        return test_blocks(chunk, count, body);
    }
    if has_fall(body) {
        if let Some(position) = first_fall(position, body) {
            return Err(SetError::NotSorted(position));
        }
    }
    if count_in_numbers(body) <= most_bounds(count) || blocks_len(body) < 2 * count {
        return Err(SetError::LooseBody(chunk));
    }
    Ok(())
}

/// Tests a body of blocks of `count` numbers.
fn test_blocks(chunk: usize, count: usize, body: &[u8]) -> Result<(), SetError>
    requires some { 1 ≤ count }
    requires few { count ≤ 65536 }
    ensures { Finds result (blocks_fault chunk count body.now) }
{
    if !is_blocks(count, body) {
        return Err(SetError::BadBody(chunk));
    }
    if Parts::new(body).has_few_bounds(most_bounds(count)) {
        return Err(SetError::LooseBody(chunk));
    }
    Ok(())
}

/// Tests the boundaries of a body of runs of `count` numbers.
fn test_runs(chunk: usize, count: usize, bounds: &[u8]) -> Result<(), SetError>
    requires some { 1 ≤ count }
    requires few { count ≤ 65536 }
    ensures { Finds result (runs_fault chunk count bounds.now) }
{
    if !are_runs(count, bounds) {
        return Err(SetError::BadBody(chunk));
    }
    if bounds.len() / 2 > most_bounds(count) {
        return Err(SetError::LooseBody(chunk));
    }
    Ok(())
}

/// Whether bytes are the boundaries of runs of `count` numbers.
fn are_runs(count: usize, bounds: &[u8]) -> bool
    ensures { result ≡ Rattle.bitpack_slices.specs.Runs.are_runs count bounds.now }
{
    if bounds.is_empty() || bounds.len() % 2 != 0 {
        return false;
    }
    if let Some(_) = first_fall(0, bounds) {
        return false;
    }
    Runs { bounds }.len() == count
}

/// The first position whose number is not above the one before, in a body of numbers whose first one has this position.
fn first_fall(position: usize, body: &[u8]) -> Option<usize>
    requires { position ≤ 2 ^ 32 }
    ensures { result ≡ Rattle.bitpack_slices.specs.Slices.first_fall position (pairs_of body.now) }
{
    for index in 1..body.len() / 2 {
        if number_at(body, index) <= number_at(body, index - 1) {
            return Some(position + index);
        }
    }
    None
}

/// Whether a number of a body of numbers is not above the one before.
fn has_fall(body: &[u8]) -> bool
    requires { length body.now ≤ 131072 }
    ensures { result ≡ false → (position : ℕ) → Rattle.bitpack_slices.specs.Slices.first_fall position (pairs_of body.now) ≡ None }
{
    let mut falls: u16 = 0;
    for index in 1..body.len() / 2 {
        falls += (number_at(body, index) <= number_at(body, index - 1)) as u16;
    }
    falls != 0
}

/// How many high bytes the numbers of a body of numbers have, each counted again if it comes after others.
fn count_highs(body: &[u8]) -> usize
    requires some { 2 ≤ length body.now }
    requires few { length body.now ≤ 131072 }
    ensures { result ≡ length (parts 256 (pairs_of body.now)) }
{
    let mut highs: u32 = 1;
    for index in 1..body.len() / 2 {
        highs += (number_at(body, index) / 256 != number_at(body, index - 1) / 256) as u32;
    }
    highs as usize
}

/// A slice that is counted: its high byte, how many numbers it has; and how many slices there are with it, and how many bytes the others
/// have.
#[derive(Clone, Copy)]
struct Run {
    high: u16,
    count: usize,
    slices: usize,
    size: usize,
}

/// How many bytes the numbers of a body of numbers would take as blocks.
fn blocks_len(body: &[u8]) -> usize
    requires some { 2 ≤ length body.now }
    requires few { length body.now ≤ 131072 }
    ensures { result ≡ length (blocks (pairs_of body.now)) }
{
    let many = body.len() / 2;
    let slices = count_highs(body);
    // With so few numbers after the first of their slices, each slice is bytes.
    if many - slices < 31 {
        return 1 + byte_len(slices) + slices + many;
    }
    blocks_len_by_slice(body)
}

/// How many bytes the numbers of a body of numbers would take as blocks. It counts from the last number on.
#[inline(never)]
fn blocks_len_by_slice(body: &[u8]) -> usize
    requires some { 2 ≤ length body.now }
    requires few { length body.now ≤ 131072 }
    ensures { result ≡ length (blocks (pairs_of body.now)) }
{
    let mut left = body.len() / 2 - 1;
    let mut run = Run {
        high: number_at(body, left) / 256,
        count: 1,
        slices: 1,
        size: 0,
    };
    while left > 0 {
        left -= 1;
        run = with_high(run, number_at(body, left) / 256);
    }
    1 + byte_len(run.slices) + run.slices + run.size + byte_len(run.count)
}

/// A number more, with this high byte, without a branch.
#[inline(always)]
fn with_high(run: Run, high: u16) -> Run
    requires count { run.count ≤ 65536 }
    requires slices { run.slices ≤ 65536 }
    requires size { run.size ≤ 2 ^ 32 }
    ensures same { run.high ≡ high → result ≡ record run { count = run.count + 1 } }
    ensures other { run.high ≢ high → result
        ≡ record { high = high; count = 1; slices = run.slices + 1; size = run.size + Rattle.bitpack_slices.specs.Slices.slice_len run.count } }
{
    let same = (run.high == high) as usize;
    Run {
        high,
        count: run.count * same + 1,
        slices: run.slices + 1 - same,
        size: run.size + byte_len(run.count) * (1 - same),
    }
}

/// Whether bytes are the blocks of `count` numbers.
pub(crate) fn is_blocks(count: usize, body: &[u8]) -> bool
    ensures { Decides result (IsBlocks count body.now) }
{
    if body.is_empty() {
        return false;
    }
    let many = body[0] as usize + 1;
    let size = byte_len(many);
    if body.len() < 1 + size + many {
        return false;
    }
    let highs = &body[1..1 + size];
    let counts = &body[1 + size..1 + size + many];
    if !is_slice(many, highs) {
        return false;
    }
    if count_numbers(counts) != count {
        return false;
    }
    are_slices(counts, count, &body[size + many..])
}
