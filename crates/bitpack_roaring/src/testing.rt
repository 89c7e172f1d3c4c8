//! Tests all bytes of a bitmap.
//! ROARING.md, "Faults".

ghost use Rattle.std.specs.Prelude.{◌≡◌, ◌+◌, ◌-◌, ◌*◌, ◌/◌, ◌^◌, ◌&&◌, ◌==◌, ◌<◌, ◌≤◌, ℕ, false, true, IfOk, length, nat_lt, nat_le, slice_index};
ghost use Rattle.std.specs.Option.{option_map};
ghost use Rattle.bitpack_slices.specs.Errors.{Finds};
ghost use Rattle.bitpack_slices.specs.declared.set_error.SetError.TheVariants.{NotSorted};
ghost use Rattle.bitpack_slices.specs.Slices.{first_fall, number_of, ones_from, pairs_of};
ghost use Rattle.bitpack_roaring.specs.Faults.{are_apart, container_fault, fault, first_of, numbers_fault};
ghost use Rattle.bitpack_roaring.specs.Roaring.{bounds_of, containers, ids_of, position_at, size_from, start_at};
ghost use Rattle.bitpack_roaring.specs.Roaring as roaring;
ghost use Rattle.bitpack_slices.specs.Runs.{run_numbers};

use crate::bits::load_bits;
use crate::head::{Head, LONGEST_ARRAY, test_head};
use crate::runs::{count_runs, run_at};
use bitpack_slices::SetError;
use bitpack_slices::bitmap::bodies::count_words;
use bitpack_slices::chunk::search::number_at;

/// Tests all bytes of a bitmap in Roaring's portable format. Returns how many ids it has.
// claim: roaring/1 names the first fault of bytes that are no bitmap in Roaring's portable format; counts the ids of one
pub fn test_roaring(bytes: &[u8]) -> Result<usize, SetError>
    ensures fault { Finds result (fault bytes.now) }
    ensures count { IfOk result (λ count. count ≡ length (ids_of bytes.now)) }
{
    let (_, count) = test_bitmap(bytes)?;
    Ok(count)
}

/// Tests all bytes. Returns what the head says, and how many ids there are.
#[tactic(auto, unfolding(crate::specs::Faults::fault))]
pub(crate) fn test_bitmap<'a>(bytes: &'a [u8]) -> Result<(Head<'a>, usize), SetError>
    ensures fault { Finds result (fault bytes.now) }
    ensures bytes { IfOk result (λ found. found.0.bytes.now ≡ bytes.now) }
    ensures count { IfOk result (λ found. found.1 ≡ position_at bytes.now (containers bytes.now)) }
    ensures few { IfOk result (λ found. found.1 ≤ 2 ^ 32) }
{
    let head = test_head(bytes)?;
    let (start, count) = test_containers(head)?;
    if start < bytes.len() {
        return Err(SetError::Trailing);
    }
    Ok((head, count))
}

/// Tests each container. Returns the end of the last one, and the number of ids of all.
fn test_containers(head: Head) -> Result<(usize, usize), SetError>
    ensures fault { Finds result (first_of (container_fault head.entry.bytes.now) head.entry.containers) }
    ensures start { IfOk result (λ end. end.0 ≡ start_at head.entry.bytes.now head.entry.containers) }
    ensures within { IfOk result (λ end. end.0 ≤ length head.entry.bytes.now) }
    ensures position { IfOk result (λ end. end.1 ≡ position_at head.entry.bytes.now head.entry.containers) }
    ensures few { IfOk result (λ end. end.1 ≤ 2 ^ 32) }
{
    let mut start = head.start;
    let mut position = 0;
    for container in 0..head.containers {
        start = test_container(head, container, start, position)?;
        position += head.count(container);
    }
    Ok((start, position))
}

/// Tests a container that begins at `start`, after `position` ids. Returns its end.
#[tactic(auto, unfolding(crate::specs::Faults::container_fault))]
fn test_container(
    head: Head,
    container: usize,
    start: usize,
    position: usize,
) -> Result<usize, SetError>
    requires within { container < head.containers }
    requires start { start ≡ start_at head.bytes.now container }
    requires room { start ≤ length head.bytes.now }
    requires position { position ≡ position_at head.bytes.now container }
    requires few { position ≤ 2 ^ 32 }
    ensures fault { Finds result (container_fault head.entry.bytes.now container) }
    ensures end { IfOk result (λ end. end ≡ start + size_from head.entry.bytes.now container start) }
    ensures within { IfOk result (λ end. end ≤ length head.entry.bytes.now) }
{
    if key_falls(head, container) {
        return Err(SetError::BadKey(container));
    }
    if head.has_other_offset(container, start) {
        return Err(SetError::BadOffset(container));
    }
    let Some(end) = head.end_from(container, start) else {
        return Err(SetError::Short);
    };
    let run = head.is_run(container);
    let count = head.count(container);
    test_numbers(run, count, container, position, &head.bytes[start..end])?;
    Ok(end)
}

/// Whether the key of a container is not above the one before.
#[inline(always)]
fn key_falls(head: Head, container: usize) -> bool
    requires { container < head.containers }
    ensures { result ≡ (nat_lt 0 container && nat_le (roaring.key_at head.entry.bytes.now container) (roaring.key_at head.entry.bytes.now (container - 1))) }
{
    if container == 0 {
        return false;
    }
    head.key(container) <= head.key(container - 1)
}

/// Tests the bytes of a container, of `count` numbers after `position` ids.
#[tactic(auto, unfolding(crate::specs::Faults::numbers_fault, crate::specs::Roaring::numbers_of))]
fn test_numbers(
    run: bool,
    count: usize,
    container: usize,
    position: usize,
    body: &[u8],
) -> Result<(), SetError>
    requires few { position ≤ 2 ^ 32 }
    requires runs { run ≡ true → 2 ≤ length body.now }
    requires bits { run ≡ false → nat_le count 4096 ≡ false → length body.now ≡ 8192 }
    ensures { Finds result (numbers_fault container position run count body.now) }
{
    if run {
        if are_runs(count, &body[2..]) {
            return Ok(());
        }
        return Err(SetError::BadBody(container));
    }
    if count <= LONGEST_ARRAY {
        return test_array(position, body);
    }
    if count_bits(body) == count {
        return Ok(());
    }
    Err(SetError::BadBody(container))
}

/// Tests an array of numbers, after `position` ids. Most arrays increase, so that no position is looked for.
fn test_array(position: usize, body: &[u8]) -> Result<(), SetError>
    requires { position ≤ 2 ^ 32 }
    ensures { Finds result (option_map NotSorted (first_fall position (pairs_of body.now))) }
{
    if !falls(body) {
        return Ok(());
    }
    for index in 1..body.len() / 2 {
        if number_at(body, index) <= number_at(body, index - 1) {
            return Err(SetError::NotSorted(position + index));
        }
    }
    Ok(())
}

/// Whether a number of an array is not above the one before it. No branch depends on a number, so that the compiler compares several at once.
#[inline(always)]
fn falls(body: &[u8]) -> bool
    ensures { result ≡ false → (k : ℕ) → k + 1 < length body.now / 2 → slice_index (pairs_of body.now) k < slice_index (pairs_of body.now) (k + 1) }
{
    let mut falls = false;
    for index in 1..body.len() / 2 {
        falls |= number_at(body, index) <= number_at(body, index - 1);
    }
    falls
}

/// Whether runs are apart and have `count` numbers.
fn are_runs(count: usize, runs: &[u8]) -> bool
    ensures { result ≡ (are_apart (bounds_of (pairs_of runs.now)) && (length (run_numbers (bounds_of (pairs_of runs.now))) == count)) }
{
    let mut least = 0;
    let mut numbers = 0;
    for index in 0..count_runs(runs) {
        let (first, end) = run_at(runs, index);
        if first < least || end > 65536 {
            return false;
        }
        numbers += end - first;
        least = end + 1;
    }
    numbers == count
}

/// How many of the bits of a container are 1.
fn count_bits(body: &[u8]) -> usize
    requires { length body.now ≡ 8192 }
    ensures { result ≡ length (ones_from (number_of body.now) 0 65536) }
{
    let mut words = [0; 1024];
    load_bits(body, &mut words);
    count_words(&words)
}
