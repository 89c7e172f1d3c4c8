//! What the tests assert, each once, and the vectors that they begin with. A proof grows with the assertions and with the early
//! returns of a function: so a test calls these, and if memory runs out they end it.

use bitpack::ListError;
use std::alloc::Global;
use std::process::Abort;

/// The fact holds.
pub(super) fn is_true(rt: &impl Abort, fact: bool, what: &str) {
    assert!(rt; fact, "{what}");
}

/// The call on these bytes returned this.
pub(super) fn returns(
    rt: &impl Abort,
    found: Result<(), ListError>,
    expected: Result<(), ListError>,
    encoding: &[u8],
) {
    assert_eq!(rt; found, expected, "{encoding:?}");
}

/// The call on these bytes succeeded.
pub(super) fn succeeds(rt: &impl Abort, found: Result<(), ListError>, encoding: &[u8]) {
    returns(rt, found, Ok(()), encoding);
}

/// The error that was found in these bytes, or none.
pub(super) fn same_fault(
    rt: &impl Abort,
    found: Option<ListError>,
    expected: Option<ListError>,
    encoding: &[u8],
) {
    assert_eq!(rt; found, expected, "{encoding:?}");
}

/// The bytes are equal.
pub(super) fn same_bytes(rt: &impl Abort, found: &[u8], expected: &[u8]) {
    assert_eq!(rt; found, expected);
}

/// The values are equal.
pub(super) fn same_values(rt: &impl Abort, found: &[u32], expected: &[u32]) {
    assert_eq!(rt; found, expected);
}

/// The numbers are equal.
pub(super) fn same_number(rt: &impl Abort, found: usize, expected: usize, what: &str) {
    assert_eq!(rt; found, expected, "{what}");
}

/// The printed texts are equal.
pub(super) fn same_words(rt: &impl Abort, found: &str, expected: &str) {
    assert_eq!(rt; found, expected);
}

/// The vector holds the 9 of `nine`, and these bytes after it.
pub(super) fn appended_bytes(rt: &impl Abort, out: &[u8], expected: &[u8]) {
    is_true(rt, out.first() == Some(&9), "the first byte stays");
    same_bytes(rt, out.get(1..).unwrap_or(&[]), expected);
}

/// The vector holds the value of `one_value`, and these after it.
pub(super) fn appended_values(rt: &impl Abort, out: &[u32], first: u32, expected: &[u32]) {
    is_true(rt, out.first() == Some(&first), "the first value stays");
    same_values(rt, out.get(1..).unwrap_or(&[]), expected);
}

/// The vector holds what `nine` returned, in the room that it had.
pub(super) fn unchanged_bytes(rt: &impl Abort, out: &Vec<u8>, room: usize) {
    same_bytes(rt, out, &[9]);
    same_number(rt, out.capacity(), room, "room");
}

/// The vector holds what `one_value` returned, in the room that it had.
pub(super) fn unchanged_values(rt: &impl Abort, out: &Vec<u32>, first: u32, room: usize) {
    same_values(rt, out, &[first]);
    same_number(rt, out.capacity(), room, "room");
}

/// A vector that holds the byte 9.
pub(super) fn nine(rt: &impl Abort, alloc: Global) -> Vec<u8> {
    vec![in alloc; 9u8].expect(rt, "memory")
}

/// A vector that holds this value.
pub(super) fn one_value(rt: &impl Abort, alloc: Global, first: u32) -> Vec<u32> {
    vec![in alloc; first].expect(rt, "memory")
}

/// An empty vector with room for `count` items.
pub(super) fn room_for<T>(rt: &impl Abort, alloc: Global, count: usize) -> Vec<T> {
    Vec::with_capacity(alloc, count).expect(rt, "memory")
}

/// Appends a value.
pub(super) fn push(rt: &impl Abort, values: &mut Vec<u32>, value: u32) {
    values.push(value).expect(rt, "memory");
}

/// Appends bytes.
pub(super) fn push_bytes(rt: &impl Abort, encoding: &mut Vec<u8>, bytes: &[u8]) {
    encoding.extend_from_slice(bytes).expect(rt, "memory");
}

/// The bytes with the byte 0 after them.
pub(super) fn with_zero(rt: &impl Abort, alloc: Global, encoding: &[u8]) -> Vec<u8> {
    let mut longer = Vec::from_slice(alloc, encoding).expect(rt, "memory");
    push_bytes(rt, &mut longer, &[0]);
    longer
}

/// Appends `count` values: the first, and each further one a step greater, modulo 2 ^ 32.
pub(super) fn push_steps(
    rt: &impl Abort,
    values: &mut Vec<u32>,
    first: u32,
    step: u32,
    count: usize,
) {
    let mut value = first;
    for _ in 0..count {
        push(rt, values, value);
        value = value.wrapping_add(step);
    }
}

/// So many values, each a step more than the one before it.
pub(super) fn steps(
    rt: &impl Abort,
    alloc: Global,
    first: u32,
    step: u32,
    count: usize,
) -> Vec<u32> {
    let mut values = Vec::new(alloc);
    push_steps(rt, &mut values, first, step, count);
    values
}

/// The error has this number, and says this.
pub(super) fn says(rt: &impl Abort, alloc: Global, error: ListError, number: u8, message: &str) {
    same_number(rt, error.number() as usize, number as usize, message);
    is_said(rt, alloc, error, message);
}

/// The error says this.
fn is_said(rt: &impl Abort, alloc: Global, error: ListError, message: &str) {
    let said = format!(in alloc; "{error}").expect(rt, "memory");
    same_words(rt, said.as_str(), message);
}

/// Numbers that follow from one seed.
#[derive(Drop)]
pub(super) struct Numbers {
    last: u32,
}

impl Numbers {
    pub(super) fn new(seed: u32) -> Numbers {
        Numbers { last: seed }
    }

    /// The next number, below a bound of at most 65,536.
    pub(super) fn below(&mut self, bound: u32) -> u32 {
        self.last = self
            .last
            .wrapping_mul(1_664_525)
            .wrapping_add(1_013_904_223);
        if bound == 0 {
            0
        } else {
            (self.last >> 16) % bound
        }
    }
}
