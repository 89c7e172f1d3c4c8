//! The runs of the tests: each of these functions has one call of `run` and no contract, so that no test carries the contract of `run`.

use super::fakes::{Counter, Giver, Taker};
use bitpack::{RunError, run};
use std::alloc::Global;
use std::process::Abort;

/// Runs over a reader and a writer that fail at a call of the test's choice.
pub(super) fn run_over(
    alloc: Global,
    reader: &mut Giver,
    writer: &mut Taker,
) -> Result<(), RunError> {
    run(alloc, reader, writer)
}

/// Runs over bytes, and counts what is written.
pub(super) fn run_counting(
    alloc: Global,
    input: &[u8],
    writer: &mut Counter,
) -> Result<(), RunError> {
    run(alloc, &mut Giver::new(input, usize::MAX), writer)
}

/// Runs over one line, and the line feed after it if there is one: this is its answer.
pub(super) fn line_is_answered<'a>(
    rt: &impl Abort,
    alloc: Global,
    line: &'a str,
    feed: &'a [u8],
    step: usize,
    wanted: &str,
) {
    let mut reader = Giver::new(line.as_bytes(), 4096);
    reader.then = feed;
    let mut writer = Taker::new(alloc, step);
    let outcome = run_over(alloc, &mut reader, &mut writer);
    assert!(rt; outcome == Ok(()), "the answer to {line}");
    let (answer, end) = without_feed(writer.taken.as_slice());
    assert!(rt; answer == wanted.as_bytes(), "the answer to {line}");
    assert!(rt; end == b"\n".as_slice());
}

/// What is before the last byte, and that byte.
fn without_feed(written: &[u8]) -> (&[u8], &[u8]) {
    written.split_at(written.len().saturating_sub(1))
}
