//! The runs of the tests: each of these functions has one call of `run` and no contract, so that no test carries the contract of `run`.

use super::fakes::{Asker, Giver, Hearer, Taker};
use bitpack::{RunError, run};
use std::alloc::Global;
use std::process::Abort;

/// Runs over bytes, as a program would that holds them.
pub(super) fn run_over_bytes(
    alloc: Global,
    input: &[u8],
    written: &mut Vec<u8>,
) -> Result<(), RunError> {
    let mut reader = input;
    run(alloc, &mut reader, written)
}

/// Runs over a reader and a writer that fail at a call of the test's choice.
pub(super) fn run_over(
    alloc: Global,
    reader: &mut Giver,
    writer: &mut Taker,
) -> Result<(), RunError> {
    run(alloc, reader, writer)
}

/// Runs over a reader and a writer that tell each other how many lines are answered.
pub(super) fn run_asking(
    alloc: Global,
    reader: &mut Asker,
    writer: &mut Hearer,
) -> Result<(), RunError> {
    run(alloc, reader, writer)
}

/// Runs over an input, with at most this number of bytes in a read and a write: the run ends well, and has written these answers.
pub(super) fn writes(
    rt: &impl Abort,
    alloc: Global,
    input: &[u8],
    steps: (usize, usize),
    answers: &[u8],
) {
    let mut reader = Giver::new(input, steps.0);
    let mut writer = Taker::new(alloc, steps.1);
    let outcome = run_over(alloc, &mut reader, &mut writer);
    assert!(rt; outcome == Ok(()), "steps {steps:?}");
    assert!(rt; writer.taken.as_slice() == answers, "steps {steps:?}");
    assert!(rt; writer.flushes == 1);
}

/// Runs over one line, and the line feed after it if there is one: this is its answer.
pub(super) fn line_is_answered<'a>(
    rt: &impl Abort,
    alloc: Global,
    line: &'a str,
    feed: &'a [u8],
    step: usize,
    wanted: &str,
) {
    let mut reader = Giver::new(line.as_bytes(), 4096);
    reader.then = feed;
    let mut writer = Taker::new(alloc, step);
    let outcome = run_over(alloc, &mut reader, &mut writer);
    assert!(rt; outcome == Ok(()), "the answer to {line}");
    let (answer, end) = without_feed(writer.taken.as_slice());
    assert!(rt; answer == wanted.as_bytes(), "the answer to {line}");
    assert!(rt; end == b"\n".as_slice());
}

/// What is before the last byte, and that byte.
pub(super) fn without_feed(written: &[u8]) -> (&[u8], &[u8]) {
    written.split_at(written.len().saturating_sub(1))
}

/// Each line has its answer.
pub(super) fn each_is_answered(
    rt: &impl Abort,
    alloc: Global,
    lines: &[(&str, &str)],
    feed: &[u8],
    step: usize,
) {
    for (line, wanted) in lines {
        line_is_answered(rt, alloc, line, feed, step, wanted);
    }
}

/// Each is no line of the language.
pub(super) fn none_is_a_line(
    rt: &impl Abort,
    alloc: Global,
    lines: &[&str],
    feed: &[u8],
    step: usize,
) {
    for line in lines {
        line_is_answered(rt, alloc, line, feed, step, "refused 1");
    }
}
