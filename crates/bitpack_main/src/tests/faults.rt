//! Each read, write, flush and growth fails in turn: the run ends there, and nothing is tried again.
//!
//! The expected text is worked by hand from the line language: each line here is answered `refused 1`.

use super::fakes::{Giver, Taker};
use super::running::run_over;
use super::{ANSWERS, INPUT};
use bitpack::{RunError, ending};
use std::alloc::Global;
use std::process::Abort;

/// A read fails after a number of answers.
fn read_fails(rt: &impl Abort, alloc: Global, steps: (usize, usize), call: usize, answers: usize) {
    let mut reader = Giver::new(INPUT, steps.0);
    reader.fails_at = call;
    let mut writer = Taker::new(alloc, steps.1);
    let outcome = run_over(alloc, &mut reader, &mut writer);
    assert!(rt;
        outcome == Err(RunError::Read),
        "read {call}, steps {steps:?}"
    );
    let bytes = answers.saturating_mul(10);
    assert!(rt; writer.taken.len() == bytes, "read {call}, steps {steps:?}");
    assert!(rt; ANSWERS.starts_with(writer.taken.as_slice()));
    assert!(rt; reader.calls == call.saturating_add(1));
    assert!(rt; writer.flushes == 0);
}

/// Each read fails in turn, after the lines that ended before it.
fn reads_fail(rt: &impl Abort, alloc: Global, steps: (usize, usize), ended: &[usize]) {
    for (call, lines) in ended.iter().enumerate() {
        read_fails(rt, alloc, steps, call, *lines);
    }
}

#[test]
fn each_read_fails_in_turn(rt: HostRuntime) {
    // How many lines have ended before each read, for a number of bytes in a read; the last read is the one that finds the end.
    for written in [1, 3, 100] {
        reads_fail(&rt, rt.alloc(), (1, written), &[0, 0, 1, 2, 2, 2]);
        reads_fail(&rt, rt.alloc(), (2, written), &[0, 1, 2, 2]);
        reads_fail(&rt, rt.alloc(), (3, written), &[0, 2, 2]);
    }
}

/// The read after a number of letters and what follows them fails, and these answers were written before.
fn fails_after(rt: &impl Abort, alloc: Global, letters: usize, then: &[u8], answers: &[u8]) {
    let mut reader = Giver::new(b"", 100_000);
    reader.letters = letters;
    reader.then = then;
    reader.fails_at_end = true;
    let mut writer = Taker::new(alloc, 100);
    let outcome = run_over(alloc, &mut reader, &mut writer);
    assert!(rt; outcome == Err(RunError::Read), "{letters} letters");
    assert!(rt; writer.taken.as_slice() == answers, "{letters} letters");
}

#[test]
fn a_line_is_answered_at_its_end(rt: HostRuntime) {
    fails_after(&rt, rt.alloc(), 65_536, b"", b"");
    fails_after(&rt, rt.alloc(), 100_000, b"", b"");
    fails_after(&rt, rt.alloc(), 100_000, b"\na", b"refused 6\n");
}

/// A write fails after a number of bytes.
fn write_fails(rt: &impl Abort, alloc: Global, steps: (usize, usize), call: usize, written: usize) {
    let mut reader = Giver::new(INPUT, steps.0);
    let mut writer = Taker::new(alloc, steps.1);
    writer.fails_at = call;
    let outcome = run_over(alloc, &mut reader, &mut writer);
    assert!(rt;
        outcome == Err(RunError::Write),
        "write {call}, steps {steps:?}"
    );
    assert!(rt;
        writer.taken.len() == written,
        "write {call}, steps {steps:?}"
    );
    assert!(rt; ANSWERS.starts_with(writer.taken.as_slice()));
    assert!(rt; writer.calls == call.saturating_add(1));
    assert!(rt; writer.flushes == 0);
}

/// Each write fails in turn, after the bytes that were written before it.
fn writes_fail(rt: &impl Abort, alloc: Global, steps: (usize, usize), before: &[usize]) {
    for (call, written) in before.iter().enumerate() {
        write_fails(rt, alloc, steps, call, *written);
    }
}

/// Bytes of a read and of a write, and how many bytes are written before each write. With one byte a read, each answer is
/// written alone; with 100, those to the first two lines are written together.
#[test]
fn each_write_fails_in_turn(rt: HostRuntime) {
    let by_ones: [usize; 30] = [
        0, 1, 2, 3, 4, 5, 6, 7, 8, 9, 10, 11, 12, 13, 14, 15, 16, 17, 18, 19, 20, 21, 22, 23, 24,
        25, 26, 27, 28, 29,
    ];
    let each_alone: [usize; 12] = [0, 3, 6, 9, 10, 13, 16, 19, 20, 23, 26, 29];
    let two_together: [usize; 11] = [0, 3, 6, 9, 12, 15, 18, 20, 23, 26, 29];
    let alloc = rt.alloc();
    writes_fail(&rt, alloc, (1, 1), &by_ones);
    writes_fail(&rt, alloc, (100, 1), &by_ones);
    writes_fail(&rt, alloc, (1, 3), &each_alone);
    writes_fail(&rt, alloc, (100, 3), &two_together);
    writes_fail(&rt, alloc, (1, 100), &[0, 10, 20]);
    writes_fail(&rt, alloc, (100, 100), &[0, 20]);
}

/// Nothing is taken.
fn takes_nothing(rt: &impl Abort, alloc: Global, read: usize) {
    let mut reader = Giver::new(INPUT, read);
    let mut writer = Taker::new(alloc, 0);
    let outcome = run_over(alloc, &mut reader, &mut writer);
    assert!(rt; outcome == Err(RunError::Write));
    assert!(rt; writer.calls == 1);
    assert!(rt; writer.flushes == 0);
}

#[test]
fn a_write_of_nothing_is_a_fault(rt: HostRuntime) {
    takes_nothing(&rt, rt.alloc(), 1);
    takes_nothing(&rt, rt.alloc(), 100);
}

/// All is written, and then the flush fails.
fn flush_fails(rt: &impl Abort, alloc: Global, read: usize, written: usize) {
    let mut reader = Giver::new(INPUT, read);
    let mut writer = Taker::new(alloc, written);
    writer.flush_fails = true;
    let outcome = run_over(alloc, &mut reader, &mut writer);
    assert!(rt; outcome == Err(RunError::Write));
    assert!(rt; writer.taken.as_slice() == ANSWERS);
    assert!(rt; writer.flushes == 1);
}

#[test]
fn the_flush_fails(rt: HostRuntime) {
    for (read, written) in [(1, 1), (1, 3), (100, 3), (100, 100)] {
        flush_fails(&rt, rt.alloc(), read, written);
    }
}

/// The run ends with this fault, and these bytes were written.
fn run_ends(
    rt: &impl Abort,
    alloc: Global,
    reader: &mut Giver,
    writer: &mut Taker,
    fault: RunError,
    written: &[u8],
) {
    let outcome = run_over(alloc, reader, writer);
    assert!(rt; outcome == Err(fault));
    assert!(rt; writer.taken.as_slice() == written);
}

#[test]
fn lines_before_a_fault(rt: HostRuntime) {
    let alloc = rt.alloc();
    // A read fails in the second line.
    let mut reader = Giver::new(b"size 1x 1\nsize 1", 100);
    reader.fails_at_end = true;
    let mut writer = Taker::new(alloc, 100);
    run_ends(&rt, alloc, &mut reader, &mut writer, RunError::Read, b"4\n");
    // The second write fails, of an answer that is 208.
    let mut reader = Giver::new(b"size 4x 13", 100);
    let mut writer = Taker::new(alloc, 2);
    writer.fails_at = 1;
    run_ends(&rt, alloc, &mut reader, &mut writer, RunError::Write, b"20");
    let mut reader = Giver::new(b"size 1x 1", 100);
    let mut writer = Taker::new(alloc, 100);
    writer.flush_fails = true;
    run_ends(
        &rt,
        alloc,
        &mut reader,
        &mut writer,
        RunError::Write,
        b"4\n",
    );
}

/// How a program ends after this outcome.
fn ends(rt: &impl Abort, outcome: Result<(), RunError>, status: u8, message: &str) {
    let (found, text) = ending(&outcome);
    assert!(rt; found == status);
    assert!(rt; text == message);
}

#[test]
fn each_outcome_has_its_ending(rt: HostRuntime) {
    ends(&rt, Ok(()), 0, "");
    ends(&rt, Err(RunError::Read), 1, "bitpack: read failed");
    ends(&rt, Err(RunError::Write), 1, "bitpack: write failed");
    ends(&rt, Err(RunError::Memory), 1, "bitpack: out of memory");
}
