//! When a run reads and writes, and how often.
//!
//! The number of calls is worked by hand: an input is read in pieces of at most 65,536 bytes, and answers are written when
//! that many bytes are buffered, and before each read.

use super::fakes::{Asker, Giver, Hearer, Taker};
use super::running::{run_asking, run_over};
use super::texts::{Part, text_of};
use std::alloc::Global;
use std::cell::Cell;
use std::process::Abort;
use std::test::Fail;

/// 32 zeros, whose answer has 64 bytes with its line feed.
const ZEROS: &str = "unpack 1x plain 0 -\n";

/// No call for more comes before the answers to 2,000 lines.
fn asks_in_time(rt: &impl Abort, alloc: Global, input: &str, read: usize, written: usize) {
    let answered = Cell::new(0);
    let mut reader = Asker::new(input.as_bytes(), read, &answered);
    let mut writer = Hearer::new(written, &answered);
    let outcome = run_asking(alloc, &mut reader, &mut writer);
    assert!(rt; outcome == Ok(()), "steps {read} and {written}");
    assert!(rt; reader.early == 0, "steps {read} and {written}");
    assert!(rt; answered.get() == 2000, "steps {read} and {written}");
}

#[test]
fn each_line_is_answered_before_the_next_read(rt: HostRuntime) -> Result<(), Fail> {
    // 40,000 bytes, with answers of 128,000 bytes: more than are buffered.
    let input = text_of(rt.alloc(), &[Part::Repeated(ZEROS, 2000)])?;
    for read in [1, 19, 20, 21, 100_000] {
        for written in [1, 3, 100_000] {
            asks_in_time(&rt, rt.alloc(), input.as_str(), read, written);
        }
    }
    Ok(())
}

/// How many bytes are written. What is known of the calls: how many reads, and how many writes at least and at most.
fn calls_are(
    rt: &impl Abort,
    alloc: Global,
    input: &str,
    steps: (usize, usize),
    answers: usize,
    reads: usize,
    writes: (usize, usize),
) {
    let mut reader = Giver::new(input.as_bytes(), steps.0);
    let mut writer = Taker::new(alloc, steps.1);
    let outcome = run_over(alloc, &mut reader, &mut writer);
    assert!(rt; outcome == Ok(()), "steps {steps:?}");
    assert!(rt; writer.taken.len() == answers, "steps {steps:?}");
    assert!(rt; reader.calls == reads, "steps {steps:?}");
    assert!(rt; writer.calls >= writes.0, "steps {steps:?}");
    assert!(rt; writer.calls <= writes.1, "steps {steps:?}");
}

#[test]
fn no_call_is_in_vain(rt: HostRuntime) -> Result<(), Fail> {
    let input = text_of(rt.alloc(), &[Part::Repeated(ZEROS, 5000)])?;
    let answers = 5000 * 64;
    // Bytes of a read and of a write; how many reads; how many writes at least and at most.
    let cases = [
        // 100,000 bytes are two pieces of at most 65,536, and the last read finds the end.
        (1_000_000, 1_000_000, 3, 5, 7),
        (65_536, 65_536, 3, 5, 7),
        // One piece for each line, with one write each.
        (20, 1_000_000, 5001, 5000, 5000),
        // All answers, byte by byte.
        (1_000_000, 1, 3, answers, answers),
        (20, 1, 5001, answers, answers),
        // Each answer needs 22 calls of three bytes.
        (20, 3, 5001, 110_000, 110_000),
    ];
    for (read, written, reads, least, most) in cases {
        let steps = (read, written);
        calls_are(
            &rt,
            rt.alloc(),
            input.as_str(),
            steps,
            answers,
            reads,
            (least, most),
        );
    }
    Ok(())
}

/// A read for each byte, one that finds the end, and a write for each answer.
fn calls_for_each_byte(rt: &impl Abort, alloc: Global, input: &str, answers: &str) {
    let mut reader = Giver::new(input.as_bytes(), 1);
    let mut writer = Taker::new(alloc, 100);
    let outcome = run_over(alloc, &mut reader, &mut writer);
    assert!(rt; outcome == Ok(()));
    assert!(rt; writer.taken.as_slice() == answers.as_bytes());
    assert!(rt; reader.calls == 310_001);
    assert!(rt; writer.calls == 31_000);
}

#[test]
fn no_number_of_reads_is_a_fault(rt: HostRuntime) -> Result<(), Fail> {
    let input = text_of(rt.alloc(), &[Part::Repeated("size 1x 1\n", 31_000)])?;
    let answers = text_of(rt.alloc(), &[Part::Repeated("4\n", 31_000)])?;
    calls_for_each_byte(&rt, rt.alloc(), input.as_str(), answers.as_str());
    Ok(())
}
