//! What no clause says: that a run comes to its end, what a fault is called, when the writer is flushed, and how much
//! memory a line may take.
//!
//! The expected text is worked by hand from the line language: a line that is none of its commands, also an empty one, is
//! answered `refused 1`, and one of more than 65,536 bytes `refused 6`.

mod calls;
mod fakes;
mod faults;
mod lines;
mod list2_lines;
mod list_lines;
mod registers;
mod running;
mod texts;

use fakes::{Giver, Taker};
use running::{run_over, run_over_bytes, writes};
use std::alloc::Global;
use std::process::Abort;

/// Three lines, the last without a line feed, and their answers.
const INPUT: &[u8] = b"a\n\nbc";

const ANSWERS: &[u8] = b"refused 1\nrefused 1\nrefused 1\n";

/// A run over these bytes writes those.
fn is_answered(rt: &impl Abort, alloc: Global, input: &[u8], answers: &[u8]) {
    let mut written = Vec::new(alloc);
    let outcome = run_over_bytes(alloc, input, &mut written);
    assert!(rt; outcome == Ok(()), "after {input:?}");
    assert!(rt; written.as_slice() == answers, "after {input:?}");
}

#[test]
fn lines_have_one_answer_each(rt: HostRuntime) {
    let cases: [(&[u8], &[u8]); 7] = [
        (b"", b""),
        (b"size 1x 1", b"4\n"),
        (b"\n", b"refused 1\n"),
        (b"a", b"refused 1\n"),
        (b"a\n", b"refused 1\n"),
        (b"a\n\n", b"refused 1\nrefused 1\n"),
        (INPUT, ANSWERS),
    ];
    for (input, answers) in cases {
        is_answered(&rt, rt.alloc(), input, answers);
    }
}

#[test]
fn small_steps_change_nothing(rt: HostRuntime) {
    for read in [1, 3, 100] {
        for written in [1, 3, 100] {
            writes(&rt, rt.alloc(), INPUT, (read, written), ANSWERS);
        }
    }
}

/// A line of a number of letters, and what follows it, have these answers.
fn letters_are_answered(
    rt: &impl Abort,
    alloc: Global,
    letters: usize,
    then: &[u8],
    answers: &[u8],
) {
    let mut reader = Giver::new(b"", 100_000);
    reader.letters = letters;
    reader.then = then;
    let mut writer = Taker::new(alloc, 100);
    let outcome = run_over(alloc, &mut reader, &mut writer);
    assert!(rt; outcome == Ok(()), "{letters} letters");
    assert!(rt; writer.taken.as_slice() == answers, "{letters} letters");
}

#[test]
fn a_line_is_at_most_65536_bytes(rt: HostRuntime) {
    let alloc = rt.alloc();
    letters_are_answered(&rt, alloc, 65_536, b"\na\n", b"refused 1\nrefused 1\n");
    letters_are_answered(&rt, alloc, 65_537, b"\na\n", b"refused 6\nrefused 1\n");
    letters_are_answered(&rt, alloc, 65_536, b"", b"refused 1\n");
    letters_are_answered(&rt, alloc, 65_537, b"", b"refused 6\n");
}
