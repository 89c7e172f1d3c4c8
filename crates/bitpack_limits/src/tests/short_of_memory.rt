//! Runs in which memory ends: each allocation fails in turn, and the answers before it are whole.
//!
//! The expected text is worked by hand from the line language and the format.

use super::fakes::{Giver, Taker};
use super::memory::{grow_stack, take_all};
use super::running::run_over;
use super::texts::{Part, text_of};
use bitpack::RunError;
use std::alloc::{AllocError, Global};
use std::process::Abort;
use std::test::Fail;

/// The answers to three lines that are none of the language.
const ANSWERS: &[u8] = b"refused 1\nrefused 1\nrefused 1\n";

/// Blocks of twice the bytes each, from 8 on: what vectors take as they grow.
fn growths(alloc: Global, count: u32) -> Result<Vec<Vec<u8>>, AllocError> {
    let mut blocks = Vec::with_capacity(alloc, 20)?;
    for power in 0..count.min(20) {
        blocks.push(Vec::with_capacity(alloc, 8 << power)?)?;
    }
    Ok(blocks)
}

/// Runs with memory for a number of growths, and no more. The writer has room for a number of bytes before.
fn run_short_of_memory(
    rt: &impl Abort,
    alloc: Global,
    reader: &mut Giver,
    writer: &mut Taker,
    room: usize,
    count: u32,
) -> Result<Result<(), RunError>, AllocError> {
    writer.taken.try_reserve(room)?;
    let unchanged = growths(alloc, count)?;
    let blocks = take_all(rt, alloc);
    drop(unchanged);
    let outcome = run_over(alloc, reader, writer);
    drop(blocks);
    Ok(outcome)
}

/// What was written is the first of the answers, whole, and no fewer than with less memory. All of them were written, or the
/// outcome tells that memory ended.
fn are_in_part(
    rt: &impl Abort,
    outcome: Result<(), RunError>,
    taken: &[u8],
    answers: &[u8],
    last: usize,
) {
    assert!(rt; answers.starts_with(taken));
    assert!(rt; taken.is_empty() || taken.ends_with(b"\n"));
    assert!(rt; taken.len() >= last);
    let ends = taken.len() == answers.len();
    let want = if ends { Ok(()) } else { Err(RunError::Memory) };
    assert!(rt; outcome == want);
}

/// The number of bytes that are written with memory for this number of growths, and the number that was written before with one growth
/// less.
fn written_with(
    rt: &impl Abort,
    alloc: Global,
    mut reader: Giver,
    step: usize,
    answers: &[u8],
    count: u32,
    last: usize,
) -> Result<usize, AllocError> {
    let mut writer = Taker::new(alloc, step);
    let outcome = run_short_of_memory(rt, alloc, &mut reader, &mut writer, 600_000, count)?;
    are_in_part(rt, outcome, writer.taken.as_slice(), answers, last);
    Ok(writer.taken.len())
}

const BLOCKS: &[u8] = b"\npack 1x plain 1 1*32\nunpack 1x plain 0 -\n";

const BLOCKS_AND_LETTERS: &[u8] = b"refused 1
ffffffff
0,0,0,0,0,0,0,0,0,0,0,0,0,0,0,0,0,0,0,0,0,0,0,0,0,0,0,0,0,0,0,0
refused 6
";

/// The 15th growth has room for 131,072 bytes, and no line needs more, however long it is.
fn growths_are_refused(
    rt: &impl Abort,
    alloc: Global,
    letters: usize,
    steps: (usize, usize),
) -> Result<(), AllocError> {
    let mut last = 0;
    for count in 0..18u32 {
        let mut reader = Giver::new(BLOCKS, steps.0);
        reader.letters = letters;
        last = written_with(rt, alloc, reader, steps.1, BLOCKS_AND_LETTERS, count, last)?;
        let ends = last == BLOCKS_AND_LETTERS.len();
        assert!(rt; ends == (count > 14), "{letters} letters, {count} growths");
    }
    Ok(())
}

#[test]
fn each_growth_is_refused_in_turn(rt: HostRuntime) -> Result<(), Fail> {
    grow_stack(&rt);
    growths_are_refused(&rt, rt.alloc(), 65_537, (100_000, 100))?;
    growths_are_refused(&rt, rt.alloc(), 65_537, (1, 1))?;
    growths_are_refused(&rt, rt.alloc(), 65_537, (1, 3))?;
    growths_are_refused(&rt, rt.alloc(), 3_000_000, (100_000, 100))?;
    Ok(())
}

/// Two lines and their answers, with memory for more and more growths. The first answer has this length.
fn both_are_answered(
    rt: &impl Abort,
    alloc: Global,
    lines: &str,
    answers: &str,
    first: usize,
    steps: (usize, usize),
) -> Result<(), AllocError> {
    let mut last = 0;
    let mut first_alone = false;
    for count in 0..20u32 {
        let reader = Giver::new(lines.as_bytes(), steps.0);
        last = written_with(rt, alloc, reader, steps.1, answers.as_bytes(), count, last)?;
        first_alone = first_alone || last == first;
        // The values of the first line take 65,536 bytes, and the values of the second four times as many.
        assert!(rt; last < first || count > 13, "{count} growths");
        assert!(rt; last != answers.len() || count > 15, "{count} growths");
    }
    assert!(rt; last == answers.len());
    // If memory was enough for the first line alone, its answer was written.
    assert!(rt; first_alone);
    Ok(())
}

/// The answer to the first line.
fn first_answer(alloc: Global) -> Result<String, AllocError> {
    text_of(
        alloc,
        &[
            Part::Text("plain "),
            Part::Counted(0, 0, 16_384),
            Part::Text("\n"),
        ],
    )
}

/// 2,048 blocks of width 32, whose bits are all set.
fn many_blocks(alloc: Global) -> Result<String, AllocError> {
    let block = text_of(alloc, &[Part::Text("20"), Part::Repeated("ff", 128)])?;
    text_of(alloc, &[Part::Repeated(block.as_str(), 2048)])
}

/// 64 blocks of 256 zeros are a byte each. 2,048 blocks of width 32 are 264,192 bytes, more than the values take.
fn two_lists(alloc: Global) -> Result<String, AllocError> {
    text_of(
        alloc,
        &[
            Part::Text("dec 8x 01000800400000"),
            Part::Repeated("00", 64),
            Part::Text("\nenc 1x plain 4294967295*65536\n"),
        ],
    )
}

/// The answers to the two lists.
fn two_answers(alloc: Global, first: &str) -> Result<String, AllocError> {
    let many = many_blocks(alloc)?;
    format!(in alloc; "{first}01000100000100{many}\n")
}

#[test]
fn lists_with_memory_for_so_many_doublings(rt: HostRuntime) -> Result<(), Fail> {
    grow_stack(&rt);
    let alloc = rt.alloc();
    let lines = two_lists(alloc)?;
    let first = first_answer(alloc)?;
    let answers = two_answers(alloc, first.as_str())?;
    for steps in [(100_000, 100), (1, 3)] {
        both_are_answered(
            &rt,
            alloc,
            lines.as_str(),
            answers.as_str(),
            first.len(),
            steps,
        )?;
    }
    Ok(())
}

/// With memory for enough growths, at least `least`, the line is answered. With less nothing is written.
fn is_answered_from(
    rt: &impl Abort,
    alloc: Global,
    line: &[Part],
    answer: &[Part],
    least: u32,
) -> Result<(), AllocError> {
    let line = text_of(alloc, line)?;
    let answer = text_of(alloc, answer)?;
    let mut last = 0;
    for count in 0..12u32 {
        let reader = Giver::new(line.as_bytes(), 100_000);
        last = written_with(rt, alloc, reader, 100, answer.as_bytes(), count, last)?;
        assert!(rt; last != answer.len() || count >= least, "{count} growths");
    }
    assert!(rt; last == answer.len(), "{}", line.as_str());
    Ok(())
}

/// The fourth growth has room for 64 bytes, which a list of up to four fields needs.
#[test]
fn short_lines_with_memory_for_so_many_doublings(rt: HostRuntime) -> Result<(), Fail> {
    grow_stack(&rt);
    let alloc = rt.alloc();
    let size = Part::Text("size 4x 13\n");
    is_answered_from(&rt, alloc, &[size], &[Part::Text("208\n")], 4)?;
    let seek = Part::Text("seek 1x 32 0202012100000000000000001f00000020000000\n");
    is_answered_from(&rt, alloc, &[seek], &[Part::Text("32 32\n")], 4)?;
    Ok(())
}

/// Lines whose values or whose new list need more memory than the line: the eighth growth has room for 256 values, and the seventh for a
/// list of 28 skip entries.
#[test]
fn values_with_memory_for_so_many_doublings(rt: HostRuntime) -> Result<(), Fail> {
    grow_stack(&rt);
    let alloc = rt.alloc();
    let width = Part::Text("width 8x plain 1*256\n");
    is_answered_from(&rt, alloc, &[width], &[Part::Text("1\n")], 8)?;
    let dec = Part::Text("dec 8x 02000800010000000000000000000000\n");
    let values = [
        Part::Text("plain "),
        Part::Counted(0, 0, 256),
        Part::Text("\n"),
    ];
    is_answered_from(&rt, alloc, &[dec], &values, 8)?;
    let old = [
        Part::Text("upgrade 8x 010008001c0000"),
        Part::Repeated("00", 28),
        Part::Text("\n"),
    ];
    let new = [
        Part::Text("020008001c0000"),
        Part::Repeated("00", 252),
        Part::Text("\n"),
    ];
    is_answered_from(&rt, alloc, &old, &new, 7)?;
    Ok(())
}

/// The answers to the first two lines are written before memory ends, or the write of the number `call` fails.
fn fault_is(
    rt: &impl Abort,
    alloc: Global,
    lines: &str,
    call: usize,
    written: usize,
    fault: RunError,
) -> Result<(), AllocError> {
    let mut reader = Giver::new(lines.as_bytes(), 100_000);
    let mut writer = Taker::new(alloc, 3);
    writer.fails_at = call;
    let outcome = run_short_of_memory(rt, alloc, &mut reader, &mut writer, 100, 8)?;
    assert!(rt; outcome == Err(fault), "write {call}");
    assert!(rt; writer.taken.len() == written, "write {call}");
    assert!(rt; ANSWERS.starts_with(writer.taken.as_slice()));
    Ok(())
}

#[test]
fn answers_are_written_before_memory_is_reported(rt: HostRuntime) -> Result<(), Fail> {
    grow_stack(&rt);
    let alloc = rt.alloc();
    // The third line needs more memory than is left: the answers to the first two are written, or that write fails.
    let lines = text_of(alloc, &[Part::Text("\n\n"), Part::Repeated("a", 20_000)])?;
    fault_is(&rt, alloc, lines.as_str(), 0, 0, RunError::Write)?;
    fault_is(&rt, alloc, lines.as_str(), 1, 3, RunError::Write)?;
    fault_is(&rt, alloc, lines.as_str(), 6, 18, RunError::Write)?;
    fault_is(&rt, alloc, lines.as_str(), 7, 20, RunError::Memory)?;
    Ok(())
}
