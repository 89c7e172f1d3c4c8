//! Lines and their answers, as the format and the blocks worked by hand say.

use super::fakes::{Giver, Taker};
use super::running::{each_is_answered, line_is_answered, none_is_a_line, run_over, writes};
use super::texts::{Part, parts_are_answered, text_of};
use std::alloc::{AllocError, Global};
use std::process::Abort;
use std::test::Fail;

/// Sizes, widths, and the block of the format's first example.
fn sizes_and_widths() -> [(&'static str, &'static str); 11] {
    [
        (
            "pack 1x plain 3 0,1,2,3,4,5,6,7,0,1,2,3,4,5,6,7,0,1,2,3,4,5,6,7,0,1,2,3,4,5,6,7",
            "88c6fa88c6fa88c6fa88c6fa",
        ),
        ("size 1x 1", "4"),
        ("size 1x 0", "0"),
        ("size 4x 13", "208"),
        ("size 8x 32", "1024"),
        ("size 4s 13", "208"),
        ("size 8s 255", "8160"),
        ("size 8x 255", "8160"),
        ("width 1x plain 0*31,5", "3"),
        ("width 1x plain 0*32", "0"),
        ("width 1x plain 4294967295*32", "32"),
    ]
}

/// Blocks.
fn blocks() -> [(&'static str, &'static str); 8] {
    [
        ("pack 1x plain 1 1*32", "ffffffff"),
        ("pack 1x plain 2 1*32", "5555555555555555"),
        ("pack 1x plain 0 0*32", "-"),
        (
            "pack 8x plain 1 1*8,0*248",
            "0100000001000000010000000100000001000000010000000100000001000000",
        ),
        (
            "unpack 1x plain 1 FFffFfFf",
            "1,1,1,1,1,1,1,1,1,1,1,1,1,1,1,1,1,1,1,1,1,1,1,1,1,1,1,1,1,1,1,1",
        ),
        (
            "unpack 1x plain 2 5555555555555555",
            "1,1,1,1,1,1,1,1,1,1,1,1,1,1,1,1,1,1,1,1,1,1,1,1,1,1,1,1,1,1,1,1",
        ),
        (
            "unpack 1x plain 3 ffffffffffffffffffffffff",
            "7,7,7,7,7,7,7,7,7,7,7,7,7,7,7,7,7,7,7,7,7,7,7,7,7,7,7,7,7,7,7,7",
        ),
        (
            "pack 8s plain 1 1*8,0*248",
            "0100000001000000010000000100000001000000010000000100000001000000",
        ),
    ]
}

/// The kinds: differences wrap, and the start is the value before the first one.
fn kinds() -> [(&'static str, &'static str); 11] {
    [
        ("width 1x sorted:5 5*32", "0"),
        ("width 1x sorted:0 5,4*31", "32"),
        ("width 1x sorted:4294967295 4294967295*32", "0"),
        ("width 1x strict:0 5*32", "32"),
        ("width 1x strict:none 0*32", "32"),
        ("width 1x strict:4294967295 4294967295*32", "32"),
        ("width 4x sorted:0 2147483648*128", "32"),
        ("width 4s sorted:0 2147483648*128", "32"),
        (
            "pack 1x sorted:0 3 0,1,3,6,10,15,21,28,28,29,31,34,38,43,49,56,56,57,59,62,66,71,77,84,84,85,87,90,94,99,105,112",
            "88c6fa88c6fa88c6fa88c6fa",
        ),
        (
            "unpack 1x strict:none 0 -",
            "0,1,2,3,4,5,6,7,8,9,10,11,12,13,14,15,16,17,18,19,20,21,22,23,24,25,26,27,28,29,30,31",
        ),
        (
            "unpack 1x sorted:7 0 -",
            "7,7,7,7,7,7,7,7,7,7,7,7,7,7,7,7,7,7,7,7,7,7,7,7,7,7,7,7,7,7,7,7",
        ),
    ]
}

/// Refusals in their order: the number of values before the width, and the width before a code that does not fit.
fn wrong_lengths_and_widths() -> [(&'static str, &'static str); 10] {
    [
        ("width 1x plain -", "refused 2"),
        ("width 1x plain 1*1", "refused 2"),
        ("width 1x plain 0*65536", "refused 2"),
        ("width 4x plain 0*127", "refused 2"),
        ("width 4x plain 0*129", "refused 2"),
        ("pack 1x plain 33 0*31", "refused 2"),
        ("pack 1x plain 255 0*31", "refused 2"),
        ("pack 1x plain 33 0*32", "refused 3"),
        ("pack 1x plain 33 2*32", "refused 3"),
        ("pack 1x plain 255 0*32", "refused 3"),
    ]
}

/// Codes that do not fit, and a width before the number of bytes.
fn wrong_codes_and_bytes() -> [(&'static str, &'static str); 8] {
    [
        ("pack 1x plain 1 2*32", "refused 4"),
        ("pack 4x strict:none 0 0*128", "refused 4"),
        ("unpack 1x plain 33 00", "refused 3"),
        ("unpack 1x plain 255 -", "refused 3"),
        ("unpack 1x plain 1 00", "refused 5"),
        ("unpack 1x plain 1 0000000000", "refused 5"),
        ("unpack 1x plain 0 00", "refused 5"),
        ("unpack 1x plain 1 -", "refused 5"),
    ]
}

/// No line of the language: too few words or too many, and spaces.
fn wrong_words() -> [&'static str; 10] {
    [
        "",
        " ",
        "pack",
        "size 1x",
        "size 2x 1",
        "size  1x 1",
        " size 1x 1",
        "size 1x 1 ",
        "size 1x 1 1",
        "size 1x 8\r",
    ]
}

/// No line of the language: capitals, numbers and kinds.
fn wrong_numbers() -> [&'static str; 10] {
    [
        "PACK 1x plain 1 1*32",
        "pack  1x plain 1 1*32",
        "size 1x 01",
        "size 1x +1",
        "size 1x 256",
        "size 1x -",
        "pack 1x plain 256 0*32",
        "width 1x sorted:4294967296 0*32",
        "width 1x sorted:none 0*32",
        "width 1x strict 0*32",
    ]
}

/// No line of the language: kinds, values, counts and bytes.
fn wrong_values() -> [&'static str; 11] {
    [
        "width 1x plain:0 0*32",
        "width 1x plain 1*032",
        "width 1x plain 1*0",
        "width 1x plain 1,,2",
        "width 1x plain 0*31,4294967296",
        "width 1x plain 1*18446744073709551648",
        "width 1x plain 0*65537",
        "width 1x plain 0*65536,0",
        "unpack 1x plain 1 fff",
        "unpack 1x plain 33 0",
        "unpack 1x plain 1 ffffffgg",
    ]
}

/// Appends a line.
fn push_line(lines: &mut String, line: &str) -> Result<(), AllocError> {
    lines.push_str(line)?;
    lines.push('\n')
}

/// Each line has its answer. The lines are appended to one text, and their answers to another.
fn add(
    rt: &impl Abort,
    alloc: Global,
    input: &mut String,
    answers: &mut String,
    lines: &[(&str, &str)],
) -> Result<(), AllocError> {
    each_is_answered(rt, alloc, lines, b"\n", 100_000);
    for (line, wanted) in lines {
        push_line(input, line)?;
        push_line(answers, wanted)?;
    }
    Ok(())
}

/// The answers to what is no line of the language.
fn add_no_lines(
    rt: &impl Abort,
    alloc: Global,
    input: &mut String,
    answers: &mut String,
    lines: &[&str],
) -> Result<(), AllocError> {
    none_is_a_line(rt, alloc, lines, b"\n", 100_000);
    for line in lines {
        push_line(input, line)?;
        push_line(answers, "refused 1")?;
    }
    Ok(())
}

/// Lines that are answered.
fn add_answered(
    rt: &impl Abort,
    alloc: Global,
    input: &mut String,
    answers: &mut String,
) -> Result<(), AllocError> {
    add(rt, alloc, input, answers, &sizes_and_widths())?;
    add(rt, alloc, input, answers, &blocks())?;
    add(rt, alloc, input, answers, &kinds())
}

/// Lines that are refused.
fn add_refused(
    rt: &impl Abort,
    alloc: Global,
    input: &mut String,
    answers: &mut String,
) -> Result<(), AllocError> {
    add(rt, alloc, input, answers, &wrong_lengths_and_widths())?;
    add(rt, alloc, input, answers, &wrong_codes_and_bytes())?;
    add_no_lines(rt, alloc, input, answers, &wrong_words())?;
    add_no_lines(rt, alloc, input, answers, &wrong_numbers())?;
    add_no_lines(rt, alloc, input, answers, &wrong_values())
}

/// All lines in one input, a few bytes a read and a write, and all at once.
fn in_small_steps(rt: &impl Abort, alloc: Global, input: &str, answers: &str) {
    for steps in [(1, 1), (1, 3), (3, 1), (100_000, 100_000)] {
        writes(rt, alloc, input.as_bytes(), steps, answers.as_bytes());
    }
}

#[test]
fn worked_lines(rt: HostRuntime) -> Result<(), Fail> {
    let mut input = String::new(rt.alloc());
    let mut answers = String::new(rt.alloc());
    add_answered(&rt, rt.alloc(), &mut input, &mut answers)?;
    in_small_steps(&rt, rt.alloc(), input.as_str(), answers.as_str());
    Ok(())
}

#[test]
fn refused_lines(rt: HostRuntime) -> Result<(), Fail> {
    let mut input = String::new(rt.alloc());
    let mut answers = String::new(rt.alloc());
    add_refused(&rt, rt.alloc(), &mut input, &mut answers)?;
    in_small_steps(&rt, rt.alloc(), input.as_str(), answers.as_str());
    Ok(())
}

/// A character, repeated `count` times, with a line feed after it.
fn characters_are_answered(
    rt: &impl Abort,
    alloc: Global,
    character: &str,
    count: usize,
    wanted: &str,
) -> Result<(), AllocError> {
    let line = text_of(alloc, &[Part::Repeated(character, count)])?;
    line_is_answered(rt, alloc, line.as_str(), b"\n", 100_000, wanted);
    Ok(())
}

#[test]
fn long_lines(rt: HostRuntime) -> Result<(), Fail> {
    characters_are_answered(&rt, rt.alloc(), "a", 65_536, "refused 1")?;
    characters_are_answered(&rt, rt.alloc(), "a", 65_537, "refused 6")?;
    characters_are_answered(&rt, rt.alloc(), " ", 65_536, "refused 1")?;
    Ok(())
}

#[test]
fn a_byte_that_is_no_character(rt: HostRuntime) {
    for steps in [(1, 1), (2, 3), (100, 100)] {
        let answers = b"refused 1\nrefused 1\n";
        writes(&rt, rt.alloc(), &[255, 10, 255], steps, answers);
    }
}

/// A line of two parts has an answer of one.
fn has_answer(
    rt: &impl Abort,
    alloc: Global,
    line: &str,
    rest: Part,
    wanted: Part,
) -> Result<(), AllocError> {
    parts_are_answered(rt, alloc, &[Part::Text(line), rest], 100_000, &[wanted])
}

/// Blocks of one lane.
#[test]
fn whole_blocks(rt: HostRuntime) -> Result<(), Fail> {
    let zeros = Part::Repeated("00", 128);
    let ones = Part::Repeated("f", 256);
    for (line, rest, wanted) in [
        ("pack 1x plain 32 ", Part::Text("0*32"), zeros),
        ("unpack 1x plain 32 ", zeros, Part::Counted(0, 0, 32)),
        (
            "unpack 1x plain 32 ",
            ones,
            Part::Counted(4294967295, 0, 32),
        ),
        (
            "unpack 1x sorted:4294967295 32 ",
            ones,
            Part::Counted(4294967294, 4294967295, 32),
        ),
        (
            "unpack 1x strict:none 32 ",
            ones,
            Part::Counted(4294967295, 0, 32),
        ),
    ] {
        has_answer(&rt, rt.alloc(), line, rest, wanted)?;
    }
    whole_blocks_of_more_lanes(&rt, rt.alloc())?;
    Ok(())
}

/// Blocks of four and eight lanes.
fn whole_blocks_of_more_lanes(rt: &impl Abort, alloc: Global) -> Result<(), AllocError> {
    let ones = Part::Repeated("f", 64);
    let rising = Part::Counted(0, 1, 128);
    for (line, rest, wanted) in [
        ("unpack 8x sorted:0 1 ", ones, Part::Counted(1, 1, 256)),
        (
            "unpack 8x sorted:4294967295 1 ",
            ones,
            Part::Counted(0, 1, 256),
        ),
        ("unpack 8x strict:none 1 ", ones, Part::Counted(1, 2, 256)),
        ("width 4x sorted:0 ", rising, Part::Text("1")),
        ("width 4x strict:none ", rising, Part::Text("0")),
        ("width 4x strict:4294967295 ", rising, Part::Text("0")),
    ] {
        has_answer(rt, alloc, line, rest, wanted)?;
    }
    Ok(())
}

/// The answer to a line has this length in bytes, and begins with these.
fn begins(rt: &impl Abort, alloc: Global, line: &str, begin: &[u8], len: usize) {
    let mut reader = Giver::new(line.as_bytes(), 100_000);
    let mut writer = Taker::new(alloc, 100_000);
    let outcome = run_over(alloc, &mut reader, &mut writer);
    assert!(rt; outcome == Ok(()));
    assert!(rt; writer.taken.as_slice().starts_with(begin));
    // A line feed is after it.
    assert!(rt; writer.taken.len() == len.saturating_add(1));
}

#[test]
fn bytes_begin(rt: HostRuntime) -> Result<(), Fail> {
    let alloc = rt.alloc();
    let rising = text_of(
        alloc,
        &[Part::Text("pack 4x plain 8 "), Part::Counted(0, 1, 128)],
    )?;
    let bytes = b"0004080c0105090d02060a0e03070b0f";
    begins(&rt, alloc, rising.as_str(), bytes, 256);
    let line = "pack 4x sorted:0 32 2147483648*128";
    begins(&rt, alloc, line, b"000000800000", 1024);
    let line = "pack 1x strict:0 32 5*32";
    begins(&rt, alloc, line, b"04000000ffffffff", 256);
    Ok(())
}
