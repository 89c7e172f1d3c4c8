//! Lines for packed lists, and their answers. Each list was written down by hand from the format: the seven bytes of the
//! header, a byte of width and the bytes of each whole block, and four bytes for each value after them.

use super::running::{each_is_answered, none_is_a_line, writes};
use super::texts::{Part, parts_are_answered, text_of};
use std::alloc::{AllocError, Global};
use std::process::Abort;
use std::test::Fail;

/// Lists of no value and of one.
fn short_lists() -> [(&'static str, &'static str); 7] {
    [
        ("enc 1x plain -", "01000100000000"),
        ("enc 8s strict -", "01020800000000"),
        ("dec 1x 01000100000000", "plain -"),
        ("dec 1x 01010100000000", "sorted -"),
        ("dec 1x 01020100000000", "strict -"),
        ("enc 1x plain 5", "0100010100000005000000"),
        ("dec 1x 0100010100000005000000", "plain 5"),
    ]
}

/// A tail may be in any order in every kind, and its values are packed as they are.
fn lists() -> [(&'static str, &'static str); 9] {
    [
        (
            "enc 4x sorted 5,3,4294967295",
            "010104030000000500000003000000ffffffff",
        ),
        (
            "dec 4s 010104030000000500000003000000FFFFFFFF",
            "sorted 5,3,4294967295",
        ),
        ("enc 8x strict 7*2", "010208020000000700000007000000"),
        (
            "enc 1x strict 0,1,2,3,4,5,6,7,8,9,10,11,12,13,14,15,16,17,18,19,20,21,22,23,24,25,26,27,28,29,30,31,32",
            "010201210000000020000000",
        ),
        (
            "dec 1x 010201210000000020000000",
            "strict 0,1,2,3,4,5,6,7,8,9,10,11,12,13,14,15,16,17,18,19,20,21,22,23,24,25,26,27,28,29,30,31,32",
        ),
        (
            "enc 1x sorted 1,2,3,4,5,6,7,8,9,10,11,12,13,14,15,16,17,18,19,20,21,22,23,24,25,26,27,28,29,30,31,32,34,36,38,40,42,44,46,48,50,52,54,56,58,60,62,64,66,68,70,72,74,76,78,80,82,84,86,88,90,92,94,96",
            "0101014000000001ffffffff02aaaaaaaaaaaaaaaa",
        ),
        (
            "dec 1x 0101014000000001ffffffff02aaaaaaaaaaaaaaaa",
            "sorted 1,2,3,4,5,6,7,8,9,10,11,12,13,14,15,16,17,18,19,20,21,22,23,24,25,26,27,28,29,30,31,32,34,36,38,40,42,44,46,48,50,52,54,56,58,60,62,64,66,68,70,72,74,76,78,80,82,84,86,88,90,92,94,96",
        ),
        // One bit in the first word of each lane.
        (
            "enc 4x plain 1*4,0*124",
            "010004800000000101000000010000000100000001000000",
        ),
        (
            "enc 4s plain 0,1,0*126",
            "010004800000000100000000010000000000000000000000",
        ),
    ]
}

/// What is refused, in the order of the tests.
fn refused_headers() -> [(&'static str, &'static str); 9] {
    [
        ("dec 4x 01000100000000", "refused 24"),
        ("dec 4s 01000100000000", "refused 24"),
        ("dec 8x 01000400000000", "refused 24"),
        ("dec 1x -", "refused 21"),
        ("dec 1x 01", "refused 21"),
        ("dec 1x 010001200000", "refused 21"),
        ("dec 1x 0100012000000021", "refused 26"),
        ("dec 1x 010001200000000100000000", "refused 27"),
        ("dec 1x 010001200000000000", "refused 31"),
    ]
}

/// Bytes that are missing or left over, and fields of the header.
fn refused_lengths() -> [(&'static str, &'static str); 9] {
    [
        ("dec 1x 01000120000000", "refused 21"),
        ("dec 1x 0100012000000001", "refused 21"),
        ("dec 1x 0100042000000000", "refused 24"),
        ("dec 1x 03000100000000", "refused 22"),
        ("dec 1x 01030100000000", "refused 23"),
        ("dec 1x 01000101000010", "refused 25"),
        ("dec 1x 01000100000010", "refused 21"),
        ("dec 1x 010001010000000500000000", "refused 31"),
        ("dec 1x 0100010100000005", "refused 21"),
    ]
}

/// Which fault is the first.
fn first_faults() -> [(&'static str, &'static str); 5] {
    [
        // Room for a byte of each block and for the tail is required before a width is looked at.
        ("dec 1x 0100012100000021", "refused 21"),
        // A block with a loose width is refused before the block that is missing after it.
        ("dec 1x 010001400000000100000000", "refused 27"),
        // The header: kind before lanes, lanes before the count.
        ("dec 1x 02030400000000", "refused 23"),
        ("dec 1x 01030400000000", "refused 23"),
        ("dec 1x 01000401000010", "refused 24"),
    ]
}

/// Version 2. Its skip entry has the width, the offset and the last value; 1f is 31, and 20 is 32.
fn lists_of_version_2() -> [(&'static str, &'static str); 11] {
    [
        ("dec 1x 02", "refused 21"),
        ("dec 1x 020001000000", "refused 21"),
        ("dec 1x 02000100000000", "plain -"),
        ("dec 8s 02020800000000", "strict -"),
        ("dec 4x 02000100000000", "refused 24"),
        ("dec 1x 0201010200000005000000050000", "refused 21"),
        ("dec 1x 020101020000000500000005000000", "sorted 5,5"),
        ("dec 1x 020201020000000500000005000000", "refused 30"),
        ("dec 1x 02010102000000050000000500000000", "refused 31"),
        (
            "dec 1x 0202012100000000000000001f00000020000000",
            "strict 0,1,2,3,4,5,6,7,8,9,10,11,12,13,14,15,16,17,18,19,20,21,22,23,24,25,26,27,28,29,30,31,32",
        ),
        (
            "dec 1x 02010120000000010000000020000000ffffffff",
            "sorted 1,2,3,4,5,6,7,8,9,10,11,12,13,14,15,16,17,18,19,20,21,22,23,24,25,26,27,28,29,30,31,32",
        ),
    ]
}

/// Faults of version 2: missing bytes come before a loose width.
fn faults_of_version_2() -> [(&'static str, &'static str); 5] {
    [
        (
            "dec 1x 0200014000000001000000000000000001010000000000000000000000",
            "refused 21",
        ),
        // The offset of skip entry 0 before the width of entry 1; of one entry the width before the offset.
        (
            "dec 1x 02000140000000000100000000000000210000000000000000",
            "refused 28",
        ),
        ("dec 1x 02000120000000210100000000000000", "refused 26"),
        // A loose width before a wrong last value. Every byte of the last value counts.
        (
            "dec 1x 0200012000000001000000000900000000000000",
            "refused 27",
        ),
        ("dec 1x 020001200000000000000000000000ff", "refused 29"),
    ]
}

/// From version 1 to version 2: the faults of version 1, and then the order.
fn upgrades() -> [(&'static str, &'static str); 9] {
    [
        ("upgrade 1x 01000100000000", "02000100000000"),
        ("upgrade 8s 01020800000000", "02020800000000"),
        (
            "upgrade 1x 010201210000000020000000",
            "0202012100000000000000001f00000020000000",
        ),
        (
            "upgrade 1x 010001020000000500000004000000",
            "020001020000000500000004000000",
        ),
        ("upgrade 1x -", "refused 21"),
        ("upgrade 1x 02000100000000", "refused 22"),
        ("upgrade 4x 01000100000000", "refused 24"),
        ("upgrade 1x 010101020000000500000004000000", "refused 30"),
        ("upgrade 1x 01010102000000050000000400000000", "refused 31"),
    ]
}

/// No line of the language.
fn no_lines() -> [&'static str; 10] {
    [
        "upgrade 1x",
        "upgrade 1x 0",
        "upgrade 1x plain 01000100000000",
        "upgrade 1x 01000100000000 ",
        "Upgrade 1x 01000100000000",
        "enc",
        "enc 1x plain",
        "enc 1x plain - -",
        "enc 2x plain -",
        "enc 1x Plain -",
    ]
}

/// No line of the language: values, spaces, and bytes that are not pairs of digits.
fn more_no_lines() -> [&'static str; 10] {
    [
        "enc 1x sorted:0 0",
        "enc 1x strict:none 0",
        "enc 1x plain 0*65537",
        "enc  1x plain -",
        "enc 1x plain 4294967296",
        "dec 1x",
        "dec 1x 0",
        "dec 1x plain 01000100000000",
        "dec 1x 01000100000000 ",
        "dec 1x 0100010000000g",
    ]
}

/// Each line has its answer, with at most this number of bytes in a write.
fn each_list_is_answered(rt: &impl Abort, alloc: Global, step: usize) {
    each_is_answered(rt, alloc, &short_lists(), b"", step);
    each_is_answered(rt, alloc, &lists(), b"", step);
    each_is_answered(rt, alloc, &refused_headers(), b"", step);
    each_is_answered(rt, alloc, &refused_lengths(), b"", step);
    each_is_answered(rt, alloc, &first_faults(), b"", step);
    each_is_answered(rt, alloc, &lists_of_version_2(), b"", step);
    each_is_answered(rt, alloc, &faults_of_version_2(), b"", step);
    each_is_answered(rt, alloc, &upgrades(), b"", step);
    none_is_a_line(rt, alloc, &no_lines(), b"", step);
    none_is_a_line(rt, alloc, &more_no_lines(), b"", step);
}

#[test]
fn worked_list_lines(rt: HostRuntime) {
    each_list_is_answered(&rt, rt.alloc(), 1);
    each_list_is_answered(&rt, rt.alloc(), 4096);
}

/// What one packer of a pair writes, the other reads.
fn is_shared(
    rt: &impl Abort,
    alloc: Global,
    pair: (&str, &str),
    kind: &str,
    values: &str,
    text: &str,
) -> Result<(), AllocError> {
    let (encodes, decodes) = pair;
    let lines = format!(in alloc; "enc {encodes} {kind} {values}\ndec {decodes} {text}")?;
    let answers = format!(in alloc; "{text}\n{kind} {values}\n")?;
    writes(
        rt,
        alloc,
        lines.as_bytes(),
        (4096, 4096),
        answers.as_bytes(),
    );
    Ok(())
}

/// The packers of a pair write the same bytes of a list.
fn is_shared_both_ways(
    rt: &impl Abort,
    alloc: Global,
    pair: (&str, &str),
    kind: &str,
    values: Part,
    text: &[Part],
) -> Result<(), AllocError> {
    let values = text_of(alloc, &[values])?;
    let text = text_of(alloc, text)?;
    is_shared(rt, alloc, pair, kind, values.as_str(), text.as_str())?;
    let other = (pair.1, pair.0);
    is_shared(rt, alloc, other, kind, values.as_str(), text.as_str())
}

/// Values and bytes of lists, in four and in eight lanes.
#[test]
fn the_packers_of_a_pair_share_texts(rt: HostRuntime) -> Result<(), Fail> {
    let (four, eight) = (("4x", "4s"), ("8x", "8s"));
    let ones = Part::Repeated("ff", 16);
    let more_ones = Part::Repeated("ff", 32);
    let none = Part::Text("");
    for (pair, kind, values, text, body) in [
        (
            four,
            "plain",
            Part::Counted(1, 0, 128),
            "0100048000000001",
            ones,
        ),
        (
            four,
            "sorted",
            Part::Counted(1, 1, 128),
            "0101048000000001",
            ones,
        ),
        (
            four,
            "strict",
            Part::Counted(0, 1, 129),
            "010204810000000080000000",
            none,
        ),
        (
            eight,
            "plain",
            Part::Counted(1, 0, 256),
            "0100080001000001",
            more_ones,
        ),
        (
            eight,
            "sorted",
            Part::Counted(1, 1, 256),
            "0101080001000001",
            more_ones,
        ),
        (
            eight,
            "strict",
            Part::Counted(0, 1, 257),
            "010208010100000000010000",
            none,
        ),
    ] {
        is_shared_both_ways(
            &rt,
            rt.alloc(),
            pair,
            kind,
            values,
            &[Part::Text(text), body],
        )?;
    }
    Ok(())
}

/// The most values that a line can have, and many more than that: a byte of width 0 is a whole block.
#[test]
fn long_lists(rt: HostRuntime) -> Result<(), Fail> {
    let alloc = rt.alloc();
    let widths = Part::Repeated("00", 2048);
    let text = [Part::Text("01000100000100"), widths];
    parts_are_answered(
        &rt,
        alloc,
        &[Part::Text("enc 1x plain 0*65536")],
        4096,
        &text,
    )?;
    let line = [Part::Text("dec 1x 01000100000100"), widths];
    let values = [Part::Text("plain "), Part::Counted(0, 0, 65_536)];
    parts_are_answered(&rt, alloc, &line, 4096, &values)?;
    // 2,048 blocks of 256 values, from 0 on.
    let line = [Part::Text("dec 8x 01020800000800"), widths];
    let values = [Part::Text("strict "), Part::Counted(0, 1, 524_288)];
    parts_are_answered(&rt, alloc, &line, 100_000, &values)?;
    Ok(())
}
