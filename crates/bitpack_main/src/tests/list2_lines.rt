//! Lines for packed lists of version 2: a search, and the way from version 1. The single lists were worked by hand.

use super::running::{each_is_answered, line_is_answered, none_is_a_line, run_over_bytes};
use super::texts::{Part, parts_are_answered};
use bitpack::{ListKind, list, list2};
use bitpacking::{BitPacker, BitPacker1x, BitPacker4x, BitPacker8x};
use std::alloc::{AllocError, Global};
use std::process::Abort;
use std::test::Fail;

/// Lines with their answers: the position and the value, or none.
fn seek_lines() -> [(&'static str, &'static str); 7] {
    [
        (
            "seek 1x 31 0202012100000000000000001f00000020000000",
            "31 31",
        ),
        (
            "seek 1x 32 0202012100000000000000001f00000020000000",
            "32 32",
        ),
        (
            "seek 1x 33 0202012100000000000000001f00000020000000",
            "none",
        ),
        (
            "seek 1x 33 02010140000000010000000020000000020100000060000000ffffffffaaaaaaaaaaaaaaaa",
            "32 34",
        ),
        (
            "seek 1x 4294967295 02010120000000010000000020000000ffffffff",
            "none",
        ),
        ("seek 1x 0 02010100000000", "none"),
        ("seek 8s 5 020108020000000500000005000000", "0 5"),
    ]
}

/// A plain list is refused for its kind, after the faults of its bytes.
fn refused_seeks() -> [(&'static str, &'static str); 6] {
    [
        ("seek 1x 0 02000100000000", "refused 23"),
        ("seek 1x 0 0200010000000000", "refused 31"),
        ("seek 1x 0 01000100000000", "refused 22"),
        ("seek 1x 0 -", "refused 21"),
        ("seek 4x 0 02010100000000", "refused 24"),
        ("seek 1x 5 020201020000000500000005000000", "refused 30"),
    ]
}

/// No line of the language.
fn no_seeks() -> [&'static str; 7] {
    [
        "seek 1x 4294967296 02010100000000",
        "seek 1x 00 02010100000000",
        "seek 1x - 02010100000000",
        "seek 1x 0",
        "seek 1x 02010100000000 0",
        "seek 1x 0 02010100000000 0",
        "seek 0 02010100000000",
    ]
}

#[test]
fn worked_seek_lines(rt: HostRuntime) {
    each_is_answered(&rt, rt.alloc(), &seek_lines(), b"", 4096);
    each_is_answered(&rt, rt.alloc(), &refused_seeks(), b"", 4096);
    none_is_a_line(&rt, rt.alloc(), &no_seeks(), b"", 4096);
}

/// The line of a verb with these bytes.
fn line_of(alloc: Global, verb: &str, name: &str, bytes: &[u8]) -> Result<String, Fail> {
    let digits = hex::encode(alloc, bytes)?;
    Ok(format!(in alloc; "{verb} {name} {digits}")?)
}

/// Values in order, of three blocks and a tail of five: steps of 1, and now and then one of 1,000.
fn rising<P: BitPacker>(alloc: Global) -> Result<Vec<u32>, AllocError> {
    let mut values = Vec::new(alloc);
    for index in 0..3 * P::BLOCK_LEN as u32 + 5 {
        values.push(index.wrapping_add(index / 50 * 999))?;
    }
    Ok(values)
}

/// The bytes of a list in version 1 and in version 2.
fn encode_both<P: BitPacker>(
    rt: &impl Abort,
    packer: &P,
    kind: ListKind,
    values: &[u32],
    old: &mut Vec<u8>,
    new: &mut Vec<u8>,
) {
    assert!(rt; list::encode(packer, kind, values, old) == Ok(()));
    assert!(rt; list2::encode(packer, kind, values, new) == Ok(()));
}

/// The line `upgrade` converts a version 1 list to version 2.
fn is_upgraded(
    rt: &impl Abort,
    alloc: Global,
    name: &str,
    old: &[u8],
    new: &[u8],
) -> Result<(), Fail> {
    let line = line_of(alloc, "upgrade", name, old)?;
    let wanted = hex::encode(alloc, new)?;
    line_is_answered(rt, alloc, line.as_str(), b"", 4096, wanted.as_str());
    Ok(())
}

/// The two lines have one answer, which is no refusal.
fn have_one_answer(rt: &impl Abort, alloc: Global, line: &str, other: &str) {
    let mut read = Vec::new(alloc);
    let outcome = run_over_bytes(alloc, line.as_bytes(), &mut read);
    assert!(rt; outcome == Ok(()));
    assert!(rt; !read.starts_with(b"refused"));
    let mut other_read = Vec::new(alloc);
    let outcome = run_over_bytes(alloc, other.as_bytes(), &mut other_read);
    assert!(rt; outcome == Ok(()));
    assert!(rt; read.as_slice() == other_read.as_slice());
}

/// The line `dec` reads both versions alike.
fn are_read_alike(
    rt: &impl Abort,
    alloc: Global,
    name: &str,
    old: &[u8],
    new: &[u8],
) -> Result<(), Fail> {
    let line = line_of(alloc, "dec", name, new)?;
    let other = line_of(alloc, "dec", name, old)?;
    have_one_answer(rt, alloc, line.as_str(), other.as_str());
    Ok(())
}

/// A list of three blocks and a tail.
fn a_list_is_upgraded<P: BitPacker>(
    rt: &impl Abort,
    alloc: Global,
    packer: &P,
    name: &str,
    kind: ListKind,
) -> Result<(), Fail> {
    let values = rising::<P>(alloc)?;
    let (mut old, mut new) = (Vec::new(alloc), Vec::new(alloc));
    encode_both(rt, packer, kind, &values, &mut old, &mut new);
    is_upgraded(rt, alloc, name, &old, &new)?;
    are_read_alike(rt, alloc, name, &old, &new)
}

/// Each kind.
fn each_is_upgraded<P: BitPacker>(
    rt: &impl Abort,
    alloc: Global,
    packer: &P,
    name: &str,
) -> Result<(), Fail> {
    for kind in [ListKind::Plain, ListKind::Sorted, ListKind::StrictlySorted] {
        a_list_is_upgraded(rt, alloc, packer, name, kind)?;
    }
    Ok(())
}

#[test]
fn lists_of_each_packer_are_upgraded(rt: HostRuntime) -> Result<(), Fail> {
    each_is_upgraded(&rt, rt.alloc(), &BitPacker1x::new(), "1x")?;
    each_is_upgraded(&rt, rt.alloc(), &BitPacker4x::new(), "4x")?;
    each_is_upgraded(&rt, rt.alloc(), &BitPacker4x::scalar(), "4s")?;
    each_is_upgraded(&rt, rt.alloc(), &BitPacker8x::new(), "8x")?;
    each_is_upgraded(&rt, rt.alloc(), &BitPacker8x::scalar(), "8s")
}

/// A line of 65,516 bytes: 3,638 blocks of zeros, whose skip entries are nine bytes of zeros, and 5 at the position
/// 931,328.
#[test]
fn a_search_in_a_long_line(rt: HostRuntime) -> Result<(), Fail> {
    let line = [
        Part::Text("seek 8x 5 02010801360e00"),
        Part::Repeated("00", 9 * 3638),
        Part::Text("05000000"),
    ];
    parts_are_answered(&rt, rt.alloc(), &line, 4096, &[Part::Text("931328 5")])?;
    Ok(())
}
