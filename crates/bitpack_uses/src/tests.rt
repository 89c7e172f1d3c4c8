//! Each use once, and packed lists. The expected bytes and values were worked by hand.

mod by_law;
mod calls;
mod checks;
mod counted;
mod packed_lists;
mod shared_values;

use crate::stored_blocks::{StoredError, read_block, read_chain};
use crate::{by_hand, counts, exact_calls, posting_list, reads, round_trips, sorted_block};
use bitpack::list2::{PackedList, Reads};
use bitpack::{ListError, ListKind};
use bitpacking::{BitPacker, BitPacker1x, BitPacker4x, BitPacker8x, Kind};
use calls::open;
use checks::{is_true, returns, same_bytes, same_number, same_values, same_words};
use std::alloc::Global;
use std::process::Abort;

/// Every third number from 0 on.
fn thirds<const N: usize>() -> [u32; N] {
    let mut value: u32 = 0;
    let mut values = [0; N];
    for item in values.iter_mut() {
        *item = value;
        value = value.wrapping_add(3);
    }
    values
}

#[test]
fn a_posting_list(rt: HostRuntime) {
    let encoding = posting_list::pack(rt.alloc(), &[5, 7]).expect(&rt, "an encoding");
    same_bytes(
        &rt,
        &encoding,
        &[1, 2, 4, 2, 0, 0, 0, 5, 0, 0, 0, 7, 0, 0, 0],
    );
    let documents = posting_list::unpack(rt.alloc(), &encoding).expect(&rt, "documents");
    same_values(&rt, &documents, &[5, 7]);
    let short = encoding.get(..14).unwrap_or(&[]);
    let refused = posting_list::unpack(rt.alloc(), short).err();
    is_true(&rt, refused == Some(ListError::Short), "a missing byte");
}

#[test]
fn by_hand(rt: HostRuntime) {
    let values = thirds();
    assert!(rt; by_hand::block(&values) == values);
    let values = thirds();
    assert!(rt; sorted_block::sorted_block(&values) == values);
    let documents = thirds();
    assert!(rt; by_hand::chain(&documents) == documents);
}

/// The search found this.
fn found(rt: &impl Abort, found: Option<(usize, u32)>, expected: Option<(usize, u32)>) {
    assert_eq!(rt; found, expected);
}

/// Sorted 5, and plain 5, in one lane.
const SORTED: [u8; 11] = [2, 1, 1, 1, 0, 0, 0, 5, 0, 0, 0];

const PLAIN: [u8; 11] = [2, 0, 1, 1, 0, 0, 0, 5, 0, 0, 0];

#[test]
fn exact_calls(rt: HostRuntime) {
    // 5 has 3 bits. A block of one lane has 4 bytes for each bit of its width.
    same_number(&rt, exact_calls::width() as usize, 3, "width");
    same_number(&rt, exact_calls::pack_at_0(), 0, "width 0");
    same_number(&rt, exact_calls::pack_at_1(), 4, "width 1");
    same_number(&rt, exact_calls::pack_at_32(), 128, "width 32");
    same_number(&rt, exact_calls::pack_twos_at_1(), 4, "width 1 of twos");
    same_number(&rt, exact_calls::unpack(), 4, "a block");
    same_number(&rt, exact_calls::pack_chain(), 8, "a chain packed");
    same_number(&rt, exact_calls::unpack_chain(), 12, "a chain unpacked");
    found(&rt, exact_calls::seek(&SORTED, 5), Some((0, 5)));
    found(&rt, exact_calls::seek(&SORTED, 6), None);
    found(&rt, exact_calls::seek(&PLAIN, 5), None);
}

/// Packs every third number, a block as values.
fn round_trip_of_block<P: BitPacker>(rt: &impl Abort, packer: &P, width: usize) {
    let values: [u32; 512] = thirds();
    let mut bytes = [0; 2048];
    let mut unpacked = [0; 512];
    let block = &values[..P::BLOCK_LEN];
    let output = &mut unpacked[..P::BLOCK_LEN];
    let found = round_trips::block(packer, block, &mut bytes, output);
    same_number(rt, found as usize, width, "width");
    same_values(rt, output, block);
}

/// Packs every third number, two blocks as differences lowered by one, of 2 bits each.
fn round_trip_of_chain<P: BitPacker>(rt: &impl Abort, packer: &P, chain_bytes: usize) {
    let values: [u32; 512] = thirds();
    let mut bytes = [0; 2048];
    let mut unpacked = [0; 512];
    let start = Kind::StrictlySorted(None);
    let blocks = &values[..2 * P::BLOCK_LEN];
    let output = &mut unpacked[..2 * P::BLOCK_LEN];
    let size = round_trips::chain(packer, start, blocks, &mut [0; 2], &mut bytes, output);
    same_number(rt, size, chain_bytes, "bytes");
    same_values(rt, output, blocks);
}

fn round_trips_of<P: BitPacker>(rt: &impl Abort, packer: &P, width: usize, chain_bytes: usize) {
    round_trip_of_block(rt, packer, width);
    round_trip_of_chain(rt, packer, chain_bytes);
}

fn round_trip_of_list(rt: &impl Abort, alloc: Global) {
    let values: [u32; 70] = thirds();
    let unpacked = round_trips::list(alloc, &BitPacker1x::new(), ListKind::Sorted, &values);
    same_values(rt, &unpacked.expect(rt, "values"), &values);
}

/// The value at a position.
fn value_at(rt: &impl Abort, alloc: Global, position: usize, expected: Option<u32>) {
    let values: [u32; 70] = thirds();
    let kind = ListKind::StrictlySorted;
    let value = round_trips::value(alloc, &BitPacker1x::new(), kind, &values, position);
    assert_eq!(rt; value.expect(rt, "a value"), expected);
}

/// The first value that is at least the target.
fn searched(rt: &impl Abort, alloc: Global, target: u32, expected: Option<(usize, u32)>) {
    let values: [u32; 70] = thirds();
    let first = round_trips::search(alloc, &BitPacker1x::new(), &values, target);
    found(rt, first.expect(rt, "a search"), expected);
}

#[test]
fn round_trips(rt: HostRuntime) {
    // The greatest values of a block are 93, 381 and 765, of 7, 9 and 10 bits.
    round_trips_of(&rt, &BitPacker1x::new(), 7, 16);
    round_trips_of(&rt, &BitPacker4x::new(), 9, 64);
    round_trips_of(&rt, &BitPacker8x::scalar(), 10, 128);
    round_trip_of_list(&rt, rt.alloc());
    value_at(&rt, rt.alloc(), 31, Some(93));
    value_at(&rt, rt.alloc(), 69, Some(207));
    value_at(&rt, rt.alloc(), 70, None);
    searched(&rt, rt.alloc(), 94, Some((32, 96)));
    searched(&rt, rt.alloc(), 207, Some((69, 207)));
    searched(&rt, rt.alloc(), 208, None);
}

#[test]
fn counted_calls(rt: HostRuntime) {
    let packer = BitPacker4x::scalar();
    let ones = [1; 128];
    let width = packer.num_bits(&ones);
    let mut bytes = [9; 513];
    counts::pack(&packer, Kind::Plain, &ones, &mut bytes, width);
    // One bit per value, each of them set.
    same_bytes(&rt, &bytes[..16], &[0xff; 16]);
    same_bytes(&rt, &bytes[16..], &[9; 497]);
    let mut values = [9; 128];
    counts::unpack(&packer, Kind::Plain, &bytes, &mut values, width);
    same_values(&rt, &values, &ones);
    counts::measure(&packer, Kind::Plain, &ones);
}

/// The blocks are read, or refused.
fn reads(rt: &impl Abort, found: Result<usize, StoredError>, expected: Result<usize, StoredError>) {
    assert_eq!(rt; found, expected);
}

fn reads_block(rt: &impl Abort) {
    let mut values = [9; 65];
    let read = read_block(&BitPacker1x::new(), Kind::Plain, 1, &[0xff; 4], &mut values);
    reads(rt, read, Ok(4));
    same_values(rt, &values[..32], &[1; 32]);
    same_values(rt, &values[32..], &[9; 33]);
}

/// Reads a chain, and has no contract.
fn chain_read(widths: &[u8], bytes: &[u8], values: &mut [u32]) -> Result<usize, StoredError> {
    read_chain(&BitPacker1x::new(), Kind::Sorted(2), widths, bytes, values)
}

fn reads_chain(rt: &impl Abort) {
    let mut values = [9; 65];
    let read = chain_read(&[1, 0], &[0xff; 4], &mut values);
    reads(rt, read, Ok(4));
    same_values(rt, &values[..4], &[3, 4, 5, 6]);
    same_values(rt, &values[31..64], &[34; 33]);
    same_values(rt, &values[64..], &[9]);
}

/// The chain is refused, and the error says this.
fn chain_is_refused(
    rt: &impl Abort,
    alloc: Global,
    (widths, bytes): (&[u8], &[u8]),
    error: StoredError,
    message: &str,
) {
    reads(rt, chain_read(widths, bytes, &mut [9; 65]), Err(error));
    let said = format!(in alloc; "{error}").expect(rt, "memory");
    same_words(rt, said.as_str(), message);
}

#[test]
fn stored_blocks(rt: HostRuntime) {
    reads_block(&rt);
    reads_chain(&rt);
    let wide: (&[u8], &[u8]) = (&[33, 0], &[0; 400]);
    let error = StoredError::WideWidth(33);
    chain_is_refused(&rt, rt.alloc(), wide, error, "width 33 is above 32");
    let short: (&[u8], &[u8]) = (&[1, 1], &[0; 7]);
    let error = StoredError::MissingBytes;
    chain_is_refused(&rt, rt.alloc(), short, error, "bytes are missing");
}

/// The short list comes first.
fn short_first(
    rt: &impl Abort,
    short: &PackedList<'_, BitPacker1x>,
    long: &PackedList<'_, BitPacker4x>,
    out: &mut Vec<u32>,
) {
    if short.kind() == ListKind::Plain || long.kind() == ListKind::Plain {
        assert!(rt; false, "the lists are in order");
        return;
    }
    let (mut one, mut other) = (Reads::new(), Reads::new());
    let outcome = reads::short_first(short, long, out, &mut one, &mut other);
    returns(rt, outcome, Ok(()), &[]);
}

/// The long list comes first.
fn long_first(
    rt: &impl Abort,
    short: &PackedList<'_, BitPacker1x>,
    long: &PackedList<'_, BitPacker4x>,
    out: &mut Vec<u32>,
) {
    if short.kind() == ListKind::Plain || long.kind() == ListKind::Plain {
        assert!(rt; false, "the lists are in order");
        return;
    }
    let (mut one, mut other) = (Reads::new(), Reads::new());
    let outcome = reads::long_first(short, long, out, &mut one, &mut other);
    returns(rt, outcome, Ok(()), &[]);
}

/// Sorted 5 in one lane and in four.
fn two_lengths(rt: &impl Abort, out: &mut Vec<u32>) {
    let long = [2, 1, 4, 1, 0, 0, 0, 5, 0, 0, 0];
    let short = open(&BitPacker1x::new(), &SORTED).expect(rt, "a list");
    let long = open(&BitPacker4x::new(), &long).expect(rt, "a list");
    short_first(rt, &short, &long, out);
    long_first(rt, &short, &long, out);
}

#[test]
fn intersections(rt: HostRuntime) {
    let mut out = Vec::new(rt.alloc());
    let both = exact_calls::intersect(&SORTED, &SORTED, &mut out);
    is_true(&rt, both == Some(()), "two sorted lists");
    let plain = exact_calls::intersect(&SORTED, &PLAIN, &mut out);
    is_true(&rt, plain.is_none(), "the second is plain");
    let plain = exact_calls::intersect(&PLAIN, &SORTED, &mut out);
    is_true(&rt, plain.is_none(), "the first is plain");
    same_values(&rt, &out, &[5]);
    two_lengths(&rt, &mut out);
    same_values(&rt, &out, &[5, 5, 5]);
}
