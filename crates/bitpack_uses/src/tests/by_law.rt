//! The uses of laws, once each. The expected widths and bytes were worked by hand from the layout of the bits.

use super::checks::{is_true, push_bytes, same_bytes, same_number, same_values};
use crate::{answered, by_law, by_list_law, untrusted};
use bitpack::ListKind;
use bitpacking::{BitPacker, BitPacker1x, BitPacker4x};
use std::alloc::Global;
use std::process::Abort;

fn at_one_width(rt: &impl Abort) {
    let (mut bytes, mut others) = ([9; 128], [9; 128]);
    let packer = BitPacker1x::new();
    let width = by_law::at_one_width(&packer, &[1; 32], &[2; 32], &mut bytes, &mut others);
    same_number(rt, width as usize, 2, "width");
    same_bytes(rt, &bytes[..8], &[0x55; 8]);
    same_bytes(rt, &others[..8], &[0xaa; 8]);
}

fn codes_in(rt: &impl Abort) {
    let mut values = [9; 32];
    by_law::codes_in(&BitPacker1x::new(), &[0x55; 8], 2, &mut values);
    same_values(rt, &values, &[1; 32]);
}

fn packed_again(rt: &impl Abort) {
    let (mut values, mut again) = ([9; 32], [9; 8]);
    by_law::packed_again(&BitPacker1x::new(), &[0xaa; 8], 2, &mut values, &mut again);
    same_bytes(rt, &again, &[0xaa; 8]);
}

#[test]
fn blocks(rt: HostRuntime) {
    at_one_width(&rt);
    codes_in(&rt);
    packed_again(&rt);
    // `None` is before 0, and every further code is 2 ^ 32 - 1.
    let width = by_law::first_width(&BitPacker1x::new(), &[0; 32]);
    same_number(&rt, width as usize, 32, "width");
}

fn values_by_two(rt: &impl Abort) {
    let (packer, other) = (BitPacker4x::new(), BitPacker4x::scalar());
    let (mut values, mut others) = ([9; 128], [9; 128]);
    by_law::unpacked_by_two(&packer, &other, &[0xff; 16], 1, &mut values, &mut others);
    same_values(rt, &values, &others);
    same_values(rt, &values, &[1; 128]);
}

fn width_by_two(rt: &impl Abort) {
    let (packer, other) = (BitPacker4x::new(), BitPacker4x::scalar());
    let widths = by_law::width_by_two(&packer, &other, &[1; 128]);
    is_true(rt, widths == (1, 1), "width 1");
}

fn encoding_by_two(rt: &impl Abort, alloc: Global) {
    let (packer, other) = (BitPacker4x::new(), BitPacker4x::scalar());
    let encodings = by_list_law::encoding_by_two(alloc, &packer, &other, ListKind::Plain, &[5]);
    let (encoding, same) = encodings.expect(rt, "two encodings");
    same_bytes(rt, &encoding, &[1, 0, 4, 1, 0, 0, 0, 5, 0, 0, 0]);
    same_bytes(rt, &encoding, &same);
}

fn encoding_by_upgrade(rt: &impl Abort, alloc: Global) {
    let packer = BitPacker4x::new();
    let encodings = by_list_law::encoding_by_upgrade(alloc, &packer, ListKind::Plain, &[5]);
    let (encoding, same) = encodings.expect(rt, "two encodings");
    same_bytes(rt, &encoding, &[2, 0, 4, 1, 0, 0, 0, 5, 0, 0, 0]);
    same_bytes(rt, &encoding, &same);
}

#[test]
fn two_packers(rt: HostRuntime) {
    values_by_two(&rt);
    width_by_two(&rt);
    encoding_by_two(&rt, rt.alloc());
    encoding_by_upgrade(&rt, rt.alloc());
}

fn is_encoding(rt: &impl Abort, alloc: Global, bytes: &[u8], expected: bool) {
    let found = untrusted::is_encoding(alloc, &BitPacker1x::new(), bytes);
    is_true(rt, found.expect(rt, "memory") == expected, "an encoding");
}

fn is_encoding2(rt: &impl Abort, bytes: &[u8], expected: bool) {
    let found = untrusted::is_encoding2(&BitPacker1x::new(), bytes);
    is_true(rt, found == expected, "an encoding of version 2");
}

fn answers(rt: &impl Abort, alloc: Global) {
    let mut answers = Vec::new(alloc);
    push_bytes(rt, &mut answers, b"# ");
    let outcome = answered::answer_lines(alloc, b"size 1x 3\n?", &mut answers);
    is_true(rt, outcome.is_ok(), "the lines are answered");
    same_bytes(rt, &answers, b"# 12\nrefused 1\n");
}

#[test]
fn encodings_and_lines(rt: HostRuntime) {
    is_encoding(&rt, rt.alloc(), &[1, 0, 1, 0, 0, 0, 0], true);
    is_encoding(&rt, rt.alloc(), &[1, 0, 1, 0, 0, 0], false);
    is_encoding2(&rt, &[2, 0, 1, 0, 0, 0, 0], true);
    is_encoding2(&rt, &[2, 0, 1, 0, 0, 0], false);
    answers(&rt, rt.alloc());
}
