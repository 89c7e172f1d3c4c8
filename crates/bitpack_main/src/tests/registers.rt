//! Registers: each method once at each type, through the bound. The expected words and bytes were worked by hand.

use bitpacking_register::Register;
use std::process::Abort;
use std::simd::prelude::*;

fn has_words<R: Register>(rt: &impl Abort, register: R, words: &[u32; 8]) {
    let mut out = [9; 8];
    register.to_words(&mut out[..R::LANES]);
    assert!(rt; out[..R::LANES] == words[..R::LANES]);
}

fn has_bytes<R: Register>(rt: &impl Abort, register: R, bytes: &[u8; 32]) {
    let mut out = [9; 32];
    register.to_bytes(&mut out[..4 * R::LANES]);
    assert!(rt; out[..4 * R::LANES] == bytes[..4 * R::LANES]);
}

fn moves<R: Register>(rt: &impl Abort, register: R, words: &[u32; 8], bytes: &[u8; 32]) {
    has_words(rt, register, words);
    has_bytes(rt, register, bytes);
    has_words(rt, R::from_bytes(&bytes[..4 * R::LANES]), words);
}

fn sums_up<R: Register>(rt: &impl Abort, register: R, words: &[u32; 8], sums: &[u32; 8]) {
    let three = R::splat(3);
    let summed = R::integrate(three, register);
    has_words(rt, summed, sums);
    has_words(rt, R::delta(summed, three), words);
}

fn calculates<R: Register>(rt: &impl Abort, register: R, words: &[u32; 8]) {
    let one = R::splat(1);
    assert_eq!(rt; register.or(one).and(one).or_lanes(), 1);
    assert_eq!(rt; register.sub(register).or_lanes(), 0);
    has_words(rt, register.add(register).sub(register), words);
}

// The first lane holds 0x0403_0201.
fn shifts<R: Register>(rt: &impl Abort, register: R) {
    let mut out = [9; 8];
    register.shift_left(8).to_words(&mut out[..R::LANES]);
    assert_eq!(rt; out[0], 0x0302_0100);
    register.shift_right(8).to_words(&mut out[..R::LANES]);
    assert_eq!(rt; out[0], 0x0004_0302);
}

fn check<R: Register>(rt: &impl Abort, words: &[u32; 8], bytes: &[u8; 32], sums: &[u32; 8]) {
    let register = R::from_words(&words[..R::LANES]);
    moves(rt, register, words, bytes);
    sums_up(rt, register, words, sums);
    calculates(rt, register, words);
    shifts(rt, register);
}

#[test]
fn each_register(rt: HostRuntime) {
    let words = [
        0x0403_0201,
        7,
        0xffff_ffff,
        1,
        0x8000_0000,
        0x8000_0000,
        5,
        0,
    ];
    let bytes = [
        1, 2, 3, 4, 7, 0, 0, 0, 255, 255, 255, 255, 1, 0, 0, 0, 0, 0, 0, 128, 0, 0, 0, 128, 5, 0,
        0, 0, 0, 0, 0, 0,
    ];
    let sums = [
        0x0403_0204,
        0x0403_020b,
        0x0403_020a,
        0x0403_020b,
        0x8403_020b,
        0x0403_020b,
        0x0403_0210,
        0x0403_0210,
    ];
    check::<u32>(&rt, &words, &bytes, &sums);
    check::<[u32; 4]>(&rt, &words, &bytes, &sums);
    check::<[u32; 8]>(&rt, &words, &bytes, &sums);
    check::<u32x4>(&rt, &words, &bytes, &sums);
    check::<u32x8>(&rt, &words, &bytes, &sums);
}
