//! What the bench expects, by a second, plain program: numbers by one rule, the blocks whose codes they are, and single bits laid
//! where the format says. It computes by sums modulo 2 ^ 32 and by bits, and knows no register.

use bitpacking::Kind;

/// The most bytes of a block: 256 codes of 32 bits.
pub(super) const LONGEST: usize = 1024;

/// Every kind, each with the starts at which something ends.
pub(super) const KINDS: [Kind; 9] = [
    Kind::Plain,
    Kind::Sorted(0),
    Kind::Sorted(1),
    Kind::Sorted(u32::MAX),
    Kind::StrictlySorted(None),
    Kind::StrictlySorted(Some(0)),
    Kind::StrictlySorted(Some(1)),
    Kind::StrictlySorted(Some(u32::MAX)),
    Kind::StrictlySorted(Some(7)),
];

/// The number after this one. The one before the first is 1.
pub(super) fn next(x: u32) -> u32 {
    x.wrapping_mul(1_664_525).wrapping_add(1_013_904_223)
}

/// The numbers from the first on, each cut to its highest bits.
pub(super) fn numbers<const N: usize>(width: u8) -> [u32; N] {
    let mut x = 1;
    let mut slots = [0; N];
    for slot in slots.iter_mut() {
        x = next(x);
        *slot = if width == 0 {
            0
        } else {
            x >> (32 - width.min(32))
        };
    }
    slots
}

/// The numbers of 8 bits, as bytes.
pub(super) fn bytes<const N: usize>() -> [u8; N] {
    let mut x = 1;
    let mut slots = [0; N];
    for slot in slots.iter_mut() {
        x = next(x);
        *slot = (x >> 24) as u8;
    }
    slots
}

/// The block whose codes of this kind are these.
pub(super) fn block_of(kind: Kind, codes: &[u32]) -> [u32; 256] {
    let (mut value, step) = match kind {
        Kind::Plain => (0, 0),
        Kind::Sorted(initial) => (initial, 0),
        Kind::StrictlySorted(initial) => (initial.unwrap_or(u32::MAX), 1),
    };
    let mut block = [0; 256];
    for (slot, code) in block.iter_mut().zip(codes) {
        value = match kind {
            Kind::Plain => *code,
            _ => value.wrapping_add(*code).wrapping_add(step),
        };
        *slot = value;
    }
    block
}

/// How many bits the greatest of the codes has.
pub(super) fn least_width(codes: &[u32]) -> u8 {
    let mut least = 0;
    for width in 1..33u8 {
        if codes.iter().any(|code| code >> (width - 1) & 1 == 1) {
            least = width;
        }
    }
    least
}

/// The bit of the bytes that bit `j` of code `k` is: bit `p` of its lane's words, which are `lanes` words apart.
fn slot(lanes: usize, width: usize, k: usize, j: usize) -> usize {
    let lanes = lanes.max(1);
    let p = (k / lanes).wrapping_mul(width).wrapping_add(j);
    let word = lanes.wrapping_mul(p / 32).wrapping_add(k % lanes);
    word.wrapping_mul(32).wrapping_add(p % 32)
}

/// The bytes of the codes, bit by bit.
pub(super) fn laid(codes: &[u32], lanes: usize, width: u8) -> [u8; LONGEST] {
    let mut bytes = [0; LONGEST];
    for (k, code) in codes.iter().enumerate() {
        for j in 0..width.min(32) {
            let bit = slot(lanes, width as usize, k, j as usize);
            if code >> j & 1 == 1
                && let Some(byte) = bytes.get_mut(bit / 8)
            {
                *byte |= 1u8 << (bit % 8);
            }
        }
    }
    bytes
}

/// The codes of the bytes, bit by bit.
pub(super) fn codes_of(bytes: &[u8], lanes: usize, width: u8) -> [u32; 256] {
    let mut codes = [0; 256];
    for (k, code) in codes.iter_mut().enumerate() {
        for j in 0..width.min(32) {
            let bit = slot(lanes, width as usize, k, j as usize);
            if let Some(byte) = bytes.get(bit / 8)
                && byte >> (bit % 8) & 1 == 1
            {
                *code |= 1u32 << j;
            }
        }
    }
    codes
}

#[test]
fn the_first_numbers(rt: HostRuntime) {
    assert_eq!(rt; numbers(32), [1_015_568_748, 1_586_005_467]);
    assert_eq!(rt; numbers(4), [3, 5]);
    assert_eq!(rt; numbers(0), [0, 0]);
    assert_eq!(rt; bytes(), [0x3c, 0x5e]);
}
