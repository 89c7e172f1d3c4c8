//! Chains. The expected widths, bytes and values were worked by hand from the layout of the bits, and the ones of a block of each width
//! are from `oracle`.

ghost use Rattle.std.specs.Prelude.{◌*◌, ◌≤◌, All, length, sum};

use super::blocks::{all_bytes_are, all_values_are};
use super::oracle::{KINDS, block_of, laid, numbers};
use bitpack::chain::{pack_all, unpack_all};
use bitpacking::{BitPacker, BitPacker1x, BitPacker4x, BitPacker8x, Kind};
use std::process::Abort;

/// Items: the first go on from `previous` in steps, modulo 2 ^ 32. The others hold 9.
fn rising<const N: usize>(count: usize, previous: u32, step: u32) -> [u32; N] {
    let mut value = previous;
    let mut slots = [9; N];
    for slot in slots.iter_mut().take(count) {
        value = value.wrapping_add(step);
        *slot = value;
    }
    slots
}

/// Packs a chain, and returns the number of bytes: without a contract, so that its callers are short to prove.
fn packed<P: BitPacker>(
    rt: &impl Abort,
    packer: &P,
    kind: Kind,
    values: &[u32],
    widths: &mut [u8],
    out: &mut [u8],
) -> usize {
    assert!(rt; widths.len() <= 33);
    assert!(rt; values.len() == P::BLOCK_LEN * widths.len());
    assert!(rt; 4 * values.len() <= out.len());
    pack_all(packer, kind, values, widths, out)
}

/// Unpacks a chain, and returns the number of bytes read.
fn unpacked<P: BitPacker>(
    packer: &P,
    kind: Kind,
    widths: &[u8],
    bytes: &[u8],
    values: &mut [u32],
) -> usize
    requires widths { All (λ width. width ≤ 32) widths.now }
    requires bytes { 4 * P.lanes * sum widths.now ≤ length bytes.now }
    requires room { P.BLOCK_LEN * length widths.now ≤ length values.old }
{
    unpack_all(packer, kind, widths, bytes, values)
}

/// Packs a chain, and unpacks the bytes that were written; returns their number.
fn there_and_back<P: BitPacker>(
    rt: &impl Abort,
    packer: &P,
    kind: Kind,
    values: &[u32],
    widths: &mut [u8],
    out: &mut [u8],
    back: &mut [u32],
) -> usize {
    assert!(rt; widths.len() <= 33);
    assert!(rt; values.len() == P::BLOCK_LEN * widths.len());
    assert!(rt; 4 * values.len() <= out.len());
    assert!(rt; values.len() <= back.len());
    let size = pack_all(packer, kind, values, widths, out);
    let read = unpack_all(packer, kind, widths, &out[..size], back);
    assert!(rt; read == size);
    size
}

#[test]
fn differences_of_1_and_then_of_2(rt: HostRuntime) {
    let mut values = [0; 64];
    let (ones, twos) = values.split_at_mut(32);
    ones.copy_from_slice(&rising::<32>(32, 0, 1));
    twos.copy_from_slice(&rising::<32>(32, 32, 2));
    differences_are_packed(&rt, &values);
}

/// The widths, bytes and values of two blocks of one lane.
fn differences_are_packed(rt: &impl Abort, values: &[u32; 64]) {
    let packer = BitPacker1x::new();
    let kind = Kind::Sorted(0);
    let bytes = [255, 255, 255, 255, 170, 170, 170, 170, 170, 170, 170, 170];
    let mut widths = [99; 2];
    let mut out = [9; 256];
    let size = packed(rt, &packer, kind, values, &mut widths, &mut out);
    assert!(rt; size == 12);
    assert!(rt; widths == [1, 2]);
    assert!(rt; out.starts_with(&bytes));
    assert!(rt; all_bytes_are(&out[12..], 9));
    let mut back = [9; 64];
    let read = unpacked(&packer, kind, &[1, 2], &bytes, &mut back);
    assert!(rt; read == 12);
    assert!(rt; back == *values);
}

/// A chain of no blocks is packed and unpacked.
fn no_blocks<P: BitPacker>(rt: &impl Abort, packer: &P, kind: Kind) {
    let mut out = [9; 2];
    let size = packed(rt, packer, kind, &[], &mut [], &mut out);
    assert!(rt; size == 0);
    assert!(rt; out == [9; 2]);
    let mut values = [9; 2];
    let read = unpacked(packer, kind, &[], &[1, 2], &mut values);
    assert!(rt; read == 0);
    assert!(rt; values == [9; 2]);
}

/// No blocks of each kind.
fn no_blocks_of_each_kind<P: BitPacker>(rt: &impl Abort, packer: &P) {
    no_blocks(rt, packer, Kind::Plain);
    no_blocks(rt, packer, Kind::Sorted(5));
    no_blocks(rt, packer, Kind::StrictlySorted(None));
    no_blocks(rt, packer, Kind::StrictlySorted(Some(5)));
}

/// 0, 1, 2, .. after `u32::MAX`.
fn two_blocks_of_width_0<P: BitPacker>(rt: &impl Abort, packer: &P) {
    let kind = Kind::StrictlySorted(None);
    let values: [u32; 513] = rising(2 * P::BLOCK_LEN, u32::MAX, 1);
    let mut widths = [99; 2];
    let mut out = [9; 2048];
    let block = &values[..2 * P::BLOCK_LEN];
    let size = packed(rt, packer, kind, block, &mut widths, &mut out);
    assert!(rt; size == 0);
    assert!(rt; widths == [0, 0]);
    assert!(rt; all_bytes_are(&out, 9));
    let mut back = [9; 513];
    let read = unpacked(packer, kind, &[0, 0], &[], &mut back);
    assert!(rt; read == 0);
    assert!(rt; back == values);
}

/// Ones, in two bits each.
fn a_width_above_the_least<P: BitPacker>(rt: &impl Abort, packer: &P) {
    let ones: [u32; 257] = rising(P::BLOCK_LEN, 1, 0);
    let mut values = [9; 257];
    let size = unpacked(packer, Kind::Plain, &[2], &[0x55; 64], &mut values);
    assert!(rt; size == P::BLOCK_LEN / 4);
    assert!(rt; values == ones);
}

/// The value with this code.
fn value_of(kind: Kind, previous: u32, code: u32) -> u32 {
    match kind {
        Kind::Plain => code,
        Kind::Sorted(_) => previous.wrapping_add(code),
        Kind::StrictlySorted(_) => previous.wrapping_add(code).wrapping_add(1),
    }
}

/// Three blocks, of the codes 1, 2 and 5. The items after them hold 9.
fn blocks_of_three_codes(len: usize, kind: Kind, start: u32) -> [u32; 769] {
    let mut values = [9; 769];
    let mut value = start;
    for (index, slot) in values.iter_mut().take(len.saturating_mul(3)).enumerate() {
        let code = if index < len {
            1
        } else if index - len < len {
            2
        } else {
            5
        };
        value = value_of(kind, value, code);
        *slot = value;
    }
    values
}

/// The words of the three codes, each once for each lane, and after them 9.
///
/// Each lane has one word of width 1, two of width 2 and three of width 3; the bits of the last are `101` again and again.
fn has_words_of_three_codes(rt: &impl Abort, out: &[u8], lanes: usize) {
    let mut rest = out;
    for word in [
        [0xff, 0xff, 0xff, 0xff],
        [0xaa, 0xaa, 0xaa, 0xaa],
        [0xaa, 0xaa, 0xaa, 0xaa],
        [0x6d, 0xdb, 0xb6, 0x6d],
        [0xdb, 0xb6, 0x6d, 0xdb],
        [0xb6, 0x6d, 0xdb, 0xb6],
    ] {
        rest = after_words(rt, rest, &word, lanes);
    }
    assert!(rt; all_bytes_are(rest, 9));
}

/// What follows the repeated word.
fn after_words<'a>(rt: &impl Abort, bytes: &'a [u8], word: &[u8], count: usize) -> &'a [u8] {
    let mut rest = bytes;
    for _ in 0..count {
        assert!(rt; rest.starts_with(word));
        rest = rest.get(4..).unwrap_or(&[]);
    }
    rest
}

/// The three blocks as a chain.
fn three_blocks<P: BitPacker>(rt: &impl Abort, packer: &P, kind: Kind, start: u32) {
    let values = blocks_of_three_codes(P::BLOCK_LEN, kind, start);
    let mut widths = [99; 3];
    let mut out = [9; 3072];
    let blocks = &values[..3 * P::BLOCK_LEN];
    let size = packed(rt, packer, kind, blocks, &mut widths, &mut out);
    assert!(rt; size == 3 * P::BLOCK_LEN / 4);
    assert!(rt; widths == [1, 2, 3]);
    has_words_of_three_codes(rt, &out, P::BLOCK_LEN / 32);
    let mut back = [9; 769];
    let read = unpacked(packer, kind, &[1, 2, 3], &out, &mut back);
    assert!(rt; read == size);
    assert!(rt; back == values);
}

/// Writes the items from this index on.
fn put<T: Copy>(slots: &mut [T], index: usize, items: &[T]) {
    for (slot, item) in slots.iter_mut().skip(index).zip(items) {
        *slot = *item;
    }
}

/// The kind that goes on from a value.
fn going_on(kind: Kind, last: u32) -> Kind {
    match kind {
        Kind::Plain => Kind::Plain,
        Kind::Sorted(_) => Kind::Sorted(last),
        Kind::StrictlySorted(_) => Kind::StrictlySorted(Some(last)),
    }
}

/// Blocks of each width from 0 to 32, with numbers of as many bits as their codes, and their bytes. Returns the number of bytes.
fn put_blocks<P: BitPacker>(kind: Kind, values: &mut [u32], bytes: &mut [u8]) -> usize {
    let len = P::BLOCK_LEN;
    let mut block_kind = kind;
    let mut end = 0usize;
    for width in 0..33u8 {
        let codes = numbers::<256>(width);
        let block = block_of(block_kind, &codes[..len]);
        put(values, width as usize * len, &block[..len]);
        let body = laid(&codes[..len], len / 32, width);
        let size = P::compressed_block_size(width);
        put(bytes, end, body.get(..size).unwrap_or(&[]));
        end = end.wrapping_add(size);
        block_kind = going_on(block_kind, block[len - 1]);
    }
    end
}

/// Whether the widths are 0, 1, 2, ..
fn are_in_turn(widths: &[u8]) -> bool {
    for (index, width) in widths.iter().enumerate() {
        if *width as usize != index {
            return false;
        }
    }
    true
}

/// A block of each width, packed as a chain.
fn a_block_of_each_width<P: BitPacker>(rt: &impl Abort, packer: &P, kind: Kind) {
    let mut values = [9; 8451];
    let mut bytes = [9; 33_856];
    let end = put_blocks::<P>(kind, &mut values, &mut bytes);
    let mut widths = [99; 33];
    let mut out = [9; 33_856];
    let mut back = [9; 8451];
    let blocks = &values[..33 * P::BLOCK_LEN];
    let size = there_and_back(rt, packer, kind, blocks, &mut widths, &mut out, &mut back);
    assert!(rt; size == end);
    assert!(rt; are_in_turn(&widths));
    assert!(rt; out == bytes);
    assert!(rt; back == values);
}

pub(super) fn chains<P: BitPacker>(rt: &impl Abort, packer: &P) {
    no_blocks_of_each_kind(rt, packer);
    two_blocks_of_width_0(rt, packer);
    a_width_above_the_least(rt, packer);
    three_blocks(rt, packer, Kind::Plain, 0);
    three_blocks(rt, packer, Kind::Sorted(7), 7);
    three_blocks(rt, packer, Kind::Sorted(u32::MAX), u32::MAX);
    three_blocks(rt, packer, Kind::StrictlySorted(Some(7)), 7);
    three_blocks(rt, packer, Kind::StrictlySorted(None), u32::MAX);
    for kind in KINDS {
        a_block_of_each_width(rt, packer, kind);
    }
}

#[test]
fn chains_of_1x(rt: HostRuntime) {
    chains(&rt, &BitPacker1x::new());
}

#[test]
fn chains_of_4x(rt: HostRuntime) {
    chains(&rt, &BitPacker4x::new());
    chains(&rt, &BitPacker4x::scalar());
}

#[test]
fn chains_of_8x(rt: HostRuntime) {
    chains(&rt, &BitPacker8x::new());
    chains(&rt, &BitPacker8x::scalar());
}

/// The example of the README: 70 documents, every third number from 0 on. Each strict code is 2 but the first, which is 0.
#[test]
fn a_posting_list_by_hand(rt: HostRuntime) {
    let documents = rising::<70>(70, u32::MAX - 2, 3);
    let (blocks, tail) = documents.split_at(64);
    let mut expected = [0xaa; 16];
    expected[0] = 0xa8;
    two_blocks_are(&rt, blocks, &expected);
    assert!(rt; tail.len() == 6);
}

/// Two blocks of one lane, of width 2, have these bytes.
fn two_blocks_are(rt: &impl Abort, blocks: &[u32], expected: &[u8]) {
    let packer = BitPacker1x::new();
    let mut widths = [0; 2];
    let mut bytes = [0; 256];
    let mut numbers = [0; 64];
    let start = Kind::StrictlySorted(None);
    let written = there_and_back(
        rt,
        &packer,
        start,
        blocks,
        &mut widths,
        &mut bytes,
        &mut numbers,
    );
    assert!(rt; written == 16);
    assert!(rt; widths == [2, 2]);
    assert!(rt; bytes[..16] == expected[..]);
    assert!(rt; numbers[..] == blocks[..]);
}
