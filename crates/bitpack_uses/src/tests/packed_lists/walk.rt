//! The first fault of a version 1 list, found by a plain walk over its bytes: the table of refusals in docs/FORMAT.md, line by
//! line. Nothing of the library is called; only the faults have its names.

use bitpack::ListError;
use bitpacking::BitPacker;

/// The first fault of the bytes for this packer, if they have one.
pub(super) fn first_fault<P: BitPacker>(encoding: &[u8]) -> Option<ListError> {
    let [version, kind, lanes, n0, n1, n2, n3, rest @ ..] = encoding else {
        return Some(ListError::Short);
    };
    if *version != 1 {
        return Some(ListError::BadVersion(*version));
    }
    if *kind > 2 {
        return Some(ListError::BadKind(*kind));
    }
    if *lanes as usize != P::BLOCK_LEN / 32 {
        return Some(ListError::WrongLanes(*lanes));
    }
    let mut count = 0usize;
    for byte in [*n3, *n2, *n1, *n0] {
        count = count.wrapping_mul(256).wrapping_add(byte as usize);
    }
    if count > 268_435_456 {
        return Some(ListError::TooLong(count));
    }
    let blocks = count.checked_div(P::BLOCK_LEN).unwrap_or(0);
    let tail = count.checked_rem(P::BLOCK_LEN).unwrap_or(0);
    let tail = tail.wrapping_mul(4);
    if rest.len() < blocks.wrapping_add(tail) {
        return Some(ListError::Short);
    }
    fault_of_blocks(P::BLOCK_LEN / 32, blocks, tail, rest)
}

fn fault_of_blocks(lanes: usize, blocks: usize, tail: usize, bytes: &[u8]) -> Option<ListError> {
    let mut rest = bytes;
    for block in 0..blocks {
        let [width, after @ ..] = rest else {
            return Some(ListError::Short);
        };
        let width = *width;
        if width > 32 {
            return Some(ListError::BadWidth(block, width));
        }
        let size = lanes.wrapping_mul(4).wrapping_mul(width as usize);
        let Some(body) = after.get(..size) else {
            return Some(ListError::Short);
        };
        if bits_of_codes(lanes, width as usize, body) != width as usize {
            return Some(ListError::LooseWidth(block, width));
        }
        rest = after.get(size..).unwrap_or(&[]);
    }
    if rest.len() < tail {
        return Some(ListError::Short);
    }
    if rest.len() > tail {
        return Some(ListError::Trailing);
    }
    None
}

/// How many bits the greatest code of a body has. Each bit of each code is looked up: bit j of the code in a row and a lane is
/// bit `row * width + j` of its lane.
fn bits_of_codes(lanes: usize, width: usize, body: &[u8]) -> usize {
    let mut bits = 0;
    for row in 0..32usize {
        for j in 0..width {
            let p = row.wrapping_mul(width).wrapping_add(j);
            for lane in 0..lanes {
                let word = (p / 32).wrapping_mul(lanes).wrapping_add(lane);
                let index = word.wrapping_mul(4).wrapping_add(p % 32 / 8);
                let byte = body.get(index).copied().unwrap_or(0);
                if byte >> (p % 8) & 1 == 1 && j >= bits {
                    bits = j.wrapping_add(1);
                }
            }
        }
    }
    bits
}
