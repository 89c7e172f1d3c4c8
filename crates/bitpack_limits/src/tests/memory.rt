//! A machine with no memory left, for calls that have to return without.

use crate::tests::checks::room_for;
use std::alloc::Global;
use std::process::Abort;

/// Makes the stack as large as the calls of a test need, since it cannot grow once all memory is allocated. Each test that
/// allocates all memory calls it first.
#[inline(never)]
pub(super) fn grow_stack(rt: &impl Abort) {
    let mut slots = [0u32; 262_144];
    let mut value = 1u32;
    for slot in slots.iter_mut() {
        value = value.wrapping_mul(1_664_525).wrapping_add(1_013_904_223);
        *slot = value;
    }
    let mut sum: u32 = 0;
    for slot in slots.iter().rev() {
        sum = sum.wrapping_add(*slot);
    }
    // The sum is used, so that the stack is too.
    assert!(rt; sum != 1);
}

/// Allocates all the memory that there is, in blocks of falling size, until even a byte is refused.
pub(super) fn take_all(rt: &impl Abort, alloc: Global) -> Vec<Vec<u8>> {
    let mut blocks = room_for(rt, alloc, 100_000);
    let mut size = 1usize << 46;
    for _ in 0..200_000u32 {
        if size == 0 {
            break;
        }
        match Vec::with_capacity(alloc, size) {
            Ok(block) => {
                let Ok(()) = blocks.push(block) else {
                    break;
                };
            }
            Err(_) => size /= 2,
        }
    }
    blocks
}
