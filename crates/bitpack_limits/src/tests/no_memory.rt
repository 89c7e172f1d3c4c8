//! Blocks and chains allocate nothing: they work as ever when no memory is left.

use super::blocks::{counted_calls, every_width};
use super::chains::chains;
use super::memory::{grow_stack, take_all};
use super::worked::every_packer;
use bitpacking::{BitPacker, BitPacker1x, BitPacker4x, BitPacker8x, Counted};
use std::process::Abort;

/// Each call of `bitpacking` and of `chain`.
fn blocks_and_chains<P: Counted>(rt: &impl Abort, packer: &P) {
    every_packer(rt, packer);
    every_width(rt, packer);
    counted_calls(rt, packer);
    chains(rt, packer);
}

fn every_packer_and_kernel(rt: &impl Abort) {
    blocks_and_chains(rt, &BitPacker1x::new());
    blocks_and_chains(rt, &BitPacker4x::new());
    blocks_and_chains(rt, &BitPacker4x::scalar());
    blocks_and_chains(rt, &BitPacker8x::new());
    blocks_and_chains(rt, &BitPacker8x::scalar());
}

#[test]
fn blocks_and_chains_need_no_memory(rt: HostRuntime) {
    grow_stack(&rt);
    let taken = take_all(&rt, rt.alloc());
    let byte: Result<Vec<u8>, _> = Vec::with_capacity(rt.alloc(), 1);
    let refused = byte.is_err();
    every_packer_and_kernel(&rt);
    drop(taken);
    assert!(rt; refused);
}
