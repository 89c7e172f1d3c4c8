//! How often calls on lists measure, pack and unpack a block. A packer that counts its calls tells it, since no clause does.

ghost use Rattle.std.proofs.Common.{lit≤, refl, rules};

use super::calls::{decode1, encode1, encode2, open, unpack, upgrade};
use super::checks::{is_true, same_bytes, same_number, same_values, steps, succeeds};
use bitpack::ListKind;
use bitpacking::{BitPacker, BitPacker1x, Kind};
use std::alloc::Global;
use std::cell::Cell;
use std::process::Abort;

/// How many blocks a packer measured, packed and unpacked.
#[derive(Drop)]
struct Counts {
    measured: Cell<usize>,
    packed: Cell<usize>,
    unpacked: Cell<usize>,
}

/// Counts that stay for all packers that hold them.
fn new_counts(rt: &impl Abort, alloc: Global) -> &'static Counts {
    let counts = Counts {
        measured: Cell::new(0),
        packed: Cell::new(0),
        unpacked: Cell::new(0),
    };
    Box::leak(Box::new(alloc, counts).ok().expect(rt, "memory"))
}

/// A packer of one lane that counts its calls.
#[derive(Clone, Copy)]
struct Counting {
    counts: Option<&'static Counts>,
}

impl Counting {
    fn of(counts: &'static Counts) -> Counting {
        Counting {
            counts: Some(counts),
        }
    }
}

fn add(count: &Cell<usize>) {
    count.set(count.get().wrapping_add(1));
}

impl BitPacker for Counting {
    const BLOCK_LEN: usize = 32;

    ghost BLOCK_LEN = { 32 };

    ghost lanes = { 1 };

    fn new() -> Self {
        Counting { counts: None }
    }

    fn compress_kind(
        &self,
        kind: Kind,
        decompressed: &[u32],
        compressed: &mut [u8],
        num_bits: u8,
    ) -> usize {
        if let Some(counts) = self.counts {
            add(&counts.packed);
        }
        BitPacker1x::new().compress_kind(kind, decompressed, compressed, num_bits)
    }

    fn decompress_kind(
        &self,
        kind: Kind,
        compressed: &[u8],
        decompressed: &mut [u32],
        num_bits: u8,
    ) -> usize {
        if let Some(counts) = self.counts {
            add(&counts.unpacked);
        }
        BitPacker1x::new().decompress_kind(kind, compressed, decompressed, num_bits)
    }

    fn num_bits_kind(&self, kind: Kind, decompressed: &[u32]) -> u8 {
        if let Some(counts) = self.counts {
            add(&counts.measured);
        }
        BitPacker1x::new().num_bits_kind(kind, decompressed)
    }

    ghost block_len = { refl };

    ghost some_lanes = { lit≤ tt };

    ghost few_lanes = { lit≤ tt };

    ghost clone_same = { Prim.search rules };
}

/// This number of blocks was measured, packed and unpacked.
fn counted(rt: &impl Abort, counts: &Counts, expected: [usize; 3], what: &str) {
    let [measured, packed, unpacked] = expected;
    same_number(rt, counts.measured.get(), measured, what);
    same_number(rt, counts.packed.get(), packed, what);
    same_number(rt, counts.unpacked.get(), unpacked, what);
}

const KIND: ListKind = ListKind::StrictlySorted;

/// The version 1 bytes of these values. Each block is measured once and packed once.
fn encoding1(rt: &impl Abort, alloc: Global, values: &[u32], blocks: usize) -> Vec<u8> {
    let counts = new_counts(rt, alloc);
    let mut encoding = Vec::new(alloc);
    let outcome = encode1(&Counting::of(counts), KIND, values, &mut encoding);
    succeeds(rt, outcome, &[]);
    counted(rt, counts, [blocks, blocks, 0], "version 1");
    encoding
}

/// Likewise in version 2.
fn encoding2(rt: &impl Abort, alloc: Global, values: &[u32], blocks: usize) -> Vec<u8> {
    let counts = new_counts(rt, alloc);
    let mut encoding = Vec::new(alloc);
    let outcome = encode2(&Counting::of(counts), KIND, values, &mut encoding);
    succeeds(rt, outcome, &[]);
    counted(rt, counts, [blocks, blocks, 0], "version 2");
    encoding
}

#[test]
fn each_block_is_packed_once(rt: HostRuntime) {
    let values = steps(&rt, rt.alloc(), 0, 3, 32 * 1024 + 7);
    encoding1(&rt, rt.alloc(), &values, 1024);
    encoding2(&rt, rt.alloc(), &values, 1024);
}

/// Opening and copying unpack each of five blocks once.
fn list_unpacks_once(rt: &impl Abort, alloc: Global, encoding: &[u8], values: &[u32]) {
    let counts = new_counts(rt, alloc);
    let list = open(&Counting::of(counts), encoding).expect(rt, "a list");
    counted(rt, counts, [0, 0, 5], "open");
    let mut out = Vec::new(alloc);
    unpack(rt, &list, &mut out);
    same_values(rt, &out, values);
    counted(rt, counts, [0, 0, 10], "append_to");
}

#[test]
fn each_block_is_unpacked_once(rt: HostRuntime) {
    let alloc = rt.alloc();
    let values = steps(&rt, alloc, 0, 3, 32 * 5 + 7);
    let one = encoding1(&rt, alloc, &values, 5);
    let two = encoding2(&rt, alloc, &values, 5);
    list_unpacks_once(&rt, alloc, &two, &values);
    let counts = new_counts(&rt, alloc);
    let mut out = Vec::new(alloc);
    let found = decode1(&Counting::of(counts), &one, &mut out);
    is_true(&rt, found == Ok(KIND), "an encoding of version 1");
    counted(&rt, counts, [0, 0, 5], "decode");
    let mut encoding = Vec::new(alloc);
    succeeds(
        &rt,
        upgrade(&Counting::of(counts), &one, &mut encoding),
        &one,
    );
    same_bytes(&rt, &encoding, &two);
    // `upgrade` unpacks each block to test it, and once more for its skip entry.
    counted(&rt, counts, [0, 0, 15], "upgrade");
}
