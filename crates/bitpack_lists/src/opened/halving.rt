//! A search among the skip keys of a list by halves. No branch in it depends on a value.

ghost use Rattle.std.specs.Prelude.{◌≡◌, ◌<◌, ◌≤◌};

use super::ListBlock;
use crate::blocks::reads::{PackedList, Reads};
use crate::list_kind::next_kind;
use bitpacking::BitPacker;

impl<'a, P: BitPacker> PackedList<'a, P> {
    ghost use Rattle.bitpack_lists.specs.inner.Seeking.{HalvesTo};

    /// The first whole block whose skip key is at least the target. Each skip key halves the blocks that are left.
    ///
    /// It always goes on from the number of halves, so that the processor guesses no branch wrong.
    pub(super) fn find_by_halves(&self, target: u32, reads: &mut Reads) -> Option<ListBlock>
        ensures { HalvesTo self.now target result reads.old reads.new }
    {
        let blocks = self.count / P::BLOCK_LEN;
        let mut low = 0;
        let mut left = blocks;
        let mut before = 0;
        while left > 0 {
            let half = left / 2;
            let skip_key = self.skip_key(low + half, reads);
            let reached = reaches(skip_key, target);
            low += (left - half) * (1 - reached) as usize;
            before = choose(reached, skip_key, before);
            left = half;
        }
        if low == blocks {
            return None;
        }
        let first = self.kind.first();
        Some(ListBlock {
            number: low,
            kind: if low == 0 {
                first
            } else {
                next_kind(first, before)
            },
        })
    }
}

/// 1 if a value is at least the target, and 0 if it is below it. The compiler does not see that it compares, and so makes no branch.
#[inline(always)]
fn reaches(value: u32, target: u32) -> u32
    ensures bit { result ≤ 1 }
    ensures yes { target ≤ value → result ≡ 1 }
    ensures no { value < target → result ≡ 0 }
{
    ((value as u64 + 0x1_0000_0000 - target as u64) >> 32) as u32
}

/// One of two numbers: the first if the bit is 0, and the second if it is 1.
#[inline(always)]
fn choose(bit: u32, zero: u32, one: u32) -> u32
    requires { bit ≤ 1 }
    ensures zero { bit ≡ 0 → result ≡ zero }
    ensures one { bit ≡ 1 → result ≡ one }
{
    zero * (1 - bit) + one * bit
}
