//! What is known of the containers of a bitmap before it is written.
//! ROARING.md, "Containers".

ghost use Rattle.std.specs.Prelude.{◌≡◌, ◌≤◌};
ghost use Rattle.bitpack_roaring.specs.inner.Sizes.{pays, size};

use crate::head::{BITS_LEN, LONGEST_ARRAY};
use bitpack_slices::bitmap::single_bits::set_bit;

/// How many containers a bitmap has, whether some are runs, and how many bytes all have.
#[derive(Clone, Copy)]
pub(crate) struct Measured {
    pub(crate) containers: usize,
    pub(crate) runs: bool,
    pub(crate) size: usize,
}

impl Measured {
    ghost use Rattle.std.specs.Prelude.{◌≡◌, ℕ, ◌+◌, ◌*◌, ◌<◌, ◌≤◌, ◌||◌, ◌==◌, ◌&&◌, false};
    ghost use Rattle.bitpack_slices.specs.Bitmaps.{has_bit};
    ghost use Rattle.bitpack_roaring.specs.inner.Sizes.{pays, size};

    /// No container.
    pub(crate) fn new() -> Measured
        ensures { (result.containers ≡ 0) × ((result.size ≡ 0) × (result.runs ≡ false)) }
    {
        Measured {
            containers: 0,
            runs: false,
            size: 0,
        }
    }

    /// Adds a container of `count` numbers.
    pub(crate) fn add(&mut self, count: usize, runs: usize, flags: &mut [u64; 1024])
        requires few { self.old.containers < 65536 }
        requires small { self.old.size ≤ 8192 * self.old.containers }
        requires count { count ≤ 65536 }
        requires runs { runs ≤ 65536 }
        ensures containers { self.new.containers ≡ self.old.containers + 1 }
        ensures runs { self.new.runs ≡ (self.old.runs || pays count runs) }
        ensures size { self.new.size ≡ self.old.size + size count runs }
        ensures small { self.new.size ≤ 8192 * self.new.containers }
        ensures flags { (m : ℕ) → has_bit flags.new m ≡ ((m == self.old.containers && pays count runs) || has_bit flags.old m) }
    {
        if are_runs(count, runs) {
            set_bit(flags, self.containers);
            self.runs = true;
        }
        self.size += container_len(count, runs);
        self.containers += 1;
    }
}

/// Whether `count` numbers take fewer bytes as runs.
#[inline(always)]
fn are_runs(count: usize, runs: usize) -> bool
    requires few { count ≤ 65536 }
    requires runs { runs ≤ 65536 }
    ensures { result ≡ pays count runs }
{
    let others = if count <= LONGEST_ARRAY {
        2 + 2 * count
    } else {
        BITS_LEN
    };
    2 + 4 * runs < others
}

/// How many bytes the container of `count` numbers has.
#[inline(always)]
fn container_len(count: usize, runs: usize) -> usize
    requires few { count ≤ 65536 }
    requires runs { runs ≤ 65536 }
    ensures size { result ≡ size count runs }
    ensures small { result ≤ 8192 }
{
    if are_runs(count, runs) {
        2 + 4 * runs
    } else if count <= LONGEST_ARRAY {
        2 * count
    } else {
        BITS_LEN
    }
}
