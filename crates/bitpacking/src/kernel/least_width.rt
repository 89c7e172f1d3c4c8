//! The least width of a block's codes.

ghost use Rattle.std.specs.Prelude.{◌≡◌, ◌+◌, ◌*◌, ◌≤◌, length, fold, bit_or};
ghost use lib.Count.{count_leading_zeros};
ghost use Rattle.bitpacking.specs.Width.{Least};
ghost use Rattle.bitpacking.specs.Codes.{AreWords};
ghost use Rattle.bitpacking.specs.Calls.{MovesToMeasure};

use crate::LANE_LEN;
use crate::kinds::transformers::Transformer;
use crate::memory::{Steps, ValueSource};
use bitpacking_register::Register;

/// The least width of a block's codes after the value `start`. No code has a bit above it.
#[inline(always)]
pub(crate) fn width<R: Register, T: Transformer<R>>(
    source: &ValueSource<'_>,
    start: u32,
    steps: &mut Steps,
) -> u8
    requires bits { source.now.bits ≡ 0 }
    requires block { length source.now.words.now ≡ 32 * R.LANES }
    requires words { AreWords (T.block_codes start source.now.words.now) }
    ensures width { Least (T.block_codes start source.now.words.now) result }
    ensures narrow { result ≤ 32 }
    ensures counts { MovesToMeasure steps.old steps.new }
{
    let mut transformer = T::after(start);
    let mut all = R::splat(0);
    let mut others = R::splat(0);
    for i in 0..LANE_LEN {
        let next = others.or(transformer.transform(source.load(i, steps)));
        others = all;
        all = next;
    }
    most_significant_bit(all.or_lanes() | others.or_lanes())
}

/// Returns the number of binary digits of a number, 0 for 0.
#[inline(always)]
fn most_significant_bit(word: u32) -> u8
    ensures { count_leading_zeros 32 word + result ≡ 32 }
{
    (32 - word.leading_zeros()) as u8
}
