//! One loop over the 32 rows of a block, with the width as a value.

use crate::LANE_LEN;
use crate::kernel::{Pack, Unpack};
use crate::kinds::sinks::Sink;
use crate::kinds::transformers::Transformer;
use crate::memory::{ByteSource, ByteTarget, Steps, ValueSource, ValueTarget};
use bitpacking_register::Register;

/// One loop over all rows, for all widths from 1 to 31.
pub(crate) struct Rolled;

impl Pack for Rolled {
    fn pack<R: Register, T: Transformer<R>>(
        source: &ValueSource<'_>,
        target: &mut ByteTarget<'_>,
        start: u32,
        width: u32,
        steps: &mut Steps,
    ) -> usize {
        let mut transformer = T::after(start);
        let mut pending = R::splat(0);
        let mut filled = 0;
        let mut stored = 0;
        'rows: for i in 0..LANE_LEN {
            let codes = transformer.transform(source.load(i, steps));
            let word = pending.or(codes.shift_left(filled));
            if filled + width < 32 {
                pending = word;
                filled += width;
            } else {
                target.store(stored, word, steps);
                stored += 1;
                pending = codes.shift_right(32 - filled);
                filled = filled + width - 32;
            }
        }
        4 * R::LANES * width as usize
    }
}

impl Unpack for Rolled {
    // Loads a word only when its bits are wanted, so that exactly `width` registers are loaded.
    fn unpack<R: Register, S: Sink<R>>(
        source: &ByteSource<'_>,
        target: &mut ValueTarget<'_>,
        start: u32,
        width: u32,
        steps: &mut Steps,
    ) -> usize {
        let mut sink = S::after(start);
        let mask = R::splat((1 << width) - 1);
        let mut pending = R::splat(0);
        let mut left = 0;
        let mut loaded = 0;
        'rows: for i in 0..32u32 {
            let codes = if left < width {
                let word: R = source.load(loaded, steps);
                loaded += 1;
                let whole = pending.or(word.shift_left(left));
                pending = word.shift_right(width - left);
                left = left + 32 - width;
                whole
            } else {
                let whole = pending;
                pending = whole.shift_right(width);
                left -= width;
                whole
            };
            sink.put(codes.and(mask), target, steps);
        }
        4 * R::LANES * width as usize
    }
}
