//! Four loops of eight rows each. The compiler unrolls them if it knows the width.

ghost use Rattle.std.specs.Prelude.{◌≡◌, ℕ, ◌+◌, ◌*◌, List, length, drop};
ghost use Rattle.bitpacking.specs.Layout.{size};
ghost use Rattle.bitpacking.specs.inner.Partway.{
  PacksRows,
  RowsCanPack,
  RowsCanUnpack,
  RowsPacked,
  RowsUnpacked,
  UnpacksRows,
};

use crate::kernel::{Pack, Unpack};
use crate::kinds::sinks::Sink;
use crate::kinds::transformers::Transformer;
use crate::memory::{ByteSource, ByteTarget, Steps, ValueSource, ValueTarget};
use bitpacking_register::Register;

/// Four loops of eight rows each. They are short enough to be unrolled. If the compiler knows the width, each shift and index is then a
/// constant.
pub(crate) struct Unrolled;

impl Pack for Unrolled {
    #[inline(always)]
    fn pack<R: Register, T: Transformer<R>>(
        source: &ValueSource<'_>,
        target: &mut ByteTarget<'_>,
        start: u32,
        width: u32,
        steps: &mut Steps,
    ) -> usize {
        let mut transformer = T::after(start);
        let pending = R::splat(0);
        let pending = pack_rows::<R, T, 0>(source, target, &mut transformer, pending, width, steps);
        let pending = pack_rows::<R, T, 8>(source, target, &mut transformer, pending, width, steps);
        let pending = pack_rows::<R, T, 16>(
            source,
            target,
            &mut transformer,
            pending,
            width,
            steps,
        );
        pack_rows::<R, T, 24>(source, target, &mut transformer, pending, width, steps);
        4 * R::LANES * width as usize
    }
}

// Packs eight rows. Into and out of it go the bits that fill no word yet: after a full word a plain 0, which costs nothing.
#[inline(always)]
fn pack_rows<R: Register, T: Transformer<R>, const FROM: u32>(
    source: &ValueSource<'_>,
    target: &mut ByteTarget<'_>,
    transformer: &mut T,
    mut pending: R,
    width: u32,
    steps: &mut Steps,
) -> R
    requires { RowsCanPack R.LANES width FROM source.now.bits source.now.words.now target.old.bytes.now
        steps.old.inside }
    ensures same_reference { target.new.bytes.ghost_name ≡ target.old.bytes.ghost_name }
    ensures same_room { length target.new.bytes.now ≡ length target.old.bytes.now }
    ensures packed { (codes : List ℕ)
        → RowsPacked R.LANES width FROM codes source.now.words.now (T.codes transformer.old)
        target.old.bytes.now (R.words pending)
        → RowsPacked R.LANES width (FROM + 8) codes source.now.words.now (T.codes transformer.new)
        target.new.bytes.now (R.words result) }
    ensures rest { drop (size R.LANES width) target.new.bytes.now ≡ drop (size R.LANES width) target.old.bytes.now }
    ensures counts { PacksRows steps.old steps.new width FROM (FROM + 8) }
{
    for i in FROM..FROM + 8 {
        let filled = i * width % 32;
        let codes = transformer.transform(source.load(i as usize, steps));
        let word = pending.or(codes.shift_left(filled));
        if filled + width < 32 {
            pending = word;
        } else {
            let over = if filled + width > 32 {
                codes.shift_right(32 - filled)
            } else {
                R::splat(0)
            };
            target.store((i * width / 32) as usize, word, steps);
            pending = over;
        }
    }
    pending
}

impl Unpack for Unrolled {
    #[inline(always)]
    fn unpack<R: Register, S: Sink<R>>(
        source: &ByteSource<'_>,
        target: &mut ValueTarget<'_>,
        start: u32,
        width: u32,
        steps: &mut Steps,
    ) -> usize {
        let mut sink = S::after(start);
        let pending = R::splat(0);
        let pending = unpack_rows::<R, S, 0>(source, target, &mut sink, pending, width, steps);
        let pending = unpack_rows::<R, S, 8>(source, target, &mut sink, pending, width, steps);
        let pending = unpack_rows::<R, S, 16>(source, target, &mut sink, pending, width, steps);
        unpack_rows::<R, S, 24>(source, target, &mut sink, pending, width, steps);
        4 * R::LANES * width as usize
    }
}

// Unpacks eight rows. Into and out of it go the bits of the last word loaded that are of no code yet. Loads a word only when
// its bits are wanted, so that exactly `width` registers are loaded.
#[inline(always)]
fn unpack_rows<R: Register, S: Sink<R>, const FROM: u32>(
    source: &ByteSource<'_>,
    target: &mut ValueTarget<'_>,
    sink: &mut S,
    mut pending: R,
    width: u32,
    steps: &mut Steps,
) -> R
    requires { RowsCanUnpack R.LANES width FROM (S.rows_stored sink.old) target.old.bits
        source.now.bytes.now target.old.words.now steps.old.inside }
    ensures rows_stored { S.rows_stored sink.new ≡ FROM + 8 }
    ensures same_reference { target.new.words.ghost_name ≡ target.old.words.ghost_name }
    ensures same_room { length target.new.words.now ≡ length target.old.words.now }
    ensures same_bits { target.new.bits ≡ target.old.bits }
    ensures unpacked { (codes values : List ℕ)
        → RowsUnpacked R.LANES width FROM source.now.bytes.now codes (S.values sink.old)
        values target.old.words.now (R.words pending)
        → RowsUnpacked R.LANES width (FROM + 8) source.now.bytes.now codes (S.values sink.new)
        values target.new.words.now (R.words result) }
    ensures rest { drop (32 * R.LANES) target.new.words.now ≡ drop (32 * R.LANES) target.old.words.now }
    ensures counts { UnpacksRows steps.old steps.new width FROM (FROM + 8) }
{
    let mask = R::splat((1 << width) - 1);
    'rows: for i in FROM..FROM + 8 {
        let loaded = (i * width + 31) / 32;
        let left = 32 * loaded - i * width;
        let mut codes = pending;
        if left < width {
            let word: R = source.load(loaded as usize, steps);
            codes = pending.or(word.shift_left(left));
            pending = word.shift_right(width - left);
        } else {
            pending = pending.shift_right(width);
        }
        sink.put(codes.and(mask), target, steps);
    }
    pending
}
