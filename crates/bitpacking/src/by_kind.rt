//! The three counted calls at any register, by the kind of the block: what its codes are, and the value before the first.

ghost use Rattle.std.specs.Prelude.{◌≡◌, ◌*◌, length};
ghost use Rattle.bitpacking.specs.declared.kind.Kind.TheVariants.{StrictlySorted};
ghost use Rattle.bitpacking.specs.Codes.{start};
ghost use Rattle.bitpacking.specs.Calls.{CanUnpack};
ghost use Rattle.bitpacking.specs.inner.ByKind.{KindMeasured, KindPacked, KindUnpacked};
ghost use Rattle.bitpacking.specs.inner.Kernels.{HasRoom};

use crate::Kind;
use crate::dispatch::Dispatch;
use crate::instruction_set::RunsOn;
use crate::kernel::least_width::width;
use crate::kinds::sinks::{DeltaIntegrate, Store, StrictDeltaIntegrate};
use crate::kinds::transformers::{DeltaComputer, NoDelta, StrictDeltaComputer};
use crate::memory::{Steps, ValueSource};
use bitpacking_register::Register;

/// Packs a block of a kind.
#[inline(always)]
pub(crate) fn pack_kind<K: Dispatch + RunsOn<R>, R: Register>(
    kind: Kind,
    decompressed: &[u32],
    compressed: &mut [u8],
    num_bits: u8,
    steps: &mut Steps,
) -> usize
    requires { HasRoom R.LANES num_bits decompressed.now compressed.old }
    ensures { KindPacked R.LANES num_bits kind decompressed.now compressed.old compressed.new
        result steps.old steps.new }
{
    match kind {
        Kind::Plain => K::pack_codes::<R, NoDelta>(0, decompressed, compressed, num_bits, steps),
        Kind::Sorted(initial) => {
            K::pack_codes::<R, DeltaComputer<R>>(initial, decompressed, compressed, num_bits, steps)
        }
        Kind::StrictlySorted(initial) => {
            let start = strict_start(initial);
            K::pack_codes::<R, StrictDeltaComputer<R>>(
                start,
                decompressed,
                compressed,
                num_bits,
                steps,
            )
        }
    }
}

/// Unpacks a block of a kind.
#[inline(always)]
pub(crate) fn unpack_kind<K: Dispatch + RunsOn<R>, R: Register>(
    kind: Kind,
    compressed: &[u8],
    decompressed: &mut [u32],
    num_bits: u8,
    steps: &mut Steps,
) -> usize
    requires { CanUnpack R.LANES num_bits compressed.now decompressed.old }
    ensures { KindUnpacked R.LANES num_bits kind compressed.now decompressed.old decompressed.new
        result steps.old steps.new }
{
    match kind {
        Kind::Plain => K::unpack_codes::<R, Store>(0, compressed, decompressed, num_bits, steps),
        Kind::Sorted(initial) => {
            K::unpack_codes::<R, DeltaIntegrate<R>>(
                initial,
                compressed,
                decompressed,
                num_bits,
                steps,
            )
        }
        Kind::StrictlySorted(initial) => {
            let start = strict_start(initial);
            K::unpack_codes::<R, StrictDeltaIntegrate<R>>(
                start,
                compressed,
                decompressed,
                num_bits,
                steps,
            )
        }
    }
}

/// The least width of a block of a kind.
#[inline(always)]
pub(crate) fn width_kind<K: RunsOn<R>, R: Register>(
    kind: Kind,
    decompressed: &[u32],
    steps: &mut Steps,
) -> u8
    requires { length decompressed.now ≡ 32 * R.LANES }
    ensures { KindMeasured kind decompressed.now result steps.old steps.new }
{
    let source = ValueSource::new(decompressed, 0);
    match kind {
        Kind::Plain => width::<R, NoDelta>(&source, 0, steps),
        Kind::Sorted(initial) => width::<R, DeltaComputer<R>>(&source, initial, steps),
        Kind::StrictlySorted(initial) => {
            width::<R, StrictDeltaComputer<R>>(&source, strict_start(initial), steps)
        }
    }
}

/// Returns the value before a strictly sorted block: `None` means `u32::MAX`.
#[inline(always)]
fn strict_start(initial: Option<u32>) -> u32
    ensures { result ≡ start (StrictlySorted initial) }
{
    initial.unwrap_or(u32::MAX)
}
