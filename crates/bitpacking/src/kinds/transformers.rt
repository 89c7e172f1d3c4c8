//! From values to codes, a register at a time.

ghost use Rattle.std.specs.Prelude.{◌≡◌, ℕ, ◌-◌, List, ◌++◌, length, map, slice_index};
ghost use Rattle.std.proofs.Common.{refl};
ghost use Rattle.bitpacking_register.specs.Deltas.{differences};
ghost use Rattle.bitpacking.specs.Codes.{one_less};
ghost use Rattle.bitpacking.specs.CodeLaws.{length-differences, length-strict};

use bitpacking_register::Register;

/// Returns the codes of the registers passed to it, in their order.
pub(crate) trait Transformer<R: Register>: Drop {
    // The codes of the values that come next.
    ghost codes: { Self → List ℕ → List ℕ };

    // The codes of a block after the value `start`.
    ghost block_codes: { ℕ → List ℕ → List ℕ };

    // At the start of a block, after the value `start`.
    fn after(start: u32) -> Self
        ensures { codes result ≡ block_codes start };

    fn transform(&mut self, register: R) -> R
        ensures { (rest : List ℕ) → codes self.old (R.words register ++ rest) ≡ R.words result ++ codes self.new rest };

    ghost codes_count: { (start : ℕ) (values : List ℕ) → length (block_codes start values) ≡ length values };
}

/// The codes are the values.
#[derive(Drop)]
pub(crate) struct NoDelta;

impl<R: Register> Transformer<R> for NoDelta {
    ghost codes = { λ _ values. values };

    ghost block_codes = { λ _ values. values };

    #[inline(always)]
    fn after(_start: u32) -> Self {
        NoDelta
    }

    #[inline(always)]
    fn transform(&mut self, register: R) -> R {
        register
    }

    ghost codes_count = { λ _ _. refl };
}

/// The codes are the differences. The last lane of `previous` is the value before the next register.
#[derive(Drop)]
pub(crate) struct DeltaComputer<R: Register> {
    previous: R,
}

impl<R: Register> Transformer<R> for DeltaComputer<R> {
    ghost codes = { λ t. differences (slice_index (R.words t.previous) (R.LANES - 1)) };

    ghost block_codes = { λ start. differences start };

    #[inline(always)]
    fn after(start: u32) -> Self {
        DeltaComputer {
            previous: R::splat(start),
        }
    }

    #[inline(always)]
    fn transform(&mut self, register: R) -> R {
        let codes = R::delta(register, self.previous);
        self.previous = register;
        codes
    }

    ghost codes_count = { length-differences };
}

/// The codes are the differences, each one less.
#[derive(Drop)]
pub(crate) struct StrictDeltaComputer<R: Register> {
    previous: R,
}

impl<R: Register> Transformer<R> for StrictDeltaComputer<R> {
    ghost codes = { λ t values. map one_less (differences (slice_index (R.words t.previous) (R.LANES - 1)) values) };

    ghost block_codes = { λ start values. map one_less (differences start values) };

    #[inline(always)]
    fn after(start: u32) -> Self {
        StrictDeltaComputer {
            previous: R::splat(start),
        }
    }

    #[inline(always)]
    fn transform(&mut self, register: R) -> R {
        let codes = R::delta(register, self.previous).sub(R::splat(1));
        self.previous = register;
        codes
    }

    ghost codes_count = { length-strict };
}
