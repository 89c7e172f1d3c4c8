//! From codes to values, a register at a time, which go into a slice.

ghost use Rattle.std.specs.Prelude.{
  ◌≡◌,
  ℕ,
  ◌+◌,
  ◌-◌,
  ◌*◌,
  ◌≤◌,
  List,
  [],
  ◌++◌,
  length,
  map,
  slice_index,
  take,
  drop,
};
ghost use Rattle.std.proofs.Common.{refl};
ghost use Rattle.bitpacking_register.specs.Deltas.{running_sums};
ghost use Rattle.bitpacking.specs.Codes.{one_more};
ghost use Rattle.bitpacking.specs.Moves.{IsStore};

use crate::memory::{Steps, ValueTarget};
use bitpacking_register::Register;

/// Stores the values of codes, one register after another.
pub(crate) trait Sink<R: Register>: Drop {
    // How many registers were stored.
    ghost rows_stored: { Self → ℕ };

    // The values of the codes that come next.
    ghost values: { Self → List ℕ → List ℕ };

    // The values of a block's codes after the value `start`.
    ghost block_values: { ℕ → List ℕ → List ℕ };

    // At the start of a block, after the value `start`.
    fn after(start: u32) -> Self
        ensures rows_stored { rows_stored result ≡ 0 }
        ensures values { values result ≡ block_values start };

    fn put(&mut self, codes: R, target: &mut ValueTarget<'_>, steps: &mut Steps)
        requires within { R.LANES * rows_stored self.old + R.LANES ≤ length target.old.words.now }
        requires loaded { target.old.bits ≤ steps.old.inside }
        ensures rows_stored { rows_stored self.new ≡ rows_stored self.old + 1 }
        ensures same_reference { target.new.words.ghost_name ≡ target.old.words.ghost_name }
        ensures room { length target.new.words.now ≡ length target.old.words.now }
        ensures stored { (rest : List ℕ)
            → take (R.LANES * rows_stored self.old + R.LANES) target.new.words.now ++ values self.new rest
            ≡ take (R.LANES * rows_stored self.old) target.old.words.now ++ values self.old (R.words codes ++ rest) }
        ensures rest { drop (R.LANES * rows_stored self.old + R.LANES) target.new.words.now
            ≡ drop (R.LANES * rows_stored self.old + R.LANES) target.old.words.now }
        ensures bits { target.new.bits ≡ target.old.bits }
        ensures counts { IsStore steps.old steps.new target.old.bits };

    ghost values_of_none: { (sink : Self) → values sink [] ≡ [] };
}

/// The codes are the values.
#[derive(Drop)]
pub(crate) struct Store {
    rows_stored: usize,
}

impl<R: Register> Sink<R> for Store {
    ghost rows_stored = { λ s. s.rows_stored };

    ghost values = { λ _ codes. codes };

    ghost block_values = { λ _ codes. codes };

    #[inline(always)]
    fn after(_start: u32) -> Self {
        Store { rows_stored: 0 }
    }

    #[inline(always)]
    fn put(&mut self, codes: R, target: &mut ValueTarget<'_>, steps: &mut Steps) {
        target.store(self.rows_stored, codes, steps);
        self.rows_stored += 1;
    }

    ghost values_of_none = { λ _. refl };
}

/// The codes are the differences. The last lane of `previous` is the value before the next register.
#[derive(Drop)]
pub(crate) struct DeltaIntegrate<R: Register> {
    rows_stored: usize,
    previous: R,
}

impl<R: Register> Sink<R> for DeltaIntegrate<R> {
    ghost rows_stored = { λ s. s.rows_stored };

    ghost values = { λ s. running_sums (slice_index (R.words s.previous) (R.LANES - 1)) };

    ghost block_values = { λ start. running_sums start };

    #[inline(always)]
    fn after(start: u32) -> Self {
        DeltaIntegrate {
            rows_stored: 0,
            previous: R::splat(start),
        }
    }

    #[inline(always)]
    fn put(&mut self, codes: R, target: &mut ValueTarget<'_>, steps: &mut Steps) {
        self.previous = R::integrate(self.previous, codes);
        target.store(self.rows_stored, self.previous, steps);
        self.rows_stored += 1;
    }

    ghost values_of_none = { λ _. refl };
}

/// The codes are the differences, each one less.
#[derive(Drop)]
pub(crate) struct StrictDeltaIntegrate<R: Register> {
    rows_stored: usize,
    previous: R,
}

impl<R: Register> Sink<R> for StrictDeltaIntegrate<R> {
    ghost rows_stored = { λ s. s.rows_stored };

    ghost values = { λ s codes. running_sums (slice_index (R.words s.previous) (R.LANES - 1)) (map one_more codes) };

    ghost block_values = { λ start codes. running_sums start (map one_more codes) };

    #[inline(always)]
    fn after(start: u32) -> Self {
        StrictDeltaIntegrate {
            rows_stored: 0,
            previous: R::splat(start),
        }
    }

    #[inline(always)]
    fn put(&mut self, codes: R, target: &mut ValueTarget<'_>, steps: &mut Steps) {
        self.previous = R::integrate(self.previous, codes.add(R::splat(1)));
        target.store(self.rows_stored, self.previous, steps);
        self.rows_stored += 1;
    }

    ghost values_of_none = { λ _. refl };
}
