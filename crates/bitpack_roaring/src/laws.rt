//! A law of the definitions, the contract of a function that does nothing at run time, for generic code to call.
//!
//! The definitions are in `specs/`: `roaring` in Written, `ids_of` in Roaring, `fault` in Faults.

ghost use Rattle.std.specs.Prelude.{◌≡◌, ℕ, ◌^◌, List, None};
ghost use Rattle.bitpack_slices.specs.Bodies.{IsRising};
ghost use Rattle.bitpack_roaring.specs.Faults.{fault};
ghost use Rattle.bitpack_roaring.specs.Roaring.{ids_of};
ghost use Rattle.bitpack_roaring.specs.Written.{roaring};

/// The bitmap that is written of increasing ids has no fault, and these ids are read from it.
// claim: roaring/5 a written bitmap has no fault, and is read back
pub fn read_back()
    ensures fault { (ids : List ℕ) → IsRising 0 (2 ^ 32) ids → fault (roaring ids) ≡ None }
    ensures ids { (ids : List ℕ) → IsRising 0 (2 ^ 32) ids → ids_of (roaring ids) ≡ ids }
{}
