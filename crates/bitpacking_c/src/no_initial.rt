//! The initial value of a strictly sorted block that has none.

ghost use Rattle.std.specs.Prelude.{◌≡◌, ℕ, List, None, Some};
ghost use Rattle.bitpacking.specs.declared.kind.Kind.TheVariants.{StrictlySorted};
ghost use Rattle.bitpacking.specs.Codes.{codes};

use bitpacking::laws::none_is_the_last_number;

/// The initial value that means none: a strictly sorted block may then begin with 0. It is 4294967295.
#[unsafe(no_mangle)]
pub extern "C" fn bitpacking_no_initial() -> u32
    // claim: c/7 4294967295, no strict initial value
    ensures number { result ≡ 4294967295 }
    ensures none { (block : List ℕ) → codes (StrictlySorted (Some result)) block ≡ codes (StrictlySorted None) block }
{
    none_is_the_last_number();
    u32::MAX
}
