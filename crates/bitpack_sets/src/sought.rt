//! Searches among increasing ids.

ghost use Rattle.std.specs.Prelude.{◌≡◌, ◌^◌};
ghost use Rattle.bitpack_slices.specs.Bodies.{IsRising};
ghost use Rattle.bitpack_slices.specs.Reads.{rank};

use crate::few::count_below;

/// How many ids are compared at once.
const STEP: usize = 16;

/// How many ids are below `target`. The fewer they are, the fewer steps it takes.
#[inline(always)]
pub(crate) fn rank_in_ids(ids: &[u32], target: u32) -> usize
    requires { IsRising 0 (2 ^ 32) ids.now }
    ensures { result ≡ rank target ids.now }
{
    let mut passed = 0;
    while ids.len() - passed >= STEP && ids[passed + STEP - 1] < target {
        passed += STEP;
    }
    if ids.len() - passed < STEP {
        return passed + count_below(&ids[passed..], target);
    }
    passed + count_below(&ids[passed..passed + STEP], target)
}
