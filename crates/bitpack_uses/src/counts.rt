//! What the counted calls of a packer move between memory and its registers, in numbers.

ghost use Rattle.std.specs.Prelude.{◌≡◌, ◌+◌, ◌<◌, ◌≤◌, length};
ghost use Rattle.bitpacking.specs.Calls.{CanPack, CanUnpack};

use bitpacking::{Counted, Kind, Steps};

/// Packs a block and returns what was moved: at a width from 1 on, 32 loads and a store for each bit of the width.
pub fn pack<P: Counted>(
    packer: &P,
    kind: Kind,
    values: &[u32],
    bytes: &mut [u8],
    width: u8,
) -> Steps
    requires { CanPack P.lanes width kind values.now bytes.old }
    ensures none { width ≡ 0 → result.loads ≡ 0 }
    // claim: uses/3 what a block moves, in numbers
    ensures loads { 0 < width → result.loads ≡ 32 }
    ensures stores { result.stores ≡ width }
    ensures inside { result.inside ≡ 0 }
    ensures held { result.held ≤ 32 + width }
{
    let mut steps = Steps::new();
    packer.pack_counted(kind, values, bytes, width, &mut steps);
    steps
}

/// Unpacks a block and returns what was moved: a load for each bit of the width, and 32 stores.
pub fn unpack<P: Counted>(
    packer: &P,
    kind: Kind,
    bytes: &[u8],
    values: &mut [u32],
    width: u8,
) -> Steps
    requires { CanUnpack P.lanes width bytes.now values.old }
    ensures loads { result.loads ≡ width }
    ensures stores { result.stores ≡ 32 }
    ensures inside { result.inside ≡ 0 }
    ensures held { result.held ≤ 32 + width }
{
    let mut steps = Steps::new();
    packer.unpack_counted(kind, bytes, values, width, &mut steps);
    steps
}

/// Measures the width of a block and returns what was moved: 32 loads.
pub fn measure<P: Counted>(packer: &P, kind: Kind, values: &[u32]) -> Steps
    requires { length values.now ≡ P.BLOCK_LEN }
    ensures loads { result.loads ≡ 32 }
    ensures stores { result.stores ≡ 0 }
    ensures inside { result.inside ≡ 0 }
    ensures held { result.held ≡ 0 }
{
    let mut steps = Steps::new();
    packer.width_counted(kind, values, &mut steps);
    steps
}
