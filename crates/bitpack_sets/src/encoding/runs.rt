//! Ids that follow each other in one chunk, or in one slice.

ghost use Rattle.std.specs.Prelude.{◌≡◌, ◌+◌, ◌^◌, ◌<◌, length};
ghost use Rattle.bitpack_slices.specs.Bodies.{IsRising};
ghost use Rattle.bitpack_sets.specs.Written.{IsRun};

/// Ids are in one chunk if they are the same without their 16 lowest bits.
pub(crate) const CHUNK_BITS: u32 = 16;

/// How many ids at the front are the same as the first one without their `bits` lowest bits. It goes on in steps that double, and then
/// by halves.
pub(crate) fn run_len(bits: u32, ids: &[u32]) -> usize
    requires rising { IsRising 0 (2 ^ 32) ids.now }
    requires some { 0 < length ids.now }
    requires bits { bits < 32 }
    ensures { IsRun (2 ^ bits) ids.now result }
{
    let shared = ids[0] >> bits;
    let mut low = 0;
    let mut high = ids.len();
    while high - low > 1 {
        let half = (high - low) / 2;
        let middle = low + half.min(low + 2);
        if ids[middle] >> bits == shared {
            low = middle;
        } else {
            high = middle;
        }
    }
    high
}
