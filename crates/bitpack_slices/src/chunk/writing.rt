//! Writes bodies of runs.
//!
//! FORMAT.md, "Chunks":
//!
//! ```text
//! 01 FF | t boundaries of two bytes, increasing
//! ```

ghost use Rattle.std.specs.Prelude.{◌≡◌, ℕ, ◌+◌, ◌*◌, ◌%◌, ◌/◌, ◌<◌, ◌≤◌, length, map, slice_index};
ghost use Rattle.bitpack_slices.specs.Bodies.{IsRising};
ghost use Rattle.bitpack_slices.specs.Runs.{boundaries, runs};

use crate::chunk::bounds::MOST_BOUNDS;
use crate::integers::write_integers;

/// Writes the runs of the low 16 bits of increasing ids of one chunk.
pub fn write_runs(ids: &[u32], out: &mut [u8])
    requires rising { IsRising 0 65536 (map (λ id. id % 65536) ids.now) }
    requires shared { (k : ℕ) → k < length ids.now → slice_index ids.now k / 65536 ≡ slice_index ids.now 0 / 65536 }
    requires some { 0 < length ids.now }
    requires few { length (boundaries (map (λ id. id % 65536) ids.now)) ≤ 64 }
    requires size { length out.old ≡ 2 + 2 * length (boundaries (map (λ id. id % 65536) ids.now)) }
    ensures { out.new ≡ runs (boundaries (map (λ id. id % 65536) ids.now)) }
{
    let mut room = [0; MOST_BOUNDS];
    let bounds = &mut room[..(out.len() - 2) / 2];
    fill_bounds(ids, bounds);
    write_bounds(bounds, out);
}

/// Writes the runs with these boundaries.
pub fn write_bounds(bounds: &[u32], out: &mut [u8])
    requires size { length out.old ≡ 2 + 2 * length bounds.now }
    ensures { out.new ≡ runs bounds.now }
{
    let (head, rest) = out.split_at_mut(2);
    head[0] = 1;
    head[1] = 255;
    write_integers(2, bounds, rest);
}

/// Fills in the boundaries of the low 16 bits of increasing ids of one chunk.
pub fn fill_bounds(ids: &[u32], bounds: &mut [u32])
    requires rising { IsRising 0 65536 (map (λ id. id % 65536) ids.now) }
    requires shared { (k : ℕ) → k < length ids.now → slice_index ids.now k / 65536 ≡ slice_index ids.now 0 / 65536 }
    requires some { 0 < length ids.now }
    requires size { length bounds.old ≡ length (boundaries (map (λ id. id % 65536) ids.now)) }
    ensures { bounds.new ≡ boundaries (map (λ id. id % 65536) ids.now) }
{
    bounds[0] = ids[0] % 65536;
    let mut next = 1;
    for index in 1..ids.len() {
        let after = ids[index - 1] % 65536 + 1;
        let low = ids[index] % 65536;
        if low != after {
            bounds[next] = after;
            bounds[next + 1] = low;
            next += 2;
        }
    }
    let end = ids[ids.len() - 1] % 65536 + 1;
    if end < 65536 {
        bounds[next] = end;
    }
}
