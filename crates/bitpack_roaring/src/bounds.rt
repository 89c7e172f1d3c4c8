//! Writes the runs between boundaries.
//! ROARING.md, "Containers".

ghost use Rattle.std.specs.Prelude.{◌≡◌, ◌+◌, ◌*◌, ◌<◌, ◌≤◌, ◌++◌, drop, length, slice_index_or, take};
ghost use Rattle.bitpack_slices.specs.Bodies.{IsRising, le_bytes};
ghost use Rattle.bitpack_roaring.specs.inner.Runs.{run_bytes, runs_between};

use bitpack_groups::{write_at, write_integer};

/// The number after the last of a container.
const END: u32 = 65536;

/// Writes how many runs there are between boundaries, and the runs. Returns how many bytes these have.
pub(crate) fn write_runs(bounds: &[u32], out: &mut [u8]) -> usize
    requires rising { IsRising 0 65536 bounds.now }
    requires room { 2 + 4 * length (runs_between bounds.now) ≤ length out.old }
    ensures end { result ≡ 2 + 4 * length (runs_between bounds.now) }
    ensures written { take result out.new ≡ le_bytes 2 (length (runs_between bounds.now)) ++ run_bytes (runs_between bounds.now) }
{
    let count = (bounds.len() + 1) / 2;
    let (head, rest) = out.split_at_mut(2);
    write_integer(count as u32, head);
    put_runs(bounds, rest);
    2 + 4 * count
}

/// Writes the runs between boundaries: the first number of each, and the number of the others, two bytes each.
fn put_runs(bounds: &[u32], out: &mut [u8])
    requires rising { IsRising 0 65536 bounds.now }
    requires room { 4 * length (runs_between bounds.now) ≤ length out.old }
    ensures { take (4 * length (runs_between bounds.now)) out.new ≡ run_bytes (runs_between bounds.now) }
{
    for index in 0..(bounds.len() + 1) / 2 {
        write_at(index, 4, run_from(bounds, index), out);
    }
}

/// A run as its four bytes: the first number, and 65,536 times the number of the others.
#[inline(always)]
fn run_from(bounds: &[u32], index: usize) -> u32
    requires rising { IsRising 0 65536 bounds.now }
    requires within { 2 * index < length bounds.now }
    ensures { le_bytes 4 result ++ run_bytes (runs_between (drop (2 * (index + 1)) bounds.now)) ≡ run_bytes (runs_between (drop (2 * index) bounds.now)) }
{
    let first = bounds[2 * index];
    first + 65536 * (bound_at(bounds, 2 * index + 1) - first - 1)
}

/// The boundary at an index, or the number after the last of a container.
#[inline(always)]
fn bound_at(bounds: &[u32], index: usize) -> u32
    ensures { result ≡ slice_index_or bounds.now index 65536 }
{
    if index < bounds.len() {
        bounds[index]
    } else {
        END
    }
}
