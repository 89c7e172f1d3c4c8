//! A chunk of a wide column: its bounds and its columns.

ghost use Rattle.std.specs.Prelude.{◌≡◌, ℕ, ◌+◌, ◌*◌, ◌^◌, ◌<◌, ◌≤◌, length, slice_index};
ghost use Rattle.bitpack_columns.specs.Opened.{values};
ghost use Rattle.bitpack_wide.specs.WideColumnSound.{HasLen, IsPart, difference_in};

use bitpack_columns::Column;

/// How many positions are unpacked at once.
pub(crate) const PART: usize = 1024;

/// A chunk whose parts were opened.
#[derive(Clone, Copy)]
pub(crate) struct Chunk<'a> {
    pub(crate) least: u64,
    pub(crate) greatest: u64,
    // How many positions there are.
    pub(crate) len: usize,
    pub(crate) low: Column<'a>,
    pub(crate) high: Option<Column<'a>>,
    ghost some: { 0 < len },
    ghost few: { len ≤ 65536 },
    ghost low_len: { length (values low) ≡ len },
    ghost high_len: { HasLen len high },
}

/// Writes the differences at the positions from one on: each value minus the least of the chunk.
pub(crate) fn read_differences(chunk: &Chunk, from: usize, out: &mut [u64])
    requires within { from + length out.old ≤ chunk.now.len }
    requires few { length out.old ≤ 1024 }
    ensures { IsPart (difference_in chunk.now.low chunk.now.high) from out.new }
{
    let mut low = [0; PART];
    let len = out.len();
    chunk.low.copy_range(from, &mut low[..len]);
    match chunk.high {
        None => put_low(&low[..len], out),
        Some(high) => {
            let mut upper = [0; PART];
            high.copy_range(from, &mut upper[..len]);
            put_both(&low[..len], &upper[..len], out);
        }
    }
}

/// Writes the low 32 bits.
fn put_low(low: &[u32], out: &mut [u64])
    requires len { length low.now ≡ length out.old }
    ensures { (k : ℕ) → k < length out.old → slice_index out.new k ≡ slice_index low.now k }
{
    for index in 0..out.len() {
        out[index] = low[index] as u64;
    }
}

/// Writes the low and the high 32 bits.
fn put_both(low: &[u32], high: &[u32], out: &mut [u64])
    requires low { length low.now ≡ length out.old }
    requires high { length high.now ≡ length out.old }
    ensures { (k : ℕ) → k < length out.old → slice_index out.new k ≡ slice_index low.now k + 2 ^ 32 * slice_index high.now k }
{
    for index in 0..out.len() {
        out[index] = low[index] as u64 + ((high[index] as u64) << 32);
    }
}
