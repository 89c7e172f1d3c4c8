//! Sums of a base and values, as numbers of 64 bits.

ghost use Rattle.std.specs.Prelude.{◌≡◌, ◌⊎◌, ◌+◌, ◌<◌, ◌≤◌, ℕ, length, slice_index};
ghost use Rattle.bitpacking_c.specs.Wide.{most_base};

/// The greatest base: no value passes 64 bits with it.
pub(crate) const MOST_BASE: u64 = 18_446_744_069_414_584_320;

/// Writes the sums of a base and some values to a slice, from an index on.
pub(crate) fn add_base(base: u64, values: &[u32], at: usize, out: &mut [u64])
    requires base { base ≤ most_base }
    requires room { at + length values.now ≤ length out.old }
    ensures sums { (k : ℕ) → k < length values.now → slice_index out.new (at + k) ≡ base + slice_index values.now k }
    ensures same { (k : ℕ) → (k < at) ⊎ (at + length values.now ≤ k) → slice_index out.new k ≡ slice_index out.old k }
{
    for index in 0..values.len() {
        out[at + index] = base + values[index] as u64;
    }
}
