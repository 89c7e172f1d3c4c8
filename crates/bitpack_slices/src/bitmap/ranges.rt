//! Sets the bits of ranges.

ghost use Rattle.std.specs.Prelude.{◌≡◌, ℕ, ◌+◌, ◌*◌, ◌≤◌, ◌<◌, ◌&&◌, ◌||◌, ◌==◌, length, nat_le, nat_lt};
ghost use Rattle.std.specs.Int.{bit_at};
ghost use Rattle.bitpack_slices.specs.Bitmaps.{has_bit};

/// Sets the bits from one on, below another.
pub fn set_range(words: &mut [u64], from: usize, to: usize)
    requires order { from ≤ to }
    requires within { to ≤ 64 * length words.old }
    requires few { length words.old ≤ 1024 }
    ensures { (i : ℕ) → has_bit words.new i ≡ ((nat_le from i && nat_lt i to) || has_bit words.old i) }
{
    let mut at = from;
    while at < to {
        let end = (at / 64 * 64 + 64).min(to);
        words[at / 64] |= ones(at % 64, end - at);
        at = end;
    }
}

/// A word whose bits from one on are 1, as many as `count`.
#[inline(always)]
fn ones(from: usize, count: usize) -> u64
    requires some { 1 ≤ count }
    requires within { from + count ≤ 64 }
    ensures { (i : ℕ) → i < 64 → (bit_at result i == 1) ≡ (nat_le from i && nat_lt i (from + count)) }
{
    (u64::MAX >> (64 - count)) << from
}
