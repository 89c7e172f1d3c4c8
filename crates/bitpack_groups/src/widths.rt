//! Widths of codes.

ghost use Rattle.std.specs.Prelude.{◌≡◌, ◌+◌, ◌-◌, ◌^◌, ◌≤◌, ◌&&◌, nat_lt};
ghost use lib.Count.{count_leading_zeros};
ghost use Rattle.bitpacking.specs.Width.{Least};

/// The least width of the codes. There may be few: they are not put into a block to be measured.
pub fn least_width(codes: &[u32]) -> u8
    ensures width { Least codes.now result }
    ensures narrow { result ≤ 32 }
{
    let mut joined: u32 = 0;
    for index in 0..codes.len() {
        joined |= codes[index];
    }
    most_significant_bit(joined)
}

/// The number of binary digits of a number, 0 for 0.
pub fn most_significant_bit(word: u32) -> u8
    ensures { count_leading_zeros 32 word + result ≡ 32 }
{
    (32 - word.leading_zeros()) as u8
}

/// Whether codes with these bits fit a smaller width.
pub fn fits_less(width: u8, bits: u32) -> bool
    requires { width ≤ 32 }
    ensures { result ≡ (nat_lt 0 width && nat_lt bits (2 ^ (width - 1))) }
{
    width > 0 && bits < 1 << (width - 1)
}
