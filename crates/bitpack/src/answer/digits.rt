//! A value as decimal digits, with no memory taken.

ghost use Rattle.std.specs.Prelude.{◌≡◌, ◌≤◌, drop};
ghost use Rattle.std.specs.Fmt.{decimal};

/// The most digits of a value.
pub(crate) const MOST_DIGITS: usize = 10;

/// Writes the digits of a value at the end of the bytes, and returns where they start.
pub(crate) fn write_digits(value: u32, bytes: &mut [u8; MOST_DIGITS]) -> usize
    ensures within { result ≤ 10 }
    ensures digits { drop result bytes.new ≡ decimal value }
{
    let mut start = MOST_DIGITS - 1;
    let mut left = value;
    while left >= 10 {
        bytes[start] = b'0' + (left % 10) as u8;
        left /= 10;
        start -= 1;
    }
    bytes[start] = b'0' + left as u8;
    start
}
