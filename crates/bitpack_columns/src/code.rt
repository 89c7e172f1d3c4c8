//! One code of a block, read by its bits.
//! FORMAT.md, "Layout".

ghost use Rattle.std.specs.Prelude.{◌≡◌, ◌+◌, ◌*◌, ◌<◌, ◌≤◌, length, slice_index};
ghost use Rattle.bitpacking.specs.Layout.{codes_of};
ghost use Rattle.bitpacking.specs.Words.{word};

/// Code `index` of the body of a block. No other code is unpacked.
#[inline(always)]
pub(crate) fn code_at(width: u8, body: &[u8], index: usize) -> u32
    requires width { width ≤ 32 }
    requires body { length body.now ≡ 16 * width }
    requires index { index < 128 }
    ensures { result ≡ slice_index (codes_of 4 width body.now) index }
{
    if width == 0 {
        return 0;
    }
    let bit = index / 4 * width as usize;
    let first = bit / 32;
    let next = (first + 1).min(width as usize - 1);
    let low = word_at(body, 4 * first + index % 4) as u64;
    let high = word_at(body, 4 * next + index % 4) as u64;
    ((high << 32 | low) >> (bit % 32) & ((1u64 << width) - 1)) as u32
}

/// A word of bytes, the lowest byte first.
#[inline(always)]
fn word_at(bytes: &[u8], index: usize) -> u32
    requires { 4 * index + 4 ≤ length bytes.now }
    ensures { result ≡ word bytes.now index }
{
    let from = 4 * index;
    u32::from_le_bytes([
        bytes[from],
        bytes[from + 1],
        bytes[from + 2],
        bytes[from + 3],
    ])
}
