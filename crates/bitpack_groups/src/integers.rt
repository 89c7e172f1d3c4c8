//! Integers of one to four bytes, the lowest first.
//! FORMAT.md, "Sizes": the entries of a table.

ghost use Rattle.std.specs.Prelude.{◌≡◌, ◌+◌, ◌*◌, ◌≤◌, ◌++◌, drop, length, take};
ghost use Rattle.bitpack_groups.specs.Numbers.{short_at};
ghost use Rattle.bitpack_groups.specs.Packed.{le_bytes};

/// Returns integer `index` of those that have `size` bytes each and begin at `start`. If four bytes are there, it reads these at once.
#[inline(always)]
// claim: groups/9 reads and writes integers of one to four bytes
pub fn read_integer(size: usize, bytes: &[u8], start: usize, index: usize) -> u32
    requires size { (1 ≤ size) × (size ≤ 4) }
    requires within { start + size * index + size ≤ length bytes.now }
    ensures { result ≡ short_at size (drop start bytes.now) index }
{
    let from = start + size * index;
    if bytes.len() - from < 4 {
        return read_bytes(size, bytes, start, index);
    }
    let four = &bytes[from..from + 4];
    let word = u32::from_le_bytes([four[0], four[1], four[2], four[3]]);
    if size == 1 {
        return word % 256;
    }
    if size == 2 {
        return word % 65536;
    }
    if size == 3 {
        return word % 16777216;
    }
    word
}

/// Such an integer of one to three bytes, byte by byte.
fn read_bytes(size: usize, bytes: &[u8], start: usize, index: usize) -> u32
    requires size { (1 ≤ size) × (size ≤ 3) }
    requires within { start + size * index + size ≤ length bytes.now }
    ensures { result ≡ short_at size (drop start bytes.now) index }
{
    let from = start + size * index;
    let low = bytes[from] as u32;
    if size == 1 {
        return low;
    }
    let lower = low + bytes[from + 1] as u32 * 256;
    if size == 2 {
        return lower;
    }
    lower + bytes[from + 2] as u32 * 65536
}

/// Returns the least count of bytes, from 1 to 4, that hold a number.
pub fn byte_count(value: u32) -> usize
    ensures count { result ≡ Rattle.bitpack_groups.specs.Numbers.byte_count value }
    ensures some { 1 ≤ result }
    ensures few { result ≤ 4 }
{
    if value < 1 << 8 {
        1
    } else if value < 1 << 16 {
        2
    } else if value < 1 << 24 {
        3
    } else {
        4
    }
}

/// Writes the lowest bytes of a number, as many as the slice has.
#[inline(always)]
pub fn write_integer(value: u32, out: &mut [u8])
    ensures { out.new ≡ le_bytes (length out.old) value }
{
    let mut left = value;
    for index in 0..out.len() {
        out[index] = (left % 256) as u8;
        left /= 256;
    }
}

/// Writes integer `index` of integers of `size` bytes.
#[inline(always)]
pub fn write_at(index: usize, size: usize, value: u32, out: &mut [u8])
    requires { size * index + size ≤ length out.old }
    ensures len { length out.new ≡ length out.old }
    ensures bytes { take (size * (index + 1)) out.new ≡ take (size * index) out.old ++ le_bytes size value }
{
    let at = size * index;
    write_integer(value, &mut out[at..at + size]);
}
