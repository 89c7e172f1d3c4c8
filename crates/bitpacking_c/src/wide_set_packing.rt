//! Wide sets, written into the caller's buffer.

ghost use Rattle.std.specs.Prelude.{◌≡◌, ◌^◌, ◌<◌, IfOk, length};
ghost use Rattle.bitpacking_c.specs.WideSets.{AnswersWide, MeasuresIn, PacksWide, WritesIn, number_of_wide, position_after_wide};

use bitpack_wide::laws::longest_encoding;
use bitpack_wide::{WideError, encode_to, encoded_len};

/// Writes the wide set of these ids at the start of `bytes`, and returns its length. The rest of `bytes` is unchanged. The ids have to
/// increase, and are at most 268,435,456. `space` is work space for as many numbers as there are ids.
///
/// If there is no work space or no room it returns -3, and for a fault the number of the first. Then nothing is written to `bytes`, and the
/// position of an id that is not above the one before it to `position`.
#[unsafe(no_mangle)]
pub extern "C" fn bitpacking_wide_set_pack(
    ids: &[u64],
    bytes: &mut [u8],
    space: &mut [u32],
    position: &mut usize,
) -> isize
    // claim: c/53 `wide_set_pack`, `wide_set_size`: as `wide/8`
    ensures { PacksWide ids.now (length space.old) bytes.old bytes.new position.old position.new result }
{
    answer(pack(ids, bytes, space), position)
}

/// The number of bytes that `bitpacking_wide_set_pack` writes for the ids. It has the faults of that call.
#[unsafe(no_mangle)]
pub extern "C" fn bitpacking_wide_set_size(
    ids: &[u64],
    space: &mut [u32],
    position: &mut usize,
) -> isize
    ensures { AnswersWide result position.old position.new (MeasuresIn ids.now (length space.old)) }
{
    answer(size(ids, space), position)
}

/// Writes the wide set of these ids.
fn pack(ids: &[u64], bytes: &mut [u8], space: &mut [u32]) -> Result<usize, WideError>
    ensures writes { WritesIn ids.now (length space.old) bytes.old bytes.new result }
    ensures small { IfOk result (λ size. size < 2 ^ 63) }
{
    if space.len() < ids.len() {
        return Err(WideError::Short);
    }
    encode_to(ids, space, bytes)
}

/// The length of the wide set of these ids.
fn size(ids: &[u64], space: &mut [u32]) -> Result<usize, WideError>
    ensures size { MeasuresIn ids.now (length space.old) result }
    ensures small { IfOk result (λ size. size < 2 ^ 63) }
{
    if space.len() < ids.len() {
        return Err(WideError::Short);
    }
    longest_encoding();
    encoded_len(ids, space)
}

/// The number for C. The position of an id out of order is written.
pub(crate) fn answer(found: Result<usize, WideError>, position: &mut usize) -> isize
    requires { IfOk found (λ size. size < 2 ^ 63) }
    ensures number { result ≡ number_of_wide found }
    ensures position { position.new ≡ position_after_wide position.old found }
{
    match found {
        Ok(size) => size as isize,
        Err(WideError::Short) => -3,
        Err(WideError::NotSorted(at)) => {
            *position = at;
            -30
        }
        Err(fault) => -20 - fault.number() as isize,
    }
}
