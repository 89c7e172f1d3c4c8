//! Id sets, written into the caller's buffer.

ghost use Rattle.std.specs.Prelude.{◌≡◌, ◌^◌, ◌<◌, IfOk};
ghost use Rattle.bitpack_sets.specs.Ranges.{ids_within};
ghost use Rattle.bitpack_sets.specs.Written.{MeasuresSet, WritesSet};
ghost use Rattle.bitpacking_c.specs.IdSets.{AnswersSet, NumbersSet, PacksSet, WritesRange, number_of_set, position_after_set};

use bitpack_sets::laws::longest_encoding;
use bitpack_sets::{encode_range_to, encode_to, encoded_len, encoded_range_len};
use bitpack_slices::SetError;

/// Writes the id set of these ids at the start of `bytes`, and returns its length. The rest of `bytes` is unchanged. The ids have to
/// increase, and are at most 268,435,456.
///
/// If there is no room it returns -3, and for a fault the number of the first. Then nothing is written but the position of an id that is
/// not above the one before it.
#[unsafe(no_mangle)]
pub extern "C" fn bitpacking_set_pack(ids: &[u32], bytes: &mut [u8], position: &mut usize) -> isize
    // claim: c/10 c/30 a set of ids, its length: as `sets/7-9`
    ensures { PacksSet ids.now bytes.old bytes.new position.old position.new result }
{
    answer(pack(ids, bytes), position)
}

/// The number of bytes that `bitpacking_set_pack` writes for the ids. It has the faults of that call.
#[unsafe(no_mangle)]
pub extern "C" fn bitpacking_set_size(ids: &[u32], position: &mut usize) -> isize
    ensures { AnswersSet result position.old position.new (MeasuresSet ids.now) }
{
    answer(size(ids), position)
}

/// Writes the id set of all ids from `first` to before `end` at the start of `bytes`, and returns its length. The rest of `bytes` is unchanged. The
/// ids are at most 268,435,456, and not listed. An end above 2^32 is as 2^32.
///
/// If there is no room it returns -3, and for too many ids -25. Then nothing is written.
#[unsafe(no_mangle)]
pub extern "C" fn bitpacking_set_pack_range(first: u32, end: u64, bytes: &mut [u8]) -> isize
    // claim: c/44 the set of a range, its length: as `sets/28`
    ensures { NumbersSet result (WritesRange first end bytes.old bytes.new) }
{
    let mut position = 0;
    answer(pack_range(first, end, bytes), &mut position)
}

/// The number of bytes that `bitpacking_set_pack_range` writes for these ids. If they are too many it returns -25.
#[unsafe(no_mangle)]
// claim: c/44
pub extern "C" fn bitpacking_set_range_size(first: u32, end: u64) -> isize
    ensures { NumbersSet result (MeasuresSet (ids_within first end)) }
{
    let mut position = 0;
    answer(range_size(first, end), &mut position)
}

/// Writes the id set of a range.
fn pack_range(first: u32, end: u64, bytes: &mut [u8]) -> Result<usize, SetError>
    ensures writes { WritesRange first end bytes.old bytes.new result }
    ensures small { IfOk result (λ size. size < 2 ^ 63) }
{
    longest_encoding();
    encode_range_to(first, end, bytes)
}

/// The length of the id set of a range.
fn range_size(first: u32, end: u64) -> Result<usize, SetError>
    ensures size { MeasuresSet (ids_within first end) result }
    ensures small { IfOk result (λ size. size < 2 ^ 63) }
{
    longest_encoding();
    encoded_range_len(first, end)
}

/// Writes the id set of these ids.
pub(crate) fn pack(ids: &[u32], bytes: &mut [u8]) -> Result<usize, SetError>
    ensures writes { WritesSet ids.now result bytes.old bytes.new }
    ensures small { IfOk result (λ size. size < 2 ^ 63) }
{
    encode_to(ids, bytes)
}

/// The length of the id set of these ids.
fn size(ids: &[u32]) -> Result<usize, SetError>
    ensures size { MeasuresSet ids.now result }
    ensures small { IfOk result (λ size. size < 2 ^ 63) }
{
    longest_encoding();
    encoded_len(ids)
}

/// The number for C. The position of an id out of order is written.
pub(crate) fn answer(found: Result<usize, SetError>, position: &mut usize) -> isize
    requires { IfOk found (λ size. size < 2 ^ 63) }
    ensures number { result ≡ number_of_set found }
    ensures position { position.new ≡ position_after_set position.old found }
{
    match found {
        Ok(size) => size as isize,
        Err(SetError::Short) => -3,
        Err(SetError::NotSorted(at)) => {
            *position = at;
            -30
        }
        Err(fault) => -20 - fault.number() as isize,
    }
}
