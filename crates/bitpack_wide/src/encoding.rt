//! From ids to bytes: the encoding of a wide set is measured, and then written.
//! FORMAT.md, "Wide sets".

ghost use Rattle.std.specs.Prelude.{◌≡◌, ◌≤◌, if◌then◌else◌, length};
ghost use Rattle.bitpack_wide.specs.Wide as wide;
ghost use Rattle.bitpack_wide.specs.Wide.{IsWide, encoding, highs, lows, words_of};
ghost use Rattle.bitpack_wide.specs.Written.{AppendsWide, MeasuresWide, WritesWide};
ghost use Rattle.bitpack_wide.specs.inner.Writing.{IsMeasured};

mod apart;
pub(crate) mod order;
mod words;

use crate::encoding::apart::{measure_spread, write_spread};
use crate::encoding::order::{is_spread, split_ids};
use crate::encoding::words::{measure_bodies, words_len, write_words};
use crate::wide_error::WideError;
use bitpack_sets::encoding::append_zeros;

/// What is known of an encoded set before it is written: how many bytes it has, how many high words, and in words how many bytes the id
/// sets have.
#[derive(Clone, Copy)]
struct Measured {
    len: usize,
    words: usize,
    bodies: usize,
}

/// Returns the length in bytes of the wide set of these ids. They have to increase, and are at most 268,435,456.
///
/// It requires work space for as many numbers as there are ids; what this held is lost.
pub fn encoded_len(ids: &[u64], space: &mut [u32]) -> Result<usize, WideError>
    requires { length ids.now ≤ length space.old }
    ensures { MeasuresWide ids.now result }
{
    let room = &mut space[..ids.len()];
    let words = split_ids(ids, room)?;
    let measured = measure(ids, words, room);
    Ok(measured.len)
}

/// Writes the wide set of these ids at the start of the slice, and returns its length in bytes. Allocates nothing.
///
/// The ids have to increase, and are at most 268,435,456. If the slice is too short, it fails with `Short` and writes nothing. The bytes
/// after the set are unchanged. The work space is as for [`encoded_len`], which returns how many bytes are needed.
pub fn encode_to(ids: &[u64], space: &mut [u32], bytes: &mut [u8]) -> Result<usize, WideError>
    requires { length ids.now ≤ length space.old }
    ensures { WritesWide ids.now result bytes.old bytes.new }
{
    let room = &mut space[..ids.len()];
    let words = split_ids(ids, room)?;
    let measured = measure(ids, words, room);
    let len = measured.len;
    if bytes.len() < len {
        return Err(WideError::Short);
    }
    write_set(ids, measured, room, &mut bytes[..len]);
    Ok(len)
}

/// Appends the wide set of these ids. They have to increase, and are at most 268,435,456. The vector grows at most once.
///
/// The work space is as for [`encoded_len`].
// claim: wide/8 measures, writes, appends the encoding of at most 268,435,456 ids; fails with the first fault of the ids, `Short` or
//   `Memory`, and then changes nothing
pub fn encode(ids: &[u64], space: &mut [u32], out: &mut Vec<u8>) -> Result<(), WideError>
    requires { length ids.now ≤ length space.old }
    ensures { AppendsWide ids.now result out.old out.new }
{
    let room = &mut space[..ids.len()];
    let words = split_ids(ids, room)?;
    let measured = measure(ids, words, room);
    let len = measured.len;
    if out.reserve(len).is_err() {
        return Err(WideError::Memory);
    }
    let start = out.len();
    append_zeros(out, len);
    let bytes = out.slice_mut(start..);
    write_set(ids, measured, room, bytes);
    Ok(())
}

/// Measures the encoding of a set with `words` high words. The space has the low words, and then, if the set is spread out, the high words.
fn measure(ids: &[u64], words: usize, space: &mut [u32]) -> Measured
    requires set { IsWide ids.now }
    requires words { words ≡ length (words_of ids.now) }
    requires few { words ≤ length ids.now }
    requires space { space.old ≡ lows ids.now }
    ensures measured { IsMeasured ids.now result.len result.words result.bodies }
    ensures space { space.new ≡ (if wide.is_spread (length ids.now) result.words then highs ids.now else lows ids.now) }
{
    let count = ids.len();
    if is_spread(count, words) {
        let len = measure_spread(ids, space);
        return Measured {
            len,
            words,
            bodies: 0,
        };
    }
    let bodies = measure_bodies(ids, space);
    let len = words_len(count, words, bodies);
    Measured { len, words, bodies }
}

/// Writes the encoding of a set that was measured. The space is as this left it.
fn write_set(ids: &[u64], measured: Measured, space: &mut [u32], out: &mut [u8])
    requires set { IsWide ids.now }
    requires measured { IsMeasured ids.now measured.len measured.words measured.bodies }
    requires space { space.old ≡ (if wide.is_spread (length ids.now) measured.words then highs ids.now else lows ids.now) }
    requires size { length out.old ≡ length (encoding ids.now) }
    ensures { out.new ≡ encoding ids.now }
{
    if is_spread(ids.len(), measured.words) {
        write_spread(ids, space, out);
    } else {
        write_words(ids, space, measured.words, measured.bodies, out);
    }
}
