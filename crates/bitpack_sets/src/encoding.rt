//! From ids to bytes: the encoding of a set is measured, and then written.
//! FORMAT.md, "Id sets".

ghost use Rattle.std.specs.Prelude.{◌≡◌, ◌+◌, ◌≤◌, ◌++◌, length, replicate, vec_len, vec_capacity};
ghost use Rattle.bitpack_sets.specs.Sets.{IsSet, encoding};
ghost use Rattle.bitpack_sets.specs.Written.{Appends, AppendsWith, IsMeasured, MeasuresSet, WritesSet};

mod bodies;
pub mod chunks;
pub mod combining;
pub(crate) mod copying;
mod few;
pub mod gathered;
mod measuring;
pub mod order;
pub mod placed;
pub mod range;
mod runs;

use crate::encoding::chunks::{array_len, chunks_len, write_array, write_chunks};
use crate::encoding::few::{MOST_FEW, few_len, write_few};
use crate::encoding::measuring::{count_chunks, measure_bodies};
use crate::encoding::order::test_ids;
use bitpack_slices::SetError;

/// What is known of an encoded set before it is written: how many bytes it has, and from 128 ids on how many chunks, and how many bytes
/// their bodies have.
#[derive(Clone, Copy)]
pub struct Measured {
    pub len: usize,
    pub chunks: usize,
    pub bodies: usize,
}

/// Returns the length in bytes of the set of these ids. They have to increase, and are at most 268,435,456.
pub fn encoded_len(ids: &[u32]) -> Result<usize, SetError>
    ensures { MeasuresSet ids.now result }
{
    test_ids(ids)?;
    let measured = measure(ids);
    Ok(measured.len)
}

/// Writes the set of these ids at the start of the slice, and returns its length in bytes. Allocates nothing.
///
/// The ids have to increase, and are at most 268,435,456. If the slice is too short, it fails with `Short` and writes nothing. The bytes
/// after the set are unchanged. [`encoded_len`] returns how many bytes are needed.
pub fn encode_to(ids: &[u32], bytes: &mut [u8]) -> Result<usize, SetError>
    ensures { WritesSet ids.now result bytes.old bytes.new }
{
    test_ids(ids)?;
    let measured = measure(ids);
    let len = measured.len;
    if bytes.len() < len {
        return Err(SetError::Short);
    }
    write_set(ids, measured, &mut bytes[..len]);
    Ok(len)
}

/// Appends the set of these ids. They have to increase, and are at most 268,435,456. The vector grows at most once.
// claim: sets/7-9 measures, writes, appends the encoding of at most 268,435,456 ids; fails with the first fault of the ids, `Short` or
//   `Memory`, and then changes nothing
pub fn encode(ids: &[u32], out: &mut Vec<u8>) -> Result<(), SetError>
    ensures { AppendsWith 0 0 ids.now result out.old out.new }
{
    test_ids(ids)?;
    append_set(ids, out)
}

/// Appends the encoding of a set. The vector grows at most once.
pub fn append_set(ids: &[u32], out: &mut Vec<u8>) -> Result<(), SetError>
    requires { IsSet ids.now }
    ensures { Appends (encoding ids.now) result out.old out.new }
{
    let measured = measure(ids);
    let len = measured.len;
    if out.reserve(len).is_err() {
        return Err(SetError::Memory);
    }
    let start = out.len();
    append_zeros(out, len);
    let bytes = out.slice_mut(start..);
    write_set(ids, measured, bytes);
    Ok(())
}

/// Appends `count` zeros to a vector that has the room.
pub fn append_zeros(out: &mut Vec<u8>, count: usize)
    requires room { vec_len out.old + count ≤ vec_capacity out.old }
    ensures items { out.new.items ≡ out.old.items ++ replicate count 0 }
    ensures len { vec_len out.new ≡ vec_len out.old + count }
{
    let len = out.len();
    out.resize(len + count, 0).unwrap();
}

/// Measures the encoding of a set.
pub fn measure(ids: &[u32]) -> Measured
    requires { IsSet ids.now }
    ensures { IsMeasured ids.now result.len result.chunks result.bodies }
{
    let count = ids.len();
    if count <= MOST_FEW {
        let len = few_len(ids);
        return Measured {
            len,
            chunks: 0,
            bodies: 0,
        };
    }
    let chunks = count_chunks(ids);
    if count < 4 * chunks {
        let len = array_len(count);
        return Measured {
            len,
            chunks,
            bodies: 0,
        };
    }
    let bodies = measure_bodies(ids);
    let len = chunks_len(count, chunks, bodies);
    Measured {
        len,
        chunks,
        bodies,
    }
}

/// Writes the encoding of a set that was measured.
pub fn write_set(ids: &[u32], measured: Measured, out: &mut [u8])
    requires set { IsSet ids.now }
    requires measured { IsMeasured ids.now measured.len measured.chunks measured.bodies }
    requires size { length out.old ≡ length (encoding ids.now) }
    ensures { out.new ≡ encoding ids.now }
{
    if ids.len() <= MOST_FEW {
        write_few(ids, out);
    } else if ids.len() < 4 * measured.chunks {
        write_array(ids, out);
    } else {
        write_chunks(ids, measured.chunks, measured.bodies, out);
    }
}
