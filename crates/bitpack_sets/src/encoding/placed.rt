//! Writes the body of a chunk after the bodies before it.
//! FORMAT.md, "Chunks".

ghost use Rattle.std.specs.Prelude.{◌+◌, ◌*◌, ◌^◌, ◌<◌, ◌≤◌, length};
ghost use Rattle.bitpack_slices.specs.Follows.{Follow};
ghost use Rattle.bitpack_sets.specs.Sets.{body};
ghost use Rattle.bitpack_sets.specs.Written.{IsChunk, lows};

use crate::encoding::bodies::write_body;
use crate::encoding::measuring::measure_body;

/// Writes the body of ids of one chunk, if there is room. Returns how many bytes it has.
pub fn put_chunk(ids: &[u32], out: &mut [u8], at: usize) -> usize
    requires chunk { IsChunk ids.now }
    requires some { 0 < length ids.now }
    requires few { length ids.now ≤ 65536 }
    requires start { at ≤ 2 ^ 33 }
    ensures small { result ≤ 2 * length ids.now }
    ensures body { Follow (body (lows ids.now)) out.old out.new at (at + result) }
{
    let (slices, size) = measure_body(ids);
    let end = at + size;
    if end <= out.len() {
        write_body(ids, slices, &mut out[at..end]);
    }
    size
}
