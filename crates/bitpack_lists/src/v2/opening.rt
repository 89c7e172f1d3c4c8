//! Tests of version 2 lists. The bytes are untrusted.

ghost use Rattle.std.specs.Prelude.{◌+◌, ◌-◌, ◌*◌, ◌^◌, ◌<◌, ◌≤◌, IfOk};
ghost use Rattle.bitpack_lists.specs.Parts.{BeginsWithHeader, FindsFault};
ghost use Rattle.bitpack_lists.specs.Version2.{fault2, rest_fault2};

use crate::blocks::order::first_out_of_words;
use crate::blocks::reads::Reads;
use crate::blocks::testing::test_blocks;
use crate::header::{HEADER_LEN, Header};
use crate::list_error::ListError;
use bitpacking::BitPacker;

/// Tests all bytes, and returns the header.
pub(crate) fn test_version2<P: BitPacker>(
    packer: &P,
    bytes: &[u8],
    reads: &mut Reads,
) -> Result<Header, ListError>
    ensures fault { FindsFault result (fault2 P.lanes bytes.now) }
    ensures header { IfOk result (λ header. BeginsWithHeader 2 P.lanes header.kind header.count bytes.now) }
{
    let header = Header::test(2, P::BLOCK_LEN / 32, bytes)?;
    test_blocks_and_words(packer, header, &bytes[HEADER_LEN..], reads)?;
    Ok(header)
}

/// Tests what is after the header.
fn test_blocks_and_words<P: BitPacker>(
    packer: &P,
    header: Header,
    rest: &[u8],
    reads: &mut Reads,
) -> Result<(), ListError>
    requires { header.count ≤ 2 ^ 28 }
    ensures { FindsFault result (rest_fault2 P.lanes header.kind header.count rest.now) }
{
    let tail = header.count % P::BLOCK_LEN;
    let blocks = test_blocks(packer, header, 4 * tail, rest, reads)?;
    let tail_out = first_out_of_words(
        header.kind,
        header.count - tail,
        blocks.last,
        &rest[blocks.end..],
        tail,
    );
    if let Some(position) = blocks.out.or(tail_out) {
        return Err(ListError::NotSorted(position));
    }
    if rest.len() > blocks.end + 4 * tail {
        return Err(ListError::Trailing);
    }
    Ok(())
}
