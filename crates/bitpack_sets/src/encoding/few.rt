//! The encoding of a set of fewer than 128 ids.
//! FORMAT.md, "Fewer than 128 ids".

ghost use Rattle.std.specs.Prelude.{◌≡◌, ◌+◌, ◌<◌, ◌≤◌, drop, length, slice_index};
ghost use Rattle.bitpack_sets.specs.Sets.{IsSet, gaps, short};

use bitpack_groups::{groups_len, number_len, write_groups, write_number};

/// The most ids of a set whose bytes have groups.
pub(crate) const MOST_FEW: usize = 127;

/// How many bytes the encoding of a set of few ids has.
pub(crate) fn few_len(ids: &[u32]) -> usize
    requires set { IsSet ids.now }
    requires few { length ids.now ≤ MOST_FEW }
    ensures { result ≡ length (short ids.now) }
{
    if ids.is_empty() {
        return 1;
    }
    let mut room = [0; MOST_FEW];
    let codes = &mut room[..ids.len() - 1];
    copy_gaps(ids, codes);
    1 + number_len(ids[0]) + groups_len(codes)
}

/// Writes the encoding of a set of few ids.
pub(crate) fn write_few(ids: &[u32], out: &mut [u8])
    requires set { IsSet ids.now }
    requires few { length ids.now ≤ MOST_FEW }
    requires size { length out.old ≡ length (short ids.now) }
    ensures { out.new ≡ short ids.now }
{
    if ids.is_empty() {
        out[0] = 128;
        return;
    }
    write_some(ids, out);
}

/// Writes the encoding of a set of few ids, at least one.
fn write_some(ids: &[u32], out: &mut [u8])
    requires set { IsSet ids.now }
    requires some { 0 < length ids.now }
    requires few { length ids.now ≤ MOST_FEW }
    requires size { length out.old ≡ length (short ids.now) }
    ensures { out.new ≡ short ids.now }
{
    let mut room = [0; MOST_FEW];
    let codes = &mut room[..ids.len() - 1];
    copy_gaps(ids, codes);
    let size = number_len(ids[0]);
    let (head, rest) = out.split_at_mut(1);
    let (first, groups) = rest.split_at_mut(size);
    head[0] = 128 + ids.len() as u8;
    write_number(ids[0], first);
    write_groups(codes, groups);
}

/// Copies each id after the first less the one before it less 1.
#[inline(always)]
fn copy_gaps(ids: &[u32], out: &mut [u32])
    requires set { IsSet ids.now }
    requires size { length out.old + 1 ≡ length ids.now }
    ensures { out.new ≡ gaps (slice_index ids.now 0) (drop 1 ids.now) }
{
    for index in 0..out.len() {
        out[index] = ids[index + 1] - ids[index] - 1;
    }
}
