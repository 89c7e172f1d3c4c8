//! The encoding of a set that is spread out: a sorted column of the high words, and the low words.
//! FORMAT.md, "Wide sets".

ghost use Rattle.std.specs.Prelude.{◌≡◌, length};
ghost use Rattle.bitpack_wide.specs.Wide.{IsWide, highs, spread};

use crate::encoding::order::{copy_highs, copy_lows};
use bitpack_columns::{ColumnKind, encode_to, encoded_len};
use bitpack_groups::{number_len, write_number};
use bitpack_slices::integers::write_integers;

/// How many bytes the encoding of ids that are spread out has. Leaves their high words in the space.
pub(crate) fn measure_spread(ids: &[u64], space: &mut [u32]) -> usize
    requires set { IsWide ids.now }
    requires space { length space.old ≡ length ids.now }
    ensures len { result ≡ length (spread ids.now) }
    ensures highs { space.new ≡ highs ids.now }
{
    copy_highs(ids, space);
    let column = encoded_len(ColumnKind::Sorted, space).unwrap();
    1 + number_len(ids.len() as u32) + column + 4 * ids.len()
}

/// Writes the encoding of ids that are spread out. The space has their high words.
pub(crate) fn write_spread(ids: &[u64], space: &mut [u32], out: &mut [u8])
    requires set { IsWide ids.now }
    requires space { space.old ≡ highs ids.now }
    requires size { length out.old ≡ length (spread ids.now) }
    ensures { out.new ≡ spread ids.now }
{
    let count = ids.len() as u32;
    let size = number_len(count);
    let (form, others) = out.split_at_mut(1);
    let (number, rest) = others.split_at_mut(size);
    let middle = rest.len() - 4 * ids.len();
    let (column, integers) = rest.split_at_mut(middle);
    form[0] = 9;
    write_number(count, number);
    encode_to(ColumnKind::Sorted, space, column).unwrap();
    copy_lows(ids, space);
    write_integers(4, space, integers);
}
