//! Bounds of the values of blocks.

ghost use Rattle.std.specs.Prelude.{◌≡◌, ◌+◌, ◌^◌, ◌<◌, ◌≤◌};
ghost use Rattle.bitpack_columns.specs.declared.column_kind.ColumnKind.TheVariants.{Plain};
ghost use Rattle.bitpack_columns.specs.Counted.{ReadsMarks};
ghost use Rattle.bitpack_columns.specs.Opened.{blocks_of, kind_of, values};
ghost use Rattle.bitpack_columns.specs.Ranges.{AreBounds};
ghost use Rattle.bitpack_columns.specs.Searches.{greatest_in, least_in};

use crate::column::Column;
use crate::column_kind::ColumnKind;
use crate::reads::Reads;

impl<'a> Column<'a> {
    /// Bounds of the values of a block: no value is below the first, or above the second. It unpacks nothing.
    ///
    /// In a plain column the first is the least value of the block, and the second what the width of the block allows above it. In a sorted
    /// one the first is the value before the block, and the second its last value.
    pub fn bounds(&self, block: usize) -> (u32, u32)
        requires { block < blocks_of self.now }
        // claim: columns/10 bounds of a block's values: if plain the least, and this plus the greatest number of the block's width; if
        //   sorted the value before the block and its last; from two marks or widths
        ensures { AreBounds (kind_of self.now) (values self.now) block result.0 result.1 }
    {
        self.bounds_counted(block, &mut Reads::new())
    }

    // As `bounds`.
    fn bounds_counted(&self, block: usize, reads: &mut Reads) -> (u32, u32)
        requires { block < blocks_of self.now }
        ensures bounds { AreBounds (kind_of self.now) (values self.now) block result.0 result.1 }
        ensures reads { ReadsMarks 2 reads.old reads.new }
    {
        match self.kind {
            ColumnKind::Plain => self.plain_bounds(block, reads),
            ColumnKind::Sorted => (reads.read_before(self, block), reads.read_mark(self, block)),
        }
    }

    /// The bounds of a block of a plain column, exactly.
    pub(super) fn plain_bounds(&self, block: usize, reads: &mut Reads) -> (u32, u32)
        requires plain { kind_of self.now ≡ Plain }
        requires block { block < blocks_of self.now }
        ensures bounds { AreBounds Plain (values self.now) block result.0 result.1 }
        ensures least { result.0 ≡ least_in self.now block }
        ensures greatest { result.1 ≡ greatest_in self.now block }
        ensures reads { ReadsMarks 2 reads.old reads.new }
    {
        let mark = reads.read_mark(self, block);
        let most = greatest_code(reads.read_width(self, block));
        (mark, mark.saturating_add(most))
    }
}

/// The greatest code of a width.
fn greatest_code(width: u8) -> u32
    requires { width ≤ 32 }
    ensures { result + 1 ≡ 2 ^ width }
{
    ((1u64 << width) - 1) as u32
}
