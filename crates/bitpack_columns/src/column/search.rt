//! The first value of a sorted column that is at least another, found by halves over the marks.

ghost use Rattle.std.specs.Prelude.{◌≡◌, ℕ, Err, Ok, ◌+◌, ◌%◌, ◌^◌, ◌<◌, ◌≤◌, length, slice_index};
ghost use Rattle.std.specs.List.Sorted.{IsNonDecreasing};
ghost use Rattle.bitpack_columns.specs.declared.column_kind.ColumnKind.TheVariants.{Plain, Sorted};
ghost use Rattle.bitpack_columns.specs.Columns.{block_of, mark_of};
ghost use Rattle.bitpack_columns.specs.Counted.{ReadsSearches};
ghost use Rattle.bitpack_columns.specs.Opened.{blocks_of, kind_of, values};
ghost use Rattle.bitpack_columns.specs.Ranges.{first_from};
ghost use Rattle.bitpack_columns.specs.Searches.{IsLowerBound};

use crate::column::{BLOCK_LEN, Column};
use crate::column_error::ColumnError;
use crate::column_kind::ColumnKind;
use crate::reads::Reads;

impl<'a> Column<'a> {
    /// Returns the first value that is at least the target, with its position, or `None` if each value is below it.
    ///
    /// It halves the blocks that are left at each mark that it reads, and unpacks one block, or the tail. Fails with `WrongKind` if the
    /// column is plain.
    pub fn seek(&self, target: u32) -> Result<Option<(usize, u32)>, ColumnError>
        // claim: columns/7 the first value of a sorted column from a target on; refuses plain ones; reads digits(B) marks, unpacks one
        //   block
        ensures found { kind_of self.now ≡ Sorted → result ≡ Ok (first_from target 0 (values self.now)) }
        ensures plain { kind_of self.now ≡ Plain → result ≡ Err (ColumnError.WrongKind Plain Sorted) }
    {
        self.seek_counted(target, &mut Reads::new())
    }

    // As `seek`.
    fn seek_counted(
        &self,
        target: u32,
        reads: &mut Reads,
    ) -> Result<Option<(usize, u32)>, ColumnError>
        ensures found { kind_of self.now ≡ Sorted → result ≡ Ok (first_from target 0 (values self.now)) }
        ensures plain { kind_of self.now ≡ Plain → result ≡ Err (ColumnError.WrongKind Plain Sorted) }
        ensures reads { ReadsSearches 1 self.now reads.old reads.new }
    {
        match self.kind {
            ColumnKind::Plain => Err(ColumnError::WrongKind(ColumnKind::Plain, ColumnKind::Sorted)),
            ColumnKind::Sorted => Ok(self.first_at_least(target, reads)),
        }
    }

    // As `seek`, if the column is sorted.
    fn first_at_least(&self, target: u32, reads: &mut Reads) -> Option<(usize, u32)>
        requires { kind_of self.now ≡ Sorted }
        ensures found { result ≡ first_from target 0 (values self.now) }
        ensures reads { ReadsSearches 1 self.now reads.old reads.new }
    {
        let mut block = [0; BLOCK_LEN];
        let position = self.lower_bound(target as u64, &mut block, reads);
        if position < self.len() {
            Some((position, block[position % BLOCK_LEN]))
        } else {
            None
        }
    }

    /// The position of the first value that is at least the target, or the count of values. The block of the value is unpacked.
    pub(super) fn lower_bound(&self, target: u64, out: &mut [u32; 128], reads: &mut Reads) -> usize
        requires { kind_of self.now ≡ Sorted }
        ensures bound { IsLowerBound (values self.now) target result }
        ensures value { result < length (values self.now)
            → slice_index out.new (result % 128) ≡ slice_index (values self.now) result }
        ensures reads { ReadsSearches 1 self.now reads.old reads.new }
    {
        let block = self.first_block(target, reads);
        let len = reads.unpack_block(self, block, out);
        BLOCK_LEN * block + count_below(&out[..len], target)
    }

    // The first block whose mark is at least the target, or the count of blocks. The count of blocks that are left does not depend on
    // the marks, so that the processor guesses no branch wrong.
    fn first_block(&self, target: u64, reads: &mut Reads) -> usize
        requires { kind_of self.now ≡ Sorted }
        ensures within { result ≤ blocks_of self.now }
        ensures before { (block : ℕ) → block < result → mark_of Sorted (block_of block (values self.now)) < target }
        ensures enough { result < blocks_of self.now → target ≤ mark_of Sorted (block_of result (values self.now)) }
        ensures marks { (digits : ℕ) → blocks_of self.now < 2 ^ digits → reads.new.marks ≤ reads.old.marks + digits }
        ensures blocks { reads.new.blocks ≡ reads.old.blocks }
    {
        let mut first = 0;
        let mut left = self.blocks();
        while left > 0 {
            let half = left / 2;
            if (reads.read_mark(self, first + half) as u64) < target {
                first += left - half;
            }
            left = half;
        }
        first
    }
}

/// How many of these values, which are in order, are below the target. No branch depends on a value, so that the compiler compares several
/// at once.
#[inline(always)]
fn count_below(values: &[u32], target: u64) -> usize
    requires order { IsNonDecreasing values.now }
    requires few { length values.now ≤ 128 }
    ensures { IsLowerBound values.now target result }
{
    if target > u32::MAX as u64 {
        return values.len();
    }
    let word = target as u32;
    let mut below = 0u32;
    for index in 0..values.len() {
        below += if values[index] < word { 1 } else { 0 };
    }
    below as usize
}
