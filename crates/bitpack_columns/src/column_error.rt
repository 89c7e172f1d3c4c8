//! Why a column is refused.
//! FORMAT.md, "Faults of a column".

use crate::column_kind::ColumnKind;
use std::error::Error;
use std::fmt;

/// Why a column could not be written or opened. Blocks, groups, positions and bytes are counted from 0; the groups of the tail are numbered
/// after the blocks.
#[derive(Clone, Copy, PartialEq, Eq, Debug)]
pub enum ColumnError {
    /// Bytes are missing.
    Short,
    /// The first byte begins no column.
    BadVersion(u8),
    /// There are more than 268,435,456 values.
    TooLong(usize),
    /// The width byte of this group is above 32.
    BadWidth(usize, u8),
    /// The codes of this block or group fit a smaller width than it has.
    LooseWidth(usize, u8),
    /// This block ends before it begins, or its width is above 32.
    BadOffset(usize),
    /// The mark of this block is not its last value, or in a plain column not its least; or the least value of a tail is not.
    BadLast(usize),
    /// The value at this position is below the one before it; or the first value is not the one before the blocks.
    NotSorted(usize),
    /// Bytes are left over.
    Trailing,
    /// The vector could not grow.
    Memory,
    /// A number is not written in its one form, or is too small or too large here.
    BadNumber,
    /// A bit is set after the last code of a group.
    Padding,
    /// The column has the first kind, and the call requires the second.
    WrongKind(ColumnKind, ColumnKind),
    /// The byte of the sizes does not say the least counts of bytes from 1 to 4.
    BadSizes(u8),
    /// The value at this position of the other column is above `u32::MAX` with the base added.
    Overflow(usize),
}

impl ColumnError {
    ghost use Rattle.std.specs.Prelude.{◌≡◌};
    ghost use Rattle.bitpack_columns.specs.Errors.{number_of_error};

    /// Returns the number of the refusal. Refusals that id sets and packed lists have too have the same number.
    // claim: columns/18 a number for each refusal, as for sets
    pub fn number(&self) -> u8
        ensures { result ≡ number_of_error self.now }
    {
        match self {
            ColumnError::Short => 1,
            ColumnError::BadVersion(_) => 2,
            ColumnError::TooLong(_) => 5,
            ColumnError::BadWidth(_, _) => 6,
            ColumnError::LooseWidth(_, _) => 7,
            ColumnError::BadOffset(_) => 8,
            ColumnError::BadLast(_) => 9,
            ColumnError::NotSorted(_) => 10,
            ColumnError::Trailing => 11,
            ColumnError::Memory => 12,
            ColumnError::BadNumber => 13,
            ColumnError::Padding => 14,
            ColumnError::WrongKind(_, _) => 15,
            ColumnError::BadSizes(_) => 16,
            ColumnError::Overflow(_) => 23,
        }
    }
}

impl fmt::Display for ColumnError {
    fn fmt<W: fmt::Write>(&self, f: &mut fmt::Formatter<W>) -> fmt::Result {
        match self {
            ColumnError::Short => write!(f, "bytes are missing"),
            ColumnError::BadVersion(byte) => write!(f, "{byte} is the first byte of no column"),
            ColumnError::TooLong(count) => write!(f, "{count} values are more than 268435456"),
            ColumnError::BadWidth(block, width) => {
                write!(f, "block {block} has width {width}, above 32")
            }
            ColumnError::LooseWidth(block, width) => {
                write!(
                    f,
                    "block {block} has width {width}, and a smaller one holds it"
                )
            }
            ColumnError::BadOffset(block) => {
                write!(f, "block {block} has too few or too many bytes")
            }
            ColumnError::BadLast(block) => write!(f, "the mark of block {block} is wrong"),
            ColumnError::NotSorted(position) => {
                write!(f, "the value at position {position} is out of order")
            }
            ColumnError::Trailing => write!(f, "bytes are left over after the last value"),
            ColumnError::Memory => write!(f, "out of memory"),
            ColumnError::BadNumber => write!(f, "a number does not have its only form"),
            ColumnError::Padding => write!(f, "a bit is set after the last code of a group"),
            ColumnError::WrongKind(ColumnKind::Plain, _) => write!(f, "the column is plain"),
            ColumnError::WrongKind(ColumnKind::Sorted, _) => write!(f, "the column is sorted"),
            ColumnError::BadSizes(byte) => {
                write!(f, "{byte} does not say the least sizes of ends and marks")
            }
            ColumnError::Overflow(position) => {
                write!(
                    f,
                    "the value at position {position} is too great with the base"
                )
            }
        }
    }
}

impl Error for ColumnError {}
