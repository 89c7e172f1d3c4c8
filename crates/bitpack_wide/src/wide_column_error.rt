//! Why a wide column is refused.
//! FORMAT.md, "Faults of a wide column".

use std::error::Error;
use std::fmt;

/// Why a wide column could not be written or opened. Parts, chunks and bytes are counted from 0.
#[derive(Clone, Copy, PartialEq, Eq, Debug)]
pub enum WideColumnError {
    /// Bytes are missing.
    Short,
    /// The first byte begins no wide column.
    BadVersion(u8),
    /// There are more than 268,435,456 values.
    TooLong(usize),
    /// The end of this part is below the one before it.
    BadOffset(usize),
    /// Bytes are left over.
    Trailing,
    /// The vector could not grow.
    Memory,
    /// A varint is not written in its one form, or is 2^32 or more.
    BadNumber,
    /// The byte of the sizes does not say the least counts of bytes, of ends from 1 to 4 and of bounds from 1 to 8.
    BadSizes(u8),
    /// This part is not the id set of missing positions, or not a column with a value for each position of its chunk.
    BadBody(usize),
    /// The values of this chunk have other bounds or other parts.
    LooseBody(usize),
    /// Byte 0 does not say whether the values are in order.
    LooseForm,
}

impl WideColumnError {
    ghost use Rattle.std.specs.Prelude.{◌≡◌};
    ghost use Rattle.bitpack_wide.specs.WideColumnErrors.{number_of_error};

    /// Returns the number of the refusal. Refusals that id sets, columns and packed lists have too have the same number.
    // claim: wide_columns/1 a number for each refusal, as for sets
    pub fn number(&self) -> u8
        ensures { result ≡ number_of_error self.now }
    {
        match self {
            WideColumnError::Short => 1,
            WideColumnError::BadVersion(_) => 2,
            WideColumnError::TooLong(_) => 5,
            WideColumnError::BadOffset(_) => 8,
            WideColumnError::Trailing => 11,
            WideColumnError::Memory => 12,
            WideColumnError::BadNumber => 13,
            WideColumnError::BadSizes(_) => 16,
            WideColumnError::BadBody(_) => 20,
            WideColumnError::LooseBody(_) => 21,
            WideColumnError::LooseForm => 22,
        }
    }
}

impl fmt::Display for WideColumnError {
    fn fmt<W: fmt::Write>(&self, f: &mut fmt::Formatter<W>) -> fmt::Result {
        match self {
            WideColumnError::Short => write!(f, "bytes are missing"),
            WideColumnError::BadVersion(byte) => {
                write!(f, "{byte} is the first byte of no wide column")
            }
            WideColumnError::TooLong(count) => {
                write!(f, "{count} values are more than 268435456")
            }
            WideColumnError::BadOffset(part) => {
                write!(f, "the end of part {part} is below the one before it")
            }
            WideColumnError::Trailing => write!(f, "bytes are left over after the last part"),
            WideColumnError::Memory => write!(f, "out of memory"),
            WideColumnError::BadNumber => write!(f, "a number does not have its only form"),
            WideColumnError::BadSizes(byte) => {
                write!(f, "{byte} does not say the least sizes of ends and bounds")
            }
            WideColumnError::BadBody(part) => {
                write!(f, "part {part} does not have the positions of its chunk")
            }
            WideColumnError::LooseBody(chunk) => {
                write!(f, "the values of chunk {chunk} have other bounds or parts")
            }
            WideColumnError::LooseForm => {
                write!(
                    f,
                    "the first byte does not say whether the values are in order"
                )
            }
        }
    }
}

impl Error for WideColumnError {}
