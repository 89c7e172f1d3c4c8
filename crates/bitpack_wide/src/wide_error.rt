//! Why a wide set is refused.
//! FORMAT.md, "Faults of a wide set".

use bitpack_columns::ColumnError;
use std::error::Error;
use std::fmt;

/// Why a wide set could not be written or opened. High words, positions and bytes are counted from 0.
#[derive(Clone, Copy, PartialEq, Eq, Debug)]
pub enum WideError {
    /// Bytes are missing.
    Short,
    /// The first byte begins no wide set.
    BadVersion(u8),
    /// The column of the high words is plain.
    BadKind(u8),
    /// There are more than 268,435,456 ids.
    TooLong(usize),
    /// The id set of this high word has no byte, or more than a set of its ids can have.
    BadOffset(usize),
    /// The id at this position is not above the one before it.
    NotSorted(usize),
    /// Bytes are left over.
    Trailing,
    /// The vector could not grow.
    Memory,
    /// A varint is not written in its one form, or is too small or too large here.
    BadNumber,
    /// The byte of the sizes does not say the least counts of bytes from 1 to 4.
    BadSizes(u8),
    /// This high word is not above the one before it.
    BadKey(usize),
    /// The sum of this high word says that it has no id; or the last sum, or the number of values of the column, is not the count of ids.
    BadSum(usize),
    /// The bytes of this high word are not an id set of as many ids as the sums say.
    BadBody(usize),
    /// The ids belong in the other form.
    LooseForm,
    /// The high words are not a column.
    Column(ColumnError),
}

impl WideError {
    ghost use Rattle.std.specs.Prelude.{◌≡◌};
    ghost use Rattle.bitpack_wide.specs.Errors.{number_of_error};

    /// Returns the number of the refusal. Refusals that id sets, columns and packed lists have too have the same number.
    // claim: wide/6 a number for each refusal, as for sets
    pub fn number(&self) -> u8
        ensures { result ≡ number_of_error self.now }
    {
        match self {
            WideError::Short => 1,
            WideError::BadVersion(_) => 2,
            WideError::BadKind(_) => 3,
            WideError::TooLong(_) => 5,
            WideError::BadOffset(_) => 8,
            WideError::NotSorted(_) => 10,
            WideError::Trailing => 11,
            WideError::Memory => 12,
            WideError::BadNumber => 13,
            WideError::BadSizes(_) => 16,
            WideError::BadKey(_) => 18,
            WideError::BadSum(_) => 19,
            WideError::BadBody(_) => 20,
            WideError::LooseForm => 22,
            WideError::Column(error) => error.number(),
        }
    }
}

impl fmt::Display for WideError {
    fn fmt<W: fmt::Write>(&self, f: &mut fmt::Formatter<W>) -> fmt::Result {
        match self {
            WideError::Short => write!(f, "bytes are missing"),
            WideError::BadVersion(byte) => write!(f, "{byte} is the first byte of no wide set"),
            WideError::BadKind(kind) => write!(f, "the column of the high words has kind {kind}"),
            WideError::TooLong(count) => write!(f, "{count} ids are more than 268435456"),
            WideError::BadOffset(word) => {
                write!(
                    f,
                    "the set of high word {word} has too few or too many bytes"
                )
            }
            WideError::NotSorted(position) => {
                write!(f, "the id at position {position} is out of order")
            }
            WideError::Trailing => write!(f, "bytes are left over after the last id"),
            WideError::Memory => write!(f, "out of memory"),
            WideError::BadNumber => write!(f, "a number does not have its only form"),
            WideError::BadSizes(byte) => {
                write!(f, "{byte} does not say the least sizes of ends and sums")
            }
            WideError::BadKey(word) => {
                write!(f, "high word {word} is not above the one before it")
            }
            WideError::BadSum(word) => {
                write!(f, "the sum of high word {word} does not fit the ids")
            }
            WideError::BadBody(word) => write!(f, "the set of high word {word} is not one"),
            WideError::LooseForm => write!(f, "the ids belong in the other form"),
            WideError::Column(error) => write!(f, "the high words: {error}"),
        }
    }
}

impl Error for WideError {}
