//! Why a set is refused.
//! FORMAT.md, "Faults of a set".

use std::error::Error;
use std::fmt;

/// Why a set could not be written or opened. Chunks, groups, positions and bytes are counted from 0.
#[derive(Clone, Copy, PartialEq, Eq, Debug)]
pub enum SetError {
    /// Bytes are missing.
    Short,
    /// The first byte begins no set.
    BadVersion(u8),
    /// There are more than 268,435,456 ids.
    TooLong(usize),
    /// The width byte of this group is above 32.
    BadWidth(usize, u8),
    /// The codes of this group fit a smaller width than it has.
    LooseWidth(usize, u8),
    /// The body of this chunk has no byte, or more than two for each of its ids.
    BadOffset(usize),
    /// The id at this position is not above the one before it, or it is above `u32::MAX`.
    NotSorted(usize),
    /// Bytes are left over.
    Trailing,
    /// The vector could not grow.
    Memory,
    /// A varint is not written in its one form, or is too small or too large here.
    BadNumber,
    /// A bit is set after the last code of a group.
    Padding,
    /// The byte of the sizes does not say the least counts of bytes from 1 to 4.
    BadSizes(u8),
    /// The key of this chunk is not above the one before it.
    BadKey(usize),
    /// The sum of this chunk says that it has no id, or more than 65,536; or the sum of the last chunk is not the count of ids.
    BadSum(usize),
    /// The body of this chunk does not encode as many numbers as the sums say.
    BadBody(usize),
    /// The numbers of this chunk belong in another form.
    LooseBody(usize),
    /// The ids are an array, and the format requires chunks for them.
    LooseForm,
}

impl SetError {
    ghost use Rattle.std.specs.Prelude.{◌≡◌};
    ghost use Rattle.bitpack_slices.specs.Errors.{number_of_error};

    /// Returns the number of the refusal. Refusals that packed lists have too have the same number.
    // claim: sets/6 a number for each refusal, as for lists
    pub fn number(&self) -> u8
        ensures { result ≡ number_of_error self.now }
    {
        match self {
            SetError::Short => 1,
            SetError::BadVersion(_) => 2,
            SetError::TooLong(_) => 5,
            SetError::BadWidth(_, _) => 6,
            SetError::LooseWidth(_, _) => 7,
            SetError::BadOffset(_) => 8,
            SetError::NotSorted(_) => 10,
            SetError::Trailing => 11,
            SetError::Memory => 12,
            SetError::BadNumber => 13,
            SetError::Padding => 14,
            SetError::BadSizes(_) => 16,
            SetError::BadKey(_) => 18,
            SetError::BadSum(_) => 19,
            SetError::BadBody(_) => 20,
            SetError::LooseBody(_) => 21,
            SetError::LooseForm => 22,
        }
    }
}

impl fmt::Display for SetError {
    fn fmt<W: fmt::Write>(&self, f: &mut fmt::Formatter<W>) -> fmt::Result {
        match self {
            SetError::Short => write!(f, "bytes are missing"),
            SetError::BadVersion(version) => write!(f, "{version} is the first byte of no set"),
            SetError::TooLong(count) => write!(f, "{count} ids are more than 268435456"),
            SetError::BadWidth(group, width) => {
                write!(f, "group {group} has width {width}, above 32")
            }
            SetError::LooseWidth(group, width) => {
                write!(
                    f,
                    "group {group} has width {width}, and a smaller one holds it"
                )
            }
            SetError::BadOffset(chunk) => {
                write!(f, "the body of chunk {chunk} has too few or too many bytes")
            }
            SetError::NotSorted(position) => {
                write!(f, "the id at position {position} is out of order")
            }
            SetError::Trailing => write!(f, "bytes are left over after the last id"),
            SetError::Memory => write!(f, "out of memory"),
            SetError::BadNumber => write!(f, "a number does not have its only form"),
            SetError::Padding => write!(f, "a bit is set after the last code of a group"),
            SetError::BadSizes(byte) => {
                write!(f, "{byte} does not say the least sizes of ends and sums")
            }
            SetError::BadKey(chunk) => {
                write!(f, "the key of chunk {chunk} is not above the one before it")
            }
            SetError::BadSum(chunk) => {
                write!(f, "the sum of chunk {chunk} does not fit the ids")
            }
            SetError::BadBody(chunk) => write!(f, "the body of chunk {chunk} is not one"),
            SetError::LooseBody(chunk) => {
                write!(f, "the numbers of chunk {chunk} belong in another form")
            }
            SetError::LooseForm => write!(f, "the ids are an array, and belong in chunks"),
        }
    }
}

impl Error for SetError {}
