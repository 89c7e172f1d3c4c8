//! Why bytes are no number, or no group.
//! FORMAT.md, "Varints" and "Groups".

use std::error::Error;
use std::fmt;

/// Why bytes are no number, or no group. The groups are numbered as the caller says.
#[derive(Clone, Copy, PartialEq, Eq, Debug)]
pub enum GroupError {
    /// Bytes are missing.
    Short,
    /// A number does not have its only form, or is too small or too large here.
    BadNumber,
    /// A count is above 268,435,456.
    TooLong(usize),
    /// The width byte of this group is above 32.
    BadWidth(usize, u8),
    /// The codes of this group fit a smaller width than this one.
    LooseWidth(usize, u8),
    /// A bit is set after the last code of a group.
    Padding,
}

impl fmt::Display for GroupError {
    fn fmt<W: fmt::Write>(&self, f: &mut fmt::Formatter<W>) -> fmt::Result {
        match self {
            GroupError::Short => write!(f, "bytes are missing"),
            GroupError::BadNumber => write!(f, "a number does not have its only form"),
            GroupError::TooLong(count) => write!(f, "{count} values are more than 268435456"),
            GroupError::BadWidth(group, width) => {
                write!(f, "group {group} has width {width}, above 32")
            }
            GroupError::LooseWidth(group, width) => {
                write!(
                    f,
                    "group {group} has width {width}, and a smaller one holds it"
                )
            }
            GroupError::Padding => write!(f, "a bit is set after the last code of a group"),
        }
    }
}

impl Error for GroupError {}
