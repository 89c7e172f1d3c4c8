//! Why a packed list is refused.

ghost use Rattle.std.specs.Prelude.{◌≡◌};
ghost use Rattle.bitpack_lists.specs.Parts.{number_of};

use std::error::Error;
use std::fmt;

/// Why a packed list could not be written or read. Blocks, positions and bytes are counted from 0.
#[derive(Clone, Copy, PartialEq, Eq, Debug)]
pub enum ListError {
    /// Bytes are missing.
    Short,
    /// The version byte is another.
    BadVersion(u8),
    /// The kind is above 2.
    BadKind(u8),
    /// The list was packed in this many lanes, and not in the packer's.
    WrongLanes(u8),
    /// There are more than 268,435,456 values.
    TooLong(usize),
    /// The width byte of this block is above 32.
    BadWidth(usize, u8),
    /// The block has this width, and its codes fit a smaller one.
    LooseWidth(usize, u8),
    /// The offset of this block is not the sum of the widths before it.
    BadOffset(usize),
    /// The last value of this block is not the one in its skip entry.
    BadLast(usize),
    /// The value at this position is the first out of order.
    NotSorted(usize),
    /// Bytes are left over.
    Trailing,
    /// The vector could not grow.
    Memory,
}

impl ListError {
    /// Returns the number of the refusal: from 1 to 12 in the order of the variants.
    // claim: lists/8 numbers the errors 1 to 12
    pub fn number(&self) -> u8
        ensures { result ≡ number_of self.now }
    {
        match self {
            ListError::Short => 1,
            ListError::BadVersion(_) => 2,
            ListError::BadKind(_) => 3,
            ListError::WrongLanes(_) => 4,
            ListError::TooLong(_) => 5,
            ListError::BadWidth(_, _) => 6,
            ListError::LooseWidth(_, _) => 7,
            ListError::BadOffset(_) => 8,
            ListError::BadLast(_) => 9,
            ListError::NotSorted(_) => 10,
            ListError::Trailing => 11,
            ListError::Memory => 12,
        }
    }
}

impl fmt::Display for ListError {
    fn fmt<W: fmt::Write>(&self, f: &mut fmt::Formatter<W>) -> fmt::Result {
        match self {
            ListError::Short => write!(f, "bytes are missing"),
            ListError::BadVersion(version) => write!(f, "unsupported version {version}"),
            ListError::BadKind(kind) => write!(f, "invalid kind {kind}"),
            ListError::WrongLanes(lanes) => {
                write!(f, "the list has {lanes} lanes, unlike the packer")
            }
            ListError::TooLong(count) => write!(f, "{count} values are more than 268435456"),
            ListError::BadWidth(block, width) => {
                write!(f, "block {block} has width {width}, above 32")
            }
            ListError::LooseWidth(block, width) => {
                write!(
                    f,
                    "block {block} has size {width}, and a smaller one holds it"
                )
            }
            ListError::BadOffset(block) => {
                write!(
                    f,
                    "block {block} does not begin at the end of the one before it"
                )
            }
            ListError::BadLast(block) => {
                write!(
                    f,
                    "block {block} ends with another value than its entry says"
                )
            }
            ListError::NotSorted(position) => {
                write!(f, "the value at position {position} is out of order")
            }
            ListError::Trailing => write!(f, "bytes are left over after the last value"),
            ListError::Memory => write!(f, "out of memory"),
        }
    }
}

impl Error for ListError {}
