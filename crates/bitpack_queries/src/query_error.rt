//! Why a query is refused.

use std::error::Error;
use std::fmt;

/// Why a query could not be made. Steps are counted from 0.
#[derive(Clone, Copy, PartialEq, Eq, Debug)]
pub enum QueryError {
    /// There is no step.
    Empty,
    /// The step at this position names a set that there is not.
    NoSet(usize),
    /// The set at this position would be the 65th operand that waits for its operation.
    TooDeep(usize),
    /// Fewer than two operands wait for the operation at this position.
    MissingOperand(usize),
    /// This many operands are left after the last step, and not one.
    LeftOver(usize),
    /// This many operands wait at once, and there are fewer bitmaps.
    Short(usize),
    /// There is no memory for the bitmaps of the operands that wait.
    Memory,
}

impl fmt::Display for QueryError {
    fn fmt<W: fmt::Write>(&self, f: &mut fmt::Formatter<W>) -> fmt::Result {
        match self {
            QueryError::Empty => write!(f, "there is no step"),
            QueryError::NoSet(step) => write!(f, "step {step} names a set that there is not"),
            QueryError::TooDeep(step) => {
                write!(
                    f,
                    "at step {step} more than 64 operands wait for operations"
                )
            }
            QueryError::MissingOperand(step) => {
                write!(f, "the operation at step {step} lacks an operand")
            }
            QueryError::LeftOver(count) => {
                write!(f, "{count} operands are left after the last step")
            }
            QueryError::Short(most) => {
                write!(
                    f,
                    "{most} operands wait at once, and there are fewer bitmaps"
                )
            }
            QueryError::Memory => write!(f, "out of memory"),
        }
    }
}

impl Error for QueryError {}
