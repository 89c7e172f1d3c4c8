//! What a query is made of.

use bitpack_slices::Operation;

/// A step of a query. Steps are in postfix order: the operands of an operation come before it.
#[derive(Clone, Copy)]
pub enum Step {
    /// The set of this index is an operand.
    Set(usize),
    /// This operation takes the last two operands, the earlier as its first, and gives one.
    Combine(Operation),
}
