//! What two sets are combined by.

/// Which ids of two sets the answer has.
#[derive(Clone, Copy)]
pub enum Operation {
    /// The ids that both sets have.
    And,
    /// The ids that at least one set has.
    Or,
    /// The ids that only the first set has.
    AndNot,
    /// The ids that exactly one of the two sets has.
    Xor,
}
