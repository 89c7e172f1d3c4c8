//! The kinds of blocks.

/// What is packed instead of the values of a block.
#[derive(Clone, Copy, PartialEq, Eq, Debug)]
pub enum Kind {
    /// The values.
    Plain,
    /// Each value less the one before it, modulo 2 ^ 32. The number here is the value before the first.
    Sorted(u32),
    /// One less than that, modulo 2 ^ 32. The value before the first is the number here, or `u32::MAX` for `None`.
    StrictlySorted(Option<u32>),
}
