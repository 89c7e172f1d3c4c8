//! The kinds of columns.

/// Whether the values of a column are in order.
#[derive(Clone, Copy, PartialEq, Eq, Debug)]
pub enum ColumnKind {
    /// In any order.
    Plain,
    /// None is below the one before it.
    Sorted,
}
