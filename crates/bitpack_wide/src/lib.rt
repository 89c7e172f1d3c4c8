//! Sets and columns of 64-bit integers, over id sets and columns.
#![tactic(auto)]

mod combining;
mod directory;
mod encoding;
mod form;
pub mod laws;
mod locating;
mod opening;
mod searching;
mod spread;
mod testing;
mod unpacking;
mod wide_column;
mod wide_column_error;
mod wide_error;
mod wide_set;
mod wide_set_builder;
mod worked_sets;
mod worked_wide_columns;

pub use combining::{combine_count, combine_set_to, combine_to, is_disjoint, is_subset};
pub use encoding::{encode, encode_to, encoded_len};
pub use opening::Parts;
pub use wide_column::WideColumn;
pub use wide_column_error::WideColumnError;
pub use wide_error::WideError;
pub use wide_set::WideSet;
pub use wide_set_builder::WideSetBuilder;
