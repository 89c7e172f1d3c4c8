//! Columns: lists of `u32` integers, plain or sorted, in fewer bytes, read in place.
#![tactic(auto)]

mod appending;
mod code;
mod column;
mod column_builder;
mod column_cursor;
mod column_error;
mod column_kind;
mod encoding;
mod entries;
pub mod laws;
mod opening;
mod reads;
mod tail;
mod worked_columns;

pub use appending::joining::{join, join_to};
pub use appending::{append, append_to};
pub use column::{Column, Parts};
pub use column_builder::ColumnBuilder;
pub use column_cursor::ColumnCursor;
pub use column_error::ColumnError;
pub use column_kind::ColumnKind;
pub use encoding::order::test_pushed;
pub use encoding::{encode, encode_to, encoded_len};
pub use reads::ColumnBytes;
