//! The packers for C: each function tests its arguments, and returns a count or a negative number.
//!
//! C's own rules are the only conditions: pointers are to as many items as the lengths say, the buffers that a call writes
//! overlap no other, and values are aligned. `include/bitpacking.h` has the declarations, with lengths, errors and examples.
#![tactic(auto)]

mod bases;
mod bitpacker1x;
mod bitpacker4x;
mod bitpacker8x;
mod block;
mod call_error;
mod chain;
mod column_builder;
mod column_building;
mod column_joining;
mod column_packing;
mod column_queries;
mod column_view;
mod column_wide;
mod no_initial;
mod ranking;
mod set_algebra;
mod set_appending;
mod set_builder;
mod set_building;
mod set_combining;
mod set_cursor;
mod set_in_place;
mod set_moving;
mod set_packing;
mod set_pairs;
mod set_positions;
mod set_query;
mod set_roaring;
mod set_shifting;
mod set_view;
mod set_wide;
mod term_view;
mod version;
mod wide_set_combining;
mod wide_set_packing;
mod wide_set_view;

pub use call_error::CallError;
pub use column_builder::ColumnBuilder;
pub use column_view::ColumnView;
pub use set_builder::SetBuilder;
pub use set_cursor::SetCursor;
pub use set_query::QueryStep;
pub use set_view::SetView;
pub use term_view::TermView;
