//! Numbers of one to five bytes, and codes in groups of 32: the parts that short lists and sets are made of.
//!
//! A number is seven bits a byte. A group is the least width of its codes, and the first bytes of a block of one lane that holds them.
#![tactic(auto)]

mod group;
mod group_error;
mod groups;
mod integers;
pub mod laws;
mod numbers;
mod widths;

pub use group::{LONGEST_GROUP, group_size, test_group, unpack_group, write_group};
pub use group_error::GroupError;
pub use groups::{groups_len, next_len, test_groups, unpack_groups, write_groups};
pub use integers::{byte_count, read_integer, write_at, write_integer};
pub use numbers::{
    LONGEST_LIST, LONGEST_NUMBER, number_len, test_count, test_number, unpack_number, write_number,
};
pub use widths::{fits_less, least_width, most_significant_bit};
