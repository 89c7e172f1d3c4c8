//! Packed lists, by what no clause says: bytes from outside, each call for every packer and kind, and how much memory a call
//! allocates.

mod changed_lists;
mod intersect;
mod list2;
mod list2_refused;
mod lists;
mod room;
mod seek;
mod upgrade;
mod walk;
mod wide_blocks;
