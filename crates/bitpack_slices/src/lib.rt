//! Slices of 2^8 numbers, bitmaps and bodies of 2^16 numbers: what sets of ids are made of. Nothing here knows a set.
#![tactic(auto)]

mod operation;
mod set_error;

// For the crates above, and not for users.
pub mod bitmap;
pub mod blocks;
pub mod body;
pub mod chunk;
pub mod combined;
pub mod integers;
pub mod listed;
pub mod slice;

pub use operation::Operation;
pub use set_error::SetError;
