//! Bitmaps of chunks: 256 bits for each high byte. The bits of high bytes that a call does not name mean nothing, and are never cleared.

pub mod bodies;
pub mod combining;
pub mod loading;
pub(crate) mod ones;
pub mod ranges;
pub mod single_bits;
pub mod unpacking;
pub mod writing;
