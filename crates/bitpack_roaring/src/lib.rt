//! Roaring's portable format, read from untrusted bytes, and written.
#![tactic(auto)]

mod bits;
mod bodies;
mod bounds;
mod changes;
mod container;
mod entries;
mod head;
pub mod laws;
mod measured;
mod measuring;
mod parts;
mod reading;
mod runs;
mod testing;
mod unpacking;
mod worked_bitmaps;
mod writing;

pub use reading::{fill_from_roaring, roaring_room, set_from_roaring};
pub use testing::test_roaring;
pub use writing::{roaring_len, set_to_roaring};
