//! Id sets: increasing `u32` ids in fewer bytes than packed differences take.
#![tactic(auto)]

mod appending;
mod as_set;
mod counting;
mod cursor;
mod decoding;
mod describing;
mod directory;
mod form;
mod front;
mod ids;
pub mod laws;
mod opening;
mod place;
mod searching;
mod set_builder;
mod sought;
mod varints;
mod worked_sets;

// For the crates above, and not for users.
pub mod array;
pub mod chunked;
pub mod chunks;
pub mod encoding;
pub mod few;
pub mod finding;
pub mod id_set;
pub mod reserved;
pub mod window;

pub use appending::{append, append_to};
pub use as_set::AsSet;
pub use cursor::Cursor;
pub use describing::Description;
pub use encoding::order::{first_unsorted, test_pushed};
pub use encoding::range::{encode_range_to, encoded_range_len};
pub use encoding::{encode, encode_to, encoded_len};
pub use front::front_len;
pub use id_set::IdSet;
pub use ids::Ids;
pub use opening::Parts;
pub use set_builder::SetBuilder;
