//! Operations on id sets: on two, on many, and trees of them.
#![tactic(auto)]

mod as_step;
mod combining;
mod combining_all;
mod combining_all_sets;
mod combining_sets;
mod folding;
mod in_place;
mod pairing;
mod query;
mod query_error;
mod shifting;
mod step;

// For the crates above, and not for users.
pub mod gathered;

pub use as_step::AsStep;
pub use combining::{combine_count, combine_to, is_disjoint, is_subset};
pub use combining_all::{combine_all_count, combine_all_to};
pub use combining_all_sets::{combine_all_set_to, combine_room};
pub use in_place::{add, add_to, remove, retain, retain_if};
pub use query::packing::query_set_to;
pub use query::testing::test_query;
pub use query::{Query, query_to};
pub use query_error::QueryError;
pub use shifting::{fill_shifted, shift_room, shift_to};
pub use step::Step;
