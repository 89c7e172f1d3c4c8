//! Callers of the libraries, as a user writes them. Each is proved from public contracts and laws alone.
#![tactic(auto)]

pub mod answered;
pub mod by_hand;
pub mod by_law;
pub mod by_list_law;
pub mod counts;
pub mod exact_calls;
pub mod posting_list;
pub mod reads;
pub mod round_trips;
pub mod shared_values;
pub mod sorted_block;
pub mod stored_blocks;
#[cfg(test)]
mod tests;
pub mod untrusted;
