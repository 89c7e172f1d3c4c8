//! Chains: many blocks of one kind. Each goes on from the last value of the one before.

pub use bitpack_lists::chain::{pack_all, unpack_all};
