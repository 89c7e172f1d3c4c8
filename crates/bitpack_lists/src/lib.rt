//! Chains of packed blocks, and packed lists.
//!
//! [`chain`] packs many blocks of one kind end to end. [`list`] encodes a list of any length, and decodes untrusted bytes. [`list2`]
//! encodes lists that are read without unpacking, by search or by position, and reads them.
//!
//! The crate `bitpack` re-exports these modules. The tests of chains are in `bitpack_main`.
#![tactic(auto)]

mod blocks;
pub mod chain;
mod header;
pub mod laws;
pub mod list;
pub mod list2;
mod list_error;
mod list_kind;
mod numbers;
mod opened;
mod reserved;
mod v1;
mod v2;
mod worked_encodings;

pub use list_error::ListError;
pub use list_kind::ListKind;
