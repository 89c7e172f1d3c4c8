//! Chains of packed blocks, packed lists, and the line program.
//!
//! [`chain`] packs many blocks of one kind end to end. [`list`] encodes a list of any length, and decodes untrusted bytes. [`list2`] opens
//! lists in order without unpacking. [`run`] reads lines to the end of a reader and writes the answer to each; [`ending`] says how a
//! program then ends.
//!
//! ```text
//! pack 1x plain 1 1*32    ffffffff
//! enc 1x plain 5          0100010100000005000000
//! hello                   refused 1
//! ```
#![tactic(auto)]

mod answer;
pub mod chain;
pub mod laws;
mod line;
mod line_loop;
mod output;
mod run_error;
mod writing;

pub use bitpack_lists::{ListError, ListKind, list, list2};
pub use line_loop::run;
pub use run_error::{RunError, ending};
