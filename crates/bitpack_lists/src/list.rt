//! Packed lists of version 1: a header, the whole blocks, each after its least width, and the values that are left.
//!
//! ```text
//! 01 02 01 21 00 00 00    version 1, strictly sorted, 1 lane, 33 values
//! 00                      a block of width 0: 0 to 31
//! 20 00 00 00             the value 32
//! ```

pub use crate::v1::reading::decode;
pub use crate::v1::writing::encode;
