//! Packed lists of version 2: a header, a skip entry for each whole block, the bodies of the blocks, and the values that are left.
//!
//! ```text
//! 02 02 01 21 00 00 00          version 2, strictly sorted, 1 lane, 33 values
//! 00 00 00 00 00 1f 00 00 00    an entry: width 0, offset 0, last value 31
//! 20 00 00 00                   the value 32
//! ```

pub use crate::blocks::reads::{PackedList, Reads};
pub use crate::opened::intersect;
pub use crate::v2::upgrading::upgrade;
pub use crate::v2::writing::encode;
