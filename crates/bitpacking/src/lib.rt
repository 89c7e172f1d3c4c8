//! Blocks of integers, each value packed in as many bits as the greatest code of its block needs.
//!
//! A packer packs blocks of a fixed length, finds the least width of a block, and writes the block in that many bits per
//! value. The bytes hold neither the width nor the kind of the block: the caller stores both.
//!
//! <!-- crates/bitpack_uses/src/sorted_block.rt -->
//! ```rust
//! use bitpacking::{BitPacker, BitPacker4x, MAX_BLOCK_SIZE};
//!
//! /// Packs 128 increasing values at their least width, and unpacks them again.
//! pub fn sorted_block(values: &[u32; 128]) -> [u32; 128] {
//!     let packer = BitPacker4x::new();
//!     let width = packer.num_bits_strictly_sorted(None, values);
//!     let mut bytes = [0; MAX_BLOCK_SIZE];
//!     let size = packer.compress_strictly_sorted(None, values, &mut bytes, width);
//!
//!     // The bytes do not hold the width: the caller stores it.
//!     let mut unpacked = [0; 128];
//!     packer.decompress_strictly_sorted(None, &bytes[..size], &mut unpacked, width);
//!     unpacked
//! }
//! ```
#![tactic(auto)]

mod bit_packer;
mod bitpacker1x;
mod bitpacker4x;
mod bitpacker8x;
mod by_kind;
mod counted;
mod dispatch;
mod instruction_set;
mod kernel;
mod kind;
mod kinds;
pub mod laws;
mod limits;
mod memory;
mod unmeasured;
mod worked_blocks;

pub use bit_packer::BitPacker;
pub use bitpacker1x::BitPacker1x;
pub use bitpacker4x::BitPacker4x;
pub use bitpacker8x::BitPacker8x;
pub use counted::Counted;
pub use kind::Kind;
pub use limits::{LANE_LEN, MAX_BLOCK_LEN, MAX_BLOCK_SIZE, MAX_LANES, MAX_WIDTH};
pub use memory::Steps;
pub use unmeasured::Unmeasured;
