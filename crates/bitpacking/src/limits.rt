//! The limits of blocks, for room that serves every packer.

use crate::{BitPacker, BitPacker8x};

/// How many values of a block are in each lane. A packer of n lanes has blocks of n times as many.
pub const LANE_LEN: usize = 32;

/// The most lanes of a packer.
pub const MAX_LANES: usize = 8;

/// The greatest width, in bits per value. Every block can be packed at it.
pub const MAX_WIDTH: u8 = 32;

/// The length of the longest block, in values.
pub const MAX_BLOCK_LEN: usize = 256;

/// The size of the longest block at the greatest width, in bytes.
pub const MAX_BLOCK_SIZE: usize = 1024;

const _: () = prove!(MAX_BLOCK_LEN == LANE_LEN * MAX_LANES);

const _: () = prove!(MAX_BLOCK_LEN == BitPacker8x::BLOCK_LEN);

const _: () = prove!(MAX_BLOCK_SIZE == MAX_BLOCK_LEN * MAX_WIDTH as usize / 8);
