//! Bounds of the blocks of a word.

/// What [`bound_blocks`](crate::bound_blocks) wrote for a word, or nothing.
#[repr(C)]
#[derive(Clone, Copy)]
pub struct BlockBounds<'a> {
    /// A bound for each of the first blocks of 128 positions.
    pub parts: &'a [u32],
}
