//! Which registers a packer of several lanes runs on.

use crate::dispatch::ByWidth;
use crate::kernel::rolled::Rolled;
use bitpacking_register::Register;
use std::simd::prelude::*;

#[derive(Clone, Copy)]
pub(crate) enum InstructionSet {
    /// Vectors, with a kernel for each width.
    Lanes,
    /// Arrays, a word at a time, with one loop for all widths.
    Scalar,
}

/// The registers of `Lanes`.
pub(crate) trait Vector: Register {}

impl Vector for u32x4 {}

impl Vector for u32x8 {}

/// The registers of `Scalar`.
pub(crate) trait Array: Register {}

impl Array for [u32; 4] {}

impl Array for [u32; 8] {}

/// Kernels with the registers that they run on: a call with other ones does not compile.
pub(crate) trait RunsOn<R: Register> {}

impl<R: Vector> RunsOn<R> for ByWidth {}

impl<R: Array> RunsOn<R> for Rolled {}

impl RunsOn<u32> for ByWidth {}
