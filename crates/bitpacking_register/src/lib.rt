//! Registers: the words that a machine works on at once, seen as a list of `u32`.
//!
//! The kernels of the crate `bitpacking` are written over the trait [`Register`], whose contract says what each operation
//! does to that list. A register of one lane is a `u32`; one of four or eight lanes is an array or a
//! vector of `std::simd`.
#![tactic(auto)]

mod arrays;
pub mod laws;
mod register;
mod vectors;
mod word;

pub use register::Register;
