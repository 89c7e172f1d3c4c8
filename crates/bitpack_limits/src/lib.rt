//! Tests that allocate all memory, so that calls have to return without, or that run long; and tests of blocks and chains, which also
//! run without memory. A sanitizer neither refuses memory nor runs fast.
#![tactic(auto)]

#[cfg(test)]
mod tests;
