//! Version 1: reading and writing.

pub(crate) mod reading;
pub(crate) mod writing;
