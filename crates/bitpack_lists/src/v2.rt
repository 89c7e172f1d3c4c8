//! Version 2: opening and upgrading to it.

pub(crate) mod opening;
pub(crate) mod upgrading;
pub(crate) mod writing;
