//! What the kinds do to a register: values to codes before packing, codes to values after unpacking.

pub(crate) mod sinks;
pub(crate) mod transformers;
