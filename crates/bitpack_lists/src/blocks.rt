//! What both versions have of whole blocks: their skip entries, widths and order.

pub(crate) mod measuring;
pub(crate) mod order;
pub(crate) mod reads;
pub(crate) mod testing;
