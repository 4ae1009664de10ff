//! Record keys, and items in their order.

pub(crate) mod keyed;
pub(crate) mod record_keys;
