//! Records by their keys: the keys that occur twice or are absent from another list, the order of records that stay where they
//! are, and the polygons that records name.

pub(crate) mod absent;
pub(crate) mod number_order;
pub(crate) mod polygon_set;
pub(crate) mod repeated;
