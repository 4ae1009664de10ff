//! The calls of the library: from a set in memory or from sources to a canonical text, a hash or a verdict.

pub(crate) mod checking;
pub(crate) mod comparing;
pub(crate) mod fingerprinting;
pub(crate) mod linked;
pub(crate) mod making;
pub(crate) mod normalising;
pub(crate) mod products;
pub(crate) mod reading;
pub(crate) mod respelling;
