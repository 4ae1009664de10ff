//! Comparisons.
//!
//! Trick: as functions, so that the prover carries nothing over from one to the next.

use std::fmt::Debug;
use std::process::Abort;

/// Checks that the value found in this row of a table is the wanted one.
pub fn same<T: PartialEq + Debug>(rt: &impl Abort, row: &str, found: &T, wanted: &T) {
    assert_eq!(rt; *found, *wanted, "in the row: {row}");
}

/// Checks that the items found in this row of a table are the wanted ones.
pub fn same_items<T: PartialEq + Debug>(rt: &impl Abort, row: &str, found: &[T], wanted: &[T]) {
    assert_eq!(rt; *found, *wanted, "in the row: {row}");
}
