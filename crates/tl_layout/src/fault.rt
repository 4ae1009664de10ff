//! Faults of fields, and the failure of a device.

use thiserror::Error;

/// How a field breaks its rule.
#[derive(Clone, Copy, Debug, PartialEq, Eq, Error)]
pub enum FieldKind {
    /// A malformed number field, or no number in a field that requires one.
    #[error("this is not a number of the field")]
    BadNumber,
    /// A malformed or out-of-range coordinate, a pair with one half blank, or no point in a field that
    /// requires one.
    #[error("this is not a point")]
    BadPoint,
    /// A used place after an unused one.
    #[error("a used place follows an unused one")]
    GapInRecord,
}

/// The leftmost fault of a line.
#[derive(Clone, Copy, Debug, PartialEq, Eq, Error)]
#[error("column {column}: {kind}")]
pub struct FieldFault {
    /// How the field breaks its rule.
    pub kind: FieldKind,
    /// The field's first column, counted from 1.
    pub column: u16,
}

/// A reader or a writer failed.
#[derive(Clone, Copy, Debug, PartialEq, Eq, Error)]
#[error("the device failed")]
pub struct DeviceFault;
