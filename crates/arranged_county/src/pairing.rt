//! A value, and the outcome of a later step that can fail.
//!
//! Trick: if the step fails, the prover reads one call that drops the value, which otherwise is the drop of each part.

ghost use Rattle.std.specs.Prelude.{IfOk, Ok, OnOk, ◌≡◌};

use std::alloc::AllocError;

/// Pairs a value with another one, if that could be made.
///
/// # Errors
///
/// The error of the other value.
pub fn both<A: Drop, B: Drop>(first: A, second: Result<B, AllocError>) -> Result<(A, B), AllocError>
    ensures first { IfOk result (λ pair. pair.0 ≡ first) }
    ensures second { IfOk result (λ pair. second ≡ Ok pair.1) }
{
    Ok((first, second?))
}

/// Returns a value, if the step after it succeeded.
///
/// # Errors
///
/// The error of that step.
pub fn if_done<A: Drop>(value: A, done: Result<(), AllocError>) -> Result<A, AllocError>
    ensures value { IfOk result (λ kept. kept ≡ value) }
    ensures done { OnOk result (done ≡ Ok tt) }
{
    done?;
    Ok(value)
}
