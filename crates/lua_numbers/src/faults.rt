//! The faults of arithmetic.

use thiserror::Error;

/// Why an arithmetic operation has no result.
#[derive(Clone, Copy, Debug, PartialEq, Eq, Error)]
pub enum NumFault {
    /// The result is beyond 99,999,999,999,999 either way.
    #[error("number out of range")]
    Range,
    /// The result is no whole number.
    #[error("number has no whole result")]
    Inexact,
    /// The divisor is 0.
    #[error("attempt to divide by zero")]
    ByZero,
}
