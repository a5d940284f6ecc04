//! Why a number is refused.

use thiserror::Error;

/// Why there is no number where one begins (clause 3.5).
#[derive(Clone, Copy, Debug, PartialEq, Eq, Error)]
pub enum NumberFault {
    /// A `'` that no base and digit follow, a size of 0, a decimal above 2^128 - 1, or a plain number above 2^32 - 1.
    #[error("a bad number")]
    BadNumber,
    /// A size above 128 bits, of a number that is not a [`NumberFault::BadNumber`].
    #[error("a number of more than 128 bits")]
    TooWide,
}
