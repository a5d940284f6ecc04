//! The bases of numbers.

/// The base of a based number (clause 3.5.1).
#[derive(Clone, Copy, Debug, PartialEq, Eq)]
pub enum Base {
    Binary,
    Octal,
    Decimal,
    Hex,
}
