use thiserror::Error;
use vf_base::Place;

/// Why an expression has no size. Of two faults at one place the one with the smaller number counts.
#[derive(Clone, Copy, Debug, PartialEq, Eq, Error)]
pub enum SizeKind {
    /// A signal, `$time` or `$feof` is read where a constant is needed.
    #[error("not a constant")]
    NotConstant = 1,
    /// A width of 0 or above 128 bits, a count of a replication that is unknown or below 1, a bound that is unknown or does not fit
    /// 64 bits, a memory that stands other than by one element, or a select that does not fit the declaration.
    #[error("a width, a count or a select that cannot be")]
    Width = 2,
    /// A name that is not declared.
    #[error("an unknown name")]
    UnknownName = 3,
}

/// Why an expression has no size, and where.
#[derive(Clone, Copy, Debug, PartialEq, Eq, Error)]
#[error("{kind} at {line}:{column}", line = .place.line, column = .place.column)]
pub struct SizeFault {
    pub kind: SizeKind,
    pub place: Place,
}
