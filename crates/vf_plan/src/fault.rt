ghost use Rattle.std.specs.Prelude.{◌≡◌};
ghost use Rattle.vf_plan.specs.declared.fault.PlanKind.TheVariants as kinds;
ghost use Rattle.vf_plan.specs.Reading.{at_none};

use std::alloc::{AllocError, AllocFailed};
use thiserror::Error;

/// What is wrong with a plan. The numbers are those of its fault lines.
#[derive(Clone, Copy, Debug, PartialEq, Eq, Error)]
pub enum PlanKind {
    /// The bytes are not UTF-8, or write no JSON value.
    #[error("the plan is not JSON")]
    NotJson = 1,
    /// The value, or a node of it, has another form than docs/FORMATS.md, "The plan", gives it.
    #[error("the plan, or a node of it, has another form")]
    Shape = 2,
    /// An earlier node has the name.
    #[error("an earlier node has the name")]
    DuplicateName = 3,
    /// No earlier node has the name that stands at `after`.
    #[error("no earlier node has the name of the parent")]
    UnknownParent = 4,
    /// There are more than 4,096 nodes.
    #[error("the plan has too many nodes")]
    TooMany = 5,
    /// A segment has more than 65,536 bytes, the segments from the root to the node more than
    /// 1,048,576, or an expectation more than 262,144.
    #[error("a segment, a path or an expectation is too long")]
    TooLong = 6,
    /// A text of hex digits has an odd length, or another byte.
    #[error("a text of hex digits is malformed")]
    BadHex = 7,
    /// No node is a test.
    #[error("the plan has no tests")]
    NoTest = 8,
    /// More than 64 nodes are on the path from the root to the node.
    #[error("too many nodes are on the path")]
    TooDeep = 9,
    /// Memory ran out. It may come at any plan.
    #[error("out of memory")]
    Memory = 10,
}

/// Why a plan was not read: what is wrong, and the number of the node that is at fault, from 0, where
/// one is.
#[derive(Clone, Copy, Debug, PartialEq, Eq, Error)]
#[error("{kind}")]
pub struct PlanFault {
    pub kind: PlanKind,
    pub node: Option<u32>,
}

impl From<AllocError> for PlanKind {
    ghost from_gives = { λ _ kind. kind ≡ kinds.Memory };

    fn from(_error: AllocError) -> PlanKind {
        PlanKind::Memory
    }
}

impl<T: Drop> From<AllocFailed<T>> for PlanKind {
    ghost from_gives = { λ _ kind. kind ≡ kinds.Memory };

    fn from(_error: AllocFailed<T>) -> PlanKind {
        PlanKind::Memory
    }
}

impl From<PlanKind> for PlanFault {
    ghost from_gives = { λ kind fault. fault ≡ at_none kind };

    fn from(kind: PlanKind) -> PlanFault {
        PlanFault { kind, node: None }
    }
}
