ghost use Rattle.std.specs.Prelude.{◌≡◌};
ghost use Rattle.vf_early.specs.declared.fault.EarlyFault.TheVariants as faults;

use std::alloc::{AllocError, AllocFailed};
use vf_base::Memory;

/// Why no design was read.
#[derive(Clone, Copy, Debug, PartialEq, Eq)]
pub enum EarlyFault {
    /// The bytes spell no early design.
    NotBuilt = 1,
    /// Memory ran out.
    Memory = 2,
}

impl From<AllocError> for EarlyFault {
    ghost from_gives = { λ _ fault. fault ≡ faults.Memory };

    fn from(_error: AllocError) -> EarlyFault {
        EarlyFault::Memory
    }
}

impl<T: Drop> From<AllocFailed<T>> for EarlyFault {
    ghost from_gives = { λ _ fault. fault ≡ faults.Memory };

    fn from(_error: AllocFailed<T>) -> EarlyFault {
        EarlyFault::Memory
    }
}

impl From<Memory> for EarlyFault {
    ghost from_gives = { λ _ fault. fault ≡ faults.Memory };

    fn from(_error: Memory) -> EarlyFault {
        EarlyFault::Memory
    }
}
