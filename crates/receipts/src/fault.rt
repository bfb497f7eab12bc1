//! Why receipts are not those of a history.

ghost use Rattle.std.specs.Prelude.{◌≡◌};

use std::alloc::AllocError;
use thiserror::Error;

/// Why receipts are not those of a history.
#[derive(Clone, Copy, Debug, PartialEq, Error)]
pub enum AuditFault {
    /// The history has no entry of that place.
    #[error("the history has no entry {0}")]
    Missing(usize),
    /// The entry of that place has another event or other packets, or an earlier receipt has that place.
    #[error("no receipt of its own fits entry {0}")]
    Differs(usize),
    /// Memory ran out.
    #[error("memory ran out")]
    Memory,
}

impl From<AllocError> for AuditFault {
    ghost use Rattle.receipts.specs.declared.fault.AuditFault.TheVariants.{Memory};

    ghost from_gives = { λ _ e. e ≡ Memory };

    fn from(_e: AllocError) -> AuditFault {
        AuditFault::Memory
    }
}
