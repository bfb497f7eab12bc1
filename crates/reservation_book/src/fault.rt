//! Why a request about a reservation was refused.

ghost use Rattle.std.specs.Prelude.{◌≡◌, Some};

use ocpi_text::Whole;
use std::alloc::AllocError;
use std::error::Error;
use std::fmt;

/// Why a request about a reservation was refused: the first of these that applies, in this order.
#[derive(Clone, Copy, Debug, PartialEq, Eq)]
pub enum ReservationFault {
    /// A request with this greater number, about the reservation of this id, was taken before.
    Stale(Whole),
    /// The provider's reservation of this id stands at another location.
    OtherLocation,
    /// Memory ran out, for a request that has neither of these faults.
    Memory,
}

impl fmt::Display for ReservationFault {
    ghost use Rattle.reservation_book.specs.FaultText.{fault_text};

    ghost output = { λ f. Some (fault_text f) };

    fn fmt<W: fmt::Write>(&self, f: &mut fmt::Formatter<W>) -> fmt::Result {
        match self {
            ReservationFault::Stale(_) => f.write_str("1 Stale"),
            ReservationFault::OtherLocation => f.write_str("2 OtherLocation"),
            ReservationFault::Memory => f.write_str("3 Memory"),
        }
    }
}

impl Error for ReservationFault {}

impl From<AllocError> for ReservationFault {
    ghost use Rattle.reservation_book.specs.declared.fault.ReservationFault.TheVariants.{Memory};

    ghost from_gives = { λ _ e. e ≡ Memory };

    fn from(_e: AllocError) -> ReservationFault {
        ReservationFault::Memory
    }
}
