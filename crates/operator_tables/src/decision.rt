//! What a command is decided to be.

use ocpi_text::CiKey;
use ocpi_types::{CommandResponseType, CommandResultType, Place, RefusalCode, Reservation};

/// The decision on a command: what is answered, and what follows (OCPI 2.2.1, Commands).
#[derive(Clone, Copy)]
pub enum Decision {
    /// A response of that status, without data.
    Refused(RefusalCode),
    /// That response alone.
    Answered(CommandResponseType),
    /// The response ACCEPTED. The command is open until its result.
    Opened,
    /// The response ACCEPTED, to a start, which is open until its result. It takes this place, and uses up the
    /// reservation that held it, if one did.
    Started {
        place: Place,
        reservation_id: Option<CiKey<36>>,
    },
    /// The response ACCEPTED, and then that result.
    Resulted(CommandResultType),
    /// The response ACCEPTED, and then that result. The reservation's mark is set.
    Noted {
        reservation_id: CiKey<36>,
        result: CommandResultType,
    },
    /// The response ACCEPTED, and then the result ACCEPTED. The reservation's mark is set, and it is made, or takes
    /// the place of the one of its id.
    Reserved {
        reservation_id: CiKey<36>,
        reservation: Reservation,
    },
    /// The response ACCEPTED, and then the result ACCEPTED. The reservation's mark is set, and it ends.
    Cancelled {
        reservation_id: CiKey<36>,
    },
}

impl Decision {
    ghost use Rattle.std.specs.Prelude.{◌≡◌};
    ghost use Rattle.operator_tables.specs.Decides.{result_of};

    /// The result that is given at once.
    pub fn result(&self) -> Option<CommandResultType>
        ensures { result ≡ result_of self.now }
    {
        match self {
            Decision::Resulted(result) => Some(*result),
            Decision::Noted { result, .. } => Some(*result),
            Decision::Reserved { .. } => Some(CommandResultType::Accepted),
            Decision::Cancelled { .. } => Some(CommandResultType::Accepted),
            Decision::Refused(_)
            | Decision::Answered(_)
            | Decision::Opened
            | Decision::Started { .. } => None,
        }
    }
}
