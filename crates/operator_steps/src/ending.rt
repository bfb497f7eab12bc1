//! How an open command ends.

use ocpi_text::{Party, PartyKey, Whole};
use ocpi_types::CommandResultType;

/// The result of an open command, and whose it is (OCPI 2.2.1, Commands: CommandResult).
#[derive(Clone, Copy)]
pub struct Ending {
    pub provider: PartyKey,
    /// The provider, as the site spells it.
    pub to: Party,
    /// The provider's number of the command.
    pub number: Whole,
    pub result: CommandResultType,
}
