//! Why a line was refused.

ghost use Rattle.std.specs.Prelude.{◌≡◌};
ghost use Rattle.json_text.specs.Fault.{fault_field, fault_name, fault_number};
ghost use Rattle.json_text.specs.declared.fault.JsonFault.TheVariants.{Memory};

use ocpi_types::Field;
use std::alloc::{AllocError, AllocFailed};
use std::error::Error;
use std::fmt;

/// Why a line was refused: the first refusal that applies.
#[derive(Clone, Copy, Debug, PartialEq, Eq)]
pub enum JsonFault {
    /// No JSON, not UTF-8, or too long.
    Syntax,
    /// A number that RFC 8259 does not have.
    BadNumberToken,
    /// A text that begins with the escape of U+0001, by which numbers are marked.
    TaggedText,
    /// A required member that is absent or null.
    Missing(Field),
    /// A member of another kind of value, length, character, moment or number.
    WrongForm(Field),
    /// A word that is not in the member's list.
    UnknownWord(Field),
    /// A kind of packet, an event or an order that is not known.
    UnknownKind,
    /// Memory ran out.
    Memory,
}

impl JsonFault {
    /// The number under which it is told.
    pub fn number(self) -> u64
        ensures { result ≡ fault_number self }
    {
        match self {
            JsonFault::Syntax => 1,
            JsonFault::BadNumberToken => 2,
            JsonFault::TaggedText => 3,
            JsonFault::Missing(_) => 4,
            JsonFault::WrongForm(_) => 5,
            JsonFault::UnknownWord(_) => 6,
            JsonFault::UnknownKind => 7,
            JsonFault::Memory => 8,
        }
    }

    /// Its name.
    pub fn name(self) -> &'static str
        ensures { result.now ≡ fault_name self }
    {
        match self {
            JsonFault::Syntax => "Syntax",
            JsonFault::BadNumberToken => "BadNumberToken",
            JsonFault::TaggedText => "TaggedText",
            JsonFault::Missing(_) => "Missing",
            JsonFault::WrongForm(_) => "WrongForm",
            JsonFault::UnknownWord(_) => "UnknownWord",
            JsonFault::UnknownKind => "UnknownKind",
            JsonFault::Memory => "Memory",
        }
    }

    /// The member that is at fault, where one is.
    pub fn field(self) -> Option<Field>
        ensures { result ≡ fault_field self }
    {
        match self {
            JsonFault::Missing(field)
            | JsonFault::WrongForm(field)
            | JsonFault::UnknownWord(field) => Some(field),
            JsonFault::Syntax
            | JsonFault::BadNumberToken
            | JsonFault::TaggedText
            | JsonFault::UnknownKind
            | JsonFault::Memory => None,
        }
    }
}

impl fmt::Display for JsonFault {
    ghost use Rattle.std.specs.Prelude.{Some};
    ghost use Rattle.json_text.specs.Fault.{fault_text};

    ghost output = { λ e. Some (fault_text e) };

    fn fmt<W: fmt::Write>(&self, f: &mut fmt::Formatter<W>) -> fmt::Result {
        match self {
            JsonFault::Syntax => write!(f, "1 Syntax"),
            JsonFault::BadNumberToken => write!(f, "2 BadNumberToken"),
            JsonFault::TaggedText => write!(f, "3 TaggedText"),
            JsonFault::Missing(field) => write!(f, "4 Missing({})", field.name()),
            JsonFault::WrongForm(field) => write!(f, "5 WrongForm({})", field.name()),
            JsonFault::UnknownWord(field) => write!(f, "6 UnknownWord({})", field.name()),
            JsonFault::UnknownKind => write!(f, "7 UnknownKind"),
            JsonFault::Memory => write!(f, "8 Memory"),
        }
    }
}

impl Error for JsonFault {}

impl From<AllocError> for JsonFault {
    ghost from_gives = { λ _ e. e ≡ Memory };

    fn from(_e: AllocError) -> JsonFault {
        JsonFault::Memory
    }
}

impl<T: Drop> From<AllocFailed<T>> for JsonFault {
    ghost from_gives = { λ _ e. e ≡ Memory };

    fn from(_e: AllocFailed<T>) -> JsonFault {
        JsonFault::Memory
    }
}
