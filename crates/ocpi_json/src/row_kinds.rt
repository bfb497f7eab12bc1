//! The kinds of rows.

ghost use Rattle.std.specs.Prelude.{◌≡◌};
ghost use Rattle.ocpi_json.specs.RowKeys.{row_kind_word, row_kind_of, kind_of_key};

use ocpi_types::{RowKey, Word};

/// The kind of a row, under whose word the row is stored.
#[derive(Clone, Copy)]
pub enum RowKind {
    Count,
    Reply,
    Token,
    Push,
    Service,
    Spent,
    Mark,
    Reservation,
    Pending,
    Result,
    Session,
    Cdr,
    Command,
}

impl RowKind {
    /// The kind of the row of that key.
    pub fn of_key(key: &RowKey) -> RowKind
        ensures { result ≡ kind_of_key key.now }
    {
        match key {
            RowKey::Count { .. } => RowKind::Count,
            RowKey::Reply { .. } => RowKind::Reply,
            RowKey::Token { .. } => RowKind::Token,
            RowKey::Push { .. } => RowKind::Push,
            RowKey::Service { .. } => RowKind::Service,
            RowKey::Spent { .. } => RowKind::Spent,
            RowKey::Mark { .. } => RowKind::Mark,
            RowKey::Reservation { .. } => RowKind::Reservation,
            RowKey::Pending { .. } => RowKind::Pending,
            RowKey::Result { .. } => RowKind::Result,
            RowKey::Session { .. } => RowKind::Session,
            RowKey::Cdr { .. } => RowKind::Cdr,
            RowKey::Command { .. } => RowKind::Command,
        }
    }
}

impl Word for RowKind {
    ghost entry = { row_kind_of };

    ghost spelling = { row_kind_word };

    fn of_word(word: &str) -> Option<RowKind> {
        match word {
            "count" => Some(RowKind::Count),
            "reply" => Some(RowKind::Reply),
            "token" => Some(RowKind::Token),
            "push" => Some(RowKind::Push),
            "service" => Some(RowKind::Service),
            "spent" => Some(RowKind::Spent),
            "mark" => Some(RowKind::Mark),
            "reservation" => Some(RowKind::Reservation),
            "pending" => Some(RowKind::Pending),
            "result" => Some(RowKind::Result),
            "session" => Some(RowKind::Session),
            "cdr" => Some(RowKind::Cdr),
            "command" => Some(RowKind::Command),
            _ => None,
        }
    }

    fn word(&self) -> &'static str {
        match *self {
            RowKind::Count => "count",
            RowKind::Reply => "reply",
            RowKind::Token => "token",
            RowKind::Push => "push",
            RowKind::Service => "service",
            RowKind::Spent => "spent",
            RowKind::Mark => "mark",
            RowKind::Reservation => "reservation",
            RowKind::Pending => "pending",
            RowKind::Result => "result",
            RowKind::Session => "session",
            RowKind::Cdr => "cdr",
            RowKind::Command => "command",
        }
    }
}
