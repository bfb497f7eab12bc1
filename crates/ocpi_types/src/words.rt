//! Closed lists of words.

ghost use Rattle.std.specs.Prelude.{◌≡◌, ℕ, List, Option};
ghost use Rattle.ocpi_types.specs.Words.{
  token_type_word,
  token_type_of,
  whitelist_word,
  whitelist_of,
  response_word,
  response_of,
  result_word,
  result_of,
  allowed_word,
  allowed_of,
  status_word,
  status_of,
  method_word,
  method_of,
  kind_word,
  kind_of_word,
};

/// An entry of a closed list of words.
pub trait Word: Drop {
    /// The entry that a word names.
    ghost entry: { List ℕ → Option Self };

    /// How an entry is written.
    ghost spelling: { Self → List ℕ };

    /// The entry that a word names, if there is one. Words are compared exactly.
    fn of_word(word: &str) -> Option<Self>
        ensures { result ≡ Self.entry word.now };

    /// The word that is written.
    fn word(&self) -> &'static str
        ensures { result.now ≡ Self.spelling self.now };
}

/// The type of a token (OCPI 2.2.1, Tokens: TokenType).
#[derive(Clone, Copy, PartialEq)]
pub enum TokenType {
    AdHocUser,
    AppUser,
    Other,
    Rfid,
}

impl Word for TokenType {
    ghost entry = { token_type_of };

    ghost spelling = { token_type_word };

    fn of_word(word: &str) -> Option<TokenType> {
        match word {
            "AD_HOC_USER" => Some(TokenType::AdHocUser),
            "APP_USER" => Some(TokenType::AppUser),
            "OTHER" => Some(TokenType::Other),
            "RFID" => Some(TokenType::Rfid),
            _ => None,
        }
    }

    fn word(&self) -> &'static str {
        match *self {
            TokenType::AdHocUser => "AD_HOC_USER",
            TokenType::AppUser => "APP_USER",
            TokenType::Other => "OTHER",
            TokenType::Rfid => "RFID",
        }
    }
}

/// When a token may be used without asking the provider (OCPI 2.2.1, Tokens: WhitelistType).
#[derive(Clone, Copy, PartialEq)]
pub enum WhitelistType {
    Always,
    Allowed,
    AllowedOffline,
    Never,
}

impl Word for WhitelistType {
    ghost entry = { whitelist_of };

    ghost spelling = { whitelist_word };

    fn of_word(word: &str) -> Option<WhitelistType> {
        match word {
            "ALWAYS" => Some(WhitelistType::Always),
            "ALLOWED" => Some(WhitelistType::Allowed),
            "ALLOWED_OFFLINE" => Some(WhitelistType::AllowedOffline),
            "NEVER" => Some(WhitelistType::Never),
            _ => None,
        }
    }

    fn word(&self) -> &'static str {
        match *self {
            WhitelistType::Always => "ALWAYS",
            WhitelistType::Allowed => "ALLOWED",
            WhitelistType::AllowedOffline => "ALLOWED_OFFLINE",
            WhitelistType::Never => "NEVER",
        }
    }
}

/// What an operator answers to a command, before it is carried out (OCPI 2.2.1, Commands: CommandResponseType).
#[derive(Clone, Copy, PartialEq)]
pub enum CommandResponseType {
    NotSupported,
    Rejected,
    Accepted,
    UnknownSession,
}

impl Word for CommandResponseType {
    ghost entry = { response_of };

    ghost spelling = { response_word };

    fn of_word(word: &str) -> Option<CommandResponseType> {
        match word {
            "NOT_SUPPORTED" => Some(CommandResponseType::NotSupported),
            "REJECTED" => Some(CommandResponseType::Rejected),
            "ACCEPTED" => Some(CommandResponseType::Accepted),
            "UNKNOWN_SESSION" => Some(CommandResponseType::UnknownSession),
            _ => None,
        }
    }

    fn word(&self) -> &'static str {
        match *self {
            CommandResponseType::NotSupported => "NOT_SUPPORTED",
            CommandResponseType::Rejected => "REJECTED",
            CommandResponseType::Accepted => "ACCEPTED",
            CommandResponseType::UnknownSession => "UNKNOWN_SESSION",
        }
    }
}

/// What became of a command that was carried out, or why it was not (OCPI 2.2.1, Commands: CommandResultType).
#[derive(Clone, Copy, PartialEq)]
pub enum CommandResultType {
    Accepted,
    CanceledReservation,
    EvseOccupied,
    EvseInoperative,
    Failed,
    NotSupported,
    Rejected,
    Timeout,
    UnknownReservation,
}

impl Word for CommandResultType {
    ghost entry = { result_of };

    ghost spelling = { result_word };

    fn of_word(word: &str) -> Option<CommandResultType> {
        match word {
            "ACCEPTED" => Some(CommandResultType::Accepted),
            "CANCELED_RESERVATION" => Some(CommandResultType::CanceledReservation),
            "EVSE_OCCUPIED" => Some(CommandResultType::EvseOccupied),
            "EVSE_INOPERATIVE" => Some(CommandResultType::EvseInoperative),
            "FAILED" => Some(CommandResultType::Failed),
            "NOT_SUPPORTED" => Some(CommandResultType::NotSupported),
            "REJECTED" => Some(CommandResultType::Rejected),
            "TIMEOUT" => Some(CommandResultType::Timeout),
            "UNKNOWN_RESERVATION" => Some(CommandResultType::UnknownReservation),
            _ => None,
        }
    }

    fn word(&self) -> &'static str {
        match *self {
            CommandResultType::Accepted => "ACCEPTED",
            CommandResultType::CanceledReservation => "CANCELED_RESERVATION",
            CommandResultType::EvseOccupied => "EVSE_OCCUPIED",
            CommandResultType::EvseInoperative => "EVSE_INOPERATIVE",
            CommandResultType::Failed => "FAILED",
            CommandResultType::NotSupported => "NOT_SUPPORTED",
            CommandResultType::Rejected => "REJECTED",
            CommandResultType::Timeout => "TIMEOUT",
            CommandResultType::UnknownReservation => "UNKNOWN_RESERVATION",
        }
    }
}

/// Whether a token may be used now (OCPI 2.2.1, Tokens: AllowedType).
#[derive(Clone, Copy, PartialEq)]
pub enum AllowedType {
    Allowed,
    Blocked,
    Expired,
    NoCredit,
    NotAllowed,
}

impl Word for AllowedType {
    ghost entry = { allowed_of };

    ghost spelling = { allowed_word };

    fn of_word(word: &str) -> Option<AllowedType> {
        match word {
            "ALLOWED" => Some(AllowedType::Allowed),
            "BLOCKED" => Some(AllowedType::Blocked),
            "EXPIRED" => Some(AllowedType::Expired),
            "NO_CREDIT" => Some(AllowedType::NoCredit),
            "NOT_ALLOWED" => Some(AllowedType::NotAllowed),
            _ => None,
        }
    }

    fn word(&self) -> &'static str {
        match *self {
            AllowedType::Allowed => "ALLOWED",
            AllowedType::Blocked => "BLOCKED",
            AllowedType::Expired => "EXPIRED",
            AllowedType::NoCredit => "NO_CREDIT",
            AllowedType::NotAllowed => "NOT_ALLOWED",
        }
    }
}

/// How far a session is (OCPI 2.2.1, Sessions: SessionStatus).
#[derive(Clone, Copy, PartialEq)]
pub enum SessionStatus {
    Active,
    Completed,
    Invalid,
    Pending,
    Reservation,
}

impl Word for SessionStatus {
    ghost entry = { status_of };

    ghost spelling = { status_word };

    fn of_word(word: &str) -> Option<SessionStatus> {
        match word {
            "ACTIVE" => Some(SessionStatus::Active),
            "COMPLETED" => Some(SessionStatus::Completed),
            "INVALID" => Some(SessionStatus::Invalid),
            "PENDING" => Some(SessionStatus::Pending),
            "RESERVATION" => Some(SessionStatus::Reservation),
            _ => None,
        }
    }

    fn word(&self) -> &'static str {
        match *self {
            SessionStatus::Active => "ACTIVE",
            SessionStatus::Completed => "COMPLETED",
            SessionStatus::Invalid => "INVALID",
            SessionStatus::Pending => "PENDING",
            SessionStatus::Reservation => "RESERVATION",
        }
    }
}

/// How a session was authorized (OCPI 2.2.1, CDRs: AuthMethod).
#[derive(Clone, Copy, PartialEq)]
pub enum AuthMethod {
    AuthRequest,
    Command,
    Whitelist,
}

impl Word for AuthMethod {
    ghost entry = { method_of };

    ghost spelling = { method_word };

    fn of_word(word: &str) -> Option<AuthMethod> {
        match word {
            "AUTH_REQUEST" => Some(AuthMethod::AuthRequest),
            "COMMAND" => Some(AuthMethod::Command),
            "WHITELIST" => Some(AuthMethod::Whitelist),
            _ => None,
        }
    }

    fn word(&self) -> &'static str {
        match *self {
            AuthMethod::AuthRequest => "AUTH_REQUEST",
            AuthMethod::Command => "COMMAND",
            AuthMethod::Whitelist => "WHITELIST",
        }
    }
}

/// What a packet carries: the word of its member `kind`.
#[derive(Clone, Copy)]
pub enum PacketKind {
    StartSession,
    StopSession,
    ReserveNow,
    CancelReservation,
    UnlockConnector,
    CommandResponse,
    CommandResult,
    PutToken,
    Authorize,
    Authorization,
    PutSession,
    PostCdr,
    Ack,
}

impl Word for PacketKind {
    ghost entry = { kind_of_word };

    ghost spelling = { kind_word };

    fn of_word(word: &str) -> Option<PacketKind> {
        match word {
            "start_session" => Some(PacketKind::StartSession),
            "stop_session" => Some(PacketKind::StopSession),
            "reserve_now" => Some(PacketKind::ReserveNow),
            "cancel_reservation" => Some(PacketKind::CancelReservation),
            "unlock_connector" => Some(PacketKind::UnlockConnector),
            "command_response" => Some(PacketKind::CommandResponse),
            "command_result" => Some(PacketKind::CommandResult),
            "put_token" => Some(PacketKind::PutToken),
            "authorize" => Some(PacketKind::Authorize),
            "authorization" => Some(PacketKind::Authorization),
            "put_session" => Some(PacketKind::PutSession),
            "post_cdr" => Some(PacketKind::PostCdr),
            "ack" => Some(PacketKind::Ack),
            _ => None,
        }
    }

    fn word(&self) -> &'static str {
        match *self {
            PacketKind::StartSession => "start_session",
            PacketKind::StopSession => "stop_session",
            PacketKind::ReserveNow => "reserve_now",
            PacketKind::CancelReservation => "cancel_reservation",
            PacketKind::UnlockConnector => "unlock_connector",
            PacketKind::CommandResponse => "command_response",
            PacketKind::CommandResult => "command_result",
            PacketKind::PutToken => "put_token",
            PacketKind::Authorize => "authorize",
            PacketKind::Authorization => "authorization",
            PacketKind::PutSession => "put_session",
            PacketKind::PostCdr => "post_cdr",
            PacketKind::Ack => "ack",
        }
    }
}
