//! The closed lists of words, as they are told.

/// A list of words of which a member has one.
#[derive(Clone, Copy)]
pub enum WordList {
    TokenTypes,
    Whitelists,
    CommandResponses,
    CommandResults,
    Allowed,
    Statuses,
    AuthMethods,
    Kinds,
    Events,
    Orders,
}

impl WordList {
    /// The words, joined by a comma and a space.
    pub fn words(self) -> &'static str {
        match self {
            WordList::TokenTypes => "AD_HOC_USER, APP_USER, OTHER, RFID",
            WordList::Whitelists => "ALWAYS, ALLOWED, ALLOWED_OFFLINE, NEVER",
            WordList::CommandResponses => "NOT_SUPPORTED, REJECTED, ACCEPTED, UNKNOWN_SESSION",
            WordList::CommandResults => {
                concat!(
                    "ACCEPTED, CANCELED_RESERVATION, EVSE_OCCUPIED, EVSE_INOPERATIVE, FAILED, NOT_SUPPORTED, ",
                    "REJECTED, TIMEOUT, UNKNOWN_RESERVATION"
                )
            }
            WordList::Allowed => "ALLOWED, BLOCKED, EXPIRED, NO_CREDIT, NOT_ALLOWED",
            WordList::Statuses => "ACTIVE, COMPLETED, INVALID, PENDING, RESERVATION",
            WordList::AuthMethods => "AUTH_REQUEST, COMMAND, WHITELIST",
            WordList::Kinds => {
                concat!(
                    "start_session, stop_session, reserve_now, cancel_reservation, unlock_connector, ",
                    "command_response, command_result, put_token, authorize, authorization, put_session, post_cdr, ack"
                )
            }
            WordList::Events => {
                concat!(
                    "submit, token, service, swipe, accepts, refuses, unlocked, starts, meter, stops, fault, ",
                    "credit, deliver, tick, restart, refused"
                )
            }
            WordList::Orders => {
                "start_session, stop_session, reserve_now, cancel_reservation, unlock_connector"
            }
        }
    }

    /// Whether the word is one of the list.
    pub fn has(self, word: &str) -> bool {
        self.words().split(", ").any(|each| each == word)
    }
}
