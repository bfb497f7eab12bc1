//! What the tables of a node are for, each rule in words of its own over what comes in and what is stored: which token
//! is replaced, which EVSE is unlocked or goes to a reservation, what is taken of what is handed over, how a session
//! goes on, and what an answer or an acknowledgement is about. So a table cannot lose one of these rules unseen.
//!
//! # Promises
//!
//! - A token that an operator holds stays, or its provider sends a later version. Over any events the token in a place
//!   is never older than before. By laws `tokens_are_replaced_by_later`, `tokens_never_fall` (`specs/Replacing`).
//! - An unlock is opened where no other provider has an open start, a session that goes on, or a reservation at its
//!   EVSE. By law `unlocks_are_of_no_other` (`specs/Unlocking`).
//! - Where its provider has a reservation for it, on an EVSE in service that it may be about, a start that is opened
//!   uses one, and takes no free EVSE. By law `reservations_are_used` (`specs/Holding`).
//! - Such a start is opened where it comes for the first time, its token is its sender's and valid, it names no
//!   connector without its EVSE, and its reference was not used. By law `reserved_starts_are_opened`.
//! - A reading makes the next version of the ACTIVE session at its EVSE, unless it is below the last or too high. The
//!   end of the charging makes it COMPLETED, and a PENDING one INVALID. By laws `readings_are_kept`,
//!   `stops_end_sessions` (`specs/Moving`).
//! - A stop of a session of its sender's that goes on is ACCEPTED, and so not UNKNOWN_SESSION, and is open until its
//!   result. By law `own_sessions_are_stopped`.
//! - An answer by which a session begins is ALLOWED, and about the token that its sender was asked about, by party, uid
//!   and type. The session is for that token. By law `answers_are_about_tokens` (`specs/Answering`).
//! - A charge detail record from the right parties that comes for the first time is stored, unless one that differs
//!   shares its id or its session; then nothing changes, and it is refused by 2001. By laws `records_are_taken`,
//!   `conflicts_are_refused` (`specs/Taking`).
//! - A version of a session is stored where none is held, or an older one that is not final. By law
//!   `versions_are_taken`.
//! - A result is stored with the command that names its address and was sent to its sender, where that has none yet and
//!   no other command names the address. By law `results_are_taken`.
//! - A push that its addressee acknowledges with status 1000 is sent no more, by an operator and by a provider. By law
//!   `acknowledged_pushes_end` (`specs/Acknowledging`).
#![tactic(auto)]

pub mod laws;
