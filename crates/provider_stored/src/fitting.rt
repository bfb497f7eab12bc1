//! Which rows may be put beside those that stand, and what is wrong with the others.

ghost use Rattle.std.specs.Prelude.{◌≡◌, ◌↔◌, IfNone, IfSome, IsTrue};
ghost use Rattle.ocpi_text.specs.Text.{key};
ghost use Rattle.ocpi_types.specs.declared.rows.Row.TheVariants as row;
ghost use Rattle.node_steps.specs.Peers.{HasPeer};
ghost use Rattle.handover.specs.Inbox.{IsInConflict};
ghost use Rattle.provider_stored.specs.Fitting.{
  HasOwnReference,
  HasStrangeReference,
  IsFit,
  IsFree,
  IsNext,
  IsSaidTwice,
  IsTaken,
  Spoils,
  given_last,
};

use handover::{CdrTaking, Inbox};
use node_steps::peer_of;
use ocpi_text::{OwnIdKind, Party, PartyKey, Whole};
use ocpi_types::{Cdr, Command, Counter, Push, Reply, Row, SentCommand, Session, Token};
use outbox::Outbox;
use provider_rows::Books;
use stored_rows::{BadReason, own_number};

/// The number that a counter gave last, 0 where it gave none. A provider has no counters of sessions and charge detail
/// records.
fn given_last(books: &Books, counter: Counter) -> Option<Whole>
    ensures { result ≡ given_last books.now.state.rows counter }
{
    match counter {
        Counter::Serial => Some(books.serial()),
        Counter::Request => Some(books.last_request()),
        Counter::Reference => Some(books.desk().references()),
        Counter::Session | Counter::Cdr => None,
    }
}

/// What is wrong with a row of a counter: no provider has the counter, it has a row already, or no number was given.
fn count_fault(books: &Books, counter: Counter, last: Whole) -> Option<BadReason>
    requires { IsNext books.now.state (row.Count counter last) }
    ensures fits { IfNone result (IsFit books.now.state (row.Count counter last)) }
    ensures spoils { IfSome result (Spoils books.now.state (row.Count counter last)) }
{
    let Some(given) = given_last(books, counter) else {
        return Some(BadReason::OfOtherRole);
    };
    if given.value() != 0 {
        return Some(BadReason::Repeated);
    }
    if last.value() == 0 {
        return Some(BadReason::NothingCounted);
    }
    None
}

/// What is wrong with a reply: the request has one already.
fn reply_fault(books: &Books, sender: PartyKey, number: Whole, reply: &Reply) -> Option<BadReason>
    ensures fits { IfNone result (IsFit books.now.state (row.Reply sender number reply.now)) }
    ensures spoils { IfSome result (Spoils books.now.state (row.Reply sender number reply.now)) }
{
    if books.reply(sender, number).is_some() {
        return Some(BadReason::Repeated);
    }
    None
}

/// What is wrong with a token: it is another party's, or one of that type and uid is held.
fn token_fault(books: &Books, token: &Token) -> Option<BadReason>
    ensures fits { IfNone result (IsFit books.now.state (row.Token token.now)) }
    ensures spoils { IfSome result (Spoils books.now.state (row.Token token.now)) }
{
    books.keys_are_own();
    if !token.party.is_same(&books.party()) {
        return Some(BadReason::OfOtherParty);
    }
    let desk = books.desk();
    let held = desk.find(token.party.key(), token.uid.key(), token.token_type);
    if held.is_some() {
        return Some(BadReason::Repeated);
    }
    None
}

/// What is wrong with a session: its token is another party's, or one of that operator and id is held.
fn session_fault(books: &Books, session: &Session) -> Option<BadReason>
    ensures fits { IfNone result (IsFit books.now.state (row.Session session.now)) }
    ensures spoils { IfSome result (Spoils books.now.state (row.Session session.now)) }
{
    books.keys_are_own();
    if !session.cdr_token.party.is_same(&books.party()) {
        return Some(BadReason::OfOtherParty);
    }
    let held = books.inbox().held(&session.party, &session.id);
    if held.is_some() {
        return Some(BadReason::Repeated);
    }
    None
}

/// Whether a charge detail record of that operator is held that differs, of the same id, or of the same session and as
/// well a bill or a credit.
fn is_in_conflict(inbox: &Inbox, cdr: &Cdr) -> bool
    ensures { IsTrue result ↔ IsInConflict inbox.now.rows.cdrs cdr.now }
{
    matches!(
        inbox.cdr_taking(&cdr.cdr_token.party, &cdr.party, cdr),
        Ok(CdrTaking::Conflict)
    )
}

/// What is said of one of two charge detail records of a session that are both bills, or both credits: which of the two
/// it is.
fn twice_reason(cdr: &Cdr) -> BadReason
    ensures { IsSaidTwice cdr.now result }
{
    if cdr.is_credit() {
        BadReason::CreditedTwice
    } else {
        BadReason::BilledTwice
    }
}

/// What is wrong with a charge detail record: its token is another party's, or one of that operator and id is held, or
/// one of its session that is as well a bill or a credit.
fn cdr_fault(books: &Books, cdr: &Cdr) -> Option<BadReason>
    ensures fits { IfNone result (IsFit books.now.state (row.Cdr cdr.now)) }
    ensures spoils { IfSome result (Spoils books.now.state (row.Cdr cdr.now)) }
{
    books.keys_are_own();
    if !cdr.cdr_token.party.is_same(&books.party()) {
        return Some(BadReason::OfOtherParty);
    }
    let inbox = books.inbox();
    if inbox.held_cdr(&cdr.party, &cdr.id).is_some() {
        return Some(BadReason::Repeated);
    }
    if is_in_conflict(inbox, cdr) {
        return Some(twice_reason(cdr));
    }
    None
}

/// What is wrong with a number for a request: it was not given, or a push or a command stands under it, and then what
/// is to be said of that.
fn number_fault(
    outbox: &Outbox,
    number: Whole,
    of_push: BadReason,
    of_command: BadReason,
) -> Option<BadReason>
    ensures free { IfNone result (IsFree outbox.now.rows number) }
    ensures taken { IfSome result (IsTaken outbox.now.rows number of_push of_command) }
{
    if outbox.last_number() < number {
        return Some(BadReason::NotGiven);
    }
    if outbox.get(number).is_some() {
        return Some(of_push);
    }
    if outbox.command(number).is_some() {
        return Some(of_command);
    }
    None
}

/// Whether that party is an operator that the provider deals with.
fn knows(books: &Books, party: &Party) -> bool
    ensures { IsTrue result ↔ HasPeer books.now.state.operators (key party.now) }
{
    peer_of(books.operators(), party.key()).is_some()
}

/// What is wrong with a push: its number, its addressee is unknown, or one that stands is about the same.
fn push_fault(books: &Books, number: Whole, to: &Party, push: &Push) -> Option<BadReason>
    ensures fits { IfNone result (IsFit books.now.state (row.Push number to.now push.now)) }
    ensures spoils { IfSome result (Spoils books.now.state (row.Push number to.now push.now)) }
{
    let outbox = books.outbox();
    if let Some(reason) = number_fault(
        outbox,
        number,
        BadReason::Repeated,
        BadReason::NumberShared,
    ) {
        return Some(reason);
    }
    if !knows(books, to) {
        return Some(BadReason::UnknownParty);
    }
    if outbox.replaced(to, push).is_some() {
        return Some(BadReason::PushedTwice);
    }
    None
}

/// What is wrong with the reference of a command: it is not the party's own, or its number was not given.
fn reference_fault(party: &Party, last: Whole, command: &Command) -> Option<BadReason>
    ensures own { IfNone result (HasOwnReference party.now last command.now) }
    ensures strange { IfSome result (HasStrangeReference party.now last command.now) }
{
    let Some(reference) = command.authorization_reference() else {
        return None;
    };
    let kind = OwnIdKind::AuthorizationReference;
    let Some(number) = own_number(kind, party, reference.as_str()) else {
        return Some(BadReason::NotOwnReference);
    };
    if last < number {
        return Some(BadReason::NotGiven);
    }
    None
}

/// What is wrong with a command: its number, its addressee is unknown, or its reference.
fn command_fault(books: &Books, number: Whole, command: &SentCommand) -> Option<BadReason>
    ensures fits { IfNone result (IsFit books.now.state (row.Command number command.now)) }
    ensures spoils { IfSome result (Spoils books.now.state (row.Command number command.now)) }
{
    books.consistency();
    let party = books.party();
    if let Some(reason) = number_fault(
        books.outbox(),
        number,
        BadReason::NumberShared,
        BadReason::Repeated,
    ) {
        return Some(reason);
    }
    if !knows(books, &command.to) {
        return Some(BadReason::UnknownParty);
    }
    reference_fault(&party, books.desk().references(), &command.command)
}

/// What is wrong with a row beside those that stand, if it may not be put.
pub(crate) fn row_fault(books: &Books, row: &Row) -> Option<BadReason>
    requires { IsNext books.now.state row.now }
    ensures fits { IfNone result (IsFit books.now.state row.now) }
    ensures spoils { IfSome result (Spoils books.now.state row.now) }
{
    match row {
        Row::Count { counter, last } => count_fault(books, *counter, *last),
        Row::Reply {
            sender,
            number,
            reply,
        } => reply_fault(books, *sender, *number, reply),
        Row::Token { token } => token_fault(books, token),
        Row::Push { number, to, push } => push_fault(books, *number, to, push),
        Row::Session { session } => session_fault(books, session),
        Row::Cdr { cdr } => cdr_fault(books, cdr),
        Row::Command { number, command } => command_fault(books, *number, command),
        Row::Service { .. }
        | Row::Spent { .. }
        | Row::Mark { .. }
        | Row::Reservation { .. }
        | Row::Pending { .. }
        | Row::Result { .. } => Some(BadReason::OfOtherRole),
    }
}
