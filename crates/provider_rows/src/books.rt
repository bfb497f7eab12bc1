//! What a provider stores, and what is read of it.

ghost use Rattle.std.specs.Prelude.{◌≡◌, ◌≤◌, option_copied};
ghost use Rattle.std.specs.FinMap as map;
ghost use Rattle.ocpi_text.specs.Whole.{max_whole};
ghost use Rattle.provider_rows.specs.Sound.{IsConsistent};
ghost use Rattle.provider_rows.specs.State.{opening};

use crate::peers::Peers;
use command_book::CommandBook;
use handover::Inbox;
use ocpi_text::{Party, PartyKey, Whole};
use ocpi_types::Reply;
use outbox::Outbox;
use std::alloc::Global;
use std::marker::Model;
use tables::{HashSeed, Table};
use token_desk::TokenDesk;

/// The numbers of commands, each behind the place of the url that its result is posted to.
pub(crate) type UrlTable = Table<(Whole, Whole), ()>;

/// The rows of a provider, with the resend times of its requests. It is seen as its state and the room that is taken
/// beside it.
///
/// At all times what `consistency` says holds, and each command is found by the url that its result is posted to. A
/// lookup and a change cost the logarithm of what is stored.
#[derive(Drop)]
pub struct Books {
    pub(crate) peers: Peers,
    pub(crate) serial: Whole,
    /// The replies; commands of others and results it has none.
    pub(crate) answered: CommandBook,
    pub(crate) desk: TokenDesk,
    pub(crate) outbox: Outbox,
    pub(crate) urls: UrlTable,
    pub(crate) inbox: Inbox,
}

impl Model for Books {
    ghost use Rattle.std.specs.FinMap as map;
    ghost use Rattle.std.specs.Coded.{codes};
    ghost use Rattle.tables.specs.Tables.{shown_of, rooms_of};
    ghost use Rattle.outbox.specs.Resend.{moment_number_cmp};
    ghost use Rattle.provider_rows.specs.Kept.{AreKept, state_of};
    ghost use Rattle.provider_rows.specs.Steps.{Node};

    ghost Value = { Node };

    ghost coded = { Prim.hlevel (codes, map.code) };

    ghost view = { λ b. record {
      state = state_of b.peers b.serial b.answered.rows b.desk.rows b.outbox b.inbox.rows;
      rooms = record {
        replies = b.answered.rooms;
        desk = b.desk.rooms;
        outbox = b.outbox.rooms;
        urls = rooms_of moment_number_cmp b.urls;
        inbox = b.inbox.rooms;
      };
      sending = b.outbox.sending;
    } };

    ghost invariant = { λ b. AreKept b.answered.rows (shown_of moment_number_cmp b.urls) (state_of b.peers b.serial b.answered.rows b.desk.rows b.outbox b.inbox.rows) };
}

impl Books {
    /// Nothing was sent, nothing is answered, and no token, session or charge detail record is held. It takes no
    /// memory.
    pub fn new(alloc: Global, seed: HashSeed, peers: Peers) -> Books
        ensures { result.state ≡ opening peers }
    {
        Books {
            peers,
            serial: Whole::new(0).unwrap(),
            answered: CommandBook::new(alloc, seed),
            desk: TokenDesk::new(alloc),
            outbox: Outbox::new(alloc),
            urls: Table::new(alloc),
            inbox: Inbox::new(alloc),
        }
    }

    /// The provider.
    pub fn party(&self) -> Party
        ensures { result ≡ self.now.state.party }
    {
        *self.peers.provider()
    }

    /// The operators that it deals with, as it spells them.
    pub fn operators(&self) -> &[Party]
        ensures { result.now ≡ self.now.state.operators }
    {
        self.peers.operators()
    }

    /// The number of the last packet that was sent, 0 where none was.
    pub fn serial(&self) -> Whole
        ensures { result ≡ self.now.state.rows.serial }
    {
        self.serial
    }

    /// The number of the last request of its own, 0 where none was made.
    pub fn last_request(&self) -> Whole
        ensures { result ≡ self.now.state.rows.outbox.last }
    {
        self.outbox.last_number()
    }

    /// The reply that a request got.
    pub fn reply(&self, operator: PartyKey, number: Whole) -> Option<&Reply>
        ensures { option_copied result ≡ map.get self.now.state.rows.replies (operator, number) }
    {
        self.answered.reply_kept(operator, number)
    }

    /// Its own tokens, and the number of the last authorization reference that it gave.
    pub fn desk(&self) -> &TokenDesk
        ensures { result.now.rows ≡ self.now.state.rows.desk }
    {
        &self.desk
    }

    /// What it sends until it is answered, and when that is due again.
    pub fn outbox(&self) -> &Outbox
        ensures rows { result.now.rows ≡ self.now.state.rows.outbox }
        ensures resend { result.now.resend ≡ self.now.state.resend }
    {
        &self.outbox
    }

    /// The sessions and the charge detail records that it holds.
    pub fn inbox(&self) -> &Inbox
        ensures { result.now.rows ≡ self.now.state.rows.inbox }
    {
        &self.inbox
    }

    /// What holds at all times.
    pub fn consistency(&self)
        ensures { IsConsistent self.now.state }
    {
        let _provider = self.peers.provider();
        self.outbox.consistency();
    }

    /// No counter passes its last number.
    pub fn counters_in_range(&self)
        ensures serial { self.now.state.rows.serial ≤ max_whole }
        ensures request { self.now.state.rows.outbox.last ≤ max_whole }
        ensures references { self.now.state.rows.desk.references ≤ max_whole }
    {
        let _serial = self.serial.value();
        let _request = self.outbox.last_number().value();
        let _references = self.desk.references().value();
    }
}
