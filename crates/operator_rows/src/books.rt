//! What an operator stores, and what is read of it.

ghost use Rattle.std.specs.Prelude.{◌≡◌, ◌≤◌, IsTrue, IfOk, option_copied};
ghost use Rattle.std.specs.FinMap as map;
ghost use Rattle.ocpi_text.specs.Whole.{max_whole};
ghost use Rattle.operator_rows.specs.Claimed.{IsIndexed};
ghost use Rattle.operator_rows.specs.Sound.{IsConsistent};
ghost use Rattle.operator_rows.specs.State.{IsSpent, as_outbox, opening};

use authorization_book::AuthorizationBook;
use command_book::CommandBook;
use ocpi_text::{CiKey, CiText, Party, PartyKey, Whole};
use ocpi_types::{Parties, Reply, SiteLine};
use outbox::Outbox;
use reservation_book::ReservationBook;
use session_book::SessionBook;
use site_book::SiteBook;
use std::alloc::{AllocError, Global};
use std::marker::Model;
use tables::{HashSeed, Lookup};
use token_desk::TokenDesk;

/// The references that are spent, by provider.
pub(crate) type SpentTable = Lookup<(PartyKey, CiKey<36>), ()>;

/// The rows of an operator, with the claims on its site's EVSEs, the resend times of its pushes, and the
/// authorizations that it awaits. It is seen as its state and the room that is taken beside it.
///
/// At all times what `consistency` says holds, and the claims are exactly those that follow from the rows. A lookup
/// and a change cost the logarithm of what is stored; a spent reference is found by its hash, in constant time.
#[derive(Drop)]
pub struct Books {
    pub(crate) parties: Parties,
    pub(crate) serial: Whole,
    pub(crate) commands: CommandBook,
    pub(crate) spent: SpentTable,
    pub(crate) booked: ReservationBook,
    pub(crate) outbox: Outbox,
    pub(crate) site: SiteBook,
    pub(crate) desk: TokenDesk,
    pub(crate) charged: SessionBook,
    pub(crate) waits: AuthorizationBook,
}

impl Model for Books {
    ghost use Rattle.std.specs.FinMap as map;
    ghost use Rattle.std.specs.Coded.{codes};
    ghost use Rattle.tables.specs.Keys.{text_pair_cmp};
    ghost use Rattle.tables.specs.Tables.{shown_of, rooms_of};
    ghost use Rattle.operator_rows.specs.Kept.{AreKept, state_of};
    ghost use Rattle.operator_rows.specs.Steps.{Node};

    ghost Value = { Node };

    ghost coded = { Prim.hlevel (codes, map.code) };

    ghost view = { λ b. record {
      state = state_of b.parties b.serial b.commands.rows (shown_of text_pair_cmp b.spent) b.booked.rows b.outbox
          b.site b.desk.rows.tokens b.charged.rows b.waits.waits;
      rooms = record {
        commands = b.commands.rooms;
        spent = rooms_of text_pair_cmp b.spent;
        booked = b.booked.rooms;
        outbox = b.outbox.rooms;
        tokens = b.desk.rooms;
        charged = b.charged.rooms;
      };
      sending = b.outbox.sending;
      waiting = b.waits.rooms;
    } };

    ghost invariant = { λ b. AreKept b.site.claims (state_of b.parties b.serial b.commands.rows (shown_of text_pair_cmp b.spent) b.booked.rows b.outbox b.site b.desk.rows.tokens b.charged.rows b.waits.waits) b.outbox.rows.commands b.desk.rows.references };
}

impl Books {
    /// Nothing was sent, nothing is answered, open, reserved, pushed or awaited, no token is known, no session was
    /// begun, and each EVSE of the site is in service. An error is want of memory.
    pub fn new(alloc: Global, seed: HashSeed, line: SiteLine) -> Result<Books, AllocError>
        ensures { IfOk result (λ b. b.state ≡ opening line) }
    {
        let site = SiteBook::new(alloc, line.site)?;
        Ok(Books {
            parties: line.parties,
            serial: Whole::new(0).unwrap(),
            commands: CommandBook::new(alloc, seed),
            spent: Lookup::new(alloc, seed),
            booked: ReservationBook::new(alloc),
            outbox: Outbox::new(alloc),
            site,
            desk: TokenDesk::new(alloc),
            charged: SessionBook::new(alloc),
            waits: AuthorizationBook::new(alloc),
        })
    }

    /// The operator.
    pub fn party(&self) -> Party
        ensures { result ≡ self.now.state.party }
    {
        *self.parties.operator()
    }

    /// The providers of the site, as it spells them.
    pub fn providers(&self) -> &[Party]
        ensures { result.now ≡ self.now.state.providers }
    {
        self.parties.providers()
    }

    /// The number of the last packet that was sent, 0 where none was.
    pub fn serial(&self) -> Whole
        ensures { result ≡ self.now.state.rows.serial }
    {
        self.serial
    }

    /// The number of the last request of its own, 0 where none was made.
    pub fn last_request(&self) -> Whole
        ensures { result ≡ self.now.state.rows.request }
    {
        self.outbox.last_number()
    }

    /// The reply that a request got.
    pub fn reply(&self, provider: PartyKey, number: Whole) -> Option<&Reply>
        ensures { option_copied result ≡ map.get self.now.state.rows.commands.replies (provider, number) }
    {
        self.commands.reply_kept(provider, number)
    }

    /// Whether there is a reference, and the provider used it before.
    pub fn is_spent(&self, provider: PartyKey, reference: &Option<CiText<36>>) -> bool
        ensures yes { IsTrue result → IsSpent self.now.state.rows.spent provider reference.now }
        ensures no { IsSpent self.now.state.rows.spent provider reference.now → IsTrue result }
    {
        match reference {
            None => false,
            Some(reference) => self.spent.contains((provider, reference.key())),
        }
    }

    /// The site, the claims on its EVSEs, which are those that follow from the rows, and which are out of service.
    pub fn site_book(&self) -> &SiteBook
        ensures site { result.now.site ≡ self.now.state.site }
        ensures service { result.now.out_of_service ≡ self.now.state.rows.out_of_service }
        ensures claims { IsIndexed result.now.claims self.now.state.rows }
    {
        &self.site
    }

    /// The reservations, and their marks.
    pub fn booked(&self) -> &ReservationBook
        ensures { result.now.rows ≡ self.now.state.rows.booked }
    {
        &self.booked
    }

    /// The replies, the open commands and the results.
    pub fn commands(&self) -> &CommandBook
        ensures { result.now.rows ≡ self.now.state.rows.commands }
    {
        &self.commands
    }

    /// What is pushed, and when it is due again.
    pub fn outbox(&self) -> &Outbox
        ensures rows { result.now.rows ≡ as_outbox self.now.state.rows }
        ensures resend { result.now.resend ≡ self.now.state.resend }
    {
        &self.outbox
    }

    /// The tokens that its providers sent it.
    pub fn desk(&self) -> &TokenDesk
        ensures { result.now.rows.tokens ≡ self.now.state.rows.tokens }
    {
        &self.desk
    }

    /// The sessions and their charge detail records, and the numbers of the last of both.
    pub fn charged(&self) -> &SessionBook
        ensures { result.now.rows ≡ self.now.state.rows.charged }
    {
        &self.charged
    }

    /// The authorizations that are awaited.
    pub fn waits(&self) -> &AuthorizationBook
        ensures { result.now.waits ≡ self.now.state.waits }
    {
        &self.waits
    }

    /// What holds at all times.
    pub fn consistency(&self)
        ensures { IsConsistent self.now.state }
    {
        let _party = self.parties.operator().as_str();
        self.outbox.consistency();
        self.waits.consistency();
    }

    /// No counter passes its last number.
    pub fn counters_in_range(&self)
        ensures serial { self.now.state.rows.serial ≤ max_whole }
        ensures request { self.now.state.rows.request ≤ max_whole }
        ensures session { self.now.state.rows.charged.last_session ≤ max_whole }
        ensures cdr { self.now.state.rows.charged.last_cdr ≤ max_whole }
    {
        let _serial = self.serial.value();
        let _request = self.outbox.last_number().value();
        let _session = self.charged.last_session().value();
        let _cdr = self.charged.last_cdr().value();
    }
}
