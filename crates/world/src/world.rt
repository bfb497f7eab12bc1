//! The world.

ghost use Rattle.std.specs.Prelude.{◌≡◌, ◌≢◌, List, [], None, IfOk, OnErr, OnOk, drop};
ghost use Rattle.ocpi_text.specs.Text.{key};
ghost use Rattle.ocpi_types.specs.declared.events.Event.{Event as EventOf};
ghost use Rattle.world.specs.Seen.{packets_sent, places_seen, told, told_in, versions_left};
ghost use Rattle.world.specs.State.{names_of, owed_by, past_by};
ghost use Rattle.world_laws.specs.Later.{IsLater};
ghost use Rattle.world_laws.specs.Laws.{IsReached, IsRight};
ghost use Rattle.world_steps.specs.Steps.{Gives, WorldRun};
ghost use Rattle.world_steps.specs.World.{World as WorldOf, opened};

use crate::finding::{find, of_party};
use crate::opening::{keys_of, open_all};
use crate::past::Past;
use crate::place::Place;
use crate::planned::{EventPlan, Outcome, Sending, Told};
use crate::planning::plan;
use node_core::nodes_of;
use ocpi_text::{CiKey, Party, PartyKey, ShortText};
use ocpi_types::{Change, Event, Packet, Session, Setup};
use std::alloc::{AllocError, Global};
use std::marker::Model;
use stored_laws::laws::{operators_are_whole, providers_are_whole};
use tables::HashSeed;
use world_laws::laws::{worlds_are_right, worlds_go_on};

/// The nodes of a setup, all packets that each ever sent, and all versions that the sessions of each operator ever had.
pub struct World {
    alloc: Global,
    seed: HashSeed,
    /// The keys of the parties of the places, in order, by which a place is found.
    names: Vec<PartyKey>,
    places: Vec<Place>,
    changes: Vec<Change>,
    sending: Option<Sending>,
}

/// What a derive would do, in a function of its own: so it is proved once, and not in each function that drops a world.
impl Drop for World {
    fn drop(self) {
        let World {
            alloc: _,
            seed: _,
            names,
            places,
            changes,
            sending,
        } = self;
        drop(names);
        drop(places);
        drop(changes);
        drop(sending);
    }
}

impl Model for World {
    ghost use Rattle.std.specs.FinMap as map;
    ghost use Rattle.std.specs.Coded.{codes};
    ghost use Rattle.world.specs.State.{WorldState};

    ghost Value = { WorldState };

    ghost coded = { Prim.hlevel (codes, map.code) };

    ghost use Rattle.std.specs.Prelude.{◌≡◌};
    ghost use Rattle.world.specs.Seen.{packets_sent, places_seen};
    ghost use Rattle.world.specs.State.{names_of};
    ghost use Rattle.world_laws.specs.Laws.{IsReached};

    ghost view = { λ w. record { places = places_seen w.places.items; changes = w.changes.items; packets = packets_sent (places_seen w.places.items) w.sending } };

    ghost invariant = { λ w. IsReached (places_seen w.places.items) × (w.names.items ≡ names_of (places_seen w.places.items)) };
}

/// An event comes to the node of its party. An error is want of memory, and changes nothing.
fn step_places(
    alloc: Global,
    seed: HashSeed,
    names: &[PartyKey],
    places: &mut Vec<Place>,
    event: &Event,
) -> Result<Told, AllocError>
    requires reached { IsReached (places_seen places.old.items) }
    requires named { names.now ≡ names_of (places_seen places.old.items) }
    ensures ok { IfOk result (λ t. Gives (places_seen places.old.items) event.now (told_in (places_seen places.new.items) t) (places_seen places.new.items)) }
    ensures idle { IfOk result (λ t. t.outcome ≢ Outcome.Stepped → (t.sending ≡ None) × (t.changes.items ≡ [])) }
    ensures err { OnErr result (places_seen places.new.items ≡ places_seen places.old.items) }
{
    operators_are_whole();
    providers_are_whole();
    let Some(i) = find(names, &event.node) else {
        return Ok(Told::idle(alloc, Outcome::Skipped));
    };
    match plan(names, places.as_slice(), &places[i], &event.kind)? {
        EventPlan::Idle(outcome) => Ok(Told::idle(alloc, outcome)),
        EventPlan::Acts(work) => {
            let place = &mut places[i];
            let from = place.sent.as_slice().len();
            let changes = place.carry_out(alloc, seed, work)?;
            Ok(Told {
                outcome: Outcome::Stepped,
                sending: Some(Sending { place: i, from }),
                changes,
            })
        }
    }
}

impl Place {
    /// The packets that it sent from that one on.
    fn sent_from(&self, from: usize) -> &[Packet]
        ensures { result.now ≡ drop from self.now.sent.items }
    {
        let sent = self.sent.as_slice();
        if from <= sent.len() {
            &sent[from..]
        } else {
            &[]
        }
    }
}

/// The packets that a step sent.
fn packets_of(places: &[Place], sending: Option<Sending>) -> &[Packet]
    ensures { result.now ≡ packets_sent (places_seen places.now) sending }
{
    let Some(sending) = sending else {
        return &[];
    };
    match places.get(sending.place) {
        Some(place) => place.sent_from(sending.from),
        None => &[],
    }
}

/// All versions that a session of an operator ever had.
fn past_among<'w>(places: &'w [Place], operator: &Party, session: CiKey<36>) -> Past<'w>
    ensures { versions_left result ≡ past_by (places_seen places.now) operator.now session }
{
    match of_party(places, operator) {
        Some(place) => Past {
            session,
            versions: place.versions.as_slice(),
        },
        None => Past {
            session,
            versions: &[],
        },
    }
}

/// What a provider owes to an operator in a currency.
fn owed_among(
    places: &[Place],
    provider: &Party,
    operator: &Party,
    currency: ShortText<3, 12>,
) -> i128
    ensures { result ≡ owed_by (places_seen places.now) provider.now (key operator.now, currency) }
{
    match of_party(places, provider) {
        Some(place) => place.node.settlement(operator, currency),
        None => 0,
    }
}

impl World {
    /// The world of a setup before the first event. An error is want of memory.
    pub fn open(alloc: Global, seed: HashSeed, setup: &Setup) -> Result<World, AllocError>
        ensures { IfOk result (λ w. w ≡ record { places = opened setup.now; changes = []; packets = [] }) }
    {
        let places = open_all(alloc, seed, nodes_of(setup))?;
        let names = keys_of(alloc, places.as_slice())?;
        Ok(World {
            alloc,
            seed,
            names,
            places,
            changes: Vec::new(alloc),
            sending: None,
        })
    }

    /// What happens at a node. An event that is of no node is passed over: where there is no node of that party, where
    /// it is no event of the node's role, and where a packet that is to be delivered was not sent, or not to it. A
    /// node may refuse an event (`NodeFault`, but for want of memory), and then nothing changes and nothing is sent.
    /// An error is want of memory: nothing changes then, and the event may come again. A world is right after each
    /// step, and later than before it (`consistency`).
    pub fn step(&mut self, event: &Event) -> Result<Outcome, AllocError>
        ensures ok { IfOk result (λ o. Gives self.old.places event.now (told o self.new.packets self.new.changes) self.new.places) }
        ensures idle { IfOk result (λ o. o ≢ Outcome.Stepped → (self.new.packets ≡ []) × (self.new.changes ≡ [])) }
        ensures right { OnOk result (IsRight self.new.places) }
        ensures later { OnOk result (IsLater self.old.places self.new.places) }
        ensures err { OnErr result (self.new ≡ self.old) }
    {
        worlds_go_on();
        let told = step_places(
            self.alloc,
            self.seed,
            self.names.as_slice(),
            &mut self.places,
            event,
        )?;
        let Told {
            outcome,
            sending,
            changes,
        } = told;
        self.changes = changes;
        self.sending = sending;
        Ok(outcome)
    }

    /// What holds of every world at any time, which its type keeps: it is the end of a legal run from the opening of a
    /// setup. So it is right: at each operator no EVSE has two claims, no authorization reference starts two sessions,
    /// each session goes on in order and each that is COMPLETED is billed once, what a provider holds is what the
    /// operator had, each charge detail record is owed once, what is acknowledged is held, and what a provider stored
    /// of its commands is what the operator keeps. And so is each world to which a run goes on from here; and it is
    /// later: pasts have only grown, what stands for good stands, and a reservation that ended comes back by a new
    /// RESERVE_NOW alone.
    pub fn consistency(&self)
        ensures reached { IsReached self.now.places }
        ensures right { IsRight self.now.places }
        ensures goes_on { (es : List EventOf) (v : WorldOf) → WorldRun self.now.places es v → IsRight v × IsLater self.now.places v }
    {
        let _places = &self.places;
        worlds_are_right();
        worlds_go_on();
    }

    /// Nothing is told of the last step any more: neither its packets nor its changes.
    fn forget(&mut self)
        ensures { self.new ≡ record self.old { changes = []; packets = [] } }
    {
        self.changes.clear();
        self.sending = None;
    }

    /// The world of a setup after events. Of these neither packets nor changes are told: what they sent was sent when
    /// they happened. An error is want of memory.
    pub fn run(
        alloc: Global,
        seed: HashSeed,
        setup: &Setup,
        events: &[Event],
    ) -> Result<World, AllocError>
        ensures legal { IfOk result (λ w. WorldRun (opened setup.now) events.now w.places) }
        ensures told { IfOk result (λ w. (w.packets ≡ []) × (w.changes ≡ [])) }
        ensures right { IfOk result (λ w. IsRight w.places) }
        ensures goes_on { IfOk result (λ w. (es : List EventOf) (v : WorldOf) → WorldRun w.places es v → IsRight v × IsLater w.places v) }
    {
        let mut world = World::open(alloc, seed, setup)?;
        for event in events {
            let _outcome = world.step(event)?;
        }
        world.forget();
        world.consistency();
        Ok(world)
    }

    /// The packets that the last step sent, in order. None, where the event of it was not stepped, and where no step
    /// was made since the world was opened or run. A step that memory ran out for leaves those of the one before. It
    /// takes no memory.
    pub fn packets(&self) -> &[Packet]
        ensures { result.now ≡ self.now.packets }
    {
        packets_of(self.places.as_slice(), self.sending)
    }

    /// The rows that the last step changed, in order, where [`World::packets`] are those that it sent.
    pub fn changes(&self) -> &[Change]
        ensures { result.now ≡ self.now.changes }
    {
        self.changes.as_slice()
    }

    /// All versions that a session of an operator ever had, oldest first. It takes no memory.
    pub fn past(&self, operator: &Party, session: CiKey<36>) -> Past<'_>
        ensures { versions_left result ≡ past_by self.now.places operator.now session }
    {
        past_among(self.places.as_slice(), operator, session)
    }

    /// What a provider owes to an operator in a currency, in ten-thousandths: the sum of the costs of the operator's
    /// charge detail records in that currency that it holds. 0, where there is no such provider. It takes no memory.
    pub fn settlement(&self, provider: &Party, operator: &Party, currency: ShortText<3, 12>) -> i128
        ensures { result ≡ owed_by self.now.places provider.now (key operator.now, currency) }
    {
        owed_among(self.places.as_slice(), provider, operator, currency)
    }
}
