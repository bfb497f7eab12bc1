//! Which node of a setup a run was opened with, or may have been.

ghost use Rattle.std.specs.Prelude.{◌≡◌, ◌≢◌, ◌↔◌, ◌<◌, All, IfNone, IfOk, IfSome, IsTrue, None, Some, length};
ghost use Rattle.replays.specs.LineTurns.{held_in};
ghost use Rattle.replays.specs.Reading.{Doubt as DoubtOf, IsAmong, MayBe};
ghost use Rattle.replays.specs.Ways.{AreNoWays, AreWays, IsPassedBy, IsWay};

use crate::held::Held;
use crate::opening::{Opened, Piece, Tried, Ways, try_member};
use crate::reading::Reading;
use node_core::nodes_of;
use ocpi_text::Party;
use ocpi_types::Setup;
use std::alloc::AllocError;

/// Whether a party is one of these.
fn is_among(parties: &[Party], party: &Party) -> bool
    ensures { IsTrue result ↔ IsAmong parties.now party.now }
{
    for other in parties {
        if other.is_same(party) {
            return true;
        }
    }
    false
}

impl<'a, 'b> Reading<'a, 'b> {
    /// Whether the node may be of that party.
    pub(crate) fn may_be(&self, party: &Party) -> bool
        ensures { IsTrue result ↔ MayBe self.now party.now }
    {
        if is_among(self.earlier, party) {
            return false;
        }
        self.parties.is_empty() || is_among(self.parties.as_slice(), party)
    }

    /// Finds in which ways the node may have been opened over what the line in doubt left.
    pub(crate) fn ways_behind(
        &self,
        setup: &Setup,
        piece: Piece<'_>,
        text: &mut String,
    ) -> Result<Ways, AllocError>
        requires piece { All (λ b. b ≢ 10) piece.bytes.now }
        ensures some { (d : DoubtOf) → self.now.story.doubt ≡ Some d → IfOk result (AreWays self.now setup.now piece.entry.is_closed piece.entry.bytes.now d.held) }
        ensures none { self.now.story.doubt ≡ None → IfOk result AreNoWays }
    {
        match self.history.behind() {
            Some(held) => self.ways_over(setup, held, piece, text),
            None => Ok(Ways::May(Vec::new(self.alloc))),
        }
    }

    /// Finds in which ways the node may have been opened over what a store has.
    pub(crate) fn ways_over(
        &self,
        setup: &Setup,
        held: &Held,
        piece: Piece<'_>,
        text: &mut String,
    ) -> Result<Ways, AllocError>
        requires piece { All (λ b. b ≢ 10) piece.bytes.now }
        ensures { IfOk result (AreWays self.now setup.now piece.entry.is_closed piece.entry.bytes.now (held_in held.now)) }
    {
        let mut parties = Vec::new(self.alloc);
        for place in 0..setup.as_slice().len() {
            match self.try_at(setup, place, held, piece, text, &mut parties) {
                Ok(None) => {}
                Ok(Some(opened)) => {
                    drop(parties);
                    return Ok(Ways::Was(place, opened));
                }
                Err(_) => {
                    drop(parties);
                    return Err(AllocError);
                }
            }
        }
        Ok(Ways::May(parties))
    }

    /// Whether the node at a place in a setup was opened over what a store has. Where it may have been, its party is
    /// added to those. An error is want of memory.
    fn try_at(
        &self,
        setup: &Setup,
        place: usize,
        held: &Held,
        piece: Piece<'_>,
        text: &mut String,
        parties: &mut Vec<Party>,
    ) -> Result<Option<Opened>, AllocError>
        requires place { place < length setup.now }
        requires piece { All (λ b. b ≢ 10) piece.bytes.now }
        ensures some { IfOk result (λ opened. IfSome opened (IsWay self.now setup.now piece.entry.bytes.now (held_in held.now) place)) }
        ensures none { IfOk result (λ opened. IfNone opened (IsPassedBy self.now setup.now piece.entry (held_in held.now) place parties.old.items parties.new.items)) }
    {
        let nodes = nodes_of(setup);
        let member = &nodes[place];
        if !self.may_be(member.party()) {
            return Ok(None);
        }
        match try_member(self.alloc, self.seed, nodes, member, held, piece, text)? {
            Tried::No => Ok(None),
            Tried::May => {
                parties.push(*member.party())?;
                Ok(None)
            }
            Tried::Was(opened) => Ok(Some(opened)),
        }
    }
}
