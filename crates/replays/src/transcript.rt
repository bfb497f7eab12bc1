//! What a file tells of a node.

ghost use Rattle.std.specs.Prelude.{◌≡◌, ◌∷◌, IfNone, IfSome, List, length, ◌<◌};
ghost use Rattle.replays.specs.Transcripts.{IsTranscript, opening_of, party_opened, teller};
ghost use Rattle.replays.specs.declared.transcript.Opening.{Opening as OpeningOf};
ghost use Rattle.replays.specs.declared.transcript.Source.TheVariants.{Echoed, Restarted};

use crate::cutting::EchoedLine;
use histories::Entry;
use ocpi_text::{Party, Whole};
use ocpi_types::{Node, Setup};
use std::marker::Model;

/// A run of which stands that its node was opened.
#[derive(Drop)]
pub struct Opening<'a> {
    /// Its setup line.
    pub line: EchoedLine<'a>,
    pub setup: Setup,
    /// The place of its node in the setup.
    pub member: usize,
    /// The line that says so, without its line feed.
    pub told: &'a [u8],
    /// How many rows the node had then.
    pub rows: usize,
    /// The serial of the last packet that it had sent.
    pub serial: Whole,
}

impl<'a> Opening<'a> {
    /// The party of its node, as the setup spells it. It takes no memory.
    pub fn party(&self) -> &Party
        requires { self.now.member < length self.now.setup }
        ensures { result.now ≡ party_opened self.now }
    {
        self.nodes()[self.member].party()
    }

    /// The nodes of the setup. It takes no memory.
    pub fn nodes(&self) -> &[Node]
        ensures { result.now ≡ self.now.setup }
    {
        self.setup.as_slice()
    }
}

/// Where an entry of a history comes from, and the place of its run among those that were opened.
#[derive(Clone, Copy)]
pub enum Source<'a> {
    /// The text of the event: an echoed line, or an element of one that is an array, as it stands there. Its number is
    /// that of the line.
    Echoed {
        opening: usize,
        line: EchoedLine<'a>,
    },
    /// A run that was opened behind another: the node started again.
    Restarted {
        opening: usize,
    },
}

impl<'a> Source<'a> {
    /// The place of the run among those that were opened.
    pub fn opening(&self) -> usize
        ensures { result ≡ opening_of self.now }
    {
        match self {
            Source::Echoed { opening, .. } => *opening,
            Source::Restarted { opening } => *opening,
        }
    }

    /// The line that it came as, where it did.
    pub fn line(&self) -> Option<EchoedLine<'a>>
        ensures some { IfSome result (λ line. self.now ≡ Echoed (opening_of self.now) line) }
        ensures none { IfNone result (self.now ≡ Restarted (opening_of self.now)) }
    {
        match self {
            Source::Echoed { line, .. } => Some(*line),
            Source::Restarted { .. } => None,
        }
    }
}

/// What a file tells of a node: the runs that were opened, at least one; what happened at the node in them; and where
/// each entry stands.
pub struct Transcript<'a> {
    pub(crate) openings: Vec<Opening<'a>>,
    pub(crate) entries: Vec<Entry>,
    pub(crate) sources: Vec<Source<'a>>,
}

/// What a derive would do, in a function of its own: so it is proved once.
impl<'a> Drop for Transcript<'a> {
    fn drop(self) {
        let Transcript {
            openings,
            entries,
            sources,
        } = self;
        drop(openings);
        drop(entries);
        drop(sources);
    }
}

impl<'a> Model for Transcript<'a> {
    ghost use Rattle.std.specs.Coded.{codes};
    ghost use Rattle.std.specs.FinMap as map;
    ghost use Rattle.replays.specs.Transcripts.{IsTranscript, Transcript};

    ghost Value = { Transcript };

    ghost coded = { Prim.hlevel (codes, map.code) };

    ghost view = { λ t. record { openings = t.openings.items; entries = t.entries.items; sources = t.sources.items } };

    ghost invariant = { λ t. IsTranscript (record { openings = t.openings.items; entries = t.entries.items; sources = t.sources.items }) };
}

impl<'a> Transcript<'a> {
    /// What holds of each, which its type keeps. It does nothing.
    pub fn is_transcript(&self)
        ensures { IsTranscript self.now }
    {
        let _openings = &self.openings;
    }

    /// Whose node it is, as the setup of its first run spells it. It takes no memory.
    pub fn party(&self) -> &Party
        ensures { result.now ≡ teller self.now }
    {
        self.is_transcript();
        self.first().party()
    }

    /// The first run that was opened. It takes no memory.
    pub fn first(&self) -> &Opening<'a>
        ensures { (later : List OpeningOf) × (self.now.openings ≡ result.now ∷ later) }
    {
        &self.openings[0]
    }

    /// The runs that were opened, in their order. It takes no memory.
    pub fn openings(&self) -> &[Opening<'a>]
        ensures { result.now ≡ self.now.openings }
    {
        self.openings.as_slice()
    }

    /// What happened at the node, oldest first. It takes no memory.
    pub fn entries(&self) -> &[Entry]
        ensures { result.now ≡ self.now.entries }
    {
        self.entries.as_slice()
    }

    /// Where each entry comes from, in the same order. It takes no memory.
    pub fn sources(&self) -> &[Source<'a>]
        ensures { result.now ≡ self.now.sources }
    {
        self.sources.as_slice()
    }
}
