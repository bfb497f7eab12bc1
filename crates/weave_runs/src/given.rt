//! The parties whose packets are taken as they came.

ghost use Rattle.std.specs.Prelude.{Contains, IfErr, IfNone, IfOk, IfSome, IsTrue, false, ◌≡◌};
ghost use Rattle.ocpi_types.specs.Setups.{party_of};
ghost use Rattle.ocpi_types.specs.declared.setup.Node.{Node as NodeOf};
ghost use Rattle.replays.specs.declared.transcript.Opening.{Opening as OpeningOf};
ghost use Rattle.weave_runs.specs.Parties.{AreGiven, HasFile, HasNoNode, HasNode, IfWrong, IsGiven, IsSpelledBy, IsWrong, NamesNode};

use crate::fault::GivenFault;
use ocpi_text::Party;
use ocpi_types::Node;
use replays::{Opening, Transcript};
use std::alloc::Global;

/// Why there are no parties.
#[derive(Clone, Copy)]
pub(crate) enum NotGiven<'a> {
    Wrong(GivenFault<'a>),
    Memory,
}

/// That party, as a setup spells it.
fn party_named(nodes: &[Node], party: &Party) -> Option<Party>
    ensures some { IfSome result (IsSpelledBy nodes.now party.now) }
    ensures none { IfNone result (HasNoNode nodes.now party.now) }
{
    for node in nodes {
        if node.party().is_same(party) {
            return Some(*node.party());
        }
    }
    None
}

/// That party, as the first of the setups of these runs spells it that has it.
fn party_opened(openings: &[Opening<'_>], party: &Party) -> Option<Party>
    ensures some { IfSome result (λ p. (x : OpeningOf) × Contains openings.now x × IsSpelledBy x.setup party.now p) }
    ensures none { IfNone result ((x : OpeningOf) → Contains openings.now x → HasNoNode x.setup party.now) }
{
    for opening in openings {
        if let Some(spelled) = party_named(opening.nodes(), party) {
            return Some(spelled);
        }
    }
    None
}

/// The party that a word names, as the first of the setups of the runs spells it that has it.
fn party_of_word(transcripts: &[Transcript<'_>], word: &str) -> Option<Party>
    ensures some { IfSome result (λ p. (n : NodeOf) × HasNode transcripts.now n × NamesNode word.now n × (p ≡ party_of n)) }
    ensures none { IfNone result ((n : NodeOf) → HasNode transcripts.now n → NamesNode word.now n → ⊥) }
{
    let Ok(party) = Party::read(word) else {
        return None;
    };
    for transcript in transcripts {
        if let Some(spelled) = party_opened(transcript.openings(), &party) {
            return Some(spelled);
        }
    }
    None
}

/// Whether one of the transcripts is of that party.
fn has_file(transcripts: &[Transcript<'_>], party: &Party) -> bool
    ensures yes { IsTrue result → HasFile transcripts.now party.now }
    ensures no { result ≡ false → HasFile transcripts.now party.now → ⊥ }
{
    for transcript in transcripts {
        if transcript.party().is_same(party) {
            return true;
        }
    }
    false
}

/// The party that a word names, as a setup spells it.
fn given_party<'a>(transcripts: &[Transcript<'_>], word: &'a str) -> Result<Party, GivenFault<'a>>
    ensures given { IfOk result (λ party. IsGiven transcripts.now word.now party) }
    ensures wrong { IfErr result (λ fault. IsWrong transcripts.now word.now fault) }
{
    let Some(party) = party_of_word(transcripts, word) else {
        return Err(GivenFault::Unknown(word));
    };
    if has_file(transcripts, &party) {
        return Err(GivenFault::HasFile(word));
    }
    Ok(party)
}

/// The parties that words name, in their order, as a setup spells them; or why one of them is none whose packets can be
/// taken as they came.
pub(crate) fn given_parties<'a>(
    alloc: Global,
    transcripts: &[Transcript<'_>],
    words: &[&'a str],
) -> Result<Vec<Party>, NotGiven<'a>>
    ensures given { IfOk result (λ parties. AreGiven transcripts.now words.now parties.items) }
    ensures wrong { IfErr result (IfWrong transcripts.now words.now) }
{
    let mut parties = Vec::new(alloc);
    for word in words {
        let party = match given_party(transcripts, *word) {
            Ok(party) => party,
            Err(fault) => return Err(NotGiven::Wrong(fault)),
        };
        match parties.push(party) {
            Ok(()) => {}
            Err(_) => return Err(NotGiven::Memory),
        }
    }
    Ok(parties)
}
