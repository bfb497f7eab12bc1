//! What standard error says beside a refusal. No clause speaks of it.

use crate::difference::first_difference;
use crate::refusal::{nodes_at, packet_at, place_of};
use crate::told::TranscriptFile;
use json_text::is_same_party;
use ocpi_json::write_packet;
use ocpi_types::Packet;
use replays::Transcript;
use std::alloc::{AllocError, Global};
use weave::{Turn, TurnFault};

/// Why histories have no interleaving, in words; no text where the refusal says it all, or memory ran out.
pub(crate) fn words_for(
    alloc: Global,
    files: &[TranscriptFile<'_>],
    transcripts: &[Transcript<'_>],
    fault: &TurnFault,
) -> String {
    let words = match fault {
        TurnFault::NeverSent(came) => words_for_never_sent(alloc, transcripts, *came),
        TurnFault::Differs(came, sent) => {
            words_for_difference(alloc, files, transcripts, *came, *sent)
        }
        TurnFault::NoOrder(_) | TurnFault::Memory => Ok(String::new(alloc)),
    };
    match words {
        Ok(words) => words,
        Err(_) => String::new(alloc),
    }
}

/// That no file is of the sender of a packet which the entry of a turn delivers, where it is so and the setup has it.
fn words_for_never_sent(
    alloc: Global,
    transcripts: &[Transcript<'_>],
    came: Turn,
) -> Result<String, AllocError> {
    let mut words = String::new(alloc);
    let Some(packet) = packet_at(transcripts, came) else {
        return Ok(words);
    };
    for transcript in transcripts {
        if is_same_party(transcript.party(), &packet.from) {
            return Ok(words);
        }
    }
    for node in nodes_at(transcripts, came) {
        if is_same_party(node.party(), &packet.from) {
            let party = node.party().as_str();
            write!(
                words,
                "weave: none of these files is of {party}: add its transcript, or say --given {party}, which takes what it sent as it came"
            )?;
        }
    }
    Ok(words)
}

/// The packet of a serial that the entry of a turn gave.
fn sent_at<'a>(transcripts: &'a [Transcript<'_>], turn: Turn, serial: u64) -> Option<&'a Packet> {
    let transcript = transcripts.get(turn.history)?;
    let entry = transcript.entries().get(turn.entry)?;
    for packet in entry.packets.as_slice() {
        if packet.serial.value() == serial {
            return Some(packet);
        }
    }
    None
}

/// By which member the packet that an entry delivers differs from the one that another gave, where that is known.
fn words_for_difference(
    alloc: Global,
    files: &[TranscriptFile<'_>],
    transcripts: &[Transcript<'_>],
    came: Turn,
    sent: Turn,
) -> Result<String, AllocError> {
    let mut words = String::new(alloc);
    let Some(received) = packet_at(transcripts, came) else {
        return Ok(words);
    };
    let Some(given) = sent_at(transcripts, sent, received.serial.value()) else {
        return Ok(words);
    };
    let one = write_packet(alloc, given)?;
    let other = write_packet(alloc, received)?;
    let Some(path) = first_difference(alloc, one.as_bytes(), other.as_bytes())? else {
        return Ok(words);
    };
    let Some(left) = place_of(files, transcripts, sent) else {
        return Ok(words);
    };
    let Some(right) = place_of(files, transcripts, came) else {
        return Ok(words);
    };
    write!(
        words,
        "weave: the packets of {}:{} and {}:{} differ in {}",
        left.name,
        left.line,
        right.name,
        right.line,
        path.as_str()
    )?;
    Ok(words)
}

/// What is said of a file that was refused, behind its name.
pub(crate) fn words_for_file(alloc: Global, name: &str, words: &str) -> String {
    let mut output = String::new(alloc);
    if !words.is_empty() {
        let _ = write!(output, "weave: {name}: {words}");
    }
    output
}
