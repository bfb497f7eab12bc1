//! The files, read as transcripts.

ghost use Rattle.std.specs.Prelude.{◌≡◌, IfErr, IfOk};
ghost use Rattle.replays.specs.Transcripts.{AccusesRightly, BlamesNoLineBefore, IsTranscriptOf};
ghost use Rattle.weave_runs.specs.Accusations.{RefusesFile};
ghost use Rattle.weave_runs.specs.Histories.{AreTold, AreTranscripts, start_of};

use json_text::Scratch;
use ocpi_text::{Party, Whole};
use ocpi_types::Row;
use replays::{ReplayFault, Start, Transcript, read_transcript};
use std::alloc::{AllocError, Global};
use tables::HashSeed;

/// What a store had before a file begins.
#[derive(Drop)]
pub struct StoreRows {
    pub rows: Vec<Row>,
    /// The number of the last line that had taken hold, 1 where none had.
    pub line: Whole,
}

/// A file that was read whole.
#[derive(Clone, Copy)]
pub struct TranscriptFile<'a> {
    /// As it was given.
    pub name: &'a str,
    /// All of its bytes.
    pub text: &'a [u8],
    /// What the store had before it, where that is told.
    pub store: Option<&'a StoreRows>,
}

/// Which file is no transcript, and why.
#[derive(Clone, Copy)]
pub(crate) struct FileFault<'a> {
    pub name: &'a str,
    pub fault: ReplayFault,
}

impl<'a> FileFault<'a> {
    /// The fault of a file.
    fn of(file: &TranscriptFile<'a>, fault: ReplayFault) -> FileFault<'a>
        ensures name { result.name.now ≡ file.now.name.now }
        ensures fault { result.fault ≡ fault }
    {
        FileFault {
            name: file.name,
            fault,
        }
    }
}

/// What the store of a file had. An error is want of memory.
fn start_of(alloc: Global, file: &TranscriptFile<'_>) -> Result<Start, AllocError>
    ensures { IfOk result (λ start. start.held ≡ start_of file.now.store) }
{
    match file.store {
        Some(store) => Start::of(alloc, store.rows.as_slice(), store.line),
        None => Ok(Start::new(alloc)),
    }
}

/// Reads a file as the transcript of a node of none of these parties.
fn read_file<'a>(
    alloc: Global,
    seed: HashSeed,
    scratch: &mut Scratch,
    file: &TranscriptFile<'a>,
    earlier: &[Party],
    words: &mut String,
) -> Result<Transcript<'a>, ReplayFault>
    ensures read { IfOk result (IsTranscriptOf earlier.now (start_of file.now.store) file.now.text.now) }
    ensures none { IfErr result (AccusesRightly earlier.now (start_of file.now.store) file.now.text.now) }
    ensures line { IfErr result (BlamesNoLineBefore earlier.now (start_of file.now.store) file.now.text.now) }
{
    let start = match start_of(alloc, file) {
        Ok(start) => start,
        Err(_) => return Err(ReplayFault::Memory),
    };
    read_transcript(alloc, seed, scratch, file.text, start, earlier, words)
}

/// Reads files as transcripts of nodes of different parties, in their order. `words` gets what is said beside a
/// refusal, if anything.
pub(crate) fn read_files<'a>(
    alloc: Global,
    seed: HashSeed,
    files: &[TranscriptFile<'a>],
    words: &mut String,
) -> Result<Vec<Transcript<'a>>, FileFault<'a>>
    ensures told { IfOk result (λ ts. AreTold ts.items) }
    ensures transcripts { IfOk result (λ ts. AreTranscripts files.now ts.items) }
    ensures err { IfErr result (λ f. RefusesFile files.now f.name.now f.fault) }
{
    let mut scratch = Scratch::new(alloc);
    let mut transcripts = Vec::new(alloc);
    let mut parties = Vec::new(alloc);
    for file in files {
        let earlier = parties.as_slice();
        let transcript = match read_file(alloc, seed, &mut scratch, file, earlier, words) {
            Ok(transcript) => transcript,
            Err(fault) => return Err(FileFault::of(file, fault)),
        };
        transcript.is_transcript();
        if parties.push(*transcript.party()).is_err() {
            drop(transcript);
            return Err(FileFault::of(file, ReplayFault::Memory));
        }
        match transcripts.push(transcript) {
            Ok(()) => {}
            Err(_) => return Err(FileFault::of(file, ReplayFault::Memory)),
        }
    }
    Ok(transcripts)
}
