//! The files of transcripts are read, and woven to the standard output.

ghost use Rattle.std.specs.Prelude.{◌≡◌, IfOk, Err, Ok};
ghost use Rattle.line_runs.specs.Outcome.{exit_status};
ghost use Rattle.line_runs.specs.declared.outcome.RunFault.{RunFault as RunFaultOf};
ghost use Rattle.weave_runs.specs.declared.fault.GivenFault.{GivenFault as GivenFaultOf};

use command_line::{FileWords, WRONG_WORDS, WeaveWords};
use line_runs::{Ran, RunFault, flush, status_of, write_whole};
use node_keepers::kept_in_copy;
use node_store::{Kept, StoreFault};
use program_messages::{BUFFER_BYTES, words_for_unread};
use std::alloc::{AllocError, Global};
use std::fs;
use std::io::{self, BufWriter, ErrorKind, Write};
use tables::HashSeed;
use thiserror::Error;
use weave_runs::{GivenFault, StoreRows, TranscriptFile, WeaveRunFault, run_weave};

/// The exit status where a file was not read.
pub const UNREAD: u8 = 3;

/// What stopped a run of `weave`.
#[derive(Clone, Copy, Debug, Error)]
pub enum WeaveStop<'a> {
    /// The file was not read, and nothing is said of any.
    #[error("{file}: {}", words_for_unread(*.kind))]
    Unread { file: &'a str, kind: ErrorKind },
    /// The store was not read, and nothing is said of any file.
    #[error("store: {0}")]
    Store(StoreFault),
    /// What a party sent cannot be taken as it came.
    #[error(transparent)]
    Given(#[from] GivenFault<'a>),
    #[error(transparent)]
    Run(#[from] RunFault),
}

impl<'a> From<WeaveRunFault<'a>> for WeaveStop<'a> {
    fn from(fault: WeaveRunFault<'a>) -> WeaveStop<'a> {
        match fault {
            WeaveRunFault::Run(fault) => WeaveStop::Run(fault),
            WeaveRunFault::Given(fault) => WeaveStop::Given(fault),
        }
    }
}

/// A transcript that was read, and what the store before it keeps.
#[derive(Drop)]
struct ReadFile<'a> {
    name: &'a str,
    text: Vec<u8>,
    store: Option<StoreRows>,
}

/// Why a file was not read.
#[derive(Clone, Copy)]
enum Unread {
    File(ErrorKind),
    Store(StoreFault),
}

/// Reads each store and each file whole, in their order, and writes the run that is made of them, or why there is none.
pub fn weave_files<'a>(
    rt: &HostRuntime,
    seed: HashSeed,
    words: &WeaveWords<'a>,
) -> Result<Ran, WeaveStop<'a>> {
    let mut files = Vec::new(rt.alloc());
    for named in words.files.as_slice() {
        match read_file(rt, *named) {
            Ok(file) => {
                if files.push(file).is_err() {
                    return refuse_memory(rt);
                }
            }
            Err(Unread::File(ErrorKind::OutOfMemory)) => return refuse_memory(rt),
            Err(Unread::File(kind)) => {
                return Err(WeaveStop::Unread {
                    file: named.file,
                    kind,
                });
            }
            Err(Unread::Store(StoreFault::Memory)) => return refuse_memory(rt),
            Err(Unread::Store(fault)) => return Err(WeaveStop::Store(fault)),
        }
    }
    weave_texts(rt, seed, words, files.as_slice())
}

/// What is kept, as a file's store.
fn rows_of(kept: Kept) -> StoreRows {
    let Kept { rows, line } = kept;
    StoreRows { rows, line }
}

/// What a store keeps, where one is named, and all that a file has.
fn read_file<'a>(rt: &HostRuntime, named: FileWords<'a>) -> Result<ReadFile<'a>, Unread> {
    let store = match named.store {
        Some(path) => match kept_in_copy(rt, path) {
            Ok(kept) => Some(rows_of(kept)),
            Err(fault) => return Err(Unread::Store(fault)),
        },
        None => None,
    };
    match fs::read(rt, named.file) {
        Ok(text) => Ok(ReadFile {
            name: named.file,
            text,
            store,
        }),
        Err(error) => {
            drop(store);
            Err(Unread::File(error.kind()))
        }
    }
}

/// A transcript that was read.
fn transcript_file<'b>(file: &'b ReadFile<'_>) -> TranscriptFile<'b> {
    TranscriptFile {
        name: file.name,
        text: file.text.as_slice(),
        store: file.store.as_ref(),
    }
}

/// The transcripts that were read. An error is want of memory.
fn transcript_files<'b>(
    alloc: Global,
    read: &'b [ReadFile<'_>],
) -> Result<Vec<TranscriptFile<'b>>, AllocError> {
    let mut files = Vec::new(alloc);
    for file in read {
        files.push(transcript_file(file))?;
    }
    Ok(files)
}

/// Weaves what was read.
fn weave_texts<'a>(
    rt: &HostRuntime,
    seed: HashSeed,
    words: &WeaveWords<'a>,
    read: &[ReadFile<'_>],
) -> Result<Ran, WeaveStop<'a>> {
    let Ok(files) = transcript_files(rt.alloc(), read) else {
        return refuse_memory(rt);
    };
    match BufWriter::with_capacity(rt.alloc(), BUFFER_BYTES, io::writer(rt)) {
        Ok(writer) => weave_to(rt, seed, files.as_slice(), words.given.as_slice(), writer),
        Err(_) => refuse_memory(rt),
    }
}

/// Weaves files to a writer, and says what goes with a refusal.
fn weave_to<'a, W: Write + Drop>(
    rt: &HostRuntime,
    seed: HashSeed,
    files: &[TranscriptFile<'_>],
    given: &[&'a str],
    writer: W,
) -> Result<Ran, WeaveStop<'a>> {
    let mut writer = writer;
    let mut words = String::new(rt.alloc());
    let ran = run_weave(rt.alloc(), seed, files, given, &mut writer, &mut words);
    drop(writer);
    if ran.is_ok() && !words.is_empty() {
        let _ = eprintln!(rt; "{}", words.as_str());
    }
    drop(words);
    Ok(ran?)
}

/// Says that memory ran out before anything was made of the files. It takes no memory.
fn refuse_memory<'a>(rt: &HostRuntime) -> Result<Ran, WeaveStop<'a>> {
    let mut writer = io::writer(rt);
    let written = write_whole(&mut writer, b"refused 4 Memory\n");
    written.and_then(|_| flush(&mut writer))?;
    Ok(Ran::WithRefusals)
}

/// Says what stopped a run of `weave`, if anything did, and answers the exit status.
pub fn report_weave(rt: &HostRuntime, ran: Result<Ran, WeaveStop<'_>>) -> u8
    ensures ran { IfOk ran.entry (λ r. result ≡ exit_status (Ok r)) }
    ensures given { (fault : GivenFaultOf) → ran.entry ≡ Err (WeaveStop.Given fault) → result ≡ WRONG_WORDS }
    ensures stopped { (fault : RunFaultOf) → ran.entry ≡ Err (WeaveStop.Run fault) → result ≡ exit_status (Err fault) }
{
    match ran {
        Ok(ran) => status_of(Ok(ran)),
        Err(stop) => {
            let _ = eprintln!(rt; "{stop}");
            status_of_stop(stop)
        }
    }
}

/// The exit status of a run of `weave` that was stopped.
fn status_of_stop(stop: WeaveStop<'_>) -> u8
    ensures given { (fault : GivenFaultOf) → stop.entry ≡ WeaveStop.Given fault → result ≡ WRONG_WORDS }
    ensures stopped { (fault : RunFaultOf) → stop.entry ≡ WeaveStop.Run fault → result ≡ exit_status (Err fault) }
{
    match stop {
        WeaveStop::Run(fault) => status_of(Err(fault)),
        WeaveStop::Given(_) => WRONG_WORDS,
        WeaveStop::Unread { .. } | WeaveStop::Store(_) => UNREAD,
    }
}
