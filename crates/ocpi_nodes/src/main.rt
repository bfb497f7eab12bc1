//! OCPI nodes as programs over lines of JSON.
//!
//! # Promises
//!
//! - The status is 2 where the command line is wrong. By `say`.
//! - Else it is that of the word that is run, as its library has it. No clause says so (its few lines; tested by the
//!   examples).
//!
//! # How it is built
//!
//! `main` takes the command line, and hands what it says to the library of its word: `program_streams`, `node_streams`
//! or `weave_streams`. These join a program to the standard input and output and to files, close the stores, and answer
//! the exit status (`program_messages`).
#![tactic(auto)]

ghost use Rattle.std.specs.Prelude.{◌≡◌, ◌≢◌};
ghost use Rattle.clap.specs.Values.{kind_of};

use clap::Error;
use clap::error::ErrorKind;
use command_line::{WRONG_WORDS, Word, status_after, take_words};
use line_runs::RunFault;
use node_streams::run_node_word;
use program_streams::{run_answer_word, run_play_word, run_settle_word};
use std::io;
use std::process::ExitCode;
use tables::HashSeed;
use weave_streams::{report_weave, weave_files};

/// The exit status where the system gave no random bytes: a read failed.
const WITHOUT_SEED: u8 = 1;

fn main(rt: HostRuntime) -> ExitCode {
    ExitCode::from(run_program(&rt))
}

/// Runs the program, and answers its exit status. Whether standard error can be written never changes the status.
fn run_program(rt: &HostRuntime) -> u8 {
    let words: Vec<String> = match take_arguments(rt) {
        Ok(words) => words,
        Err(fault) => {
            let _ = eprintln!(rt; "{fault}");
            return WRONG_WORDS;
        }
    };
    match take_words(rt.alloc(), words.as_slice()) {
        Ok(word) => run_word(rt, word),
        Err(text) => say(rt, &text),
    }
}

/// The arguments, or what is said where there are none to be had.
fn take_arguments(rt: &HostRuntime) -> Result<Vec<String>, &'static str> {
    let arguments = match std::env::args(rt) {
        Ok(arguments) => arguments,
        Err(error) => {
            return Err(if error.kind() == io::ErrorKind::InvalidData {
                "error: invalid UTF-8 was detected in one or more arguments"
            } else {
                "error: out of memory"
            });
        }
    };
    match arguments.collect(rt.alloc()) {
        Ok(words) => Ok(words),
        Err(_) => Err("error: out of memory"),
    }
}

/// Prints clap's text, and answers the exit status.
fn say(rt: &HostRuntime, text: &Error) -> u8
    ensures { kind_of text.now ≢ ErrorKind.DisplayHelp → kind_of text.now ≢ ErrorKind.DisplayVersion → result ≡ WRONG_WORDS }
{
    let is_printed = text.print(rt).is_ok();
    if !is_printed && !text.use_stderr() {
        let _ = eprintln!(rt; "{}", RunFault::WriteFailed);
    }
    status_after(text, is_printed)
}

/// Runs a program to the standard output, says what stopped it, and answers the exit status. What it looks up by a hash
/// is hashed from a seed that nobody can foresee.
fn run_word(rt: &HostRuntime, word: Word<'_>) -> u8 {
    match HashSeed::random(rt) {
        Ok(seed) => run_seeded(rt, seed, word),
        Err(_) => {
            let _ = eprintln!(rt; "error: the system gave no random bytes");
            WITHOUT_SEED
        }
    }
}

/// Runs a program whose hashes begin with that seed.
fn run_seeded(rt: &HostRuntime, seed: HashSeed, word: Word<'_>) -> u8 {
    match word {
        Word::Answer(telling) => run_answer_word(rt, seed, telling),
        Word::Play(words) => run_play_word(rt, seed, &words),
        Word::Settle(words) => run_settle_word(rt, &words),
        Word::Node(words) => run_node_word(rt, seed, &words),
        Word::Weave(words) => report_weave(rt, weave_files(rt, seed, &words)),
    }
}
