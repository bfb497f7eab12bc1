//! How a run and the closing of its stores ended, what is told of both, and the exit status.

ghost use Rattle.std.specs.Prelude.{◌≡◌, IfErr, IfOk, IsOk, OnOk, Err, None, Ok, Some};
ghost use Rattle.node_programs.specs.Stops.{play_status};
ghost use Rattle.node_runs.specs.Stops.{node_status};
ghost use Rattle.node_store.specs.declared.fault.StoreFault.{StoreFault as StoreFaultOf};

use crate::refusal::{
    advice_for, words_for, words_for_node, words_for_reason, words_for_setup, words_for_unopened,
    words_for_unwritten, words_with_numbers,
};
use crate::setup::SetupFault;
use command_line::NodeWords;
use line_runs::{Ran, RunFault};
use node_programs::{PlayFault, status_after_play};
use node_runs::{NodeRunFault, NodeStop, status_after_node};
use node_store::StoreFault;
use ocpi_json::{RowKind, write_key};
use ocpi_types::Word as WordOf;
use std::alloc::Global;
use std::io::ErrorKind;
use stored_rows::BadRow;

/// The exit status where the file of a setup or a transcript was not opened or read.
pub const UNOPENED: u8 = 3;

/// Whether a closing was refused. What it left is let go.
pub fn let_go<C: Drop>(closed: Result<C, StoreFault>) -> Result<(), StoreFault>
    ensures closed { IfOk closed (λ left. IsOk result) }
    ensures refused { IfErr closed (λ fault. result ≡ Err fault) }
{
    match closed {
        Ok(left) => {
            drop(left);
            Ok(())
        }
        Err(fault) => Err(fault),
    }
}

/// What stops a run, by its store too.
pub trait StoppedByStore {
    /// `by_store fault`: that the store refused, for this fault.
    ghost by_store: { StoreFaultOf → Self };

    /// That the store refused.
    fn from_store(fault: StoreFault) -> Self
        ensures { result ≡ by_store fault };
}

impl StoppedByStore for PlayFault {
    ghost use Rattle.node_programs.specs.declared.fault.PlayFault.TheVariants.{Store};

    ghost by_store = { λ fault. Store fault };

    fn from_store(fault: StoreFault) -> PlayFault {
        PlayFault::Store(fault)
    }
}

impl StoppedByStore for NodeRunFault {
    ghost use Rattle.node_runs.specs.declared.fault.NodeRunFault.TheVariants.{Stop};
    ghost use Rattle.node_runs.specs.declared.fault.NodeStop.TheVariants.{Store};

    ghost by_store = { λ fault. Stop (Store fault) };

    fn from_store(fault: StoreFault) -> NodeRunFault {
        NodeRunFault::Stop(NodeStop::Store(fault))
    }
}

/// How a run went, and then the closing of its stores; and what that closing refused besides, where the run had failed
/// before. Both are told, what stopped the run first.
pub fn and_closed<E: StoppedByStore>(
    ran: Result<Ran, E>,
    closed: Result<(), StoreFault>,
) -> (Result<Ran, E>, Option<StoreFault>)
    ensures ran { IfErr ran (λ fault. result.0 ≡ Err fault) }
    ensures closed { IfOk ran (λ r. OnOk closed (result.0 ≡ Ok r)) }
    ensures refused { IfOk ran (λ r. IfErr closed (λ fault. result.0 ≡ Err (E.by_store fault))) }
    ensures besides { IfErr ran (λ fault. IfErr closed (λ refusal. result.1 ≡ Some refusal)) }
    ensures once { IfOk ran (λ r. result.1 ≡ None) }
    ensures nothing { OnOk closed (result.1 ≡ None) }
{
    match ran {
        Ok(ran) => match closed {
            Ok(()) => (Ok(ran), None),
            Err(refusal) => (Err(E::from_store(refusal)), None),
        },
        Err(fault) => (Err(fault), closed.err()),
    }
}

/// What is told of the stores of a run that ended.
#[derive(Drop)]
pub struct Told {
    /// The file that refused, or else the folder, since any of its files may have refused a commit; no text for
    /// keepers in memory.
    pub place: String,
    /// What the closing of a file refused besides, where the run had failed before.
    pub besides: Option<StoreFault>,
    /// That file.
    pub unclosed: String,
}

impl Told {
    /// Nothing yet.
    pub fn new(alloc: Global) -> Told {
        Told {
            place: String::new(alloc),
            besides: None,
            unclosed: String::new(alloc),
        }
    }
}

/// Says what stopped a run, of a store also which it was and why, then what the closing of a store refused besides, and
/// answers the exit status.
pub fn report(rt: &HostRuntime, ran: Result<Ran, PlayFault>, told: &Told) -> u8
    ensures { result ≡ play_status ran }
{
    if let Err(fault) = ran {
        tell_fault(rt, fault, told.place.as_str());
    }
    tell_besides(rt, told.besides, told.unclosed.as_str());
    status_after_play(ran)
}

/// Says what stopped a run, of a store also which it was and why: the one at that place, where there is a name for it.
fn tell_fault(rt: &HostRuntime, fault: PlayFault, place: &str) {
    let _ = eprintln!(rt; "{fault}");
    if let PlayFault::Store(refusal) = fault {
        explain(rt, place, words_for(refusal));
    }
}

/// Says what the closing of the store at that place refused, if anything, besides what stopped the run.
fn tell_besides(rt: &HostRuntime, besides: Option<StoreFault>, place: &str) {
    if let Some(refusal) = besides {
        let _ = eprintln!(rt; "store: {refusal}");
        explain(rt, place, words_for(refusal));
    }
}

/// Says why the store at that place refused, where there is a name for it.
fn explain(rt: &HostRuntime, place: &str, words: &str) {
    if place.is_empty() {
        let _ = eprintln!(rt; "{words}");
    } else {
        let _ = eprintln!(rt; "{place}: {words}");
    }
}

/// What is told of a run of one node that ended, besides what stopped it.
#[derive(Clone, Copy)]
pub struct Besides {
    /// What the closing of its store refused, where the run had failed before.
    pub unclosed: Option<StoreFault>,
    /// Why its transcript was not written, where that stopped the run.
    pub unwritten: Option<ErrorKind>,
}

impl Besides {
    /// Nothing yet.
    pub fn new() -> Besides
        ensures unclosed { result.unclosed ≡ None }
        ensures unwritten { result.unwritten ≡ None }
    {
        Besides {
            unclosed: None,
            unwritten: None,
        }
    }
}

/// Says what stopped a run of one node, of a store or a transcript also which it was and why, then what the closing of
/// its store refused besides, and answers the exit status.
pub fn report_node(
    rt: &HostRuntime,
    ran: Result<Ran, NodeRunFault>,
    besides: Besides,
    words: &NodeWords<'_>,
) -> u8
    ensures { result ≡ node_status ran }
{
    explain_run(rt, &ran, besides.unwritten, words);
    tell_besides(rt, besides.unclosed, words.store.unwrap_or(""));
    status_after_node(ran)
}

/// Says why the transcript at that place was not opened, and answers the exit status.
pub fn report_unopened(rt: &HostRuntime, place: &str, kind: ErrorKind) -> u8
    ensures { result ≡ UNOPENED }
{
    let _ = eprintln!(rt; "transcript: 1 Refused");
    explain(rt, place, words_for_unopened(kind));
    UNOPENED
}

/// Says why the file at that place gives no setup, and answers the exit status.
pub fn report_setup(rt: &HostRuntime, place: &str, fault: SetupFault) -> u8
    ensures { result ≡ UNOPENED }
{
    let _ = eprintln!(rt; "setup: 1 Refused");
    explain(rt, place, words_for_setup(fault));
    UNOPENED
}

/// Says what stopped a run of one node, if anything did.
fn explain_run(
    rt: &HostRuntime,
    ran: &Result<Ran, NodeRunFault>,
    unwritten: Option<ErrorKind>,
    words: &NodeWords<'_>,
) {
    match ran {
        Ok(_) => {}
        Err(NodeRunFault::Stop(NodeStop::UnknownParty)) => {
            let _ = eprintln!(rt; "node: no {} in the setup", words.party);
        }
        Err(NodeRunFault::Run(RunFault::WriteFailed)) => {
            explain_write(rt, unwritten, words.transcript.unwrap_or(""));
        }
        Err(fault) => {
            let _ = eprintln!(rt; "{fault}");
            explain_fault(rt, fault, words.store.unwrap_or(""));
        }
    }
}

/// Says that a run of one node could not write, and where it was to its transcript, at that place, why.
fn explain_write(rt: &HostRuntime, unwritten: Option<ErrorKind>, place: &str) {
    match unwritten {
        Some(kind) => {
            let _ = eprintln!(rt; "transcript: write failed");
            explain(rt, place, words_for_unwritten(kind));
        }
        None => {
            let _ = eprintln!(rt; "{}", RunFault::WriteFailed);
        }
    }
}

/// Says why the store at that place stopped a run of one node, if it did.
fn explain_fault(rt: &HostRuntime, fault: &NodeRunFault, place: &str) {
    match fault {
        NodeRunFault::Run(_) | NodeRunFault::Stop(NodeStop::UnknownParty | NodeStop::Memory) => {}
        NodeRunFault::Stop(NodeStop::Store(refusal)) => {
            explain(rt, place, words_for_node(*refusal));
        }
        NodeRunFault::Stop(NodeStop::BadRows(row)) => explain_row(rt, row, place),
    }
}

/// Says which row of a store shows that no such node has its rows, what is wrong with it, and what to do.
fn explain_row(rt: &HostRuntime, row: &BadRow, place: &str) {
    let kind = RowKind::of_key(&row.key).word();
    let told = words_with_numbers(rt.alloc(), row.reason);
    let words = match &told {
        Some(told) => told.as_str(),
        None => words_for_reason(row.reason),
    };
    let advice = advice_for(row.reason);
    match write_key(rt.alloc(), &row.key) {
        Ok(key) => {
            let _ = eprintln!(rt; "{place}: {kind} {}: {words}: {advice}", key.as_str());
        }
        Err(_) => {
            let _ = eprintln!(rt; "{place}: a {kind} row: {words}: {advice}");
        }
    }
}
