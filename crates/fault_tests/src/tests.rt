//! What an `anyhow::Error` says that `?` made of an error. The texts are those of `specs/FaultText` of each crate.

use command_book::CommandFault;
use handover::HandoverFault;
use json_text::JsonFault;
use line_runs::RunFault;
use node_programs::PlayFault;
use node_runs::{NodeRunFault, NodeStop};
use node_steps::NodeFault;
use node_store::StoreFault;
use ocpi_text::TextFault;
use outbox::OutboxFault;
use replays::ReplayFault;
use reservation_book::ReservationFault;
use session_state::SessionFault;
use site_book::SiteFault;
use std::error::Error;
use std::fmt::InlineText;
use stored_rows::RowsFault;
use token_desk::TokenFault;
use weave_runs::GivenFault;

/// Fails with that error, as a program does.
fn fail<E: Error>(fault: E) -> anyhow::Result<()> {
    let refused: Result<(), E> = Err(fault);
    refused?;
    Ok(())
}

/// What is said of that failure.
fn said<E: Error>(fault: E) -> InlineText<64> {
    match fail(fault) {
        Ok(()) => InlineText::new(),
        Err(error) => InlineText::of(error),
    }
}

#[test]
fn errors_of_texts_and_books_are_passed_on(rt: HostRuntime) {
    assert_eq!(rt; said(TextFault::BadMoment).as_str(), "3 BadMoment");
    assert_eq!(rt; said(JsonFault::Syntax).as_str(), "1 Syntax");
    assert_eq!(rt; said(SiteFault::Claimed).as_str(), "3 Claimed");
    assert_eq!(rt; said(SessionFault::StampEnd).as_str(), "1 StampEnd");
    assert_eq!(rt; said(CommandFault::Settled).as_str(), "2 Settled");
    assert_eq!(rt; said(TokenFault::WrongParty).as_str(), "2 WrongParty");
    assert_eq!(rt;
        said(ReservationFault::OtherLocation).as_str(),
        "2 OtherLocation"
    );
    assert_eq!(rt;
        said(OutboxFault::NumbersUsedUp).as_str(),
        "2 NumbersUsedUp"
    );
    assert_eq!(rt; said(HandoverFault::WrongParty).as_str(), "1 WrongParty");
}

#[test]
fn errors_of_nodes_and_programs_are_passed_on(rt: HostRuntime) {
    assert_eq!(rt; said(NodeFault::NotForMe).as_str(), "1 NotForMe");
    assert_eq!(rt; said(RowsFault::Memory).as_str(), "4 Memory");
    assert_eq!(rt; said(StoreFault::BadRow).as_str(), "2 BadRow");
    assert_eq!(rt; said(RunFault::ReadFailed).as_str(), "input: read failed");
    assert_eq!(rt;
        said(PlayFault::Store(StoreFault::BadRow)).as_str(),
        "store: 2 BadRow"
    );
    let stop = NodeRunFault::Stop(NodeStop::Store(StoreFault::OldLayout));
    assert_eq!(rt; said(stop).as_str(), "store: 3 OldLayout");
    assert_eq!(rt;
        said(GivenFault::HasFile("BE/BEC")).as_str(),
        "weave: BE/BEC has a file"
    );
    assert_eq!(rt;
        said(ReplayFault::NotARun(7)).as_str(),
        "the node would have printed something else for line 7"
    );
}
