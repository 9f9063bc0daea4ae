//! The line of an end: its state, and what is hardened of it.
ghost use Rattle.std.specs.Prelude.{◌≡◌, ◌++◌, IfOk, OnOk, option_copied};
ghost use Rattle.mq_sync.specs.Settlement.{sender_or, receiver_or};
ghost use Rattle.mq_spec_node.specs.Status.{doubt_words, sender_word, sender_words, receiver_word, receiver_words};
ghost use Rattle.mq_status.specs.Lines.{known_words, none_words, receiver_line, sender_line, unsettled_words};

use crate::writing::{put_number, put_pair, put_unit};
use mq_base::Items;
use mq_own::{ReceiverEnd, SenderEnd};
use mq_receiver::ReceiverState;
use mq_sender::SenderState;
use mq_sync::{InDoubt, ReceiverData, SenderData, Unit};
use std::alloc::{AllocError, Global};

fn sender_word(state: &SenderState) -> &'static str
    ensures { result.now ≡ sender_word state.now }
{
    match state {
        SenderState::Inactive => "INACTIVE",
        SenderState::Stopped(_) => "STOPPED",
        SenderState::Starting | SenderState::Hailing => "STARTING",
        SenderState::Binding => "BINDING",
        SenderState::Running
        | SenderState::Sending { .. }
        | SenderState::Ready
        | SenderState::Waiting => "RUNNING",
    }
}

fn receiver_word(state: &ReceiverState) -> &'static str
    ensures { result.now ≡ receiver_word state.now }
{
    match state {
        ReceiverState::Inactive => "INACTIVE",
        ReceiverState::Stopped => "STOPPED",
        ReceiverState::Bound { .. } => "RUNNING",
    }
}

/// A unit in doubt.
fn put_unsettled(alloc: Global, out: &mut Items<u8>, unit: &Unit) -> Result<(), AllocError>
    ensures { OnOk result (out.new ≡ out.old ++ unsettled_words unit.now) }
{
    put_pair(out, " INDOUBT", b"YES")?;
    put_unit(alloc, out, " CURLUWID", unit)
}

/// A unit in doubt and its last number.
fn put_known(alloc: Global, out: &mut Items<u8>, doubt: &InDoubt) -> Result<(), AllocError>
    ensures { OnOk result (out.new ≡ out.old ++ known_words doubt.now) }
{
    put_unsettled(alloc, out, &doubt.unit)?;
    put_number(alloc, out, " CURSEQNO", doubt.last)
}

/// No unit in doubt, and the last number.
fn put_none(alloc: Global, out: &mut Items<u8>, last: u32) -> Result<(), AllocError>
    ensures { OnOk result (out.new ≡ out.old ++ none_words last) }
{
    put_pair(out, " INDOUBT", b"NO")?;
    put_unit(alloc, out, " CURLUWID", &Unit::none())?;
    put_number(alloc, out, " CURSEQNO", last)
}

/// The unit in doubt and its last number, or no unit and the last number.
fn put_doubt(
    alloc: Global,
    out: &mut Items<u8>,
    last: u32,
    doubt: &Option<InDoubt>,
) -> Result<(), AllocError>
    ensures { OnOk result (out.new ≡ out.old ++ doubt_words last doubt.now) }
{
    match doubt {
        None => put_none(alloc, out, last),
        Some(doubt) => put_known(alloc, out, doubt),
    }
}

/// What a sender has hardened.
fn put_sender(
    alloc: Global,
    out: &mut Items<u8>,
    kept: Option<&SenderData>,
) -> Result<(), AllocError>
    ensures { OnOk result (out.new ≡ out.old ++ sender_words (sender_or (option_copied kept.entry))) }
{
    match kept {
        None => put_doubt(alloc, out, 0, &None),
        Some(kept) => put_doubt(alloc, out, kept.last, &kept.in_doubt),
    }
}

/// What a receiver has hardened.
fn put_receiver(
    alloc: Global,
    out: &mut Items<u8>,
    kept: Option<&ReceiverData>,
) -> Result<(), AllocError>
    ensures { OnOk result (out.new ≡ out.old ++ receiver_words (receiver_or (option_copied kept.entry))) }
{
    match kept {
        None => {
            put_unit(alloc, out, " LSTLUWID", &Unit::none())?;
            put_number(alloc, out, " LSTSEQNO", 0)
        }
        Some(kept) => {
            put_unit(alloc, out, " LSTLUWID", &kept.unit)?;
            put_number(alloc, out, " LSTSEQNO", kept.last)
        }
    }
}

/// The line of a sender.
pub fn sender_line(
    alloc: Global,
    end: &SenderEnd,
    kept: Option<&SenderData>,
) -> Result<Items<u8>, AllocError>
    ensures { IfOk result (λ text. text ≡ sender_line end.now (option_copied kept.entry)) }
{
    let mut text = Items::new(alloc);
    put_pair(&mut text, "CHSTATUS", end.channel.text())?;
    put_pair(
        &mut text,
        " STATUS",
        sender_word(&end.machine.state).as_bytes(),
    )?;
    put_sender(alloc, &mut text, kept)?;
    Ok(text)
}

/// The line of a receiver.
pub fn receiver_line(
    alloc: Global,
    end: &ReceiverEnd,
    kept: Option<&ReceiverData>,
) -> Result<Items<u8>, AllocError>
    ensures { IfOk result (λ text. text ≡ receiver_line end.now (option_copied kept.entry)) }
{
    let mut text = Items::new(alloc);
    put_pair(&mut text, "CHSTATUS", end.channel.text())?;
    put_pair(
        &mut text,
        " STATUS",
        receiver_word(&end.machine.state).as_bytes(),
    )?;
    put_receiver(alloc, &mut text, kept)?;
    Ok(text)
}
