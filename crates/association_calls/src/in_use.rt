//! The contexts in use (this project's own rule).

ghost use Rattle.std.specs.Prelude.{◌≡◌, ◌++◌, map, Some, IfOk, OnOk};
ghost use Rattle.end_rules.specs.State.{OpenCall as seen_call, Queued as rule_queued};
ghost use Rattle.end_rules.specs.Altering.{context_of_current, used};
ghost use Rattle.association_state.specs.association_pieces.Sending.{seen_queued, seen_transfer, seen_sending};
ghost use Rattle.association_state.specs.Seen.{seen};

use association_state::open_invocations_layer::OpenCall;
use association_state::{Body, Queued, Sending, Transfer};
use osi_base::{Ids, ListOf, NoMemory};
use std::alloc::Global;

/// The context on which a transfer that isn't suspended is encoded.
fn push_encoded(ids: &mut Ids, transfer: &Transfer) -> Result<(), NoMemory>
    ensures { OnOk result (ids.new ≡ ids.old ++ context_of_current
        (Some (seen_transfer transfer.now))) }
{
    if transfer.progress.is_suspended() {
        return Ok(());
    }
    match &transfer.encoded {
        None => Ok(()),
        Some(encoded) => {
            ids.push(encoded.id)?;
            Ok(())
        }
    }
}

/// The context on which the transfer in progress is encoded.
fn current_context(alloc: Global, sending: &Sending) -> Result<Ids, NoMemory>
    ensures { IfOk result (λ ids. ids ≡ context_of_current (seen_sending sending.now).current) }
{
    let mut ids: Ids = ListOf::new(alloc);
    match &sending.current {
        None => Ok(ids),
        Some(transfer) => {
            push_encoded(&mut ids, transfer)?;
            Ok(ids)
        }
    }
}

/// Puts the contexts of open invocations behind others.
fn push_calls(ids: &mut Ids, opens: &Vec<OpenCall>) -> Result<(), NoMemory>
    ensures { OnOk result (ids.new ≡ ids.old ++ map (λ (o : seen_call). o.context)
        opens.now.items) }
{
    for open in opens {
        ids.push(open.context())?;
    }
    Ok(())
}

/// Puts the contexts of queued items behind others.
fn push_queue(ids: &mut Ids, queue: &Vec<Queued>) -> Result<(), NoMemory>
    ensures { OnOk result (ids.new ≡ ids.old ++ map (λ (item : rule_queued). item.context)
        (map seen_queued queue.now.items)) }
{
    for item in queue {
        ids.push(item.context)?;
    }
    Ok(())
}

/// The contexts in use: the one on which the transfer in progress is encoded, and those of open
/// invocations and of queued items.
pub fn contexts_in_use(alloc: Global, body: &Body) -> Result<Ids, NoMemory>
    ensures { IfOk result (λ ids. ids ≡ used (seen body.now)) }
{
    let mut ids = current_context(alloc, &body.sending)?;
    let opens = body.calls.open_calls()?;
    push_calls(&mut ids, &opens)?;
    push_queue(&mut ids, &body.sending.queue)?;
    Ok(ids)
}
