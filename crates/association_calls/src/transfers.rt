//! Whether a transfer may be stopped or resumed and the release be called, and why not.

ghost use Rattle.std.specs.Prelude.{◌≡◌, not};
ghost use Rattle.end_rules.specs.Calling.{can_stop, can_resume, can_release};
ghost use Rattle.end_rules.specs.State.{is_none, is_current, is_ending, is_suspended};
ghost use Rattle.association_state.specs.Seen.{base_in, seen};
ghost use Rattle.dialogue.specs.declared.call.CallRefusal.TheVariants as refusals;
ghost use Rattle.association_calls.specs.Replies.{Replies, IsCounted};

use crate::Reply;
use crate::marks::has_activity;
use association_state::association_ground_layer::{is_direct, is_reliable};
use association_state::{Basis, Body};
use dialogue::CallRefusal;

/// Whether there is a current transfer.
pub(crate) fn has_transfer(body: &Body) -> bool
    ensures { result ≡ not (is_none (seen body.now).sending.current) }
{
    match &body.sending.current {
        None => false,
        Some(_) => true,
    }
}

/// Whether the end of the current transfer was sent.
pub(crate) fn is_ending(body: &Body) -> bool
    ensures { result ≡ is_current is_ending (seen body.now).sending.current }
{
    match &body.sending.current {
        None => false,
        Some(transfer) => transfer.progress.is_ending(),
    }
}

/// Whether the current transfer is suspended.
fn is_suspended(body: &Body) -> bool
    ensures { result ≡ is_current is_suspended (seen body.now).sending.current }
{
    match &body.sending.current {
        None => false,
        Some(transfer) => transfer.progress.is_suspended(),
    }
}

/// Whether the current transfer may be interrupted or discarded.
pub fn can_stop(basis: &Basis<'_>, body: &Body) -> Reply
    ensures { result ≡ can_stop (base_in basis.now) (seen body.now) }
{
    if is_direct(basis.config.mode) {
        return Err(CallRefusal::NotNegotiated);
    }
    if !body.link.awaits.is_free() {
        return Err(CallRefusal::Waiting);
    }
    if !has_activity(body) {
        return Err(CallRefusal::NoActivity);
    }
    if is_ending(body) {
        return Err(CallRefusal::Ending(body.sending.started));
    }
    Ok(None)
}

/// Whether the suspended transfer may be resumed.
pub fn can_resume(basis: &Basis<'_>, body: &Body) -> Reply
    ensures { result ≡ can_resume (base_in basis.now) (seen body.now) }
{
    if is_direct(basis.config.mode) {
        return Err(CallRefusal::NotNegotiated);
    }
    if !body.link.awaits.is_free() {
        return Err(CallRefusal::Waiting);
    }
    if !is_suspended(body) {
        return Err(CallRefusal::NotSuspended);
    }
    if !body.link.turn {
        return Err(CallRefusal::NoTurn);
    }
    if body.sets.own.len() != 0 {
        return Err(CallRefusal::AlterPending);
    }
    Ok(None)
}

/// The refusal for items that wait.
fn queue_waits(count: usize) -> CallRefusal
    ensures { IsCounted count refusals.QueueWaiting result }
{
    match u32::try_from(count) {
        Ok(count) => CallRefusal::QueueWaiting(count),
        Err(_) => CallRefusal::NoMemory,
    }
}

/// The refusal for own invocations that are open.
fn invocations_open(count: usize) -> CallRefusal
    ensures { IsCounted count refusals.OpenInvocations result }
{
    match u32::try_from(count) {
        Ok(count) => CallRefusal::OpenInvocations(count),
        Err(_) => CallRefusal::NoMemory,
    }
}

/// Whether the association may be released.
pub fn can_release(basis: &Basis<'_>, body: &Body) -> Reply
    ensures { Replies (can_release (base_in basis.now) (seen body.now)) result }
{
    if !body.link.awaits.is_free() {
        return Err(CallRefusal::Waiting);
    }
    if is_reliable(basis.config.mode) && !body.link.turn {
        return Err(CallRefusal::NoTurn);
    }
    if body.sets.own.len() != 0 {
        return Err(CallRefusal::AlterPending);
    }
    if has_transfer(body) {
        return Err(CallRefusal::ActivityOpen(body.sending.started));
    }
    let queued = body.sending.queue.len();
    if queued != 0 {
        return Err(queue_waits(queued));
    }
    let open = body.calls.own_count();
    if open != 0 {
        return Err(invocations_open(open));
    }
    Ok(None)
}
