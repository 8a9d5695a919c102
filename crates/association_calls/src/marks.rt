//! Which marks, turns and restarts may be called, and why not.

ghost use Rattle.std.specs.Prelude.{◌≡◌};
ghost use Rattle.end_rules.specs.Calling.{can_mark, has_activity, can_give, can_please, can_restart};
ghost use Rattle.association_state.specs.Seen.{base_in, seen};

use crate::Reply;
use crate::units::{has_marks, has_restarts, has_token};
use association_state::association_ground_layer::is_direct;
use association_state::{Basis, Body};
use dialogue::CallRefusal;

/// The most marks that are kept.
const MOST_MARKS: u32 = 65_536;

/// Whether a mark may be set.
pub fn can_mark(basis: &Basis<'_>, body: &Body) -> Reply
    ensures { result ≡ can_mark (base_in basis.now) (seen body.now) }
{
    if !(is_direct(basis.config.mode) && has_marks(body.link.selected)) {
        return Err(CallRefusal::NotNegotiated);
    }
    if !body.link.awaits.is_free() {
        return Err(CallRefusal::Waiting);
    }
    if !body.link.turn {
        return Err(CallRefusal::NoTurn);
    }
    if body.sets.own.len() != 0 {
        return Err(CallRefusal::AlterPending);
    }
    if body.saved.next_number() > MOST_MARKS {
        return Err(CallRefusal::MarksFull);
    }
    Ok(None)
}

/// Whether an own activity is in progress.
pub(crate) fn has_activity(body: &Body) -> bool
    ensures { result ≡ has_activity (seen body.now) }
{
    match &body.sending.current {
        None => false,
        Some(transfer) => transfer.progress.is_running() || transfer.progress.is_ending(),
    }
}

/// Whether the turn may be given.
pub fn can_give(basis: &Basis<'_>, body: &Body) -> Reply
    ensures { result ≡ can_give (base_in basis.now) (seen body.now) }
{
    if !has_token(basis, body) {
        return Err(CallRefusal::NotNegotiated);
    }
    if !body.link.awaits.is_free() {
        return Err(CallRefusal::Waiting);
    }
    if !body.link.turn {
        return Err(CallRefusal::NoTurn);
    }
    if body.sets.own.len() != 0 {
        return Err(CallRefusal::AlterPending);
    }
    if has_activity(body) {
        return Err(CallRefusal::ActivityOpen(body.sending.started));
    }
    Ok(None)
}

/// Whether the turn may be asked for.
pub fn can_please(basis: &Basis<'_>, body: &Body) -> Reply
    ensures { result ≡ can_please (base_in basis.now) (seen body.now) }
{
    if !has_token(basis, body) {
        return Err(CallRefusal::NotNegotiated);
    }
    if !body.link.awaits.is_free() {
        return Err(CallRefusal::Waiting);
    }
    if body.link.turn {
        return Err(CallRefusal::HasTurn);
    }
    Ok(None)
}

/// Whether a restart to this number may be asked for.
pub fn can_restart(basis: &Basis<'_>, body: &Body, n: u32) -> Reply
    ensures { result ≡ can_restart (base_in basis.now) (seen body.now) n }
{
    if !(is_direct(basis.config.mode) && has_restarts(body.link.selected)) {
        return Err(CallRefusal::NotNegotiated);
    }
    if !body.link.awaits.is_free() {
        return Err(CallRefusal::Waiting);
    }
    if !(1 <= n && n <= body.saved.next_number()) {
        return Err(CallRefusal::NoSuchMark(n));
    }
    Ok(None)
}
