//! Alterations (X.226 6.2; the rows and their order are this project's own).

ghost use Rattle.std.specs.Prelude.{◌≡◌, IfOk, nat_lt};
ghost use Rattle.end_rules.specs.Altering.{used, addition_refusal, deletion_refusal, additions_refusal, deletions_refusal, is_set_full, alteration_refusal, can_alter};
ghost use Rattle.association_state.specs.Seen.{base_in, seen};
ghost use Rattle.association_calls.specs.Replies.{Replies};

use crate::Reply;
use crate::in_use::contexts_in_use;
use crate::transfers::is_ending;
use association_state::association_ground_layer::{is_among, is_reliable};
use association_state::association_sets_layer::{
    Alteration, count_added, has_parity, is_bad_alteration, is_fixed, is_named_in,
};
use association_state::{Basis, Body};
use dialogue::CallRefusal;
use osi_base::{NoMemory, Proposal, pair_of};

/// Why one addition is refused.
fn addition_refusal(basis: &Basis<'_>, body: &Body, id: u32) -> Option<CallRefusal>
    ensures { result ≡ addition_refusal (base_in basis.now) (seen body.now) id }
{
    if !has_parity(basis.config.initiator, id) {
        return Some(CallRefusal::WrongParity(id));
    }
    if is_named_in(&body.sets.own, id) {
        return Some(CallRefusal::Named(id));
    }
    if pair_of(body.sets.held.as_slice(), id).is_some() {
        return Some(CallRefusal::Present(id));
    }
    None
}

/// Why one deletion is refused, where these contexts are in use.
fn deletion_refusal(body: &Body, in_use: &[u32], id: u32) -> Option<CallRefusal>
    requires { in_use.now ≡ used (seen body.now) }
    ensures { result ≡ deletion_refusal (seen body.now) id }
{
    if is_named_in(&body.sets.own, id) {
        return Some(CallRefusal::Named(id));
    }
    if pair_of(body.sets.held.as_slice(), id).is_none() {
        return Some(CallRefusal::Absent(id));
    }
    if is_fixed(pair_of(body.sets.held.as_slice(), id)) {
        return Some(CallRefusal::Fixed(id));
    }
    if is_among(id, in_use) {
        return Some(CallRefusal::InUse(id));
    }
    None
}

/// The first refusal of an addition.
fn additions_refusal(basis: &Basis<'_>, body: &Body, add: &[Proposal]) -> Option<CallRefusal>
    ensures { result ≡ additions_refusal (base_in basis.now) (seen body.now) add.now }
{
    for proposal in add {
        if let Some(refusal) = addition_refusal(basis, body, proposal.id) {
            return Some(refusal);
        }
    }
    None
}

/// The first refusal of a deletion, where these contexts are in use.
fn deletions_refusal(body: &Body, in_use: &[u32], delete: &[u32]) -> Option<CallRefusal>
    requires { in_use.now ≡ used (seen body.now) }
    ensures { result ≡ deletions_refusal (seen body.now) delete.now }
{
    for id in delete {
        if let Some(refusal) = deletion_refusal(body, in_use, *id) {
            return Some(refusal);
        }
    }
    None
}

/// Whether the set, all own additions and these would be too many; deletions aren't taken off.
#[tactic(auto, using(crate::proofs::Counts::capped))]
fn is_set_full(body: &Body, asked: &Alteration) -> bool
    ensures { result ≡ is_set_full (seen body.now) asked.now }
{
    let held = body.sets.held.len().min(65);
    let own = count_added(&body.sets.own);
    let more = asked.add().len().min(65);
    held + own + more > 64
}

/// Why an alteration is refused that isn't bad.
fn alteration_refusal(
    basis: &Basis<'_>,
    body: &Body,
    asked: &Alteration,
) -> Result<Option<CallRefusal>, NoMemory>
    ensures { IfOk result (λ refusal. refusal ≡ alteration_refusal (base_in basis.now)
        (seen body.now) asked.now) }
{
    if let Some(refusal) = additions_refusal(basis, body, asked.add().as_slice()) {
        return Ok(Some(refusal));
    }
    let in_use = contexts_in_use(basis.alloc, body)?;
    if let Some(refusal) = deletions_refusal(body, in_use.as_slice(), asked.delete().as_slice()) {
        return Ok(Some(refusal));
    }
    if is_set_full(body, asked) {
        return Ok(Some(CallRefusal::SetFull));
    }
    Ok(None)
}

/// Whether an alteration may be asked for.
pub fn can_alter(basis: &Basis<'_>, body: &Body, asked: &Alteration) -> Reply
    ensures { Replies (can_alter (base_in basis.now) (seen body.now) asked.now) result }
{
    if !body.link.manages {
        return Err(CallRefusal::NotNegotiated);
    }
    if !body.link.awaits.is_free() {
        return Err(CallRefusal::Waiting);
    }
    if is_reliable(basis.config.mode) && !body.link.turn {
        return Err(CallRefusal::NoTurn);
    }
    if is_ending(body) {
        return Err(CallRefusal::Ending(body.sending.started));
    }
    if body.sets.own.len() >= 4 {
        return Err(CallRefusal::AlterPending);
    }
    if is_bad_alteration(basis.alloc, asked)? {
        return Err(CallRefusal::BadProposal);
    }
    match alteration_refusal(basis, body, asked)? {
        Some(refusal) => Err(refusal),
        None => Ok(None),
    }
}
