//! The end of an association.

ghost use Rattle.std.specs.Prelude.{◌≡◌, ◌++◌, IfOk, OnOk, [], ◌∷◌, map, true};
ghost use Rattle.dialogue.specs.declared.indication.Indication.TheVariants as indications;
ghost use Rattle.end_rules.specs.State.{is_carrying};
ghost use Rattle.end_rules.specs.Faults.{over, abort_of, cuts};
ghost use Rattle.association_sends.specs.association_words.Seen.{seen_fault, seen_message};
ghost use Rattle.association_calls.specs.association_state.Seen.{seen};
ghost use Rattle.association_answers.specs.BroughtAs.{FailsAs};

use crate::brought::{Messages, Reaction, one_message};
use crate::telling::push_cuts;
use association_calls::association_state_layer::{Basis, Body};
use association_sends::abort_of;
use association_sends::association_words_layer::Fault;
use dialogue::{Indication, Indications, Phase};
use osi_base::{Layer, ListOf, NoMemory, SetItem};
use std::alloc::Global;

/// Ends the association: what was open is cut.
pub fn end_association(body: &mut Body)
    ensures { seen body.new ≡ over (seen body.old) }
{
    body.calls.clear();
    body.link.phase = Phase::Over;
}

/// The abort that is sent for a fault, if any is.
fn aborts(
    alloc: Global,
    body: &Body,
    accepted: &[SetItem],
    layer: Layer,
    reason: u8,
) -> Result<Messages, NoMemory>
    ensures { IfOk result (λ ms. map seen_message ms
        ≡ abort_of (is_carrying (seen body.now).link.stage) accepted.now layer reason) }
{
    let connected = body.link.stage.is_carrying();
    match abort_of(alloc, connected, accepted, layer, reason)? {
        Some(message) => one_message(alloc, message),
        None => Ok(ListOf::new(alloc)),
    }
}

/// What is shown at a fault, behind what it tells.
fn shown_at(
    alloc: Global,
    body: &Body,
    shown_before: Indications,
    layer: Layer,
    place: u64,
    reason: u8,
) -> Result<Indications, NoMemory>
    ensures { IfOk result (λ shown. shown ≡ (shown_before ++ cuts (seen body.now))
        ++ indications.Aborted true layer place reason ∷ []) }
{
    let mut shown = shown_before;
    push_cuts(alloc, body, &mut shown)?;
    shown.push(Indication::Aborted {
        own: true,
        layer,
        place,
        reason,
    })?;
    Ok(shown)
}

/// Ends the association for a fault by an own abort, which goes on these contexts. What the fault
/// tells is shown first, and is no longer in the fault that is answered.
pub fn fail_association(
    basis: &Basis<'_>,
    body: &mut Body,
    accepted: &[SetItem],
    fault: Fault,
) -> Result<Reaction, NoMemory>
    ensures body { OnOk result (seen body.new ≡ over (seen body.old)) }
    ensures reaction { IfOk result (FailsAs (seen body.old) accepted.now (seen_fault fault)) }
{
    let Fault {
        layer,
        place,
        reason,
        shown_before,
    } = fault;
    let messages = aborts(basis.alloc, body, accepted, layer, reason)?;
    let shown = shown_at(basis.alloc, body, shown_before, layer, place, reason)?;
    end_association(body);
    Ok(Reaction::Fails {
        fault: Fault::at(basis.alloc, layer, place, reason),
        aborts: messages,
        shown,
    })
}
