//! Invocations (X.880 8; the rows and their order are this project's own).

ghost use Rattle.std.specs.Prelude.{◌≡◌, Some, None, true, IfOk, IfSome, length, ◌≤◌, ◌<◌};
ghost use Rattle.std.specs.Option.{option_map};
ghost use Rattle.end_rules.specs.Invoking.{is_stopped, is_queue_full, next_id, is_on_module, is_linked_to, linking_refusal, invoke_apdu, can_send_invoke, can_invoke_operation, can_invoke};
ghost use Rattle.stub_tables.specs.Apdus.{operation_coded};
ghost use Rattle.stub_tables.specs.Lookup.{operation_at};
ghost use Rattle.stub_tables.specs.Codes.{is_silent};
ghost use Rattle.association_state.specs.open_invocations.Invocations.{is_link};
ghost use Rattle.association_state.specs.Seen.{base_in, seen};
ghost use Rattle.association_calls.specs.Replies.{IsChecked, IsRefusal};
ghost use Rattle.association_calls.specs.Rooms.{HasRoom, IsRoomy};

use asn1_types::Val;
use association_state::apdu_codec_layer::is_too_long_with;
use association_state::association_ground_layer::{is_direct, is_reliable};
use association_state::association_sets_layer::{has_abstract, is_deleted_in};
use association_state::rose_roles_layer::{invoke_apdu, is_linked_to};
use association_state::{Basis, Body};
use dialogue::CallRefusal;
use osi_base::pair_of;
use stub_tables::{Apdu, Operation};

/// How many invocations of one end may be open.
const MOST_OPEN: usize = 4_096;

/// The greatest identifier of an invocation.
const LAST_ID: u32 = 2_147_483_647;

/// How many items may wait for their transfers.
const MOST_QUEUED: usize = 64;

/// An invocation that is made: its operation's place, its context, and what it is linked to.
#[derive(Clone, Copy, Debug)]
pub struct Making {
    /// The identifier of the presentation context that the invocation goes on.
    pub context: u32,
    /// The place of the operation in the module's tables.
    pub place: u32,
    /// The invoke identifier of the peer's invocation that it is linked to, if any.
    pub linked: Option<i64>,
}

/// Whether an own restart that isn't answered stops invocations and outcomes.
pub(crate) fn is_stopped(basis: &Basis<'_>, body: &Body) -> bool
    ensures { result ≡ is_stopped (base_in basis.now) (seen body.now) }
{
    is_direct(basis.config.mode) && !body.link.awaits.is_free()
}

/// Whether the queue of transfers is full.
pub(crate) fn is_queue_full(basis: &Basis<'_>, body: &Body) -> bool
    ensures { result ≡ is_queue_full (base_in basis.now) (seen body.now) }
{
    is_reliable(basis.config.mode) && body.sending.queue.len() >= MOST_QUEUED
}

/// The identifier of the next invocation.
fn next_id(body: &Body) -> i64
    ensures { result ≡ next_id (seen body.now) }
{
    i64::from((body.calls.made() + 1).min(LAST_ID))
}

/// Whether the identifier is in the set, with the module's abstract syntax.
fn is_on_module(basis: &Basis<'_>, body: &Body, context: u32) -> bool
    ensures { result ≡ is_on_module (base_in basis.now) (seen body.now) context }
{
    has_abstract(
        pair_of(body.sets.held.as_slice(), context),
        basis.tables.name_oid.arcs(),
    )
}

/// Why an invocation may not be linked so.
fn linking_refusal(
    basis: &Basis<'_>,
    body: &Body,
    place: u32,
    linked: Option<i64>,
) -> Option<CallRefusal>
    ensures refusal { result ≡ linking_refusal (base_in basis.now) (seen body.now) place linked }
    ensures link { (result ≡ None) → is_link linked (seen body.now).calls.opens ≡ true }
{
    let linked = linked?;
    let Some(parent) = body.calls.operation(false, &linked) else {
        return Some(CallRefusal::ParentClosed(linked));
    };
    if is_linked_to(basis.tables.operation(parent), place) {
        None
    } else {
        Some(CallRefusal::LinkNotAllowed(linked))
    }
}

/// Why there is no room or no number for one more invocation of an operation.
fn room_refusal(basis: &Basis<'_>, body: &Body, operation: &Operation) -> Option<CallRefusal>
    ensures { IsRoomy (base_in basis.now) (seen body.now) operation.now result }
{
    if !operation.is_silent() && body.calls.own_count() >= MOST_OPEN {
        return Some(CallRefusal::TooManyOpen);
    }
    if body.calls.made() >= LAST_ID {
        return Some(CallRefusal::NumbersSpent);
    }
    if is_queue_full(basis, body) {
        return Some(CallRefusal::QueueFull);
    }
    None
}

/// The APDU of the next invocation of an operation of the module on a context of it, linked as it
/// may be. The operation says how its argument is used, so its code isn't looked up.
fn check_send(
    basis: &Basis<'_>,
    body: &Body,
    operation: &Operation,
    argument: &Option<Val>,
    linked: Option<i64>,
) -> Result<Apdu, CallRefusal>
    requires { operation_coded basis.now.tables.now operation.now.code ≡ Some operation.now }
    ensures checked { IsChecked (can_send_invoke (base_in basis.now) (seen body.now) operation.now
        argument.now linked) (Some (next_id (seen body.now)))
        (Some (invoke_apdu operation.now (next_id (seen body.now)) linked argument.now)) result }
    ensures room { IfOk result (λ _. HasRoom (seen body.now) operation.now) }
{
    if !operation.argument.carries(&basis.tables.types, argument) {
        return Err(CallRefusal::NotTyped);
    }
    let apdu = invoke_apdu(basis.alloc, operation, next_id(body), linked, argument)?;
    if is_too_long_with(basis.tables, Some(operation.argument), &apdu) {
        drop(apdu);
        return Err(CallRefusal::TooLong);
    }
    match room_refusal(basis, body, operation) {
        Some(refusal) => {
            drop(apdu);
            Err(refusal)
        }
        None => Ok(apdu),
    }
}

/// The APDU of the next invocation, or why it may not be made.
#[tactic(auto, using(crate::proofs::Uses::own_operation))]
pub fn check_invoke(
    basis: &Basis<'_>,
    body: &Body,
    making: Making,
    argument: &Option<Val>,
) -> Result<Apdu, CallRefusal>
    ensures checked { IsChecked (can_invoke (base_in basis.now) (seen body.now) making.context
        making.place argument.now making.linked) (Some (next_id (seen body.now)))
        (option_map (λ o. invoke_apdu o (next_id (seen body.now)) making.linked argument.now)
        (operation_at basis.now.tables.now making.place)) result }
    ensures room { IfOk result (λ _. IfSome (operation_at basis.now.tables.now making.place)
        (HasRoom (seen body.now))) }
    ensures link { IfOk result (λ _. is_link making.linked (seen body.now).calls.opens ≡ true) }
{
    if is_stopped(basis, body) {
        return Err(CallRefusal::Waiting);
    }
    let Some(operation) = basis.tables.operation(making.place) else {
        return Err(CallRefusal::UnknownOperation);
    };
    if !is_on_module(basis, body, making.context) {
        return Err(CallRefusal::Absent(making.context));
    }
    if is_deleted_in(&body.sets.own, making.context) {
        return Err(CallRefusal::AlterPending);
    }
    if let Some(refusal) = linking_refusal(basis, body, making.place, making.linked) {
        return Err(refusal);
    }
    check_send(basis, body, operation, argument, making.linked)
}
