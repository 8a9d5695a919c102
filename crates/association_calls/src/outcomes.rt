//! Which outcomes of the peer's invocations may be called, and why not.

ghost use Rattle.std.specs.Prelude.{◌≡◌, Some, None, is_some};
ghost use Rattle.std.specs.Option.{option_copied, option_map};
ghost use Rattle.stub_tables.specs.Apdus.{operation_coded, error_coded, use_in};
ghost use Rattle.stub_tables.specs.Lookup.{operation_at, error_at};
ghost use Rattle.end_rules.specs.State.{OpenCall, opened_with};
ghost use Rattle.end_rules.specs.Invoking.{carrier_in, lacks_carrier, operation_of, result_apdu, error_apdu, can_send_outcome, can_answer_open, can_answer, can_refuse_with, can_refuse_open, can_refuse};
ghost use Rattle.end_rules.specs.Requesting.{result_in, error_for};
ghost use Rattle.association_state.specs.open_invocations.Invocations.{called_in};
ghost use Rattle.association_state.specs.Seen.{base_in, seen};
ghost use Rattle.association_calls.specs.Replies.{IsChecked};
ghost use Rattle.association_calls.specs.Outcomes.{can_send_on};

use crate::invoking::{is_queue_full, is_stopped};
use asn1_types::Val;
use association_state::apdu_codec_layer::is_too_long_with;
use association_state::association_ground_layer::is_direct;
use association_state::association_sets_layer::carrier;
use association_state::rose_roles_layer::{error_apdu, result_apdu};
use association_state::{Basis, Body};
use dialogue::CallRefusal;
use stub_tables::{Apdu, ErrorRow, Operation, Use};

/// The context on which what belongs to a context travels.
pub fn carrier_in(basis: &Basis<'_>, body: &Body, context: u32) -> Option<u32>
    ensures { result ≡ carrier_in (base_in basis.now) (seen body.now) context }
{
    carrier(
        basis.tables.name_oid.arcs(),
        body.sets.held.as_slice(),
        &body.sets.own,
        context,
    )
}

/// Whether an outcome for a context has no context on which it travels.
fn lacks_carrier(basis: &Basis<'_>, body: &Body, context: u32) -> bool
    ensures { result ≡ lacks_carrier (base_in basis.now) (seen body.now) context }
{
    is_direct(basis.config.mode) && carrier_in(basis, body, context).is_none()
}

/// An outcome for a context whose value is used so, or why it may not be sent.
fn check_outcome(
    basis: &Basis<'_>,
    body: &Body,
    context: u32,
    used: Option<Use>,
    apdu: Apdu,
) -> Result<Apdu, CallRefusal>
    requires { used ≡ use_in basis.now.tables.now apdu }
    ensures { IsChecked (can_send_on (base_in basis.now) (seen body.now) context apdu) None
        (Some apdu) result }
{
    if lacks_carrier(basis, body, context) {
        drop(apdu);
        return Err(CallRefusal::NoContext);
    }
    if is_too_long_with(basis.tables, used, &apdu) {
        drop(apdu);
        return Err(CallRefusal::TooLong);
    }
    if is_queue_full(basis, body) {
        drop(apdu);
        return Err(CallRefusal::QueueFull);
    }
    Ok(apdu)
}

/// How the value that a result of an operation returns is used, if it returns one.
fn result_use(operation: &Operation, value: &Option<Val>) -> Option<Use>
    ensures { result ≡ option_map (λ _. operation.now.result) value.now }
{
    match value {
        None => None,
        Some(_) => Some(operation.result),
    }
}

/// The result of an operation of the module that was invoked on a context, or why it may not be
/// sent. The operation says how the value is used, so its code isn't looked up.
#[tactic(auto, using(crate::proofs::Uses::result_used))]
fn check_result(
    basis: &Basis<'_>,
    body: &Body,
    context: u32,
    id: &i64,
    operation: &Operation,
    value: &Option<Val>,
) -> Result<Apdu, CallRefusal>
    requires { operation_coded basis.now.tables.now operation.now.code ≡ Some operation.now }
    ensures { (o : OpenCall) → o.context ≡ context →
        IsChecked (can_answer_open (base_in basis.now) (seen body.now) id.now (Some o)
        (Some operation.now) value.now) None (Some (result_apdu operation.now id.now value.now))
        result }
{
    if !operation.returns {
        return Err(CallRefusal::NotAllowed);
    }
    if !operation.result.carries(&basis.tables.types, value) {
        return Err(CallRefusal::NotTyped);
    }
    let apdu = result_apdu(basis.alloc, operation, id, value)?;
    let used = result_use(operation, value);
    check_outcome(basis, body, context, used, apdu)
}

/// The result of an open invocation of the peer, or why it may not be sent.
#[tactic(auto, using(crate::proofs::Uses::own_operation))]
pub fn check_answer(
    basis: &Basis<'_>,
    body: &Body,
    id: &i64,
    value: &Option<Val>,
) -> Result<Apdu, CallRefusal>
    ensures { IsChecked (can_answer (base_in basis.now) (seen body.now) id.now value.now) None
        (result_in (base_in basis.now) (seen body.now) id.now value.now) result }
{
    if is_stopped(basis, body) {
        return Err(CallRefusal::Waiting);
    }
    let Some(called) = body.calls.called(false, id) else {
        return Err(CallRefusal::NoInvocation(*id));
    };
    let Some(operation) = basis.tables.operation(called.operation) else {
        return Err(CallRefusal::NoInvocation(*id));
    };
    check_result(basis, body, called.context, id, operation, value)
}

/// An error of the module for an operation that was invoked on a context, or why it may not be
/// sent. The error says how its parameter is used, so its code isn't looked up.
fn check_error(
    basis: &Basis<'_>,
    body: &Body,
    context: u32,
    id: &i64,
    error: &ErrorRow,
    parameter: &Option<Val>,
) -> Result<Apdu, CallRefusal>
    requires { error_coded basis.now.tables.now error.now.code ≡ Some error.now }
    ensures { (o : OpenCall) → o.context ≡ context →
        IsChecked (can_refuse_with (base_in basis.now) (seen body.now) id.now o error.now
        parameter.now) None (Some (error_apdu error.now id.now parameter.now)) result }
{
    if !error.parameter.carries(&basis.tables.types, parameter) {
        return Err(CallRefusal::NotTyped);
    }
    let apdu = error_apdu(basis.alloc, error, id, parameter)?;
    check_outcome(basis, body, context, Some(error.parameter), apdu)
}

/// The error of an open invocation of the peer, or why it may not be sent.
#[tactic(auto, using(crate::proofs::Uses::own_error))]
pub fn check_refuse(
    basis: &Basis<'_>,
    body: &Body,
    id: &i64,
    place: u32,
    parameter: &Option<Val>,
) -> Result<Apdu, CallRefusal>
    ensures { IsChecked (can_refuse (base_in basis.now) (seen body.now) id.now place parameter.now)
        None (error_for id.now parameter.now (error_at basis.now.tables.now place)) result }
{
    if is_stopped(basis, body) {
        return Err(CallRefusal::Waiting);
    }
    let Some(called) = body.calls.called(false, id) else {
        return Err(CallRefusal::NoInvocation(*id));
    };
    let Some(operation) = basis.tables.operation(called.operation) else {
        return Err(CallRefusal::NoInvocation(*id));
    };
    let Some(error) = basis.tables.error(place) else {
        return Err(CallRefusal::UnknownError);
    };
    if !operation.has_error(place) {
        return Err(CallRefusal::NotAllowed);
    }
    check_error(basis, body, called.context, id, error, parameter)
}
