//! Invocations and outcomes: what is handed in goes as data at once; in reliable mode it joins the
//! queue.

ghost use Rattle.std.specs.Prelude.{◌≡◌, ◌<◌, ◌+◌, pos, Some, None, true, false, is_some, IfOk, IfSome, OnOk, option_map};
ghost use Rattle.osi_base.specs.Limits.{last_invocation};
ghost use Rattle.dialogue.specs.declared.call.Call.TheVariants as the_calls;
ghost use Rattle.stub_tables.specs.Lookup.{operation_at};
ghost use Rattle.dialogue.specs.declared.config.Mode.TheVariants.{Direct, Bare};
ghost use Rattle.end_rules.specs.State.{opened_with};
ghost use Rattle.end_rules.specs.Invoking.{next_id, can_invoke, can_answer, can_refuse};
ghost use Rattle.end_rules.specs.Requesting.{handed_in, sent_at_once, invoking, after_outcome, due_outcome};
ghost use Rattle.association_words.specs.Seen.{seen_message};
ghost use Rattle.association_hearing.specs.open_invocations.Invocations.{is_link};
ghost use Rattle.association_hearing.specs.association_sends.Due.{listed};
ghost use Rattle.association_hearing.specs.association_state.Seen.{base_in, seen};
ghost use Rattle.association_hearing.specs.association_calls.Rooms.{HasRoom};
ghost use Rattle.association_requests.specs.Called.{MadeOrLeft, sent_by};

use crate::accepted_call::AcceptedCall;
use asn1_types::Val;
use association_hearing::association_calls_layer::{
    Making, carrier_in, check_answer, check_invoke, check_refuse,
};
use association_hearing::association_state_layer::{Basis, Body};
use association_hearing::{data_on, is_silent_at, queue_apdu};
use association_words::Message;
use dialogue::{CallRefusal, Mode};
use osi_base::NoMemory;
use stub_tables::Apdu;

/// What is sent at once of an APDU on its carrier, if it has one, out of reliable mode.
fn at_once(
    basis: &Basis<'_>,
    body: &Body,
    carrier: Option<u32>,
    apdu: Apdu,
) -> Result<Option<Message>, NoMemory>
    ensures direct { IfOk result (λ m. listed (option_map seen_message m) ≡ sent_at_once Direct
        (seen body.now) carrier apdu) }
    ensures bare { IfOk result (λ m. listed (option_map seen_message m) ≡ sent_at_once Bare
        (seen body.now) carrier apdu) }
{
    match carrier {
        None => {
            drop(apdu);
            Ok(None)
        }
        Some(carrier) => Ok(Some(data_on(basis, body, carrier, apdu)?)),
    }
}

/// Hands in an APDU for a context, and answers what is sent.
fn hand_in(
    basis: &Basis<'_>,
    body: &mut Body,
    context: u32,
    carrier: Option<u32>,
    apdu: Apdu,
) -> Result<Option<Message>, NoMemory>
    ensures body { OnOk result (seen body.new ≡ handed_in basis.now.config.mode context apdu
        (seen body.old)) }
    ensures message { IfOk result (λ m. listed (option_map seen_message m) ≡ sent_at_once
        basis.now.config.mode (seen body.old) carrier apdu) }
{
    match basis.config.mode {
        Mode::Reliable => {
            queue_apdu(body, context, apdu)?;
            Ok(None)
        }
        Mode::Direct => at_once(basis, body, carrier, apdu),
        Mode::Bare => at_once(basis, body, carrier, apdu),
    }
}

/// Counts the next own invocation, which is never open.
fn count_silent(body: &mut Body) -> Result<i64, NoMemory>
    requires { (seen body.old).calls.made < last_invocation }
    ensures id { IfOk result (λ id. id ≡ pos ((seen body.old).calls.made + 1)) }
    ensures passed { OnOk result (seen body.new ≡ record (seen body.old) {
      calls = record (seen body.old).calls { made = (seen body.old).calls.made + 1 };
    }) }
{
    Ok(body.calls.count_silent())
}

/// Opens the next own invocation, unless its operation is silent.
fn open(basis: &Basis<'_>, body: &mut Body, making: Making) -> Result<i64, NoMemory>
    requires room { IfSome (operation_at basis.now.tables.now making.place)
        (HasRoom (seen body.old)) }
    requires there { is_some (operation_at basis.now.tables.now making.place) ≡ true }
    requires link { is_link making.linked (seen body.old).calls.opens ≡ true }
    ensures id { IfOk result (λ id. id ≡ next_id (seen body.old)) }
    ensures opened { OnOk result (seen body.new ≡ invoking (base_in basis.now) making.context
        making.place (next_id (seen body.old)) making.linked (seen body.old)) }
{
    if is_silent_at(basis, Some(making.place)) {
        return count_silent(body);
    }
    body.calls.open(making.place, making.context, making.linked)
}

/// Invokes an operation.
pub(crate) fn invoke(
    basis: &Basis<'_>,
    body: &mut Body,
    making: Making,
    argument: &Option<Val>,
) -> Result<AcceptedCall, CallRefusal>
    ensures { MadeOrLeft (can_invoke (base_in basis.now) (seen body.old) making.context making.place
        argument.now making.linked) (base_in basis.now) (seen body.old) (seen body.new)
        (the_calls.Invoke making.context making.place argument.now making.linked) result }
{
    let apdu = check_invoke(basis, body, making, argument)?;
    let Ok(id) = open(basis, body, making) else {
        drop(apdu);
        return Err(CallRefusal::NoMemory);
    };
    let message = hand_in(basis, body, making.context, Some(making.context), apdu)?;
    Ok(AcceptedCall {
        answer: Some(id),
        message,
    })
}

/// Sends the outcome of an open invocation of the peer, which it closes.
fn end_invocation(
    basis: &Basis<'_>,
    body: &mut Body,
    id: &i64,
    apdu: Apdu,
) -> Result<AcceptedCall, NoMemory>
    requires { is_some (opened_with false id.now (seen body.old).calls.opens) ≡ true }
    ensures answer { IfOk result (λ called. called.answer ≡ None) }
    ensures due { IfOk result (λ called. sent_by called ≡ due_outcome (base_in basis.now)
        (seen body.old) (opened_with false id.now (seen body.old).calls.opens) (Some apdu)) }
    ensures body { OnOk result (seen body.new ≡ after_outcome (base_in basis.now) (seen body.old)
        id.now (opened_with false id.now (seen body.old).calls.opens) (Some apdu)) }
{
    let Some(called) = body.calls.called(false, id) else {
        unreachable!()
    };
    let carrier = carrier_in(basis, body, called.context);
    body.calls.close(id);
    let message = hand_in(basis, body, called.context, carrier, apdu)?;
    Ok(AcceptedCall {
        answer: None,
        message,
    })
}

/// Answers an invocation of the peer by its result.
pub(crate) fn answer(
    basis: &Basis<'_>,
    body: &mut Body,
    id: &i64,
    value: &Option<Val>,
) -> Result<AcceptedCall, CallRefusal>
    ensures { MadeOrLeft (can_answer (base_in basis.now) (seen body.old) id.now value.now)
        (base_in basis.now) (seen body.old) (seen body.new) (the_calls.Answer id.now value.now)
        result }
{
    let apdu = check_answer(basis, body, id, value)?;
    Ok(end_invocation(basis, body, id, apdu)?)
}

/// Answers an invocation of the peer by an error.
pub(crate) fn refuse(
    basis: &Basis<'_>,
    body: &mut Body,
    id: &i64,
    place: u32,
    parameter: &Option<Val>,
) -> Result<AcceptedCall, CallRefusal>
    ensures { MadeOrLeft (can_refuse (base_in basis.now) (seen body.old) id.now place parameter.now)
        (base_in basis.now) (seen body.old) (seen body.new) (the_calls.Refuse id.now place
        parameter.now) result }
{
    let apdu = check_refuse(basis, body, id, place, parameter)?;
    Ok(end_invocation(basis, body, id, apdu)?)
}
