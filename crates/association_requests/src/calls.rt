//! The calls of an end.

ghost use Rattle.std.specs.Prelude.{◌≡◌, ℤ, Option, OnOk, option_map, map, false};
ghost use Rattle.end_rules.specs.Base.{Base};
ghost use Rattle.end_rules.specs.Calling.{is_of_bare_mode, can_by_rows};
ghost use Rattle.end_rules.specs.Requesting.{after_accepted};
ghost use Rattle.end_rules.specs.History.{sent, after_steps};
ghost use Rattle.association_words.specs.Seen.{seen_message};
ghost use Rattle.association_hearing.specs.association_sends.Due.{listed};
ghost use Rattle.association_hearing.specs.association_state.Seen.{base_in, seen};
ghost use Rattle.association_requests.specs.Called.{CalledAs, MadeOrLeft};

use crate::accepted_call::AcceptedCall;
use crate::messages_due::due;
use crate::operations::{answer, invoke, refuse};
use crate::sent::after_sent;
use association_hearing::association_answers_layer::end_association;
use association_hearing::association_calls_layer::{Making, check_phase};
use association_hearing::association_state_layer::{Basis, Body};
use association_words::Message;
use dialogue::{Call, CallRefusal, Phase};
use osi_base::NoMemory;

/// Sends the message of a request, if there is one, which changes the body.
fn send(basis: &Basis<'_>, body: &mut Body, message: &Option<Message>) -> Result<(), NoMemory>
    ensures { OnOk result (seen body.new ≡ after_steps (base_in basis.now) (seen body.old)
        (map sent (listed (option_map seen_message message.now)))) }
{
    match message {
        None => Ok(()),
        Some(message) => after_sent(basis, body, message),
    }
}

/// What an accepted request changes at once: an opening and a recovery begin a connection, and an
/// abort ends the association.
#[tactic(auto, using(crate::proofs::Rows::unchanged))]
fn begin(body: &mut Body, call: &Call)
    requires { is_of_bare_mode call.now ≡ false }
    ensures { (base : Base) → (answer : Option ℤ) → seen body.new ≡ after_accepted base
        (seen body.old) call.now answer }
{
    match call {
        Call::Open => body.link.phase = Phase::Opening,
        Call::Recover => body.link.phase = Phase::Recovering,
        Call::Abort => end_association(body),
        _ => (),
    }
}

/// Makes a call that isn't one of remote operations.
fn request(basis: &Basis<'_>, body: &mut Body, call: &Call) -> Result<AcceptedCall, CallRefusal>
    requires { is_of_bare_mode call.now ≡ false }
    ensures { MadeOrLeft (can_by_rows (base_in basis.now) (seen body.old) call.now)
        (base_in basis.now) (seen body.old) (seen body.new) call.now result }
{
    let called = due(basis, body, call)?;
    begin(body, call);
    let Ok(()) = send(basis, body, &called.message) else {
        drop(called);
        return Err(CallRefusal::NoMemory);
    };
    Ok(called)
}

/// Makes a call that no row of all calls refuses.
fn make(basis: &Basis<'_>, body: &mut Body, call: &Call) -> Result<AcceptedCall, CallRefusal>
    ensures { MadeOrLeft (can_by_rows (base_in basis.now) (seen body.old) call.now)
        (base_in basis.now) (seen body.old) (seen body.new) call.now result }
{
    match call {
        Call::Invoke {
            context,
            operation,
            argument,
            linked,
        } => {
            let making = Making {
                context: *context,
                place: *operation,
                linked: *linked,
            };
            invoke(basis, body, making, argument)
        }
        Call::Answer { id, result } => answer(basis, body, id, result),
        Call::Refuse {
            id,
            error,
            parameter,
        } => refuse(basis, body, id, *error, parameter),
        _ => request(basis, body, call),
    }
}

/// Makes a call. A refused one changes nothing, unless memory was refused.
pub fn make_call(
    basis: &Basis<'_>,
    body: &mut Body,
    call: &Call,
) -> Result<AcceptedCall, CallRefusal>
    ensures { CalledAs (base_in basis.now) (seen body.old) (seen body.new) call.now result }
{
    match check_phase(basis, body, call) {
        Some(refusal) => Err(refusal),
        None => make(basis, body, call),
    }
}
