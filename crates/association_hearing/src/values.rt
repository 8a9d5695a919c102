//! Values of remote operations, one after the other.

ghost use Rattle.std.specs.Prelude.{◌≡◌, IfOk, OnOk, Some};
ghost use Rattle.end_rules.specs.Hearing.{hear, head_of, syntax_of, data_on, take_head, take_values, with_reject, on_heard};
ghost use Rattle.end_rules.specs.Requesting.{queueing};
ghost use Rattle.rose_roles.specs.Hearing.{heard_with};
ghost use Rattle.association_words.specs.Seen.{seen_message, seen_value, seen_values};
ghost use Rattle.association_answers.specs.association_state.Seen.{base_in, seen};
ghost use Rattle.association_hearing.specs.ValuesTaken.{TookAs, Joined};

use crate::apdus::hear_apdu;
use crate::unread::hear_unread;
use association_answers::association_calls_layer::carrier_in;
use association_answers::association_sends_layer::pair_copied;
use association_answers::association_state_layer::{Basis, Body, Queued};
use association_answers::open_invocations_layer::Invocations;
use association_answers::{Brought, one_indication, one_message, with_indication, with_nothing};
use association_ground::is_reliable;
use association_words::{DataWord, Message, Value, ValueContent, Values, Word, syntax_of};
use dialogue::Indication;
use osi_base::{ListOf, NoMemory, Problem, ProblemKind};
use rose_roles::{RoseTaken, reject_with};
use stub_tables::Apdu;

/// Hears what a value says.
fn hear_value(
    basis: &Basis<'_>,
    calls: &mut Invocations,
    value: Value,
) -> Result<RoseTaken, NoMemory>
    ensures { IfOk result (λ taken. heard_with calls.new taken ≡ hear (base_in basis.now) calls.old
        value.id (head_of (base_in basis.now) (seen_value value))) }
{
    let Value { id, pair, content } = value;
    let syntax = syntax_of(&pair);
    match content {
        ValueContent::Remote { apdu, place } => hear_apdu(basis, calls, id, apdu, place),
        ValueContent::Unread(octets) => hear_unread(basis, calls, id, syntax, &octets),
        ValueContent::Association { apdu: _, user: _ } => Ok(reject_with(
            None,
            ProblemKind::General,
            0,
        )),
        ValueContent::Plea { priority: _ } => Ok(reject_with(None, ProblemKind::General, 0)),
        ValueContent::Part(_) => Ok(reject_with(None, ProblemKind::General, 0)),
    }
}

/// An APDU as data on a context.
pub fn data_on(basis: &Basis<'_>, body: &Body, id: u32, apdu: Apdu) -> Result<Message, NoMemory>
    ensures { IfOk result (λ m. seen_message m ≡ data_on (seen body.now) id apdu) }
{
    let Ok(pair) = pair_copied(basis.alloc, body.sets.held.as_slice(), id) else {
        drop(apdu);
        return Err(NoMemory);
    };
    let content = ValueContent::Remote { apdu, place: None };
    let mut values: Values = ListOf::new(basis.alloc);
    values.push(Value { id, pair, content })?;
    Ok(Message::Session(Word::OfData(DataWord::Values(values))))
}

/// Puts an APDU into the queue of transfers.
pub fn queue_apdu(body: &mut Body, context: u32, apdu: Apdu) -> Result<(), NoMemory>
    ensures { OnOk result (seen body.new ≡ queueing context apdu (seen body.old)) }
{
    body.sending.queue.push(Queued { context, apdu })?;
    Ok(())
}

/// Sends a reject: in reliable mode it joins the queue, else it goes on the carrier of the context
/// of what it rejects, or isn't sent.
fn send_reject(
    basis: &Basis<'_>,
    body: &mut Body,
    context: u32,
    id: Option<i64>,
    problem: Problem,
) -> Result<Brought, NoMemory>
    ensures { IfOk result (TookAs (with_reject (base_in basis.now) (seen body.old) context (Some
        (record { id = id; problem = problem }))) (seen body.new)) }
{
    if is_reliable(basis.config.mode) {
        queue_apdu(body, context, Apdu::Reject { id, problem })?;
        return with_indication(basis.alloc, Indication::RejectSent { id, problem });
    }
    let Some(carrier) = carrier_in(basis, body, context) else {
        return Ok(with_nothing(basis.alloc));
    };
    let message = data_on(basis, body, carrier, Apdu::Reject { id, problem })?;
    let answers = one_message(basis.alloc, message)?;
    let shown = one_indication(basis.alloc, Indication::RejectSent { id, problem })?;
    Ok(Brought { answers, shown })
}

/// What the user is told, or the reject that is sent.
fn take_heard(
    basis: &Basis<'_>,
    body: &mut Body,
    context: u32,
    taken: RoseTaken,
) -> Result<Brought, NoMemory>
    ensures { IfOk result (TookAs (on_heard (base_in basis.now) (seen body.old) context (heard_with
        (seen body.old).calls taken)) (seen body.new)) }
{
    match taken {
        RoseTaken::Invoked {
            id,
            operation,
            linked,
            argument,
        } => with_indication(
            basis.alloc,
            Indication::Invoked {
                id,
                operation,
                linked,
                argument,
            },
        ),
        RoseTaken::Result { id, value } => with_indication(
            basis.alloc,
            Indication::Result { id, value },
        ),
        RoseTaken::Error {
            id,
            error,
            parameter,
        } => with_indication(
            basis.alloc,
            Indication::Error {
                id,
                error,
                parameter,
            },
        ),
        RoseTaken::Rejected { id, problem } => {
            with_indication(basis.alloc, Indication::Rejected { id, problem })
        }
        RoseTaken::RejectTaken { id, problem } => {
            with_indication(basis.alloc, Indication::RejectTaken { id, problem })
        }
        RoseTaken::BadReject => with_indication(basis.alloc, Indication::BadReject),
        RoseTaken::Reject { id, problem } => send_reject(basis, body, context, id, problem),
    }
}

/// Takes a value of remote operations.
pub fn take_value(basis: &Basis<'_>, body: &mut Body, value: Value) -> Result<Brought, NoMemory>
    ensures { IfOk result (TookAs (take_head (base_in basis.now) (seen body.old) value.id (head_of
        (base_in basis.now) (seen_value value))) (seen body.new)) }
{
    let context = value.id;
    let taken = hear_value(basis, &mut body.calls, value)?;
    take_heard(basis, body, context, taken)
}

/// Puts what a taking answers and shows behind what earlier ones did.
fn join(all: &mut Brought, taken: Brought) -> Result<(), NoMemory>
    ensures { OnOk result (Joined all.old taken all.new) }
{
    let Brought { answers, shown } = taken;
    for message in answers.into_vec() {
        all.answers.push(message)?;
    }
    for indication in shown.into_vec() {
        all.shown.push(indication)?;
    }
    Ok(())
}

/// Takes values of remote operations, one after the other.
pub fn take_values(basis: &Basis<'_>, body: &mut Body, values: Values) -> Result<Brought, NoMemory>
    ensures { IfOk result (TookAs (take_values (base_in basis.now) (seen body.old)
        (seen_values values)) (seen body.new)) }
{
    let mut all = with_nothing(basis.alloc);
    for value in values.into_vec() {
        let taken = take_value(basis, body, value)?;
        join(&mut all, taken)?;
    }
    Ok(all)
}
