//! What the calls but those of remote operations send, once their rows allow it.

ghost use Rattle.std.specs.Prelude.{◌≡◌, ℤ, Option, Some, None, Ok, IfOk, [], ◌∷◌, false, if◌then◌else◌};
ghost use Rattle.end_rules.specs.Sets.{listed as list_of_set, next_number};
ghost use Rattle.end_rules.specs.State.{is_carrying, confirmed_of};
ghost use Rattle.end_rules.specs.Messages.{OfData, OfMarks, OfActivities, Session, AlterContext, Mark, Restart, Interrupt, Discard, Resume};
ghost use Rattle.end_rules.specs.Altering.{can_alter};
ghost use Rattle.end_rules.specs.Calling.{is_of_bare_mode, can_by_rows, can_mark, can_give, can_please, can_restart, can_stop, can_resume, can_release};
ghost use Rattle.end_rules.specs.TakesMarks.{restored_set};
ghost use Rattle.end_rules.specs.Writing.{give_message, please_message, finish_message, user_abort, connection_request};
ghost use Rattle.end_rules.specs.Requesting.{due_of_accepted};
ghost use Rattle.association_words.specs.Seen.{seen_message, seen_marks};
ghost use Rattle.association_hearing.specs.association_state.Seen.{base_in, seen};
ghost use Rattle.association_requests.specs.Called.{IsDue};

use crate::accepted_call::AcceptedCall;
use association_hearing::association_calls_layer::{
    can_alter, can_give, can_mark, can_please, can_release, can_restart, can_resume, can_stop,
};
use association_hearing::association_sends_layer::{
    activity_message, connection_request, finish_message, give_message, please_message, user_abort,
};
use association_hearing::association_state_layer::{Basis, Body};
use association_sets::{Alteration, restored_list};
use association_words::{ActivityWord, DataWord, MarkWord, Message, Word};
use dialogue::{Call, CallRefusal};
use osi_base::{Copied, Ids, ListOf, NoMemory, Proposals};

/// A message of marks and tokens.
fn marks(word: MarkWord) -> Message
    ensures { seen_message result ≡ Session (OfMarks (seen_marks word)) }
{
    Message::Session(Word::OfMarks(word))
}

/// AC with additions and deletions.
fn alter_message(basis: &Basis<'_>, add: &Proposals, delete: &Ids) -> Result<Message, NoMemory>
    ensures { IfOk result (λ m. seen_message m
        ≡ Session (OfData (AlterContext add.now delete.now))) }
{
    Ok(Message::Session(Word::OfData(DataWord::AlterContext {
        add: add.copy(basis.alloc)?,
        delete: delete.copy(basis.alloc)?,
    })))
}

/// An alteration of the contexts.
#[tactic(auto, using(crate::proofs::Rows::refused_by))]
fn due_alter(
    basis: &Basis<'_>,
    body: &Body,
    add: &Proposals,
    delete: &Ids,
) -> Result<AcceptedCall, CallRefusal>
    ensures { IsDue (can_alter (base_in basis.now) (seen body.now) (record {
      add = add.now;
      delete = delete.now;
    })) (Session (OfData (AlterContext add.now delete.now)) ∷ []) result }
{
    let asked = Alteration::new(add.copy(basis.alloc)?, delete.copy(basis.alloc)?);
    let answer = can_alter(basis, body, &asked)?;
    let message = alter_message(basis, add, delete)?;
    Ok(AcceptedCall {
        answer,
        message: Some(message),
    })
}

/// A mark.
#[tactic(auto, using(crate::proofs::Rows::refused_is))]
fn due_mark(basis: &Basis<'_>, body: &Body) -> Result<AcceptedCall, CallRefusal>
    ensures { IsDue (can_mark (base_in basis.now) (seen body.now)) (Session (OfMarks (Mark
        (next_number (seen body.now).saved))) ∷ []) result }
{
    let answer = can_mark(basis, body)?;
    let number = body.saved.next_number();
    Ok(AcceptedCall {
        answer,
        message: Some(marks(MarkWord::Mark { number })),
    })
}

/// The turn is given.
#[tactic(auto, using(crate::proofs::Rows::refused_is))]
fn due_give(basis: &Basis<'_>, body: &Body) -> Result<AcceptedCall, CallRefusal>
    ensures { IsDue (can_give (base_in basis.now) (seen body.now))
        (give_message (base_in basis.now).mode ∷ []) result }
{
    let answer = can_give(basis, body)?;
    Ok(AcceptedCall {
        answer,
        message: Some(give_message(basis.config.mode)),
    })
}

/// The turn is asked for.
#[tactic(auto, using(crate::proofs::Rows::refused_is))]
fn due_please(basis: &Basis<'_>, body: &Body, priority: u32) -> Result<AcceptedCall, CallRefusal>
    ensures { IsDue (can_please (base_in basis.now) (seen body.now))
        (please_message (seen body.now) (base_in basis.now).mode priority ∷ []) result }
{
    let answer = can_please(basis, body)?;
    let message = please_message(basis.alloc, body, basis.config.mode, priority)?;
    Ok(AcceptedCall {
        answer,
        message: Some(message),
    })
}

/// A restart, with the list of the set that it brings back.
#[tactic(auto, using(crate::proofs::Rows::refused_is))]
fn due_restart(basis: &Basis<'_>, body: &Body, n: u32) -> Result<AcceptedCall, CallRefusal>
    ensures { IsDue (can_restart (base_in basis.now) (seen body.now) n) (Session (OfMarks (Restart n
        (Some (list_of_set (restored_set (seen body.now) n))))) ∷ []) result }
{
    let answer = can_restart(basis, body, n)?;
    let list = restored_list(basis.alloc, body.saved.set_below(n))?;
    Ok(AcceptedCall {
        answer,
        message: Some(marks(MarkWord::Restart {
            number: n,
            list: Some(list),
        })),
    })
}

/// The current transfer is interrupted.
#[tactic(auto, using(crate::proofs::Rows::refused_is))]
fn due_interrupt(basis: &Basis<'_>, body: &Body) -> Result<AcceptedCall, CallRefusal>
    ensures { IsDue (can_stop (base_in basis.now) (seen body.now)) (Session (OfActivities (Interrupt
        (Some 0))) ∷ []) result }
{
    let answer = can_stop(basis, body)?;
    Ok(AcceptedCall {
        answer,
        message: Some(activity_message(ActivityWord::Interrupt { reason: Some(0) })),
    })
}

/// The current transfer is discarded.
#[tactic(auto, using(crate::proofs::Rows::refused_is))]
fn due_discard(basis: &Basis<'_>, body: &Body) -> Result<AcceptedCall, CallRefusal>
    ensures { IsDue (can_stop (base_in basis.now) (seen body.now)) (Session (OfActivities (Discard
        (Some 0))) ∷ []) result }
{
    let answer = can_stop(basis, body)?;
    Ok(AcceptedCall {
        answer,
        message: Some(activity_message(ActivityWord::Discard { reason: Some(0) })),
    })
}

/// The highest confirmed mark of the current transfer.
fn confirmed_of(body: &Body) -> u32
    ensures { result ≡ confirmed_of (seen body.now).sending.current }
{
    match &body.sending.current {
        None => 0,
        Some(transfer) => transfer.confirmed,
    }
}

/// The suspended transfer is resumed at its highest confirmed mark.
#[tactic(auto, using(crate::proofs::Rows::refused_is))]
fn due_resume(basis: &Basis<'_>, body: &Body) -> Result<AcceptedCall, CallRefusal>
    ensures { IsDue (can_resume (base_in basis.now) (seen body.now)) (Session (OfActivities (Resume
        (seen body.now).sending.started (confirmed_of (seen body.now).sending.current))) ∷ [])
        result }
{
    let answer = can_resume(basis, body)?;
    Ok(AcceptedCall {
        answer,
        message: Some(activity_message(ActivityWord::Resume {
            activity: body.sending.started,
            mark: confirmed_of(body),
        })),
    })
}

/// The release.
#[tactic(auto, using(crate::proofs::Rows::refused_by))]
fn due_release(basis: &Basis<'_>, body: &Body) -> Result<AcceptedCall, CallRefusal>
    ensures { IsDue (can_release (base_in basis.now) (seen body.now))
        (finish_message (seen body.now) ∷ []) result }
{
    let answer = can_release(basis, body)?;
    Ok(AcceptedCall {
        answer,
        message: Some(finish_message(basis.alloc, body)?),
    })
}

/// A connection is asked for.
fn due_connection(basis: &Basis<'_>) -> Result<AcceptedCall, CallRefusal>
    ensures { IsDue (Ok None) (connection_request (base_in basis.now) ∷ []) result }
{
    Ok(AcceptedCall {
        answer: None,
        message: Some(connection_request(basis)?),
    })
}

/// An abort, which goes where CN went.
fn due_abort(basis: &Basis<'_>, body: &Body) -> Result<AcceptedCall, CallRefusal>
    ensures { IsDue (Ok None) (if is_carrying (seen body.now).link.stage then user_abort (seen
        body.now).link.accepted 0 [] ∷ [] else []) result }
{
    if !body.link.stage.is_carrying() {
        return Ok(AcceptedCall {
            answer: None,
            message: None,
        });
    }
    let accepted = body.link.accepted.as_slice();
    let message = user_abort(basis.alloc, accepted, 0, ListOf::new(basis.alloc))?;
    Ok(AcceptedCall {
        answer: None,
        message: Some(message),
    })
}

/// What a call that isn't one of remote operations answers and sends, once its rows allow it.
pub(crate) fn due(basis: &Basis<'_>, body: &Body, call: &Call) -> Result<AcceptedCall, CallRefusal>
    requires { is_of_bare_mode call.now ≡ false }
    ensures { (answer : Option ℤ) → IsDue (can_by_rows (base_in basis.now) (seen body.now) call.now)
        (due_of_accepted (base_in basis.now) (seen body.now) call.now answer) result }
{
    match call {
        Call::Open => due_connection(basis),
        Call::Invoke { .. } => unreachable!(),
        Call::Answer { .. } => unreachable!(),
        Call::Refuse { .. } => unreachable!(),
        Call::Alter { add, delete } => due_alter(basis, body, add, delete),
        Call::Mark => due_mark(basis, body),
        Call::Give => due_give(basis, body),
        Call::Please { priority } => due_please(basis, body, *priority),
        Call::Resync { n } => due_restart(basis, body, *n),
        Call::Interrupt => due_interrupt(basis, body),
        Call::Resume => due_resume(basis, body),
        Call::Discard => due_discard(basis, body),
        Call::Recover => due_connection(basis),
        Call::Release => due_release(basis, body),
        Call::Abort => due_abort(basis, body),
    }
}
