//! Activities (X.225 7.29 to 7.36, X.228 7; what is kept and restored is this project's own rule).

ghost use Rattle.std.specs.Prelude.{◌≡◌, ◌++◌, IfOk, OnOk, map, [], ◌∷◌, true, false};
ghost use Rattle.dialogue.specs.declared.indication.Indication.TheVariants as indications;
ghost use Rattle.end_rules.specs.Messages.{End, InterruptAck, DiscardAck, OfActivities, Session};
ghost use Rattle.end_rules.specs.State.{Suspended, Transfer as rule_transfer, on_transfer, between};
ghost use Rattle.end_rules.specs.TakesActivities.{handed_up, invocation_in, cut_invocation, shown_cut, keeping, received, started_record, resumed_record, after_resume, calmed, without_current, after_discard, after_activity, answers_to_activity, shown_of_activity};
ghost use Rattle.end_rules.specs.Faults.{losses};
ghost use Rattle.end_rules.specs.Hearing.{take_values};
ghost use Rattle.association_hearing.specs.ValuesTaken.{TookAs};
ghost use Rattle.association_takes.specs.ActivityWords.{is_end, invocation_of};
ghost use Rattle.association_words.specs.Seen.{seen_message, seen_activities, seen_value};
ghost use Rattle.association_pieces.specs.Seen.{seen_receiving};
ghost use Rattle.association_hearing.specs.association_state.Seen.{base_in, seen};
ghost use Rattle.association_hearing.specs.association_answers.BroughtAs.{TakenAs};
ghost use Rattle.association_hearing.specs.association_sends.Due.{listed};

use association_hearing::association_answers_layer::{
    Brought, one_message, push_losses, with_indication, with_nothing,
};
use association_hearing::association_sends_layer::activity_message;
use association_hearing::association_state_layer::{Awaited, Basis, Body, Receiving};
use association_hearing::{set_resumed, suspend, take_value};
use association_sets::copy_set;
use association_words::{ActivityWord, Value};
use dialogue::{Indication, Indications};
use osi_base::{ListOf, NoMemory};
use std::alloc::Global;
use stub_tables::Apdu;

/// The record of an activity as it starts.
fn start_record(receiving: &mut Receiving, activity: u32)
    ensures { seen_receiving receiving.new ≡ started_record activity }
{
    receiving.last = activity;
    receiving.pieces.clear();
    receiving.was_handed = false;
    receiving.active = true;
}

/// Takes AS: both ends keep the held set as the inter-activity set.
fn take_start(basis: &Basis<'_>, body: &mut Body, activity: u32) -> Result<Brought, NoMemory>
    ensures body { OnOk result (seen body.new ≡ keeping (received (λ r. started_record activity)
        (seen body.old))) }
    ensures taken { IfOk result (TakenAs [] []) }
{
    let inter = copy_set(basis.alloc, body.sets.held.as_slice())?;
    start_record(&mut body.receiving, activity);
    body.sets.inter = inter;
    Ok(with_nothing(basis.alloc))
}

/// The record of a resumed activity goes back to the mark; a resumption of the next activity begins
/// it.
fn resume_record(receiving: &mut Receiving, activity: u32, mark: u32)
    ensures { seen_receiving receiving.new ≡ resumed_record activity mark
        (seen_receiving receiving.old) }
{
    if activity == receiving.last {
        receiving.pieces.cut(mark);
        receiving.active = true;
    } else {
        start_record(receiving, activity);
    }
}

/// Takes AR.
fn take_resume(
    basis: &Basis<'_>,
    body: &mut Body,
    activity: u32,
    mark: u32,
) -> Result<Brought, NoMemory>
    ensures body { OnOk result (seen body.new ≡ after_resume activity mark (seen body.old)) }
    ensures taken { IfOk result (TakenAs [] (indications.Resumed activity mark ∷ [])) }
{
    let inter = copy_set(basis.alloc, body.sets.held.as_slice())?;
    let held = set_resumed(
        basis.alloc,
        &body.receiving.pieces,
        mark,
        body.sets.held.as_slice(),
    )?;
    let taken = with_indication(
        basis.alloc,
        Indication::Resumed {
            number: activity,
            n: mark,
        },
    )?;
    resume_record(&mut body.receiving, activity, mark);
    body.sets.inter = inter;
    body.sets.held = held;
    Ok(taken)
}

/// An activity ends with the inter-activity set.
fn between(alloc: Global, body: &mut Body) -> Result<(), NoMemory>
    ensures { OnOk result (seen body.new ≡ between (seen body.old)) }
{
    body.sets.held = copy_set(alloc, body.sets.inter.as_slice())?;
    Ok(())
}

/// Takes what a transfer brings, where it brings something.
fn take_arrived(
    basis: &Basis<'_>,
    body: &mut Body,
    arrived: Option<Value>,
) -> Result<Brought, NoMemory>
    ensures { IfOk result (TookAs (take_values (base_in basis.now) (seen body.old) (map seen_value
        (listed arrived))) (seen body.new)) }
{
    match arrived {
        None => Ok(with_nothing(basis.alloc)),
        Some(value) => take_value(basis, body, value),
    }
}

/// Takes AE with what the transfer brings, which was read before: nothing where its number was
/// handed up already.
pub fn end_taken(
    basis: &Basis<'_>,
    body: &mut Body,
    number: u32,
    arrived: Option<Value>,
) -> Result<Brought, NoMemory>
    requires { map seen_value (listed arrived) ≡ handed_up (base_in basis.now) (seen body.old) }
    ensures body { OnOk result (seen body.new ≡ after_activity (base_in basis.now) (seen body.old)
        (End number)) }
    ensures taken { IfOk result (TakenAs (answers_to_activity (base_in basis.now) (seen body.old)
        (End number)) (shown_of_activity (base_in basis.now) (seen body.old) (End number))) }
{
    body.receiving.was_handed = true;
    body.receiving.active = false;
    let taken = take_arrived(basis, body, arrived)?;
    between(basis.alloc, body)?;
    let Brought { answers: _, shown } = taken;
    let answers = one_message(
        basis.alloc,
        activity_message(ActivityWord::EndAck { number }),
    )?;
    Ok(Brought { answers, shown })
}

/// No own transfer is current.
fn forget_current(body: &mut Body)
    ensures { seen body.new ≡ without_current (seen body.old) }
{
    drop(body.sending.current.take());
}

/// Takes AEA.
fn take_end_ack(basis: &Basis<'_>, body: &mut Body) -> Result<Brought, NoMemory>
    ensures body { OnOk result (seen body.new ≡ between (without_current (seen body.old))) }
    ensures taken { IfOk result (TakenAs [] (indications.Transferred (seen body.old).sending.started
        ∷ [])) }
{
    between(basis.alloc, body)?;
    forget_current(body);
    with_indication(
        basis.alloc,
        Indication::Transferred {
            number: body.sending.started,
        },
    )
}

/// Takes AI.
fn take_interrupt(basis: &Basis<'_>, body: &mut Body) -> Result<Brought, NoMemory>
    ensures body { OnOk result (seen body.new ≡ between (received (λ r. record r { active = false })
        (seen body.old))) }
    ensures taken { IfOk result (TakenAs (Session (OfActivities InterruptAck) ∷ [])
        (indications.Interrupted (seen body.old).receiving.last ∷ [])) }
{
    between(basis.alloc, body)?;
    body.receiving.active = false;
    let mut taken = with_indication(
        basis.alloc,
        Indication::Interrupted {
            number: body.receiving.last,
        },
    )?;
    taken
        .answers
        .push(activity_message(ActivityWord::InterruptAck))?;
    Ok(taken)
}

/// Takes AD.
fn take_discard(basis: &Basis<'_>, body: &mut Body) -> Result<Brought, NoMemory>
    ensures body { OnOk result (seen body.new ≡ between (received (λ r. record r {
      pieces = [];
      active = false;
    }) (seen body.old))) }
    ensures taken { IfOk result (TakenAs (Session (OfActivities DiscardAck) ∷ [])
        (indications.Discarded (seen body.old).receiving.last ∷ [])) }
{
    between(basis.alloc, body)?;
    body.receiving.pieces.clear();
    body.receiving.active = false;
    let mut taken = with_indication(
        basis.alloc,
        Indication::Discarded {
            number: body.receiving.last,
        },
    )?;
    taken
        .answers
        .push(activity_message(ActivityWord::DiscardAck))?;
    Ok(taken)
}

/// No own alteration is left, and nothing is waited for.
fn calm(body: &mut Body)
    ensures { seen body.new ≡ calmed (seen body.old) }
{
    body.link.awaits = Awaited::NoAnswer;
    body.sets.own.clear();
}

/// Takes AIA.
fn take_interrupt_ack(basis: &Basis<'_>, body: &mut Body) -> Result<Brought, NoMemory>
    ensures body { OnOk result (seen body.new ≡ between (calmed (on_transfer (λ (t : rule_transfer).
        record t { progress = Suspended }) (seen body.old)))) }
    ensures taken { IfOk result (TakenAs [] (losses (seen body.old) ++ indications.Interrupted
        (seen body.old).sending.started ∷ [])) }
{
    let mut shown: Indications = ListOf::new(basis.alloc);
    push_losses(body, &mut shown)?;
    shown.push(Indication::Interrupted {
        number: body.sending.started,
    })?;
    between(basis.alloc, body)?;
    suspend(body);
    calm(body);
    Ok(Brought {
        answers: ListOf::new(basis.alloc),
        shown,
    })
}

/// The own invocation that an APDU makes.
fn id_in(apdu: &Apdu) -> Option<i64>
    ensures { result ≡ invocation_of apdu.now }
{
    match apdu {
        Apdu::Invoke { id, .. } => Some(*id),
        Apdu::Result { .. } => None,
        Apdu::Error { .. } => None,
        Apdu::Reject { .. } => None,
    }
}

/// The own invocation in the current transfer.
fn invocation_in(body: &Body) -> Option<i64>
    ensures { result ≡ invocation_in (seen body.now).sending.current }
{
    match &body.sending.current {
        None => None,
        Some(transfer) => id_in(&transfer.item.apdu),
    }
}

/// Tells that an own invocation is cut, if it is open.
fn push_cut(body: &Body, id: Option<i64>, shown: &mut Indications) -> Result<(), NoMemory>
    ensures { OnOk result (shown.new ≡ shown.old ++ shown_cut id (seen body.now).calls) }
{
    let Some(id) = id else { return Ok(()) };
    if body.calls.is_open(true, &id) {
        shown.push(Indication::Cut { own: true, id })?;
    }
    Ok(())
}

/// Closes an own invocation.
fn cut(body: &mut Body, id: Option<i64>)
    ensures { seen body.new ≡ record (seen body.old) {
      calls = cut_invocation id
          (seen body.old).calls;
    } }
{
    if let Some(id) = id {
        body.calls.close_own(&id);
    }
}

/// Takes ADA: a discarded transfer is forgotten, and an invocation in it is cut.
fn take_discard_ack(basis: &Basis<'_>, body: &mut Body) -> Result<Brought, NoMemory>
    ensures body { OnOk result (seen body.new ≡ after_discard (seen body.old)) }
    ensures taken { IfOk result (TakenAs [] ((losses (seen body.old) ++ shown_cut (invocation_in
        (seen body.old).sending.current) (seen body.old).calls) ++ indications.Discarded
        (seen body.old).sending.started ∷ [])) }
{
    let invocation = invocation_in(body);
    let mut shown: Indications = ListOf::new(basis.alloc);
    push_losses(body, &mut shown)?;
    push_cut(body, invocation, &mut shown)?;
    shown.push(Indication::Discarded {
        number: body.sending.started,
    })?;
    between(basis.alloc, body)?;
    cut(body, invocation);
    forget_current(body);
    calm(body);
    Ok(Brought {
        answers: ListOf::new(basis.alloc),
        shown,
    })
}

/// Takes a unit of activities but AE.
pub fn take_activity(
    basis: &Basis<'_>,
    body: &mut Body,
    word: ActivityWord,
) -> Result<Brought, NoMemory>
    requires { is_end (seen_activities word) ≡ false }
    ensures body { OnOk result (seen body.new ≡ after_activity (base_in basis.now) (seen body.old)
        (seen_activities word)) }
    ensures taken { IfOk result (TakenAs (answers_to_activity (base_in basis.now) (seen body.old)
        (seen_activities word)) (shown_of_activity (base_in basis.now) (seen body.old)
        (seen_activities word))) }
{
    match word {
        ActivityWord::Start { activity } => take_start(basis, body, activity),
        ActivityWord::Resume { activity, mark } => take_resume(basis, body, activity, mark),
        ActivityWord::End { number: _ } => Ok(with_nothing(basis.alloc)),
        ActivityWord::EndAck { number: _ } => take_end_ack(basis, body),
        ActivityWord::Interrupt { reason: _ } => take_interrupt(basis, body),
        ActivityWord::InterruptAck => take_interrupt_ack(basis, body),
        ActivityWord::Discard { reason: _ } => take_discard(basis, body),
        ActivityWord::DiscardAck => take_discard_ack(basis, body),
    }
}
