//! Marks, restarts and tokens (X.225 7.16 to 7.25; what is restored is this project's own rule).

ghost use Rattle.std.specs.Prelude.{◌≡◌, IfOk, OnOk, Some, option_map, true, false, [], ◌∷◌};
ghost use Rattle.dialogue.specs.declared.indication.Indication.TheVariants as indications;
ghost use Rattle.end_rules.specs.Sets.{listed};
ghost use Rattle.end_rules.specs.Messages.{MarkAck, RestartAck, GiveAck, OfMarks, Session};
ghost use Rattle.end_rules.specs.TakesMarks.{marked_in, mark_answer, mark_shown, confirmed_in, restored_set, list_fault, restarted, shown_restarted, with_turn, shown_turn, priority_in, please_fault, shown_plea, shown_please, mark_fault, after_mark, answers_to_mark, shown_of_mark};
ghost use Rattle.end_rules.specs.State.{Transfer as rule_transfer, on_transfer};
ghost use Rattle.association_words.specs.Seen.{seen_fault, seen_message, seen_content, seen_values, seen_marks};
ghost use Rattle.association_takes.specs.Pleas.{plea_of};
ghost use Rattle.association_hearing.specs.association_state.Seen.{base_in, seen};
ghost use Rattle.association_hearing.specs.association_answers.BroughtAs.{TakenAs};

use crate::parts::has_associated;
use association_hearing::association_answers_layer::{
    Brought, one_message, push_cuts, push_losses, with_answer, with_indication, with_nothing,
};
use association_hearing::association_state_layer::{Awaited, Basis, Body};
use association_sets::{copy_set, restored_list, same_lists};
use association_words::{Fault, MarkWord, Message, Value, ValueContent, Word};
use dialogue::{Indication, Indications, Mode};
use osi_base::{Copied, Layer, ListOf, NoMemory, RestoredList, SetItem, SetList};
use std::alloc::Global;

/// A mark that is taken saves the set: in direct mode under its number, in reliable mode in the
/// peer's activity.
fn save_mark(basis: &Basis<'_>, body: &mut Body, number: u32) -> Result<(), NoMemory>
    ensures { OnOk result (seen body.new ≡ marked_in basis.now.config.mode number (seen body.old)) }
{
    match basis.config.mode {
        Mode::Reliable => {
            let set = copy_set(basis.alloc, body.sets.held.as_slice())?;
            body.receiving.pieces.push_mark(number, set)
        }
        Mode::Direct => {
            let set = copy_set(basis.alloc, body.sets.held.as_slice())?;
            body.saved.push(number, set)
        }
        Mode::Bare => Ok(()),
    }
}

/// A mark is confirmed in reliable mode, and shown in direct mode.
fn mark_taken(basis: &Basis<'_>, number: u32) -> Result<Brought, NoMemory>
    ensures { IfOk result (TakenAs (mark_answer basis.now.config.mode number) (mark_shown
        basis.now.config.mode number)) }
{
    match basis.config.mode {
        Mode::Reliable => with_answer(
            basis.alloc,
            Message::Session(Word::OfMarks(MarkWord::MarkAck { number })),
        ),
        Mode::Direct => with_indication(basis.alloc, Indication::Marked { n: number }),
        Mode::Bare => Ok(with_nothing(basis.alloc)),
    }
}

/// Takes the confirmation of a mark, which in direct mode is passed over.
fn confirm_mark(basis: &Basis<'_>, body: &mut Body, number: u32)
    ensures { seen body.new ≡ confirmed_in basis.now.config.mode number (seen body.old) }
{
    match basis.config.mode {
        Mode::Reliable => confirm_current(body, number),
        Mode::Direct => (),
        Mode::Bare => (),
    }
}

/// Keeps that the current transfer is confirmed up to this mark.
fn confirm_current(body: &mut Body, number: u32)
    ensures { seen body.new ≡ on_transfer (λ (t : rule_transfer). record t { confirmed = number })
        (seen body.old) }
{
    if let Some(transfer) = &mut body.sending.current {
        transfer.confirmed = number;
    }
}

/// What the user is told where the list of a restart isn't the one of the set.
fn list_differs(
    alloc: Global,
    kept: &[SetItem],
    came: &RestoredList,
) -> Result<Indications, NoMemory>
    ensures { IfOk result (λ told. told ≡ indications.RestoredListDiffers kept.now came.now ∷ []) }
{
    let mut told: Indications = ListOf::new(alloc);
    told.push(Indication::RestoredListDiffers {
        kept: copy_set(alloc, kept)?,
        came: came.copy(alloc)?,
    })?;
    Ok(told)
}

/// Why a restart with this list may not come: it isn't the one of the restored set.
fn list_fault(
    basis: &Basis<'_>,
    body: &Body,
    n: u32,
    list: &Option<RestoredList>,
) -> Result<Option<Fault>, NoMemory>
    ensures { IfOk result (λ fault. option_map seen_fault fault ≡ list_fault (seen body.now) n
        list.now) }
{
    let Some(list) = list else {
        return Ok(None);
    };
    let kept = body.saved.set_below(n);
    let restored = restored_list(basis.alloc, kept)?;
    if same_lists(list.as_slice(), restored.as_slice()) {
        return Ok(None);
    }
    Ok(Some(Fault {
        layer: Layer::Presentation,
        place: 0,
        reason: 6,
        shown_before: list_differs(basis.alloc, kept, list)?,
    }))
}

/// The priority of a plea, where the values are one; without values 0.
fn priority_in(values: &[Value]) -> Option<u32>
    ensures { result ≡ priority_in (seen_values values.now) }
{
    match values {
        [] => Some(0),
        [value] => plea_in(&value.content),
        _ => None,
    }
}

fn plea_in(content: &ValueContent) -> Option<u32>
    ensures { result ≡ plea_of (seen_content content.now) }
{
    match content {
        ValueContent::Plea { priority } => Some(*priority),
        _ => None,
    }
}

/// Why a plea may not come: a value of association control is its fault, and what else is no plea
/// one of reliable transfer.
fn please_fault(basis: &Basis<'_>, tokens: Option<u8>, values: &[Value]) -> Option<Fault>
    ensures { option_map seen_fault result ≡ please_fault tokens (seen_values values.now) }
{
    tokens?;
    if has_associated(values) {
        return Some(Fault::at(basis.alloc, Layer::Acse, 0, 0));
    }
    match priority_in(values) {
        Some(_) => None,
        None => Some(Fault::at(basis.alloc, Layer::Rtse, 0, 4)),
    }
}

/// Why a unit of marks or tokens may not be taken.
pub fn mark_fault(
    basis: &Basis<'_>,
    body: &Body,
    word: &MarkWord,
) -> Result<Option<Fault>, NoMemory>
    ensures { IfOk result (λ fault. option_map seen_fault fault ≡ mark_fault (base_in basis.now)
        (seen body.now) (seen_marks word.now)) }
{
    match word {
        MarkWord::Restart { number, list } => list_fault(basis, body, *number, list),
        MarkWord::RestartAck { number, list } => list_fault(basis, body, *number, list),
        MarkWord::Please { tokens, values } => Ok(please_fault(basis, *tokens, values.as_slice())),
        MarkWord::Mark { .. } => Ok(None),
        MarkWord::MarkAck { .. } => Ok(None),
        MarkWord::Give { .. } => Ok(None),
        MarkWord::GiveConfirm => Ok(None),
        MarkWord::GiveAck => Ok(None),
    }
}

/// What is shown of a restart.
fn shown_restarted(basis: &Basis<'_>, body: &Body, n: u32) -> Result<Indications, NoMemory>
    ensures { IfOk result (λ shown. shown ≡ shown_restarted (seen body.now) n) }
{
    let mut shown: Indications = ListOf::new(basis.alloc);
    push_losses(body, &mut shown)?;
    push_cuts(basis.alloc, body, &mut shown)?;
    shown.push(Indication::Restarted { n })?;
    Ok(shown)
}

/// The set that a restart brings back.
fn restored_set(basis: &Basis<'_>, body: &Body, n: u32) -> Result<SetList, NoMemory>
    ensures { IfOk result (λ set. set ≡ restored_set (seen body.now) n) }
{
    copy_set(basis.alloc, body.saved.set_below(n))
}

/// Goes back to the set of a restart: the marks from it on, own alterations and open invocations
/// are gone, and the token is at the initiator.
fn restart(basis: &Basis<'_>, body: &mut Body, n: u32, set: SetList)
    requires { set ≡ restored_set (seen body.old) n }
    ensures { seen body.new ≡ restarted (base_in basis.now) n (seen body.old) }
{
    body.link.turn = basis.config.initiator;
    body.link.awaits = Awaited::NoAnswer;
    body.sets.held = set;
    body.sets.own.clear();
    body.saved.cut(n);
    body.calls.clear();
}

/// The answer to a restart.
fn restart_answer(basis: &Basis<'_>, body: &Body, n: u32) -> Result<Message, NoMemory>
    ensures { IfOk result (λ m. seen_message m ≡ Session (OfMarks (RestartAck n (Some (listed
        (restored_set (seen body.now) n)))))) }
{
    Ok(Message::Session(Word::OfMarks(MarkWord::RestartAck {
        number: n,
        list: Some(restored_list(basis.alloc, body.saved.set_below(n))?),
    })))
}

/// Takes a restart.
fn take_restart(basis: &Basis<'_>, body: &mut Body, n: u32) -> Result<Brought, NoMemory>
    ensures body { OnOk result (seen body.new ≡ restarted (base_in basis.now) n (seen body.old)) }
    ensures taken { IfOk result (TakenAs (Session (OfMarks (RestartAck n (Some (listed (restored_set
        (seen body.old) n))))) ∷ []) (shown_restarted (seen body.old) n)) }
{
    let set = restored_set(basis, body, n)?;
    let shown = shown_restarted(basis, body, n)?;
    let message = restart_answer(basis, body, n)?;
    let answers = one_message(basis.alloc, message)?;
    restart(basis, body, n, set);
    Ok(Brought { answers, shown })
}

/// Takes the answer to a restart.
fn take_restart_ack(basis: &Basis<'_>, body: &mut Body, n: u32) -> Result<Brought, NoMemory>
    ensures body { OnOk result (seen body.new ≡ restarted (base_in basis.now) n (seen body.old)) }
    ensures taken { IfOk result (TakenAs [] (shown_restarted (seen body.old) n)) }
{
    let set = restored_set(basis, body, n)?;
    let shown = shown_restarted(basis, body, n)?;
    restart(basis, body, n, set);
    Ok(Brought {
        answers: ListOf::new(basis.alloc),
        shown,
    })
}

/// Takes a giving: who takes one has none of its own unconfirmed.
fn take_turn(body: &mut Body)
    ensures { seen body.new ≡ record (seen body.old) {
      link = record (seen body.old).link { turn = true; gave = false };
    } }
{
    body.link.turn = true;
    body.link.gave = false;
}

/// Takes GT.
fn take_give(basis: &Basis<'_>, body: &mut Body, tokens: Option<u8>) -> Result<Brought, NoMemory>
    ensures body { OnOk result (seen body.new ≡ with_turn tokens (seen body.old)) }
    ensures taken { IfOk result (TakenAs [] (shown_turn tokens)) }
{
    match tokens {
        None => Ok(with_nothing(basis.alloc)),
        Some(_) => {
            take_turn(body);
            with_indication(basis.alloc, Indication::Turn)
        }
    }
}

/// What is shown of a plea.
fn shown_please(
    basis: &Basis<'_>,
    tokens: Option<u8>,
    values: &[Value],
) -> Result<Brought, NoMemory>
    ensures { IfOk result (TakenAs [] (shown_please tokens (seen_values values.now))) }
{
    if tokens.is_none() {
        return Ok(with_nothing(basis.alloc));
    }
    match priority_in(values) {
        None => Ok(with_nothing(basis.alloc)),
        Some(priority) => with_indication(basis.alloc, Indication::Asked { priority }),
    }
}

/// Takes GTC.
fn take_give_confirm(basis: &Basis<'_>, body: &mut Body) -> Result<Brought, NoMemory>
    ensures body { OnOk result (seen body.new ≡ record (seen body.old) {
      link = record (seen body.old).link { turn = true; gave = false };
    }) }
    ensures taken { IfOk result (TakenAs (Session (OfMarks GiveAck) ∷ []) (indications.Turn ∷ [])) }
{
    let mut taken = with_indication(basis.alloc, Indication::Turn)?;
    taken
        .answers
        .push(Message::Session(Word::OfMarks(MarkWord::GiveAck)))?;
    take_turn(body);
    Ok(taken)
}

/// Takes a unit of marks or tokens.
pub fn take_mark(basis: &Basis<'_>, body: &mut Body, word: MarkWord) -> Result<Brought, NoMemory>
    ensures body { OnOk result (seen body.new ≡ after_mark (base_in basis.now) (seen body.old)
        (seen_marks word)) }
    ensures taken { IfOk result (TakenAs (answers_to_mark (base_in basis.now) (seen body.old)
        (seen_marks word)) (shown_of_mark (base_in basis.now) (seen body.old) (seen_marks word))) }
{
    match word {
        MarkWord::Mark { number } => {
            save_mark(basis, body, number)?;
            mark_taken(basis, number)
        }
        MarkWord::MarkAck { number } => {
            confirm_mark(basis, body, number);
            Ok(with_nothing(basis.alloc))
        }
        MarkWord::Restart { number, list: _ } => take_restart(basis, body, number),
        MarkWord::RestartAck { number, list: _ } => take_restart_ack(basis, body, number),
        MarkWord::Give { tokens } => take_give(basis, body, tokens),
        MarkWord::Please { tokens, values } => shown_please(basis, tokens, values.as_slice()),
        MarkWord::GiveConfirm => take_give_confirm(basis, body),
        MarkWord::GiveAck => {
            body.link.gave = false;
            Ok(with_nothing(basis.alloc))
        }
    }
}
