//! Alterations (X.226 6.2, 6.3).

ghost use Rattle.std.specs.Prelude.{◌≡◌, IfOk, OnOk, option_map, [], ◌∷◌};
ghost use Rattle.dialogue.specs.declared.indication.Indication.TheVariants as indications;
ghost use Rattle.end_rules.specs.Sets.{proposed_ids, altered};
ghost use Rattle.end_rules.specs.Messages.{AlterContext, AlterContextAck, OfData, Session};
ghost use Rattle.end_rules.specs.Faults.{unexpected_ppdu, invalid_ppdu};
ghost use Rattle.end_rules.specs.TakesData.{alter_fault, answered_fault, after_data, answers_to_data, shown_of_data};
ghost use Rattle.association_words.specs.Seen.{seen_fault};
ghost use Rattle.association_hearing.specs.association_state.Seen.{base_in, seen};
ghost use Rattle.association_hearing.specs.association_answers.BroughtAs.{TakenAs};

use association_ground::is_reliable;
use association_hearing::association_answers_layer::{
    Brought, alteration_answers, with_indication, with_nothing,
};
use association_hearing::association_state_layer::{Basis, Body, take_oldest};
use association_sets::{Alteration, alter_set, fit_alteration, proposed_ids};
use association_words::{DataWord, Fault, Message, Word};
use dialogue::Indication;
use osi_base::{Answers, Copied, Ids, Layer, NoMemory, Proposal, Proposals, SetList};
use set_rules::is_faulty_proposal;

/// An unexpected PPDU.
fn unexpected_ppdu(basis: &Basis<'_>) -> Fault
    ensures { seen_fault result ≡ unexpected_ppdu }
{
    Fault::at(basis.alloc, Layer::Presentation, 0, 2)
}

/// An invalid PPDU.
fn invalid_ppdu(basis: &Basis<'_>) -> Fault
    ensures { seen_fault result ≡ invalid_ppdu }
{
    Fault::at(basis.alloc, Layer::Presentation, 0, 6)
}

/// Why an alteration may not come: AC may stand where context management is selected and, in
/// reliable mode, from the end that has the turn.
pub fn alter_fault(basis: &Basis<'_>, body: &Body, add: &[Proposal]) -> Option<Fault>
    ensures { option_map seen_fault result
        ≡ alter_fault (base_in basis.now) (seen body.now) add.now }
{
    if !body.link.manages || is_reliable(basis.config.mode) && body.link.turn {
        return Some(unexpected_ppdu(basis));
    }
    let held = body.sets.held.as_slice();
    if is_faulty_proposal(!basis.config.initiator, held, add) {
        return Some(invalid_ppdu(basis));
    }
    None
}

/// Why answers may not come: nothing was asked, or they don't fit.
pub fn answered_fault(basis: &Basis<'_>, body: &Body, answers: &Answers) -> Option<Fault>
    ensures { option_map seen_fault result ≡ answered_fault (seen body.now).sets.own answers.now }
{
    match body.sets.own.first() {
        None => Some(unexpected_ppdu(basis)),
        Some(oldest) => {
            if fit_alteration(oldest, answers) {
                None
            } else {
                Some(invalid_ppdu(basis))
            }
        }
    }
}

/// The held set after an alteration that was answered so.
fn altered_set(
    basis: &Basis<'_>,
    body: &Body,
    asked: &Alteration,
    answers: &Answers,
) -> Result<SetList, NoMemory>
    ensures { IfOk result (λ set. set ≡ altered asked.now answers.now (seen body.now).sets.held) }
{
    let held = body.sets.held.copy(basis.alloc)?;
    alter_set(basis.alloc, held, asked, answers)
}

/// What is told of an alteration that was taken.
fn alter_taken(
    basis: &Basis<'_>,
    asked: &Alteration,
    answers: &Answers,
) -> Result<Indication, NoMemory>
    ensures { IfOk result (λ i. i ≡ indications.AlterTaken (proposed_ids asked.now.add)
        asked.now.delete answers.now) }
{
    Ok(Indication::AlterTaken {
        add: proposed_ids(basis.alloc, asked.add().as_slice())?,
        delete: asked.delete().copy(basis.alloc)?,
        answers: answers.copy(basis.alloc)?,
    })
}

/// What is told of an own alteration that was answered.
fn altered_told(
    basis: &Basis<'_>,
    asked: &Alteration,
    answers: Answers,
) -> Result<Indication, NoMemory>
    ensures { IfOk result (λ i. i ≡ indications.Altered (proposed_ids asked.now.add)
        asked.now.delete answers) }
{
    Ok(Indication::Altered {
        add: proposed_ids(basis.alloc, asked.add().as_slice())?,
        delete: asked.delete().copy(basis.alloc)?,
        answers,
    })
}

/// The answer to an alteration with what is told of it.
fn alter_answered(
    basis: &Basis<'_>,
    asked: &Alteration,
    answers: Answers,
) -> Result<Brought, NoMemory>
    ensures { IfOk result (TakenAs (Session (OfData (AlterContextAck answers)) ∷ [])
        (indications.AlterTaken (proposed_ids asked.now.add) asked.now.delete answers ∷ [])) }
{
    let mut taken = with_indication(basis.alloc, alter_taken(basis, asked, &answers)?)?;
    let message = Message::Session(Word::OfData(DataWord::AlterContextAck { answers }));
    taken.answers.push(message)?;
    Ok(taken)
}

/// Takes an alteration, which is answered by the policy.
pub fn take_alter(
    basis: &Basis<'_>,
    body: &mut Body,
    add: Proposals,
    delete: Ids,
) -> Result<Brought, NoMemory>
    ensures body { OnOk result (seen body.new ≡ after_data (base_in basis.now) (seen body.old)
        (AlterContext add delete)) }
    ensures taken { IfOk result (TakenAs (answers_to_data (base_in basis.now) (seen body.old)
        (AlterContext add delete)) (shown_of_data (base_in basis.now) (seen body.old) (AlterContext
        add delete))) }
{
    let asked = Alteration::new(add, delete);
    let answers = alteration_answers(basis, body, &asked)?;
    let held = altered_set(basis, body, &asked, &answers)?;
    let taken = alter_answered(basis, &asked, answers)?;
    body.sets.held = held;
    Ok(taken)
}

/// Takes the answers to the oldest own alteration.
pub fn take_answers(
    basis: &Basis<'_>,
    body: &mut Body,
    answers: Answers,
) -> Result<Brought, NoMemory>
    ensures body { OnOk result (seen body.new ≡ after_data (base_in basis.now) (seen body.old)
        (AlterContextAck answers)) }
    ensures taken { IfOk result (TakenAs (answers_to_data (base_in basis.now) (seen body.old)
        (AlterContextAck answers)) (shown_of_data (base_in basis.now) (seen body.old)
        (AlterContextAck answers))) }
{
    let Some(oldest) = take_oldest(&mut body.sets.own) else {
        return Ok(with_nothing(basis.alloc));
    };
    let held = altered_set(basis, body, &oldest, &answers)?;
    let indication = altered_told(basis, &oldest, answers)?;
    body.sets.held = held;
    with_indication(basis.alloc, indication)
}
