//! What the taking of a unit of the session does.

ghost use Rattle.std.specs.Prelude.{◌≡◌, IfOk, OnOk, None, false};
ghost use Rattle.end_rules.specs.Reacting.{fails as rule_fails, word_fault, on_word, after_word, answers_to_word, shown_of_word, contexts_of_word};
ghost use Rattle.association_words.specs.Seen.{seen_fault, seen_word};
ghost use Rattle.association_place.specs.association_state.Seen.{base_in, seen};
ghost use Rattle.association_connecting.specs.association_answers.BroughtAs.{TakenAs};
ghost use Rattle.association_reacting.specs.ActivityEnds.{is_end_word};
ghost use Rattle.association_reacting.specs.SeenReaction.{ReactsAs};

use crate::faults::word_fault;
use association_connecting::association_answers_layer::{Brought, Reaction, fail_association};
use association_connecting::{contexts_for, take_association};
use association_place::association_state_layer::{Basis, Body};
use association_sets::copy_set;
use association_takes::{take_activity, take_data, take_mark};
use association_words::{Fault, Word};
use osi_base::{NoMemory, SetList};

/// Takes a unit in which nothing is faulty.
fn take_word(basis: &Basis<'_>, body: &mut Body, word: Word) -> Result<Brought, NoMemory>
    requires right { word_fault (base_in basis.now) (seen body.old) (seen_word word) ≡ None }
    requires other { is_end_word (seen_word word) ≡ false }
    ensures body { OnOk result (seen body.new ≡ after_word (base_in basis.now) (seen body.old)
        (seen_word word)) }
    ensures taken { IfOk result (TakenAs (answers_to_word (base_in basis.now) (seen body.old)
        (seen_word word)) (shown_of_word (base_in basis.now) (seen body.old) (seen_word word))) }
{
    match word {
        Word::OfAssociation(word) => take_association(basis, body, word),
        Word::OfData(word) => take_data(basis, body, word),
        Word::OfMarks(word) => take_mark(basis, body, word),
        Word::OfActivities(word) => take_activity(basis, body, word),
    }
}

/// The contexts on which an abort for a unit goes: those of a CN are answered as it comes.
fn contexts_of(basis: &Basis<'_>, body: &Body, word: &Word) -> Result<SetList, NoMemory>
    ensures { IfOk result (λ set. set ≡ contexts_of_word (base_in basis.now) (seen body.now)
        (seen_word word.now)) }
{
    match word {
        Word::OfAssociation(word) => contexts_for(basis, body, word),
        Word::OfData(_) => copy_set(basis.alloc, body.link.accepted.as_slice()),
        Word::OfMarks(_) => copy_set(basis.alloc, body.link.accepted.as_slice()),
        Word::OfActivities(_) => copy_set(basis.alloc, body.link.accepted.as_slice()),
    }
}

/// Ends the association for a fault of a unit.
fn fail_word(
    basis: &Basis<'_>,
    body: &mut Body,
    word: &Word,
    fault: Fault,
) -> Result<Reaction, NoMemory>
    ensures { IfOk result (ReactsAs (rule_fails (seen body.old) (contexts_of_word (base_in
        basis.now) (seen body.old) (seen_word word.now)) (seen_fault fault)) (seen body.old)
        (seen body.new)) }
{
    let accepted = contexts_of(basis, body, word)?;
    fail_association(basis, body, accepted.as_slice(), fault)
}

/// Takes a unit, or ends the association for what is faulty in it. The unit is let go by a call.
pub(crate) fn take_or_fail(
    basis: &Basis<'_>,
    body: &mut Body,
    word: Word,
) -> Result<Reaction, NoMemory>
    requires { is_end_word (seen_word word) ≡ false }
    ensures { IfOk result (ReactsAs (on_word (base_in basis.now) (seen body.old) (seen_word word)
        (word_fault (base_in basis.now) (seen body.old) (seen_word word))) (seen body.old)
        (seen body.new)) }
{
    match word_fault(basis, body, &word) {
        Ok(fault) => match fault {
            Some(fault) => {
                let reaction = fail_word(basis, body, &word, fault);
                drop(word);
                reaction
            }
            None => {
                let taken = take_word(basis, body, word)?;
                Ok(Reaction::Takes(taken))
            }
        },
        Err(error) => {
            drop(word);
            Err(error)
        }
    }
}
