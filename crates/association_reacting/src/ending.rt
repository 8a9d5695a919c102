//! What an end does with the end of an activity. What arrived is let go by a call wherever it isn't
//! handed on.

ghost use Rattle.std.specs.Prelude.{◌≡◌, IfOk, false};
ghost use Rattle.end_rules.specs.Base.{is_bare};
ghost use Rattle.end_rules.specs.Messages.{End as rule_end, OfActivities, Session};
ghost use Rattle.end_rules.specs.Reacting.{on_word, word_fault, react_to_word, react};
ghost use Rattle.association_place.specs.association_state.Seen.{base_in, seen};
ghost use Rattle.association_reacting.specs.ActivityEnds.{ArrivesAs};
ghost use Rattle.association_reacting.specs.SeenReaction.{ReactsAs};

use crate::faults::{fails_on_accepted, has_connection};
use association_connecting::association_answers_layer::Reaction;
use association_ground::passes_over;
use association_place::association_state_layer::{Basis, Body};
use association_place::{is_in_place, is_purged};
use association_takes::end_taken;
use association_words::{ActivityWord, Fault, Value, Word};
use osi_base::{Layer, NoMemory};

/// Takes the end of an activity, or ends the association for what is faulty in it.
fn take_or_fail_end(
    basis: &Basis<'_>,
    body: &mut Body,
    number: u32,
    arrived: Result<Option<Value>, Fault>,
) -> Result<Reaction, NoMemory>
    requires { ArrivesAs (base_in basis.now) (seen body.old) arrived }
    ensures { IfOk result (ReactsAs (on_word (base_in basis.now) (seen body.old)
        (OfActivities (rule_end number)) (word_fault (base_in basis.now) (seen body.old)
        (OfActivities (rule_end number)))) (seen body.old) (seen body.new)) }
{
    let end = Word::OfActivities(ActivityWord::End { number });
    let placed = is_in_place(basis, body, &end);
    drop(end);
    if !placed {
        drop(arrived);
        return fails_on_accepted(basis, body, Fault::at(basis.alloc, Layer::Session, 0, 0));
    }
    match arrived {
        Ok(value) => {
            let taken = end_taken(basis, body, number, value)?;
            Ok(Reaction::Takes(taken))
        }
        Err(fault) => fails_on_accepted(basis, body, fault),
    }
}

/// As `react_to_end`, of an end that doesn't pass over all.
fn react_to_end_word(
    basis: &Basis<'_>,
    body: &mut Body,
    number: u32,
    arrived: Result<Option<Value>, Fault>,
) -> Result<Reaction, NoMemory>
    requires { ArrivesAs (base_in basis.now) (seen body.old) arrived }
    ensures { IfOk result (ReactsAs (react_to_word (base_in basis.now) (seen body.old)
        (OfActivities (rule_end number))) (seen body.old) (seen body.new)) }
{
    if !has_connection(body) {
        drop(arrived);
        return fails_on_accepted(basis, body, Fault::at(basis.alloc, Layer::Transport, 0, 0));
    }
    let end = Word::OfActivities(ActivityWord::End { number });
    let purged = is_purged(basis.config.initiator, body.link.awaits, &end);
    drop(end);
    if purged {
        drop(arrived);
        return Ok(Reaction::Passes);
    }
    take_or_fail_end(basis, body, number, arrived)
}

/// What an end of direct or reliable mode does with the end of an activity, of which the transfer
/// was read: the value that it brings, none where its number was handed up already, or its fault.
pub fn react_to_end(
    basis: &Basis<'_>,
    body: &mut Body,
    number: u32,
    arrived: Result<Option<Value>, Fault>,
) -> Result<Reaction, NoMemory>
    requires associated { is_bare basis.now.config.mode ≡ false }
    requires arrived { ArrivesAs (base_in basis.now) (seen body.old) arrived }
    ensures { IfOk result (ReactsAs (react (base_in basis.now) (seen body.old) (Session
        (OfActivities (rule_end number)))) (seen body.old) (seen body.new)) }
{
    if passes_over(body.link.phase) {
        drop(arrived);
        return Ok(Reaction::Passes);
    }
    react_to_end_word(basis, body, number, arrived)
}
