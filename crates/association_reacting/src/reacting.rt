//! What an end does with a message, which is let go by a call wherever it isn't handed on: what it
//! may hold is much to let go where a function ends.

ghost use Rattle.std.specs.Prelude.{◌≡◌, IfOk, false};
ghost use Rattle.end_rules.specs.Base.{is_bare};
ghost use Rattle.end_rules.specs.Reacting.{react_to_word, react_to_transport, react};
ghost use Rattle.association_words.specs.Seen.{seen_message, seen_word, seen_transport};
ghost use Rattle.association_place.specs.association_state.Seen.{base_in, seen};
ghost use Rattle.association_reacting.specs.ActivityEnds.{is_end_word, is_end_message};
ghost use Rattle.association_reacting.specs.SeenReaction.{ReactsAs};

use crate::faults::{fails_on_accepted, has_connection};
use crate::taking::take_or_fail;
use association_connecting::association_answers_layer::Reaction;
use association_ground::passes_over;
use association_place::association_state_layer::{Basis, Body};
use association_place::{is_purged, is_transport_purged};
use association_takes::{take_transport, transport_fault};
use association_words::{Fault, Message, TransportUnit, Word};
use osi_base::{Layer, NoMemory};

/// What an end does with a unit of the session.
fn react_to_word(basis: &Basis<'_>, body: &mut Body, word: Word) -> Result<Reaction, NoMemory>
    requires { is_end_word (seen_word word) ≡ false }
    ensures { IfOk result (ReactsAs (react_to_word (base_in basis.now) (seen body.old)
        (seen_word word)) (seen body.old) (seen body.new)) }
{
    if !has_connection(body) {
        drop(word);
        return fails_on_accepted(basis, body, Fault::at(basis.alloc, Layer::Transport, 0, 0));
    }
    if is_purged(basis.config.initiator, body.link.awaits, &word) {
        drop(word);
        return Ok(Reaction::Passes);
    }
    take_or_fail(basis, body, word)
}

/// What an end does with a transport unit.
fn react_to_transport(
    basis: &Basis<'_>,
    body: &mut Body,
    unit: TransportUnit,
) -> Result<Reaction, NoMemory>
    ensures { IfOk result (ReactsAs (react_to_transport (base_in basis.now) (seen body.old)
        (seen_transport unit)) (seen body.old) (seen body.new)) }
{
    if is_transport_purged(body.link.awaits) {
        drop(unit);
        return Ok(Reaction::Passes);
    }
    match transport_fault(basis, body, &unit) {
        Some(fault) => {
            drop(unit);
            fails_on_accepted(basis, body, fault)
        }
        None => {
            let taken = take_transport(basis, body, unit)?;
            Ok(Reaction::Takes(taken))
        }
    }
}

/// What an end of direct or reliable mode does with a message that isn't the end of an activity.
pub fn react(basis: &Basis<'_>, body: &mut Body, message: Message) -> Result<Reaction, NoMemory>
    requires associated { is_bare basis.now.config.mode ≡ false }
    requires other { is_end_message (seen_message message) ≡ false }
    ensures { IfOk result (ReactsAs (react (base_in basis.now) (seen body.old)
        (seen_message message)) (seen body.old) (seen body.new)) }
{
    if passes_over(body.link.phase) {
        drop(message);
        return Ok(Reaction::Passes);
    }
    match message {
        Message::Transport(unit) => react_to_transport(basis, body, unit),
        Message::Session(word) => react_to_word(basis, body, word),
    }
}
