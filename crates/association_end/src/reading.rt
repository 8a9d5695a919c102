//! What units of the session mean to an end, and what it does with them.

ghost use Rattle.std.specs.Prelude.{◌≡◌, IfOk, MatchOption, Ok, false};
ghost use Rattle.spdu_codec.specs.Places.{user_of};
ghost use Rattle.presentation_pdus.specs.declared.place.PpduPlace.TheVariants as place;
ghost use Rattle.presentation_pdus.specs.Units.{ppdu_at};
ghost use Rattle.end_rules.specs.Base.{is_bare};
ghost use Rattle.end_rules.specs.Messages.{End as rule_end, OfActivities, Session};
ghost use Rattle.end_rules.specs.Reacting.{fails as rule_fails, react as rule_react};
ghost use Rattle.end_rules.specs.State.{passes_over};
ghost use Rattle.end_rules.specs.TakesActivities as activities;
ghost use Rattle.association_line.specs.association_reading.Meaning.{meaning as rule_meaning};
ghost use Rattle.association_line.specs.association_reading.Reacting as rules;
ghost use Rattle.association_meaning.specs.association_intake.Seen.{seen_front, HasUserPlaces, IsPlaced};
ghost use Rattle.association_words.specs.Seen.{seen_word, seen_activities, seen_fault, seen_value, seen_arrived};
ghost use Rattle.association_reacting.specs.association_state.Seen.{base_in, seen};
ghost use Rattle.association_reacting.specs.association_takes.ActivityWords.{is_end};
ghost use Rattle.association_meaning.specs.declared.basis.Halt.TheVariants as halts;
ghost use Rattle.association_meaning.specs.Grounds.{GivesAs};
ghost use Rattle.association_reacting.specs.ActivityEnds.{is_end_word, ArrivesAs};
ghost use Rattle.association_reacting.specs.SeenReaction.{ReactsAs};
ghost use Rattle.association_end.specs.OneMessage.{ReactsTo};
ghost use Rattle.association_end.specs.Sound.{IsMessage};

use association_meaning::association_codecs_layer::Codecs;
use association_meaning::association_intake_layer::Front;
use association_meaning::{Halt, ReadingBasis, arrived_at, meaning_of_unit};
use association_reacting::association_answers_layer::{Reaction, fail_association};
use association_reacting::association_place_layer::{is_unit_in_place, is_unit_purged};
use association_reacting::association_state_layer::{Basis, Body};
use association_reacting::{fails_on_accepted, has_connection, react, react_to_end};
use association_sets::copy_set;
use association_words::{
    ActivityWord, Arrived, Fault, Message, TransferItem, Value, ValueContent, Word,
};
use osi_base::{Layer, NoMemory, PresentationWord, SessionWord, SetList};
use presentation_pdus::{PpduFault, PpduPlace};
use set_rules::set_for;

/// What the reading of an end stands on.
fn reading<'a>(basis: &'a Basis<'_>, codecs: &'a Codecs) -> ReadingBasis<'a>
    ensures tables { result.tables.now ≡ basis.now.tables.now }
    ensures config { result.config.now ≡ basis.now.config }
{
    ReadingBasis {
        alloc: basis.alloc,
        codecs,
        tables: basis.tables,
        config: &basis.config,
    }
}

/// What arrived as a value.
fn arrived_value(arrived: Arrived) -> Value
    ensures { seen_value result ≡ activities.arrived_value (seen_arrived arrived) }
{
    match arrived {
        Arrived::Whole { item, place } => {
            let TransferItem { id, pair, apdu } = item;
            Value {
                id,
                pair: Some(pair),
                content: ValueContent::Remote { apdu, place },
            }
        }
        Arrived::Raw { id, pair, octets } => Value {
            id,
            pair: Some(pair),
            content: ValueContent::Unread(octets),
        },
    }
}

/// The fault to which reading came.
fn fault_of(halt: Halt) -> Result<Fault, NoMemory>
    ensures { IfOk result (λ fault. halt ≡ halts.Faulty fault) }
{
    match halt {
        Halt::Faulty(fault) => Ok(fault),
        Halt::NoMemory => Err(NoMemory),
    }
}

/// What the octets of the peer's transfer bring, unless they were handed up: a value, or a fault.
fn arrived(
    basis: &Basis<'_>,
    codecs: &Codecs,
    body: &Body,
) -> Result<Result<Option<Value>, Fault>, NoMemory>
    ensures { IfOk result (ArrivesAs (base_in basis.now) (seen body.now)) }
{
    if body.receiving.was_handed {
        return Ok(Ok(None));
    }
    let octets = body.receiving.pieces.join(basis.alloc)?;
    match arrived_at(
        &reading(basis, codecs),
        body.sets.held.as_slice(),
        octets.as_slice(),
    ) {
        Ok(arrived) => Ok(Ok(Some(arrived_value(arrived)))),
        Err(halt) => {
            let fault = fault_of(halt)?;
            Ok(Err(fault))
        }
    }
}

/// The contexts of a unit that was read: those of a CP are answered as it comes.
fn contexts_said(
    basis: &Basis<'_>,
    body: &Body,
    word: &PresentationWord,
) -> Result<SetList, NoMemory>
    ensures { IfOk result (λ set. set ≡ rules.contexts_read (base_in basis.now) (seen body.now)
        (Ok word.now)) }
{
    match word {
        PresentationWord::Connect(presentation) => {
            set_for(basis.alloc, basis.tables, &basis.config, presentation)
        }
        _ => copy_set(basis.alloc, body.link.accepted.as_slice()),
    }
}

/// The contexts of a CN with these user data.
fn contexts_proposed(
    basis: &Basis<'_>,
    codecs: &Codecs,
    body: &Body,
    user: &[u8],
) -> Result<SetList, NoMemory>
    ensures { IfOk result (λ set. set ≡ rules.contexts_read (base_in basis.now) (seen body.now)
        (ppdu_at place.Cn user.now)) }
{
    match codecs.ppdus.read(basis.alloc, PpduPlace::Cn, user) {
        Ok(word) => {
            let contexts = contexts_said(basis, body, &word);
            drop(word);
            contexts
        }
        Err(fault) => match fault {
            PpduFault::At { .. } => copy_set(basis.alloc, body.link.accepted.as_slice()),
            PpduFault::NoMemory => Err(NoMemory),
        },
    }
}

/// The contexts on which an abort for a unit goes that can't be read.
fn contexts_of(
    basis: &Basis<'_>,
    codecs: &Codecs,
    body: &Body,
    unit: &SessionWord,
) -> Result<SetList, NoMemory>
    ensures { IfOk result (λ set. set ≡ rules.contexts_of_unit (base_in basis.now) (seen body.now)
        unit.now) }
{
    match unit {
        SessionWord::Connect(session) => {
            contexts_proposed(basis, codecs, body, session.user.as_slice())
        }
        _ => copy_set(basis.alloc, body.link.accepted.as_slice()),
    }
}

/// Ends the association for a unit that can't be read.
fn fail_unit(
    basis: &Basis<'_>,
    codecs: &Codecs,
    body: &mut Body,
    unit: &SessionWord,
    fault: Fault,
) -> Result<Reaction, NoMemory>
    ensures { IfOk result (ReactsAs (rule_fails (seen body.old) (rules.contexts_of_unit
        (base_in basis.now) (seen body.old) unit.now) (seen_fault fault)) (seen body.old)
        (seen body.new)) }
{
    let accepted = contexts_of(basis, codecs, body, unit)?;
    fail_association(basis, body, accepted.as_slice(), fault)
}

/// The number of the end of an activity, where the unit is one.
fn end_number(word: &ActivityWord) -> Option<u32>
    ensures { MatchOption result (is_end (seen_activities word.now) ≡ false) (λ number.
        seen_activities word.now ≡ rule_end number) }
{
    match word {
        ActivityWord::Start { activity: _ } => None,
        ActivityWord::Resume {
            activity: _,
            mark: _,
        } => None,
        ActivityWord::End { number } => Some(*number),
        ActivityWord::EndAck { number: _ } => None,
        ActivityWord::Interrupt { reason: _ } => None,
        ActivityWord::InterruptAck => None,
        ActivityWord::Discard { reason: _ } => None,
        ActivityWord::DiscardAck => None,
    }
}

/// The number of the end of an activity, where the word is one.
fn ending(word: &Word) -> Option<u32>
    ensures { MatchOption result (is_end_word (seen_word word.now) ≡ false) (λ number. seen_word
        word.now ≡ OfActivities (rule_end number)) }
{
    match word {
        Word::OfAssociation(_) => None,
        Word::OfData(_) => None,
        Word::OfMarks(_) => None,
        Word::OfActivities(word) => end_number(word),
    }
}

/// What an end does with a word.
fn react_to_word(
    basis: &Basis<'_>,
    codecs: &Codecs,
    body: &mut Body,
    word: Word,
) -> Result<Reaction, NoMemory>
    requires associated { is_bare basis.now.config.mode ≡ false }
    ensures { IfOk result (ReactsAs (rule_react (base_in basis.now) (seen body.old) (Session
        (seen_word word))) (seen body.old) (seen body.new)) }
{
    match ending(&word) {
        None => react(basis, body, Message::Session(word)),
        Some(number) => {
            drop(word);
            let arrived = arrived(basis, codecs, body)?;
            react_to_end(basis, body, number, arrived)
        }
    }
}

/// What a unit means.
fn meant(
    basis: &Basis<'_>,
    codecs: &Codecs,
    body: &Body,
    unit: &SessionWord,
    start: usize,
) -> Result<Word, Halt>
    requires { HasUserPlaces start (user_of unit.now) }
    ensures { GivesAs seen_word result (rule_meaning (base_in basis.now) (seen body.now) unit.now
        start) }
{
    meaning_of_unit(
        &reading(basis, codecs),
        body.link.accepted.as_slice(),
        body.sets.held.as_slice(),
        unit,
        start,
    )
}

/// What an end does with a unit that may stand where it came.
fn react_to_meaning(
    basis: &Basis<'_>,
    codecs: &Codecs,
    body: &mut Body,
    unit: &SessionWord,
    start: usize,
) -> Result<Reaction, NoMemory>
    requires associated { is_bare basis.now.config.mode ≡ false }
    requires placed { HasUserPlaces start (user_of unit.now) }
    ensures { IfOk result (ReactsAs (rules.on_meaning (base_in basis.now) (seen body.old) unit.now
        (rule_meaning (base_in basis.now) (seen body.old) unit.now start)) (seen body.old)
        (seen body.new)) }
{
    match meant(basis, codecs, body, unit, start) {
        Ok(word) => react_to_word(basis, codecs, body, word),
        Err(halt) => {
            let fault = fault_of(halt)?;
            fail_unit(basis, codecs, body, unit, fault)
        }
    }
}

/// What an end does with a unit of the session.
fn react_to_unit(
    basis: &Basis<'_>,
    codecs: &Codecs,
    body: &mut Body,
    unit: &SessionWord,
    start: usize,
) -> Result<Reaction, NoMemory>
    requires associated { is_bare basis.now.config.mode ≡ false }
    requires placed { HasUserPlaces start (user_of unit.now) }
    ensures { IfOk result (ReactsAs (rules.react_to_unit (base_in basis.now) (seen body.old)
        unit.now start) (seen body.old) (seen body.new)) }
{
    if !has_connection(body) {
        return fails_on_accepted(basis, body, Fault::at(basis.alloc, Layer::Transport, 0, 0));
    }
    if is_unit_purged(basis.config.initiator, body.link.awaits, unit) {
        return Ok(Reaction::Passes);
    }
    if !is_unit_in_place(basis, body, unit) {
        return fails_on_accepted(basis, body, Fault::at(basis.alloc, Layer::Session, 0, 0));
    }
    react_to_meaning(basis, codecs, body, unit, start)
}

/// The fault of octets that break a grammar: session units before CC are one of the transport.
fn grammar_fault(basis: &Basis<'_>, body: &Body, layer: Layer, place: u64) -> Fault
    ensures { seen_fault result ≡ rules.grammar_fault (seen body.now) layer place }
{
    match layer {
        Layer::Session => {
            if has_connection(body) {
                Fault::at(basis.alloc, Layer::Session, place, 0)
            } else {
                Fault::at(basis.alloc, Layer::Transport, 0, 0)
            }
        }
        _ => Fault::at(basis.alloc, layer, place, 0),
    }
}

/// What an end does with what stands first, unless it passes over all or less than a message stands
/// there.
pub(crate) fn react_to(
    basis: &Basis<'_>,
    codecs: &Codecs,
    body: &mut Body,
    front: Front,
) -> Result<Reaction, NoMemory>
    requires associated { is_bare basis.now.config.mode ≡ false }
    requires placed { IsPlaced front }
    requires up { passes_over (seen body.old).link.phase ≡ false }
    requires whole { IsMessage (seen_front front) }
    ensures { IfOk result (ReactsTo (base_in basis.now) (seen body.old) (seen body.new)
        (seen_front front)) }
{
    match front {
        Front::Short => Ok(Reaction::Passes),
        Front::OfTransport(unit) => react(basis, body, Message::Transport(unit)),
        Front::OfSession { unit, start } => {
            let reaction = react_to_unit(basis, codecs, body, &unit, start);
            drop(unit);
            reaction
        }
        Front::Faulty { layer, place } => {
            let fault = grammar_fault(basis, body, layer, place);
            fails_on_accepted(basis, body, fault)
        }
    }
}
