//! Why a unit of the session may not be taken, and what ends the association then.

ghost use Rattle.std.specs.Prelude.{◌≡◌, IfOk, false, option_map};
ghost use Rattle.end_rules.specs.Reacting.{fails as rule_fails, fault_above, word_fault};
ghost use Rattle.association_place.specs.association_reading.Reacting.{has_connection};
ghost use Rattle.association_words.specs.Seen.{seen_fault, seen_word};
ghost use Rattle.association_place.specs.association_state.Seen.{base_in, seen};
ghost use Rattle.association_reacting.specs.ActivityEnds.{is_end_word};
ghost use Rattle.association_reacting.specs.SeenReaction.{ReactsAs};

use association_connecting::association_answers_layer::{Reaction, fail_association};
use association_connecting::association_fault;
use association_place::association_state_layer::{Basis, Body};
use association_place::is_in_place;
use association_sets::copy_set;
use association_takes::{data_fault, mark_fault};
use association_words::{Fault, Word};
use osi_base::{Layer, NoMemory};

/// Whether CC went over the connection, so that units of the session may come.
pub fn has_connection(body: &Body) -> bool
    ensures { result ≡ has_connection (seen body.now) }
{
    body.link.stage.is_joined() || body.link.stage.is_carrying()
}

/// Ends the association for a fault, whose abort goes on the accepted contexts.
pub fn fails_on_accepted(
    basis: &Basis<'_>,
    body: &mut Body,
    fault: Fault,
) -> Result<Reaction, NoMemory>
    ensures { IfOk result (ReactsAs (rule_fails (seen body.old) (seen body.old).link.accepted
        (seen_fault fault)) (seen body.old) (seen body.new)) }
{
    let accepted = copy_set(basis.alloc, body.link.accepted.as_slice())?;
    fail_association(basis, body, accepted.as_slice(), fault)
}

/// What is wrong above the session, of any unit but the end of an activity.
fn fault_above(basis: &Basis<'_>, body: &Body, word: &Word) -> Result<Option<Fault>, NoMemory>
    requires { is_end_word (seen_word word.now) ≡ false }
    ensures { IfOk result (λ fault. option_map seen_fault fault ≡ fault_above (base_in basis.now)
        (seen body.now) (seen_word word.now)) }
{
    match word {
        Word::OfAssociation(word) => association_fault(basis, body, word),
        Word::OfData(word) => Ok(data_fault(basis, body, word)),
        Word::OfMarks(word) => mark_fault(basis, body, word),
        Word::OfActivities(_) => Ok(None),
    }
}

/// Why a unit may not be taken: it is out of place, or something above the session is wrong.
pub(crate) fn word_fault(
    basis: &Basis<'_>,
    body: &Body,
    word: &Word,
) -> Result<Option<Fault>, NoMemory>
    requires { is_end_word (seen_word word.now) ≡ false }
    ensures { IfOk result (λ fault. option_map seen_fault fault ≡ word_fault (base_in basis.now)
        (seen body.now) (seen_word word.now)) }
{
    if !is_in_place(basis, body, word) {
        return Ok(Some(Fault::at(basis.alloc, Layer::Session, 0, 0)));
    }
    fault_above(basis, body, word)
}
