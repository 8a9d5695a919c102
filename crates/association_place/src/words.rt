//! Whether a message may stand where it comes, by its kind.

ghost use Rattle.std.specs.Prelude.{◌≡◌};
ghost use Rattle.end_rules.specs.Messages.{unit_of};
ghost use Rattle.end_rules.specs.InPlace.{is_in_place};
ghost use Rattle.association_words.specs.Seen.{seen_word};
ghost use Rattle.association_calls.specs.association_state.Seen.{base_in, seen};

use crate::activities::is_activity_in_place;
use crate::association::is_association_in_place;
use crate::data::is_data_in_place;
use crate::marks::is_mark_in_place;
use association_calls::association_state_layer::{Basis, Body};
use association_words::Word;

/// Whether a unit of the session may stand where it comes: the phase, the functional units, the
/// tokens, the activities and the numbers.
pub fn is_in_place(basis: &Basis<'_>, body: &Body, word: &Word) -> bool
    ensures { result ≡ is_in_place (base_in basis.now) (seen body.now)
        (unit_of (seen_word word.now)) }
{
    match word {
        Word::OfAssociation(word) => is_association_in_place(basis, body, word),
        Word::OfData(word) => is_data_in_place(basis, body, word),
        Word::OfMarks(word) => is_mark_in_place(basis, body, word),
        Word::OfActivities(word) => is_activity_in_place(basis, body, word),
    }
}
