//! Data, and alterations in typed data.

ghost use Rattle.std.specs.Prelude.{◌≡◌};
ghost use Rattle.end_rules.specs.Messages.{unit_of_data};
ghost use Rattle.end_rules.specs.InPlace.{may_send_data, may_send_typed, is_in_place};
ghost use Rattle.association_words.specs.Seen.{seen_data};
ghost use Rattle.association_calls.specs.association_state.Seen.{base_in, seen};

use association_calls::association_state_layer::{Basis, Body};
use association_calls::has_typed_data;
use association_ground::{is_reliable, is_up};
use association_words::DataWord;

/// Whether DT may come: in reliable mode the peer has the turn and its activity is in progress.
pub(crate) fn may_send_data(basis: &Basis<'_>, body: &Body) -> bool
    ensures { result ≡ may_send_data (base_in basis.now) (seen body.now) }
{
    is_up(body.link.phase)
        && (!is_reliable(basis.config.mode) || !body.link.turn && body.receiving.active)
}

/// Whether TD may come.
pub(crate) fn may_send_typed(body: &Body) -> bool
    ensures { result ≡ may_send_typed (seen body.now) }
{
    is_up(body.link.phase) && has_typed_data(body.link.selected)
}

/// Whether a unit of data may stand where it comes.
pub(crate) fn is_data_in_place(basis: &Basis<'_>, body: &Body, word: &DataWord) -> bool
    ensures { result ≡ is_in_place (base_in basis.now) (seen body.now)
        (unit_of_data (seen_data word.now)) }
{
    match word {
        DataWord::Values(_) => may_send_data(basis, body),
        DataWord::AlterContext { .. } => may_send_typed(body),
        DataWord::AlterContextAck { .. } => may_send_typed(body),
    }
}
