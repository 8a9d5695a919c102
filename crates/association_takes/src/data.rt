//! Values as they come; alterations are taken by `alterations`.

ghost use Rattle.std.specs.Prelude.{◌≡◌, IfOk, OnOk, option_map};
ghost use Rattle.end_rules.specs.Messages.{Values as values_word};
ghost use Rattle.end_rules.specs.TakesData.{data_fault, after_data, answers_to_data, shown_of_data};
ghost use Rattle.association_words.specs.Seen.{seen_fault, seen_data, seen_values};
ghost use Rattle.association_hearing.specs.association_state.Seen.{base_in, seen};
ghost use Rattle.association_hearing.specs.association_answers.BroughtAs.{TakenAs};

use crate::alterations::{alter_fault, answered_fault, take_alter, take_answers};
use crate::parts::{take_parts, values_fault};
use association_ground::is_reliable;
use association_hearing::association_answers_layer::{Brought, with_nothing};
use association_hearing::association_state_layer::{Basis, Body};
use association_hearing::take_values;
use association_words::{DataWord, Fault, Values};
use osi_base::NoMemory;

/// Why a unit of data may not be taken.
pub fn data_fault(basis: &Basis<'_>, body: &Body, word: &DataWord) -> Option<Fault>
    ensures { option_map seen_fault result ≡ data_fault (base_in basis.now) (seen body.now)
        (seen_data word.now) }
{
    match word {
        DataWord::Values(values) => values_fault(basis, body, values.as_slice()),
        DataWord::AlterContext { add, delete: _ } => alter_fault(basis, body, add.as_slice()),
        DataWord::AlterContextAck { answers } => answered_fault(basis, body, answers),
    }
}

/// Takes values: in reliable mode as pieces of the peer's activity, else as APDUs.
fn take_all(basis: &Basis<'_>, body: &mut Body, values: Values) -> Result<Brought, NoMemory>
    ensures body { OnOk result (seen body.new ≡ after_data (base_in basis.now) (seen body.old)
        (values_word (seen_values values))) }
    ensures taken { IfOk result (TakenAs (answers_to_data (base_in basis.now) (seen body.old)
        (values_word (seen_values values))) (shown_of_data (base_in basis.now) (seen body.old)
        (values_word (seen_values values)))) }
{
    if is_reliable(basis.config.mode) {
        take_parts(basis.alloc, body, values.as_slice())?;
        return Ok(with_nothing(basis.alloc));
    }
    take_values(basis, body, values)
}

/// Takes a unit of data.
pub fn take_data(basis: &Basis<'_>, body: &mut Body, word: DataWord) -> Result<Brought, NoMemory>
    ensures body { OnOk result (seen body.new ≡ after_data (base_in basis.now) (seen body.old)
        (seen_data word)) }
    ensures taken { IfOk result (TakenAs (answers_to_data (base_in basis.now) (seen body.old)
        (seen_data word)) (shown_of_data (base_in basis.now) (seen body.old) (seen_data word))) }
{
    match word {
        DataWord::Values(values) => take_all(basis, body, values),
        DataWord::AlterContext { add, delete } => take_alter(basis, body, add, delete),
        DataWord::AlterContextAck { answers } => take_answers(basis, body, answers),
    }
}
