//! An APDU that was read whole.

ghost use Rattle.std.specs.Prelude.{◌≡◌, IfOk, true};
ghost use Rattle.end_rules.specs.Hearing.{hear, head_of_apdu, hear_result_of, code_returned, value_returned};
ghost use Rattle.rose_roles.specs.Hearing.{heard_with};
ghost use Rattle.association_answers.specs.association_state.Seen.{base_in};
ghost use Rattle.end_rules.specs.State.{opened_with};

use crate::invocations::hear_invoke;
use crate::outcomes::{hear_error, hear_reject, hear_result};
use crate::places::{error_with, operation_with};
use association_answers::association_state_layer::Basis;
use association_answers::open_invocations_layer::Invocations;
use osi_base::NoMemory;
use rose_roles::RoseTaken;
use stub_tables::{Apdu, Returned};

/// Hears a result that returns nothing, or a value with its code.
fn hear_returned(
    basis: &Basis<'_>,
    calls: &mut Invocations,
    id: i64,
    returned: Option<Returned>,
) -> RoseTaken
    ensures { heard_with calls.new result ≡ hear_result_of (base_in basis.now) calls.old id
        (opened_with true id calls.old.opens) (code_returned returned) (value_returned returned) }
{
    match returned {
        None => hear_result(basis, calls, id, &None, None),
        Some(returned) => {
            let Returned { code, value } = returned;
            hear_result(basis, calls, id, &Some(code), Some(value))
        }
    }
}

/// What becomes of an APDU that was read whole on a context. The place is where the operation or
/// the error with its code was found before, if it was; any other gives the same.
pub fn hear_apdu(
    basis: &Basis<'_>,
    calls: &mut Invocations,
    context: u32,
    apdu: Apdu,
    place: Option<u32>,
) -> Result<RoseTaken, NoMemory>
    ensures { IfOk result (λ taken. heard_with calls.new taken ≡ hear (base_in basis.now) calls.old
        context (head_of_apdu apdu)) }
{
    match apdu {
        Apdu::Invoke {
            id,
            linked,
            code,
            argument,
        } => {
            let place = operation_with(basis.tables, &code, place);
            hear_invoke(basis, calls, context, id, linked, place, argument)
        }
        Apdu::Result { id, returned } => Ok(hear_returned(basis, calls, id, returned)),
        Apdu::Error {
            id,
            code,
            parameter,
        } => {
            let place = error_with(basis.tables, &code, place);
            Ok(hear_error(basis, calls, id, place, parameter))
        }
        Apdu::Reject { id, problem } => Ok(hear_reject(calls, id, problem)),
    }
}
