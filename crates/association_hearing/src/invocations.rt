//! What an invocation that is heard does at the end: it is admitted and shown, or rejected.

ghost use Rattle.std.specs.Prelude.{◌≡◌, IfOk, Some};
ghost use Rattle.osi_base.specs.declared.layer_words.ProblemKind.TheVariants as kinds;
ghost use Rattle.end_rules.specs.Hearing.{carried_in, rejected, unless_problem, invoked, invoke_problem};
ghost use Rattle.rose_roles.specs.Hearing.{heard_with};
ghost use Rattle.association_answers.specs.association_state.Seen.{base_in};

use crate::problems::invoke_problem;
use asn1_types::Val;
use association_answers::association_state_layer::Basis;
use association_answers::open_invocations_layer::Invocations;
use osi_base::{NoMemory, ProblemKind};
use rose_roles::{InvokedWith, RoseTaken, reject_with};

/// Hears an invocation on a context, of the operation at this place if there is one.
pub(crate) fn hear_invoke(
    basis: &Basis<'_>,
    calls: &mut Invocations,
    context: u32,
    id: i64,
    linked: Option<i64>,
    place: Option<u32>,
    argument: Option<Val>,
) -> Result<RoseTaken, NoMemory>
    ensures { IfOk result (λ taken. heard_with calls.new taken ≡ unless_problem
        (invoke_problem (base_in basis.now) calls.old id linked place (carried_in argument))
        (rejected calls.old (Some id) kinds.Invoke)
        (invoked (base_in basis.now) calls.old context id linked place (carried_in argument))) }
{
    if let Some(number) = invoke_problem(basis, calls, &id, &linked, place, &argument) {
        return Ok(reject_with(Some(id), ProblemKind::Invoke, number));
    }
    let Some(operation) = place else {
        return Ok(reject_with(Some(id), ProblemKind::Invoke, 1));
    };
    calls.admit(
        basis.tables,
        &id,
        InvokedWith { operation, context },
        linked,
    )?;
    Ok(RoseTaken::Invoked {
        id,
        operation,
        linked,
        argument,
    })
}
