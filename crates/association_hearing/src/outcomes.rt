//! Results, errors and rejects.

ghost use Rattle.std.specs.Prelude.{◌≡◌, Some, true};
ghost use Rattle.end_rules.specs.State.{opened_with};
ghost use Rattle.end_rules.specs.Hearing.{carried_in, hear_result_of, hear_error_of, hear_reject};
ghost use Rattle.rose_roles.specs.Hearing.{heard_with};
ghost use Rattle.association_answers.specs.association_state.Seen.{base_in};

use crate::problems::{error_problem, result_problem};
use asn1_types::Val;
use association_answers::association_state_layer::Basis;
use association_answers::open_invocations_layer::Invocations;
use osi_base::{Problem, ProblemKind};
use rose_roles::{RoseTaken, is_of_invocation, reject_with};
use stub_tables::Code;

/// Hears a result.
pub(crate) fn hear_result(
    basis: &Basis<'_>,
    calls: &mut Invocations,
    id: i64,
    code: &Option<Code>,
    value: Option<Val>,
) -> RoseTaken
    ensures { heard_with calls.new result ≡ hear_result_of (base_in basis.now) calls.old id
        (opened_with true id calls.old.opens) code.now (carried_in value) }
{
    let Some(called) = calls.called(true, &id) else {
        return reject_with(Some(id), ProblemKind::Result, 0);
    };
    let problem = result_problem(basis, called.operation, code, &value);
    calls.close_own(&id);
    match problem {
        Some(number) => reject_with(Some(id), ProblemKind::Result, number),
        None => RoseTaken::Result { id, value },
    }
}

/// Hears an error, the one at this place if there is one.
pub(crate) fn hear_error(
    basis: &Basis<'_>,
    calls: &mut Invocations,
    id: i64,
    error: Option<u32>,
    parameter: Option<Val>,
) -> RoseTaken
    ensures { heard_with calls.new result ≡ hear_error_of (base_in basis.now) calls.old id
        (opened_with true id calls.old.opens) error (carried_in parameter) }
{
    let Some(called) = calls.called(true, &id) else {
        return reject_with(Some(id), ProblemKind::Error, 0);
    };
    let problem = error_problem(basis, called.operation, error, &parameter);
    calls.close_own(&id);
    match (problem, error) {
        (Some(number), _) => reject_with(Some(id), ProblemKind::Error, number),
        (None, None) => reject_with(Some(id), ProblemKind::Error, 2),
        (None, Some(error)) => RoseTaken::Error {
            id,
            error,
            parameter,
        },
    }
}

/// Hears a reject: one of an invoke problem closes the own invocation that it names.
pub(crate) fn hear_reject(calls: &mut Invocations, id: Option<i64>, problem: Problem) -> RoseTaken
    ensures { heard_with calls.new result ≡ hear_reject calls.old id problem }
{
    let Some(named) = id else {
        return RoseTaken::RejectTaken { id, problem };
    };
    if is_of_invocation(problem.kind) && calls.is_open(true, &named) {
        calls.close_own(&named);
        return RoseTaken::Rejected { id: named, problem };
    }
    RoseTaken::RejectTaken { id, problem }
}
