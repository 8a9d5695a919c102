//! The first problem of an APDU, over the open invocations.

ghost use Rattle.std.specs.Prelude.{◌≡◌, ◌+◌, Some, None, is_some, true, false};
ghost use Rattle.stub_tables.specs.Lookup.{operation_at, error_at};
ghost use Rattle.end_rules.specs.State.{opened_with};
ghost use Rattle.end_rules.specs.Invoking.{is_linked_to, operation_of};
ghost use Rattle.end_rules.specs.Hearing.{carried_in, is_silent_at, has_links, link_problem, argument_problem, operation_problem, invoke_problem, is_right_result, result_problem, known_error_problem, error_problem};
ghost use Rattle.association_answers.specs.open_invocations.Invocations.{is_link_back};
ghost use Rattle.association_answers.specs.association_state.Seen.{base_in};

use asn1_types::Val;
use association_answers::association_state_layer::Basis;
use association_answers::open_invocations_layer::Invocations;
use rose_roles::{has_links, is_linked_to};
use stub_tables::{Code, Operation};

/// How many invocations of one end may be open.
const MOST_OPEN: usize = 4_096;

/// Whether the operation at this place has no outcome; false where there is none.
pub fn is_silent_at(basis: &Basis<'_>, place: Option<u32>) -> bool
    ensures { result ≡ is_silent_at (base_in basis.now) place }
{
    let Some(place) = place else { return false };
    match basis.tables.operation(place) {
        None => false,
        Some(operation) => operation.is_silent(),
    }
}

/// Why the operation at this place may not be linked so.
fn link_problem(
    basis: &Basis<'_>,
    calls: &Invocations,
    place: u32,
    linked: &Option<i64>,
) -> Option<u8>
    ensures problem { result ≡ link_problem (base_in basis.now) calls.now place linked.now }
    ensures link { (result ≡ None) → is_link_back linked.now calls.now.opens ≡ true }
{
    let Some(linked) = linked else { return None };
    let Some(parent) = calls.operation(true, linked) else {
        return Some(5);
    };
    let operation = basis.tables.operation(parent);
    if !has_links(operation) {
        return Some(6);
    }
    if !is_linked_to(operation, place) {
        return Some(7);
    }
    None
}

/// Whether an argument is one of the operation at this place.
fn argument_problem(basis: &Basis<'_>, place: u32, argument: &Option<Val>) -> Option<u8>
    ensures { result ≡ argument_problem (base_in basis.now) (operation_at basis.now.tables.now
        place) (carried_in argument.now) }
{
    match basis.tables.operation(place) {
        None => Some(2),
        Some(operation) => {
            if operation.argument.carries(&basis.tables.types, argument) {
                None
            } else {
                Some(2)
            }
        }
    }
}

/// The problem of an operation's place, of a link and of an argument.
fn operation_problem(
    basis: &Basis<'_>,
    calls: &Invocations,
    place: Option<u32>,
    linked: &Option<i64>,
    argument: &Option<Val>,
) -> Option<u8>
    ensures problem { result ≡ operation_problem (base_in basis.now) calls.now place linked.now
        (carried_in argument.now) }
    ensures link { (result ≡ None) → is_link_back linked.now calls.now.opens ≡ true }
{
    let Some(place) = place else { return Some(1) };
    if let Some(problem) = link_problem(basis, calls, place, linked) {
        return Some(problem);
    }
    argument_problem(basis, place, argument)
}

/// The first problem of an invocation.
pub(crate) fn invoke_problem(
    basis: &Basis<'_>,
    calls: &Invocations,
    id: &i64,
    linked: &Option<i64>,
    place: Option<u32>,
    argument: &Option<Val>,
) -> Option<u8>
    ensures problem { result ≡ invoke_problem (base_in basis.now) calls.now id.now linked.now place
        (carried_in argument.now) }
    ensures shut { (result ≡ None) → opened_with false id.now calls.now.opens ≡ None }
    ensures link { (result ≡ None) → is_link_back linked.now calls.now.opens ≡ true }
{
    if calls.is_open(false, id) {
        return Some(0);
    }
    if MOST_OPEN <= calls.peer_count() && !is_silent_at(basis, place) {
        return Some(3);
    }
    operation_problem(basis, calls, place, linked, argument)
}

/// Whether a result is right for the operation at this place.
#[tactic(auto, using(crate::proofs::Codes::has_code_at))]
fn is_right_result(
    basis: &Basis<'_>,
    place: u32,
    operation: &Operation,
    code: &Option<Code>,
    value: &Option<Val>,
) -> bool
    requires { operation_at basis.now.tables.now place ≡ Some operation.now }
    ensures { result ≡ is_right_result (base_in basis.now) place operation.now code.now
        (carried_in value.now) }
{
    match code {
        None => operation.result.carries(&basis.tables.types, &None),
        Some(code) => {
            operation.code.is(code) && operation.result.carries(&basis.tables.types, value)
        }
    }
}

/// The first problem of a result of the operation at this place.
pub(crate) fn result_problem(
    basis: &Basis<'_>,
    place: u32,
    code: &Option<Code>,
    value: &Option<Val>,
) -> Option<u8>
    ensures { result ≡ result_problem (base_in basis.now) place (operation_at basis.now.tables.now
        place) code.now (carried_in value.now) }
{
    let Some(operation) = basis.tables.operation(place) else {
        return Some(1);
    };
    if !operation.returns {
        return Some(1);
    }
    if !is_right_result(basis, place, operation, code, value) {
        return Some(2);
    }
    None
}

/// The problem of a known error of an operation.
fn known_error_problem(
    basis: &Basis<'_>,
    operation: &Operation,
    place: u32,
    parameter: &Option<Val>,
) -> Option<u8>
    ensures { result ≡ known_error_problem (base_in basis.now) operation.now (Some place)
        (carried_in parameter.now) }
{
    if !operation.has_error(place) {
        return Some(3);
    }
    match basis.tables.error(place) {
        None => Some(4),
        Some(error) => {
            if error.parameter.carries(&basis.tables.types, parameter) {
                None
            } else {
                Some(4)
            }
        }
    }
}

/// The first problem of an error, as a place in the table of errors, of the operation at this
/// place.
pub(crate) fn error_problem(
    basis: &Basis<'_>,
    place: u32,
    error: Option<u32>,
    parameter: &Option<Val>,
) -> Option<u8>
    ensures { result ≡ error_problem (base_in basis.now) (operation_at basis.now.tables.now place)
        error (carried_in parameter.now) }
{
    let Some(operation) = basis.tables.operation(place) else {
        return Some(1);
    };
    if operation.errors.len() == 0 {
        return Some(1);
    }
    match error {
        None => Some(2),
        Some(error) => known_error_problem(basis, operation, error, parameter),
    }
}
