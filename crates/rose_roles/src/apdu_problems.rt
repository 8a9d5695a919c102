//! The first problem of an APDU.

ghost use Rattle.std.specs.Prelude.{◌≡◌, not, IfOk, Some};
ghost use Rattle.std.specs.Option.{option_copied, option_map};
ghost use Rattle.apdu_spelling.specs.declared.head.ApduKind.TheVariants as kinds;
ghost use Rattle.stub_tables.specs.Lookup.{operation_at};
ghost use Rattle.stub_tables.specs.Apdus.{placed, argument_of};
ghost use Rattle.end_wire.specs.end_rules.Base.{Carried};
ghost use Rattle.end_wire.specs.end_rules.Hearing.{has_links, problem_if, value_in};
ghost use Rattle.end_wire.specs.end_rules.Sets.{is_among};
ghost use Rattle.end_wire.specs.end_rules.Invoking.{is_linked_to};
ghost use Rattle.rose_roles.specs.ApduProblems.{silent, operation_called, argument_problem, link_problem, is_right, IsValueOrProblem, result_problem, error_problem, known_error_problem};
ghost use Rattle.rose_roles.specs.Heads.{Carries, use_by, parameter_at, parameter_placed};

use crate::invoked_with::InvokedWith;
use crate::values::allowed;
use asn1_types::Val;
use osi_base::{NoMemory, Octets, Syntax};
use std::alloc::Global;
use stub_tables::{Code, Operation, Tables, Use};

/// The value that is right, or the number of the problem.
#[derive(Drop)]
pub(crate) enum ValueOrProblem {
    Right(Option<Val>),
    Wrong(u8),
}

/// Whether the operation at this place is silent.
pub(crate) fn is_silent_at(tables: &Tables, place: Option<u32>) -> bool
    ensures { result ≡ silent (placed (operation_at tables.now) place) }
{
    let Some(place) = place else { return false };
    match tables.operation(place) {
        Some(operation) => operation.is_silent(),
        None => false,
    }
}

/// Whether any operation may be linked to this one.
pub fn has_links(operation: Option<&Operation>) -> bool
    ensures { result ≡ has_links (option_copied operation.entry) }
{
    match operation {
        Some(operation) => operation.linked.len() != 0,
        None => false,
    }
}

/// Whether the place is one of these.
fn is_among(place: u32, places: &[u32]) -> bool
    ensures { result ≡ is_among place places.now }
{
    places.iter().any(|other| place == *other)
}

/// Whether the operation at this place may be linked to this one.
pub fn is_linked_to(operation: Option<&Operation>, place: u32) -> bool
    ensures { result ≡ is_linked_to (option_copied operation.entry) place }
{
    match operation {
        Some(operation) => is_among(place, operation.linked.as_slice()),
        None => false,
    }
}

/// Why the operation at this place may not be linked to what was called, if it was.
pub(crate) fn link_problem(tables: &Tables, parent: Option<InvokedWith>, place: u32) -> Option<u8>
    ensures { result ≡ link_problem parent (operation_called tables.now parent) place }
{
    let Some(parent) = parent else { return Some(5) };
    let operation = tables.operation(parent.operation);
    if !has_links(operation) {
        Some(6)
    } else if !is_linked_to(operation, place) {
        Some(7)
    } else {
        None
    }
}

/// The value that is carried, or this problem.
pub(crate) fn value_or_problem(
    alloc: Global,
    syntax: Syntax,
    tables: &Tables,
    used: &Use,
    octets: &Option<Octets>,
    room: u32,
    problem: u8,
) -> Result<ValueOrProblem, NoMemory>
    ensures { IfOk result (λ found. (carried : Carried) → Carries syntax tables.now.types room
        (Some used.now) octets.now carried →
        IsValueOrProblem (problem_if (not (is_right tables.now.types used.now carried)) problem)
        (value_in carried) found) }
{
    tables.hold_readable();
    match allowed(alloc, syntax, &tables.types, used, octets, room)? {
        Some(value) => Ok(ValueOrProblem::Right(value)),
        None => Ok(ValueOrProblem::Wrong(problem)),
    }
}

/// What an outcome of the operation at this place says that returns what its code and octets say.
pub(crate) fn result_or_problem(
    alloc: Global,
    syntax: Syntax,
    tables: &Tables,
    place: u32,
    code: &Option<Code>,
    octets: &Option<Octets>,
    room: u32,
) -> Result<ValueOrProblem, NoMemory>
    ensures { IfOk result (λ found. (carried : Carried) → Carries syntax tables.now.types room
        (use_by tables.now kinds.Result code.now) octets.now carried →
        IsValueOrProblem (result_problem tables.now place (operation_at tables.now place) code.now
        carried) (value_in carried) found) }
{
    let Some(operation) = tables.operation(place) else {
        return Ok(ValueOrProblem::Wrong(1));
    };
    if !operation.returns {
        return Ok(ValueOrProblem::Wrong(1));
    }
    let Some(code) = code else {
        if operation.result.carries(&tables.types, &None) {
            return Ok(ValueOrProblem::Right(None));
        }
        return Ok(ValueOrProblem::Wrong(2));
    };
    if tables.operation_with(code) != Some(place) {
        return Ok(ValueOrProblem::Wrong(2));
    }
    value_or_problem(alloc, syntax, tables, &operation.result, octets, room, 2)
}

/// What a known error says of an operation.
fn known_error_or_problem(
    alloc: Global,
    syntax: Syntax,
    tables: &Tables,
    operation: &Operation,
    error: u32,
    octets: &Option<Octets>,
    room: u32,
) -> Result<ValueOrProblem, NoMemory>
    ensures { IfOk result (λ found. (carried : Carried) → Carries syntax tables.now.types room
        (parameter_at tables.now error) octets.now carried →
        IsValueOrProblem (known_error_problem tables.now operation.now (Some error) carried)
        (value_in carried) found) }
{
    if !operation.has_error(error) {
        return Ok(ValueOrProblem::Wrong(3));
    }
    match tables.error(error) {
        Some(row) => value_or_problem(alloc, syntax, tables, &row.parameter, octets, room, 4),
        None => Ok(ValueOrProblem::Wrong(4)),
    }
}

/// What an outcome of the operation at this place says that is this error with these octets.
pub(crate) fn error_or_problem(
    alloc: Global,
    syntax: Syntax,
    tables: &Tables,
    place: u32,
    error: Option<u32>,
    octets: &Option<Octets>,
    room: u32,
) -> Result<ValueOrProblem, NoMemory>
    ensures { IfOk result (λ found. (carried : Carried) → Carries syntax tables.now.types room
        (parameter_placed tables.now error) octets.now carried →
        IsValueOrProblem (error_problem tables.now (operation_at tables.now place) error carried)
        (value_in carried) found) }
{
    let Some(operation) = tables.operation(place) else {
        return Ok(ValueOrProblem::Wrong(1));
    };
    if operation.errors.len() == 0 {
        return Ok(ValueOrProblem::Wrong(1));
    }
    match error {
        Some(error) => {
            known_error_or_problem(alloc, syntax, tables, operation, error, octets, room)
        }
        None => Ok(ValueOrProblem::Wrong(2)),
    }
}

/// What an invocation of the operation at this place says that has no other problem.
pub(crate) fn argument_or_problem(
    alloc: Global,
    syntax: Syntax,
    tables: &Tables,
    place: Option<u32>,
    octets: &Option<Octets>,
    room: u32,
) -> Result<ValueOrProblem, NoMemory>
    ensures { IfOk result (λ found. (carried : Carried) → Carries syntax tables.now.types room
        (option_map argument_of (placed (operation_at tables.now) place)) octets.now carried →
        IsValueOrProblem (argument_problem tables.now place carried) (value_in carried) found) }
{
    let Some(place) = place else {
        return Ok(ValueOrProblem::Wrong(1));
    };
    match tables.operation(place) {
        Some(operation) => {
            value_or_problem(alloc, syntax, tables, &operation.argument, octets, room, 2)
        }
        None => Ok(ValueOrProblem::Wrong(2)),
    }
}
