//! Faults of what is assigned, and of what is assigned twice.
#![tactic(auto, using(crate::proofs::LeastLaws::least_append, crate::proofs::LeastLaws::least_two))]

ghost use Rattle.std.specs.Prelude.{◌≡◌, ◌+◌, ◌≤◌, ◌^◌, [], length, IfErr, OnOk};
ghost use Rattle.std.specs.Option.{option_copied};
ghost use Rattle.module_faults.specs.Least.{least_from};
ghost use Rattle.module_faults.specs.Met.{no_codes};
ghost use Rattle.module_faults.specs.Locals.{kind_at, no_error, no_operation, names_faults, contradiction, no_code, operation_faults, body_faults, bodies_faults, is_at, double_names, own_code, double_codes};

use crate::kind::TableKind;
use crate::least::Least;
use crate::locals::{MOST_LEVELS, of_type, of_use};
use crate::names::Names;
use crate::seen_names::SeenCodes;
use notation_tokens::Located;
use operation_notation::{Assigned, Assignment, CodeText, OpText, UseText};
use osi_base::NoMemory;
use std::alloc::Global;

/// A fault of this kind at a name, if there is a kind.
#[tactic(auto, unfolding(crate::specs::Least::least_from))]
fn kind_at(kind: Option<TableKind>, name: &Located, least: &mut Least)
    ensures { least.new.found ≡ least_from least.old.found (kind_at kind name.now) }
{
    if let Some(kind) = kind {
        least.note_if(true, name.line, name.column, kind);
    }
}

/// What is wrong with a name in ERRORS that is assigned so.
fn no_error(body: Option<&Assigned>) -> Option<TableKind>
    ensures { result ≡ no_error (option_copied body.entry) }
{
    match body {
        None => Some(TableKind::UnknownName),
        Some(Assigned::Error(_)) => None,
        Some(_) => Some(TableKind::NotError),
    }
}

/// What is wrong with a name in LINKED that is assigned so.
fn no_operation(body: Option<&Assigned>) -> Option<TableKind>
    ensures { result ≡ no_operation (option_copied body.entry) }
{
    match body {
        None => Some(TableKind::UnknownName),
        Some(Assigned::Operation(_)) => None,
        Some(_) => Some(TableKind::NotOperation),
    }
}

/// Names in ERRORS.
fn errors(names: &Names<'_>, used: &[Located], least: &mut Least)
    ensures { least.new.found ≡ least_from least.old.found
        (names_faults no_error names.now used.now) }
{
    let mut rest = used;
    while let [name, more @ ..] = rest {
        kind_at(no_error(names.assigned(&name.text)), name, least);
        rest = more;
    }
}

/// Names in LINKED.
fn linked(names: &Names<'_>, used: &[Located], least: &mut Least)
    ensures { least.new.found ≡ least_from least.old.found
        (names_faults no_operation names.now used.now) }
{
    let mut rest = used;
    while let [name, more @ ..] = rest {
        kind_at(no_operation(names.assigned(&name.text)), name, least);
        rest = more;
    }
}

/// A result with a type where none is returned.
#[tactic(auto, unfolding(crate::specs::Least::least_from))]
fn contradiction(returns: bool, outcome: &Option<UseText>, least: &mut Least)
    ensures { least.new.found ≡ least_from least.old.found (contradiction returns outcome.now) }
{
    if let Some(outcome) = outcome {
        least.note_if(
            !returns,
            outcome.line,
            outcome.column,
            TableKind::Contradiction,
        );
    }
}

/// An operation or error without a code.
fn no_code(name: &Located, code: &Option<CodeText>, least: &mut Least)
    ensures { least.new.found ≡ least_from least.old.found (no_code name.now code.now) }
{
    least.note_if(code.is_none(), name.line, name.column, TableKind::NoCode);
}

/// Faults of an operation.
fn of_operation(
    alloc: Global,
    names: &Names<'_>,
    name: &Located,
    text: &OpText,
    least: &mut Least,
) -> Result<(), NoMemory>
    ensures { OnOk result (least.new.found ≡ least_from least.old.found
        (operation_faults names.now name.now text.now)) }
{
    of_use(alloc, names, &text.argument, least)?;
    of_use(alloc, names, &text.result, least)?;
    contradiction(text.returns, &text.result, least);
    errors(names, text.errors.as_slice(), least);
    linked(names, text.linked.as_slice(), least);
    no_code(name, &text.code, least);
    Ok(())
}

/// Faults of what a name is assigned.
fn of_body(
    alloc: Global,
    names: &Names<'_>,
    name: &Located,
    body: &Assigned,
    least: &mut Least,
) -> Result<(), NoMemory>
    ensures { OnOk result (least.new.found ≡ least_from least.old.found
        (body_faults names.now name.now body.now)) }
{
    match body {
        Assigned::Typed(of) => of_type(alloc, names, MOST_LEVELS, of, least),
        Assigned::Operation(text) => of_operation(alloc, names, name, text, least),
        Assigned::Error(text) => {
            of_use(alloc, names, &text.parameter, least)?;
            no_code(name, &text.code, least);
            Ok(())
        }
    }
}

/// Faults of assignments by themselves.
pub(crate) fn of_bodies(alloc: Global, names: &Names<'_>, least: &mut Least) -> Result<(), NoMemory>
    ensures { OnOk result (least.new.found ≡ least_from least.old.found
        (bodies_faults names.now names.now)) }
{
    let mut rest = names.assignments();
    while let [assignment, more @ ..] = rest {
        of_body(alloc, names, &assignment.name, &assignment.body, least)?;
        rest = more;
    }
    Ok(())
}

/// Whether a place was found, and is this one.
fn is_at(place: u32, found: Option<u32>) -> bool
    ensures { result ≡ is_at place found }
{
    match found {
        Some(first) => first == place,
        None => false,
    }
}

/// Assigned names that are assigned before.
pub(crate) fn double_names(names: &Names<'_>, least: &mut Least) -> Result<(), NoMemory>
    ensures found { OnOk result (least.new.found ≡ least_from least.old.found
        (double_names names.now 0 names.now)) }
    // Only more assignments than places can count are refused.
    ensures refused { IfErr result (λ _. 2 ^ 32 ≤ length names.now) }
{
    let mut rest = names.assignments();
    let mut place: u32 = 0;
    while let [assignment, more @ ..] = rest {
        let name = &assignment.name;
        let is_first = is_at(place, names.find(&name.text));
        least.note_if(!is_first, name.line, name.column, TableKind::DoubleName);
        if place == u32::MAX {
            return Err(NoMemory);
        }
        place += 1;
        rest = more;
    }
    Ok(())
}

/// The code of an operation, or of an error.
fn own_code(errors: bool, body: &Assigned) -> Option<&CodeText>
    ensures { option_copied result ≡ own_code errors body.now }
{
    match (errors, body) {
        (false, Assigned::Operation(operation)) => operation.code.as_ref(),
        (true, Assigned::Error(error)) => error.code.as_ref(),
        _ => None,
    }
}

/// Codes that an earlier operation has, or an earlier error.
pub(crate) fn double_codes(
    alloc: Global,
    errors: bool,
    assignments: &[Assignment],
    least: &mut Least,
) -> Result<(), NoMemory>
    ensures { OnOk result (least.new.found ≡ least_from least.old.found
        (double_codes errors no_codes assignments.now)) }
{
    let mut seen = SeenCodes::new(alloc);
    let mut rest = assignments;
    while let [assignment, more @ ..] = rest {
        if let Some(code) = own_code(errors, &assignment.body) {
            let is_old = seen.see(code)?;
            least.note_if(is_old, code.line, code.column, TableKind::DoubleCode);
        }
        rest = more;
    }
    Ok(())
}
