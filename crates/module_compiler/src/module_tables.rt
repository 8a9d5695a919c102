//! The tables of a module as they are made: operations and errors, with the rows of types that they
//! carry.

ghost use Rattle.std.specs.Prelude.{◌≡◌, ◌+◌, ℕ, List, [], Option, Some, None, IfOk, OnOk, MatchResult};
ghost use Rattle.std.specs.Option.{option_copied};
ghost use Rattle.module_compiler.specs.Scope.{own_numbers};
ghost use Rattle.module_compiler.specs.Numbering.{Gives};
ghost use Rattle.module_compiler.specs.ModuleTables.{GivesMade, sort_test, number_by, numbers_of, code_of, operation_of, error_of, assignment_of, walk_all, whole_of};

use crate::fault::Halt;
use crate::numbering::Numbering;
use crate::scope::Scope;
use asn1_types::TypeTable;
use notation_tokens::Located;
use operation_notation::{Assigned, Assignment, CodeText, ErrText, OpText};
use osi_base::{Copied, Indices};
use std::alloc::Global;
use stub_tables::{Code, ErrorRow, ErrorRows, Operation, Operations};

/// The rows, the operations and the errors of a module.
#[derive(Drop)]
pub(crate) struct Whole {
    pub types: TypeTable,
    pub operations: Operations,
    pub errors: ErrorRows,
}

/// The operations and errors so far.
#[derive(Drop)]
pub(crate) struct Made {
    pub operations: Operations,
    pub errors: ErrorRows,
}

/// What a name may be assigned beside a type.
#[derive(Clone, Copy)]
pub(crate) enum Sort {
    Operation,
    Error,
}

/// Whether a body is of this sort.
fn is_of(sort: Sort, body: &Assigned) -> bool
    ensures { result ≡ sort_test sort body.now }
{
    match (sort, body) {
        (Sort::Operation, Assigned::Operation(_)) => true,
        (Sort::Error, Assigned::Error(_)) => true,
        _ => false,
    }
}

/// The numbers of operations and errors, each among its sort, by the places of their assignments.
fn numbers(alloc: Global, assignments: &[Assignment]) -> Result<Vec<u32>, Halt>
    ensures { IfOk result (λ of. of.items ≡ own_numbers 0 0 assignments.now) }
{
    let mut of = Vec::new(alloc);
    let mut operations: u32 = 0;
    let mut errors: u32 = 0;
    let mut rest = assignments;
    while let [assignment, more @ ..] = rest {
        match &assignment.body {
            Assigned::Typed(_) => of.push(0)?,
            Assigned::Operation(_) => {
                of.push(operations)?;
                if operations == u32::MAX {
                    return Err(Halt::NoMemory);
                }
                operations += 1;
            }
            Assigned::Error(_) => {
                of.push(errors)?;
                if errors == u32::MAX {
                    return Err(Halt::NoMemory);
                }
                errors += 1;
            }
        }
        rest = more;
    }
    Ok(of)
}

/// The number of the operation, or of the error, of a name.
#[tactic(auto, unfolding(crate::specs::ModuleTables::number_by))]
fn number_of(scope: &Scope<'_>, numbers: &[u32], sort: Sort, name: &Located) -> Result<u32, Halt>
    requires { numbers.now ≡ own_numbers 0 0 scope.now.assignments }
    ensures { IfOk result (λ n. number_by (sort_test sort) scope.now.assignments name.now.text
        ≡ Some n) }
{
    let Some(place) = scope.find(&name.text) else {
        return Err(Halt::NoTables);
    };
    match (
        scope.assignments().get(place as usize),
        numbers.get(place as usize),
    ) {
        (Some(assignment), Some(number)) if is_of(sort, &assignment.body) => Ok(*number),
        _ => Err(Halt::NoTables),
    }
}

/// Names as numbers.
#[tactic(auto, unfolding(crate::specs::ModuleTables::numbers_of))]
fn numbers_of(
    alloc: Global,
    scope: &Scope<'_>,
    numbers: &[u32],
    sort: Sort,
    names: &[Located],
) -> Result<Indices, Halt>
    requires { numbers.now ≡ own_numbers 0 0 scope.now.assignments }
    ensures { IfOk result (λ of. numbers_of (sort_test sort) scope.now.assignments [] names.now
        ≡ Some of) }
{
    let mut of = Indices::new(alloc);
    for name in names {
        of.push(number_of(scope, numbers, sort, name)?)?;
    }
    Ok(of)
}

/// The code that is written.
fn code_of(alloc: Global, text: &Option<CodeText>) -> Result<Code, Halt>
    ensures { IfOk result (λ code. code_of text.now ≡ Some code) }
{
    match text {
        None => Err(Halt::NoTables),
        Some(text) => match (text.local, &text.global) {
            (Some(number), _) => Ok(Code::Local(number)),
            (None, Some(oid)) => Ok(Code::Global(oid.copy(alloc)?)),
            (None, None) => Err(Halt::NoTables),
        },
    }
}

/// The row of an operation.
#[tactic(auto, unfolding(crate::specs::ModuleTables::operation_of))]
fn operation_row(
    alloc: Global,
    scope: &Scope<'_>,
    numbers: &[u32],
    numbering: &mut Numbering,
    name: &Located,
    text: &OpText,
) -> Result<Operation, Halt>
    requires { numbers.now ≡ own_numbers 0 0 scope.now.assignments }
    ensures { Gives result numbering.new (operation_of scope.now name.now text.now numbering.old) }
{
    let argument = numbering.use_of(alloc, scope, &text.argument)?;
    let outcome = numbering.use_of(alloc, scope, &text.result)?;
    let code = code_of(alloc, &text.code)?;
    let errors = numbers_of(alloc, scope, numbers, Sort::Error, text.errors.as_slice())?;
    let linked = numbers_of(
        alloc,
        scope,
        numbers,
        Sort::Operation,
        text.linked.as_slice(),
    )?;
    Ok(Operation {
        name: name.text.copy(alloc)?,
        code,
        argument,
        result: outcome,
        returns: text.returns,
        always: text.always,
        errors,
        linked,
    })
}

/// The row of an error.
#[tactic(auto, unfolding(crate::specs::ModuleTables::error_of))]
fn error_row(
    alloc: Global,
    scope: &Scope<'_>,
    numbering: &mut Numbering,
    name: &Located,
    text: &ErrText,
) -> Result<ErrorRow, Halt>
    ensures { Gives result numbering.new (error_of scope.now name.now text.now numbering.old) }
{
    let parameter = numbering.use_of(alloc, scope, &text.parameter)?;
    let code = code_of(alloc, &text.code)?;
    Ok(ErrorRow {
        name: name.text.copy(alloc)?,
        code,
        parameter,
    })
}

/// One assignment at its place.
#[tactic(auto, unfolding(crate::specs::ModuleTables::assignment_of))]
fn assign(
    alloc: Global,
    scope: &Scope<'_>,
    numbers: &[u32],
    numbering: &mut Numbering,
    made: &mut Made,
    place: u32,
    assignment: &Assignment,
) -> Result<(), Halt>
    requires { numbers.now ≡ own_numbers 0 0 scope.now.assignments }
    ensures { GivesMade result made.new numbering.new
        (assignment_of scope.now place made.old assignment.now numbering.old) }
{
    match &assignment.body {
        Assigned::Typed(_) => {
            numbering.row_behind(alloc, scope, place)?;
        }
        Assigned::Operation(text) => {
            let row = operation_row(alloc, scope, numbers, numbering, &assignment.name, text)?;
            made.operations.push(row)?;
        }
        Assigned::Error(text) => {
            let row = error_row(alloc, scope, numbering, &assignment.name, text)?;
            made.errors.push(row)?;
        }
    }
    Ok(())
}

/// The assignments of a module, one after the other.
#[tactic(auto, unfolding(crate::specs::ModuleTables::walk_all))]
fn assign_all(
    alloc: Global,
    scope: &Scope<'_>,
    numbers: &[u32],
    numbering: &mut Numbering,
    made: &mut Made,
) -> Result<(), Halt>
    requires { numbers.now ≡ own_numbers 0 0 scope.now.assignments }
    ensures { GivesMade result made.new numbering.new
        (walk_all scope.now 0 made.old scope.now.assignments numbering.old) }
{
    let mut rest = scope.assignments();
    let mut place: u32 = 0;
    while let [assignment, more @ ..] = rest {
        assign(alloc, scope, numbers, numbering, made, place, assignment)?;
        if place == u32::MAX {
            return Err(Halt::NoMemory);
        }
        place += 1;
        rest = more;
    }
    Ok(())
}

/// The rows, the operations and the errors of a module.
#[tactic(auto, unfolding(crate::specs::ModuleTables::whole_of))]
pub(crate) fn tabled(alloc: Global, scope: &Scope<'_>) -> Result<Whole, Halt>
    ensures { IfOk result (λ whole. whole_of scope.now ≡ Some whole) }
{
    let assignments = scope.assignments();
    let numbers = numbers(alloc, assignments)?;
    let mut numbering = Numbering::new(alloc, assignments.len())?;
    let mut made = Made {
        operations: Operations::new(alloc),
        errors: ErrorRows::new(alloc),
    };
    assign_all(alloc, scope, &numbers, &mut numbering, &mut made)?;
    Ok(Whole {
        types: numbering.types,
        operations: made.operations,
        errors: made.errors,
    })
}
