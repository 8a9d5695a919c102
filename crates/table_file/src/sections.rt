//! The errors and operations of a table file.

ghost use Rattle.std.specs.Prelude.{◌≡◌, ◌+◌, ◌<◌, ◌^◌, false, length, IfOk, OnOk, IsTrue};
ghost use Rattle.stub_tables.specs.Codes.{have_own_codes};
ghost use Rattle.table_file.specs.FieldTypes.{field_types};
ghost use Rattle.table_file.specs.Reading.{Gives, spot_of};
ghost use Rattle.table_file.specs.Sections as found;
ghost use Rattle.table_file.specs.Known.{has_name};
ghost use Rattle.table_file.specs.Kept.{AreErrorNames, AreErrorCodes, AreNames, AreOperationCodes};

use crate::fault::Stop;
use crate::fields::{counted, integer, object_id, octet, truth};
use crate::names_and_codes::{Codes, Names};
use crate::row_parts::{indices, name, row_number};
use crate::spot::Spot;
use asn1_types::{TypeId, TypeTable};
use osi_base::{Indices, Name};
use std::alloc::Global;
use stub_tables::{Code, ErrorRow, ErrorRows, Operation, Operations, Use};

/// A code.
#[tactic(auto, unfolding(crate::specs::Sections::code_at))]
fn code<'a>(alloc: Global, fields: &TypeTable, spot: Spot<'a>) -> Result<(Code, Spot<'a>), Stop>
    requires { fields.now ≡ field_types }
    ensures { Gives (λ x. (x.0, spot_of x.1)) result (found.code_at (spot_of spot.entry)) }
{
    let (which, behind) = octet(spot)?;
    match which {
        0 => {
            let (number, after) = integer(alloc, fields, behind)?;
            Ok((Code::Local(number), after))
        }
        1 => {
            let (oid, after) = object_id(alloc, fields, behind)?;
            Ok((Code::Global(oid), after))
        }
        _ => Err(Stop::Bad(spot.place)),
    }
}

/// A number of a row, if the row is there.
fn known_row(types: &TypeTable, number: Option<TypeId>) -> Option<TypeId>
    ensures { result ≡ found.known_row types.now number }
{
    match number {
        Some(number) if types.has(number) => Some(number),
        _ => None,
    }
}

/// The type of a use, where there is one; nothing where it is no row.
#[tactic(auto, unfolding(crate::specs::Sections::type_at))]
fn inner<'a>(
    alloc: Global,
    fields: &TypeTable,
    types: &TypeTable,
    spot: Spot<'a>,
) -> Result<(Option<Option<TypeId>>, Spot<'a>), Stop>
    requires { fields.now ≡ field_types }
    ensures { Gives (λ x. (x.0, spot_of x.1)) result
        (found.type_at types.now (spot_of spot.entry)) }
{
    let (is_there, behind) = truth(spot)?;
    if !is_there {
        return Ok((Some(None), behind));
    }
    let (number, after) = row_number(alloc, fields, behind)?;
    match known_row(types, number) {
        Some(number) => Ok((Some(Some(number)), after)),
        None => Ok((None, after)),
    }
}

/// What an operation or error carries, if its type is a row.
#[tactic(auto, unfolding(crate::specs::Sections::use_at))]
fn carried<'a>(
    alloc: Global,
    fields: &TypeTable,
    types: &TypeTable,
    spot: Spot<'a>,
) -> Result<(Option<Use>, Spot<'a>), Stop>
    requires { fields.now ≡ field_types }
    ensures { Gives (λ x. (x.0, spot_of x.1)) result (found.use_at types.now (spot_of spot.entry)) }
{
    let (inner, behind) = inner(alloc, fields, types, spot)?;
    let (optional, after) = truth(behind)?;
    match inner {
        Some(inner) => Ok((Some(Use { inner, optional }), after)),
        None => Ok((None, after)),
    }
}

/// An error of these, if they are sound.
fn error_of(name: Option<Name>, code: Code, parameter: Option<Use>) -> Option<ErrorRow>
    ensures { result ≡ found.error_of name code parameter }
{
    match (name, parameter) {
        (Some(name), Some(parameter)) => Some(ErrorRow {
            name,
            code,
            parameter,
        }),
        _ => None,
    }
}

/// An error, if its name and its numbers have their forms.
#[tactic(auto, unfolding(crate::specs::Sections::error_at))]
fn error<'a>(
    alloc: Global,
    fields: &TypeTable,
    types: &TypeTable,
    spot: Spot<'a>,
) -> Result<(Option<ErrorRow>, Spot<'a>), Stop>
    requires { fields.now ≡ field_types }
    ensures { Gives (λ x. (x.0, spot_of x.1)) result
        (found.error_at types.now (spot_of spot.entry)) }
{
    let (name, behind_name) = name(alloc, spot)?;
    let (code, behind_code) = code(alloc, fields, behind_name)?;
    let (parameter, after) = carried(alloc, fields, types, behind_code)?;
    Ok((error_of(name, code, parameter), after))
}

/// Puts an error behind the others, if its name and its code are its own.
fn add_error(
    errors: &mut ErrorRows,
    names: &mut Names,
    codes: &mut Codes,
    row: Option<ErrorRow>,
    place: usize,
) -> Result<(), Stop>
    requires names { AreErrorNames names.old errors.old }
    requires codes { AreErrorCodes codes.old errors.old }
    ensures gives { Gives (λ _. errors.new) result (found.error_added place errors.old row) }
    ensures names { OnOk result (AreErrorNames names.new errors.new) }
    ensures codes { OnOk result (AreErrorCodes codes.new errors.new) }
    ensures own { OnOk result (IsTrue (have_own_codes (λ e. e.code) errors.old) →
        IsTrue (have_own_codes (λ e. e.code) errors.new)) }
    ensures count { OnOk result (length errors.new ≡ length errors.old + 1) }
{
    let Some(row) = row else {
        return Err(Stop::Bad(place));
    };
    let own_name = names.see(&row.name)?;
    let own_code = codes.see(&row.code)?;
    if !own_name || !own_code {
        return Err(Stop::Bad(place));
    }
    errors.push(row)?;
    Ok(())
}

/// One error more, which is judged.
#[tactic(auto, unfolding(crate::specs::Sections::adds_error))]
fn one_error<'a>(
    alloc: Global,
    fields: &TypeTable,
    types: &TypeTable,
    errors: &mut ErrorRows,
    names: &mut Names,
    codes: &mut Codes,
    spot: Spot<'a>,
) -> Result<Spot<'a>, Stop>
    requires fields { fields.now ≡ field_types }
    requires names { AreErrorNames names.old errors.old }
    requires codes { AreErrorCodes codes.old errors.old }
    ensures gives { Gives (λ after. (errors.new, spot_of after)) result
        (found.adds_error types.now errors.old (spot_of spot.entry)) }
    ensures names { OnOk result (AreErrorNames names.new errors.new) }
    ensures codes { OnOk result (AreErrorCodes codes.new errors.new) }
    ensures own { OnOk result (IsTrue (have_own_codes (λ e. e.code) errors.old) →
        IsTrue (have_own_codes (λ e. e.code) errors.new)) }
    ensures count { OnOk result (length errors.new ≡ length errors.old + 1) }
{
    let (row, after) = error(alloc, fields, types, spot)?;
    add_error(errors, names, codes, row, spot.place)?;
    Ok(after)
}

/// All errors, each of which is judged before the next is read.
pub(crate) fn errors<'a>(
    alloc: Global,
    fields: &TypeTable,
    types: &TypeTable,
    names: &mut Names,
    spot: Spot<'a>,
) -> Result<(ErrorRows, Spot<'a>), Stop>
    requires fields { fields.now ≡ field_types }
    requires names { (name : _) → has_name names.old name ≡ false }
    ensures gives { Gives (λ x. (x.0, spot_of x.1)) result
        (found.errors_at types.now (spot_of spot.entry)) }
    ensures names { IfOk result (λ x. AreErrorNames names.new x.0) }
    ensures own { IfOk result (λ x. IsTrue (have_own_codes (λ e. e.code) x.0)) }
    ensures few { IfOk result (λ x. length x.0 < 2 ^ 32) }
{
    let (number, behind) = counted(spot)?;
    let mut spot = behind;
    let mut codes = Codes::new(alloc);
    let mut errors = ErrorRows::new(alloc);
    for _index in 0..number {
        let next = one_error(alloc, fields, types, &mut errors, names, &mut codes, spot)?;
        spot = next;
    }
    Ok((errors, spot))
}

/// Both, if both are there.
fn both<A: Drop, B: Drop>(first: Option<A>, second: Option<B>) -> Option<(A, B)>
    ensures { result ≡ found.both first second }
{
    match (first, second) {
        (Some(first), Some(second)) => Some((first, second)),
        _ => None,
    }
}

/// An operation of these, if they are sound.
fn operation_of(
    name: Option<Name>,
    code: Code,
    uses: Option<(Use, Use)>,
    returns: bool,
    always: bool,
    places: Option<(Indices, Indices)>,
) -> Option<Operation>
    ensures { result ≡ found.operation_of name code uses returns always places }
{
    match (name, uses, places) {
        (Some(name), Some((argument, outcome)), Some((errors, linked))) => Some(Operation {
            name,
            code,
            argument,
            result: outcome,
            returns,
            always,
            errors,
            linked,
        }),
        _ => None,
    }
}

/// An operation, if its name and its numbers have their forms.
#[tactic(auto, unfolding(crate::specs::Sections::operation_at))]
fn operation<'a>(
    alloc: Global,
    fields: &TypeTable,
    types: &TypeTable,
    errors: usize,
    operations: u32,
    spot: Spot<'a>,
) -> Result<(Option<Operation>, Spot<'a>), Stop>
    requires { fields.now ≡ field_types }
    ensures { Gives (λ x. (x.0, spot_of x.1)) result (found.operation_at types.now errors operations
        (spot_of spot.entry)) }
{
    let (name, behind_name) = name(alloc, spot)?;
    let (code, behind_code) = code(alloc, fields, behind_name)?;
    let (argument, behind_argument) = carried(alloc, fields, types, behind_code)?;
    let (outcome, behind_outcome) = carried(alloc, fields, types, behind_argument)?;
    let (returns, behind_returns) = truth(behind_outcome)?;
    let (always, behind_always) = truth(behind_returns)?;
    let (errors, behind_errors) = indices(alloc, fields, errors, behind_always)?;
    let (linked, after) = indices(alloc, fields, operations as usize, behind_errors)?;
    let uses = both(argument, outcome);
    let places = both(errors, linked);
    Ok((
        operation_of(name, code, uses, returns, always, places),
        after,
    ))
}

/// Puts an operation behind the others, if its name and its code are its own.
fn add_operation(
    operations: &mut Operations,
    names: &mut Names,
    codes: &mut Codes,
    row: Option<Operation>,
    place: usize,
    errors: &ErrorRows,
) -> Result<(), Stop>
    requires names { AreNames names.old errors.now operations.old }
    requires codes { AreOperationCodes codes.old operations.old }
    ensures gives { Gives (λ _. operations.new) result
        (found.operation_added place errors.now operations.old row) }
    ensures names { OnOk result (AreNames names.new errors.now operations.new) }
    ensures codes { OnOk result (AreOperationCodes codes.new operations.new) }
    ensures own { OnOk result (IsTrue (have_own_codes (λ o. o.code) operations.old) →
        IsTrue (have_own_codes (λ o. o.code) operations.new)) }
    ensures count { OnOk result (length operations.new ≡ length operations.old + 1) }
{
    let Some(row) = row else {
        return Err(Stop::Bad(place));
    };
    let own_name = names.see(&row.name)?;
    let own_code = codes.see(&row.code)?;
    if !own_name || !own_code {
        return Err(Stop::Bad(place));
    }
    operations.push(row)?;
    Ok(())
}

/// One operation more of so many, which is judged.
#[tactic(auto, unfolding(crate::specs::Sections::adds_operation))]
fn one_operation<'a>(
    alloc: Global,
    fields: &TypeTable,
    types: &TypeTable,
    errors: &ErrorRows,
    count: u32,
    operations: &mut Operations,
    names: &mut Names,
    codes: &mut Codes,
    spot: Spot<'a>,
) -> Result<Spot<'a>, Stop>
    requires fields { fields.now ≡ field_types }
    requires names { AreNames names.old errors.now operations.old }
    requires codes { AreOperationCodes codes.old operations.old }
    ensures gives { Gives (λ after. (operations.new, spot_of after)) result
        (found.adds_operation types.now errors.now count operations.old (spot_of spot.entry)) }
    ensures names { OnOk result (AreNames names.new errors.now operations.new) }
    ensures codes { OnOk result (AreOperationCodes codes.new operations.new) }
    ensures own { OnOk result (IsTrue (have_own_codes (λ o. o.code) operations.old) →
        IsTrue (have_own_codes (λ o. o.code) operations.new)) }
    ensures count { OnOk result (length operations.new ≡ length operations.old + 1) }
{
    let (row, after) = operation(alloc, fields, types, errors.len(), count, spot)?;
    add_operation(operations, names, codes, row, spot.place, errors)?;
    Ok(after)
}

/// All operations, each of which is judged before the next is read.
pub(crate) fn operations<'a>(
    alloc: Global,
    fields: &TypeTable,
    types: &TypeTable,
    errors: &ErrorRows,
    names: &mut Names,
    spot: Spot<'a>,
) -> Result<(Operations, Spot<'a>), Stop>
    requires fields { fields.now ≡ field_types }
    requires names { AreErrorNames names.old errors.now }
    ensures gives { Gives (λ x. (x.0, spot_of x.1)) result
        (found.operations_at types.now errors.now (spot_of spot.entry)) }
    ensures own { IfOk result (λ x. IsTrue (have_own_codes (λ o. o.code) x.0)) }
    ensures few { IfOk result (λ x. length x.0 < 2 ^ 32) }
{
    let (count, behind) = counted(spot)?;
    let mut spot = behind;
    let mut codes = Codes::new(alloc);
    let mut operations = Operations::new(alloc);
    for _index in 0..count {
        let next = one_operation(
            alloc,
            fields,
            types,
            errors,
            count,
            &mut operations,
            names,
            &mut codes,
            spot,
        )?;
        spot = next;
    }
    Ok((operations, spot))
}
