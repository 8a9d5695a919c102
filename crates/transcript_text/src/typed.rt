//! Values of operations and errors, by their types.

ghost use Rattle.std.specs.Prelude.{◌≡◌, ◌++◌, ◌∷◌, OnOk, [], List, Some, None};
ghost use Rattle.value_text.specs.Printed.{printed};
ghost use Rattle.value_text.specs.Values.{value_text};
ghost use Rattle.stub_tables.specs.Lookup.{operation_at, error_at};
ghost use Rattle.script_lines.specs.Invoked.{result_type};
ghost use Rattle.transcript_text.specs.Typed.{by_type, value_by, field_by, argument_type, parameter_type};

use asn1_types::{TypeId, TypeTable, Val};
use ber_writing::fits;
use osi_base::NoMemory;
use script_lines::result_type;
use stub_tables::Tables;
use value_text::{Text, put_typed, put_value};

/// A value by a type where it fits it, else by its form.
fn put_by_type(text: &mut Text, types: &TypeTable, of: TypeId, value: &Val) -> Result<(), NoMemory>
    ensures { OnOk result (text.new ≡ text.old ++ by_type types.now of.0 value.now) }
{
    if fits(types, of, value) {
        put_typed(text, types, of, value)
    } else {
        put_value(text, value)
    }
}

/// A value by its type, where it has one and fits it, else by its form.
fn put_value_by(
    text: &mut Text,
    types: &TypeTable,
    of: Option<TypeId>,
    value: &Val,
) -> Result<(), NoMemory>
    ensures { OnOk result (text.new ≡ text.old ++ value_by types.now of value.now) }
{
    match of {
        Some(of) => put_by_type(text, types, of, value),
        None => put_value(text, value),
    }
}

/// A value that follows other fields, or nothing.
fn put_field_by(
    text: &mut Text,
    types: &TypeTable,
    of: Option<TypeId>,
    value: &Option<Val>,
) -> Result<(), NoMemory>
    ensures { OnOk result (text.new ≡ text.old ++ field_by types.now of value.now) }
{
    match value {
        Some(value) => {
            text.put(" ")?;
            put_value_by(text, types, of, value)
        }
        None => Ok(()),
    }
}

/// The type of what the operation at this place takes.
fn argument_type(tables: &Tables, place: u32) -> Option<TypeId>
    ensures { result ≡ argument_type tables.now place }
{
    tables.operation(place)?.argument.inner
}

/// The type of what the error at this place carries.
fn parameter_type(tables: &Tables, place: u32) -> Option<TypeId>
    ensures { result ≡ parameter_type tables.now place }
{
    tables.error(place)?.parameter.inner
}

/// The argument of an operation.
pub(crate) fn put_argument(
    text: &mut Text,
    tables: &Tables,
    operation: u32,
    value: &Option<Val>,
) -> Result<(), NoMemory>
    ensures { OnOk result (text.new ≡ text.old
        ++ field_by tables.now.types (argument_type tables.now operation) value.now) }
{
    put_field_by(text, &tables.types, argument_type(tables, operation), value)
}

/// The parameter of an error.
pub(crate) fn put_parameter(
    text: &mut Text,
    tables: &Tables,
    error: u32,
    value: &Option<Val>,
) -> Result<(), NoMemory>
    ensures { OnOk result (text.new ≡ text.old
        ++ field_by tables.now.types (parameter_type tables.now error) value.now) }
{
    put_field_by(text, &tables.types, parameter_type(tables, error), value)
}

/// The result of the invocation with this identifier, among those of its end, which named these
/// operations.
pub(crate) fn put_result(
    text: &mut Text,
    tables: &Tables,
    operations: &[u32],
    id: i64,
    value: &Option<Val>,
) -> Result<(), NoMemory>
    ensures { OnOk result (text.new ≡ text.old
        ++ field_by tables.now.types (result_type tables.now operations.now id) value.now) }
{
    put_field_by(
        text,
        &tables.types,
        result_type(tables, operations, id),
        value,
    )
}
