//! Storing tables as a table file.

ghost use Rattle.std.specs.Prelude.{◌≡◌, ◌++◌, ◌∷◌, ◌≤◌, length, OnOk, IfOk};
ghost use Rattle.std.specs.List.{flat_map};
ghost use Rattle.table_file.specs.Contents.{contents_of};
ghost use Rattle.table_file.specs.FieldTypes.{field_types};
ghost use Rattle.table_file.specs.Files.{list_file, maybe_file, truth_file, integer_file, number_file, item_file, part_file, row_file, code_file, use_file, error_file, operation_file, contents_file, table_file_of};
ghost use Rattle.table_file.specs.declared.row_parts.Version.TheVariants as versions;
ghost use Rattle.table_file.specs.Files.{kind_number as number_of_kind};
ghost use Rattle.asn1_types.specs.Rows.{class_number as number_of_class};

use crate::field_types::field_types;
use crate::putting::{put_count, put_counted, put_integer, put_number, put_oid, put_truth};
use asn1_types::{Class, Item, Part, TextKind, TypeId, TypeRow, TypeTable};
use osi_base::{NoMemory, Octets};
use std::alloc::Global;
use stub_tables::{Code, ErrorRow, Operation, Tables, Use};

fn kind_number(kind: TextKind) -> u32
    ensures { result ≡ number_of_kind kind }
{
    match kind {
        TextKind::Utf8 => 0,
        TextKind::Ia5 => 1,
        TextKind::Visible => 2,
        TextKind::Printable => 3,
        TextKind::Numeric => 4,
    }
}

fn class_number(class: Class) -> u32
    ensures { result ≡ number_of_class class }
{
    match class {
        Class::Universal => 0,
        Class::Application => 1,
        Class::Context => 2,
        Class::Private => 3,
    }
}

#[tactic(auto, unfolding(crate::specs::Files::item_file))]
fn put_item(fields: &TypeTable, item: &Item, out: &mut Octets) -> Result<(), NoMemory>
    requires { fields.now ≡ field_types }
    ensures { OnOk result (out.new ≡ out.old ++ item_file item.now) }
{
    put_counted(out, item.name.as_bytes())?;
    put_integer(fields, item.number, out)
}

/// Puts the items of an ENUMERATED.
fn put_items(fields: &TypeTable, items: &[Item], out: &mut Octets) -> Result<(), NoMemory>
    requires { fields.now ≡ field_types }
    ensures { OnOk result (out.new ≡ out.old ++ list_file item_file items.now) }
{
    put_count(out, items.len())?;
    for item in items {
        put_item(fields, item, out)?;
    }
    Ok(())
}

fn put_default(fields: &TypeTable, default: Option<i64>, out: &mut Octets) -> Result<(), NoMemory>
    requires { fields.now ≡ field_types }
    ensures { OnOk result (out.new ≡ out.old ++ maybe_file integer_file default) }
{
    match default {
        None => out.push(0),
        Some(number) => {
            out.push(1)?;
            put_integer(fields, number, out)
        }
    }
}

#[tactic(auto, unfolding(crate::specs::Files::part_file))]
fn put_part(fields: &TypeTable, part: &Part, out: &mut Octets) -> Result<(), NoMemory>
    requires { fields.now ≡ field_types }
    ensures { OnOk result (out.new ≡ out.old ++ part_file versions.Two part.now) }
{
    put_counted(out, part.name.as_bytes())?;
    put_number(fields, part.inner.0, out)?;
    put_truth(out, part.optional)?;
    put_default(fields, part.default, out)
}

/// Puts the parts of a type.
fn put_parts(fields: &TypeTable, parts: &[Part], out: &mut Octets) -> Result<(), NoMemory>
    requires { fields.now ≡ field_types }
    ensures { OnOk result (out.new ≡ out.old ++ list_file (part_file versions.Two) parts.now) }
{
    put_count(out, parts.len())?;
    for part in parts {
        put_part(fields, part, out)?;
    }
    Ok(())
}

/// Puts the number of a kind of row, and the number that it holds.
fn put_numbered(fields: &TypeTable, kind: u8, number: u32, out: &mut Octets) -> Result<(), NoMemory>
    requires { fields.now ≡ field_types }
    ensures { OnOk result (out.new ≡ out.old ++ kind ∷ number_file number) }
{
    out.push(kind)?;
    put_number(fields, number, out)
}

/// Puts the number of a kind of row, and the parts that it holds.
fn put_parted(
    fields: &TypeTable,
    kind: u8,
    parts: &[Part],
    out: &mut Octets,
) -> Result<(), NoMemory>
    requires { fields.now ≡ field_types }
    ensures { OnOk result (out.new
        ≡ out.old ++ kind ∷ list_file (part_file versions.Two) parts.now) }
{
    out.push(kind)?;
    put_parts(fields, parts, out)
}

/// Puts a row of a type.
#[tactic(auto, unfolding(crate::specs::Files::row_file))]
fn put_row(fields: &TypeTable, row: &TypeRow, out: &mut Octets) -> Result<(), NoMemory>
    requires { fields.now ≡ field_types }
    ensures { OnOk result (out.new ≡ out.old ++ row_file versions.Two row.now) }
{
    match row {
        TypeRow::Boolean => out.push(0),
        TypeRow::Integer { low, high } => {
            out.push(1)?;
            put_integer(fields, *low, out)?;
            put_integer(fields, *high, out)
        }
        TypeRow::Enumerated(items) => {
            out.push(2)?;
            put_items(fields, items.as_slice(), out)
        }
        TypeRow::Null => out.push(3),
        TypeRow::OctetString { most } => put_numbered(fields, 4, *most, out),
        TypeRow::BitString => out.push(5),
        TypeRow::ObjectId => out.push(6),
        TypeRow::Text(kind) => put_numbered(fields, 7, kind_number(*kind), out),
        TypeRow::Sequence(parts) => put_parted(fields, 8, parts.as_slice(), out),
        TypeRow::Set(parts) => put_parted(fields, 9, parts.as_slice(), out),
        TypeRow::SequenceOf(inner) => put_numbered(fields, 10, inner.0, out),
        TypeRow::Choice(parts) => put_parted(fields, 11, parts.as_slice(), out),
        TypeRow::Tagged {
            class,
            number,
            explicit,
            inner,
        } => {
            out.push(12)?;
            put_number(fields, class_number(*class), out)?;
            put_number(fields, *number, out)?;
            put_truth(out, *explicit)?;
            put_number(fields, inner.0, out)
        }
        TypeRow::SetOf(inner) => put_numbered(fields, 13, inner.0, out),
        TypeRow::Any => Ok(()),
    }
}

fn put_code(
    alloc: Global,
    fields: &TypeTable,
    code: &Code,
    out: &mut Octets,
) -> Result<(), NoMemory>
    requires { fields.now ≡ field_types }
    ensures { OnOk result (out.new ≡ out.old ++ code_file code.now) }
{
    match code {
        Code::Local(number) => {
            out.push(0)?;
            put_integer(fields, *number, out)
        }
        Code::Global(oid) => {
            out.push(1)?;
            put_oid(alloc, fields, oid, out)
        }
    }
}

/// Puts what an operation or error carries.
fn put_use(fields: &TypeTable, carried: Use, out: &mut Octets) -> Result<(), NoMemory>
    requires { fields.now ≡ field_types }
    ensures { OnOk result (out.new ≡ out.old ++ use_file carried) }
{
    match carried.inner {
        None => out.push(0)?,
        Some(of) => {
            out.push(1)?;
            put_number(fields, of.0, out)?;
        }
    }
    put_truth(out, carried.optional)
}

fn put_indices(fields: &TypeTable, indices: &[u32], out: &mut Octets) -> Result<(), NoMemory>
    requires { fields.now ≡ field_types }
    ensures { OnOk result (out.new ≡ out.old ++ list_file number_file indices.now) }
{
    put_count(out, indices.len())?;
    for index in indices {
        put_number(fields, *index, out)?;
    }
    Ok(())
}

#[tactic(auto, unfolding(crate::specs::Files::error_file))]
fn put_error(
    alloc: Global,
    fields: &TypeTable,
    error: &ErrorRow,
    out: &mut Octets,
) -> Result<(), NoMemory>
    requires { fields.now ≡ field_types }
    ensures { OnOk result (out.new ≡ out.old ++ error_file error.now) }
{
    put_counted(out, error.name.as_bytes())?;
    put_code(alloc, fields, &error.code, out)?;
    put_use(fields, error.parameter, out)
}

/// Puts what an operation returns, its errors and its linked operations.
fn put_outcome(fields: &TypeTable, operation: &Operation, out: &mut Octets) -> Result<(), NoMemory>
    requires { fields.now ≡ field_types }
    ensures { OnOk result (out.new ≡ out.old
        ++ (truth_file operation.now.returns
        ++ (truth_file operation.now.always ++ (list_file number_file operation.now.errors
        ++ list_file number_file operation.now.linked)))) }
{
    put_truth(out, operation.returns)?;
    put_truth(out, operation.always)?;
    put_indices(fields, operation.errors.as_slice(), out)?;
    put_indices(fields, operation.linked.as_slice(), out)
}

#[tactic(auto, unfolding(crate::specs::Files::operation_file))]
fn put_operation(
    alloc: Global,
    fields: &TypeTable,
    operation: &Operation,
    out: &mut Octets,
) -> Result<(), NoMemory>
    requires { fields.now ≡ field_types }
    ensures { OnOk result (out.new ≡ out.old ++ operation_file operation.now) }
{
    put_counted(out, operation.name.as_bytes())?;
    put_code(alloc, fields, &operation.code, out)?;
    put_use(fields, operation.argument, out)?;
    put_use(fields, operation.result, out)?;
    put_outcome(fields, operation, out)
}

fn put_rows(fields: &TypeTable, types: &TypeTable, out: &mut Octets) -> Result<(), NoMemory>
    requires { fields.now ≡ field_types }
    ensures { OnOk result (out.new ≡ out.old ++ list_file (row_file versions.Two) types.now) }
{
    put_count(out, types.len())?;
    for number in 0..types.len() {
        let Ok(row) = u32::try_from(number) else {
            return Err(NoMemory);
        };
        put_row(fields, types.row(TypeId(row)), out)?;
    }
    Ok(())
}

fn put_errors(
    alloc: Global,
    fields: &TypeTable,
    errors: &[ErrorRow],
    out: &mut Octets,
) -> Result<(), NoMemory>
    requires { fields.now ≡ field_types }
    ensures { OnOk result (out.new ≡ out.old ++ list_file error_file errors.now) }
{
    put_count(out, errors.len())?;
    for error in errors {
        put_error(alloc, fields, error, out)?;
    }
    Ok(())
}

fn put_operations(
    alloc: Global,
    fields: &TypeTable,
    operations: &[Operation],
    out: &mut Octets,
) -> Result<(), NoMemory>
    requires { fields.now ≡ field_types }
    ensures { OnOk result (out.new ≡ out.old ++ list_file operation_file operations.now) }
{
    put_count(out, operations.len())?;
    for operation in operations {
        put_operation(alloc, fields, operation, out)?;
    }
    Ok(())
}

/// Puts all that stands behind the version.
#[tactic(auto, unfolding(crate::specs::Files::contents_file))]
fn put_contents(
    alloc: Global,
    fields: &TypeTable,
    tables: &Tables,
    out: &mut Octets,
) -> Result<(), NoMemory>
    requires { fields.now ≡ field_types }
    ensures { OnOk result (out.new ≡ out.old ++ contents_file versions.Two
        (contents_of tables.now)) }
{
    put_counted(out, tables.name.as_bytes())?;
    put_oid(alloc, fields, &tables.name_oid, out)?;
    put_rows(fields, &tables.types, out)?;
    put_errors(alloc, fields, tables.errors.as_slice(), out)?;
    put_operations(alloc, fields, tables.operations.as_slice(), out)
}

/// The table file of tables, in version 2.
///
/// # Errors
///
/// Where memory is refused.
pub fn store(alloc: Global, tables: &Tables) -> Result<Octets, NoMemory>
    ensures { IfOk result (λ octets. octets ≡ table_file_of tables.now) }
{
    let fields = field_types(alloc)?;
    let mut out = Octets::new(alloc);
    out.extend(&[79, 84, 65, 66, 0, 2])?;
    put_contents(alloc, &fields, tables, &mut out)?;
    Ok(out)
}
