//! Values as texts, by their types (the notation of X.680 for values).

ghost use Rattle.std.specs.Prelude.{◌≡◌, ◌++◌, ◌<◌, OnOk, IfOk, true, codes};
ghost use Rattle.std.specs.List.{AllByRecursion};
ghost use Rattle.asn1_types.specs.Rows.{rows_of_parts};
ghost use Rattle.asn1_types.specs.Table.{IsRowOf};
ghost use Rattle.asn1_types.specs.ValueView.{parts_of, values_of};
ghost use Rattle.value_text.specs.Printed.{
  item_text,
  item_name,
  comma,
  parts_text,
  slot_text,
  still_first,
  sequence_text,
  items_text,
  list_text,
  choice_text,
  text_by,
  printed,
};

use crate::text::Text;
use crate::value::put_value;
use asn1_types::{Item, Node, Part, Parts, TypeId, TypeRow, TypeTable, Val};
use osi_base::NoMemory;

/// Puts a value at the end as it is written by its type: the items of an ENUMERATED, the parts of a
/// SEQUENCE or SET and the alternatives of a CHOICE by their names, all else by its form. A value
/// that isn't of the type prints as `?`.
#[cycle(printing)]
pub fn put_typed(
    text: &mut Text,
    table: &TypeTable,
    of: TypeId,
    value: &Val,
) -> Result<(), NoMemory>
    ensures { OnOk result (text.new ≡ text.old ++ printed table.now of.0 value.now) }
{
    if table.has(of) {
        put_row(text, table, of, table.row(of), value)
    } else {
        text.put("?")
    }
}

#[cycle(printing)]
fn put_row(
    text: &mut Text,
    table: &TypeTable,
    of: TypeId,
    row: &TypeRow,
    value: &Val,
) -> Result<(), NoMemory>
    requires row { IsRowOf table.now of.0 row.now }
    ensures { OnOk result (text.new ≡ text.old ++ text_by (printed table.now) row.now value.now) }
{
    match row {
        TypeRow::Enumerated(items) => put_item(text, items.as_slice(), value),
        TypeRow::Sequence(parts) => put_sequence(text, table, of, parts, value),
        TypeRow::Set(parts) => put_sequence(text, table, of, parts, value),
        TypeRow::SequenceOf(inner) => put_list(text, table, of, *inner, value),
        TypeRow::SetOf(inner) => put_list(text, table, of, *inner, value),
        TypeRow::Choice(alternatives) => put_choice(text, table, of, alternatives, value),
        TypeRow::Tagged { inner, .. } => put_tagged(text, table, of, *inner, value),
        _ => put_value(text, value),
    }
}

/// A type with a tag of its own, which is not written.
#[cycle(printing)]
fn put_tagged(
    text: &mut Text,
    table: &TypeTable,
    of: TypeId,
    inner: TypeId,
    value: &Val,
) -> Result<(), NoMemory>
    requires below { inner.0 < of.0 }
    ensures { OnOk result (text.new ≡ text.old ++ printed table.now inner.0 value.now) }
{
    put_typed(text, table, inner, value)
}

/// The name of an item.
fn put_item(text: &mut Text, items: &[Item], value: &Val) -> Result<(), NoMemory>
    ensures { OnOk result (text.new ≡ text.old ++ item_text items.now value.now) }
{
    match &value.node {
        Node::Int(number) => put_item_name(text, items, *number),
        _ => text.put("?"),
    }
}

/// The name of the first item with this number.
fn put_item_name(text: &mut Text, items: &[Item], number: i64) -> Result<(), NoMemory>
    ensures { OnOk result (text.new ≡ text.old ++ item_name items.now number) }
{
    for item in items {
        if item.number == number {
            return text.put(item.name.as_str());
        }
    }
    Ok(())
}

#[cycle(printing)]
fn put_sequence(
    text: &mut Text,
    table: &TypeTable,
    of: TypeId,
    parts: &Parts,
    value: &Val,
) -> Result<(), NoMemory>
    requires below { AllByRecursion (λ m. m < of.0) (rows_of_parts parts.now) }
    ensures { OnOk result (text.new ≡ text.old ++ sequence_text (printed table.now) parts.now
        value.now) }
{
    match &value.node {
        Node::Parts(values) => {
            text.put("{")?;
            put_parts(text, table, of, parts.as_slice(), values)?;
            text.put("}")
        }
        _ => text.put("?"),
    }
}

/// What stands before an element: a comma, but before the first.
fn put_comma(text: &mut Text, first: bool) -> Result<(), NoMemory>
    ensures { OnOk result (text.new ≡ text.old ++ comma first) }
{
    if first { Ok(()) } else { text.put(", ") }
}

/// The parts that are there, in the order of the notation.
#[cycle(printing)]
fn put_parts(
    text: &mut Text,
    table: &TypeTable,
    of: TypeId,
    parts: &[Part],
    values: &[Option<Val>],
) -> Result<(), NoMemory>
    requires below { AllByRecursion (λ m. m < of.0) (rows_of_parts parts.now) }
    ensures { OnOk result (text.new ≡ text.old ++ parts_text (printed table.now) true parts.now
        (parts_of values.now)) }
{
    let count = parts.len().min(values.len());
    let mut first = true;
    for index in 0..count {
        first = put_slot(text, table, of, &parts[index], &values[index], first)?;
    }
    Ok(())
}

/// A part if it is there, and whether what comes next is still the first.
#[cycle(printing)]
fn put_slot(
    text: &mut Text,
    table: &TypeTable,
    of: TypeId,
    part: &Part,
    value: &Option<Val>,
    first: bool,
) -> Result<bool, NoMemory>
    requires below { part.now.inner.0 < of.0 }
    ensures text { OnOk result (text.new ≡ text.old ++ slot_text (printed table.now) first part.now
        value.now) }
    ensures first { IfOk result (λ after. after ≡ still_first first value.now) }
{
    let Some(value) = value else {
        return Ok(first);
    };
    put_comma(text, first)?;
    put_part(text, table, of, part, value)?;
    Ok(false)
}

/// A part, with its name before it.
#[cycle(printing)]
fn put_part(
    text: &mut Text,
    table: &TypeTable,
    of: TypeId,
    part: &Part,
    value: &Val,
) -> Result<(), NoMemory>
    requires below { part.now.inner.0 < of.0 }
    ensures { OnOk result (text.new ≡ text.old ++ (part.now.name
        ++ (codes " " ++ printed table.now part.now.inner.0 value.now))) }
{
    text.put(part.name.as_str())?;
    text.put(" ")?;
    put_typed(text, table, part.inner, value)
}

#[cycle(printing)]
fn put_list(
    text: &mut Text,
    table: &TypeTable,
    of: TypeId,
    inner: TypeId,
    value: &Val,
) -> Result<(), NoMemory>
    requires below { inner.0 < of.0 }
    ensures { OnOk result (text.new ≡ text.old ++ list_text (printed table.now inner.0) value.now) }
{
    match &value.node {
        Node::List(values) => {
            text.put("{")?;
            put_items(text, table, of, inner, values)?;
            text.put("}")
        }
        _ => text.put("?"),
    }
}

/// The items of a list, in their order.
#[cycle(printing)]
fn put_items(
    text: &mut Text,
    table: &TypeTable,
    of: TypeId,
    inner: TypeId,
    values: &[Val],
) -> Result<(), NoMemory>
    requires below { inner.0 < of.0 }
    ensures { OnOk result (text.new ≡ text.old ++ items_text (printed table.now inner.0) true
        (values_of values.now)) }
{
    let mut first = true;
    for value in values {
        put_comma(text, first)?;
        put_typed(text, table, inner, value)?;
        first = false;
    }
    Ok(())
}

/// An alternative, with its name before it.
#[cycle(printing)]
fn put_choice(
    text: &mut Text,
    table: &TypeTable,
    of: TypeId,
    alternatives: &Parts,
    value: &Val,
) -> Result<(), NoMemory>
    requires below { AllByRecursion (λ m. m < of.0) (rows_of_parts alternatives.now) }
    ensures { OnOk result (text.new ≡ text.old ++ choice_text (printed table.now) alternatives.now
        value.now) }
{
    match &value.node {
        Node::Chosen { which, value } => match alternatives.get(*which as usize) {
            Some(part) => {
                text.put(part.name.as_str())?;
                text.put(" : ")?;
                put_typed(text, table, part.inner, value)
            }
            None => text.put("?"),
        },
        _ => text.put("?"),
    }
}
