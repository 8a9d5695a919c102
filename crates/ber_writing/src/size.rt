//! How many octets values have in the packed syntax, counted by the rule `packed_size`, by which
//! `fits` asks below the packed syntax itself; `packed_len` of `packed_codec` tells how many octets
//! are written, and a law of `packed_laws` that the two are one for values that fit. A length past
//! 64 bits stands still at their end.

ghost use Rattle.std.specs.Prelude.{◌≡◌, ◌<◌, ◌+◌, Some, slice_get};
ghost use Rattle.std.specs.List.{AllByRecursion};
ghost use Rattle.asn1_types.specs.Rows.{rows_of_parts};
ghost use Rattle.asn1_types.specs.Table.{IsRowOf};
ghost use Rattle.asn1_types.specs.ValueView.{parts_of, values_of};
ghost use Rattle.asn1_types.specs.Writing.{saturated};
ghost use Rattle.asn1_types.specs.PackedSize.{count_size, boolean_size, number_size, octets_size, text_size, bits_size, object_id_size, part_size, parts_size, sequence_size, values_size, list_size, alternative_size, choice_size, size_by, packed_size};

use crate::length::{arcs_len, integer_len};
use asn1_types::{Node, Part, Parts, TypeId, TypeRow, TypeTable, Val, may_be_absent};

fn boolean_size(value: &Val) -> u64
    ensures { result ≡ boolean_size value.now }
{
    match &value.node {
        Node::Bool(_) => 1,
        _ => 0,
    }
}

fn number_size(value: &Val) -> u64
    ensures { result ≡ number_size value.now }
{
    match &value.node {
        Node::Int(number) => integer_len(*number) + 1,
        _ => 0,
    }
}

/// A count of four octets, and as many octets.
fn counted_size(count: u64) -> u64
    ensures { result ≡ saturated (count_size + count) }
{
    count.saturating_add(4)
}

fn octets_size(value: &Val) -> u64
    ensures { result ≡ saturated (octets_size value.now) }
{
    match &value.node {
        Node::Octets(octets) => counted_size(octets.len() as u64),
        _ => 0,
    }
}

fn text_size(value: &Val) -> u64
    ensures { result ≡ saturated (text_size value.now) }
{
    match &value.node {
        Node::Text(octets) => counted_size(octets.len() as u64),
        _ => 0,
    }
}

fn bits_size(value: &Val) -> u64
    ensures { result ≡ saturated (bits_size value.now) }
{
    match &value.node {
        Node::Bits { octets, .. } => counted_size(octets.len() as u64).saturating_add(1),
        _ => 0,
    }
}

fn object_id_size(value: &Val) -> u64
    ensures { result ≡ saturated (object_id_size value.now) }
{
    match &value.node {
        Node::ObjectId(oid) => counted_size(arcs_len(oid.arcs())),
        _ => 0,
    }
}

/// How many octets the packed spelling of a value of this row has; an `Any` has none. No memory is
/// taken.
#[cycle(sizing)]
pub fn packed_size(table: &TypeTable, of: TypeId, value: &Val) -> u64
    ensures { result ≡ saturated (packed_size table.now of.0 value.now) }
{
    if table.has(of) {
        row_size(table, of, table.row(of), value)
    } else {
        0
    }
}

#[cycle(sizing)]
fn row_size(table: &TypeTable, of: TypeId, row: &TypeRow, value: &Val) -> u64
    requires row { IsRowOf table.now of.0 row.now }
    ensures { result ≡ saturated (size_by (packed_size table.now) row.now value.now) }
{
    match row {
        TypeRow::Boolean => boolean_size(value),
        TypeRow::Integer { .. } | TypeRow::Enumerated(_) => number_size(value),
        TypeRow::OctetString { .. } => octets_size(value),
        TypeRow::BitString => bits_size(value),
        TypeRow::ObjectId => object_id_size(value),
        TypeRow::Text(_) => text_size(value),
        TypeRow::Sequence(parts) => sequence_size(table, of, parts, value),
        TypeRow::Set(parts) => sequence_size(table, of, parts, value),
        TypeRow::SequenceOf(inner) => list_size(table, of, *inner, value),
        TypeRow::SetOf(inner) => list_size(table, of, *inner, value),
        TypeRow::Choice(alternatives) => choice_size(table, of, alternatives, value),
        TypeRow::Tagged { inner, .. } => packed_size(table, *inner, value),
        TypeRow::Null | TypeRow::Any => 0,
    }
}

#[cycle(sizing)]
fn choice_size(table: &TypeTable, of: TypeId, alternatives: &Parts, value: &Val) -> u64
    requires below { AllByRecursion (λ m. m < of.0) (rows_of_parts alternatives.now) }
    ensures { result ≡ saturated (choice_size (λ which.
        alternative_size (packed_size table.now) (slice_get alternatives.now which)) value.now) }
{
    match &value.node {
        Node::Chosen { which, value } => match alternatives.get(*which as usize) {
            Some(part) => packed_size(table, part.inner, value).saturating_add(1),
            None => 0,
        },
        _ => 0,
    }
}

#[cycle(sizing)]
fn sequence_size(table: &TypeTable, of: TypeId, parts: &Parts, value: &Val) -> u64
    requires below { AllByRecursion (λ m. m < of.0) (rows_of_parts parts.now) }
    ensures { result
        ≡ saturated (sequence_size (parts_size (packed_size table.now) parts.now) value.now) }
{
    match &value.node {
        Node::Parts(values) => each_size(table, of, parts.as_slice(), values),
        _ => 0,
    }
}

#[cycle(sizing)]
fn each_size(table: &TypeTable, of: TypeId, parts: &[Part], values: &[Option<Val>]) -> u64
    requires below { AllByRecursion (λ m. m < of.0) (rows_of_parts parts.now) }
    ensures { result
        ≡ saturated (parts_size (packed_size table.now) parts.now (parts_of values.now)) }
{
    let mut size: u64 = 0;
    let mut index = parts.len().min(values.len());
    while index > 0 {
        index -= 1;
        size = size.saturating_add(part_size(table, of, &parts[index], &values[index]));
    }
    size
}

#[cycle(sizing)]
fn part_size(table: &TypeTable, of: TypeId, part: &Part, value: &Option<Val>) -> u64
    requires below { part.now.inner.0 < of.0 }
    ensures { result ≡ saturated (part_size (packed_size table.now) part.now value.now) }
{
    let mark = if may_be_absent(part) { 1 } else { 0 };
    match value {
        Some(value) => packed_size(table, part.inner, value).saturating_add(mark),
        None => mark,
    }
}

#[cycle(sizing)]
fn list_size(table: &TypeTable, of: TypeId, inner: TypeId, value: &Val) -> u64
    requires below { inner.0 < of.0 }
    ensures { result ≡ saturated (list_size (packed_size table.now inner.0) value.now) }
{
    match &value.node {
        Node::List(values) => counted_size(items_size(table, of, inner, values)),
        _ => 0,
    }
}

#[cycle(sizing)]
fn items_size(table: &TypeTable, of: TypeId, inner: TypeId, values: &[Val]) -> u64
    requires below { inner.0 < of.0 }
    ensures { result
        ≡ saturated (values_size (packed_size table.now inner.0) (values_of values.now)) }
{
    let mut size: u64 = 0;
    let mut index = values.len();
    while index > 0 {
        index -= 1;
        size = size.saturating_add(packed_size(table, inner, &values[index]));
    }
    size
}
