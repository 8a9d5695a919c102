//! How many octets the packed spelling of a value has, whether or not the value fits; `packed_size`
//! of `ber_writing` counts by a rule of its own, and a law of `packed_laws` tells that the two are
//! one for values that fit. Counts stand still at their type's end.

ghost use Rattle.std.specs.Prelude.{◌≡◌, ◌≤◌, ◌<◌, ◌+◌, min, length};
ghost use Rattle.std.specs.List.{AllByRecursion, flat_map};
ghost use Rattle.osi_base.specs.Limits.{last_count};
ghost use Rattle.asn1_types.specs.Rows.{rows_of_parts};
ghost use Rattle.asn1_types.specs.Table.{IsRowOf};
ghost use Rattle.asn1_types.specs.ValueView.{parts_of, values_of};
ghost use Rattle.packed_codec.specs.Numbers.{integer_octets};
ghost use Rattle.packed_codec.specs.ObjectIds.{base_128, arcs_octets};
ghost use Rattle.packed_codec.specs.Writing.{boolean_written, number_written, octets_written, text_written, object_id_written, bits_written, part_written, parts_written, sequence_written, values_written, list_written, choice_written, write_by, packed};

use crate::octets::{digits_128, unpadded, without_zeros};
use asn1_types::{Node, Part, Parts, TypeId, TypeRow, TypeTable, Val, may_be_absent};

fn of_boolean(value: &Val) -> u64
    ensures { result ≡ min (length (boolean_written value.now)) last_count }
{
    match &value.node {
        Node::Bool(_) => 1,
        _ => 0,
    }
}

/// The length of the contents of an INTEGER or ENUMERATED.
#[tactic(auto, unfolding(crate::specs::Numbers::integer_octets))]
pub fn integer_len(number: i64) -> u64
    ensures length { result ≡ length (integer_octets number) }
    ensures few { result ≤ 8 }
{
    unpadded(&number.to_be_bytes()).len() as u64
}

/// Of an INTEGER or ENUMERATED.
fn of_integer(value: &Val) -> u64
    ensures { result ≡ min (length (number_written value.now)) last_count }
{
    match &value.node {
        Node::Int(number) => 1 + integer_len(*number),
        _ => 0,
    }
}

fn of_octet_string(value: &Val) -> u64
    ensures { result ≡ min (length (octets_written value.now)) last_count }
{
    match &value.node {
        Node::Octets(octets) => (octets.len() as u64).saturating_add(4),
        _ => 0,
    }
}

fn of_text(value: &Val) -> u64
    ensures { result ≡ min (length (text_written value.now)) last_count }
{
    match &value.node {
        Node::Text(octets) => (octets.len() as u64).saturating_add(4),
        _ => 0,
    }
}

fn of_bit_string(value: &Val) -> u64
    ensures { result ≡ min (length (bits_written value.now)) last_count }
{
    match &value.node {
        Node::Bits { octets, .. } => (octets.len() as u64).saturating_add(5),
        _ => 0,
    }
}

/// Of a subidentifier.
#[tactic(auto, unfolding(crate::specs::ObjectIds::base_128))]
fn of_base_128(number: u64) -> u64
    ensures value { result ≡ length (base_128 number) }
    ensures few { result ≤ 5 }
{
    without_zeros(&digits_128(number)).len() as u64
}

fn of_each(numbers: &[u32]) -> u64
    ensures { result ≡ min (length (flat_map base_128 numbers.now)) last_count }
{
    let mut size: u64 = 0;
    for number in numbers {
        size = size.saturating_add(of_base_128(*number as u64));
    }
    size
}

/// The length of an OBJECT IDENTIFIER's arcs, of which the first two are one subidentifier.
#[tactic(auto, unfolding(crate::specs::ObjectIds::arcs_octets))]
pub fn arcs_len(arcs: &[u32]) -> u64
    ensures { result ≡ min (length (arcs_octets arcs.now)) last_count }
{
    match arcs {
        [] => 0,
        [root] => of_base_128(*root as u64),
        [root, second, more @ ..] => {
            of_each(more).saturating_add(of_base_128(40 * *root as u64 + *second as u64))
        }
    }
}

fn of_object_id(value: &Val) -> u64
    ensures { result ≡ min (length (object_id_written value.now)) last_count }
{
    match &value.node {
        Node::ObjectId(oid) => arcs_len(oid.arcs()).saturating_add(4),
        _ => 0,
    }
}

/// How many octets the packed spelling of a value has, or the last number of 64 bits where there
/// are more. No memory is taken.
#[cycle(measuring)]
pub fn packed_len(table: &TypeTable, of: TypeId, value: &Val) -> u64
    ensures { result ≡ min (length (packed table.now of.0 value.now)) last_count }
{
    if table.has(of) {
        of_row(table, of, table.row(of), value)
    } else {
        0
    }
}

#[cycle(measuring)]
fn of_row(table: &TypeTable, of: TypeId, row: &TypeRow, value: &Val) -> u64
    requires row { IsRowOf table.now of.0 row.now }
    ensures { result ≡ min (length (write_by (packed table.now) row.now value.now)) last_count }
{
    match row {
        TypeRow::Boolean => of_boolean(value),
        TypeRow::Integer { .. } => of_integer(value),
        TypeRow::Enumerated(_) => of_integer(value),
        TypeRow::OctetString { .. } => of_octet_string(value),
        TypeRow::BitString => of_bit_string(value),
        TypeRow::ObjectId => of_object_id(value),
        TypeRow::Text(_) => of_text(value),
        TypeRow::Sequence(parts) => of_sequence(table, of, parts, value),
        TypeRow::Set(parts) => of_sequence(table, of, parts, value),
        TypeRow::SequenceOf(inner) => of_list(table, of, *inner, value),
        TypeRow::SetOf(inner) => of_list(table, of, *inner, value),
        TypeRow::Choice(alternatives) => of_choice(table, of, alternatives, value),
        TypeRow::Tagged { inner, .. } => packed_len(table, *inner, value),
        TypeRow::Null | TypeRow::Any => 0,
    }
}

#[cycle(measuring)]
fn of_choice(table: &TypeTable, of: TypeId, alternatives: &Parts, value: &Val) -> u64
    requires below { AllByRecursion (λ m. m < of.0) (rows_of_parts alternatives.now) }
    ensures { result ≡ min (length (choice_written (packed table.now) alternatives.now value.now))
        last_count }
{
    match &value.node {
        Node::Chosen { which, value } => match alternatives.get(*which as usize) {
            Some(part) => packed_len(table, part.inner, value).saturating_add(1),
            None => 0,
        },
        _ => 0,
    }
}

#[cycle(measuring)]
fn of_sequence(table: &TypeTable, of: TypeId, parts: &Parts, value: &Val) -> u64
    requires below { AllByRecursion (λ m. m < of.0) (rows_of_parts parts.now) }
    ensures { result ≡ min (length (sequence_written (packed table.now) parts.now value.now))
        last_count }
{
    match &value.node {
        Node::Parts(values) => of_parts(table, of, parts.as_slice(), values),
        _ => 0,
    }
}

#[cycle(measuring)]
fn of_parts(table: &TypeTable, of: TypeId, parts: &[Part], values: &[Option<Val>]) -> u64
    requires below { AllByRecursion (λ m. m < of.0) (rows_of_parts parts.now) }
    ensures { result ≡ min (length (parts_written (packed table.now) parts.now
        (parts_of values.now))) last_count }
{
    let count = parts.len().min(values.len());
    let mut size: u64 = 0;
    for index in 0..count {
        size = size.saturating_add(of_part(table, of, &parts[index], &values[index]));
    }
    size
}

#[cycle(measuring)]
fn of_part(table: &TypeTable, of: TypeId, part: &Part, value: &Option<Val>) -> u64
    requires below { part.now.inner.0 < of.0 }
    ensures { result ≡ min (length (part_written (packed table.now) part.now value.now))
        last_count }
{
    let mark = if may_be_absent(part) { 1 } else { 0 };
    match value {
        Some(value) => packed_len(table, part.inner, value).saturating_add(mark),
        None => mark,
    }
}

#[cycle(measuring)]
fn of_list(table: &TypeTable, of: TypeId, inner: TypeId, value: &Val) -> u64
    requires below { inner.0 < of.0 }
    ensures { result ≡ min (length (list_written (packed table.now inner.0) value.now)) last_count }
{
    match &value.node {
        Node::List(values) => of_items(table, of, inner, values).saturating_add(4),
        _ => 0,
    }
}

#[cycle(measuring)]
fn of_items(table: &TypeTable, of: TypeId, inner: TypeId, values: &[Val]) -> u64
    requires below { inner.0 < of.0 }
    ensures { result ≡ min (length (values_written (packed table.now inner.0)
        (values_of values.now))) last_count }
{
    let mut size: u64 = 0;
    for value in values {
        size = size.saturating_add(packed_len(table, inner, value));
    }
    size
}
