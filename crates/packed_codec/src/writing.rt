//! Writing values, row by row, into the front of a room.

ghost use Rattle.std.specs.Prelude.{◌≡◌, ◌∷◌, ◌++◌, ◌+◌, ◌≤◌, ◌<◌, length, drop};
ghost use Rattle.std.specs.List.{AllByRecursion};
ghost use Rattle.osi_base.specs.Limits.{most_alternatives};
ghost use Rattle.asn1_types.specs.Rows.{rows_of_parts};
ghost use Rattle.asn1_types.specs.Table.{IsRowOf};
ghost use Rattle.asn1_types.specs.ValueView.{parts_of, values_of};
ghost use Rattle.packed_codec.specs.Writing.{part_written, parts_written, sequence_written, values_written, list_written, choice_written, write_by, packed, IsPut};

use crate::field_writing::{
    put_bit_string, put_boolean, put_integer, put_octet_string, put_oid, put_text,
};
use crate::octets::{put_count, put_octet};
use asn1_types::{Node, Part, Parts, TypeId, TypeRow, TypeTable, Val, may_be_absent};

/// Puts a value of this row at a place of the room, and answers the place behind it. Of a value
/// that doesn't fit the row, what doesn't fit is left out.
#[cycle(writing)]
pub(crate) fn put_value(
    table: &TypeTable,
    of: TypeId,
    value: &Val,
    out: &mut [u8],
    at: usize,
) -> usize
    requires { at + length (packed table.now of.0 value.now) ≤ length out.old }
    ensures { IsPut (packed table.now of.0 value.now) at out.old out.new result }
{
    if table.has(of) {
        put_row(table, of, table.row(of), value, out, at)
    } else {
        at
    }
}

#[cycle(writing)]
fn put_row(
    table: &TypeTable,
    of: TypeId,
    row: &TypeRow,
    value: &Val,
    out: &mut [u8],
    at: usize,
) -> usize
    requires row { IsRowOf table.now of.0 row.now }
    requires room { at + length (write_by (packed table.now) row.now value.now) ≤ length out.old }
    ensures { IsPut (write_by (packed table.now) row.now value.now) at out.old out.new result }
{
    match row {
        TypeRow::Boolean => put_boolean(value, out, at),
        TypeRow::Integer { .. } => put_integer(value, out, at),
        TypeRow::Enumerated(_) => put_integer(value, out, at),
        TypeRow::OctetString { .. } => put_octet_string(value, out, at),
        TypeRow::BitString => put_bit_string(value, out, at),
        TypeRow::ObjectId => put_oid(value, out, at),
        TypeRow::Text(_) => put_text(value, out, at),
        TypeRow::Sequence(parts) => put_sequence(table, of, parts, value, out, at),
        TypeRow::Set(parts) => put_sequence(table, of, parts, value, out, at),
        TypeRow::SequenceOf(inner) => put_list(table, of, *inner, value, out, at),
        TypeRow::SetOf(inner) => put_list(table, of, *inner, value, out, at),
        TypeRow::Choice(alternatives) => put_choice(table, of, alternatives, value, out, at),
        TypeRow::Tagged { inner, .. } => put_value(table, *inner, value, out, at),
        TypeRow::Null | TypeRow::Any => at,
    }
}

#[cycle(writing)]
fn put_choice(
    table: &TypeTable,
    of: TypeId,
    alternatives: &Parts,
    value: &Val,
    out: &mut [u8],
    at: usize,
) -> usize
    requires below { AllByRecursion (λ m. m < of.0) (rows_of_parts alternatives.now) }
    requires few { length alternatives.now ≤ most_alternatives }
    requires room { at + length (choice_written (packed table.now) alternatives.now value.now)
        ≤ length out.old }
    ensures { IsPut (choice_written (packed table.now) alternatives.now value.now) at out.old
        out.new result }
{
    match &value.node {
        Node::Chosen { which, value } => match alternatives.get(*which as usize) {
            Some(part) => {
                let behind = put_octet(*which as u8, out, at);
                put_value(table, part.inner, value, out, behind)
            }
            None => at,
        },
        _ => at,
    }
}

#[cycle(writing)]
fn put_sequence(
    table: &TypeTable,
    of: TypeId,
    parts: &Parts,
    value: &Val,
    out: &mut [u8],
    at: usize,
) -> usize
    requires below { AllByRecursion (λ m. m < of.0) (rows_of_parts parts.now) }
    requires room { at + length (sequence_written (packed table.now) parts.now value.now) ≤ length
        out.old }
    ensures { IsPut (sequence_written (packed table.now) parts.now value.now) at out.old out.new
        result }
{
    match &value.node {
        Node::Parts(values) => put_parts(table, of, parts.as_slice(), values, out, at),
        _ => at,
    }
}

/// The parts in the order of the notation.
#[cycle(writing)]
fn put_parts(
    table: &TypeTable,
    of: TypeId,
    parts: &[Part],
    values: &[Option<Val>],
    out: &mut [u8],
    at: usize,
) -> usize
    requires below { AllByRecursion (λ m. m < of.0) (rows_of_parts parts.now) }
    requires room { at + length (parts_written (packed table.now) parts.now (parts_of values.now))
        ≤ length out.old }
    ensures { IsPut (parts_written (packed table.now) parts.now (parts_of values.now)) at out.old
        out.new result }
{
    let count = parts.len().min(values.len());
    let mut behind = at;
    for index in 0..count {
        behind = put_part(table, of, &parts[index], &values[index], out, behind);
    }
    behind
}

/// One part. Before one that may be absent stands whether it is there.
#[cycle(writing)]
fn put_part(
    table: &TypeTable,
    of: TypeId,
    part: &Part,
    value: &Option<Val>,
    out: &mut [u8],
    at: usize,
) -> usize
    requires below { part.now.inner.0 < of.0 }
    requires room { at + length (part_written (packed table.now) part.now value.now) ≤ length
        out.old }
    ensures { IsPut (part_written (packed table.now) part.now value.now) at out.old out.new result }
{
    match value {
        Some(value) => {
            if !may_be_absent(part) {
                return put_value(table, part.inner, value, out, at);
            }
            let behind = put_octet(1, out, at);
            put_value(table, part.inner, value, out, behind)
        }
        None => {
            if may_be_absent(part) {
                put_octet(0, out, at)
            } else {
                at
            }
        }
    }
}

#[cycle(writing)]
fn put_list(
    table: &TypeTable,
    of: TypeId,
    inner: TypeId,
    value: &Val,
    out: &mut [u8],
    at: usize,
) -> usize
    requires below { inner.0 < of.0 }
    requires room { at + length (list_written (packed table.now inner.0) value.now) ≤ length
        out.old }
    ensures { IsPut (list_written (packed table.now inner.0) value.now) at out.old out.new result }
{
    match &value.node {
        Node::List(values) => {
            let behind = put_count(values.len(), out, at);
            put_items(table, of, inner, values, out, behind)
        }
        _ => at,
    }
}

#[cycle(writing)]
fn put_items(
    table: &TypeTable,
    of: TypeId,
    inner: TypeId,
    values: &[Val],
    out: &mut [u8],
    at: usize,
) -> usize
    requires below { inner.0 < of.0 }
    requires room { at + length (values_written (packed table.now inner.0) (values_of values.now))
        ≤ length out.old }
    ensures { IsPut (values_written (packed table.now inner.0) (values_of values.now)) at out.old
        out.new result }
{
    let mut behind = at;
    for value in values {
        behind = put_value(table, inner, value, out, behind);
    }
    behind
}

/// Puts the packed spelling of a value at the front of the room, and answers how many octets it
/// has. What stands behind them is unchanged. No memory is taken. A value that fits this type, in a
/// table without `Any`, has no other spelling; the limits on octets and items are the readers', and
/// a count of more than 32 bits keeps its low ones. Of other values what doesn't fit is left out.
pub fn packed_write(table: &TypeTable, of: TypeId, value: &Val, out: &mut [u8]) -> usize
    requires { length (packed table.now of.0 value.now) ≤ length out.old }
    ensures count { result ≡ length (packed table.now of.0 value.now) }
    ensures text { out.new ≡ packed table.now of.0 value.now
        ++ drop (length (packed table.now of.0 value.now)) out.old }
{
    put_value(table, of, value, out, 0)
}
