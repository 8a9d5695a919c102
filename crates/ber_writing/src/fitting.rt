//! Which values fit which types.

ghost use Rattle.std.specs.Prelude.{◌≡◌, ◌&&◌, Some, length, slice_get};
ghost use Rattle.std.specs.List.{list_all};
ghost use Rattle.osi_base.specs.Oid.{is_oid};
ghost use Rattle.asn1_types.specs.Table.{IsRowOf};
ghost use Rattle.asn1_types.specs.ValueView.{parts_of, values_of};
ghost use Rattle.asn1_types.specs.Writing.{written};
ghost use Rattle.asn1_types.specs.Fits.{has_32_bits, boolean_fits, integer_fits, enumerated_fits, null_fits, object_id_fits, octets_fit, bits_fit, text_fits, part_fits, parts_fit, sequence_fits, values_fit, list_fits, alternative_fits, choice_fits, any_fits, is_short, fits};
ghost use Rattle.asn1_types.specs.PackedSize.{packed_size};
ghost use Rattle.ber_writing.specs.Below.{ArePartsBelow, IsRowBelow};
ghost use Rattle.ber_writing.specs.Short.{short_by, has_short_form};

use crate::length::ber_len;
use crate::order::{MOST, set_stands};
use crate::size::packed_size;
use asn1_types::{
    Item, Node, Part, Parts, TextKind, TypeId, TypeRow, TypeTable, Val, are_bits, are_octets,
    has_default_value, is_item, is_text, is_whole, may_be_absent,
};
use osi_base::are_oid;

fn integer_fits(low: i64, high: i64, value: &Val) -> bool
    ensures { result ≡ integer_fits low high value.now }
{
    match &value.node {
        Node::Int(number) => low <= *number && *number <= high,
        _ => false,
    }
}

fn boolean_fits(value: &Val) -> bool
    ensures { result ≡ boolean_fits value.now }
{
    match &value.node {
        Node::Bool(_) => true,
        _ => false,
    }
}

fn enumerated_fits(items: &[Item], value: &Val) -> bool
    ensures { result ≡ enumerated_fits items.now value.now }
{
    match &value.node {
        Node::Int(number) => is_item(items, *number),
        _ => false,
    }
}

fn null_fits(value: &Val) -> bool
    ensures { result ≡ null_fits value.now }
{
    match &value.node {
        Node::Null => true,
        _ => false,
    }
}

/// Arcs have 32 bits.
fn arcs_fit(arcs: &[u32]) -> bool
    ensures { result ≡ list_all has_32_bits arcs.now }
{
    true
}

fn object_id_fits(value: &Val) -> bool
    ensures { result ≡ object_id_fits value.now }
{
    match &value.node {
        Node::ObjectId(oid) => are_oid(oid.arcs()) && arcs_fit(oid.arcs()),
        _ => false,
    }
}

fn octets_fit(most: u32, value: &Val) -> bool
    ensures { result ≡ octets_fit most value.now }
{
    match &value.node {
        Node::Octets(octets) => are_octets(octets.as_slice()) && octets.len() <= most as usize,
        _ => false,
    }
}

fn bits_fit(value: &Val) -> bool
    ensures { result ≡ bits_fit value.now }
{
    match &value.node {
        Node::Bits { octets, unused } => {
            are_octets(octets.as_slice()) && are_bits(octets.as_slice(), *unused)
        }
        _ => false,
    }
}

fn text_fits(kind: TextKind, value: &Val) -> bool
    ensures { result ≡ text_fits kind value.now }
{
    match &value.node {
        Node::Text(octets) => { are_octets(octets.as_slice()) && is_text(kind, octets.as_slice()) }
        _ => false,
    }
}

fn any_fits(value: &Val) -> bool
    ensures { result ≡ any_fits value.now }
{
    match &value.node {
        Node::Any(octets) => is_whole(octets.as_slice()),
        _ => false,
    }
}

/// Whether a value fits a row of a table: an INTEGER in its range, an ENUMERATED among its items,
/// an OCTET STRING of at most `most` octets, a BIT STRING whose 0 to 7 unused bits are zero, a text
/// of characters of its kind, of a SEQUENCE or SET as many parts as the row has in the order of the
/// notation, each there unless it may be absent and none with its default's value, of a SET OF
/// items in rising order of their DER spellings (X.690 11.6), of a CHOICE an alternative that is
/// there, and in an `Any` one whole value (X.690 8.1). Its DER spelling and its packed one have at
/// most
/// 4,294,967,295 octets each. Nothing fits a row that is not there. It takes time linear in the
/// value, and no memory.
pub fn fits(table: &TypeTable, of: TypeId, value: &Val) -> bool
    ensures { result ≡ fits table.now of.0 value.now }
{
    if table.len() <= of.0 as usize {
        return false;
    }
    are_short(table, of, value) && has_form(table, of, value)
}

/// Whether the DER spelling of a value and its packed one have at most 4,294,967,295 octets each.
fn are_short(table: &TypeTable, of: TypeId, value: &Val) -> bool
    ensures { result ≡ (is_short (length (written table.now of.0 value.now))
        && is_short (packed_size table.now of.0 value.now)) }
{
    ber_len(table, of, value) <= MOST && packed_size(table, of, value) <= MOST
}

/// Whether a value has the form of a row, and items of a SET OF have short spellings.
#[cycle(fitting)]
fn has_form(table: &TypeTable, of: TypeId, value: &Val) -> bool
    ensures { result ≡ has_short_form table.now of.0 value.now }
{
    table.has(of) && fits_row(table, of, table.row(of), value)
}

#[cycle(fitting)]
fn fits_row(table: &TypeTable, of: TypeId, row: &TypeRow, value: &Val) -> bool
    requires row { IsRowOf table.now of.0 row.now }
    ensures { result ≡ short_by (written table.now) (has_short_form table.now) row.now value.now }
{
    match row {
        TypeRow::Boolean => boolean_fits(value),
        TypeRow::Integer { low, high } => integer_fits(*low, *high, value),
        TypeRow::Enumerated(items) => enumerated_fits(items.as_slice(), value),
        TypeRow::Null => null_fits(value),
        TypeRow::OctetString { most } => octets_fit(*most, value),
        TypeRow::BitString => bits_fit(value),
        TypeRow::ObjectId => object_id_fits(value),
        TypeRow::Text(kind) => text_fits(*kind, value),
        TypeRow::Sequence(parts) => sequence_fits(table, of, parts.as_slice(), value),
        TypeRow::Set(parts) => sequence_fits(table, of, parts.as_slice(), value),
        TypeRow::SequenceOf(inner) => list_fits(table, of, *inner, value),
        TypeRow::SetOf(inner) => {
            list_fits(table, of, *inner, value) && set_stands(table, *inner, value)
        }
        TypeRow::Choice(alternatives) => choice_fits(table, of, alternatives, value),
        TypeRow::Tagged { inner, .. } => has_form(table, *inner, value),
        TypeRow::Any => any_fits(value),
    }
}

#[cycle(fitting)]
fn list_fits(table: &TypeTable, of: TypeId, inner: TypeId, value: &Val) -> bool
    requires part { IsRowBelow inner.0 of.0 table.now }
    ensures { result ≡ list_fits (has_short_form table.now inner.0) value.now }
{
    match &value.node {
        Node::List(values) => values_fit(table, of, inner, values),
        _ => false,
    }
}

#[cycle(fitting)]
fn values_fit(table: &TypeTable, of: TypeId, inner: TypeId, values: &[Val]) -> bool
    requires part { IsRowBelow inner.0 of.0 table.now }
    ensures { result ≡ values_fit (has_short_form table.now inner.0) (values_of values.now) }
{
    for value in values {
        if !has_form(table, inner, value) {
            return false;
        }
    }
    true
}

#[cycle(fitting)]
fn sequence_fits(table: &TypeTable, of: TypeId, parts: &[Part], value: &Val) -> bool
    requires parts { ArePartsBelow parts.now of.0 table.now }
    ensures { result ≡ sequence_fits (parts_fit (has_short_form table.now) parts.now) value.now }
{
    match &value.node {
        Node::Parts(values) => parts_fit(table, of, parts, values),
        _ => false,
    }
}

#[cycle(fitting)]
fn parts_fit(table: &TypeTable, of: TypeId, parts: &[Part], values: &[Option<Val>]) -> bool
    requires parts { ArePartsBelow parts.now of.0 table.now }
    ensures { result ≡ parts_fit (has_short_form table.now) parts.now (parts_of values.now) }
{
    if parts.len() != values.len() {
        return false;
    }
    for (index, part) in parts.iter().enumerate() {
        if !part_fits(table, of, part, &values[index]) {
            return false;
        }
    }
    true
}

#[cycle(fitting)]
fn part_fits(table: &TypeTable, of: TypeId, part: &Part, value: &Option<Val>) -> bool
    requires part { IsRowBelow part.now.inner.0 of.0 table.now }
    ensures { result ≡ part_fits (has_short_form table.now) part.now value.now }
{
    match value {
        Some(value) => !has_default_value(part, value) && has_form(table, part.inner, value),
        None => may_be_absent(part),
    }
}

#[cycle(fitting)]
fn choice_fits(table: &TypeTable, of: TypeId, alternatives: &Parts, value: &Val) -> bool
    requires parts { ArePartsBelow alternatives.now of.0 table.now }
    ensures { result ≡ choice_fits (λ which. alternative_fits (has_short_form table.now)
        (slice_get alternatives.now which)) value.now }
{
    match &value.node {
        Node::Chosen { which, value } => match alternatives.get(*which as usize) {
            Some(part) => has_form(table, part.inner, value),
            None => false,
        },
        _ => false,
    }
}
