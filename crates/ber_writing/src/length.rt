//! The lengths of DER spellings. A length past 64 bits stands still at their end.

ghost use Rattle.std.specs.Prelude.{◌≡◌, ◌+◌, ◌-◌, ◌<◌, ◌≤◌, ◌^◌, [], Some, None, false, true, length, min, slice_get};
ghost use Rattle.std.specs.List.{AllByRecursion, flat_map};
ghost use Rattle.asn1_types.specs.Rows.{rows_of_parts};
ghost use Rattle.asn1_types.specs.Table.{IsRowOf};
ghost use Rattle.asn1_types.specs.ValueView.{parts_of, values_of};
ghost use Rattle.asn1_types.specs.Writing.{saturated, base_128, base_256, natural_octets, integer_octets, identifier, length_octets, definite, boolean_contents, integer_contents, octets_contents, text_contents, bits_contents, object_id_contents, values_contents, list_contents, part_contents, parts_contents, sequence_contents, alternative_written, choice_written, any_written, under, write_by, writes, written, subidentifiers};

use asn1_types::{Class, Node, Part, Parts, TypeId, TypeRow, TypeTable, Val, text_number};
use ber_spelling::{Tag, tag_or};

/// The length of a number in base 128.
pub(crate) fn base_128_len(number: u64) -> u64
    ensures { result ≡ length (base_128 number) }
{
    let mut count = 1;
    let mut high = number / 128;
    while high > 0 {
        count += 1;
        high /= 128;
    }
    count
}

/// The length of a number in as few octets as hold it.
fn base_256_len(number: u64) -> u64
    ensures { result ≡ length (base_256 number) }
{
    let mut count = 0;
    let mut high = number;
    while high > 0 {
        count += 1;
        high /= 256;
    }
    count
}

/// The length of a number from 0 on, in as few octets as hold it with bit 8 of the first clear.
fn natural_len(number: u64) -> u64
    ensures length { result ≡ length (natural_octets number number []) }
    ensures few { result ≤ 9 }
{
    let mut count = 1;
    let mut high = number;
    while high >= 128 {
        count += 1;
        high /= 256;
    }
    count
}

/// The length of an INTEGER's contents (X.690 8.3).
#[tactic(auto, unfolding(asn1_types::specs::Writing::integer_octets))]
pub fn integer_len(number: i64) -> u64
    ensures length { result ≡ length (integer_octets number) }
    ensures few { result ≤ 9 }
{
    if number < 0 {
        natural_len((-1 - number) as u64)
    } else {
        natural_len(number as u64)
    }
}

pub(crate) fn identifier_len(tag: Tag) -> u64
    ensures length { result ≡ length (identifier tag.class false tag.number) }
    ensures few { result ≤ 6 }
{
    if tag.number < 31 {
        return 1;
    }
    1 + base_128_len(tag.number as u64)
}

pub(crate) fn length_len(count: u64) -> u64
    ensures length { result ≡ length (length_octets count) }
    ensures few { result ≤ 9 }
{
    if count < 128 {
        return 1;
    }
    1 + base_256_len(count)
}

/// The length of a spelling under this tag whose contents have this length.
pub fn definite_len(tag: Tag, count: u64) -> u64
    ensures { result ≡ saturated (length (identifier tag.class false tag.number)
        + (length (length_octets count) + count)) }
{
    let head = identifier_len(tag) + length_len(count);
    count.saturating_add(head)
}

fn integer_value_len(tag: Tag, value: &Val) -> u64
    ensures { result ≡ saturated (length (definite false tag (integer_contents value.now))) }
{
    let count = match &value.node {
        Node::Int(number) => integer_len(*number),
        _ => 0,
    };
    definite_len(tag, count)
}

fn boolean_len(tag: Tag, value: &Val) -> u64
    ensures { result ≡ saturated (length (definite false tag (boolean_contents value.now))) }
{
    let count = match &value.node {
        Node::Bool(_) => 1,
        _ => 0,
    };
    definite_len(tag, count)
}

fn octets_len(tag: Tag, value: &Val) -> u64
    ensures { result ≡ saturated (length (definite false tag (octets_contents value.now))) }
{
    let count = match &value.node {
        Node::Octets(octets) => octets.len() as u64,
        _ => 0,
    };
    definite_len(tag, count)
}

fn text_len(tag: Tag, value: &Val) -> u64
    ensures { result ≡ saturated (length (definite false tag (text_contents value.now))) }
{
    let count = match &value.node {
        Node::Text(octets) => octets.len() as u64,
        _ => 0,
    };
    definite_len(tag, count)
}

fn bits_len(tag: Tag, value: &Val) -> u64
    ensures { result ≡ saturated (length (definite false tag (bits_contents value.now))) }
{
    let count = match &value.node {
        Node::Bits { octets, .. } => (octets.len() as u64).saturating_add(1),
        _ => 0,
    };
    definite_len(tag, count)
}

/// The length of an OBJECT IDENTIFIER's arcs (X.690 8.19), of which the first two are one
/// subidentifier.
pub fn arcs_len(arcs: &[u32]) -> u64
    ensures { result ≡ saturated (length (flat_map base_128 (subidentifiers arcs.now))) }
{
    match arcs {
        [] => 0,
        [root] => base_128_len(*root as u64),
        [root, second, more @ ..] => {
            let first = base_128_len(40 * *root as u64 + *second as u64);
            each_len(more).saturating_add(first)
        }
    }
}

fn each_len(numbers: &[u32]) -> u64
    ensures { result ≡ saturated (length (flat_map base_128 numbers.now)) }
{
    let mut count: u64 = 0;
    let mut index = numbers.len();
    while index > 0 {
        index -= 1;
        count = count.saturating_add(base_128_len(numbers[index] as u64));
    }
    count
}

fn object_id_len(tag: Tag, value: &Val) -> u64
    ensures { result ≡ saturated (length (definite false tag (object_id_contents value.now))) }
{
    let count = match &value.node {
        Node::ObjectId(oid) => arcs_len(oid.arcs()),
        _ => 0,
    };
    definite_len(tag, count)
}

fn any_len(tag: Option<Tag>, value: &Val) -> u64
    ensures { result ≡ saturated (length (under any_written tag value.now)) }
{
    let count = match &value.node {
        Node::Any(octets) => octets.len() as u64,
        _ => 0,
    };
    match tag {
        None => count,
        Some(tag) => definite_len(tag, count),
    }
}

/// The length of what is written of a value of this row, under another tag if one is given.
#[cycle(measuring)]
pub(crate) fn value_len(table: &TypeTable, of: TypeId, tag: Option<Tag>, value: &Val) -> u64
    ensures { result ≡ saturated (length (writes table.now of.0 tag value.now)) }
{
    if table.has(of) {
        row_len(table, of, table.row(of), tag, value)
    } else {
        0
    }
}

#[cycle(measuring)]
fn row_len(table: &TypeTable, of: TypeId, row: &TypeRow, tag: Option<Tag>, value: &Val) -> u64
    requires row { IsRowOf table.now of.0 row.now }
    ensures { result ≡ saturated (length (write_by (writes table.now) row.now tag value.now)) }
{
    match row {
        TypeRow::Boolean => boolean_len(tag_or(tag, Class::Universal, 1), value),
        TypeRow::Integer { .. } => integer_value_len(tag_or(tag, Class::Universal, 2), value),
        TypeRow::Enumerated(_) => integer_value_len(tag_or(tag, Class::Universal, 10), value),
        TypeRow::OctetString { .. } => octets_len(tag_or(tag, Class::Universal, 4), value),
        TypeRow::BitString => bits_len(tag_or(tag, Class::Universal, 3), value),
        TypeRow::Text(kind) => text_len(tag_or(tag, Class::Universal, text_number(*kind)), value),
        TypeRow::SequenceOf(inner) => {
            let tag = tag_or(tag, Class::Universal, 16);
            list_len(table, of, *inner, tag, value)
        }
        TypeRow::SetOf(inner) => {
            let tag = tag_or(tag, Class::Universal, 17);
            list_len(table, of, *inner, tag, value)
        }
        TypeRow::Null => definite_len(tag_or(tag, Class::Universal, 5), 0),
        TypeRow::ObjectId => object_id_len(tag_or(tag, Class::Universal, 6), value),
        TypeRow::Sequence(parts) => {
            let tag = tag_or(tag, Class::Universal, 16);
            sequence_len(table, of, parts.as_slice(), tag, value)
        }
        TypeRow::Choice(alternatives) => choice_len(table, of, alternatives, tag, value),
        TypeRow::Tagged {
            class,
            number,
            explicit,
            inner,
        } => {
            let tag = tag_or(tag, *class, *number);
            if *explicit {
                explicit_len(table, of, *inner, tag, value)
            } else {
                value_len(table, *inner, Some(tag), value)
            }
        }
        TypeRow::Any => any_len(tag, value),
        TypeRow::Set(parts) => {
            let tag = tag_or(tag, Class::Universal, 17);
            sequence_len(table, of, parts.as_slice(), tag, value)
        }
    }
}

#[cycle(measuring)]
fn list_len(table: &TypeTable, of: TypeId, inner: TypeId, tag: Tag, value: &Val) -> u64
    requires below { inner.0 < of.0 }
    ensures { result ≡ saturated (length
        (definite true tag (list_contents (writes table.now inner.0) value.now))) }
{
    let count = match &value.node {
        Node::List(values) => values_len(table, of, inner, values),
        _ => 0,
    };
    definite_len(tag, count)
}

#[cycle(measuring)]
pub(crate) fn values_len(table: &TypeTable, of: TypeId, inner: TypeId, values: &[Val]) -> u64
    requires below { inner.0 < of.0 }
    ensures { result ≡ saturated (length
        (values_contents (writes table.now inner.0) (values_of values.now))) }
{
    let mut count: u64 = 0;
    let mut index = values.len();
    while index > 0 {
        index -= 1;
        count = count.saturating_add(value_len(table, inner, None, &values[index]));
    }
    count
}

#[cycle(measuring)]
fn explicit_len(table: &TypeTable, of: TypeId, inner: TypeId, tag: Tag, value: &Val) -> u64
    requires below { inner.0 < of.0 }
    ensures { result ≡ saturated (length
        (definite true tag (writes table.now inner.0 None value.now))) }
{
    let count = value_len(table, inner, None, value);
    definite_len(tag, count)
}

#[cycle(measuring)]
fn choice_len(
    table: &TypeTable,
    of: TypeId,
    alternatives: &Parts,
    tag: Option<Tag>,
    value: &Val,
) -> u64
    requires below { AllByRecursion (λ m. m < of.0) (rows_of_parts alternatives.now) }
    ensures { result ≡ saturated (length
        (under (choice_written (λ which. alternative_written (writes table.now)
        (slice_get alternatives.now which))) tag value.now)) }
{
    let count = alternative_len(table, of, alternatives, value);
    match tag {
        None => count,
        Some(tag) => definite_len(tag, count),
    }
}

#[cycle(measuring)]
pub(crate) fn alternative_len(
    table: &TypeTable,
    of: TypeId,
    alternatives: &Parts,
    value: &Val,
) -> u64
    requires below { AllByRecursion (λ m. m < of.0) (rows_of_parts alternatives.now) }
    ensures { result ≡ saturated (length
        (choice_written (λ which. alternative_written (writes table.now)
        (slice_get alternatives.now which)) value.now)) }
{
    match &value.node {
        Node::Chosen { which, value } => match alternatives.get(*which as usize) {
            Some(part) => value_len(table, part.inner, None, value),
            None => 0,
        },
        _ => 0,
    }
}

#[cycle(measuring)]
fn sequence_len(table: &TypeTable, of: TypeId, parts: &[Part], tag: Tag, value: &Val) -> u64
    requires below { AllByRecursion (λ m. m < of.0) (rows_of_parts parts.now) }
    ensures { result ≡ saturated (length
        (definite true tag (sequence_contents (parts_contents (writes table.now) parts.now)
        value.now))) }
{
    let count = match &value.node {
        Node::Parts(values) => parts_len(table, of, parts, values),
        _ => 0,
    };
    definite_len(tag, count)
}

#[cycle(measuring)]
pub(crate) fn parts_len(
    table: &TypeTable,
    of: TypeId,
    parts: &[Part],
    values: &[Option<Val>],
) -> u64
    requires below { AllByRecursion (λ m. m < of.0) (rows_of_parts parts.now) }
    ensures { result ≡ saturated (length
        (parts_contents (writes table.now) parts.now (parts_of values.now))) }
{
    let mut count: u64 = 0;
    let mut index = parts.len().min(values.len());
    while index > 0 {
        index -= 1;
        count = count.saturating_add(part_len(table, of, &parts[index], &values[index]));
    }
    count
}

#[cycle(measuring)]
pub(crate) fn part_len(table: &TypeTable, of: TypeId, part: &Part, value: &Option<Val>) -> u64
    requires below { part.now.inner.0 < of.0 }
    ensures { result ≡ saturated (length (part_contents (writes table.now) part.now value.now)) }
{
    match value {
        Some(value) => value_len(table, part.inner, None, value),
        None => 0,
    }
}

/// The length of the DER spelling of a value, as `ber_write` writes it. One of 2 ^ 64 or more
/// octets gives 2 ^ 64 - 1.
#[tactic(auto, unfolding(asn1_types::specs::Writing::written))]
pub fn ber_len(table: &TypeTable, of: TypeId, value: &Val) -> u64
    ensures { result ≡ min (length (written table.now of.0 value.now)) (2 ^ 64 - 1) }
{
    value_len(table, of, None, value)
}
