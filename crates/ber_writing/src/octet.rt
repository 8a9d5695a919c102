//! The octets of DER spellings by their places. Behind the end of a spelling they count as 0.

ghost use Rattle.std.specs.Prelude.{◌≡◌, [], ℕ, ◌++◌, ◌∷◌, ◌-◌, ◌^◌, ◌<◌, ◌≤◌, List, Some, None, false, true, length, slice_get, slice_index, drop, map, MatchResult};
ghost use Rattle.std.specs.List.{AllByRecursion, flat_map};
ghost use Rattle.osi_base.specs.Limits.{most_spelled};
ghost use Rattle.asn1_types.specs.Rows.{rows_of_parts};
ghost use Rattle.asn1_types.specs.Table.{IsRowOf};
ghost use Rattle.asn1_types.specs.ValueView.{parts_of, values_of};
ghost use Rattle.asn1_types.specs.Writing.{base_128, integer_octets, subidentifiers, identifier, length_octets, definite, boolean_contents, integer_contents, octets_contents, text_contents, bits_contents, object_id_contents, values_contents, list_contents, part_contents, parts_contents, sequence_contents, set_parts, of_rank, alternative_written, choice_written, any_written, under, write_by, writes};
ghost use Rattle.ber_writing.specs.Below.{ArePartsBelow, IsRowBelow};

use crate::fields::{put_base_128, put_head, put_integer};
use crate::length::{
    alternative_len, arcs_len, base_128_len, identifier_len, integer_len, length_len, part_len,
    parts_len, value_len, values_len,
};
use crate::writing::next_rank;
use asn1_types::{Class, Node, Part, Parts, TypeId, TypeRow, TypeTable, Val, text_number};
use ber_spelling::{RANKS, Tag, rank_of, tag_or};

fn octet_in(octets: &[u8], at: u64) -> u8
    ensures { result ≡ slice_index octets.now at }
{
    match octets.get(at as usize) {
        Some(octet) => *octet,
        None => 0,
    }
}

/// The octet at a place of identifier and length of contents of `count` octets, or else the place
/// in the contents.
fn head_or_place(tag: Tag, constructed: bool, count: u64, at: u64) -> Result<u8, u64>
    requires { count ≤ most_spelled }
    ensures { MatchResult result
        (λ octet. (contents : List ℕ) → length contents ≡ count →
        slice_index (definite constructed tag contents) at ≡ octet)
        (λ place. (contents : List ℕ) → length contents ≡ count →
        slice_index (definite constructed tag contents) at ≡ slice_index contents place) }
{
    let len = identifier_len(tag) + length_len(count);
    if len <= at {
        return Err(at - len);
    }
    let mut room = [0; 16];
    put_head(tag, constructed, count as usize, &mut room, len as usize);
    Ok(octet_in(&room, at))
}

fn integer_octet(tag: Tag, value: &Val, at: u64) -> u8
    ensures { result ≡ slice_index (definite false tag (integer_contents value.now)) at }
{
    let count = match &value.node {
        Node::Int(number) => integer_len(*number),
        _ => 0,
    };
    match head_or_place(tag, false, count, at) {
        Ok(octet) => octet,
        Err(place) => match &value.node {
            Node::Int(number) => number_octet(*number, place),
            _ => 0,
        },
    }
}

/// The octet at a place of a number's contents.
fn number_octet(number: i64, at: u64) -> u8
    ensures { result ≡ slice_index (integer_octets number) at }
{
    let count = integer_len(number);
    let mut room = [0; 9];
    put_integer(number, &mut room, count as usize);
    if at < count { octet_in(&room, at) } else { 0 }
}

fn boolean_octet(tag: Tag, value: &Val, at: u64) -> u8
    ensures { result ≡ slice_index (definite false tag (boolean_contents value.now)) at }
{
    let count = match &value.node {
        Node::Bool(_) => 1,
        _ => 0,
    };
    match head_or_place(tag, false, count, at) {
        Ok(octet) => octet,
        Err(place) => match &value.node {
            Node::Bool(true) if place == 0 => 255,
            _ => 0,
        },
    }
}

fn null_octet(tag: Tag, at: u64) -> u8
    ensures { result ≡ slice_index (definite false tag []) at }
{
    match head_or_place(tag, false, 0, at) {
        Ok(octet) => octet,
        Err(_) => 0,
    }
}

/// The octet at a place of a number in base 128.
fn digits_octet(number: u64, at: u64) -> u8
    requires { number < 2 ^ 40 }
    ensures { result ≡ slice_index (base_128 number) at }
{
    let len = base_128_len(number);
    let mut room = [0; 6];
    put_base_128(number, &mut room, len as usize);
    if at < len { octet_in(&room, at) } else { 0 }
}

/// The octet at a place of an OBJECT IDENTIFIER's arcs (X.690 8.19), of which the first two are one
/// subidentifier.
fn arcs_octet(arcs: &[u32], at: u64) -> u8
    ensures { result ≡ slice_index (flat_map base_128 (subidentifiers arcs.now)) at }
{
    match arcs {
        [] => 0,
        [root] => digits_octet(*root as u64, at),
        [root, second, more @ ..] => {
            let first = 40 * *root as u64 + *second as u64;
            let len = base_128_len(first);
            if at < len {
                digits_octet(first, at)
            } else {
                each_octet(more, at - len)
            }
        }
    }
}

fn each_octet(numbers: &[u32], at: u64) -> u8
    ensures { result ≡ slice_index (flat_map base_128 numbers.now) at }
{
    let mut place = at;
    for number in numbers {
        let len = base_128_len(*number as u64);
        if place < len {
            return digits_octet(*number as u64, place);
        }
        place -= len;
    }
    0
}

fn object_id_octet(tag: Tag, value: &Val, at: u64) -> u8
    requires { length (definite false tag (object_id_contents value.now)) ≤ most_spelled }
    ensures { result ≡ slice_index (definite false tag (object_id_contents value.now)) at }
{
    match &value.node {
        Node::ObjectId(oid) => subidentifiers_octet(tag, oid.arcs(), at),
        _ => null_octet(tag, at),
    }
}

fn subidentifiers_octet(tag: Tag, arcs: &[u32], at: u64) -> u8
    requires { length (definite false tag (flat_map base_128 (subidentifiers arcs.now)))
        ≤ most_spelled }
    ensures { result ≡ slice_index (definite false tag
        (flat_map base_128 (subidentifiers arcs.now))) at }
{
    match head_or_place(tag, false, arcs_len(arcs), at) {
        Ok(octet) => octet,
        Err(place) => arcs_octet(arcs, place),
    }
}

fn octets_octet(tag: Tag, value: &Val, at: u64) -> u8
    requires { length (definite false tag (octets_contents value.now)) ≤ most_spelled }
    ensures { result ≡ slice_index (definite false tag (octets_contents value.now)) at }
{
    let octets: &[u8] = match &value.node {
        Node::Octets(octets) => octets.as_slice(),
        _ => &[],
    };
    match head_or_place(tag, false, octets.len() as u64, at) {
        Ok(octet) => octet,
        Err(place) => octet_in(octets, place),
    }
}

fn text_octet(tag: Tag, value: &Val, at: u64) -> u8
    requires { length (definite false tag (text_contents value.now)) ≤ most_spelled }
    ensures { result ≡ slice_index (definite false tag (text_contents value.now)) at }
{
    let octets: &[u8] = match &value.node {
        Node::Text(octets) => octets.as_slice(),
        _ => &[],
    };
    match head_or_place(tag, false, octets.len() as u64, at) {
        Ok(octet) => octet,
        Err(place) => octet_in(octets, place),
    }
}

/// Of a BIT STRING: how many bits are unused stands first (X.690 8.6.2).
fn bits_octet(tag: Tag, value: &Val, at: u64) -> u8
    requires { length (definite false tag (bits_contents value.now)) ≤ most_spelled }
    ensures { result ≡ slice_index (definite false tag (bits_contents value.now)) at }
{
    match &value.node {
        Node::Bits { octets, unused } => { segment_octet(tag, octets.as_slice(), *unused, at) }
        _ => null_octet(tag, at),
    }
}

fn segment_octet(tag: Tag, octets: &[u8], unused: u8, at: u64) -> u8
    requires { length (definite false tag (unused ∷ octets.now)) ≤ most_spelled }
    ensures { result ≡ slice_index (definite false tag (unused ∷ octets.now)) at }
{
    match head_or_place(tag, false, octets.len() as u64 + 1, at) {
        Ok(octet) => octet,
        Err(place) => behind_unused(octets, unused, place),
    }
}

/// The octet at a place of a segment's contents.
#[tactic(auto, using(crate::proofs::OctetLaws::behind_one))]
fn behind_unused(octets: &[u8], unused: u8, at: u64) -> u8
    ensures { result ≡ slice_index (unused ∷ octets.now) at }
{
    if at == 0 {
        return unused;
    }
    octet_in(octets, at - 1)
}

/// Of any one value, and of the tag that stands before it if one is given.
fn any_octet(tag: Option<Tag>, value: &Val, at: u64) -> u8
    requires { length (under any_written tag value.now) ≤ most_spelled }
    ensures { result ≡ slice_index (under any_written tag value.now) at }
{
    let octets: &[u8] = match &value.node {
        Node::Any(octets) => octets.as_slice(),
        _ => &[],
    };
    match tag {
        None => octet_in(octets, at),
        Some(tag) => match head_or_place(tag, true, octets.len() as u64, at) {
            Ok(octet) => octet,
            Err(place) => octet_in(octets, place),
        },
    }
}

/// The octet at a place of what is written of a value of this row, under another tag if one is
/// given.
#[cycle(picking)]
pub(crate) fn octet_at(table: &TypeTable, of: TypeId, tag: Option<Tag>, value: &Val, at: u64) -> u8
    requires { length (writes table.now of.0 tag value.now) ≤ most_spelled }
    ensures { result ≡ slice_index (writes table.now of.0 tag value.now) at }
{
    if table.has(of) {
        row_octet(table, of, table.row(of), tag, value, at)
    } else {
        0
    }
}

#[cycle(picking)]
fn row_octet(
    table: &TypeTable,
    of: TypeId,
    row: &TypeRow,
    tag: Option<Tag>,
    value: &Val,
    at: u64,
) -> u8
    requires row { IsRowOf table.now of.0 row.now }
    requires short { length (write_by (writes table.now) row.now tag value.now) ≤ most_spelled }
    ensures { result ≡ slice_index (write_by (writes table.now) row.now tag value.now) at }
{
    match row {
        TypeRow::Boolean => boolean_octet(tag_or(tag, Class::Universal, 1), value, at),
        TypeRow::Integer { .. } => integer_octet(tag_or(tag, Class::Universal, 2), value, at),
        TypeRow::Enumerated(_) => integer_octet(tag_or(tag, Class::Universal, 10), value, at),
        TypeRow::OctetString { .. } => octets_octet(tag_or(tag, Class::Universal, 4), value, at),
        TypeRow::BitString => bits_octet(tag_or(tag, Class::Universal, 3), value, at),
        TypeRow::Text(kind) => {
            let tag = tag_or(tag, Class::Universal, text_number(*kind));
            text_octet(tag, value, at)
        }
        TypeRow::SequenceOf(inner) => {
            let tag = tag_or(tag, Class::Universal, 16);
            list_octet(table, of, *inner, tag, value, at)
        }
        TypeRow::SetOf(inner) => {
            let tag = tag_or(tag, Class::Universal, 17);
            list_octet(table, of, *inner, tag, value, at)
        }
        TypeRow::Null => null_octet(tag_or(tag, Class::Universal, 5), at),
        TypeRow::ObjectId => object_id_octet(tag_or(tag, Class::Universal, 6), value, at),
        TypeRow::Sequence(parts) => {
            let tag = tag_or(tag, Class::Universal, 16);
            sequence_octet(table, of, parts.as_slice(), tag, value, at)
        }
        TypeRow::Choice(alternatives) => choice_octet(table, of, alternatives, tag, value, at),
        TypeRow::Tagged {
            class,
            number,
            explicit,
            inner,
        } => {
            let tag = tag_or(tag, *class, *number);
            if *explicit {
                explicit_octet(table, of, *inner, tag, value, at)
            } else {
                octet_at(table, *inner, Some(tag), value, at)
            }
        }
        TypeRow::Any => any_octet(tag, value, at),
        TypeRow::Set(parts) => {
            let tag = tag_or(tag, Class::Universal, 17);
            set_octet(table, of, parts.as_slice(), tag, value, at)
        }
    }
}

#[cycle(picking)]
fn list_octet(table: &TypeTable, of: TypeId, inner: TypeId, tag: Tag, value: &Val, at: u64) -> u8
    requires below { inner.0 < of.0 }
    requires short { length (definite true tag (list_contents (writes table.now inner.0) value.now))
        ≤ most_spelled }
    ensures { result ≡ slice_index (definite true tag
        (list_contents (writes table.now inner.0) value.now)) at }
{
    let values: &[Val] = match &value.node {
        Node::List(values) => values,
        _ => return null_constructed(tag, at),
    };
    match head_or_place(tag, true, values_len(table, of, inner, values), at) {
        Ok(octet) => octet,
        Err(place) => values_octet(table, of, inner, values, place),
    }
}

/// The octet of a constructed value without contents.
fn null_constructed(tag: Tag, at: u64) -> u8
    ensures { result ≡ slice_index (definite true tag []) at }
{
    match head_or_place(tag, true, 0, at) {
        Ok(octet) => octet,
        Err(_) => 0,
    }
}

#[cycle(picking)]
fn values_octet(table: &TypeTable, of: TypeId, inner: TypeId, values: &[Val], at: u64) -> u8
    requires below { inner.0 < of.0 }
    requires short { length (values_contents (writes table.now inner.0) (values_of values.now))
        ≤ most_spelled }
    ensures { result ≡ slice_index (values_contents (writes table.now inner.0)
        (values_of values.now)) at }
{
    let mut place = at;
    for value in values {
        let len = value_len(table, inner, None, value);
        if place < len {
            return octet_at(table, inner, None, value, place);
        }
        place -= len;
    }
    0
}

#[cycle(picking)]
fn explicit_octet(
    table: &TypeTable,
    of: TypeId,
    inner: TypeId,
    tag: Tag,
    value: &Val,
    at: u64,
) -> u8
    requires below { inner.0 < of.0 }
    requires short { length (definite true tag (writes table.now inner.0 None value.now))
        ≤ most_spelled }
    ensures { result ≡ slice_index (definite true tag (writes table.now inner.0 None value.now))
        at }
{
    match head_or_place(tag, true, value_len(table, inner, None, value), at) {
        Ok(octet) => octet,
        Err(place) => octet_at(table, inner, None, value, place),
    }
}

#[cycle(picking)]
fn choice_octet(
    table: &TypeTable,
    of: TypeId,
    alternatives: &Parts,
    tag: Option<Tag>,
    value: &Val,
    at: u64,
) -> u8
    requires below { AllByRecursion (λ m. m < of.0) (rows_of_parts alternatives.now) }
    requires short { length (under (choice_written (λ which. alternative_written (writes table.now)
        (slice_get alternatives.now which))) tag value.now) ≤ most_spelled }
    ensures { result ≡ slice_index (under
        (choice_written (λ which. alternative_written (writes table.now)
        (slice_get alternatives.now which))) tag value.now) at }
{
    match tag {
        None => alternative_octet(table, of, alternatives, value, at),
        Some(tag) => {
            let count = alternative_len(table, of, alternatives, value);
            match head_or_place(tag, true, count, at) {
                Ok(octet) => octet,
                Err(place) => alternative_octet(table, of, alternatives, value, place),
            }
        }
    }
}

#[cycle(picking)]
fn alternative_octet(
    table: &TypeTable,
    of: TypeId,
    alternatives: &Parts,
    value: &Val,
    at: u64,
) -> u8
    requires below { AllByRecursion (λ m. m < of.0) (rows_of_parts alternatives.now) }
    requires short { length (choice_written (λ which. alternative_written (writes table.now)
        (slice_get alternatives.now which)) value.now) ≤ most_spelled }
    ensures { result ≡ slice_index (choice_written (λ which. alternative_written (writes table.now)
        (slice_get alternatives.now which)) value.now) at }
{
    match &value.node {
        Node::Chosen { which, value } => match alternatives.get(*which as usize) {
            Some(part) => octet_at(table, part.inner, None, value, at),
            None => 0,
        },
        _ => 0,
    }
}

#[cycle(picking)]
fn sequence_octet(
    table: &TypeTable,
    of: TypeId,
    parts: &[Part],
    tag: Tag,
    value: &Val,
    at: u64,
) -> u8
    requires below { AllByRecursion (λ m. m < of.0) (rows_of_parts parts.now) }
    requires short { length (definite true tag
        (sequence_contents (parts_contents (writes table.now) parts.now) value.now))
        ≤ most_spelled }
    ensures { result ≡ slice_index (definite true tag
        (sequence_contents (parts_contents (writes table.now) parts.now) value.now)) at }
{
    let values: &[Option<Val>] = match &value.node {
        Node::Parts(values) => values,
        _ => return null_constructed(tag, at),
    };
    match head_or_place(tag, true, parts_len(table, of, parts, values), at) {
        Ok(octet) => octet,
        Err(place) => parts_octet(table, of, parts, values, place),
    }
}

#[cycle(picking)]
fn parts_octet(table: &TypeTable, of: TypeId, parts: &[Part], values: &[Option<Val>], at: u64) -> u8
    requires below { AllByRecursion (λ m. m < of.0) (rows_of_parts parts.now) }
    requires short { length (parts_contents (writes table.now) parts.now (parts_of values.now))
        ≤ most_spelled }
    ensures { result ≡ slice_index (parts_contents (writes table.now) parts.now
        (parts_of values.now)) at }
{
    let mut place = at;
    for index in 0..parts.len().min(values.len()) {
        let len = part_len(table, of, &parts[index], &values[index]);
        if place < len {
            return part_octet(table, of, &parts[index], &values[index], place);
        }
        place -= len;
    }
    0
}

#[cycle(picking)]
fn part_octet(table: &TypeTable, of: TypeId, part: &Part, value: &Option<Val>, at: u64) -> u8
    requires below { part.now.inner.0 < of.0 }
    requires short { length (part_contents (writes table.now) part.now value.now) ≤ most_spelled }
    ensures { result ≡ slice_index (part_contents (writes table.now) part.now value.now) at }
{
    match value {
        Some(value) => octet_at(table, part.inner, None, value, at),
        None => 0,
    }
}

#[cycle(picking)]
fn set_octet(table: &TypeTable, of: TypeId, parts: &[Part], tag: Tag, value: &Val, at: u64) -> u8
    requires parts { ArePartsBelow parts.now of.0 table.now }
    requires short { length (definite true tag
        (sequence_contents (set_parts (writes table.now) parts.now) value.now)) ≤ most_spelled }
    ensures { result ≡ slice_index (definite true tag
        (sequence_contents (set_parts (writes table.now) parts.now) value.now)) at }
{
    match &value.node {
        Node::Parts(values) => set_parts_octet(table, of, parts, tag, values, at),
        _ => null_constructed(tag, at),
    }
}

#[cycle(picking)]
fn set_parts_octet(
    table: &TypeTable,
    of: TypeId,
    parts: &[Part],
    tag: Tag,
    values: &[Option<Val>],
    at: u64,
) -> u8
    requires parts { ArePartsBelow parts.now of.0 table.now }
    requires short { length (definite true tag
        (set_parts (writes table.now) parts.now (parts_of values.now))) ≤ most_spelled }
    ensures { result ≡ slice_index (definite true tag
        (set_parts (writes table.now) parts.now (parts_of values.now))) at }
{
    let count = set_len(table, of, parts, values);
    match head_or_place(tag, true, count, at) {
        Ok(octet) => octet,
        Err(place) => risen_octet(table, of, parts, values, count, place),
    }
}

/// The length of the parts of a SET.
fn set_len(table: &TypeTable, of: TypeId, parts: &[Part], values: &[Option<Val>]) -> u64
    requires below { AllByRecursion (λ m. m < of.0) (rows_of_parts parts.now) }
    requires short { length (set_parts (writes table.now) parts.now (parts_of values.now))
        ≤ most_spelled }
    ensures { result ≡ length (set_parts (writes table.now) parts.now (parts_of values.now)) }
{
    parts_len(table, of, parts, values)
}

/// The octet at a place of the parts by rising tags, from the highest tag to the lowest.
#[cycle(picking)]
fn risen_octet(
    table: &TypeTable,
    of: TypeId,
    parts: &[Part],
    values: &[Option<Val>],
    count: u64,
    at: u64,
) -> u8
    requires parts { ArePartsBelow parts.now of.0 table.now }
    requires count { count ≡ length (set_parts (writes table.now) parts.now (parts_of values.now)) }
    requires short { count ≤ most_spelled }
    ensures { result ≡ slice_index (set_parts (writes table.now) parts.now (parts_of values.now))
        at }
{
    if count <= at {
        return 0;
    }
    let mut start = count;
    let mut bound = RANKS;
    while bound > 0 {
        let next = next_rank(table, of, parts, values, bound);
        if next == 0 {
            break;
        }
        bound = next - 1;
        start -= ranked_len(table, of, parts, values, bound);
        if start <= at {
            return ranked_octet(table, of, parts, values, bound, at - start);
        }
    }
    0
}

/// The length of the parts whose tag has this rank.
fn ranked_len(
    table: &TypeTable,
    of: TypeId,
    parts: &[Part],
    values: &[Option<Val>],
    rank: u64,
) -> u64
    requires parts { ArePartsBelow parts.now of.0 table.now }
    requires short { length (parts_contents (of_rank rank (writes table.now)) parts.now
        (parts_of values.now)) ≤ most_spelled }
    ensures { result ≡ length (parts_contents (of_rank rank (writes table.now)) parts.now
        (parts_of values.now)) }
{
    let mut count: u64 = 0;
    let mut index = parts.len().min(values.len());
    while index > 0 {
        index -= 1;
        count += if_ranked_len(table, of, &parts[index], &values[index], rank);
    }
    count
}

fn if_ranked_len(table: &TypeTable, of: TypeId, part: &Part, value: &Option<Val>, rank: u64) -> u64
    requires part { IsRowBelow part.now.inner.0 of.0 table.now }
    requires short { length (part_contents (of_rank rank (writes table.now)) part.now value.now)
        ≤ most_spelled }
    ensures { result ≡ length (part_contents (of_rank rank (writes table.now)) part.now value.now) }
{
    match value {
        Some(value) => {
            if rank_of(table, part.inner, value) == rank {
                value_len(table, part.inner, None, value)
            } else {
                0
            }
        }
        None => 0,
    }
}

#[cycle(picking)]
fn ranked_octet(
    table: &TypeTable,
    of: TypeId,
    parts: &[Part],
    values: &[Option<Val>],
    rank: u64,
    at: u64,
) -> u8
    requires parts { ArePartsBelow parts.now of.0 table.now }
    requires short { length (parts_contents (of_rank rank (writes table.now)) parts.now
        (parts_of values.now)) ≤ most_spelled }
    ensures { result ≡ slice_index (parts_contents (of_rank rank (writes table.now)) parts.now
        (parts_of values.now)) at }
{
    let mut place = at;
    for index in 0..parts.len().min(values.len()) {
        let part = &parts[index];
        let value = &values[index];
        let len = if_ranked_len(table, of, part, value, rank);
        if place < len {
            return part_octet(table, of, part, value, place);
        }
        place -= len;
    }
    0
}
