//! Writing values in DER into a room, from the last octet to the first. What a function puts stands
//! right before `end`, and it answers where that begins.

ghost use Rattle.std.specs.Prelude.{◌≡◌, ℕ, ◌++◌, ◌+◌, ◌-◌, ◌<◌, ◌≤◌, [], Some, None, true, length, drop, slice_get, IfOk};
ghost use Rattle.std.specs.List.{AllByRecursion};
ghost use Rattle.asn1_types.specs.Rows.{rows_of_parts};
ghost use Rattle.asn1_types.specs.Table.{IsRowOf};
ghost use Rattle.asn1_types.specs.ValueView.{parts_of, values_of};
ghost use Rattle.asn1_types.specs.Writing.{definite, values_contents, list_contents, part_contents, parts_contents, sequence_contents, alternative_written, choice_written, under, write_by, writes, written, of_rank, set_parts};
ghost use Rattle.ber_writing.specs.Below.{ArePartsBelow, IsRowBelow};

use crate::fields::{
    put_any, put_bits, put_boolean, put_head, put_integer_value, put_object_id, put_octets,
    put_text,
};
use crate::length::ber_len;
use asn1_types::{Class, Node, Part, Parts, TypeId, TypeRow, TypeTable, Val, text_number};
use ber_spelling::{RANKS, Tag, rank_of, tag_or};
use osi_base::{NoMemory, Octets};
use std::alloc::Global;

/// Puts a value of this row, under another tag if one is given. Of a value that doesn't fit the
/// row, what doesn't fit is left out.
#[cycle(writing)]
pub(crate) fn put_value(
    table: &TypeTable,
    of: TypeId,
    tag: Option<Tag>,
    value: &Val,
    room: &mut [u8],
    end: usize,
) -> usize
    requires room { length (writes table.now of.0 tag value.now) ≤ end }
    requires end { end ≤ length room.old }
    ensures start { result + length (writes table.now of.0 tag value.now) ≡ end }
    ensures put { drop result room.new ≡ writes table.now of.0 tag value.now ++ drop end room.old }
{
    if table.has(of) {
        put_row(table, of, table.row(of), tag, value, room, end)
    } else {
        end
    }
}

#[cycle(writing)]
fn put_row(
    table: &TypeTable,
    of: TypeId,
    row: &TypeRow,
    tag: Option<Tag>,
    value: &Val,
    room: &mut [u8],
    end: usize,
) -> usize
    requires row { IsRowOf table.now of.0 row.now }
    requires room { length (write_by (writes table.now) row.now tag value.now) ≤ end }
    requires end { end ≤ length room.old }
    ensures start { result + length (write_by (writes table.now) row.now tag value.now) ≡ end }
    ensures put { drop result room.new ≡ write_by (writes table.now) row.now tag value.now
        ++ drop end room.old }
{
    match row {
        TypeRow::Boolean => put_boolean(tag_or(tag, Class::Universal, 1), value, room, end),
        TypeRow::Integer { .. } => {
            put_integer_value(tag_or(tag, Class::Universal, 2), value, room, end)
        }
        TypeRow::Enumerated(_) => {
            put_integer_value(tag_or(tag, Class::Universal, 10), value, room, end)
        }
        TypeRow::OctetString { .. } => {
            put_octets(tag_or(tag, Class::Universal, 4), value, room, end)
        }
        TypeRow::BitString => put_bits(tag_or(tag, Class::Universal, 3), value, room, end),
        TypeRow::Text(kind) => {
            let tag = tag_or(tag, Class::Universal, text_number(*kind));
            put_text(tag, value, room, end)
        }
        TypeRow::SequenceOf(inner) => {
            let tag = tag_or(tag, Class::Universal, 16);
            put_list(table, of, *inner, tag, value, room, end)
        }
        TypeRow::SetOf(inner) => {
            let tag = tag_or(tag, Class::Universal, 17);
            put_list(table, of, *inner, tag, value, room, end)
        }
        TypeRow::Null => put_head(tag_or(tag, Class::Universal, 5), false, 0, room, end),
        TypeRow::ObjectId => put_object_id(tag_or(tag, Class::Universal, 6), value, room, end),
        TypeRow::Sequence(parts) => {
            let tag = tag_or(tag, Class::Universal, 16);
            put_sequence(table, of, parts.as_slice(), tag, value, room, end)
        }
        TypeRow::Choice(alternatives) => {
            put_choice(table, of, alternatives, tag, value, room, end)
        }
        TypeRow::Tagged {
            class,
            number,
            explicit,
            inner,
        } => {
            let tag = tag_or(tag, *class, *number);
            if *explicit {
                put_explicit(table, of, *inner, tag, value, room, end)
            } else {
                put_value(table, *inner, Some(tag), value, room, end)
            }
        }
        TypeRow::Any => put_any(tag, value, room, end),
        TypeRow::Set(parts) => {
            let tag = tag_or(tag, Class::Universal, 17);
            put_set(table, of, parts.as_slice(), tag, value, room, end)
        }
    }
}

#[cycle(writing)]
fn put_list(
    table: &TypeTable,
    of: TypeId,
    inner: TypeId,
    tag: Tag,
    value: &Val,
    room: &mut [u8],
    end: usize,
) -> usize
    requires below { inner.0 < of.0 }
    requires room { length (definite true tag (list_contents (writes table.now inner.0) value.now))
        ≤ end }
    requires end { end ≤ length room.old }
    ensures start { result + length (definite true tag
        (list_contents (writes table.now inner.0) value.now)) ≡ end }
    ensures put { drop result room.new ≡ definite true tag
        (list_contents (writes table.now inner.0) value.now) ++ drop end room.old }
{
    let start = match &value.node {
        Node::List(values) => put_values(table, of, inner, values, room, end),
        _ => end,
    };
    put_head(tag, true, end - start, room, start)
}

/// The items of a SEQUENCE OF, from the last to the first.
#[cycle(writing)]
fn put_values(
    table: &TypeTable,
    of: TypeId,
    inner: TypeId,
    values: &[Val],
    room: &mut [u8],
    end: usize,
) -> usize
    requires below { inner.0 < of.0 }
    requires room { length (values_contents (writes table.now inner.0) (values_of values.now))
        ≤ end }
    requires end { end ≤ length room.old }
    ensures start { result + length (values_contents (writes table.now inner.0)
        (values_of values.now)) ≡ end }
    ensures put { drop result room.new ≡ values_contents (writes table.now inner.0)
        (values_of values.now) ++ drop end room.old }
{
    let mut start = end;
    let mut index = values.len();
    while index > 0 {
        index -= 1;
        start = put_value(table, inner, None, &values[index], room, start);
    }
    start
}

#[cycle(writing)]
fn put_explicit(
    table: &TypeTable,
    of: TypeId,
    inner: TypeId,
    tag: Tag,
    value: &Val,
    room: &mut [u8],
    end: usize,
) -> usize
    requires below { inner.0 < of.0 }
    requires room { length (definite true tag (writes table.now inner.0 None value.now)) ≤ end }
    requires end { end ≤ length room.old }
    ensures start { result + length (definite true tag (writes table.now inner.0 None value.now))
        ≡ end }
    ensures put { drop result room.new ≡ definite true tag (writes table.now inner.0 None value.now)
        ++ drop end room.old }
{
    let start = put_value(table, inner, None, value, room, end);
    put_head(tag, true, end - start, room, start)
}

#[cycle(writing)]
fn put_choice(
    table: &TypeTable,
    of: TypeId,
    alternatives: &Parts,
    tag: Option<Tag>,
    value: &Val,
    room: &mut [u8],
    end: usize,
) -> usize
    requires below { AllByRecursion (λ m. m < of.0) (rows_of_parts alternatives.now) }
    requires room { length (under (choice_written (λ which. alternative_written (writes table.now)
        (slice_get alternatives.now which))) tag value.now) ≤ end }
    requires end { end ≤ length room.old }
    ensures start { result + length (under
        (choice_written (λ which. alternative_written (writes table.now)
        (slice_get alternatives.now which))) tag value.now) ≡ end }
    ensures put { drop result room.new
        ≡ under (choice_written (λ which. alternative_written (writes table.now)
        (slice_get alternatives.now which))) tag value.now ++ drop end room.old }
{
    let start = put_alternative(table, of, alternatives, value, room, end);
    match tag {
        None => start,
        Some(tag) => put_head(tag, true, end - start, room, start),
    }
}

#[cycle(writing)]
fn put_alternative(
    table: &TypeTable,
    of: TypeId,
    alternatives: &Parts,
    value: &Val,
    room: &mut [u8],
    end: usize,
) -> usize
    requires below { AllByRecursion (λ m. m < of.0) (rows_of_parts alternatives.now) }
    requires room { length (choice_written (λ which. alternative_written (writes table.now)
        (slice_get alternatives.now which)) value.now) ≤ end }
    requires end { end ≤ length room.old }
    ensures start { result + length (choice_written (λ which. alternative_written (writes table.now)
        (slice_get alternatives.now which)) value.now) ≡ end }
    ensures put { drop result room.new
        ≡ choice_written (λ which. alternative_written (writes table.now)
        (slice_get alternatives.now which)) value.now ++ drop end room.old }
{
    match &value.node {
        Node::Chosen { which, value } => match alternatives.get(*which as usize) {
            Some(part) => put_value(table, part.inner, None, value, room, end),
            None => end,
        },
        _ => end,
    }
}

#[cycle(writing)]
fn put_sequence(
    table: &TypeTable,
    of: TypeId,
    parts: &[Part],
    tag: Tag,
    value: &Val,
    room: &mut [u8],
    end: usize,
) -> usize
    requires below { AllByRecursion (λ m. m < of.0) (rows_of_parts parts.now) }
    requires room { length (definite true tag
        (sequence_contents (parts_contents (writes table.now) parts.now) value.now)) ≤ end }
    requires end { end ≤ length room.old }
    ensures start { result + length (definite true tag
        (sequence_contents (parts_contents (writes table.now) parts.now) value.now)) ≡ end }
    ensures put { drop result room.new ≡ definite true tag
        (sequence_contents (parts_contents (writes table.now) parts.now) value.now)
        ++ drop end room.old }
{
    let start = match &value.node {
        Node::Parts(values) => put_parts(table, of, parts, values, room, end),
        _ => end,
    };
    put_head(tag, true, end - start, room, start)
}

/// The parts that are there, from the last to the first.
#[cycle(writing)]
fn put_parts(
    table: &TypeTable,
    of: TypeId,
    parts: &[Part],
    values: &[Option<Val>],
    room: &mut [u8],
    end: usize,
) -> usize
    requires below { AllByRecursion (λ m. m < of.0) (rows_of_parts parts.now) }
    requires room { length (parts_contents (writes table.now) parts.now (parts_of values.now))
        ≤ end }
    requires end { end ≤ length room.old }
    ensures start { result + length (parts_contents (writes table.now) parts.now
        (parts_of values.now)) ≡ end }
    ensures put { drop result room.new ≡ parts_contents (writes table.now) parts.now
        (parts_of values.now) ++ drop end room.old }
{
    let mut start = end;
    let mut index = parts.len().min(values.len());
    while index > 0 {
        index -= 1;
        start = put_part(table, of, &parts[index], &values[index], room, start);
    }
    start
}

#[cycle(writing)]
fn put_part(
    table: &TypeTable,
    of: TypeId,
    part: &Part,
    value: &Option<Val>,
    room: &mut [u8],
    end: usize,
) -> usize
    requires below { part.now.inner.0 < of.0 }
    requires room { length (part_contents (writes table.now) part.now value.now) ≤ end }
    requires end { end ≤ length room.old }
    ensures start { result + length (part_contents (writes table.now) part.now value.now) ≡ end }
    ensures put { drop result room.new ≡ part_contents (writes table.now) part.now value.now
        ++ drop end room.old }
{
    match value {
        Some(value) => put_value(table, part.inner, None, value, room, end),
        None => end,
    }
}

#[cycle(writing)]
fn put_set(
    table: &TypeTable,
    of: TypeId,
    parts: &[Part],
    tag: Tag,
    value: &Val,
    room: &mut [u8],
    end: usize,
) -> usize
    requires parts { ArePartsBelow parts.now of.0 table.now }
    requires room { length (definite true tag
        (sequence_contents (set_parts (writes table.now) parts.now) value.now)) ≤ end }
    requires end { end ≤ length room.old }
    ensures start { result + length (definite true tag
        (sequence_contents (set_parts (writes table.now) parts.now) value.now)) ≡ end }
    ensures put { drop result room.new ≡ definite true tag
        (sequence_contents (set_parts (writes table.now) parts.now) value.now)
        ++ drop end room.old }
{
    let start = match &value.node {
        Node::Parts(values) => put_risen(table, of, parts, values, room, end),
        _ => end,
    };
    put_head(tag, true, end - start, room, start)
}

/// The parts that are there, from the highest tag to the lowest (X.690 10.3).
#[cycle(writing)]
fn put_risen(
    table: &TypeTable,
    of: TypeId,
    parts: &[Part],
    values: &[Option<Val>],
    room: &mut [u8],
    end: usize,
) -> usize
    requires parts { ArePartsBelow parts.now of.0 table.now }
    requires room { length (set_parts (writes table.now) parts.now (parts_of values.now)) ≤ end }
    requires end { end ≤ length room.old }
    ensures start { result + length (set_parts (writes table.now) parts.now (parts_of values.now))
        ≡ end }
    ensures put { drop result room.new ≡ set_parts (writes table.now) parts.now
        (parts_of values.now) ++ drop end room.old }
{
    let mut start = end;
    let mut bound = RANKS;
    while bound > 0 {
        let next = next_rank(table, of, parts, values, bound);
        if next == 0 {
            break;
        }
        bound = next - 1;
        start = put_of_rank(table, of, parts, values, bound, room, start);
    }
    start
}

/// The parts whose tag has this rank, from the last to the first.
#[cycle(writing)]
fn put_of_rank(
    table: &TypeTable,
    of: TypeId,
    parts: &[Part],
    values: &[Option<Val>],
    rank: u64,
    room: &mut [u8],
    end: usize,
) -> usize
    requires parts { ArePartsBelow parts.now of.0 table.now }
    requires room { length (parts_contents (of_rank rank (writes table.now)) parts.now
        (parts_of values.now)) ≤ end }
    requires end { end ≤ length room.old }
    ensures start { result + length (parts_contents (of_rank rank (writes table.now)) parts.now
        (parts_of values.now)) ≡ end }
    ensures put { drop result room.new ≡ parts_contents (of_rank rank (writes table.now)) parts.now
        (parts_of values.now) ++ drop end room.old }
{
    let mut start = end;
    let mut index = parts.len().min(values.len());
    while index > 0 {
        index -= 1;
        start = put_if_of_rank(table, of, &parts[index], &values[index], rank, room, start);
    }
    start
}

#[cycle(writing)]
fn put_if_of_rank(
    table: &TypeTable,
    of: TypeId,
    part: &Part,
    value: &Option<Val>,
    rank: u64,
    room: &mut [u8],
    end: usize,
) -> usize
    requires part { IsRowBelow part.now.inner.0 of.0 table.now }
    requires room { length (part_contents (of_rank rank (writes table.now)) part.now value.now)
        ≤ end }
    requires end { end ≤ length room.old }
    ensures start { result + length (part_contents (of_rank rank (writes table.now)) part.now
        value.now) ≡ end }
    ensures put { drop result room.new ≡ part_contents (of_rank rank (writes table.now)) part.now
        value.now ++ drop end room.old }
{
    match value {
        Some(value) => {
            if rank_of(table, part.inner, value) == rank {
                put_value(table, part.inner, None, value, room, end)
            } else {
                end
            }
        }
        None => end,
    }
}

/// One more than the highest rank below a bound that the tag of a part has; 0 where there is none.
pub(crate) fn next_rank(
    table: &TypeTable,
    of: TypeId,
    parts: &[Part],
    values: &[Option<Val>],
    bound: u64,
) -> u64
    requires parts { ArePartsBelow parts.now of.0 table.now }
    ensures within { result ≤ bound }
    ensures none { (k : ℕ) → result ≤ k → k < bound → parts_contents (of_rank k (writes table.now))
        parts.now (parts_of values.now) ≡ [] }
{
    let mut next = 0;
    let mut index = parts.len().min(values.len());
    while index > 0 {
        index -= 1;
        next = raised(table, of, &parts[index], &values[index], bound, next);
    }
    next
}

/// `next`, or one more than the rank of this part's tag, if that lies between it and a bound.
fn raised(
    table: &TypeTable,
    of: TypeId,
    part: &Part,
    value: &Option<Val>,
    bound: u64,
    next: u64,
) -> u64
    requires part { IsRowBelow part.now.inner.0 of.0 table.now }
    requires within { next ≤ bound }
    ensures within { result ≤ bound }
    ensures more { next ≤ result }
    ensures none { (k : ℕ) → result ≤ k → k < bound → part_contents (of_rank k (writes table.now))
        part.now value.now ≡ [] }
{
    match value {
        Some(value) => {
            let rank = rank_of(table, part.inner, value);
            if next <= rank && rank < bound {
                rank + 1
            } else {
                next
            }
        }
        None => next,
    }
}

/// Writes the DER spelling of a value (X.690 10) at the front of the room, and answers its length.
/// Of a value that fits this type it is the only one; of others it has the parts that can be
/// written. The octets behind it stay. The room must have the octets that `ber_len` tells. No
/// memory is taken.
pub fn ber_write(table: &TypeTable, of: TypeId, value: &Val, out: &mut [u8]) -> usize
    requires { length (written table.now of.0 value.now) ≤ length out.old }
    ensures length { result ≡ length (written table.now of.0 value.now) }
    ensures spelling { out.new ≡ written table.now of.0 value.now ++ drop result out.old }
{
    let len = ber_len(table, of, value) as usize;
    put_value(table, of, None, value, out, len);
    len
}

/// The DER spelling of a value (X.690 10), as `ber_write` writes it.
pub fn ber_octets(
    alloc: Global,
    table: &TypeTable,
    of: TypeId,
    value: &Val,
) -> Result<Octets, NoMemory>
    ensures { IfOk result (λ octets. octets ≡ written table.now of.0 value.now) }
{
    let len = ber_len(table, of, value);
    if len == u64::MAX {
        return Err(NoMemory);
    }
    let mut octets = vec![in alloc; 0; len as usize]?;
    ber_write(table, of, value, &mut octets);
    Ok(Octets::from_vec(octets))
}
