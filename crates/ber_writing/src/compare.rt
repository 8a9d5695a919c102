//! How the DER spellings of two values of one type compare, octet by octet (X.690 11.6), told in
//! one pass over the pieces of both, from the last to the first, and without memory.
//!
//! Identifiers and lengths compare as the octets that they are written with. Contents of one length
//! compare as their first pieces that differ, since of two pieces neither begins the other. Where a
//! piece stands in one value alone, it is compared by its identifier with what stands next in the
//! other. Only values that don't fit have pieces of which this doesn't tell how they compare.

ghost use Rattle.std.specs.Prelude.{◌≡◌, ◌<◌, ℕ, List, [], ◌++◌, Some, None, false, true, length, slice_get, IfSome};
ghost use Rattle.std.specs.List.{AllByRecursion};
ghost use Rattle.asn1_types.specs.Rows.{rows_of_parts};
ghost use Rattle.asn1_types.specs.Table.{IsRowOf};
ghost use Rattle.asn1_types.specs.ValueView.{parts_of, values_of};
ghost use Rattle.asn1_types.specs.Writing.{definite, values_contents, list_contents, part_contents, parts_contents, of_rank, sequence_contents, set_parts, alternative_written, choice_written, under, write_by, writes};
ghost use Rattle.ber_writing.specs.Below.{ArePartsBelow, IsRowBelow};
ghost use Rattle.ber_writing.specs.Comparing.{IsCompared, IsApart, IsRest};

use crate::contents::{chosen_in, items_in, parts_in};
use crate::head::{head_of, lead_of};
use crate::length::{value_len, values_len};
use crate::pieces::{
    Compared, END, Rest, any_compared, bit_strings_compared, heads_compared, integers_compared,
    leads_compared, object_ids_compared, octet_strings_compared, one_alone, texts_compared,
    truths_compared, whole,
};
use crate::writing::next_rank;
use asn1_types::{Class, Part, Parts, TypeId, TypeRow, TypeTable, Val, text_number};
use ber_spelling::{RANKS, Tag, rank_of, tag_or};

/// How the spellings of two values of a row compare, under another tag if one is given; `None`
/// where that isn't told by their pieces, which is so only of values that don't fit.
#[cycle(comparing)]
pub(crate) fn values_compared(
    table: &TypeTable,
    of: TypeId,
    tag: Option<Tag>,
    a: &Val,
    b: &Val,
) -> Option<Compared>
    ensures { IfSome result (λ c. IsApart c (writes table.now of.0 tag a.now)
        (writes table.now of.0 tag b.now)) }
{
    if table.has(of) {
        row_compared(table, of, table.row(of), tag, a, b)
    } else {
        None
    }
}

#[cycle(comparing)]
fn row_compared(
    table: &TypeTable,
    of: TypeId,
    row: &TypeRow,
    tag: Option<Tag>,
    a: &Val,
    b: &Val,
) -> Option<Compared>
    requires row { IsRowOf table.now of.0 row.now }
    ensures { IfSome result (λ c. IsApart c (write_by (writes table.now) row.now tag a.now)
        (write_by (writes table.now) row.now tag b.now)) }
{
    match row {
        TypeRow::Boolean => truths_compared(tag_or(tag, Class::Universal, 1), a, b),
        TypeRow::Integer { .. } => integers_compared(tag_or(tag, Class::Universal, 2), a, b),
        TypeRow::Enumerated(_) => integers_compared(tag_or(tag, Class::Universal, 10), a, b),
        TypeRow::OctetString { .. } => {
            octet_strings_compared(tag_or(tag, Class::Universal, 4), a, b)
        }
        TypeRow::BitString => bit_strings_compared(tag_or(tag, Class::Universal, 3), a, b),
        TypeRow::Text(kind) => {
            let tag = tag_or(tag, Class::Universal, text_number(*kind));
            texts_compared(tag, a, b)
        }
        TypeRow::SequenceOf(inner) => {
            let tag = tag_or(tag, Class::Universal, 16);
            lists_compared(table, of, *inner, tag, a, b)
        }
        TypeRow::SetOf(inner) => {
            let tag = tag_or(tag, Class::Universal, 17);
            lists_compared(table, of, *inner, tag, a, b)
        }
        TypeRow::Null => Some(whole(tag_or(tag, Class::Universal, 5), END.told)),
        TypeRow::ObjectId => object_ids_compared(tag_or(tag, Class::Universal, 6), a, b),
        TypeRow::Sequence(parts) => {
            let tag = tag_or(tag, Class::Universal, 16);
            sequences_compared(table, of, parts.as_slice(), tag, a, b)
        }
        TypeRow::Choice(alternatives) => choices_compared(table, of, alternatives, tag, a, b),
        TypeRow::Tagged {
            class,
            number,
            explicit,
            inner,
        } => {
            let tag = tag_or(tag, *class, *number);
            if *explicit {
                explicit_compared(table, of, *inner, tag, a, b)
            } else {
                values_compared(table, *inner, Some(tag), a, b)
            }
        }
        TypeRow::Any => any_compared(tag, a, b),
        TypeRow::Set(parts) => {
            let tag = tag_or(tag, Class::Universal, 17);
            sets_compared(table, of, parts.as_slice(), tag, a, b)
        }
    }
}

#[cycle(comparing)]
fn explicit_compared(
    table: &TypeTable,
    of: TypeId,
    inner: TypeId,
    tag: Tag,
    a: &Val,
    b: &Val,
) -> Option<Compared>
    requires { inner.0 < of.0 }
    ensures { IfSome result (λ c. IsApart c
        (definite true tag (writes table.now inner.0 None a.now))
        (definite true tag (writes table.now inner.0 None b.now))) }
{
    let contents = values_compared(table, inner, None, a, b)?;
    Some(whole(tag, contents))
}

#[cycle(comparing)]
fn lists_compared(
    table: &TypeTable,
    of: TypeId,
    inner: TypeId,
    tag: Tag,
    a: &Val,
    b: &Val,
) -> Option<Compared>
    requires { inner.0 < of.0 }
    ensures { IfSome result (λ c. IsApart c
        (definite true tag (list_contents (writes table.now inner.0) a.now))
        (definite true tag (list_contents (writes table.now inner.0) b.now))) }
{
    let values = items_in(a)?;
    let others = items_in(b)?;
    let contents = items_compared(table, of, inner, values, others)?;
    Some(whole(tag, contents))
}

#[cycle(comparing)]
fn items_compared(
    table: &TypeTable,
    of: TypeId,
    inner: TypeId,
    values: &[Val],
    others: &[Val],
) -> Option<Compared>
    requires { inner.0 < of.0 }
    ensures { IfSome result (λ c. IsCompared c
        (values_contents (writes table.now inner.0) (values_of values.now))
        (values_contents (writes table.now inner.0) (values_of others.now))) }
{
    let mut index = values.len().min(others.len());
    let mut told = one_alone(
        values_len(table, of, inner, &values[index..]),
        values_len(table, of, inner, &others[index..]),
    );
    while index > 0 {
        index -= 1;
        told = values_compared(table, inner, None, &values[index], &others[index])?.then(told);
    }
    Some(told)
}

#[cycle(comparing)]
fn sequences_compared(
    table: &TypeTable,
    of: TypeId,
    parts: &[Part],
    tag: Tag,
    a: &Val,
    b: &Val,
) -> Option<Compared>
    requires { AllByRecursion (λ m. m < of.0) (rows_of_parts parts.now) }
    ensures { IfSome result (λ c. IsApart c
        (definite true tag (sequence_contents (parts_contents (writes table.now) parts.now) a.now))
        (definite true tag (sequence_contents (parts_contents (writes table.now) parts.now)
        b.now))) }
{
    let values = parts_in(a)?;
    let others = parts_in(b)?;
    let contents = parts_compared(table, of, parts, values, others)?;
    Some(whole(tag, contents))
}

#[cycle(comparing)]
fn parts_compared(
    table: &TypeTable,
    of: TypeId,
    parts: &[Part],
    values: &[Option<Val>],
    others: &[Option<Val>],
) -> Option<Compared>
    requires { AllByRecursion (λ m. m < of.0) (rows_of_parts parts.now) }
    ensures { IfSome result (λ c. IsCompared c
        (parts_contents (writes table.now) parts.now (parts_of values.now))
        (parts_contents (writes table.now) parts.now (parts_of others.now))) }
{
    if values.len() != parts.len() || others.len() != parts.len() {
        return None;
    }
    let mut rest = END;
    let mut index = parts.len();
    while index > 0 {
        index -= 1;
        let (value, other) = (&values[index], &others[index]);
        rest = part_before(table, of, &parts[index], value, other, rest)?;
    }
    Some(rest.told)
}

/// A part of both values, and what stands behind it.
#[cycle(comparing)]
fn part_before(
    table: &TypeTable,
    of: TypeId,
    part: &Part,
    value: &Option<Val>,
    other: &Option<Val>,
    behind: Rest,
) -> Option<Rest>
    requires { part.now.inner.0 < of.0 }
    ensures { (xs ys : List ℕ) → IsRest behind xs ys → IfSome result (λ rest. IsRest rest
        (part_contents (writes table.now) part.now value.now ++ xs)
        (part_contents (writes table.now) part.now other.now ++ ys)) }
{
    match (value, other) {
        (None, None) => Some(behind),
        (Some(value), Some(other)) => {
            let piece = values_compared(table, part.inner, None, value, other)?;
            Some(Rest {
                told: piece.then(behind.told),
                lead: lead_of(table, part.inner, value),
                other: lead_of(table, part.inner, other),
            })
        }
        (Some(value), None) => {
            let lead = lead_of(table, part.inner, value);
            let len = value_len(table, part.inner, None, value);
            Some(Rest {
                told: Compared {
                    len: len.saturating_add(behind.told.len),
                    other: behind.told.other,
                    order: leads_compared(lead, behind.other)?,
                },
                lead,
                other: behind.other,
            })
        }
        (None, Some(other)) => {
            let lead = lead_of(table, part.inner, other);
            let len = value_len(table, part.inner, None, other);
            Some(Rest {
                told: Compared {
                    len: behind.told.len,
                    other: len.saturating_add(behind.told.other),
                    order: leads_compared(behind.lead, lead)?,
                },
                lead: behind.lead,
                other: lead,
            })
        }
    }
}

#[cycle(comparing)]
fn sets_compared(
    table: &TypeTable,
    of: TypeId,
    parts: &[Part],
    tag: Tag,
    a: &Val,
    b: &Val,
) -> Option<Compared>
    requires parts { ArePartsBelow parts.now of.0 table.now }
    ensures { IfSome result (λ c. IsApart c
        (definite true tag (sequence_contents (set_parts (writes table.now) parts.now) a.now))
        (definite true tag (sequence_contents (set_parts (writes table.now) parts.now) b.now))) }
{
    let values = parts_in(a)?;
    let others = parts_in(b)?;
    let contents = risen_compared(table, of, parts, values, others)?;
    Some(whole(tag, contents))
}

/// The parts of a SET by rising rank (X.690 10.3).
#[cycle(comparing)]
fn risen_compared(
    table: &TypeTable,
    of: TypeId,
    parts: &[Part],
    values: &[Option<Val>],
    others: &[Option<Val>],
) -> Option<Compared>
    requires parts { ArePartsBelow parts.now of.0 table.now }
    ensures { IfSome result (λ c. IsCompared c
        (set_parts (writes table.now) parts.now (parts_of values.now))
        (set_parts (writes table.now) parts.now (parts_of others.now))) }
{
    if values.len() != parts.len() || others.len() != parts.len() {
        return None;
    }
    let mut rest = END;
    let mut bound = RANKS;
    while bound > 0 {
        let first = next_rank(table, of, parts, values, bound);
        let second = next_rank(table, of, parts, others, bound);
        let next = first.max(second);
        if next == 0 {
            return Some(rest.told);
        }
        bound = next - 1;
        rest = rank_before(table, of, parts, values, others, bound, rest)?;
    }
    Some(rest.told)
}

/// The parts of both values whose tag has this rank, and what stands behind them.
#[cycle(comparing)]
fn rank_before(
    table: &TypeTable,
    of: TypeId,
    parts: &[Part],
    values: &[Option<Val>],
    others: &[Option<Val>],
    rank: u64,
    behind: Rest,
) -> Option<Rest>
    requires parts { ArePartsBelow parts.now of.0 table.now }
    requires values { length values.now ≡ length parts.now }
    requires others { length others.now ≡ length parts.now }
    ensures { (xs ys : List ℕ) → IsRest behind xs ys → IfSome result (λ rest. IsRest rest
        (parts_contents (of_rank rank (writes table.now)) parts.now (parts_of values.now) ++ xs)
        (parts_contents (of_rank rank (writes table.now)) parts.now (parts_of others.now) ++ ys)) }
{
    let mut rest = behind;
    let mut index = parts.len();
    while index > 0 {
        index -= 1;
        let (value, other) = (&values[index], &others[index]);
        rest = ranked_before(table, of, &parts[index], value, other, rank, rest)?;
    }
    Some(rest)
}

/// As `part_before`, of a part whose tag has this rank in a value; else it doesn't stand there.
#[cycle(comparing)]
fn ranked_before(
    table: &TypeTable,
    of: TypeId,
    part: &Part,
    value: &Option<Val>,
    other: &Option<Val>,
    rank: u64,
    behind: Rest,
) -> Option<Rest>
    requires part { IsRowBelow part.now.inner.0 of.0 table.now }
    ensures { (xs ys : List ℕ) → IsRest behind xs ys → IfSome result (λ rest. IsRest rest
        (part_contents (of_rank rank (writes table.now)) part.now value.now ++ xs)
        (part_contents (of_rank rank (writes table.now)) part.now other.now ++ ys)) }
{
    let here = has_rank(table, of, part, value, rank);
    let there = has_rank(table, of, part, other, rank);
    if here && there {
        part_before(table, of, part, value, other, behind)
    } else if here {
        part_before(table, of, part, value, &None, behind)
    } else if there {
        part_before(table, of, part, &None, other, behind)
    } else {
        Some(behind)
    }
}

/// Whether a part stands whose tag has this rank.
fn has_rank(table: &TypeTable, of: TypeId, part: &Part, value: &Option<Val>, rank: u64) -> bool
    requires part { IsRowBelow part.now.inner.0 of.0 table.now }
    ensures yes { result ≡ true → part_contents (of_rank rank (writes table.now)) part.now value.now
        ≡ part_contents (writes table.now) part.now value.now }
    ensures no { result ≡ false
        → part_contents (of_rank rank (writes table.now)) part.now value.now ≡ [] }
{
    match value {
        Some(value) => rank_of(table, part.inner, value) == rank,
        None => false,
    }
}

#[cycle(comparing)]
fn choices_compared(
    table: &TypeTable,
    of: TypeId,
    alternatives: &Parts,
    tag: Option<Tag>,
    a: &Val,
    b: &Val,
) -> Option<Compared>
    requires { AllByRecursion (λ m. m < of.0) (rows_of_parts alternatives.now) }
    ensures { IfSome result (λ c. IsApart c
        (under (choice_written (λ which. alternative_written (writes table.now)
        (slice_get alternatives.now which))) tag a.now)
        (under (choice_written (λ which. alternative_written (writes table.now)
        (slice_get alternatives.now which))) tag b.now)) }
{
    let inside = alternatives_compared(table, of, alternatives, a, b)?;
    match tag {
        None => Some(inside),
        Some(tag) => Some(whole(tag, inside)),
    }
}

#[cycle(comparing)]
fn alternatives_compared(
    table: &TypeTable,
    of: TypeId,
    alternatives: &Parts,
    a: &Val,
    b: &Val,
) -> Option<Compared>
    requires { AllByRecursion (λ m. m < of.0) (rows_of_parts alternatives.now) }
    ensures { IfSome result (λ c. IsApart c
        (choice_written (λ which. alternative_written (writes table.now)
        (slice_get alternatives.now which)) a.now)
        (choice_written (λ which. alternative_written (writes table.now)
        (slice_get alternatives.now which)) b.now)) }
{
    let (which, value) = chosen_in(a)?;
    let (against, other) = chosen_in(b)?;
    let part = alternatives.get(which as usize)?;
    if which == against {
        return values_compared(table, part.inner, None, value, other);
    }
    let second = alternatives.get(against as usize)?;
    told_by_heads(table, part.inner, value, second.inner, other)
}

/// How values of two rows compare by their identifiers; `None` where these are alike, or not known.
fn told_by_heads(table: &TypeTable, of: TypeId, a: &Val, from: TypeId, b: &Val) -> Option<Compared>
    ensures { IfSome result (λ c. IsApart c (writes table.now of.0 None a.now)
        (writes table.now from.0 None b.now)) }
{
    let head = head_of(table, of, None, a)?;
    let order = heads_compared(head, head_of(table, from, None, b)?);
    if order.is_eq() {
        return None;
    }
    Some(Compared {
        len: value_len(table, of, None, a),
        other: value_len(table, from, None, b),
        order,
    })
}
