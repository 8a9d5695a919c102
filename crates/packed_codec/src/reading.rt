//! Reading values, row by row.

ghost use Rattle.std.specs.Prelude.{◌≡◌, [], ◌<◌, length, None, IfOk};
ghost use Rattle.osi_base.specs.OctetPlaces.{HasPlaces};
ghost use Rattle.asn1_types.specs.Table.{IsRowOf};
ghost use Rattle.asn1_types.specs.Writing.{written};
ghost use Rattle.ber_spelling.specs.Below.{ReadsBelow, ReadsPartsBelow};
ghost use Rattle.packed_codec.specs.Reading.{Gives, spot_of, GoesOn};
ghost use Rattle.packed_codec.specs.Rules.{last_size, part_at, present_at, parts_at, sequence_at, items_at, list_at, set_item_at, set_items_at, set_of_at, choice_at, read_by, reads};

use crate::fault::PackedFault;
use crate::fields::{count, octet, refusal};
use crate::octets::unpadded;
use crate::spot::Spot;
use crate::strings::{
    bit_string, boolean, enumerated, integer, null, object_id, octet_string, text,
};
use asn1_types::{
    MaybeVals, Node, Part, Parts, TypeId, TypeRow, TypeTable, Val, Vals, has_default_value,
    may_be_absent,
};
use ber_writing::follows_last;
use std::alloc::Global;

/// What stands here, as a value of this row.
#[cycle(reading)]
pub(crate) fn value<'a>(
    alloc: Global,
    table: &TypeTable,
    of: TypeId,
    limit: u32,
    spot: Spot<'a>,
) -> Result<(Val, Spot<'a>), PackedFault>
    requires row { of.0 < length table.now }
    requires whole { HasPlaces spot.place spot.rest.now }
    ensures gives { Gives (λ x. (x.0, spot_of x.1)) result
        (reads table.now of.0 limit (spot_of spot.entry)) }
    ensures stops { IfOk result (λ x. GoesOn spot.entry.place (length spot.entry.rest.now) x.1) }
{
    value_as(alloc, table, of, table.row(of), limit, spot)
}

#[cycle(reading)]
fn value_as<'a>(
    alloc: Global,
    table: &TypeTable,
    of: TypeId,
    row: &TypeRow,
    limit: u32,
    spot: Spot<'a>,
) -> Result<(Val, Spot<'a>), PackedFault>
    requires row { IsRowOf table.now of.0 row.now }
    requires whole { HasPlaces spot.place spot.rest.now }
    ensures gives { Gives (λ x. (x.0, spot_of x.1)) result
        (read_by (written table.now) (reads table.now) row.now limit (spot_of spot.entry)) }
    ensures stops { IfOk result (λ x. GoesOn spot.entry.place (length spot.entry.rest.now) x.1) }
{
    match row {
        TypeRow::Boolean => boolean(limit, spot),
        TypeRow::Integer { low, high } => integer(*low, *high, limit, spot),
        TypeRow::Enumerated(items) => enumerated(items.as_slice(), limit, spot),
        TypeRow::Null => null(limit, spot),
        TypeRow::OctetString { most } => octet_string(alloc, *most, limit, spot),
        TypeRow::BitString => bit_string(alloc, limit, spot),
        TypeRow::ObjectId => object_id(alloc, limit, spot),
        TypeRow::Text(kind) => text(alloc, *kind, limit, spot),
        TypeRow::Sequence(parts) => sequence(alloc, table, of, parts, limit, spot),
        TypeRow::Set(parts) => sequence(alloc, table, of, parts, limit, spot),
        TypeRow::SequenceOf(inner) => list(alloc, table, of, *inner, limit, spot),
        TypeRow::SetOf(inner) => set_of(alloc, table, of, *inner, limit, spot),
        TypeRow::Choice(alternatives) => choice(alloc, table, of, alternatives, limit, spot),
        TypeRow::Tagged { inner, .. } => tagged(alloc, table, of, *inner, limit, spot),
        TypeRow::Any => Err(refusal(spot.place)),
    }
}

/// A type with a tag of its own, which is not spelled.
#[cycle(reading)]
fn tagged<'a>(
    alloc: Global,
    table: &TypeTable,
    of: TypeId,
    inner: TypeId,
    limit: u32,
    spot: Spot<'a>,
) -> Result<(Val, Spot<'a>), PackedFault>
    requires { ReadsBelow inner.0 of.0 (length table.now) spot.place (length spot.rest.now) }
    ensures gives { Gives (λ x. (x.0, spot_of x.1)) result
        (reads table.now inner.0 limit (spot_of spot.entry)) }
    ensures stops { IfOk result (λ x. GoesOn spot.entry.place (length spot.entry.rest.now) x.1) }
{
    value(alloc, table, inner, limit, spot)
}

/// The alternative of a CHOICE whose place stands in one octet.
#[cycle(reading)]
#[tactic(auto, unfolding(crate::specs::Rules::choice_at))]
fn choice<'a>(
    alloc: Global,
    table: &TypeTable,
    of: TypeId,
    alternatives: &Parts,
    limit: u32,
    spot: Spot<'a>,
) -> Result<(Val, Spot<'a>), PackedFault>
    requires { ReadsPartsBelow alternatives.now of.0 (length table.now) spot.place
        (length spot.rest.now) }
    ensures gives { Gives (λ x. (x.0, spot_of x.1)) result
        (choice_at (reads table.now) alternatives.now limit (spot_of spot.entry)) }
    ensures stops { IfOk result (λ x. GoesOn spot.entry.place (length spot.entry.rest.now) x.1) }
{
    let (which, behind) = octet(limit, spot)?;
    let Some(part) = alternatives.get(which as usize) else {
        return Err(refusal(spot.place));
    };
    let (value, after) = value(alloc, table, part.inner, limit, behind)?;
    let node = Node::Chosen {
        which: which as u32,
        value: Box::new(alloc, value)?,
    };
    Ok((Val { node }, after))
}

#[cycle(reading)]
#[tactic(auto, unfolding(crate::specs::Rules::sequence_at))]
fn sequence<'a>(
    alloc: Global,
    table: &TypeTable,
    of: TypeId,
    parts: &Parts,
    limit: u32,
    spot: Spot<'a>,
) -> Result<(Val, Spot<'a>), PackedFault>
    requires { ReadsPartsBelow parts.now of.0 (length table.now) spot.place (length spot.rest.now) }
    ensures gives { Gives (λ x. (x.0, spot_of x.1)) result
        (sequence_at (reads table.now) parts.now limit (spot_of spot.entry)) }
    ensures stops { IfOk result (λ x. GoesOn spot.entry.place (length spot.entry.rest.now) x.1) }
{
    let (found, after) = parts_of(alloc, table, of, parts.as_slice(), limit, spot)?;
    Ok((
        Val {
            node: Node::Parts(found),
        },
        after,
    ))
}

/// The parts of a SEQUENCE or SET in the order of the notation.
#[cycle(reading)]
#[tactic(auto, unfolding(crate::specs::Rules::parts_at))]
fn parts_of<'a>(
    alloc: Global,
    table: &TypeTable,
    of: TypeId,
    parts: &[Part],
    limit: u32,
    spot: Spot<'a>,
) -> Result<(MaybeVals, Spot<'a>), PackedFault>
    requires { ReadsPartsBelow parts.now of.0 (length table.now) spot.place (length spot.rest.now) }
    ensures gives { Gives (λ x. (x.0.items, spot_of x.1)) result
        (parts_at (reads table.now) limit (spot_of spot.entry) parts.now) }
    ensures stops { IfOk result (λ x. GoesOn spot.entry.place (length spot.entry.rest.now) x.1) }
{
    let mut found = Vec::new(alloc);
    let mut spot = spot;
    for part in parts {
        let (value, next) = part_of(alloc, table, of, part, limit, spot)?;
        found.push(value)?;
        spot = next;
    }
    Ok((found, spot))
}

/// How many octets the last field has of a value that a default may name: the octet of a BOOLEAN,
/// the contents of a number.
#[tactic(auto, unfolding(crate::specs::Numbers::integer_octets))]
fn last_size(value: &Val) -> usize
    ensures { result ≡ last_size value.now }
{
    match &value.node {
        Node::Int(number) => unpadded(&number.to_be_bytes()).len(),
        _ => 1,
    }
}

/// One part of a SEQUENCE or SET. Before one that may be absent stands whether it is there. The
/// value of its default is at fault, in its last field.
#[cycle(reading)]
#[tactic(auto, unfolding(crate::specs::Rules::part_at, crate::specs::Rules::present_at))]
fn part_of<'a>(
    alloc: Global,
    table: &TypeTable,
    of: TypeId,
    part: &Part,
    limit: u32,
    spot: Spot<'a>,
) -> Result<(Option<Val>, Spot<'a>), PackedFault>
    requires { ReadsBelow part.now.inner.0 of.0 (length table.now) spot.place
        (length spot.rest.now) }
    ensures gives { Gives (λ x. (x.0, spot_of x.1)) result
        (part_at (reads table.now part.now.inner.0) part.now limit (spot_of spot.entry)) }
    ensures stops { IfOk result (λ x. GoesOn spot.entry.place (length spot.entry.rest.now) x.1) }
{
    let mut behind = spot;
    if may_be_absent(part) {
        let (mark, after) = octet(limit, spot)?;
        match mark {
            0 => return Ok((None, after)),
            1 => behind = after,
            _ => return Err(refusal(spot.place)),
        }
    }
    let (value, after) = value(alloc, table, part.inner, limit, behind)?;
    if has_default_value(part, &value) {
        return Err(refusal(after.place.saturating_sub(last_size(&value))));
    }
    Ok((Some(value), after))
}

/// A SEQUENCE OF: how many items, which counts against what may still be counted, and the items.
#[cycle(reading)]
#[tactic(auto, unfolding(crate::specs::Rules::list_at))]
fn list<'a>(
    alloc: Global,
    table: &TypeTable,
    of: TypeId,
    inner: TypeId,
    limit: u32,
    spot: Spot<'a>,
) -> Result<(Val, Spot<'a>), PackedFault>
    requires { ReadsBelow inner.0 of.0 (length table.now) spot.place (length spot.rest.now) }
    ensures gives { Gives (λ x. (x.0, spot_of x.1)) result
        (list_at (reads table.now inner.0) limit (spot_of spot.entry)) }
    ensures stops { IfOk result (λ x. GoesOn spot.entry.place (length spot.entry.rest.now) x.1) }
{
    let (number, behind) = count(limit, spot)?;
    if behind.left < number {
        return Err(refusal(spot.place));
    }
    let first = Spot {
        place: behind.place,
        rest: behind.rest,
        left: behind.left - number,
    };
    let (found, after) = items_of(alloc, table, of, inner, number, limit, first)?;
    Ok((
        Val {
            node: Node::List(found),
        },
        after,
    ))
}

/// So many items. Memory is taken for each as it is read.
#[cycle(reading)]
#[tactic(auto, unfolding(crate::specs::Rules::items_at))]
fn items_of<'a>(
    alloc: Global,
    table: &TypeTable,
    of: TypeId,
    inner: TypeId,
    number: u32,
    limit: u32,
    spot: Spot<'a>,
) -> Result<(Vals, Spot<'a>), PackedFault>
    requires { ReadsBelow inner.0 of.0 (length table.now) spot.place (length spot.rest.now) }
    ensures gives { Gives (λ x. (x.0.items, spot_of x.1)) result
        (items_at (reads table.now inner.0) number limit (spot_of spot.entry)) }
    ensures stops { IfOk result (λ x. GoesOn spot.entry.place (length spot.entry.rest.now) x.1) }
{
    let mut found = Vec::new(alloc);
    let mut spot = spot;
    for _index in 0..number {
        let (value, next) = value(alloc, table, inner, limit, spot)?;
        found.push(value)?;
        spot = next;
    }
    Ok((found, spot))
}

/// A SET OF, spelled as a SEQUENCE OF, whose items rise by their DER spellings (X.690 11.6).
#[cycle(reading)]
#[tactic(auto, unfolding(crate::specs::Rules::set_of_at))]
fn set_of<'a>(
    alloc: Global,
    table: &TypeTable,
    of: TypeId,
    inner: TypeId,
    limit: u32,
    spot: Spot<'a>,
) -> Result<(Val, Spot<'a>), PackedFault>
    requires { ReadsBelow inner.0 of.0 (length table.now) spot.place (length spot.rest.now) }
    ensures gives { Gives (λ x. (x.0, spot_of x.1)) result
        (set_of_at (written table.now inner.0) (reads table.now inner.0) limit
        (spot_of spot.entry)) }
    ensures stops { IfOk result (λ x. GoesOn spot.entry.place (length spot.entry.rest.now) x.1) }
{
    let (number, ahead) = count(limit, spot)?;
    if ahead.left < number {
        return Err(refusal(spot.place));
    }
    let first = Spot {
        place: ahead.place,
        rest: ahead.rest,
        left: ahead.left - number,
    };
    let (found, after) = set_items(alloc, table, of, inner, number, limit, first)?;
    Ok((
        Val {
            node: Node::List(found),
        },
        after,
    ))
}

/// So many items, each behind the one before. Memory is taken for each as it is read.
#[cycle(reading)]
#[tactic(auto, unfolding(crate::specs::Rules::set_items_at))]
fn set_items<'a>(
    alloc: Global,
    table: &TypeTable,
    of: TypeId,
    inner: TypeId,
    number: u32,
    limit: u32,
    spot: Spot<'a>,
) -> Result<(Vals, Spot<'a>), PackedFault>
    requires { ReadsBelow inner.0 of.0 (length table.now) spot.place (length spot.rest.now) }
    ensures gives { Gives (λ x. (x.0.items, spot_of x.1)) result
        (set_items_at (set_item_at (written table.now inner.0) (reads table.now inner.0)) [] number
        limit (spot_of spot.entry)) }
    ensures stops { IfOk result (λ x. GoesOn spot.entry.place (length spot.entry.rest.now) x.1) }
{
    let mut found = Vec::new(alloc);
    let mut spot = spot;
    for _index in 0..number {
        let (value, next) = set_item(alloc, table, of, inner, &found, limit, spot)?;
        found.push(value)?;
        spot = next;
    }
    Ok((found, spot))
}

/// One item of a SET OF, which may not be less than the last before it.
#[cycle(reading)]
#[tactic(auto, unfolding(crate::specs::Rules::set_item_at))]
fn set_item<'a>(
    alloc: Global,
    table: &TypeTable,
    of: TypeId,
    inner: TypeId,
    before: &[Val],
    limit: u32,
    spot: Spot<'a>,
) -> Result<(Val, Spot<'a>), PackedFault>
    requires { ReadsBelow inner.0 of.0 (length table.now) spot.place (length spot.rest.now) }
    ensures gives { Gives (λ x. (x.0, spot_of x.1)) result
        (set_item_at (written table.now inner.0) (reads table.now inner.0) before.now limit
        (spot_of spot.entry)) }
    ensures stops { IfOk result (λ x. GoesOn spot.entry.place (length spot.entry.rest.now) x.1) }
{
    let (value, after) = value(alloc, table, inner, limit, spot)?;
    if !follows_last(alloc, table, inner, before, &value)? {
        return Err(refusal(spot.place));
    }
    Ok((value, after))
}
