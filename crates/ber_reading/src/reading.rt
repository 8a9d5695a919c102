//! Reading values, row by row.

ghost use Rattle.std.specs.Prelude.{◌≡◌, false, true, ◌++◌, ◌∷◌, ◌+◌, ◌≤◌, ◌<◌, ◌^◌, [], length, Some, None, slice_set, IfOk, List};
ghost use Rattle.asn1_types.specs.Rows.{begins};
ghost use Rattle.asn1_types.specs.Defaults.{kept};
ghost use Rattle.asn1_types.specs.Table.{IsRowOf};
ghost use Rattle.asn1_types.specs.Value as tree;
ghost use Rattle.asn1_types.specs.Writing.{written};
ghost use Rattle.asn1_types.specs.Rising.{sorted};
ghost use Rattle.asn1_types.specs.ValueView.{values_of, parts_of, empty_slots};
ghost use Rattle.asn1_types.specs.Tags.{rank};
ghost use Rattle.ber_spelling.specs.Reading.{begun, Opens, Gives, FailsWith, spot_of, opened_of, GoesOn, IsBehind};
ghost use Rattle.ber_spelling.specs.Rules.{all_items_at, list_item_at, list_done, list_at, set_item_at, set_of_done, set_of_at, sequence_at, choice_at, explicit_at, or_explicit, read_by, reads, nothing_filled, is_free, is_filled, set_done, bare, under, late_at, ordered_at, slot_at, set_at};
ghost use Rattle.ber_spelling.specs.Below.{ReadsBelow, ReadsPartsBelow};
ghost use Rattle.ber_reading.specs.Parts.{found_at, part_from, parts_from};

use crate::contents::{any_under, close, open};
use crate::parts::{absent, is_filled, is_free, kept, settle};
use crate::short_parts::{integer_ahead, parts_at_once, reach};
use asn1_types::{
    Class, MaybeVals, Node, Part, Parts, TypeId, TypeRow, TypeTable, Val, Vals, begins,
    empty_slots, text_number,
};
use ber_spelling::{
    Ahead, Opened, ReadFault, Scope, Spot, Tag, bit_string, boolean, enumerated, expect_tag,
    extent, integer, look_ahead, null, object_id, octet_string, refusal, tag_or, tag_rank, text,
};
use ber_writing::{follows_last, in_order};
use osi_base::Kind;
use std::alloc::Global;

/// What stands behind an identifier, as a value of this row, under another tag if one is given.
#[cycle(reading)]
pub fn value<'a>(
    alloc: Global,
    table: &TypeTable,
    of: TypeId,
    tag: Option<Tag>,
    default: Option<i64>,
    scope: &Scope,
    opened: &Opened<'a>,
    spot: Spot<'a>,
) -> Result<(Val, Spot<'a>), ReadFault>
    requires row { of.0 < length table.now }
    requires behind { IsBehind opened.now spot }
    ensures gives { Gives (λ x. (x.0, spot_of x.1)) result
        (reads table.now of.0 (under tag default) scope.now (opened_of opened.now)
        (spot_of spot.entry)) }
    ensures stops { IfOk result (λ x. GoesOn spot.entry.place (length spot.entry.rest.now) x.1) }
{
    let row = table.row(of);
    value_as(alloc, table, of, row, tag, default, scope, opened, spot)
}

/// As `value`, of the row that stands in the table.
#[cycle(reading)]
#[inline(always)]
fn value_as<'a>(
    alloc: Global,
    table: &TypeTable,
    of: TypeId,
    row: &TypeRow,
    tag: Option<Tag>,
    default: Option<i64>,
    scope: &Scope,
    opened: &Opened<'a>,
    spot: Spot<'a>,
) -> Result<(Val, Spot<'a>), ReadFault>
    requires row { IsRowOf table.now of.0 row.now }
    requires behind { IsBehind opened.now spot }
    ensures gives { Gives (λ x. (x.0, spot_of x.1)) result
        (read_by (begins table.now) (written table.now) (reads table.now) row.now
        (under tag default) scope.now (opened_of opened.now) (spot_of spot.entry)) }
    ensures stops { IfOk result (λ x. GoesOn spot.entry.place (length spot.entry.rest.now) x.1) }
{
    match row {
        TypeRow::Boolean => {
            let tag = tag_or(tag, Class::Universal, 1);
            boolean(tag, default, scope, opened, spot)
        }
        TypeRow::Enumerated(items) => {
            let tag = tag_or(tag, Class::Universal, 10);
            enumerated(items.as_slice(), tag, default, scope, opened, spot)
        }
        TypeRow::OctetString { most } => {
            let tag = tag_or(tag, Class::Universal, 4);
            octet_string(alloc, *most, tag, scope, opened, spot)
        }
        TypeRow::BitString => {
            let tag = tag_or(tag, Class::Universal, 3);
            bit_string(alloc, tag, scope, opened, spot)
        }
        TypeRow::Text(kind) => {
            let tag = tag_or(tag, Class::Universal, text_number(*kind));
            text(alloc, *kind, tag, scope, opened, spot)
        }
        TypeRow::SequenceOf(inner) => {
            let tag = tag_or(tag, Class::Universal, 16);
            list(alloc, table, of, *inner, tag, scope, opened, spot)
        }
        TypeRow::SetOf(inner) => {
            let tag = tag_or(tag, Class::Universal, 17);
            set_of(alloc, table, of, *inner, tag, scope, opened, spot)
        }
        TypeRow::Integer { low, high } => {
            let tag = tag_or(tag, Class::Universal, 2);
            integer(*low, *high, tag, default, scope, opened, spot)
        }
        TypeRow::Null => null(tag_or(tag, Class::Universal, 5), scope, opened, spot),
        TypeRow::ObjectId => {
            object_id(alloc, tag_or(tag, Class::Universal, 6), scope, opened, spot)
        }
        TypeRow::Sequence(parts) => {
            let tag = tag_or(tag, Class::Universal, 16);
            sequence(alloc, table, of, parts, tag, scope, opened, spot)
        }
        TypeRow::Choice(alternatives) => {
            choice_under(alloc, table, of, alternatives, tag, scope, opened, spot)
        }
        TypeRow::Tagged {
            class,
            number,
            explicit,
            inner,
        } => {
            let tag = tag_or(tag, *class, *number);
            if *explicit {
                tagged(alloc, table, of, *inner, tag, default, scope, opened, spot)
            } else {
                let tag = Some(tag);
                value(alloc, table, *inner, tag, default, scope, opened, spot)
            }
        }
        TypeRow::Any => any_under(alloc, tag, scope, opened, spot),
        TypeRow::Set(parts) => {
            let tag = tag_or(tag, Class::Universal, 17);
            set(alloc, table, of, parts, tag, scope, opened, spot)
        }
    }
}

/// A SEQUENCE OF.
#[cycle(reading)]
#[inline(never)]
fn list<'a>(
    alloc: Global,
    table: &TypeTable,
    of: TypeId,
    inner: TypeId,
    tag: Tag,
    scope: &Scope,
    opened: &Opened<'a>,
    spot: Spot<'a>,
) -> Result<(Val, Spot<'a>), ReadFault>
    requires { ReadsBelow inner.0 of.0 (length table.now) spot.place (length spot.rest.now) }
    ensures gives { Gives (λ x. (x.0, spot_of x.1)) result
        (list_at (reads table.now inner.0) tag scope.now (opened_of opened.now)
        (spot_of spot.entry)) }
    ensures stops { IfOk result (λ x. GoesOn spot.entry.place (length spot.entry.rest.now) x.1) }
{
    expect_tag(tag, true, opened)?;
    let (inside, spot) = extent(scope, spot)?;
    let (found, after) = items(alloc, table, of, inner, &inside, spot)?;
    Ok((
        Val {
            node: Node::List(found),
        },
        after,
    ))
}

/// The items of a SEQUENCE OF, up to the end of its contents.
#[cycle(reading)]
fn items<'a>(
    alloc: Global,
    table: &TypeTable,
    of: TypeId,
    inner: TypeId,
    scope: &Scope,
    spot: Spot<'a>,
) -> Result<(Vals, Spot<'a>), ReadFault>
    requires { ReadsBelow inner.0 of.0 (length table.now) spot.place (length spot.rest.now) }
    ensures gives { Gives (λ x. (tree.list (values_of x.0.items), spot_of x.1)) result
        (all_items_at (list_item_at (reads table.now inner.0)) list_done [] scope.now
        (spot_of spot.entry)) }
    ensures stops { IfOk result (λ x. GoesOn spot.entry.place (length spot.entry.rest.now) x.1) }
{
    let row = table.row(inner);
    let reach = reach(scope, spot);
    let mut found = Vec::new(alloc);
    let mut spot = spot;
    for _turn in 0..spot.rest.len() + 1 {
        if let TypeRow::Integer { low, high } = row {
            if let Some((number, next)) = integer_ahead(*low, *high, scope, reach, spot) {
                let node = Node::Int(number);
                found.push(Val { node })?;
                spot = next;
                continue;
            }
        }
        match look_ahead(scope, spot)? {
            Ahead::Ended { after, .. } => return Ok((found, after)),
            Ahead::Begun(opened, after) => {
                let (value, next) = value(alloc, table, inner, None, None, scope, &opened, after)?;
                found.push(value)?;
                spot = next;
            }
        }
    }
    Err(ReadFault::Short)
}

/// A SET OF, whose items stand in rising order whatever order they came in.
#[cycle(reading)]
#[inline(never)]
fn set_of<'a>(
    alloc: Global,
    table: &TypeTable,
    of: TypeId,
    inner: TypeId,
    tag: Tag,
    scope: &Scope,
    opened: &Opened<'a>,
    spot: Spot<'a>,
) -> Result<(Val, Spot<'a>), ReadFault>
    requires { ReadsBelow inner.0 of.0 (length table.now) spot.place (length spot.rest.now) }
    ensures gives { Gives (λ x. (x.0, spot_of x.1)) result
        (set_of_at (written table.now inner.0) (reads table.now inner.0) tag scope.now
        (opened_of opened.now) (spot_of spot.entry)) }
    ensures stops { IfOk result (λ x. GoesOn spot.entry.place (length spot.entry.rest.now) x.1) }
{
    expect_tag(tag, true, opened)?;
    let (inside, spot) = extent(scope, spot)?;
    let (found, after) = set_items(alloc, table, of, inner, &inside, spot)?;
    let sorted = in_order(alloc, table, inner, found)?;
    Ok((
        Val {
            node: Node::List(sorted),
        },
        after,
    ))
}

/// The items of a SET OF as they came, up to the end of its contents. In DER each stands behind the
/// one before.
#[cycle(reading)]
fn set_items<'a>(
    alloc: Global,
    table: &TypeTable,
    of: TypeId,
    inner: TypeId,
    scope: &Scope,
    spot: Spot<'a>,
) -> Result<(Vals, Spot<'a>), ReadFault>
    requires { ReadsBelow inner.0 of.0 (length table.now) spot.place (length spot.rest.now) }
    ensures gives { Gives (λ x. (
      tree.list
          (values_of (sorted (written table.now inner.0) x.0.items)),
      spot_of x.1,
    )) result
        (all_items_at (set_item_at (written table.now inner.0) (reads table.now inner.0))
        (set_of_done (written table.now inner.0)) [] scope.now (spot_of spot.entry)) }
    ensures stops { IfOk result (λ x. GoesOn spot.entry.place (length spot.entry.rest.now) x.1) }
{
    let mut found = Vec::new(alloc);
    let mut spot = spot;
    for _turn in 0..spot.rest.len() + 1 {
        match look_ahead(scope, spot)? {
            Ahead::Ended { after, .. } => return Ok((found, after)),
            Ahead::Begun(opened, after) => {
                let item = set_item(alloc, table, of, inner, &found, scope, &opened, after)?;
                let (value, next) = item;
                found.push(value)?;
                spot = next;
            }
        }
    }
    Err(ReadFault::Short)
}

/// One item of a SET OF behind those that came. In DER it may not be less than the last of them.
#[cycle(reading)]
fn set_item<'a>(
    alloc: Global,
    table: &TypeTable,
    of: TypeId,
    inner: TypeId,
    before: &[Val],
    scope: &Scope,
    opened: &Opened<'a>,
    spot: Spot<'a>,
) -> Result<(Val, Spot<'a>), ReadFault>
    requires reads { ReadsBelow inner.0 of.0 (length table.now) spot.place (length spot.rest.now) }
    requires start { GoesOn opened.now.start.place (length opened.now.start.rest.now) spot }
    ensures gives { Gives (λ x. (before.now ++ x.0 ∷ [], spot_of x.1)) result
        (set_item_at (written table.now inner.0) (reads table.now inner.0) before.now scope.now
        (opened_of opened.now) (spot_of spot.entry)) }
    ensures stops { IfOk result (λ x. GoesOn spot.entry.place (length spot.entry.rest.now) x.1) }
{
    let (value, after) = value(alloc, table, inner, None, None, scope, opened, spot)?;
    if scope.strict && !follows_last(alloc, table, inner, before, &value)? {
        return Err(refusal(opened.start.place, Kind::Form));
    }
    Ok((value, after))
}

#[cycle(reading)]
#[tactic(auto, unfolding(ber_spelling::specs::Rules::explicit_at))]
#[inline(never)]
fn tagged<'a>(
    alloc: Global,
    table: &TypeTable,
    of: TypeId,
    inner: TypeId,
    tag: Tag,
    default: Option<i64>,
    scope: &Scope,
    opened: &Opened<'a>,
    spot: Spot<'a>,
) -> Result<(Val, Spot<'a>), ReadFault>
    requires { ReadsBelow inner.0 of.0 (length table.now) spot.place (length spot.rest.now) }
    ensures gives { Gives (λ x. (x.0, spot_of x.1)) result
        (explicit_at (reads table.now inner.0 (bare default)) tag scope.now (opened_of opened.now)
        (spot_of spot.entry)) }
    ensures stops { IfOk result (λ x. GoesOn spot.entry.place (length spot.entry.rest.now) x.1) }
{
    let (inside, first, spot) = open(tag, scope, opened, spot)?;
    let (value, spot) = value(alloc, table, inner, None, default, &inside, &first, spot)?;
    Ok((value, close(&inside, spot)?))
}

/// A CHOICE, under a tag if one is given.
#[cycle(reading)]
#[inline(always)]
fn choice_under<'a>(
    alloc: Global,
    table: &TypeTable,
    of: TypeId,
    alternatives: &Parts,
    tag: Option<Tag>,
    scope: &Scope,
    opened: &Opened<'a>,
    spot: Spot<'a>,
) -> Result<(Val, Spot<'a>), ReadFault>
    requires reads { ReadsPartsBelow alternatives.now of.0 (length table.now) spot.place
        (length spot.rest.now) }
    requires few { length alternatives.now < 2 ^ 32 }
    requires start { GoesOn opened.now.start.place (length opened.now.start.rest.now) spot }
    ensures gives { Gives (λ x. (x.0, spot_of x.1)) result
        (or_explicit (choice_at (begins table.now) (reads table.now) 0 alternatives.now) tag
        scope.now (opened_of opened.now) (spot_of spot.entry)) }
    ensures stops { IfOk result (λ x. GoesOn spot.entry.place (length spot.entry.rest.now) x.1) }
{
    match tag {
        None => {
            let alternatives = alternatives.as_slice();
            choice(alloc, table, of, alternatives, scope, opened, spot)
        }
        Some(tag) => tagged_choice(alloc, table, of, alternatives, tag, scope, opened, spot),
    }
}

#[cycle(reading)]
#[tactic(auto, unfolding(ber_spelling::specs::Rules::explicit_at))]
#[inline(never)]
fn tagged_choice<'a>(
    alloc: Global,
    table: &TypeTable,
    of: TypeId,
    alternatives: &Parts,
    tag: Tag,
    scope: &Scope,
    opened: &Opened<'a>,
    spot: Spot<'a>,
) -> Result<(Val, Spot<'a>), ReadFault>
    requires reads { ReadsPartsBelow alternatives.now of.0 (length table.now) spot.place
        (length spot.rest.now) }
    requires few { length alternatives.now < 2 ^ 32 }
    ensures gives { Gives (λ x. (x.0, spot_of x.1)) result
        (explicit_at (choice_at (begins table.now) (reads table.now) 0 alternatives.now) tag
        scope.now (opened_of opened.now) (spot_of spot.entry)) }
    ensures stops { IfOk result (λ x. GoesOn spot.entry.place (length spot.entry.rest.now) x.1) }
{
    let (inside, first, spot) = open(tag, scope, opened, spot)?;
    let (value, spot) = choice(
        alloc,
        table,
        of,
        alternatives.as_slice(),
        &inside,
        &first,
        spot,
    )?;
    Ok((value, close(&inside, spot)?))
}

/// The alternative of a CHOICE that begins with this identifier.
#[cycle(reading)]
#[tactic(auto, unfolding(ber_spelling::specs::Rules::choice_at))]
#[inline(never)]
fn choice<'a>(
    alloc: Global,
    table: &TypeTable,
    of: TypeId,
    alternatives: &[Part],
    scope: &Scope,
    opened: &Opened<'a>,
    spot: Spot<'a>,
) -> Result<(Val, Spot<'a>), ReadFault>
    requires reads { ReadsPartsBelow alternatives.now of.0 (length table.now) spot.place
        (length spot.rest.now) }
    requires few { length alternatives.now < 2 ^ 32 }
    requires start { GoesOn opened.now.start.place (length opened.now.start.rest.now) spot }
    ensures gives { Gives (λ x. (x.0, spot_of x.1)) result
        (choice_at (begins table.now) (reads table.now) 0 alternatives.now scope.now
        (opened_of opened.now) (spot_of spot.entry)) }
    ensures stops { IfOk result (λ x. GoesOn spot.entry.place (length spot.entry.rest.now) x.1) }
{
    for (which, part) in alternatives.iter().enumerate() {
        if begins(table, part.inner, opened.class, opened.number) {
            let (value, after) = value(alloc, table, part.inner, None, None, scope, opened, spot)?;
            let node = Node::Chosen {
                which: which as u32,
                value: Box::new(alloc, value)?,
            };
            return Ok((Val { node }, after));
        }
    }
    Err(refusal(opened.start.place, Kind::Tag))
}

#[cycle(reading)]
#[tactic(auto, unfolding(ber_spelling::specs::Rules::sequence_at))]
#[inline(never)]
pub(crate) fn sequence<'a>(
    alloc: Global,
    table: &TypeTable,
    of: TypeId,
    parts: &Parts,
    tag: Tag,
    scope: &Scope,
    opened: &Opened<'a>,
    spot: Spot<'a>,
) -> Result<(Val, Spot<'a>), ReadFault>
    requires { ReadsPartsBelow parts.now of.0 (length table.now) spot.place (length spot.rest.now) }
    ensures gives { Gives (λ x. (x.0, spot_of x.1)) result
        (sequence_at (begins table.now) (reads table.now) parts.now tag scope.now
        (opened_of opened.now) (spot_of spot.entry)) }
    ensures stops { IfOk result (λ x. GoesOn spot.entry.place (length spot.entry.rest.now) x.1) }
{
    expect_tag(tag, true, opened)?;
    let (inside, spot) = extent(scope, spot)?;
    let (found, after) = parts_of(alloc, table, of, parts.as_slice(), &inside, spot)?;
    Ok((
        Val {
            node: Node::Parts(found),
        },
        after,
    ))
}

/// The parts of a SEQUENCE in their order, up to the end of its contents.
#[cycle(reading)]
#[inline(always)]
fn parts_of<'a>(
    alloc: Global,
    table: &TypeTable,
    of: TypeId,
    parts: &[Part],
    scope: &Scope,
    spot: Spot<'a>,
) -> Result<(MaybeVals, Spot<'a>), ReadFault>
    requires { ReadsPartsBelow parts.now of.0 (length table.now) spot.place (length spot.rest.now) }
    ensures gives { Gives (λ x. (x.0.items, spot_of x.1)) result
        (parts_from (begins table.now) (reads table.now) scope.now (spot_of spot.entry) parts.now) }
    ensures stops { IfOk result (λ x. GoesOn spot.entry.place (length spot.entry.rest.now) x.1) }
{
    let mut found = Vec::with_capacity(alloc, parts.len())?;
    let mut spot = parts_at_once(alloc, table, parts, scope, spot, &mut found);
    while found.len() < parts.len() {
        let part = &parts[found.len()];
        let (value, next) = part_of(alloc, table, of, part, scope, spot)?;
        found.push_reserved(value);
        let rest = &parts[found.len()..];
        spot = parts_at_once(alloc, table, rest, scope, next, &mut found);
    }
    let after = close(scope, spot)?;
    Ok((found, after))
}

/// One part of a SEQUENCE, if it is there, and where reading goes on.
#[cycle(reading)]
#[inline(never)]
#[tactic(auto, unfolding(crate::specs::Parts::part_from))]
fn part_of<'a>(
    alloc: Global,
    table: &TypeTable,
    of: TypeId,
    part: &Part,
    scope: &Scope,
    spot: Spot<'a>,
) -> Result<(Option<Val>, Spot<'a>), ReadFault>
    requires { ReadsBelow part.now.inner.0 of.0 (length table.now) spot.place
        (length spot.rest.now) }
    ensures gives { Gives (λ x. (x.0, spot_of x.1)) result
        (part_from (begins table.now) (reads table.now part.now.inner.0) part.now scope.now
        (spot_of spot.entry)) }
    ensures stops { IfOk result (λ x. GoesOn spot.entry.place (length spot.entry.rest.now) x.1) }
{
    match look_ahead(scope, spot)? {
        Ahead::Ended { place, .. } => absent(part, place, spot),
        Ahead::Begun(opened, after) => {
            part_begun(alloc, table, of, part, scope, spot, &opened, after)
        }
    }
}

/// The part that begins with this identifier, if one does; else the spot is left as it is.
#[cycle(reading)]
#[inline(always)]
fn part_begun<'a>(
    alloc: Global,
    table: &TypeTable,
    of: TypeId,
    part: &Part,
    scope: &Scope,
    spot: Spot<'a>,
    opened: &Opened<'a>,
    after: Spot<'a>,
) -> Result<(Option<Val>, Spot<'a>), ReadFault>
    requires reads { ReadsBelow part.now.inner.0 of.0 (length table.now) spot.place
        (length spot.rest.now) }
    requires start { Opens spot.place (length spot.rest.now) opened.now after }
    ensures gives { Gives (λ x. (x.0, spot_of x.1)) result
        (found_at (begins table.now) (reads table.now part.now.inner.0) part.now scope.now
        (spot_of spot.entry) (begun (opened_of opened.now) (spot_of after.entry))) }
    ensures stops { IfOk result (λ x. GoesOn spot.entry.place (length spot.entry.rest.now) x.1) }
{
    if begins(table, part.inner, opened.class, opened.number) {
        let default = part.default;
        let read = value(
            alloc, table, part.inner, None, default, scope, opened, after,
        )?;
        let (value, next) = read;
        return Ok((kept(part, value), next));
    }
    absent(part, opened.start.place, spot)
}

/// A SET.
#[cycle(reading)]
#[inline(never)]
fn set<'a>(
    alloc: Global,
    table: &TypeTable,
    of: TypeId,
    parts: &Parts,
    tag: Tag,
    scope: &Scope,
    opened: &Opened<'a>,
    spot: Spot<'a>,
) -> Result<(Val, Spot<'a>), ReadFault>
    requires { ReadsPartsBelow parts.now of.0 (length table.now) spot.place (length spot.rest.now) }
    ensures gives { Gives (λ x. (x.0, spot_of x.1)) result
        (set_at (begins table.now) (reads table.now) parts.now tag scope.now (opened_of opened.now)
        (spot_of spot.entry)) }
    ensures stops { IfOk result (λ x. GoesOn spot.entry.place (length spot.entry.rest.now) x.1) }
{
    expect_tag(tag, true, opened)?;
    let (inside, spot) = extent(scope, spot)?;
    let found = empty_slots(alloc, parts.as_slice())?;
    let (found, after) = slots(alloc, table, of, parts.as_slice(), found, &inside, spot)?;
    Ok((
        Val {
            node: Node::Parts(found),
        },
        after,
    ))
}

/// The parts of a SET, up to the end of its contents.
#[cycle(reading)]
fn slots<'a>(
    alloc: Global,
    table: &TypeTable,
    of: TypeId,
    parts: &[Part],
    found: MaybeVals,
    scope: &Scope,
    spot: Spot<'a>,
) -> Result<(MaybeVals, Spot<'a>), ReadFault>
    requires reads { ReadsPartsBelow parts.now of.0 (length table.now) spot.place
        (length spot.rest.now) }
    requires none { found.items ≡ empty_slots parts.now }
    ensures gives { Gives (λ x. (tree.parts (parts_of x.0.items), spot_of x.1)) result
        (all_items_at (slot_at (begins table.now) (reads table.now) 0 parts.now)
        (set_done parts.now) (nothing_filled parts.now) scope.now (spot_of spot.entry)) }
    ensures stops { IfOk result (λ x. GoesOn spot.entry.place (length spot.entry.rest.now) x.1) }
{
    let mut found = found;
    let mut least: u64 = 0;
    let mut spot = spot;
    for _turn in 0..spot.rest.len() + 1 {
        match look_ahead(scope, spot)? {
            Ahead::Ended { place, after } => {
                if is_filled(parts, &found) {
                    settle(parts, &mut found);
                    return Ok((found, after));
                }
                return Err(refusal(place, Kind::Missing));
            }
            Ahead::Begun(opened, after) => {
                let slot = slot(
                    alloc, table, of, parts, &found, least, scope, &opened, after,
                )?;
                let (which, value, next) = slot;
                found[which] = Some(value);
                least = tag_rank(opened.class, opened.number) + 1;
                spot = next;
            }
        }
    }
    Err(ReadFault::Short)
}

/// The part of a SET that begins with this identifier, and its slot, which must be free.
#[cycle(reading)]
#[tactic(auto, unfolding(ber_spelling::specs::Rules::slot_at))]
fn slot<'a>(
    alloc: Global,
    table: &TypeTable,
    of: TypeId,
    parts: &[Part],
    found: &[Option<Val>],
    least: u64,
    scope: &Scope,
    opened: &Opened<'a>,
    spot: Spot<'a>,
) -> Result<(usize, Val, Spot<'a>), ReadFault>
    requires reads { ReadsPartsBelow parts.now of.0 (length table.now) spot.place
        (length spot.rest.now) }
    requires slots { length found.now ≡ length parts.now }
    requires start { GoesOn opened.now.start.place (length opened.now.start.rest.now) spot }
    ensures gives { Gives (λ x. (
      record {
        found = slice_set found.now x.0 (Some x.1);
        least = rank opened.now.class opened.now.number + 1;
      },
      spot_of x.2,
    )) result
        (slot_at (begins table.now) (reads table.now) 0 parts.now
        (record { found = found.now; least = least }) scope.now (opened_of opened.now)
        (spot_of spot.entry)) }
    ensures slot { IfOk result (λ x. x.0 < length found.now) }
    ensures stops { IfOk result (λ x. GoesOn spot.entry.place (length spot.entry.rest.now) x.2) }
{
    for (which, part) in parts.iter().enumerate() {
        if begins(table, part.inner, opened.class, opened.number) {
            if !is_free(&found[which]) {
                let kind = Kind::Extra;
                return Err(late(alloc, table, of, part, kind, scope, opened, spot));
            }
            let (value, after) = ordered(alloc, table, of, part, least, scope, opened, spot)?;
            return Ok((which, value, after));
        }
    }
    Err(refusal(opened.start.place, Kind::Extra))
}

/// A part of a SET. In DER its tag has at least this rank.
#[cycle(reading)]
fn ordered<'a>(
    alloc: Global,
    table: &TypeTable,
    of: TypeId,
    part: &Part,
    least: u64,
    scope: &Scope,
    opened: &Opened<'a>,
    spot: Spot<'a>,
) -> Result<(Val, Spot<'a>), ReadFault>
    requires reads { ReadsBelow part.now.inner.0 of.0 (length table.now) spot.place
        (length spot.rest.now) }
    requires start { GoesOn opened.now.start.place (length opened.now.start.rest.now) spot }
    ensures gives { Gives (λ x. (x.0, spot_of x.1)) result
        (ordered_at (reads table.now part.now.inner.0 (bare part.now.default)) least scope.now
        (opened_of opened.now) (spot_of spot.entry)) }
    ensures stops { IfOk result (λ x. GoesOn spot.entry.place (length spot.entry.rest.now) x.1) }
{
    if scope.strict && tag_rank(opened.class, opened.number) < least {
        return Err(late(alloc, table, of, part, Kind::Form, scope, opened, spot));
    }
    let default = part.default;
    value(alloc, table, part.inner, None, default, scope, opened, spot)
}

/// The fault of a part that may not stand here: that of its identifier alone comes first.
#[cycle(reading)]
fn late<'a>(
    alloc: Global,
    table: &TypeTable,
    of: TypeId,
    part: &Part,
    kind: Kind,
    scope: &Scope,
    opened: &Opened<'a>,
    spot: Spot<'a>,
) -> ReadFault
    requires { ReadsBelow part.now.inner.0 of.0 (length table.now) spot.place
        (length spot.rest.now) }
    ensures { FailsWith result (late_at {A = Unit {0}} kind
        (reads table.now part.now.inner.0 (bare part.now.default)) scope.now (opened_of opened.now)
        (spot_of spot.entry)) }
{
    let behind = Spot {
        place: spot.place,
        rest: &spot.rest[..0],
    };
    let alone = Opened {
        start: behind,
        class: opened.class,
        constructed: opened.constructed,
        number: opened.number,
    };
    let default = part.default;
    match value(
        alloc, table, part.inner, None, default, scope, &alone, behind,
    ) {
        Err(ReadFault::NoMemory) => ReadFault::NoMemory,
        Err(
            ReadFault::NotSpelled {
                kind: Kind::Tag,
                ..
            },
        ) => refusal(opened.start.place, Kind::Tag),
        _ => refusal(opened.start.place, kind),
    }
}
