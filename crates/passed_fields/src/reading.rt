//! Fields read from the left.

ghost use Rattle.std.specs.Prelude.{◌≡◌, ◌++◌, ◌<◌, length, Some, IfOk, OnOk, drop};
ghost use Rattle.osi_base.specs.OctetPlaces.{HasPlaces};
ghost use Rattle.asn1_types.specs.Value as tree;
ghost use Rattle.asn1_types.specs.ValueView.{values_of, parts_of};
ghost use Rattle.ber_spelling.specs.Reading.{Gives, GoesOn, IsBehind, opened_of, spot_of};
ghost use Rattle.ber_spelling.specs.Rules.{all_items_at, list_item_at, reads};
ghost use Rattle.passed_fields.specs.Known.{HasRow, HaveRows};
ghost use Rattle.passed_fields.specs.Passing.{is_of, are_optional, nones, settled_behind, settled_by, passes};
ghost use Rattle.passed_fields.specs.Reading as spec;
ghost use Rattle.passed_fields.specs.Reading.{some_done, some_items_at, some_at, tag_of, held_by, known_at, pass_at, field_at, fields_done, fields_at, fielded_at};

use crate::field::{Field, Fields, Holds, Passed};
use asn1_types::{Class, MaybeVals, Node, TypeId, TypeTable, Val, Vals, same_class};
use ber_reading::{any_value, value};
use ber_spelling::{
    Ahead, Opened, ReadFault, Scope, Spot, Tag, expect_tag, extent, look_ahead, refusal,
    whole_value,
};
use osi_base::{Kind, NoMemory};
use std::alloc::Global;

/// A SEQUENCE OF values of a row, at least one, under this tag.
pub fn some_values<'a>(
    alloc: Global,
    table: &TypeTable,
    of: TypeId,
    tag: Tag,
    scope: &Scope,
    opened: &Opened<'a>,
    spot: Spot<'a>,
) -> Result<(Val, Spot<'a>), ReadFault>
    requires row { of.0 < length table.now }
    requires whole { HasPlaces spot.place spot.rest.now }
    ensures gives { Gives (λ x. (x.0, spot_of x.1)) result
        (some_at (reads table.now of.0) tag scope.now (opened_of opened.now) (spot_of spot.entry)) }
    ensures stops { IfOk result (λ x. GoesOn spot.entry.place (length spot.entry.rest.now) x.1) }
{
    expect_tag(tag, true, opened)?;
    let (inside, spot) = extent(scope, spot)?;
    some_items(alloc, table, of, &inside, spot)
}

/// The items of such a SEQUENCE OF, up to the end of its contents.
fn some_items<'a>(
    alloc: Global,
    table: &TypeTable,
    of: TypeId,
    scope: &Scope,
    spot: Spot<'a>,
) -> Result<(Val, Spot<'a>), ReadFault>
    requires row { of.0 < length table.now }
    requires whole { HasPlaces spot.place spot.rest.now }
    ensures gives { Gives (λ x. (x.0, spot_of x.1)) result
        (some_items_at (reads table.now of.0) scope.now (spot_of spot.entry)) }
    ensures stops { IfOk result (λ x. GoesOn spot.entry.place (length spot.entry.rest.now) x.1) }
{
    let mut found = Vec::new(alloc);
    let mut spot = spot;
    for _turn in 0..spot.rest.len() + 1 {
        match look_ahead(scope, spot)? {
            Ahead::Ended { place, after } => {
                let Some(value) = some_list(found) else {
                    return Err(refusal(place, Kind::Missing));
                };
                return Ok((value, after));
            }
            Ahead::Begun(opened, after) => {
                let (value, next) = value(alloc, table, of, None, None, scope, &opened, after)?;
                found.push(value)?;
                spot = next;
            }
        }
    }
    Err(ReadFault::Short)
}

/// A list, if it has items.
fn some_list(found: Vals) -> Option<Val>
    ensures { result ≡ some_done found.items }
{
    if found.is_empty() {
        return None;
    }
    Some(Val {
        node: Node::List(found),
    })
}

/// What a known field holds.
fn held<'a>(
    alloc: Global,
    table: &TypeTable,
    tag: Tag,
    holds: Holds,
    scope: &Scope,
    opened: &Opened<'a>,
    spot: Spot<'a>,
) -> Result<(Val, Spot<'a>), ReadFault>
    requires row { HasRow table.now holds }
    requires behind { IsBehind opened.now spot }
    ensures gives { Gives (λ x. (x.0, spot_of x.1)) result
        (held_by table.now tag holds scope.now (opened_of opened.now) (spot_of spot.entry)) }
    ensures stops { IfOk result (λ x. GoesOn spot.entry.place (length spot.entry.rest.now) x.1) }
{
    match holds {
        Holds::Row(of) => value(alloc, table, of, None, None, scope, opened, spot),
        Holds::Any => any_value(alloc, scope, opened, spot),
        Holds::Some(of) => some_values(alloc, table, of, tag, scope, opened, spot),
    }
}

/// Whether a field begins so.
fn is_of(field: &Field, class: Class, number: u64) -> bool
    ensures { result ≡ is_of field.now class number }
{
    same_class(class, field.class) && number == field.number as u64 && number < 31
}

/// The first of these fields that may stand next, behind those found before.
#[tactic(auto, unfolding(crate::specs::Reading::known_at))]
fn known<'a>(
    alloc: Global,
    table: &TypeTable,
    fields: &[Field],
    found: MaybeVals,
    scope: &Scope,
    opened: &Opened<'a>,
    spot: Spot<'a>,
) -> Result<(MaybeVals, Spot<'a>), ReadFault>
    requires rows { HaveRows table.now fields.now }
    requires behind { IsBehind opened.now spot }
    ensures gives { Gives (λ x. (x.0.items, spot_of x.1)) result
        (known_at table.now fields.now found.items scope.now (opened_of opened.now)
        (spot_of spot.entry)) }
    ensures stops { IfOk result (λ x. GoesOn spot.entry.place (length spot.entry.rest.now) x.1) }
{
    let mut found = found;
    let [first, rest @ ..] = fields else {
        return Err(refusal(opened.start.place, Kind::Extra));
    };
    if is_of(first, opened.class, opened.number) {
        let tag = Tag {
            class: first.class,
            number: first.number,
        };
        let (value, after) = held(alloc, table, tag, first.holds, scope, opened, spot)?;
        found.push(Some(value))?;
        return Ok((found, after));
    }
    if !first.optional {
        return Err(refusal(opened.start.place, Kind::Missing));
    }
    found.push(None)?;
    known(alloc, table, rest, found, scope, opened, spot)
}

/// Of how many known fields it is settled whether they stand, behind one that is passed over.
fn settled_by(passed: &Passed, settled: usize, class: Class, number: u64) -> Option<usize>
    ensures { result ≡ settled_by passed.now settled class number }
{
    let is_over = same_class(class, Class::Context)
        && passed.low as u64 <= number
        && number <= passed.high as u64
        && number < 31;
    if !is_over {
        return None;
    }
    match passed.before {
        None => Some(settled),
        Some(before) if settled <= before => Some(before),
        Some(_) => None,
    }
}

/// As `settled_by`, of the first of these that allow it.
fn passes(passed: &[Passed], settled: usize, class: Class, number: u64) -> Option<usize>
    ensures { result ≡ passes passed.now settled class number }
{
    match passed {
        [] => None,
        [first, rest @ ..] => match settled_by(first, settled, class, number) {
            Some(settled) => Some(settled),
            None => passes(rest, settled, class, number),
        },
    }
}

/// So many fields don't stand behind those found.
fn add_nones(found: &mut MaybeVals, count: usize) -> Result<(), NoMemory>
    ensures { OnOk result (found.new.items ≡ found.old.items ++ nones count) }
{
    if count == 0 {
        return Ok(());
    }
    found.push(None)?;
    add_nones(found, count - 1)?;
    Ok(())
}

/// One value of any type, of which nothing is kept.
fn pass<'a>(
    found: MaybeVals,
    settled: usize,
    scope: &Scope,
    opened: &Opened<'a>,
    spot: Spot<'a>,
) -> Result<(MaybeVals, Spot<'a>), ReadFault>
    requires { HasPlaces spot.place spot.rest.now }
    ensures gives { Gives (λ x. (x.0.items, spot_of x.1)) result
        (pass_at found.items settled scope.now (opened_of opened.now) (spot_of spot.entry)) }
    ensures stops { IfOk result (λ x. GoesOn spot.entry.place (length spot.entry.rest.now) x.1) }
{
    let mut found = found;
    let end = whole_value(32, scope, opened, spot)?;
    let count = settled.saturating_sub(found.len());
    add_nones(&mut found, count)?;
    Ok((found, end))
}

/// One field, behind those found before.
#[tactic(auto, unfolding(crate::specs::Reading::field_at))]
fn field<'a>(
    alloc: Global,
    table: &TypeTable,
    fields: &Fields,
    found: MaybeVals,
    scope: &Scope,
    opened: &Opened<'a>,
    spot: Spot<'a>,
) -> Result<(MaybeVals, Spot<'a>), ReadFault>
    requires rows { HaveRows table.now fields.now.known.now }
    requires behind { IsBehind opened.now spot }
    ensures gives { Gives (λ x. (x.0.items, spot_of x.1)) result
        (field_at table.now fields.now.known.now fields.now.passed.now found.items scope.now
        (opened_of opened.now) (spot_of spot.entry)) }
    ensures stops { IfOk result (λ x. GoesOn spot.entry.place (length spot.entry.rest.now) x.1) }
{
    match passes(fields.passed, found.len(), opened.class, opened.number) {
        Some(settled) => pass(found, settled, scope, opened, spot),
        None => {
            let next = behind(fields.known, found.len());
            known(alloc, table, next, found, scope, opened, spot)
        }
    }
}

/// The fields behind so many.
#[tactic(auto, using(crate::proofs::Nones::drop_past))]
fn behind(fields: &[Field], settled: usize) -> &[Field]
    ensures { result.now ≡ drop settled fields.now }
{
    if settled <= fields.len() {
        &fields[settled..]
    } else {
        &[]
    }
}

fn are_optional(fields: &[Field]) -> bool
    ensures { result ≡ are_optional fields.now }
{
    match fields {
        [] => true,
        [first, rest @ ..] => first.optional && are_optional(rest),
    }
}

/// The value of the fields found, if none of the others must stand.
fn ended(fields: &[Field], found: MaybeVals) -> Result<Option<Val>, NoMemory>
    ensures { IfOk result (λ value. value ≡ fields_done fields.now found.items) }
{
    let mut found = found;
    let settled = found.len();
    if !are_optional(behind(fields, settled)) {
        return Ok(None);
    }
    let count = fields.len().saturating_sub(settled);
    add_nones(&mut found, count)?;
    Ok(Some(Val {
        node: Node::Parts(found),
    }))
}

/// Fields up to the end of the contents.
fn all_fields<'a>(
    alloc: Global,
    table: &TypeTable,
    fields: &Fields,
    scope: &Scope,
    spot: Spot<'a>,
) -> Result<(Val, Spot<'a>), ReadFault>
    requires rows { HaveRows table.now fields.now.known.now }
    requires whole { HasPlaces spot.place spot.rest.now }
    ensures gives { Gives (λ x. (x.0, spot_of x.1)) result
        (fields_at table.now fields.now.known.now fields.now.passed.now scope.now
        (spot_of spot.entry)) }
    ensures stops { IfOk result (λ x. GoesOn spot.entry.place (length spot.entry.rest.now) x.1) }
{
    let mut found = Vec::new(alloc);
    let mut spot = spot;
    for _turn in 0..spot.rest.len() + 1 {
        match look_ahead(scope, spot)? {
            Ahead::Ended { place, after } => {
                let Some(value) = ended(fields.known, found)? else {
                    return Err(refusal(place, Kind::Missing));
                };
                return Ok((value, after));
            }
            Ahead::Begun(opened, after) => {
                let (more, next) = field(alloc, table, fields, found, scope, &opened, after)?;
                found = more;
                spot = next;
            }
        }
    }
    Err(ReadFault::Short)
}

/// A constructed value of fields under this tag, as a value of SEQUENCE with a part for each known
/// field (X.690 8.9). Places of faults are those in the octets as they came.
pub fn fields<'a>(
    alloc: Global,
    table: &TypeTable,
    fields: &Fields,
    tag: Tag,
    scope: &Scope,
    opened: &Opened<'a>,
    spot: Spot<'a>,
) -> Result<(Val, Spot<'a>), ReadFault>
    requires rows { HaveRows table.now fields.now.known.now }
    requires whole { HasPlaces spot.place spot.rest.now }
    ensures gives { Gives (λ x. (x.0, spot_of x.1)) result
        (fielded_at table.now fields.now.known.now fields.now.passed.now tag scope.now
        (opened_of opened.now) (spot_of spot.entry)) }
    ensures stops { IfOk result (λ x. GoesOn spot.entry.place (length spot.entry.rest.now) x.1) }
{
    expect_tag(tag, true, opened)?;
    let (inside, spot) = extent(scope, spot)?;
    all_fields(alloc, table, fields, &inside, spot)
}
