//! Contents of constructed values: where they begin and end, and any one value in them.

ghost use Rattle.std.specs.Prelude.{◌≡◌, length, IfOk};
ghost use Rattle.osi_base.specs.OctetPlaces.{HasPlaces};
ghost use Rattle.ber_spelling.specs.Reading.{Gives, spot_of, opened_of, GoesOn, IsBehind};
ghost use Rattle.ber_spelling.specs.Rules.{open_at, close_at, any_at, explicit_at, or_explicit};

use asn1_types::{Node, Val};
use ber_spelling::{
    Ahead, Opened, ReadFault, Scope, Spot, Tag, expect_tag, extent, look_ahead, refusal,
    whole_value,
};
use osi_base::{Kind, Octets};
use std::alloc::Global;

/// Opens a constructed value that holds one value.
#[tactic(auto, unfolding(ber_spelling::specs::Rules::open_at))]
pub(crate) fn open<'a>(
    tag: Tag,
    scope: &Scope,
    opened: &Opened<'a>,
    spot: Spot<'a>,
) -> Result<(Scope, Opened<'a>, Spot<'a>), ReadFault>
    requires { HasPlaces spot.place spot.rest.now }
    ensures gives { Gives (λ x. (x.0, opened_of x.1, spot_of x.2)) result
        (open_at tag scope.now (opened_of opened.now) (spot_of spot.entry)) }
    ensures stops { IfOk result (λ x. GoesOn x.1.start.place (length x.1.start.rest.now) x.2) }
    ensures onward { IfOk result (λ x. GoesOn spot.entry.place (length spot.entry.rest.now) x.2) }
{
    expect_tag(tag, true, opened)?;
    let (inside, spot) = extent(scope, spot)?;
    match look_ahead(&inside, spot)? {
        Ahead::Ended { place, .. } => Err(refusal(place, Kind::Missing)),
        Ahead::Begun(first, after) => Ok((inside, first, after)),
    }
}

/// Closes contents of which nothing more is to come.
#[tactic(auto, unfolding(ber_spelling::specs::Rules::close_at, ber_spelling::specs::Fields::look_at))]
#[inline(always)]
pub(crate) fn close<'a>(scope: &Scope, spot: Spot<'a>) -> Result<Spot<'a>, ReadFault>
    requires { HasPlaces spot.place spot.rest.now }
    ensures gives { Gives (λ x. spot_of x) result (close_at scope.now (spot_of spot.entry)) }
    ensures stops { IfOk result (λ x. GoesOn spot.entry.place (length spot.entry.rest.now) x) }
{
    if let Some(end) = scope.end {
        if end <= spot.place && !scope.marked {
            return Ok(spot);
        }
    }
    close_behind(scope, spot)
}

/// As `close`, wherever the contents end.
#[tactic(auto, unfolding(ber_spelling::specs::Rules::close_at))]
#[inline(never)]
pub(crate) fn close_behind<'a>(scope: &Scope, spot: Spot<'a>) -> Result<Spot<'a>, ReadFault>
    requires { HasPlaces spot.place spot.rest.now }
    ensures gives { Gives (λ x. spot_of x) result (close_at scope.now (spot_of spot.entry)) }
    ensures stops { IfOk result (λ x. GoesOn spot.entry.place (length spot.entry.rest.now) x) }
{
    match look_ahead(scope, spot)? {
        Ahead::Ended { after, .. } => Ok(after),
        Ahead::Begun(opened, _) => Err(refusal(opened.start.place, Kind::Extra)),
    }
}

/// Any one value, as octets.
#[tactic(auto, unfolding(ber_spelling::specs::Rules::any_at))]
#[inline(never)]
pub fn any_value<'a>(
    alloc: Global,
    scope: &Scope,
    opened: &Opened<'a>,
    spot: Spot<'a>,
) -> Result<(Val, Spot<'a>), ReadFault>
    requires { IsBehind opened.now spot }
    ensures gives { Gives (λ x. (x.0, spot_of x.1)) result
        (any_at scope.now (opened_of opened.now) (spot_of spot.entry)) }
    ensures stops { IfOk result (λ x. GoesOn spot.entry.place (length spot.entry.rest.now) x.1) }
{
    let after = whole_value(32, scope, opened, spot)?;
    let whole = opened.start.rest;
    let octets = Octets::from_slice(alloc, &whole[..whole.len() - after.rest.len()])?;
    Ok((
        Val {
            node: Node::Any(octets),
        },
        after,
    ))
}

#[tactic(auto, unfolding(ber_spelling::specs::Rules::explicit_at))]
#[inline(never)]
pub(crate) fn tagged_any<'a>(
    alloc: Global,
    tag: Tag,
    scope: &Scope,
    opened: &Opened<'a>,
    spot: Spot<'a>,
) -> Result<(Val, Spot<'a>), ReadFault>
    requires { HasPlaces spot.place spot.rest.now }
    ensures gives { Gives (λ x. (x.0, spot_of x.1)) result
        (explicit_at any_at tag scope.now (opened_of opened.now) (spot_of spot.entry)) }
    ensures stops { IfOk result (λ x. GoesOn spot.entry.place (length spot.entry.rest.now) x.1) }
{
    let (inside, first, spot) = open(tag, scope, opened, spot)?;
    let (value, spot) = any_value(alloc, &inside, &first, spot)?;
    Ok((value, close(&inside, spot)?))
}

/// Any one value, under a tag if one is given.
#[inline(always)]
pub(crate) fn any_under<'a>(
    alloc: Global,
    tag: Option<Tag>,
    scope: &Scope,
    opened: &Opened<'a>,
    spot: Spot<'a>,
) -> Result<(Val, Spot<'a>), ReadFault>
    requires { IsBehind opened.now spot }
    ensures gives { Gives (λ x. (x.0, spot_of x.1)) result
        (or_explicit any_at tag scope.now (opened_of opened.now) (spot_of spot.entry)) }
    ensures stops { IfOk result (λ x. GoesOn spot.entry.place (length spot.entry.rest.now) x.1) }
{
    match tag {
        None => any_value(alloc, scope, opened, spot),
        Some(tag) => tagged_any(alloc, tag, scope, opened, spot),
    }
}
