//! Reading primitive values other than strings.

ghost use Rattle.std.specs.Prelude.{◌≡◌, ◌&&◌, length, IfOk, Some};
ghost use Rattle.osi_base.specs.OctetPlaces.{HasPlaces};
ghost use Rattle.asn1_types.specs.Value as tree;
ghost use Rattle.ber_spelling.specs.Reading.{Gives, spot_of, opened_of, GoesOn, GoesOnWithoutMemory};
ghost use Rattle.ber_spelling.specs.Rules.{primitive_at, always, boolean_rule, is_strict_boolean, is_other, integer_rule, enumerated_rule, null_rule, object_id_rule};

use crate::fault::ReadFault;
use crate::fields::{contents, refusal};
use crate::primitives::{arcs_of, integer_of};
use crate::spot::{Opened, Scope, Spot};
use crate::tag::expect_tag;
use asn1_types::{Item, Node, Tag, Val, is_item};
use osi_base::Kind;
use std::alloc::Global;

/// Whether a number isn't this default; true where there is no default.
#[inline(always)]
pub fn is_other_number(default: Option<i64>, number: i64) -> bool
    ensures { result ≡ is_other default (Some (tree.integer number)) }
{
    match default {
        Some(default) => default != number,
        None => true,
    }
}

/// Whether a truth value isn't this default; true where there is no default.
#[inline(always)]
fn is_other_truth(default: Option<i64>, truth: bool) -> bool
    ensures { result ≡ is_other default (Some (tree.boolean truth)) }
{
    match default {
        Some(default) => default != if truth { 1 } else { 0 },
        None => true,
    }
}

/// A BOOLEAN behind its identifier (X.690 8.2), and where reading goes on; or the first fault in
/// it. In DER it isn't the default of its part.
#[tactic(auto, unfolding(crate::specs::Rules::primitive_at))]
#[inline(never)]
pub fn boolean<'a>(
    tag: Tag,
    default: Option<i64>,
    scope: &Scope,
    opened: &Opened<'a>,
    spot: Spot<'a>,
) -> Result<(Val, Spot<'a>), ReadFault>
    requires { HasPlaces spot.place spot.rest.now }
    ensures gives { Gives (λ x. (x.0, spot_of x.1)) result
        (primitive_at boolean_rule (λ c. is_strict_boolean c && is_other default (boolean_rule c))
        tag scope.now (opened_of opened.now) (spot_of spot.entry)) }
    ensures stops { GoesOnWithoutMemory spot.entry.place (length spot.entry.rest.now) result }
{
    expect_tag(tag, false, opened)?;
    let (place, octets, after) = contents(scope, spot)?;
    match octets {
        [octet] => {
            let truth = *octet != 0;
            if scope.strict && !(*octet == 0 || *octet == 255) {
                return Err(refusal(place, Kind::Form));
            }
            if scope.strict && !is_other_truth(default, truth) {
                return Err(refusal(place, Kind::Form));
            }
            let node = Node::Bool(truth);
            Ok((Val { node }, after))
        }
        _ => Err(refusal(place, Kind::Content)),
    }
}

/// An ENUMERATED of these items behind its identifier (X.690 8.4), and where
/// reading goes on; or the first fault in it. In DER it isn't the default of its part.
#[tactic(auto, unfolding(crate::specs::Rules::primitive_at))]
#[inline(never)]
pub fn enumerated<'a>(
    items: &[Item],
    tag: Tag,
    default: Option<i64>,
    scope: &Scope,
    opened: &Opened<'a>,
    spot: Spot<'a>,
) -> Result<(Val, Spot<'a>), ReadFault>
    requires { HasPlaces spot.place spot.rest.now }
    ensures gives { Gives (λ x. (x.0, spot_of x.1)) result
        (primitive_at (enumerated_rule items.now)
        (λ c. is_other default (enumerated_rule items.now c)) tag scope.now (opened_of opened.now)
        (spot_of spot.entry)) }
    ensures stops { GoesOnWithoutMemory spot.entry.place (length spot.entry.rest.now) result }
{
    expect_tag(tag, false, opened)?;
    let (place, octets, after) = contents(scope, spot)?;
    match integer_of(octets) {
        Some(number) if is_item(items, number) => {
            if scope.strict && !is_other_number(default, number) {
                return Err(refusal(place, Kind::Form));
            }
            let node = Node::Int(number);
            Ok((Val { node }, after))
        }
        _ => Err(refusal(place, Kind::Content)),
    }
}

/// An INTEGER from `low` to `high` behind its identifier (X.690 8.3), and where
/// reading goes on; or the first fault in it. In DER it isn't the default of its part.
#[tactic(auto, unfolding(crate::specs::Rules::primitive_at))]
#[inline(never)]
pub fn integer<'a>(
    low: i64,
    high: i64,
    tag: Tag,
    default: Option<i64>,
    scope: &Scope,
    opened: &Opened<'a>,
    spot: Spot<'a>,
) -> Result<(Val, Spot<'a>), ReadFault>
    requires { HasPlaces spot.place spot.rest.now }
    ensures gives { Gives (λ x. (x.0, spot_of x.1)) result
        (primitive_at (integer_rule low high) (λ c. is_other default (integer_rule low high c)) tag
        scope.now (opened_of opened.now) (spot_of spot.entry)) }
    ensures stops { GoesOnWithoutMemory spot.entry.place (length spot.entry.rest.now) result }
{
    expect_tag(tag, false, opened)?;
    let (place, octets, after) = contents(scope, spot)?;
    match integer_of(octets) {
        Some(number) if low <= number && number <= high => {
            if scope.strict && !is_other_number(default, number) {
                return Err(refusal(place, Kind::Form));
            }
            let node = Node::Int(number);
            Ok((Val { node }, after))
        }
        _ => Err(refusal(place, Kind::Content)),
    }
}

/// A NULL behind its identifier (X.690 8.8), and where reading goes on; or the first fault in it.
#[tactic(auto, unfolding(crate::specs::Rules::primitive_at))]
#[inline(never)]
pub fn null<'a>(
    tag: Tag,
    scope: &Scope,
    opened: &Opened<'a>,
    spot: Spot<'a>,
) -> Result<(Val, Spot<'a>), ReadFault>
    requires { HasPlaces spot.place spot.rest.now }
    ensures gives { Gives (λ x. (x.0, spot_of x.1)) result
        (primitive_at null_rule always tag scope.now (opened_of opened.now) (spot_of spot.entry)) }
    ensures stops { GoesOnWithoutMemory spot.entry.place (length spot.entry.rest.now) result }
{
    expect_tag(tag, false, opened)?;
    let (place, octets, after) = contents(scope, spot)?;
    match octets {
        [] => Ok((Val { node: Node::Null }, after)),
        _ => Err(refusal(place, Kind::Content)),
    }
}

/// An OBJECT IDENTIFIER behind its identifier (X.690 8.19), and where
/// reading goes on; or the first fault in it.
#[tactic(auto, unfolding(crate::specs::Rules::primitive_at))]
#[inline(never)]
pub fn object_id<'a>(
    alloc: Global,
    tag: Tag,
    scope: &Scope,
    opened: &Opened<'a>,
    spot: Spot<'a>,
) -> Result<(Val, Spot<'a>), ReadFault>
    requires { HasPlaces spot.place spot.rest.now }
    ensures gives { Gives (λ x. (x.0, spot_of x.1)) result
        (primitive_at object_id_rule always tag scope.now (opened_of opened.now)
        (spot_of spot.entry)) }
    ensures stops { IfOk result (λ x. GoesOn spot.entry.place (length spot.entry.rest.now) x.1) }
{
    expect_tag(tag, false, opened)?;
    let (place, octets, after) = contents(scope, spot)?;
    match arcs_of(alloc, octets)? {
        Some(oid) => Ok((
            Val {
                node: Node::ObjectId(oid),
            },
            after,
        )),
        None => Err(refusal(place, Kind::Content)),
    }
}
