//! Reading values of one field, and values behind a size: numbers and strings.

ghost use Rattle.std.specs.Prelude.{◌≡◌, ◌≤◌, length, IfOk};
ghost use Rattle.osi_base.specs.OctetPlaces.{HasPlaces};
ghost use Rattle.asn1_types.specs.Defaults.{is_item};
ghost use Rattle.ber_spelling.specs.Rules.{in_range};
ghost use Rattle.packed_codec.specs.Numbers.{is_size};
ghost use Rattle.packed_codec.specs.Reading.{Gives, spot_of, GoesOn};
ghost use Rattle.ber_spelling.specs.Rules.{object_id_rule};
ghost use Rattle.packed_codec.specs.Rules.{boolean_at, null_at, number_at, string_at, number_rule, any_size, at_most, octets_rule, text_rule, bits_at, bits_size, bits_rule};

use crate::fault::PackedFault;
use crate::fields::{announced, count, octet, refusal};
use crate::object_ids::arcs_of;
use crate::spot::Spot;
use asn1_types::{Item, Node, TextKind, Val, are_bits, is_item, is_text};
use ber_spelling::integer_of;
use osi_base::Octets;
use std::alloc::Global;

/// Whether so many octets may be a number.
fn is_size(size: u8) -> bool
    ensures { result ≡ is_size size }
{
    1 <= size && size <= 8
}

/// A BOOLEAN: 0 or 1.
#[tactic(auto, unfolding(crate::specs::Rules::boolean_at))]
pub(crate) fn boolean<'a>(limit: u32, spot: Spot<'a>) -> Result<(Val, Spot<'a>), PackedFault>
    requires { HasPlaces spot.place spot.rest.now }
    ensures gives { Gives (λ x. (x.0, spot_of x.1)) result (boolean_at limit (spot_of spot.entry)) }
    ensures stops { IfOk result (λ x. GoesOn spot.entry.place (length spot.entry.rest.now) x.1) }
{
    let (octet, after) = octet(limit, spot)?;
    let truth = match octet {
        0 => false,
        1 => true,
        _ => return Err(refusal(spot.place)),
    };
    Ok((
        Val {
            node: Node::Bool(truth),
        },
        after,
    ))
}

/// A NULL, which has no octets.
#[tactic(auto, unfolding(crate::specs::Rules::null_at))]
pub(crate) fn null<'a>(limit: u32, spot: Spot<'a>) -> Result<(Val, Spot<'a>), PackedFault>
    ensures gives { Gives (λ x. (x.0, spot_of x.1)) result (null_at limit (spot_of spot.entry)) }
    ensures stops { IfOk result (λ x. GoesOn spot.entry.place (length spot.entry.rest.now) x.1) }
{
    Ok((Val { node: Node::Null }, spot))
}

/// An INTEGER from `low` to `high`.
#[tactic(auto, unfolding(crate::specs::Rules::number_at, crate::specs::Rules::sized_at))]
pub(crate) fn integer<'a>(
    low: i64,
    high: i64,
    limit: u32,
    spot: Spot<'a>,
) -> Result<(Val, Spot<'a>), PackedFault>
    requires { HasPlaces spot.place spot.rest.now }
    ensures gives { Gives (λ x. (x.0, spot_of x.1)) result
        (number_at (number_rule (in_range low high)) limit (spot_of spot.entry)) }
    ensures stops { IfOk result (λ x. GoesOn spot.entry.place (length spot.entry.rest.now) x.1) }
{
    let (size, behind) = octet(limit, spot)?;
    if !is_size(size) {
        return Err(refusal(spot.place));
    }
    let (octets, after) = announced(limit, spot.place, is_size(size), size as u32, behind)?;
    match integer_of(octets) {
        Some(number) if low <= number && number <= high => Ok((
            Val {
                node: Node::Int(number),
            },
            after,
        )),
        _ => Err(refusal(behind.place)),
    }
}

/// An ENUMERATED of these items.
#[tactic(auto, unfolding(crate::specs::Rules::number_at, crate::specs::Rules::sized_at))]
pub(crate) fn enumerated<'a>(
    items: &[Item],
    limit: u32,
    spot: Spot<'a>,
) -> Result<(Val, Spot<'a>), PackedFault>
    requires { HasPlaces spot.place spot.rest.now }
    ensures gives { Gives (λ x. (x.0, spot_of x.1)) result
        (number_at (number_rule (is_item items.now)) limit (spot_of spot.entry)) }
    ensures stops { IfOk result (λ x. GoesOn spot.entry.place (length spot.entry.rest.now) x.1) }
{
    let (size, behind) = octet(limit, spot)?;
    if !is_size(size) {
        return Err(refusal(spot.place));
    }
    let (octets, after) = announced(limit, spot.place, is_size(size), size as u32, behind)?;
    match integer_of(octets) {
        Some(number) if is_item(items, number) => Ok((
            Val {
                node: Node::Int(number),
            },
            after,
        )),
        _ => Err(refusal(behind.place)),
    }
}

/// An OCTET STRING of at most `most` octets.
#[tactic(auto, unfolding(crate::specs::Rules::string_at, crate::specs::Rules::sized_at))]
pub(crate) fn octet_string<'a>(
    alloc: Global,
    most: u32,
    limit: u32,
    spot: Spot<'a>,
) -> Result<(Val, Spot<'a>), PackedFault>
    requires { HasPlaces spot.place spot.rest.now }
    ensures gives { Gives (λ x. (x.0, spot_of x.1)) result
        (string_at (at_most most) octets_rule limit (spot_of spot.entry)) }
    ensures stops { IfOk result (λ x. GoesOn spot.entry.place (length spot.entry.rest.now) x.1) }
{
    let (size, behind) = count(limit, spot)?;
    let (octets, after) = announced(limit, spot.place, size <= most, size, behind)?;
    let node = Node::Octets(Octets::from_slice(alloc, octets)?);
    Ok((Val { node }, after))
}

/// A text of this kind.
#[tactic(auto, unfolding(crate::specs::Rules::string_at, crate::specs::Rules::sized_at))]
pub(crate) fn text<'a>(
    alloc: Global,
    kind: TextKind,
    limit: u32,
    spot: Spot<'a>,
) -> Result<(Val, Spot<'a>), PackedFault>
    requires { HasPlaces spot.place spot.rest.now }
    ensures gives { Gives (λ x. (x.0, spot_of x.1)) result
        (string_at any_size (text_rule kind) limit (spot_of spot.entry)) }
    ensures stops { IfOk result (λ x. GoesOn spot.entry.place (length spot.entry.rest.now) x.1) }
{
    let (size, behind) = count(limit, spot)?;
    let (octets, after) = announced(limit, spot.place, true, size, behind)?;
    if !is_text(kind, octets) {
        return Err(refusal(behind.place));
    }
    let node = Node::Text(Octets::from_slice(alloc, octets)?);
    Ok((Val { node }, after))
}

/// An OBJECT IDENTIFIER.
#[tactic(auto, unfolding(crate::specs::Rules::string_at, crate::specs::Rules::sized_at))]
pub(crate) fn object_id<'a>(
    alloc: Global,
    limit: u32,
    spot: Spot<'a>,
) -> Result<(Val, Spot<'a>), PackedFault>
    requires { HasPlaces spot.place spot.rest.now }
    ensures gives { Gives (λ x. (x.0, spot_of x.1)) result
        (string_at any_size object_id_rule limit (spot_of spot.entry)) }
    ensures stops { IfOk result (λ x. GoesOn spot.entry.place (length spot.entry.rest.now) x.1) }
{
    let (size, behind) = count(limit, spot)?;
    let (octets, after) = announced(limit, spot.place, true, size, behind)?;
    match arcs_of(alloc, octets)? {
        Some(oid) => Ok((
            Val {
                node: Node::ObjectId(oid),
            },
            after,
        )),
        None => Err(refusal(behind.place)),
    }
}

/// The octets of a BIT STRING of which so many bits are unused.
#[tactic(auto, unfolding(crate::specs::Rules::string_at, crate::specs::Rules::sized_at))]
fn bits_behind<'a>(
    alloc: Global,
    unused: u8,
    limit: u32,
    spot: Spot<'a>,
) -> Result<(Val, Spot<'a>), PackedFault>
    requires { HasPlaces spot.place spot.rest.now }
    ensures gives { Gives (λ x. (x.0, spot_of x.1)) result
        (string_at (bits_size unused) (bits_rule unused) limit (spot_of spot.entry)) }
    ensures stops { IfOk result (λ x. GoesOn spot.entry.place (length spot.entry.rest.now) x.1) }
{
    let (size, behind) = count(limit, spot)?;
    let allowed = size != 0 || unused == 0;
    let (octets, after) = announced(limit, spot.place, allowed, size, behind)?;
    if !are_bits(octets, unused) {
        return Err(refusal(behind.place));
    }
    let octets = Octets::from_slice(alloc, octets)?;
    let node = Node::Bits { octets, unused };
    Ok((Val { node }, after))
}

/// A BIT STRING: how many bits are unused, 0 to 7, and the octets.
#[tactic(auto, unfolding(crate::specs::Rules::bits_at))]
pub(crate) fn bit_string<'a>(
    alloc: Global,
    limit: u32,
    spot: Spot<'a>,
) -> Result<(Val, Spot<'a>), PackedFault>
    requires { HasPlaces spot.place spot.rest.now }
    ensures gives { Gives (λ x. (x.0, spot_of x.1)) result (bits_at limit (spot_of spot.entry)) }
    ensures stops { IfOk result (λ x. GoesOn spot.entry.place (length spot.entry.rest.now) x.1) }
{
    let (unused, behind) = octet(limit, spot)?;
    if unused >= 8 {
        return Err(refusal(spot.place));
    }
    bits_behind(alloc, unused, limit, behind)
}
