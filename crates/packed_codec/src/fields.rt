//! The fields of the packed syntax: single octets, counts, and the octets that they announce.

ghost use Rattle.std.specs.Prelude.{◌≡◌, ◌≤◌, length, take, IfOk, true};
ghost use Rattle.osi_base.specs.OctetPlaces.{HasPlaces};
ghost use Rattle.packed_codec.specs.Reading.{Gives, within, spot_of, GoesOn};
ghost use Rattle.packed_codec.specs.Fields.{announced_at, field_at, octet_at, count_at};

use crate::fault::PackedFault;
use crate::spot::Spot;
use byteorder::{BigEndian, ByteOrder};
use osi_base::Kind;

/// The field at this place breaks the rule of its type.
pub(crate) fn refusal(place: usize) -> PackedFault
    ensures { result ≡ PackedFault.NotSpelled place Kind.Content }
{
    PackedFault::NotSpelled {
        place,
        kind: Kind::Content,
    }
}

/// Whether a field at this place that goes on until `until` stays within the limit.
#[tactic(auto, unfolding(crate::specs::Reading::within))]
fn check_within(limit: u32, place: usize, until: u64) -> Result<(), PackedFault>
    ensures gives { Gives (λ x. x) result (within limit place until) }
{
    if (limit as u64) < until {
        return Err(PackedFault::TooLong { place });
    }
    Ok(())
}

/// So many octets, which the field at this place announces, if it may announce as many.
#[tactic(auto, unfolding(crate::specs::Fields::announced_at))]
pub(crate) fn announced<'a>(
    limit: u32,
    place: usize,
    allowed: bool,
    size: u32,
    spot: Spot<'a>,
) -> Result<(&'a [u8], Spot<'a>), PackedFault>
    requires { HasPlaces spot.place spot.rest.now }
    ensures gives { Gives (λ x. (x.0.now, spot_of x.1)) result
        (announced_at limit place allowed size (spot_of spot.entry)) }
    ensures stops { IfOk result (λ x. GoesOn spot.entry.place (length spot.entry.rest.now) x.1) }
    ensures size { IfOk result (λ x. length x.0.now ≡ size) }
{
    check_within(limit, place, spot.place as u64 + size as u64)?;
    if !allowed {
        return Err(refusal(place));
    }
    if spot.rest.len() < size as usize {
        return Err(PackedFault::Short);
    }
    let (octets, rest) = spot.rest.split_at(size as usize);
    let after = Spot {
        place: spot.place + size as usize,
        rest,
        left: spot.left,
    };
    Ok((octets, after))
}

/// A field of so many octets.
#[tactic(auto, unfolding(crate::specs::Fields::field_at))]
fn field<'a>(limit: u32, size: u32, spot: Spot<'a>) -> Result<(&'a [u8], Spot<'a>), PackedFault>
    requires { HasPlaces spot.place spot.rest.now }
    ensures gives { Gives (λ x. (x.0.now, spot_of x.1)) result
        (field_at limit size (spot_of spot.entry)) }
    ensures stops { IfOk result (λ x. GoesOn spot.entry.place (length spot.entry.rest.now) x.1) }
    ensures size { IfOk result (λ x. length x.0.now ≡ size) }
{
    if spot.rest.len() == 0 {
        return Err(PackedFault::Short);
    }
    announced(limit, spot.place, true, size, spot)
}

/// A field of one octet.
#[tactic(auto, unfolding(crate::specs::Fields::octet_at))]
pub(crate) fn octet<'a>(limit: u32, spot: Spot<'a>) -> Result<(u8, Spot<'a>), PackedFault>
    requires { HasPlaces spot.place spot.rest.now }
    ensures gives { Gives (λ x. (x.0, spot_of x.1)) result (octet_at limit (spot_of spot.entry)) }
    ensures stops { IfOk result (λ x. GoesOn spot.entry.place (length spot.entry.rest.now) x.1) }
{
    let (octets, after) = field(limit, 1, spot)?;
    Ok((octets[0], after))
}

/// A count, in four octets.
#[tactic(auto, unfolding(crate::specs::Fields::count_at))]
pub(crate) fn count<'a>(limit: u32, spot: Spot<'a>) -> Result<(u32, Spot<'a>), PackedFault>
    requires { HasPlaces spot.place spot.rest.now }
    ensures gives { Gives (λ x. (x.0, spot_of x.1)) result (count_at limit (spot_of spot.entry)) }
    ensures stops { IfOk result (λ x. GoesOn spot.entry.place (length spot.entry.rest.now) x.1) }
{
    let (octets, after) = field(limit, 4, spot)?;
    Ok((BigEndian::read_u32(octets), after))
}
