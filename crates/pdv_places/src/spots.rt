//! Values in octets, with their places.

ghost use Rattle.std.specs.Prelude.{◌≡◌, ◌+◌, ◌<◌, ◌≤◌, ◌^◌, length, map, [], IfOk};
ghost use Rattle.association_reading.specs.Places as reading;
ghost use Rattle.pdv_places.specs.Seen.{spot_of, is_done, HasSmallPlaces, HaveSmallPlaces};

use asn1_types::{behind_identifier, behind_whole, is_ended};
use osi_base::NoMemory;
use std::alloc::Global;

/// The octets from a place on.
#[derive(Clone, Copy, Debug)]
pub(crate) struct Spot<'a> {
    pub place: usize,
    pub rest: &'a [u8],
}

/// Further on, where this is left of the octets.
fn on_to<'a>(rest: &'a [u8], spot: Spot<'_>) -> Spot<'a>
    requires fits { HasSmallPlaces spot }
    requires less { length rest.now ≤ length spot.rest.now }
    ensures is { spot_of result ≡ reading.on_to rest.now (spot_of spot.entry) }
    ensures fit { HasSmallPlaces result }
{
    Spot {
        place: spot.place + (spot.rest.len() - rest.len()),
        rest,
    }
}

/// Behind a length: one octet, which tells in the long form how many octets the number has.
fn behind_size(octets: &[u8]) -> &[u8]
    ensures is { result.now ≡ reading.behind_size octets.now }
    ensures less { length result.now ≤ length octets.now }
{
    let [first, rest @ ..] = octets else {
        return octets;
    };
    if *first <= 128 {
        return rest;
    }
    let count = *first as usize - 128;
    if rest.len() <= count {
        return &[];
    }
    &rest[count..]
}

/// Where the contents of the value begin.
pub(crate) fn contents_of<'a>(spot: Spot<'a>) -> Spot<'a>
    requires { HasSmallPlaces spot }
    ensures is { spot_of result ≡ reading.contents_of (spot_of spot.entry) }
    ensures fit { HasSmallPlaces result }
{
    match behind_identifier(spot.rest) {
        None => on_to(&[], spot),
        Some(rest) => on_to(behind_size(rest), spot),
    }
}

/// Behind the whole value.
fn behind_value<'a>(spot: Spot<'a>) -> Spot<'a>
    requires { HasSmallPlaces spot }
    ensures is { spot_of result ≡ reading.behind_value (spot_of spot.entry) }
    ensures fit { HasSmallPlaces result }
{
    match behind_whole(32, spot.rest) {
        None => on_to(&[], spot),
        Some(rest) => on_to(rest, spot),
    }
}

/// Whether no further value stands here: the end-of-contents do, or so many octets are left.
fn is_done(left: usize, spot: Spot<'_>) -> bool
    ensures { result ≡ is_done left (spot_of spot.entry) }
{
    is_ended(spot.rest) || spot.rest.len() <= left
}

/// The values that stand one after the other, up to the end-of-contents or until so many octets are
/// left.
fn values_until<'a>(
    alloc: Global,
    turns: usize,
    left: usize,
    spot: Spot<'a>,
) -> Result<Vec<Spot<'a>>, NoMemory>
    requires { HasSmallPlaces spot }
    ensures is { IfOk result (λ v. map spot_of v.items ≡ reading.values_until turns left
        (spot_of spot.entry)) }
    ensures fit { IfOk result (λ v. HaveSmallPlaces v.items) }
{
    let mut at = spot;
    let mut values = Vec::new(alloc);
    for _turn in 0..turns {
        if is_done(left, at) {
            return Ok(values);
        }
        values.push(at)?;
        at = behind_value(at);
    }
    Ok(values)
}

/// The values in the contents of a constructed one.
pub(crate) fn values_in<'a>(alloc: Global, spot: Spot<'a>) -> Result<Vec<Spot<'a>>, NoMemory>
    requires { HasSmallPlaces spot }
    ensures is { IfOk result (λ v. map spot_of v.items ≡ reading.values_in (spot_of spot.entry)) }
    ensures fit { IfOk result (λ v. HaveSmallPlaces v.items) }
{
    let left = behind_value(spot).rest.len();
    values_until(alloc, spot.rest.len(), left, contents_of(spot))
}
