//! The fields of a table file.

ghost use Rattle.std.specs.Prelude.{◌≡◌, ◌<◌, length, IfOk};
ghost use Rattle.table_file.specs.FieldTypes.{field_types};
ghost use Rattle.table_file.specs.Reading.{Gives, spot_of};
ghost use Rattle.table_file.specs.Fields.{octets_at, octet_at, count_at, counted_at, truth_at, text_at, value_at, stop_of, IsNear, integer_at, object_id_at};

use crate::fault::Stop;
use crate::field_types::{INTEGER, OBJECT_ID};
use crate::spot::Spot;
use asn1_types::{Node, TextKind, TypeId, TypeTable, Val, is_text};
use byteorder::{BigEndian, ByteOrder};
use osi_base::Oid;
use packed_codec::{PackedFault, fault_is_first, packed_read_within};
use std::alloc::Global;

/// So many octets.
#[tactic(auto, unfolding(crate::specs::Fields::octets_at))]
fn octets<'a>(size: u32, spot: Spot<'a>) -> Result<(&'a [u8], Spot<'a>), Stop>
    ensures gives { Gives (λ x. (x.0.now, spot_of x.1)) result
        (octets_at size (spot_of spot.entry)) }
    ensures size { IfOk result (λ x. length x.0.now ≡ size) }
{
    if spot.rest.len() < size as usize {
        return Err(Stop::Cut);
    }
    let (front, rest) = spot.rest.split_at(size as usize);
    let after = Spot {
        place: spot.place + size as usize,
        rest,
        left: spot.left,
    };
    Ok((front, after))
}

/// One octet.
#[tactic(auto, unfolding(crate::specs::Fields::octet_at))]
pub(crate) fn octet<'a>(spot: Spot<'a>) -> Result<(u8, Spot<'a>), Stop>
    ensures { Gives (λ x. (x.0, spot_of x.1)) result (octet_at (spot_of spot.entry)) }
{
    let (front, after) = octets(1, spot)?;
    Ok((front[0], after))
}

/// A count, in four octets.
#[tactic(auto, unfolding(crate::specs::Fields::count_at))]
fn count<'a>(spot: Spot<'a>) -> Result<(u32, Spot<'a>), Stop>
    ensures { Gives (λ x. (x.0, spot_of x.1)) result (count_at (spot_of spot.entry)) }
{
    let (front, after) = octets(4, spot)?;
    Ok((BigEndian::read_u32(front), after))
}

/// How many items a list has, which counts against what may still be counted.
#[tactic(auto, unfolding(crate::specs::Fields::counted_at))]
pub(crate) fn counted<'a>(spot: Spot<'a>) -> Result<(u32, Spot<'a>), Stop>
    ensures { Gives (λ x. (x.0, spot_of x.1)) result (counted_at (spot_of spot.entry)) }
{
    let (number, behind) = count(spot)?;
    if behind.left < number {
        return Err(Stop::Bad(spot.place));
    }
    let after = Spot {
        place: behind.place,
        rest: behind.rest,
        left: behind.left - number,
    };
    Ok((number, after))
}

/// A BOOLEAN: 0 or 1. So is the mark whether a part that may be absent is there.
#[tactic(auto, unfolding(crate::specs::Fields::truth_at))]
pub(crate) fn truth<'a>(spot: Spot<'a>) -> Result<(bool, Spot<'a>), Stop>
    ensures { Gives (λ x. (x.0, spot_of x.1)) result (truth_at (spot_of spot.entry)) }
{
    let (octet, after) = octet(spot)?;
    match octet {
        0 => Ok((false, after)),
        1 => Ok((true, after)),
        _ => Err(Stop::Bad(spot.place)),
    }
}

/// An IA5String.
#[tactic(auto, unfolding(crate::specs::Fields::text_at))]
pub(crate) fn text<'a>(spot: Spot<'a>) -> Result<(&'a [u8], Spot<'a>), Stop>
    ensures { Gives (λ x. (x.0.now, spot_of x.1)) result (text_at (spot_of spot.entry)) }
{
    let (size, behind) = count(spot)?;
    let (front, after) = octets(size, behind)?;
    if !is_text(TextKind::Ia5, front) {
        return Err(Stop::Bad(behind.place));
    }
    Ok((front, after))
}

/// What a fault within a field is, which begins at a place.
fn stop_of(start: usize, fault: PackedFault) -> Stop
    requires { IsNear start fault }
    ensures { result ≡ stop_of start fault }
{
    match fault {
        PackedFault::NotSpelled { place, .. } => Stop::Bad(start + place),
        PackedFault::Short => Stop::Cut,
        PackedFault::TooLong { .. } => Stop::Cut,
        PackedFault::NoMemory => Stop::NoMemory,
    }
}

/// What stands here as a value of a type of fields.
#[tactic(auto, unfolding(crate::specs::Fields::value_at))]
fn value<'a>(
    alloc: Global,
    fields: &TypeTable,
    of: TypeId,
    spot: Spot<'a>,
) -> Result<(Val, Spot<'a>), Stop>
    requires types { fields.now ≡ field_types }
    requires row { of.0 < 2 }
    ensures { Gives (λ x. (x.0, spot_of x.1)) result (value_at of.0 (spot_of spot.entry)) }
{
    match packed_read_within(alloc, fields, of, spot.rest, u32::MAX) {
        Ok(read) => {
            let after = Spot {
                place: spot.place + read.used,
                rest: &spot.rest[read.used..],
                left: spot.left,
            };
            Ok((read.value, after))
        }
        Err(fault) => {
            fault_is_first();
            Err(stop_of(spot.place, fault))
        }
    }
}

/// An INTEGER.
#[tactic(auto, unfolding(crate::specs::Fields::integer_at))]
pub(crate) fn integer<'a>(
    alloc: Global,
    fields: &TypeTable,
    spot: Spot<'a>,
) -> Result<(i64, Spot<'a>), Stop>
    requires { fields.now ≡ field_types }
    ensures { Gives (λ x. (x.0, spot_of x.1)) result (integer_at (spot_of spot.entry)) }
{
    let (value, after) = value(alloc, fields, INTEGER, spot)?;
    match value.node {
        Node::Int(number) => Ok((number, after)),
        _ => Err(Stop::Bad(spot.place)),
    }
}

/// An OBJECT IDENTIFIER.
#[tactic(auto, unfolding(crate::specs::Fields::object_id_at))]
pub(crate) fn object_id<'a>(
    alloc: Global,
    fields: &TypeTable,
    spot: Spot<'a>,
) -> Result<(Oid, Spot<'a>), Stop>
    requires { fields.now ≡ field_types }
    ensures { Gives (λ x. (x.0, spot_of x.1)) result (object_id_at (spot_of spot.entry)) }
{
    let (value, after) = value(alloc, fields, OBJECT_ID, spot)?;
    match value.node {
        Node::ObjectId(oid) => Ok((oid, after)),
        _ => Err(Stop::Bad(spot.place)),
    }
}
