//! The fields of values, each where it stands.

ghost use Rattle.std.specs.Prelude.{◌≡◌, IfOk};
ghost use Rattle.std.specs.Option.{option_copied};
ghost use Rattle.asn1_types.specs.ValueView.{parts_of};
ghost use Rattle.fixed_tables.specs.Values.{nth_part, part_in, number_or, small_or, octet_or, maybe_octets, octets_in, alternative, inside, maybe_arcs, arcs_in, maybe_bits};

use asn1_types::{Node, Val};
use osi_base::{BitString, Copied, NoMemory, Octets, Oid};
use std::alloc::Global;

/// The part at this place of a SEQUENCE or SET, if it stands.
pub fn part_in(place: usize, value: Option<&Val>) -> Option<&Val>
    ensures { option_copied result ≡ part_in place (option_copied value.entry) }
{
    let Some(value) = value else { return None };
    let Node::Parts(parts) = &value.node else {
        return None
    };
    nth(parts.as_slice(), place)
}

/// The part at this place, if it stands.
fn nth(parts: &[Option<Val>], place: usize) -> Option<&Val>
    ensures { option_copied result ≡ nth_part (parts_of parts.now) place }
{
    match parts {
        [] => None,
        [first, rest @ ..] => {
            if place == 0 {
                first.as_ref()
            } else {
                nth(rest, place - 1)
            }
        }
    }
}

/// The number of an INTEGER, or another where there is none.
pub fn number_or(value: Option<&Val>, other: i64) -> i64
    ensures { result ≡ number_or other (option_copied value.entry) }
{
    match value {
        Some(value) => match &value.node {
            Node::Int(number) => *number,
            _ => other,
        },
        None => other,
    }
}

/// The number of an INTEGER, or `other` where there is none; 0 where that number isn't one from 0
/// to 4,294,967,295.
pub fn small_number_or(value: Option<&Val>, other: i64) -> u32
    ensures { result ≡ small_or other (option_copied value.entry) }
{
    let number = number_or(value, other);
    if 0 <= number && number < 4_294_967_296 {
        number as u32
    } else {
        0
    }
}

/// The number of an INTEGER, or `other` where there is none; 0 where that number isn't one from 0
/// to 255.
pub fn octet_or(value: Option<&Val>, other: i64) -> u8
    ensures { result ≡ octet_or other (option_copied value.entry) }
{
    let number = number_or(value, other);
    if 0 <= number && number < 256 {
        number as u8
    } else {
        0
    }
}

/// The octets of an OCTET STRING or of one whole value, if it stands.
pub fn maybe_octets(alloc: Global, value: Option<&Val>) -> Result<Option<Octets>, NoMemory>
    ensures { IfOk result (λ octets. octets ≡ maybe_octets (option_copied value.entry)) }
{
    let Some(value) = value else { return Ok(None) };
    match &value.node {
        Node::Octets(octets) | Node::Any(octets) => Ok(Some(octets.copy(alloc)?)),
        _ => Ok(None),
    }
}

/// The octets of an OCTET STRING or of one whole value; none where neither stands.
pub fn octets_in(alloc: Global, value: Option<&Val>) -> Result<Octets, NoMemory>
    ensures { IfOk result (λ octets. octets ≡ octets_in (option_copied value.entry)) }
{
    match maybe_octets(alloc, value)? {
        Some(octets) => Ok(octets),
        None => Ok(Octets::new(alloc)),
    }
}

/// Which alternative of a CHOICE stands, counted from 0; 0 where there is no CHOICE.
pub fn alternative(value: Option<&Val>) -> u32
    ensures { result ≡ alternative (option_copied value.entry) }
{
    match value {
        Some(value) => match &value.node {
            Node::Chosen { which, .. } => *which,
            _ => 0,
        },
        None => 0,
    }
}

/// The value of the alternative of a CHOICE that stands.
pub fn chosen_in(value: Option<&Val>) -> Option<&Val>
    ensures { option_copied result ≡ inside (option_copied value.entry) }
{
    let Some(value) = value else { return None };
    match &value.node {
        Node::Chosen { value, .. } => Some(&**value),
        _ => None,
    }
}

/// The object identifier of an OBJECT IDENTIFIER; where there is none, {0 0}.
pub fn oid_in(alloc: Global, value: Option<&Val>) -> Result<Oid, NoMemory>
    ensures { IfOk result (λ oid. oid ≡ arcs_in (option_copied value.entry)) }
{
    let Some(value) = value else {
        return Oid::from_slice(alloc, &[0, 0]);
    };
    match &value.node {
        Node::ObjectId(oid) => oid.copy(alloc),
        _ => Oid::from_slice(alloc, &[0, 0]),
    }
}

/// As `oid_in`; `None` where there is none.
pub fn maybe_oid(alloc: Global, value: Option<&Val>) -> Result<Option<Oid>, NoMemory>
    ensures { IfOk result (λ oid. oid ≡ maybe_arcs (option_copied value.entry)) }
{
    let Some(value) = value else { return Ok(None) };
    match &value.node {
        Node::ObjectId(oid) => Ok(Some(oid.copy(alloc)?)),
        _ => Ok(None),
    }
}

/// The bits of a BIT STRING, if it stands.
pub fn maybe_bits(alloc: Global, value: Option<&Val>) -> Result<Option<BitString>, NoMemory>
    ensures { IfOk result (λ bits. bits ≡ maybe_bits (option_copied value.entry)) }
{
    let Some(value) = value else { return Ok(None) };
    match &value.node {
        Node::Bits { octets, unused } => Ok(Some(BitString {
            octets: octets.copy(alloc)?,
            unused: *unused,
        })),
        _ => Ok(None),
    }
}
