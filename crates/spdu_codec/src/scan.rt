//! Reads lengths, values and parameters from the front of octets (X.225 8.2). The octets end at a
//! place of the TSDU, `end`, from which the places of fields are counted back.

ghost use Rattle.std.specs.Prelude.{◌≡◌, ◌≢◌, ◌+◌, ◌-◌, ◌<◌, ◌≤◌, [], ◌∷◌, length, IfOk, IfErr, MatchOption, Ok};
ghost use Rattle.spdu_codec.specs.Parameters.{none_yet};
ghost use Rattle.spdu_codec.specs.Reading.{Gives, GivesBy, front, length_at, value_at, checked_free, put_at, item_taken, items_at, group_inside, parameter_taken, parameters_at};

use crate::fault::{SFault, fault};
use crate::kind::{SpduKind, items_of, parameters_of, row_of};
use crate::parameters::{Parameters, Slot, is_free, none_yet, put};
use osi_base::Kind;
use std::alloc::Global;

#[tactic(auto, unfolding(crate::specs::Reading::length_at))]
fn length_at(place: usize, octets: &[u8]) -> Result<(usize, &[u8]), SFault>
    ensures less { IfOk result (λ x. length x.1.now < length octets.now) }
    ensures read { GivesBy (λ x. (x.0, x.1.now)) result (length_at place octets.now) }
    ensures at { IfErr result (λ e. e ≢ SFault.NoMemory) }
{
    match octets {
        [255, high, low, rest @ ..] => Ok((*high as usize * 256 + *low as usize, rest)),
        [] | [255] | [255, _] => fault(place, Kind::Length),
        [len, rest @ ..] => Ok((*len as usize, rest)),
    }
}

/// A length, so many octets, and what follows them.
#[tactic(auto, unfolding(crate::specs::Reading::value_at))]
pub(crate) fn value_at(end: usize, octets: &[u8]) -> Result<(&[u8], &[u8]), SFault>
    requires { length octets.now ≤ end }
    ensures less { IfOk result (λ x. length x.0.now + length x.1.now < length octets.now) }
    ensures read { GivesBy (λ x. (x.0.now, x.1.now)) result (value_at end octets.now) }
    // It takes no memory.
    ensures at { IfErr result (λ e. e ≢ SFault.NoMemory) }
{
    let place = end - octets.len();
    let (len, rest) = length_at(place, octets)?;
    if rest.len() < len {
        return fault(place, Kind::Length);
    }
    let (value, rest) = rest.split_at(len);
    Ok((value, rest))
}

/// The first octet and those behind it.
pub(crate) fn split_first(octets: &[u8]) -> Option<(u8, &[u8])>
    ensures { MatchOption result (octets.now ≡ []) (λ x. octets.now ≡ x.0 ∷ x.1.now) }
{
    match octets {
        [] => None,
        [first, rest @ ..] => Some((*first, rest)),
    }
}

fn checked_free(place: usize, slot: Option<Slot>, p: &Parameters) -> Result<Option<Slot>, SFault>
    ensures { Gives result (checked_free place slot p.now) }
{
    let Some(slot) = slot else {
        return Ok(None);
    };
    if !is_free(slot, p) {
        return fault(place, Kind::Extra);
    }
    Ok(Some(slot))
}

fn item_taken(
    alloc: Global,
    end: usize,
    slot: Option<Slot>,
    value: &[u8],
    p: Parameters,
) -> Result<Parameters, SFault>
    requires { length value.now ≤ end }
    ensures { Gives result (item_taken end slot value.now p) }
{
    let Some(slot) = slot else {
        return Ok(p);
    };
    match put(alloc, slot, value, p)? {
        None => fault(end - value.len(), Kind::Content),
        Some(next) => Ok(next),
    }
}

/// The parameters inside a group.
fn items_at(
    alloc: Global,
    table: &[(u8, Slot)],
    end: usize,
    p: Parameters,
    octets: &[u8],
) -> Result<Parameters, SFault>
    requires { length octets.now ≤ end }
    ensures { Gives result (items_at table.now end p octets.now) }
{
    let mut p = p;
    let mut rest = octets;
    while let Some((code, after)) = split_first(rest) {
        let slot = checked_free(end - rest.len(), row_of(code, table), &p)?;
        let (value, more) = value_at(end, after)?;
        p = item_taken(alloc, end - more.len(), slot, value, p)?;
        rest = more;
    }
    Ok(p)
}

fn group_inside(
    alloc: Global,
    end: usize,
    slot: Option<Slot>,
    value: &[u8],
    p: Parameters,
) -> Result<Parameters, SFault>
    requires { length value.now ≤ end }
    ensures { Gives result (group_inside end slot value.now p) }
{
    let Some(slot) = slot else {
        return Ok(p);
    };
    match items_of(slot) {
        None => Ok(p),
        Some(table) => items_at(alloc, table, end, p, value),
    }
}

fn parameter_taken(
    alloc: Global,
    end: usize,
    slot: Option<Slot>,
    value: &[u8],
    p: Parameters,
) -> Result<Parameters, SFault>
    requires { length value.now ≤ end }
    ensures { Gives result (parameter_taken end slot value.now p) }
{
    let next = item_taken(alloc, end, slot, value, p)?;
    group_inside(alloc, end, slot, value, next)
}

/// The parameters of a unit.
pub(crate) fn parameters_at(
    alloc: Global,
    kind: SpduKind,
    end: usize,
    octets: &[u8],
) -> Result<Parameters, SFault>
    requires { length octets.now ≤ end }
    ensures { Gives result (parameters_at kind end octets.now) }
{
    let table = parameters_of(kind);
    let mut p = none_yet();
    let mut rest = octets;
    while let Some((code, after)) = split_first(rest) {
        let slot = checked_free(end - rest.len(), row_of(code, table), &p)?;
        let (value, more) = value_at(end, after)?;
        p = parameter_taken(alloc, end - more.len(), slot, value, p)?;
        rest = more;
    }
    Ok(p)
}
