//! Where the user data of session units begin in their TSDU.

ghost use Rattle.std.specs.Prelude.{◌≡◌, ◌+◌, ◌<◌, ◌≤◌, List, length, IfSome, None};
ghost use Rattle.std.specs.Option.{option_map, ForSome};
ghost use Rattle.osi_base.specs.declared.session_word.SessionWord.{SessionWord};
ghost use Rattle.osi_base.specs.Limits.{past_places};
ghost use Rattle.spdu_codec.specs.Wire.{AreUnits};
ghost use Rattle.spdu_codec.specs.Places.{behind_code, placed, user_among, head, head_at, user_in, user_of_last, place_in_second, user_places, ArePlaced, HoldUser};

use crate::kind::{SpduKind, first_units, parameters_of, row_of, second_units};
use crate::parameters::Slot;
use crate::scan::{split_first, value_at};
use crate::words::{has_information, leads};

/// Where the user data of the first and of the second unit begin, counted from the first octet of
/// the TSDU; `None` for a unit that isn't there or has none.
#[derive(Clone, Copy, Debug, PartialEq, Eq)]
pub struct UserPlaces {
    /// Where those of the first unit begin, in octets from the front of the TSDU.
    pub first: Option<usize>,
    /// Where those of the second unit begin, in octets from the front of the TSDU.
    pub second: Option<usize>,
}

/// A unit's kind, the octets of its parameters, and those behind it.
#[derive(Clone, Copy)]
struct UnitHead<'a> {
    kind: SpduKind,
    value: &'a [u8],
    behind: &'a [u8],
}

fn behind_code(value: &[u8], start: usize) -> Option<usize>
    requires { start < past_places }
    ensures { result ≡ behind_code value.now start }
{
    match value {
        [2, _, ..] => Some(start + 1),
        _ => None,
    }
}

/// Where user data begin, once a parameter was looked at whose value begins at `start`.
fn placed(slot: Option<Slot>, value: &[u8], start: usize, before: Option<usize>) -> Option<usize>
    requires { start < past_places }
    ensures { result ≡ placed slot value.now start before }
{
    match slot {
        Some(Slot::ConnectData | Slot::ExtendedData | Slot::UserData) => Some(start),
        Some(Slot::RefuseReason) => behind_code(value, start),
        _ => before,
    }
}

/// Where user data begin among parameters that end at this place.
fn user_among(table: &[(u8, Slot)], end: usize, octets: &[u8]) -> Option<usize>
    requires within { length octets.now ≤ end }
    requires fits { end < past_places }
    ensures { result ≡ user_among table.now (length octets.now) end None octets.now }
{
    let mut at = None;
    let mut rest = octets;
    while let Some((code, after)) = split_first(rest) {
        let Ok((value, more)) = value_at(end, after) else {
            return at;
        };
        let start = end - more.len() - value.len();
        at = placed(row_of(code, table), value, start, at);
        rest = more;
    }
    at
}

/// A unit that stands in the table.
#[tactic(auto, unfolding(crate::specs::Places::head_at))]
fn head_at<'a>(table: &[(u8, SpduKind)], end: usize, octets: &'a [u8]) -> Option<UnitHead<'a>>
    requires { length octets.now ≤ end }
    ensures within { IfSome result (λ u. length u.value.now + length u.behind.now < length
        octets.now) }
    ensures read { option_map (λ u. head u.kind u.value.now u.behind.now) result ≡ head_at table.now
        end octets.now }
{
    let (code, rest) = split_first(octets)?;
    let kind = row_of(code, table)?;
    let Ok((value, behind)) = value_at(end, rest) else {
        return None;
    };
    Some(UnitHead {
        kind,
        value,
        behind,
    })
}

fn user_in(end: usize, unit: UnitHead<'_>) -> Option<usize>
    requires within { length unit.value.now + length unit.behind.now ≤ end }
    requires fits { end < past_places }
    ensures { result ≡ user_in end (head unit.entry.kind unit.entry.value.now
        unit.entry.behind.now) }
{
    user_among(
        parameters_of(unit.kind),
        end - unit.behind.len(),
        unit.value,
    )
}

fn user_of_last(end: usize, unit: UnitHead<'_>) -> Option<usize>
    requires within { length unit.value.now + length unit.behind.now ≤ end }
    requires fits { end < past_places }
    ensures { result ≡ user_of_last end
        (head unit.entry.kind unit.entry.value.now unit.entry.behind.now) }
{
    if has_information(unit.kind) {
        return Some(end - unit.behind.len());
    }
    user_in(end, unit)
}

fn place_in_second(end: usize, unit: Option<UnitHead<'_>>) -> Option<usize>
    requires within { ForSome unit (λ u. length u.value.now + length u.behind.now ≤ end) }
    requires fits { end < past_places }
    ensures { result ≡ place_in_second end (option_map (λ u. head u.kind u.value.now u.behind.now)
        unit.entry) }
{
    user_of_last(end, unit?)
}

#[tactic(auto, unfolding(crate::specs::Places::user_places))]
fn places_of(tsdu: &[u8]) -> UserPlaces
    ensures { result ≡ user_places tsdu.now }
{
    let end = tsdu.len();
    let Some(unit) = head_at(first_units(), end, tsdu) else {
        return UserPlaces {
            first: None,
            second: None,
        };
    };
    if leads(unit.kind) && !unit.behind.is_empty() {
        return UserPlaces {
            first: user_in(end, unit),
            second: place_in_second(end, head_at(second_units(), end, unit.behind)),
        };
    }
    UserPlaces {
        first: user_of_last(end, unit),
        second: None,
    }
}

/// Where the user data of each unit begin that `read_spdus` reads: those of DT and TD behind the
/// unit, those of RF behind the reason's code, all others at the value of their parameter. Of
/// octets that are no units it says nothing. It takes no memory, and looks at each parameter once.
pub fn user_places(tsdu: &[u8]) -> UserPlaces
    // The places are those that the grammar of the units gives.
    ensures placed { (words : List SessionWord) → AreUnits words tsdu.now
        → ArePlaced words tsdu.now result }
    // There stand the user data of each word.
    ensures holds { (words : List SessionWord) → AreUnits words tsdu.now
        → HoldUser words tsdu.now result }
    ensures exact { result ≡ user_places tsdu.now }
{
    places_of(tsdu)
}
