//! Reads the session units of a TSDU.

ghost use Rattle.std.specs.Prelude.{◌≡◌, ◌+◌, ◌≤◌, ◌<◌, List, [], ◌∷◌, length, IfOk, IfErr, Ok, Err};
ghost use Rattle.osi_base.specs.declared.session_word.SessionWord.{SessionWord};
ghost use Rattle.spdu_codec.specs.Wire.{AreUnits};
ghost use Rattle.spdu_codec.specs.Faults.{FirstFault, IsFirstFault};
ghost use Rattle.spdu_codec.specs.Reading.{UnitFault, Gives, GivesBy, unit_at, last_word, second_at, behind_first, units_at};

use crate::fault::{SFault, fault};
use crate::kind::{SpduKind, first_units, row_of, second_units};
use crate::parameters::Parameters;
use crate::scan::{parameters_at, value_at};
use crate::words::{has_information, leads, word_of};
use osi_base::{Kind, Octets, SessionWord, Spdus};
use std::alloc::Global;

/// A unit's kind, its parameters, and the octets behind them.
#[derive(Drop)]
struct Unit<'a> {
    kind: SpduKind,
    parameters: Parameters,
    behind: &'a [u8],
}

/// A unit that stands in the table.
#[tactic(auto, unfolding(crate::specs::Reading::unit_at))]
fn unit_at<'a>(
    alloc: Global,
    table: &[(u8, SpduKind)],
    end: usize,
    octets: &'a [u8],
) -> Result<Unit<'a>, SFault>
    requires { length octets.now ≤ end }
    ensures within { IfOk result (λ u. length u.behind.now < length octets.now) }
    ensures read { GivesBy (λ u. (u.kind, u.parameters, u.behind.now)) result
        (unit_at table.now end octets.now) }
{
    let [code, rest @ ..] = octets else {
        return fault(end, Kind::Missing);
    };
    let Some(kind) = row_of(*code, table) else {
        return fault(end - octets.len(), Kind::Tag);
    };
    let (value, behind) = value_at(end, rest)?;
    let parameters = parameters_at(alloc, kind, end - behind.len(), value)?;
    Ok(Unit {
        kind,
        parameters,
        behind,
    })
}

/// The word of a unit behind which no other follows.
fn last_word(
    alloc: Global,
    end: usize,
    kind: SpduKind,
    p: Parameters,
    behind: &[u8],
) -> Result<SessionWord, SFault>
    requires { length behind.now ≤ end }
    ensures { Gives result (last_word end kind p behind.now) }
{
    let place = end - behind.len();
    let Some(word) = word_of(alloc, kind, true, p, behind)? else {
        return fault(place, Kind::Missing);
    };
    if !has_information(kind) && !behind.is_empty() {
        return fault(place, Kind::Extra);
    }
    Ok(word)
}

/// The word of the unit behind GT or PT.
fn second_at(alloc: Global, end: usize, octets: &[u8]) -> Result<SessionWord, SFault>
    requires { length octets.now ≤ end }
    ensures { Gives result (second_at end octets.now) }
{
    let unit = unit_at(alloc, second_units(), end, octets)?;
    last_word(alloc, end, unit.kind, unit.parameters, unit.behind)
}

fn behind_first(alloc: Global, end: usize, unit: Unit<'_>) -> Result<Spdus, SFault>
    requires { length unit.behind.now ≤ end }
    ensures { Gives result (behind_first end
        (unit.entry.kind, unit.entry.parameters, unit.entry.behind.now)) }
{
    let mut spdus = Spdus::new(alloc);
    if leads(unit.kind) && !unit.behind.is_empty() {
        let Some(first) = word_of(alloc, unit.kind, false, unit.parameters, &[])? else {
            return fault(end - unit.behind.len(), Kind::Missing);
        };
        let second = second_at(alloc, end, unit.behind)?;
        spdus.push(first)?;
        spdus.push(second)?;
        return Ok(spdus);
    }
    let word = last_word(alloc, end, unit.kind, unit.parameters, unit.behind)?;
    spdus.push(word)?;
    Ok(spdus)
}

#[tactic(auto, unfolding(crate::specs::Reading::units_at))]
fn units_at(alloc: Global, tsdu: &[u8]) -> Result<Spdus, SFault>
    ensures { Gives result (units_at tsdu.now) }
{
    let unit = unit_at(alloc, first_units(), tsdu.len(), tsdu)?;
    behind_first(alloc, tsdu.len(), unit)
}

/// The session units of a TSDU (X.225 8.2, 8.3): one alone, or GT or PT and one behind it.
/// Parameters come in any order; those that aren't looked at are passed over. A fault is the first
/// field from the left that breaks the grammar, and its place counts from the first octet of the
/// TSDU. `NoMemory` where memory runs out.
pub fn read_spdus(alloc: Global, tsdu: &[u8]) -> Result<Spdus, SFault>
    // What is read is spelled so.
    ensures found { IfOk result (λ words. AreUnits words tsdu.now) }
    // What is spelled so is read, unless memory runs out.
    ensures only { (words : List SessionWord) → AreUnits words tsdu.now → Gives result (Ok words) }
    // A fault is the first one.
    ensures first { IfErr result (IsFirstFault tsdu.now) }
    // The first fault is given, unless memory runs out.
    ensures given { (f : UnitFault) → FirstFault tsdu.now f → Gives result (Err f) }
    // What the octets are read as.
    ensures exact { Gives result (units_at tsdu.now) }
{
    units_at(alloc, tsdu)
}
