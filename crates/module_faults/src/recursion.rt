//! Which assignments reach themselves by names used as types.

ghost use Rattle.std.specs.Prelude.{◌≡◌, ◌<◌, ◌^◌, ℕ, true, length, slice_get, IfOk, IsTrue};
ghost use Rattle.std.specs.Option.{option_copied};
ghost use Rattle.module_faults.specs.Recursion.{list_at};
ghost use Rattle.module_faults.specs.Standings.{says, falls_to, all_fall, is_lower, leads_to, goes_on, is_earlier, is_place, comes_from, is_shown_by, is_shown, AreShown};

use crate::reach_search::Standing;
use crate::use_lists::UseLists;

/// Whether what stands at a place is said to reach itself.
pub(crate) fn says(standings: &[Standing], place: u32) -> bool
    ensures { result ≡ says standings.now place }
{
    match standings.get(place as usize) {
        Some(standing) => standing.is_recursive,
        None => false,
    }
}

/// Whether one that is named has a lesser number, or the same where it may.
fn falls_to(standing: Standing, other: Option<&Standing>) -> bool
    ensures { result ≡ falls_to standing (option_copied other.entry) }
{
    match other {
        Some(other) => {
            other.component < standing.component
                || (standing.is_recursive && other.component == standing.component)
        }
        None => false,
    }
}

/// Whether all that are named do.
fn all_fall(standings: &[Standing], standing: Standing, uses: &[u32]) -> bool
    ensures { result ≡ all_fall standings.now standing uses.now }
{
    let mut rest = uses;
    while let [to, more @ ..] = rest {
        if !falls_to(standing, standings.get(*to as usize)) {
            return false;
        }
        rest = more;
    }
    true
}

/// Whether another of the same root is lower.
fn is_lower(standing: Standing, other: Option<&Standing>) -> bool
    ensures { result ≡ is_lower standing (option_copied other.entry) }
{
    match other {
        Some(other) => {
            other.is_recursive && (other.root == standing.root && other.height < standing.height)
        }
        None => false,
    }
}

/// Whether it goes on to the root, or to one that is lower.
fn goes_on(uses: &UseLists, standings: &[Standing], place: u32, standing: Standing) -> bool
    ensures { result ≡ goes_on uses.now standings.now place standing }
{
    match uses.at(place as usize).get(standing.way as usize) {
        Some(to) => { *to == standing.root || is_lower(standing, standings.get(*to as usize)) }
        None => false,
    }
}

/// Whether another of the same root was met before.
fn is_earlier(standing: Standing, other: Option<&Standing>) -> bool
    ensures { result ≡ is_earlier standing (option_copied other.entry) }
{
    match other {
        Some(other) => {
            other.is_recursive && (other.root == standing.root && other.met < standing.met)
        }
        None => false,
    }
}

/// Whether a place is this one.
fn is_place(place: u32, named: Option<&u32>) -> bool
    ensures { result ≡ is_place place (option_copied named.entry) }
{
    match named {
        Some(to) => *to == place,
        None => false,
    }
}

/// Whether it is the root, or the root or one that was met before names it.
fn comes_from(uses: &UseLists, standings: &[Standing], place: u32, standing: Standing) -> bool
    ensures { result ≡ comes_from uses.now standings.now place standing }
{
    if place == standing.root {
        return true;
    }
    let names_it = is_place(
        place,
        uses.at(standing.before as usize)
            .get(standing.branch as usize),
    );
    let before = standings.get(standing.before as usize);
    names_it && (standing.before == standing.root || is_earlier(standing, before))
}

/// Whether what is said of a place shows in how it stands.
fn is_shown_by(uses: &UseLists, standings: &[Standing], place: u32, standing: Standing) -> bool
    ensures { result ≡ is_shown_by uses.now standings.now place standing }
{
    if !all_fall(standings, standing, uses.at(place as usize)) {
        return false;
    }
    if !standing.is_recursive {
        return true;
    }
    goes_on(uses, standings, place, standing) && comes_from(uses, standings, place, standing)
}

/// Whether what is said of a place is so, as far as it stands there.
fn is_shown(uses: &UseLists, standings: &[Standing], place: u32) -> bool
    ensures { result ≡ is_shown uses.now standings.now place }
{
    match standings.get(place as usize) {
        Some(standing) => is_shown_by(uses, standings, place, *standing),
        None => false,
    }
}

/// Whether all that is said is so.
pub(crate) fn are_shown(uses: &UseLists, standings: &[Standing]) -> bool
    ensures shown { IsTrue result → AreShown uses.now standings.now }
    ensures whole { AreShown uses.now standings.now → length uses.now < 2 ^ 32 → IsTrue result }
{
    if standings.len() != uses.len() {
        return false;
    }
    for place in 0..uses.len() {
        let Ok(place) = u32::try_from(place) else {
            return false;
        };
        if !is_shown(uses, standings, place) {
            return false;
        }
    }
    true
}
