//! Which assignments reach themselves, by the sets of what each reaches. This takes longer than the
//! search, and is right by itself: it is what remains where the search settles one wrongly.

ghost use Rattle.std.specs.Prelude.{◌≡◌, ◌<◌, ℕ, None, length, slice_get, slice_set, true, IfNone, IfOk, IfSome};
ghost use Rattle.module_faults.specs.ReachSets.{lacks, is_in, first_out, first_from, IsNext, IsClosed, IsReach, IsRightSurvey};

use crate::reach_search::{Standing, Survey, surveyed};
use crate::recursion::are_shown;
use crate::use_lists::UseLists;
use osi_base::NoMemory;
use std::alloc::Global;

/// Whether a set has a place.
fn is_in(reached: &[bool], place: usize) -> bool
    ensures { result ≡ is_in reached.now place }
{
    match reached.get(place) {
        Some(is_in) => *is_in,
        None => false,
    }
}

/// Whether a place that a set may have isn't in it.
fn lacks(reached: &[bool], place: u32) -> bool
    ensures { result ≡ lacks (slice_get reached.now place) }
{
    match reached.get(place as usize) {
        Some(is_in) => !*is_in,
        None => false,
    }
}

/// Puts a place into a set that may have it.
fn put(reached: &mut [bool], place: u32)
    ensures { reached.new ≡ slice_set reached.old place true }
{
    if (place as usize) < reached.len() {
        reached[place as usize] = true;
    }
}

/// The first of these places that a set lacks.
fn first_out(reached: &[bool], named: &[u32]) -> Option<u32>
    ensures { result ≡ first_out reached.now named.now }
{
    let mut rest = named;
    while let [to, more @ ..] = rest {
        if lacks(reached, *to) {
            return Some(*to);
        }
        rest = more;
    }
    None
}

/// The first that the set of a place lacks of those that one names, if that is the place itself or
/// in the set.
fn first_from(uses: &UseLists, place: usize, reached: &[bool], from: usize) -> Option<u32>
    ensures { result ≡ first_from uses.now place reached.now from }
{
    if from == place || is_in(reached, from) {
        first_out(reached, uses.at(from))
    } else {
        None
    }
}

/// One that the set of a place lacks, and that the place or one of the set names.
fn next_out(uses: &UseLists, place: usize, reached: &[bool]) -> Option<u32>
    ensures next { IfSome result (λ to. IsNext uses.now place reached.now to) }
    ensures closed { IfNone result (IsClosed uses.now place reached.now) }
{
    for from in 0..uses.len() {
        let next = first_from(uses, place, reached, from);
        if next.is_some() {
            return next;
        }
    }
    None
}

/// The set of what a place reaches.
fn reach(alloc: Global, uses: &UseLists, place: usize) -> Result<Vec<bool>, NoMemory>
    ensures { IfOk result (λ reached. IsReach uses.now place reached.items) }
{
    let mut reached = vec![in alloc; false; uses.len()]?;
    while let Some(to) = next_out(uses, place, &reached) {
        put(&mut reached, to);
    }
    Ok(reached)
}

/// A standing that says whether an assignment reaches itself, and nothing else.
fn recursion_only(is_recursive: bool) -> Standing
    ensures { result.is_recursive ≡ is_recursive }
{
    Standing {
        component: 0,
        root: 0,
        is_recursive,
        way: 0,
        height: 0,
        before: 0,
        branch: 0,
        met: 0,
    }
}

/// Which assignments reach themselves, by the sets of what each reaches.
fn standings_by_sets(alloc: Global, uses: &UseLists) -> Result<Vec<Standing>, NoMemory>
    ensures { IfOk result (λ standings. IsRightSurvey uses.now standings.items) }
{
    let mut standings = Vec::new(alloc);
    for place in 0..uses.len() {
        let reached = reach(alloc, uses, place)?;
        standings.push(recursion_only(is_in(&reached, place)))?;
    }
    Ok(standings)
}

/// Which assignments reach themselves: by the search, and if not all that it says were so, by the
/// sets.
pub(crate) fn recursion_survey(alloc: Global, uses: &UseLists) -> Result<Survey, NoMemory>
    ensures { IfOk result (λ survey. IsRightSurvey uses.now survey.standings.items) }
{
    let survey = surveyed(alloc, uses)?;
    if are_shown(uses, &survey.standings) {
        return Ok(survey);
    }
    Ok(Survey {
        order: survey.order,
        standings: standings_by_sets(alloc, uses)?,
    })
}
