//! What is known of the types of a module, each learned behind those that it names.

ghost use Rattle.std.specs.Prelude.{◌≡◌, ℕ, ◌<◌, IfNone, IfOk, IfSome, IsSome, None, OnOk, Some, length, replicate, slice_get, slice_set};
ghost use Rattle.std.specs.List.{list_all};
ghost use Rattle.std.specs.Option.{option_copied};
ghost use Rattle.module_faults.specs.Recursion.{bodies_uses};
ghost use Rattle.module_faults.specs.ReachSets.{IsRightSurvey};
ghost use Rattle.module_faults.specs.Known.{settles, unknowns, ready, AreKnown, AreLearned, AreAllLearned, AreSettled};

use crate::least::Least;
use crate::locals::MOST_LEVELS;
use crate::names::{Names, place_of};
use crate::reach_search::Standing;
use crate::recursion::says;
use crate::type_facts::{Facing, Facts};
use crate::use_lists::type_uses;
use operation_notation::TypeText;
use osi_base::NoMemory;
use std::alloc::Global;

/// Notes what is known of the type at a place.
fn note<'m>(known: &mut [Option<Facts<'m>>], place: u32, facts: Facts<'m>)
    ensures { known.new ≡ slice_set known.old place (Some facts.entry) }
{
    if (place as usize) < known.len() {
        known[place as usize] = Some(facts);
    }
}

impl<'s, 'm> Facing<'s, 'm> {
    /// Whether what a place adds is settled: it is said to reach itself, or is known.
    fn is_settled(&self, place: u32) -> bool
        ensures { result ≡ settles self.now.standings.now self.now.known.now place }
    {
        says(self.standings, place) || matches!(self.known.get(place as usize), Some(Some(_)))
    }

    /// Whether what all these places add is.
    fn are_settled(&self, uses: &[u32]) -> bool
        ensures { result ≡ list_all (settles self.now.standings.now self.now.known.now) uses.now }
    {
        let mut rest = uses;
        while let [place, more @ ..] = rest {
            if !self.is_settled(*place) {
                return false;
            }
            rest = more;
        }
        true
    }

    /// The type at a place, where it isn't settled and all that it names is.
    fn ready(&self, place: u32) -> Result<Option<&'m TypeText>, NoMemory>
        ensures { IfOk result (λ of. option_copied of ≡ ready self.now.names.now
            self.now.standings.now self.now.known.now place) }
    {
        let Some(of) = self.names.type_at(place) else {
            return Ok(None);
        };
        if self.is_settled(place) {
            return Ok(None);
        }
        let used = type_uses(self.alloc, self.names, of)?;
        if self.are_settled(&used) {
            Ok(Some(of))
        } else {
            Ok(None)
        }
    }

    /// The first place whose type can be learned.
    fn next_ready(&self) -> Result<Option<u32>, NoMemory>
        ensures next { IfOk result (λ next. IfSome next (λ place. IsSome (ready self.now.names.now
            self.now.standings.now self.now.known.now place))) }
        ensures none { IfOk result (λ next. IfNone next (AreAllLearned self.now.names.now
            self.now.standings.now self.now.known.now)) }
    {
        for place in 0..self.names.assignments().len() {
            let number = place_of(place)?;
            if self.ready(number)?.is_some() {
                return Ok(Some(number));
            }
        }
        Ok(None)
    }
}

/// Learns the facts of the type at a place, where it can be learned.
fn learn<'m>(
    alloc: Global,
    names: &Names<'m>,
    standings: &[Standing],
    known: &mut [Option<Facts<'m>>],
    place: u32,
) -> Result<(), NoMemory>
    ensures are { OnOk result (AreLearned names.now standings.now known.old
        → AreLearned names.now standings.now known.new) }
    ensures fewer { OnOk result (AreLearned names.now standings.now known.old
        → IsSome (ready names.now standings.now known.old place)
        → unknowns known.new < unknowns known.old) }
{
    let facing = Facing {
        alloc,
        names,
        standings,
        known,
    };
    let Some(of) = facing.ready(place)? else {
        return Ok(());
    };
    let mut unused = Least::new();
    let facts = facing.of_type(MOST_LEVELS, of, &mut unused)?;
    note(known, place, facts);
    Ok(())
}

/// Nothing is known of so many types.
fn unknown<'m>(alloc: Global, count: usize) -> Result<Vec<Option<Facts<'m>>>, NoMemory>
    ensures { IfOk result (λ known. known.items ≡ replicate count None) }
{
    let mut known = Vec::new(alloc);
    for _ in 0..count {
        known.push(None)?;
    }
    Ok(known)
}

/// Learns the facts of the types at these places, one behind the other.
fn learn_in_order<'m>(
    alloc: Global,
    names: &Names<'m>,
    standings: &[Standing],
    known: &mut [Option<Facts<'m>>],
    order: &[u32],
) -> Result<(), NoMemory>
    ensures { OnOk result (AreLearned names.now standings.now known.old
        → AreLearned names.now standings.now known.new) }
{
    for place in order {
        learn(alloc, names, standings, known, *place)?;
    }
    Ok(())
}

/// Learns the facts of types as long as there are any that can be learned.
fn learn_rest<'m>(
    alloc: Global,
    names: &Names<'m>,
    standings: &[Standing],
    known: &mut [Option<Facts<'m>>],
) -> Result<(), NoMemory>
    requires { AreLearned names.now standings.now known.old }
    ensures are { OnOk result (AreLearned names.now standings.now known.new) }
    ensures all { OnOk result (AreAllLearned names.now standings.now known.new) }
{
    loop {
        let facing = Facing {
            alloc,
            names,
            standings,
            known,
        };
        let Some(place) = facing.next_ready()? else {
            return Ok(());
        };
        learn(alloc, names, standings, known, place)?;
    }
}

/// The facts of all types that don't reach themselves. In an order in which each stands behind
/// those that it names this takes one look at each.
pub(crate) fn learn_all<'m>(
    alloc: Global,
    names: &Names<'m>,
    standings: &[Standing],
    order: &[u32],
) -> Result<Vec<Option<Facts<'m>>>, NoMemory>
    requires { IsRightSurvey (bodies_uses names.now names.now) standings.now }
    ensures known { IfOk result (λ known. AreKnown names.now standings.now known.items
        (length names.now)) }
    ensures settled { IfOk result (λ known. AreSettled names.now standings.now known.items) }
{
    let mut known = unknown(alloc, names.assignments().len())?;
    learn_in_order(alloc, names, standings, &mut known, order)?;
    learn_rest(alloc, names, standings, &mut known)?;
    Ok(known)
}
