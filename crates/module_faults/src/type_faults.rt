//! The faults of a module that its types show as a whole.
#![tactic(auto, using(crate::proofs::LeastLaws::least_append, crate::proofs::LeastLaws::least_two))]

ghost use Rattle.std.specs.Prelude.{◌≡◌, ◌+◌, ◌≤◌, ◌^◌, ℕ, IfErr, IfOk, OnOk, length};
ghost use Rattle.module_faults.specs.Least.{least_from};
ghost use Rattle.module_faults.specs.Recursion.{bodies_uses};
ghost use Rattle.module_faults.specs.Standings.{says};
ghost use Rattle.module_faults.specs.ReachSets.{IsRightSurvey};
ghost use Rattle.module_faults.specs.Facts.{env_of};
ghost use Rattle.module_faults.specs.Faults.{use_shows, use_nesting, too_deep, body_shows, bodies_show, first_recursive};
ghost use Rattle.module_faults.specs.Known.{env_by, AreKnown, AreSettled};

use crate::kind::TableKind;
use crate::learning::learn_all;
use crate::least::Least;
use crate::locals::MOST_LEVELS;
use crate::names::Names;
use crate::reach_search::Standing;
use crate::recursion::says;
use crate::type_facts::Facing;
use notation_tokens::Located;
use operation_notation::{Assigned, Assignment, UseText};
use osi_base::NoMemory;
use std::alloc::Global;

/// An assignment whose row would nest more than 32 deep.
fn too_deep(name: &Located, nesting: u32, least: &mut Least)
    ensures { least.new.found ≡ least_from least.old.found (too_deep name.now nesting) }
{
    least.note_if(nesting > 32, name.line, name.column, TableKind::TooNested);
}

impl<'s, 'm> Facing<'s, 'm> {
    /// The nesting of a type that is carried, and the faults that it shows.
    #[tactic(auto, unfolding(crate::specs::Least::least_from), using(crate::proofs::LeastLaws::least_append, crate::proofs::LeastLaws::least_two))]
    fn of_use(&self, text: &'m Option<UseText>, least: &mut Least) -> Result<u32, NoMemory>
        ensures nesting { IfOk result (λ nesting. nesting ≡ use_nesting
            (env_by self.now) text.now) }
        ensures shows { OnOk result (least.new.found ≡ least_from least.old.found (use_shows
            (env_by self.now) text.now)) }
    {
        match text {
            Some(text) => Ok(self.of_type(MOST_LEVELS, &text.of, least)?.nesting),
            None => Ok(0),
        }
    }

    /// The faults that the types of what is assigned show, by what is known of those that they
    /// name.
    fn of_body(&self, name: &Located, body: &'m Assigned, least: &mut Least) -> Result<(), NoMemory>
        ensures { OnOk result (least.new.found ≡ least_from least.old.found (body_shows
            (env_by self.now) name.now
            body.now)) }
    {
        match body {
            Assigned::Typed(of) => {
                let facts = self.of_type(MOST_LEVELS, of, least)?;
                too_deep(name, facts.nesting, least);
            }
            Assigned::Operation(text) => {
                let argument = self.of_use(&text.argument, least)?;
                let outcome = self.of_use(&text.result, least)?;
                too_deep(name, argument.max(outcome), least);
            }
            Assigned::Error(text) => {
                let nesting = self.of_use(&text.parameter, least)?;
                too_deep(name, nesting, least);
            }
        }
        Ok(())
    }
}

/// The first type assignment that reaches itself, as it is said.
pub(crate) fn first_recursive(
    assignments: &[Assignment],
    standings: &[Standing],
    least: &mut Least,
) -> Result<(), NoMemory>
    ensures found { OnOk result (least.new.found ≡ least_from least.old.found
        (first_recursive (says standings.now) 0 assignments.now)) }
    // Only more assignments than places can count are refused.
    ensures refused { IfErr result (λ _. 2 ^ 32 ≤ length assignments.now) }
{
    let mut rest = assignments;
    let mut place: u32 = 0;
    while let [assignment, more @ ..] = rest {
        if says(standings, place) {
            let name = &assignment.name;
            least.note_if(true, name.line, name.column, TableKind::Recursive);
            return Ok(());
        }
        if place == u32::MAX {
            return Err(NoMemory);
        }
        place += 1;
        rest = more;
    }
    Ok(())
}

/// The faults that the types of a module show as a whole, by what is known of all.
fn judge_all(facing: &Facing<'_, '_>, least: &mut Least) -> Result<(), NoMemory>
    requires known { AreKnown facing.now.names.now facing.now.standings.now facing.now.known.now
        (length facing.now.names.now) }
    requires settled { AreSettled facing.now.names.now facing.now.standings.now
        facing.now.known.now }
    ensures { OnOk result (least.new.found ≡ least_from least.old.found (bodies_show
        (env_of facing.now.names.now (says facing.now.standings.now)) facing.now.names.now)) }
{
    let mut rest = facing.names.assignments();
    while let [assignment, more @ ..] = rest {
        facing.of_body(&assignment.name, &assignment.body, least)?;
        rest = more;
    }
    Ok(())
}

/// The faults that the types of a module show as a whole. The types are learned in the order that
/// is given, and if it has one before those that it names, once these are known.
pub(crate) fn shown_faults(
    alloc: Global,
    names: &Names<'_>,
    standings: &[Standing],
    order: &[u32],
    least: &mut Least,
) -> Result<(), NoMemory>
    requires { IsRightSurvey (bodies_uses names.now names.now) standings.now }
    ensures { OnOk result (least.new.found ≡ least_from least.old.found (bodies_show
        (env_of names.now (says standings.now)) names.now)) }
{
    let known = learn_all(alloc, names, standings, order)?;
    let facing = Facing {
        alloc,
        names,
        standings,
        known: known.as_slice(),
    };
    judge_all(&facing, least)
}
