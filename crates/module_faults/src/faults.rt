//! The least fault of a module.
#![tactic(auto, using(crate::proofs::LeastLaws::least_append, crate::proofs::LeastLaws::least_two))]

ghost use Rattle.std.specs.Prelude.{IfOk};
ghost use Rattle.module_faults.specs.Faults.{IsLeastFault};

use crate::assignment_faults::{double_codes, double_names, of_bodies};
use crate::least::{Found, Least};
use crate::names::Names;
use crate::reach_sets::recursion_survey;
use crate::type_faults::{first_recursive, shown_faults};
use crate::use_lists::all_uses;
use operation_notation::Assignment;
use osi_base::NoMemory;
use std::alloc::Global;

/// The least fault of a module with these assignments, by line, column and the order of kinds; or
/// none, if it has no fault. A place is a line and a column, both counted from 1, columns in
/// octets.
///
/// # Errors
///
/// Where memory is refused, and where there are 2^32 assignments or more, whose places aren't
/// counted. No other cause stands in the code: only `place_of`, `double_names` and
/// `first_recursive` refuse by themselves, and their clauses `refused` say that there are so many
/// assignments then. What the search for types that reach themselves says is checked, and what
/// doesn't pass is found another way; that either is so is proved (`recursion_survey`), and that
/// all types are learned by it (`learn_all`).
pub fn least_fault(alloc: Global, assignments: &[Assignment]) -> Result<Option<Found>, NoMemory>
    ensures { IfOk result (λ found. IsLeastFault assignments.now found) }
{
    let names = Names::new(alloc, assignments)?;
    let mut least = Least::new();
    double_names(&names, &mut least)?;
    of_bodies(alloc, &names, &mut least)?;
    double_codes(alloc, false, assignments, &mut least)?;
    double_codes(alloc, true, assignments, &mut least)?;
    let uses = all_uses(alloc, &names)?;
    let survey = recursion_survey(alloc, &uses)?;
    first_recursive(assignments, &survey.standings, &mut least)?;
    shown_faults(alloc, &names, &survey.standings, &survey.order, &mut least)?;
    Ok(least.found)
}
