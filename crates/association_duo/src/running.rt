//! Schedules that are run over two ends.

ghost use Rattle.std.specs.Prelude.{IfOk};
ghost use Rattle.association_duo.specs.Ran.{RunsTold};

use crate::end::AssociationRun;
use association_end::End;
use dialogue::{Events, Transcript};
use osi_base::NoMemory;
use std::alloc::Global;
use two_ends::run_events;

/// Runs the events of a schedule over two ends of direct or of reliable mode, oldest first, and
/// answers what came of each. A call of a schedule is made at its end, and what the end answers is
/// an entry, also where it refuses. A carry gives out at most so many octets of those that wait at
/// its side, or all, and feeds exactly them to the other end. A break comes to both ends.
///
/// From every world for which the ends stand, the run is a run of two ends by the rules, and each
/// end then stands for its own history of it.
///
/// The only error is want of memory. The run ends there, and of the ends only that is known which
/// `End::call` and `End::feed` say.
pub fn run_world(
    alloc: Global,
    a: &mut End<'_>,
    b: &mut End<'_>,
    events: &Events,
) -> Result<Transcript, NoMemory>
    ensures { IfOk result (λ transcript. RunsTold events.now transcript a.old b.old a.new b.new) }
{
    let mode = a.config().mode;
    let entries = run_events::<AssociationRun, End<'_>, End<'_>>(alloc, a, b, events)?;
    Ok(Transcript {
        mode,
        entries,
        a: a.phase(),
        b: b.phase(),
    })
}
