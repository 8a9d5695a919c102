//! Schedules that are run over two ends.

ghost use Rattle.std.specs.Prelude.{IfOk};
ghost use Rattle.bare_duo.specs.Ran.{RunsFromStart, RunsTold};

use crate::end::BareRun;
use crate::laws::every_run_keeps_laws;
use bare_end::End;
use dialogue::{Events, Transcript};
use osi_base::NoMemory;
use std::alloc::Global;
use two_ends::run_events;

/// Runs the events of a schedule over two ends, oldest first, and answers what came of each. A
/// call of a schedule is made at its end, and what the end answers is an entry, also where it
/// refuses. A carry gives out at most so many octets of those that wait at its side, or all, and
/// feeds exactly them to the other end. A break comes to both ends.
///
/// Where the ends have the same tables and the configurations of one `BareSetup`, the run is one by
/// the rules from every world for which they stand, whatever they did before, and each end then
/// stands for its own history with it. Where they have made no step, the run keeps the laws of two
/// ends.
///
/// The only error is want of memory. The run ends there, and of the ends only that is known which
/// `End::call` and `End::feed` say.
pub fn run_world(
    alloc: Global,
    a: &mut End<'_>,
    b: &mut End<'_>,
    events: &Events,
) -> Result<Transcript, NoMemory>
    ensures told { IfOk result (λ transcript. RunsTold events.now transcript a.old b.old a.new
        b.new) }
    ensures laws { IfOk result (λ transcript. RunsFromStart events.now transcript a.old b.old a.new
        b.new) }
{
    a.tables().hold_readable();
    every_run_keeps_laws();
    let mode = a.config().mode;
    let entries = run_events::<BareRun, End<'_>, End<'_>>(alloc, a, b, events)?;
    Ok(Transcript {
        mode,
        entries,
        a: a.phase(),
        b: b.phase(),
    })
}
