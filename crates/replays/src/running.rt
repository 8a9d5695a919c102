//! Schedules of each mode.

ghost use Rattle.std.specs.Prelude.{IfOk};
ghost use Rattle.packed_codec.specs.Laws.{HasNoAny};
ghost use Rattle.schedule_text.specs.Schedules.{configs_and_events};
ghost use Rattle.replays.specs.Runs.{IsSetUp, RanSchedule};

use crate::associated::run_associated;
use crate::bare::run_bare;
use dialogue::{Mode, Transcript};
use osi_base::NoMemory;
use schedule_text::{Schedule, setups_of_bare_mode};
use std::alloc::Global;
use stub_tables::Tables;

/// Runs the events of a schedule, oldest first, over two new ends with the configurations of its
/// setup and a module's tables, and answers what came of each event and the phases in which the
/// ends are left.
///
/// The run keeps all laws of such runs, in each mode and of every module.
///
/// The only error is want of memory.
pub fn run_schedule(
    alloc: Global,
    tables: &Tables,
    schedule: Schedule,
) -> Result<Transcript, NoMemory>
    requires set_up { IsSetUp (configs_and_events schedule) }
    requires typed { HasNoAny tables.now.types }
    ensures { IfOk result (RanSchedule tables.now (configs_and_events schedule)) }
{
    setups_of_bare_mode();
    match schedule.setup.a.mode {
        Mode::Bare => run_bare(alloc, tables, schedule),
        Mode::Direct | Mode::Reliable => run_associated(alloc, tables, schedule),
    }
}
