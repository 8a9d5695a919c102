//! The two ends and the events of a schedule.

ghost use Rattle.std.specs.Prelude.{◌≡◌, ℕ, List, Ok};
ghost use Rattle.schedule_text.specs.declared.setting.Modes.{Modes};
ghost use Rattle.schedule_text.specs.Schedules.{configs_and_events, schedule_of};
ghost use Rattle.schedule_ends.specs.Ends.{HasEnds};

use crate::typed::{config_is_of_end, events_are_calls};
use schedule_text::{Schedule, schedules_are_run};
use stub_tables::Tables;

/// Does nothing. Its contract says of a schedule that was read by a module's tables, from whatever
/// text and in whatever modes are run: its mode is one of these, its configurations are ones of an
/// initiator and of a responder of that mode that no end refuses, and its calls are calls as their
/// types have them. So what is presumed of two ends of direct mode, or of reliable mode, holds of
/// its ends, where the tables have no `Any`.
pub fn schedule_has_ends(tables: &Tables, schedule: &Schedule)
    ensures { (modes : Modes) (text : List ℕ)
        → schedule_of modes tables.now text ≡ Ok (configs_and_events schedule.now)
        → HasEnds modes tables.now (configs_and_events schedule.now) }
{
    schedules_are_run();
    tables.hold_readable();
    config_is_of_end(&schedule.setup.a);
    config_is_of_end(&schedule.setup.b);
    events_are_calls(&schedule.events);
}
