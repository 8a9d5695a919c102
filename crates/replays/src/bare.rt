//! Schedules of bare mode.

ghost use Rattle.std.specs.Prelude.{◌≡◌, true, false, [], None, IfOk};
ghost use Rattle.dialogue.specs.declared.config.Mode.TheVariants as modes;
ghost use Rattle.dialogue.specs.Config.{bare_config_refusal, IsBare};
ghost use Rattle.bare_duo.specs.bare_end.View.{StandsFor};
ghost use Rattle.schedule_text.specs.Schedules.{configs_and_events};
ghost use Rattle.replays.specs.Runs.{BareRanOver, RanBare};

use bare_duo::bare_end_layer::End;
use bare_duo::run_world;
use dialogue::{Config, ConfigRefusal, Events, Transcript};
use osi_base::NoMemory;
use schedule_text::Schedule;
use std::alloc::Global;
use stub_tables::Tables;

/// An end that has made no step. Its configuration is one that no end refuses, so only memory can
/// lack.
fn new_end<'t>(alloc: Global, tables: &'t Tables, config: Config) -> Result<End<'t>, NoMemory>
    requires bare { config.mode ≡ modes.Bare }
    requires accepted { bare_config_refusal config ≡ None }
    ensures tables { IfOk result (λ end. end.tables ≡ tables.entry.now) }
    ensures config { IfOk result (λ end. end.config ≡ config) }
    ensures new { IfOk result (λ end. StandsFor end []) }
{
    match End::new(alloc, tables, config) {
        Ok(end) => Ok(end),
        Err(ConfigRefusal::NoMemory) => Err(NoMemory),
        Err(_) => unreachable!(),
    }
}

/// Runs events over two ends, which are let go behind them: each by a call, since what such an end
/// holds is much to let go where a function ends.
fn run_ends(
    alloc: Global,
    mut a: End<'_>,
    mut b: End<'_>,
    events: &Events,
) -> Result<Transcript, NoMemory>
    ensures { IfOk result (BareRanOver events.now a.entry b.entry) }
{
    let told = run_world(alloc, &mut a, &mut b, events);
    drop(a);
    drop(b);
    told
}

/// Runs the events of a schedule of bare mode over two new ends with the configurations of its
/// setup.
pub fn run_bare(alloc: Global, tables: &Tables, schedule: Schedule) -> Result<Transcript, NoMemory>
    requires a { IsBare true schedule.setup.a }
    requires b { IsBare false schedule.setup.b }
    ensures { IfOk result (RanBare tables.now (configs_and_events schedule)) }
{
    let Schedule { setup, events } = schedule;
    let a = new_end(alloc, tables, setup.a)?;
    match new_end(alloc, tables, setup.b) {
        Ok(b) => run_ends(alloc, a, b, &events),
        Err(fault) => {
            drop(a);
            Err(fault)
        }
    }
}
