//! Schedules of direct and of reliable mode.

ghost use Rattle.std.specs.Prelude.{◌≡◌, false, [], None, IfOk};
ghost use Rattle.packed_codec.specs.Laws.{HasNoAny};
ghost use Rattle.schedule_text.specs.end_config.Refusing.{config_refusal};
ghost use Rattle.end_rules.specs.Base.{base_of, is_bare};
ghost use Rattle.codec_runs.specs.association_reading.Transfers.{association_spellings};
ghost use Rattle.association_duo.specs.association_line.Line.{new_end};
ghost use Rattle.association_duo.specs.association_end.View.{StandsFor};
ghost use Rattle.schedule_text.specs.Schedules.{configs_and_events};
ghost use Rattle.replays.specs.Runs.{IsSetUp, RanOver, RanAssociated};

use crate::laws::associated_runs_keep_laws;
use association_duo::association_end_layer::End;
use association_duo::run_world;
use dialogue::{Config, ConfigRefusal, Events, Transcript};
use osi_base::NoMemory;
use schedule_text::Schedule;
use std::alloc::Global;
use stub_tables::Tables;

/// An end that has made no step. Its configuration is one that no end refuses, so only memory can
/// lack.
fn new_end<'t>(alloc: Global, tables: &'t Tables, config: Config) -> Result<End<'t>, NoMemory>
    requires associated { is_bare config.mode ≡ false }
    requires accepted { config_refusal config ≡ None }
    ensures made { IfOk result (λ end. end ≡ record {
      tables = tables.entry.now;
      config = config;
      end = new_end (base_of tables.entry.now config (association_spellings tables.entry.now));
    }) }
    ensures new { IfOk result (λ end. StandsFor end []) }
{
    match End::new(alloc, tables, config) {
        Ok(end) => Ok(end),
        Err(ConfigRefusal::NoMemory) => Err(NoMemory),
        Err(_) => unreachable!(),
    }
}

/// Runs events over two ends, which are let go behind them: each by a call, since what such an end
/// holds is much to let go where a function ends.
fn run_ends(
    alloc: Global,
    mut a: End<'_>,
    mut b: End<'_>,
    events: &Events,
) -> Result<Transcript, NoMemory>
    ensures { IfOk result (RanOver events.now a.entry b.entry) }
{
    let told = run_world(alloc, &mut a, &mut b, events);
    drop(a);
    drop(b);
    told
}

/// Runs the events of a schedule of direct or of reliable mode over two new ends with the
/// configurations of its setup.
pub fn run_associated(
    alloc: Global,
    tables: &Tables,
    schedule: Schedule,
) -> Result<Transcript, NoMemory>
    requires associated { is_bare schedule.setup.a.mode ≡ false }
    requires set_up { IsSetUp (configs_and_events schedule) }
    requires typed { HasNoAny tables.now.types }
    ensures { IfOk result (RanAssociated tables.now (configs_and_events schedule)) }
{
    associated_runs_keep_laws();
    tables.hold_readable();
    let Schedule { setup, events } = schedule;
    let a = new_end(alloc, tables, setup.a)?;
    match new_end(alloc, tables, setup.b) {
        Ok(b) => run_ends(alloc, a, b, &events),
        Err(fault) => {
            drop(a);
            Err(fault)
        }
    }
}
