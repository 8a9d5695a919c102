//! The replay of a schedule.

ghost use Rattle.std.specs.Prelude.{◌≡◌, IfOk};
ghost use Rattle.packed_codec.specs.Laws.{HasNoAny};
ghost use Rattle.replays.specs.schedule_text.Schedules.{configs_and_events};
ghost use Rattle.replays.specs.Runs.{IsSetUp};
ghost use Rattle.osi_commands.specs.Replaying.{written_of, Replayed, ReplayedBy};

use crate::answers::{Answer, done, script_refused};
use dialogue::Transcript;
use osi_base::{NoMemory, Octets};
use replays::schedule_text_layer::{Modes, Schedule, read_schedule, schedules_are_run};
use replays::{one_transcript, run_schedule};
use schedule_ends::schedule_has_ends;
use script_lines::ScriptFault;
use std::alloc::Global;
use stub_tables::Tables;
use transcript_text::{summary_text, transcript_text};

/// What is written of a run: its transcript, or in brief its summary.
fn written_of(
    alloc: Global,
    tables: &Tables,
    transcript: &Transcript,
    brief: bool,
) -> Result<Octets, NoMemory>
    ensures { IfOk result (λ text. text ≡ written_of brief tables.now transcript.now) }
{
    if brief {
        summary_text(alloc, transcript)
    } else {
        transcript_text(alloc, tables, transcript)
    }
}

/// Runs a schedule, and answers what is written of its run.
fn replay(
    alloc: Global,
    tables: &Tables,
    schedule: Schedule,
    brief: bool,
) -> Result<Octets, NoMemory>
    requires set_up { IsSetUp (configs_and_events schedule) }
    requires typed { HasNoAny tables.now.types }
    ensures { IfOk result (λ text. Replayed brief tables.now (configs_and_events schedule) text) }
{
    one_transcript();
    let transcript = run_schedule(alloc, tables, schedule)?;
    written_of(alloc, tables, &transcript, brief)
}

/// What is answered to the octets of a schedule: what is written of its run, which in brief is a
/// summary, or the first faulty line.
#[tactic(auto, using(crate::proofs::Second::replayed_ok, crate::proofs::Second::replayed_err))]
pub fn replay_octets(
    alloc: Global,
    tables: &Tables,
    octets: &[u8],
    brief: bool,
) -> Result<Answer, NoMemory>
    requires typed { HasNoAny tables.now.types }
    ensures { IfOk result (ReplayedBy brief tables.now octets.now) }
{
    schedules_are_run();
    let every_mode = Modes {
        direct: true,
        reliable: true,
    };
    match read_schedule(alloc, every_mode, tables, octets) {
        Ok(schedule) => {
            schedule_has_ends(tables, &schedule);
            let text = replay(alloc, tables, schedule, brief)?;
            Ok(done(text))
        }
        Err(ScriptFault::At { line, kind }) => {
            let answer = script_refused(alloc, line, kind)?;
            Ok(answer)
        }
        Err(ScriptFault::NoMemory) => Err(NoMemory),
    }
}
