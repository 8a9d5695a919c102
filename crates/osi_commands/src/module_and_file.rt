//! The commands `replay` and `trace`: the module is read, then the second file, which is answered
//! by the module's tables.

ghost use Rattle.std.specs.Prelude.{◌≡◌, IfOk, OnErr};
ghost use Rattle.packed_codec.specs.Laws.{HasNoAny};
ghost use Rattle.osi_commands.specs.Answers.{KeepsCount};
ghost use Rattle.osi_commands.specs.Given.{two_files_given};
ghost use Rattle.osi_commands.specs.Reading.{KeepsFiles, AsksTwoFiles, TwoFilesAsked};
ghost use Rattle.osi_commands.specs.ModuleAndFile.{SecondBy, AnswersTwoFiles};

use crate::answers::Answer;
use crate::commands::{TwoFiles, Work};
use crate::reading::{TwoFilesRead, read_two_files};
use crate::replaying::replay_octets;
use crate::tracing::trace_octets;
use osi_base::{Files, NoMemory};
use std::alloc::Global;
use stub_tables::Tables;

/// What is answered to the octets of the second file.
fn answer_octets(
    alloc: Global,
    work: Work,
    tables: &Tables,
    octets: &[u8],
) -> Result<Answer, NoMemory>
    requires typed { HasNoAny tables.now.types }
    ensures { IfOk result (SecondBy work tables.now octets.now) }
{
    match work {
        Work::Replay { brief } => replay_octets(alloc, tables, octets, brief),
        Work::Trace => trace_octets(alloc, tables, octets),
    }
}

/// What the program answers to a replay, or to a trace.
pub fn answer_two_files<F: Files>(
    alloc: Global,
    named: TwoFiles<'_>,
    files: &mut F,
) -> Result<Answer, NoMemory>
    ensures files { KeepsFiles (F.told files.old) (F.told files.new) (F.faults files.old)
        (F.faults files.new) }
    ensures answer { IfOk result (λ answer. AnswersTwoFiles (F.told files.old) (F.faults files.old)
        (F.faults files.new) (two_files_given named.entry) answer) }
    ensures counts { IfOk result (λ answer. KeepsCount (F.faults files.old) (F.faults files.new)
        answer) }
    ensures err_count { OnErr result (F.faults files.new ≡ F.faults files.old) }
    ensures asked { AsksTwoFiles (F.told files.old) (F.faults files.old) (F.faults files.new)
        (two_files_given named.entry) (F.asked files.old) (F.asked files.new) }
    ensures asked_for { IfOk result (λ answer. TwoFilesAsked (two_files_given named.entry)
        (F.asked files.old) (F.asked files.new) answer.status) }
{
    match read_two_files(alloc, named, files)? {
        TwoFilesRead::Answered(answer) => Ok(answer),
        TwoFilesRead::Whole(tables, octets) => {
            let answer = answer_octets(alloc, named.work, &tables, octets.as_slice())?;
            Ok(answer)
        }
    }
}
