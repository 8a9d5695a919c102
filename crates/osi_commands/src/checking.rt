//! The command `check`: what words and files make of it.

ghost use Rattle.std.specs.Prelude.{◌≡◌, IfOk, OnOk, OnErr};
ghost use Rattle.osi_base.specs.Outside.{logged};
ghost use Rattle.osi_commands.specs.Answers.{KeepsCount};
ghost use Rattle.osi_commands.specs.Reading.{KeepsFiles, MayAsk};
ghost use Rattle.osi_commands.specs.Given.{check_given};
ghost use Rattle.osi_commands.specs.Checking.{checked_answer, ChecksOctets, Checks};

use crate::answers::{Answer, cannot_read, done};
use crate::reading::read_file;
use module_check::{Check, Checked, check_module};
use osi_base::{Files, NoMemory, Status};
use std::alloc::Global;

/// The answer that has what a check writes.
fn checked_answer(checked: Checked) -> Answer
    ensures { result ≡ checked_answer checked }
{
    match checked {
        Checked::Shown(text) => done(text),
        Checked::Refused(text) => Answer {
            status: Status::ModuleRefused,
            text,
        },
    }
}

/// What is answered to the octets of a module.
#[tactic(auto, using(crate::proofs::CheckAnswers::checks_octets))]
fn check_octets(alloc: Global, octets: &[u8], table: bool) -> Result<Answer, NoMemory>
    ensures { IfOk result (λ answer. ChecksOctets table octets.now answer) }
{
    let checked = check_module(alloc, octets, table)?;
    Ok(checked_answer(checked))
}

/// What the program answers to a check. What tells that the module isn't read is made before it is
/// asked for, so that no want of memory stands between a file that failed and its telling.
#[tactic(auto, using(crate::proofs::CheckAnswers::checks_unread))]
pub fn answer_check<F: Files>(
    alloc: Global,
    check: Check<'_>,
    files: &mut F,
) -> Result<Answer, NoMemory>
    ensures files { KeepsFiles (F.told files.old) (F.told files.new) (F.faults files.old)
        (F.faults files.new) }
    ensures answer { IfOk result (λ answer. Checks (F.told files.old) (F.faults files.old)
        (F.faults files.new) (check_given check.entry) answer) }
    ensures counts { IfOk result (λ answer. KeepsCount (F.faults files.old) (F.faults files.new)
        answer) }
    ensures err_count { OnErr result (F.faults files.new ≡ F.faults files.old) }
    ensures asked { MayAsk check.entry.«module».now (F.asked files.old) (F.asked files.new) }
    ensures ok_asked { OnOk result (F.asked files.new
        ≡ logged check.entry.«module».now (F.asked files.old)) }
{
    let unread = cannot_read(alloc, check.module)?;
    match read_file(alloc, files, check.module)? {
        None => Ok(unread),
        Some(octets) => {
            let answer = check_octets(alloc, octets.as_slice(), check.table)?;
            Ok(answer)
        }
    }
}
