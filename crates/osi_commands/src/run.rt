//! The program's top call.

ghost use Rattle.std.specs.Prelude.{Bool, ◌≡◌, ◌≢◌, ◌≤◌, ◌⊎◌, Some, None, IfOk, OnErr};
ghost use Rattle.osi_base.specs.Outside.{FaultsRose};
ghost use Rattle.module_check.specs.Command.{Check};
ghost use Rattle.osi_commands.specs.declared.commands.Work.TheVariants as works;
ghost use Rattle.osi_commands.specs.Answers.{KeepsCount, IsUnless, CountsWrites};
ghost use Rattle.osi_commands.specs.Commands.{TwoFiles, checks, two_files, command_of};
ghost use Rattle.osi_commands.specs.Given.{given};
ghost use Rattle.osi_commands.specs.Reading.{KeepsFiles};
ghost use Rattle.osi_commands.specs.Checking.{CheckEnds};
ghost use Rattle.osi_commands.specs.ModuleAndFile.{WorkEnds, IsReplayDone};
ghost use Rattle.osi_commands.specs.TopCall.{IsAnswer, CommandCloses, IsCommandBegun, CommandCountsFiles, IsUsage, Asks, AskedBy, AskedAtEnd};

use crate::answers::{Answer, conclude, usage};
use crate::checking::answer_check;
use crate::commands::{Command, read_command};
use crate::module_and_file::answer_two_files;
use osi_base::{Files, Line, NoMemory, Sink, Status, Words};
use std::alloc::Global;

/// What the program answers to a command.
fn answer_command<F: Files>(
    alloc: Global,
    command: Command<'_>,
    files: &mut F,
) -> Result<Answer, NoMemory>
    ensures files { KeepsFiles (F.told files.old) (F.told files.new) (F.faults files.old)
        (F.faults files.new) }
    ensures answer { IfOk result (λ answer. IsAnswer (F.told files.old) (F.faults files.old)
        (F.faults files.new) (Some (given command.entry)) answer) }
    ensures counts { IfOk result (λ answer. KeepsCount (F.faults files.old) (F.faults files.new)
        answer) }
    ensures err_count { OnErr result (F.faults files.new ≡ F.faults files.old) }
    ensures asked { Asks (F.told files.old) (F.faults files.old) (F.faults files.new)
        (Some (given command.entry)) (F.asked files.old) (F.asked files.new) }
    ensures asked_for { IfOk result (λ answer. AskedBy (Some (given command.entry))
        (F.asked files.old) (F.asked files.new) answer.status) }
{
    match command {
        Command::Check(check) => answer_check(alloc, check, files),
        Command::TwoFiles(named) => answer_two_files(alloc, named, files),
    }
}

/// What the program answers to words.
fn answer_words<F: Files>(alloc: Global, words: &Words, files: &mut F) -> Result<Answer, NoMemory>
    ensures files { KeepsFiles (F.told files.old) (F.told files.new) (F.faults files.old)
        (F.faults files.new) }
    ensures answer { IfOk result (λ answer. IsAnswer (F.told files.old) (F.faults files.old)
        (F.faults files.new) (command_of words.now) answer) }
    ensures counts { IfOk result (λ answer. KeepsCount (F.faults files.old) (F.faults files.new)
        answer) }
    ensures err_count { OnErr result (F.faults files.new ≡ F.faults files.old) }
    ensures asked { Asks (F.told files.old) (F.faults files.old) (F.faults files.new)
        (command_of words.now) (F.asked files.old) (F.asked files.new) }
    ensures asked_for { IfOk result (λ answer. AskedBy (command_of words.now) (F.asked files.old)
        (F.asked files.new) answer.status) }
{
    match read_command(words) {
        None => usage(alloc),
        Some(command) => answer_command(alloc, command, files),
    }
}

/// Answers words and writes the answer.
fn run_words<F: Files, O: Sink>(alloc: Global, words: &Words, files: &mut F, out: &mut O) -> Status
    ensures files { F.faults files.old ≤ F.faults files.new }
    ensures contents { F.told files.new ≡ F.told files.old }
    ensures sink { O.faults out.old ≤ O.faults out.new }
    ensures asked { Asks (F.told files.old) (F.faults files.old) (F.faults files.new)
        (command_of words.now) (F.asked files.old) (F.asked files.new) }
    ensures asked_for { AskedAtEnd (command_of words.now) (F.asked files.old) (F.asked files.new)
        result }
    ensures closes { CommandCloses (F.told files.old) (F.faults files.old) (F.faults files.new)
        (command_of words.now) (O.faults out.old) (O.faults out.new) (O.told out.old)
        (O.told out.new) result }
{
    conclude(out, answer_words(alloc, words, files))
}

/// Runs the program with these words. The commands:
///
/// - `check MODULE [--table]` reads the module, a text or a table file, and writes a line for each
///   of its operations and errors, or with `--table` its tables as a table file.
/// - `replay MODULE SCHEDULE [--brief]` reads both files, runs the schedule over two ends of the
///   module, of the mode that it names, and writes the transcript's text, or with `--brief` its
///   summary, once the run is whole.
/// - `trace MODULE FILE` reads both files and writes what the recorded dialogue in the second one
///   says, with the names of the module.
///
/// What a replay writes tells the one run that two new ends with the schedule's configurations make
/// of its events, and that run keeps all laws of its mode: each message that is taken is the one
/// that the other end sent in its place, and its values, but those of openings, their answers and
/// aborts, are read under the pair that the one shared context set gave their context at the
/// sending; an invocation has at most one outcome, which is allowed to it; each reliable transfer
/// arrives whole, at most once; nothing whole waits at an end that isn't over; no end aborts of
/// itself.
///
/// Each other answer is a status with a text of its own, and nothing else is written:
///
/// - `Usage`: the words are none of these commands.
/// - `ReadFault`: a file isn't read.
/// - `ModuleRefused`: the module has a fault, and the text says where.
/// - `ScriptRefused`: a line of the schedule, or of the recording, breaks its grammar.
/// - `WriteFault`: the sink failed; a beginning of the text was written.
/// - `NoMemory`: want of memory, whose cause no clause tells; a beginning of the text, or none of
///   it, was written.
///
/// The words come first, then the module, the second file and the run: the first fault decides. A
/// file that isn't due isn't asked for, and each is asked for once at most. A write that failed is
/// told as that. The line isn't used.
pub fn osi_run<F: Files, O: Sink, L: Line>(
    alloc: Global,
    words: &Words,
    files: &mut F,
    out: &mut O,
    line: &mut L,
) -> Status
    ensures files { F.faults files.old ≤ F.faults files.new }
    ensures contents { F.told files.new ≡ F.told files.old }
    ensures sink { O.faults out.old ≤ O.faults out.new }
    ensures line { line.new ≡ line.old }

    // Which files were asked for, and what the counts of faults say
    ensures asked { Asks (F.told files.old) (F.faults files.old) (F.faults files.new)
        (command_of words.now) (F.asked files.old) (F.asked files.new) }
    ensures asked_for { AskedAtEnd (command_of words.now) (F.asked files.old) (F.asked files.new)
        result }
    ensures files_count { CommandCountsFiles (F.told files.old) (F.faults files.old)
        (F.faults files.new) (command_of words.now) (O.told out.old) (O.told out.new) result }
    ensures sink_count { CountsWrites (O.faults out.old) (O.faults out.new) result }

    // The whole of it, of which all that follows is said again in parts
    ensures closes { CommandCloses (F.told files.old) (F.faults files.old) (F.faults files.new)
        (command_of words.now) (O.faults out.old) (O.faults out.new) (O.told out.old)
        (O.told out.new) result }

    // Statuses that end every command
    ensures write_fault { result ≡ Status.WriteFault →
        FaultsRose (O.faults out.old) (O.faults out.new)
        × IsCommandBegun (F.told files.old) (F.faults files.old) (F.faults files.new)
        (command_of words.now) (O.told out.old) (O.told out.new) }
    ensures no_memory { result ≡ Status.NoMemory → (O.told out.new ≡ O.told out.old)
        ⊎ IsCommandBegun (F.told files.old) (F.faults files.old) (F.faults files.new)
        (command_of words.now) (O.told out.old) (O.told out.new) }
    ensures no_other { (result ≢ Status.LineFault) × (result ≢ Status.Ended)
        × (result ≢ Status.Spent) }

    // What the other statuses say, and when they come: of words that are no command, of a check,
    // and of a replay or a trace
    ensures usage { result ≡ Status.Usage → IsUsage (command_of words.now) (O.told out.old)
        (O.told out.new) }
    ensures no_command { command_of words.now ≡ None
        → IsUnless (O.faults out.old) (O.faults out.new) Status.Usage result }
    ensures check { (check : Check) → command_of words.now ≡ Some (checks check)
        → CheckEnds (F.told files.old) (F.faults files.old) (F.faults files.new) check
        (O.faults out.old) (O.faults out.new) (O.told out.old) (O.told out.new) result }
    ensures two_files { (named : TwoFiles) → command_of words.now ≡ Some (two_files named)
        → WorkEnds (F.told files.old) (F.faults files.old) (F.faults files.new) named
        (O.faults out.old) (O.faults out.new) (O.told out.old) (O.told out.new) result }

    // In each mode a replay that is done wrote the one run of its schedule, which keeps all laws
    ensures replay { (named : TwoFiles) (brief : Bool)
        → command_of words.now ≡ Some (two_files named)
        → named.work ≡ works.Replay brief → result ≡ Status.Done
        → IsReplayDone (F.told files.old) (F.faults files.old) (F.faults files.new) named brief
        (O.told out.old) (O.told out.new) }
{
    run_words(alloc, words, files, out)
}
