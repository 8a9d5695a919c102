//! The program as a process: its arguments in, the number with which it ends out.

ghost use Rattle.std.specs.Prelude.{◌≡◌, IfOk, IsErr, map, drop, string_bytes};
ghost use Rattle.osi_commands.specs.Commands.{command_of};
ghost use Rattle.osi_commands.specs.TopCall.{Asks};
ghost use Rattle.osi_commands.specs.Process.{words_given, Exits};
ghost use Rattle.osi_commands.specs.Statuses.{exit_code};

use crate::run::osi_run;
use crate::statuses::exit_code;
use osi_base::{Files, Line, Name, NoMemory, Sink, Status, Words};
use std::alloc::Global;

/// The arguments of a process.
#[derive(Debug, Drop)]
pub enum Arguments {
    /// All of them, the program's name first.
    Given(Vec<String>),
    /// One of them is no UTF-8.
    NotText,
    /// Memory was refused for them.
    Unread,
}

/// The arguments but the first, as words.
fn words_of(alloc: Global, arguments: &[String]) -> Result<Words, NoMemory>
    ensures { IfOk result (λ words. words ≡ map (λ argument. string_bytes argument)
        (drop 1 arguments.now)) }
{
    let [_, given @ ..] = arguments else {
        return Ok(Words::new(alloc));
    };
    let mut words = Words::new(alloc);
    for argument in given {
        words.push(Name::from_str(alloc, argument.as_str())?)?;
    }
    Ok(words)
}

/// The words that arguments give.
fn read_words(alloc: Global, arguments: Arguments) -> Result<Words, NoMemory>
    ensures words { IfOk result (λ words. words ≡ words_given arguments) }
    ensures unread { arguments ≡ Arguments.Unread → IsErr result }
{
    match arguments {
        Arguments::Given(arguments) => words_of(alloc, arguments.as_slice()),
        Arguments::NotText => Ok(Words::new(alloc)),
        Arguments::Unread => Err(NoMemory),
    }
}

/// Runs the program with the words that these arguments give, and answers the number of the status
/// with which it ends. Arguments of which one is no UTF-8 are no command, and where memory was
/// refused for them the status is that of want of memory. The line isn't used.
pub fn run_process<F: Files, O: Sink, L: Line>(
    alloc: Global,
    arguments: Arguments,
    files: &mut F,
    out: &mut O,
    line: &mut L,
) -> u8
    ensures exits { Exits (F.told files.old) (F.faults files.old) (F.faults files.new)
        (words_given arguments) (F.asked files.old) (F.asked files.new) (O.faults out.old)
        (O.faults out.new) (O.told out.old) (O.told out.new) result }
    ensures unread { arguments ≡ Arguments.Unread → result ≡ exit_code Status.NoMemory }
    ensures asked { Asks (F.told files.old) (F.faults files.old) (F.faults files.new)
        (command_of (words_given arguments)) (F.asked files.old) (F.asked files.new) }
    ensures line { line.new ≡ line.old }
{
    match read_words(alloc, arguments) {
        Ok(words) => exit_code(osi_run(alloc, &words, files, out, line)),
        Err(NoMemory) => exit_code(Status::NoMemory),
    }
}
