//! The command that words give.

ghost use Rattle.std.specs.Prelude.{◌≡◌, ◌∷◌, [], false, None, Some, MatchOption};
ghost use Rattle.osi_commands.specs.Commands.{work_of, two_files_behind, two_files_of, command_of};
ghost use Rattle.osi_commands.specs.SoFar.{two_files_from};
ghost use Rattle.osi_commands.specs.Given.{two_files_given, given};

use module_check::{Check, check_command, is_flag, is_word};
use osi_base::{Name, Words};

/// What is done with a second file, by the tables of a module.
#[derive(Clone, Copy, Debug, PartialEq, Eq)]
pub enum Work {
    /// It is a schedule, which is run.
    Replay {
        /// Whether a summary of the run is wanted; else its transcript is.
        brief: bool,
    },
    /// It is a recorded dialogue, of which it is told what it says.
    Trace,
}

/// A module and a second file, by their names, and what is done with them.
#[derive(Clone, Copy)]
pub struct TwoFiles<'a> {
    /// What is done with the second file.
    pub work: Work,
    /// The name of the module's file.
    pub module: &'a Name,
    /// The name of the second file.
    pub second: &'a Name,
}

/// A command of the program.
#[derive(Clone, Copy)]
pub enum Command<'a> {
    /// A module is checked.
    Check(Check<'a>),
    /// Something is done with a second file, by the tables of a module.
    TwoFiles(TwoFiles<'a>),
}

/// The words behind `replay` or `trace` so far.
#[derive(Clone, Copy)]
struct SoFar<'a> {
    /// Whether `--` ended the flags.
    ended: bool,
    /// Whether `--brief` stood.
    brief: bool,
    module: Option<&'a Name>,
    second: Option<&'a Name>,
}

/// One more word behind `replay`, which takes `--brief`, or behind `trace`; nothing where it can't
/// stand.
fn one_more<'a>(replays: bool, so_far: SoFar<'a>, word: &'a Name) -> Option<SoFar<'a>>
    ensures { MatchOption result
        ((words : _) → two_files_from replays so_far.entry (word.now ∷ words) ≡ None)
        (λ more. (words : _) → two_files_from replays so_far.entry (word.now ∷ words)
        ≡ two_files_from replays more words) }
{
    if !so_far.ended && is_word(word, "--") {
        return Some(SoFar {
            ended: true,
            ..so_far
        });
    }
    if replays && (!so_far.ended && is_word(word, "--brief")) {
        if so_far.brief {
            return None;
        }
        return Some(SoFar {
            brief: true,
            ..so_far
        });
    }
    if !so_far.ended && is_flag(word) {
        return None;
    }
    if so_far.module.is_some() {
        if so_far.second.is_some() {
            return None;
        }
        return Some(SoFar {
            second: Some(word),
            ..so_far
        });
    }
    Some(SoFar {
        module: Some(word),
        ..so_far
    })
}

/// What is done: a replay, whole or in brief, or else a trace.
fn work_of(replays: bool, brief: bool) -> Work
    ensures { result ≡ work_of replays brief }
{
    if replays {
        Work::Replay { brief }
    } else {
        Work::Trace
    }
}

/// What is done with two files, where both names stand.
fn named_two_files(replays: bool, so_far: SoFar<'_>) -> Option<TwoFiles<'_>>
    ensures { MatchOption result (two_files_from replays so_far.entry [] ≡ None)
        (λ named. two_files_from replays so_far.entry [] ≡ Some (two_files_given named)) }
{
    let module = so_far.module?;
    let second = so_far.second?;
    Some(TwoFiles {
        work: work_of(replays, so_far.brief),
        module,
        second,
    })
}

/// The two files that these words behind `replay` or `trace` give, where they give them.
fn two_files_behind(replays: bool, words: &[Name]) -> Option<TwoFiles<'_>>
    ensures { MatchOption result (two_files_behind replays false false None None words.now ≡ None)
        (λ named. two_files_behind replays false false None None words.now
        ≡ Some (two_files_given named)) }
{
    let mut so_far = SoFar {
        ended: false,
        brief: false,
        module: None,
        second: None,
    };
    for word in words {
        let more = one_more(replays, so_far, word)?;
        so_far = more;
    }
    let named = named_two_files(replays, so_far)?;
    Some(named)
}

/// The two files that words give, where they give them: the word `replay` or `trace`, and behind it
/// the module's name and the second file's; with a replay perhaps the flag `--brief` in any place.
/// `--` ends the flags.
fn asked_two_files(words: &Words) -> Option<TwoFiles<'_>>
    ensures { MatchOption result (two_files_of words.now ≡ None)
        (λ named. two_files_of words.now ≡ Some (two_files_given named)) }
{
    match words.as_slice() {
        [word, others @ ..] if is_word(word, "replay") => two_files_behind(true, others),
        [word, others @ ..] if is_word(word, "trace") => two_files_behind(false, others),
        _ => None,
    }
}

/// The command that these words give, where they give one.
pub fn read_command(words: &Words) -> Option<Command<'_>>
    ensures { MatchOption result (command_of words.now ≡ None)
        (λ command. command_of words.now ≡ Some (given command)) }
{
    match check_command(words) {
        Some(check) => Some(Command::Check(check)),
        None => {
            let named = asked_two_files(words)?;
            Some(Command::TwoFiles(named))
        }
    }
}
