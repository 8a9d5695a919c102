//! The command `check`.

ghost use Rattle.std.specs.Prelude.{◌≡◌, ◌∷◌, None, Some, false, MatchOption, bytes_eq};
ghost use Rattle.module_check.specs.Command.{is_flag, check_words, check_of};
ghost use Rattle.module_check.specs.SoFar.{check_from};

use osi_base::{Name, Words};

/// A check that a command asks for: of which file, and whether its table file is wanted.
#[derive(Clone, Copy)]
pub struct Check<'a> {
    /// The name of the module's file.
    pub module: &'a Name,
    /// Whether its table file is wanted in place of the listing.
    pub table: bool,
}

/// Whether a word of a command is a flag: it begins with `-`, and isn't `-` alone.
pub fn is_flag(word: &Name) -> bool
    ensures { result ≡ is_flag word.now }
{
    match word.as_bytes() {
        [first, _, ..] => *first == b'-',
        _ => false,
    }
}

/// Whether a word of a command has this text.
pub fn is_word(word: &Name, text: &str) -> bool
    ensures { result ≡ bytes_eq word.now text.now }
{
    word.as_bytes() == text.as_bytes()
}

/// The words behind `check` so far.
#[derive(Clone, Copy)]
struct SoFar<'a> {
    /// Whether `--` ended the flags.
    ended: bool,
    table: bool,
    module: Option<&'a Name>,
}

/// One more word behind `check`; nothing where it can't stand.
fn one_more<'a>(so_far: SoFar<'a>, word: &'a Name) -> Option<SoFar<'a>>
    ensures { MatchOption result ((words : _) → check_from so_far.entry (word.now ∷ words) ≡ None)
        (λ more. (words : _) → check_from so_far.entry (word.now ∷ words) ≡ check_from more words) }
{
    if !so_far.ended && is_word(word, "--") {
        return Some(SoFar {
            ended: true,
            ..so_far
        });
    }
    if !so_far.ended && is_word(word, "--table") {
        if so_far.table {
            return None;
        }
        return Some(SoFar {
            table: true,
            ..so_far
        });
    }
    if (!so_far.ended && is_flag(word)) || so_far.module.is_some() {
        return None;
    }
    Some(SoFar {
        module: Some(word),
        ..so_far
    })
}

/// The check that these words behind `check` give.
fn check_words(words: &[Name]) -> Option<Check<'_>>
    ensures { MatchOption result (check_words false false None words.now ≡ None)
        (λ check. check_words false false None words.now
        ≡ Some (record { «module» = check.«module».now; table = check.table })) }
{
    let mut so_far = SoFar {
        ended: false,
        table: false,
        module: None,
    };
    for word in words {
        let more = one_more(so_far, word)?;
        so_far = more;
    }
    let module = so_far.module?;
    Some(Check {
        module,
        table: so_far.table,
    })
}

/// The check that words give, where they give one: the word `check`, and behind it the module's
/// name and perhaps the flag `--table` before or after it. `--` ends the flags.
pub fn check_command(words: &Words) -> Option<Check<'_>>
    ensures { MatchOption result (check_of words.now ≡ None) (λ check. check_of words.now
        ≡ Some (record { «module» = check.«module».now; table = check.table })) }
{
    match words.as_slice() {
        [word, others @ ..] if is_word(word, "check") => check_words(others),
        _ => None,
    }
}
