//! Why a text was refused.

ghost use Rattle.std.specs.Prelude.{◌≡◌};
ghost use Rattle.notation_tokens.specs.declared.faults.NotationFault.TheVariants as faults;

use osi_base::NoMemory;
use std::error::Error;
use std::fmt;

/// What is wrong at a place of a text.
#[derive(Clone, Copy, Debug, PartialEq, Eq)]
pub enum NotationKind {
    /// An octet outside comments that begins no token and is no white space.
    BadCharacter,
    /// A token that can't stand where it stands, or the end of the text before the module's.
    UnexpectedToken,
    /// More than 1,048,576 octets.
    TextTooLong,
    /// More than 65,536 tokens.
    TooManyTokens,
    /// A part of the notation that isn't supported.
    Unsupported,
}

impl NotationKind {
    ghost use Rattle.std.specs.Prelude.{◌≡◌};
    ghost use Rattle.notation_tokens.specs.Printed.{notation_kind_word};

    /// The name of the kind.
    pub fn word(self) -> &'static str
        ensures { result.now ≡ notation_kind_word self }
    {
        match self {
            NotationKind::BadCharacter => "BadCharacter",
            NotationKind::UnexpectedToken => "UnexpectedToken",
            NotationKind::TextTooLong => "TextTooLong",
            NotationKind::TooManyTokens => "TooManyTokens",
            NotationKind::Unsupported => "Unsupported",
        }
    }
}

impl fmt::Display for NotationKind {
    ghost use Rattle.std.specs.Prelude.{Some};
    ghost use Rattle.notation_tokens.specs.Printed.{notation_kind_word};

    ghost output = { λ kind. Some (notation_kind_word kind) };

    fn fmt<W: fmt::Write>(&self, f: &mut fmt::Formatter<W>) -> fmt::Result {
        f.write_str(self.word())
    }
}

/// Why a text was refused.
#[derive(Clone, Copy, Debug, PartialEq, Eq)]
pub enum NotationFault {
    /// What stands at this line and column, both counted from 1, columns in octets.
    At {
        /// The line, counted from 1.
        line: u32,
        /// The column in octets, counted from 1.
        column: u32,
        /// What is wrong there.
        kind: NotationKind,
    },
    /// An allocation was refused.
    NoMemory,
}

/// A place of a text and what is wrong there; prints as `module refused 3 23 DoubleCode`.
#[derive(Clone, Copy, Debug, PartialEq, Eq)]
pub struct RefusedAt {
    /// The line, counted from 1; 0 in a table file.
    pub line: u32,
    /// The column in octets, counted from 1; in a table file the place, counted from 0.
    pub column: u64,
    /// The name of what is wrong there.
    pub word: &'static str,
}

impl fmt::Display for RefusedAt {
    ghost use Rattle.std.specs.Prelude.{Some};
    ghost use Rattle.notation_tokens.specs.Printed.{refused_text};

    ghost output = { λ at. Some (refused_text at.line at.column at.word.now) };

    fn fmt<W: fmt::Write>(&self, f: &mut fmt::Formatter<W>) -> fmt::Result {
        write!(
            f,
            "module refused {} {} {}",
            self.line, self.column, self.word
        )
    }
}

impl fmt::Display for NotationFault {
    ghost use Rattle.std.specs.Prelude.{Some};
    ghost use Rattle.notation_tokens.specs.Printed.{notation_fault_text};

    ghost output = { λ fault. Some (notation_fault_text fault) };

    fn fmt<W: fmt::Write>(&self, f: &mut fmt::Formatter<W>) -> fmt::Result {
        match self {
            NotationFault::At { line, column, kind } => {
                let (line, column, word) = (*line, *column as u64, kind.word());
                fmt::Display::fmt(&RefusedAt { line, column, word }, f)
            }
            NotationFault::NoMemory => fmt::Display::fmt(&NoMemory, f),
        }
    }
}

impl Error for NotationFault {}

impl From<NoMemory> for NotationFault {
    ghost from_gives = { λ _ e. e ≡ faults.NoMemory };

    fn from(_error: NoMemory) -> NotationFault {
        NotationFault::NoMemory
    }
}
