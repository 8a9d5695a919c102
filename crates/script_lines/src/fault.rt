//! Why a text isn't read.

ghost use Rattle.std.specs.Prelude.{◌≡◌};
ghost use Rattle.script_lines.specs.declared.fault.ScriptFault.TheVariants.{NoMemory as no_room};

use osi_base::NoMemory;
use std::alloc::{AllocError, AllocFailed};
use std::error::Error;
use std::fmt;

/// How a line breaks the grammar of its text.
#[derive(Clone, Copy, Debug, PartialEq, Eq)]
pub enum ScriptKind {
    /// The word isn't one that may stand at this place of a line's beginning.
    UnknownWord,
    /// A number isn't decimal digits that fit their field.
    BadNumber,
    /// A value doesn't fit its type, stands where none may, or lacks.
    BadValue,
    /// An operation, an error or a syntax that isn't known.
    BadName,
    /// Any other field that lacks, is too many or is misplaced, or that isn't UTF-8.
    BadField,
    /// More events, or more octets, than a text may have.
    TooMany,
    /// A line of the setup after an event.
    OutOfOrder,
    /// A line of the setup that isn't allowed: by those before it, by its mode, or by what an end
    /// refuses of its configuration.
    BadSetup,
}

impl ScriptKind {
    ghost use Rattle.std.specs.Prelude.{◌≡◌};
    ghost use Rattle.script_lines.specs.Printed.{script_kind_word};

    /// The name of the kind.
    pub fn word(self) -> &'static str
        ensures { result.now ≡ script_kind_word self }
    {
        match self {
            ScriptKind::UnknownWord => "UnknownWord",
            ScriptKind::BadNumber => "BadNumber",
            ScriptKind::BadValue => "BadValue",
            ScriptKind::BadName => "BadName",
            ScriptKind::BadField => "BadField",
            ScriptKind::TooMany => "TooMany",
            ScriptKind::OutOfOrder => "OutOfOrder",
            ScriptKind::BadSetup => "BadSetup",
        }
    }
}

impl fmt::Display for ScriptKind {
    ghost use Rattle.std.specs.Prelude.{Some};
    ghost use Rattle.script_lines.specs.Printed.{script_kind_word};

    ghost output = { λ kind. Some (script_kind_word kind) };

    fn fmt<W: fmt::Write>(&self, f: &mut fmt::Formatter<W>) -> fmt::Result {
        f.write_str(self.word())
    }
}

/// Why a text isn't read.
#[derive(Clone, Copy, Debug, PartialEq, Eq)]
pub enum ScriptFault {
    /// A line breaks the grammar.
    At {
        /// The first faulty line, counted from 1.
        line: u32,
        /// How that line breaks the grammar.
        kind: ScriptKind,
    },
    /// An allocation was refused.
    NoMemory,
}

impl fmt::Display for ScriptFault {
    ghost use Rattle.std.specs.Prelude.{Some};
    ghost use Rattle.script_lines.specs.Printed.{script_fault_text};

    ghost output = { λ fault. Some (script_fault_text fault) };

    fn fmt<W: fmt::Write>(&self, f: &mut fmt::Formatter<W>) -> fmt::Result {
        match self {
            ScriptFault::At { line, kind } => write!(f, "script refused {line} {kind}"),
            ScriptFault::NoMemory => f.write_str("out of memory"),
        }
    }
}

impl Error for ScriptFault {}

impl From<NoMemory> for ScriptFault {
    ghost from_gives = { λ _ fault. fault ≡ no_room };

    fn from(_error: NoMemory) -> ScriptFault {
        ScriptFault::NoMemory
    }
}

impl From<AllocError> for ScriptFault {
    ghost from_gives = { λ _ fault. fault ≡ no_room };

    fn from(_error: AllocError) -> ScriptFault {
        ScriptFault::NoMemory
    }
}

impl<T: Drop> From<AllocFailed<T>> for ScriptFault {
    ghost from_gives = { λ _ fault. fault ≡ no_room };

    fn from(_error: AllocFailed<T>) -> ScriptFault {
        ScriptFault::NoMemory
    }
}
