//! Why a file isn't a recorded dialogue.

ghost use Rattle.std.specs.Prelude.{◌≡◌};
ghost use Rattle.trace_file.specs.declared.fault.RecordingFault.TheVariants.{NoMemory as no_room};

use osi_base::NoMemory;
use std::error::Error;
use std::fmt;

/// How a line breaks the grammar. It prints by the name of the variant.
#[derive(Clone, Copy, Debug, PartialEq, Eq)]
pub enum RecordingKind {
    /// A field behind a direction isn't an even number of hexadecimal digits.
    BadField,
    /// The file has more octets than a file may have.
    TooMany,
}

impl RecordingKind {
    ghost use Rattle.std.specs.Prelude.{◌≡◌};
    ghost use Rattle.trace_file.specs.Printed.{recording_kind_word};

    /// The name of the kind.
    pub fn word(self) -> &'static str
        ensures { result.now ≡ recording_kind_word self }
    {
        match self {
            RecordingKind::BadField => "BadField",
            RecordingKind::TooMany => "TooMany",
        }
    }
}

impl fmt::Display for RecordingKind {
    ghost use Rattle.std.specs.Prelude.{Some};
    ghost use Rattle.trace_file.specs.Printed.{recording_kind_word};

    ghost output = { λ kind. Some (recording_kind_word kind) };

    fn fmt<W: fmt::Write>(&self, f: &mut fmt::Formatter<W>) -> fmt::Result {
        f.write_str(self.word())
    }
}

/// Why a file isn't read.
#[derive(Clone, Copy, Debug, PartialEq, Eq)]
pub enum RecordingFault {
    /// The first faulty line.
    At {
        /// The line, counted from 1; 1 where the file has too many octets.
        line: u32,
        /// What is wrong with it.
        kind: RecordingKind,
    },
    /// An allocation was refused.
    NoMemory,
}

impl fmt::Display for RecordingFault {
    ghost use Rattle.std.specs.Prelude.{Some};
    ghost use Rattle.trace_file.specs.Printed.{recording_fault_text};

    ghost output = { λ fault. Some (recording_fault_text fault) };

    fn fmt<W: fmt::Write>(&self, f: &mut fmt::Formatter<W>) -> fmt::Result {
        match self {
            RecordingFault::At { line, kind } => write!(f, "script refused {line} {kind}"),
            RecordingFault::NoMemory => f.write_str("out of memory"),
        }
    }
}

impl Error for RecordingFault {}

impl From<NoMemory> for RecordingFault {
    ghost from_gives = { λ _ fault. fault ≡ no_room };

    fn from(_error: NoMemory) -> RecordingFault {
        RecordingFault::NoMemory
    }
}
