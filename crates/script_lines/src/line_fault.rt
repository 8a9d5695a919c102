//! Why a line isn't read.

ghost use Rattle.std.specs.Prelude.{◌≡◌};
ghost use Rattle.script_lines.specs.declared.line_fault.ScriptLineFault.TheVariants.{NoMemory as no_room, Kind};

use crate::fault::ScriptKind;
use osi_base::NoMemory;
use std::alloc::{AllocError, AllocFailed};
use std::error::Error;
use std::fmt;

/// Why a line isn't read.
#[derive(Clone, Copy, Debug, PartialEq, Eq)]
pub enum ScriptLineFault {
    /// Its first faulty field breaks the grammar in this way.
    Kind(ScriptKind),
    /// An allocation was refused.
    NoMemory,
}

impl fmt::Display for ScriptLineFault {
    ghost use Rattle.std.specs.Prelude.{Some};
    ghost use Rattle.script_lines.specs.Printed.{line_fault_text};

    ghost output = { λ fault. Some (line_fault_text fault) };

    fn fmt<W: fmt::Write>(&self, f: &mut fmt::Formatter<W>) -> fmt::Result {
        match self {
            ScriptLineFault::Kind(kind) => f.write_str(kind.word()),
            ScriptLineFault::NoMemory => f.write_str("out of memory"),
        }
    }
}

impl Error for ScriptLineFault {}

impl From<ScriptKind> for ScriptLineFault {
    ghost from_gives = { λ kind fault. fault ≡ Kind kind };

    fn from(kind: ScriptKind) -> ScriptLineFault {
        ScriptLineFault::Kind(kind)
    }
}

impl From<NoMemory> for ScriptLineFault {
    ghost from_gives = { λ _ fault. fault ≡ no_room };

    fn from(_error: NoMemory) -> ScriptLineFault {
        ScriptLineFault::NoMemory
    }
}

impl From<AllocError> for ScriptLineFault {
    ghost from_gives = { λ _ fault. fault ≡ no_room };

    fn from(_error: AllocError) -> ScriptLineFault {
        ScriptLineFault::NoMemory
    }
}

impl<T: Drop> From<AllocFailed<T>> for ScriptLineFault {
    ghost from_gives = { λ _ fault. fault ≡ no_room };

    fn from(_error: AllocFailed<T>) -> ScriptLineFault {
        ScriptLineFault::NoMemory
    }
}
