//! Why octets are no module, or a module has no tables.

use module_compiler::TableKind;
use notation_tokens::{NotationKind, RefusedAt};
use osi_base::{Kind, NoMemory};
use std::error::Error;
use std::fmt;

/// How a text breaks the notation, what is wrong with a module that reads, or how a table file is
/// at fault.
#[derive(Clone, Copy, Debug, PartialEq, Eq)]
pub enum ModuleKind {
    /// A text breaks the notation.
    Notation(NotationKind),
    /// A module that reads has a fault.
    Table(TableKind),
    /// A table file is at fault.
    File(Kind),
}

impl ModuleKind {
    ghost use Rattle.std.specs.Prelude.{◌≡◌};
    ghost use Rattle.module_reading.specs.Words.{module_kind_word};

    /// The name of the kind, as the program tells it.
    pub fn word(self) -> &'static str
        ensures { result.now ≡ module_kind_word self }
    {
        match self {
            ModuleKind::Notation(kind) => kind.word(),
            ModuleKind::Table(kind) => kind.word(),
            ModuleKind::File(kind) => kind.word(),
        }
    }
}

impl fmt::Display for ModuleKind {
    ghost use Rattle.std.specs.Prelude.{Some};
    ghost use Rattle.module_reading.specs.Words.{module_kind_word};

    ghost output = { λ kind. Some (module_kind_word kind) };

    fn fmt<W: fmt::Write>(&self, f: &mut fmt::Formatter<W>) -> fmt::Result {
        f.write_str(self.word())
    }
}

/// Why a module has no tables.
#[derive(Clone, Copy, Debug, PartialEq, Eq)]
pub enum ModuleFault {
    /// What stands at this line and column: in a text both are counted from 1, columns in octets;
    /// in a table file the line is 0, and the column is the place, counted in octets from 0.
    At {
        /// The line, counted from 1; 0 in a table file.
        line: u32,
        /// The column in octets, counted from 1; in a table file the place, counted from 0.
        column: u64,
        /// What is wrong there.
        kind: ModuleKind,
    },
    /// An allocation was refused.
    NoMemory,
}

impl fmt::Display for ModuleFault {
    ghost use Rattle.std.specs.Prelude.{Some};
    ghost use Rattle.module_reading.specs.Printed.{module_fault_text};

    ghost output = { λ fault. Some (module_fault_text fault) };

    fn fmt<W: fmt::Write>(&self, f: &mut fmt::Formatter<W>) -> fmt::Result {
        match self {
            ModuleFault::At { line, column, kind } => {
                let (line, column, word) = (*line, *column, kind.word());
                fmt::Display::fmt(&RefusedAt { line, column, word }, f)
            }
            ModuleFault::NoMemory => fmt::Display::fmt(&NoMemory, f),
        }
    }
}

impl Error for ModuleFault {}
