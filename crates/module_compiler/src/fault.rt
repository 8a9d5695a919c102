//! Why a module has no tables.

ghost use Rattle.std.specs.Prelude.{◌≡◌};
ghost use Rattle.module_compiler.specs.declared.fault.TableFault.TheVariants as faults;

use module_faults::TableKind;
use notation_tokens::RefusedAt;
use osi_base::NoMemory;
use std::error::Error;
use std::fmt;

/// Why a module has no tables.
#[derive(Clone, Copy, Debug, PartialEq, Eq)]
pub enum TableFault {
    /// What stands at this line and column, both counted from 1, columns in octets.
    At {
        /// The line, counted from 1.
        line: u32,
        /// The column in octets, counted from 1.
        column: u32,
        /// What is wrong there.
        kind: TableKind,
    },
    /// An allocation was refused.
    NoMemory,
}

impl fmt::Display for TableFault {
    ghost use Rattle.std.specs.Prelude.{Some};
    ghost use Rattle.module_compiler.specs.Printed.{table_fault_text};

    ghost output = { λ fault. Some (table_fault_text fault) };

    fn fmt<W: fmt::Write>(&self, f: &mut fmt::Formatter<W>) -> fmt::Result {
        match self {
            TableFault::At { line, column, kind } => {
                let (line, column, word) = (*line, *column as u64, kind.word());
                fmt::Display::fmt(&RefusedAt { line, column, word }, f)
            }
            TableFault::NoMemory => fmt::Display::fmt(&NoMemory, f),
        }
    }
}

impl Error for TableFault {}

impl From<NoMemory> for TableFault {
    ghost from_gives = { λ _ e. e ≡ faults.NoMemory };

    fn from(_error: NoMemory) -> TableFault {
        TableFault::NoMemory
    }
}

/// Why walking a module stops.
#[derive(Clone, Copy, Debug, PartialEq, Eq)]
pub(crate) enum Halt {
    /// Memory was refused.
    NoMemory,
    /// A type has no row, or an operation or error none.
    NoTables,
}

impl From<NoMemory> for Halt {
    fn from(_error: NoMemory) -> Halt {
        Halt::NoMemory
    }
}

impl<T: Drop> From<std::alloc::AllocFailed<T>> for Halt {
    fn from(_error: std::alloc::AllocFailed<T>) -> Halt {
        Halt::NoMemory
    }
}

impl From<std::alloc::AllocError> for Halt {
    fn from(_error: std::alloc::AllocError) -> Halt {
        Halt::NoMemory
    }
}
