//! Why octets aren't a table file.

ghost use Rattle.std.specs.Prelude.{◌≡◌};
ghost use Rattle.table_file.specs.declared.fault.LoadFault.TheVariants as faults;
ghost use Rattle.table_file.specs.declared.fault.Stop.TheVariants as stops;

use osi_base::{FaultAt, Kind, NoMemory};
use std::alloc::{AllocError, AllocFailed};
use std::error::Error;
use std::fmt;

/// Why octets aren't a table file.
#[derive(Clone, Copy, Debug, PartialEq, Eq)]
pub enum LoadFault {
    /// What stands at this place, counted in octets from 0: `Content` where a field or a row breaks
    /// its rule, `Missing` where the octets end too early, `Extra` where they go on after the value
    /// or past the limit.
    At {
        /// The place in octets, counted from 0.
        place: usize,
        /// What is wrong there.
        kind: Kind,
    },
    /// An allocation was refused.
    NoMemory,
}

impl fmt::Display for LoadFault {
    ghost use Rattle.std.specs.Prelude.{Some};
    ghost use Rattle.table_file.specs.Printed.{load_fault_text};

    ghost output = { λ fault. Some (load_fault_text fault) };

    fn fmt<W: fmt::Write>(&self, f: &mut fmt::Formatter<W>) -> fmt::Result {
        match self {
            LoadFault::At { place, kind } => fmt::Display::fmt(&FaultAt::field(*kind, *place), f),
            LoadFault::NoMemory => fmt::Display::fmt(&NoMemory, f),
        }
    }
}

impl Error for LoadFault {}

/// Why reading stops.
#[derive(Clone, Copy, Debug, PartialEq, Eq)]
pub(crate) enum Stop {
    /// The octets end before the value does.
    Cut,
    /// The field or the row at this place breaks its rule.
    Bad(usize),
    /// An allocation was refused.
    NoMemory,
}

impl From<NoMemory> for LoadFault {
    ghost from_gives = { λ _ e. e ≡ faults.NoMemory };

    fn from(_error: NoMemory) -> LoadFault {
        LoadFault::NoMemory
    }
}

impl From<NoMemory> for Stop {
    ghost from_gives = { λ _ e. e ≡ stops.NoMemory };

    fn from(_error: NoMemory) -> Stop {
        Stop::NoMemory
    }
}

impl From<AllocError> for Stop {
    ghost from_gives = { λ _ e. e ≡ stops.NoMemory };

    fn from(_error: AllocError) -> Stop {
        Stop::NoMemory
    }
}

impl<T: Drop> From<AllocFailed<T>> for Stop {
    ghost from_gives = { λ _ e. e ≡ stops.NoMemory };

    fn from(_error: AllocFailed<T>) -> Stop {
        Stop::NoMemory
    }
}
