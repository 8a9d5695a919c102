//! Why octets aren't read as a value.

ghost use Rattle.std.specs.Prelude.{◌≡◌};
ghost use Rattle.ber_spelling.specs.declared.fault.ReadFault.TheVariants.{NoMemory as no_room};

use osi_base::{FaultAt, Kind, NoMemory};
use std::alloc::{AllocError, AllocFailed};
use std::error::Error;
use std::fmt;

/// Why octets aren't read as a value: the first fault from the left, or that they end too early.
#[derive(Clone, Copy, Debug, PartialEq, Eq)]
pub enum ReadFault {
    /// The field at this place, counted in octets from 0, leaves the grammar.
    NotSpelled { place: usize, kind: Kind },
    /// The octets end before the value does, without an earlier fault.
    Short,
    /// The identifier at this place opens level 33.
    TooDeep { place: usize },
    /// The field at this place, or what it announces, passes the limit.
    TooLong { place: usize },
    /// Memory was refused.
    NoMemory,
}

impl fmt::Display for ReadFault {
    ghost use Rattle.std.specs.Prelude.{Some};
    ghost use Rattle.ber_spelling.specs.Printed.{read_fault_text};

    ghost output = { λ fault. Some (read_fault_text fault) };

    fn fmt<W: fmt::Write>(&self, f: &mut fmt::Formatter<W>) -> fmt::Result {
        match self {
            ReadFault::NotSpelled { place, kind } => fmt::Display::fmt(
                &FaultAt {
                    cause: kind.word(),
                    place: *place as u64,
                },
                f,
            ),
            ReadFault::Short => f.write_str("the octets end too early"),
            ReadFault::TooDeep { place } => fmt::Display::fmt(
                &FaultAt {
                    cause: "nested more than 32 deep",
                    place: *place as u64,
                },
                f,
            ),
            ReadFault::TooLong { place } => fmt::Display::fmt(
                &FaultAt {
                    cause: "too long",
                    place: *place as u64,
                },
                f,
            ),
            ReadFault::NoMemory => f.write_str("out of memory"),
        }
    }
}

impl Error for ReadFault {}

impl From<AllocError> for ReadFault {
    ghost from_gives = { λ _ e. e ≡ no_room };

    fn from(_error: AllocError) -> ReadFault {
        ReadFault::NoMemory
    }
}

impl<T: Drop> From<AllocFailed<T>> for ReadFault {
    ghost from_gives = { λ _ e. e ≡ no_room };

    fn from(_error: AllocFailed<T>) -> ReadFault {
        ReadFault::NoMemory
    }
}

impl From<NoMemory> for ReadFault {
    ghost from_gives = { λ _ e. e ≡ no_room };

    fn from(_error: NoMemory) -> ReadFault {
        ReadFault::NoMemory
    }
}
