//! Why octets aren't read as a value.

ghost use Rattle.std.specs.Prelude.{◌≡◌};
ghost use Rattle.packed_codec.specs.declared.fault.PackedFault.TheVariants.{NoMemory as no_room};

use osi_base::{FaultAt, Kind, NoMemory};
use std::alloc::{AllocError, AllocFailed};
use std::error::Error;
use std::fmt;

/// Why octets aren't read as a value: the first fault from the left, or that they end too early.
#[derive(Clone, Copy, Debug, PartialEq, Eq)]
pub enum PackedFault {
    /// The field at this place, counted in octets from 0, breaks the rule of its type. Its kind is
    /// `Content`.
    NotSpelled { place: usize, kind: Kind },
    /// The octets end before the value does, without an earlier fault.
    Short,
    /// The field at this place, or what it announces, passes the limit.
    TooLong { place: usize },
    /// Memory was refused.
    NoMemory,
}

impl fmt::Display for PackedFault {
    ghost use Rattle.std.specs.Prelude.{Some};
    ghost use Rattle.packed_codec.specs.Printed.{packed_fault_text};

    ghost output = { λ fault. Some (packed_fault_text fault) };

    fn fmt<W: fmt::Write>(&self, f: &mut fmt::Formatter<W>) -> fmt::Result {
        match self {
            PackedFault::NotSpelled { place, kind } => fmt::Display::fmt(
                &FaultAt {
                    cause: kind.word(),
                    place: *place as u64,
                },
                f,
            ),
            PackedFault::Short => f.write_str("the octets end too early"),
            PackedFault::TooLong { place } => fmt::Display::fmt(
                &FaultAt {
                    cause: "too long",
                    place: *place as u64,
                },
                f,
            ),
            PackedFault::NoMemory => f.write_str("out of memory"),
        }
    }
}

impl Error for PackedFault {}

impl From<AllocError> for PackedFault {
    ghost from_gives = { λ _ e. e ≡ no_room };

    fn from(_error: AllocError) -> PackedFault {
        PackedFault::NoMemory
    }
}

impl<T: Drop> From<AllocFailed<T>> for PackedFault {
    ghost from_gives = { λ _ e. e ≡ no_room };

    fn from(_error: AllocFailed<T>) -> PackedFault {
        PackedFault::NoMemory
    }
}

impl From<NoMemory> for PackedFault {
    ghost from_gives = { λ _ e. e ≡ no_room };

    fn from(_error: NoMemory) -> PackedFault {
        PackedFault::NoMemory
    }
}
