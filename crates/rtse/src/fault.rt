//! Why a transfer can't go on.

ghost use Rattle.std.specs.Prelude.{◌≡◌};
ghost use Rattle.rtse.specs.Faults.{no_memory};

use osi_base::NoMemory;
use std::alloc::{AllocError, AllocFailed};
use std::error::Error;
use std::fmt;

/// Why a word of a transfer isn't taken.
#[derive(Clone, Copy, Debug, PartialEq, Eq)]
pub enum RtseFault {
    /// The word carries another number than the one that is due.
    WrongNumber {
        /// The number that was reached: of an activity, or of a mark of it; 0 where there is none.
        had: u32,
        /// The number that the word carries.
        came: u32,
    },
    /// The transfer would pass 262,400 octets.
    TooLong,
    /// An allocation was refused.
    NoMemory,
}

impl fmt::Display for RtseFault {
    ghost use Rattle.std.specs.Prelude.{Some};
    ghost use Rattle.rtse.specs.Printed.{rtse_fault_text};

    ghost output = { λ fault. Some (rtse_fault_text fault) };

    fn fmt<W: fmt::Write>(&self, f: &mut fmt::Formatter<W>) -> fmt::Result {
        match self {
            RtseFault::WrongNumber { had, came } => write!(f, "number {came} after {had}"),
            RtseFault::TooLong => f.write_str("more than 262,400 octets"),
            RtseFault::NoMemory => f.write_str("out of memory"),
        }
    }
}

impl Error for RtseFault {}

impl From<NoMemory> for RtseFault {
    ghost from_gives = { λ _ e. e ≡ no_memory };

    fn from(_error: NoMemory) -> RtseFault {
        RtseFault::NoMemory
    }
}

impl From<AllocError> for RtseFault {
    ghost from_gives = { λ _ e. e ≡ no_memory };

    fn from(_error: AllocError) -> RtseFault {
        RtseFault::NoMemory
    }
}

impl<T: Drop> From<AllocFailed<T>> for RtseFault {
    ghost from_gives = { λ _ e. e ≡ no_memory };

    fn from(_error: AllocFailed<T>) -> RtseFault {
        RtseFault::NoMemory
    }
}
