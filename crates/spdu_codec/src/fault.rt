//! Why the octets of a TSDU are no session units.

ghost use Rattle.std.specs.Prelude.{◌≡◌};
ghost use Rattle.spdu_codec.specs.declared.fault.SFault.TheVariants.{NoMemory as Memory};

use osi_base::{FaultAt, Kind, NoMemory};
use std::error::Error;
use std::fmt;

/// Why session units were not read.
#[derive(Clone, Copy, Debug, PartialEq, Eq)]
pub enum SFault {
    /// The field at this place in the TSDU is the first that breaks the grammar.
    At { place: usize, kind: Kind },
    /// Memory ran out.
    NoMemory,
}

impl fmt::Display for SFault {
    ghost use Rattle.std.specs.Prelude.{Some};
    ghost use Rattle.spdu_codec.specs.Printed.{s_fault_text};

    ghost output = { λ fault. Some (s_fault_text fault) };

    fn fmt<W: fmt::Write>(&self, f: &mut fmt::Formatter<W>) -> fmt::Result {
        match self {
            SFault::At { place, kind } => fmt::Display::fmt(&FaultAt::field(*kind, *place), f),
            SFault::NoMemory => fmt::Display::fmt(&NoMemory, f),
        }
    }
}

impl Error for SFault {}

impl From<NoMemory> for SFault {
    ghost from_gives = { λ _ e. e ≡ Memory };

    fn from(_error: NoMemory) -> SFault {
        SFault::NoMemory
    }
}

/// The field at this place breaks the grammar.
pub(crate) fn fault<T>(place: usize, kind: Kind) -> Result<T, SFault>
    ensures { result ≡ Err (SFault.At place kind) }
{
    Err(SFault::At { place, kind })
}
