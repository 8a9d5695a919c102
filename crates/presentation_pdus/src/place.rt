//! Where units of the presentation protocol are carried, and what is wrong with octets that are
//! none.

ghost use Rattle.std.specs.Prelude.{◌≡◌};

use osi_base::{FaultAt, Kind, NoMemory};
use std::error::Error;
use std::fmt;

/// The kind of session unit (X.225 8.3) that carries a unit of the presentation protocol.
#[derive(Clone, Copy, Debug, PartialEq, Eq)]
pub enum PpduPlace {
    /// CONNECT: CP.
    Cn,
    /// ACCEPT: CPA.
    Ac,
    /// REFUSE: CPR.
    Rf,
    /// FINISH: user data.
    Fn,
    /// DISCONNECT: user data.
    Dn,
    /// ABORT: ARU or ARP.
    Ab,
    /// PLEASE TOKENS: user data.
    Pt,
    /// TYPED DATA: AC or ACA.
    Td,
    /// DATA TRANSFER: user data.
    Dt,
    /// RESYNCHRONIZE: RS.
    Rs,
    /// RESYNCHRONIZE ACK: RSA.
    Ra,
}

/// Why octets aren't one unit of the presentation protocol.
#[derive(Clone, Copy, Debug, PartialEq, Eq)]
pub enum PpduFault {
    /// The first field from the left that breaks the grammar stands at this place, counted from 0;
    /// with the provider's reason for an abort (X.226 8.2): 1, a unit that isn't known there, or 6,
    /// another fault in it.
    At {
        /// The field's first octet, counted from 0.
        place: usize,
        /// How the field breaks the grammar.
        kind: Kind,
        /// The provider's reason, 1 or 6.
        reason: u8,
    },
    /// Memory was refused.
    NoMemory,
}

impl fmt::Display for PpduFault {
    ghost use Rattle.std.specs.Prelude.{Some};
    ghost use Rattle.presentation_pdus.specs.Printed.{ppdu_fault_text};

    ghost output = { λ fault. Some (ppdu_fault_text fault) };

    fn fmt<W: fmt::Write>(&self, f: &mut fmt::Formatter<W>) -> fmt::Result {
        match self {
            PpduFault::At { place, kind, .. } => fmt::Display::fmt(
                &FaultAt::field(*kind, *place),
                f,
            ),
            PpduFault::NoMemory => fmt::Display::fmt(&NoMemory, f),
        }
    }
}

impl Error for PpduFault {}

impl From<NoMemory> for PpduFault {
    ghost use Rattle.presentation_pdus.specs.declared.place.PpduFault.TheVariants.{NoMemory as no_room};

    ghost from_gives = { λ _ e. e ≡ no_room };

    fn from(_error: NoMemory) -> PpduFault {
        PpduFault::NoMemory
    }
}
