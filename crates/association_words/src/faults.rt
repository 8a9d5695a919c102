//! Why what came ends the association.

ghost use Rattle.std.specs.Prelude.{◌≡◌};
ghost use Rattle.end_rules.specs.Faults.{fault_at};
ghost use Rattle.association_words.specs.Seen.{seen_fault};

use dialogue::Indications;
use osi_base::{Layer, ListOf};
use std::alloc::Global;
use std::error::Error;
use std::fmt;

/// Why what came ends the association.
#[derive(Debug, Drop)]
pub struct Fault {
    /// The layer that finds it.
    pub layer: Layer,
    /// The place of the faulty field in the octets of a TSDU, of an APDU or of a transfer, or in
    /// the stream of the connection; 0 where no single field is at fault.
    pub place: u64,
    /// The reason that an abort tells: that of the provider of the presentation (X.226 8.2.5), or
    /// that of reliable transfer (X.228 9); else 0.
    pub reason: u8,
    /// What the user is told before all else.
    pub shown_before: Indications,
}

impl fmt::Display for Fault {
    ghost use Rattle.std.specs.Prelude.{Some};
    ghost use Rattle.association_words.specs.Printed.{fault_text};

    ghost output = { λ fault. Some (fault_text fault) };

    fn fmt<W: fmt::Write>(&self, f: &mut fmt::Formatter<W>) -> fmt::Result {
        let layer = self.layer;
        let place = self.place;
        let reason = self.reason;
        write!(f, "{layer} {place} {reason}")
    }
}

impl Error for Fault {}

impl Fault {
    /// A fault before which the user is told nothing.
    pub fn at(alloc: Global, layer: Layer, place: u64, reason: u8) -> Fault
        ensures { seen_fault result ≡ fault_at layer place reason }
    {
        Fault {
            layer,
            place,
            reason,
            shown_before: ListOf::new(alloc),
        }
    }
}
