//! What reading stands on, and why it stops.

ghost use Rattle.std.specs.Prelude.{◌≡◌, ℕ, []};
ghost use Rattle.association_meaning.specs.declared.basis.Halt.TheVariants as halts;

use association_codecs::Codecs;
use association_words::Fault;
use dialogue::Config;
use osi_base::{Layer, ListOf, NoMemory, PresentationWord};
use std::alloc::Global;
use std::error::Error;
use std::fmt;
use stub_tables::Tables;

/// What reading stands on: the fixed tables, the module's tables and the configuration of an end.
#[derive(Clone, Copy)]
pub struct ReadingBasis<'a> {
    /// The allocator for all that reading makes.
    pub alloc: Global,
    /// The fixed tables by which octets are read.
    pub codecs: &'a Codecs,
    /// The tables of the module.
    pub tables: &'a Tables,
    /// The configuration of the end.
    pub config: &'a Config,
}

/// Why a unit has no meaning.
#[derive(Debug, Drop)]
pub enum Halt {
    /// It ends the association.
    Faulty(Fault),
    /// Memory was refused.
    NoMemory,
}

impl fmt::Display for Halt {
    ghost use Rattle.std.specs.Prelude.{Some};
    ghost use Rattle.association_meaning.specs.Printed.{halt_text};

    ghost output = { λ halt. Some (halt_text halt) };

    fn fmt<W: fmt::Write>(&self, f: &mut fmt::Formatter<W>) -> fmt::Result {
        match self {
            Halt::Faulty(fault) => fmt::Display::fmt(fault, f),
            Halt::NoMemory => f.write_str("out of memory"),
        }
    }
}

impl Error for Halt {}

impl From<NoMemory> for Halt {
    ghost use Rattle.std.specs.Prelude.{◌≡◌};
    ghost use Rattle.association_meaning.specs.declared.basis.Halt.TheVariants.{NoMemory as no_room};

    ghost from_gives = { λ _ e. e ≡ no_room };

    fn from(_error: NoMemory) -> Halt {
        Halt::NoMemory
    }
}

/// A fault at this place of a layer, with this reason.
pub(crate) fn fault_at<T>(alloc: Global, layer: Layer, place: usize, reason: u8) -> Result<T, Halt>
    ensures { result ≡ Err (halts.Faulty (record {
      layer = layer;
      place = place;
      reason = reason;
      shown_before = [];
    })) }
{
    Err(Halt::Faulty(Fault {
        layer,
        place: place as u64,
        reason,
        shown_before: ListOf::new(alloc),
    }))
}

/// A unit that may not stand here, which is let go: an invalid unit of the presentation (6), with
/// no single field at fault.
pub(crate) fn misplaced<T>(alloc: Global, unit: PresentationWord) -> Result<T, Halt>
    ensures { result ≡ Err (halts.Faulty (record {
      layer = Layer.Presentation;
      place = 0;
      reason = 6;
      shown_before = [];
    })) }
{
    drop(unit);
    fault_at(alloc, Layer::Presentation, 0, 6)
}
