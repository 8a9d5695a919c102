//! Values that all of the octets spell.

ghost use Rattle.std.specs.Prelude.{◌≡◌, ◌<◌, ◌^◌, length, Ok};
ghost use Rattle.fixed_tables.specs.Whole.{GivesWhole, of_whole, whole_at};
ghost use Rattle.fixed_tables.specs.Faults.{fault_in};

use asn1_types::{TypeId, TypeTable, Val};
use ber_reading::{ReadFault, ber_read_within};
use osi_base::{FaultAt, Kind, NoMemory};
use std::alloc::Global;
use std::error::Error;
use std::fmt;

/// Why octets aren't one whole protocol data unit.
#[derive(Clone, Copy, Debug, PartialEq, Eq)]
pub enum PduFault {
    /// The first field from the left that breaks the grammar stands at this place, counted from 0.
    At { place: usize, kind: Kind },
    /// Memory was refused.
    NoMemory,
}

impl fmt::Display for PduFault {
    ghost use Rattle.std.specs.Prelude.{Some};
    ghost use Rattle.fixed_tables.specs.Printed.{pdu_fault_text};

    ghost output = { λ fault. Some (pdu_fault_text fault) };

    fn fmt<W: fmt::Write>(&self, f: &mut fmt::Formatter<W>) -> fmt::Result {
        match self {
            PduFault::At { place, kind } => fmt::Display::fmt(&FaultAt::field(*kind, *place), f),
            PduFault::NoMemory => fmt::Display::fmt(&NoMemory, f),
        }
    }
}

impl Error for PduFault {}

impl From<NoMemory> for PduFault {
    ghost use Rattle.fixed_tables.specs.declared.pdu.PduFault.TheVariants.{NoMemory as no_room};

    ghost from_gives = { λ _ e. e ≡ no_room };

    fn from(_error: NoMemory) -> PduFault {
        PduFault::NoMemory
    }
}

/// The value of this row that all of these octets, at most `most`, spell in BER (X.690 8). Octets
/// that end too early lack something at their end; what is nested too deep has a wrong tag, and
/// what goes past `most` octets a wrong length.
pub fn whole(
    alloc: Global,
    table: &TypeTable,
    of: TypeId,
    bytes: &[u8],
    most: u32,
) -> Result<Val, PduFault>
    requires { of.0 < length table.now }
    ensures { GivesWhole result (whole_at table.now of.0 most bytes.now) }
{
    match ber_read_within(alloc, table, of, bytes, most) {
        Ok(read) => all_of(bytes.len(), read.value, read.used),
        Err(fault) => Err(fault_of(bytes.len(), fault)),
    }
}

/// The value that was read from the first `used` of `end` octets, where it has them all; else they
/// are `Extra` from its end on.
pub fn all_of(end: usize, value: Val, used: usize) -> Result<Val, PduFault>
    ensures { result ≡ of_whole end (Ok (value, used)) }
{
    if used == end {
        return Ok(value);
    }
    Err(PduFault::At {
        place: used,
        kind: Kind::Extra,
    })
}

/// The fault of reading, in octets that end here.
pub fn fault_of(end: usize, fault: ReadFault) -> PduFault
    ensures { result ≡ fault_in end fault }
{
    match fault {
        ReadFault::NotSpelled { place, kind } => PduFault::At { place, kind },
        ReadFault::Short => PduFault::At {
            place: end,
            kind: Kind::Missing,
        },
        ReadFault::TooDeep { place } => PduFault::At {
            place,
            kind: Kind::Tag,
        },
        ReadFault::TooLong { place } => PduFault::At {
            place,
            kind: Kind::Length,
        },
        ReadFault::NoMemory => PduFault::NoMemory,
    }
}
