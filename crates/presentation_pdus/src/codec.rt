//! Units of the presentation protocol read and written.

ghost use Rattle.std.specs.Prelude.{◌≡◌, IfOk};
ghost use Rattle.osi_base.specs.Limits.{most_spelled};
ghost use Rattle.fixed_tables.specs.Whole.{GivesWhole, of_whole};
ghost use Rattle.passed_fields.specs.AllOctets.{all_at};
ghost use Rattle.presentation_pdus.specs.Rows.{ppdu_rows};
ghost use Rattle.presentation_pdus.specs.Units.{ppdu_run, reason_of, of_fault, ppdu_at, GivesPpdu};
ghost use Rattle.presentation_pdus.specs.Words.{written_ppdu};

use crate::place::{PpduFault, PpduPlace};
use crate::reading::front;
use crate::table::PpduTable;
use crate::words::{row_of, unit_in, value_of};
use asn1_types::{TypeTable, Val};
use ber_writing::ber_octets;
use fixed_tables::{PduFault, all_of, fault_of};
use osi_base::{Kind, NoMemory, Octets, Ppdu};
use std::alloc::Global;

/// The value that all of the octets are.
fn whole(alloc: Global, table: &TypeTable, place: PpduPlace, bytes: &[u8]) -> Result<Val, PduFault>
    requires { table.now ≡ ppdu_rows }
    ensures { GivesWhole result (all_at (ppdu_run ppdu_rows place) most_spelled bytes.now) }
{
    match front(alloc, table, place, bytes) {
        Ok((value, used)) => all_of(bytes.len(), value, used),
        Err(fault) => Err(fault_of(bytes.len(), fault)),
    }
}

/// The provider's reason for a fault (X.226 8.2): 1 where the unit isn't one of those carried, else
/// 6.
fn reason_of(place: usize, kind: Kind) -> u8
    ensures { result ≡ reason_of place kind }
{
    match kind {
        Kind::Tag if place == 0 => 1,
        _ => 6,
    }
}

fn of_fault(fault: PduFault) -> PpduFault
    ensures { result ≡ of_fault fault }
{
    match fault {
        PduFault::At { place, kind } => PpduFault::At {
            place,
            kind,
            reason: reason_of(place, kind),
        },
        PduFault::NoMemory => PpduFault::NoMemory,
    }
}

impl PpduTable {
    /// The unit that all of these octets are in BER (X.226 8), carried by a session unit of this
    /// kind; or the first field that breaks the grammar. User data of AC, ACA, RS and RSA and
    /// fields `[11]` to `[14]` of CP and CPA are checked where they stand, and left out.
    pub fn read(&self, alloc: Global, place: PpduPlace, bytes: &[u8]) -> Result<Ppdu, PpduFault>
        ensures { GivesPpdu result (ppdu_at place bytes.now) }
    {
        match whole(alloc, &self.types, place, bytes) {
            Ok(value) => Ok(unit_in(alloc, &value)?),
            Err(fault) => Err(of_fault(fault)),
        }
    }

    /// The octets of a unit (X.226 8), in its one spelling: each field that is there, and of lists
    /// those that have items. A default context isn't written.
    pub fn write(&self, alloc: Global, ppdu: &Ppdu) -> Result<Octets, NoMemory>
        ensures { IfOk result (λ octets. octets ≡ written_ppdu ppdu.now) }
    {
        let value = value_of(alloc, ppdu)?;
        ber_octets(alloc, &self.types, row_of(ppdu), &value)
    }
}

/// As `PpduTable::read`, with a table of its own.
pub fn read_ppdu(alloc: Global, place: PpduPlace, bytes: &[u8]) -> Result<Ppdu, PpduFault>
    ensures { GivesPpdu result (ppdu_at place bytes.now) }
{
    PpduTable::new(alloc)?.read(alloc, place, bytes)
}

/// As `PpduTable::write`, with a table of its own.
pub fn write_ppdu(alloc: Global, ppdu: &Ppdu) -> Result<Octets, NoMemory>
    ensures { IfOk result (λ octets. octets ≡ written_ppdu ppdu.now) }
{
    PpduTable::new(alloc)?.write(alloc, ppdu)
}
