//! APDUs of association control read and written.

ghost use Rattle.std.specs.Prelude.{◌≡◌, IfOk};
ghost use Rattle.osi_base.specs.Limits.{most_octets};
ghost use Rattle.fixed_tables.specs.Whole.{GivesWhole, of_whole};
ghost use Rattle.passed_fields.specs.AllOctets.{all_at};
ghost use Rattle.acse.specs.Rows.{acse_rows};
ghost use Rattle.acse.specs.Fields.{any_apdu_at, acse_at};
ghost use Rattle.acse.specs.Written.{written_acse};

use crate::reading::front;
use crate::table::{APDU, AcseTable};
use crate::words::{apdu_in, value_of};
use asn1_types::{TypeTable, Val};
use ber_writing::ber_octets;
use fixed_tables::{PduFault, all_of, fault_of};
use osi_base::{Acse, NoMemory, Octets};
use std::alloc::Global;

/// The value that all of the octets are.
fn whole(alloc: Global, table: &TypeTable, bytes: &[u8]) -> Result<Val, PduFault>
    requires { table.now ≡ acse_rows }
    ensures { GivesWhole result (all_at (any_apdu_at acse_rows) most_octets bytes.now) }
{
    match front(alloc, table, bytes) {
        Ok((value, used)) => all_of(bytes.len(), value, used),
        Err(fault) => Err(fault_of(bytes.len(), fault)),
    }
}

impl AcseTable {
    /// The APDU that all of these octets, at most 262,144, are in BER (X.227 9), or the first field
    /// that breaks the grammar. Fields with other context tags below 31 than the known ones are
    /// checked where they stand, and left out.
    pub fn read(&self, alloc: Global, bytes: &[u8]) -> Result<Acse, PduFault>
        ensures { GivesWhole result (acse_at bytes.now) }
    {
        let value = whole(alloc, &self.types, bytes)?;
        Ok(apdu_in(alloc, &value)?)
    }

    /// The octets of an APDU, in its one spelling: a reason stands also where it is 0, and user
    /// information that has items.
    pub fn write(&self, alloc: Global, apdu: &Acse) -> Result<Octets, NoMemory>
        ensures { IfOk result (λ octets. octets ≡ written_acse apdu.now) }
    {
        let value = value_of(alloc, apdu)?;
        ber_octets(alloc, &self.types, APDU, &value)
    }
}

/// As `AcseTable::read`, with a table of its own.
pub fn read_acse(alloc: Global, bytes: &[u8]) -> Result<Acse, PduFault>
    ensures { GivesWhole result (acse_at bytes.now) }
{
    AcseTable::new(alloc)?.read(alloc, bytes)
}

/// As `AcseTable::write`, with a table of its own.
pub fn write_acse(alloc: Global, apdu: &Acse) -> Result<Octets, NoMemory>
    ensures { IfOk result (λ octets. octets ≡ written_acse apdu.now) }
{
    AcseTable::new(alloc)?.write(alloc, apdu)
}
