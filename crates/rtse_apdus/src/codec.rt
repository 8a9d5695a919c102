//! APDUs of reliable transfer read and written.

ghost use Rattle.std.specs.Prelude.{◌≡◌, IfOk};
ghost use Rattle.fixed_tables.specs.Whole.{GivesWhole};
ghost use Rattle.rtse_apdus.specs.Reading.{limit_of, rtse_at};
ghost use Rattle.rtse_apdus.specs.Written.{written_rtse};

use crate::table::{APDU, RtseTable};
use crate::words::{apdu_in, value_of};
use ber_writing::ber_octets;
use fixed_tables::{PduFault, whole};
use osi_base::{NoMemory, Octets, Rtse};
use std::alloc::Global;

/// How many octets the APDU that these octets begin may have.
fn limit_of(bytes: &[u8]) -> u32
    ensures { result ≡ limit_of bytes.now }
{
    match bytes {
        [4 | 36, ..] => 1_048_576,
        _ => 262_144,
    }
}

impl RtseTable {
    /// The APDU that all of these octets spell (X.228 9), or the first field that breaks its
    /// grammar. A part of a transfer has at most 1,048,576 octets, other APDUs 262,144.
    pub fn read(&self, alloc: Global, bytes: &[u8]) -> Result<Rtse, PduFault>
        ensures { GivesWhole result (rtse_at bytes.now) }
    {
        let value = whole(alloc, &self.types, APDU, bytes, limit_of(bytes))?;
        Ok(apdu_in(alloc, &value)?)
    }

    /// The octets of an APDU, in its one spelling: all fields stand, those with their defaults too.
    pub fn write(&self, alloc: Global, apdu: &Rtse) -> Result<Octets, NoMemory>
        ensures { IfOk result (λ octets. octets ≡ written_rtse apdu.now) }
    {
        let value = value_of(alloc, apdu)?;
        ber_octets(alloc, &self.types, APDU, &value)
    }
}

/// As `RtseTable::read`, with a table of its own.
pub fn read_rtse(alloc: Global, bytes: &[u8]) -> Result<Rtse, PduFault>
    ensures { GivesWhole result (rtse_at bytes.now) }
{
    RtseTable::new(alloc)?.read(alloc, bytes)
}

/// As `RtseTable::write`, with a table of its own.
pub fn write_rtse(alloc: Global, apdu: &Rtse) -> Result<Octets, NoMemory>
    ensures { IfOk result (λ octets. octets ≡ written_rtse apdu.now) }
{
    RtseTable::new(alloc)?.write(alloc, apdu)
}
