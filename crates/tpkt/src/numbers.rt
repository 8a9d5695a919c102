//! Numbers of two octets, the higher first.

ghost use Rattle.std.specs.Prelude.{◌≡◌, ◌+◌, ◌*◌, ◌≤◌, ◌++◌, length, slice_index, OnOk};
ghost use Rattle.tpkt.specs.Wire.{two};

use byteorder::{BigEndian, ByteOrder};
use osi_base::{NoMemory, Octets};

/// The number in two octets.
pub(crate) fn number_of(high: u8, low: u8) -> u16
    ensures { result ≡ 256 * high + low }
{
    BigEndian::read_u16(&[high, low])
}

/// Puts the two octets of a number at the end.
pub(crate) fn push_number(out: &mut Octets, number: u16) -> Result<(), NoMemory>
    ensures { OnOk result (out.new ≡ out.old ++ two number) }
{
    let mut octets = [0, 0];
    BigEndian::write_u16(&mut octets, number);
    out.extend(&octets)
}
