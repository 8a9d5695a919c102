//! Strings of bits.

ghost use Rattle.std.specs.Prelude.{◌≡◌, ◌<◌, ◌^◌, IfOk};
ghost use Rattle.osi_base.specs.Bits.{is_set};

use crate::copied::Copied;
use crate::fault::NoMemory;
use crate::octets::Octets;
use std::alloc::Global;

/// A BIT STRING: octets, and how many bits of the last, 0 to 7, aren't part of it (X.690 8.6).
#[derive(Debug, Drop)]
pub struct BitString {
    /// The octets, the first bit as the highest of the first.
    pub octets: Octets,
    /// How many bits of the last octet aren't used, 0 to 7.
    pub unused: u8,
}

impl BitString {
    ghost use Rattle.osi_base.specs.BitString.{has_bit};

    /// Whether the bit with this number is set in the octets; false behind them. Bit 0 is the
    /// leading bit of the first octet (X.680 22.2). Unused bits count as they stand; in what is
    /// read they are 0.
    pub fn has(&self, bit: usize) -> bool
        ensures { result ≡ has_bit self.now bit }
    {
        match self.octets.as_slice().get(bit / 8) {
            Some(octet) => is_set(*octet, (bit % 8) as u8),
            None => false,
        }
    }
}

/// Whether this bit of an octet is set, counted from its leading bit.
fn is_set(octet: u8, bit: u8) -> bool
    requires { bit < 8 }
    ensures { result ≡ is_set octet bit }
{
    let weight = match bit {
        0 => 128,
        1 => 64,
        2 => 32,
        3 => 16,
        4 => 8,
        5 => 4,
        6 => 2,
        _ => 1,
    };
    octet / weight % 2 == 1
}

impl Copied for BitString {
    fn copy(&self, alloc: Global) -> Result<BitString, NoMemory> {
        Ok(BitString {
            octets: self.octets.copy(alloc)?,
            unused: self.unused,
        })
    }
}

/// The power of 2 with this exponent.
pub fn power_of_2(exponent: u8) -> u8
    requires { exponent < 8 }
    ensures { result ≡ 2 ^ exponent }
{
    match exponent {
        0 => 1,
        1 => 2,
        2 => 4,
        3 => 8,
        4 => 16,
        5 => 32,
        6 => 64,
        _ => 128,
    }
}
