//! Octets are numbers below 256.

ghost use Rattle.std.specs.Prelude.{IfSome};
ghost use Rattle.osi_base.specs.Octets.{AreOctets};

use crate::octets::Octets;

/// Does nothing. Its contract says that octets are numbers below 256.
pub fn hold_octets(octets: &[u8])
    ensures { AreOctets octets.now }
{
    let _octets = octets;
}

/// Does nothing. Its contract says that octets, where there are some, are numbers below 256.
pub fn hold_some_octets(octets: &Option<Octets>)
    ensures { IfSome octets.now AreOctets }
{
    if let Some(octets) = octets {
        hold_octets(octets.as_slice());
    }
}
