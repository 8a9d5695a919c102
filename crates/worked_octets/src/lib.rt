//! Octets out of the digits in which tests write them.
#![tactic(auto)]

ghost use Rattle.std.specs.Prelude.{◌<◌};

use osi_base::{NoMemory, Octets};
use std::alloc::Global;

/// The number of an upper-case hexadecimal digit; 0 for any other octet.
fn digit(octet: u8) -> u8
    ensures { result < 16 }
{
    match octet {
        b'0'..=b'9' => octet - b'0',
        b'A'..=b'F' => octet - b'A' + 10,
        _ => 0,
    }
}

/// The octets of a text that has two digits for each, with a space between two octets. A field of
/// another length is left out. Refused for want of memory alone.
pub fn octets_of(alloc: Global, text: &str) -> Result<Octets, NoMemory> {
    let mut octets = Octets::new(alloc);
    for field in text.as_bytes().split(|octet| *octet == b' ') {
        if let [high, low] = field {
            octets.push(16 * digit(*high) + digit(*low))?;
        }
    }
    Ok(octets)
}
