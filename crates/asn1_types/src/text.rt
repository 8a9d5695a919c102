//! Octets of strings: which fit.

ghost use Rattle.std.specs.Prelude.{◌≡◌};
ghost use Rattle.std.specs.List.{list_all};
ghost use Rattle.std.specs.Str.{is_utf8};
ghost use Rattle.asn1_types.specs.Defaults.{is_item};
ghost use Rattle.asn1_types.specs.Fits.{is_octet, are_bits, is_between, is_printable, is_character, is_text};

use crate::row::{Item, TextKind};
use osi_base::power_of_2;

/// Whether some item has this number.
pub fn is_item(items: &[Item], number: i64) -> bool
    ensures { result ≡ is_item items.now number }
{
    for item in items {
        if item.number == number {
            return true;
        }
    }
    false
}

/// True: octets have 8 bits. The contract says so of these.
pub fn are_octets(octets: &[u8]) -> bool
    ensures { result ≡ list_all is_octet octets.now }
{
    true
}

/// Whether 0 to 7 bits of the last octet are unused, none where there is no octet, and they are
/// zero.
pub fn are_bits(octets: &[u8], unused: u8) -> bool
    ensures { result ≡ are_bits octets.now unused }
{
    if unused >= 8 {
        return false;
    }
    if octets.len() == 0 {
        return unused == 0;
    }
    octets[octets.len() - 1] % power_of_2(unused) == 0
}

fn is_between(low: u8, high: u8, octet: u8) -> bool
    ensures { result ≡ is_between low high octet }
{
    low <= octet && octet <= high
}

fn is_printable(octet: u8) -> bool
    ensures { result ≡ is_printable octet }
{
    is_between(b'A', b'Z', octet)
        || is_between(b'a', b'z', octet)
        || is_between(b'+', b':', octet)
        || is_between(b'\'', b')', octet)
        || octet == b' '
        || octet == b'='
        || octet == b'?'
}

fn is_character(kind: TextKind, octet: u8) -> bool
    ensures { result ≡ is_character kind octet }
{
    match kind {
        TextKind::Utf8 => true,
        TextKind::Ia5 => octet < 128,
        TextKind::Visible => is_between(b' ', b'~', octet),
        TextKind::Printable => is_printable(octet),
        TextKind::Numeric => is_between(b'0', b'9', octet) || octet == b' ',
    }
}

fn are_characters(kind: TextKind, octets: &[u8]) -> bool
    ensures { result ≡ list_all (is_character kind) octets.now }
{
    for octet in octets {
        if !is_character(kind, *octet) {
            return false;
        }
    }
    true
}

fn is_utf8(octets: &[u8]) -> bool
    ensures { result ≡ is_utf8 octets.now }
{
    match std::str::from_utf8(octets) {
        Ok(_) => true,
        Err(_) => false,
    }
}

/// Whether octets are a text of this kind (X.680 41).
pub fn is_text(kind: TextKind, octets: &[u8]) -> bool
    ensures { result ≡ is_text kind octets.now }
{
    match kind {
        TextKind::Utf8 => is_utf8(octets),
        kind => are_characters(kind, octets),
    }
}
