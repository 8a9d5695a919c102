//! The contents of primitive values.

ghost use Rattle.std.specs.Prelude.{◌≡◌, ◌∷◌, [], ◌+◌, ◌≤◌, ◌<◌, ◌^◌, length, Some, slice_index, IfOk, option_map, false, if◌then◌else◌, None};
ghost use Rattle.std.specs.List.{list_all};
ghost use Rattle.asn1_types.specs.Whole.{number_256};
ghost use Rattle.asn1_types.specs.Fits.{has_32_bits};
ghost use Rattle.ber_spelling.specs.Primitives.{is_padded, is_integer, signed_of, integer_of, subidentifiers_of, arcs_from, arcs_of};

use asn1_types::number_256;
use osi_base::{NoMemory, Oid};
use std::alloc::Global;

/// Whether the first nine bits are all zero or all one (X.690 8.3.2).
#[inline(always)]
pub fn is_padded(octets: &[u8]) -> bool
    ensures { result ≡ is_padded octets.now }
{
    match octets {
        [first, second, ..] => *first == 0 && *second < 128 || *first == 255 && 128 <= *second,
        _ => false,
    }
}

/// The ones above a number of this many octets, which complete it to 64 bits.
#[inline(always)]
fn ones_above(len: usize) -> u64
    requires some { 1 ≤ len }
    requires few { len ≤ 8 }
    ensures { result + 256 ^ len ≡ 2 ^ 64 }
{
    match len {
        1 => 0xffff_ffff_ffff_ff00,
        2 => 0xffff_ffff_ffff_0000,
        3 => 0xffff_ffff_ff00_0000,
        4 => 0xffff_ffff_0000_0000,
        5 => 0xffff_ff00_0000_0000,
        6 => 0xffff_0000_0000_0000,
        7 => 0xff00_0000_0000_0000,
        _ => 0,
    }
}

/// The number that 1 to 8 octets are in two's complement (X.690 8.3.3).
#[inline(always)]
fn signed_of(octets: &[u8]) -> i64
    requires some { 1 ≤ length octets.now }
    requires few { length octets.now ≤ 8 }
    ensures { result ≡ signed_of octets.now }
{
    let number = number_256(octets);
    if octets[0] < 128 {
        number.cast_signed()
    } else {
        (number + ones_above(octets.len())).cast_signed()
    }
}

/// The INTEGER of these contents, if they are one (X.690 8.3): 1 to 8 octets without padding.
#[tactic(auto, unfolding(crate::specs::Primitives::integer_of))]
#[inline(always)]
pub fn integer_of(octets: &[u8]) -> Option<i64>
    ensures { result ≡ integer_of octets.now }
{
    match octets {
        [only] => Some(small(*only)),
        [first, second] if !is_padded(octets) => Some(256 * small(*first) + *second as i64),
        _ => long_integer_of(octets),
    }
}

/// The number that one octet is in two's complement.
#[inline(always)]
fn small(octet: u8) -> i64
    ensures { result ≡ signed_of (octet ∷ []) }
{
    if octet < 128 {
        octet as i64
    } else {
        octet as i64 - 256
    }
}

/// As `integer_of`, however many octets there are.
#[tactic(auto, unfolding(crate::specs::Primitives::integer_of))]
fn long_integer_of(octets: &[u8]) -> Option<i64>
    ensures { result ≡ integer_of octets.now }
{
    if octets.is_empty() || octets.len() > 8 || is_padded(octets) {
        return None;
    }
    Some(signed_of(octets))
}

/// The subidentifiers that these octets are, if they are some (X.690 8.19.2).
fn subidentifiers(alloc: Global, octets: &[u8]) -> Result<Option<Vec<u64>>, NoMemory>
    ensures { IfOk result (λ found. option_map (λ v. v.items) found ≡ subidentifiers_of 0 false
        octets.now) }
{
    let mut found: Vec<u64> = Vec::new(alloc);
    let mut number: u64 = 0;
    let mut begun = false;
    for digit in octets {
        if *digit == 128 && !begun {
            return Ok(None);
        }
        number = (128 * number + (*digit & 0x7f) as u64).min(0x100_0000_0000);
        if *digit < 128 {
            found.push(number)?;
            number = 0;
            begun = false;
        } else {
            begun = true;
        }
    }
    if begun {
        return Ok(None);
    }
    Ok(Some(found))
}

/// The arcs that subidentifiers stand for (X.690 8.19.4).
fn arcs_from(alloc: Global, found: &[u64]) -> Result<Vec<u64>, NoMemory>
    ensures { IfOk result (λ arcs. arcs.items ≡ arcs_from found.now) }
{
    let mut arcs: Vec<u64> = Vec::new(alloc);
    if let [first, more @ ..] = found {
        let root = if *first < 40 {
            0
        } else if *first < 80 {
            1
        } else {
            2
        };
        arcs.push(root)?;
        arcs.push(*first - 40 * root)?;
        arcs.extend_from_slice(more)?;
    }
    Ok(arcs)
}

/// The numbers, if each has 32 bits.
fn narrowed(alloc: Global, numbers: &[u64]) -> Result<Option<Vec<u32>>, NoMemory>
    ensures { IfOk result (λ narrow. option_map (λ v. v.items) narrow
        ≡ (if list_all has_32_bits numbers.now then Some numbers.now else None)) }
{
    let mut narrow: Vec<u32> = Vec::new(alloc);
    for number in numbers {
        if *number >= 0x1_0000_0000 {
            return Ok(None);
        }
        narrow.push(*number as u32)?;
    }
    Ok(Some(narrow))
}

/// The object identifier of these contents, if they are one (X.690 8.19).
#[tactic(auto, unfolding(crate::specs::Primitives::arcs_of))]
pub(crate) fn arcs_of(alloc: Global, octets: &[u8]) -> Result<Option<Oid>, NoMemory>
    ensures { IfOk result (λ oid. oid ≡ arcs_of octets.now) }
{
    let Some(found) = subidentifiers(alloc, octets)? else {
        return Ok(None);
    };
    let arcs = arcs_from(alloc, &found)?;
    let Some(narrow) = narrowed(alloc, &arcs)? else {
        return Ok(None);
    };
    Ok(Oid::from_vec(narrow))
}
