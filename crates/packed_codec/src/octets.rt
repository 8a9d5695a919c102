//! The octets of numbers and arcs as they are written, and pieces put into a room one after the
//! other.

ghost use Rattle.std.specs.Prelude.{◌≡◌, ◌∷◌, [], ◌+◌, ◌≤◌, length};
ghost use Rattle.std.specs.List.{flat_map};
ghost use Rattle.byteorder.specs.Endian.{big_bytes};
ghost use Rattle.packed_codec.specs.Numbers.{unpadded, integer_octets};
ghost use Rattle.packed_codec.specs.ObjectIds.{digits_128, without_zeros, base_128, arcs_octets};
ghost use Rattle.packed_codec.specs.Writing.{counted, with_size, IsPut};

use ber_spelling::is_padded;
use byteorder::{BigEndian, ByteOrder};

/// Two's complement without the octets that only repeat the sign.
pub(crate) fn unpadded(octets: &[u8]) -> &[u8]
    ensures value { result.now ≡ unpadded octets.now }
    ensures few { length result.now ≤ length octets.now }
{
    let mut rest = octets;
    while is_padded(rest) {
        rest = &rest[1..];
    }
    rest
}

/// Five digits of seven bits, with bit 8 set in all but the last.
pub(crate) fn digits_128(number: u64) -> [u8; 5]
    ensures { result ≡ digits_128 number }
{
    [
        (128 + number / 0x1000_0000 % 128) as u8,
        (128 + number / 0x20_0000 % 128) as u8,
        (128 + number / 0x4000 % 128) as u8,
        (128 + number / 0x80 % 128) as u8,
        (number % 128) as u8,
    ]
}

/// Digits without leading zeros.
pub(crate) fn without_zeros(digits: &[u8]) -> &[u8]
    ensures value { result.now ≡ without_zeros digits.now }
    ensures few { length result.now ≤ length digits.now }
{
    let mut rest = digits;
    while let [128, more @ ..] = rest {
        rest = more;
    }
    rest
}

/// Puts an octet at a place of the room, and answers the place behind it.
pub(crate) fn put_octet(octet: u8, out: &mut [u8], at: usize) -> usize
    requires { at + 1 ≤ length out.old }
    ensures { IsPut (octet ∷ []) at out.old out.new result }
{
    out[at] = octet;
    at + 1
}

/// Puts octets at a place of the room.
pub(crate) fn put_octets(octets: &[u8], out: &mut [u8], at: usize) -> usize
    requires { at + length octets.now ≤ length out.old }
    ensures { IsPut octets.now at out.old out.new result }
{
    out[at..at + octets.len()].copy_from_slice(octets);
    at + octets.len()
}

/// Puts a count in four octets.
pub(crate) fn put_count(count: usize, out: &mut [u8], at: usize) -> usize
    requires { at + 4 ≤ length out.old }
    ensures { IsPut (big_bytes 4 count) at out.old out.new result }
{
    let mut octets = [0; 4];
    BigEndian::write_u32(&mut octets, (count % 0x1_0000_0000) as u32);
    put_octets(&octets, out, at)
}

/// Puts octets behind their count.
pub(crate) fn put_counted(octets: &[u8], out: &mut [u8], at: usize) -> usize
    requires { at + length (counted octets.now) ≤ length out.old }
    ensures { IsPut (counted octets.now) at out.old out.new result }
{
    let behind = put_count(octets.len(), out, at);
    put_octets(octets, out, behind)
}

/// Puts a number behind its size.
#[tactic(auto, unfolding(crate::specs::Numbers::integer_octets))]
pub(crate) fn put_number(number: i64, out: &mut [u8], at: usize) -> usize
    requires { at + length (with_size (integer_octets number)) ≤ length out.old }
    ensures { IsPut (with_size (integer_octets number)) at out.old out.new result }
{
    let octets = number.to_be_bytes();
    let octets = unpadded(&octets);
    let behind = put_octet(octets.len() as u8, out, at);
    put_octets(octets, out, behind)
}

/// Puts a subidentifier.
#[tactic(auto, unfolding(crate::specs::ObjectIds::base_128))]
pub(crate) fn put_base_128(number: u64, out: &mut [u8], at: usize) -> usize
    requires { at + length (base_128 number) ≤ length out.old }
    ensures { IsPut (base_128 number) at out.old out.new result }
{
    put_octets(without_zeros(&digits_128(number)), out, at)
}

/// Puts subidentifiers one after the other.
fn put_each(numbers: &[u32], out: &mut [u8], at: usize) -> usize
    requires { at + length (flat_map base_128 numbers.now) ≤ length out.old }
    ensures { IsPut (flat_map base_128 numbers.now) at out.old out.new result }
{
    let mut behind = at;
    for number in numbers {
        behind = put_base_128(*number as u64, out, behind);
    }
    behind
}

/// Puts arcs, of which the first two make one subidentifier.
#[tactic(auto, unfolding(crate::specs::ObjectIds::arcs_octets))]
fn put_arcs(arcs: &[u32], out: &mut [u8], at: usize) -> usize
    requires { at + length (arcs_octets arcs.now) ≤ length out.old }
    ensures { IsPut (arcs_octets arcs.now) at out.old out.new result }
{
    match arcs {
        [] => at,
        [root] => put_base_128(*root as u64, out, at),
        [root, second, more @ ..] => {
            let behind = put_base_128(40 * *root as u64 + *second as u64, out, at);
            put_each(more, out, behind)
        }
    }
}

/// Puts an object identifier's contents behind their count, which is put once they are.
pub(crate) fn put_object_id(arcs: &[u32], out: &mut [u8], at: usize) -> usize
    requires { at + length (counted (arcs_octets arcs.now)) ≤ length out.old }
    ensures { IsPut (counted (arcs_octets arcs.now)) at out.old out.new result }
{
    let end = put_arcs(arcs, out, at + 4);
    put_count(end - (at + 4), out, at);
    end
}
