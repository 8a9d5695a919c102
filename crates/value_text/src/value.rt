//! Values as texts, by their form (the notation of X.680 for values).

ghost use Rattle.std.specs.Prelude.{◌≡◌, ◌++◌, ◌∷◌, ◌<◌, ◌≤◌, ◌+◌, ◌-◌, ◌*◌, ◌/◌, ◌%◌, ℕ, [], List, OnOk, decimal, flat_map, take, length};
ghost use Rattle.value_text.specs.Values.{spaced, oid_text, boolean_text, octets_text, octet_bits, bits_of, bits_text, after_space, doubled, characters_text, value_text};
ghost use Rattle.value_text.specs.Values.{hex_octet};

use crate::text::Text;
use asn1_types::{Node, Val};
use osi_base::NoMemory;

/// An object identifier, as `{2 999 1}`.
pub fn put_oid(text: &mut Text, arcs: &[u32]) -> Result<(), NoMemory>
    ensures { OnOk result (text.new ≡ text.old ++ oid_text arcs.now) }
{
    text.put("{")?;
    put_arcs(text, arcs)?;
    text.put("}")
}

/// Arcs, with a space between each two.
fn put_arcs(text: &mut Text, arcs: &[u32]) -> Result<(), NoMemory>
    ensures { OnOk result (text.new ≡ text.old ++ spaced arcs.now) }
{
    match arcs {
        [] => Ok(()),
        [first, more @ ..] => {
            text.put_number(u64::from(*first))?;
            put_more_arcs(text, more)
        }
    }
}

/// Arcs, with a space before each.
fn put_more_arcs(text: &mut Text, arcs: &[u32]) -> Result<(), NoMemory>
    ensures { OnOk result (text.new ≡ text.old ++ flat_map after_space arcs.now) }
{
    for arc in arcs {
        text.put(" ")?;
        text.put_number(u64::from(*arc))?;
    }
    Ok(())
}

/// Octets, as `'0A'H`.
fn put_octets(text: &mut Text, octets: &[u8]) -> Result<(), NoMemory>
    ensures { OnOk result (text.new ≡ text.old ++ octets_text octets.now) }
{
    text.put("'")?;
    for octet in octets {
        text.put_hex(*octet)?;
    }
    text.put("'H")
}

/// Characters, as `"text"`, with each quote doubled.
fn put_characters(text: &mut Text, characters: &[u8]) -> Result<(), NoMemory>
    ensures { OnOk result (text.new ≡ text.old ++ characters_text characters.now) }
{
    text.put("\"")?;
    for octet in characters {
        put_doubled(text, *octet)?;
    }
    text.put("\"")
}

/// An octet of a text, twice where it is a quote.
fn put_doubled(text: &mut Text, octet: u8) -> Result<(), NoMemory>
    ensures { OnOk result (text.new ≡ text.old ++ doubled octet) }
{
    if octet == b'"' {
        text.put("\"\"")
    } else {
        text.put_raw(&[octet])
    }
}

/// The bits of an octet as digits, the highest first.
fn octet_bits(octet: u8) -> [u8; 8]
    ensures { result ≡ octet_bits octet }
{
    [
        b'0' + octet / 128 % 2,
        b'0' + octet / 64 % 2,
        b'0' + octet / 32 % 2,
        b'0' + octet / 16 % 2,
        b'0' + octet / 8 % 2,
        b'0' + octet / 4 % 2,
        b'0' + octet / 2 % 2,
        b'0' + octet % 2,
    ]
}

/// Bits, as `'0101'B`, without those of the last octet that are unused.
fn put_bits(text: &mut Text, octets: &[u8], unused: u8) -> Result<(), NoMemory>
    ensures { OnOk result (text.new ≡ text.old ++ bits_text octets.now unused) }
{
    text.put("'")?;
    put_all_bits(text, octets, unused)?;
    text.put("'B")
}

/// All bits but those of the last octet that are unused.
#[tactic(auto, using(crate::proofs::Printing::bits_last, crate::proofs::Printing::bits_more, crate::proofs::Printing::bits_end))]
fn put_all_bits(text: &mut Text, octets: &[u8], unused: u8) -> Result<(), NoMemory>
    ensures { OnOk result (text.new ≡ text.old ++ bits_of octets.now unused) }
{
    for (index, octet) in octets.iter().enumerate() {
        let bits = octet_bits(*octet);
        if index + 1 == octets.len() {
            text.put_raw(&bits[..usize::from(8u8.saturating_sub(unused))])?;
        } else {
            text.put_raw(&bits)?;
        }
    }
    Ok(())
}

/// A value by its form; `?` for one of a SEQUENCE, SET, SEQUENCE OF, SET OF or CHOICE, and for one
/// of any type (`Any`). `put_typed` prints these by their types.
pub fn put_value(text: &mut Text, value: &Val) -> Result<(), NoMemory>
    ensures { OnOk result (text.new ≡ text.old ++ value_text value.now) }
{
    match &value.node {
        Node::Bool(true) => text.put("TRUE"),
        Node::Bool(false) => text.put("FALSE"),
        Node::Int(number) => text.put_signed(*number),
        Node::Null => text.put("NULL"),
        Node::Octets(octets) => put_octets(text, octets.as_slice()),
        Node::Bits { octets, unused } => put_bits(text, octets.as_slice(), *unused),
        Node::ObjectId(oid) => put_oid(text, oid.arcs()),
        Node::Text(characters) => put_characters(text, characters.as_slice()),
        _ => text.put("?"),
    }
}
