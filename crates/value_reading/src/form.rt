//! Values that are read by their form.

ghost use Rattle.std.specs.Prelude.{◌≡◌, ◌<◌, ◌≤◌, ◌+◌, ◌-◌, ◌*◌, ◌%◌, ◌==◌, [], length, slice_get, take, drop, option_map, IfOk, IfSome};
ghost use Rattle.asn1_types.specs.Value as tree;
ghost use Rattle.asn1_types.specs.ValueView.{value_of};
ghost use Rattle.value_reading.specs.Found.{found, found_before};
ghost use Rattle.value_reading.specs.Words.{len_to, word, behind_word};
ghost use Rattle.value_reading.specs.Forms.{octets_of, bit_of, bit_at, of_bits, octet_of_bits, bit_octets, by_letter, quoted_form, characters_at, oid_before, arcs_at, word_form, form_at};

use crate::value_and_rest::ValueAndRest;
use crate::word::{behind_word, from, len_to, up_to, word};
use asn1_types::{Node, Val};
use osi_base::{NoMemory, Octets, Oid, octet_of_digits};
use std::alloc::Global;
use value_text::{decimal_integer, decimal_number};

/// Reads the value that stands first in a text by its form (X.680, the notation for values):
/// `TRUE`, `FALSE`, `NULL`, a decimal number, `'0A'H`, `'0101'B`, `"text"` or `{2 999 1}`; or
/// `None` where none of these stands there. What may follow is the caller's matter.
pub fn read_form(alloc: Global, text: &[u8]) -> Result<Option<ValueAndRest<'_>>, NoMemory>
    ensures { IfOk result (λ front. found front ≡ form_at text.now) }
{
    let [first, rest @ ..] = text else {
        return Ok(None);
    };
    match *first {
        b'\'' => read_quoted(alloc, rest),
        b'"' => read_characters(alloc, rest),
        b'{' => read_arcs(alloc, rest),
        _ => Ok(read_word(text)),
    }
}

/// A value that is one word.
fn read_word(text: &[u8]) -> Option<ValueAndRest<'_>>
    ensures { found result ≡ found_before (behind_word text.now) (word_form (word text.now)) }
{
    Some(ValueAndRest {
        value: word_value(word(text))?,
        rest: behind_word(text),
    })
}

/// The value of a word.
fn word_value(text: &[u8]) -> Option<Val>
    ensures { result ≡ word_form text.now }
{
    if text == b"TRUE".as_slice() {
        return Some(value(Node::Bool(true)));
    }
    if text == b"FALSE".as_slice() {
        return Some(value(Node::Bool(false)));
    }
    if text == b"NULL".as_slice() {
        return Some(value(Node::Null));
    }
    Some(value(Node::Int(decimal_integer(text)?)))
}

/// The value with this node.
fn value(node: Node) -> Val
    ensures { result ≡ value_of node }
{
    Val { node }
}

/// What follows a single quote.
#[tactic(auto, using(crate::proofs::Quoted::no_letter, crate::proofs::Quoted::with_letter))]
fn read_quoted(alloc: Global, text: &[u8]) -> Result<Option<ValueAndRest<'_>>, NoMemory>
    ensures { IfOk result (λ front. found front ≡ quoted_form (take (len_to 39 text.now) text.now)
        (drop (len_to 39 text.now) text.now)) }
{
    let len = len_to(text, b'\'');
    let inside = up_to(text, len);
    let end = from(text, len);
    if end.len() < 2 {
        return Ok(None);
    }
    read_by_letter(alloc, inside, end[1], from(end, 2))
}

/// What stands between quotes, by the letter behind them.
fn read_by_letter<'a>(
    alloc: Global,
    inside: &[u8],
    letter: u8,
    rest: &'a [u8],
) -> Result<Option<ValueAndRest<'a>>, NoMemory>
    ensures { IfOk result (λ front. found front ≡ by_letter inside.now letter rest.now) }
{
    match letter {
        b'H' => Ok(before(read_octet_string(alloc, inside)?, rest)),
        b'B' => Ok(before(read_bit_string(alloc, inside)?, rest)),
        _ => Ok(None),
    }
}

/// A value, where there is one, before what follows.
fn before(value: Option<Val>, rest: &[u8]) -> Option<ValueAndRest<'_>>
    ensures { found result ≡ found_before rest.now value }
{
    Some(ValueAndRest {
        value: value?,
        rest,
    })
}

/// The octets that hexadecimal digits write, two each.
#[tactic(auto, using(crate::proofs::Octets::octets_end, crate::proofs::Octets::octets_one, crate::proofs::Octets::octets_more))]
fn read_octets(alloc: Global, digits: &[u8]) -> Result<Option<Octets>, NoMemory>
    ensures { IfOk result (λ read. read ≡ octets_of [] digits.now) }
{
    let mut octets = Octets::new(alloc);
    let mut place = 0;
    while place < digits.len() {
        if digits.len() - place < 2 {
            return Ok(None);
        }
        let Some(octet) = octet_of_digits(digits[place], digits[place + 1]) else {
            return Ok(None);
        };
        octets.push(octet)?;
        place += 2;
    }
    Ok(Some(octets))
}

fn read_octet_string(alloc: Global, digits: &[u8]) -> Result<Option<Val>, NoMemory>
    ensures { IfOk result (λ read. read ≡ option_map (λ octets. tree.octets octets) (octets_of []
        digits.now)) }
{
    match read_octets(alloc, digits)? {
        Some(octets) => Ok(Some(value(Node::Octets(octets)))),
        None => Ok(None),
    }
}

/// A digit of a bit string; none, behind the last, is 0.
fn bit_at(digits: &[u8], place: usize) -> Option<u8>
    ensures value { result ≡ bit_at digits.now place }
    ensures small { IfSome result (λ value. value < 2) }
{
    match digits.get(place) {
        None => Some(0),
        Some(digit) => bit_of(*digit),
    }
}

/// A digit of a bit string.
fn bit_of(digit: u8) -> Option<u8>
    ensures value { result ≡ bit_of (Some digit) }
    ensures small { IfSome result (λ value. value < 2) }
{
    match digit {
        b'0' => Some(0),
        b'1' => Some(1),
        _ => None,
    }
}

/// The number of four bits, the highest first.
fn of_bits(a: Option<u8>, b: Option<u8>, c: Option<u8>, d: Option<u8>) -> Option<u8>
    requires a { IfSome a (λ bit. bit < 2) }
    requires b { IfSome b (λ bit. bit < 2) }
    requires c { IfSome c (λ bit. bit < 2) }
    requires d { IfSome d (λ bit. bit < 2) }
    ensures value { result ≡ of_bits a b c d }
    ensures small { IfSome result (λ value. value < 16) }
{
    match (a, b, c, d) {
        (Some(a), Some(b), Some(c), Some(d)) => Some(8 * a + 4 * b + 2 * c + d),
        _ => None,
    }
}

/// The octet that up to eight digits begin, the highest bit first.
fn octet_of_bits(digits: &[u8]) -> Option<u8>
    ensures { result ≡ octet_of_bits digits.now }
{
    let high = of_bits(
        bit_at(digits, 0),
        bit_at(digits, 1),
        bit_at(digits, 2),
        bit_at(digits, 3),
    )?;
    let low = of_bits(
        bit_at(digits, 4),
        bit_at(digits, 5),
        bit_at(digits, 6),
        bit_at(digits, 7),
    )?;
    Some(16 * high + low)
}

/// The octets of bits, the last filled with zeros.
#[tactic(auto, using(crate::proofs::Bits::bits_end, crate::proofs::Bits::bits_last_at, crate::proofs::Bits::bits_more_at))]
fn read_bits(alloc: Global, digits: &[u8]) -> Result<Option<Octets>, NoMemory>
    ensures { IfOk result (λ read. read ≡ bit_octets [] digits.now) }
{
    let mut octets = Octets::new(alloc);
    let mut place = 0;
    while digits.len() - place >= 8 {
        let Some(octet) = octet_of_bits(up_to(from(digits, place), 8)) else {
            return Ok(None);
        };
        octets.push(octet)?;
        place += 8;
    }
    if place == digits.len() {
        return Ok(Some(octets));
    }
    let Some(octet) = octet_of_bits(from(digits, place)) else {
        return Ok(None);
    };
    octets.push(octet)?;
    Ok(Some(octets))
}

fn read_bit_string(alloc: Global, digits: &[u8]) -> Result<Option<Val>, NoMemory>
    ensures { IfOk result (λ read. read ≡ option_map (λ octets. tree.bits octets ((8 - length
        digits.now % 8) % 8)) (bit_octets [] digits.now)) }
{
    let unused = ((8 - digits.len() % 8) % 8) as u8;
    match read_bits(alloc, digits)? {
        Some(octets) => Ok(Some(value(Node::Bits { octets, unused }))),
        None => Ok(None),
    }
}

/// What follows a double quote: characters up to the quote that ends them, of which each quote
/// stands twice.
fn read_characters(alloc: Global, text: &[u8]) -> Result<Option<ValueAndRest<'_>>, NoMemory>
    ensures { IfOk result (λ front. found front ≡ characters_at [] text.now) }
{
    let mut characters = Octets::new(alloc);
    let mut rest = text;
    while let [first, behind @ ..] = rest {
        if *first != b'"' {
            characters.push(*first)?;
            rest = behind;
            continue;
        }
        let [b'"', more @ ..] = behind else {
            return Ok(Some(ValueAndRest {
                value: value(Node::Text(characters)),
                rest: behind,
            }));
        };
        characters.push(b'"')?;
        rest = more;
    }
    Ok(None)
}

/// What follows an opening brace: the arcs of an object identifier, with spaces around them.
#[tactic(auto, using(crate::proofs::Turns::arcs_none, crate::proofs::Turns::arcs_space, crate::proofs::Turns::arcs_end, crate::proofs::Turns::arcs_more, crate::proofs::Turns::arcs_not, crate::proofs::Turns::arcs_over))]
fn read_arcs(alloc: Global, text: &[u8]) -> Result<Option<ValueAndRest<'_>>, NoMemory>
    ensures { IfOk result (λ front. found front ≡ arcs_at (length text.now) [] text.now) }
{
    let mut arcs = Vec::new(alloc);
    let mut rest = text;
    for _turn in 0..text.len() {
        if rest.len() == 0 {
            return Ok(None);
        }
        if rest[0] == b' ' {
            rest = from(rest, 1);
        } else if rest[0] == b'}' {
            return Ok(oid_before(arcs, from(rest, 1)));
        } else {
            let Some(arc) = decimal_number(word(rest)) else {
                return Ok(None);
            };
            arcs.push(arc)?;
            rest = behind_word(rest);
        }
    }
    Ok(None)
}

/// The object identifier of these arcs, where they are one.
fn oid_before(arcs: Vec<u32>, rest: &[u8]) -> Option<ValueAndRest<'_>>
    ensures { found result ≡ oid_before arcs.items rest.now }
{
    Some(ValueAndRest {
        value: value(Node::ObjectId(Oid::from_vec(arcs)?)),
        rest,
    })
}
