//! Identifiers, lengths and the contents of values that have no parts, put into a room in DER from
//! the last octet to the first. What a function puts stands right before `end`, and it answers
//! where that begins.

ghost use Rattle.std.specs.Prelude.{◌≡◌, ◌++◌, ◌∷◌, ◌+◌, ◌-◌, ◌<◌, ◌≤◌, [], map, false, true, length, drop};
ghost use Rattle.std.specs.List.{flat_map};
ghost use Rattle.asn1_types.specs.Writing.{base_128, base_256, natural_octets, integer_octets, identifier, length_octets, definite, boolean_contents, integer_contents, octets_contents, text_contents, bits_contents, object_id_contents, any_written, under, subidentifiers};
ghost use Rattle.asn1_types.specs.Tags.{leading};

use asn1_types::{Class, Node, Val};
use ber_spelling::Tag;

fn put(octet: u8, room: &mut [u8], end: usize) -> usize
    requires room { 0 < end }
    requires end { end ≤ length room.old }
    ensures start { result + 1 ≡ end }
    ensures put { drop result room.new ≡ octet ∷ drop end room.old }
{
    let start = end - 1;
    room[start] = octet;
    start
}

fn put_all(octets: &[u8], room: &mut [u8], end: usize) -> usize
    requires room { length octets.now ≤ end }
    requires end { end ≤ length room.old }
    ensures start { result + length octets.now ≡ end }
    ensures put { drop result room.new ≡ octets.now ++ drop end room.old }
{
    let start = end - octets.len();
    room[start..end].copy_from_slice(octets);
    start
}

/// A number in base 128, with bit 8 set in all digits but the last.
pub(crate) fn put_base_128(number: u64, room: &mut [u8], end: usize) -> usize
    requires room { length (base_128 number) ≤ end }
    requires end { end ≤ length room.old }
    ensures start { result + length (base_128 number) ≡ end }
    ensures put { drop result room.new ≡ base_128 number ++ drop end room.old }
{
    let mut start = put((number % 128) as u8, room, end);
    let mut high = number / 128;
    while high > 0 {
        start = put((128 + high % 128) as u8, room, start);
        high /= 128;
    }
    start
}

/// A number in as few octets as hold it.
fn put_base_256(number: u64, room: &mut [u8], end: usize) -> usize
    requires room { length (base_256 number) ≤ end }
    requires end { end ≤ length room.old }
    ensures start { result + length (base_256 number) ≡ end }
    ensures put { drop result room.new ≡ base_256 number ++ drop end room.old }
{
    let mut start = end;
    let mut high = number;
    while high > 0 {
        start = put((high % 256) as u8, room, start);
        high /= 256;
    }
    start
}

/// An INTEGER's contents (X.690 8.3). Below 0 they are those of -1 less the number, with each bit
/// turned.
#[tactic(auto, unfolding(asn1_types::specs::Writing::integer_octets))]
pub(crate) fn put_integer(number: i64, room: &mut [u8], end: usize) -> usize
    requires room { length (integer_octets number) ≤ end }
    requires end { end ≤ length room.old }
    ensures start { result + length (integer_octets number) ≡ end }
    ensures put { drop result room.new ≡ integer_octets number ++ drop end room.old }
{
    if number < 0 {
        put_negative((-1 - number) as u64, room, end)
    } else {
        put_natural(number as u64, room, end)
    }
}

/// A number from 0 on, in as few octets as hold it with bit 8 of the first clear.
fn put_natural(number: u64, room: &mut [u8], end: usize) -> usize
    requires room { length (natural_octets number number []) ≤ end }
    requires end { end ≤ length room.old }
    ensures start { result + length (natural_octets number number []) ≡ end }
    ensures put { drop result room.new ≡ natural_octets number number [] ++ drop end room.old }
{
    let mut start = end;
    let mut high = number;
    while high >= 128 {
        start = put((high % 256) as u8, room, start);
        high /= 256;
    }
    put(high as u8, room, start)
}

/// The octets of a number from 0 on, with each bit turned.
fn put_negative(number: u64, room: &mut [u8], end: usize) -> usize
    requires room { length (map (λ octet. 255 - octet) (natural_octets number number [])) ≤ end }
    requires end { end ≤ length room.old }
    ensures start { result + length (map (λ octet. 255 - octet) (natural_octets number number []))
        ≡ end }
    ensures put { drop result room.new ≡ map (λ octet. 255 - octet)
        (natural_octets number number []) ++ drop end room.old }
{
    let mut start = end;
    let mut high = number;
    while high >= 128 {
        start = put((255 - high % 256) as u8, room, start);
        high /= 256;
    }
    put((255 - high) as u8, room, start)
}

/// The first octet's class and form (X.690 8.1.2).
fn leading(class: Class, constructed: bool) -> u8
    ensures value { result ≡ leading class constructed }
    ensures room { result ≤ 224 }
{
    let form = if constructed { 32 } else { 0 };
    match class {
        Class::Universal => form,
        Class::Application => 64 + form,
        Class::Context => 128 + form,
        Class::Private => 192 + form,
    }
}

pub(crate) fn put_identifier(tag: Tag, constructed: bool, room: &mut [u8], end: usize) -> usize
    requires room { length (identifier tag.class constructed tag.number) ≤ end }
    requires end { end ≤ length room.old }
    ensures start { result + length (identifier tag.class constructed tag.number) ≡ end }
    ensures put { drop result room.new ≡ identifier tag.class constructed tag.number
        ++ drop end room.old }
{
    let first = leading(tag.class, constructed);
    if tag.number < 31 {
        return put(first + tag.number as u8, room, end);
    }
    let start = put_base_128(tag.number as u64, room, end);
    put(first + 31, room, start)
}

pub(crate) fn put_length(count: usize, room: &mut [u8], end: usize) -> usize
    requires room { length (length_octets count) ≤ end }
    requires end { end ≤ length room.old }
    ensures start { result + length (length_octets count) ≡ end }
    ensures put { drop result room.new ≡ length_octets count ++ drop end room.old }
{
    if count < 128 {
        return put(count as u8, room, end);
    }
    let start = put_base_256(count as u64, room, end);
    put(128 + (end - start) as u8, room, start)
}

/// Identifier and length of contents of `count` octets.
pub(crate) fn put_head(
    tag: Tag,
    constructed: bool,
    count: usize,
    room: &mut [u8],
    end: usize,
) -> usize
    requires room { length (identifier tag.class constructed tag.number ++ length_octets count)
        ≤ end }
    requires end { end ≤ length room.old }
    ensures start { result + length (identifier tag.class constructed tag.number
        ++ length_octets count) ≡ end }
    ensures put { drop result room.new ≡ identifier tag.class constructed tag.number
        ++ length_octets count ++ drop end room.old }
{
    let start = put_length(count, room, end);
    put_identifier(tag, constructed, room, start)
}

pub(crate) fn put_integer_value(tag: Tag, value: &Val, room: &mut [u8], end: usize) -> usize
    requires room { length (definite false tag (integer_contents value.now)) ≤ end }
    requires end { end ≤ length room.old }
    ensures start { result + length (definite false tag (integer_contents value.now)) ≡ end }
    ensures put { drop result room.new ≡ definite false tag (integer_contents value.now)
        ++ drop end room.old }
{
    let start = match &value.node {
        Node::Int(number) => put_integer(*number, room, end),
        _ => end,
    };
    put_head(tag, false, end - start, room, start)
}

/// A BOOLEAN: TRUE is FF (X.690 11.1).
pub(crate) fn put_boolean(tag: Tag, value: &Val, room: &mut [u8], end: usize) -> usize
    requires room { length (definite false tag (boolean_contents value.now)) ≤ end }
    requires end { end ≤ length room.old }
    ensures start { result + length (definite false tag (boolean_contents value.now)) ≡ end }
    ensures put { drop result room.new ≡ definite false tag (boolean_contents value.now)
        ++ drop end room.old }
{
    let start = match &value.node {
        Node::Bool(truth) => put(if *truth { 255 } else { 0 }, room, end),
        _ => end,
    };
    put_head(tag, false, end - start, room, start)
}

pub(crate) fn put_octets(tag: Tag, value: &Val, room: &mut [u8], end: usize) -> usize
    requires room { length (definite false tag (octets_contents value.now)) ≤ end }
    requires end { end ≤ length room.old }
    ensures start { result + length (definite false tag (octets_contents value.now)) ≡ end }
    ensures put { drop result room.new ≡ definite false tag (octets_contents value.now)
        ++ drop end room.old }
{
    let start = match &value.node {
        Node::Octets(octets) => put_all(octets.as_slice(), room, end),
        _ => end,
    };
    put_head(tag, false, end - start, room, start)
}

pub(crate) fn put_text(tag: Tag, value: &Val, room: &mut [u8], end: usize) -> usize
    requires room { length (definite false tag (text_contents value.now)) ≤ end }
    requires end { end ≤ length room.old }
    ensures start { result + length (definite false tag (text_contents value.now)) ≡ end }
    ensures put { drop result room.new ≡ definite false tag (text_contents value.now)
        ++ drop end room.old }
{
    let start = match &value.node {
        Node::Text(octets) => put_all(octets.as_slice(), room, end),
        _ => end,
    };
    put_head(tag, false, end - start, room, start)
}

/// A BIT STRING: how many bits are unused stands first (X.690 8.6.2).
pub(crate) fn put_bits(tag: Tag, value: &Val, room: &mut [u8], end: usize) -> usize
    requires room { length (definite false tag (bits_contents value.now)) ≤ end }
    requires end { end ≤ length room.old }
    ensures start { result + length (definite false tag (bits_contents value.now)) ≡ end }
    ensures put { drop result room.new ≡ definite false tag (bits_contents value.now)
        ++ drop end room.old }
{
    let start = match &value.node {
        Node::Bits { octets, unused } => put_segment(octets.as_slice(), *unused, room, end),
        _ => end,
    };
    put_head(tag, false, end - start, room, start)
}

fn put_segment(octets: &[u8], unused: u8, room: &mut [u8], end: usize) -> usize
    requires room { length (unused ∷ octets.now) ≤ end }
    requires end { end ≤ length room.old }
    ensures start { result + length (unused ∷ octets.now) ≡ end }
    ensures put { drop result room.new ≡ (unused ∷ octets.now) ++ drop end room.old }
{
    let start = put_all(octets, room, end);
    put(unused, room, start)
}

/// An OBJECT IDENTIFIER's arcs (X.690 8.19), of which the first two are one subidentifier.
fn put_arcs(arcs: &[u32], room: &mut [u8], end: usize) -> usize
    requires room { length (flat_map base_128 (subidentifiers arcs.now)) ≤ end }
    requires end { end ≤ length room.old }
    ensures start { result + length (flat_map base_128 (subidentifiers arcs.now)) ≡ end }
    ensures put { drop result room.new ≡ flat_map base_128 (subidentifiers arcs.now)
        ++ drop end room.old }
{
    match arcs {
        [] => end,
        [root] => put_base_128(*root as u64, room, end),
        [root, second, more @ ..] => {
            let start = put_each(more, room, end);
            put_base_128(40 * *root as u64 + *second as u64, room, start)
        }
    }
}

fn put_each(numbers: &[u32], room: &mut [u8], end: usize) -> usize
    requires room { length (flat_map base_128 numbers.now) ≤ end }
    requires end { end ≤ length room.old }
    ensures start { result + length (flat_map base_128 numbers.now) ≡ end }
    ensures put { drop result room.new ≡ flat_map base_128 numbers.now ++ drop end room.old }
{
    let mut start = end;
    let mut index = numbers.len();
    while index > 0 {
        index -= 1;
        start = put_base_128(numbers[index] as u64, room, start);
    }
    start
}

pub(crate) fn put_object_id(tag: Tag, value: &Val, room: &mut [u8], end: usize) -> usize
    requires room { length (definite false tag (object_id_contents value.now)) ≤ end }
    requires end { end ≤ length room.old }
    ensures start { result + length (definite false tag (object_id_contents value.now)) ≡ end }
    ensures put { drop result room.new ≡ definite false tag (object_id_contents value.now)
        ++ drop end room.old }
{
    let start = match &value.node {
        Node::ObjectId(oid) => put_arcs(oid.arcs(), room, end),
        _ => end,
    };
    put_head(tag, false, end - start, room, start)
}

/// Any one value, and the tag that stands before it if one is given.
pub(crate) fn put_any(tag: Option<Tag>, value: &Val, room: &mut [u8], end: usize) -> usize
    requires room { length (under any_written tag value.now) ≤ end }
    requires end { end ≤ length room.old }
    ensures start { result + length (under any_written tag value.now) ≡ end }
    ensures put { drop result room.new ≡ under any_written tag value.now ++ drop end room.old }
{
    let start = match &value.node {
        Node::Any(octets) => put_all(octets.as_slice(), room, end),
        _ => end,
    };
    match tag {
        None => start,
        Some(tag) => put_head(tag, true, end - start, room, start),
    }
}
