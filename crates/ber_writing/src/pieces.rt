//! How octets compare, and the pieces of DER spellings that have no parts: identifiers, lengths and
//! contents (X.690 11.6).

ghost use Rattle.std.specs.Prelude.{◌≡◌, ◌<◌, ◌^◌, ◌⊎◌, ℕ, Bool, List, [], ◌∷◌, ◌++◌, false, true, length, IfSome};
ghost use Rattle.std.specs.List.{flat_map};
ghost use Rattle.asn1_types.specs.Writing.{saturated, base_128, integer_octets, length_octets, identifier, definite, boolean_contents, integer_contents, octets_contents, text_contents, bits_contents, object_id_contents, any_written, under, subidentifiers};
ghost use Rattle.ber_writing.specs.Comparing.{compared, Decides, IsCompared, IsApart, LeadsOr};

use crate::contents::{any_in, bits_in, boolean_in, integer_in, object_id_in, octets_in, text_in};
use crate::fields::{put_base_128, put_identifier, put_integer, put_length};
use crate::head::{Head, Lead};
use crate::length::{
    arcs_len, base_128_len, definite_len, identifier_len, integer_len, length_len,
};
use asn1_types::Val;
use ber_spelling::Tag;
use std::cmp::Ordering;

/// The lengths of two lots of octets, which stand still at the end of 64 bits, and how the octets
/// compare.
#[derive(Clone, Copy)]
pub(crate) struct Compared {
    pub len: u64,
    pub other: u64,
    pub order: Ordering,
}

/// What stands behind a place in the contents of two values.
#[derive(Clone, Copy)]
pub(crate) struct Rest {
    pub told: Compared,
    pub lead: Lead,
    pub other: Lead,
}

pub(crate) const END: Rest = Rest {
    told: Compared {
        len: 0,
        other: 0,
        order: Ordering::Equal,
    },
    lead: Lead::Nothing,
    other: Lead::Nothing,
};

/// How octets compare: the first that differs decides, else the shorter are less.
pub(crate) fn octets_compared(a: &[u8], b: &[u8]) -> Ordering
    ensures { result ≡ compared a.now b.now }
{
    for index in 0..a.len().min(b.len()) {
        if a[index] != b[index] {
            return a[index].cmp(&b[index]);
        }
    }
    a.len().cmp(&b.len())
}

/// How lengths compare, as they are written.
fn lengths_compared(count: u64, other: u64) -> Ordering
    ensures { result ≡ compared (length_octets count) (length_octets other) }
{
    let (mut room, mut room_other) = ([0; 9], [0; 9]);
    let len = length_len(count) as usize;
    let len_other = length_len(other) as usize;
    put_length(count as usize, &mut room, len);
    put_length(other as usize, &mut room_other, len_other);
    octets_compared(&room[..len], &room_other[..len_other])
}

/// How identifiers compare, as they are written.
pub(crate) fn heads_compared(a: Head, b: Head) -> Ordering
    ensures { result ≡ compared (identifier a.tag.class a.constructed a.tag.number)
        (identifier b.tag.class b.constructed b.tag.number) }
{
    let (mut room, mut room_other) = ([0; 6], [0; 6]);
    let len = identifier_len(a.tag) as usize;
    let len_other = identifier_len(b.tag) as usize;
    put_identifier(a.tag, a.constructed, &mut room, len);
    put_identifier(b.tag, b.constructed, &mut room_other, len_other);
    octets_compared(&room[..len], &room_other[..len_other])
}

/// How numbers in base 128 compare, as they are written.
fn digits_compared(a: u64, b: u64) -> Ordering
    requires a { a < 2 ^ 40 }
    requires b { b < 2 ^ 40 }
    ensures { result ≡ compared (base_128 a) (base_128 b) }
{
    let (mut room, mut room_other) = ([0; 6], [0; 6]);
    let len = base_128_len(a) as usize;
    let len_other = base_128_len(b) as usize;
    put_base_128(a, &mut room, len);
    put_base_128(b, &mut room_other, len_other);
    octets_compared(&room[..len], &room_other[..len_other])
}

/// How the contents of INTEGERs compare.
fn numbers_compared(a: i64, b: i64) -> Compared
    ensures { IsCompared result (integer_octets a) (integer_octets b) }
{
    let (mut room, mut room_other) = ([0; 9], [0; 9]);
    let len = integer_len(a);
    let other = integer_len(b);
    put_integer(a, &mut room, len as usize);
    put_integer(b, &mut room_other, other as usize);
    Compared {
        len,
        other,
        order: octets_compared(&room[..len as usize], &room_other[..other as usize]),
    }
}

fn strings_compared(a: &[u8], b: &[u8]) -> Compared
    ensures { IsCompared result a.now b.now }
{
    Compared {
        len: a.len() as u64,
        other: b.len() as u64,
        order: octets_compared(a, b),
    }
}

impl Compared {
    /// A piece of both, and what stands behind it.
    pub fn then(self, behind: Compared) -> Compared
        ensures { (xs ys zs ws : List ℕ) → IsApart self xs ys → IsCompared behind zs ws
            → IsCompared result (xs ++ zs) (ys ++ ws) }
    {
        Compared {
            len: self.len.saturating_add(behind.len),
            other: self.other.saturating_add(behind.other),
            order: self.order.then(behind.order),
        }
    }
}

/// Identifier, length and contents that compare so.
pub(crate) fn whole(tag: Tag, contents: Compared) -> Compared
    ensures { (constructed : Bool) (xs ys : List ℕ) → IsCompared contents xs ys
        → IsApart result (definite constructed tag xs) (definite constructed tag ys) }
{
    Compared {
        len: definite_len(tag, contents.len),
        other: definite_len(tag, contents.other),
        order: behind_tag(contents),
    }
}

/// How lengths and contents compare: contents that have one length by their octets, others by their
/// lengths.
fn behind_tag(contents: Compared) -> Ordering
    ensures { (xs ys : List ℕ) → IsCompared contents xs ys
        → length xs < 2 ^ 64 → length ys < 2 ^ 64
        → Decides result (length_octets (length xs) ++ xs) (length_octets (length ys) ++ ys) }
{
    if contents.len == contents.other {
        contents.order
    } else {
        lengths_compared(contents.len, contents.other)
    }
}

pub(crate) fn truths_compared(tag: Tag, a: &Val, b: &Val) -> Option<Compared>
    ensures { IfSome result (λ c. IsApart c (definite false tag (boolean_contents a.now))
        (definite false tag (boolean_contents b.now))) }
{
    let octet = boolean_in(a)?;
    let other = boolean_in(b)?;
    Some(whole(tag, strings_compared(&[octet], &[other])))
}

pub(crate) fn integers_compared(tag: Tag, a: &Val, b: &Val) -> Option<Compared>
    ensures { IfSome result (λ c. IsApart c (definite false tag (integer_contents a.now))
        (definite false tag (integer_contents b.now))) }
{
    let number = integer_in(a)?;
    let other = integer_in(b)?;
    Some(whole(tag, numbers_compared(number, other)))
}

pub(crate) fn octet_strings_compared(tag: Tag, a: &Val, b: &Val) -> Option<Compared>
    ensures { IfSome result (λ c. IsApart c (definite false tag (octets_contents a.now))
        (definite false tag (octets_contents b.now))) }
{
    let octets = octets_in(a)?;
    let others = octets_in(b)?;
    Some(whole(tag, strings_compared(octets, others)))
}

pub(crate) fn texts_compared(tag: Tag, a: &Val, b: &Val) -> Option<Compared>
    ensures { IfSome result (λ c. IsApart c (definite false tag (text_contents a.now))
        (definite false tag (text_contents b.now))) }
{
    let octets = text_in(a)?;
    let others = text_in(b)?;
    Some(whole(tag, strings_compared(octets, others)))
}

/// Of BIT STRINGs: how many bits are unused stands first (X.690 8.6.2).
pub(crate) fn bit_strings_compared(tag: Tag, a: &Val, b: &Val) -> Option<Compared>
    ensures { IfSome result (λ c. IsApart c (definite false tag (bits_contents a.now))
        (definite false tag (bits_contents b.now))) }
{
    let (unused, octets) = bits_in(a)?;
    let (other, others) = bits_in(b)?;
    Some(whole(tag, segments_compared(unused, octets, other, others)))
}

fn segments_compared(unused: u8, octets: &[u8], other: u8, others: &[u8]) -> Compared
    ensures { IsCompared result (unused ∷ octets.now) (other ∷ others.now) }
{
    let first = Compared {
        len: 1,
        other: 1,
        order: unused.cmp(&other),
    };
    first.then(strings_compared(octets, others))
}

pub(crate) fn object_ids_compared(tag: Tag, a: &Val, b: &Val) -> Option<Compared>
    ensures { IfSome result (λ c. IsApart c (definite false tag (object_id_contents a.now))
        (definite false tag (object_id_contents b.now))) }
{
    let arcs = object_id_in(a)?;
    let others = object_id_in(b)?;
    let contents = Compared {
        len: arcs_len(arcs),
        other: arcs_len(others),
        order: arcs_compared(arcs, others)?,
    };
    Some(whole(tag, contents))
}

/// Of OBJECT IDENTIFIERs: the first two arcs are one subidentifier (X.690 8.19).
fn arcs_compared(a: &[u32], b: &[u32]) -> Option<Ordering>
    ensures { IfSome result (λ order. order ≡ compared (flat_map base_128 (subidentifiers a.now))
        (flat_map base_128 (subidentifiers b.now))) }
{
    if a.len() < 2 || b.len() < 2 {
        return None;
    }
    let first = digits_compared(
        40 * a[0] as u64 + a[1] as u64,
        40 * b[0] as u64 + b[1] as u64,
    );
    Some(first.then(each_compared(&a[2..], &b[2..])))
}

/// How numbers in base 128, one behind the other, compare.
fn each_compared(numbers: &[u32], others: &[u32]) -> Ordering
    ensures { result ≡ compared (flat_map base_128 numbers.now) (flat_map base_128 others.now) }
{
    let mut order = numbers.len().cmp(&others.len());
    let mut index = numbers.len().min(others.len());
    while index > 0 {
        index -= 1;
        order = digits_compared(numbers[index] as u64, others[index] as u64).then(order);
    }
    order
}

/// Of any one value. Whole values are never one the beginning of the other.
pub(crate) fn any_compared(tag: Option<Tag>, a: &Val, b: &Val) -> Option<Compared>
    ensures { IfSome result (λ c. IsApart c (under any_written tag a.now)
        (under any_written tag b.now)) }
{
    let octets = any_in(a)?;
    let others = any_in(b)?;
    match tag {
        None => apart(octets, others),
        Some(tag) => Some(whole(tag, strings_compared(octets, others))),
    }
}

/// How octets compare of which neither begin the others.
fn apart(a: &[u8], b: &[u8]) -> Option<Compared>
    ensures { IfSome result (λ c. IsApart c a.now b.now) }
{
    if a.len() == b.len() {
        return Some(strings_compared(a, b));
    }
    for index in 0..a.len().min(b.len()) {
        if a[index] != b[index] {
            return Some(strings_compared(a, b));
        }
    }
    None
}

/// How octets compare of which one lot has none, by their lengths.
pub(crate) fn one_alone(len: u64, other: u64) -> Compared
    ensures { (xs ys : List ℕ) → len ≡ saturated (length xs) → other ≡ saturated (length ys)
        → (xs ≡ []) ⊎ (ys ≡ []) → IsCompared result xs ys }
{
    Compared {
        len,
        other,
        order: len.cmp(&other),
    }
}

/// How octets compare by what they begin with; `None` where these are alike, or not known.
pub(crate) fn leads_compared(a: Lead, b: Lead) -> Option<Ordering>
    ensures { IfSome result (λ order. (xs ys : List ℕ) → LeadsOr a xs → LeadsOr b ys
        → compared xs ys ≡ order) }
{
    match (a, b) {
        (Lead::Nothing, Lead::Nothing) => Some(Ordering::Equal),
        (Lead::Identifier(_), Lead::Nothing) => Some(Ordering::Greater),
        (Lead::Nothing, Lead::Identifier(_)) => Some(Ordering::Less),
        (Lead::Identifier(a), Lead::Identifier(b)) => {
            let order = heads_compared(a, b);
            if order.is_eq() { None } else { Some(order) }
        }
        _ => None,
    }
}
