//! Where reading stands, and what it stands in.

use asn1_types::{Class, TextKind};
use osi_base::Octets;

/// A place in the octets, and what stands from there on.
#[derive(Clone, Copy)]
pub struct Spot<'a> {
    /// Its place, counted from 0.
    pub place: usize,
    /// The octets from there on.
    pub rest: &'a [u8],
}

/// What encloses a field.
#[derive(Clone, Copy)]
pub struct Scope {
    /// How many levels may still be opened.
    pub levels: u32,
    /// How many octets the whole value may have.
    pub limit: u32,
    /// Where the enclosing contents of definite length end, if there are any.
    pub end: Option<usize>,
    /// The contents end at end-of-contents octets, and not at `end`.
    pub marked: bool,
    /// Whether only DER is taken, and not all of BER.
    pub strict: bool,
}

/// An identifier that was read (X.690 8.1.2). A number past 32 bits is kept as 2 ^ 32.
#[derive(Clone, Copy)]
pub struct Opened<'a> {
    /// Where the identifier begins.
    pub start: Spot<'a>,
    /// The tag's class.
    pub class: Class,
    /// Whether the contents are values of their own, and not octets.
    pub constructed: bool,
    /// The tag's number.
    pub number: u64,
}

/// What stands next in contents.
#[derive(Clone, Copy)]
pub enum Ahead<'a> {
    /// The contents end at this place, and reading goes on behind their end.
    Ended { place: usize, after: Spot<'a> },
    /// A value begins with this identifier, and goes on here.
    Begun(Opened<'a>, Spot<'a>),
}

/// Strings whose segments are octets (OCTET STRING and texts), or bits.
#[derive(Clone, Copy)]
pub enum StringKind {
    /// Segments of octets.
    OfOctets,
    /// Segments of bits.
    OfBits,
}

/// What the contents of a string must be.
#[derive(Clone, Copy)]
pub enum StringRule {
    /// At most this many octets.
    Octets { most: u32 },
    /// Characters of this kind.
    Text(TextKind),
    /// Bits.
    Bits,
}

/// What the segments of a string have together.
#[derive(Drop)]
pub struct Gathered {
    /// The octets of all segments, one behind the other.
    pub octets: Octets,
    /// How many bits of the last octet are unused.
    pub unused: u8,
    /// A segment stands behind one with unused bits.
    pub spoiled: bool,
}
