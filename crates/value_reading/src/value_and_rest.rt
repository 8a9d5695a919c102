//! A value that stands first in a text, and the rest behind it.

use asn1_types::{Val, Vals};

/// A value that stands first in a text, and what follows it.
#[derive(Debug, Drop)]
pub struct ValueAndRest<'a> {
    /// The value.
    pub value: Val,
    /// The octets behind it.
    pub rest: &'a [u8],
}

/// The items of a list that stands first in a text, and what follows it.
#[derive(Debug, Drop)]
pub struct Items<'a> {
    /// The items, in the order of the text.
    pub values: Vals,
    /// The octets behind the list.
    pub rest: &'a [u8],
}
