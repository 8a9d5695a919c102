//! How faults and refusals print that tell a place or a number.

ghost use Rattle.std.specs.Prelude.{◌≡◌, Some};
ghost use Rattle.osi_base.specs.Printed.{fault_at_text, kind_word, numbered_text};

use crate::layer_words::Kind;
use std::fmt;

/// A cause, and the octet at which it stands; prints as `Tag at octet 12`.
#[derive(Clone, Copy, Debug, PartialEq, Eq)]
pub struct FaultAt {
    /// What is wrong there.
    pub cause: &'static str,
    /// The place, counted in octets from 0.
    pub place: u64,
}

impl FaultAt {
    /// A field that breaks its rule in this way, at this octet.
    pub fn field(kind: Kind, place: usize) -> FaultAt
        ensures cause { result.cause.now ≡ kind_word kind }
        ensures place { result.place ≡ place }
    {
        FaultAt {
            cause: kind.word(),
            place: place as u64,
        }
    }
}

impl fmt::Display for FaultAt {
    ghost output = { λ fault. Some (fault_at_text fault.cause.now fault.place) };

    fn fmt<W: fmt::Write>(&self, f: &mut fmt::Formatter<W>) -> fmt::Result {
        write!(f, "{} at octet {}", self.cause, self.place)
    }
}

/// A word, and the number that comes with it, if any does; prints as `Absent 5`.
#[derive(Clone, Copy, Debug, PartialEq, Eq)]
pub struct WordWithNumber {
    /// A name of what is told, such as `Absent`.
    pub word: &'static str,
    /// What the name speaks of: an identifier, or the number of a reason.
    pub number: Option<i64>,
}

impl fmt::Display for WordWithNumber {
    ghost output = { λ named. Some (numbered_text named.word.now named.number) };

    fn fmt<W: fmt::Write>(&self, f: &mut fmt::Formatter<W>) -> fmt::Result {
        match self.number {
            Some(number) => write!(f, "{} {number}", self.word),
            None => f.write_str(self.word),
        }
    }
}
