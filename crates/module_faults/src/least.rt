//! The least fault of those that are found.

ghost use Rattle.std.specs.Prelude.{◌≡◌, None, Some};
ghost use Rattle.module_faults.specs.Least.{rank, is_before, lesser, least_from, if_so, fault};

use crate::kind::TableKind;
use notation_tokens::Place;

/// A fault and its place.
#[derive(Clone, Copy, Debug, PartialEq, Eq)]
pub struct Found {
    /// Where the fault stands in the text.
    pub place: Place,
    /// The kind of the fault.
    pub kind: TableKind,
}

/// The order of kinds at one token.
fn rank(kind: TableKind) -> u8
    ensures { result ≡ rank kind }
{
    match kind {
        TableKind::UnknownName => 0,
        TableKind::NotOperation => 1,
        TableKind::NotError => 2,
        TableKind::DoubleName => 3,
        TableKind::DoubleCode => 4,
        TableKind::NoCode => 5,
        TableKind::Recursive => 6,
        TableKind::TooNested => 7,
        TableKind::TagsNotDistinct => 8,
        TableKind::BadRange => 9,
        TableKind::Contradiction => 10,
        TableKind::BadDefault => 11,
    }
}

/// Whether a fault comes before another: by line, column and the order of kinds.
fn is_before(a: Found, b: Found) -> bool
    ensures { result ≡ is_before a b }
{
    if a.place.line != b.place.line {
        a.place.line < b.place.line
    } else if a.place.column != b.place.column {
        a.place.column < b.place.column
    } else {
        rank(a.kind) < rank(b.kind)
    }
}

/// The least fault so far.
#[derive(Clone, Copy)]
pub(crate) struct Least {
    pub found: Option<Found>,
}

impl Least {
    /// No fault so far.
    pub fn new() -> Least
        ensures { result.found ≡ None }
    {
        Least { found: None }
    }

    /// One more fault.
    fn note(&mut self, fault: Found)
        ensures { self.new.found ≡ lesser self.old.found fault }
    {
        match self.found {
            Some(found) if !is_before(fault, found) => {}
            _ => self.found = Some(fault),
        }
    }

    /// A fault of this kind at a line and column, where there is one.
    #[tactic(auto, unfolding(crate::specs::Least::least_from))]
    pub fn note_if(&mut self, is_so: bool, line: u32, column: u32, kind: TableKind)
        ensures { self.new.found ≡ least_from self.old.found
            (if_so is_so (fault line column kind)) }
    {
        if is_so {
            self.note(Found {
                place: Place { line, column },
                kind,
            });
        }
    }
}
