//! The rows of a module that have codes: each is found by its code without a walk over the others.

ghost use Rattle.std.specs.Prelude.{◌≡◌, ◌++◌, ◌∷◌, [], OnOk, OnErr, length, slice_get, ◌<◌, IfSome};
ghost use Rattle.std.specs.Option.{option_copied};
ghost use Rattle.stub_tables.specs.Codes.{place_with};

use crate::code_places::CodePlaces;
use crate::operation::{Code, ErrorRow, Operation};
use osi_base::NoMemory;
use std::alloc::Global;
use std::marker::Model;

/// The operations of a module, in the order of its text.
#[derive(Debug, Drop)]
pub struct Operations {
    rows: Vec<Operation>,
    places: CodePlaces,
}

impl Model for Operations {
    ghost use Rattle.std.specs.Prelude.{List};
    ghost use Rattle.stub_tables.specs.declared.operation.Operation.{Operation};

    ghost Value = { List Operation };

    ghost use Rattle.stub_tables.specs.Places.{ArePlaces};

    ghost view = { λ o. o.rows.items };

    ghost invariant = { λ o. ArePlaces (λ r. r.code) o.rows.items o.places };
}

impl Operations {
    /// No operations.
    pub fn new(alloc: Global) -> Operations
        ensures { result ≡ [] }
    {
        Operations {
            rows: Vec::new(alloc),
            places: CodePlaces::new(alloc),
        }
    }

    /// The operations as a slice.
    pub fn as_slice(&self) -> &[Operation]
        ensures { result.now ≡ self.now }
    {
        self.rows.as_slice()
    }

    /// The operation at this place, counted from 0.
    pub fn get(&self, place: usize) -> Option<&Operation>
        ensures { option_copied result ≡ slice_get self.now place }
    {
        self.rows.get(place)
    }

    /// How many operations there are.
    pub fn len(&self) -> usize
        ensures { result ≡ length self.now }
    {
        self.rows.len()
    }

    /// The place of the first operation with this code.
    pub fn place(&self, code: &Code) -> Option<usize>
        ensures place { result ≡ place_with (λ o. o.code) code.now self.now }
        ensures bound { IfSome result (λ place. place < length self.now) }
    {
        self.places.place(code)
    }

    /// Puts one more operation at the end.
    pub fn push(&mut self, row: Operation) -> Result<(), NoMemory>
        ensures ok { OnOk result (self.new ≡ self.old ++ row ∷ []) }
        ensures err { OnErr result (self.new ≡ self.old) }
    {
        self.rows.reserve(1)?;
        self.places.put(&row.code, self.rows.len())?;
        self.rows.push_reserved(row);
        Ok(())
    }
}

/// The errors of a module, in the order of its text.
#[derive(Debug, Drop)]
pub struct ErrorRows {
    rows: Vec<ErrorRow>,
    places: CodePlaces,
}

impl Model for ErrorRows {
    ghost use Rattle.std.specs.Prelude.{List};
    ghost use Rattle.stub_tables.specs.declared.operation.ErrorRow.{ErrorRow};

    ghost Value = { List ErrorRow };

    ghost use Rattle.stub_tables.specs.Places.{ArePlaces};

    ghost view = { λ e. e.rows.items };

    ghost invariant = { λ e. ArePlaces (λ r. r.code) e.rows.items e.places };
}

impl ErrorRows {
    /// No errors.
    pub fn new(alloc: Global) -> ErrorRows
        ensures { result ≡ [] }
    {
        ErrorRows {
            rows: Vec::new(alloc),
            places: CodePlaces::new(alloc),
        }
    }

    /// The errors as a slice.
    pub fn as_slice(&self) -> &[ErrorRow]
        ensures { result.now ≡ self.now }
    {
        self.rows.as_slice()
    }

    /// The error at this place, counted from 0.
    pub fn get(&self, place: usize) -> Option<&ErrorRow>
        ensures { option_copied result ≡ slice_get self.now place }
    {
        self.rows.get(place)
    }

    /// How many errors there are.
    pub fn len(&self) -> usize
        ensures { result ≡ length self.now }
    {
        self.rows.len()
    }

    /// The place of the first error with this code.
    pub fn place(&self, code: &Code) -> Option<usize>
        ensures place { result ≡ place_with (λ e. e.code) code.now self.now }
        ensures bound { IfSome result (λ place. place < length self.now) }
    {
        self.places.place(code)
    }

    /// Puts one more error at the end.
    pub fn push(&mut self, row: ErrorRow) -> Result<(), NoMemory>
        ensures ok { OnOk result (self.new ≡ self.old ++ row ∷ []) }
        ensures err { OnErr result (self.new ≡ self.old) }
    {
        self.rows.reserve(1)?;
        self.places.put(&row.code, self.rows.len())?;
        self.rows.push_reserved(row);
        Ok(())
    }
}
