//! Operations and errors of a module (X.880 8).

ghost use Rattle.std.specs.Prelude.{◌≡◌};

use asn1_types::{TypeId, TypeTable, Val};
use ber_writing::fits;
use osi_base::{Copied, Indices, Name, NoMemory, Oid};
use std::alloc::Global;

/// What an operation or an error carries: a value of a type, or nothing.
#[derive(Clone, Copy, Debug, PartialEq, Eq)]
pub struct Use {
    /// The type of the value; `None` where no value is ever carried.
    pub inner: Option<TypeId>,
    /// Whether the value may be left out.
    pub optional: bool,
}

/// The code of an operation or an error (X.880 8.5).
#[derive(Debug, Drop)]
pub enum Code {
    /// A number that is meant in this abstract syntax alone.
    Local(i64),
    /// An object identifier.
    Global(Oid),
}

/// An operation (X.880 8.2).
#[derive(Debug, Drop)]
pub struct Operation {
    /// The operation's name.
    pub name: Name,
    /// Its code.
    pub code: Code,
    /// The value that an invocation carries.
    pub argument: Use,
    /// The value that a result carries.
    pub result: Use,
    /// Whether a result is ever returned.
    pub returns: bool,
    /// Whether each invocation gets an outcome.
    pub always: bool,
    /// The errors that it may answer, as places in the table of errors.
    pub errors: Indices,
    /// The operations that may be linked to it, as places in the table of operations.
    pub linked: Indices,
}

/// An error (X.880 8.3).
#[derive(Debug, Drop)]
pub struct ErrorRow {
    /// The error's name.
    pub name: Name,
    /// Its code.
    pub code: Code,
    /// The value that the error carries.
    pub parameter: Use,
}

impl Copied for Code {
    fn copy(&self, alloc: Global) -> Result<Code, NoMemory> {
        match self {
            Code::Local(number) => Ok(Code::Local(*number)),
            Code::Global(oid) => Ok(Code::Global(oid.copy(alloc)?)),
        }
    }
}

impl Code {
    ghost use Rattle.stub_tables.specs.Codes.{same_code};

    /// Whether the two are one code.
    pub fn is(&self, other: &Code) -> bool
        ensures { result ≡ same_code self.now other.now }
    {
        match (self, other) {
            (Code::Local(a), Code::Local(b)) => *a == *b,
            (Code::Global(a), Code::Global(b)) => a.is(b),
            _ => false,
        }
    }
}

impl Operation {
    ghost use Rattle.stub_tables.specs.Codes.{is_silent, is_error_of};

    /// Whether an invocation of it never gets an outcome: it returns no result and no error.
    pub fn is_silent(&self) -> bool
        ensures { result ≡ is_silent self.now }
    {
        !self.returns && self.errors.len() == 0
    }

    /// Whether the error at this place of the table is one of its errors.
    pub fn has_error(&self, place: u32) -> bool
        ensures { result ≡ is_error_of self.now place }
    {
        self.errors.as_slice().iter().any(|error| *error == place)
    }
}

impl Use {
    ghost use Rattle.stub_tables.specs.Uses.{may_lack, is_carried};

    /// Whether nothing may be carried there.
    pub fn may_lack(&self) -> bool
        ensures { result ≡ may_lack self.now.inner self.now.optional }
    {
        self.inner.is_none() || self.optional
    }

    /// Whether the value, or its lack, is one that is carried there.
    pub fn carries(&self, types: &TypeTable, value: &Option<Val>) -> bool
        ensures { result ≡ is_carried types.now self.now value.now }
    {
        match (self.inner, value) {
            (None, None) => true,
            (None, Some(_)) => false,
            (Some(_), None) => self.optional,
            (Some(of), Some(value)) => fits(types, of, value),
        }
    }
}
