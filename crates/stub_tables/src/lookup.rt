//! Look-ups in the tables of a module.

ghost use Rattle.std.specs.Prelude.{◌≡◌};
ghost use Rattle.std.specs.Option.{option_copied, option_map};

use crate::apdu::Apdu;
use crate::operation::{Code, ErrorRow, Operation, Use};
use crate::tables::Tables;

impl Tables {
    ghost use Rattle.stub_tables.specs.Lookup.{operation_at, error_at, operation_with, error_with};
    ghost use Rattle.stub_tables.specs.Apdus.{argument_of, result_of, parameter_of, operation_coded, error_coded, use_in};

    /// The operation at this place.
    pub fn operation(&self, place: u32) -> Option<&Operation>
        ensures { option_copied result ≡ operation_at self.now place }
    {
        self.operations.get(place as usize)
    }

    /// The error at this place.
    pub fn error(&self, place: u32) -> Option<&ErrorRow>
        ensures { option_copied result ≡ error_at self.now place }
    {
        self.errors.get(place as usize)
    }

    /// The place of the operation with this code.
    pub fn operation_with(&self, code: &Code) -> Option<u32>
        ensures { result ≡ operation_with self.now code.now }
    {
        match self.operations.place(code) {
            Some(place) => Some(place as u32),
            None => None,
        }
    }

    /// The place of the error with this code.
    pub fn error_with(&self, code: &Code) -> Option<u32>
        ensures { result ≡ error_with self.now code.now }
    {
        match self.errors.place(code) {
            Some(place) => Some(place as u32),
            None => None,
        }
    }

    /// How the argument of the operation with this code is used.
    pub fn argument_of(&self, code: &Code) -> Option<&Use>
        ensures { option_copied result ≡ option_map argument_of
            (operation_coded self.now code.now) }
    {
        match self.operation(self.operation_with(code)?) {
            Some(operation) => Some(&operation.argument),
            None => None,
        }
    }

    /// How the result of the operation with this code is used.
    pub fn result_of(&self, code: &Code) -> Option<&Use>
        ensures { option_copied result ≡ option_map result_of (operation_coded self.now code.now) }
    {
        match self.operation(self.operation_with(code)?) {
            Some(operation) => Some(&operation.result),
            None => None,
        }
    }

    /// How the parameter of the error with this code is used.
    pub fn parameter_of(&self, code: &Code) -> Option<&Use>
        ensures { option_copied result ≡ option_map parameter_of (error_coded self.now code.now) }
    {
        match self.error(self.error_with(code)?) {
            Some(error) => Some(&error.parameter),
            None => None,
        }
    }

    /// How the value that an APDU carries is used, by the code of its operation or error; `None`
    /// where it has no code, or one that no row has.
    pub fn use_in(&self, apdu: &Apdu) -> Option<Use>
        ensures { result ≡ use_in self.now apdu.now }
    {
        match apdu {
            Apdu::Invoke { code, .. } => self.argument_of(code).copied(),
            Apdu::Result { returned, .. } => match returned {
                Some(returned) => self.result_of(&returned.code).copied(),
                None => None,
            },
            Apdu::Error { code, .. } => self.parameter_of(code).copied(),
            Apdu::Reject { .. } => None,
        }
    }
}
