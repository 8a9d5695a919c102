//! Stubs of operations.

ghost use Rattle.std.specs.Prelude.{◌≡◌, ◌<◌, length, is_some, IfSome, Some, None};
ghost use Rattle.stub_tables.specs.Lookup.{operation_at};
ghost use Rattle.stubs.specs.Typed.{IsTyped};
ghost use Rattle.stubs.specs.Carried.{argument_of, result_of, parameter_of};

use crate::typed::{TypedVal, Unfit};
use crate::typing::typed;
use asn1_types::Val;
use stub_tables::{Operation, Tables, Use};

/// An operation of a module, for values that it may carry. Its calls take no memory.
#[derive(Clone, Copy)]
pub struct Stub<'t> {
    tables: &'t Tables,
    operation: u32,
    ghost is_there: { operation < length tables.now.operations },
}

/// Tables with stubs of their operations.
pub trait Stubs {
    /// The stub of the operation at this place; `None` exactly where there is none.
    fn stub(&self, operation: u32) -> Option<Stub<'_>>;
}

impl Stubs for Tables {
    fn stub(&self, operation: u32) -> Option<Stub<'_>>
        ensures there { is_some result ≡ is_some (operation_at self.now operation) }
        ensures stub { IfSome result (λ stub. (stub.tables.now ≡ self.now) ×
            (stub.operation ≡ operation)) }
    {
        if (operation as usize) < self.operations.len() {
            Some(Stub {
                tables: self,
                operation,
            })
        } else {
            None
        }
    }
}

impl<'t> Stub<'t> {
    /// Its operation.
    fn row(&self) -> &'t Operation
        ensures { operation_at self.now.tables.now self.now.operation ≡ Some result.now }
    {
        &self.tables.operations.as_slice()[self.operation as usize]
    }

    /// What may carry the parameter of the error at this place.
    fn parameter_use(&self, error: u32) -> Option<Use>
        ensures { result ≡ parameter_of self.now.tables.now self.now.operation error }
    {
        if !self.row().has_error(error) {
            return None;
        }
        match self.tables.error(error) {
            Some(row) => Some(row.parameter),
            None => None,
        }
    }

    /// A value, or its lack, as the operation's argument.
    ///
    /// # Errors
    ///
    /// `Unfit`, with the value, exactly where it doesn't fit.
    pub fn argument(&self, value: Option<Val>) -> Result<TypedVal<'t>, Unfit>
        ensures { IsTyped self.now.tables.now.types
            (argument_of self.now.tables.now self.now.operation) value result }
    {
        typed(&self.tables.types, Some(self.row().argument), value)
    }

    /// A value, or its lack, as the operation's result.
    ///
    /// # Errors
    ///
    /// `Unfit`, with the value, exactly where it doesn't fit or the operation returns no result.
    pub fn result(&self, value: Option<Val>) -> Result<TypedVal<'t>, Unfit>
        ensures { IsTyped self.now.tables.now.types
            (result_of self.now.tables.now self.now.operation) value result }
    {
        let row = self.row();
        let carried = if row.returns { Some(row.result) } else { None };
        typed(&self.tables.types, carried, value)
    }

    /// A value, or its lack, as the parameter of the error at this place.
    ///
    /// # Errors
    ///
    /// `Unfit`, with the value, exactly where it doesn't fit or the error isn't the operation's.
    pub fn error(&self, error: u32, value: Option<Val>) -> Result<TypedVal<'t>, Unfit>
        ensures { IsTyped self.now.tables.now.types
            (parameter_of self.now.tables.now self.now.operation error) value result }
    {
        typed(&self.tables.types, self.parameter_use(error), value)
    }
}
