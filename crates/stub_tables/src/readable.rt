//! That what is written by tables can be read by them.

ghost use Rattle.std.specs.Prelude.{◌≡◌, true};
ghost use Rattle.std.specs.List.{list_all};
ghost use Rattle.asn1_types.specs.Fits.{has_32_bits};
ghost use Rattle.stub_tables.specs.Readable.{code_fits};

use crate::operation::{Code, ErrorRow, Operation};
use crate::tables::Tables;

/// Arcs have 32 bits.
fn arcs_fit(arcs: &[u32])
    ensures { list_all has_32_bits arcs.now ≡ true }
{}

/// A local code has 64 bits, and a global one is an object identifier.
fn code_fits(code: &Code)
    ensures { code_fits code.now ≡ true }
{
    match code {
        Code::Local(number) => {
            let _number = *number;
        }
        Code::Global(oid) => arcs_fit(oid.arcs()),
    }
}

fn operations_fit(operations: &[Operation])
    ensures { list_all (λ o. code_fits o.code) operations.now ≡ true }
{
    for operation in operations {
        code_fits(&operation.code);
    }
}

fn errors_fit(errors: &[ErrorRow])
    ensures { list_all (λ e. code_fits e.code) errors.now ≡ true }
{
    for error in errors {
        code_fits(&error.code);
    }
}

impl Tables {
    ghost use Rattle.stub_tables.specs.Readable.{IsReadable};

    /// Does nothing. Its contract says that the types of the tables are sound, and their codes in
    /// the ranges in which codes are read, as they are in all tables.
    pub fn hold_readable(&self)
        ensures { IsReadable self.now }
    {
        let _rows = self.types.len();
        operations_fit(self.operations.as_slice());
        errors_fit(self.errors.as_slice());
    }
}
