//! The tables of a module.

ghost use Rattle.std.specs.Prelude.{◌≡◌, ◌<◌, ◌^◌, length, IsTrue};
ghost use Rattle.stub_tables.specs.Codes.{have_own_codes};

use crate::rows::{ErrorRows, Operations};
use asn1_types::TypeTable;
use osi_base::{Name, Oid};

/// The tables of a module. No two of its operations have one code, and no two of its errors.
#[derive(Debug, Drop)]
pub struct Tables {
    /// The module's name.
    pub name: Name,
    /// The module's object identifier, which is the name of its abstract syntax.
    pub name_oid: Oid,
    /// The types, each a row.
    pub types: TypeTable,
    /// The operations, in the order of the module.
    pub operations: Operations,
    /// The errors, in the order of the module.
    pub errors: ErrorRows,
    ghost few_operations: { length operations < 2 ^ 32 },
    ghost few_errors: { length errors < 2 ^ 32 },
    ghost operation_codes: { IsTrue (have_own_codes (λ o. o.code) operations) },
    ghost error_codes: { IsTrue (have_own_codes (λ e. e.code) errors) },
}
