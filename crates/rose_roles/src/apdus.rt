//! The APDUs that calls send (X.882 9).

ghost use Rattle.std.specs.Prelude.{◌≡◌, IfOk};
ghost use Rattle.end_wire.specs.end_rules.Invoking.{invoke_apdu, result_apdu, error_apdu};

use asn1_types::Val;
use osi_base::{Copied, NoMemory};
use std::alloc::Global;
use stub_tables::{Apdu, ErrorRow, Operation, Returned};

/// The APDU of an invocation.
pub fn invoke_apdu(
    alloc: Global,
    operation: &Operation,
    id: i64,
    linked: Option<i64>,
    argument: &Option<Val>,
) -> Result<Apdu, NoMemory>
    ensures { IfOk result (λ apdu. apdu ≡ invoke_apdu operation.now id linked argument.now) }
{
    Ok(Apdu::Invoke {
        id,
        linked,
        code: operation.code.copy(alloc)?,
        argument: argument.copy(alloc)?,
    })
}

/// The APDU of a result.
pub fn result_apdu(
    alloc: Global,
    operation: &Operation,
    id: &i64,
    value: &Option<Val>,
) -> Result<Apdu, NoMemory>
    ensures { IfOk result (λ apdu. apdu ≡ result_apdu operation.now id.now value.now) }
{
    let returned = match value {
        None => None,
        Some(value) => Some(Returned {
            code: operation.code.copy(alloc)?,
            value: value.copy(alloc)?,
        }),
    };
    Ok(Apdu::Result { id: *id, returned })
}

/// The APDU of an error.
pub fn error_apdu(
    alloc: Global,
    error: &ErrorRow,
    id: &i64,
    parameter: &Option<Val>,
) -> Result<Apdu, NoMemory>
    ensures { IfOk result (λ apdu. apdu ≡ error_apdu error.now id.now parameter.now) }
{
    Ok(Apdu::Error {
        id: *id,
        code: error.code.copy(alloc)?,
        parameter: parameter.copy(alloc)?,
    })
}
