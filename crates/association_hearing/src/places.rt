//! Operations and errors with a code: at the place where one was found before, or looked up.

ghost use Rattle.std.specs.Prelude.{◌≡◌, Some, IsTrue};
ghost use Rattle.stub_tables.specs.Lookup as lookup;

use stub_tables::{Code, Tables};

/// Whether the operation at this place has the code.
#[tactic(auto, using(crate::proofs::Codes::operation_found))]
fn is_operation_at(tables: &Tables, code: &Code, place: u32) -> bool
    ensures { IsTrue result → lookup.operation_with tables.now code.now ≡ Some place }
{
    match tables.operation(place) {
        None => false,
        Some(operation) => operation.code.is(code),
    }
}

/// Whether the error at this place has the code.
#[tactic(auto, using(crate::proofs::Codes::error_found))]
fn is_error_at(tables: &Tables, code: &Code, place: u32) -> bool
    ensures { IsTrue result → lookup.error_with tables.now code.now ≡ Some place }
{
    match tables.error(place) {
        None => false,
        Some(error) => error.code.is(code),
    }
}

/// The place of the operation with a code, which is looked up unless the operation at the place
/// that is given has it.
pub(crate) fn operation_with(tables: &Tables, code: &Code, place: Option<u32>) -> Option<u32>
    ensures { result ≡ lookup.operation_with tables.now code.now }
{
    if let Some(place) = place {
        if is_operation_at(tables, code, place) {
            return Some(place);
        }
    }
    tables.operation_with(code)
}

/// The place of the error with a code, which is looked up unless the error at the place that is
/// given has it.
pub(crate) fn error_with(tables: &Tables, code: &Code, place: Option<u32>) -> Option<u32>
    ensures { result ≡ lookup.error_with tables.now code.now }
{
    if let Some(place) = place {
        if is_error_at(tables, code, place) {
            return Some(place);
        }
    }
    tables.error_with(code)
}
