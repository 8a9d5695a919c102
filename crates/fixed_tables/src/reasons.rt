//! A reason that stands alone in a SEQUENCE, as in a release or a refusal.

ghost use Rattle.std.specs.Prelude.{◌≡◌, IfOk};
ghost use Rattle.std.specs.Option.{option_copied};
ghost use Rattle.fixed_tables.specs.Reasons.{reason_in, reason_value};

use crate::making::{integer, sequence};
use crate::values::{number_or, part_in};
use asn1_types::Val;
use osi_base::NoMemory;
use std::alloc::Global;

/// The reason that a value says; 0 where there is none.
pub fn reason_in(value: Option<&Val>) -> i64
    ensures { result ≡ reason_in (option_copied value.entry) }
{
    number_or(part_in(0, value), 0)
}

/// The value that says a reason.
pub fn reason_value(alloc: Global, reason: i64) -> Result<Val, NoMemory>
    ensures { IfOk result (λ v. v ≡ reason_value reason) }
{
    Ok(sequence(vec![in alloc; Some(integer(reason))]?))
}
