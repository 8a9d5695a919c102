//! Typing values.

ghost use Rattle.std.specs.Prelude.{◌≡◌};
ghost use Rattle.stubs.specs.Typed.{IsTyped};

use crate::typed::{TypedVal, Unfit};
use asn1_types::{TypeTable, Val};
use stub_tables::Use;

/// A value, or its lack, as what this carries; or given back, exactly where it doesn't fit or
/// nothing carries it.
pub(crate) fn typed(
    types: &TypeTable,
    carried: Option<Use>,
    value: Option<Val>,
) -> Result<TypedVal<'_>, Unfit>
    ensures { IsTyped types.now carried value result }
{
    match carried {
        Some(carried) if carried.carries(types, &value) => Ok(TypedVal {
            types,
            carried,
            value,
        }),
        _ => Err(Unfit { value }),
    }
}
