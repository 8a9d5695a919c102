//! The types of the fields that have a spelling of their own in the packed syntax.

ghost use Rattle.std.specs.Prelude.{◌≡◌, IfOk};
ghost use Rattle.table_file.specs.FieldTypes.{field_types};

use asn1_types::{RowRefusal, TypeId, TypeRow, TypeTable};
use osi_base::NoMemory;
use std::alloc::Global;

/// The type INTEGER.
pub(crate) const INTEGER: TypeId = TypeId(0);

/// The type OBJECT IDENTIFIER.
pub(crate) const OBJECT_ID: TypeId = TypeId(1);

/// INTEGER and OBJECT IDENTIFIER, as a table of types.
pub(crate) fn field_types(alloc: Global) -> Result<TypeTable, NoMemory>
    ensures { IfOk result (λ types. types ≡ field_types) }
{
    let mut types = TypeTable::new(alloc);
    let integer = TypeRow::Integer {
        low: i64::MIN,
        high: i64::MAX,
    };
    if types.add(integer).is_err() {
        return Err(NoMemory);
    }
    if types.add(TypeRow::ObjectId).is_err() {
        return Err(NoMemory);
    }
    Ok(types)
}
