//! The fixed table of the APDUs of reliable transfer.

ghost use Rattle.std.specs.Prelude.{◌≡◌, Some, IfOk, slice_get};
ghost use Rattle.asn1_types.specs.declared.row.TypeRow.TheVariants as row;
ghost use Rattle.rtse_apdus.specs.Rows.{rtse_rows};

use asn1_types::{Class, Parts, TypeId, TypeRow, TypeTable};
use fixed_tables::{explicit, implicit, parts, table_of, tagged};
use osi_base::NoMemory;
use std::alloc::Global;
use std::marker::Model;

/// The row of all APDUs.
pub(crate) const APDU: TypeId = TypeId(23);

/// The fixed table of the APDUs of reliable transfer (X.228 9).
#[derive(Drop)]
pub struct RtseTable {
    pub(crate) types: TypeTable,
}

impl Model for RtseTable {
    ghost use Rattle.std.specs.Prelude.{◌≡◌};
    ghost use Rattle.rtse_apdus.specs.Rows.{rtse_rows};

    ghost Value = { Unit {0} };

    ghost view = { λ table. tt };

    ghost invariant = { λ table. table.types ≡ rtse_rows };
}

/// The references of an association.
fn reference_parts(alloc: Global) -> Result<Parts, NoMemory>
    ensures { IfOk result (λ parts. slice_get rtse_rows 6 ≡ Some (row.Sequence parts)) }
{
    parts(alloc, &[("reference", 3, false), ("common", 5, false)])
}

/// The two kinds of connection data.
fn data_parts(alloc: Global) -> Result<Parts, NoMemory>
    ensures { IfOk result (λ parts. slice_get rtse_rows 9 ≡ Some (row.Choice parts)) }
{
    parts(alloc, &[("open", 7, false), ("recover", 8, false)])
}

/// The parts of an RTORQ.
fn request_parts(alloc: Global) -> Result<Parts, NoMemory>
    ensures { IfOk result (λ parts. slice_get rtse_rows 15 ≡ Some (row.Set parts)) }
{
    parts(
        alloc,
        &[
            ("checkpoint", 12, true),
            ("window", 13, true),
            ("mode", 14, true),
            ("data", 10, false),
        ],
    )
}

/// The parts of an RTOAC.
fn accept_parts(alloc: Global) -> Result<Parts, NoMemory>
    ensures { IfOk result (λ parts. slice_get rtse_rows 17 ≡ Some (row.Set parts)) }
{
    parts(
        alloc,
        &[
            ("checkpoint", 12, true),
            ("window", 13, true),
            ("data", 11, false),
        ],
    )
}

/// A reason alone.
fn reason_parts(alloc: Global) -> Result<Parts, NoMemory>
    ensures { IfOk result (λ parts. slice_get rtse_rows 20 ≡ Some (row.Set parts)) }
{
    parts(alloc, &[("reason", 19, false)])
}

/// The kinds of APDUs.
fn apdu_parts(alloc: Global) -> Result<Parts, NoMemory>
    ensures { IfOk result (λ parts. slice_get rtse_rows 23 ≡ Some (row.Choice parts)) }
{
    parts(
        alloc,
        &[
            ("openRequest", 16, false),
            ("openAccept", 18, false),
            ("openReject", 21, false),
            ("abort", 22, false),
            ("turnPlease", 2, false),
            ("transfer", 3, false),
        ],
    )
}

/// All rows.
fn rows(alloc: Global) -> Result<Vec<TypeRow>, NoMemory>
    ensures { IfOk result (λ rows. rows.items ≡ rtse_rows) }
{
    let reference = reference_parts(alloc)?;
    let data = data_parts(alloc)?;
    let request = request_parts(alloc)?;
    let accept = accept_parts(alloc)?;
    let reason = reason_parts(alloc)?;
    let kinds = apdu_parts(alloc)?;
    Ok(vec![in alloc;
        TypeRow::Integer { low: 0, high: 255 },
        TypeRow::Integer {
            low: i64::MIN,
            high: i64::MAX
        },
        TypeRow::Integer {
            low: 0,
            high: 4_294_967_295
        },
        TypeRow::OctetString { most: u32::MAX },
        TypeRow::Any,
        tagged(Class::Universal, 23, false, 3),
        TypeRow::Sequence(reference),
        explicit(0, 4),
        implicit(1, 6),
        TypeRow::Choice(data),
        explicit(3, 9),
        explicit(2, 9),
        implicit(0, 0),
        implicit(1, 0),
        implicit(2, 1),
        TypeRow::Set(request),
        implicit(16, 15),
        TypeRow::Set(accept),
        implicit(17, 17),
        implicit(0, 1),
        TypeRow::Set(reason),
        implicit(18, 20),
        implicit(22, 20),
        TypeRow::Choice(kinds),
    ]?)
}

impl RtseTable {
    /// The fixed table, which only want of memory can refuse.
    #[tactic(auto, using(crate::proofs::Added::rtse_rows_added))]
    pub fn new(alloc: Global) -> Result<RtseTable, NoMemory> {
        Ok(RtseTable {
            types: table_of(alloc, rows(alloc)?)?,
        })
    }
}
