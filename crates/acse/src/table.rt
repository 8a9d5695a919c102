//! The fixed table of the APDUs of association control.

ghost use Rattle.std.specs.Prelude.{◌≡◌, Some, IfOk, slice_get, false};
ghost use Rattle.asn1_types.specs.declared.row.Class.TheVariants.{Application as application};
ghost use Rattle.asn1_types.specs.declared.row.TypeRow.TheVariants as row;
ghost use Rattle.acse.specs.Rows.{acse_rows};

use asn1_types::{Class, Parts, TypeId, TypeRow, TypeTable};
use fixed_tables::{explicit, implicit, parts, table_of, tagged};
use osi_base::NoMemory;
use std::alloc::Global;
use std::marker::Model;

/// The row of all APDUs.
pub(crate) const APDU: TypeId = TypeId(30);

/// The fixed table of the APDUs of association control (X.227 9).
#[derive(Drop)]
pub struct AcseTable {
    pub(crate) types: TypeTable,
}

impl Model for AcseTable {
    ghost use Rattle.std.specs.Prelude.{◌≡◌};
    ghost use Rattle.acse.specs.Rows.{acse_rows};

    ghost Value = { Unit {0} };

    ghost view = { λ table. tt };

    ghost invariant = { λ table. table.types ≡ acse_rows };
}

/// The parts of user information.
fn external_parts(alloc: Global) -> Result<Parts, NoMemory>
    ensures { IfOk result (λ parts. slice_get acse_rows 8 ≡ Some (row.Sequence parts)) }
{
    parts(alloc, &[("identifier", 0, false), ("value", 7, false)])
}

/// The parts of an AARQ.
fn request_parts(alloc: Global) -> Result<Parts, NoMemory>
    ensures { IfOk result (λ parts. slice_get acse_rows 14 ≡ Some (row.Sequence parts)) }
{
    parts(
        alloc,
        &[
            ("version", 12, true),
            ("context", 13, false),
            ("user", 11, true),
        ],
    )
}

/// The two kinds of diagnostics.
fn diagnostic_parts(alloc: Global) -> Result<Parts, NoMemory>
    ensures { IfOk result (λ parts. slice_get acse_rows 19 ≡ Some (row.Choice parts)) }
{
    parts(alloc, &[("user", 17, false), ("provider", 18, false)])
}

/// The parts of an AARE.
fn response_parts(alloc: Global) -> Result<Parts, NoMemory>
    ensures { IfOk result (λ parts. slice_get acse_rows 21 ≡ Some (row.Sequence parts)) }
{
    parts(
        alloc,
        &[
            ("context", 13, false),
            ("result", 16, false),
            ("diagnostic", 20, false),
            ("user", 11, true),
        ],
    )
}

/// The parts of an RLRQ and of an RLRE.
fn release_parts(alloc: Global) -> Result<Parts, NoMemory>
    ensures { IfOk result (λ parts. slice_get acse_rows 24 ≡ Some (row.Sequence parts)) }
{
    parts(alloc, &[("reason", 23, true)])
}

/// The parts of an ABRT.
fn abort_parts(alloc: Global) -> Result<Parts, NoMemory>
    ensures { IfOk result (λ parts. slice_get acse_rows 28 ≡ Some (row.Sequence parts)) }
{
    parts(alloc, &[("source", 27, false), ("user", 11, true)])
}

/// The kinds of APDUs.
fn apdu_parts(alloc: Global) -> Result<Parts, NoMemory>
    ensures { IfOk result (λ parts. slice_get acse_rows 30 ≡ Some (row.Choice parts)) }
{
    parts(
        alloc,
        &[
            ("AARQ", 15, false),
            ("AARE", 22, false),
            ("RLRQ", 25, false),
            ("RLRE", 26, false),
            ("ABRT", 29, false),
        ],
    )
}

/// The tag of an APDU in the place of a row's own.
fn apdu(number: u32, inner: u32) -> TypeRow
    ensures { result ≡ row.Tagged application number false (record { 0 = inner }) }
{
    tagged(Class::Application, number, false, inner)
}

/// All rows.
fn rows(alloc: Global) -> Result<Vec<TypeRow>, NoMemory>
    ensures { IfOk result (λ rows. rows.items ≡ acse_rows) }
{
    let external = external_parts(alloc)?;
    let request = request_parts(alloc)?;
    let diagnostic = diagnostic_parts(alloc)?;
    let response = response_parts(alloc)?;
    let release = release_parts(alloc)?;
    let abort = abort_parts(alloc)?;
    let kinds = apdu_parts(alloc)?;
    Ok(vec![in alloc;
        TypeRow::Integer {
            low: 1,
            high: 32_767
        },
        TypeRow::ObjectId,
        TypeRow::BitString,
        TypeRow::Any,
        TypeRow::Integer {
            low: i64::MIN,
            high: i64::MAX
        },
        TypeRow::Integer { low: 0, high: 2 },
        TypeRow::Integer { low: 0, high: 1 },
        explicit(0, 3),
        TypeRow::Sequence(external),
        tagged(Class::Universal, 8, false, 8),
        TypeRow::SequenceOf(TypeId(9)),
        implicit(30, 10),
        implicit(0, 2),
        explicit(1, 1),
        TypeRow::Sequence(request),
        apdu(0, 14),
        explicit(2, 5),
        explicit(1, 4),
        explicit(2, 4),
        TypeRow::Choice(diagnostic),
        explicit(3, 19),
        TypeRow::Sequence(response),
        apdu(1, 21),
        implicit(0, 4),
        TypeRow::Sequence(release),
        apdu(2, 24),
        apdu(3, 24),
        implicit(0, 6),
        TypeRow::Sequence(abort),
        apdu(4, 28),
        TypeRow::Choice(kinds),
    ]?)
}

impl AcseTable {
    /// The fixed table, which only want of memory can refuse.
    #[tactic(auto, using(crate::proofs::Added::acse_rows_added))]
    pub fn new(alloc: Global) -> Result<AcseTable, NoMemory> {
        Ok(AcseTable {
            types: table_of(alloc, rows(alloc)?)?,
        })
    }
}
