//! The fixed table of the heads of APDUs.

ghost use Rattle.std.specs.Prelude.{◌≡◌, take, drop, IfOk};
ghost use Rattle.apdu_spelling.specs.Rows as table;
ghost use Rattle.apdu_spelling.specs.Rows.{head_rows};

use asn1_types::{Parts, TypeId, TypeRow, TypeTable};
use fixed_tables::{implicit, joined_rows, parts, table_of};
use osi_base::NoMemory;
use std::alloc::Global;
use std::marker::Model;

/// The row of all APDUs in BER and DER.
pub(crate) const APDU: TypeId = TypeId(23);

/// The row of all heads in the packed syntax.
pub(crate) const PACKED_APDU: TypeId = TypeId(30);

/// The fixed table of the heads of APDUs (X.880 9, X.882 9), made once and used for each APDU.
#[derive(Drop)]
pub struct Heads {
    pub(crate) types: TypeTable,
}

impl Model for Heads {
    ghost use Rattle.std.specs.Prelude.{◌≡◌};
    ghost use Rattle.apdu_spelling.specs.Rows.{head_rows};

    ghost Value = { Unit {0} };

    ghost view = { λ heads. tt };

    ghost invariant = { λ heads. heads.types ≡ head_rows };
}

fn code_kinds(alloc: Global) -> Result<Parts, NoMemory>
    ensures { IfOk result (λ parts. parts ≡ table.code_kinds) }
{
    parts(alloc, &[("local", 1, false), ("global", 2, false)])
}

fn problem_kinds(alloc: Global) -> Result<Parts, NoMemory>
    ensures { IfOk result (λ parts. parts ≡ table.problem_kinds) }
{
    parts(
        alloc,
        &[
            ("general", 8, false),
            ("invoke", 9, false),
            ("returnResult", 10, false),
            ("returnError", 11, false),
        ],
    )
}

fn rejected_kinds(alloc: Global) -> Result<Parts, NoMemory>
    ensures { IfOk result (λ parts. parts ≡ table.rejected_kinds) }
{
    parts(alloc, &[("invokeId", 0, false), ("absent", 4, false)])
}

fn reject_parts(alloc: Global) -> Result<Parts, NoMemory>
    ensures { IfOk result (λ parts. parts ≡ table.reject_parts) }
{
    parts(alloc, &[("invokeId", 13, false), ("problem", 12, false)])
}

fn invoke_parts(alloc: Global) -> Result<Parts, NoMemory>
    ensures { IfOk result (λ parts. parts ≡ table.invoke_parts) }
{
    parts(
        alloc,
        &[
            ("invokeId", 0, false),
            ("linkedId", 7, true),
            ("opcode", 3, false),
            ("argument", 6, true),
        ],
    )
}

fn returned_parts(alloc: Global) -> Result<Parts, NoMemory>
    ensures { IfOk result (λ parts. parts ≡ table.returned_parts) }
{
    parts(alloc, &[("opcode", 3, false), ("result", 6, false)])
}

fn result_parts(alloc: Global) -> Result<Parts, NoMemory>
    ensures { IfOk result (λ parts. parts ≡ table.result_parts) }
{
    parts(alloc, &[("invokeId", 0, false), ("result", 18, true)])
}

fn error_parts(alloc: Global) -> Result<Parts, NoMemory>
    ensures { IfOk result (λ parts. parts ≡ table.error_parts) }
{
    parts(
        alloc,
        &[
            ("invokeId", 0, false),
            ("errcode", 3, false),
            ("parameter", 6, true),
        ],
    )
}

fn apdu_kinds(alloc: Global) -> Result<Parts, NoMemory>
    ensures { IfOk result (λ parts. parts ≡ table.apdu_kinds) }
{
    parts(
        alloc,
        &[
            ("invoke", 17, false),
            ("returnResult", 20, false),
            ("returnError", 22, false),
            ("reject", 15, false),
        ],
    )
}

fn packed_invoke_parts(alloc: Global) -> Result<Parts, NoMemory>
    ensures { IfOk result (λ parts. parts ≡ table.packed_invoke_parts) }
{
    parts(
        alloc,
        &[
            ("invokeId", 0, false),
            ("linkedId", 7, true),
            ("opcode", 3, false),
            ("argument", 5, false),
        ],
    )
}

fn packed_result_parts(alloc: Global) -> Result<Parts, NoMemory>
    ensures { IfOk result (λ parts. parts ≡ table.packed_result_parts) }
{
    parts(alloc, &[("invokeId", 0, false), ("opcode", 3, true)])
}

fn packed_error_parts(alloc: Global) -> Result<Parts, NoMemory>
    ensures { IfOk result (λ parts. parts ≡ table.packed_error_parts) }
{
    parts(
        alloc,
        &[
            ("invokeId", 0, false),
            ("errcode", 3, false),
            ("parameter", 5, false),
        ],
    )
}

fn packed_apdu_kinds(alloc: Global) -> Result<Parts, NoMemory>
    ensures { IfOk result (λ parts. parts ≡ table.packed_apdu_kinds) }
{
    parts(
        alloc,
        &[
            ("none", 4, false),
            ("invoke", 25, false),
            ("returnResult", 27, false),
            ("returnError", 29, false),
            ("reject", 15, false),
        ],
    )
}

/// Rows 0 to 15: identifiers, codes, problems and rejects.
fn common_rows(alloc: Global) -> Result<Vec<TypeRow>, NoMemory>
    ensures { IfOk result (λ rows. rows.items ≡ take 16 head_rows) }
{
    let codes = code_kinds(alloc)?;
    let problems = problem_kinds(alloc)?;
    let rejected = rejected_kinds(alloc)?;
    let reject = reject_parts(alloc)?;
    Ok(vec![in alloc;
        TypeRow::Integer {
            low: -2_147_483_648,
            high: 2_147_483_647
        },
        TypeRow::Integer {
            low: i64::MIN,
            high: i64::MAX
        },
        TypeRow::ObjectId,
        TypeRow::Choice(codes),
        TypeRow::Null,
        TypeRow::Boolean,
        TypeRow::Any,
        implicit(0, 0),
        implicit(0, 1),
        implicit(1, 1),
        implicit(2, 1),
        implicit(3, 1),
        TypeRow::Choice(problems),
        TypeRow::Choice(rejected),
        TypeRow::Sequence(reject),
        implicit(4, 14),
    ]?)
}

/// Rows 16 to 23: APDUs in BER and DER.
fn ber_rows(alloc: Global) -> Result<Vec<TypeRow>, NoMemory>
    ensures { IfOk result (λ rows. rows.items ≡ take 8 (drop 16 head_rows)) }
{
    let invoke = invoke_parts(alloc)?;
    let returned = returned_parts(alloc)?;
    let result = result_parts(alloc)?;
    let error = error_parts(alloc)?;
    let kinds = apdu_kinds(alloc)?;
    Ok(vec![in alloc;
        TypeRow::Sequence(invoke),
        implicit(1, 16),
        TypeRow::Sequence(returned),
        TypeRow::Sequence(result),
        implicit(2, 19),
        TypeRow::Sequence(error),
        implicit(3, 21),
        TypeRow::Choice(kinds),
    ]?)
}

/// Rows 24 to 30: heads in the packed syntax.
fn packed_rows(alloc: Global) -> Result<Vec<TypeRow>, NoMemory>
    ensures { IfOk result (λ rows. rows.items ≡ drop 24 head_rows) }
{
    let invoke = packed_invoke_parts(alloc)?;
    let result = packed_result_parts(alloc)?;
    let error = packed_error_parts(alloc)?;
    let kinds = packed_apdu_kinds(alloc)?;
    Ok(vec![in alloc;
        TypeRow::Sequence(invoke),
        implicit(1, 24),
        TypeRow::Sequence(result),
        implicit(2, 26),
        TypeRow::Sequence(error),
        implicit(3, 28),
        TypeRow::Choice(kinds),
    ]?)
}

/// All rows.
fn all_rows(alloc: Global) -> Result<Vec<TypeRow>, NoMemory>
    ensures { IfOk result (λ rows. rows.items ≡ head_rows) }
{
    let ber = joined_rows(common_rows(alloc)?, ber_rows(alloc)?)?;
    joined_rows(ber, packed_rows(alloc)?)
}

impl Heads {
    /// The fixed table of heads, which only want of memory can refuse.
    #[tactic(auto, using(crate::proofs::Added::head_rows_added))]
    pub fn new(alloc: Global) -> Result<Heads, NoMemory> {
        Ok(Heads {
            types: table_of(alloc, all_rows(alloc)?)?,
        })
    }

    /// The rows of the fixed table.
    pub(crate) fn rows(&self) -> &TypeTable
        ensures { result.now ≡ head_rows }
    {
        &self.types
    }
}
