//! The fixed table of the units of the presentation protocol.

ghost use Rattle.std.specs.Prelude.{◌≡◌, ◌++◌, [], IfOk};
ghost use Rattle.presentation_pdus.specs.Rows.{content_parts, pdv_parts, definition_parts, answer_parts, restored_parts, mode_parts, connect_fields_parts, connect_parts, accept_fields_parts, accept_parts, reject_parts, alter_parts, alter_ack_parts, restart_parts, user_abort_parts, provider_abort_parts, rows_of_values, rows_of_definitions, rows_of_fields, rows_of_connections, rows_of_alterations, rows_of_restarts, ppdu_rows};

use asn1_types::{Class, Parts, TypeId, TypeRow, TypeTable};
use fixed_tables::{implicit, joined_rows, parts, table_of, tagged};
use osi_base::NoMemory;
use std::alloc::Global;
use std::marker::Model;

/// The fixed table of the units of the presentation protocol (X.226 8.2 to 8.4).
#[derive(Drop)]
pub struct PpduTable {
    pub(crate) types: TypeTable,
}

impl Model for PpduTable {
    ghost use Rattle.std.specs.Prelude.{◌≡◌};
    ghost use Rattle.presentation_pdus.specs.Rows.{ppdu_rows};

    ghost Value = { Unit {0} };

    ghost view = { λ table. tt };

    ghost invariant = { λ table. table.types ≡ ppdu_rows };
}

fn content_parts(alloc: Global) -> Result<Parts, NoMemory>
    ensures { IfOk result (λ parts. parts ≡ content_parts) }
{
    parts(
        alloc,
        &[
            ("single", 10, false),
            ("aligned", 11, false),
            ("arbitrary", 12, false),
        ],
    )
}

fn pdv_parts(alloc: Global) -> Result<Parts, NoMemory>
    ensures { IfOk result (λ parts. parts ≡ pdv_parts) }
{
    parts(
        alloc,
        &[
            ("transfer", 1, true),
            ("identifier", 0, false),
            ("values", 13, false),
        ],
    )
}

fn definition_parts(alloc: Global) -> Result<Parts, NoMemory>
    ensures { IfOk result (λ parts. parts ≡ definition_parts) }
{
    parts(
        alloc,
        &[
            ("identifier", 0, false),
            ("abstract", 1, false),
            ("transfers", 17, false),
        ],
    )
}

fn answer_parts(alloc: Global) -> Result<Parts, NoMemory>
    ensures { IfOk result (λ parts. parts ≡ answer_parts) }
{
    parts(
        alloc,
        &[
            ("result", 20, false),
            ("transfer", 21, true),
            ("reason", 22, true),
        ],
    )
}

fn restored_parts(alloc: Global) -> Result<Parts, NoMemory>
    ensures { IfOk result (λ parts. parts ≡ restored_parts) }
{
    parts(alloc, &[("identifier", 0, false), ("transfer", 1, false)])
}

fn mode_parts(alloc: Global) -> Result<Parts, NoMemory>
    ensures { IfOk result (λ parts. parts ≡ mode_parts) }
{
    parts(alloc, &[("mode", 29, false)])
}

fn connect_fields_parts(alloc: Global) -> Result<Parts, NoMemory>
    ensures { IfOk result (λ parts. parts ≡ connect_fields_parts) }
{
    parts(
        alloc,
        &[
            ("version", 32, true),
            ("calling", 33, true),
            ("called", 34, true),
            ("definitions", 36, true),
            ("requirements", 39, true),
            ("session", 40, true),
            ("user", 16, true),
        ],
    )
}

fn connect_parts(alloc: Global) -> Result<Parts, NoMemory>
    ensures { IfOk result (λ parts. parts ≡ connect_parts) }
{
    parts(alloc, &[("mode", 31, false), ("fields", 43, false)])
}

fn accept_fields_parts(alloc: Global) -> Result<Parts, NoMemory>
    ensures { IfOk result (λ parts. parts ≡ accept_fields_parts) }
{
    parts(
        alloc,
        &[
            ("version", 32, true),
            ("responding", 35, true),
            ("results", 37, true),
            ("requirements", 39, true),
            ("session", 40, true),
            ("user", 16, true),
        ],
    )
}

fn accept_parts(alloc: Global) -> Result<Parts, NoMemory>
    ensures { IfOk result (λ parts. parts ≡ accept_parts) }
{
    parts(alloc, &[("mode", 31, false), ("fields", 46, false)])
}

fn reject_parts(alloc: Global) -> Result<Parts, NoMemory>
    ensures { IfOk result (λ parts. parts ≡ reject_parts) }
{
    parts(
        alloc,
        &[
            ("version", 32, true),
            ("responding", 35, true),
            ("results", 37, true),
            ("default", 38, true),
            ("reason", 41, true),
            ("user", 16, true),
        ],
    )
}

fn alter_parts(alloc: Global) -> Result<Parts, NoMemory>
    ensures { IfOk result (λ parts. parts ≡ alter_parts) }
{
    parts(alloc, &[("additions", 49, true), ("deletions", 50, true)])
}

fn alter_ack_parts(alloc: Global) -> Result<Parts, NoMemory>
    ensures { IfOk result (λ parts. parts ≡ alter_ack_parts) }
{
    parts(alloc, &[("additions", 53, true), ("deletions", 54, true)])
}

fn restart_parts(alloc: Global) -> Result<Parts, NoMemory>
    ensures { IfOk result (λ parts. parts ≡ restart_parts) }
{
    parts(alloc, &[("contexts", 57, true)])
}

fn user_abort_parts(alloc: Global) -> Result<Parts, NoMemory>
    ensures { IfOk result (λ parts. parts ≡ user_abort_parts) }
{
    parts(alloc, &[("contexts", 57, true), ("user", 16, true)])
}

fn provider_abort_parts(alloc: Global) -> Result<Parts, NoMemory>
    ensures { IfOk result (λ parts. parts ≡ provider_abort_parts) }
{
    parts(alloc, &[("reason", 61, false), ("event", 62, true)])
}

/// Rows 0 to 16: values and user data.
fn rows_of_values(alloc: Global) -> Result<Vec<TypeRow>, NoMemory>
    ensures { IfOk result (λ rows. rows.items ≡ rows_of_values []) }
{
    let content = content_parts(alloc)?;
    let pdv = pdv_parts(alloc)?;
    Ok(vec![in alloc;
        TypeRow::Integer {
            low: 1,
            high: 32_767
        },
        TypeRow::ObjectId,
        TypeRow::OctetString { most: u32::MAX },
        TypeRow::BitString,
        TypeRow::Any,
        TypeRow::Integer {
            low: i64::MIN,
            high: i64::MAX
        },
        TypeRow::Integer { low: 0, high: 2 },
        TypeRow::Integer { low: 0, high: 3 },
        TypeRow::Integer { low: 0, high: 1 },
        TypeRow::Integer { low: 1, high: 1 },
        tagged(Class::Context, 0, true, 4),
        implicit(1, 2),
        implicit(2, 3),
        TypeRow::Choice(content),
        TypeRow::Sequence(pdv),
        TypeRow::SequenceOf(TypeId(14)),
        tagged(Class::Application, 1, false, 15),
    ]?)
}

/// Rows 17 to 31: lists of contexts, and the mode.
fn rows_of_definitions(alloc: Global) -> Result<Vec<TypeRow>, NoMemory>
    ensures { IfOk result (λ rows. rows.items ≡ rows_of_definitions []) }
{
    let definition = definition_parts(alloc)?;
    let answer = answer_parts(alloc)?;
    let restored = restored_parts(alloc)?;
    let mode = mode_parts(alloc)?;
    Ok(vec![in alloc;
        TypeRow::SequenceOf(TypeId(1)),
        TypeRow::Sequence(definition),
        TypeRow::SequenceOf(TypeId(18)),
        implicit(0, 6),
        implicit(1, 1),
        implicit(2, 7),
        TypeRow::Sequence(answer),
        TypeRow::SequenceOf(TypeId(23)),
        TypeRow::Sequence(restored),
        TypeRow::SequenceOf(TypeId(25)),
        TypeRow::SequenceOf(TypeId(0)),
        TypeRow::SequenceOf(TypeId(8)),
        implicit(0, 9),
        TypeRow::Set(mode),
        implicit(0, 30),
    ]?)
}

/// Rows 32 to 41: fields of CP, CPA and CPR.
fn rows_of_fields(alloc: Global) -> Result<Vec<TypeRow>, NoMemory>
    ensures { IfOk result (λ rows. rows.items ≡ rows_of_fields []) }
{
    Ok(vec![in alloc;
        implicit(0, 3),
        implicit(1, 2),
        implicit(2, 2),
        implicit(3, 2),
        implicit(4, 19),
        implicit(5, 24),
        implicit(7, 6),
        implicit(8, 3),
        implicit(9, 3),
        implicit(10, 5),
    ]?)
}

/// Rows 42 to 48: CP, CPA and CPR.
fn rows_of_connections(alloc: Global) -> Result<Vec<TypeRow>, NoMemory>
    ensures { IfOk result (λ rows. rows.items ≡ rows_of_connections []) }
{
    let connect_fields = connect_fields_parts(alloc)?;
    let connect = connect_parts(alloc)?;
    let accept_fields = accept_fields_parts(alloc)?;
    let accept = accept_parts(alloc)?;
    let reject = reject_parts(alloc)?;
    Ok(vec![in alloc;
        TypeRow::Sequence(connect_fields),
        implicit(2, 42),
        TypeRow::Set(connect),
        TypeRow::Sequence(accept_fields),
        implicit(2, 45),
        TypeRow::Set(accept),
        TypeRow::Sequence(reject),
    ]?)
}

/// Rows 49 to 56: AC and ACA.
fn rows_of_alterations(alloc: Global) -> Result<Vec<TypeRow>, NoMemory>
    ensures { IfOk result (λ rows. rows.items ≡ rows_of_alterations []) }
{
    let alter = alter_parts(alloc)?;
    let alter_ack = alter_ack_parts(alloc)?;
    Ok(vec![in alloc;
        implicit(0, 19),
        implicit(1, 27),
        TypeRow::Sequence(alter),
        implicit(0, 51),
        implicit(0, 24),
        implicit(1, 28),
        TypeRow::Sequence(alter_ack),
        implicit(1, 55),
    ]?)
}

/// Rows 57 to 63: RS, RSA, ARU and ARP.
fn rows_of_restarts(alloc: Global) -> Result<Vec<TypeRow>, NoMemory>
    ensures { IfOk result (λ rows. rows.items ≡ rows_of_restarts []) }
{
    let restart = restart_parts(alloc)?;
    let user_abort = user_abort_parts(alloc)?;
    let provider_abort = provider_abort_parts(alloc)?;
    Ok(vec![in alloc;
        implicit(0, 26),
        TypeRow::Sequence(restart),
        TypeRow::Sequence(user_abort),
        implicit(0, 59),
        implicit(0, 5),
        implicit(1, 5),
        TypeRow::Sequence(provider_abort),
    ]?)
}

/// All rows.
fn rows(alloc: Global) -> Result<Vec<TypeRow>, NoMemory>
    ensures { IfOk result (λ rows. rows.items ≡ ppdu_rows) }
{
    let values = rows_of_values(alloc)?;
    let definitions = rows_of_definitions(alloc)?;
    let until_mode = joined_rows(values, definitions)?;
    let fields = rows_of_fields(alloc)?;
    let until_fields = joined_rows(until_mode, fields)?;
    let connections = rows_of_connections(alloc)?;
    let until_connections = joined_rows(until_fields, connections)?;
    let alterations = rows_of_alterations(alloc)?;
    let until_alterations = joined_rows(until_connections, alterations)?;
    let restarts = rows_of_restarts(alloc)?;
    let all = joined_rows(until_alterations, restarts)?;
    Ok(all)
}

impl PpduTable {
    /// The fixed table, which only want of memory can refuse.
    pub fn new(alloc: Global) -> Result<PpduTable, NoMemory> {
        let rows = rows(alloc)?;
        let types = table_of(alloc, rows)?;
        Ok(PpduTable { types })
    }
}
