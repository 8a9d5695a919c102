//! Units of the presentation protocol out of values, and into values.

ghost use Rattle.std.specs.Prelude.{◌≡◌, IfOk, option_map};
ghost use Rattle.std.specs.Option.{option_copied};
ghost use Rattle.asn1_types.specs.Value as tree;
ghost use Rattle.presentation_pdus.specs.Words.{integer_in, contexts_in, connect_in, accept_in, reject_in, unit_by, unit_in, normal_mode, with_mode, connect_value, accept_value, reject_value, row_of, value_of};

use crate::items::{
    DataValues, Definitions, Deletions, Identifiers, Restored, Results, maybe_list, octet_part,
    some_list, why_in,
};
use asn1_types::{TypeId, Val};
use fixed_tables::{
    alternative, bits_part, chosen_in, integer, list_in, list_of, maybe_bits, maybe_octets,
    number_or, number_part, octets, part_in, sequence,
};
use osi_base::{
    Answers, NoMemory, Octets, PresentationAccept, PresentationConnect, PresentationReject,
    PresentationWord, RestoredList,
};
use std::alloc::Global;

fn maybe_number(value: Option<&Val>) -> Option<i64>
    ensures { result ≡ option_map integer_in (option_copied value.entry) }
{
    match value {
        Some(value) => Some(number_or(Some(value), 0)),
        None => None,
    }
}

fn maybe_contexts(alloc: Global, value: Option<&Val>) -> Result<Option<RestoredList>, NoMemory>
    ensures { IfOk result (λ x. x ≡ option_map contexts_in (option_copied value.entry)) }
{
    match value {
        Some(value) => Ok(Some(list_in::<Restored>(alloc, Some(value))?)),
        None => Ok(None),
    }
}

fn connect_in(alloc: Global, value: Option<&Val>) -> Result<PresentationConnect, NoMemory>
    ensures { IfOk result (λ x. x ≡ connect_in (option_copied value.entry)) }
{
    Ok(PresentationConnect {
        version: maybe_bits(alloc, part_in(0, value))?,
        calling: maybe_octets(alloc, part_in(1, value))?,
        called: maybe_octets(alloc, part_in(2, value))?,
        definitions: list_in::<Definitions>(alloc, part_in(3, value))?,
        default_context: maybe_octets(alloc, part_in(4, value))?,
        requirements: maybe_bits(alloc, part_in(5, value))?,
        session_requirements: maybe_bits(alloc, part_in(6, value))?,
        user: list_in::<DataValues>(alloc, part_in(7, value))?,
    })
}

fn accept_in(alloc: Global, value: Option<&Val>) -> Result<PresentationAccept, NoMemory>
    ensures { IfOk result (λ x. x ≡ accept_in (option_copied value.entry)) }
{
    Ok(PresentationAccept {
        version: maybe_bits(alloc, part_in(0, value))?,
        responding: maybe_octets(alloc, part_in(1, value))?,
        results: list_in::<Results>(alloc, part_in(2, value))?,
        requirements: maybe_bits(alloc, part_in(3, value))?,
        session_requirements: maybe_bits(alloc, part_in(4, value))?,
        user: list_in::<DataValues>(alloc, part_in(5, value))?,
    })
}

fn reject_in(alloc: Global, value: Option<&Val>) -> Result<PresentationReject, NoMemory>
    ensures { IfOk result (λ x. x ≡ reject_in (option_copied value.entry)) }
{
    Ok(PresentationReject {
        version: maybe_bits(alloc, part_in(0, value))?,
        responding: maybe_octets(alloc, part_in(1, value))?,
        results: list_in::<Results>(alloc, part_in(2, value))?,
        default_result: why_in(part_in(3, value)),
        reason: maybe_number(part_in(4, value)),
        user: list_in::<DataValues>(alloc, part_in(5, value))?,
    })
}

/// The unit of a number with its value.
fn unit_by(alloc: Global, which: u32, v: Option<&Val>) -> Result<PresentationWord, NoMemory>
    ensures { IfOk result (λ x. x ≡ unit_by which (option_copied v.entry)) }
{
    match which {
        0 => Ok(PresentationWord::Connect(connect_in(alloc, part_in(1, v))?)),
        1 => Ok(PresentationWord::Accept(accept_in(alloc, part_in(1, v))?)),
        2 => Ok(PresentationWord::Reject(reject_in(alloc, v)?)),
        3 => Ok(PresentationWord::Alter {
            add: list_in::<Definitions>(alloc, part_in(0, v))?,
            delete: list_in::<Identifiers>(alloc, part_in(1, v))?,
        }),
        4 => Ok(PresentationWord::AlterAck {
            answers: Answers {
                added: list_in::<Results>(alloc, part_in(0, v))?,
                deleted: Octets::from_vec(list_in::<Deletions>(alloc, part_in(1, v))?.into_vec()),
            },
        }),
        5 => Ok(PresentationWord::Resynchronize {
            restored: maybe_contexts(alloc, part_in(0, v))?,
        }),
        6 => Ok(PresentationWord::ResynchronizeAck {
            restored: maybe_contexts(alloc, part_in(0, v))?,
        }),
        7 => Ok(PresentationWord::UserAbort {
            contexts: maybe_contexts(alloc, part_in(0, v))?,
            user: list_in::<DataValues>(alloc, part_in(1, v))?,
        }),
        8 => Ok(PresentationWord::ProviderAbort {
            reason: maybe_number(part_in(0, v)),
            event: maybe_number(part_in(1, v)),
        }),
        _ => Ok(PresentationWord::Data {
            user: list_in::<DataValues>(alloc, v)?,
        }),
    }
}

/// The unit that a value says.
pub(crate) fn unit_in(alloc: Global, value: &Val) -> Result<PresentationWord, NoMemory>
    ensures { IfOk result (λ x. x ≡ unit_in value.now) }
{
    unit_by(alloc, alternative(Some(value)), chosen_in(Some(value)))
}

fn octets_part(alloc: Global, string: &Option<Octets>) -> Result<Option<Val>, NoMemory>
    ensures { IfOk result (λ part. part ≡ option_map tree.octets string.now) }
{
    match string {
        Some(string) => Ok(Some(octets(alloc, string)?)),
        None => Ok(None),
    }
}

/// The fields of CP or CPA, behind the selector of normal mode.
fn with_mode(alloc: Global, fields: Val) -> Result<Val, NoMemory>
    ensures { IfOk result (λ v. v ≡ with_mode fields) }
{
    let mode = sequence(vec![in alloc; Some(integer(1))]?);
    Ok(sequence(vec![in alloc; Some(mode), Some(fields)]?))
}

fn connect_value(alloc: Global, unit: &PresentationConnect) -> Result<Val, NoMemory>
    ensures { IfOk result (λ v. v ≡ connect_value unit.now) }
{
    let mut parts = Vec::new(alloc);
    parts.push(bits_part(alloc, &unit.version)?)?;
    parts.push(octets_part(alloc, &unit.calling)?)?;
    parts.push(octets_part(alloc, &unit.called)?)?;
    parts.push(some_list::<Definitions>(alloc, unit.definitions.as_slice())?)?;
    parts.push(bits_part(alloc, &unit.requirements)?)?;
    parts.push(bits_part(alloc, &unit.session_requirements)?)?;
    parts.push(some_list::<DataValues>(alloc, unit.user.as_slice())?)?;
    with_mode(alloc, sequence(parts))
}

fn accept_value(alloc: Global, unit: &PresentationAccept) -> Result<Val, NoMemory>
    ensures { IfOk result (λ v. v ≡ accept_value unit.now) }
{
    let mut parts = Vec::new(alloc);
    parts.push(bits_part(alloc, &unit.version)?)?;
    parts.push(octets_part(alloc, &unit.responding)?)?;
    parts.push(some_list::<Results>(alloc, unit.results.as_slice())?)?;
    parts.push(bits_part(alloc, &unit.requirements)?)?;
    parts.push(bits_part(alloc, &unit.session_requirements)?)?;
    parts.push(some_list::<DataValues>(alloc, unit.user.as_slice())?)?;
    with_mode(alloc, sequence(parts))
}

fn reject_value(alloc: Global, unit: &PresentationReject) -> Result<Val, NoMemory>
    ensures { IfOk result (λ v. v ≡ reject_value unit.now) }
{
    let mut parts = Vec::new(alloc);
    parts.push(bits_part(alloc, &unit.version)?)?;
    parts.push(octets_part(alloc, &unit.responding)?)?;
    parts.push(some_list::<Results>(alloc, unit.results.as_slice())?)?;
    parts.push(octet_part(unit.default_result))?;
    parts.push(number_part(unit.reason))?;
    parts.push(some_list::<DataValues>(alloc, unit.user.as_slice())?)?;
    Ok(sequence(parts))
}

/// The row of a unit.
pub(crate) fn row_of(unit: &PresentationWord) -> TypeId
    ensures { result.0 ≡ row_of unit.now }
{
    match unit {
        PresentationWord::Connect(_) => TypeId(44),
        PresentationWord::Accept(_) => TypeId(47),
        PresentationWord::Reject(_) => TypeId(48),
        PresentationWord::Alter { .. } => TypeId(52),
        PresentationWord::AlterAck { .. } => TypeId(56),
        PresentationWord::Resynchronize { .. } => TypeId(58),
        PresentationWord::ResynchronizeAck { .. } => TypeId(58),
        PresentationWord::UserAbort { .. } => TypeId(60),
        PresentationWord::ProviderAbort { .. } => TypeId(63),
        PresentationWord::Data { .. } => TypeId(16),
    }
}

/// The value that says a unit.
pub(crate) fn value_of(alloc: Global, unit: &PresentationWord) -> Result<Val, NoMemory>
    ensures { IfOk result (λ v. v ≡ value_of unit.now) }
{
    let parts = match unit {
        PresentationWord::Connect(unit) => return connect_value(alloc, unit),
        PresentationWord::Accept(unit) => return accept_value(alloc, unit),
        PresentationWord::Reject(unit) => return reject_value(alloc, unit),
        PresentationWord::Data { user } => {
            return list_of::<DataValues>(alloc, user.as_slice());
        }
        PresentationWord::Alter { add, delete } => vec![in alloc;
            some_list::<Definitions>(alloc, add.as_slice())?,
            some_list::<Identifiers>(alloc, delete.as_slice())?,
        ]?,
        PresentationWord::AlterAck { answers } => vec![in alloc;
            some_list::<Results>(alloc, answers.added.as_slice())?,
            some_list::<Deletions>(alloc, answers.deleted.as_slice())?,
        ]?,
        PresentationWord::Resynchronize { restored } => vec![in alloc;
            maybe_list::<Restored>(alloc, restored)?,
        ]?,
        PresentationWord::ResynchronizeAck { restored } => vec![in alloc;
            maybe_list::<Restored>(alloc, restored)?,
        ]?,
        PresentationWord::UserAbort { contexts, user } => vec![in alloc;
            maybe_list::<Restored>(alloc, contexts)?,
            some_list::<DataValues>(alloc, user.as_slice())?,
        ]?,
        PresentationWord::ProviderAbort { reason, event } => vec![in alloc;
            number_part(*reason),
            number_part(*event),
        ]?,
    };
    Ok(sequence(parts))
}
