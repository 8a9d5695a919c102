//! Octets of the module's abstract syntax: an APDU that they spell, or they themselves (X.882 9).

ghost use Rattle.std.specs.Prelude.{◌≡◌, IfOk};
ghost use Rattle.std.specs.Option.{option_copied, option_map};
ghost use Rattle.osi_base.specs.Octets.{AreOctets};
ghost use Rattle.stub_tables.specs.Lookup.{operation_at, error_at};
ghost use Rattle.stub_tables.specs.Apdus.{placed, argument_of, result_of, parameter_of};
ghost use Rattle.end_wire.specs.Heads.{head_at, apdu_of};
ghost use Rattle.end_wire.specs.Values as values;
ghost use Rattle.association_words.specs.Seen.{seen_content};
ghost use Rattle.module_contents.specs.Said.{apdu_in, invoke_by, result_by, error_by, reject_by, apdu_by};

use crate::module_values::{carried, needed};
use apdu_spelling::{ApduHead, ApduKind};
use association_words::ValueContent;
use end_wire::apdu_codec_layer::{HeadFault, Heads};
use osi_base::{NoMemory, Octets, Syntax, hold_octets};
use std::alloc::Global;
use stub_tables::{Apdu, Returned, Tables, Use};

/// An APDU that was read, and the place in the module's tables of the operation or the error with
/// its code, if there is one.
#[derive(Drop)]
struct Found {
    apdu: Apdu,
    place: Option<u32>,
}

/// How the argument of the operation at this place is used.
fn argument_at(tables: &Tables, place: Option<u32>) -> Option<&Use>
    ensures { option_copied result ≡ option_map argument_of (placed (operation_at tables.now)
        place) }
{
    match tables.operation(place?) {
        Some(operation) => Some(&operation.argument),
        None => None,
    }
}

/// How the result of the operation at this place is used.
fn result_at(tables: &Tables, place: Option<u32>) -> Option<&Use>
    ensures { option_copied result ≡ option_map result_of (placed (operation_at tables.now)
        place) }
{
    match tables.operation(place?) {
        Some(operation) => Some(&operation.result),
        None => None,
    }
}

/// How the parameter of the error at this place is used.
fn parameter_at(tables: &Tables, place: Option<u32>) -> Option<&Use>
    ensures { option_copied result ≡ option_map parameter_of (placed (error_at tables.now)
        place) }
{
    match tables.error(place?) {
        Some(error) => Some(&error.parameter),
        None => None,
    }
}

/// The invocation that a head says.
fn invocation(
    alloc: Global,
    syntax: Syntax,
    tables: &Tables,
    head: ApduHead,
) -> Result<Option<Found>, NoMemory>
    ensures { IfOk result (λ found. option_map apdu_in found ≡ invoke_by tables.now syntax head
        head.id head.code) }
{
    let (Some(id), Some(code)) = (head.id, head.code) else {
        return Ok(None);
    };
    let place = tables.operation_with(&code);
    let used = argument_at(tables, place);
    match carried(alloc, syntax, &tables.types, used, &head.rest, head.room)? {
        None => Ok(None),
        Some(argument) => {
            let apdu = Apdu::Invoke {
                id,
                linked: head.linked,
                code,
                argument,
            };
            Ok(Some(Found { apdu, place }))
        }
    }
}

/// The result that a head says.
fn result(
    alloc: Global,
    syntax: Syntax,
    tables: &Tables,
    head: ApduHead,
) -> Result<Option<Found>, NoMemory>
    ensures { IfOk result (λ found. option_map apdu_in found ≡ result_by tables.now syntax head
        head.id head.code) }
{
    let ApduHead {
        id: Some(id),
        code,
        rest,
        room,
        ..
    } = head
    else {
        return Ok(None);
    };
    let Some(code) = code else {
        let apdu = Apdu::Result { id, returned: None };
        return Ok(Some(Found { apdu, place: None }));
    };
    let place = tables.operation_with(&code);
    let used = result_at(tables, place);
    match needed(alloc, syntax, &tables.types, used, &rest, room)? {
        None => Ok(None),
        Some(value) => {
            let returned = Some(Returned { code, value });
            let apdu = Apdu::Result { id, returned };
            Ok(Some(Found { apdu, place }))
        }
    }
}

/// The error that a head says.
fn error(
    alloc: Global,
    syntax: Syntax,
    tables: &Tables,
    head: ApduHead,
) -> Result<Option<Found>, NoMemory>
    ensures { IfOk result (λ found. option_map apdu_in found ≡ error_by tables.now syntax head
        head.id head.code) }
{
    let (Some(id), Some(code)) = (head.id, head.code) else {
        return Ok(None);
    };
    let place = tables.error_with(&code);
    let used = parameter_at(tables, place);
    match carried(alloc, syntax, &tables.types, used, &head.rest, head.room)? {
        None => Ok(None),
        Some(parameter) => {
            let apdu = Apdu::Error {
                id,
                code,
                parameter,
            };
            Ok(Some(Found { apdu, place }))
        }
    }
}

/// The reject that a head says.
fn reject(head: ApduHead) -> Option<Found>
    ensures { option_map apdu_in result ≡ reject_by head.id head.problem }
{
    match head.problem {
        None => None,
        Some(problem) => {
            let id = head.id;
            let apdu = Apdu::Reject { id, problem };
            Some(Found { apdu, place: None })
        }
    }
}

/// The APDU that a head says with the value that it carries.
fn said(
    alloc: Global,
    syntax: Syntax,
    tables: &Tables,
    head: ApduHead,
) -> Result<Option<Found>, NoMemory>
    ensures { IfOk result (λ found. option_map apdu_in found ≡ apdu_by tables.now syntax head
        head.kind) }
{
    match head.kind {
        ApduKind::Invoke => invocation(alloc, syntax, tables, head),
        ApduKind::Result => result(alloc, syntax, tables, head),
        ApduKind::Error => error(alloc, syntax, tables, head),
        ApduKind::Reject => Ok(reject(head)),
    }
}

/// The APDU that octets spell.
fn spelled(
    alloc: Global,
    heads: &Heads,
    tables: &Tables,
    syntax: Syntax,
    octets: &[u8],
) -> Result<Option<Found>, NoMemory>
    requires { AreOctets octets.now }
    ensures { IfOk result (λ found. option_map apdu_in found ≡ apdu_of tables.now
        (head_at tables.now syntax octets.now)) }
{
    tables.hold_readable();
    match heads.read(alloc, syntax, octets) {
        Ok(head) => said(alloc, syntax, tables, head),
        Err(HeadFault::General(_)) => Ok(None),
        Err(HeadFault::BadReject) => Ok(None),
        Err(HeadFault::NoMemory) => Err(NoMemory),
    }
}

/// What octets of the module's abstract syntax are: the APDU that they spell in a syntax, with its
/// value read by the tables of the module, or the octets.
pub fn content_at(
    alloc: Global,
    heads: &Heads,
    tables: &Tables,
    syntax: Syntax,
    octets: &[u8],
) -> Result<ValueContent, NoMemory>
    ensures { IfOk result (λ content. seen_content content ≡ values.content_at tables.now syntax
        octets.now) }
{
    hold_octets(octets);
    match spelled(alloc, heads, tables, syntax, octets)? {
        Some(Found { apdu, place }) => Ok(ValueContent::Remote { apdu, place }),
        None => Ok(ValueContent::Unread(Octets::from_slice(alloc, octets)?)),
    }
}
