//! Heads in the packed syntax: the value of a head, and the octets behind it.

ghost use Rattle.std.specs.Prelude.{◌≡◌, ℤ, Some, IfOk};
ghost use Rattle.std.specs.Option.{option_map};
ghost use Rattle.apdu_spelling.specs.Heads.{fields_of};
ghost use Rattle.apdu_codec.specs.Outcomes.{outcome_of};
ghost use Rattle.apdu_codec.specs.Pieces.{integer_in, linked_in, code_in, none_behind, marked_in, outcome_in, invoke_by, result_by, error_by, reject_pieces, packed_invoke_pieces, packed_result_pieces, packed_error_pieces, packed_pieces, packed_head};

use crate::pieces::{
    MOST_OCTETS, Returning, code_in, integer_in, linked_in, reject_pieces, result_head,
};
use apdu_spelling::{ApduHead, ApduKind};
use asn1_types::{Node, Val};
use osi_base::{NoMemory, Octets};
use std::alloc::Global;

/// The octets of the value, if the mark says that it follows; else nothing may follow.
fn marked_in(
    alloc: Global,
    mark: &Option<Val>,
    rest: &[u8],
) -> Result<Option<Option<Octets>>, NoMemory>
    ensures { IfOk result (λ o. o ≡ marked_in mark.now rest.now) }
{
    let Some(value) = mark else { return Ok(None) };
    match &value.node {
        Node::Bool(true) => Ok(Some(Some(Octets::from_slice(alloc, rest)?))),
        Node::Bool(false) => {
            if rest.is_empty() {
                Ok(Some(None))
            } else {
                Ok(None)
            }
        }
        _ => Ok(None),
    }
}

/// What is returned, if a code is there; else nothing may follow.
fn outcome_in(
    alloc: Global,
    code: &Option<Val>,
    rest: &[u8],
) -> Result<Option<Option<Returning>>, NoMemory>
    ensures { IfOk result (λ o. option_map (option_map outcome_of) o ≡ outcome_in code.now
        rest.now) }
{
    if code.is_none() {
        if rest.is_empty() {
            return Ok(Some(None));
        }
        return Ok(None);
    }
    let Some(code) = code_in(alloc, code)? else {
        return Ok(None);
    };
    let octets = Octets::from_slice(alloc, rest)?;
    Ok(Some(Some(Returning { code, octets })))
}

/// An invocation, by its four parts and what follows.
fn invoke_by(
    alloc: Global,
    id: &Option<Val>,
    linked: &Option<Val>,
    code: &Option<Val>,
    mark: &Option<Val>,
    rest: &[u8],
) -> Result<Option<ApduHead>, NoMemory>
    ensures { IfOk result (λ o. o ≡ option_map fields_of
        (invoke_by (integer_in id.now) (linked_in linked.now) (code_in code.now)
        (marked_in mark.now rest.now))) }
{
    let id = integer_in(id);
    let (Some(_), Some(linked)) = (id, linked_in(linked)) else {
        return Ok(None);
    };
    let Some(code) = code_in(alloc, code)? else {
        return Ok(None);
    };
    let Some(rest) = marked_in(alloc, mark, rest)? else {
        return Ok(None);
    };
    Ok(Some(ApduHead {
        kind: ApduKind::Invoke,
        id,
        linked,
        code: Some(code),
        problem: None,
        rest,
        room: MOST_OCTETS,
    }))
}

/// A result, by its two parts and what follows.
fn result_by(
    alloc: Global,
    id: &Option<Val>,
    code: &Option<Val>,
    rest: &[u8],
) -> Result<Option<ApduHead>, NoMemory>
    ensures { IfOk result (λ o. o ≡ option_map fields_of
        (result_by (integer_in id.now) (outcome_in code.now rest.now))) }
{
    let id = integer_in(id);
    let (Some(_), Some(returned)) = (id, outcome_in(alloc, code, rest)?) else {
        return Ok(None);
    };
    Ok(Some(result_head(id, returned)))
}

/// An error, by its three parts and what follows.
fn error_by(
    alloc: Global,
    id: &Option<Val>,
    code: &Option<Val>,
    mark: &Option<Val>,
    rest: &[u8],
) -> Result<Option<ApduHead>, NoMemory>
    ensures { IfOk result (λ o. o ≡ option_map fields_of
        (error_by (integer_in id.now) (code_in code.now) (marked_in mark.now rest.now))) }
{
    let id = integer_in(id);
    let Some(_) = id else { return Ok(None) };
    let Some(code) = code_in(alloc, code)? else {
        return Ok(None);
    };
    let Some(rest) = marked_in(alloc, mark, rest)? else {
        return Ok(None);
    };
    Ok(Some(ApduHead {
        kind: ApduKind::Error,
        id,
        linked: None,
        code: Some(code),
        problem: None,
        rest,
        room: MOST_OCTETS,
    }))
}

fn packed_invoke_pieces(
    alloc: Global,
    pieces: &[Option<Val>],
    rest: &[u8],
) -> Result<Option<ApduHead>, NoMemory>
    ensures { IfOk result (λ o. o ≡ option_map fields_of
        (packed_invoke_pieces pieces.now rest.now)) }
{
    match pieces {
        [id, linked, code, mark] => invoke_by(alloc, id, linked, code, mark, rest),
        _ => Ok(None),
    }
}

fn packed_result_pieces(
    alloc: Global,
    pieces: &[Option<Val>],
    rest: &[u8],
) -> Result<Option<ApduHead>, NoMemory>
    ensures { IfOk result (λ o. o ≡ option_map fields_of
        (packed_result_pieces pieces.now rest.now)) }
{
    match pieces {
        [id, code] => result_by(alloc, id, code, rest),
        _ => Ok(None),
    }
}

fn packed_error_pieces(
    alloc: Global,
    pieces: &[Option<Val>],
    rest: &[u8],
) -> Result<Option<ApduHead>, NoMemory>
    ensures { IfOk result (λ o. o ≡ option_map fields_of
        (packed_error_pieces pieces.now rest.now)) }
{
    match pieces {
        [id, code, mark] => error_by(alloc, id, code, mark, rest),
        _ => Ok(None),
    }
}

/// A reject, behind which nothing may follow.
fn packed_reject_pieces(pieces: &[Option<Val>], rest: &[u8]) -> Option<ApduHead>
    ensures { result ≡ option_map fields_of (none_behind rest.now (reject_pieces pieces.now)) }
{
    if rest.is_empty() {
        reject_pieces(pieces)
    } else {
        None
    }
}

/// The head of this kind with these parts, and what follows.
fn packed_pieces(
    alloc: Global,
    which: u32,
    pieces: &[Option<Val>],
    rest: &[u8],
) -> Result<Option<ApduHead>, NoMemory>
    ensures { IfOk result (λ o. o ≡ option_map fields_of
        (packed_pieces which pieces.now rest.now)) }
{
    match which {
        1 => packed_invoke_pieces(alloc, pieces, rest),
        2 => packed_result_pieces(alloc, pieces, rest),
        3 => packed_error_pieces(alloc, pieces, rest),
        4 => Ok(packed_reject_pieces(pieces, rest)),
        _ => Ok(None),
    }
}

/// The head that a value and the octets behind it are in the packed syntax.
#[tactic(auto, using(crate::proofs::Lists::pieces_back))]
pub(crate) fn packed_head(
    alloc: Global,
    value: &Val,
    rest: &[u8],
) -> Result<Option<ApduHead>, NoMemory>
    ensures { IfOk result (λ o. o ≡ option_map fields_of (packed_head value.now rest.now)) }
{
    let Node::Chosen { which, value } = &value.node else {
        return Ok(None);
    };
    match &value.node {
        Node::Parts(pieces) => packed_pieces(alloc, *which, pieces.as_slice(), rest),
        _ => Ok(None),
    }
}
