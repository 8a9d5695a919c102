//! The pieces of a head.

ghost use Rattle.std.specs.Prelude.{◌≡◌, ℤ, IfOk, Some};
ghost use Rattle.apdu_spelling.specs.Heads as heads;
ghost use Rattle.std.specs.Option.{option_map, option_copied};
ghost use Rattle.apdu_spelling.specs.Heads.{fields_of};
ghost use Rattle.apdu_codec.specs.Pieces.{integer_in, linked_in, code_in, any_in, octets_in, rejected_in, problem_by, problem_in, outcome_by, outcome_pieces, returned_in, invoke_by, result_by, error_by, reject_by, invoke_pieces, result_pieces, error_pieces, reject_pieces, ber_pieces, ber_head};
ghost use Rattle.apdu_codec.specs.Outcomes.{outcome_of};

use apdu_spelling::{ApduHead, ApduKind};
use asn1_types::{Node, Val};
use osi_base::{Copied, NoMemory, Octets, Problem, ProblemKind};
use std::alloc::Global;
use stub_tables::Code;

/// How many octets an APDU has at most.
pub(crate) const MOST_OCTETS: u32 = 262_144;

/// The number of an INTEGER that is there.
pub(crate) fn integer_in(part: &Option<Val>) -> Option<i64>
    ensures { result ≡ integer_in part.now }
{
    match part {
        Some(value) => match &value.node {
            Node::Int(number) => Some(*number),
            _ => None,
        },
        None => None,
    }
}

/// The number of an INTEGER, or that there is none.
pub(crate) fn linked_in(part: &Option<Val>) -> Option<Option<i64>>
    ensures { result ≡ linked_in part.now }
{
    match part {
        Some(value) => match &value.node {
            Node::Int(number) => Some(Some(*number)),
            _ => None,
        },
        None => Some(None),
    }
}

/// A code that is there.
pub(crate) fn code_in(alloc: Global, part: &Option<Val>) -> Result<Option<Code>, NoMemory>
    ensures { IfOk result (λ code. code ≡ code_in part.now) }
{
    let Some(value) = part else { return Ok(None) };
    let Node::Chosen { which, value } = &value.node else {
        return Ok(None);
    };
    match (*which, &value.node) {
        (0, Node::Int(number)) => Ok(Some(Code::Local(*number))),
        (1, Node::ObjectId(oid)) => Ok(Some(Code::Global(oid.copy(alloc)?))),
        _ => Ok(None),
    }
}

/// The octets of one whole value, or that there is none.
pub(crate) fn any_in(part: &Option<Val>) -> Option<Option<&Octets>>
    ensures { option_map option_copied result ≡ any_in part.now }
{
    match part {
        Some(value) => match &value.node {
            Node::Any(octets) => Some(Some(octets)),
            _ => None,
        },
        None => Some(None),
    }
}

/// The octets of one whole value that is there.
fn octets_in(part: &Option<Val>) -> Option<&Octets>
    ensures { option_copied result ≡ octets_in part.now }
{
    match part {
        Some(value) => match &value.node {
            Node::Any(octets) => Some(octets),
            _ => None,
        },
        None => None,
    }
}

/// The invocation that a reject names, or that it names none.
fn rejected_in(part: &Option<Val>) -> Option<Option<i64>>
    ensures { result ≡ rejected_in part.now }
{
    let Some(value) = part else { return None };
    let Node::Chosen { which, value } = &value.node else {
        return None;
    };
    match (*which, &value.node) {
        (0, Node::Int(number)) => Some(Some(*number)),
        (1, Node::Null) => Some(None),
        _ => None,
    }
}

/// A problem of this kind.
fn problem_by(kind: ProblemKind, value: &Val) -> Option<Problem>
    ensures { result ≡ problem_by kind value.now }
{
    match &value.node {
        Node::Int(number) => Some(Problem {
            kind,
            number: *number,
        }),
        _ => None,
    }
}

/// The problem that a reject tells.
fn problem_in(part: &Option<Val>) -> Option<Problem>
    ensures { result ≡ problem_in part.now }
{
    let Some(value) = part else { return None };
    let Node::Chosen { which, value } = &value.node else {
        return None;
    };
    match *which {
        0 => problem_by(ProblemKind::General, value),
        1 => problem_by(ProblemKind::Invoke, value),
        2 => problem_by(ProblemKind::Result, value),
        3 => problem_by(ProblemKind::Error, value),
        _ => None,
    }
}

/// What is returned.
#[derive(Drop)]
pub(crate) struct Returning {
    pub(crate) code: Code,
    pub(crate) octets: Octets,
}

/// A code with the octets of the value.
fn returned_as(code: Code, octets: Octets) -> Returning
    ensures { result ≡ record { code = code; octets = octets } }
{
    Returning { code, octets }
}

/// What is returned, by its two parts.
fn outcome_by(
    alloc: Global,
    code: &Option<Val>,
    value: &Option<Val>,
) -> Result<Option<Returning>, NoMemory>
    ensures { IfOk result (λ o. option_map outcome_of o ≡ outcome_by (code_in code.now)
        (octets_in value.now)) }
{
    let Some(code) = code_in(alloc, code)? else {
        return Ok(None);
    };
    let Some(octets) = octets_in(value) else {
        return Ok(None);
    };
    Ok(Some(returned_as(code, octets.copy(alloc)?)))
}

/// What is returned, by its parts.
fn outcome_pieces(alloc: Global, pieces: &[Option<Val>]) -> Result<Option<Returning>, NoMemory>
    ensures { IfOk result (λ o. option_map outcome_of o ≡ outcome_pieces pieces.now) }
{
    match pieces {
        [code, value] => outcome_by(alloc, code, value),
        _ => Ok(None),
    }
}

/// What is returned, if anything.
#[tactic(auto, using(crate::proofs::Lists::pieces_back))]
fn returned_in(alloc: Global, part: &Option<Val>) -> Result<Option<Option<Returning>>, NoMemory>
    ensures { IfOk result (λ o. option_map (option_map outcome_of) o ≡ returned_in part.now) }
{
    let Some(value) = part else {
        return Ok(Some(None));
    };
    let Node::Parts(pieces) = &value.node else {
        return Ok(None);
    };
    match outcome_pieces(alloc, pieces.as_slice())? {
        Some(outcome) => Ok(Some(Some(outcome))),
        None => Ok(None),
    }
}

/// The octets that are there, as new ones.
pub(crate) fn copied(alloc: Global, octets: Option<&Octets>) -> Result<Option<Octets>, NoMemory>
    ensures { IfOk result (λ o. o ≡ option_copied octets.entry) }
{
    match octets {
        Some(octets) => Ok(Some(octets.copy(alloc)?)),
        None => Ok(None),
    }
}

/// An invocation, by its four parts.
fn invoke_by(
    alloc: Global,
    id: &Option<Val>,
    linked: &Option<Val>,
    code: &Option<Val>,
    argument: &Option<Val>,
) -> Result<Option<ApduHead>, NoMemory>
    ensures { IfOk result (λ o. o ≡ option_map fields_of
        (invoke_by (integer_in id.now) (linked_in linked.now) (code_in code.now)
        (any_in argument.now))) }
{
    let id = integer_in(id);
    let (Some(_), Some(linked), Some(argument)) = (id, linked_in(linked), any_in(argument)) else {
        return Ok(None);
    };
    let Some(code) = code_in(alloc, code)? else {
        return Ok(None);
    };
    Ok(Some(ApduHead {
        kind: ApduKind::Invoke,
        id,
        linked,
        code: Some(code),
        problem: None,
        rest: copied(alloc, argument)?,
        room: MOST_OCTETS,
    }))
}

/// A result, by its two parts.
fn result_by(
    alloc: Global,
    id: &Option<Val>,
    returned: &Option<Val>,
) -> Result<Option<ApduHead>, NoMemory>
    ensures { IfOk result (λ o. o ≡ option_map fields_of
        (result_by (integer_in id.now) (returned_in returned.now))) }
{
    let id = integer_in(id);
    let (Some(_), Some(returned)) = (id, returned_in(alloc, returned)?) else {
        return Ok(None);
    };
    Ok(Some(result_head(id, returned)))
}

/// The head of a result with this identifier.
pub(crate) fn result_head(id: Option<i64>, returned: Option<Returning>) -> ApduHead
    ensures { (i : ℤ) → id ≡ Some i →
        result ≡ fields_of (heads.result i (option_map outcome_of returned)) }
{
    let (code, rest) = match returned {
        Some(Returning { code, octets }) => (Some(code), Some(octets)),
        None => (None, None),
    };
    ApduHead {
        kind: ApduKind::Result,
        id,
        linked: None,
        code,
        problem: None,
        rest,
        room: MOST_OCTETS,
    }
}

/// An error, by its three parts.
fn error_by(
    alloc: Global,
    id: &Option<Val>,
    code: &Option<Val>,
    parameter: &Option<Val>,
) -> Result<Option<ApduHead>, NoMemory>
    ensures { IfOk result (λ o. o ≡ option_map fields_of
        (error_by (integer_in id.now) (code_in code.now) (any_in parameter.now))) }
{
    let id = integer_in(id);
    let (Some(_), Some(parameter)) = (id, any_in(parameter)) else {
        return Ok(None);
    };
    let Some(code) = code_in(alloc, code)? else {
        return Ok(None);
    };
    Ok(Some(ApduHead {
        kind: ApduKind::Error,
        id,
        linked: None,
        code: Some(code),
        problem: None,
        rest: copied(alloc, parameter)?,
        room: MOST_OCTETS,
    }))
}

/// A reject, by its two parts.
fn reject_by(id: &Option<Val>, problem: &Option<Val>) -> Option<ApduHead>
    ensures { result ≡ option_map fields_of
        (reject_by (rejected_in id.now) (problem_in problem.now)) }
{
    match (rejected_in(id), problem_in(problem)) {
        (Some(id), Some(problem)) => Some(ApduHead {
            kind: ApduKind::Reject,
            id,
            linked: None,
            code: None,
            problem: Some(problem),
            rest: None,
            room: MOST_OCTETS,
        }),
        _ => None,
    }
}

fn invoke_pieces(alloc: Global, pieces: &[Option<Val>]) -> Result<Option<ApduHead>, NoMemory>
    ensures { IfOk result (λ o. o ≡ option_map fields_of (invoke_pieces pieces.now)) }
{
    match pieces {
        [id, linked, code, argument] => invoke_by(alloc, id, linked, code, argument),
        _ => Ok(None),
    }
}

fn result_pieces(alloc: Global, pieces: &[Option<Val>]) -> Result<Option<ApduHead>, NoMemory>
    ensures { IfOk result (λ o. o ≡ option_map fields_of (result_pieces pieces.now)) }
{
    match pieces {
        [id, returned] => result_by(alloc, id, returned),
        _ => Ok(None),
    }
}

fn error_pieces(alloc: Global, pieces: &[Option<Val>]) -> Result<Option<ApduHead>, NoMemory>
    ensures { IfOk result (λ o. o ≡ option_map fields_of (error_pieces pieces.now)) }
{
    match pieces {
        [id, code, parameter] => error_by(alloc, id, code, parameter),
        _ => Ok(None),
    }
}

pub(crate) fn reject_pieces(pieces: &[Option<Val>]) -> Option<ApduHead>
    ensures { result ≡ option_map fields_of (reject_pieces pieces.now) }
{
    match pieces {
        [id, problem] => reject_by(id, problem),
        _ => None,
    }
}

/// The head of this kind with these parts.
fn ber_pieces(
    alloc: Global,
    which: u32,
    pieces: &[Option<Val>],
) -> Result<Option<ApduHead>, NoMemory>
    ensures { IfOk result (λ o. o ≡ option_map fields_of (ber_pieces which pieces.now)) }
{
    match which {
        0 => invoke_pieces(alloc, pieces),
        1 => result_pieces(alloc, pieces),
        2 => error_pieces(alloc, pieces),
        3 => Ok(reject_pieces(pieces)),
        _ => Ok(None),
    }
}

/// The head that a value is in BER and DER.
#[tactic(auto, using(crate::proofs::Lists::pieces_back))]
pub(crate) fn ber_head(alloc: Global, value: &Val) -> Result<Option<ApduHead>, NoMemory>
    ensures { IfOk result (λ o. o ≡ option_map fields_of (ber_head value.now)) }
{
    let Node::Chosen { which, value } = &value.node else {
        return Ok(None);
    };
    match &value.node {
        Node::Parts(pieces) => ber_pieces(alloc, *which, pieces.as_slice()),
        _ => Ok(None),
    }
}
