//! Heads as values of the rows of the fixed table.

ghost use Rattle.std.specs.Prelude.{◌≡◌, IfOk, Some, None, is_some};
ghost use Rattle.std.specs.Option.{option_map};
ghost use Rattle.asn1_types.specs.Value.{any, boolean, chosen, parts as tree_parts, present, no_parts};
ghost use Rattle.asn1_types.specs.ValueView.{parts_of};
ghost use Rattle.apdu_spelling.specs.Heads as heads;
ghost use Rattle.apdu_spelling.specs.Values.{code_value, rejected_value, problem_value, kind_place, reject_value, ber_value, packed_value};

use asn1_types::{MaybeVals, Node, Val};
use fixed_tables::{chosen, integer, number_part, object_id, sequence};
use osi_base::{NoMemory, Octets, Problem, ProblemKind};
use std::alloc::Global;
use stub_tables::Code;

/// The value of a code.
fn code(alloc: Global, code: &Code) -> Result<Val, NoMemory>
    ensures { IfOk result (λ value. value ≡ code_value code.now) }
{
    match code {
        Code::Local(number) => chosen(alloc, 0, integer(*number)),
        Code::Global(oid) => chosen(alloc, 1, object_id(alloc, oid)?),
    }
}

/// One whole value, if it is there.
fn any_or_none(octets: Option<Octets>) -> Option<Val>
    ensures { result ≡ option_map any octets }
{
    match octets {
        Some(octets) => Some(Val {
            node: Node::Any(octets),
        }),
        None => None,
    }
}

/// Whether octets follow.
fn mark(octets: &Option<Octets>) -> Val
    ensures { result ≡ boolean (is_some octets.now) }
{
    Val {
        node: Node::Bool(octets.is_some()),
    }
}

/// A head of this kind with these parts.
fn head(alloc: Global, which: u32, parts: MaybeVals) -> Result<Val, NoMemory>
    ensures { IfOk result (λ head. head ≡ chosen which (tree_parts (parts_of parts.items))) }
{
    chosen(alloc, which, sequence(parts))
}

/// The head of an invocation in BER and DER.
pub(crate) fn ber_invoke(
    alloc: Global,
    id: i64,
    linked: Option<i64>,
    operation: &Code,
    octets: Option<Octets>,
) -> Result<Val, NoMemory>
    ensures { IfOk result (λ head. head ≡ ber_value (heads.invoke id linked operation.now octets)) }
{
    let mut parts = Vec::new(alloc);
    parts.push(Some(integer(id)))?;
    parts.push(number_part(linked))?;
    parts.push(Some(code(alloc, operation)?))?;
    parts.push(any_or_none(octets))?;
    head(alloc, 0, parts)
}

/// The head of an invocation in the packed syntax, with these octets behind it.
pub(crate) fn packed_invoke(
    alloc: Global,
    id: i64,
    linked: Option<i64>,
    operation: &Code,
    octets: &Option<Octets>,
) -> Result<Val, NoMemory>
    ensures { IfOk result (λ head. head
        ≡ packed_value (heads.invoke id linked operation.now octets.now)) }
{
    let mut parts = Vec::new(alloc);
    parts.push(Some(integer(id)))?;
    parts.push(number_part(linked))?;
    parts.push(Some(code(alloc, operation)?))?;
    parts.push(Some(mark(octets)))?;
    head(alloc, 1, parts)
}

/// The head of an error in BER and DER.
pub(crate) fn ber_error(
    alloc: Global,
    id: i64,
    error: &Code,
    octets: Option<Octets>,
) -> Result<Val, NoMemory>
    ensures { IfOk result (λ head. head ≡ ber_value (heads.error id error.now octets)) }
{
    let mut parts = Vec::new(alloc);
    parts.push(Some(integer(id)))?;
    parts.push(Some(code(alloc, error)?))?;
    parts.push(any_or_none(octets))?;
    head(alloc, 2, parts)
}

/// The head of an error in the packed syntax, with these octets behind it.
pub(crate) fn packed_error(
    alloc: Global,
    id: i64,
    error: &Code,
    octets: &Option<Octets>,
) -> Result<Val, NoMemory>
    ensures { IfOk result (λ head. head ≡ packed_value (heads.error id error.now octets.now)) }
{
    let mut parts = Vec::new(alloc);
    parts.push(Some(integer(id)))?;
    parts.push(Some(code(alloc, error)?))?;
    parts.push(Some(mark(octets)))?;
    head(alloc, 3, parts)
}

/// What is returned, in BER and DER.
fn returned(alloc: Global, operation: &Code, octets: Octets) -> Result<Val, NoMemory>
    ensures { IfOk result (λ value. value
        ≡ tree_parts (present (code_value operation.now) (present (any octets) no_parts))) }
{
    let mut parts = Vec::new(alloc);
    parts.push(Some(code(alloc, operation)?))?;
    parts.push(any_or_none(Some(octets)))?;
    Ok(sequence(parts))
}

/// The head of a result without a value, in BER and DER.
pub(crate) fn ber_none(alloc: Global, id: i64) -> Result<Val, NoMemory>
    ensures { IfOk result (λ head. head ≡ ber_value (heads.result id None)) }
{
    let mut parts = Vec::new(alloc);
    parts.push(Some(integer(id)))?;
    parts.push(None)?;
    head(alloc, 1, parts)
}

/// The head of a result without a value, in the packed syntax.
pub(crate) fn packed_none(alloc: Global, id: i64) -> Result<Val, NoMemory>
    ensures { IfOk result (λ head. head ≡ packed_value (heads.result id None)) }
{
    let mut parts = Vec::new(alloc);
    parts.push(Some(integer(id)))?;
    parts.push(None)?;
    head(alloc, 2, parts)
}

/// The head of a result in BER and DER.
pub(crate) fn ber_result(
    alloc: Global,
    id: i64,
    operation: &Code,
    octets: Octets,
) -> Result<Val, NoMemory>
    ensures { IfOk result (λ head. head
        ≡ ber_value (heads.result id (Some (record { code = operation.now; octets = octets })))) }
{
    let mut parts = Vec::new(alloc);
    parts.push(Some(integer(id)))?;
    parts.push(Some(returned(alloc, operation, octets)?))?;
    head(alloc, 1, parts)
}

/// The head of a result in the packed syntax, with these octets behind it.
pub(crate) fn packed_result(
    alloc: Global,
    id: i64,
    operation: &Code,
    behind: &Octets,
) -> Result<Val, NoMemory>
    ensures { IfOk result (λ head. head
        ≡ packed_value (heads.result id (Some
        (record { code = operation.now; octets = behind.now })))) }
{
    let mut parts = Vec::new(alloc);
    parts.push(Some(integer(id)))?;
    parts.push(Some(code(alloc, operation)?))?;
    head(alloc, 2, parts)
}

/// What is rejected: an invocation, or NULL.
fn rejected(alloc: Global, id: Option<i64>) -> Result<Val, NoMemory>
    ensures { IfOk result (λ value. value ≡ rejected_value id) }
{
    match id {
        Some(id) => chosen(alloc, 0, integer(id)),
        None => chosen(alloc, 1, Val { node: Node::Null }),
    }
}

/// The place of a kind of problem among the four.
fn kind_place(kind: ProblemKind) -> u32
    ensures { result ≡ kind_place kind }
{
    match kind {
        ProblemKind::General => 0,
        ProblemKind::Invoke => 1,
        ProblemKind::Result => 2,
        ProblemKind::Error => 3,
    }
}

/// The head of a reject, in BER and DER as the alternative 3, in the packed syntax 4.
pub(crate) fn reject(
    alloc: Global,
    which: u32,
    id: Option<i64>,
    problem: &Problem,
) -> Result<Val, NoMemory>
    ensures { IfOk result (λ head. head ≡ chosen which (reject_value id problem.now)) }
{
    let mut parts = Vec::new(alloc);
    parts.push(Some(rejected(alloc, id)?))?;
    let number = integer(problem.number);
    parts.push(Some(chosen(alloc, kind_place(problem.kind), number)?))?;
    head(alloc, which, parts)
}
