//! The values of a message by their contents, and the parts of a transfer that they carry.

ghost use Rattle.std.specs.Prelude.{◌≡◌, ◌≤◌, ◌+◌, ◌++◌, ◌∷◌, min, length, nat_lt, not, OnOk, option_map};
ghost use Rattle.std.specs.List.{list_any};
ghost use Rattle.osi_base.specs.Limits.{most_transferred};
ghost use Rattle.end_rules.specs.Messages.{DataValue};
ghost use Rattle.end_rules.specs.State.{joined, Octets as octets_piece};
ghost use Rattle.end_rules.specs.Faults.{rtse_fault, fault_if, or_fault};
ghost use Rattle.end_rules.specs.TakesData.{part_in, parts_in, is_part, is_associated, is_remote, values_fault, with_parts};
ghost use Rattle.association_words.specs.Seen.{seen_fault, seen_content, seen_values};
ghost use Rattle.association_hearing.specs.association_state.Seen.{base_in, seen};

use association_ground::is_reliable;
use association_hearing::association_state_layer::{Basis, Body};
use association_hearing::part_in;
use association_words::{Fault, Value, ValueContent};
use osi_base::{Layer, NoMemory, Octets};
use std::alloc::Global;

/// The most octets of a transfer.
const MOST_TRANSFERRED: usize = 262_400;

/// Whether a value is a part of a transfer.
fn is_part(content: &ValueContent) -> bool
    ensures { result ≡ is_part (seen_content content.now) }
{
    match content {
        ValueContent::Part(_) => true,
        ValueContent::Remote { .. } => false,
        ValueContent::Unread(_) => false,
        ValueContent::Association { .. } => false,
        ValueContent::Plea { .. } => false,
    }
}

/// Whether a value is one of association control.
fn is_associated(content: &ValueContent) -> bool
    ensures { result ≡ is_associated (seen_content content.now) }
{
    match content {
        ValueContent::Association { .. } => true,
        ValueContent::Part(_) => false,
        ValueContent::Remote { .. } => false,
        ValueContent::Unread(_) => false,
        ValueContent::Plea { .. } => false,
    }
}

/// Whether a value is one of remote operations.
fn is_remote(content: &ValueContent) -> bool
    ensures { result ≡ is_remote (seen_content content.now) }
{
    match content {
        ValueContent::Remote { .. } => true,
        ValueContent::Unread(_) => true,
        ValueContent::Association { .. } => false,
        ValueContent::Part(_) => false,
        ValueContent::Plea { .. } => false,
    }
}

/// Whether a value of association control is among these.
pub(crate) fn has_associated(values: &[Value]) -> bool
    ensures { result ≡ list_any (λ (v : DataValue). is_associated v.content)
        (seen_values values.now) }
{
    for value in values {
        if is_associated(&value.content) {
            return true;
        }
    }
    false
}

/// Whether one of these is no part of a transfer.
fn has_other(values: &[Value]) -> bool
    ensures { result ≡ list_any (λ (v : DataValue). not (is_part v.content))
        (seen_values values.now) }
{
    for value in values {
        if !is_part(&value.content) {
            return true;
        }
    }
    false
}

/// Whether one of these is none of remote operations.
fn has_strange(values: &[Value]) -> bool
    ensures { result ≡ list_any (λ (v : DataValue). not (is_remote v.content))
        (seen_values values.now) }
{
    for value in values {
        if !is_remote(&value.content) {
            return true;
        }
    }
    false
}

/// How many octets the parts have, at most 262,401.
#[tactic(auto, using(crate::proofs::Lengths::one_more))]
fn parts_len(values: &[Value]) -> usize
    ensures len { result ≡ min (most_transferred + 1)
        (length (parts_in (seen_values values.now))) }
{
    let mut len: usize = 0;
    for value in values {
        len = (len + part_in(&value.content).len().min(262_401)).min(262_401);
    }
    len
}

/// Whether a transfer would have too many octets with these parts.
#[tactic(auto, using(crate::proofs::Lengths::too_many))]
fn is_too_long(body: &Body, values: &[Value]) -> bool
    ensures { result ≡ nat_lt most_transferred (length (joined (seen body.now).receiving.pieces
        ++ parts_in (seen_values values.now))) }
{
    body.receiving.pieces.octets().min(262_401) + parts_len(values) > MOST_TRANSFERRED
}

/// Why parts of a transfer may not be taken.
fn parts_fault(basis: &Basis<'_>, body: &Body, values: &[Value]) -> Option<Fault>
    ensures { option_map seen_fault result ≡ or_fault (fault_if (list_any (λ (v : DataValue). not
        (is_part v.content)) (seen_values values.now)) rtse_fault) (fault_if
        (nat_lt most_transferred (length (joined (seen body.now).receiving.pieces
        ++ parts_in (seen_values values.now)))) rtse_fault) }
{
    if has_other(values) || is_too_long(body, values) {
        Some(Fault::at(basis.alloc, Layer::Rtse, 0, 4))
    } else {
        None
    }
}

/// What data may not carry: values of association control anywhere; in reliable mode what is no
/// part of a transfer, or too many octets; else what is none of remote operations.
pub(crate) fn values_fault(basis: &Basis<'_>, body: &Body, values: &[Value]) -> Option<Fault>
    ensures { option_map seen_fault result ≡ values_fault (base_in basis.now) (seen body.now)
        (seen_values values.now) }
{
    if has_associated(values) {
        return Some(Fault::at(basis.alloc, Layer::Acse, 0, 0));
    }
    if is_reliable(basis.config.mode) {
        return parts_fault(basis, body, values);
    }
    if has_strange(values) {
        return Some(Fault::at(basis.alloc, Layer::Presentation, 0, 6));
    }
    None
}

/// Puts a part behind the pieces of the peer's activity.
fn push_part(alloc: Global, body: &mut Body, content: &ValueContent) -> Result<(), NoMemory>
    ensures { OnOk result (seen body.new ≡ record (seen body.old) {
      receiving = record (seen body.old).receiving {
        pieces = octets_piece (part_in (seen_content content.now))
            ∷ (seen body.old).receiving.pieces;
      };
    }) }
{
    let octets = Octets::from_slice(alloc, part_in(content))?;
    body.receiving.pieces.push_octets(octets)
}

/// Keeps each part as a piece of the peer's activity.
pub(crate) fn take_parts(alloc: Global, body: &mut Body, values: &[Value]) -> Result<(), NoMemory>
    ensures { OnOk result (seen body.new ≡ with_parts (seen_values values.now) (seen body.old)) }
{
    for value in values {
        push_part(alloc, body, &value.content)?;
    }
    Ok(())
}
