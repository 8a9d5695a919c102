//! What alterations name, and which of them may not be asked for at all.

ghost use Rattle.std.specs.Prelude.{◌≡◌, IfOk, min, ◌||◌, length, nat_eq, ◌+◌};
ghost use Rattle.std.specs.List.{list_any};
ghost use Rattle.osi_base.specs.Limits.{most_contexts};
ghost use Rattle.association_ground.specs.end_rules.Sets.{is_named_in, is_deleted_in, is_among, named_ids, proposed_ids, count_added, has_parity};
ghost use Rattle.association_ground.specs.end_rules.Altering.{has_double, is_no_context, is_bad};

use crate::alteration::Alteration;
use crate::altering::named_ids;
use association_ground::is_among;
use osi_base::{NoMemory, Proposal, is_badly_offered};
use std::alloc::Global;

/// Whether the identifier is one of an initiator's, or else one of a responder's (X.226 8.2).
pub fn has_parity(initiator: bool, id: u32) -> bool
    ensures { result ≡ has_parity initiator id }
{
    if initiator { id % 2 == 1 } else { id % 2 == 0 }
}

/// Whether one of the proposed contexts has this identifier.
pub fn is_proposed(id: u32, add: &[Proposal]) -> bool
    ensures { result ≡ is_among id (proposed_ids add.now) }
{
    for proposal in add {
        if id == proposal.id {
            return true;
        }
    }
    false
}

/// Whether the alteration names the identifier.
fn names(alteration: &Alteration, id: u32) -> bool
    ensures { result ≡ is_among id (named_ids alteration.now) }
{
    is_proposed(id, alteration.add.as_slice()) || is_among(id, alteration.delete.as_slice())
}

/// Whether one of the alterations names the identifier.
pub fn is_named_in(own: &[Alteration], id: u32) -> bool
    ensures { result ≡ is_named_in own.now id }
{
    for alteration in own {
        if names(alteration, id) {
            return true;
        }
    }
    false
}

/// Whether the alteration deletes the identifier.
fn deletes(alteration: &Alteration, id: u32) -> bool
    ensures { result ≡ is_among id alteration.now.delete }
{
    is_among(id, alteration.delete.as_slice())
}

/// Whether one of the alterations deletes the identifier.
pub fn is_deleted_in(own: &[Alteration], id: u32) -> bool
    ensures { result ≡ is_deleted_in own.now id }
{
    for alteration in own {
        if deletes(alteration, id) {
            return true;
        }
    }
    false
}

/// How many contexts an alteration would add, at most 65.
fn added_len(alteration: &Alteration) -> usize
    ensures { result ≡ min (most_contexts + 1) (length alteration.now.add) }
{
    alteration.add.len().min(65)
}

/// How many contexts the alterations would add, at most 65.
pub fn count_added(own: &[Alteration]) -> usize
    ensures count { result ≡ min (most_contexts + 1) (count_added own.now) }
{
    let mut count: usize = 0;
    for alteration in own {
        count = (count + added_len(alteration)).min(65);
    }
    count
}

/// Whether some identifier comes twice.
pub fn has_double(ids: &[u32]) -> bool
    ensures { result ≡ has_double ids.now }
{
    for (i, id) in ids.iter().enumerate() {
        if is_among(*id, &ids[i + 1..]) {
            return true;
        }
    }
    false
}

/// Whether the identifier is none of a context.
fn is_no_context(id: u32) -> bool
    ensures { result ≡ is_no_context id }
{
    id == 0 || id > 32_767
}

/// Whether one of these is no identifier of a context.
fn has_no_context(ids: &[u32]) -> bool
    ensures { result ≡ list_any is_no_context ids.now }
{
    for id in ids {
        if is_no_context(*id) {
            return true;
        }
    }
    false
}

/// Whether nothing is asked for, an identifier comes twice or is none, or an addition offers no or
/// too many transfer syntaxes.
pub fn is_bad_alteration(alloc: Global, alteration: &Alteration) -> Result<bool, NoMemory>
    ensures { IfOk result (λ bad. bad ≡ is_bad alteration.now) }
{
    let ids = named_ids(alloc, alteration)?;
    Ok(
        ids.len() == 0
            || has_double(ids.as_slice())
            || has_no_context(ids.as_slice())
            || is_badly_offered(alteration.add.as_slice()),
    )
}
