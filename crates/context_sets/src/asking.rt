//! What an end may ask for.

ghost use Rattle.std.specs.Prelude.{◌≡◌, ◌+◌, ◌≤◌, ◌||◌, true, [], length, IfOk, OnOk};
ghost use Rattle.std.specs.BTreeSet.{contains, Updates};
ghost use Rattle.std.specs.Bool.{OnFalse};
ghost use Rattle.std.specs.Option.{option_copied};
ghost use Rattle.std.specs.Ordering.{nat_cmp};
ghost use Rattle.osi_base.specs.Limits.{most_contexts};
ghost use Rattle.context_sets.specs.Alterations.{additions, named_by, is_among, names, is_named, is_deleted};
ghost use Rattle.context_sets.specs.Asking.{is_of, is_no_identifier, are_bad, is_bad, first_refusal, addition_refusal, pair_refusal, deletion_refusal, is_over, refusal};

use crate::alteration::Alteration;
use crate::fault::SetRefusal;
use crate::syntaxes::is_fixed;
use osi_base::{NoMemory, Pair, Proposal, SetItem, is_badly_offered, pair_of};
use std::alloc::Global;
use std::collections::BTreeSet;

/// Whether an identifier is one of an initiator's, or else one of a responder's.
pub(crate) fn is_of(initiator: bool, id: u32) -> bool
    ensures { result ≡ is_of initiator id }
{
    id % 2 == if initiator { 1 } else { 0 }
}

/// How many contexts the alterations would add.
pub(crate) fn additions(alterations: &[Alteration]) -> usize
    requires { additions alterations.now ≤ most_contexts }
    ensures { result ≡ additions alterations.now }
{
    let mut count = 0;
    for alteration in alterations {
        count += alteration.added.len();
    }
    count
}

pub(crate) fn is_among(id: u32, ids: &[u32]) -> bool
    ensures { result ≡ is_among id ids.now }
{
    ids.contains(&id)
}

fn names(id: u32, alteration: &Alteration) -> bool
    ensures { result ≡ names id alteration.now }
{
    for proposal in alteration.added.as_slice() {
        if proposal.id == id {
            return true;
        }
    }
    is_among(id, alteration.deleted.as_slice())
}

/// Whether one of the alterations names the identifier.
fn is_named(alterations: &[Alteration], id: u32) -> bool
    ensures { result ≡ is_named alterations.now id }
{
    for alteration in alterations {
        if names(id, alteration) {
            return true;
        }
    }
    false
}

/// Whether one of the alterations deletes the identifier.
pub(crate) fn is_deleted(alterations: &[Alteration], id: u32) -> bool
    ensures { result ≡ is_deleted alterations.now id }
{
    for alteration in alterations {
        if is_among(id, alteration.deleted.as_slice()) {
            return true;
        }
    }
    false
}

/// Notes that an identifier was met, and answers whether it was met before.
pub(crate) fn meets_again(met: &mut BTreeSet<u32>, id: u32) -> Result<bool, NoMemory>
    ensures again { IfOk result (λ again. again ≡ contains nat_cmp met.old id) }
    ensures updates { OnOk result (Updates nat_cmp met.old met.new id true) }
{
    Ok(!met.insert(id)?)
}

fn is_no_identifier(id: u32) -> bool
    ensures { result ≡ is_no_identifier id }
{
    id == 0 || id > 32767
}

/// Whether an identifier is none or was met before; if not, notes that it was met.
fn is_bad_next(met: &mut BTreeSet<u32>, id: u32) -> Result<bool, NoMemory>
    ensures bad { IfOk result (λ bad. bad ≡ (is_no_identifier id || contains nat_cmp met.old id)) }
    ensures updates { IfOk result (λ bad. OnFalse bad (Updates nat_cmp met.old met.new id true)) }
{
    if is_no_identifier(id) {
        return Ok(true);
    }
    meets_again(met, id)
}

/// Whether one of the identifiers that the alteration names is none or stands twice.
fn are_bad(alloc: Global, asked: &Alteration) -> Result<bool, NoMemory>
    ensures { IfOk result (λ bad. bad ≡ are_bad [] (named_by asked.now)) }
{
    let mut met = BTreeSet::new(alloc);
    for proposal in asked.added.as_slice() {
        if is_bad_next(&mut met, proposal.id)? {
            return Ok(true);
        }
    }
    for id in asked.deleted.as_slice() {
        if is_bad_next(&mut met, *id)? {
            return Ok(true);
        }
    }
    Ok(false)
}

fn is_bad(alloc: Global, asked: &Alteration) -> Result<bool, NoMemory>
    ensures { IfOk result (λ bad. bad ≡ is_bad asked.now) }
{
    if asked.added.len() == 0 && asked.deleted.len() == 0 {
        return Ok(true);
    }
    if are_bad(alloc, asked)? {
        return Ok(true);
    }
    Ok(is_badly_offered(asked.added.as_slice()))
}

/// What an end asks over.
#[derive(Clone, Copy, Debug)]
pub(crate) struct AskedOver<'a> {
    pub initiator: bool,
    pub items: &'a [SetItem],
    pub own: &'a [Alteration],
    pub used: &'a [u32],
}

fn addition_refusal(ground: &AskedOver<'_>, proposal: &Proposal) -> Option<SetRefusal>
    ensures { result ≡ addition_refusal ground.now.initiator ground.now.items.now ground.now.own.now
        proposal.now }
{
    let id = proposal.id;
    if !is_of(ground.initiator, id) {
        return Some(SetRefusal::WrongParity(id));
    }
    if is_named(ground.own, id) {
        return Some(SetRefusal::Named(id));
    }
    if pair_of(ground.items, id).is_some() {
        return Some(SetRefusal::Present(id));
    }
    None
}

fn pair_refusal(used: &[u32], id: u32, pair: Option<&Pair>) -> Option<SetRefusal>
    ensures { result ≡ pair_refusal used.now id (option_copied pair.entry) }
{
    match pair {
        None => Some(SetRefusal::Absent(id)),
        Some(pair) => {
            if is_fixed(pair.abstract_name.arcs()) {
                return Some(SetRefusal::Fixed(id));
            }
            if is_among(id, used) {
                return Some(SetRefusal::InUse(id));
            }
            None
        }
    }
}

fn deletion_refusal(ground: &AskedOver<'_>, id: u32) -> Option<SetRefusal>
    ensures { result ≡ deletion_refusal ground.now.items.now ground.now.own.now ground.now.used.now
        id }
{
    if is_named(ground.own, id) {
        return Some(SetRefusal::Named(id));
    }
    pair_refusal(ground.used, id, pair_of(ground.items, id))
}

/// The first refusal of an addition.
fn additions_refusal(ground: &AskedOver<'_>, added: &[Proposal]) -> Option<SetRefusal>
    ensures { result ≡ first_refusal (addition_refusal ground.now.initiator ground.now.items.now
        ground.now.own.now) added.now }
{
    for proposal in added {
        if let Some(refusal) = addition_refusal(ground, proposal) {
            return Some(refusal);
        }
    }
    None
}

/// The first refusal of a deletion.
fn deletions_refusal(ground: &AskedOver<'_>, deleted: &[u32]) -> Option<SetRefusal>
    ensures { result ≡ first_refusal (deletion_refusal ground.now.items.now ground.now.own.now
        ground.now.used.now) deleted.now }
{
    for id in deleted {
        if let Some(refusal) = deletion_refusal(ground, *id) {
            return Some(refusal);
        }
    }
    None
}

fn is_over(ground: &AskedOver<'_>, added: &[Proposal]) -> bool
    requires { length ground.now.items.now + additions ground.now.own.now ≤ most_contexts }
    ensures { result ≡ is_over ground.now.items.now ground.now.own.now added.now }
{
    let taken = ground.items.len() + additions(ground.own);
    added.len() > 64 - taken
}

/// Why the end doesn't ask for this alteration.
pub(crate) fn refusal(
    alloc: Global,
    ground: &AskedOver<'_>,
    asked: &Alteration,
) -> Result<Option<SetRefusal>, NoMemory>
    requires { length ground.now.items.now + additions ground.now.own.now ≤ most_contexts }
    ensures { IfOk result (λ first. first ≡ refusal ground.now.initiator ground.now.items.now
        ground.now.own.now ground.now.used.now asked.now) }
{
    if ground.own.len() >= 4 {
        return Ok(Some(SetRefusal::AlterPending));
    }
    if is_bad(alloc, asked)? {
        return Ok(Some(SetRefusal::BadProposal));
    }
    if let Some(refusal) = additions_refusal(ground, asked.added.as_slice()) {
        return Ok(Some(refusal));
    }
    if let Some(refusal) = deletions_refusal(ground, asked.deleted.as_slice()) {
        return Ok(Some(refusal));
    }
    if is_over(ground, asked.added.as_slice()) {
        return Ok(Some(SetRefusal::SetFull));
    }
    Ok(None)
}
