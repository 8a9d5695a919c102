//! Sets after alterations that were answered.

ghost use Rattle.std.specs.Prelude.{◌≡◌, ◌++◌, IfOk, OnOk, [], ◌∷◌};
ghost use Rattle.association_ground.specs.end_rules.Sets.{proposed_ids, named_ids, accepted_pair, named_syntax, pair_accepted, put_accepted, with_added, with_deleted, altered, accepted_set};

use crate::alteration::Alteration;
use crate::sets::put_context;
use osi_base::{
    AddAnswer, Answers, Copied, Ids, ListOf, NoMemory, Oid, Pair, Proposal, SetItem, SetList,
    Syntax, remove_context,
};
use std::alloc::Global;

/// Puts the identifiers of proposed contexts behind others.
fn push_ids(ids: &mut Ids, add: &[Proposal]) -> Result<(), NoMemory>
    ensures { OnOk result (ids.new ≡ ids.old ++ proposed_ids add.now) }
{
    for proposal in add {
        ids.push(proposal.id)?;
    }
    Ok(())
}

/// The identifiers of proposed contexts.
pub fn proposed_ids(alloc: Global, add: &[Proposal]) -> Result<Ids, NoMemory>
    ensures { IfOk result (λ ids. ids ≡ proposed_ids add.now) }
{
    let mut ids: Ids = ListOf::new(alloc);
    push_ids(&mut ids, add)?;
    Ok(ids)
}

/// The identifiers that an alteration names.
pub fn named_ids(alloc: Global, alteration: &Alteration) -> Result<Ids, NoMemory>
    ensures { IfOk result (λ ids. ids ≡ named_ids alteration.now) }
{
    let mut ids = proposed_ids(alloc, alteration.add.as_slice())?;
    for id in alteration.delete.as_slice() {
        ids.push(*id)?;
    }
    Ok(ids)
}

/// The syntax with a name that is there.
fn named_syntax(name: &Option<Oid>) -> Option<Syntax>
    ensures { result ≡ named_syntax name.now }
{
    match name {
        None => None,
        Some(name) => Syntax::from_name(name.arcs()),
    }
}

/// The pair that an answer accepts.
fn pair_accepted(
    alloc: Global,
    proposal: &Proposal,
    answer: &AddAnswer,
) -> Result<Option<Pair>, NoMemory>
    ensures { IfOk result (λ pair. pair ≡ pair_accepted proposal.now answer.now) }
{
    if answer.result != 0 {
        return Ok(None);
    }
    match named_syntax(&answer.transfer) {
        None => Ok(None),
        Some(transfer) => Ok(Some(Pair {
            abstract_name: proposal.abstract_name.copy(alloc)?,
            transfer,
        })),
    }
}

/// Puts a proposed context into a set, if the answer accepts it.
fn put_accepted(
    alloc: Global,
    set: &mut Vec<SetItem>,
    proposal: &Proposal,
    answer: &AddAnswer,
) -> Result<(), NoMemory>
    ensures { OnOk result (set.new.items ≡ put_accepted proposal.now.id
        (pair_accepted proposal.now answer.now) set.old.items) }
{
    match pair_accepted(alloc, proposal, answer)? {
        None => Ok(()),
        Some(pair) => put_context(set, proposal.id, pair),
    }
}

/// Puts the accepted ones of proposed contexts into a set.
#[tactic(auto, using(crate::proofs::Fits::none_added))]
fn add(
    alloc: Global,
    set: &mut Vec<SetItem>,
    proposals: &[Proposal],
    answers: &[AddAnswer],
) -> Result<(), NoMemory>
    ensures { OnOk result (set.new.items ≡ with_added proposals.now answers.now set.old.items) }
{
    for (place, proposal) in proposals.iter().enumerate() {
        if place >= answers.len() {
            return Ok(());
        }
        put_accepted(alloc, set, proposal, &answers[place])?;
    }
    Ok(())
}

/// Takes a context out of a set, if the answer to its deletion accepts it.
fn delete_accepted(set: &mut Vec<SetItem>, id: u32, answer: u8)
    ensures { set.new.items ≡ with_deleted (id ∷ []) (answer ∷ []) set.old.items }
{
    if answer == 0 {
        remove_context(set, id);
    }
}

/// Takes the accepted ones of deletions out of a set.
#[tactic(auto, using(crate::proofs::Fits::none_deleted))]
fn delete(set: &mut Vec<SetItem>, ids: &[u32], answers: &[u8])
    ensures { set.new.items ≡ with_deleted ids.now answers.now set.old.items }
{
    for (place, id) in ids.iter().enumerate() {
        if place >= answers.len() {
            return;
        }
        delete_accepted(set, *id, answers[place]);
    }
}

/// Alters a set as was asked for and answered: additions first.
pub fn alter_set(
    alloc: Global,
    set: SetList,
    alteration: &Alteration,
    answers: &Answers,
) -> Result<SetList, NoMemory>
    ensures { IfOk result (λ set_after. set_after ≡ altered alteration.now answers.now set) }
{
    let mut items = set.into_vec();
    add(
        alloc,
        &mut items,
        alteration.add.as_slice(),
        answers.added.as_slice(),
    )?;
    delete(
        &mut items,
        alteration.delete.as_slice(),
        answers.deleted.as_slice(),
    );
    Ok(ListOf::from_vec(items))
}

/// The accepted contexts of an association: what was proposed, with its answers.
pub fn accepted_set(
    alloc: Global,
    proposals: &[Proposal],
    answers: &[AddAnswer],
) -> Result<SetList, NoMemory>
    ensures { IfOk result (λ set. set ≡ accepted_set proposals.now answers.now) }
{
    let mut items = Vec::new(alloc);
    add(alloc, &mut items, proposals, answers)?;
    Ok(ListOf::from_vec(items))
}
