//! The contexts of an opening: what an initiator proposes, and which stand as one is answered.

ghost use Rattle.std.specs.Prelude.{◌≡◌, ◌++◌, ◌∷◌, [], true, IfOk, is_some};
ghost use Rattle.association_sets.specs.end_rules.Base.{Spellings, base_of};
ghost use Rattle.std.specs.List.{list_any};
ghost use Rattle.osi_base.specs.Oid.{IsOid};
ghost use Rattle.association_sets.specs.end_rules.Sets.{proposed_ids, accepted_set, lowest_with};
ghost use Rattle.association_sets.specs.end_rules.Altering.{has_double};
ghost use Rattle.association_sets.specs.end_rules.Policy.{opening_policy, is_faulty_proposal};
ghost use Rattle.association_sets.specs.end_rules.Writing.{proposal_in_ber, own_proposals, proposals};
ghost use Rattle.association_sets.specs.end_rules.Connecting.{set_for, set_accepted};
ghost use Rattle.set_rules.specs.Plain.{plain_base, is_taken_id};

use crate::answering::plain_answers;
use association_sets::association_ground_layer::is_reliable;
use association_sets::{accepted_set, has_name, has_parity, is_proposed};
use dialogue::Config;
use osi_base::{
    AddAnswer, AddAnswers, Copied, ListOf, NoMemory, Oid, Oids, PresentationAccept,
    PresentationConnect, Proposal, Proposals, SetItem, SetList, pair_of,
};
use std::alloc::Global;
use stub_tables::Tables;

/// The answers to the list of an opening.
pub fn opening_policy(
    alloc: Global,
    tables: &Tables,
    config: &Config,
    proposals: &[Proposal],
) -> Result<AddAnswers, NoMemory>
    ensures { (spellings : Spellings) →
        IfOk result (λ answers. answers ≡ opening_policy (base_of tables.now config.now spellings)
        proposals.now) }
{
    plain_answers(alloc, tables, config, true, 0, proposals)
}

/// The contexts that stand as a CN is answered.
pub fn set_for(
    alloc: Global,
    tables: &Tables,
    config: &Config,
    presentation: &PresentationConnect,
) -> Result<SetList, NoMemory>
    ensures { (spellings : Spellings) →
        IfOk result (λ set. set ≡ set_for (base_of tables.now config.now spellings)
        presentation.now) }
{
    let proposals = presentation.definitions.as_slice();
    let answers = plain_answers(alloc, tables, config, true, 0, proposals)?;
    accepted_set(alloc, proposals, answers.as_slice())
}

/// A proposed context in BER.
fn proposal_in_ber(alloc: Global, id: u32, name: &[u32]) -> Result<Proposal, NoMemory>
    requires { IsOid name.now }
    ensures { IfOk result (λ p. p ≡ proposal_in_ber id name.now) }
{
    let mut transfers: Oids = ListOf::new(alloc);
    transfers.push(Oid::from_slice(alloc, &[2, 1, 1])?)?;
    Ok(Proposal {
        id,
        abstract_name: Oid::from_slice(alloc, name)?,
        transfers,
    })
}

/// The contexts that an initiator proposes for the association itself.
fn own_proposals(alloc: Global, config: &Config) -> Result<Proposals, NoMemory>
    ensures { IfOk result (λ own. own ≡ own_proposals config.now.mode) }
{
    let mut own: Proposals = ListOf::new(alloc);
    own.push(proposal_in_ber(alloc, 1, &[2, 2, 1, 0, 1])?)?;
    if is_reliable(config.mode) {
        own.push(proposal_in_ber(alloc, 3, &[2, 999, 5, 2])?)?;
    }
    Ok(own)
}

/// The contexts that an initiator proposes: those of the association, then those of its
/// configuration.
pub fn proposals(alloc: Global, config: &Config) -> Result<Proposals, NoMemory>
    ensures { IfOk result (λ all. all ≡ own_proposals config.now.mode ++ config.now.contexts) }
{
    let mut all = own_proposals(alloc, config)?;
    for proposal in config.contexts.as_slice() {
        all.push(proposal.copy(alloc)?)?;
    }
    Ok(all)
}

/// Those of the contexts that the initiator proposes that these results accept, with the accepted
/// syntax.
pub fn accepted_for(
    alloc: Global,
    config: &Config,
    results: &[AddAnswer],
) -> Result<SetList, NoMemory>
    ensures { IfOk result (λ set. set ≡ accepted_set (own_proposals config.now.mode
        ++ config.now.contexts) results.now) }
{
    let proposals = proposals(alloc, config)?;
    accepted_set(alloc, proposals.as_slice(), results)
}

/// The contexts that an AC accepts.
pub fn set_accepted(
    alloc: Global,
    tables: &Tables,
    config: &Config,
    presentation: &PresentationAccept,
) -> Result<SetList, NoMemory>
    ensures { (spellings : Spellings) →
        IfOk result (λ set. set ≡ set_accepted (base_of tables.now config.now spellings)
        presentation.now) }
{
    let _tables = tables;
    accepted_for(alloc, config, presentation.results.as_slice())
}

/// Whether some identifier comes twice.
fn has_double(add: &[Proposal]) -> bool
    ensures { result ≡ has_double (proposed_ids add.now) }
{
    for (place, proposal) in add.iter().enumerate() {
        if is_proposed(proposal.id, &add[place + 1..]) {
            return true;
        }
    }
    false
}

/// Whether the identifier is in the set, or of the other end.
fn is_taken(initiates: bool, held: &[SetItem], id: u32) -> bool
    ensures { result ≡ is_taken_id initiates held.now id }
{
    pair_of(held, id).is_some() || !has_parity(initiates, id)
}

/// Whether one of these identifiers is in the set, or of the other end.
fn is_any_taken(initiates: bool, held: &[SetItem], add: &[Proposal]) -> bool
    ensures { result ≡ list_any (is_taken_id initiates held.now) (proposed_ids add.now) }
{
    for proposal in add {
        if is_taken(initiates, held, proposal.id) {
            return true;
        }
    }
    false
}

/// Whether what is proposed may not be: an identifier comes twice, is in the set, or is one of the
/// other end (X.226 8.2).
pub fn is_faulty_proposal(initiates: bool, held: &[SetItem], add: &[Proposal]) -> bool
    ensures { result ≡ is_faulty_proposal initiates held.now add.now }
{
    has_double(add) || is_any_taken(initiates, held, add)
}

/// Whether a context of the set has this abstract syntax.
pub fn has_context_of(name: &[u32], set: &[SetItem]) -> bool
    ensures { result ≡ is_some (lowest_with name.now [] set.now) }
{
    for item in set {
        if has_name(&item.pair, name) {
            return true;
        }
    }
    false
}
