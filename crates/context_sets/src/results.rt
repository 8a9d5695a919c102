//! Whether answers fit what was asked, and the contexts of an acceptance.

ghost use Rattle.std.specs.Prelude.{◌≡◌, ◌≤◌, [], length, IfOk, MatchResult, None};
ghost use Rattle.std.specs.Option.{option_copied};
ghost use Rattle.context_sets.specs.Sets.{IsRising};
ghost use Rattle.context_sets.specs.Alterations.{accepted_as, with_additions};
ghost use Rattle.context_sets.specs.Policy.{IsFault};
ghost use Rattle.context_sets.specs.Results.{is_offered, fits, all_fit, counted, mismatch_of, mismatch, acceptances};

use crate::fault::SetFault;
use crate::settling::{acceptances, put_additions};
use osi_base::{
    AddAnswer, AddAnswers, Copied, ListOf, Oid, Proposal, Proposals, SetList, Syntax, is_listed,
};
use std::alloc::Global;

fn is_offered(transfers: &[Oid], transfer: &Option<Oid>) -> bool
    ensures { result ≡ is_offered transfers.now transfer.now }
{
    match transfer {
        None => false,
        Some(name) => is_listed(name.arcs(), transfers) && Syntax::from_name(name.arcs()).is_some(),
    }
}

fn fits(proposal: &Proposal, answer: &AddAnswer) -> bool
    ensures { result ≡ fits proposal.now answer.now }
{
    answer.result != 0 || is_offered(proposal.transfers.as_slice(), &answer.transfer)
}

fn all_fit(proposals: &[Proposal], answers: &[AddAnswer]) -> bool
    requires { length proposals.now ≡ length answers.now }
    ensures { result ≡ all_fit proposals.now answers.now }
{
    for (place, proposal) in proposals.iter().enumerate() {
        if !fits(proposal, &answers[place]) {
            return false;
        }
    }
    true
}

/// A count of 32 bits, which stands still at its last value.
fn counted(count: usize) -> u32
    ensures { result ≡ counted count }
{
    u32::try_from(count).unwrap_or(u32::MAX)
}

fn mismatch_of(sent: usize, answered: usize) -> SetFault
    ensures { result ≡ mismatch_of sent answered }
{
    SetFault::Mismatch {
        sent: counted(sent),
        answered: counted(answered),
    }
}

/// How answers don't fit what was asked.
pub(crate) fn mismatch(
    added: &[Proposal],
    deleted: &[u32],
    added_answers: &[AddAnswer],
    deleted_answers: &[u8],
) -> Option<SetFault>
    ensures { result ≡ mismatch (record { added = added.now; deleted = deleted.now })
        (record { added = added_answers.now; deleted = deleted_answers.now }) }
{
    if added.len() != added_answers.len() {
        return Some(mismatch_of(added.len(), added_answers.len()));
    }
    if deleted.len() != deleted_answers.len() {
        return Some(mismatch_of(deleted.len(), deleted_answers.len()));
    }
    if all_fit(added, added_answers) {
        None
    } else {
        Some(mismatch_of(added.len(), added_answers.len()))
    }
}

/// The contexts that an acceptance gives: those of the proposed ones that the results accept, by
/// rising identifier. The results must fit the proposals.
pub fn accepted_list(
    alloc: Global,
    proposals: &Proposals,
    results: &AddAnswers,
) -> Result<SetList, SetFault>
    ensures fits { let first = mismatch (record { added = proposals.now; deleted = [] })
        (record { added = results.now; deleted = [] }) in
        MatchResult result (λ _. first ≡ None) (IsFault first) }
    ensures list { IfOk result (λ list. list ≡ with_additions proposals.now results.now []) }
    ensures rises { IfOk result (λ list. IsRising list) }
    ensures within { IfOk result (λ list. length list ≤ length proposals.now) }
{
    if let Some(fault) = mismatch(proposals.as_slice(), &[], results.as_slice(), &[]) {
        return Err(fault);
    }
    let copies = proposals.copy(alloc)?;
    let mut items = Vec::with_capacity(alloc, acceptances(results.as_slice()))?;
    put_additions(&mut items, copies, results.as_slice());
    Ok(ListOf::from_vec(items))
}
