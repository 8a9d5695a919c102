//! What an end answers to an alteration of the other end.

ghost use Rattle.std.specs.Prelude.{◌≡◌, ◌≤◌, true, [], map, IfOk, IfNone};
ghost use Rattle.std.specs.BTreeSet.{contains, Updates};
ghost use Rattle.std.specs.Option.{option_copied};
ghost use Rattle.std.specs.Ordering.{nat_cmp};
ghost use Rattle.osi_base.specs.Limits.{most_contexts};
ghost use Rattle.context_sets.specs.Policy.{is_service, accepts, acceptable, chosen, judged, reason_of, add_answer, taken_after, added_answers, is_fixed_pair, deletion_answer, next_fault, peer_fault};

use crate::asking::{is_among, is_of, meets_again};
use crate::fault::SetFault;
use crate::rules::{Rejection, Rules};
use crate::syntaxes::{is_acse, is_fixed, is_rtse, is_same};
use osi_base::{
    AddAnswer, AddAnswers, ListOf, NoMemory, Octets, Oid, Pair, Proposal, SetItem, Syntax,
    is_listed, pair_of,
};
use std::alloc::Global;
use std::collections::BTreeSet;

/// Whether the contexts are a CP's, and this abstract syntax is that of ACSE, or in reliable mode
/// of RTSE.
fn is_service(rules: &Rules, name: &[u32]) -> bool
    ensures { result ≡ is_service rules.now name.now }
{
    rules.connect && (is_acse(name) || rules.reliable && is_rtse(name))
}

fn accepts(rules: &Rules, name: &[u32], transfer: &[u32]) -> bool
    ensures { result ≡ accepts rules.now name.now transfer.now }
{
    if is_service(rules, name) {
        is_same(transfer, Syntax::Ber.arcs())
    } else {
        is_listed(transfer, rules.accepts.as_slice())
    }
}

fn acceptable(rules: &Rules, name: &[u32], transfer: &[u32]) -> Option<Syntax>
    ensures { result ≡ acceptable rules.now name.now transfer.now }
{
    if accepts(rules, name, transfer) {
        Syntax::from_name(transfer)
    } else {
        None
    }
}

/// The first transfer syntax that is known and accepted for this abstract syntax.
fn chosen(rules: &Rules, name: &[u32], transfers: &[Oid]) -> Option<Syntax>
    ensures { result ≡ chosen rules.now name.now transfers.now }
{
    for transfer in transfers {
        if let Some(syntax) = acceptable(rules, name, transfer.arcs()) {
            return Some(syntax);
        }
    }
    None
}

/// What becomes of an addition to a set that has so many contexts.
fn judged(rules: &Rules, taken: usize, proposal: &Proposal) -> Result<Syntax, Rejection>
    ensures { result ≡ judged rules.now taken proposal.now }
{
    let name = proposal.abstract_name.arcs();
    if !(is_same(name, rules.module.arcs()) || is_service(rules, name)) {
        return Err(Rejection::AbstractSyntax);
    }
    match chosen(rules, name, proposal.transfers.as_slice()) {
        None => Err(Rejection::TransferSyntaxes),
        Some(syntax) => {
            if taken >= 64 {
                Err(Rejection::LocalLimit)
            } else {
                Ok(syntax)
            }
        }
    }
}

fn reason_of(rejection: Rejection) -> u8
    ensures { result ≡ reason_of rejection }
{
    match rejection {
        Rejection::AbstractSyntax => 1,
        Rejection::TransferSyntaxes => 2,
        Rejection::LocalLimit => 3,
    }
}

fn add_answer(alloc: Global, outcome: Result<Syntax, Rejection>) -> Result<AddAnswer, NoMemory>
    ensures { IfOk result (λ answer. answer ≡ add_answer outcome) }
{
    match outcome {
        Ok(syntax) => Ok(AddAnswer {
            result: 0,
            transfer: Some(syntax.name(alloc)?),
            reason: None,
        }),
        Err(rejection) => Ok(AddAnswer {
            result: 2,
            transfer: None,
            reason: Some(reason_of(rejection)),
        }),
    }
}

fn taken_after(taken: usize, outcome: &Result<Syntax, Rejection>) -> usize
    requires { taken ≤ most_contexts }
    ensures { result ≡ taken_after taken outcome.now }
{
    match outcome {
        Ok(_) => taken + 1,
        Err(_) => taken,
    }
}

/// The answers to additions, of an end that has so many contexts already.
pub(crate) fn added_answers(
    alloc: Global,
    rules: &Rules,
    taken: usize,
    proposals: &[Proposal],
) -> Result<AddAnswers, NoMemory>
    requires { taken ≤ most_contexts }
    ensures { IfOk result (λ answers. answers ≡ added_answers rules.now taken proposals.now) }
{
    let mut count = taken;
    let mut answers = ListOf::new(alloc);
    for proposal in proposals {
        let outcome = judged(rules, count, proposal);
        count = taken_after(count, &outcome);
        answers.push(add_answer(alloc, outcome)?)?;
    }
    Ok(answers)
}

/// Whether this is the pair of a context of ACSE or RTSE.
fn is_fixed_pair(pair: Option<&Pair>) -> bool
    ensures { result ≡ is_fixed_pair (option_copied pair.entry) }
{
    match pair {
        None => false,
        Some(pair) => is_fixed(pair.abstract_name.arcs()),
    }
}

fn deletion_answer(items: &[SetItem], used: &[u32], id: u32) -> u8
    ensures { result ≡ deletion_answer items.now used.now id }
{
    if is_among(id, used) || is_fixed_pair(pair_of(items, id)) {
        1
    } else {
        0
    }
}

/// The answers to deletions.
pub(crate) fn deletion_answers(
    alloc: Global,
    items: &[SetItem],
    used: &[u32],
    ids: &[u32],
) -> Result<Octets, NoMemory>
    ensures { IfOk result (λ answers. answers ≡ map (deletion_answer items.now used.now) ids.now) }
{
    let mut answers = Octets::new(alloc);
    for id in ids {
        answers.push(deletion_answer(items, used, *id))?;
    }
    Ok(answers)
}

/// The first addition that an end of this role may not ask for.
pub(crate) fn peer_fault(
    alloc: Global,
    peer: bool,
    items: &[SetItem],
    proposals: &[Proposal],
) -> Result<Option<SetFault>, NoMemory>
    ensures { IfOk result (λ fault. fault ≡ peer_fault peer items.now [] proposals.now) }
{
    let mut met = BTreeSet::new(alloc);
    for proposal in proposals {
        if let Some(fault) = next_fault(&mut met, peer, items, proposal.id)? {
            return Ok(Some(fault));
        }
    }
    Ok(None)
}

/// Why an end of this role may not ask for this addition behind those that were met; if it may,
/// notes that it was met.
fn next_fault(
    met: &mut BTreeSet<u32>,
    peer: bool,
    items: &[SetItem],
    id: u32,
) -> Result<Option<SetFault>, NoMemory>
    ensures fault { IfOk result (λ fault. fault ≡ next_fault peer items.now
        (contains nat_cmp met.old id) id) }
    ensures updates { IfOk result (λ fault. IfNone fault
        (Updates nat_cmp met.old met.new id true)) }
{
    if pair_of(items, id).is_some() || meets_again(met, id)? {
        return Ok(Some(SetFault::PeerPresent(id)));
    }
    if !is_of(peer, id) {
        return Ok(Some(SetFault::PeerParity(id)));
    }
    Ok(None)
}
