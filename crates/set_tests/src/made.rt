//! Sets, proposals and rules for the tests.

ghost use Rattle.std.specs.Prelude.{◌≤◌, IfOk, length};
ghost use Rattle.osi_base.specs.Limits.{most_contexts};
ghost use Rattle.context_sets.specs.Sets.{IsRising};

use context_sets::{Alteration, Contexts, Rules, SetFault, accepted_list};
use osi_base::{
    AddAnswer, AddAnswers, Ids, ListOf, Oid, Oids, Proposal, Proposals, SetList, Syntax,
};
use std::alloc::Global;
use std::process::Abort;

/// The abstract syntax of ACSE, whose context is fixed.
const ACSE: [u32; 5] = [2, 2, 1, 0, 1];

/// The abstract syntax of the module.
const MODULE: [u32; 4] = [2, 999, 7, 1];

/// The abstract syntax with these arcs.
fn name(rt: &impl Abort, alloc: Global, arcs: &[u32]) -> Oid {
    let arcs = Vec::from_slice(alloc, arcs).expect(rt, "memory");
    Oid::from_vec(arcs).expect(rt, "an identifier")
}

/// The name of one transfer syntax.
fn transfers(rt: &impl Abort, alloc: Global, transfer: Syntax) -> Oids {
    let mut transfers = ListOf::new(alloc);
    let name = transfer.name(alloc).expect(rt, "memory");
    transfers.push(name).expect(rt, "memory");
    transfers
}

/// A proposed context.
fn proposal(rt: &impl Abort, alloc: Global, id: u32, arcs: &[u32], transfer: Syntax) -> Proposal {
    Proposal {
        id,
        abstract_name: name(rt, alloc, arcs),
        transfers: transfers(rt, alloc, transfer),
    }
}

/// Acceptances of so many proposed contexts.
fn acceptances(rt: &impl Abort, alloc: Global, transfer: Syntax, count: usize) -> AddAnswers {
    let mut answers = ListOf::new(alloc);
    for _ in 0..count {
        let answer = AddAnswer {
            result: 0,
            transfer: Some(transfer.name(alloc).expect(rt, "memory")),
            reason: None,
        };
        answers.push(answer).expect(rt, "memory");
    }
    answers
}

/// The set of these proposed contexts, which are all accepted.
fn accepted(
    rt: &impl Abort,
    alloc: Global,
    proposals: &Proposals,
    transfer: Syntax,
) -> Result<SetList, SetFault>
    ensures rises { IfOk result (λ list. IsRising list) }
    ensures within { IfOk result (λ list. length list ≤ most_contexts) }
{
    let answers = acceptances(rt, alloc, transfer, proposals.len());
    let list = accepted_list(alloc, proposals, &answers)?;
    if list.len() > 64 {
        return Err(SetFault::NoMemory);
    }
    Ok(list)
}

/// An end that has these contexts.
fn end_with(
    rt: &impl Abort,
    alloc: Global,
    initiator: bool,
    proposals: &Proposals,
    transfer: Syntax,
) -> Result<Contexts, SetFault> {
    let list = accepted(rt, alloc, proposals, transfer)?;
    let mut set = Contexts::new(alloc, initiator);
    set.install(list)?;
    Ok(set)
}

/// An end that has the contexts that are proposed, with this transfer syntax.
fn installed(
    rt: &impl Abort,
    alloc: Global,
    initiator: bool,
    proposals: Proposals,
    transfer: Syntax,
) -> Contexts {
    let set = end_with(rt, alloc, initiator, &proposals, transfer).expect(rt, "the set");
    drop(proposals);
    set
}

/// An end that has ACSE under 1 and the module under 5, both in BER.
pub fn end(rt: &impl Abort, alloc: Global, initiator: bool) -> Contexts {
    let mut proposals = ListOf::new(alloc);
    let acse = proposal(rt, alloc, 1, &ACSE, Syntax::Ber);
    proposals.push(acse).expect(rt, "memory");
    let module = proposal(rt, alloc, 5, &MODULE, Syntax::Ber);
    proposals.push(module).expect(rt, "memory");
    installed(rt, alloc, initiator, proposals, Syntax::Ber)
}

/// An initiator that has the module alone, under 5.
pub fn only_five(rt: &impl Abort, alloc: Global, transfer: Syntax) -> Contexts {
    let mut proposals = ListOf::new(alloc);
    let module = proposal(rt, alloc, 5, &MODULE, transfer);
    proposals.push(module).expect(rt, "memory");
    installed(rt, alloc, true, proposals, transfer)
}

/// An initiator that has the module 64 times, under the first odd numbers.
pub fn full_set(rt: &impl Abort, alloc: Global) -> Contexts {
    let mut proposals = ListOf::new(alloc);
    for place in 0..64u32 {
        let module = proposal(rt, alloc, 2 * place + 1, &MODULE, Syntax::Packed);
        proposals.push(module).expect(rt, "memory");
    }
    installed(rt, alloc, true, proposals, Syntax::Packed)
}

/// These identifiers.
pub fn ids(rt: &impl Abort, alloc: Global, ids: &[u32]) -> Ids {
    ListOf::from_vec(Vec::from_slice(alloc, ids).expect(rt, "memory"))
}

/// An alteration that adds contexts of the module in the packed syntax, and deletes others.
pub fn alteration(rt: &impl Abort, alloc: Global, added: &[u32], deleted: &[u32]) -> Alteration {
    let mut proposals = ListOf::new(alloc);
    for id in added {
        let module = proposal(rt, alloc, *id, &MODULE, Syntax::Packed);
        proposals.push(module).expect(rt, "memory");
    }
    Alteration {
        added: proposals,
        deleted: ids(rt, alloc, deleted),
    }
}

/// An end that accepts the module in the packed syntax.
pub fn packed_rules(rt: &impl Abort, alloc: Global) -> Rules {
    Rules {
        module: name(rt, alloc, &MODULE),
        connect: false,
        reliable: false,
        accepts: transfers(rt, alloc, Syntax::Packed),
    }
}
