//! Alterations between two ends, told as steps. What each step leads to is worked out from the sets
//! of both ends: an addition or a deletion counts from its answer on, and the refusals are those of
//! this project.

use crate::made::{alteration, end, full_set, ids, packed_rules};
use Side::{A, B};
use Step::{Asks, Counts, Has, Keeps, Lacks, MaySend, Settles, Waits};
use Syntax::{Ber, Packed};
use context_sets::{Alteration, Contexts, SetFault, SetRefusal};
use osi_base::{Answers, Side, Syntax};
use std::alloc::Global;
use std::process::Abort;
use std::test::*;

/// What an end does, or what then holds of it.
#[derive(Clone, Copy)]
enum Step {
    /// It asks to add contexts of the module and to delete others, and is answered so.
    Asks(Side, &'static [u32], &'static [u32], Result<(), SetRefusal>),
    /// A context is in use: it doesn't ask to delete it, and doesn't delete it where it is asked
    /// to.
    Keeps(Side, u32),
    /// The other end answers what it asked for longest, which are these additions and deletions,
    /// and it takes the answer.
    Settles(Side, &'static [u32], &'static [u32]),
    /// It has the module under this identifier, with this transfer syntax.
    Has(Side, u32, Syntax),
    /// It hasn't this identifier.
    Lacks(Side, u32),
    /// Whether it may send values on this context.
    MaySend(Side, u32, bool),
    /// So many of its alterations wait.
    Waits(Side, u32),
    /// It has so many contexts.
    Counts(Side, usize),
}

/// What two ends do that have ACSE under 1 and the module under 5, both in BER.
const ROWS: [(&'static str, &'static [Step]); 8] = [
    (
        "an addition waits for its answer",
        &[
            Asks(A, &[7], &[5], Ok(())),
            Lacks(A, 7),
            Has(A, 5, Ber),
            MaySend(A, 5, false),
        ],
    ),
    (
        "an answer changes the set of who answers, and a confirmation that of who asked",
        &[
            Asks(A, &[7], &[5], Ok(())),
            Settles(A, &[7], &[5]),
            Has(B, 7, Packed),
            Lacks(B, 5),
            Has(A, 7, Packed),
            Lacks(A, 5),
            Waits(A, 0),
        ],
    ),
    (
        "a fifth alteration is refused, and the oldest is settled first",
        &[
            Asks(A, &[7], &[], Ok(())),
            Asks(A, &[9], &[], Ok(())),
            Asks(A, &[11], &[], Ok(())),
            Asks(A, &[13], &[], Ok(())),
            Waits(A, 4),
            Asks(A, &[15], &[], Err(SetRefusal::AlterPending)),
            Settles(A, &[7], &[]),
            Has(A, 7, Packed),
            Lacks(A, 9),
            Waits(A, 3),
        ],
    ),
    (
        "a context in use is not deleted",
        &[Keeps(A, 5), Has(A, 5, Ber)],
    ),
    (
        "two alterations that cross lead to one set",
        &[
            Asks(A, &[7], &[], Ok(())),
            Asks(B, &[], &[5], Ok(())),
            Settles(B, &[], &[5]),
            Settles(A, &[7], &[]),
            Counts(A, 2),
            Has(A, 7, Packed),
            Counts(B, 2),
            Has(B, 7, Packed),
        ],
    ),
    (
        "an identifier that waits is named",
        &[
            Asks(A, &[7], &[], Ok(())),
            Asks(A, &[], &[7], Err(SetRefusal::Named(7))),
        ],
    ),
    (
        "a responder adds no odd identifier",
        &[Asks(B, &[7], &[], Err(SetRefusal::WrongParity(7)))],
    ),
    (
        "the context of ACSE is fixed",
        &[Asks(A, &[], &[1], Err(SetRefusal::Fixed(1)))],
    ),
];

/// The two ends.
#[derive(Drop)]
struct Both {
    a: Contexts,
    b: Contexts,
}

fn two_ends(rt: &impl Abort, alloc: Global) -> Both {
    Both {
        a: end(rt, alloc, true),
        b: end(rt, alloc, false),
    }
}

/// One of them.
fn set_of(both: &Both, side: Side) -> &Contexts {
    match side {
        A => &both.a,
        B => &both.b,
    }
}

/// Asks for an alteration while these identifiers are in use.
fn ask(
    rt: &impl Abort,
    alloc: Global,
    set: &mut Contexts,
    added: &[u32],
    deleted: &[u32],
    used: &[u32],
) -> Result<(), SetRefusal> {
    let used = ids(rt, alloc, used);
    let Alteration { added, deleted } = alteration(rt, alloc, added, deleted);
    set.propose(added, deleted, &used)
}

/// Answers an alteration while these identifiers are in use.
fn answer(
    rt: &impl Abort,
    alloc: Global,
    set: &mut Contexts,
    added: &[u32],
    deleted: &[u32],
    used: &[u32],
) -> Result<Answers, SetFault> {
    let used = ids(rt, alloc, used);
    let rules = packed_rules(rt, alloc);
    let asked = alteration(rt, alloc, added, deleted);
    let answers = set.answer(&asked.added, &asked.deleted, &used, &rules);
    drop(asked);
    drop(rules);
    answers
}

/// Whether what one end asked for longest is settled.
fn is_settled(
    rt: &impl Abort,
    alloc: Global,
    asking: &mut Contexts,
    answering: &mut Contexts,
    added: &[u32],
    deleted: &[u32],
) -> bool {
    let answers = answer(rt, alloc, answering, added, deleted, &[]).expect(rt, "the answers");
    let taken = asking.confirm(&answers);
    drop(answers);
    taken.is_ok()
}

/// Whether the end neither asks for the deletion of what is in use nor accepts it.
fn is_kept(rt: &impl Abort, alloc: Global, set: &mut Contexts, id: u32) -> bool {
    let asked = ask(rt, alloc, set, &[], &[id], &[id]);
    let answers = answer(rt, alloc, set, &[], &[id], &[id]).expect(rt, "the answers");
    let is_refused = answers.deleted.as_slice() == [1].as_slice();
    drop(answers);
    asked == Err(SetRefusal::InUse(id)) && is_refused
}

/// Whether an end is answered so where it asks for an alteration.
fn ask_at(
    rt: &impl Abort,
    alloc: Global,
    both: &mut Both,
    side: Side,
    added: &[u32],
    deleted: &[u32],
) -> Result<(), SetRefusal> {
    match side {
        A => ask(rt, alloc, &mut both.a, added, deleted, &[]),
        B => ask(rt, alloc, &mut both.b, added, deleted, &[]),
    }
}

fn is_settled_from(
    rt: &impl Abort,
    alloc: Global,
    both: &mut Both,
    side: Side,
    added: &[u32],
    deleted: &[u32],
) -> bool {
    match side {
        A => is_settled(rt, alloc, &mut both.a, &mut both.b, added, deleted),
        B => is_settled(rt, alloc, &mut both.b, &mut both.a, added, deleted),
    }
}

/// Whether an end has the module under this identifier, with this transfer syntax.
fn has_module(set: &Contexts, id: u32, transfer: Syntax) -> bool {
    match set.pair(id) {
        None => false,
        Some(pair) => pair.transfer == transfer,
    }
}

/// Whether a step goes as it should.
fn goes(rt: &impl Abort, alloc: Global, both: &mut Both, step: &Step) -> bool {
    match step {
        Asks(side, added, deleted, answer) => {
            ask_at(rt, alloc, both, *side, added, deleted) == *answer
        }
        Keeps(A, id) => is_kept(rt, alloc, &mut both.a, *id),
        Keeps(B, id) => is_kept(rt, alloc, &mut both.b, *id),
        Settles(side, added, deleted) => is_settled_from(rt, alloc, both, *side, added, deleted),
        Has(side, id, transfer) => has_module(set_of(both, *side), *id, *transfer),
        Lacks(side, id) => set_of(both, *side).pair(*id).is_none(),
        MaySend(side, id, may) => set_of(both, *side).may_send(*id) == *may,
        Waits(side, count) => set_of(both, *side).pending() == *count,
        Counts(side, count) => set_of(both, *side).items().len() == *count,
    }
}

/// Each step of a row goes as it should.
fn go(rt: &impl Abort, alloc: Global, shows: &str, steps: &[Step]) {
    let mut both = two_ends(rt, alloc);
    for (place, step) in steps.iter().enumerate() {
        assert!(rt; goes(rt, alloc, &mut both, step), "{shows}, step {place}");
    }
    drop(both);
}

#[test]
fn alterations(rt: HostRuntime) {
    for (shows, steps) in &ROWS {
        go(&rt, rt.alloc(), shows, steps);
    }
}

/// 64 contexts are the most.
#[test]
fn a_65th_context_is_not_asked_for(rt: HostRuntime) {
    let mut a = full_set(&rt, rt.alloc());
    let answer = ask(&rt, rt.alloc(), &mut a, &[2_001], &[], &[]);
    drop(a);
    assert!(rt; answer == Err(SetRefusal::SetFull));
}

/// Whether the only answer to additions is that of the local limit.
fn is_over_the_limit(answers: &Answers) -> bool {
    match answers.added.as_slice() {
        [answer] => answer.result == 2 && answer.transfer.is_none() && answer.reason == Some(3),
        _ => false,
    }
}

/// Whether the end refuses to add one for that limit.
fn is_refused_at_the_limit(rt: &impl Abort, alloc: Global, set: &mut Contexts) -> bool {
    let answers = answer(rt, alloc, set, &[2], &[], &[]).expect(rt, "the answers");
    let is_over = is_over_the_limit(&answers);
    drop(answers);
    is_over
}

/// The limit alone stands against 2, which is free and of the other end.
#[test]
fn a_65th_context_is_not_accepted(rt: HostRuntime) {
    let mut a = full_set(&rt, rt.alloc());
    assert!(rt; is_refused_at_the_limit(&rt, rt.alloc(), &mut a));
    assert!(rt; a.items().len() == 64);
    drop(a);
}
