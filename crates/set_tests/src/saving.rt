//! Marks, restarts and resumptions, told as steps. What each step leads to is worked out from the
//! sets that were saved before it: a restart at n goes back to what was saved last below n.

use crate::made::{full_set, only_five};
use Step::{Below, Discards, Ends, Interrupts, Marks, Nodes, Restarts, Resumes};
use Syntax::{Ber, Packed};
use context_restore::{SaveRefusal, Saved};
use context_sets::Contexts;
use osi_base::{SetList, Syntax};
use std::alloc::Global;
use std::process::Abort;
use std::test::*;

/// The transfer syntax of a set that is the module alone, or why none is answered.
type Answer = Result<Syntax, SaveRefusal>;

/// What is done, or what then holds. A set is the module alone, under 5, with this transfer syntax.
#[derive(Clone, Copy)]
enum Step {
    /// The set is saved under the next number, which is answered.
    Marks(Syntax, Result<u32, SaveRefusal>),
    /// The set saved by the highest number below this one is answered and gone back to.
    Restarts(u32, Answer),
    /// It is answered.
    Below(u32, Answer),
    /// The activity begins anew at this number, while the set is in BER; its set is answered.
    Resumes(u32, Answer),
    /// The activity ends; the set from before it is answered.
    Ends(Answer),
    /// It is interrupted; the set from before it is answered.
    Interrupts(Answer),
    /// It is discarded; the set from before it is answered.
    Discards(Answer),
    /// So many nodes are kept.
    Nodes(u32),
}

/// What is done in an activity that began in BER.
const ROWS: [(&'static str, &'static [Step]); 8] = [
    (
        "a restart goes back over a context that was replaced",
        &[
            Marks(Ber, Ok(1)),
            Marks(Packed, Ok(2)),
            Nodes(3),
            Restarts(2, Ok(Ber)),
            Nodes(2),
        ],
    ),
    (
        "the newest set is below the next number",
        &[
            Marks(Ber, Ok(1)),
            Marks(Packed, Ok(2)),
            Below(3, Ok(Packed)),
        ],
    ),
    (
        "a number that was forgotten is given again",
        &[
            Marks(Ber, Ok(1)),
            Marks(Packed, Ok(2)),
            Marks(Packed, Ok(3)),
            Restarts(2, Ok(Ber)),
            Marks(Packed, Ok(2)),
        ],
    ),
    (
        "nothing is marked without an activity, and one that was interrupted is resumed at a mark",
        &[
            Marks(Packed, Ok(1)),
            Interrupts(Ok(Ber)),
            Marks(Packed, Err(SaveRefusal::NoActivity)),
            Resumes(1, Ok(Packed)),
            Nodes(2),
        ],
    ),
    (
        "an activity that ends gives the set before it",
        &[
            Marks(Ber, Ok(1)),
            Marks(Packed, Ok(2)),
            Ends(Ok(Ber)),
            Nodes(3),
        ],
    ),
    (
        "a discarded activity keeps no marks",
        &[
            Marks(Ber, Ok(1)),
            Marks(Packed, Ok(2)),
            Discards(Ok(Ber)),
            Nodes(0),
        ],
    ),
    (
        "a restart names a mark that there is, or the next",
        &[
            Restarts(0, Err(SaveRefusal::NoSuchMark(0))),
            Restarts(2, Err(SaveRefusal::NoSuchMark(2))),
            Restarts(1, Ok(Ber)),
        ],
    ),
    (
        "a resumption names a mark that there is",
        &[Resumes(1, Err(SaveRefusal::NoSuchMark(1)))],
    ),
];

/// An activity over the module in BER.
fn begun(rt: &impl Abort, alloc: Global) -> Saved {
    let set = only_five(rt, alloc, Ber);
    let mut saved = Saved::new(alloc);
    saved.begin(&set).expect(rt, "the activity begins");
    drop(set);
    saved
}

/// Whether a list is the module alone, under 5, with this transfer syntax.
fn is_five(list: &SetList, transfer: Syntax) -> bool {
    match list.as_slice() {
        [item] => item.id == 5 && item.pair.transfer == transfer,
        _ => false,
    }
}

/// Whether this is the answer.
fn is_answer(came: Result<SetList, SaveRefusal>, wanted: &Answer) -> bool {
    let is_so = match (&came, wanted) {
        (Ok(list), Ok(transfer)) => is_five(list, *transfer),
        (Err(refusal), Err(other)) => *refusal == *other,
        _ => false,
    };
    drop(came);
    is_so
}

/// The answer where the set of these contexts is marked.
fn mark(
    rt: &impl Abort,
    alloc: Global,
    saved: &mut Saved,
    transfer: Syntax,
) -> Result<u32, SaveRefusal> {
    let set = only_five(rt, alloc, transfer);
    let answer = saved.mark(&set);
    drop(set);
    answer
}

/// The answer to a resumption while the set is in BER.
fn resume(
    rt: &impl Abort,
    alloc: Global,
    saved: &mut Saved,
    number: u32,
) -> Result<SetList, SaveRefusal> {
    let set = only_five(rt, alloc, Ber);
    let answer = saved.resume(number, &set);
    drop(set);
    answer
}

/// Whether a step goes as it should.
fn goes(rt: &impl Abort, alloc: Global, saved: &mut Saved, step: &Step) -> bool {
    match step {
        Marks(transfer, answer) => mark(rt, alloc, saved, *transfer) == *answer,
        Restarts(number, answer) => is_answer(saved.restart(*number), answer),
        Below(number, answer) => is_answer(saved.set_below(*number), answer),
        Resumes(number, answer) => is_answer(resume(rt, alloc, saved, *number), answer),
        Ends(answer) => is_answer(saved.end(), answer),
        Interrupts(answer) => is_answer(saved.interrupt(), answer),
        Discards(answer) => is_answer(saved.discard(), answer),
        Nodes(count) => saved.nodes() == *count,
    }
}

/// Each step of a row goes as it should.
fn go(rt: &impl Abort, alloc: Global, shows: &str, steps: &[Step]) {
    let mut saved = begun(rt, alloc);
    for (place, step) in steps.iter().enumerate() {
        assert!(rt; goes(rt, alloc, &mut saved, step), "{shows}, step {place}");
    }
    drop(saved);
}

#[test]
fn marks_and_restarts(rt: HostRuntime) {
    for (shows, steps) in &ROWS {
        go(&rt, rt.alloc(), shows, steps);
    }
}

#[test]
fn nothing_is_marked_before_an_activity(rt: HostRuntime) {
    let mut saved = Saved::new(rt.alloc());
    let answer = mark(&rt, rt.alloc(), &mut saved, Ber);
    drop(saved);
    assert!(rt; answer == Err(SaveRefusal::NoActivity));
}

/// Saves a set under so many numbers.
fn mark_often(saved: &mut Saved, set: &Contexts, count: u32) -> Result<(), SaveRefusal> {
    for _ in 0..count {
        saved.mark(set)?;
    }
    Ok(())
}

/// An activity in which a set is marked 65,536 times, which are the most.
fn marked_often(rt: &impl Abort, alloc: Global) -> Saved {
    let set = full_set(rt, alloc);
    let mut saved = Saved::new(alloc);
    saved.begin(&set).expect(rt, "the activity begins");
    mark_often(&mut saved, &set, 65_536).expect(rt, "the set is marked");
    assert!(rt; saved.nodes() == 65_537);
    assert!(rt; saved.mark(&set) == Err(SaveRefusal::MarksFull));
    drop(set);
    saved
}

/// How many contexts the set has that a restart at 2 goes back to.
fn restarted(rt: &impl Abort, saved: &mut Saved) -> usize {
    let list = saved.restart(2).expect(rt, "the set of the mark 1");
    let count = list.len();
    drop(list);
    count
}

/// 65,536 marks are the most. Each makes a node behind that of the beginning; a restart at 2 leaves
/// the beginning and the mark 1.
#[test]
fn an_unchanged_set_of_64_contexts_is_marked_65536_times(rt: HostRuntime) {
    let mut saved = marked_often(&rt, rt.alloc());
    assert!(rt; restarted(&rt, &mut saved) == 64);
    assert!(rt; saved.nodes() == 2);
    drop(saved);
}
