//! Events that are run over two ends.

ghost use Rattle.std.specs.Prelude.{IfOk};
ghost use Rattle.dialogue.specs.declared.event.Event.TheVariants as the_events;
ghost use Rattle.two_ends.specs.Events.{AnsweredAt, CarriedOver, CarriedFrom, Happened, AllHappened};

use crate::giving::give_octets;
use crate::run_end::RunEnd;
use dialogue::{Call, CallRefusal, Carried, Entries, Entry, Event, Events};
use osi_base::{Copied, ListOf, NoMemory, Side};
use std::alloc::Global;

/// Makes a call like this one at one of two ends.
fn answer_at<R, A: RunEnd<R>, B: RunEnd<R>>(
    alloc: Global,
    a: &mut A,
    b: &mut B,
    side: Side,
    call: &Call,
) -> Result<Result<Option<i64>, CallRefusal>, NoMemory>
    ensures { IfOk result (λ answer. AnsweredAt A.conduct B.conduct side call.now answer a.old b.old
        a.new b.new) }
{
    match side {
        Side::A => a.answer(alloc, call),
        Side::B => b.answer(alloc, call),
    }
}

/// Runs a call.
fn run_call<R, A: RunEnd<R>, B: RunEnd<R>>(
    alloc: Global,
    a: &mut A,
    b: &mut B,
    side: Side,
    call: &Call,
) -> Result<Entry, NoMemory>
    ensures { IfOk result (λ entry. Happened A.conduct B.conduct (the_events.Call side call.now)
        entry a.old b.old a.new b.new) }
{
    let answer = answer_at(alloc, a, b, side, call)?;
    let kept = call.copy(alloc)?;
    Ok(Entry::Call {
        side,
        call: kept,
        answer,
    })
}

/// Carries octets from one end to another.
fn carry<R, A: RunEnd<R>, B: RunEnd<R>>(
    alloc: Global,
    from: &mut A,
    to: &mut B,
    most: Option<u32>,
) -> Result<Carried, NoMemory>
    ensures { IfOk result (λ carried. CarriedOver A.conduct B.conduct most carried from.old to.old
        from.new to.new) }
{
    let octets = give_octets(alloc, from, most)?;
    let shown = to.take_octets(octets.as_slice())?;
    Ok(Carried { octets, shown })
}

/// Carries octets from one of two ends to the other.
fn carry_from<R, A: RunEnd<R>, B: RunEnd<R>>(
    alloc: Global,
    a: &mut A,
    b: &mut B,
    side: Side,
    most: Option<u32>,
) -> Result<Carried, NoMemory>
    ensures { IfOk result (λ carried. CarriedFrom A.conduct B.conduct side most carried a.old b.old
        a.new b.new) }
{
    match side {
        Side::A => carry(alloc, a, b, most),
        Side::B => carry(alloc, b, a, most),
    }
}

/// Runs a carry.
fn run_carry<R, A: RunEnd<R>, B: RunEnd<R>>(
    alloc: Global,
    a: &mut A,
    b: &mut B,
    side: Side,
    most: Option<u32>,
) -> Result<Entry, NoMemory>
    ensures { IfOk result (λ entry. Happened A.conduct B.conduct (the_events.Carry side most) entry
        a.old b.old a.new b.new) }
{
    let carried = carry_from(alloc, a, b, side, most)?;
    Ok(Entry::Carry {
        side,
        most,
        carried,
    })
}

/// Runs a break.
fn run_break<R, A: RunEnd<R>, B: RunEnd<R>>(a: &mut A, b: &mut B) -> Entry
    ensures { Happened A.conduct B.conduct the_events.Break result a.old b.old a.new b.new }
{
    a.break_off();
    b.break_off();
    Entry::Break
}

/// Runs an event.
fn run_event<R, A: RunEnd<R>, B: RunEnd<R>>(
    alloc: Global,
    a: &mut A,
    b: &mut B,
    event: &Event,
) -> Result<Entry, NoMemory>
    ensures { IfOk result (λ entry. Happened A.conduct B.conduct event.now entry a.old b.old a.new
        b.new) }
{
    match event {
        Event::Call { side, call } => run_call(alloc, a, b, *side, call),
        Event::Carry { side, most } => run_carry(alloc, a, b, *side, *most),
        Event::Break => Ok(run_break(a, b)),
    }
}

/// Runs events, oldest first, and answers what came of each. A call is made at its end, and what
/// the end answers is an entry, also where it refuses. A carry gives out at most so many octets of
/// those that wait at its side, or all, and feeds exactly them to the other end. A break comes to
/// both ends. The only error is want of memory; the run ends there.
pub fn run_events<R, A: RunEnd<R>, B: RunEnd<R>>(
    alloc: Global,
    a: &mut A,
    b: &mut B,
    events: &Events,
) -> Result<Entries, NoMemory>
    ensures { IfOk result (λ entries. AllHappened A.conduct B.conduct a.old b.old events.now entries
        a.new b.new) }
{
    let mut entries = ListOf::new(alloc);
    for event in events.as_slice() {
        let entry = run_event(alloc, a, b, event)?;
        entries.push(entry)?;
    }
    Ok(entries)
}
