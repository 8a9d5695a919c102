//! Worked transfers: 3,000 octets with checkpoint 1 and window 2, as a value of 2,975 octets is.
//! What is given and taken follows from X.228 7.3: a checkpoint of 1 makes chunks of 1,024 octets,
//! so 1,024, 1,024 and 952, with a mark behind each but the last; a window of 2 lets two marks be
//! unconfirmed; numbers rise by one. Comments name the session unit of a step with its section of
//! X.225. 'Profile' there says that the rule stands so in this project's profile: the definitions
//! `Sending` and `Receiving` of `rtse`, and `Limits` of `osi_base`. What is expected is worked out
//! by hand.

use osi_base::Octets;
use rtse::{Ended, Incoming, Outgoing, RtseFault, Step};
use std::alloc::Global;
use std::process::Abort;
use std::test::*;

/// What is given next, in short.
#[derive(Clone, Copy)]
enum Given {
    Chunk(usize),
    Mark(u32),
    End(u32),
    Wait,
}

use Given::{Chunk, End, Mark, Wait};

fn is_given(step: &Step, given: Given) -> bool {
    match (step, given) {
        (Step::Chunk(octets), Chunk(len)) => octets.len() == len,
        (Step::Mark(n), Mark(m)) => *n == m,
        (Step::End(n), End(m)) => *n == m,
        (Step::Wait, Wait) => true,
        _ => false,
    }
}

/// The octets of a transfer, of which no two neighbours are equal.
fn transfer(rt: &impl Abort, alloc: Global, len: usize) -> Octets {
    let mut octets = Octets::new(alloc);
    let mut next = 0u8;
    for _ in 0..len {
        octets.push(next).expect(rt, "memory");
        next = next.wrapping_add(1);
    }
    octets
}

/// What a transfer of 3,000 octets gives up to where it waits.
fn started(rt: &impl Abort, alloc: Global) -> Outgoing {
    let octets = transfer(rt, alloc, 3000);
    assert!(rt; octets.len() == 3000, "3,000 octets");
    Outgoing::start(alloc, 1, octets, 1, 2)
}

/// Whether this is given next.
fn is_next(rt: &impl Abort, outgoing: &mut Outgoing, given: Given) -> bool {
    let step = outgoing.next().expect(rt, "memory");
    let is_it = is_given(&step, given);
    drop(step);
    is_it
}

/// Whether these are given next, one after the other.
fn all_given(rt: &impl Abort, outgoing: &mut Outgoing, given: &[Given]) -> bool {
    for next in given {
        if !is_next(rt, outgoing, *next) {
            return false;
        }
    }
    true
}

/// Three chunks with two marks between them; the window is open for the last chunk and the end
/// once the first mark is confirmed.
#[test]
fn waits_at_the_window(rt: HostRuntime) {
    let mut outgoing = started(&rt, rt.alloc());
    // two marks are unconfirmed, as many as the window; asked again, it waits on
    let first = [Chunk(1024), Mark(1), Chunk(1024), Mark(2), Wait, Wait];
    assert!(rt; all_given(&rt, &mut outgoing, &first));
    // profile: marks are confirmed one after the other, and 1 is the lowest
    let late = outgoing.confirmed(2);
    assert!(rt; late == Err(RtseFault::WrongNumber { had: 0, came: 2 }));
    // MINOR SYNC ACK (7.21) of the lowest
    assert!(rt; outgoing.confirmed(1) == Ok(()));
    // ACTIVITY END (7.35) has the number behind the last mark's, and nothing comes behind it
    assert!(rt; all_given(&rt, &mut outgoing, &[Chunk(952), End(3), Wait]));
    drop(outgoing);
}

/// After a break the transfer goes on behind the mark that was confirmed.
#[test]
fn resumes_behind_the_confirmed_mark(rt: HostRuntime) {
    let mut outgoing = started(&rt, rt.alloc());
    let first = [Chunk(1024), Mark(1), Chunk(1024), Mark(2)];
    assert!(rt; all_given(&rt, &mut outgoing, &first));
    assert!(rt; outgoing.confirmed(1) == Ok(()));
    // ACTIVITY RESUME (7.30) at the mark 1
    assert!(rt; outgoing.resume() == 1);
    // 1,024 octets stand in front of it: the other 1,976 are given, and the mark 2 once more
    let rest = [Chunk(1024), Mark(2), Chunk(952), End(3), Wait];
    assert!(rt; all_given(&rt, &mut outgoing, &rest));
    // it is still the activity that it was
    assert!(rt; outgoing.number() == 1);
    drop(outgoing);
}

/// With checkpoint 0 there is one chunk, and no mark: the end has the number 1.
#[test]
fn one_chunk_without_a_checkpoint(rt: HostRuntime) {
    let octets = transfer(&rt, rt.alloc(), 3000);
    assert!(rt; octets.len() == 3000);
    let mut outgoing = Outgoing::start(rt.alloc(), 7, octets, 0, 1);
    assert!(rt; all_given(&rt, &mut outgoing, &[Chunk(3000), End(1), Wait]));
    drop(outgoing);
}

fn whole_len(ended: Ended) -> usize {
    match ended {
        Ended::Whole(octets) => octets.len(),
        Ended::Again => 0,
    }
}

/// What comes of an activity, and its answer.
#[derive(Clone, Copy)]
enum Comes {
    /// Its start, with its number.
    Start(u32, Result<(), RtseFault>),
    /// The octets at hand.
    Part(Result<(), RtseFault>),
    /// A mark.
    Marked(u32, Result<(), RtseFault>),
    /// Its resumption, with its number, at a mark.
    Resumed(u32, u32, Result<(), RtseFault>),
    /// Its end, with the number behind the last mark's; so many octets are handed up.
    Ended(u32, Result<usize, RtseFault>),
    /// It is dropped.
    Dropped,
    /// Nothing; its number is this one.
    Number(u32),
}

/// Whether it goes as it should. Parts, marks and ends are of an activity that has begun.
fn goes(incoming: &mut Incoming, octets: &[u8], comes: &Comes) -> bool {
    match comes {
        Comes::Start(number, answer) => incoming.started(*number) == *answer,
        Comes::Part(answer) => incoming.number() > 0 && incoming.chunk(octets) == *answer,
        Comes::Marked(n, answer) => incoming.number() > 0 && incoming.mark(*n) == *answer,
        Comes::Resumed(number, n, answer) => incoming.resumed(*number, *n) == *answer,
        Comes::Ended(n, answer) => {
            incoming.number() > 0 && incoming.ended(*n).map(whole_len) == *answer
        }
        Comes::Dropped => {
            incoming.dropped();
            true
        }
        Comes::Number(number) => incoming.number() == *number,
    }
}

/// Each step goes as it should.
fn go(rt: &impl Abort, incoming: &mut Incoming, octets: &[u8], steps: &[Comes]) {
    for (place, comes) in steps.iter().enumerate() {
        assert!(rt; goes(incoming, octets, comes), "step {place}");
    }
}

/// A transfer that is resumed at a mark is cut back to it, handed up once, and then only confirmed.
/// Each part has 1,024 octets.
const ONCE: [Comes; 12] = [
    // profile: ACTIVITY START (7.29) of activity 2, where none was there and 1 is the next
    Comes::Start(2, Err(RtseFault::WrongNumber { had: 0, came: 2 })),
    // profile: that of activity 1, which is the one that is kept
    Comes::Start(1, Ok(())),
    Comes::Number(1),
    // a part in DATA TRANSFER (7.11): 1,024 octets
    Comes::Part(Ok(())),
    // MINOR SYNC POINT (7.20): the mark 1 stands behind them
    Comes::Marked(1, Ok(())),
    // another part behind it, which makes 2,048
    Comes::Part(Ok(())),
    // profile: ACTIVITY RESUME (7.30) at the mark 2, where 1 is the highest
    Comes::Resumed(1, 2, Err(RtseFault::WrongNumber { had: 1, came: 2 })),
    // ACTIVITY RESUME at the mark 1: the octets behind it are dropped, and 1,024 stay
    Comes::Resumed(1, 1, Ok(())),
    // ACTIVITY END (7.35) with 3, where the number behind the highest mark's is 2
    Comes::Ended(3, Err(RtseFault::WrongNumber { had: 1, came: 3 })),
    // with 2: what stayed is handed up
    Comes::Ended(2, Ok(1024)),
    // profile: it is resumed once more, as where the answer to its end was lost
    Comes::Resumed(1, 1, Ok(())),
    // profile: and ended again, where nothing is handed up a second time
    Comes::Ended(2, Ok(0)),
];

#[test]
fn handed_up_once(rt: HostRuntime) {
    let octets = transfer(&rt, rt.alloc(), 1024);
    let mut incoming = Incoming::new(rt.alloc());
    go(&rt, &mut incoming, octets.as_slice(), &ONCE);
    drop(incoming);
}

/// Of a discarded activity its number stays; the next one may be resumed without its start.
const NEXT: [Comes; 8] = [
    // ACTIVITY START (7.29), and a part of 100 octets
    Comes::Start(1, Ok(())),
    Comes::Part(Ok(())),
    // ACTIVITY DISCARD (7.33): the octets are dropped; profile: the number stays
    Comes::Dropped,
    Comes::Number(1),
    // profile: ACTIVITY RESUME (7.30) of activity 3, where the last was 1
    Comes::Resumed(3, 0, Err(RtseFault::WrongNumber { had: 1, came: 3 })),
    // profile: of activity 2, the next, from nothing: it begins, as if its start had come
    Comes::Resumed(2, 0, Ok(())),
    Comes::Number(2),
    // ACTIVITY END (7.35) without a mark has 1; no octet of the discarded one is left
    Comes::Ended(1, Ok(0)),
];

#[test]
fn dropped_and_the_next(rt: HostRuntime) {
    let octets = transfer(&rt, rt.alloc(), 100);
    let mut incoming = Incoming::new(rt.alloc());
    go(&rt, &mut incoming, octets.as_slice(), &NEXT);
    drop(incoming);
}

/// Profile: the limit of a transfer is 262,400 octets (`most_transferred` of `Limits`). So many are
/// kept, and one more is refused.
#[test]
fn too_long(rt: HostRuntime) {
    let octets = transfer(&rt, rt.alloc(), 262_400);
    let mut incoming = Incoming::new(rt.alloc());
    let first = [Comes::Start(1, Ok(())), Comes::Part(Ok(()))];
    go(&rt, &mut incoming, octets.as_slice(), &first);
    go(
        &rt,
        &mut incoming,
        &[0],
        &[Comes::Part(Err(RtseFault::TooLong))],
    );
    drop(incoming);
}
