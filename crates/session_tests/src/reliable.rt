//! Activities, the turn and recovery in reliable mode.

use crate::exchange::State::{Confirmed, Gives, Kept, Own, Peer, Phase};
use crate::exchange::Step::{
    Breaks, Connects, Is, Loses, NoAlteration, OutOfPlace, Passes, Refused, Turn,
};
use crate::exchange::Word::{
    Accept, Connect, Data, Discard, DiscardAck, End, EndAck, Finish, GiveAll, GiveAllAck,
    Interrupt, InterruptAck, Mark, MarkAck, Resume, Start,
};
use crate::exchange::*;
use Side::{A, B};
use osi_base::Side;
use session_subset::{Progress, SessionPhase, SessionRefusal};
use std::test::*;

/// A transfer of three chunks with two marks at a time, up to its end, which isn't answered: 7.29,
/// 7.11, 7.20, 7.21 and 7.35, with the numbers that are due.
const TRANSFER: [Step; 8] = [
    Passes(A, Start(1)),
    Passes(A, Data),
    Passes(A, Mark(1)),
    Passes(A, Data),
    Passes(A, Mark(2)),
    Passes(B, MarkAck(1)),
    Passes(A, Data),
    Passes(A, End(3)),
];

/// The connection breaks, and A recovers the association on a new one. The phases are those of the
/// profile (`SessionPhase`).
const RECOVERY: [Step; 10] = [
    // the association stays
    Breaks(A),
    Breaks(B),
    Is(A, Phase(SessionPhase::Broken)),
    // a new transport connection: A recovers, and B waits for the CONNECT
    Connects(A),
    Connects(B),
    Is(A, Phase(SessionPhase::Recovering)),
    Is(B, Phase(SessionPhase::Broken)),
    // 7.1, 7.4: it is opened as any other
    Passes(A, Connect(0x0449)),
    Passes(B, Accept(0x0449)),
    Is(B, Phase(SessionPhase::Up)),
];

const AT_THE_END: [Step; 6] = [
    // profile: behind its end an activity isn't interrupted
    Refused(A, Interrupt, SessionRefusal::Ending(1)),
    // profile: and A alters no contexts until the end is answered
    NoAlteration(A, SessionRefusal::Ending(1)),
    // profile: a mark may be confirmed behind the end
    Passes(B, MarkAck(2)),
    // 7.36: the answer has the number of the end, and the activity is no more
    Passes(B, EndAck(3)),
    Is(A, Own(Progress::Absent)),
    // 7.29: another may start
    Passes(A, Start(2)),
];

#[test]
fn a_transfer(rt: HostRuntime) {
    let mut both = reliable(&rt, rt.alloc());
    go(&rt, rt.alloc(), &mut both, "a transfer", &TRANSFER);
    go(&rt, rt.alloc(), &mut both, "at its end", &AT_THE_END);
    drop(both);
}

const BEFORE_A_BREAK: [Step; 8] = [
    Passes(A, Start(1)),
    Passes(A, Data),
    Passes(A, Mark(1)),
    Passes(A, Data),
    Passes(A, Mark(2)),
    // profile: marks are confirmed one after the other, and 1 is the lowest
    OutOfPlace(A, MarkAck(2)),
    Passes(B, MarkAck(1)),
    // 7.35, 6.3.7: an ACTIVITY END behind an empty GIVE TOKENS, which makes two units
    Loses(A, End(3), 2),
];

const AFTER_A_BREAK: [Step; 9] = [
    // profile: the activity stays at A, and its marks at B
    Is(A, Own(Progress::Suspended)),
    Is(B, Kept(2)),
    // profile: a resumption at the mark 3, where B keeps 1 and 2
    OutOfPlace(B, Resume(1, 3)),
    // 7.30: at 1, behind which the marks and the end come again
    Passes(A, Resume(1, 1)),
    Passes(A, Data),
    Passes(A, Mark(2)),
    Passes(A, End(3)),
    Passes(B, MarkAck(2)),
    Passes(B, EndAck(3)),
];

/// A break after the end was sent and before it came: the transfer goes on from the mark that was
/// confirmed.
#[test]
fn a_transfer_after_a_break(rt: HostRuntime) {
    let mut both = reliable(&rt, rt.alloc());
    go(
        &rt,
        rt.alloc(),
        &mut both,
        "before the break",
        &BEFORE_A_BREAK,
    );
    go(&rt, rt.alloc(), &mut both, "the recovery", &RECOVERY);
    go(
        &rt,
        rt.alloc(),
        &mut both,
        "after the break",
        &AFTER_A_BREAK,
    );
    drop(both);
}

const ANSWERS_LOST: [Step; 2] = [Loses(B, MarkAck(2), 2), Loses(B, EndAck(3), 2)];

const RESUMED: [Step; 7] = [
    Passes(A, Resume(1, 1)),
    Passes(A, Data),
    Passes(A, Mark(2)),
    Passes(A, End(3)),
    Passes(B, MarkAck(2)),
    Passes(B, EndAck(3)),
    Passes(A, Start(2)),
];

/// All has come and the answer to the end is lost: the activity is resumed and ended again.
#[test]
fn a_completed_activity_is_resumed(rt: HostRuntime) {
    let mut both = reliable(&rt, rt.alloc());
    go(&rt, rt.alloc(), &mut both, "a transfer", &TRANSFER);
    go(&rt, rt.alloc(), &mut both, "its answers", &ANSWERS_LOST);
    go(&rt, rt.alloc(), &mut both, "the recovery", &RECOVERY);
    go(&rt, rt.alloc(), &mut both, "after the break", &RESUMED);
    drop(both);
}

/// 7.18: a GIVE TOKENS CONFIRM stands alone, and the turn is on its way.
const TURN_LOST: [Step; 2] = [Loses(A, GiveAll, 1), Turn(false, false)];

const TURN_GIVEN: [Step; 8] = [
    // profile: after a recovery the turn is at the initiator
    Turn(true, false),
    // 7.18: B has no turn to give
    Refused(B, GiveAll, SessionRefusal::NoTurn),
    // 7.18: A gives it, and B has it before it answers
    Passes(A, GiveAll),
    Is(A, Gives),
    Turn(false, true),
    // 7.19: the answer
    Passes(B, GiveAllAck),
    // 7.19: a second answer, where the giving was answered
    OutOfPlace(A, GiveAllAck),
    // 7.18: B gives the turn back
    Passes(B, GiveAll),
];

/// A break before the turn that was given came.
#[test]
fn a_turn_lost_in_a_break(rt: HostRuntime) {
    let mut both = reliable(&rt, rt.alloc());
    go(&rt, rt.alloc(), &mut both, "before the break", &TURN_LOST);
    go(&rt, rt.alloc(), &mut both, "the recovery", &RECOVERY);
    go(&rt, rt.alloc(), &mut both, "after the break", &TURN_GIVEN);
    drop(both);
}

const BEFORE_AN_INTERRUPT: [Step; 6] = [
    Passes(A, Start(1)),
    Passes(A, Data),
    Passes(A, Mark(1)),
    Passes(A, Data),
    Passes(A, Mark(2)),
    Passes(B, MarkAck(1)),
];

const INTERRUPTED: [Step; 7] = [
    // 7.32: the answer; the confirmation that came before it doesn't count
    Passes(B, InterruptAck),
    Is(A, Confirmed(1)),
    // profile: no other activity starts while one is suspended
    Refused(A, Start(2), SessionRefusal::ActivityOpen(1)),
    // profile: nor is the association released
    Refused(A, Finish, SessionRefusal::ActivityOpen(1)),
    // 7.31: nothing is in progress
    Refused(A, Interrupt, SessionRefusal::NoActivity),
    // 7.30, 7.20: it goes on from the mark that was confirmed
    Passes(A, Resume(1, 1)),
    Passes(A, Mark(2)),
];

/// Answers to marks that come after an interrupt are passed over, and the transfer goes on later.
#[test]
fn an_interrupt(rt: HostRuntime) {
    let mut both = reliable(&rt, rt.alloc());
    go(
        &rt,
        rt.alloc(),
        &mut both,
        "a transfer",
        &BEFORE_AN_INTERRUPT,
    );
    let late = sent(&rt, &mut both.b, session_word(rt.alloc(), MarkAck(2)));
    go(
        &rt,
        rt.alloc(),
        &mut both,
        "the interrupt",
        &[Passes(A, Interrupt)],
    );
    assert!(rt; !is_taken(&rt, &mut both.a, late), "it is passed over");
    go(&rt, rt.alloc(), &mut both, "its answer", &INTERRUPTED);
    drop(both);
}

/// A discarded transfer is forgotten; its number stays.
const DISCARDED: [Step; 10] = [
    // a transfer with a mark that is confirmed
    Passes(A, Start(1)),
    Passes(A, Data),
    Passes(A, Mark(1)),
    Passes(B, MarkAck(1)),
    // 7.33: B drops its marks; profile: its number stays
    Passes(A, Discard),
    Is(B, Peer(1)),
    Is(B, Kept(0)),
    // 7.34: the answer
    Passes(B, DiscardAck),
    // 7.30: what was discarded isn't resumed
    Refused(A, Resume(1, 0), SessionRefusal::NotSuspended),
    // profile: the next activity has the next number
    Passes(A, Start(2)),
];

#[test]
fn a_discard(rt: HostRuntime) {
    go_reliable(&rt, rt.alloc(), &DISCARDED);
}

/// Of an association in which A has the turn and nothing was started yet.
const TURNS: [Step; 12] = [
    // 7.29: B would start an activity without the turn
    Refused(B, Start(1), SessionRefusal::NoTurn),
    // 7.11: and send data without it
    Refused(B, Data, SessionRefusal::NoTurn),
    // profile: data go in an activity alone, and A has none
    Refused(A, Data, SessionRefusal::NoActivity),
    // profile: an alteration of contexts asks for the turn too
    NoAlteration(B, SessionRefusal::NoTurn),
    // 7.29: an activity of B, where A has the turn
    OutOfPlace(A, Start(1)),
    // profile: data of A, where none of its activities is in progress
    OutOfPlace(B, Data),
    // 7.29: A, which has the turn, starts one
    Passes(A, Start(1)),
    // 7.18: in an activity the turn isn't given
    Refused(A, GiveAll, SessionRefusal::ActivityOpen(1)),
    // 7.18: nor taken
    OutOfPlace(B, GiveAll),
    // 7.29: a second activity, where the first is in progress
    OutOfPlace(B, Start(2)),
    // 7.21: the confirmation of a mark, where A set none
    OutOfPlace(A, MarkAck(1)),
    // 7.6: a release, where an activity is in progress
    OutOfPlace(B, Finish),
];

#[test]
fn what_the_turn_asks(rt: HostRuntime) {
    go_reliable(&rt, rt.alloc(), &TURNS);
}
