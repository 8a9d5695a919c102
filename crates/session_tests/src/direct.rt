//! Marks, restarts and the minor token in direct mode.

use crate::exchange::State::{Awaits, Marked, Phase};
use crate::exchange::Step::{
    Breaks, Is, Loses, NoAlteration, OutOfPlace, PassedOver, Passes, Refused, Turn,
};
use crate::exchange::Word::{
    Connect, Data, Disconnect, Finish, Give, GiveAll, Mark, MarkAck, Please, Restart, Restarted,
    Start,
};
use crate::exchange::*;
use Side::{A, B};
use osi_base::Side;
use session_subset::{Awaited, SessionPhase, SessionRefusal};
use std::test::*;

/// 7.20: marks 1 and 2.
const TWO_MARKS: [Step; 2] = [Passes(A, Mark(1)), Passes(A, Mark(2))];

/// Behind the mark 1.
const ONE_MARK: [Step; 3] = [
    // 7.20: both ends count the mark
    Is(A, Marked(1)),
    Is(B, Marked(1)),
    // profile: in direct mode no mark is confirmed, and what confirms one says nothing
    PassedOver(A, MarkAck(9)),
];

/// 6.3.7: a MINOR SYNC POINT goes behind a GIVE TOKENS, in one TSDU.
#[test]
fn a_mark_goes_behind_an_empty_give(rt: HostRuntime) {
    let mut both = direct(&rt, rt.alloc());
    let units = sent(&rt, &mut both.a, session_word(rt.alloc(), Mark(1)));
    assert!(rt; units.len() == 2);
    assert!(rt; is_taken(&rt, &mut both.b, units));
    go(&rt, rt.alloc(), &mut both, "one mark", &ONE_MARK);
    drop(both);
}

/// The minor token, 04 in a token item, is at A.
const TOKENS: [Step; 6] = [
    // 7.17: B asks for it
    Passes(B, Please),
    // 7.17: A has it, and can't ask for it
    Refused(A, Please, SessionRefusal::HasTurn),
    // 7.16: A gives it, and B has it
    Passes(A, Give(Some(4))),
    Turn(false, true),
    // 7.20: only the end that has it marks
    Refused(A, Mark(1), SessionRefusal::NoTurn),
    Passes(B, Mark(1)),
];

#[test]
fn gives_and_asks_for_the_token(rt: HostRuntime) {
    go_direct(&rt, rt.alloc(), &TOKENS);
}

const LOWER_WON: [Step; 6] = [
    // profile: A's restart lost, and is forgotten as B's comes
    Is(A, Awaits(Awaited::Nothing)),
    // 7.25: A answers B's
    Passes(A, Restarted(2)),
    // profile: the marks from 2 on are gone at both ends, and the token is at the initiator
    Is(A, Marked(1)),
    Is(B, Marked(1)),
    Turn(true, false),
    // 7.20: 2 is the next again
    Passes(A, Mark(2)),
];

/// After marks 1 and 2 A restarts to 3 and B to 2: B's wins (profile: the lower mark does).
#[test]
fn of_two_restarts_the_lower_wins(rt: HostRuntime) {
    let mut both = direct(&rt, rt.alloc());
    go(&rt, rt.alloc(), &mut both, "marks", &TWO_MARKS);
    let from_a = sent(&rt, &mut both.a, session_word(rt.alloc(), Restart(3)));
    let from_b = sent(&rt, &mut both.b, session_word(rt.alloc(), Restart(2)));
    assert!(rt; !both.a.holds_turn(), "a restart is unanswered");
    assert!(rt; !is_taken(&rt, &mut both.b, from_a), "it lost");
    assert!(rt; is_taken(&rt, &mut both.a, from_b));
    go(&rt, rt.alloc(), &mut both, "the answer", &LOWER_WON);
    drop(both);
}

/// 7.25: B answers, and the marks from 2 on are gone at both ends.
const INITIATOR_WON: [Step; 3] = [Passes(B, Restarted(2)), Is(A, Marked(1)), Is(B, Marked(1))];

/// Both restart to 2: the initiator's wins (profile).
#[test]
fn on_a_tie_the_initiators_restart_wins(rt: HostRuntime) {
    let mut both = direct(&rt, rt.alloc());
    go(&rt, rt.alloc(), &mut both, "marks", &TWO_MARKS);
    let from_a = sent(&rt, &mut both.a, session_word(rt.alloc(), Restart(2)));
    let from_b = sent(&rt, &mut both.b, session_word(rt.alloc(), Restart(2)));
    assert!(rt; !is_taken(&rt, &mut both.a, from_b), "it lost");
    assert!(rt; is_taken(&rt, &mut both.b, from_a));
    go(&rt, rt.alloc(), &mut both, "the answer", &INITIATOR_WON);
    drop(both);
}

const TAKEN_BACK: [Step; 3] = [
    // profile: a second restart, where B hasn't answered the first
    OutOfPlace(B, Restart(1)),
    // 7.25: B answers the first
    Passes(B, Restarted(1)),
    // profile: with the answer the token is at the initiator
    Turn(true, false),
];

/// B gives the token, and A restarts before it comes: A passes the giving over (7.24).
#[test]
fn a_restart_takes_the_token_back(rt: HostRuntime) {
    let mut both = direct(&rt, rt.alloc());
    go(
        &rt,
        rt.alloc(),
        &mut both,
        "the token",
        &[Passes(A, Give(Some(4)))],
    );
    let back = sent(&rt, &mut both.b, session_word(rt.alloc(), Give(Some(4))));
    let from_a = sent(&rt, &mut both.a, session_word(rt.alloc(), Restart(1)));
    assert!(rt; !is_taken(&rt, &mut both.a, back), "it is passed over");
    assert!(rt; is_taken(&rt, &mut both.b, from_a));
    go(&rt, rt.alloc(), &mut both, "the answer", &TAKEN_BACK);
    drop(both);
}

/// B's restart is lost on the way, so that A never answers it.
const UNANSWERED: [Step; 10] = [
    // 7.24, 6.3.7: a RESYNCHRONIZE behind an empty GIVE TOKENS, which makes two units
    Loses(B, Restart(1), 2),
    // 7.24: until the answer comes, B sends no data
    Refused(B, Data, SessionRefusal::Waiting),
    // 7.24: and no second restart
    Refused(B, Restart(1), SessionRefusal::Waiting),
    // 7.24: and no alteration of contexts, which would go as typed data
    NoAlteration(B, SessionRefusal::Waiting),
    // 7.24: what A sent before it took the restart is passed over, such as data
    PassedOver(B, Data),
    // 7.24: and a mark, whatever its number, though 1 is the next
    PassedOver(B, Mark(7)),
    // 7.25: an answer with the number 2, where B restarts to 1
    OutOfPlace(B, Restarted(2)),
    // profile: a release is heard while a restart is unanswered
    Passes(A, Finish),
    // 7.7: and B may answer it
    Passes(B, Disconnect),
    // 7.7: with that answer the association is over at A
    Is(A, Phase(SessionPhase::Over)),
];

#[test]
fn while_a_restart_is_unanswered(rt: HostRuntime) {
    go_direct(&rt, rt.alloc(), &UNANSWERED);
}

/// Of an association without marks, whose minor token is at A. Each unit comes to the end that is
/// named.
const MISPLACED: [Step; 10] = [
    // 7.20: the mark 7, where 1 is the next
    OutOfPlace(B, Mark(7)),
    // 7.20: a mark of B, where A has the minor token
    OutOfPlace(A, Mark(1)),
    // 7.24: a restart to 2, where there is no mark and 1 is the next
    OutOfPlace(B, Restart(2)),
    // 7.25: the answer to a restart, where B asked for none
    OutOfPlace(B, Restarted(1)),
    // profile: an activity, since direct mode never selects activity management
    OutOfPlace(B, Start(1)),
    // profile: a release of B, since only the initiator releases
    OutOfPlace(A, Finish),
    // 7.7: the answer to a release, where B asked for none
    OutOfPlace(B, Disconnect),
    // profile: a giving of all tokens, which belongs to activity management too
    OutOfPlace(B, GiveAll),
    // 7.1: a second CONNECT on one connection
    OutOfPlace(B, Connect(0x042A)),
    // 6.3.7: a GIVE TOKENS without a token item, which says nothing in front of another unit
    PassedOver(B, Give(None)),
];

#[test]
fn what_is_out_of_place(rt: HostRuntime) {
    go_direct(&rt, rt.alloc(), &MISPLACED);
}

const BROKEN: [Step; 3] = [
    Breaks(A),
    // profile: direct mode recovers nothing
    Is(A, Phase(SessionPhase::Over)),
    // B hasn't heard of the break
    Is(B, Phase(SessionPhase::Up)),
];

#[test]
fn a_break_ends_it(rt: HostRuntime) {
    go_direct(&rt, rt.alloc(), &BROKEN);
}
