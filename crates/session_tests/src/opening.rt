//! How an association begins and ends.

use crate::exchange::State::{Owes, Phase};
use crate::exchange::Step::{
    Breaks, Connects, Denied, Is, Loses, NoAlteration, OutOfPlace, Passes, Refused, Turn,
};
use crate::exchange::Word::{
    Abort, Accept, BareAccept, Connect, Data, Disconnect, Finish, Give, Mark, Refuse, Restart,
};
use crate::exchange::*;
use Side::{A, B};
use osi_base::Side;
use session_subset::{FunctionalUnits, Owed, SessionPhase, SessionRefusal, is_acceptable};
use std::alloc::Global;
use std::test::*;

const RELEASED: [Step; 8] = [
    // 7.4: the ACCEPT came, and the token is at the initiator
    Is(A, Phase(SessionPhase::Up)),
    Turn(true, false),
    // 7.6: A waits for the answer, which B owes
    Passes(A, Finish),
    Is(A, Phase(SessionPhase::Releasing)),
    Is(B, Owes(Owed::Release)),
    // 7.7: with the answer it is over at both ends
    Passes(B, Disconnect),
    Is(A, Phase(SessionPhase::Over)),
    Is(B, Phase(SessionPhase::Over)),
];

/// Whether these are the functional units of 042A (8.3.1): 0002, 0008, 0020 and 0400.
fn are_selected(units: FunctionalUnits) -> bool {
    units.duplex
        && units.minor_synchronize
        && units.resynchronize
        && units.typed_data
        && !units.half_duplex
        && !units.activity_management
}

#[test]
fn opens_and_releases(rt: HostRuntime) {
    let mut both = direct(&rt, rt.alloc());
    assert!(rt; are_selected(both.a.state().units));
    assert!(rt; are_selected(both.b.state().units));
    go(&rt, rt.alloc(), &mut both, "a release", &RELEASED);
    drop(both);
}

/// A CONNECT: its requirements, version, first mark and setting of tokens.
type Asked = (u16, Option<u8>, Option<u32>, Option<u8>);

/// Whether it is acceptable in this mode.
fn may_be_accepted(alloc: Global, reliable: bool, asked: Asked) -> bool {
    let (requirements, version, initial, token_setting) = asked;
    let mut connect = connecting(alloc, requirements);
    connect.version = version;
    connect.initial = initial;
    connect.token_setting = token_setting;
    let may_be = is_acceptable(reliable, &connect);
    drop(connect);
    may_be
}

/// 5.9: what needs a functional unit that isn't selected is refused, and out of place.
const DUPLEX_ALONE: [Step; 6] = [
    // an alteration of contexts goes as typed data
    NoAlteration(B, SessionRefusal::NotNegotiated),
    // a mark needs minor synchronize
    Refused(A, Mark(1), SessionRefusal::NotNegotiated),
    // a restart needs resynchronize
    Refused(A, Restart(1), SessionRefusal::NotNegotiated),
    // without minor synchronize there is no minor token
    Refused(A, Give(Some(4)), SessionRefusal::NotNegotiated),
    // a restart that comes needs resynchronize too
    OutOfPlace(B, Restart(1)),
    // data need none beside duplex
    Passes(A, Data),
];

/// A client that wants duplex alone, 0002 (8.3.1): no marks, no restarts, no alterations.
#[test]
fn a_client_of_duplex_alone(rt: HostRuntime) {
    assert!(rt; may_be_accepted(rt.alloc(), false, (0x0002, Some(2), None, None)));
    let mut both = two_ends(rt.alloc(), false);
    join(&rt, rt.alloc(), 0x0002, &mut both);
    go(&rt, rt.alloc(), &mut both, "duplex alone", &DUPLEX_ALONE);
    drop(both);
}

/// What each row shows, the mode, what is asked, and whether it is acceptable. 8.3.1 has the bits
/// of the parameters; which of them an end accepts is the profile's (`is_acceptable` of `Units`).
const CONNECTS: [(&'static str, bool, Asked, bool); 7] = [
    (
        "the requirements of reliable mode",
        true,
        (0x0449, Some(2), None, None),
        true,
    ),
    (
        "those of direct mode in its place",
        true,
        (0x042A, Some(2), None, None),
        false,
    ),
    (
        "none of duplex",
        false,
        (0x0008, Some(2), None, None),
        false,
    ),
    ("version 2 lacks", false, (0x042A, None, None, None), false),
    (
        "the choice of tokens is the responder's",
        false,
        (0x042A, Some(3), Some(1), Some(0xAA)),
        true,
    ),
    (
        "a token is at the responder",
        false,
        (0x042A, Some(3), Some(1), Some(0x04)),
        false,
    ),
    (
        "marks begin at another number",
        false,
        (0x042A, Some(3), Some(2), None),
        false,
    ),
];

#[test]
fn what_a_connect_must_say(rt: HostRuntime) {
    for (shows, reliable, asked, may_be) in &CONNECTS {
        assert!(rt;
            may_be_accepted(rt.alloc(), *reliable, *asked) == *may_be,
            "{shows}"
        );
    }
}

const REFUSAL: [Step; 4] = [
    // the requirements of direct mode, in reliable mode
    Passes(A, Connect(0x042A)),
    // 7.5: with the answer it is over at both ends
    Passes(B, Refuse),
    Is(A, Phase(SessionPhase::Over)),
    Is(B, Phase(SessionPhase::Over)),
];

#[test]
fn a_refusal_ends_it(rt: HostRuntime) {
    let mut both = two_ends(rt.alloc(), true);
    go(&rt, rt.alloc(), &mut both, "a refusal", &REFUSAL);
    drop(both);
}

const LACKING: [Step; 4] = [
    // 7.1: A asks, and waits for the answer
    Loses(A, Connect(0x0449), 1),
    // profile: an ACCEPT without 0040, activity management, without which the mode can't work
    OutOfPlace(A, Accept(0x0409)),
    // profile: an ACCEPT without a version, where 2 is needed
    OutOfPlace(A, BareAccept(0x0449)),
    // 7.11: data, where no association stands yet
    OutOfPlace(A, Data),
];

#[test]
fn an_accept_that_lacks_a_unit(rt: HostRuntime) {
    let mut both = two_ends(rt.alloc(), true);
    go(&rt, rt.alloc(), &mut both, "an accept", &LACKING);
    drop(both);
}

/// Profile: where no CONNECT was sent or taken, no unit is sent.
const EARLY_ABORT: [Step; 2] = [Loses(A, Abort, 0), Is(A, Phase(SessionPhase::Over))];

/// 7.9: it is over at both ends.
const LATE_ABORT: [Step; 3] = [
    Passes(A, Abort),
    Is(A, Phase(SessionPhase::Over)),
    Is(B, Phase(SessionPhase::Over)),
];

/// Before a CONNECT nothing is sent for an abort.
#[test]
fn aborts(rt: HostRuntime) {
    let mut both = two_ends(rt.alloc(), false);
    go(&rt, rt.alloc(), &mut both, "before a CONNECT", &EARLY_ABORT);
    drop(both);
    go_direct(&rt, rt.alloc(), &LATE_ABORT);
}

/// The phases are those of the profile (`SessionPhase`).
const INITIATOR: [Step; 6] = [
    // nothing was asked yet, and nothing is lost
    Breaks(A),
    Is(A, Phase(SessionPhase::Idle)),
    // a transport connection was asked for, and breaks before a CONNECT
    Connects(A),
    Is(A, Phase(SessionPhase::Opening)),
    Breaks(A),
    Is(A, Phase(SessionPhase::Over)),
];

/// The transport connection is refused.
const RESPONDER: [Step; 3] = [Connects(B), Denied(B), Is(B, Phase(SessionPhase::Over))];

#[test]
fn the_transport_connection(rt: HostRuntime) {
    let mut both = two_ends(rt.alloc(), false);
    go(&rt, rt.alloc(), &mut both, "of an initiator", &INITIATOR);
    drop(both);
    let mut both = two_ends(rt.alloc(), true);
    go(&rt, rt.alloc(), &mut both, "of a responder", &RESPONDER);
    assert!(rt; !both.b.role().initiator && both.b.role().reliable);
    drop(both);
}
