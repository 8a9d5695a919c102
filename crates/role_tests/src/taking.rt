//! What becomes of APDUs that come (X.880 9; the packed syntax is this project's own). The result,
//! the invocation and its reject are those of worked dialogues; the numbers of all problems are
//! those of X.880 9.4.

ghost use Rattle.std.specs.Prelude.{◌≡◌, true, false, []};
ghost use Rattle.rose_roles.specs.Calls.{AreOpen};
ghost use Rattle.rose_roles.specs.Heads.{is_invocation};

use crate::sample::module;
use Syntax::{Ber, Packed};
use Told::{BadReject, Invoked, Reject, RejectTaken, Rejected, Returned};
use apdu_codec::{ApduHead, ApduKind, read_apdu, write_apdu};
use asn1_types::{Node, Val};
use linked_ops::{Forest, Key};
use osi_base::{Problem, Syntax};
use rose_roles::{InvokedWith, Invoker, Performer, RoseTaken, refused_head};
use std::alloc::Global;
use std::process::Abort;
use std::test::*;
use stub_tables::{Apdu, Tables};

/// What becomes of an APDU.
#[derive(Clone, Copy)]
enum Told {
    /// Its invocation 1 is told, of the operation at this place, with this number, linked to this
    /// own invocation or to none.
    Invoked(u32, i64, Option<i64>),
    /// The result of the own invocation 1 is told, with this number.
    Returned(i64),
    /// The own invocation 1 was rejected.
    Rejected,
    /// Another reject was taken.
    RejectTaken,
    /// A reject can't be read.
    BadReject,
    /// The APDU is rejected, by these octets in BER.
    Reject(&'static [u8]),
}

/// APDUs that come on the context 7.
struct Row {
    /// What the row shows.
    shows: &'static str,
    /// The place of the operation whose own invocation 1 is open, if any is.
    open: Option<u32>,
    /// Whether the APDU came before too.
    again: bool,
    syntax: Syntax,
    octets: &'static [u8],
    /// What becomes of it.
    told: Told,
    /// Whether the own invocation 1 is open then.
    own: bool,
    /// The operation of the peer's invocation 1, if it is open then, and whether that stands under
    /// the own one.
    peer: Option<(u32, bool)>,
}

const ADD: Option<u32> = Some(0);

const ASK: Option<u32> = Some(1);

/// The result 5 of `add`.
const RESULT: &'static [u8] = &[0xA2, 0x0B, 2, 1, 1, 0x30, 6, 2, 1, 1, 2, 1, 5];

/// The same under the code of another operation.
const OTHER_RESULT: &'static [u8] = &[0xA2, 0x0B, 2, 1, 1, 0x30, 6, 2, 1, 2, 2, 1, 5];

const PACKED_RESULT: &'static [u8] = &[2, 1, 1, 1, 0, 1, 1, 1, 5];

/// An invocation of `add` with 5.
const INVOCATION: &'static [u8] = &[0xA1, 9, 2, 1, 1, 2, 1, 1, 2, 1, 5];

const PACKED_INVOCATION: &'static [u8] = &[1, 1, 1, 0, 0, 1, 1, 1, 1, 5];

/// The result of an operation without its code and its value.
const EMPTY_RESULT: &'static [u8] = &[0xA2, 3, 2, 1, 1];

/// Outcomes and rejects.
static OUTCOMES: [Row; 8] = [
    Row {
        shows: "a result is handed up",
        open: ADD,
        again: false,
        syntax: Ber,
        octets: RESULT,
        told: Returned(5),
        own: false,
        peer: None,
    },
    Row {
        shows: "a packed result is handed up",
        open: ADD,
        again: false,
        syntax: Packed,
        octets: PACKED_RESULT,
        told: Returned(5),
        own: false,
        peer: None,
    },
    Row {
        shows: "a result that comes twice is rejected",
        open: ADD,
        again: true,
        syntax: Ber,
        octets: RESULT,
        told: Reject(&[0xA4, 6, 2, 1, 1, 0x82, 1, 0]),
        own: false,
        peer: None,
    },
    Row {
        shows: "a result of another code closes its invocation",
        open: ADD,
        again: false,
        syntax: Ber,
        octets: OTHER_RESULT,
        told: Reject(&[0xA4, 6, 2, 1, 1, 0x82, 1, 2]),
        own: false,
        peer: None,
    },
    Row {
        shows: "a result that lacks its value closes its invocation",
        open: ADD,
        again: false,
        syntax: Ber,
        octets: EMPTY_RESULT,
        told: Reject(&[0xA4, 6, 2, 1, 1, 0x82, 1, 2]),
        own: false,
        peer: None,
    },
    Row {
        shows: "a reject closes what it names",
        open: ADD,
        again: false,
        syntax: Ber,
        octets: &[0xA4, 6, 2, 1, 1, 0x81, 1, 2],
        told: Rejected,
        own: false,
        peer: None,
    },
    Row {
        shows: "a reject of what is not open is told",
        open: ADD,
        again: false,
        syntax: Ber,
        octets: &[0xA4, 6, 2, 1, 2, 0x81, 1, 2],
        told: RejectTaken,
        own: true,
        peer: None,
    },
    Row {
        shows: "a faulty reject is told",
        open: ADD,
        again: false,
        syntax: Ber,
        octets: &[0xA4, 0],
        told: BadReject,
        own: true,
        peer: None,
    },
];

/// Invocations.
static INVOCATIONS: [Row; 11] = [
    Row {
        shows: "an invocation is taken",
        open: None,
        again: false,
        syntax: Ber,
        octets: INVOCATION,
        told: Invoked(0, 5, None),
        own: false,
        peer: Some((0, false)),
    },
    Row {
        shows: "a packed invocation is taken",
        open: None,
        again: false,
        syntax: Packed,
        octets: PACKED_INVOCATION,
        told: Invoked(0, 5, None),
        own: false,
        peer: Some((0, false)),
    },
    Row {
        shows: "an invocation is taken once",
        open: None,
        again: true,
        syntax: Ber,
        octets: INVOCATION,
        told: Reject(&[0xA4, 6, 2, 1, 1, 0x81, 1, 0]),
        own: false,
        peer: Some((0, false)),
    },
    Row {
        shows: "a silent invocation is never open",
        open: None,
        again: false,
        syntax: Ber,
        octets: &[0xA1, 9, 2, 1, 1, 2, 1, 4, 2, 1, 5],
        told: Invoked(2, 5, None),
        own: false,
        peer: None,
    },
    Row {
        shows: "an unknown operation is rejected",
        open: None,
        again: false,
        syntax: Ber,
        octets: &[0xA1, 9, 2, 1, 9, 2, 1, 77, 2, 1, 5],
        told: Reject(&[0xA4, 6, 2, 1, 9, 0x81, 1, 1]),
        own: false,
        peer: None,
    },
    Row {
        shows: "a lacking argument is rejected",
        open: None,
        again: false,
        syntax: Ber,
        octets: &[0xA1, 6, 2, 1, 1, 2, 1, 1],
        told: Reject(&[0xA4, 6, 2, 1, 1, 0x81, 1, 2]),
        own: false,
        peer: None,
    },
    Row {
        shows: "what is no APDU is rejected",
        open: None,
        again: false,
        syntax: Ber,
        octets: &[0xA5, 0],
        told: Reject(&[0xA4, 5, 5, 0, 0x80, 1, 0]),
        own: false,
        peer: None,
    },
    Row {
        shows: "a linked invocation stands under its parent",
        open: ADD,
        again: false,
        syntax: Ber,
        octets: &[0xA1, 0x0C, 2, 1, 1, 0x80, 1, 1, 2, 1, 3, 2, 1, 7],
        told: Invoked(1, 7, Some(1)),
        own: true,
        peer: Some((1, true)),
    },
    Row {
        shows: "a link to nothing is rejected",
        open: None,
        again: false,
        syntax: Ber,
        octets: &[0xA1, 0x0C, 2, 1, 9, 0x80, 1, 1, 2, 1, 3, 2, 1, 7],
        told: Reject(&[0xA4, 6, 2, 1, 9, 0x81, 1, 5]),
        own: false,
        peer: None,
    },
    Row {
        shows: "a link to an operation without links is rejected",
        open: ASK,
        again: false,
        syntax: Ber,
        octets: &[0xA1, 0x0C, 2, 1, 1, 0x80, 1, 1, 2, 1, 3, 2, 1, 7],
        told: Reject(&[0xA4, 6, 2, 1, 1, 0x81, 1, 6]),
        own: true,
        peer: None,
    },
    Row {
        shows: "a link of another operation is rejected",
        open: ADD,
        again: false,
        syntax: Ber,
        octets: &[0xA1, 0x0C, 2, 1, 1, 0x80, 1, 1, 2, 1, 4, 2, 1, 7],
        told: Reject(&[0xA4, 6, 2, 1, 1, 0x81, 1, 7]),
        own: true,
        peer: None,
    },
];

/// An end with its own invocations and the peer's.
#[derive(Drop)]
struct Both {
    forest: Forest,
    own: Invoker,
    performer: Performer,
}

/// An end without invocations, to which APDUs come on the context 7.
fn without_any(alloc: Global) -> Both
    ensures forest { result.forest ≡ [] }
    ensures made { result.own ≡ record { kept = []; made = 0 } }
    ensures own { AreOpen true result.forest result.own.kept }
    ensures peer { AreOpen false result.forest result.performer.kept }
{
    let mut performer = Performer::new(alloc);
    performer.set_context(7);
    Both {
        forest: Forest::new(alloc),
        own: Invoker::new(alloc),
        performer,
    }
}

/// The same with an open own invocation 1 of the operation at this place, if at any.
fn with_open(rt: &impl Abort, alloc: Global, place: Option<u32>) -> Both
    ensures own { AreOpen true result.forest result.own.kept }
    ensures peer { AreOpen false result.forest result.performer.kept }
{
    let mut both = without_any(alloc);
    let Some(operation) = place else {
        return both;
    };
    let called = InvokedWith {
        operation,
        context: 5,
    };
    both.own
        .open(&mut both.forest, called, None)
        .expect(rt, "memory");
    both
}

/// Whether this is the head of an invocation.
fn is_invocation(head: &ApduHead) -> bool
    ensures { result ≡ is_invocation head.now.kind }
{
    match head.kind {
        ApduKind::Invoke => true,
        ApduKind::Result | ApduKind::Error | ApduKind::Reject => false,
    }
}

/// What becomes of the octets of an APDU.
fn take(
    rt: &impl Abort,
    alloc: Global,
    both: &mut Both,
    tables: &Tables,
    syntax: Syntax,
    octets: &[u8],
) -> RoseTaken
    requires own { AreOpen true both.old.forest both.old.own.kept }
    requires peer { AreOpen false both.old.forest both.old.performer.kept }
    ensures own { AreOpen true both.new.forest both.new.own.kept }
    ensures peer { AreOpen false both.new.forest both.new.performer.kept }
{
    let taken = match read_apdu(alloc, syntax, octets) {
        Ok(head) => {
            if is_invocation(&head) {
                both.performer
                    .take(&both.own, &mut both.forest, syntax, tables, head)
            } else {
                both.own.take(&mut both.forest, syntax, tables, head)
            }
        }
        Err(fault) => refused_head(fault),
    };
    taken.expect(rt, "memory")
}

/// Takes the APDU of a row as often as it comes before.
fn take_before(rt: &impl Abort, alloc: Global, both: &mut Both, tables: &Tables, row: &Row)
    requires own { AreOpen true both.old.forest both.old.own.kept }
    requires peer { AreOpen false both.old.forest both.old.performer.kept }
    ensures own { AreOpen true both.new.forest both.new.own.kept }
    ensures peer { AreOpen false both.new.forest both.new.performer.kept }
{
    if row.again {
        drop(take(rt, alloc, both, tables, row.syntax, row.octets));
    }
}

/// Whether this is that value of INTEGER.
fn is_integer(value: &Option<Val>, number: i64) -> bool {
    matches!(value, Some(Val { node: Node::Int(n) }) if *n == number)
}

/// Whether a reject has these octets in BER.
fn is_written(
    rt: &impl Abort,
    alloc: Global,
    tables: &Tables,
    id: Option<i64>,
    problem: Problem,
    octets: &[u8],
) -> bool {
    let reject = Apdu::Reject { id, problem };
    let written = write_apdu(alloc, Ber, tables, &reject).expect(rt, "memory");
    drop(reject);
    written.as_slice() == octets
}

/// Whether that became of an APDU.
fn is_told(rt: &impl Abort, alloc: Global, tables: &Tables, taken: &RoseTaken, told: Told) -> bool {
    match (taken, told) {
        (
            RoseTaken::Invoked {
                id: 1,
                operation,
                linked,
                argument,
            },
            Invoked(place, number, parent),
        ) => *operation == place && *linked == parent && is_integer(argument, number),
        (RoseTaken::Result { id: 1, value }, Returned(number)) => is_integer(value, number),
        (RoseTaken::Rejected { id: 1, .. }, Rejected) => true,
        (RoseTaken::RejectTaken { .. }, RejectTaken) => true,
        (RoseTaken::BadReject, BadReject) => true,
        (RoseTaken::Reject { id, problem }, Reject(octets)) => {
            is_written(rt, alloc, tables, *id, *problem, octets)
        }
        _ => false,
    }
}

/// Whether the own invocation 1 is open.
fn is_own(both: &Both, own: bool) -> bool {
    both.forest.is_open(Key { own: true, id: 1 }) == own
}

/// Whether the peer's invocation 1 alone is open, or none, as a row says.
fn is_peer(both: &Both, peer: Option<(u32, bool)>) -> bool {
    match (both.performer.called(&1), peer) {
        (None, None) => both.performer.open_count() == 0,
        (Some(called), Some((operation, under))) => {
            let parent = both.forest.parent(Key { own: false, id: 1 });
            both.performer.open_count() == 1
                && called
                    == InvokedWith {
                        operation,
                        context: 7,
                    }
                && matches!(parent, Some(Key { own: true, id: 1 })) == under
        }
        _ => false,
    }
}

/// Whether it goes as a row says at this end.
fn is_so_at(rt: &impl Abort, alloc: Global, both: &mut Both, tables: &Tables, row: &Row) -> bool
    requires own { AreOpen true both.old.forest both.old.own.kept }
    requires peer { AreOpen false both.old.forest both.old.performer.kept }
{
    take_before(rt, alloc, both, tables, row);
    let taken = take(rt, alloc, both, tables, row.syntax, row.octets);
    let told = is_told(rt, alloc, tables, &taken, row.told);
    drop(taken);
    told && is_own(both, row.own) && is_peer(both, row.peer)
}

/// Whether it goes as a row says.
fn is_so(rt: &impl Abort, alloc: Global, tables: &Tables, row: &Row) -> bool {
    let mut both = with_open(rt, alloc, row.open);
    let so = is_so_at(rt, alloc, &mut both, tables, row);
    drop(both);
    so
}

/// It goes as each row says.
fn check(rt: &impl Abort, alloc: Global, rows: &[Row]) {
    let tables = module(rt, alloc);
    for row in rows {
        assert!(rt; is_so(rt, alloc, &tables, row), "{}", row.shows);
    }
    drop(tables);
}

#[test]
fn outcomes_and_rejects(rt: HostRuntime) {
    check(&rt, rt.alloc(), &OUTCOMES);
}

#[test]
fn invocations(rt: HostRuntime) {
    check(&rt, rt.alloc(), &INVOCATIONS);
}
