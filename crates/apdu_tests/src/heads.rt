//! Heads of APDUs, and rejects. The octets of invocations and of rejects are those of worked
//! dialogues. The others are laid out by hand, by X.882 9 in the basic encoding (X.690 8) or by the
//! rules of the packed syntax, which is this project's own; which problem they have follows from
//! X.880 9.4.2 in each syntax: unrecognized is 0, mistyped 1 and badly structured 2.
//! The octets of a worked dialogue were given by a model of the rules that was written apart from
//! this program and isn't part of this repository.

use Read::{Invokes, Linked, Refused};
use Syntax::{Ber, Der, Packed};
use apdu_codec::{ApduHead, ApduKind, HeadFault, read_apdu, write_apdu};
use asn1_types::TypeTable;
use osi_base::{Name, Oid, Problem, ProblemKind, Syntax};
use std::alloc::Global;
use std::process::Abort;
use std::test::*;
use stub_tables::{Apdu, Code, ErrorRows, Operations, Tables};

/// What octets are read as.
#[derive(Clone, Copy)]
enum Read {
    /// The head of the invocation 1 of the operation 1, which is linked to none, with these octets
    /// of its argument.
    Invokes(&'static [u8]),
    /// The head of the invocation 1 of the operation 3, which is linked to the invocation 1, with
    /// these octets of its argument.
    Linked(&'static [u8]),
    /// No head, for this fault.
    Refused(HeadFault),
}

/// What a row shows, a syntax, octets, and what they are read as.
type Row = (&'static str, Syntax, &'static [u8], Read);

/// Whether octets may be read as this head.
fn is_head(head: &ApduHead, read: Read) -> bool {
    match (head, read) {
        (
            ApduHead {
                kind: ApduKind::Invoke,
                id: Some(1),
                linked: None,
                code: Some(Code::Local(1)),
                rest: Some(rest),
                ..
            },
            Invokes(octets),
        ) => rest.as_slice() == octets,
        (
            ApduHead {
                kind: ApduKind::Invoke,
                id: Some(1),
                linked: Some(1),
                code: Some(Code::Local(3)),
                rest: Some(rest),
                ..
            },
            Linked(octets),
        ) => rest.as_slice() == octets,
        _ => false,
    }
}

/// Whether the octets are read so.
fn is_read(alloc: Global, syntax: Syntax, octets: &[u8], read: Read) -> bool {
    let head = read_apdu(alloc, syntax, octets);
    let so = match &head {
        Ok(head) => is_head(head, read),
        Err(fault) => matches!(read, Refused(wanted) if *fault == wanted),
    };
    drop(head);
    so
}

/// The octets of each row are read so.
fn check(rt: &impl Abort, alloc: Global, rows: &[Row]) {
    for (shows, syntax, octets, read) in rows {
        assert!(rt; is_read(alloc, *syntax, octets, *read), "{shows}");
    }
}

const INVOCATION: &'static [u8] = &[0xA1, 9, 2, 1, 1, 2, 1, 1, 2, 1, 5];

const PACKED_INVOCATION: &'static [u8] = &[1, 1, 1, 0, 0, 1, 1, 1, 1, 5];

/// An invocation of the operation 1 with the argument 5.
static INVOCATIONS: [Row; 3] = [
    ("an invocation in BER", Ber, INVOCATION, Invokes(&[2, 1, 5])),
    ("an invocation in DER", Der, INVOCATION, Invokes(&[2, 1, 5])),
    (
        "a packed invocation",
        Packed,
        PACKED_INVOCATION,
        Invokes(&[1, 5]),
    ),
];

#[test]
fn an_invocation_is_read(rt: HostRuntime) {
    check(&rt, rt.alloc(), &INVOCATIONS);
}

static LINKS: [Row; 1] = [(
    "an invocation of the operation 3 with the argument 7, linked to the invocation 1",
    Ber,
    &[0xA1, 0x0C, 2, 1, 1, 0x80, 1, 1, 2, 1, 3, 2, 1, 7],
    Linked(&[2, 1, 7]),
)];

#[test]
fn a_link_is_read(rt: HostRuntime) {
    check(&rt, rt.alloc(), &LINKS);
}

static NO_HEADS: [Row; 5] = [
    (
        "a packed invocation, in BER",
        Ber,
        PACKED_INVOCATION,
        Refused(HeadFault::General(0)),
    ),
    (
        "the tag of a fifth alternative",
        Ber,
        &[0xA5, 0],
        Refused(HeadFault::General(0)),
    ),
    (
        "a reject without its fields",
        Ber,
        &[0xA4, 0],
        Refused(HeadFault::BadReject),
    ),
    ("no octet", Ber, &[], Refused(HeadFault::General(2))),
    (
        "an error with an octet behind it",
        Ber,
        &[0xA3, 6, 2, 1, 1, 2, 1, 7, 0],
        Refused(HeadFault::General(1)),
    ),
];

#[test]
fn what_is_no_head_is_refused(rt: HostRuntime) {
    check(&rt, rt.alloc(), &NO_HEADS);
}

static NOT_DER: [Row; 2] = [
    (
        "an error of indefinite length",
        Der,
        &[0xA3, 0x80, 2, 1, 1, 2, 1, 7, 0, 0],
        Refused(HeadFault::General(2)),
    ),
    (
        "a packed error whose mark of a parameter is 2",
        Packed,
        &[3, 1, 1, 0, 1, 7, 2],
        Refused(HeadFault::General(1)),
    ),
];

#[test]
fn what_has_no_form_of_der_is_refused(rt: HostRuntime) {
    check(&rt, rt.alloc(), &NOT_DER);
}

/// Tables without operations.
fn no_tables(rt: &impl Abort, alloc: Global) -> Tables {
    Tables {
        name: Name::from_str(alloc, "None").expect(rt, "memory"),
        name_oid: Oid::from_slice(alloc, &[2, 999, 7, 3]).expect(rt, "memory"),
        types: TypeTable::new(alloc),
        operations: Operations::new(alloc),
        errors: ErrorRows::new(alloc),
    }
}

/// What a row shows, a syntax, the invocation of a reject, the kind of its problem, whose number is
/// 0, and its octets.
static REJECTS: [(
    &'static str,
    Syntax,
    Option<i64>,
    ProblemKind,
    &'static [u8],
); 3] = [
    (
        "a reject of no invocation, of a general problem",
        Ber,
        None,
        ProblemKind::General,
        &[0xA4, 5, 5, 0, 0x80, 1, 0],
    ),
    (
        "one of the invocation 1, of a problem of its result",
        Der,
        Some(1),
        ProblemKind::Result,
        &[0xA4, 6, 2, 1, 1, 0x82, 1, 0],
    ),
    (
        "the same packed",
        Packed,
        Some(1),
        ProblemKind::Result,
        &[4, 0, 1, 1, 2, 1, 0],
    ),
];

/// Whether a reject is written as these octets.
fn is_written(
    rt: &impl Abort,
    alloc: Global,
    tables: &Tables,
    syntax: Syntax,
    reject: Apdu,
    octets: &[u8],
) -> bool {
    let written = write_apdu(alloc, syntax, tables, &reject).expect(rt, "memory");
    drop(reject);
    written.as_slice() == octets
}

#[test]
fn rejects_are_written(rt: HostRuntime) {
    let tables = no_tables(&rt, rt.alloc());
    for (shows, syntax, id, kind, octets) in &REJECTS {
        let problem = Problem {
            kind: *kind,
            number: 0,
        };
        let reject = Apdu::Reject { id: *id, problem };
        let so = is_written(&rt, rt.alloc(), &tables, *syntax, reject, octets);
        assert!(rt; so, "{shows}");
    }
    drop(tables);
}
