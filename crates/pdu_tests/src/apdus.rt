//! APDUs of association control: each is read and written back, with fields that are passed over
//! left out, and each fault stands where it should. Rows that are told to be by hand, and all rows
//! with fields that are passed over or with faults, are laid out field by field by X.227 9, in the
//! basic encoding (X.690 8), and the APDUs of reliable transfer in user information by X.228 9; the
//! others are those of worked dialogues. The place of a fault is counted in the octets of its row.
//! The octets of a worked dialogue were given by a model of the rules that was written apart from
//! this program and isn't part of this repository.

use acse::{AcseFault, read_acse, write_acse};
use osi_base::{Acse, Diagnostic, External, Kind};
use std::alloc::Global;
use std::process::Abort;
use std::test::*;
use worked_octets::octets_of;

/// Octets of an APDU, and those that it is written as.
type Rewritten = (&'static str, &'static str);

/// Octets that are no APDU, and the place and kind of their fault.
type Refused = (&'static str, usize, Kind);

/// Whether the APDU is written as these octets.
fn is_apdu_of(rt: &impl Abort, alloc: Global, apdu: &Acse, wanted: &[u8]) -> bool {
    let written = write_acse(alloc, apdu).expect(rt, "memory");
    written.as_slice() == wanted
}

/// Whether the APDU of these octets is written as those.
fn is_written(rt: &impl Abort, alloc: Global, text: &str, to: &str) -> bool {
    let octets = octets_of(alloc, text).expect(rt, "memory");
    let wanted = octets_of(alloc, to).expect(rt, "memory");
    let read = read_acse(alloc, octets.as_slice());
    let so = match &read {
        Ok(apdu) => is_apdu_of(rt, alloc, apdu, wanted.as_slice()),
        Err(_) => false,
    };
    drop(read);
    so
}

/// Whether these octets are refused so.
fn is_refused(rt: &impl Abort, alloc: Global, text: &str, fault: AcseFault) -> bool {
    let octets = octets_of(alloc, text).expect(rt, "memory");
    read_acse(alloc, octets.as_slice()).err() == Some(fault)
}

/// Whether the APDU of each row is written as its octets.
fn are_written(rt: &impl Abort, alloc: Global, rows: &[&'static str]) -> bool {
    for text in rows {
        if !is_written(rt, alloc, text, text) {
            return false;
        }
    }
    true
}

/// Whether the APDU of each row is written as the second octets.
fn are_written_so(rt: &impl Abort, alloc: Global, rows: &[Rewritten]) -> bool {
    for (text, to) in rows {
        if !is_written(rt, alloc, text, to) {
            return false;
        }
    }
    true
}

/// Whether the octets of each row are refused with its place and kind.
fn are_refused(rt: &impl Abort, alloc: Global, rows: &[Refused]) -> bool {
    for (text, place, kind) in rows {
        let fault = AcseFault::At {
            place: *place,
            kind: *kind,
        };
        if !is_refused(rt, alloc, text, fault) {
            return false;
        }
    }
    true
}

/// X.227 9: AARQ (the tag 60) and AARE (61), whose result is 0 or 1
const ASSOCIATIONS: [&'static str; 3] = [
    // request
    "60 08 A1 06 06 04 88 37 05 03",
    // response
    "61 14 A1 06 06 04 88 37 05 03 A2 03 02 01 00 A3 05 A1 03 02 01 00",
    // refusal, by hand
    "61 14 A1 06 06 04 88 37 05 03 A2 03 02 01 01 A3 05 A1 03 02 01 01",
];

#[test]
fn associations_are_read_and_written(rt: HostRuntime) {
    assert!(rt; are_written(&rt, rt.alloc(), &ASSOCIATIONS));
}

/// X.227 9: AARQ and AARE, whose user information carries RTORQ (the tag B0), RTOAC (B1) or
/// RTORJ (B2) of X.228 9
const RELIABLE_ASSOCIATIONS: [&'static str; 5] = [
    // request of reliable transfer
    "60 22 A1 06 06 04 88 37 05 04 BE 18 28 16 02 01 03 A0 11 B0 0F 80 01 01 81 01 02 82 01 01 A3 04 A0 02 05 00",
    // response of reliable transfer
    "61 2B A1 06 06 04 88 37 05 04 A2 03 02 01 00 A3 05 A1 03 02 01 00 BE 15 28 13 02 01 03 A0 0E B1 0C 80 01 01 81 01 02 A2 04 A0 02 05 00",
    // refusal of reliable transfer, by hand
    "61 22 A1 06 06 04 88 37 05 04 A2 03 02 01 01 A3 05 A1 03 02 01 01 BE 0C 28 0A 02 01 03 A0 05 B2 03 80 01 02",
    // response of a recovery
    "61 3E A1 06 06 04 88 37 05 04 A2 03 02 01 00 A3 05 A1 03 02 01 00 BE 28 28 26 02 01 03 A0 21 B1 1F 80 01 01 81 01 02 A2 17 A1 15 04 04 72 65 66 31 17 0D 32 36 30 31 30 31 30 30 30 30 30 30 5A",
    // request of a recovery
    "60 35 A1 06 06 04 88 37 05 04 BE 2B 28 29 02 01 03 A0 24 B0 22 80 01 01 81 01 02 82 01 01 A3 17 A1 15 04 04 72 65 66 31 17 0D 32 36 30 31 30 31 30 30 30 30 30 30 5A",
];

#[test]
fn associations_of_reliable_transfer_are_read_and_written(rt: HostRuntime) {
    assert!(rt; are_written(&rt, rt.alloc(), &RELIABLE_ASSOCIATIONS));
}

/// X.227 9: RLRQ (the tag 62), RLRE (63) and ABRT (64), the last with RTAB (B6) of X.228 9
const ENDS: [&'static str; 5] = [
    // release
    "62 03 80 01 00",
    // its answer
    "63 03 80 01 00",
    // abort
    "64 03 80 01 00",
    // abort by association control, by hand
    "64 03 80 01 01",
    // abort of reliable transfer, by hand
    "64 11 80 01 00 BE 0C 28 0A 02 01 03 A0 05 B6 03 80 01 04",
];

#[test]
fn releases_and_aborts_are_read_and_written(rt: HostRuntime) {
    assert!(rt; are_written(&rt, rt.alloc(), &ENDS));
}

/// APDUs with fields that are passed over or absent.
const PASSED: [Rewritten; 4] = [
    // a request with a title in front of the context name, and with two fields behind it, of
    // which the first has an indefinite length
    (
        "60 16 A2 03 06 01 2A A1 06 06 04 88 37 05 03 A6 80 06 01 2A 00 00 BD 00",
        "60 08 A1 06 06 04 88 37 05 03",
    ),
    // a response with its version and, in front of the result, an empty title
    (
        "61 19 80 01 00 A1 06 06 04 88 37 05 03 A4 00 A2 03 02 01 00 A3 05 A1 03 02 01 00",
        "61 14 A1 06 06 04 88 37 05 03 A2 03 02 01 00 A3 05 A1 03 02 01 00",
    ),
    // a release with empty user information in front of its reason
    ("62 05 BE 00 80 01 00", "62 03 80 01 00"),
    // a release without its reason, which is 0 then
    ("62 00", "62 03 80 01 00"),
];

#[test]
fn what_is_passed_over_is_left_out(rt: HostRuntime) {
    assert!(rt; are_written_so(&rt, rt.alloc(), &PASSED));
}

/// What is no APDU, with its first fault.
const FIRST_FAULTS: [Refused; 6] = [
    // no octet
    ("", 0, Kind::Missing),
    // a tag that no APDU has
    ("65 00", 0, Kind::Tag),
    // a title whose contents are an identifier without its length, and no context name
    ("60 03 A2 01 05", 5, Kind::Missing),
    // a whole title, and no context name behind it
    ("60 04 A2 02 05 00", 6, Kind::Missing),
    // a result of 3, where 2 is the greatest
    (
        "61 14 A1 06 06 04 88 37 05 03 A2 03 02 01 03 A3 05 A1 03 02 01 00",
        14,
        Kind::Content,
    ),
    // a context name behind user information, in front of which it is looked for
    ("60 0A BE 00 A1 06 06 04 88 37 05 03", 2, Kind::Missing),
];

#[test]
fn first_faults_of_apdus(rt: HostRuntime) {
    assert!(rt; are_refused(&rt, rt.alloc(), &FIRST_FAULTS));
}

/// Faults behind known fields.
const LATER_FAULTS: [Refused; 5] = [
    // a second context name
    (
        "60 10 A1 06 06 04 88 37 05 03 A1 06 06 04 88 37 05 03",
        10,
        Kind::Extra,
    ),
    // a title of 127 octets, which goes past the end
    ("60 0A A2 7F A1 06 06 04 88 37 05 03", 3, Kind::Length),
    // a field behind the context name whose tag is of another class
    ("60 0A A1 06 06 04 88 37 05 03 05 00", 10, Kind::Extra),
    // a source of 2, where 1 is the greatest
    ("64 03 80 01 02", 4, Kind::Content),
    // an octet behind the APDU
    ("62 00 00", 2, Kind::Extra),
];

#[test]
fn faults_behind_known_fields(rt: HostRuntime) {
    assert!(rt; are_refused(&rt, rt.alloc(), &LATER_FAULTS));
}

/// The fields that an APDU is to have.
#[derive(Clone, Copy)]
enum Fields {
    /// A request of reliable transfer: an EXTERNAL on context 3 with 17 octets.
    Asks,
    /// A refusal by the user, with no reason given.
    Refuses,
    /// A release for this reason.
    Releases(i64),
    /// An abort by this source, with so many values of user information.
    Aborts(u8, usize),
}

/// Whether user information is there, on this context, with so many octets.
fn informs(user: Option<&External>, id: u32, count: usize) -> bool {
    match user {
        Some(external) => external.id == id && external.value.len() == count,
        None => false,
    }
}

fn asks(apdu: &Acse) -> bool {
    match apdu {
        Acse::AssociateRequest {
            version,
            context,
            user,
        } => {
            version.is_none()
                && context.arcs() == [2, 999, 5, 4].as_slice()
                && user.len() == 1
                && informs(user.get(0), 3, 17)
        }
        _ => false,
    }
}

fn refuses(apdu: &Acse) -> bool {
    match apdu {
        Acse::AssociateResponse {
            context,
            result,
            diagnostic,
            user,
        } => {
            context.arcs() == [2, 999, 5, 3].as_slice()
                && *result == 1
                && *diagnostic == Diagnostic::User(1)
                && user.len() == 0
        }
        _ => false,
    }
}

fn releases(apdu: &Acse, number: i64) -> bool {
    match apdu {
        Acse::ReleaseRequest { reason } => *reason == number,
        _ => false,
    }
}

fn is_aborted(apdu: &Acse, by: u8, count: usize) -> bool {
    match apdu {
        Acse::Abort { source, user } => *source == by && user.len() == count,
        _ => false,
    }
}

fn says_this(apdu: &Acse, fields: Fields) -> bool {
    match fields {
        Fields::Asks => asks(apdu),
        Fields::Refuses => refuses(apdu),
        Fields::Releases(number) => releases(apdu, number),
        Fields::Aborts(by, count) => is_aborted(apdu, by, count),
    }
}

/// Whether these octets are an APDU that says this.
fn is_said(rt: &impl Abort, alloc: Global, text: &str, fields: Fields) -> bool {
    let octets = octets_of(alloc, text).expect(rt, "memory");
    let read = read_acse(alloc, octets.as_slice());
    let so = match &read {
        Ok(apdu) => says_this(apdu, fields),
        Err(_) => false,
    };
    drop(read);
    so
}

/// Whether the octets of each row are an APDU that says this.
fn are_said(rt: &impl Abort, alloc: Global, rows: &[(&'static str, Fields)]) -> bool {
    for (text, fields) in rows {
        if !is_said(rt, alloc, text, *fields) {
            return false;
        }
    }
    true
}

/// Associations.
const ASSOCIATIONS_SAID: [(&'static str, Fields); 2] = [
    // request of reliable transfer: an EXTERNAL on context 3 with 17 octets
    (
        "60 22 A1 06 06 04 88 37 05 04 BE 18 28 16 02 01 03 A0 11 B0 0F 80 01 01 81 01 02 82 01 01 A3 04 A0 02 05 00",
        Fields::Asks,
    ),
    // refusal, by hand: by the user, with no reason given
    (
        "61 14 A1 06 06 04 88 37 05 03 A2 03 02 01 01 A3 05 A1 03 02 01 01",
        Fields::Refuses,
    ),
];

#[test]
fn associations_say_their_fields(rt: HostRuntime) {
    assert!(rt; are_said(&rt, rt.alloc(), &ASSOCIATIONS_SAID));
}

/// Releases and aborts.
const ENDS_SAID: [(&'static str, Fields); 5] = [
    // a release without its reason, which is 0 then
    ("62 00", Fields::Releases(0)),
    // by hand, one with the reason 30
    ("62 03 80 01 1E", Fields::Releases(30)),
    // an abort by the user
    ("64 03 80 01 00", Fields::Aborts(0, 0)),
    // by hand, one by association control
    ("64 03 80 01 01", Fields::Aborts(1, 0)),
    // by hand, one by reliable transfer
    (
        "64 11 80 01 00 BE 0C 28 0A 02 01 03 A0 05 B6 03 80 01 04",
        Fields::Aborts(0, 1),
    ),
];

#[test]
fn releases_and_aborts_say_their_fields(rt: HostRuntime) {
    assert!(rt; are_said(&rt, rt.alloc(), &ENDS_SAID));
}
