//! Units of the presentation protocol (X.226 8): each is read and written back, with fields that
//! are passed over left out, and each fault stands where it should. Rows that are told to be by
//! hand, and all rows with fields that are passed over or with faults, are laid out field by field:
//! the units by X.226 8.2, the data values in them by X.226 8.4.2, and what these carry by X.227 9,
//! X.228 9 and X.882 9, in the basic encoding (X.690 8). The others are those of worked dialogues.
//! The place of a fault is counted in the octets of its row; its reason is that of an abort by the
//! provider (X.226 8.2): 1 for a unit that isn't known, 6 for another fault.
//! The octets of a worked dialogue were given by a model of the rules that was written apart from
//! this program and isn't part of this repository.

use Read::{Refused, Same, Written};
use osi_base::{Kind, Ppdu};
use presentation_pdus::{PpduFault, PpduPlace, read_ppdu, write_ppdu};
use std::alloc::Global;
use std::process::Abort;
use std::test::*;
use worked_octets::octets_of;

/// What octets are read as.
#[derive(Clone, Copy)]
enum Read {
    /// A unit that is written as they are.
    Same,
    /// A unit that is written as these octets.
    Written(&'static str),
    /// No unit, with the place, kind and reason of the fault.
    Refused(usize, Kind, u8),
}

/// Octets, and what they are read as.
type Row = (PpduPlace, &'static str, Read);

/// Whether the unit is written as these octets.
fn is_written(rt: &impl Abort, alloc: Global, unit: &Ppdu, text: &str) -> bool {
    let wanted = octets_of(alloc, text).expect(rt, "memory");
    let written = write_ppdu(alloc, unit).expect(rt, "memory");
    written.as_slice() == wanted.as_slice()
}

/// Whether octets may be read as this unit.
fn is_unit(rt: &impl Abort, alloc: Global, unit: &Ppdu, text: &str, read: Read) -> bool {
    match read {
        Same => is_written(rt, alloc, unit, text),
        Written(to) => is_written(rt, alloc, unit, to),
        Refused(..) => false,
    }
}

/// Whether octets may be refused so.
fn is_fault(fault: PpduFault, read: Read) -> bool {
    match read {
        Refused(place, kind, reason) => {
            fault
                == PpduFault::At {
                    place,
                    kind,
                    reason,
                }
        }
        Same | Written(_) => false,
    }
}

/// Whether the octets are read so.
fn is_read(rt: &impl Abort, alloc: Global, place: PpduPlace, text: &str, read: Read) -> bool {
    let octets = octets_of(alloc, text).expect(rt, "memory");
    let unit = read_ppdu(alloc, place, octets.as_slice());
    let so = match &unit {
        Ok(unit) => is_unit(rt, alloc, unit, text, read),
        Err(fault) => is_fault(*fault, read),
    };
    drop(unit);
    drop(octets);
    so
}

/// The octets of each row are read so.
fn check(rt: &impl Abort, alloc: Global, rows: &[Row]) {
    for (place, text, read) in rows {
        assert!(rt; is_read(rt, alloc, *place, text, *read), "{text}");
    }
}

/// X.226 8.2: CP and CPA (each a SET, 31) and CPR (a SEQUENCE, 30), with AARQ or AARE of X.227 9
static OPENINGS: [Row; 6] = [
    // the opening's CP
    (
        PpduPlace::Cn,
        "31 4A A0 03 80 01 01 A2 43 81 02 00 01 82 02 00 01 A4 22 30 0F 02 01 01 06 04 52 01 00 01 30 04 06 02 51 01 30 0F 02 01 05 06 04 88 37 07 01 30 04 06 02 51 01 88 02 06 C0 61 11 30 0F 02 01 01 A0 0A 60 08 A1 06 06 04 88 37 05 03",
        Same,
    ),
    // the opening's CPA
    (
        PpduPlace::Ac,
        "31 42 A0 03 80 01 01 A2 3B 83 02 00 01 A5 12 30 07 80 01 00 81 02 51 01 30 07 80 01 00 81 02 51 01 88 02 06 C0 61 1D 30 1B 02 01 01 A0 16 61 14 A1 06 06 04 88 37 05 03 A2 03 02 01 00 A3 05 A1 03 02 01 00",
        Same,
    ),
    // a CPA without context management, by hand
    (
        PpduPlace::Ac,
        "31 42 A0 03 80 01 01 A2 3B 83 02 00 01 A5 12 30 07 80 01 00 81 02 51 01 30 07 80 01 00 81 02 51 01 88 02 06 00 61 1D 30 1B 02 01 01 A0 16 61 14 A1 06 06 04 88 37 05 03 A2 03 02 01 00 A3 05 A1 03 02 01 00",
        Same,
    ),
    // a refusal with an AARE, by hand
    (
        PpduPlace::Rf,
        "30 33 A5 12 30 07 80 01 00 81 02 51 01 30 07 80 01 00 81 02 51 01 61 1D 30 1B 02 01 01 A0 16 61 14 A1 06 06 04 88 37 05 03 A2 03 02 01 01 A3 05 A1 03 02 01 01",
        Same,
    ),
    // one in which the provider rejects the second definition for its abstract syntax, by hand
    (
        PpduPlace::Rf,
        "30 32 A5 11 30 07 80 01 00 81 02 51 01 30 06 80 01 02 82 01 01 61 1D 30 1B 02 01 01 A0 16 61 14 A1 06 06 04 88 37 05 03 A2 03 02 01 01 A3 05 A1 03 02 01 01",
        Same,
    ),
    // a refusal without an AARE, by hand
    (PpduPlace::Rf, "30 03 8A 01 00", Same),
];

#[test]
fn openings_and_refusals_are_read_and_written(rt: HostRuntime) {
    check(&rt, rt.alloc(), &OPENINGS);
}

/// X.226 8.2: CP, CPA and CPR, with RTORQ, RTOAC or RTORJ of X.228 9 in the AARQ or AARE
static RELIABLE_OPENINGS: [Row; 5] = [
    // an opening of reliable transfer
    (
        PpduPlace::Cn,
        "31 75 A0 03 80 01 01 A2 6E 81 02 00 01 82 02 00 01 A4 33 30 0F 02 01 01 06 04 52 01 00 01 30 04 06 02 51 01 30 0F 02 01 03 06 04 88 37 05 02 30 04 06 02 51 01 30 0F 02 01 05 06 04 88 37 07 01 30 04 06 02 51 01 88 02 06 C0 61 2B 30 29 02 01 01 A0 24 60 22 A1 06 06 04 88 37 05 04 BE 18 28 16 02 01 03 A0 11 B0 0F 80 01 01 81 01 02 82 01 01 A3 04 A0 02 05 00",
        Same,
    ),
    // its acceptance
    (
        PpduPlace::Ac,
        "31 62 A0 03 80 01 01 A2 5B 83 02 00 01 A5 1B 30 07 80 01 00 81 02 51 01 30 07 80 01 00 81 02 51 01 30 07 80 01 00 81 02 51 01 88 02 06 C0 61 34 30 32 02 01 01 A0 2D 61 2B A1 06 06 04 88 37 05 04 A2 03 02 01 00 A3 05 A1 03 02 01 00 BE 15 28 13 02 01 03 A0 0E B1 0C 80 01 01 81 01 02 A2 04 A0 02 05 00",
        Same,
    ),
    // its refusal with an AARE and an RTORJ, by hand
    (
        PpduPlace::Rf,
        "30 4A A5 1B 30 07 80 01 00 81 02 51 01 30 07 80 01 00 81 02 51 01 30 07 80 01 00 81 02 51 01 61 2B 30 29 02 01 01 A0 24 61 22 A1 06 06 04 88 37 05 04 A2 03 02 01 01 A3 05 A1 03 02 01 01 BE 0C 28 0A 02 01 03 A0 05 B2 03 80 01 02",
        Same,
    ),
    // a recovery, by hand
    (
        PpduPlace::Cn,
        "31 81 89 A0 03 80 01 01 A2 81 81 81 02 00 01 82 02 00 01 A4 33 30 0F 02 01 01 06 04 52 01 00 01 30 04 06 02 51 01 30 0F 02 01 03 06 04 88 37 05 02 30 04 06 02 51 01 30 0F 02 01 05 06 04 88 37 07 01 30 04 06 02 51 01 88 02 06 C0 61 3E 30 3C 02 01 01 A0 37 60 35 A1 06 06 04 88 37 05 04 BE 2B 28 29 02 01 03 A0 24 B0 22 80 01 01 81 01 02 82 01 01 A3 17 A1 15 04 04 72 65 66 31 17 0D 32 36 30 31 30 31 30 30 30 30 30 30 5A",
        Same,
    ),
    // its acceptance
    (
        PpduPlace::Ac,
        "31 75 A0 03 80 01 01 A2 6E 83 02 00 01 A5 1B 30 07 80 01 00 81 02 51 01 30 07 80 01 00 81 02 51 01 30 07 80 01 00 81 02 51 01 88 02 06 C0 61 47 30 45 02 01 01 A0 40 61 3E A1 06 06 04 88 37 05 04 A2 03 02 01 00 A3 05 A1 03 02 01 00 BE 28 28 26 02 01 03 A0 21 B1 1F 80 01 01 81 01 02 A2 17 A1 15 04 04 72 65 66 31 17 0D 32 36 30 31 30 31 30 30 30 30 30 30 5A",
        Same,
    ),
];

#[test]
fn openings_of_reliable_transfer_are_read_and_written(rt: HostRuntime) {
    check(&rt, rt.alloc(), &RELIABLE_OPENINGS);
}

/// X.226 8.4.2: data values with their contexts (the tag 61), which carry APDUs of X.882 9 (A1,
/// A2 and A4), an RTTP of X.228 9 (02) and octets of other syntaxes (81, 82)
static DATA: [Row; 7] = [
    // an invocation
    (
        PpduPlace::Dt,
        "61 12 30 10 02 01 05 A0 0B A1 09 02 01 01 02 01 01 02 01 05",
        Same,
    ),
    // an invocation in the packed syntax
    (
        PpduPlace::Dt,
        "61 11 30 0F 02 01 07 81 0A 01 01 01 00 00 01 01 01 01 05",
        Same,
    ),
    // its result, by hand around the APDU of a worked dialogue
    (
        PpduPlace::Dt,
        "61 14 30 12 02 01 05 A0 0D A2 0B 02 01 01 30 06 02 01 01 02 01 05",
        Same,
    ),
    // a reject of a second result, in the same way
    (
        PpduPlace::Dt,
        "61 0F 30 0D 02 01 05 A0 08 A4 06 02 01 01 82 01 00",
        Same,
    ),
    // a reject of what is no APDU, in the same way
    (
        PpduPlace::Dt,
        "61 0E 30 0C 02 01 05 A0 07 A4 05 05 00 80 01 00",
        Same,
    ),
    // a plea for the turn of reliable transfer, with priority 3
    (PpduPlace::Pt, "61 0A 30 08 02 01 03 A0 03 02 01 03", Same),
    // two values, each in one of the other forms, by hand: octets, and four bits
    (
        PpduPlace::Dt,
        "61 12 30 07 02 01 07 81 02 01 05 30 07 02 01 09 82 02 04 F0",
        Same,
    ),
];

#[test]
fn data_are_read_and_written(rt: HostRuntime) {
    check(&rt, rt.alloc(), &DATA);
}

/// X.226 8.2: AC (the tag A0) and ACA (A1), in typed data
static ALTERATIONS: [Row; 7] = [
    // a deletion
    (PpduPlace::Td, "A0 05 A1 03 02 01 05", Same),
    // its acceptance
    (PpduPlace::Td, "A1 05 A1 03 02 01 00", Same),
    // its rejection
    (PpduPlace::Td, "A1 05 A1 03 02 01 01", Same),
    // an addition
    (
        PpduPlace::Td,
        "A0 15 A0 13 30 11 02 01 07 06 04 88 37 07 01 30 06 06 04 88 37 05 01",
        Same,
    ),
    // its acceptance
    (
        PpduPlace::Td,
        "A1 0D A0 0B 30 09 80 01 00 81 04 88 37 05 01",
        Same,
    ),
    // its rejection by the provider, which takes no further context, by hand
    (PpduPlace::Td, "A1 0A A0 08 30 06 80 01 02 82 01 03", Same),
    // an addition and a deletion
    (
        PpduPlace::Td,
        "A0 1A A0 13 30 11 02 01 07 06 04 88 37 07 01 30 06 06 04 88 37 05 01 A1 03 02 01 05",
        Same,
    ),
];

#[test]
fn alterations_are_read_and_written(rt: HostRuntime) {
    check(&rt, rt.alloc(), &ALTERATIONS);
}

/// X.226 8.2: RS and RSA
static RESTARTS: [Row; 3] = [
    // a restart with its list
    (
        PpduPlace::Rs,
        "30 14 A0 12 30 07 02 01 01 06 02 51 01 30 07 02 01 05 06 02 51 01",
        Same,
    ),
    // its answer
    (
        PpduPlace::Ra,
        "30 14 A0 12 30 07 02 01 01 06 02 51 01 30 07 02 01 05 06 02 51 01",
        Same,
    ),
    // a restart without a list, by hand
    (PpduPlace::Rs, "30 00", Same),
];

#[test]
fn restarts_are_read_and_written(rt: HostRuntime) {
    check(&rt, rt.alloc(), &RESTARTS);
}

/// X.226 8.4.2 with RLRQ and RLRE of X.227 9; X.226 8.2: ARU (the tag A0) with ABRT, ARP (30)
static ENDS: [Row; 7] = [
    // a release
    (
        PpduPlace::Fn,
        "61 0C 30 0A 02 01 01 A0 05 62 03 80 01 00",
        Same,
    ),
    // its answer
    (
        PpduPlace::Dn,
        "61 0C 30 0A 02 01 01 A0 05 63 03 80 01 00",
        Same,
    ),
    // an abort by the user
    (
        PpduPlace::Ab,
        "A0 0E 61 0C 30 0A 02 01 01 A0 05 64 03 80 01 00",
        Same,
    ),
    // an abort by association control, by hand
    (
        PpduPlace::Ab,
        "A0 0E 61 0C 30 0A 02 01 01 A0 05 64 03 80 01 01",
        Same,
    ),
    // an abort by reliable transfer, by hand
    (
        PpduPlace::Ab,
        "A0 1C 61 1A 30 18 02 01 01 A0 13 64 11 80 01 00 BE 0C 28 0A 02 01 03 A0 05 B6 03 80 01 04",
        Same,
    ),
    // an abort by the provider for an absent context
    (PpduPlace::Ab, "30 03 80 01 06", Same),
    // one for a unit that isn't known, by hand
    (PpduPlace::Ab, "30 03 80 01 01", Same),
];

#[test]
fn releases_and_aborts_are_read_and_written(rt: HostRuntime) {
    check(&rt, rt.alloc(), &ENDS);
}

/// Openings with fields that are passed over.
static PASSED_FIELDS: [Row; 3] = [
    // a field of CP of one octet, and one of indefinite length
    (
        PpduPlace::Cn,
        "31 53 A0 03 80 01 01 A2 4C 81 02 00 01 82 02 00 01 A4 22 30 0F 02 01 01 06 04 52 01 00 01 30 04 06 02 51 01 30 0F 02 01 05 06 04 88 37 07 01 30 04 06 02 51 01 88 02 06 C0 8B 01 07 AE 80 05 00 00 00 61 11 30 0F 02 01 01 A0 0A 60 08 A1 06 06 04 88 37 05 03",
        Written(
            "31 4A A0 03 80 01 01 A2 43 81 02 00 01 82 02 00 01 A4 22 30 0F 02 01 01 06 04 52 01 00 01 30 04 06 02 51 01 30 0F 02 01 05 06 04 88 37 07 01 30 04 06 02 51 01 88 02 06 C0 61 11 30 0F 02 01 01 A0 0A 60 08 A1 06 06 04 88 37 05 03",
        ),
    ),
    // an empty field of CPA
    (
        PpduPlace::Ac,
        "31 44 A0 03 80 01 01 A2 3D 83 02 00 01 A5 12 30 07 80 01 00 81 02 51 01 30 07 80 01 00 81 02 51 01 88 02 06 C0 8C 00 61 1D 30 1B 02 01 01 A0 16 61 14 A1 06 06 04 88 37 05 03 A2 03 02 01 00 A3 05 A1 03 02 01 00",
        Written(
            "31 42 A0 03 80 01 01 A2 3B 83 02 00 01 A5 12 30 07 80 01 00 81 02 51 01 30 07 80 01 00 81 02 51 01 88 02 06 C0 61 1D 30 1B 02 01 01 A0 16 61 14 A1 06 06 04 88 37 05 03 A2 03 02 01 00 A3 05 A1 03 02 01 00",
        ),
    ),
    // the mode selector of CP behind its other fields
    (
        PpduPlace::Cn,
        "31 4A A2 43 81 02 00 01 82 02 00 01 A4 22 30 0F 02 01 01 06 04 52 01 00 01 30 04 06 02 51 01 30 0F 02 01 05 06 04 88 37 07 01 30 04 06 02 51 01 88 02 06 C0 61 11 30 0F 02 01 01 A0 0A 60 08 A1 06 06 04 88 37 05 03 A0 03 80 01 01",
        Written(
            "31 4A A0 03 80 01 01 A2 43 81 02 00 01 82 02 00 01 A4 22 30 0F 02 01 01 06 04 52 01 00 01 30 04 06 02 51 01 30 0F 02 01 05 06 04 88 37 07 01 30 04 06 02 51 01 88 02 06 C0 61 11 30 0F 02 01 01 A0 0A 60 08 A1 06 06 04 88 37 05 03",
        ),
    ),
];

#[test]
fn fields_of_openings_are_passed_over(rt: HostRuntime) {
    check(&rt, rt.alloc(), &PASSED_FIELDS);
}

/// Units with user data that are passed over, or with indefinite lengths.
static PASSED_DATA: [Row; 3] = [
    // user data of AC, which hold an element that is no data value
    (
        PpduPlace::Td,
        "A0 0A A1 03 02 01 05 61 03 80 01 07",
        Written("A0 05 A1 03 02 01 05"),
    ),
    // user data of RS, which are empty
    (
        PpduPlace::Rs,
        "30 16 A0 12 30 07 02 01 01 06 02 51 01 30 07 02 01 05 06 02 51 01 61 00",
        Written("30 14 A0 12 30 07 02 01 01 06 02 51 01 30 07 02 01 05 06 02 51 01"),
    ),
    // a deletion with indefinite lengths
    (
        PpduPlace::Td,
        "A0 80 A1 80 02 01 05 00 00 00 00",
        Written("A0 05 A1 03 02 01 05"),
    ),
];

#[test]
fn user_data_and_indefinite_lengths_are_passed_over(rt: HostRuntime) {
    check(&rt, rt.alloc(), &PASSED_DATA);
}

/// Units with their first faults.
static FIRST_FAULTS: [Row; 6] = [
    // an abort by the provider without its reason
    (
        PpduPlace::Ab,
        "30 03 01 01 00",
        Refused(2, Kind::Missing, 6),
    ),
    // no octet
    (PpduPlace::Dt, "", Refused(0, Kind::Missing, 6)),
    // a tag that no unit of data has
    (PpduPlace::Dt, "A1 00", Refused(0, Kind::Tag, 1)),
    // the tag of an alteration, of a primitive
    (PpduPlace::Td, "80 00", Refused(0, Kind::Tag, 1)),
    // no data value
    (PpduPlace::Dt, "61 00", Refused(2, Kind::Missing, 6)),
    // a mode other than 1
    (
        PpduPlace::Cn,
        "31 4A A0 03 80 01 02 A2 43 81 02 00 01 82 02 00 01 A4 22 30 0F 02 01 01 06 04 52 01 00 01 30 04 06 02 51 01 30 0F 02 01 05 06 04 88 37 07 01 30 04 06 02 51 01 88 02 06 C0 61 11 30 0F 02 01 01 A0 0A 60 08 A1 06 06 04 88 37 05 03",
        Refused(6, Kind::Content, 6),
    ),
];

#[test]
fn first_faults_of_units(rt: HostRuntime) {
    check(&rt, rt.alloc(), &FIRST_FAULTS);
}

/// Faults at fields that are known or passed over.
static FAULTS_AT_PASSED: [Row; 6] = [
    // a mode selector twice
    (
        PpduPlace::Cn,
        "31 0A A0 03 80 01 01 A0 03 80 01 01",
        Refused(7, Kind::Extra, 6),
    ),
    // a mode selector alone
    (
        PpduPlace::Cn,
        "31 05 A0 03 80 01 01",
        Refused(7, Kind::Missing, 6),
    ),
    // an octet behind the unit
    (
        PpduPlace::Ab,
        "30 03 80 01 06 00",
        Refused(5, Kind::Extra, 6),
    ),
    // a result of 3, where 2 is the greatest
    (
        PpduPlace::Td,
        "A1 07 A0 05 30 03 80 01 03",
        Refused(8, Kind::Content, 6),
    ),
    // a field that is passed over with a length of 5, which takes in the front of the user
    // data: what follows is no field
    (
        PpduPlace::Cn,
        "31 4C A0 03 80 01 01 A2 45 81 02 00 01 82 02 00 01 A4 22 30 0F 02 01 01 06 04 52 01 00 01 30 04 06 02 51 01 30 0F 02 01 05 06 04 88 37 07 01 30 04 06 02 51 01 88 02 06 C0 8B 05 61 11 30 0F 02 01 01 A0 0A 60 08 A1 06 06 04 88 37 05 03",
        Refused(64, Kind::Extra, 6),
    ),
    // a context identifier of 0, behind fields that are passed over
    (
        PpduPlace::Cn,
        "31 53 A0 03 80 01 01 A2 4C 81 02 00 01 82 02 00 01 A4 22 30 0F 02 01 01 06 04 52 01 00 01 30 04 06 02 51 01 30 0F 02 01 05 06 04 88 37 07 01 30 04 06 02 51 01 88 02 06 C0 8B 01 07 AE 80 05 00 00 00 61 11 30 0F 02 01 00 A0 0A 60 08 A1 06 06 04 88 37 05 03",
        Refused(72, Kind::Content, 6),
    ),
];

#[test]
fn faults_at_fields_that_are_passed_over(rt: HostRuntime) {
    check(&rt, rt.alloc(), &FAULTS_AT_PASSED);
}

/// Faults behind such fields.
static FAULTS_BEHIND_PASSED: [Row; 5] = [
    // a field that is passed over behind user data
    (
        PpduPlace::Cn,
        "31 4C A0 03 80 01 01 A2 45 81 02 00 01 82 02 00 01 A4 22 30 0F 02 01 01 06 04 52 01 00 01 30 04 06 02 51 01 30 0F 02 01 05 06 04 88 37 07 01 30 04 06 02 51 01 88 02 06 C0 61 11 30 0F 02 01 01 A0 0A 60 08 A1 06 06 04 88 37 05 03 8B 00",
        Refused(76, Kind::Extra, 6),
    ),
    // the session requirements, a known field, behind one that is passed over
    (
        PpduPlace::Cn,
        "31 50 A0 03 80 01 01 A2 49 81 02 00 01 82 02 00 01 A4 22 30 0F 02 01 01 06 04 52 01 00 01 30 04 06 02 51 01 30 0F 02 01 05 06 04 88 37 07 01 30 04 06 02 51 01 88 02 06 C0 8B 00 89 02 06 C0 61 11 30 0F 02 01 01 A0 0A 60 08 A1 06 06 04 88 37 05 03",
        Refused(59, Kind::Extra, 6),
    ),
    // a unit that ends behind an identifier's tag
    (
        PpduPlace::Dt,
        "61 12 30 10 02",
        Refused(5, Kind::Missing, 6),
    ),
    // a field that is passed over with a length of 127, which goes past the end
    (
        PpduPlace::Cn,
        "31 4C A0 03 80 01 01 A2 45 81 02 00 01 82 02 00 01 A4 22 30 0F 02 01 01 06 04 52 01 00 01 30 04 06 02 51 01 30 0F 02 01 05 06 04 88 37 07 01 30 04 06 02 51 01 88 02 06 C0 8B 7F 61 11 30 0F 02 01 01 A0 0A 60 08 A1 06 06 04 88 37 05 03",
        Refused(58, Kind::Length, 6),
    ),
    // a field of indefinite length that is passed over, with the tag 0 and a length of 1 in it
    (
        PpduPlace::Cn,
        "31 4E A0 03 80 01 01 A2 47 81 02 00 01 82 02 00 01 A4 22 30 0F 02 01 01 06 04 52 01 00 01 30 04 06 02 51 01 30 0F 02 01 05 06 04 88 37 07 01 30 04 06 02 51 01 88 02 06 C0 AB 80 00 01 61 11 30 0F 02 01 01 A0 0A 60 08 A1 06 06 04 88 37 05 03",
        Refused(59, Kind::Tag, 6),
    ),
];

#[test]
fn faults_behind_fields_that_are_passed_over(rt: HostRuntime) {
    check(&rt, rt.alloc(), &FAULTS_BEHIND_PASSED);
}
