//! APDUs of reliable transfer: each is read and written back, and says its fields. Openings and
//! recoveries with their acceptances and the plea for the turn are those of worked dialogues; rows
//! that are told to be by hand, and all rows with defaults or with faults, are laid out field by
//! field by X.228 9, in the basic encoding (X.690 8). The place of a fault is counted in the octets
//! of its row. The lengths of a transfer and of its first part are those of a worked one, whose
//! invocation stores 2,975 octets and whose checkpoint is 1.
//! The octets of a worked dialogue were given by a model of the rules that was written apart from
//! this program and isn't part of this repository.

use fixed_tables::PduFault;
use osi_base::{ConnectionData, Kind, Octets, Pdv, PdvContent, Rtse};
use rtse_apdus::{read_rtse, read_transfer, write_rtse, write_transfer};
use std::alloc::Global;
use std::process::Abort;
use std::test::*;
use worked_octets::octets_of;

/// Octets of an APDU, and those that it is written as.
type Rewritten = (&'static str, &'static str);

/// Octets that are no APDU, and the place and kind of their fault.
type Refused = (&'static str, usize, Kind);

/// Whether the APDU is written as these octets.
fn is_apdu_of(rt: &impl Abort, alloc: Global, apdu: &Rtse, wanted: &[u8]) -> bool {
    let written = write_rtse(alloc, apdu).expect(rt, "memory");
    written.as_slice() == wanted
}

/// Whether the APDU of these octets is written as those.
fn is_written(rt: &impl Abort, alloc: Global, text: &str, to: &str) -> bool {
    let octets = octets_of(alloc, text).expect(rt, "memory");
    let wanted = octets_of(alloc, to).expect(rt, "memory");
    let read = read_rtse(alloc, octets.as_slice());
    let so = match &read {
        Ok(apdu) => is_apdu_of(rt, alloc, apdu, wanted.as_slice()),
        Err(_) => false,
    };
    drop(read);
    so
}

/// Whether these octets are refused so.
fn is_refused(rt: &impl Abort, alloc: Global, text: &str, fault: PduFault) -> bool {
    let octets = octets_of(alloc, text).expect(rt, "memory");
    read_rtse(alloc, octets.as_slice()).err() == Some(fault)
}

/// Whether the APDU of each row is written as its octets.
fn are_written(rt: &impl Abort, alloc: Global, rows: &[&'static str]) -> bool {
    for text in rows {
        if !is_written(rt, alloc, text, text) {
            return false;
        }
    }
    true
}

/// Whether the APDU of each row is written as the second octets.
fn are_written_so(rt: &impl Abort, alloc: Global, rows: &[Rewritten]) -> bool {
    for (text, to) in rows {
        if !is_written(rt, alloc, text, to) {
            return false;
        }
    }
    true
}

/// Whether the octets of each row are refused with its place and kind.
fn are_refused(rt: &impl Abort, alloc: Global, rows: &[Refused]) -> bool {
    for (text, place, kind) in rows {
        let fault = PduFault::At {
            place: *place,
            kind: *kind,
        };
        if !is_refused(rt, alloc, text, fault) {
            return false;
        }
    }
    true
}

/// X.228 9: RTORQ (the tag B0), RTOAC (B1), RTORJ (B2), RTAB (B6), RTTP (an INTEGER, 02) and
/// RTTR (an OCTET STRING, 04)
const OPENINGS: [&'static str; 7] = [
    // an opening
    "B0 0F 80 01 01 81 01 02 82 01 01 A3 04 A0 02 05 00",
    // its acceptance
    "B1 0C 80 01 01 81 01 02 A2 04 A0 02 05 00",
    // its refusal, by hand
    "B2 03 80 01 02",
    // an abort, by hand
    "B6 03 80 01 04",
    // a plea for the turn
    "02 01 03",
    // one of the highest priority number, 4,294,967,295, by hand
    "02 05 00 FF FF FF FF",
    // a part of a transfer, by hand: two octets
    "04 02 A1 09",
];

#[test]
fn openings_are_read_and_written(rt: HostRuntime) {
    assert!(rt; are_written(&rt, rt.alloc(), &OPENINGS));
}

/// X.228 9: RTORQ and RTOAC, with the name of a session connection instead of an opening's data
const RECOVERIES: [&'static str; 2] = [
    // a recovery
    "B0 22 80 01 01 81 01 02 82 01 01 A3 17 A1 15 04 04 72 65 66 31 17 0D 32 36 30 31 30 31 30 30 30 30 30 30 5A",
    // its acceptance
    "B1 1F 80 01 01 81 01 02 A2 17 A1 15 04 04 72 65 66 31 17 0D 32 36 30 31 30 31 30 30 30 30 30 30 5A",
];

#[test]
fn a_recovery_is_read_and_written(rt: HostRuntime) {
    assert!(rt; are_written(&rt, rt.alloc(), &RECOVERIES));
}

/// Openings with fields that are absent or stand in another order.
const DEFAULTS: [Rewritten; 3] = [
    // an opening without checkpoint, window and mode, whose defaults are those of X.228 9: 0, 3
    // and 0
    (
        "B0 06 A3 04 A0 02 05 00",
        "B0 0F 80 01 00 81 01 03 82 01 00 A3 04 A0 02 05 00",
    ),
    // an acceptance without checkpoint and window: 0 and 3
    (
        "B1 06 A2 04 A0 02 05 00",
        "B1 0C 80 01 00 81 01 03 A2 04 A0 02 05 00",
    ),
    // fields of a SET in another order, written in that of their tags
    (
        "B0 0F A3 04 A0 02 05 00 82 01 01 81 01 02 80 01 01",
        "B0 0F 80 01 01 81 01 02 82 01 01 A3 04 A0 02 05 00",
    ),
];

#[test]
fn defaults_are_written(rt: HostRuntime) {
    assert!(rt; are_written_so(&rt, rt.alloc(), &DEFAULTS));
}

/// What is no APDU, with its first fault.
const FIRST_FAULTS: [Refused; 7] = [
    // a window of 256
    (
        "B0 10 80 01 01 81 02 01 00 82 01 01 A3 04 A0 02 05 00",
        7,
        Kind::Content,
    ),
    // a checkpoint of 256
    (
        "B1 0D 80 02 01 00 81 01 02 A2 04 A0 02 05 00",
        4,
        Kind::Content,
    ),
    // no reason
    ("B2 00", 2, Kind::Missing),
    // a field behind the reason
    ("B6 06 80 01 04 81 01 00", 5, Kind::Extra),
    // a recovery with NULL where its common reference should stand
    (
        "B0 0C A3 0A A1 08 04 04 72 65 66 31 05 00",
        12,
        Kind::Missing,
    ),
    // an octet behind the APDU
    ("02 01 03 00", 3, Kind::Extra),
    // a refusal that ends behind the first octet of its reason
    ("B2 03 80", 3, Kind::Missing),
];

#[test]
fn first_faults_of_transfers(rt: HostRuntime) {
    assert!(rt; are_refused(&rt, rt.alloc(), &FIRST_FAULTS));
}

fn opens(apdu: &Rtse) -> bool {
    match apdu {
        Rtse::OpenRequest {
            checkpoint,
            window,
            mode,
            data: ConnectionData::Open(value),
        } => {
            *checkpoint == 1 && *window == 2 && *mode == 3 && value.as_slice() == [5, 0].as_slice()
        }
        _ => false,
    }
}

fn recovers(apdu: &Rtse) -> bool {
    match apdu {
        Rtse::OpenAccept {
            checkpoint,
            window,
            data: ConnectionData::Recover { reference, common },
        } => {
            *checkpoint == 1
                && *window == 2
                && reference.as_slice() == b"ref1".as_slice()
                && common.as_slice() == b"260101000000Z".as_slice()
        }
        _ => false,
    }
}

/// Whether these octets are an APDU of which this holds: that it opens, or that it recovers.
fn is_apdu(rt: &impl Abort, alloc: Global, text: &str, recovery: bool) -> bool {
    let octets = octets_of(alloc, text).expect(rt, "memory");
    let read = read_rtse(alloc, octets.as_slice());
    let so = match &read {
        Ok(apdu) => {
            if recovery {
                recovers(apdu)
            } else {
                opens(apdu)
            }
        }
        Err(_) => false,
    };
    drop(read);
    so
}

/// An opening, by hand: with the dialogue mode 3.
const OPENING: &'static str = "B0 0F 80 01 01 81 01 02 82 01 03 A3 04 A0 02 05 00";

/// The acceptance of a recovery, with both references.
const RECOVERY_ACCEPTED: &'static str =
    "B1 1F 80 01 01 81 01 02 A2 17 A1 15 04 04 72 65 66 31 17 0D 32 36 30 31 30 31 30 30 30 30 30 30 5A";

#[test]
fn openings_say_their_fields(rt: HostRuntime) {
    assert!(rt; is_apdu(&rt, rt.alloc(), OPENING, false));
    assert!(rt; is_apdu(&rt, rt.alloc(), RECOVERY_ACCEPTED, true));
}

/// So many octets.
fn zeros(rt: &impl Abort, alloc: Global, count: usize) -> Octets {
    Octets::from_vec(vec![in alloc; 0_u8; count].expect(rt, "memory"))
}

/// The invocation that stores 2,975 octets (X.882 9).
fn invocation(rt: &impl Abort, alloc: Global) -> Octets {
    let front = "A1 82 0B A9 02 01 01 02 01 02 04 82 0B 9F";
    let mut octets = octets_of(alloc, front).expect(rt, "memory");
    let zeros = zeros(rt, alloc, 2_975);
    octets.extend(zeros.as_slice()).expect(rt, "memory");
    octets
}

/// That invocation on context 5. A transfer of it is a data value with its context (X.226 8.4.2).
fn stored(rt: &impl Abort, alloc: Global) -> Pdv {
    Pdv {
        transfer: None,
        id: 5,
        content: PdvContent::SingleAsn1Type(invocation(rt, alloc)),
    }
}

/// Whether this is a value of context 5 with these octets.
fn has_octets(pdv: &Pdv, octets: &[u8]) -> bool {
    match &pdv.content {
        PdvContent::SingleAsn1Type(value) => pdv.id == 5 && value.as_slice() == octets,
        _ => false,
    }
}

/// The transfer of that invocation.
fn transfer(rt: &impl Abort, alloc: Global) -> Octets {
    let pdv = stored(rt, alloc);
    let octets = write_transfer(alloc, &pdv).expect(rt, "memory");
    drop(pdv);
    octets
}

/// Whether that transfer is written as so many octets that begin with these.
fn transfer_begins(rt: &impl Abort, alloc: Global, count: usize, front: &str) -> bool {
    let front = octets_of(alloc, front).expect(rt, "memory");
    let octets = transfer(rt, alloc);
    octets.len() == count && octets.as_slice().starts_with(front.as_slice())
}

/// Whether that transfer is read back as it was written.
fn transfer_is_read(rt: &impl Abort, alloc: Global) -> bool {
    let octets = transfer(rt, alloc);
    let expected = invocation(rt, alloc);
    let read = read_transfer(alloc, octets.as_slice());
    let so = match &read {
        Ok(pdv) => has_octets(pdv, expected.as_slice()),
        Err(_) => false,
    };
    drop(read);
    so
}

/// The invocation has 14 octets in front of the 2,975, and the transfer 11 in front of it.
#[test]
fn a_transfer_has_3000_octets(rt: HostRuntime) {
    let front = "30 82 0B B4 02 01 05 A0 82 0B AD A1 82 0B A9";
    assert!(rt; transfer_begins(&rt, rt.alloc(), 3_000, front));
    assert!(rt; transfer_is_read(&rt, rt.alloc()));
}

/// Whether the first part of that transfer is written as 1,024 octets behind these.
fn part_begins(rt: &impl Abort, alloc: Global, front: &[u8]) -> bool {
    let part = Rtse::Transfer {
        octets: zeros(rt, alloc, 1_024),
    };
    let value = write_rtse(alloc, &part).expect(rt, "memory");
    drop(part);
    value.len() == front.len() + 1_024 && value.as_slice().starts_with(front)
}

/// A tag, and a length in three octets.
#[test]
fn the_first_part_has_1028_octets(rt: HostRuntime) {
    assert!(rt; part_begins(&rt, rt.alloc(), &[0x04, 0x82, 0x04, 0x00]));
}

/// Whether these octets are refused so as a transfer.
fn is_no_transfer(rt: &impl Abort, alloc: Global, text: &str, fault: PduFault) -> bool {
    let octets = octets_of(alloc, text).expect(rt, "memory");
    read_transfer(alloc, octets.as_slice()).err() == Some(fault)
}

#[test]
fn what_is_no_transfer_is_refused(rt: HostRuntime) {
    // a value on context 5, by hand, and an empty one behind it
    let twice = "30 08 02 01 05 A0 03 02 01 05 30 00";
    let fault = PduFault::At {
        place: 10,
        kind: Kind::Extra,
    };
    assert!(rt; is_no_transfer(&rt, rt.alloc(), twice, fault));
}
