//! Octets of worked dialogues: an invocation, openings, marks, a release; and units that end a
//! connection or tell an error, headers that are faulty and packets as large as may be, laid out by
//! hand by RFC 1006 6 and X.224 13. Places are counted in the octets.
//! The octets of a worked dialogue were given by a model of the rules that was written apart from
//! this program and isn't part of this repository.

use osi_base::{Kind, Octets};
use std::alloc::Global;
use std::process::Abort;
use std::test::*;
use tpkt::{
    ConnectionFields, Packet, TFault, TFed, TReader, write_confirm, write_connect,
    write_disconnect, write_problem, write_tsdu,
};

/// An invocation in one DT.
const INVOCATION: &'static [u8] = &[
    0x03, 0x00, 0x00, 0x1F, 0x02, 0xF0, 0x80, 0x01, 0x00, 0x01, 0x00, 0x61, 0x12, 0x30, 0x10, 0x02,
    0x01, 0x05, 0xA0, 0x0B, 0xA1, 0x09, 0x02, 0x01, 0x01, 0x02, 0x01, 0x01, 0x02, 0x01, 0x05,
];

/// Packets of one DT each, as worked dialogues have them; the last, without octets, is a worked
/// example by itself.
const PARTS: [&[u8]; 16] = [
    // an invocation
    &[
        0x03, 0x00, 0x00, 0x1F, 0x02, 0xF0, 0x80, 0x01, 0x00, 0x01, 0x00, 0x61, 0x12, 0x30, 0x10,
        0x02, 0x01, 0x05, 0xA0, 0x0B, 0xA1, 0x09, 0x02, 0x01, 0x01, 0x02, 0x01, 0x01, 0x02, 0x01,
        0x05,
    ],
    // an alteration and its answer
    &[
        0x03, 0x00, 0x00, 0x10, 0x02, 0xF0, 0x80, 0x21, 0x00, 0xA0, 0x05, 0xA1, 0x03, 0x02, 0x01,
        0x05,
    ],
    &[
        0x03, 0x00, 0x00, 0x10, 0x02, 0xF0, 0x80, 0x21, 0x00, 0xA1, 0x05, 0xA1, 0x03, 0x02, 0x01,
        0x00,
    ],
    // a mark, a restart and its answer
    &[
        0x03, 0x00, 0x00, 0x0E, 0x02, 0xF0, 0x80, 0x01, 0x00, 0x31, 0x03, 0x2A, 0x01, 0x31,
    ],
    &[
        0x03, 0x00, 0x00, 0x29, 0x02, 0xF0, 0x80, 0x01, 0x00, 0x35, 0x1E, 0x1B, 0x01, 0x00, 0x2A,
        0x01, 0x32, 0xC1, 0x16, 0x30, 0x14, 0xA0, 0x12, 0x30, 0x07, 0x02, 0x01, 0x01, 0x06, 0x02,
        0x51, 0x01, 0x30, 0x07, 0x02, 0x01, 0x05, 0x06, 0x02, 0x51, 0x01,
    ],
    &[
        0x03, 0x00, 0x00, 0x26, 0x02, 0xF0, 0x80, 0x01, 0x00, 0x22, 0x1B, 0x2A, 0x01, 0x32, 0xC1,
        0x16, 0x30, 0x14, 0xA0, 0x12, 0x30, 0x07, 0x02, 0x01, 0x01, 0x06, 0x02, 0x51, 0x01, 0x30,
        0x07, 0x02, 0x01, 0x05, 0x06, 0x02, 0x51, 0x01,
    ],
    // a connect and an accept
    &[
        0x03, 0x00, 0x00, 0x6E, 0x02, 0xF0, 0x80, 0x0D, 0x65, 0x05, 0x09, 0x13, 0x01, 0x00, 0x16,
        0x01, 0x02, 0x17, 0x01, 0x31, 0x14, 0x02, 0x04, 0x2A, 0x33, 0x02, 0x00, 0x01, 0x34, 0x02,
        0x00, 0x01, 0xC1, 0x4C, 0x31, 0x4A, 0xA0, 0x03, 0x80, 0x01, 0x01, 0xA2, 0x43, 0x81, 0x02,
        0x00, 0x01, 0x82, 0x02, 0x00, 0x01, 0xA4, 0x22, 0x30, 0x0F, 0x02, 0x01, 0x01, 0x06, 0x04,
        0x52, 0x01, 0x00, 0x01, 0x30, 0x04, 0x06, 0x02, 0x51, 0x01, 0x30, 0x0F, 0x02, 0x01, 0x05,
        0x06, 0x04, 0x88, 0x37, 0x07, 0x01, 0x30, 0x04, 0x06, 0x02, 0x51, 0x01, 0x88, 0x02, 0x06,
        0xC0, 0x61, 0x11, 0x30, 0x0F, 0x02, 0x01, 0x01, 0xA0, 0x0A, 0x60, 0x08, 0xA1, 0x06, 0x06,
        0x04, 0x88, 0x37, 0x05, 0x03,
    ],
    &[
        0x03, 0x00, 0x00, 0x5E, 0x02, 0xF0, 0x80, 0x0E, 0x55, 0x05, 0x09, 0x13, 0x01, 0x00, 0x16,
        0x01, 0x02, 0x17, 0x01, 0x31, 0x14, 0x02, 0x04, 0x2A, 0xC1, 0x44, 0x31, 0x42, 0xA0, 0x03,
        0x80, 0x01, 0x01, 0xA2, 0x3B, 0x83, 0x02, 0x00, 0x01, 0xA5, 0x12, 0x30, 0x07, 0x80, 0x01,
        0x00, 0x81, 0x02, 0x51, 0x01, 0x30, 0x07, 0x80, 0x01, 0x00, 0x81, 0x02, 0x51, 0x01, 0x88,
        0x02, 0x06, 0xC0, 0x61, 0x1D, 0x30, 0x1B, 0x02, 0x01, 0x01, 0xA0, 0x16, 0x61, 0x14, 0xA1,
        0x06, 0x06, 0x04, 0x88, 0x37, 0x05, 0x03, 0xA2, 0x03, 0x02, 0x01, 0x00, 0xA3, 0x05, 0xA1,
        0x03, 0x02, 0x01, 0x00,
    ],
    // aborts of the presentation and of the session
    &[
        0x03, 0x00, 0x00, 0x13, 0x02, 0xF0, 0x80, 0x19, 0x0A, 0x11, 0x01, 0x03, 0xC1, 0x05, 0x30,
        0x03, 0x80, 0x01, 0x06,
    ],
    &[
        0x03, 0x00, 0x00, 0x0C, 0x02, 0xF0, 0x80, 0x19, 0x03, 0x11, 0x01, 0x05,
    ],
    // a release, its answer and an abort
    &[
        0x03, 0x00, 0x00, 0x1C, 0x02, 0xF0, 0x80, 0x09, 0x13, 0x11, 0x01, 0x01, 0xC1, 0x0E, 0x61,
        0x0C, 0x30, 0x0A, 0x02, 0x01, 0x01, 0xA0, 0x05, 0x62, 0x03, 0x80, 0x01, 0x00,
    ],
    &[
        0x03, 0x00, 0x00, 0x19, 0x02, 0xF0, 0x80, 0x0A, 0x10, 0xC1, 0x0E, 0x61, 0x0C, 0x30, 0x0A,
        0x02, 0x01, 0x01, 0xA0, 0x05, 0x63, 0x03, 0x80, 0x01, 0x00,
    ],
    &[
        0x03, 0x00, 0x00, 0x1E, 0x02, 0xF0, 0x80, 0x19, 0x15, 0x11, 0x01, 0x03, 0xC1, 0x10, 0xA0,
        0x0E, 0x61, 0x0C, 0x30, 0x0A, 0x02, 0x01, 0x01, 0xA0, 0x05, 0x64, 0x03, 0x80, 0x01, 0x00,
    ],
    // a giving and an asking for tokens
    &[
        0x03, 0x00, 0x00, 0x0C, 0x02, 0xF0, 0x80, 0x01, 0x03, 0x10, 0x01, 0x04,
    ],
    &[
        0x03, 0x00, 0x00, 0x0C, 0x02, 0xF0, 0x80, 0x02, 0x03, 0x10, 0x01, 0x04,
    ],
    // no octets
    &[0x03, 0x00, 0x00, 0x07, 0x02, 0xF0, 0x80],
];

/// A connection request of worked dialogues, with size 0A and the selectors 00 01.
const REQUEST: &'static [u8] = &[
    0x03, 0x00, 0x00, 0x16, 0x11, 0xE0, 0x00, 0x00, 0x00, 0x01, 0x00, 0xC0, 0x01, 0x0A, 0xC1, 0x02,
    0x00, 0x01, 0xC2, 0x02, 0x00, 0x01,
];

/// The confirm that answers it.
const CONFIRM: &'static [u8] = &[
    0x03, 0x00, 0x00, 0x0E, 0x09, 0xD0, 0x00, 0x01, 0x00, 0x02, 0x00, 0xC0, 0x01, 0x0A,
];

/// A disconnect request, laid out by X.224 13.5: the references 1 and 0, and the reason 0.
const DISCONNECT: &'static [u8] = &[
    0x03, 0x00, 0x00, 0x0B, 0x06, 0x80, 0x00, 0x01, 0x00, 0x00, 0x00,
];

/// A unit that tells an error, laid out by X.224 13.12: the reference 1 and the cause 0.
const PROBLEM: &'static [u8] = &[0x03, 0x00, 0x00, 0x09, 0x04, 0x70, 0x00, 0x01, 0x00];

/// Streams, and the place and the kind of the fault of each.
const FAULTY: [(&'static [u8], u64, Kind); 9] = [
    // a packet's length of 6, where header and unit have 7 at least
    (&[3, 0, 0, 6], 2, Kind::Length),
    // a second octet that isn't 00: the version
    (&[3, 1], 0, Kind::Tag),
    // a header's length of 3 in a packet with room for 2
    (&[3, 0, 0, 7, 3], 4, Kind::Length),
    // a unit of the code F1
    (&[3, 0, 0, 7, 2, 0xF1], 5, Kind::Tag),
    // a DT whose header has a length of 1
    (&[3, 0, 0, 7, 1, 0xF0], 4, Kind::Length),
    // a DT whose mark is neither 00 nor 80
    (&[3, 0, 0, 7, 2, 0xF0, 1], 6, Kind::Content),
    // a connection request of class octet 01
    (&[3, 0, 0, 11, 6, 0xE0, 0, 0, 0, 1, 1], 10, Kind::Content),
    // a size in two octets, where it has one: its parameter
    (
        &[3, 0, 0, 15, 10, 0xE0, 0, 0, 0, 1, 0, 0xC0, 2, 9, 9],
        11,
        Kind::Content,
    ),
    // a parameter of which its code alone is there
    (
        &[3, 0, 0, 12, 7, 0xE0, 0, 0, 0, 1, 0, 0xC5],
        11,
        Kind::Content,
    ),
];

/// What a feed gives.
fn feed(rt: &impl Abort, reader: &mut TReader, octets: &[u8]) -> TFed {
    reader.feed(octets).expect(rt, "memory")
}

/// Whether a feed gives nothing at all.
fn gives_nothing(rt: &impl Abort, reader: &mut TReader, octets: &[u8]) -> bool {
    let fed = feed(rt, reader, octets);
    let is_nothing = fed.packets.len() == 0 && fed.fault.is_none();
    drop(fed);
    is_nothing
}

/// Whether a feed gave this TSDU alone.
fn is_tsdu(fed: &TFed, tsdu: &[u8]) -> bool {
    if fed.packets.len() != 1 || fed.fault.is_some() {
        return false;
    }
    match fed.packets.get(0) {
        Some(Packet::Tsdu(octets)) => octets.as_slice() == tsdu,
        _ => false,
    }
}

/// Whether a feed gives this TSDU alone.
fn gives(rt: &impl Abort, reader: &mut TReader, octets: &[u8], tsdu: &[u8]) -> bool {
    let fed = feed(rt, reader, octets);
    let is_so = is_tsdu(&fed, tsdu);
    drop(fed);
    is_so
}

/// The fault of a stream, where no packet came before.
fn fault_of(rt: &impl Abort, alloc: Global, stream: &[u8]) -> Option<TFault> {
    let mut reader = TReader::new(alloc);
    let fed = feed(rt, &mut reader, stream);
    drop(reader);
    let fault = if fed.packets.len() == 0 {
        fed.fault
    } else {
        None
    };
    drop(fed);
    fault
}

/// Whether these are the fields.
fn are_ends(ends: &ConnectionFields, destination: u16, source: u16, selector: &[u8]) -> bool {
    ends.destination == destination
        && ends.source == source
        && ends.size == Some(0x0A)
        && ends.calling.as_slice() == selector
        && ends.called.as_slice() == selector
}

/// Whether a TSDU is written as this packet.
fn is_written(rt: &impl Abort, alloc: Global, tsdu: &[u8], packet: &[u8]) -> bool {
    let written = write_tsdu(alloc, tsdu, 1024).expect(rt, "memory");
    let is_so = written.as_slice() == packet;
    drop(written);
    is_so
}

/// Whether a packet is read as one TSDU, which is written as the same packet.
fn is_part(rt: &impl Abort, alloc: Global, packet: &[u8]) -> bool {
    if packet.len() < 7 {
        return false;
    }
    let tsdu = &packet[7..];
    let mut reader = TReader::new(alloc);
    let is_given = gives(rt, &mut reader, packet, tsdu);
    drop(reader);
    is_given && is_written(rt, alloc, tsdu, packet)
}

/// Whether the first of two pieces of the invocation gives nothing, and the second gives it.
fn is_joined(rt: &impl Abort, alloc: Global, first: &[u8], second: &[u8]) -> bool {
    let mut reader = TReader::new(alloc);
    let joined = gives_nothing(rt, &mut reader, first)
        && gives(rt, &mut reader, second, &INVOCATION[7..]);
    drop(reader);
    joined
}

#[test]
fn cut_at_each_place(rt: HostRuntime) {
    for i in 0..INVOCATION.len() {
        assert!(rt; is_joined(&rt, rt.alloc(), &INVOCATION[..i], &INVOCATION[i..]));
    }
}

#[test]
fn cut_into_single_octets(rt: HostRuntime) {
    let mut reader = TReader::new(rt.alloc());
    for octet in &INVOCATION[..30] {
        assert!(rt; gives_nothing(&rt, &mut reader, &[*octet]));
    }
    assert!(rt; gives(&rt, &mut reader, &INVOCATION[30..], &INVOCATION[7..]));
}

#[test]
fn each_part(rt: HostRuntime) {
    for packet in &PARTS {
        assert!(rt; is_part(&rt, rt.alloc(), packet));
    }
}

/// Whether a feed gave a request, or a confirm, with these fields.
fn is_connection(fed: &TFed, destination: u16, source: u16, selector: &[u8]) -> bool {
    match fed.packets.get(0) {
        Some(Packet::Connect(ends)) => {
            destination == 0 && are_ends(ends, destination, source, selector)
        }
        Some(Packet::Confirm(ends)) => {
            destination == 1 && are_ends(ends, destination, source, selector)
        }
        _ => false,
    }
}

/// Whether a feed gave a disconnect request.
fn is_disconnect(fed: &TFed) -> bool {
    matches!(fed.packets.get(0), Some(Packet::Disconnect))
}

/// Whether a feed gave a unit that tells an error.
fn is_problem(fed: &TFed) -> bool {
    matches!(fed.packets.get(0), Some(Packet::Problem))
}

/// What a unit is.
#[derive(Clone, Copy)]
enum Unit {
    /// A request or a confirm with these references and this selector.
    Connection(u16, u16, &'static [u8]),
    Disconnect,
    Problem,
}

/// Units that come one behind the other.
const UNITS: [(&'static [u8], Unit); 4] = [
    (REQUEST, Unit::Connection(0, 1, &[0, 1])),
    (CONFIRM, Unit::Connection(1, 2, &[])),
    (DISCONNECT, Unit::Disconnect),
    (PROBLEM, Unit::Problem),
];

/// Whether a feed gives this unit first.
fn is_unit(rt: &impl Abort, reader: &mut TReader, octets: &[u8], unit: Unit) -> bool {
    let fed = feed(rt, reader, octets);
    let is_so = match unit {
        Unit::Connection(destination, source, selector) => {
            is_connection(&fed, destination, source, selector)
        }
        Unit::Disconnect => is_disconnect(&fed),
        Unit::Problem => is_problem(&fed),
    };
    drop(fed);
    is_so
}

#[test]
fn units_are_read(rt: HostRuntime) {
    let mut reader = TReader::new(rt.alloc());
    for (octets, unit) in &UNITS {
        assert!(rt; is_unit(&rt, &mut reader, octets, *unit));
    }
    drop(reader);
}

/// A selector.
fn octets(rt: &impl Abort, alloc: Global, selector: &[u8]) -> Octets {
    Octets::from_slice(alloc, selector).expect(rt, "memory")
}

/// The ends of a connection with size 0A.
fn ends(
    rt: &impl Abort,
    alloc: Global,
    destination: u16,
    source: u16,
    selector: &[u8],
) -> ConnectionFields {
    ConnectionFields {
        destination,
        source,
        size: Some(0x0A),
        calling: octets(rt, alloc, selector),
        called: octets(rt, alloc, selector),
    }
}

/// Whether octets are these; they are let go.
fn are(written: Octets, octets: &[u8]) -> bool {
    let is_so = written.as_slice() == octets;
    drop(written);
    is_so
}

/// A request with these ends, which have room.
fn request(rt: &impl Abort, alloc: Global, ends: &ConnectionFields) -> Octets {
    assert!(rt; ends.has_room());
    write_connect(alloc, ends).expect(rt, "memory")
}

#[test]
fn a_request_is_written(rt: HostRuntime) {
    let ends = ends(&rt, rt.alloc(), 0, 1, &[0, 1]);
    let is_so = are(request(&rt, rt.alloc(), &ends), REQUEST);
    drop(ends);
    assert!(rt; is_so);
}

/// A confirm with these ends, which have room.
fn confirm(rt: &impl Abort, alloc: Global, ends: &ConnectionFields) -> Octets {
    assert!(rt; ends.has_room());
    write_confirm(alloc, ends).expect(rt, "memory")
}

#[test]
fn a_confirm_is_written(rt: HostRuntime) {
    let ends = ends(&rt, rt.alloc(), 1, 2, &[]);
    let is_so = are(confirm(&rt, rt.alloc(), &ends), CONFIRM);
    drop(ends);
    assert!(rt; is_so);
}

#[test]
fn the_end_of_a_connection_is_written(rt: HostRuntime) {
    let disconnect = write_disconnect(rt.alloc(), 1, 0, 0).expect(&rt, "memory");
    assert!(rt; are(disconnect, DISCONNECT));
    let problem = write_problem(rt.alloc(), 1, 0).expect(&rt, "memory");
    assert!(rt; are(problem, PROBLEM));
}

/// Whether this is the fault of a stream.
fn is_faulty(rt: &impl Abort, alloc: Global, stream: &[u8], place: u64, kind: Kind) -> bool {
    match fault_of(rt, alloc, stream) {
        Some(fault) => fault.place == place && fault.kind == kind,
        None => false,
    }
}

#[test]
fn faulty_headers(rt: HostRuntime) {
    for (stream, place, kind) in &FAULTY {
        assert!(rt; is_faulty(&rt, rt.alloc(), stream, *place, *kind));
    }
}

/// Whether these octets come behind the header of a packet as large as may be.
fn is_large(rt: &impl Abort, alloc: Global, octets: &[u8]) -> bool {
    let mut reader = TReader::new(alloc);
    let is_given = gives_nothing(rt, &mut reader, &[3, 0, 0xFF, 0xFF, 2, 0xF0, 0x80])
        && gives(rt, &mut reader, octets, octets);
    drop(reader);
    is_given
}

/// 65,535 octets: 7 of the header and 65,528 of data.
#[test]
fn largest_packet(rt: HostRuntime) {
    let octets = vec![in rt.alloc(); 5u8; 65_528].expect(&rt, "memory");
    let is_given = is_large(&rt, rt.alloc(), &octets);
    drop(octets);
    assert!(rt; is_given);
}

/// Whether octets are those of two packets, of 125 octets 7 and of 5.
fn are_two(octets: &[u8]) -> bool {
    octets.len() == 144
        && octets.starts_with(&[3, 0, 0, 0x84, 2, 0xF0, 0, 7])
        && octets.ends_with(&[7, 3, 0, 0, 0x0C, 2, 0xF0, 0x80, 7, 7, 7, 7, 7])
}

/// 130 octets in DTs of at most 128, of which three are the header's: 125 and 5.
#[test]
fn cut_into_parts_of_128(rt: HostRuntime) {
    let tsdu = vec![in rt.alloc(); 7u8; 130].expect(&rt, "memory");
    let written = write_tsdu(rt.alloc(), &tsdu, 128).expect(&rt, "memory");
    drop(tsdu);
    let are_so = are_two(written.as_slice());
    drop(written);
    assert!(rt; are_so);
}

/// Whether a packet that is not the last, of so many octets, gives nothing.
fn is_kept(rt: &impl Abort, reader: &mut TReader, head: &[u8], octets: &[u8]) -> bool {
    gives_nothing(rt, reader, head) && gives_nothing(rt, reader, octets)
}

/// Whether 16 packets of these octets and one of the first 128 give nothing.
fn are_kept(rt: &impl Abort, reader: &mut TReader, octets: &[u8]) -> bool {
    for _ in 0..16 {
        if !is_kept(rt, reader, &[3, 0, 0xFF, 0xFF, 2, 0xF0, 0], octets) {
            return false;
        }
    }
    octets.len() >= 128 && is_kept(rt, reader, &[3, 0, 0, 0x87, 2, 0xF0, 0], &octets[..128])
}

/// Whether a feed gives no packet and this fault.
fn gives_fault(rt: &impl Abort, reader: &mut TReader, octets: &[u8], fault: TFault) -> bool {
    let fed = feed(rt, reader, octets);
    let is_so = fed.packets.len() == 0 && fed.fault == Some(fault);
    drop(fed);
    is_so
}

/// 16 packets of 65,528 octets of data and one of 128 make 1,048,576. One octet more is told at the
/// code of its DT, behind 16 times 65,535 octets, 135 and five; and again of whatever comes then.
#[test]
fn longest_tsdu(rt: HostRuntime) {
    let mut reader = TReader::new(rt.alloc());
    let octets = vec![in rt.alloc(); 5u8; 65_528].expect(&rt, "memory");
    let are_kept = are_kept(&rt, &mut reader, &octets);
    drop(octets);
    let fault = TFault {
        place: 1_048_700,
        kind: Kind::Length,
    };
    let is_told = gives_fault(&rt, &mut reader, &[3, 0, 0, 8, 2, 0xF0], fault);
    let is_told_again = gives_fault(&rt, &mut reader, INVOCATION, fault);
    drop(reader);
    assert!(rt; are_kept && is_told && is_told_again);
}
