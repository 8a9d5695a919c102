//! Worked rows: what octets are read as in BER and in DER, and what their value is written as.

use crate::tables::{Member, Row, parts, table};
use ber_codec::{
    MOST_VALUE_OCTETS, Read, ReadFault, RowRefusal, TextKind, TypeId, TypeRow, TypeTable,
    ber_octets, ber_read, ber_read_within, der_read, is_whole,
};
use osi_base::{Kind, Octets};
use std::alloc::Global;
use std::process::Abort;
use std::test::*;

/// What octets are read as: how many are read, or why none are.
#[derive(Clone, Copy)]
enum Outcome {
    Used(usize),
    At(usize, Kind),
    TooLong(usize),
    Short,
}

use Outcome::{At, Short, TooLong, Used};

const INTEGER: u32 = 0;

const BOOLEAN: u32 = 1;

const SET: u32 = 2;

const BITS: u32 = 3;

const OCTETS: u32 = 4;

const IA5: u32 = 5;

const ANY: u32 = 6;

const COUNTED: u32 = 7;

const NUMBER: u32 = 8;

const TAGGED: u32 = 9;

const SWITCHED: u32 = 10;

const BIT_LISTS: u32 = 11;

const FLAGGED: u32 = 12;

const BIT: u32 = 13;

const ZEROED: u32 = 14;

/// The rows that the constants name.
const TABLE: [Row; 15] = [
    Row::Integer(i64::MIN, i64::MAX),
    Row::Boolean,
    Row::Set(&[("a", INTEGER, false, None), ("b", BOOLEAN, false, None)]),
    Row::BitString,
    Row::OctetString(262_144),
    Row::Text(TextKind::Ia5),
    Row::Any,
    Row::Sequence(&[("a", INTEGER, false, None), ("b", INTEGER, false, Some(7))]),
    Row::Tagged(1, true, INTEGER),
    Row::Sequence(&[("c", NUMBER, false, Some(7))]),
    Row::Set(&[("d", BOOLEAN, false, Some(1))]),
    Row::SequenceOf(BITS),
    Row::Set(&[("a", INTEGER, false, None), ("b", BOOLEAN, true, None)]),
    Row::Integer(0, 1),
    Row::Sequence(&[("e", INTEGER, false, Some(0))]),
];

/// Octets of a type: what they are read as in BER and in DER, and how their value is written.
type Sample = (u32, &'static [u8], Outcome, Outcome, &'static [u8]);

/// Each row follows from the sections of X.690 that are named above it or above the first of its
/// kind, and its place from counting octets.
const ROWS: [Sample; 40] = [
    // 8.3.2: a number has no more octets than it needs; 8.1.3.5, 10.1: DER's length neither.
    // 5 in two octets
    (
        INTEGER,
        &[2, 2, 0, 5],
        At(2, Kind::Content),
        At(2, Kind::Content),
        &[],
    ),
    // 133, which needs two
    (
        INTEGER,
        &[2, 2, 0, 0x85],
        Used(4),
        Used(4),
        &[2, 2, 0, 0x85],
    ),
    // a length of 2, and one octet
    (INTEGER, &[2, 2, 0], Short, Short, &[]),
    // 5 behind a length in the long form
    (
        INTEGER,
        &[2, 0x81, 1, 5],
        Used(4),
        At(1, Kind::Form),
        &[2, 1, 5],
    ),
    // a string of five octets behind such a length
    (
        OCTETS,
        &[4, 0x81, 5, 1, 2, 3, 4, 5],
        Used(8),
        At(1, Kind::Form),
        &[4, 5, 1, 2, 3, 4, 5],
    ),
    // 8.6.2.3, 11.2.1: unused bits may have any values, in DER they are zeros; so too inside a
    // value and in segments (8.6.4).
    // four bits with unused ones that aren't zeros
    (
        BITS,
        &[3, 2, 4, 0x5F],
        Used(4),
        At(2, Kind::Form),
        &[3, 2, 4, 0x50],
    ),
    // two segments, of which the second has such bits
    (
        BITS,
        &[0x23, 8, 3, 2, 0, 0xAA, 3, 2, 4, 0x5F],
        Used(10),
        At(0, Kind::Form),
        &[3, 3, 4, 0xAA, 0x50],
    ),
    // such a string as an item
    (
        BIT_LISTS,
        &[0x30, 4, 3, 2, 4, 0x5F],
        Used(6),
        At(4, Kind::Form),
        &[0x30, 4, 3, 2, 4, 0x50],
    ),
    // two such items: DER's fault is in the first
    (
        BIT_LISTS,
        &[0x30, 8, 3, 2, 1, 0xFF, 3, 2, 7, 0xFF],
        Used(10),
        At(4, Kind::Form),
        &[0x30, 8, 3, 2, 1, 0xFE, 3, 2, 7, 0x80],
    ),
    // 8.7.3, 10.2: segments up to end-of-contents (8.1.5), one in DER.
    // two segments of one octet
    (
        OCTETS,
        &[0x24, 0x80, 4, 1, 0x0A, 4, 1, 0x0B, 0, 0],
        Used(10),
        At(0, Kind::Form),
        &[4, 2, 0x0A, 0x0B],
    ),
    // a segment without its end-of-contents
    (
        OCTETS,
        &[0x24, 0x80, 4, 1, 0x0A, 0],
        Short,
        At(0, Kind::Form),
        &[],
    ),
    // two zeros as contents, which end nothing
    (OCTETS, &[4, 2, 0, 0], Used(4), Used(4), &[4, 2, 0, 0]),
    // a length of 262,144, so that the last octets pass the limit of a value
    (OCTETS, &[4, 0x83, 4, 0, 0], TooLong(1), TooLong(1), &[]),
    // an IA5String of one segment, which is an OCTET STRING
    (
        IA5,
        &[0x36, 5, 4, 3, 0x61, 0x62, 0x63],
        Used(7),
        At(0, Kind::Form),
        &[0x16, 3, 0x61, 0x62, 0x63],
    ),
    // 8.11, 10.3: the parts of a SET in any order, in DER by rising tag; 8.2.2, 11.1: TRUE.
    // the number in front of the truth value, which is TRUE as 5
    (
        SET,
        &[0x31, 6, 2, 1, 7, 1, 1, 5],
        Used(8),
        At(5, Kind::Form),
        &[0x31, 6, 1, 1, 0xFF, 2, 1, 7],
    ),
    // the truth value in front, and an octet behind the value
    (
        SET,
        &[0x31, 6, 1, 1, 0xFF, 2, 1, 7, 9],
        Used(8),
        Used(8),
        &[0x31, 6, 1, 1, 0xFF, 2, 1, 7],
    ),
    // an indefinite length, which DER hasn't
    (
        SET,
        &[0x31, 0x80, 2, 1, 7, 1, 1, 5, 0, 0],
        Used(10),
        At(1, Kind::Form),
        &[0x31, 6, 1, 1, 0xFF, 2, 1, 7],
    ),
    // a part twice
    (
        SET,
        &[0x31, 6, 2, 1, 7, 2, 1, 8],
        At(5, Kind::Extra),
        At(5, Kind::Extra),
        &[],
    ),
    // a tag that no part has
    (
        SET,
        &[0x31, 6, 2, 1, 7, 5, 1, 0],
        At(5, Kind::Extra),
        At(5, Kind::Extra),
        &[],
    ),
    // the tag of a part, constructed, where it is a primitive: BOOLEAN
    (
        SET,
        &[0x31, 6, 2, 1, 7, 0x21, 1, 5],
        At(5, Kind::Tag),
        At(5, Kind::Tag),
        &[],
    ),
    // the same: INTEGER, which came already
    (
        SET,
        &[0x31, 6, 2, 1, 7, 0x22, 1, 5],
        At(5, Kind::Tag),
        At(5, Kind::Tag),
        &[],
    ),
    // the same where the other part may be absent
    (
        FLAGGED,
        &[0x31, 6, 2, 1, 7, 0x22, 1, 5],
        At(5, Kind::Tag),
        At(5, Kind::Tag),
        &[],
    ),
    // no second part
    (
        SET,
        &[0x31, 3, 2, 1, 7],
        At(5, Kind::Missing),
        At(5, Kind::Missing),
        &[],
    ),
    // the first octet of a second part, whose tag falls in DER
    (SET, &[0x31, 6, 2, 1, 7, 1], Short, At(5, Kind::Form), &[]),
    // 8.1.1 to 8.1.5: any one whole value.
    // a SEQUENCE of indefinite length
    (
        ANY,
        &[0x30, 0x80, 2, 1, 5, 0, 0],
        Used(7),
        Used(7),
        &[0x30, 0x80, 2, 1, 5, 0, 0],
    ),
    // an empty SET and a string of two zeros inside one, and an octet behind it
    (
        ANY,
        &[0x30, 0x80, 0x31, 0x80, 0, 0, 4, 2, 0, 0, 0, 0, 9],
        Used(12),
        Used(12),
        &[0x30, 0x80, 0x31, 0x80, 0, 0, 4, 2, 0, 0, 0, 0],
    ),
    // the first octet of an end-of-contents
    (ANY, &[0x30, 0x80, 0], Short, Short, &[]),
    // the tag 0 with a length of 5, which is no end-of-contents
    (
        ANY,
        &[0x30, 0x80, 0, 5, 0],
        At(2, Kind::Tag),
        At(2, Kind::Tag),
        &[],
    ),
    // a primitive of indefinite length
    (
        ANY,
        &[4, 0x80, 0, 0],
        At(1, Kind::Length),
        At(1, Kind::Length),
        &[],
    ),
    // 11.5, and X.680 25.9: a default's value stands for the absent part, in DER it isn't spelled.
    // b lacks: it is 7
    (
        COUNTED,
        &[0x30, 3, 2, 1, 5],
        Used(5),
        Used(5),
        &[0x30, 3, 2, 1, 5],
    ),
    // b is 7, and stands
    (
        COUNTED,
        &[0x30, 6, 2, 1, 5, 2, 1, 7],
        Used(8),
        At(7, Kind::Form),
        &[0x30, 3, 2, 1, 5],
    ),
    // b is 8
    (
        COUNTED,
        &[0x30, 6, 2, 1, 5, 2, 1, 8],
        Used(8),
        Used(8),
        &[0x30, 6, 2, 1, 5, 2, 1, 8],
    ),
    // e is 0, as its default, and stands
    (
        ZEROED,
        &[0x30, 3, 2, 1, 0],
        Used(5),
        At(4, Kind::Form),
        &[0x30, 0],
    ),
    // b stands twice
    (
        COUNTED,
        &[0x30, 9, 2, 1, 5, 2, 1, 7, 2, 1, 7],
        At(8, Kind::Extra),
        At(7, Kind::Form),
        &[],
    ),
    // c, which is 7, and an element behind it inside its tag
    (
        TAGGED,
        &[0x30, 7, 0xA1, 5, 2, 1, 7, 5, 0],
        At(7, Kind::Extra),
        At(6, Kind::Form),
        &[],
    ),
    // c is 7, inside its tag
    (
        TAGGED,
        &[0x30, 5, 0xA1, 3, 2, 1, 7],
        Used(7),
        At(6, Kind::Form),
        &[0x30, 0],
    ),
    // d is TRUE as 5
    (
        SWITCHED,
        &[0x31, 3, 1, 1, 5],
        Used(5),
        At(4, Kind::Form),
        &[0x31, 0],
    ),
    // d is TRUE
    (
        SWITCHED,
        &[0x31, 3, 1, 1, 0xFF],
        Used(5),
        At(4, Kind::Form),
        &[0x31, 0],
    ),
    // d is FALSE
    (
        SWITCHED,
        &[0x31, 3, 1, 1, 0],
        Used(5),
        Used(5),
        &[0x31, 3, 1, 1, 0],
    ),
    // d stands twice, as TRUE first
    (
        SWITCHED,
        &[0x31, 6, 1, 1, 5, 1, 1, 0],
        At(5, Kind::Extra),
        At(4, Kind::Form),
        &[],
    ),
];

/// The reading that has this outcome: how many octets are read, or why none are.
fn reading(outcome: Outcome) -> Result<usize, ReadFault> {
    match outcome {
        Used(used) => Ok(used),
        At(place, kind) => Err(ReadFault::NotSpelled { place, kind }),
        TooLong(place) => Err(ReadFault::TooLong { place }),
        Short => Err(ReadFault::Short),
    }
}

/// How many octets a value was read from.
fn octets_of(read: Read) -> usize {
    let used = read.used;
    drop(read);
    used
}

/// How many octets are read in DER.
fn der_used(
    rt: &impl Abort,
    alloc: Global,
    table: &TypeTable,
    of: u32,
    octets: &[u8],
) -> Result<usize, ReadFault> {
    assert!(rt; table.has(TypeId(of)));
    der_read(alloc, table, TypeId(of), octets).map(octets_of)
}

/// How many octets are read in BER.
fn ber_used(
    rt: &impl Abort,
    alloc: Global,
    table: &TypeTable,
    of: u32,
    octets: &[u8],
) -> Result<usize, ReadFault> {
    assert!(rt; table.has(TypeId(of)));
    ber_read(alloc, table, TypeId(of), octets).map(octets_of)
}

/// How many octets are read in BER within a limit.
fn used_within(
    rt: &impl Abort,
    alloc: Global,
    table: &TypeTable,
    of: u32,
    octets: &[u8],
    most: u32,
) -> Result<usize, ReadFault> {
    assert!(rt; table.has(TypeId(of)));
    ber_read_within(alloc, table, TypeId(of), octets, most).map(octets_of)
}

/// Whether what was read is written as these octets.
fn is_written(
    rt: &impl Abort,
    alloc: Global,
    table: &TypeTable,
    of: u32,
    read: Read,
    written: &[u8],
) -> bool {
    let octets = ber_octets(alloc, table, TypeId(of), &read.value).expect(rt, "memory");
    drop(read);
    let is_so = octets.as_slice() == written;
    drop(octets);
    is_so
}

/// Whether what is read of octets in BER within the limit is written as these: as none after a
/// fault.
fn is_rewritten(
    rt: &impl Abort,
    alloc: Global,
    table: &TypeTable,
    of: u32,
    octets: &[u8],
    written: &[u8],
) -> bool {
    assert!(rt; table.has(TypeId(of)));
    match ber_read_within(alloc, table, TypeId(of), octets, MOST_VALUE_OCTETS) {
        Ok(read) => is_written(rt, alloc, table, of, read, written),
        Err(_) => written.is_empty(),
    }
}

/// Whether a row's octets are read in BER and in DER as it says, and its value is written so.
fn is_so(rt: &impl Abort, alloc: Global, table: &TypeTable, row: &Sample) -> bool {
    let (of, octets, ber, der, written) = row;
    used_within(rt, alloc, table, *of, octets, MOST_VALUE_OCTETS) == reading(*ber)
        && der_used(rt, alloc, table, *of, octets) == reading(*der)
        && is_rewritten(rt, alloc, table, *of, octets, written)
}

#[test]
fn worked_rows(rt: HostRuntime) {
    let table = table(&rt, rt.alloc(), &TABLE);
    for row in &ROWS {
        assert!(rt; is_so(&rt, rt.alloc(), &table, row));
    }
    drop(table);
}

/// What is told when a SEQUENCE of these parts is added to the table.
fn refusal_of(rt: &impl Abort, alloc: Global, members: &[Member]) -> Option<RowRefusal> {
    let mut table = table(rt, alloc, &TABLE);
    let refusal = table
        .add(TypeRow::Sequence(parts(rt, alloc, members)))
        .err();
    drop(table);
    refusal
}

/// Parts, and why a SEQUENCE of them is no row, if it is none: a default is of a BOOLEAN, an
/// INTEGER or an ENUMERATED, and not of an optional part, and no two parts have one name.
const REFUSED: [(&'static [Member], Option<RowRefusal>); 7] = [
    // a BOOLEAN's default, FALSE
    (&[("a", BOOLEAN, false, Some(0))], None),
    // 2, which is no truth value
    (
        &[("a", BOOLEAN, false, Some(2))],
        Some(RowRefusal::BadDefault),
    ),
    // an INTEGER's, -1
    (&[("a", NUMBER, false, Some(-1))], None),
    // 2, which is above the range
    (&[("a", BIT, false, Some(2))], Some(RowRefusal::BadDefault)),
    // -1 of a part that may be absent
    (
        &[("a", NUMBER, true, Some(-1))],
        Some(RowRefusal::BadDefault),
    ),
    // a default of an OCTET STRING
    (
        &[("a", OCTETS, false, Some(0))],
        Some(RowRefusal::BadDefault),
    ),
    // two parts with one name
    (
        &[("a", INTEGER, false, None), ("a", BOOLEAN, false, None)],
        Some(RowRefusal::DoubleName),
    ),
];

#[test]
fn rows_are_refused(rt: HostRuntime) {
    for (members, refusal) in &REFUSED {
        assert!(rt; refusal_of(&rt, rt.alloc(), members) == *refusal);
    }
}

/// Octets, and whether they are one whole value (8.1.2, 8.1.3; a length has at most 8 octets here).
const WHOLES: [(&'static [u8], bool); 4] = [
    // the tag number 30, in one octet
    (&[0x9E, 0], true),
    // 31, in a digit behind the first octet
    (&[0x9F, 0x1F, 0], true),
    // 16,384, whose second digit is a zero
    (&[0x9F, 0x81, 0x80, 0, 0], true),
    // a length in nine octets
    (&[4, 0x89, 0, 0, 0, 0, 0, 0, 0, 0, 1, 5], false),
];

#[test]
fn whole_values(rt: HostRuntime) {
    for (octets, whole) in &WHOLES {
        assert!(rt; is_whole(octets) == *whole);
    }
}

/// Octets of a type within a limit, and what they are read as.
type Limited = (u32, &'static [u8], u32, Outcome);

/// Too long are octets once one lies past the limit, or a complete length announces that one does.
const LIMITED: [Limited; 10] = [
    // a segment that ends at the limit, without an end-of-contents
    (OCTETS, &[0x24, 0x80, 4, 1, 7], 5, Short),
    // the first octet of its end-of-contents, past the limit
    (OCTETS, &[0x24, 0x80, 4, 1, 7, 0], 5, TooLong(5)),
    // the same, within a limit of one more
    (OCTETS, &[0x24, 0x80, 4, 1, 7, 0], 6, Short),
    // both octets, of which the second lies past it: the end-of-contents
    (OCTETS, &[0x24, 0x80, 4, 1, 7, 0, 0], 6, TooLong(5)),
    // the first octet of a length in the long form, at the limit
    (INTEGER, &[2, 0x82], 2, Short),
    // its second octet, past it: the length
    (INTEGER, &[2, 0x82, 0], 2, TooLong(1)),
    // a complete length that announces an octet past it
    (INTEGER, &[2, 1], 2, TooLong(1)),
    // the first octet of a long identifier, at the limit
    (ANY, &[0x1F], 1, Short),
    // its second octet, past it: the identifier
    (ANY, &[0x1F, 0x81], 1, TooLong(0)),
    // a part's identifier at the end of the contents and at the limit: its length passes both
    (SET, &[0x31, 1, 1], 3, TooLong(3)),
];

/// Whether octets are read so within a limit.
fn is_within(rt: &impl Abort, alloc: Global, table: &TypeTable, row: &Limited) -> bool {
    let (of, octets, most, outcome) = row;
    used_within(rt, alloc, table, *of, octets, *most) == reading(*outcome)
}

#[test]
fn octets_within_a_limit(rt: HostRuntime) {
    let table = table(&rt, rt.alloc(), &TABLE);
    for row in &LIMITED {
        assert!(rt; is_within(&rt, rt.alloc(), &table, row));
    }
    drop(table);
}

/// Whether octets of a type are refused for their 33rd level.
fn is_too_deep(rt: &impl Abort, alloc: Global, table: &TypeTable, of: u32, octets: &[u8]) -> bool {
    ber_used(rt, alloc, table, of, octets) == Err(ReadFault::TooDeep { place: 64 })
}

#[test]
fn too_many_levels_of_a_string(rt: HostRuntime) {
    let table = table(&rt, rt.alloc(), &TABLE);
    let deep = [0x24, 0x80].repeat(rt.alloc(), 40).expect(&rt, "memory");
    let is_so = is_too_deep(&rt, rt.alloc(), &table, OCTETS, deep.as_slice());
    drop(deep);
    drop(table);
    assert!(rt; is_so);
}

#[test]
fn too_many_levels_of_any_value(rt: HostRuntime) {
    let table = table(&rt, rt.alloc(), &TABLE);
    let deep = [0x30, 0x80].repeat(rt.alloc(), 40).expect(&rt, "memory");
    let is_so = is_too_deep(&rt, rt.alloc(), &table, ANY, deep.as_slice());
    drop(deep);
    drop(table);
    assert!(rt; is_so);
}

/// The octets of the longest value.
fn longest(rt: &impl Abort, alloc: Global) -> Octets {
    let zeros = vec![in alloc; 0; 262_139].expect(rt, "memory");
    let mut long = Octets::from_slice(alloc, &[4, 0x83, 3, 0xFF, 0xFB]).expect(rt, "memory");
    long.extend(zeros.as_slice()).expect(rt, "memory");
    drop(zeros);
    long
}

#[test]
fn the_longest_value(rt: HostRuntime) {
    let table = table(&rt, rt.alloc(), &TABLE);
    let long = longest(&rt, rt.alloc());
    let used = ber_used(&rt, rt.alloc(), &table, OCTETS, long.as_slice());
    drop(long);
    drop(table);
    assert!(rt; used == Ok(262_144));
}
