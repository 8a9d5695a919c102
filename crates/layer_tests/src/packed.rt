//! Spellings that are laid out by the rules of the packed syntax, field by field: each is read
//! whole and written back, or its first fault is told.

use crate::tables::{Row, table};
use asn1_types::{TextKind, TypeId, TypeTable, Val};
use osi_base::Kind;
use packed_codec::{PackedFault, Read, packed_len, packed_read, packed_read_within, packed_write};
use std::alloc::Global;
use std::process::Abort;
use std::test::*;

/// What octets are read as.
enum Outcome {
    Whole,
    Content(usize),
    Short,
    TooLong(usize),
}

use Outcome::{Content, Short, TooLong, Whole};

const BOOLEAN: u32 = 0;

const INTEGER: u32 = 1;

const NULL: u32 = 2;

const BITS: u32 = 3;

const OCTETS: u32 = 4;

const DIGITS: u32 = 5;

const OBJECT_ID: u32 = 6;

const COLOUR: u32 = 7;

const FLAGS: u32 = 8;

const EITHER: u32 = 9;

const RECORD: u32 = 10;

const TAGGED: u32 = 11;

const LISTS: u32 = 12;

const BOTH: u32 = 13;

const CODE: u32 = 14;

const INVOKE: u32 = 15;

const APDU: u32 = 16;

const COUNTED: u32 = 17;

const SWITCHED: u32 = 18;

/// A row for each constant above. The last types have defaults; those before are of an APDU whose
/// invocations have a number as their argument, as far as it is a value: its kind is an
/// alternative's place.
const TABLE: [Row; 19] = [
    Row::Boolean,
    Row::Integer(-129, 300),
    Row::Null,
    Row::BitString,
    Row::OctetString(2),
    Row::Text(TextKind::Numeric),
    Row::ObjectId,
    Row::Enumerated("red", 3),
    Row::SequenceOf(BOOLEAN),
    Row::Choice(&[("flag", BOOLEAN, false, None), ("none", NULL, false, None)]),
    Row::Sequence(&[
        ("number", INTEGER, true, None),
        ("flags", FLAGS, false, None),
        ("flag", BOOLEAN, true, None),
    ]),
    Row::Tagged(5, true, INTEGER),
    Row::SequenceOf(FLAGS),
    Row::Set(&[("a", INTEGER, false, None), ("b", BOOLEAN, false, None)]),
    Row::Choice(&[
        ("local", INTEGER, false, None),
        ("global", OBJECT_ID, false, None),
    ]),
    Row::Sequence(&[
        ("invoke", INTEGER, false, None),
        ("linked", TAGGED, true, None),
        ("code", CODE, false, None),
        ("argument", INTEGER, true, None),
    ]),
    Row::Choice(&[
        ("none", NULL, false, None),
        ("invocation", INVOKE, false, None),
    ]),
    Row::Sequence(&[("a", INTEGER, false, None), ("b", INTEGER, false, Some(7))]),
    Row::Set(&[("c", BOOLEAN, false, Some(1))]),
];

/// Octets of a type and what they are read as. The syntax is the project's own: a number is its
/// size in one octet and two's complement of that size, a string or list its count in four octets,
/// and a part that may be absent has an octet that is 0 or 1 in front. Places are counted in the
/// octets of their rows.
const ROWS: [(u32, &'static [u8], Outcome); 53] = [
    // TRUE, an octet of 1
    (BOOLEAN, &[0x01], Whole),
    // a truth value of 2
    (BOOLEAN, &[0x02], Content(0)),
    // a truth value without its octet
    (BOOLEAN, &[], Short),
    // 5 in one octet
    (INTEGER, &[0x01, 0x05], Whole),
    // 300, the greatest of its range, in two
    (INTEGER, &[0x02, 0x01, 0x2C], Whole),
    // 301, one above it
    (INTEGER, &[0x02, 0x01, 0x2D], Content(1)),
    // -129, the least of its range
    (INTEGER, &[0x02, 0xFF, 0x7F], Whole),
    // -130, one below it
    (INTEGER, &[0x02, 0xFF, 0x7E], Content(1)),
    // 5 in two octets, one more than it needs
    (INTEGER, &[0x02, 0x00, 0x05], Content(1)),
    // a size of 0, where 1 is the least
    (INTEGER, &[0x00], Content(0)),
    // a size of 9, where 8 is the most
    (INTEGER, &[0x09], Content(0)),
    // a size of 2, and one octet
    (INTEGER, &[0x02, 0x01], Short),
    // NULL, which has no octets
    (NULL, &[], Whole),
    // '0101'B: 4 unused bits, a count and an octet
    (BITS, &[0x04, 0x00, 0x00, 0x00, 0x01, 0x50], Whole),
    // the same with unused bits that aren't zeros: that octet
    (BITS, &[0x04, 0x00, 0x00, 0x00, 0x01, 0x5F], Content(5)),
    // 8 unused bits, where 7 are the most
    (BITS, &[0x08], Content(0)),
    // an unused bit of no octets: their count
    (BITS, &[0x01, 0x00, 0x00, 0x00, 0x00], Content(1)),
    // no bits
    (BITS, &[0x00, 0x00, 0x00, 0x00, 0x00], Whole),
    // a count of bits that isn't whole
    (BITS, &[0x04, 0x00, 0x00], Short),
    // two octets, the most of their type
    (OCTETS, &[0x00, 0x00, 0x00, 0x02, 0x0A, 0x0B], Whole),
    // a count of 3
    (OCTETS, &[0x00, 0x00, 0x00, 0x03], Content(0)),
    // a count of 262,144, whose octets would pass that limit behind the four of the count itself
    (OCTETS, &[0x00, 0x04, 0x00, 0x00], TooLong(0)),
    // digits with a space between them
    (DIGITS, &[0x00, 0x00, 0x00, 0x03, 0x31, 0x20, 0x39], Whole),
    // a letter among digits: the characters behind the count
    (DIGITS, &[0x00, 0x00, 0x00, 0x02, 0x31, 0x41], Content(4)),
    // {2 999 5 1}: 88 37 is 1,079, which is 2 times 40 and 999
    (
        OBJECT_ID,
        &[0x00, 0x00, 0x00, 0x04, 0x88, 0x37, 0x05, 0x01],
        Whole,
    ),
    // no octet
    (OBJECT_ID, &[0x00, 0x00, 0x00, 0x00], Content(4)),
    // an arc with 80 in front, one octet more than it needs
    (OBJECT_ID, &[0x00, 0x00, 0x00, 0x02, 0x80, 0x01], Content(4)),
    // an arc whose last octet says that one follows
    (OBJECT_ID, &[0x00, 0x00, 0x00, 0x01, 0x88], Content(4)),
    // 3, the item's number
    (COLOUR, &[0x01, 0x03], Whole),
    // 4, which is no item's number
    (COLOUR, &[0x01, 0x04], Content(1)),
    // FALSE and TRUE behind their count
    (FLAGS, &[0x00, 0x00, 0x00, 0x02, 0x00, 0x01], Whole),
    // an item of 2: the second, behind 5 octets
    (FLAGS, &[0x00, 0x00, 0x00, 0x02, 0x00, 0x02], Content(5)),
    // a count of 131,072 items, the most of a value, without their octets
    (FLAGS, &[0x00, 0x02, 0x00, 0x00], Short),
    // a count of one more
    (FLAGS, &[0x00, 0x02, 0x00, 0x01], Content(0)),
    // the first alternative, and FALSE
    (EITHER, &[0x00, 0x01], Whole),
    // the second, which is NULL
    (EITHER, &[0x01], Whole),
    // a third, of two
    (EITHER, &[0x02], Content(0)),
    // a number, no flags behind it, and no second flag
    (
        RECORD,
        &[0x01, 0x01, 0x05, 0x00, 0x00, 0x00, 0x00, 0x00],
        Whole,
    ),
    // no number, a flag, and no second flag
    (
        RECORD,
        &[0x00, 0x00, 0x00, 0x00, 0x01, 0x01, 0x01, 0x00],
        Whole,
    ),
    // a mark in front of a number that is neither 0 nor 1
    (RECORD, &[0x02], Content(0)),
    // a tagged number: the tag is passed over
    (TAGGED, &[0x01, 0x05], Whole),
    // a list of one list of two
    (
        LISTS,
        &[0x00, 0x00, 0x00, 0x01, 0x00, 0x00, 0x00, 0x02, 0x01, 0x00],
        Whole,
    ),
    // two lists, of which the first has 131,070 items: 131,072 together, without their octets
    (
        LISTS,
        &[0x00, 0x00, 0x00, 0x02, 0x00, 0x01, 0xFF, 0xFE],
        Short,
    ),
    // 131,071 items in the first: one too many together, behind 4 octets
    (
        LISTS,
        &[0x00, 0x00, 0x00, 0x02, 0x00, 0x01, 0xFF, 0xFF],
        Content(4),
    ),
    // a SET, its parts in the order of the type
    (BOTH, &[0x01, 0x07, 0x01], Whole),
    // an invocation of local code 1 with the identifier 1 and the argument 5, as of a worked
    // dialogue
    (
        APDU,
        &[0x01, 0x01, 0x01, 0x00, 0x00, 0x01, 0x01, 0x01, 0x01, 0x05],
        Whole,
    ),
    // a default's value, told by 0 in front
    (COUNTED, &[0x01, 0x05, 0x00], Whole),
    // another value than the default's, behind 1
    (COUNTED, &[0x01, 0x05, 0x01, 0x01, 0x08], Whole),
    // the default's value behind 1: its octets, behind 4
    (COUNTED, &[0x01, 0x05, 0x01, 0x01, 0x07], Content(4)),
    // a mark in front of it that is neither 0 nor 1
    (COUNTED, &[0x01, 0x05, 0x02], Content(2)),
    // TRUE, the default, told by 0
    (SWITCHED, &[0x00], Whole),
    // FALSE, behind 1
    (SWITCHED, &[0x01, 0x00], Whole),
    // TRUE behind 1
    (SWITCHED, &[0x01, 0x01], Content(1)),
];

/// Whether reading fails so.
fn is_fault(fault: PackedFault, outcome: &Outcome) -> bool {
    match (fault, outcome) {
        (PackedFault::NotSpelled { place, kind }, Content(at)) => {
            place == *at && kind == Kind::Content
        }
        (PackedFault::Short, Short) => true,
        (PackedFault::TooLong { place }, TooLong(at)) => place == *at,
        _ => false,
    }
}

/// Whether a value is written as these octets.
fn is_written(rt: &impl Abort, table: &TypeTable, of: TypeId, value: &Val, octets: &[u8]) -> bool {
    let size = packed_len(table, of, value);
    assert!(rt; size <= 16);
    let mut room = [0xEE; 16];
    let behind = packed_write(table, of, value, &mut room);
    assert!(rt; behind <= 16);
    size == octets.len() as u64 && &room[..behind] == octets
}

/// Whether octets were read as a whole value, which is written back as they are.
fn is_whole(rt: &impl Abort, table: &TypeTable, of: TypeId, octets: &[u8], read: Read) -> bool {
    let whole = read.used == octets.len() && is_written(rt, table, of, &read.value, octets);
    drop(read);
    whole
}

/// Whether octets are read so; a whole value is written back.
fn is_read(
    rt: &impl Abort,
    alloc: Global,
    table: &TypeTable,
    of: TypeId,
    octets: &[u8],
    outcome: &Outcome,
) -> bool {
    assert!(rt; table.has(of));
    match packed_read(alloc, table, of, octets) {
        Ok(read) => is_whole(rt, table, of, octets, read) && matches!(outcome, Whole),
        Err(fault) => is_fault(fault, outcome),
    }
}

#[test]
fn worked_rows(rt: HostRuntime) {
    let table = table(&rt, rt.alloc(), &TABLE);
    for (of, octets, outcome) in &ROWS {
        assert!(rt; is_read(&rt, rt.alloc(), &table, TypeId(*of), octets, outcome));
    }
    drop(table);
}

/// How many octets a value was read from.
fn octets_of(read: Read) -> usize {
    let used = read.used;
    drop(read);
    used
}

/// Octets of a type, and what they are read as within a limit.
type Limited = (u32, &'static [u8], u32, Outcome);

/// A lower limit.
const LIMITED: [Limited; 4] = [
    // two flags in six octets, as many as may be
    (FLAGS, &[0x00, 0x00, 0x00, 0x02, 0x00, 0x01], 6, Whole),
    // one octet fewer: the last flag passes the limit, behind 5 octets
    (FLAGS, &[0x00, 0x00, 0x00, 0x02, 0x00, 0x01], 5, TooLong(5)),
    // a size of 9, which would pass a limit of 5 too: it is told that no number has it
    (INTEGER, &[0x09], 5, Content(0)),
    // a size of 8 passes it: the size
    (INTEGER, &[0x08], 5, TooLong(0)),
];

/// Whether a row's octets are read as it says within its limit.
fn is_read_within(rt: &impl Abort, alloc: Global, table: &TypeTable, row: &Limited) -> bool {
    let (of, octets, most, outcome) = row;
    assert!(rt; table.has(TypeId(*of)));
    match packed_read_within(alloc, table, TypeId(*of), octets, *most).map(octets_of) {
        Ok(used) => matches!(outcome, Whole) && used == octets.len(),
        Err(fault) => is_fault(fault, outcome),
    }
}

#[test]
fn a_lower_limit(rt: HostRuntime) {
    let table = table(&rt, rt.alloc(), &TABLE);
    for row in &LIMITED {
        assert!(rt; is_read_within(&rt, rt.alloc(), &table, row));
    }
    drop(table);
}
