//! Worked rows of SET OF: read in any order in BER, in rising order in DER and the packed syntax.
//! Their octets are laid out by hand, by X.690 8.3, 8.7, 8.11 and 8.12, and those of the packed
//! syntax by its own rules; the order is that of X.690 11.6: octets tell by the first that differs,
//! the identifier's, then those of the length and the contents. A place is counted in its row.

use crate::tables::{Row, table};
use ber_codec::{
    Node, ReadFault, TypeId, TypeTable, Val, Vals, ber_octets, ber_read, der_read, fits, in_order,
};
use osi_base::{Kind, Octets};
use packed_codec::{PackedFault, Read, packed_len, packed_read, packed_write};
use std::alloc::Global;
use std::process::Abort;
use std::test::*;

const INTEGER: u32 = 0;

const NUMBERS: u32 = 1;

const TEXT: u32 = 2;

const TEXTS: u32 = 3;

const PAIR: u32 = 4;

const PAIRS: u32 = 5;

const SETS: u32 = 6;

/// SET OF INTEGER, SET OF OCTET STRING, SET OF SET {a INTEGER OPTIONAL, b OCTET STRING OPTIONAL}
/// and SET OF SET OF INTEGER.
const TABLE: [Row; 7] = [
    Row::Integer(i64::MIN, i64::MAX),
    Row::SetOf(INTEGER),
    Row::OctetString(262_144),
    Row::SetOf(TEXT),
    Row::Set(&[("a", INTEGER, true, None), ("b", TEXT, true, None)]),
    Row::SetOf(PAIR),
    Row::SetOf(NUMBERS),
];

/// Octets of a type, the place of a fault of kind Form in DER if there is one, which is the first
/// item that is less than the one before it, and how they are written.
type Sample = (u32, &'static [u8], Option<usize>, &'static [u8]);

const ROWS: [Sample; 11] = [
    // 3 in front of 1
    (
        NUMBERS,
        &[0x31, 6, 2, 1, 3, 2, 1, 1],
        Some(5),
        &[0x31, 6, 2, 1, 1, 2, 1, 3],
    ),
    // 256 in front of -1, whose length is less: 02 01 FF and 02 02 01 00
    (
        NUMBERS,
        &[0x31, 7, 2, 2, 1, 0, 2, 1, 0xFF],
        Some(6),
        &[0x31, 7, 2, 1, 0xFF, 2, 2, 1, 0],
    ),
    // the same two, in rising order
    (
        NUMBERS,
        &[0x31, 7, 2, 1, 0xFF, 2, 2, 1, 0],
        None,
        &[0x31, 7, 2, 1, 0xFF, 2, 2, 1, 0],
    ),
    // a number twice, which no order forbids
    (
        NUMBERS,
        &[0x31, 6, 2, 1, 5, 2, 1, 5],
        None,
        &[0x31, 6, 2, 1, 5, 2, 1, 5],
    ),
    // no items
    (NUMBERS, &[0x31, 0], None, &[0x31, 0]),
    // four numbers, of which the second and the fourth are less than those before them: the second
    // is told
    (
        NUMBERS,
        &[0x31, 12, 2, 1, 4, 2, 1, 2, 2, 1, 3, 2, 1, 1],
        Some(5),
        &[0x31, 12, 2, 1, 1, 2, 1, 2, 2, 1, 3, 2, 1, 4],
    ),
    // two zeros in front of one octet 1: the lengths tell, 04 02 and 04 01
    (
        TEXTS,
        &[0x31, 7, 4, 2, 0, 0, 4, 1, 1],
        Some(6),
        &[0x31, 7, 4, 1, 1, 4, 2, 0, 0],
    ),
    // a set of two parts in front of one of one: the lengths tell, 31 05 and 31 03
    (
        PAIRS,
        &[0x31, 12, 0x31, 5, 2, 1, 1, 4, 0, 0x31, 3, 2, 1, 9],
        Some(9),
        &[0x31, 12, 0x31, 3, 2, 1, 9, 0x31, 5, 2, 1, 1, 4, 0],
    ),
    // two sets of one length: the tags of their parts tell, 04 and 02
    (
        PAIRS,
        &[0x31, 10, 0x31, 3, 4, 1, 1, 0x31, 3, 2, 1, 9],
        Some(7),
        &[0x31, 10, 0x31, 3, 2, 1, 9, 0x31, 3, 4, 1, 1],
    ),
    // a set of numbers that fall inside, which is told before that the next set is less
    (
        SETS,
        &[0x31, 13, 0x31, 6, 2, 1, 5, 2, 1, 2, 0x31, 3, 2, 1, 7],
        Some(7),
        &[0x31, 13, 0x31, 3, 2, 1, 7, 0x31, 6, 2, 1, 2, 2, 1, 5],
    ),
    // the same with rising numbers inside: the second set is less
    (
        SETS,
        &[0x31, 13, 0x31, 6, 2, 1, 2, 2, 1, 5, 0x31, 3, 2, 1, 7],
        Some(10),
        &[0x31, 13, 0x31, 3, 2, 1, 7, 0x31, 6, 2, 1, 2, 2, 1, 5],
    ),
];

/// The octets of a value in DER.
fn spelling(rt: &impl Abort, alloc: Global, table: &TypeTable, of: u32, value: &Val) -> Octets {
    ber_octets(alloc, table, TypeId(of), value).expect(rt, "memory")
}

/// Whether octets are read whole in BER as a value that fits, which is written so.
fn is_rewritten(
    rt: &impl Abort,
    alloc: Global,
    table: &TypeTable,
    of: u32,
    octets: &[u8],
    written: &[u8],
) -> bool {
    assert!(rt; table.has(TypeId(of)));
    let read = ber_read(alloc, table, TypeId(of), octets).expect(rt, "a value");
    let whole = read.used == octets.len() && fits(table, TypeId(of), &read.value);
    let back = spelling(rt, alloc, table, of, &read.value);
    drop(read);
    let is_so = back.as_slice() == written;
    drop(back);
    whole && is_so
}

/// The fault of octets in DER.
fn der_fault(
    rt: &impl Abort,
    alloc: Global,
    table: &TypeTable,
    of: u32,
    octets: &[u8],
) -> Option<ReadFault> {
    assert!(rt; table.has(TypeId(of)));
    der_read(alloc, table, TypeId(of), octets).err()
}

/// A fault of kind Form at this place.
fn form_at(place: usize) -> ReadFault {
    ReadFault::NotSpelled {
        place,
        kind: Kind::Form,
    }
}

/// Whether a row's octets are read and written as it says.
fn is_so(rt: &impl Abort, alloc: Global, table: &TypeTable, row: &Sample) -> bool {
    let (of, octets, form, written) = row;
    is_rewritten(rt, alloc, table, *of, octets, written)
        && der_fault(rt, alloc, table, *of, octets) == form.map(form_at)
}

#[test]
fn any_order_is_read_and_rising_order_written(rt: HostRuntime) {
    let table = table(&rt, rt.alloc(), &TABLE);
    for row in &ROWS {
        assert!(rt; is_so(&rt, rt.alloc(), &table, row));
    }
    drop(table);
}

fn numbers(rt: &impl Abort, alloc: Global, all: &[i64]) -> Val {
    let mut items = Vec::new(alloc);
    for number in all {
        let node = Node::Int(*number);
        items.push(Val { node }).expect(rt, "memory");
    }
    Val {
        node: Node::List(items),
    }
}

/// Whether these numbers fit.
fn is_fitting(rt: &impl Abort, alloc: Global, table: &TypeTable, items: &[i64]) -> bool {
    let value = numbers(rt, alloc, items);
    let fits = fits(table, TypeId(NUMBERS), &value);
    drop(value);
    fits
}

/// Items, and whether they fit.
const FITTING: [(&[i64], bool); 4] = [
    // rising numbers, one of them twice
    (&[1, 3, 3, 256], true),
    // -1 and 256, by their lengths
    (&[-1, 256], true),
    // the same two the other way round
    (&[256, -1], false),
    // falling numbers
    (&[3, 1], false),
];

#[test]
fn only_rising_items_fit(rt: HostRuntime) {
    let alloc = rt.alloc();
    let table = table(&rt, alloc, &TABLE);
    for (items, wanted) in &FITTING {
        assert!(rt; is_fitting(&rt, alloc, &table, items) == *wanted);
    }
    drop(table);
}

/// How many octets of numbers are read in the packed syntax.
fn packed_used(
    rt: &impl Abort,
    alloc: Global,
    table: &TypeTable,
    octets: &[u8],
) -> Result<usize, PackedFault> {
    assert!(rt; table.has(TypeId(NUMBERS)));
    packed_read(alloc, table, TypeId(NUMBERS), octets).map(octets_of)
}

/// How many octets a value was read from.
fn octets_of(read: Read) -> usize {
    let used = read.used;
    drop(read);
    used
}

/// Whether a value is written as these 9 octets, of which the last was there.
fn is_packed(rt: &impl Abort, table: &TypeTable, value: &Val, octets: &[u8]) -> bool {
    assert!(rt; packed_len(table, TypeId(NUMBERS), value) == 8);
    let mut room = [0xAA; 9];
    packed_write(table, TypeId(NUMBERS), value, &mut room) == 8 && room.as_slice() == octets
}

/// A count of 2 in four octets, and each number behind its size; the octet behind them stays.
#[test]
fn the_packed_syntax_has_them_rising(rt: HostRuntime) {
    let alloc = rt.alloc();
    let table = table(&rt, alloc, &TABLE);
    let value = numbers(&rt, alloc, &[1, 3]);
    let is_so = is_packed(&rt, &table, &value, &[0, 0, 0, 2, 1, 1, 1, 3, 0xAA]);
    drop(value);
    drop(table);
    assert!(rt; is_so);
}

/// Whether octets are read so in the packed syntax.
fn is_unpacked(
    rt: &impl Abort,
    alloc: Global,
    table: &TypeTable,
    octets: &[u8],
    wanted: Result<usize, PackedFault>,
) -> bool {
    packed_used(rt, alloc, table, octets) == wanted
}

/// At fault is the 1, behind 6 octets.
const FALLING: PackedFault = PackedFault::NotSpelled {
    place: 6,
    kind: Kind::Content,
};

/// The same octets, and those with 3 in front of 1.
#[test]
fn the_packed_syntax_is_read_rising(rt: HostRuntime) {
    let alloc = rt.alloc();
    let table = table(&rt, alloc, &TABLE);
    let rising = is_unpacked(&rt, alloc, &table, &[0, 0, 0, 2, 1, 1, 1, 3, 0xAA], Ok(8));
    let falling = is_unpacked(&rt, alloc, &table, &[0, 0, 0, 2, 1, 3, 1, 1], Err(FALLING));
    drop(table);
    assert!(rt; rising && falling);
}

/// A string of 299 octets 5 and another.
fn long_string(rt: &impl Abort, alloc: Global, last: u8) -> Val {
    let mut octets = vec![in alloc; 5; 299].expect(rt, "memory");
    octets.push(last).expect(rt, "memory");
    Val {
        node: Node::Octets(Octets::from_vec(octets)),
    }
}

/// What octets of the strings are written as, of a value that fits.
fn rewritten(rt: &impl Abort, alloc: Global, table: &TypeTable, octets: &[u8]) -> Octets {
    assert!(rt; table.has(TypeId(TEXTS)));
    let read = ber_read(alloc, table, TypeId(TEXTS), octets).expect(rt, "a value");
    let is_fitting = fits(table, TypeId(TEXTS), &read.value);
    let written = spelling(rt, alloc, table, TEXTS, &read.value);
    drop(read);
    assert!(rt; is_fitting);
    written
}

/// Two strings, which differ in their last octets, 7 and 9.
fn long_strings(rt: &impl Abort, alloc: Global) -> Val {
    let mut items = Vec::new(alloc);
    items.push(long_string(rt, alloc, 7)).expect(rt, "memory");
    items.push(long_string(rt, alloc, 9)).expect(rt, "memory");
    Val {
        node: Node::List(items),
    }
}

/// The octets of these two strings, which fit, with a last octet of 6 in place of 9.
fn with_last_lowered(rt: &impl Abort, alloc: Global, table: &TypeTable) -> Vec<u8> {
    let value = long_strings(rt, alloc);
    let is_fitting = fits(table, TypeId(TEXTS), &value);
    let mut written = spelling(rt, alloc, table, TEXTS, &value).into_vec();
    drop(value);
    let last = written.pop();
    assert!(rt; is_fitting && last == Some(9));
    written.push(6).expect(rt, "memory");
    written
}

/// Items of many octets, which differ late, in the octets of a long string: the last of 300, which
/// is 7 and 9, and then 7 and 6, so that the second string is written in front.
#[test]
fn long_items_are_compared_to_their_ends(rt: HostRuntime) {
    let table = table(&rt, rt.alloc(), &TABLE);
    let written = with_last_lowered(&rt, rt.alloc(), &table);
    let back = rewritten(&rt, rt.alloc(), &table, written.as_slice());
    drop(written);
    drop(table);
    let last = back.as_slice().last().copied();
    drop(back);
    assert!(rt; last == Some(7));
}

/// A value of a type in any form, of these octets.
fn any(rt: &impl Abort, alloc: Global, octets: &[u8]) -> Val {
    Val {
        node: Node::Any(Octets::from_slice(alloc, octets).expect(rt, "memory")),
    }
}

/// How many octets an item of a type in any form has.
fn any_len(item: Option<&Val>) -> Option<usize> {
    match &item?.node {
        Node::Any(octets) => Some(octets.len()),
        _ => None,
    }
}

/// The octets 5 and 0, and an octet 5.
fn two_items(rt: &impl Abort, alloc: Global) -> Vals {
    let mut items = Vec::new(alloc);
    items.push(any(rt, alloc, &[5, 0])).expect(rt, "memory");
    items.push(any(rt, alloc, &[5])).expect(rt, "memory");
    items
}

/// An octet 5 that stands behind the octets 5 and 0, which begin with it: the shorter rises first.
/// Of whole values none begins another: the octet 5 alone is none, and is compared all the same.
#[test]
fn what_begins_another_stands_in_front_of_it(rt: HostRuntime) {
    let alloc = rt.alloc();
    let table = table(&rt, alloc, &[Row::Any]);
    let items = two_items(&rt, alloc);
    let risen = in_order(alloc, &table, TypeId(0), items).expect(&rt, "memory");
    drop(table);
    let are_risen = any_len(risen.first()) == Some(1) && any_len(risen.last()) == Some(2);
    drop(risen);
    assert!(rt; are_risen);
}
