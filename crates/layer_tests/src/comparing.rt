//! The order of DER spellings that is told of values is that of their octets (X.690 11.6): the
//! first octet that differs tells, and octets that begin others are less. What is expected are data
//! made apart from this program. Of eight pairs of values the octets and the order are worked out
//! by hand. All other values stand in lists: in rising order, with their octets in the comments, or
//! with a table of their ranks in that order. Octets, order and ranks were worked out by an encoder
//! apart from this program (X.690 8, 10.1, 10.3, 11.1), and all pairs of a list are compared both
//! ways. That the program writes such octets is shown by the rows of `ber` and `sets_of`.

use crate::tables::{Member, Row, table};
use ber_codec::{Node, TypeId, TypeTable, Val, Vals, ber_octets, fits, is_less};
use osi_base::{Octets, Oid};
use std::alloc::Global;
use std::process::Abort;
use std::test::*;

const INTEGER: u32 = 0;

const OCTETS: u32 = 1;

const CHOICE: u32 = 7;

const SEQUENCE: u32 = 8;

const SET: u32 = 9;

const LIST: u32 = 10;

const OBJECT_ID: u32 = 11;

const BITS: u32 = 12;

const LISTS: u32 = 13;

/// The parts of a SEQUENCE and of a SET, all optional.
const PARTS: [Member; 3] = [
    ("a", INTEGER, true, None),
    ("b", 6, true, None),
    ("c", CHOICE, true, None),
];

/// CHOICE {x OCTET STRING, y [40] IMPLICIT BOOLEAN, z [200] EXPLICIT NULL}, and a SEQUENCE and a
/// SET of an INTEGER, [0] EXPLICIT INTEGER and such a CHOICE.
const TABLE: [Row; 14] = [
    Row::Integer(i64::MIN, i64::MAX),
    Row::OctetString(70_000),
    Row::Boolean,
    Row::Null,
    Row::Tagged(40, false, 2),
    Row::Tagged(200, true, 3),
    Row::Tagged(0, true, INTEGER),
    Row::Choice(&[
        ("x", OCTETS, false, None),
        ("y", 4, false, None),
        ("z", 5, false, None),
    ]),
    Row::Sequence(&PARTS),
    Row::Set(&PARTS),
    Row::SequenceOf(INTEGER),
    Row::ObjectId,
    Row::BitString,
    Row::SetOf(LIST),
];

fn number(number: i64) -> Val {
    Val {
        node: Node::Int(number),
    }
}

/// A string of so many octets 7 and another.
fn string(rt: &impl Abort, alloc: Global, length: usize, last: u8) -> Val {
    let mut octets = vec![in alloc; 7; length].expect(rt, "memory");
    octets.push(last).expect(rt, "memory");
    Val {
        node: Node::Octets(Octets::from_vec(octets)),
    }
}

/// Rising by their octets: 02 01 and 00, 01, 7F, 80, FF; 02 02 and 00 80, 00 FF, 01 00, 80 00,
/// FF 00, FF 7F; 02 03 and 01 00 00, FF 7F FF; 02 08 and 80, with seven octets 00.
const NUMBERS: [i64; 14] = [
    0,
    1,
    127,
    -128,
    -1,
    128,
    255,
    256,
    -32_768,
    -256,
    -129,
    65_536,
    -32_769,
    i64::MIN,
];

fn numbers(rt: &impl Abort, alloc: Global, items: &[i64]) -> Vals {
    let mut all = Vec::new(alloc);
    for item in items {
        all.push(number(*item)).expect(rt, "memory");
    }
    all
}

/// How many octets stand in front of the last, which is 6, 7 and 8 with each. Identifiers and
/// lengths: 04 01, 04 02, 04 7F, 04 81 80, 04 81 FF, 04 82 01 00, 04 82 01 2D, 04 82 FF FF and
/// 04 83 01 00 00.
const LENGTHS: [usize; 9] = [0, 1, 126, 127, 254, 255, 300, 65_534, 65_535];

/// Rising, by their lengths and then by their last octets.
fn strings(rt: &impl Abort, alloc: Global) -> Vals {
    let mut all = Vec::new(alloc);
    for length in &LENGTHS {
        for last in 6..9_u8 {
            all.push(string(rt, alloc, *length, last))
                .expect(rt, "memory");
        }
    }
    all
}

fn chosen(rt: &impl Abort, alloc: Global, which: u32, inner: Val) -> Val {
    Val {
        node: Node::Chosen {
            which,
            value: Box::new(alloc, inner).expect(rt, "memory"),
        },
    }
}

/// The value at this place of five of the CHOICE.
fn choice(rt: &impl Abort, alloc: Global, place: u32) -> Option<Val> {
    match place {
        0 => Some(chosen(rt, alloc, 0, string(rt, alloc, 0, 1))),
        1 => Some(chosen(rt, alloc, 0, string(rt, alloc, 127, 1))),
        2 => Some(chosen(
            rt,
            alloc,
            1,
            Val {
                node: Node::Bool(false),
            },
        )),
        3 => Some(chosen(
            rt,
            alloc,
            1,
            Val {
                node: Node::Bool(true),
            },
        )),
        4 => Some(chosen(rt, alloc, 2, Val { node: Node::Null })),
        _ => None,
    }
}

/// Rising: 04 01 01, 04 81 80 and 128 octets, 9F 28 01 00, 9F 28 01 FF, BF 81 48 02 05 00.
fn choices(rt: &impl Abort, alloc: Global) -> Vals {
    let mut all = Vec::new(alloc);
    for place in 0..5_u32 {
        let value = choice(rt, alloc, place).expect(rt, "one of five");
        all.push(value).expect(rt, "memory");
    }
    all
}

/// A value of the SEQUENCE and the SET, of these parts.
fn parted(rt: &impl Abort, alloc: Global, a: Option<i64>, b: Option<i64>, c: Option<Val>) -> Val {
    let mut parts = Vec::new(alloc);
    parts.push(a.map(number)).expect(rt, "memory");
    parts.push(b.map(number)).expect(rt, "memory");
    parts.push(c).expect(rt, "memory");
    Val {
        node: Node::Parts(parts),
    }
}

/// A value of the SEQUENCE and the SET, whose last part is the choice at this place.
fn record(rt: &impl Abort, alloc: Global, a: Option<i64>, b: Option<i64>, place: u32) -> Val {
    let c = choice(rt, alloc, place);
    parted(rt, alloc, a, b, c)
}

const FIRST: [Option<i64>; 3] = [None, Some(1), Some(300)];

const SECOND: [Option<i64>; 3] = [None, Some(-1), Some(128)];

/// Parts that are there or not, in all ways: with each first part each second one, and with each
/// of these pairs each of the five choices and none.
fn records(rt: &impl Abort, alloc: Global) -> Vals {
    let mut all = Vec::new(alloc);
    for a in &FIRST {
        for b in &SECOND {
            for place in 0..6_u32 {
                all.push(record(rt, alloc, *a, *b, place))
                    .expect(rt, "memory");
            }
        }
    }
    all
}

/// The value of these items.
fn list_of(items: Vals) -> Val {
    Val {
        node: Node::List(items),
    }
}

/// The items of lists, rising: 30 00; 30 03 and 02 01 01, 02 01 FF; 30 04 02 02 01 00; 30 06 and
/// 02 01 01 02 01 02, 02 01 02 02 01 01; 30 07 and 02 01 01 02 02 01 00, 02 02 01 00 02 01 01;
/// 30 09 and three times 02 01 01.
const ITEMS: [&[i64]; 9] = [
    &[],
    &[1],
    &[-1],
    &[256],
    &[1, 2],
    &[2, 1],
    &[1, 256],
    &[256, 1],
    &[1, 1, 1],
];

fn lists(rt: &impl Abort, alloc: Global) -> Vals {
    let mut all = Vec::new(alloc);
    for items in &ITEMS {
        all.push(list_of(numbers(rt, alloc, items)))
            .expect(rt, "memory");
    }
    all
}

/// The list of the lists of these items.
fn pair(rt: &impl Abort, alloc: Global, first: &[i64], second: &[i64]) -> Val {
    let mut lists = Vec::new(alloc);
    lists
        .push(list_of(numbers(rt, alloc, first)))
        .expect(rt, "memory");
    lists
        .push(list_of(numbers(rt, alloc, second)))
        .expect(rt, "memory");
    list_of(lists)
}

/// With each list of `ITEMS` each as the second. They are compared as they stand, whether they rise
/// or not.
fn pairs(rt: &impl Abort, alloc: Global) -> Vals {
    let mut all = Vec::new(alloc);
    for first in &ITEMS {
        for second in &ITEMS {
            all.push(pair(rt, alloc, first, second))
                .expect(rt, "memory");
        }
    }
    all
}

/// Rising: 06 01 and 00, 01, 28, 7F; 06 02 and 55 7F, 81 00; 06 03 and 55 81 00, 88 37 03; 06 04
/// and 55 7F 81 00, 55 81 00 7F, 55 81 80 00, 55 FF 7F 00. Some numbers in base 128 have first
/// octets that are greater than those of greater numbers.
const ARCS: [&[u32]; 12] = [
    &[0, 0],
    &[0, 1],
    &[1, 0],
    &[2, 47],
    &[2, 5, 127],
    &[2, 48],
    &[2, 5, 128],
    &[2, 999, 3],
    &[2, 5, 127, 128],
    &[2, 5, 128, 127],
    &[2, 5, 16_384],
    &[2, 5, 16_383, 0],
];

fn object_id(rt: &impl Abort, alloc: Global, arcs: &[u32]) -> Val {
    let arcs = arcs.to_vec(alloc).expect(rt, "memory");
    Val {
        node: Node::ObjectId(Oid::from_vec(arcs).expect(rt, "an identifier")),
    }
}

fn object_ids(rt: &impl Abort, alloc: Global) -> Vals {
    let mut all = Vec::new(alloc);
    for arcs in &ARCS {
        all.push(object_id(rt, alloc, arcs)).expect(rt, "memory");
    }
    all
}

/// Octets of bit strings, and how many bits of the last are unused. Rising: 03 01 00; 03 02 and
/// 00 80, 04 F0, 07 80; 03 03 00 01 02.
const STRINGS: [(&[u8], u8); 5] = [
    (&[], 0),
    (&[0x80], 0),
    (&[0xF0], 4),
    (&[0x80], 7),
    (&[1, 2], 0),
];

fn bits(rt: &impl Abort, alloc: Global, octets: &[u8], unused: u8) -> Val {
    Val {
        node: Node::Bits {
            octets: Octets::from_slice(alloc, octets).expect(rt, "memory"),
            unused,
        },
    }
}

fn bit_strings(rt: &impl Abort, alloc: Global) -> Vals {
    let mut all = Vec::new(alloc);
    for (octets, unused) in &STRINGS {
        all.push(bits(rt, alloc, octets, *unused))
            .expect(rt, "memory");
    }
    all
}

/// The DER spelling of a value.
fn spelling(rt: &impl Abort, alloc: Global, table: &TypeTable, of: u32, value: &Val) -> Octets {
    ber_octets(alloc, table, TypeId(of), value).expect(rt, "memory")
}

/// A value, told as data.
enum Told {
    Number(i64),
    Text(&'static [u8]),
    /// y of the CHOICE.
    Flag(bool),
    /// z of the CHOICE.
    Nothing,
    /// b of the SEQUENCE or the SET, and the octets of x, which is its c; there is no a.
    Parts(i64, &'static [u8]),
    Numbers(&'static [i64]),
    Arcs(&'static [u32]),
    /// Octets, and how many bits of the last are unused.
    Bits(&'static [u8], u8),
}

fn text(rt: &impl Abort, alloc: Global, octets: &[u8]) -> Val {
    Val {
        node: Node::Octets(Octets::from_slice(alloc, octets).expect(rt, "memory")),
    }
}

/// x of the CHOICE.
fn chosen_text(rt: &impl Abort, alloc: Global, octets: &[u8]) -> Val {
    let inner = text(rt, alloc, octets);
    chosen(rt, alloc, 0, inner)
}

/// The value that is told.
fn made(rt: &impl Abort, alloc: Global, told: &Told) -> Val {
    match told {
        Told::Number(value) => number(*value),
        Told::Text(octets) => text(rt, alloc, octets),
        Told::Flag(flag) => {
            let inner = Val {
                node: Node::Bool(*flag),
            };
            chosen(rt, alloc, 1, inner)
        }
        Told::Nothing => chosen(rt, alloc, 2, Val { node: Node::Null }),
        Told::Parts(b, octets) => {
            let c = chosen_text(rt, alloc, octets);
            parted(rt, alloc, None, Some(*b), Some(c))
        }
        Told::Numbers(items) => list_of(numbers(rt, alloc, items)),
        Told::Arcs(arcs) => object_id(rt, alloc, arcs),
        Told::Bits(octets, unused) => bits(rt, alloc, octets, *unused),
    }
}

/// Two values of a type, the lesser first, each with its octets.
type Ordered = (u32, Told, &'static [u8], Told, &'static [u8]);

/// Each comment names a section of X.690 by which the octets are, and the octets that tell.
const ORDERED: [Ordered; 8] = [
    // 8.3: the contents tell, 7F and 80, though the numbers are the other way round
    (
        INTEGER,
        Told::Number(127),
        &[0x02, 0x01, 0x7F],
        Told::Number(-128),
        &[0x02, 0x01, 0x80],
    ),
    // 8.7: the lengths tell, 01 and 02, whatever stands behind them
    (
        OCTETS,
        Told::Text(&[0xFF]),
        &[0x04, 0x01, 0xFF],
        Told::Text(&[0, 0]),
        &[0x04, 0x02, 0x00, 0x00],
    ),
    // 8.13, 8.1.2: the identifiers tell: 9F 28 of [40], which is primitive, and BF 81 48 of [200],
    // which is constructed
    (
        CHOICE,
        Told::Flag(true),
        &[0x9F, 0x28, 0x01, 0xFF],
        Told::Nothing,
        &[0xBF, 0x81, 0x48, 0x02, 0x05, 0x00],
    ),
    // 8.9: in a SEQUENCE b stands before c: its numbers tell, 01 and 02
    (
        SEQUENCE,
        Told::Parts(1, &[9]),
        &[0x30, 0x08, 0xA0, 0x03, 0x02, 0x01, 0x01, 0x04, 0x01, 0x09],
        Told::Parts(2, &[5]),
        &[0x30, 0x08, 0xA0, 0x03, 0x02, 0x01, 0x02, 0x04, 0x01, 0x05],
    ),
    // 10.3: in a SET x, whose tag is UNIVERSAL 4, stands before [0]: its octets tell, 05 and 09,
    // and the same two values are the other way round
    (
        SET,
        Told::Parts(2, &[5]),
        &[0x31, 0x08, 0x04, 0x01, 0x05, 0xA0, 0x03, 0x02, 0x01, 0x02],
        Told::Parts(1, &[9]),
        &[0x31, 0x08, 0x04, 0x01, 0x09, 0xA0, 0x03, 0x02, 0x01, 0x01],
    ),
    // 8.10: the lengths of the first numbers tell: 01 of -1 and 02 of 256
    (
        LIST,
        Told::Numbers(&[-1, 256]),
        &[0x30, 0x07, 0x02, 0x01, 0xFF, 0x02, 0x02, 0x01, 0x00],
        Told::Numbers(&[256, -1]),
        &[0x30, 0x07, 0x02, 0x02, 0x01, 0x00, 0x02, 0x01, 0xFF],
    ),
    // 8.19: behind 55, which is 2 times 40 and 5, the third arcs tell: 81 80 00 of 16384 and FF 7F
    // of 16383, though as numbers they are the other way round
    (
        OBJECT_ID,
        Told::Arcs(&[2, 5, 16_384]),
        &[0x06, 0x04, 0x55, 0x81, 0x80, 0x00],
        Told::Arcs(&[2, 5, 16_383, 0]),
        &[0x06, 0x04, 0x55, 0xFF, 0x7F, 0x00],
    ),
    // 8.6.2: how many bits of the last octet are unused stands first, and tells: 00 and 07
    (
        BITS,
        Told::Bits(&[0x80], 0),
        &[0x03, 0x02, 0x00, 0x80],
        Told::Bits(&[0x80], 7),
        &[0x03, 0x02, 0x07, 0x80],
    ),
];

/// Whether a value is written as these octets.
fn is_written(
    rt: &impl Abort,
    alloc: Global,
    table: &TypeTable,
    of: u32,
    value: &Val,
    octets: &[u8],
) -> bool {
    let written = spelling(rt, alloc, table, of, value);
    let is_so = written.as_slice() == octets;
    drop(written);
    is_so
}

/// Whether the first is told to be less than the second and not the other way round, and neither to
/// be less than itself.
fn is_before(table: &TypeTable, of: u32, first: &Val, second: &Val) -> bool {
    is_less(table, TypeId(of), first, second) == Some(true)
        && is_less(table, TypeId(of), second, first) == Some(false)
        && is_less(table, TypeId(of), first, first) == Some(false)
        && is_less(table, TypeId(of), second, second) == Some(false)
}

/// Whether the values of a row are written and told as it says.
fn is_so(rt: &impl Abort, alloc: Global, table: &TypeTable, row: &Ordered) -> bool {
    let (of, lesser, lesser_octets, greater, greater_octets) = row;
    let first = made(rt, alloc, lesser);
    let second = made(rt, alloc, greater);
    let are_written = is_written(rt, alloc, table, *of, &first, lesser_octets)
        && is_written(rt, alloc, table, *of, &second, greater_octets);
    let are_told = is_before(table, *of, &first, &second);
    drop(first);
    drop(second);
    are_written && are_told
}

#[test]
fn pairs_worked_out_by_hand(rt: HostRuntime) {
    let alloc = rt.alloc();
    let table = table(&rt, alloc, &TABLE);
    for row in &ORDERED {
        assert!(rt; is_so(&rt, alloc, &table, row));
    }
    drop(table);
}

/// Lines of ranks, worked out by that encoder: of each value of a list in turn, how many different
/// spellings in the list are less than its own. Equal octets have equal ranks.
type Ranks = &'static [&'static [u32]];

/// The rank of each value of a list that rises is its place.
const RISING: [&[u32]; 1] = [&[
    0, 1, 2, 3, 4, 5, 6, 7, 8, 9, 10, 11, 12, 13, 14, 15, 16, 17, 18, 19, 20, 21, 22, 23, 24, 25,
    26,
]];

/// Of `records` as SEQUENCEs, a line for each first part with each second one. The least are 30 00,
/// 30 03 02 01 01 (a is 1), 30 03 04 01 01 (c alone) and 30 04 02 02 01 2C (a is 300). In the first
/// line 45 is 30 81 83 and a string of 128 octets, behind all 45 that have the short form of a
/// length; 21 and 22 are 30 09 with A0 03 02 01 FF 9F 28 01 FF and A0 04 02 02 00 80 04 01 01.
const SEQUENCE_RANKS: [&[u32]; 9] = [
    &[2, 45, 4, 5, 9, 0],
    &[16, 48, 20, 21, 28, 6],
    &[22, 49, 25, 26, 33, 8],
    &[7, 46, 10, 11, 18, 1],
    &[27, 50, 29, 30, 39, 13],
    &[31, 51, 34, 35, 42, 17],
    &[12, 47, 14, 15, 24, 3],
    &[32, 52, 36, 37, 43, 19],
    &[38, 53, 40, 41, 44, 23],
];

/// Of `records` as SETs. Here the last two are the other way round: 20 is 31 09 with 04 01 01 A0 04
/// 02 02 00 80, since the tag of x stands in front of [0], and 22 with A0 03 02 01 FF 9F 28 01 FF.
const SET_RANKS: [&[u32]; 9] = [
    &[2, 45, 4, 5, 9, 0],
    &[16, 48, 21, 22, 28, 6],
    &[20, 49, 25, 26, 33, 8],
    &[7, 46, 10, 11, 18, 1],
    &[27, 50, 30, 31, 39, 13],
    &[29, 51, 34, 35, 42, 17],
    &[12, 47, 14, 15, 24, 3],
    &[32, 52, 37, 38, 43, 19],
    &[36, 53, 40, 41, 44, 23],
];

/// Of `pairs`, a line for each first list. The least is 31 04 30 00 30 00; then, all behind 31 07,
/// 30 00 30 03 02 01 01, 30 00 30 03 02 01 FF, 30 03 02 01 01 30 00 and 30 03 02 01 FF 30 00.
const PAIR_RANKS: [&[u32]; 9] = [
    &[0, 1, 2, 5, 7, 8, 15, 16, 24],
    &[3, 9, 10, 17, 25, 26, 34, 35, 50],
    &[4, 11, 12, 18, 27, 28, 36, 37, 51],
    &[6, 19, 20, 23, 38, 39, 46, 47, 58],
    &[13, 29, 30, 40, 52, 53, 59, 60, 72],
    &[14, 31, 32, 41, 54, 55, 61, 62, 73],
    &[21, 42, 43, 48, 63, 64, 68, 69, 76],
    &[22, 44, 45, 49, 65, 66, 70, 71, 77],
    &[33, 56, 57, 67, 74, 75, 78, 79, 80],
];

/// The types whose values are compared, and the ranks of these.
const COMPARED: [(u32, Ranks); 9] = [
    (INTEGER, &RISING),
    (OCTETS, &RISING),
    (CHOICE, &RISING),
    (SEQUENCE, &SEQUENCE_RANKS),
    (SET, &SET_RANKS),
    (LIST, &RISING),
    (OBJECT_ID, &RISING),
    (BITS, &RISING),
    (LISTS, &PAIR_RANKS),
];

/// The ranks of all lines.
fn ranks(rt: &impl Abort, alloc: Global, lines: &[&[u32]]) -> Vec<u32> {
    let mut all = Vec::new(alloc);
    for line in lines {
        all.extend_from_slice(line).expect(rt, "memory");
    }
    all
}

/// Whether this is told of whether the first value is less than the second.
fn is_told(table: &TypeTable, of: u32, a: &Val, b: &Val, less: bool) -> bool {
    is_less(table, TypeId(of), a, b) == Some(less)
}

/// Whether all pairs of these values are told to compare as their ranks do.
fn are_ranked(table: &TypeTable, of: u32, values: &[Val], ranks: &[u32]) -> bool {
    for (a, rank) in values.iter().zip(ranks.iter()) {
        for (b, other) in values.iter().zip(ranks.iter()) {
            if !is_told(table, of, a, b, rank < other) {
                return false;
            }
        }
    }
    values.len() <= ranks.len()
}

/// As `are_ranked`, by these lines of ranks.
fn are_told(
    rt: &impl Abort,
    alloc: Global,
    table: &TypeTable,
    of: u32,
    values: &[Val],
    lines: &[&[u32]],
) -> bool {
    let ranks = ranks(rt, alloc, lines);
    let are_so = are_ranked(table, of, values, ranks.as_slice());
    drop(ranks);
    are_so
}

/// Values of one of these types.
fn values(rt: &impl Abort, alloc: Global, of: u32) -> Vals {
    match of {
        INTEGER => numbers(rt, alloc, &NUMBERS),
        OCTETS => strings(rt, alloc),
        CHOICE => choices(rt, alloc),
        SEQUENCE | SET => records(rt, alloc),
        LIST => lists(rt, alloc),
        OBJECT_ID => object_ids(rt, alloc),
        BITS => bit_strings(rt, alloc),
        _ => pairs(rt, alloc),
    }
}

/// Whether all pairs of the values of a type are told to compare as these ranks do.
fn are_all_told(
    rt: &impl Abort,
    alloc: Global,
    table: &TypeTable,
    of: u32,
    lines: &[&[u32]],
) -> bool {
    let values = values(rt, alloc, of);
    let are_so = are_told(rt, alloc, table, of, values.as_slice(), lines);
    drop(values);
    are_so
}

#[test]
fn values_compare_as_their_ranks(rt: HostRuntime) {
    let alloc = rt.alloc();
    let table = table(&rt, alloc, &TABLE);
    for (of, lines) in &COMPARED {
        assert!(rt; are_all_told(&rt, alloc, &table, *of, lines));
    }
    drop(table);
}

/// The value at this place of eight: records without parts, with a, and with all parts; two with a
/// number in the place of c, without a and with it; x of the CHOICE; a number; nothing.
fn odd_value(rt: &impl Abort, alloc: Global, place: u32) -> Option<Val> {
    match place {
        0 => Some(record(rt, alloc, None, None, 5)),
        1 => Some(record(rt, alloc, Some(1), None, 5)),
        2 => Some(record(rt, alloc, Some(300), Some(128), 1)),
        3 => Some(parted(rt, alloc, None, None, Some(number(5)))),
        4 => Some(parted(rt, alloc, Some(1), None, Some(number(5)))),
        5 => Some(chosen_text(rt, alloc, &[1])),
        6 => Some(number(5)),
        7 => Some(Val { node: Node::Null }),
        _ => None,
    }
}

/// All lists, and these eight values.
fn odd_values(rt: &impl Abort, alloc: Global) -> Vals {
    let mut odd = lists(rt, alloc);
    for place in 0..8_u32 {
        let value = odd_value(rt, alloc, place).expect(rt, "one of eight");
        odd.push(value).expect(rt, "memory");
    }
    odd
}

/// Whether a value is one of the SEQUENCE.
fn is_record(table: &TypeTable, value: Val) -> bool {
    let fits = fits(table, TypeId(SEQUENCE), &value);
    drop(value);
    fits
}

/// The types of which such values are compared, and their ranks: of the nine lists, and of the
/// others.
const ODDLY_COMPARED: [(u32, Ranks); 4] = [
    (
        SEQUENCE,
        &[&[0, 0, 0, 0, 0, 0, 0, 0, 0], &[0, 1, 2, 0, 1, 0, 0, 0]],
    ),
    (
        SET,
        &[&[0, 0, 0, 0, 0, 0, 0, 0, 0], &[0, 1, 2, 0, 1, 0, 0, 0]],
    ),
    (
        CHOICE,
        &[&[0, 0, 0, 0, 0, 0, 0, 0, 0], &[0, 0, 0, 0, 0, 1, 0, 0]],
    ),
    (
        LIST,
        &[&[0, 1, 2, 3, 4, 5, 6, 7, 8], &[0, 0, 0, 0, 0, 0, 0, 0]],
    ),
];

/// A value of another kind than its type has no form, and is compared all the same. X.690 says
/// nothing of it; by `written`, the definition that the contract of `is_less` cites, it has the
/// identifier of the type and no contents, and no octets at all where the type is a CHOICE. The
/// ranks are of 30 00, 30 03 02 01 01 and 30 81 8D and more as a SEQUENCE, of the same behind 31 as
/// a SET, of no octets and 04 01 01 as a CHOICE, and as in `lists` as a list.
#[test]
fn values_without_form_compare_too(rt: HostRuntime) {
    let alloc = rt.alloc();
    let table = table(&rt, alloc, &TABLE);
    let odd = odd_values(&rt, alloc);
    assert!(rt; !is_record(&table, number(5)));
    for (of, lines) in &ODDLY_COMPARED {
        assert!(rt; are_told(&rt, alloc, &table, *of, odd.as_slice(), lines));
    }
    drop(odd);
    drop(table);
}
