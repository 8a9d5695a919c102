//! Values that are read and printed again, and texts that are no values, by the notation of X.680:
//! a value prints as it was read, but for spaces and lower-case digits, with parts in the order of
//! their type and without those that have their default's value, and with the items of a SET OF in
//! the order of their encodings (X.690 11.6).

use By::{Form, Type};
use Read::{Leaves, NoValue, Prints};
use asn1_types::{Item, Named, Part, Parts, TextKind, TypeId, TypeRow, TypeTable, Val};
use osi_base::Name;
use std::alloc::Global;
use std::process::Abort;
use std::test::*;
use value_reading::{ValueAndRest, read_form, read_typed};
use value_text::{Text, put_typed, put_value};

/// The names and numbers of an ENUMERATED.
const ITEMS: [(&'static str, i64); 2] = [("red", 0), ("light-blue", -7)];

fn items(rt: &impl Abort, alloc: Global) -> Named {
    let mut items = Named::new(alloc);
    for (name, number) in &ITEMS {
        let name = Name::from_str(alloc, name).expect(rt, "memory");
        let item = Item {
            name,
            number: *number,
        };
        items.push(item).expect(rt, "memory");
    }
    items
}

/// A part's name, the place of its type, whether it may lack, and its default.
type Member = (&'static str, u32, bool, Option<i64>);

/// Of a SEQUENCE and a SET.
const PARTS: [Member; 3] = [
    ("a", 0, false, None),
    ("b", 1, true, None),
    ("c", 2, false, Some(0)),
];

/// Of a CHOICE.
const ALTERNATIVES: [Member; 2] = [("one", 0, false, None), ("many", 4, false, None)];

fn parts(rt: &impl Abort, alloc: Global, members: &[Member]) -> Parts {
    let mut parts = Parts::new(alloc);
    for (name, inner, optional, default) in members {
        let name = Name::from_str(alloc, name).expect(rt, "memory");
        let part = Part {
            name,
            inner: TypeId(*inner),
            optional: *optional,
            default: *default,
        };
        parts.push(part).expect(rt, "memory");
    }
    parts
}

/// The row at this place of thirteen: 0 INTEGER, 1 IA5String, 2 ENUMERATED, 3 SEQUENCE, 4 SEQUENCE
/// OF 3, 5 CHOICE, 6 BIT STRING, 7 OBJECT IDENTIFIER, 8 OCTET STRING, 9 SET, 10 BOOLEAN, 11 NULL,
/// 12 SET OF 0.
fn row(rt: &impl Abort, alloc: Global, place: u32) -> TypeRow {
    match place {
        0 => TypeRow::Integer {
            low: -5,
            high: 1_000_000,
        },
        1 => TypeRow::Text(TextKind::Ia5),
        2 => TypeRow::Enumerated(items(rt, alloc)),
        3 => TypeRow::Sequence(parts(rt, alloc, &PARTS)),
        4 => TypeRow::SequenceOf(TypeId(3)),
        5 => TypeRow::Choice(parts(rt, alloc, &ALTERNATIVES)),
        6 => TypeRow::BitString,
        7 => TypeRow::ObjectId,
        8 => TypeRow::OctetString { most: 3 },
        9 => TypeRow::Set(parts(rt, alloc, &PARTS)),
        10 => TypeRow::Boolean,
        11 => TypeRow::Null,
        _ => TypeRow::SetOf(TypeId(0)),
    }
}

/// The table of these rows.
fn table(rt: &impl Abort, alloc: Global) -> TypeTable {
    let mut table = TypeTable::new(alloc);
    for place in 0..13_u32 {
        table
            .add(row(rt, alloc, place))
            .expect(rt, "the row is added");
    }
    table
}

/// How a text is read.
#[derive(Clone, Copy)]
enum By {
    /// By the type at this place.
    Type(u32),
    /// Without a type.
    Form,
}

/// What a text is read as.
#[derive(Clone, Copy)]
enum Read {
    /// The whole text is a value, which prints so.
    Prints(&'static str),
    /// The whole text is no value.
    NoValue,
    /// It begins with a value, and this follows.
    Leaves(&'static str),
}

/// How a text is read, the text, and what it is read as.
type Row = (By, &'static str, Read);

/// The value that a text begins with, if it begins with one.
fn front<'a>(
    rt: &impl Abort,
    alloc: Global,
    table: &TypeTable,
    by: By,
    text: &'a str,
) -> Option<ValueAndRest<'a>> {
    let read = match by {
        Type(of) => read_typed(alloc, table, TypeId(of), text.as_bytes()),
        Form => read_form(alloc, text.as_bytes()),
    };
    read.expect(rt, "memory")
}

/// Whether a value prints so.
fn is_printed(
    rt: &impl Abort,
    alloc: Global,
    table: &TypeTable,
    by: By,
    value: &Val,
    again: &str,
) -> bool {
    let mut text = Text::new(alloc);
    let put = match by {
        Type(of) => put_typed(&mut text, table, TypeId(of), value),
        Form => put_value(&mut text, value),
    };
    put.expect(rt, "memory");
    text.into_octets().as_slice() == again.as_bytes()
}

/// Whether a text that begins with this value is read so.
fn is_so(
    rt: &impl Abort,
    alloc: Global,
    table: &TypeTable,
    by: By,
    front: &ValueAndRest<'_>,
    read: Read,
) -> bool {
    match read {
        Prints(again) => {
            front.rest.is_empty() && is_printed(rt, alloc, table, by, &front.value, again)
        }
        NoValue => !front.rest.is_empty(),
        Leaves(rest) => front.rest == rest.as_bytes(),
    }
}

/// Whether a text is read so.
fn is_read(
    rt: &impl Abort,
    alloc: Global,
    table: &TypeTable,
    by: By,
    text: &str,
    read: Read,
) -> bool {
    let front = front(rt, alloc, table, by, text);
    let so = match (&front, read) {
        (Some(front), _) => is_so(rt, alloc, table, by, front, read),
        (None, NoValue) => true,
        (None, _) => panic!(rt; "{text} isn't read"),
    };
    drop(front);
    so
}

/// Each text is read so.
fn check(rt: &impl Abort, alloc: Global, rows: &[Row]) {
    let table = table(rt, alloc);
    for (by, text, read) in rows {
        assert!(rt; is_read(rt, alloc, &table, *by, text, *read), "{text}");
    }
    drop(table);
}

/// Texts of values, and what these print as.
static VALUES: [Row; 23] = [
    // a number
    (Type(0), "5", Prints("5")),
    // the least number of its range
    (Type(0), "-5", Prints("-5")),
    // a text with a comma, with braces and with quotation marks, each written twice
    (
        Type(1),
        "\"a, {b} \"\"c\"\"\"",
        Prints("\"a, {b} \"\"c\"\"\""),
    ),
    // a text without characters
    (Type(1), "\"\"", Prints("\"\"")),
    // an item of an ENUMERATED, with a hyphen in its name
    (Type(2), "light-blue", Prints("light-blue")),
    // a SEQUENCE of its first part, which alone must stand
    (Type(3), "{a 1}", Prints("{a 1}")),
    // all parts, with spaces between the tokens
    (
        Type(3),
        "{ a 1 , b \"x,y\" , c light-blue }",
        Prints("{a 1, b \"x,y\", c light-blue}"),
    ),
    // a part with its default's value, 0, which is left out
    (Type(3), "{a 1, c red}", Prints("{a 1}")),
    // a SEQUENCE OF without items
    (Type(4), "{}", Prints("{}")),
    // two items without a space between them, and a brace inside a text
    (
        Type(4),
        "{{a 1},{a 2, b \"}\"}}",
        Prints("{{a 1}, {a 2, b \"}\"}}"),
    ),
    // an alternative of a CHOICE
    (Type(5), "one : 7", Prints("one : 7")),
    // an alternative without spaces beside its colon
    (Type(5), "many:{{a 1}}", Prints("many : {{a 1}}")),
    // four bits
    (Type(6), "'0101'B", Prints("'0101'B")),
    // no bits
    (Type(6), "''B", Prints("''B")),
    // the bits of one octet
    (Type(6), "'10101010'B", Prints("'10101010'B")),
    // one bit more than an octet has
    (Type(6), "'101010101'B", Prints("'101010101'B")),
    // an object identifier
    (Type(7), "{2 999 1}", Prints("{2 999 1}")),
    // more spaces between its arcs
    (Type(7), "{  2   999 1 }", Prints("{2 999 1}")),
    // two octets, with a lower-case digit
    (Type(8), "'0aF0'H", Prints("'0AF0'H")),
    // parts of a SET in another order than the type's
    (Type(9), "{b \"x\", a 1}", Prints("{a 1, b \"x\"}")),
    // a truth value
    (Type(10), "TRUE", Prints("TRUE")),
    // a NULL
    (Type(11), "NULL", Prints("NULL")),
    // items of a SET OF, by their encodings: 02 01 02 twice, 02 01 FF and 02 02 01 2C
    (Type(12), "{300, -1,2 , 2}", Prints("{2, 2, -1, 300}")),
];

#[test]
fn values_are_read_and_printed_again(rt: HostRuntime) {
    check(&rt, rt.alloc(), &VALUES);
}

/// Texts that are no values of these types.
static OTHERS: [Row; 29] = [
    // no octet
    (Type(0), "", NoValue),
    // a number with a leading zero
    (Type(0), "05", NoValue),
    // a zero with a sign
    (Type(0), "-0", NoValue),
    // a number with a plus sign
    (Type(0), "+1", NoValue),
    // a number below its range
    (Type(0), "-6", NoValue),
    // a truth value where a number is due
    (Type(0), "TRUE", NoValue),
    // a quotation mark inside a text that isn't doubled, so that octets follow the text
    (Type(1), "\"a\"b\"", NoValue),
    // a text without its second quotation mark
    (Type(1), "\"", NoValue),
    // a name that is no item's
    (Type(2), "green", NoValue),
    // no part, where one must stand
    (Type(3), "{}", NoValue),
    // a comma behind the last part
    (Type(3), "{a 1,}", NoValue),
    // parts of a SEQUENCE in another order
    (Type(3), "{b \"x\", a 1}", NoValue),
    // a part of a SEQUENCE twice
    (Type(3), "{a 1, a 1}", NoValue),
    // no space between a part's name and its value
    (Type(3), "{a1}", NoValue),
    // no comma between two items
    (Type(4), "{{a 1} {a 1}}", NoValue),
    // a name that is no alternative's
    (Type(5), "two : 7", NoValue),
    // no colon behind an alternative's name
    (Type(5), "one 7", NoValue),
    // a digit that is no bit
    (Type(6), "'012'B", NoValue),
    // an arc with a leading zero
    (Type(7), "{2 999 01}", NoValue),
    // a first arc of 3, where 2 is the greatest
    (Type(7), "{3 1}", NoValue),
    // half an octet
    (Type(8), "'0'H", NoValue),
    // four octets, where three are the most
    (Type(8), "'00000000'H", NoValue),
    // a part of a SET twice
    (Type(9), "{a 1, a 2}", NoValue),
    // a name that is no part's
    (Type(9), "{a 1, d 1}", NoValue),
    // a truth value in lower case
    (Type(10), "true", NoValue),
    // a space in front
    (Type(5), " one : 7", NoValue),
    // a tab instead of a space
    (Type(3), "{a\t1}", NoValue),
    // a tab behind a space
    (Type(3), "{a \t1}", NoValue),
    // an item of another type than its SET OF has
    (Type(12), "{1, TRUE}", NoValue),
];

#[test]
fn other_texts_are_no_values(rt: HostRuntime) {
    check(&rt, rt.alloc(), &OTHERS);
}

/// A truth value, NULL, a number, octets, bits, a text and an object identifier.
static FORMS: [Row; 7] = [
    (Form, "TRUE", Prints("TRUE")),
    (Form, "NULL", Prints("NULL")),
    (Form, "-3", Prints("-3")),
    (Form, "'0A'H", Prints("'0A'H")),
    (Form, "'01'B", Prints("'01'B")),
    (Form, "\"x\"", Prints("\"x\"")),
    (Form, "{1 2 3}", Prints("{1 2 3}")),
];

#[test]
fn forms_are_read_without_a_type(rt: HostRuntime) {
    check(&rt, rt.alloc(), &FORMS);
}

/// Texts that begin with values, and what follows these.
static FRONTS: [Row; 4] = [
    // a number, with the rest of its line
    (Type(0), "5 linked 1", Leaves(" linked 1")),
    // a SEQUENCE, up to its brace
    (Type(3), "{a 1} 7", Leaves(" 7")),
    // a text with a quotation mark inside, up to its last one
    (Type(1), "\"a\"\"b\" x", Leaves(" x")),
    // a name, up to the space
    (Type(2), "red linked 3", Leaves(" linked 3")),
];

#[test]
fn what_follows_is_left(rt: HostRuntime) {
    check(&rt, rt.alloc(), &FRONTS);
}
