//! Tables of types, told as data.

use ber_codec::{Class, Item, Named, Part, Parts, TextKind, TypeId, TypeRow, TypeTable};
use osi_base::Name;
use std::alloc::Global;
use std::process::Abort;

/// A part: its name, the place of its type, whether it may lack, and its default.
pub(crate) type Member = (&'static str, u32, bool, Option<i64>);

/// A row of a table; other rows are told by their places.
pub(crate) enum Row {
    Boolean,
    /// From the first number to the second.
    Integer(i64, i64),
    /// Of this item alone.
    Enumerated(&'static str, i64),
    Null,
    /// Of at most so many octets.
    OctetString(u32),
    BitString,
    ObjectId,
    Text(TextKind),
    Any,
    Sequence(&'static [Member]),
    Set(&'static [Member]),
    Choice(&'static [Member]),
    SequenceOf(u32),
    SetOf(u32),
    /// With this number of the context class, EXPLICIT or not, of a type.
    Tagged(u32, bool, u32),
}

/// This part.
fn part(
    rt: &impl Abort,
    alloc: Global,
    name: &str,
    inner: u32,
    optional: bool,
    default: Option<i64>,
) -> Part {
    Part {
        name: Name::from_str(alloc, name).expect(rt, "memory"),
        inner: TypeId(inner),
        optional,
        default,
    }
}

/// These parts.
pub(crate) fn parts(rt: &impl Abort, alloc: Global, members: &[Member]) -> Parts {
    let mut parts = Parts::new(alloc);
    for (name, inner, optional, default) in members {
        let part = part(rt, alloc, name, *inner, *optional, *default);
        parts.push(part).expect(rt, "memory");
    }
    parts
}

fn item(rt: &impl Abort, alloc: Global, name: &str, number: i64) -> Item {
    Item {
        name: Name::from_str(alloc, name).expect(rt, "memory"),
        number,
    }
}

/// The items of an ENUMERATED with one.
fn items(rt: &impl Abort, alloc: Global, name: &str, number: i64) -> Named {
    let mut items = Named::new(alloc);
    items
        .push(item(rt, alloc, name, number))
        .expect(rt, "memory");
    items
}

/// The row that is told.
fn made(rt: &impl Abort, alloc: Global, told: &Row) -> TypeRow {
    match told {
        Row::Boolean => TypeRow::Boolean,
        Row::Integer(low, high) => TypeRow::Integer {
            low: *low,
            high: *high,
        },
        Row::Enumerated(name, number) => TypeRow::Enumerated(items(rt, alloc, name, *number)),
        Row::Null => TypeRow::Null,
        Row::OctetString(most) => TypeRow::OctetString { most: *most },
        Row::BitString => TypeRow::BitString,
        Row::ObjectId => TypeRow::ObjectId,
        Row::Text(kind) => TypeRow::Text(*kind),
        Row::Any => TypeRow::Any,
        Row::Sequence(members) => TypeRow::Sequence(parts(rt, alloc, members)),
        Row::Set(members) => TypeRow::Set(parts(rt, alloc, members)),
        Row::Choice(members) => TypeRow::Choice(parts(rt, alloc, members)),
        Row::SequenceOf(inner) => TypeRow::SequenceOf(TypeId(*inner)),
        Row::SetOf(inner) => TypeRow::SetOf(TypeId(*inner)),
        Row::Tagged(number, explicit, inner) => TypeRow::Tagged {
            class: Class::Context,
            number: *number,
            explicit: *explicit,
            inner: TypeId(*inner),
        },
    }
}

/// The table of these rows.
pub(crate) fn table(rt: &impl Abort, alloc: Global, rows: &[Row]) -> TypeTable {
    let mut table = TypeTable::new(alloc);
    for told in rows {
        table
            .add(made(rt, alloc, told))
            .expect(rt, "the row is added");
    }
    table
}
