//! The values, each with its type.

use crate::stopped::Stopped;
use asn1_types::{Class, Node, Part, Parts, TypeId, TypeRow, TypeTable, Val};
use osi_base::{ListOf, Name, Octets};
use std::alloc::Global;

/// A value and its type.
#[derive(Drop)]
pub struct Sample {
    /// The table that holds the type.
    pub table: TypeTable,
    /// The identifier of the type in the table.
    pub of: TypeId,
    /// The value.
    pub value: Val,
}

/// The value with its type in this table, where the type could be added to it.
fn typed(table: TypeTable, of: Result<TypeId, Stopped>, value: Val) -> Result<Sample, Stopped> {
    match of {
        Ok(of) => Ok(Sample { table, of, value }),
        Err(stopped) => {
            drop(table);
            drop(value);
            Err(stopped)
        }
    }
}

/// The parts that are told, each by its name, its type, whether it may be absent, and its default.
fn parts(alloc: Global, told: &[(&str, TypeId, bool, Option<i64>)]) -> Result<Parts, Stopped> {
    let mut parts = ListOf::new(alloc);
    for (name, inner, optional, default) in told {
        parts.push(Part {
            name: Name::from_str(alloc, name)?,
            inner: *inner,
            optional: *optional,
            default: *default,
        })?;
    }
    Ok(parts)
}

/// Adds the SEQUENCE of these parts to the table.
fn add_sequence(
    alloc: Global,
    table: &mut TypeTable,
    told: &[(&str, TypeId, bool, Option<i64>)],
) -> Result<TypeId, Stopped> {
    Ok(table.add(TypeRow::Sequence(parts(alloc, told)?))?)
}

/// INTEGER of 64 bits.
fn any_integer() -> TypeRow {
    TypeRow::Integer {
        low: i64::MIN,
        high: i64::MAX,
    }
}

fn number(number: i64) -> Val {
    Val {
        node: Node::Int(number),
    }
}

/// A tag in the place of a type's own.
fn tagged(number: u32, inner: TypeId) -> TypeRow {
    TypeRow::Tagged {
        class: Class::Context,
        number,
        explicit: false,
        inner,
    }
}

/// Adds SEQUENCE {a INTEGER, b OCTET STRING, c SEQUENCE OF INTEGER} to the table.
fn add_sequence_type(alloc: Global, table: &mut TypeTable) -> Result<TypeId, Stopped> {
    let integer = table.add(any_integer())?;
    let octets = table.add(TypeRow::OctetString { most: u32::MAX })?;
    let integers = table.add(TypeRow::SequenceOf(integer))?;
    let told = [
        ("a", integer, false, None),
        ("b", octets, false, None),
        ("c", integers, false, None),
    ];
    add_sequence(alloc, table, &told)
}

/// 1,024 octets.
fn octets(alloc: Global) -> Result<Val, Stopped> {
    Ok(Val {
        node: Node::Octets(Octets::from_vec(vec![in alloc; 0xA5; 1_024]?)),
    })
}

/// The first 100 thousands, 0 among them.
fn thousands(alloc: Global) -> Result<Val, Stopped> {
    let mut thousands = Vec::new(alloc);
    for count in 0..100_u8 {
        thousands.push(number(1_000 * count as i64))?;
    }
    Ok(Val {
        node: Node::List(thousands),
    })
}

fn sequence_value(alloc: Global) -> Result<Val, Stopped> {
    let octets = octets(alloc)?;
    let thousands = thousands(alloc)?;
    let values = vec![in alloc; Some(number(1)), Some(octets), Some(thousands)]?;
    Ok(Val {
        node: Node::Parts(values),
    })
}

/// SEQUENCE {a INTEGER, b OCTET STRING, c SEQUENCE OF INTEGER} with 1, 1,024 octets and 100
/// thousands.
pub fn sequence(alloc: Global) -> Result<Sample, Stopped> {
    let value = sequence_value(alloc)?;
    let mut table = TypeTable::new(alloc);
    let of = add_sequence_type(alloc, &mut table);
    typed(table, of, value)
}

/// Adds CHOICE {local INTEGER, global OBJECT IDENTIFIER} to the table.
fn add_code(alloc: Global, table: &mut TypeTable, integer: TypeId) -> Result<TypeId, Stopped> {
    let oid = table.add(TypeRow::ObjectId)?;
    let told = [
        ("local", integer, false, None),
        ("global", oid, false, None),
    ];
    Ok(table.add(TypeRow::Choice(parts(alloc, &told)?))?)
}

/// Adds [1] IMPLICIT SEQUENCE {id INTEGER, linked [0] IMPLICIT INTEGER OPTIONAL, code CHOICE {local
/// INTEGER, global OBJECT IDENTIFIER}, argument INTEGER} to the table.
fn add_invocation_type(alloc: Global, table: &mut TypeTable) -> Result<TypeId, Stopped> {
    let integer = table.add(any_integer())?;
    let linked = table.add(tagged(0, integer))?;
    let code = add_code(alloc, table, integer)?;
    let told = [
        ("id", integer, false, None),
        ("linked", linked, true, None),
        ("code", code, false, None),
        ("argument", integer, false, None),
    ];
    let fields = add_sequence(alloc, table, &told)?;
    Ok(table.add(tagged(1, fields))?)
}

fn invocation_value(alloc: Global) -> Result<Val, Stopped> {
    let code = Val {
        node: Node::Chosen {
            which: 0,
            value: Box::new(alloc, number(1))?,
        },
    };
    let values = vec![in alloc; Some(number(1)), None, Some(code), Some(number(200))]?;
    Ok(Val {
        node: Node::Parts(values),
    })
}

/// The invocation 1 of the operation 1 with 200: [1] IMPLICIT SEQUENCE {id INTEGER,
/// linked [0] IMPLICIT INTEGER OPTIONAL, code CHOICE {local INTEGER, global OBJECT IDENTIFIER},
/// argument INTEGER}.
pub fn invocation(alloc: Global) -> Result<Sample, Stopped> {
    let value = invocation_value(alloc)?;
    let mut table = TypeTable::new(alloc);
    let of = add_invocation_type(alloc, &mut table);
    typed(table, of, value)
}

/// Adds SEQUENCE {a INTEGER DEFAULT 1, b BOOLEAN DEFAULT TRUE, c SET OF INTEGER} to the table, or
/// the same with a SEQUENCE OF.
fn add_numbers_type(alloc: Global, table: &mut TypeTable, is_set: bool) -> Result<TypeId, Stopped> {
    let integer = table.add(any_integer())?;
    let boolean = table.add(TypeRow::Boolean)?;
    let items = table.add(if is_set {
        TypeRow::SetOf(integer)
    } else {
        TypeRow::SequenceOf(integer)
    })?;
    let told = [
        ("a", integer, false, Some(1)),
        ("b", boolean, false, Some(1)),
        ("c", items, false, None),
    ];
    add_sequence(alloc, table, &told)
}

/// The numbers from 0 to 999.
fn rising(alloc: Global) -> Result<Val, Stopped> {
    let mut rising = Vec::new(alloc);
    for count in 0..1_000_u32 {
        rising.push(number(count as i64))?;
    }
    Ok(Val {
        node: Node::List(rising),
    })
}

fn numbers_value(alloc: Global) -> Result<Val, Stopped> {
    let rising = rising(alloc)?;
    let values = vec![in alloc; Some(number(5)), None, Some(rising)]?;
    Ok(Val {
        node: Node::Parts(values),
    })
}

/// SEQUENCE {a INTEGER DEFAULT 1, b BOOLEAN DEFAULT TRUE, c SET OF INTEGER} with 5, an absent b and
/// the numbers from 0 to 999; or with a SEQUENCE OF the same numbers.
pub fn numbers(alloc: Global, is_set: bool) -> Result<Sample, Stopped> {
    let value = numbers_value(alloc)?;
    let mut table = TypeTable::new(alloc);
    let of = add_numbers_type(alloc, &mut table, is_set);
    typed(table, of, value)
}
