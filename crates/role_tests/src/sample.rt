//! A module with three operations and one error.

ghost use Rattle.std.specs.Prelude.{◌≡◌, ◌<◌, ◌^◌, IsTrue, length};
ghost use Rattle.stub_tables.specs.Codes.{have_own_codes};
ghost use Rattle.stub_tables.specs.declared.operation.Code.TheVariants as codes;

use asn1_types::{Node, TypeId, TypeRow, TypeTable, Val};
use osi_base::{Indices, ListOf, Name, Oid};
use std::alloc::Global;
use std::process::Abort;
use std::test::*;
use stub_tables::{Code, ErrorRow, ErrorRows, Operation, Operations, Tables, Use};

/// A value of INTEGER.
pub(crate) fn integer(number: i64) -> Val {
    Val {
        node: Node::Int(number),
    }
}

/// What carries a value of INTEGER, the first row of the types, or nothing.
fn carrying(number: bool) -> Use {
    Use {
        inner: if number { Some(TypeId(0)) } else { None },
        optional: false,
    }
}

/// Places of errors or of operations.
fn places(rt: &impl Abort, alloc: Global, places: &[u32]) -> Indices {
    ListOf::from_vec(Vec::from_slice(alloc, places).expect(rt, "memory"))
}

/// An operation with an INTEGER as its argument, and as its result if it has one; with these errors
/// and with those operations that may be linked to it.
fn operation(
    rt: &impl Abort,
    alloc: Global,
    name: &str,
    code: i64,
    returns: bool,
    errors: &[u32],
    linked: &[u32],
) -> Operation
    ensures { result.code ≡ codes.Local code }
{
    Operation {
        name: Name::from_str(alloc, name).expect(rt, "memory"),
        code: Code::Local(code),
        argument: carrying(true),
        result: carrying(returns),
        returns,
        always: true,
        errors: places(rt, alloc, errors),
        linked: places(rt, alloc, linked),
    }
}

/// `add`, to which `ask` may be linked and which may answer the error; `ask`; and `note`, which is
/// silent.
fn operations(rt: &impl Abort, alloc: Global) -> Operations
    ensures few { length result < 2 ^ 32 }
    ensures own { IsTrue (have_own_codes (λ o. o.code) result) }
{
    let mut operations = Operations::new(alloc);
    let add = operation(rt, alloc, "add", 1, true, &[0], &[1]);
    operations.push(add).expect(rt, "memory");
    let ask = operation(rt, alloc, "ask", 3, true, &[], &[]);
    operations.push(ask).expect(rt, "memory");
    let note = operation(rt, alloc, "note", 4, false, &[], &[]);
    operations.push(note).expect(rt, "memory");
    operations
}

/// `overflow`, which carries an INTEGER.
fn errors(rt: &impl Abort, alloc: Global) -> ErrorRows
    ensures few { length result < 2 ^ 32 }
    ensures own { IsTrue (have_own_codes (λ e. e.code) result) }
{
    let mut errors = ErrorRows::new(alloc);
    let overflow = ErrorRow {
        name: Name::from_str(alloc, "overflow").expect(rt, "memory"),
        code: Code::Local(1),
        parameter: carrying(true),
    };
    errors.push(overflow).expect(rt, "memory");
    errors
}

/// INTEGER.
fn types(rt: &impl Abort, alloc: Global) -> TypeTable {
    let mut types = TypeTable::new(alloc);
    let whole = TypeRow::Integer {
        low: i64::MIN,
        high: i64::MAX,
    };
    types.add(whole).expect(rt, "the row is added");
    types
}

/// A module with these operations and this error.
pub(crate) fn module(rt: &impl Abort, alloc: Global) -> Tables {
    Tables {
        name: Name::from_str(alloc, "Calc").expect(rt, "memory"),
        name_oid: Oid::from_slice(alloc, &[2, 999, 7, 1]).expect(rt, "memory"),
        types: types(rt, alloc),
        operations: operations(rt, alloc),
        errors: errors(rt, alloc),
    }
}

/// An operation that returns no result is silent where it returns no error either.
#[test]
fn what_returns_nothing_is_silent(rt: HostRuntime) {
    let note = operation(&rt, rt.alloc(), "note", 4, false, &[], &[]);
    let warn = operation(&rt, rt.alloc(), "warn", 5, false, &[0], &[]);
    assert!(rt; note.is_silent() && !warn.is_silent());
    drop(note);
    drop(warn);
}

/// Local codes are one code where their numbers are equal.
#[test]
fn a_code_is_itself_alone(rt: HostRuntime) {
    let three = Code::Local(3);
    let one = Code::Local(1);
    assert!(rt; three.is(&three) && !three.is(&one) && !one.is(&three));
    drop(three);
    drop(one);
}
