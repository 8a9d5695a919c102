//! APDUs of the module written in three syntaxes (X.882 9; the packed syntax is this project's
//! own): invocations and results of worked dialogues, and others that differ from these in a field.

use crate::sample::{integer, module};
use Sample::{Error, Invoke, Returns};
use Syntax::{Ber, Der, Packed};
use apdu_codec::{apdu_len, is_too_long, write_apdu};
use osi_base::Syntax;
use std::alloc::Global;
use std::process::Abort;
use std::test::*;
use stub_tables::{Apdu, Code, Returned, Tables};

/// An APDU with the identifier 1.
#[derive(Clone, Copy)]
enum Sample {
    /// The operation with this code, with this number, linked to the invocation 1 or to none.
    Invoke(i64, i64, bool),
    /// The result of the operation with the code 1, or one without a value.
    Returns(Option<i64>),
    /// The error with the code 1, with this number.
    Error(i64),
}

/// What a row shows, an APDU, and its octets in a syntax.
static ROWS: [(&'static str, Sample, Syntax, &'static [u8]); 11] = [
    (
        "an invocation",
        Invoke(1, 5, false),
        Ber,
        &[0xA1, 9, 2, 1, 1, 2, 1, 1, 2, 1, 5],
    ),
    (
        "an invocation in DER",
        Invoke(1, 5, false),
        Der,
        &[0xA1, 9, 2, 1, 1, 2, 1, 1, 2, 1, 5],
    ),
    (
        "a packed invocation",
        Invoke(1, 5, false),
        Packed,
        &[1, 1, 1, 0, 0, 1, 1, 1, 1, 5],
    ),
    (
        "a linked invocation",
        Invoke(3, 7, true),
        Ber,
        &[0xA1, 0x0C, 2, 1, 1, 0x80, 1, 1, 2, 1, 3, 2, 1, 7],
    ),
    (
        "a packed linked invocation",
        Invoke(3, 7, true),
        Packed,
        &[1, 1, 1, 1, 1, 1, 0, 1, 3, 1, 1, 7],
    ),
    (
        "a result",
        Returns(Some(5)),
        Ber,
        &[0xA2, 0x0B, 2, 1, 1, 0x30, 6, 2, 1, 1, 2, 1, 5],
    ),
    (
        "a packed result",
        Returns(Some(5)),
        Packed,
        &[2, 1, 1, 1, 0, 1, 1, 1, 5],
    ),
    (
        "a result without a value",
        Returns(None),
        Ber,
        &[0xA2, 3, 2, 1, 1],
    ),
    (
        "a packed result without a value",
        Returns(None),
        Packed,
        &[2, 1, 1, 0],
    ),
    (
        "an error",
        Error(5),
        Ber,
        &[0xA3, 9, 2, 1, 1, 2, 1, 1, 2, 1, 5],
    ),
    (
        "a packed error",
        Error(5),
        Packed,
        &[3, 1, 1, 0, 1, 1, 1, 1, 5],
    ),
];

/// What the result of the operation with the code 1 returns.
fn returned(number: i64) -> Returned {
    Returned {
        code: Code::Local(1),
        value: integer(number),
    }
}

fn apdu(sample: Sample) -> Apdu {
    match sample {
        Invoke(code, number, linked) => Apdu::Invoke {
            id: 1,
            linked: if linked { Some(1) } else { None },
            code: Code::Local(code),
            argument: Some(integer(number)),
        },
        Returns(number) => Apdu::Result {
            id: 1,
            returned: number.map(returned),
        },
        Error(number) => Apdu::Error {
            id: 1,
            code: Code::Local(1),
            parameter: Some(integer(number)),
        },
    }
}

/// Whether an APDU of the module is written as these octets, has as many, and so not too many.
fn is_written(
    rt: &impl Abort,
    alloc: Global,
    tables: &Tables,
    syntax: Syntax,
    sample: Sample,
    octets: &[u8],
) -> bool {
    let apdu = apdu(sample);
    let written = write_apdu(alloc, syntax, tables, &apdu).expect(rt, "memory");
    let length = apdu_len(syntax, tables, &apdu);
    let is_long = is_too_long(tables, &apdu);
    drop(apdu);
    written.as_slice() == octets && length == octets.len() as u64 && !is_long
}

#[test]
fn apdus_are_written(rt: HostRuntime) {
    let tables = module(&rt, rt.alloc());
    for (shows, sample, syntax, octets) in &ROWS {
        assert!(rt;
            is_written(&rt, rt.alloc(), &tables, *syntax, *sample, octets),
            "{shows}"
        );
    }
    drop(tables);
}
