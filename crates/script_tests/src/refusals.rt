//! Schedules that are refused: the line, and the kind of its first faulty field.

use module_reading::read_module;
use osi_base::{NoMemory, Octets};
use schedule_text::{Modes, read_schedule};
use script_lines::{ScriptFault, ScriptKind};
use std::alloc::Global;
use std::process::Abort;
use std::test::*;
use stub_tables::Tables;

/// A module with four operations and an error, as one of a calculator.
const CALC: &str = "Calc {2 999 7 1} DEFINITIONS IMPLICIT TAGS ::= BEGIN
add OPERATION ::= {ARGUMENT INTEGER RESULT INTEGER ERRORS {overflow} LINKED {ask} CODE local:1}
store OPERATION ::= {ARGUMENT OCTET STRING RESULT NULL CODE local:2}
ask OPERATION ::= {ARGUMENT INTEGER RESULT INTEGER CODE local:3}
note OPERATION ::= {ARGUMENT IA5String RETURN RESULT FALSE CODE local:4}
overflow ERROR ::= {PARAMETER INTEGER CODE local:1}
END
";

pub(crate) fn calc(rt: &impl Abort, alloc: Global) -> Tables {
    read_module(alloc, CALC.as_bytes()).expect(rt, "the module is read")
}

pub(crate) fn all_modes() -> Modes {
    Modes {
        direct: true,
        reliable: true,
    }
}

/// What a row shows, a schedule, and the line and the kind of its first fault.
type Row = (&'static str, &'static str, u32, ScriptKind);

/// Why a schedule is not read, if it is not, where these modes are run.
fn fault_of(alloc: Global, tables: &Tables, modes: Modes, text: &str) -> Option<ScriptFault> {
    read_schedule(alloc, modes, tables, text.as_bytes()).err()
}

/// Whether a row's schedule is refused as it says, where these modes are run.
fn is_refused(alloc: Global, tables: &Tables, modes: Modes, row: &Row) -> bool {
    let (_, text, line, kind) = row;
    let fault = ScriptFault::At {
        line: *line,
        kind: *kind,
    };
    fault_of(alloc, tables, modes, text) == Some(fault)
}

/// Each of these schedules is refused so, where these modes are run.
fn check(rt: &impl Abort, alloc: Global, modes: Modes, rows: &[Row]) {
    let tables = calc(rt, alloc);
    for row in rows {
        assert!(rt; is_refused(alloc, &tables, modes, row), "{}", row.0);
    }
    drop(tables);
}

/// Words that no line has, and fields that lack or are too many.
const WORDS_AND_FIELDS: [Row; 15] = [
    (
        "an unknown call",
        "mode bare\nA dance\n",
        2,
        ScriptKind::UnknownWord,
    ),
    (
        "an unknown first word",
        "C open",
        1,
        ScriptKind::UnknownWord,
    ),
    (
        "a tab parts no fields",
        "A\topen",
        1,
        ScriptKind::UnknownWord,
    ),
    (
        "a carriage return is a character",
        "A open\r\n",
        1,
        ScriptKind::UnknownWord,
    ),
    ("an unknown side", "carry C all", 1, ScriptKind::UnknownWord),
    ("an unknown mode", "mode fast", 1, ScriptKind::UnknownWord),
    (
        "the first faulty line",
        "# x\n\nA open 1\nA dance",
        3,
        ScriptKind::BadField,
    ),
    (
        "the first faulty field",
        "A invoke x dance",
        1,
        ScriptKind::BadNumber,
    ),
    ("a missing call", "A ", 1, ScriptKind::BadField),
    ("a missing amount", "carry A", 1, ScriptKind::BadField),
    ("a further field", "break now", 1, ScriptKind::BadField),
    ("a leading zero", "carry A 05", 1, ScriptKind::BadNumber),
    (
        "more than 32 bits",
        "carry A 4294967296",
        1,
        ScriptKind::BadNumber,
    ),
    ("a sign", "A answer -1 5", 1, ScriptKind::BadNumber),
    ("a missing priority", "B please", 1, ScriptKind::BadField),
];

/// Names that the module lacks, and values that are not of their types.
const NAMES_AND_VALUES: [Row; 12] = [
    (
        "an unknown operation",
        "A invoke 5 dance 1",
        1,
        ScriptKind::BadName,
    ),
    (
        "an error for an operation",
        "A invoke 5 overflow 1",
        1,
        ScriptKind::BadName,
    ),
    (
        "an argument that lacks",
        "A invoke 5 add",
        1,
        ScriptKind::BadValue,
    ),
    (
        "an argument of another type",
        "A invoke 5 add TRUE",
        1,
        ScriptKind::BadValue,
    ),
    (
        "a text without its end",
        "A invoke 5 note \"x",
        1,
        ScriptKind::BadValue,
    ),
    (
        "a link without a number",
        "A invoke 5 add 5 linked",
        1,
        ScriptKind::BadField,
    ),
    (
        "another word behind an argument",
        "A invoke 5 add 5 to 1",
        1,
        ScriptKind::BadField,
    ),
    (
        "a value that isn't parted",
        "A invoke 5 note \"x\"y",
        1,
        ScriptKind::BadField,
    ),
    (
        "a parameter that lacks",
        "A refuse 1 overflow",
        1,
        ScriptKind::BadValue,
    ),
    (
        "an unknown error",
        "A refuse 1 add 1",
        1,
        ScriptKind::BadName,
    ),
    (
        "a result without a form",
        "A answer 1 {a 1}",
        1,
        ScriptKind::BadValue,
    ),
    (
        "a field behind a result",
        "A answer 1 5 6",
        1,
        ScriptKind::BadField,
    ),
];

/// Alterations.
const ALTERATIONS: [Row; 8] = [
    ("no syntax", "A alter add 7", 1, ScriptKind::BadField),
    (
        "no syntax before the deletions",
        "A alter add 7 delete 5",
        1,
        ScriptKind::BadField,
    ),
    (
        "an unknown syntax",
        "A alter add 7 per",
        1,
        ScriptKind::BadName,
    ),
    (
        "arcs that are no identifier",
        "A alter add 7 {3 1}",
        1,
        ScriptKind::BadName,
    ),
    (
        "no identifier behind as",
        "A alter add 7 as ber ber",
        1,
        ScriptKind::BadField,
    ),
    (
        "no number behind delete",
        "A alter delete all",
        1,
        ScriptKind::BadNumber,
    ),
    (
        "nothing behind delete",
        "A alter delete",
        1,
        ScriptKind::BadField,
    ),
    ("another word", "A alter 7", 1, ScriptKind::BadField),
];

/// Lines of the setup.
const SETUPS: [Row; 10] = [
    (
        "a mode behind an event",
        "A open\nmode direct",
        2,
        ScriptKind::OutOfOrder,
    ),
    ("two modes", "mode bare\nmode bare", 2, ScriptKind::BadSetup),
    (
        "a context in bare mode",
        "mode bare\ncontext 5 ber",
        2,
        ScriptKind::BadSetup,
    ),
    (
        "bare mode behind a context",
        "context 5 ber\nmode bare",
        2,
        ScriptKind::BadSetup,
    ),
    (
        "a context twice",
        "context 5 ber\ncontext 5 der",
        2,
        ScriptKind::BadSetup,
    ),
    ("an even context", "context 4 ber", 1, ScriptKind::BadSetup),
    (
        "what A accepts twice",
        "accepts A ber\naccepts A der",
        2,
        ScriptKind::BadSetup,
    ),
    (
        "a window of 0",
        "mode reliable 0 0",
        1,
        ScriptKind::BadSetup,
    ),
    ("no window", "mode reliable 2", 1, ScriptKind::BadField),
    ("no mode", "mode", 1, ScriptKind::BadField),
];

/// Schedules of modes that are not run, where bare mode alone is.
const NOT_RUN: [Row; 4] = [
    ("no mode", "A open\n", 1, ScriptKind::BadSetup),
    (
        "no mode, and a fault of line 1",
        "A dance\n",
        1,
        ScriptKind::UnknownWord,
    ),
    ("direct mode", "\nmode direct\n", 2, ScriptKind::BadSetup),
    (
        "reliable mode",
        "mode reliable 1 2\n",
        1,
        ScriptKind::BadSetup,
    ),
];

#[test]
fn words_and_fields(rt: HostRuntime) {
    check(&rt, rt.alloc(), all_modes(), &WORDS_AND_FIELDS);
}

#[test]
fn names_and_values(rt: HostRuntime) {
    check(&rt, rt.alloc(), all_modes(), &NAMES_AND_VALUES);
}

#[test]
fn alterations(rt: HostRuntime) {
    check(&rt, rt.alloc(), all_modes(), &ALTERATIONS);
}

#[test]
fn lines_of_the_setup(rt: HostRuntime) {
    check(&rt, rt.alloc(), all_modes(), &SETUPS);
}

const BARE_ALONE: Modes = Modes {
    direct: false,
    reliable: false,
};

/// Whether a schedule is read where these modes are run.
fn is_read(rt: &impl Abort, alloc: Global, modes: Modes, text: &str) -> bool {
    let tables = calc(rt, alloc);
    let fault = fault_of(alloc, &tables, modes, text);
    drop(tables);
    fault == None
}

/// Bare mode is always run.
#[test]
fn modes_that_are_not_run(rt: HostRuntime) {
    check(&rt, rt.alloc(), BARE_ALONE, &NOT_RUN);
    let text = "# bare\nmode bare\nA open\n";
    assert!(rt; is_read(&rt, rt.alloc(), BARE_ALONE, text), "bare mode");
}

/// A schedule of bare mode with so many breaks.
fn breaks(alloc: Global, count: usize) -> Result<Octets, NoMemory> {
    let mut text = Octets::from_slice(alloc, b"mode bare\n")?;
    for _ in 0..count {
        text.extend(b"break\n")?;
    }
    Ok(text)
}

/// Why a schedule of so many breaks is not read, if it is not.
fn fault_of_breaks(rt: &impl Abort, alloc: Global, count: usize) -> Option<ScriptFault> {
    let tables = calc(rt, alloc);
    let text = breaks(alloc, count).expect(rt, "memory");
    let fault = read_schedule(alloc, all_modes(), &tables, text.as_slice()).err();
    drop(tables);
    fault
}

/// A schedule has at most 20,000 events: the line of one more is told.
#[test]
fn an_event_too_many(rt: HostRuntime) {
    let fault = ScriptFault::At {
        line: 20_002,
        kind: ScriptKind::TooMany,
    };
    assert!(rt; fault_of_breaks(&rt, rt.alloc(), 20_000) == None);
    assert!(rt; fault_of_breaks(&rt, rt.alloc(), 20_001) == Some(fault));
}

/// Why a schedule that is a comment of so many octets is not read, if it is not.
fn fault_of_octets(rt: &impl Abort, alloc: Global, count: usize) -> Option<ScriptFault> {
    let tables = calc(rt, alloc);
    let text = Octets::from_vec(vec![in alloc; b'#'; count].expect(rt, "memory"));
    let fault = read_schedule(alloc, all_modes(), &tables, text.as_slice()).err();
    drop(tables);
    fault
}

/// A schedule has at most 16,777,216 octets.
#[test]
fn an_octet_too_many(rt: HostRuntime) {
    let fault = ScriptFault::At {
        line: 1,
        kind: ScriptKind::TooMany,
    };
    assert!(rt; fault_of_octets(&rt, rt.alloc(), 16_777_216) == None);
    assert!(rt; fault_of_octets(&rt, rt.alloc(), 16_777_217) == Some(fault));
}
