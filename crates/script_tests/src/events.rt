//! Events that are read and printed again: as they were read, but for spaces, for digits in lower
//! case, for names of syntaxes that have a short one, and for the module's own name.

use crate::refusals::{all_modes, calc};
use dialogue::Event;
use osi_base::{NoMemory, Octets, Side};
use schedule_text::{Schedule, read_schedule};
use script_lines::InvokedOperations;
use std::alloc::Global;
use std::process::Abort;
use std::test::*;
use stub_tables::Tables;
use transcript_text::put_event;
use value_text::Text;

/// Keeps which operation an event invokes.
fn name(rt: &impl Abort, invoked: &mut InvokedOperations, event: &Event) {
    if let Event::Call { side, call } = event {
        invoked.name(*side, call).expect(rt, "memory");
    }
}

/// The last event as a text, behind those before it.
fn printed(rt: &impl Abort, alloc: Global, tables: &Tables, events: &[Event]) -> Octets {
    let mut invoked = InvokedOperations::new(alloc);
    let mut text = Text::new(alloc);
    if let Some((last, before)) = events.split_last() {
        for event in before {
            name(rt, &mut invoked, event);
        }
        put_event(&mut text, tables, &invoked, last).expect(rt, "memory");
    }
    text.into_octets()
}

/// What a row shows, lines of a schedule, and the last of them as it is printed.
type Row = (&'static str, &'static str, &'static str);

const ROWS: [Row; 17] = [
    ("spaces", "  A   open  ", "A open"),
    (
        "a link",
        "B invoke 0 ask 7 linked 1",
        "B invoke 0 ask 7 linked 1",
    ),
    (
        "a quote",
        "A invoke 5 note \"a\"\"b\"",
        "A invoke 5 note \"a\"\"b\"",
    ),
    (
        "octets in lower case",
        "A invoke 5 store '0a'H",
        "A invoke 5 store '0A'H",
    ),
    (
        "a result of its type",
        "B invoke 5 add 1\nA answer 1 -5",
        "A answer 1 -5",
    ),
    (
        "a result of no type",
        "A answer 7 '01'B",
        "A answer 7 '01'B",
    ),
    ("no result", "A answer 1", "A answer 1"),
    ("an error", "B refuse 1 overflow 5", "B refuse 1 overflow 5"),
    (
        "names of syntaxes",
        "A alter add 7 as {2 999 7 1} {2 1 1}",
        "A alter add 7 ber",
    ),
    (
        "a foreign abstract syntax",
        "A alter add 9 as {2  1} packed {2 5} delete 5 7",
        "A alter add 9 as {2 1} packed {2 5} delete 5 7",
    ),
    (
        "two additions",
        "A alter add 7 ber add 9 der",
        "A alter add 7 ber add 9 der",
    ),
    ("an empty alteration", "A alter", "A alter"),
    ("a carry of nothing", "carry A 0", "carry A 0"),
    ("a carry of all", "carry B all\n# x", "carry B all"),
    ("a break", "break\n\n", "break"),
    ("a plea", "B please 3", "B please 3"),
    ("a restart", "A resync 1", "A resync 1"),
];

/// Whether the last event of a schedule is printed so.
fn is_last(
    rt: &impl Abort,
    alloc: Global,
    tables: &Tables,
    schedule: Schedule,
    wanted: &str,
) -> bool {
    let octets = printed(rt, alloc, tables, schedule.events.as_slice());
    drop(schedule);
    octets.as_slice() == wanted.as_bytes()
}

/// Whether a row's schedule is read, and its last event is printed as the row says.
fn is_printed(rt: &impl Abort, alloc: Global, tables: &Tables, row: &Row) -> bool {
    let (_, text, wanted) = row;
    match read_schedule(alloc, all_modes(), tables, text.as_bytes()) {
        Ok(schedule) => is_last(rt, alloc, tables, schedule, wanted),
        Err(_) => false,
    }
}

#[test]
fn events_are_read_and_printed_again(rt: HostRuntime) {
    let tables = calc(&rt, rt.alloc());
    for row in &ROWS {
        assert!(rt; is_printed(&rt, rt.alloc(), &tables, row), "{}", row.0);
    }
    drop(tables);
}

/// The operations 0 and then 1 are accepted under the identifier 1.
fn accepted_twice(alloc: Global) -> Result<InvokedOperations, NoMemory> {
    let mut invoked = InvokedOperations::new(alloc);
    invoked.accept(Side::A, 1, 0)?;
    invoked.accept(Side::A, 1, 1)?;
    Ok(invoked)
}

/// Of an identifier that comes again the later operation counts.
#[test]
fn the_later_operation_counts(rt: HostRuntime) {
    let invoked = accepted_twice(rt.alloc()).expect(&rt, "memory");
    assert!(rt; invoked.of(Side::A) == [1].as_slice());
    drop(invoked);
}
