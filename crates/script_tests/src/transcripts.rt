//! Transcripts as texts, whole and as summaries. The lines follow from the entries that the tests
//! make, one after the other, and the numbers of a summary are counted in them.

use crate::refusals::calc;
use asn1_types::{Node, Val};
use dialogue::{Call, CallRefusal, Carried, Entries, Entry, Indication, Mode, Phase, Transcript};
use module_reading::read_module;
use osi_base::{ListOf, Octets, Problem, ProblemKind, Side};
use std::alloc::Global;
use std::process::Abort;
use std::test::*;
use stub_tables::Tables;
use transcript_text::{summary_text, transcript_text};

fn number(number: i64) -> Option<Val> {
    Some(Val {
        node: Node::Int(number),
    })
}

fn call(side: Side, call: Call, answer: Result<Option<i64>, CallRefusal>) -> Entry {
    Entry::Call { side, call, answer }
}

fn invoke(operation: u32, argument: Option<Val>) -> Call {
    Call::Invoke {
        context: 0,
        operation,
        argument,
        linked: None,
    }
}

/// A carry of all octets, of which the other side indicates one thing.
fn carry(
    rt: &impl Abort,
    alloc: Global,
    side: Side,
    octets: &[u8],
    indication: Indication,
) -> Entry {
    let mut shown = ListOf::new(alloc);
    shown.push(indication).expect(rt, "memory");
    let octets = Octets::from_slice(alloc, octets).expect(rt, "memory");
    Entry::Carry {
        side,
        most: None,
        carried: Carried { octets, shown },
    }
}

fn of_bare_mode(entries: Entries) -> Transcript {
    Transcript {
        mode: Mode::Bare,
        entries,
        a: Phase::Up,
        b: Phase::Up,
    }
}

/// An addition is invoked.
fn put_invocation(rt: &impl Abort, alloc: Global, entries: &mut Entries) {
    let invocation = call(Side::A, invoke(0, number(5)), Ok(Some(1)));
    entries.push(invocation).expect(rt, "memory");
    let invoked = Indication::Invoked {
        id: 1,
        operation: 0,
        linked: None,
        argument: number(5),
    };
    let octets = b"\xA1\x09\x02\x01\x01\x02\x01\x01\x02\x01\x05";
    let carried = carry(rt, alloc, Side::A, octets.as_slice(), invoked);
    entries.push(carried).expect(rt, "memory");
}

/// It is answered.
fn put_answer(rt: &impl Abort, alloc: Global, entries: &mut Entries) {
    let answer = Call::Answer {
        id: 1,
        result: number(5),
    };
    entries
        .push(call(Side::B, answer, Ok(None)))
        .expect(rt, "memory");
    let shown = Indication::Result {
        id: 1,
        value: number(5),
    };
    let octets = b"\xA2\x0B\x02\x01\x01\x30\x06\x02\x01\x01\x02\x01\x05";
    let carried = carry(rt, alloc, Side::B, octets.as_slice(), shown);
    entries.push(carried).expect(rt, "memory");
}

/// One addition and its result (X.880 8).
fn addition(rt: &impl Abort, alloc: Global) -> Transcript {
    let mut entries = ListOf::new(alloc);
    put_invocation(rt, alloc, &mut entries);
    put_answer(rt, alloc, &mut entries);
    of_bare_mode(entries)
}

/// Whether a transcript is printed so.
fn is_printed(
    rt: &impl Abort,
    alloc: Global,
    tables: &Tables,
    transcript: Transcript,
    wanted: &str,
) -> bool {
    let text = transcript_text(alloc, tables, &transcript).expect(rt, "memory");
    drop(transcript);
    text.as_slice() == wanted.as_bytes()
}

const ADDITION: &'static str = "mode bare
1 A invoke 0 add 5
  ok 1
2 carry A all
  A>B A1 09 02 01 01 02 01 01 02 01 05
  B: invoked 1 add 5
3 B answer 1 5
  ok
4 carry B all
  B>A A2 0B 02 01 01 30 06 02 01 01 02 01 05
  A: result 1 5
end A up
end B up
";

#[test]
fn an_addition(rt: HostRuntime) {
    let tables = calc(&rt, rt.alloc());
    let transcript = addition(&rt, rt.alloc());
    assert!(rt; is_printed(&rt, rt.alloc(), &tables, transcript, ADDITION));
    drop(tables);
}

const SUMMED_UP: &'static str = "events 4
octets A>B 11
octets B>A 13
values 2
outcomes 1
rejects 0
cut 0
transfers 0
refused 0
end A up
end B up
";

#[test]
fn an_addition_summed_up(rt: HostRuntime) {
    let transcript = addition(&rt, rt.alloc());
    let text = summary_text(rt.alloc(), &transcript).expect(&rt, "memory");
    drop(transcript);
    assert!(rt; text.as_slice() == SUMMED_UP.as_bytes());
}

/// A module with an ENUMERATED.
const COLOURS: &'static str = "M {2 999 1} DEFINITIONS ::= BEGIN
ask OPERATION ::= {ARGUMENT INTEGER RESULT INTEGER CODE local:1}
pick OPERATION ::= {RESULT ENUMERATED {red(0), light-blue(1)} CODE local:2}
END
";

/// Calls of that module, of which the second is accepted.
fn put_calls(rt: &impl Abort, entries: &mut Entries) {
    let ask = call(Side::A, invoke(0, None), Err(CallRefusal::NotTyped));
    entries.push(ask).expect(rt, "memory");
    let pick = call(Side::A, invoke(1, None), Ok(Some(1)));
    entries.push(pick).expect(rt, "memory");
    let answer = Call::Answer {
        id: 2,
        result: number(1),
    };
    let refused = Err(CallRefusal::NoInvocation(2));
    entries
        .push(call(Side::B, answer, refused))
        .expect(rt, "memory");
}

/// Its result comes, then a reject is sent, and the connection breaks.
fn put_indications(rt: &impl Abort, alloc: Global, entries: &mut Entries) {
    let shown = Indication::Result {
        id: 1,
        value: number(1),
    };
    entries
        .push(carry(rt, alloc, Side::B, &[], shown))
        .expect(rt, "memory");
    let sent = Indication::RejectSent {
        id: None,
        problem: Problem {
            kind: ProblemKind::General,
            number: 1,
        },
    };
    entries
        .push(carry(rt, alloc, Side::A, &[0], sent))
        .expect(rt, "memory");
    entries.push(Entry::Break).expect(rt, "memory");
}

fn of_colours(rt: &impl Abort, alloc: Global) -> Transcript {
    let mut entries = ListOf::new(alloc);
    put_calls(rt, &mut entries);
    put_indications(rt, alloc, &mut entries);
    of_bare_mode(entries)
}

const COLOURED: &'static str = "mode bare
1 A invoke 0 ask
  refused NotTyped
2 A invoke 0 pick
  ok 1
3 B answer 2 light-blue
  refused NoInvocation 2
4 carry B all
  B>A
  A: result 1 light-blue
5 carry A all
  A>B 00
  B: reject sent - general 1
6 break
end A up
end B up
";

/// Colours are printed by their names, of results by the invocation that was accepted.
#[test]
fn values_print_by_their_types(rt: HostRuntime) {
    let tables = read_module(rt.alloc(), COLOURS.as_bytes()).expect(&rt, "the module is read");
    let transcript = of_colours(&rt, rt.alloc());
    assert!(rt; is_printed(&rt, rt.alloc(), &tables, transcript, COLOURED));
    drop(tables);
}

const COLOURS_SUMMED_UP: &'static str = "events 6
octets A>B 1
octets B>A 0
values 2
outcomes 1
rejects 1
cut 0
transfers 0
refused 2
end A up
end B up
";

/// Refused calls are no values: the two are a result and a reject.
#[test]
fn colours_summed_up(rt: HostRuntime) {
    let transcript = of_colours(&rt, rt.alloc());
    let text = summary_text(rt.alloc(), &transcript).expect(&rt, "memory");
    drop(transcript);
    assert!(rt; text.as_slice() == COLOURS_SUMMED_UP.as_bytes());
}
