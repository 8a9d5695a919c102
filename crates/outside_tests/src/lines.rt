//! Lines in memory.

use crate::calls::Step::{Accept, Gives, Open, Read, Shut, Write};
use crate::calls::{Step, failing, go};
use osi_base::{Failed, LineFault, MemLine, Octets, SureLine};
use std::alloc::Global;
use std::collections::VecDeque;
use std::process::Abort;
use std::test::*;

/// What two peers say.
fn peers(rt: &impl Abort, alloc: Global) -> VecDeque<Octets> {
    let mut peers = VecDeque::new(alloc);
    for said in ["abc", "de"] {
        let said = Octets::from_slice(alloc, said.as_bytes()).expect(rt, "memory");
        peers.push_back(said).expect(rt, "memory");
    }
    peers
}

/// A line to them of which the calls with these numbers fail, and each other takes two octets at
/// most.
fn mem_line(rt: &impl Abort, alloc: Global, numbers: &[u64]) -> MemLine {
    MemLine::new(alloc, peers(rt, alloc), 2, failing(rt, alloc, numbers))
}

const ONE_PEER: [Step; 4] = [Accept(102, Ok(())), Gives("ab"), Gives("c"), Gives("")];

#[test]
fn a_line_in_memory_gives_what_its_peer_says(rt: HostRuntime) {
    let mut line = mem_line(&rt, rt.alloc(), &[]);
    go(&rt, rt.alloc(), &mut line, "one peer", &ONE_PEER);
    drop(line);
}

const NEXT_PEER: [Step; 3] = [Accept(102, Ok(())), Accept(102, Ok(())), Gives("de")];

const NO_PEER: [Step; 2] = [Accept(102, Ok(())), Gives("")];

#[test]
fn the_next_connection_is_to_the_next_peer(rt: HostRuntime) {
    let mut line = mem_line(&rt, rt.alloc(), &[]);
    go(&rt, rt.alloc(), &mut line, "the next peer", &NEXT_PEER);
    let octets_read = line.octets_read;
    go(
        &rt,
        rt.alloc(),
        &mut line,
        "there is no third peer",
        &NO_PEER,
    );
    drop(line);
    assert!(rt; octets_read == 2);
}

const FAILING: [Step; 7] = [
    Accept(102, Err(LineFault::Failed)),
    Accept(102, Ok(())),
    Read(Err(LineFault::Failed)),
    Read(Ok(2)),
    Write("xyz", Err(LineFault::Failed)),
    Write("xyz", Ok(2)),
    Shut(Ok(())),
];

#[test]
fn a_line_in_memory_fails_where_it_is_to(rt: HostRuntime) {
    let mut line = mem_line(&rt, rt.alloc(), &[0, 2, 4]);
    go(&rt, rt.alloc(), &mut line, "three faults", &FAILING);
    let faults = line.failing.faults;
    drop(line);
    assert!(rt; faults == 3);
}

const FAILING_SHUT: [Step; 3] = [Accept(102, Ok(())), Shut(Err(Failed)), Shut(Ok(()))];

#[test]
fn a_shut_that_is_to_fail_does(rt: HostRuntime) {
    let mut line = mem_line(&rt, rt.alloc(), &[1]);
    go(&rt, rt.alloc(), &mut line, "one fault", &FAILING_SHUT);
    let faults = line.failing.faults;
    drop(line);
    assert!(rt; faults == 1);
}

const TWO_SHUTS: [Step; 4] = [
    Write("ab", Ok(2)),
    Shut(Ok(())),
    Shut(Ok(())),
    Accept(102, Ok(())),
];

/// What was written, two shuts and a call behind them, as they stand in the log.
#[test]
fn two_shuts_and_what_was_written_before_are_told(rt: HostRuntime) {
    let mut line = mem_line(&rt, rt.alloc(), &[]);
    go(&rt, rt.alloc(), &mut line, "two shuts", &TWO_SHUTS);
    let log = format!(in rt.alloc(); "{:?}", line.log).expect(&rt, "memory");
    drop(line);
    let told = "CallLog { calls: [Write(Octets { items: [97, 98] }, Done), Shut(Done), \
        Shut(Done), Accept(102, Done)]";
    let is_told = log.as_str().starts_with(told);
    drop(log);
    assert!(rt; is_told);
}

const SURE: [Step; 6] = [
    Open("localhost", Ok(())),
    Write("abc", Ok(3)),
    Read(Ok(0)),
    Shut(Ok(())),
    Shut(Ok(())),
    Accept(102, Ok(())),
];

#[test]
fn a_line_that_never_fails_takes_all_and_gives_the_end(rt: HostRuntime) {
    let mut line = SureLine::new(rt.alloc());
    go(&rt, rt.alloc(), &mut line, "no fault", &SURE);
    drop(line);
}
