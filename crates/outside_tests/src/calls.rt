//! Calls of a line, told as steps, which one function judges; and the calls that are to fail.

use osi_base::{Failed, FailingCalls, Line, LineFault, Name};
use std::alloc::Global;
use std::process::Abort;
use std::test::*;

/// A call of a line, and what it gives.
#[derive(Clone, Copy)]
pub enum Step {
    /// Calls this host at the port 102.
    Open(&'static str, Result<(), LineFault>),
    /// Waits for a connection at this port.
    Accept(u16, Result<(), LineFault>),
    /// Reads so many octets into a room of eight.
    Read(Result<usize, LineFault>),
    /// Reads so many octets into a room of four.
    ReadFour(Result<usize, LineFault>),
    /// Reads these octets into a room of eight.
    Gives(&'static str),
    /// Writes so many of these octets.
    Write(&'static str, Result<usize, LineFault>),
    /// Shuts the connection.
    Shut(Result<(), Failed>),
}

/// What a call for a connection to this host gives.
fn opened<L: Line>(
    rt: &impl Abort,
    alloc: Global,
    line: &mut L,
    host: &str,
) -> Result<(), LineFault> {
    let host = Name::from_str(alloc, host).expect(rt, "memory");
    let opened = line.open(alloc, &host, 102);
    drop(host);
    opened
}

/// Whether one call of `read` gives these octets.
fn gives<L: Line>(line: &mut L, wanted: &[u8]) -> bool {
    let mut room = [0; 8];
    match line.read(&mut room) {
        Ok(filled) => &room[..filled] == wanted,
        Err(_) => false,
    }
}

/// Whether the call gives what it should.
fn goes<L: Line>(rt: &impl Abort, alloc: Global, line: &mut L, step: &Step) -> bool {
    match step {
        Step::Open(host, wanted) => opened(rt, alloc, line, host) == *wanted,
        Step::Accept(port, wanted) => line.accept(alloc, *port) == *wanted,
        Step::Read(wanted) => line.read(&mut [0; 8]) == *wanted,
        Step::ReadFour(wanted) => line.read(&mut [0; 4]) == *wanted,
        Step::Gives(wanted) => gives(line, wanted.as_bytes()),
        Step::Write(octets, wanted) => line.write(octets.as_bytes()) == *wanted,
        Step::Shut(wanted) => line.shut() == *wanted,
    }
}

/// Each call gives what it should.
pub fn go<L: Line>(rt: &impl Abort, alloc: Global, line: &mut L, shows: &str, steps: &[Step]) {
    for (place, step) in steps.iter().enumerate() {
        assert!(rt; goes(rt, alloc, line, step), "{shows}, step {place}");
    }
}

/// The calls with these numbers are to fail.
pub fn failing(rt: &impl Abort, alloc: Global, numbers: &[u64]) -> FailingCalls {
    FailingCalls::new(Vec::from_slice(alloc, numbers).expect(rt, "memory"))
}
